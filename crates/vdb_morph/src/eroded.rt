//! One iteration of erosion.

ghost use Rattle.std.specs.Prelude.{◌≡◌, true, IfOk, IsOk, IsTrue};
ghost use Rattle.vdb_coord.specs.Blocks.{vdb};
ghost use Rattle.vdb_coord.specs.Space.{is_inside};
ghost use Rattle.vdb_coord.specs.declared.Coord.{Coord};
ghost use Rattle.vdb_tree.specs.Field.{erode};
ghost use Rattle.vdb_tree.specs.Layout.{field_of};
ghost use Rattle.vdb_tree.specs.Parts.{IsPartOfLeaf, OnLeaf, OnTile};
ghost use Rattle.vdb_morph.specs.internal.Eroding.{Erodes, IsEither, IsEroded, IsSettled};
ghost use Rattle.vdb_morph.specs.internal.Iterating.{topology};

use crate::erode_block::erode_block;
use crate::faces::{behind, opposite};
use crate::states::topology_of;
use vdb_coord::{Bits, Bounds, Face, Level};
use vdb_node::{Leaf, Stored};
use vdb_pool::Steps;
use vdb_tree::{Content, Part, Skip, Tree, TreeRefusal};
use vdb_value::Cell;
use vdb_walk::count;

/// Returns the states of a tree after one iteration of erosion. Returns an error if an allocation fails.
pub(crate) fn eroded<V: Stored<512> + Stored<64> + Stored<8>>(
    tree: &Tree<V>,
    steps: &mut Steps,
) -> Result<Tree<bool>, TreeRefusal>
    ensures { IfOk result (λ states. field_of vdb states ≡ topology (erode (field_of vdb tree.now))) }
{
    let mut states = topology_of(tree, steps)?;
    let mut walk = tree.parts(Bounds::all(), Skip::Inactive);
    'parts: while let Some(part) = tree.next_part(&mut walk, steps) {
        erode_part(tree, &mut states, part, steps)?;
    }
    Ok(states)
}

/// Sets each voxel of a part of the tree to its state after one iteration of erosion, if it had the state from before or after
/// it. Any other voxel keeps its state or gets the one from after the iteration. Returns an error if an allocation fails.
fn erode_part<V: Stored<512> + Stored<64> + Stored<8>>(
    tree: &Tree<V>,
    states: &mut Tree<bool>,
    part: Part<V, &Leaf<V, 3, 8>>,
    steps: &mut Steps,
) -> Result<(), TreeRefusal>
    requires tile { OnTile part.content (λ cell. (q : Coord) → IsTrue (is_inside part.bounds q) → (field_of vdb tree.now).cell q ≡ cell) }
    requires leaf { OnLeaf part.content (λ leaf. IsPartOfLeaf vdb (field_of vdb tree.now) part.bounds leaf.now) }
    ensures here { IsOk result → (q : Coord) → IsTrue (is_inside part.entry.bounds q) → IsEither (field_of vdb tree.now) (field_of vdb states.old) q → IsEroded (field_of vdb tree.now) (field_of vdb states.new) q }
    ensures erodes { IsOk result → Erodes (field_of vdb tree.now) (field_of vdb states.old) (field_of vdb states.new) }
{
    let Part { bounds, content } = part;
    match content {
        Content::Tile(cell) => erode_tile(tree, states, cell, bounds, steps),
        Content::Leaf(leaf) => erode_leaf(tree, states, leaf, bounds, steps),
    }
}

/// Sets the voxels of a part of a leaf, and all others of its leaf extent, to the states of the tree after one iteration of
/// erosion. Returns an error if an allocation fails.
fn erode_leaf<V: Stored<512> + Stored<64> + Stored<8>>(
    tree: &Tree<V>,
    states: &mut Tree<bool>,
    leaf: &Leaf<V, 3, 8>,
    part: Bounds,
    steps: &mut Steps,
) -> Result<(), TreeRefusal>
    requires { IsPartOfLeaf vdb (field_of vdb tree.now) part leaf.now }
    ensures here { IsOk result → (q : Coord) → IsTrue (is_inside part q) → IsEroded (field_of vdb tree.now) (field_of vdb states.new) q }
    ensures erodes { IsOk result → Erodes (field_of vdb tree.now) (field_of vdb states.old) (field_of vdb states.new) }
{
    let _ = leaf;
    erode_block(tree, states, part.min(), steps)
}

/// Sets each voxel of a box to its state after one iteration of erosion, if it had the state from before or after it. All voxels
/// of the box have this cell in the tree. Any other voxel keeps its state or gets the one from after the iteration. Returns an
/// error if an allocation fails.
fn erode_tile<V: Stored<512> + Stored<64> + Stored<8>>(
    tree: &Tree<V>,
    states: &mut Tree<bool>,
    cell: Cell<V>,
    bounds: Bounds,
    steps: &mut Steps,
) -> Result<(), TreeRefusal>
    requires { (q : Coord) → IsTrue (is_inside bounds q) → (field_of vdb tree.now).cell q ≡ cell }
    ensures here { IsOk result → (q : Coord) → IsTrue (is_inside bounds q) → IsEither (field_of vdb tree.now) (field_of vdb states.old) q → IsEroded (field_of vdb tree.now) (field_of vdb states.new) q }
    ensures erodes { IsOk result → Erodes (field_of vdb tree.now) (field_of vdb states.old) (field_of vdb states.new) }
{
    if !cell.on {
        return Ok(());
    }
    let corner = bounds.min();
    if bounds != corner.block(Level::Leaf) {
        return erode_box(tree, states, bounds, steps);
    }
    erode_block(tree, states, corner, steps)
}

/// Sets each voxel of a box to its state after one iteration of erosion, if it had the state from before or after it. All voxels
/// of the box are active in the tree. Any other voxel keeps its state or gets the one from after the iteration. Returns an error
/// if an allocation fails.
fn erode_box<V: Stored<512> + Stored<64> + Stored<8>>(
    tree: &Tree<V>,
    states: &mut Tree<bool>,
    bounds: Bounds,
    steps: &mut Steps,
) -> Result<(), TreeRefusal>
    requires { (q : Coord) → IsTrue (is_inside bounds q) → ((field_of vdb tree.now).cell q).on ≡ true }
    ensures here { IsOk result → (q : Coord) → IsTrue (is_inside bounds q) → IsEither (field_of vdb tree.now) (field_of vdb states.old) q → IsEroded (field_of vdb tree.now) (field_of vdb states.new) q }
    ensures erodes { IsOk result → Erodes (field_of vdb tree.now) (field_of vdb states.old) (field_of vdb states.new) }
{
    for face in Face::ALL {
        erode_face(tree, states, bounds, face, steps)?;
    }
    Ok(())
}

/// Sets the voxels along a face of a box to their states after one iteration of erosion, unless everything behind that face is
/// active. All voxels of the box are active in the tree. Any other voxel keeps its state or gets the one from after the
/// iteration. Returns an error if an allocation fails.
fn erode_face<V: Stored<512> + Stored<64> + Stored<8>>(
    tree: &Tree<V>,
    states: &mut Tree<bool>,
    bounds: Bounds,
    face: Face,
    steps: &mut Steps,
) -> Result<(), TreeRefusal>
    requires { (q : Coord) → IsTrue (is_inside bounds q) → ((field_of vdb tree.now).cell q).on ≡ true }
    ensures settled { IsOk result → (q : Coord) → IsTrue (is_inside bounds q) → IsSettled (field_of vdb tree.now) (field_of vdb states.new) face q }
    ensures erodes { IsOk result → Erodes (field_of vdb tree.now) (field_of vdb states.old) (field_of vdb states.new) }
{
    let _ = bounds.min(); // tells the proof that the box lies within the range
    let Some(slab) = behind(bounds, face) else {
        return Ok(());
    };
    if count(tree, Some(slab), steps) == slab.volume() {
        return Ok(());
    }
    match behind(slab, opposite(face)) {
        Some(layer) => erode_blocks(tree, states, layer, steps),
        None => Ok(()),
    }
}

/// Sets each leaf extent that meets a box to the states of the tree after one iteration of erosion. Returns an error if an
/// allocation fails.
fn erode_blocks<V: Stored<512> + Stored<64> + Stored<8>>(
    tree: &Tree<V>,
    states: &mut Tree<bool>,
    bounds: Bounds,
    steps: &mut Steps,
) -> Result<(), TreeRefusal>
    ensures here { IsOk result → (q : Coord) → IsTrue (is_inside bounds q) → IsEroded (field_of vdb tree.now) (field_of vdb states.new) q }
    ensures erodes { IsOk result → Erodes (field_of vdb tree.now) (field_of vdb states.old) (field_of vdb states.new) }
{
    let mut at = Some(bounds.min());
    'coords: while let Some(p) = at {
        erode_block(tree, states, p, steps)?;
        at = bounds.next_coord_in(Bits::VDB, Level::Leaf, p);
    }
    Ok(())
}
