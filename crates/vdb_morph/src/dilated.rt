//! One iteration of dilation.

ghost use Rattle.std.specs.Prelude.{◌≡◌, ◌&&◌, false, true, IfOk, IsOk, IsTrue};
ghost use Rattle.vdb_coord.specs.Blocks.{offset, vdb};
ghost use Rattle.vdb_coord.specs.Space.{everywhere, is_inside};
ghost use Rattle.vdb_coord.specs.declared.Coord.{Coord};
ghost use Rattle.vdb_coord.specs.declared.Level.TheVariants.{Leaf as leaf_level};
ghost use Rattle.vdb_mask.specs.Mask.{is_on};
ghost use Rattle.vdb_tree.specs.Field.{dilate};
ghost use Rattle.vdb_tree.specs.Layout.{field_of};
ghost use Rattle.vdb_tree.specs.Parts.{IsWalk};
ghost use Rattle.vdb_morph.specs.internal.Behind.{is_behind_any};
ghost use Rattle.vdb_morph.specs.internal.Iterating.{is_around, spread, topology, with_active};

use crate::faces::behind;
use crate::spread_block::spread_block;
use crate::states::topology_of;
use vdb_coord::{Bounds, Coord, Face, Level};
use vdb_mask::Mask;
use vdb_node::{Internal, Leaf, Stored};
use vdb_pool::Steps;
use vdb_region::fill;
use vdb_tree::{Content, Part, Skip, Tree, TreeRefusal, Walk};
use vdb_value::Cell;

/// Returns the states of a tree after one iteration of dilation. Returns an error if an allocation fails.
pub(crate) fn dilated<V: Stored<512> + Stored<64> + Stored<8>>(
    tree: &Tree<V>,
    steps: &mut Steps,
) -> Result<Tree<bool>, TreeRefusal>
    ensures { IfOk result (λ states. field_of vdb states ≡ topology (dilate (field_of vdb tree.now))) }
{
    let mut states = topology_of(tree, steps)?;
    let mut walk = tree.parts(Bounds::all(), Skip::Inactive);
    'parts: while let Some(part) = tree.next_part(&mut walk, steps) {
        let Part { bounds, content } = part;
        match content {
            Content::Tile(cell) => spread_tile(&mut states, cell.on, bounds, steps)?,
            Content::Leaf(_) => spread_leaf(tree, &walk, bounds.min(), &mut states, steps)?,
        }
    }
    Ok(states)
}

/// Activates the face neighbours of a tile's voxels if the tile is active, in a tree whose values are all false. Returns an error
/// if an allocation fails.
fn spread_tile(
    states: &mut Tree<bool>,
    on: bool,
    bounds: Bounds,
    steps: &mut Steps,
) -> Result<(), TreeRefusal>
    requires on { IsTrue on → (q : Coord) → IsTrue (is_inside bounds q) → ((field_of vdb states.old).cell q).on ≡ true }
    requires values { (q : Coord) → ((field_of vdb states.old).cell q).value ≡ false }
    ensures { IsOk result → field_of vdb states.new ≡ spread (λ q. on && is_inside bounds q) (field_of vdb states.old) }
{
    if on {
        spread_voxels(states, bounds, steps)
    } else {
        Ok(())
    }
}

/// Activates the face neighbours of the voxels of a box that is active, in a tree whose values are all false. If the box is a
/// leaf extent, it works by words. Returns an error if an allocation fails.
fn spread_voxels(
    states: &mut Tree<bool>,
    bounds: Bounds,
    steps: &mut Steps,
) -> Result<(), TreeRefusal>
    requires on { (q : Coord) → IsTrue (is_inside bounds q) → ((field_of vdb states.old).cell q).on ≡ true }
    requires values { (q : Coord) → ((field_of vdb states.old).cell q).value ≡ false }
    ensures { IsOk result → field_of vdb states.new ≡ spread (is_inside bounds) (field_of vdb states.old) }
{
    let corner = bounds.min();
    if bounds != corner.block(Level::Leaf) {
        return spread_box(states, bounds, steps);
    }
    spread_block(states, corner, &Mask::filled(true), steps)
}

/// Activates the face neighbours of the active voxels of p's leaf extent. `walk` is a walk over the tree. If the walk is in that
/// leaf, one node visit finds the leaf. Returns an error if an allocation fails.
fn spread_leaf<V: Stored<512> + Stored<64> + Stored<8>>(
    tree: &Tree<V>,
    walk: &Walk<Internal<V, 5, 512>, Internal<V, 4, 64>, Leaf<V, 3, 8>>,
    p: Coord,
    states: &mut Tree<bool>,
    steps: &mut Steps,
) -> Result<(), TreeRefusal>
    requires { IsWalk vdb tree.now walk.now }
    ensures { IsOk result → field_of vdb states.new
        ≡ spread (λ q. is_around vdb p q && ((field_of vdb tree.now).cell q).on) (field_of vdb states.old) }
{
    let marks = block_states(tree, walk, p, steps);
    spread_block(states, p, &marks, steps)
}

/// Returns the states of the voxels of p's leaf extent, each at its entry. `walk` is a walk over the tree.
fn block_states<V: Stored<512> + Stored<64> + Stored<8>>(
    tree: &Tree<V>,
    walk: &Walk<Internal<V, 5, 512>, Internal<V, 4, 64>, Leaf<V, 3, 8>>,
    p: Coord,
    steps: &mut Steps,
) -> Mask<8>
    requires { IsWalk vdb tree.now walk.now }
    ensures { (q : Coord) → IsTrue (is_inside everywhere q) → IsTrue (is_around vdb p q) → is_on result (offset vdb leaf_level q) ≡ ((field_of vdb tree.now).cell q).on }
{
    match tree.leaf_of(walk, p, steps) {
        Some(leaf) => leaf.states().copied(),
        None => Mask::filled(tree.get(p, steps).on),
    }
}

/// Activates the face neighbours of the voxels of a box that is active, in a tree whose values are all false. Returns an error if
/// an allocation fails.
fn spread_box(states: &mut Tree<bool>, bounds: Bounds, steps: &mut Steps) -> Result<(), TreeRefusal>
    requires on { (q : Coord) → IsTrue (is_inside bounds q) → ((field_of vdb states.old).cell q).on ≡ true }
    requires values { (q : Coord) → ((field_of vdb states.old).cell q).value ≡ false }
    ensures { IsOk result → field_of vdb states.new ≡ spread (is_inside bounds) (field_of vdb states.old) }
{
    let _ = bounds.min(); // tells the proof that the box lies in the range
    fill_behind(states, bounds, &Face::ALL, steps)
}

/// Activates the voxels right behind these faces of a box, in a tree whose values are all false. Returns an error if an
/// allocation fails.
fn fill_behind(
    states: &mut Tree<bool>,
    bounds: Bounds,
    faces: &[Face],
    steps: &mut Steps,
) -> Result<(), TreeRefusal>
    requires { (q : Coord) → ((field_of vdb states.old).cell q).value ≡ false }
    ensures { IsOk result → field_of vdb states.new ≡ with_active (is_behind_any faces.now bounds) (field_of vdb states.old) }
{
    match faces.split_first() {
        None => Ok(()),
        Some((face, rest)) => {
            fill_behind(states, bounds, rest, steps)?;
            match behind(bounds, *face) {
                Some(slab) => {
                    let cell = Cell {
                        value: false,
                        on: true,
                    };
                    fill(states, slab, cell, steps)
                }
                None => Ok(()),
            }
        }
    }
}
