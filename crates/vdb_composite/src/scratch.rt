//! One leaf that copies the cells of a tree's block, and then combines them with another tree's.

ghost use Rattle.std.specs.Prelude.{◌≡◌, IfNone, IfSome, IsTrue, Some};
ghost use Rattle.vdb_coord.specs.Blocks.{offset, vdb};
ghost use Rattle.vdb_coord.specs.Space.{is_inside};
ghost use Rattle.vdb_coord.specs.declared.Coord.{Coord};
ghost use Rattle.vdb_coord.specs.declared.Level.TheVariants.{Leaf as leaf_level};
ghost use Rattle.vdb_node.specs.Leaf.{cell_in};
ghost use Rattle.vdb_value.specs.declared.Cell.{Cell};
ghost use Rattle.vdb_tree.specs.Layout.{field_of};
ghost use Rattle.vdb_tree.specs.Parts.{IsPartOfLeaf};
ghost use Rattle.vdb_value.specs.Blends.{blended};
ghost use Rattle.vdb_composite.specs.Mixes.{mixed_cell};

use crate::mix::Mix;
use vdb_coord::{Bounds, Level};
use vdb_node::{Leaf, Stored};
use vdb_tree::Tree;
use vdb_value::Cell;

/// Copies the cells that a tree has over a leaf extent to the scratch leaf: those of a tile or, if the tile is
/// `None`, of a leaf.
pub(crate) fn take_cells<V: Stored<512> + Stored<64> + Stored<8>>(
    scratch: &mut Leaf<V, 3, 8>,
    tree: &Tree<V>,
    bounds: Bounds,
    tile: Option<Cell<V>>,
    leaf: &Leaf<V, 3, 8>,
)
    requires tile { IfSome tile (λ tile. (q : Coord) → IsTrue (is_inside bounds q) → (field_of vdb tree.now).cell q ≡ tile) }
    requires leaf { IfNone tile (IsPartOfLeaf vdb (field_of vdb tree.now) bounds leaf.now) }
    ensures { (d : Cell V) (q : Coord) → IsTrue (is_inside bounds q) → (field_of vdb tree.now).cell q ≡ cell_in d scratch.new (offset vdb leaf_level q) }
{
    let _ = tree.mask_words();
    let count = u32::from(tree.bits().entries(Level::Leaf));
    match tile {
        Some(cell) => scratch.fill_run(0, count, cell),
        None => {
            let _ = leaf.entry(count - 1); // the proof learns from it that the leaf has all entries
            scratch.copy_from(leaf);
        }
    }
}

/// Combines the scratch leaf's cells with those that a tree has over a leaf extent: of a tile or, if the tile is
/// `None`, of a leaf. Returns false if some two values have no sum.
pub(crate) fn mix_cells<V: Stored<512> + Stored<64> + Stored<8>>(
    scratch: &mut Leaf<V, 3, 8>,
    other: &Tree<V>,
    bounds: Bounds,
    tile: Option<Cell<V>>,
    leaf: &Leaf<V, 3, 8>,
    mix: Mix,
) -> bool
    requires tile { IfSome tile (λ tile. (q : Coord) → IsTrue (is_inside bounds q) → (field_of vdb other.now).cell q ≡ tile) }
    requires leaf { IfNone tile (IsPartOfLeaf vdb (field_of vdb other.now) bounds leaf.now) }
    ensures { IsTrue result → (d : Cell V) (q : Coord) → IsTrue (is_inside bounds q)
        → mixed_cell (blended V.greater V.lesser V.sum_of) mix (cell_in d scratch.old (offset vdb leaf_level q)) ((field_of vdb other.now).cell q) ≡ Some (cell_in d scratch.new (offset vdb leaf_level q)) }
{
    match tile {
        Some(cell) => mix_tile(scratch, other, bounds, cell, mix),
        None => mix_leaf(scratch, other, bounds, leaf, mix),
    }
}

/// Combines the scratch leaf's cells with a tile's.
fn mix_tile<V: Stored<512> + Stored<64> + Stored<8>>(
    scratch: &mut Leaf<V, 3, 8>,
    other: &Tree<V>,
    bounds: Bounds,
    tile: Cell<V>,
    mix: Mix,
) -> bool
    requires { (q : Coord) → IsTrue (is_inside bounds q) → (field_of vdb other.now).cell q ≡ tile }
    ensures { IsTrue result → (d : Cell V) (q : Coord) → IsTrue (is_inside bounds q)
        → mixed_cell (blended V.greater V.lesser V.sum_of) mix (cell_in d scratch.old (offset vdb leaf_level q)) ((field_of vdb other.now).cell q) ≡ Some (cell_in d scratch.new (offset vdb leaf_level q)) }
{
    let _ = other.mask_words();
    let _ = bounds;
    match mix {
        Mix::Values(how) => scratch.blend_with(tile, how),
        Mix::Replace => {
            if tile.on {
                scratch.fill_run(0, u32::from(other.bits().entries(Level::Leaf)), tile);
            }
            true
        }
    }
}

/// Combines the scratch leaf's cells with a leaf's.
fn mix_leaf<V: Stored<512> + Stored<64> + Stored<8>>(
    scratch: &mut Leaf<V, 3, 8>,
    other: &Tree<V>,
    bounds: Bounds,
    leaf: &Leaf<V, 3, 8>,
    mix: Mix,
) -> bool
    requires { IsPartOfLeaf vdb (field_of vdb other.now) bounds leaf.now }
    ensures { IsTrue result → (d : Cell V) (q : Coord) → IsTrue (is_inside bounds q)
        → mixed_cell (blended V.greater V.lesser V.sum_of) mix (cell_in d scratch.old (offset vdb leaf_level q)) ((field_of vdb other.now).cell q) ≡ Some (cell_in d scratch.new (offset vdb leaf_level q)) }
{
    let _ = other.mask_words();
    let _ = bounds;
    let count = u32::from(other.bits().entries(Level::Leaf));
    let _ = leaf.entry(count - 1); // the proof learns from it that the leaf has all entries
    match mix {
        Mix::Values(how) => scratch.blend(leaf, how),
        Mix::Replace => {
            scratch.take_active(leaf);
            true
        }
    }
}
