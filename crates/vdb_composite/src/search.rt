//! Searches in the combination of two trees: block by block, and voxel by voxel in leaf extents. They take no memory.

ghost use Rattle.std.specs.Prelude.{◌≡◌, ◌<◌, false, None, IfNone, IfSome, IsSome, IsTrue};
ghost use Rattle.vdb_coord.specs.Blocks.{block_around, entries, offset, vdb};
ghost use Rattle.vdb_coord.specs.Space.{everywhere, is_inside};
ghost use Rattle.vdb_coord.specs.declared.Coord.{Coord};
ghost use Rattle.vdb_coord.specs.declared.Level.TheVariants.{Leaf as leaf_level};
ghost use Rattle.vdb_tree.specs.Layout.{field_of};
ghost use Rattle.vdb_tree.specs.Parts.{IsPartOfLeaf, OnLeaf, OnTile};
ghost use Rattle.vdb_value.specs.Blends.{blended};
ghost use Rattle.vdb_composite.specs.Mixes.{HasMix, Meets, Misses, mixed_cell, mixed_value};

use crate::mix::Mix;
use vdb_coord::{Bounds, Level};
use vdb_node::{Leaf, Stored};
use vdb_pool::Steps;
use vdb_tree::{Content, Pair, Tree};
use vdb_value::{Cell, Voxel};

/// What a search looks for among the combined cells of two trees.
#[derive(Clone, Copy)]
pub(crate) enum Sought<V> {
    /// Two values that have no sum.
    Nothing,
    /// Any cell but this.
    OtherThan(Cell<V>),
}

impl<V: Voxel> Sought<V> {
    /// Returns whether the combination of two cells is what the search looks for.
    pub(crate) fn is_met(self, mixed: Option<Cell<V>>) -> bool
        ensures met { IsTrue result → Meets self mixed }
        ensures missed { result ≡ false → Misses self mixed }
    {
        match self {
            Sought::Nothing => mixed.is_none(),
            Sought::OtherThan(cell) => match mixed {
                Some(one) => one != cell,
                None => true,
            },
        }
    }
}

/// Returns whether some two values have no sum, the backgrounds aside.
pub(crate) fn lacks<V: Stored<512> + Stored<64> + Stored<8>>(
    tree: &Tree<V>,
    other: &Tree<V>,
    mix: Mix,
    steps: &mut Steps,
) -> bool
    requires background { IsSome (mixed_value (blended V.greater V.lesser V.sum_of) mix (field_of vdb tree.now).background (field_of vdb other.now).background) }
    ensures found { IsTrue result → (q : Coord) × IsTrue (is_inside everywhere q) × (mixed_cell (blended V.greater V.lesser V.sum_of) mix ((field_of vdb tree.now).cell q) ((field_of vdb other.now).cell q) ≡ None) }
    ensures none { result ≡ false → HasMix (blended V.greater V.lesser V.sum_of) mix (field_of vdb tree.now) (field_of vdb other.now) }
{
    let _ = tree.mask_words(); // the proof learns from it that nodes are small
    let mut walk = tree.pairs(other);
    'pairs: while let Some(pair) = tree.next_pair(other, &mut walk, steps) {
        let Pair {
            bounds,
            first,
            second,
        } = pair;
        if pair_meets(tree, other, bounds, first, second, mix, Sought::Nothing) {
            return true;
        }
    }
    false
}

/// Returns whether a coordinate of a pair's block combines to what the search looks for.
pub(crate) fn pair_meets<V: Stored<512> + Stored<64> + Stored<8>>(
    tree: &Tree<V>,
    other: &Tree<V>,
    bounds: Bounds,
    first: Content<V, &Leaf<V, 3, 8>>,
    second: Content<V, &Leaf<V, 3, 8>>,
    mix: Mix,
    sought: Sought<V>,
) -> bool
    requires first_tile { OnTile first (λ tile. (q : Coord) → IsTrue (is_inside bounds q) → (field_of vdb tree.now).cell q ≡ tile) }
    requires first_leaf { OnLeaf first (λ leaf. IsPartOfLeaf vdb (field_of vdb tree.now) bounds leaf.now × (bounds ≡ block_around vdb leaf_level bounds.min)) }
    requires second_tile { OnTile second (λ tile. (q : Coord) → IsTrue (is_inside bounds q) → (field_of vdb other.now).cell q ≡ tile) }
    requires second_leaf { OnLeaf second (λ leaf. IsPartOfLeaf vdb (field_of vdb other.now) bounds leaf.now × (bounds ≡ block_around vdb leaf_level bounds.min)) }
    ensures met { IsTrue result → (q : Coord) × IsTrue (is_inside bounds q) × Meets sought (mixed_cell (blended V.greater V.lesser V.sum_of) mix ((field_of vdb tree.now).cell q) ((field_of vdb other.now).cell q)) }
    ensures missed { result ≡ false → (q : Coord) → IsTrue (is_inside bounds q) → Misses sought (mixed_cell (blended V.greater V.lesser V.sum_of) mix ((field_of vdb tree.now).cell q) ((field_of vdb other.now).cell q)) }
{
    match first {
        Content::Leaf(a) => match second {
            Content::Leaf(b) => voxels_meet(tree, other, bounds, None, a, None, b, mix, sought),
            Content::Tile(b) => voxels_meet(tree, other, bounds, None, a, Some(b), a, mix, sought),
        },
        Content::Tile(a) => match second {
            Content::Leaf(b) => voxels_meet(tree, other, bounds, Some(a), b, None, b, mix, sought),
            Content::Tile(b) => tiles_meet(tree, other, bounds, a, b, mix, sought),
        },
    }
}

/// Returns whether two tiles over a block combine to what the search looks for.
fn tiles_meet<V: Stored<512> + Stored<64> + Stored<8>>(
    tree: &Tree<V>,
    other: &Tree<V>,
    bounds: Bounds,
    first: Cell<V>,
    second: Cell<V>,
    mix: Mix,
    sought: Sought<V>,
) -> bool
    requires first { (q : Coord) → IsTrue (is_inside bounds q) → (field_of vdb tree.now).cell q ≡ first }
    requires second { (q : Coord) → IsTrue (is_inside bounds q) → (field_of vdb other.now).cell q ≡ second }
    ensures met { IsTrue result → (q : Coord) × IsTrue (is_inside bounds q) × Meets sought (mixed_cell (blended V.greater V.lesser V.sum_of) mix ((field_of vdb tree.now).cell q) ((field_of vdb other.now).cell q)) }
    ensures missed { result ≡ false → (q : Coord) → IsTrue (is_inside bounds q) → Misses sought (mixed_cell (blended V.greater V.lesser V.sum_of) mix ((field_of vdb tree.now).cell q) ((field_of vdb other.now).cell q)) }
{
    let _ = tree;
    let _ = other;
    let _ = bounds.min(); // the proof learns from it that the box has a coordinate
    sought.is_met(mix.of(first, second))
}

/// Returns whether a voxel of a leaf extent combines to what the search looks for. Each tree has a tile there or, if
/// the tile is `None`, a leaf.
fn voxels_meet<V: Stored<512> + Stored<64> + Stored<8>>(
    tree: &Tree<V>,
    other: &Tree<V>,
    bounds: Bounds,
    tile: Option<Cell<V>>,
    leaf: &Leaf<V, 3, 8>,
    other_tile: Option<Cell<V>>,
    other_leaf: &Leaf<V, 3, 8>,
    mix: Mix,
    sought: Sought<V>,
) -> bool
    requires block { bounds ≡ block_around vdb leaf_level bounds.min }
    requires first_tile { IfSome tile (λ tile. (q : Coord) → IsTrue (is_inside bounds q) → (field_of vdb tree.now).cell q ≡ tile) }
    requires first_leaf { IfNone tile (IsPartOfLeaf vdb (field_of vdb tree.now) bounds leaf.now) }
    requires second_tile { IfSome other_tile (λ tile. (q : Coord) → IsTrue (is_inside bounds q) → (field_of vdb other.now).cell q ≡ tile) }
    requires second_leaf { IfNone other_tile (IsPartOfLeaf vdb (field_of vdb other.now) bounds other_leaf.now) }
    ensures met { IsTrue result → (q : Coord) × IsTrue (is_inside bounds q) × Meets sought (mixed_cell (blended V.greater V.lesser V.sum_of) mix ((field_of vdb tree.now).cell q) ((field_of vdb other.now).cell q)) }
    ensures missed { result ≡ false → (q : Coord) → IsTrue (is_inside bounds q) → Misses sought (mixed_cell (blended V.greater V.lesser V.sum_of) mix ((field_of vdb tree.now).cell q) ((field_of vdb other.now).cell q)) }
{
    for index in 0..tree.bits().entries(Level::Leaf) {
        let a = voxel(tree, bounds, tile, leaf, index);
        let b = voxel(other, bounds, other_tile, other_leaf, index);
        if sought.is_met(mix.of(a, b)) {
            return true;
        }
    }
    false
}

/// Returns the cell that a tree has at an index of a leaf extent: the tile's, or that of the leaf's entry.
fn voxel<V: Stored<512> + Stored<64> + Stored<8>>(
    tree: &Tree<V>,
    bounds: Bounds,
    tile: Option<Cell<V>>,
    leaf: &Leaf<V, 3, 8>,
    index: u16,
) -> Cell<V>
    requires within { index < entries vdb leaf_level }
    requires tile { IfSome tile (λ tile. (q : Coord) → IsTrue (is_inside bounds q) → (field_of vdb tree.now).cell q ≡ tile) }
    requires leaf { IfNone tile (IsPartOfLeaf vdb (field_of vdb tree.now) bounds leaf.now) }
    ensures { (q : Coord) → IsTrue (is_inside bounds q) → offset vdb leaf_level q ≡ index → (field_of vdb tree.now).cell q ≡ result }
{
    let _ = tree.mask_words();
    let _ = bounds;
    match tile {
        Some(cell) => cell,
        None => leaf.entry(u32::from(index)),
    }
}
