//! The combination of two trees, built beside them.

ghost use Rattle.std.specs.Prelude.{◌≡◌, IfNone, IfSome, IsTrue, Some};
ghost use Rattle.vdb_coord.specs.Blocks.{block_around, vdb};
ghost use Rattle.vdb_coord.specs.Space.{everywhere, is_inside};
ghost use Rattle.vdb_coord.specs.declared.Coord.{Coord};
ghost use Rattle.vdb_coord.specs.declared.Level.TheVariants.{Leaf as leaf_level};
ghost use Rattle.vdb_tree.specs.Field.{new};
ghost use Rattle.vdb_tree.specs.Layout.{field_of};
ghost use Rattle.vdb_tree.specs.Parts.{IsPartOfLeaf, OnLeaf, OnTile};
ghost use Rattle.vdb_value.specs.Blends.{blended};
ghost use Rattle.vdb_composite.specs.Mixes.{Adds, IsMixIn, mixed_value};

use crate::mix::Mix;
use crate::scratch::{mix_cells, take_cells};
use vdb_coord::Bounds;
use vdb_node::{Leaf, Stored};
use vdb_pool::Steps;
use vdb_tree::{Content, Pair, Tree};
use vdb_value::Cell;

/// Returns the combination of two trees, with this background. Returns `None` if two values have no sum, or if a
/// write fails in a new tree with the first one's limit.
pub(crate) fn built<V: Stored<512> + Stored<64> + Stored<8>>(
    tree: &Tree<V>,
    other: &Tree<V>,
    mix: Mix,
    background: V,
    steps: &mut Steps,
) -> Option<Tree<V>>
    requires background { mixed_value (blended V.greater V.lesser V.sum_of) mix (field_of vdb tree.now).background (field_of vdb other.now).background ≡ Some background }
    ensures limit { IfSome result (λ made. made.limit ≡ tree.now.limit) }
    ensures background { IfSome result (λ made. (field_of vdb made).background ≡ background) }
    ensures cells { IfSome result (λ made. IsMixIn (blended V.greater V.lesser V.sum_of) mix everywhere (field_of vdb tree.now) (field_of vdb other.now) (field_of vdb made)) }
{
    let _ = tree.mask_words(); // the proof learns from it that nodes are small
    let cell = Cell {
        value: background,
        on: false,
    };
    let mut scratch = Leaf::new_constant(tree.alloc(), cell).ok()?;
    let mut made = Tree::new(tree.alloc(), background, tree.limit());
    if add_pairs(&mut made, &mut scratch, tree, other, mix, background, steps) {
        Some(made)
    } else {
        None
    }
}

/// Writes the combination of two other trees into a tree that has nothing but a background. Returns false if two
/// values have no sum, or if a write fails.
fn add_pairs<V: Stored<512> + Stored<64> + Stored<8>>(
    made: &mut Tree<V>,
    scratch: &mut Leaf<V, 3, 8>,
    tree: &Tree<V>,
    other: &Tree<V>,
    mix: Mix,
    background: V,
    steps: &mut Steps,
) -> bool
    requires empty { field_of vdb made.old ≡ new background }
    requires background { mixed_value (blended V.greater V.lesser V.sum_of) mix (field_of vdb tree.now).background (field_of vdb other.now).background ≡ Some background }
    ensures limit { made.new.limit ≡ made.old.limit }
    ensures background { IsTrue result → (field_of vdb made.new).background ≡ background }
    ensures cells { IsTrue result → IsMixIn (blended V.greater V.lesser V.sum_of) mix everywhere (field_of vdb tree.now) (field_of vdb other.now) (field_of vdb made.new) }
{
    let _ = tree.mask_words(); // the proof learns from it that nodes are small
    let _ = background;
    let mut walk = tree.pairs(other);
    'pairs: while let Some(pair) = tree.next_pair(other, &mut walk, steps) {
        let Pair {
            bounds,
            first,
            second,
        } = pair;
        if !add_pair(
            made, scratch, tree, other, bounds, first, second, mix, steps,
        ) {
            return false;
        }
    }
    true
}

/// Writes the combination of both trees into the block of a pair. Returns false if two values have no sum, or if a
/// write fails.
fn add_pair<V: Stored<512> + Stored<64> + Stored<8>>(
    made: &mut Tree<V>,
    scratch: &mut Leaf<V, 3, 8>,
    tree: &Tree<V>,
    other: &Tree<V>,
    bounds: Bounds,
    first: Content<V, &Leaf<V, 3, 8>>,
    second: Content<V, &Leaf<V, 3, 8>>,
    mix: Mix,
    steps: &mut Steps,
) -> bool
    requires first_tile { OnTile first (λ tile. (q : Coord) → IsTrue (is_inside bounds q) → (field_of vdb tree.now).cell q ≡ tile) }
    requires first_leaf { OnLeaf first (λ leaf. IsPartOfLeaf vdb (field_of vdb tree.now) bounds leaf.now × (bounds ≡ block_around vdb leaf_level bounds.min)) }
    requires second_tile { OnTile second (λ tile. (q : Coord) → IsTrue (is_inside bounds q) → (field_of vdb other.now).cell q ≡ tile) }
    requires second_leaf { OnLeaf second (λ leaf. IsPartOfLeaf vdb (field_of vdb other.now) bounds leaf.now × (bounds ≡ block_around vdb leaf_level bounds.min)) }
    ensures limit { made.new.limit ≡ made.old.limit }
    ensures adds { IsTrue result → Adds (blended V.greater V.lesser V.sum_of) mix bounds (field_of vdb tree.now) (field_of vdb other.now) (field_of vdb made.old) (field_of vdb made.new) }
{
    match first {
        Content::Leaf(a) => match second {
            Content::Leaf(b) => add_leaf(
                made, scratch, tree, other, bounds, None, a, None, b, mix, steps,
            ),
            Content::Tile(b) => add_leaf(
                made,
                scratch,
                tree,
                other,
                bounds,
                None,
                a,
                Some(b),
                a,
                mix,
                steps,
            ),
        },
        Content::Tile(a) => match second {
            Content::Leaf(b) => add_leaf(
                made,
                scratch,
                tree,
                other,
                bounds,
                Some(a),
                b,
                None,
                b,
                mix,
                steps,
            ),
            Content::Tile(b) => add_tile(made, tree, other, bounds, a, b, mix, steps),
        },
    }
}

/// Writes the combination of both trees into a leaf extent. Each tree has a tile there or, if the tile is `None`, a
/// leaf. Returns false if two values have no sum, or if the write fails.
fn add_leaf<V: Stored<512> + Stored<64> + Stored<8>>(
    made: &mut Tree<V>,
    scratch: &mut Leaf<V, 3, 8>,
    tree: &Tree<V>,
    other: &Tree<V>,
    bounds: Bounds,
    tile: Option<Cell<V>>,
    leaf: &Leaf<V, 3, 8>,
    other_tile: Option<Cell<V>>,
    other_leaf: &Leaf<V, 3, 8>,
    mix: Mix,
    steps: &mut Steps,
) -> bool
    requires block { bounds ≡ block_around vdb leaf_level bounds.min }
    requires first_tile { IfSome tile (λ tile. (q : Coord) → IsTrue (is_inside bounds q) → (field_of vdb tree.now).cell q ≡ tile) }
    requires first_leaf { IfNone tile (IsPartOfLeaf vdb (field_of vdb tree.now) bounds leaf.now) }
    requires second_tile { IfSome other_tile (λ tile. (q : Coord) → IsTrue (is_inside bounds q) → (field_of vdb other.now).cell q ≡ tile) }
    requires second_leaf { IfNone other_tile (IsPartOfLeaf vdb (field_of vdb other.now) bounds other_leaf.now) }
    ensures limit { made.new.limit ≡ made.old.limit }
    ensures adds { IsTrue result → Adds (blended V.greater V.lesser V.sum_of) mix bounds (field_of vdb tree.now) (field_of vdb other.now) (field_of vdb made.old) (field_of vdb made.new) }
{
    let corner = bounds.min();
    take_cells(scratch, tree, bounds, tile, leaf);
    if !mix_cells(scratch, other, bounds, other_tile, other_leaf, mix) {
        return false;
    }
    match made.write_leaf(corner, scratch, steps) {
        Ok(()) => true,
        Err(_) => false,
    }
}

/// Writes the combination of two tiles into a block. Returns false if two values have no sum, or if the write fails.
fn add_tile<V: Stored<512> + Stored<64> + Stored<8>>(
    made: &mut Tree<V>,
    tree: &Tree<V>,
    other: &Tree<V>,
    bounds: Bounds,
    first: Cell<V>,
    second: Cell<V>,
    mix: Mix,
    steps: &mut Steps,
) -> bool
    requires first { (q : Coord) → IsTrue (is_inside bounds q) → (field_of vdb tree.now).cell q ≡ first }
    requires second { (q : Coord) → IsTrue (is_inside bounds q) → (field_of vdb other.now).cell q ≡ second }
    ensures limit { made.new.limit ≡ made.old.limit }
    ensures adds { IsTrue result → Adds (blended V.greater V.lesser V.sum_of) mix bounds (field_of vdb tree.now) (field_of vdb other.now) (field_of vdb made.old) (field_of vdb made.new) }
{
    let _ = tree;
    let _ = other;
    let _ = bounds.min(); // the proof learns from it that the box lies within the range
    let Some(cell) = mix.of(first, second) else {
        return false;
    };
    match made.split(bounds, cell, steps) {
        Ok(()) => {
            made.paint(bounds, cell, steps);
            true
        }
        Err(_) => false,
    }
}
