//! The call that compares two grids, by a walk over both trees.
ghost use Rattle.std.specs.Prelude.{◌≡◌, ◌+◌, ◌*◌, ◌<◌, ◌↔◌, ℕ, IsTrue, length, slice_index_or};
ghost use Rattle.vdb_coord.specs.Blocks.{block_around, vdb};
ghost use Rattle.vdb_coord.specs.Space.{is_inside};
ghost use Rattle.vdb_coord.specs.declared.Coord.{Coord};
ghost use Rattle.vdb_coord.specs.declared.Level.TheVariants.{Leaf as leaf_level};
ghost use Rattle.vdb_node.specs.Leaf.{cell_in};
ghost use Rattle.vdb_tree.specs.Field.{as_field_of};
ghost use Rattle.vdb_tree.specs.Layout.{field_of};
ghost use Rattle.vdb_tree.specs.Parts.{IsPartOfLeaf, OnLeaf, OnTile};
ghost use Rattle.vdb_scene.specs.Grids.{grid_field};
ghost use Rattle.vdb_c.specs.Equality.{AreEqualIn, AreEqualRuns, Compares, IsEquality};

use crate::codes::{DONE, EMPTY};
use crate::handles::GridHandle;
use vdb_coord::Bounds;
use vdb_node::{Leaf, Stored};
use vdb_pool::Steps;
use vdb_scene::{AnyGrid, GridValue};
use vdb_tree::{Content, Pair, Tree};
use vdb_value::{Cell, Voxel};

/// Writes 1 to `equal` if the two grids have the same type, background and cells, else 0. Their limits, tiles and nodes may differ. It
/// allocates nothing, and stops at the first difference.
#[unsafe(no_mangle)]
pub extern "C" fn vdb_grid_equal(
    handle: &mut GridHandle,
    other: &mut GridHandle,
    equal: &mut i32,
) -> i32
    ensures same { handle.new.grid.held ≡ handle.old.grid.held }
    ensures other { other.new.grid.held ≡ other.old.grid.held }
    ensures compared { Compares handle.old.grid.held other.old.grid.held equal.old equal.new result }
{
    let Some(grid) = handle.grid.grid_mut() else {
        return EMPTY;
    };
    let Some(given) = other.grid.grid_mut() else {
        return EMPTY;
    };
    *equal = equality(grid, given, &mut handle.steps);
    DONE
}

/// Returns 1 if two grids have the same type, background and cells, else 0.
fn equality(first: &AnyGrid, second: &AnyGrid, steps: &mut Steps) -> i32
    ensures { IsEquality (grid_field first.now) (grid_field second.now) result }
{
    if are_equal(first, second, steps) {
        1
    } else {
        0
    }
}

/// Returns whether two grids have the same type, background and cells.
fn are_equal(first: &AnyGrid, second: &AnyGrid, steps: &mut Steps) -> bool
    ensures { IsTrue result ↔ (grid_field first.now ≡ grid_field second.now) }
{
    match first {
        AnyGrid::Bool(held) => has_field_of(second, held.tree(), steps),
        AnyGrid::I32(held) => has_field_of(second, held.tree(), steps),
        AnyGrid::I64(held) => has_field_of(second, held.tree(), steps),
    }
}

/// Returns whether a grid has the type, the background and the cells of a tree.
fn has_field_of<V: GridValue>(grid: &AnyGrid, tree: &Tree<V>, steps: &mut Steps) -> bool
    ensures { IsTrue result ↔ (as_field_of V.as_scalar (field_of vdb tree.now) ≡ grid_field grid.now) }
{
    match V::tree_in(grid) {
        Some(other) => are_equal_trees(tree, other, steps),
        None => false,
    }
}

/// Returns whether two trees have the same background and cells.
fn are_equal_trees<V: Stored<512> + Stored<64> + Stored<8>>(
    tree: &Tree<V>,
    other: &Tree<V>,
    steps: &mut Steps,
) -> bool
    ensures { IsTrue result ↔ (field_of vdb tree.now ≡ field_of vdb other.now) }
{
    let _ = tree.mask_words(); // the proof learns from it that nodes are small
    if tree.background() != other.background() {
        return false;
    }
    let mut walk = tree.pairs(other);
    'pairs: while let Some(pair) = tree.next_pair(other, &mut walk, steps) {
        let Pair {
            bounds,
            first,
            second,
        } = pair;
        if !are_equal_in(tree, other, bounds, first, second) {
            return false;
        }
    }
    true
}

/// Returns whether both trees have the same cells in the block of a pair.
fn are_equal_in<V: Stored<512> + Stored<64> + Stored<8>>(
    tree: &Tree<V>,
    other: &Tree<V>,
    bounds: Bounds,
    first: Content<V, &Leaf<V, 3, 8>>,
    second: Content<V, &Leaf<V, 3, 8>>,
) -> bool
    requires first_tile { OnTile first (λ tile. (q : Coord) → IsTrue (is_inside bounds q) → (field_of vdb tree.now).cell q ≡ tile) }
    requires first_leaf { OnLeaf first (λ leaf. IsPartOfLeaf vdb (field_of vdb tree.now) bounds leaf.now × (bounds ≡ block_around vdb leaf_level bounds.min)) }
    requires second_tile { OnTile second (λ tile. (q : Coord) → IsTrue (is_inside bounds q) → (field_of vdb other.now).cell q ≡ tile) }
    requires second_leaf { OnLeaf second (λ leaf. IsPartOfLeaf vdb (field_of vdb other.now) bounds leaf.now × (bounds ≡ block_around vdb leaf_level bounds.min)) }
    ensures { IsTrue result ↔ AreEqualIn bounds (field_of vdb tree.now) (field_of vdb other.now) }
{
    let _ = tree.mask_words(); // the proof learns from it that nodes are small
    let _ = other;
    let _ = bounds.min(); // and from this that the block has a voxel
    match first {
        Content::Leaf(a) => match second {
            Content::Leaf(b) => are_equal_leaves(a, b),
            Content::Tile(b) => is_constant(a, b),
        },
        Content::Tile(a) => match second {
            Content::Leaf(b) => is_constant(b, a),
            Content::Tile(b) => a == b,
        },
    }
}

/// Returns whether each voxel of a leaf has this cell.
fn is_constant<V: Stored<8>>(leaf: &Leaf<V, 3, 8>, cell: Cell<V>) -> bool
    ensures { (d : Cell V) → IsTrue result ↔ ((i : ℕ) → i < 512 → cell_in d leaf.now i ≡ cell) }
{
    let _ = leaf.states(); // the proof learns from it that the leaf has a value for each voxel
    match leaf.constant() {
        Some(one) => one == cell,
        None => false,
    }
}

/// Returns whether two leaves have the same cells: 64 voxels at a time.
fn are_equal_leaves<V: Stored<8>>(a: &Leaf<V, 3, 8>, b: &Leaf<V, 3, 8>) -> bool
    ensures { (d e : Cell V) → IsTrue result ↔ AreEqualRuns 0 512 d e a.now b.now }
{
    for k in 0..8u32 {
        if !are_equal_runs(a, b, k) {
            return false;
        }
    }
    true
}

/// Returns whether two leaves have the same 64 cells from index `64 * k` on: by a word of states, and then by their values.
fn are_equal_runs<V: Stored<8>>(a: &Leaf<V, 3, 8>, b: &Leaf<V, 3, 8>, k: u32) -> bool
    requires { k < 8 }
    ensures { (d e : Cell V) → IsTrue result ↔ AreEqualRuns (64 * k) (64 * k + 64) d e a.now b.now }
{
    if a.states().word(k) != b.states().word(k) {
        return false;
    }
    let from = 64 * k;
    let value = a.entry(from).value;
    let mut first = [value; 64];
    let mut second = [value; 64];
    a.copy_values(from, &mut first);
    b.copy_values(from, &mut second);
    are_equal_values(&first, &second)
}

/// Returns whether two slices of 64 values are equal.
fn are_equal_values<V: Voxel>(a: &[V], b: &[V]) -> bool
    requires first { length a.now ≡ 64 }
    requires second { length b.now ≡ 64 }
    ensures { IsTrue result ↔ ((i : ℕ) → i < 64 → (d : V) → slice_index_or a.now i d ≡ slice_index_or b.now i d) }
{
    'values: for i in 0..64usize {
        if a[i] != b[i] {
            return false;
        }
    }
    true
}
