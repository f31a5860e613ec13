//! Tests whether a box has only one cell.

ghost use Rattle.std.specs.Prelude.{◌≡◌, ◌<◌, ◌≤◌, ◌↔◌, false, IfSome, IsNone, IsTrue, Some};
ghost use Rattle.vdb_coord.specs.Blocks.{entries};
ghost use Rattle.vdb_coord.specs.Space.{is_inside};
ghost use Rattle.vdb_coord.specs.declared.Coord.{Coord};
ghost use Rattle.vdb_coord.specs.declared.Level.TheVariants.{Leaf as leaf_level};
ghost use Rattle.vdb_tree.specs.Layout.{bits_of, field_of};
ghost use Rattle.vdb_tree.specs.Parts.{IsPartOfLeaf, IsWalk, OnLeaf, OnTile};
ghost use Rattle.vdb_tree.specs.ConstantBlocks.{is_constant, is_uniform};
ghost use Rattle.vdb_walk.specs.internal.PartCells.{IsCellAt, IsCellOrSkipped, IsInEachRoot};

use vdb_coord::{Bounds, Level};
use vdb_node::{Internal, Leaf, Stored};
use vdb_pool::Steps;
use vdb_tree::{Content, Skip, TreeOf, Walk};
use vdb_value::Cell;

/// Returns the cell that each voxel of the box has, or `None` if two voxels differ in value or state. OpenVDB's
/// `LeafNode::isConstant` does that for a leaf; this is for any box, and without a tolerance. It tests a tile's part of the box
/// in one go, and a leaf of one cell by the words of its states and then its values. It stops at the first difference, and
/// allocates nothing.
pub fn uniform<
    V: Stored<WU> + Stored<WL> + Stored<WF>,
    const U: u32,
    const L: u32,
    const F: u32,
    const WU: usize,
    const WL: usize,
    const WF: usize,
>(tree: &TreeOf<V, U, L, F, WU, WL, WF>, bounds: Bounds, steps: &mut Steps) -> Option<Cell<V>>
    ensures some { IfSome result (λ c. IsTrue (is_uniform V.eq (field_of (bits_of U L F) tree.now) bounds c)) }
    ensures none { IsNone result → is_constant V.eq (field_of (bits_of U L F) tree.now) bounds ≡ false }
{
    let cell = tree.get(bounds.min(), steps);
    if has_only(tree, bounds, cell, steps) {
        Some(cell)
    } else {
        None
    }
}

/// Returns whether each voxel of the box has this cell. If the cell is the inactive background, it skips the parts with that
/// cell; otherwise each root block of the box needs an entry.
fn has_only<
    V: Stored<WU> + Stored<WL> + Stored<WF>,
    const U: u32,
    const L: u32,
    const F: u32,
    const WU: usize,
    const WL: usize,
    const WF: usize,
>(tree: &TreeOf<V, U, L, F, WU, WL, WF>, bounds: Bounds, cell: Cell<V>, steps: &mut Steps) -> bool
    ensures { result ≡ is_uniform V.eq (field_of (bits_of U L F) tree.now) bounds cell }
{
    let background = Cell {
        value: tree.background(),
        on: false,
    };
    if cell == background {
        return parts_are(tree, bounds, Skip::Background, cell, steps);
    }
    if !roots_have(tree, bounds, cell, steps) {
        return false;
    }
    parts_are(tree, bounds, Skip::Absent, cell, steps)
}

/// Returns whether, in each root block that meets the box, a voxel has this cell. It looks at one voxel of each block.
fn roots_have<
    V: Stored<WU> + Stored<WL> + Stored<WF>,
    const U: u32,
    const L: u32,
    const F: u32,
    const WU: usize,
    const WL: usize,
    const WF: usize,
>(tree: &TreeOf<V, U, L, F, WU, WL, WF>, bounds: Bounds, cell: Cell<V>, steps: &mut Steps) -> bool
    ensures same { IsTrue result → IsInEachRoot (bits_of U L F) tree.now bounds cell }
    ensures differs { result ≡ false → is_uniform V.eq (field_of (bits_of U L F) tree.now) bounds cell ≡ false }
{
    let bits = tree.bits();
    let mut p = bounds.min();
    'roots: loop {
        if tree.get(p, steps) != cell {
            return false;
        }
        match bounds.next_block_in(bits, Level::Upper, p) {
            Some(next) => p = next,
            None => return true,
        }
    }
}

/// Returns whether each part of the box that isn't skipped has only this cell.
fn parts_are<
    V: Stored<WU> + Stored<WL> + Stored<WF>,
    const U: u32,
    const L: u32,
    const F: u32,
    const WU: usize,
    const WL: usize,
    const WF: usize,
>(
    tree: &TreeOf<V, U, L, F, WU, WL, WF>,
    bounds: Bounds,
    skip: Skip,
    cell: Cell<V>,
    steps: &mut Steps,
) -> bool
    ensures same { IsTrue result → IsCellOrSkipped (bits_of U L F) tree.now bounds cell skip }
    ensures differs { result ≡ false → is_uniform V.eq (field_of (bits_of U L F) tree.now) bounds cell ≡ false }
{
    let _ = tree.mask_words(); // the proof learns from it that nodes are small
    let mut walk = tree.parts(bounds, skip);
    rest_is(tree, &mut walk, cell, steps)
}

/// Returns whether each coordinate in the parts of a walk at its start has the cell.
fn rest_is<
    V: Stored<WU> + Stored<WL> + Stored<WF>,
    const U: u32,
    const L: u32,
    const F: u32,
    const WU: usize,
    const WL: usize,
    const WF: usize,
>(
    tree: &TreeOf<V, U, L, F, WU, WL, WF>,
    walk: &mut Walk<Internal<V, U, WU>, Internal<V, L, WL>, Leaf<V, F, WF>>,
    cell: Cell<V>,
    steps: &mut Steps,
) -> bool
    requires upper { WU ≤ 512 }
    requires lower { WL ≤ 512 }
    requires leaf { WF ≤ 512 }
    requires walk { IsWalk (bits_of U L F) tree.now walk.old }
    requires at { walk.old.at ≡ Some walk.old.box.min }
    ensures same { IsTrue result → IsCellOrSkipped (bits_of U L F) tree.now walk.old.box cell walk.old.skip }
    ensures differs { result ≡ false → is_uniform V.eq (field_of (bits_of U L F) tree.now) walk.old.box cell ≡ false }
{
    'parts: while let Some(part) = tree.next_part(walk, steps) {
        if !part_is(tree, part.bounds, part.content, cell) {
            return false;
        }
    }
    true
}

/// Returns whether each voxel of the part has this cell.
fn part_is<
    V: Stored<WU> + Stored<WL> + Stored<WF>,
    const U: u32,
    const L: u32,
    const F: u32,
    const WU: usize,
    const WL: usize,
    const WF: usize,
>(
    tree: &TreeOf<V, U, L, F, WU, WL, WF>,
    part: Bounds,
    content: Content<V, &Leaf<V, F, WF>>,
    cell: Cell<V>,
) -> bool
    requires few_words { WF ≤ 512 }
    requires tile { OnTile content (λ tile. (q : Coord) → IsTrue (is_inside part q) → (field_of (bits_of U L F) tree.now).cell q ≡ tile) }
    requires leaf { OnLeaf content (λ leaf. IsPartOfLeaf (bits_of U L F) (field_of (bits_of U L F) tree.now) part leaf.now) }
    ensures { result ≡ is_uniform V.eq (field_of (bits_of U L F) tree.now) part cell }
{
    match content {
        Content::Tile(tile) => tile_is(tree, part, tile, cell),
        Content::Leaf(leaf) => leaf_is(tree, part, leaf, cell),
    }
}

/// Returns whether each voxel of a tile's part has this cell.
fn tile_is<
    V: Stored<WU> + Stored<WL> + Stored<WF>,
    const U: u32,
    const L: u32,
    const F: u32,
    const WU: usize,
    const WL: usize,
    const WF: usize,
>(tree: &TreeOf<V, U, L, F, WU, WL, WF>, part: Bounds, tile: Cell<V>, cell: Cell<V>) -> bool
    requires { (q : Coord) → IsTrue (is_inside part q) → (field_of (bits_of U L F) tree.now).cell q ≡ tile }
    ensures { result ≡ is_uniform V.eq (field_of (bits_of U L F) tree.now) part cell }
{
    let _ = tree;
    let _ = part.min(); // the proof learns from it that the part has a voxel
    tile == cell
}

/// Returns whether each voxel of a leaf's part has this cell: in one step if the leaf has only one cell, else voxel by voxel.
fn leaf_is<
    V: Stored<WU> + Stored<WL> + Stored<WF>,
    const U: u32,
    const L: u32,
    const F: u32,
    const WU: usize,
    const WL: usize,
    const WF: usize,
>(tree: &TreeOf<V, U, L, F, WU, WL, WF>, part: Bounds, leaf: &Leaf<V, F, WF>, cell: Cell<V>) -> bool
    requires few_words { WF ≤ 512 }
    requires leaf { IsPartOfLeaf (bits_of U L F) (field_of (bits_of U L F) tree.now) part leaf.now }
    ensures { result ≡ is_uniform V.eq (field_of (bits_of U L F) tree.now) part cell }
{
    let _ = part.min(); // the proof learns from it that the part has a voxel
    match leaf.constant() {
        Some(one) => one == cell,
        None => voxels_are(tree, part, leaf, cell),
    }
}

/// Returns whether each voxel of a leaf's part has the cell, voxel by voxel.
fn voxels_are<
    V: Stored<WU> + Stored<WL> + Stored<WF>,
    const U: u32,
    const L: u32,
    const F: u32,
    const WU: usize,
    const WL: usize,
    const WF: usize,
>(tree: &TreeOf<V, U, L, F, WU, WL, WF>, part: Bounds, leaf: &Leaf<V, F, WF>, cell: Cell<V>) -> bool
    requires few_words { WF ≤ 512 }
    requires leaf { IsPartOfLeaf (bits_of U L F) (field_of (bits_of U L F) tree.now) part leaf.now }
    ensures { result ≡ is_uniform V.eq (field_of (bits_of U L F) tree.now) part cell }
{
    for index in 0..tree.bits().entries(Level::Leaf) {
        if !voxel_is(tree, part, leaf, index, cell) {
            return false;
        }
    }
    true
}

/// Returns whether the voxel of the leaf's entry has this cell, if it lies in the part; true otherwise.
fn voxel_is<
    V: Stored<WU> + Stored<WL> + Stored<WF>,
    const U: u32,
    const L: u32,
    const F: u32,
    const WU: usize,
    const WL: usize,
    const WF: usize,
>(
    tree: &TreeOf<V, U, L, F, WU, WL, WF>,
    part: Bounds,
    leaf: &Leaf<V, F, WF>,
    index: u16,
    cell: Cell<V>,
) -> bool
    requires few_words { WF ≤ 512 }
    requires leaf { IsPartOfLeaf (bits_of U L F) (field_of (bits_of U L F) tree.now) part leaf.now }
    requires within { index < entries (bits_of U L F) leaf_level }
    ensures { IsTrue result ↔ IsCellAt (bits_of U L F) (field_of (bits_of U L F) tree.now) part index cell }
{
    let voxel = part
        .min()
        .entry_block_in(tree.bits(), Level::Leaf, index)
        .min();
    if !part.contains(voxel) {
        return true;
    }
    leaf.entry(u32::from(index)) == cell
}
