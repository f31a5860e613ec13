//! Counts active voxels.

ghost use Rattle.std.specs.Prelude.{◌≡◌, ◌+◌, ◌*◌, ◌<◌, ◌≤◌, ◌^◌, false, IfSome, IsTrue, Some};
ghost use Rattle.std.specs.Option.{unwrap_or};
ghost use Rattle.vdb_coord.specs.Blocks.{entries};
ghost use Rattle.vdb_coord.specs.Entries.{AreBits};
ghost use Rattle.vdb_coord.specs.Order.{coordinates_past};
ghost use Rattle.vdb_coord.specs.Space.{everywhere, is_inside};
ghost use Rattle.vdb_coord.specs.declared.Coord.{Coord};
ghost use Rattle.vdb_coord.specs.declared.Level.TheVariants.{Leaf as leaf_level, Upper};
ghost use Rattle.vdb_node.specs.Nodes.{IsOffFrom};
ghost use Rattle.vdb_tree.specs.Layout.{bits_of, field_of};
ghost use Rattle.vdb_tree.specs.Parts.{IsPartOfLeaf};
ghost use Rattle.vdb_tree.specs.ConstantBlocks.{count as active_count};
ghost use Rattle.vdb_walk.specs.internal.BlocksFrom.{IsBoxStart, active_around, active_from};
ghost use Rattle.vdb_walk.specs.internal.Voxels.{IsInFirstBlock, set_count};

use crate::part_starts::start_from;
use crate::voxels::{block_corner, next_set_in, run_end};
use vdb_coord::{Bits, Bounds, Coord, Level};
use vdb_mask::Mask;
use vdb_node::{Leaf, Stored};
use vdb_pool::Steps;
use vdb_tree::{Content, Part, Skip, TreeOf};
use vdb_value::Cell;

/// Returns how many voxels of the box are active, or how many of all coordinates if `bounds` is `None` (OpenVDB's
/// `tools::countActiveVoxels` and `Tree::activeVoxelCount`). It counts an upper extent that lies within the box along the masks
/// of its nodes. In the others it counts each active tile's part of the box in one go, and each leaf that lies within the box by
/// its states. It allocates nothing.
pub fn count<
    V: Stored<WU> + Stored<WL> + Stored<WF>,
    const U: u32,
    const L: u32,
    const F: u32,
    const WU: usize,
    const WL: usize,
    const WF: usize,
>(tree: &TreeOf<V, U, L, F, WU, WL, WF>, bounds: Option<Bounds>, steps: &mut Steps) -> u128
    ensures value { result ≡ active_count (field_of (bits_of U L F) tree.now) (unwrap_or bounds everywhere) }
    ensures bound { result ≤ 2 ^ 96 }
{
    match bounds {
        Some(bounds) => count_blocks(tree, bounds, steps),
        None => count_blocks(tree, Bounds::all(), steps),
    }
}

/// Returns how many voxels of the box are active. It visits root block after root block: it counts a block that the box covers
/// along its nodes, and of each other block the part that lies in the box.
fn count_blocks<
    V: Stored<WU> + Stored<WL> + Stored<WF>,
    const U: u32,
    const L: u32,
    const F: u32,
    const WU: usize,
    const WL: usize,
    const WF: usize,
>(tree: &TreeOf<V, U, L, F, WU, WL, WF>, bounds: Bounds, steps: &mut Steps) -> u128
    ensures value { result ≡ active_count (field_of (bits_of U L F) tree.now) bounds }
    ensures bound { result ≤ 2 ^ 96 }
{
    let mut total = 0;
    let mut at = Some(bounds.min());
    'starts: while let Some(p) = at {
        let (active, next) = count_next(tree, bounds, p, steps);
        total += active;
        at = next;
    }
    total
}

/// Returns two things: how many voxels of the box are active in the first root block from `p` on with an active one, and the
/// first coordinate of the box past that block.
fn count_next<
    V: Stored<WU> + Stored<WL> + Stored<WF>,
    const U: u32,
    const L: u32,
    const F: u32,
    const WU: usize,
    const WL: usize,
    const WF: usize,
>(
    tree: &TreeOf<V, U, L, F, WU, WL, WF>,
    bounds: Bounds,
    p: Coord,
    steps: &mut Steps,
) -> (u128, Option<Coord>)
    requires { IsBoxStart (bits_of U L F) Upper bounds p }
    ensures counted { result.0 + active_from (bits_of U L F) tree.now bounds result.1 ≡ active_from (bits_of U L F) tree.now bounds (Some p) }
    ensures start { IfSome result.1 (IsBoxStart (bits_of U L F) Upper bounds) }
    ensures nearer { IfSome result.1 (λ next. coordinates_past (bits_of U L F) next < coordinates_past (bits_of U L F) p) }
{
    let (bits, _) = (tree.bits(), bounds.min());
    match start_from(tree, bounds, Skip::Inactive, p, steps) {
        Some(q) => {
            let active = count_around(tree, bounds, q, steps);
            (active, bounds.next_coord_in(bits, Level::Upper, q))
        }
        None => (0, None),
    }
}

/// Returns how many voxels of the box are active in the root block around a coordinate.
fn count_around<
    V: Stored<WU> + Stored<WL> + Stored<WF>,
    const U: u32,
    const L: u32,
    const F: u32,
    const WU: usize,
    const WL: usize,
    const WF: usize,
>(tree: &TreeOf<V, U, L, F, WU, WL, WF>, bounds: Bounds, q: Coord, steps: &mut Steps) -> u128
    ensures { result ≡ active_around (bits_of U L F) tree.now bounds Upper q }
{
    let block = q.block_in(tree.bits(), Level::Upper);
    if bounds.covers(block) {
        return tree.active_in_block(Level::Upper, q, steps);
    }
    match bounds.intersect(block) {
        Some(part) => count_in(tree, part, steps),
        None => 0,
    }
}

/// Returns how many voxels of the box are active.
fn count_in<
    V: Stored<WU> + Stored<WL> + Stored<WF>,
    const U: u32,
    const L: u32,
    const F: u32,
    const WU: usize,
    const WL: usize,
    const WF: usize,
>(tree: &TreeOf<V, U, L, F, WU, WL, WF>, bounds: Bounds, steps: &mut Steps) -> u128
    ensures value { result ≡ active_count (field_of (bits_of U L F) tree.now) bounds }
    ensures bound { result ≤ 2 ^ 96 }
{
    let _ = (tree.mask_words(), bounds.min()); // no node is too large, and the sum does not overflow
    let mut walk = tree.parts(bounds, Skip::Inactive);
    let mut total = 0;
    'parts: while let Some(part) = tree.next_part(&mut walk, steps) {
        let Part { bounds, content } = part;
        match content {
            Content::Tile(cell) => total += count_tile(tree, cell, bounds),
            Content::Leaf(leaf) => total += count_leaf(tree, leaf, bounds),
        }
    }
    total
}

/// Returns how many voxels of the part are active, if each voxel has this cell.
fn count_tile<
    V: Stored<WU> + Stored<WL> + Stored<WF>,
    const U: u32,
    const L: u32,
    const F: u32,
    const WU: usize,
    const WL: usize,
    const WF: usize,
>(tree: &TreeOf<V, U, L, F, WU, WL, WF>, cell: Cell<V>, part: Bounds) -> u128
    requires { (q : Coord) → IsTrue (is_inside part q) → (field_of (bits_of U L F) tree.now).cell q ≡ cell }
    ensures { result ≡ active_count (field_of (bits_of U L F) tree.now) part }
{
    let _ = tree;
    if cell.on { part.volume() } else { 0 }
}

/// Returns how many voxels of the part are active. The part lies in the leaf's extent.
fn count_leaf<
    V: Stored<WU> + Stored<WL> + Stored<WF>,
    const U: u32,
    const L: u32,
    const F: u32,
    const WU: usize,
    const WL: usize,
    const WF: usize,
>(tree: &TreeOf<V, U, L, F, WU, WL, WF>, leaf: &Leaf<V, F, WF>, part: Bounds) -> u128
    requires few_words { WF ≤ 512 }
    requires leaf { IsPartOfLeaf (bits_of U L F) (field_of (bits_of U L F) tree.now) part leaf.now }
    ensures { result ≡ active_count (field_of (bits_of U L F) tree.now) part }
{
    let bits = tree.bits();
    if part != part.min().block_in(bits, Level::Leaf) {
        return u128::from(count_states(&leaf.states().copied(), bits, part));
    }
    u128::from(leaf.count_on())
}

/// Returns how many voxels of the part have their state on. The part lies in the extent of the leaf with these states. A run of
/// such voxels along z counts in one go.
fn count_states<const W: usize>(states: &Mask<W>, bits: Bits, part: Bounds) -> u32
    requires configured { AreBits bits }
    requires few_words { W ≤ 512 }
    requires past_end { IsOffFrom states.now (entries bits leaf_level) }
    requires past_words { IsOffFrom states.now (64 * W) }
    requires block { IsInFirstBlock bits part }
    ensures { result ≡ set_count bits states.now part }
{
    let corner = block_corner(bits, part);
    let mut total = 0;
    let mut from = 0;
    'voxels: while let Some((entry, p)) = next_set_in(states, bits, part, corner, from) {
        let end = run_end(states, part, p, entry);
        total += end - entry;
        from = end;
    }
    total
}
