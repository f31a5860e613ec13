//! Finds the voxels of a leaf that lie in a box, one after another.

ghost use Rattle.std.specs.Prelude.{◌≡◌, ◌+◌, ◌*◌, ◌<◌, ◌≤◌, ◌^◌, ◌+ℤ◌, ◌-ℤ◌, ℕ, pos, true, unsigned_abs, IfSome};
ghost use Rattle.std.specs.Int.{int_min};
ghost use Rattle.vdb_coord.specs.Blocks.{block_around, entries, sub_block};
ghost use Rattle.vdb_coord.specs.Components.{first_of, number_at};
ghost use Rattle.vdb_coord.specs.Entries.{AreBits};
ghost use Rattle.vdb_coord.specs.declared.Level.TheVariants.{Leaf as leaf_level};
ghost use Rattle.vdb_mask.specs.Mask.{is_on};
ghost use Rattle.vdb_node.specs.Nodes.{IsOffFrom};
ghost use Rattle.vdb_walk.specs.internal.Voxels.{IsInFirstBlock, IsNextSet};

use vdb_coord::{Bits, Bounds, Coord, Level};
use vdb_mask::Mask;

/// Returns the entry and the voxel of the part's first voxel whose state is on, from an entry of the leaf on, or `None` if no
/// such voxel exists. The part lies in the leaf's extent, which has this least corner.
pub(crate) fn next_set_in<const W: usize>(
    states: &Mask<W>,
    bits: Bits,
    part: Bounds,
    corner: Coord,
    from: u32,
) -> Option<(u32, Coord)>
    requires configured { AreBits bits }
    requires few_words { W ≤ 512 }
    requires past_end { IsOffFrom states.now (entries bits leaf_level) }
    requires past_words { IsOffFrom states.now (64 * W) }
    requires block { IsInFirstBlock bits part }
    requires corner { corner ≡ (block_around bits leaf_level part.min).min }
    requires from_within { from ≤ 64 * W }
    ensures next { IsNextSet bits states.now part from result }
    ensures within { IfSome result (λ next. next.0 < 64 * W) }
{
    let mut at = from;
    while let Some(index) = states.next_on(at) {
        let p = voxel_at(bits, part.min(), corner, index);
        if part.contains(p) {
            return Some((index, p));
        }
        at = index + 1;
    }
    None
}

/// Returns the least corner of the leaf block around the part's least corner.
#[inline(always)]
pub(crate) fn block_corner(bits: Bits, part: Bounds) -> Coord
    requires { AreBits bits }
    ensures { result ≡ (block_around bits leaf_level part.min).min }
{
    part.min().block_in(bits, Level::Leaf).min()
}

/// Returns the voxel of an entry of the leaf around a coordinate. The leaf's extent has this least corner.
#[inline(always)]
pub(crate) fn voxel_at(bits: Bits, p: Coord, corner: Coord, entry: u32) -> Coord
    requires configured { AreBits bits }
    requires corner { corner ≡ (block_around bits leaf_level p).min }
    requires within { entry < entries bits leaf_level }
    ensures { result ≡ (sub_block bits leaf_level (block_around bits leaf_level p) entry).min }
{
    let leaf = u32::from(bits.leaf);
    let count = width(leaf);
    let row = entry / count;
    Coord {
        x: component_at(corner.x, p.x, leaf, row / count),
        y: component_at(corner.y, p.y, leaf, row % count),
        z: component_at(corner.z, p.z, leaf, entry % count),
    }
}

/// Returns how many voxels a leaf has along an axis.
#[inline(always)]
fn width(leaf: u32) -> u32
    requires { leaf ≤ 5 }
    ensures value { result ≡ 2 ^ leaf }
    ensures positive { 0 < result }
{
    1 << leaf
}

/// Returns the number at this position of the block of `2 ^ bits` numbers around a component. The caller gives the block's first
/// number.
#[inline(always)]
fn component_at(first: i32, component: i32, bits: u32, position: u32) -> i32
    requires few { bits ≤ 5 }
    requires first { first ≡ first_of bits (number_at bits component) }
    requires within { position < 2 ^ bits }
    ensures { result ≡ first_of bits (number_at bits component) +ℤ pos position }
{
    let _ = component;
    first + position as i32
}

/// Returns the entry past the voxels that follow `p` along z in both boxes, or the limit if that comes first. `p` is at the given
/// entry.
pub(crate) fn past_run(part: Bounds, other: Bounds, p: Coord, entry: u32, limit: u32) -> u32
    requires { entry < limit }
    ensures past { entry < result }
    ensures within { result ≤ limit }
    ensures run { result ≤ entry + unsigned_abs (int_min part.max.z other.max.z -ℤ p.z) + 1 }
{
    let last = part.max().z.min(other.max().z);
    entry
        .saturating_add(last.abs_diff(p.z))
        .saturating_add(1)
        .min(limit)
}

/// Returns the entry past a run of voxels along z in the part whose states are on. The run begins with `p`, which is at the given
/// entry.
pub(crate) fn run_end<const W: usize>(states: &Mask<W>, part: Bounds, p: Coord, entry: u32) -> u32
    requires few_words { W ≤ 512 }
    requires within { entry < 64 * W }
    ensures past { entry < result }
    ensures within { result ≤ 64 * W }
    ensures near { result ≤ entry + unsigned_abs (int_min part.max.z part.max.z -ℤ p.z) + 1 }
    ensures set { (i : ℕ) → entry < i → i < result → is_on states.now i ≡ true }
{
    let limit = past_run(part, part, p, entry, 64 * W as u32);
    match states.next_before(false, entry + 1, limit) {
        Some(end) => end,
        None => limit,
    }
}
