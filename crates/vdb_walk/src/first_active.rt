//! Finds the next active voxel in block order.

ghost use Rattle.std.specs.Prelude.{◌≡◌, ◌<◌, ◌≤◌, ◌*◌, IfNone, IfSome, None, Some, true};
ghost use Rattle.std.specs.List.{find};
ghost use Rattle.std.specs.Option.{option_map};
ghost use Rattle.vdb_coord.specs.Blocks.{entries, is_past, offset};
ghost use Rattle.vdb_coord.specs.Entries.{AreBits};
ghost use Rattle.vdb_coord.specs.declared.Level.TheVariants.{Leaf as leaf_level};
ghost use Rattle.vdb_node.specs.Nodes.{entry_count};
ghost use Rattle.vdb_tree.specs.Layout.{bits_of, field_of};
ghost use Rattle.vdb_walk.specs.internal.Firsts.{IsActivePast, IsFirst, IsEntryPast, IsInLeafBlock, IsOnPast, IsPastLast};
ghost use Rattle.vdb_tree.specs.Parts.{IsWalk};
ghost use Rattle.vdb_walk.specs.internal.Listings.{HasCells, IsAhead, IsHeld, IsListing, IsRunOf};
ghost use Rattle.vdb_walk.specs.Reports.{active};

use crate::held::{Held, Run, without_leaf};
use crate::listing::list_past;
use crate::order::first_past;
use crate::voxels::{block_corner, next_set_in, run_end};
use vdb_coord::{Bits, Bounds, Coord, Level};
use vdb_node::{Internal, Leaf, Stored};
use vdb_pool::Steps;
use vdb_tree::{Content, Part, Skip, TreeOf, Walk};
use vdb_value::Cell;

/// Returns the first active voxel of the box past `after` in block order, with its value, or the first of all if `after` is
/// `None`. It returns `None` if no such voxel exists. It allocates nothing, skips an inactive tile in one go, and finds the
/// voxels of a leaf by the words of its states.
pub fn next_active<
    V: Stored<WU> + Stored<WL> + Stored<WF>,
    const U: u32,
    const L: u32,
    const F: u32,
    const WU: usize,
    const WL: usize,
    const WF: usize,
>(
    tree: &TreeOf<V, U, L, F, WU, WL, WF>,
    after: Option<Coord>,
    bounds: Bounds,
    steps: &mut Steps,
) -> Option<(Coord, V)>
    ensures { result ≡ find (λ item. is_past (bits_of U L F) after item.0) (active (bits_of U L F) (field_of (bits_of U L F) tree.now) bounds) }
{
    let mut listing = list_past(tree, after, bounds, 1, steps);
    listing.next(steps)
}

/// Returns a walk over the parts with active voxels, from the one around `after` on.
pub(crate) fn begun<
    V: Stored<WU> + Stored<WL> + Stored<WF>,
    const U: u32,
    const L: u32,
    const F: u32,
    const WU: usize,
    const WL: usize,
    const WF: usize,
>(
    tree: &TreeOf<V, U, L, F, WU, WL, WF>,
    after: Option<Coord>,
    bounds: Bounds,
    steps: &mut Steps,
) -> Walk<Internal<V, U, WU>, Internal<V, L, WL>, Leaf<V, F, WF>>
    ensures listing { IsListing (bits_of U L F) tree.now after result None }
    ensures bounds { result.box ≡ bounds }
{
    match after {
        Some(after) => tree.parts_from(bounds, Skip::Inactive, after, steps),
        None => tree.parts(bounds, Skip::Inactive),
    }
}

/// Finds the first active voxel past `after` in the rest of the walk. Returns it with its part, which is then the last that the
/// walk yielded.
pub(crate) fn next_found<
    V: Stored<WU> + Stored<WL> + Stored<WF>,
    const U: u32,
    const L: u32,
    const F: u32,
    const WU: usize,
    const WL: usize,
    const WF: usize,
>(
    tree: &TreeOf<V, U, L, F, WU, WL, WF>,
    after: Option<Coord>,
    walk: &mut Walk<Internal<V, U, WU>, Internal<V, L, WL>, Leaf<V, F, WF>>,
    steps: &mut Steps,
) -> Option<(Held<V>, (Coord, V))>
    requires { IsListing (bits_of U L F) tree.now after walk.old None }
    ensures first { IsFirst (bits_of U L F) (IsActivePast (bits_of U L F) after (field_of (bits_of U L F) tree.now)) walk.old.box (option_map (λ found. found.1.0) result) }
    ensures value { IfSome result (λ found. found.1.1 ≡ ((field_of (bits_of U L F) tree.now).cell found.1.0).value) }
    ensures bounds { walk.new.box ≡ walk.old.box }
    ensures some { IfSome result (λ found. IsListing (bits_of U L F) tree.now after walk.new (Some found.0)) }
    ensures none { IfNone result (IsListing (bits_of U L F) tree.now after walk.new None) }
{
    'parts: while let Some(part) = tree.next_part(walk, steps) {
        let held = without_leaf(&part);
        if let Some(item) = first_in(tree, after, part) {
            return Some((held, item));
        }
    }
    None
}

/// Returns the first active voxel past `after` in a part that the walk has yielded, and begins the run that follows it. It needs
/// one visit if the walk's path ends in the part's leaf.
pub(crate) fn first_held<
    V: Stored<WU> + Stored<WL> + Stored<WF>,
    const U: u32,
    const L: u32,
    const F: u32,
    const WU: usize,
    const WL: usize,
    const WF: usize,
>(
    tree: &TreeOf<V, U, L, F, WU, WL, WF>,
    after: Option<Coord>,
    walk: &Walk<Internal<V, U, WU>, Internal<V, L, WL>, Leaf<V, F, WF>>,
    held: Held<V>,
    run: &mut Run<V>,
    steps: &mut Steps,
) -> Option<(Coord, V)>
    requires walk { IsWalk (bits_of U L F) tree.now walk.now }
    requires held { IsHeld (bits_of U L F) tree.now held }
    requires empty { run.old.end ≤ run.old.entry }
    ensures first { IsFirst (bits_of U L F) (IsActivePast (bits_of U L F) after (field_of (bits_of U L F) tree.now)) held.bounds (option_map (λ item. item.0) result) }
    ensures value { IfSome result (λ item. item.1 ≡ ((field_of (bits_of U L F) tree.now).cell item.0).value) }
    ensures run { IsAhead (bits_of U L F) tree.now (option_map (λ item. item.0) result) (Some held) run.new }
{
    let bits = tree.bits();
    let (part, corner) = (held.bounds, held.bounds.min());
    if let Some(cell) = held.tile {
        return first_in_tile(cell, bits, after, part);
    }
    match tree.leaf_of(walk, corner, steps) {
        Some(leaf) => {
            tree.has_leaf_words();
            let (entry, p) = next_in_leaf(leaf, bits, after, part)?;
            begin_run(run, leaf, part, p, entry);
            Some((p, leaf.entry(entry).value))
        }
        // a block without a leaf has one cell
        None => first_in_tile(tree.piece(corner, steps).cell, bits, after, part),
    }
}

/// Returns the first active voxel of the part past `after`.
fn first_in<
    V: Stored<WU> + Stored<WL> + Stored<WF>,
    const U: u32,
    const L: u32,
    const F: u32,
    const WU: usize,
    const WL: usize,
    const WF: usize,
>(
    tree: &TreeOf<V, U, L, F, WU, WL, WF>,
    after: Option<Coord>,
    part: Part<V, &Leaf<V, F, WF>>,
) -> Option<(Coord, V)>
    requires { HasCells (bits_of U L F) tree.now part }
    ensures first { IsFirst (bits_of U L F) (IsActivePast (bits_of U L F) after (field_of (bits_of U L F) tree.now)) part.entry.bounds (option_map (λ item. item.0) result) }
    ensures value { IfSome result (λ item. item.1 ≡ ((field_of (bits_of U L F) tree.now).cell item.0).value) }
{
    let bits = tree.bits();
    let Part { bounds, content } = part;
    match content {
        Content::Tile(cell) => first_in_tile(cell, bits, after, bounds),
        Content::Leaf(leaf) => {
            tree.has_leaf_words();
            let (entry, p) = next_in_leaf(leaf, bits, after, bounds)?;
            Some((p, leaf.entry(entry).value))
        }
    }
}

/// Returns the first active voxel of the part past `after`, if each voxel of the part has this cell.
fn first_in_tile<V: Copy>(
    cell: Cell<V>,
    bits: Bits,
    after: Option<Coord>,
    part: Bounds,
) -> Option<(Coord, V)>
    requires { AreBits bits }
    ensures first { IsFirst bits (λ q. IsPastLast bits after q × (cell.on ≡ true)) part (option_map (λ item. item.0) result) }
    ensures value { IfSome result (λ item. item.1 ≡ cell.value) }
{
    if !cell.on {
        return None;
    }
    match first_past(bits, after, part) {
        Some(p) => Some((p, cell.value)),
        None => None,
    }
}

/// Returns the entry and the voxel of the first active voxel of the part past `after`. The part lies in the leaf's extent.
#[inline(always)]
fn next_in_leaf<V: Stored<W>, const F: u32, const W: usize>(
    leaf: &Leaf<V, F, W>,
    bits: Bits,
    after: Option<Coord>,
    part: Bounds,
) -> Option<(u32, Coord)>
    requires configured { AreBits bits }
    requires leaf { bits.leaf ≡ F }
    requires few_words { W ≤ 512 }
    requires capacity { entries bits leaf_level ≤ 64 * W }
    requires block { IsInLeafBlock bits part }
    ensures first { IsFirst bits (IsOnPast bits after leaf.now.states) part (option_map (λ next. next.1) result) }
    ensures at { IfSome result (λ next. offset bits leaf_level next.1 ≡ next.0) }
    ensures within { IfSome result (λ next. next.0 < entry_count F) }
{
    let from = entry_past(bits, after, part)?;
    next_set_in(leaf.states(), bits, part, block_corner(bits, part), from)
}

/// Begins the run of voxels that follow `p` along z in the part and whose states are on, as far as the eight entries around that
/// of `p` reach.
#[inline(always)]
fn begin_run<V: Stored<W>, const F: u32, const W: usize>(
    run: &mut Run<V>,
    leaf: &Leaf<V, F, W>,
    part: Bounds,
    p: Coord,
    entry: u32,
)
    requires some { 1 ≤ F }
    requires few_words { W ≤ 512 }
    requires capacity { entry_count F ≤ 64 * W }
    requires within { entry < entry_count F }
    requires empty { run.old.end ≤ run.old.entry }
    ensures run { run.new.entry < run.new.end → IsRunOf leaf.now part p entry run.new }
{
    let (first, limit) = (entry / 8 * 8, entry / 8 * 8 + 8);
    if entry + 1 < limit && leaf.states().test(entry + 1) {
        leaf.copy_values(first, &mut run.values);
        run.entry = entry + 1;
        run.end = run_end(leaf.states(), part, p, entry).min(limit);
    }
}

/// Returns the leaf's first entry past `after` among the coordinates of the part, which lies in the leaf's extent. Returns `None`
/// if none of them comes past `after`.
fn entry_past(bits: Bits, after: Option<Coord>, part: Bounds) -> Option<u32>
    requires configured { AreBits bits }
    requires block { IsInLeafBlock bits part }
    ensures past { IfSome result (IsEntryPast bits after part) }
    ensures within { IfSome result (λ from. from ≤ entries bits leaf_level) }
    ensures none { IfNone result (IsFirst bits (IsPastLast bits after) part None) }
{
    match after {
        Some(p) => {
            if part.contains(p) {
                Some(u32::from(p.offset_in(bits, Level::Leaf)) + 1)
            } else {
                first_entry(bits, after, part)
            }
        }
        None => first_entry(bits, after, part),
    }
}

/// Returns the same entry as `entry_past`, also if `after` lies outside the part.
fn first_entry(bits: Bits, after: Option<Coord>, part: Bounds) -> Option<u32>
    requires configured { AreBits bits }
    requires block { IsInLeafBlock bits part }
    ensures past { IfSome result (IsEntryPast bits after part) }
    ensures within { IfSome result (λ from. from ≤ entries bits leaf_level) }
    ensures none { IfNone result (IsFirst bits (IsPastLast bits after) part None) }
{
    match first_past(bits, after, part) {
        Some(start) => Some(u32::from(start.offset_in(bits, Level::Leaf))),
        None => None,
    }
}
