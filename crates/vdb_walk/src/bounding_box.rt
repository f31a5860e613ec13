//! Finds the bounding box of the active voxels.

ghost use Rattle.std.specs.Prelude.{◌≡◌, ◌*◌, ◌<◌, ◌≤◌, ◌||◌, IfSome, IsTrue, Some};
ghost use Rattle.vdb_coord.specs.Blocks.{entries};
ghost use Rattle.vdb_coord.specs.Entries.{AreBits};
ghost use Rattle.vdb_coord.specs.Order.{coordinates_past};
ghost use Rattle.vdb_coord.specs.Space.{everywhere, is_box, is_inside};
ghost use Rattle.vdb_coord.specs.declared.Coord.{Coord};
ghost use Rattle.vdb_coord.specs.declared.Level.TheVariants.{Leaf as leaf_level};
ghost use Rattle.vdb_node.specs.Nodes.{IsOffFrom};
ghost use Rattle.vdb_tree.specs.Layout.{bits_of, field_of};
ghost use Rattle.vdb_tree.specs.Parts.{IsPartOfLeaf};
ghost use Rattle.vdb_walk.specs.internal.Covered.{IsCoveredTo};
ghost use Rattle.vdb_walk.specs.internal.Voxels.{IsInFirstBlock};
ghost use Rattle.vdb_walk.specs.Reports.{IsActiveBounds};
ghost use Rattle.vdb_walk.specs.internal.Surround.{IsFoundBetween, IsFoundTo, Surrounds, is_in, is_wanted, is_wanted_by};

use crate::covered::past_covered;
use crate::voxels::{block_corner, next_set_in, past_run};
use vdb_coord::{Bits, Bounds, Coord};
use vdb_mask::Mask;
use vdb_node::{Leaf, Stored};
use vdb_pool::Steps;
use vdb_tree::{Content, Part, Skip, TreeOf};
use vdb_value::Cell;

/// Returns the bounding box of all active voxels, those inside active tiles too, or `None` if no voxel is active (OpenVDB's
/// `Tree::evalActiveVoxelBoundingBox`). It takes a tile in one go, and passes over the blocks that lie within the box found so
/// far. It allocates nothing.
pub fn active_bounds<
    V: Stored<WU> + Stored<WL> + Stored<WF>,
    const U: u32,
    const L: u32,
    const F: u32,
    const WU: usize,
    const WL: usize,
    const WF: usize,
>(tree: &TreeOf<V, U, L, F, WU, WL, WF>, steps: &mut Steps) -> Option<Bounds>
    ensures { IsActiveBounds (field_of (bits_of U L F) tree.now) result }
{
    let mut found = None;
    let mut at = Some(Bounds::all().min());
    'starts: while let Some(start) = at {
        let (around, next) = around_from(tree, start, found, steps);
        found = around;
        at = next;
    }
    found
}

/// Returns two things: the bounding box of what was found so far and of the active voxels from `start` on and before a later
/// coordinate, and that coordinate, or `None` if no active voxel is left.
fn around_from<
    V: Stored<WU> + Stored<WL> + Stored<WF>,
    const U: u32,
    const L: u32,
    const F: u32,
    const WU: usize,
    const WL: usize,
    const WF: usize,
>(
    tree: &TreeOf<V, U, L, F, WU, WL, WF>,
    start: Coord,
    found: Option<Bounds>,
    steps: &mut Steps,
) -> (Option<Bounds>, Option<Coord>)
    requires inside { IsTrue (is_inside everywhere start) }
    requires found { IsFoundTo (bits_of U L F) (field_of (bits_of U L F) tree.now) (Some start) found }
    ensures found { IsFoundTo (bits_of U L F) (field_of (bits_of U L F) tree.now) result.1 result.0 }
    ensures inside { IfSome result.1 (λ next. IsTrue (is_inside everywhere next)) }
    ensures nearer { IfSome result.1 (λ next. coordinates_past (bits_of U L F) next < coordinates_past (bits_of U L F) start) }
{
    let (_, bits) = (tree.mask_words(), tree.bits());
    let mut walk = tree.parts_from(Bounds::all(), Skip::Inactive, start, steps);
    let mut around = found;
    'parts: while let Some(part) = tree.next_part(&mut walk, steps) {
        let Part { bounds, content } = part;
        let _ = bounds.min(); // the part has a first coordinate
        if let Some(next) = past_found(bits, &around, bounds, start) {
            return (around, Some(next));
        }
        around = match content {
            Content::Tile(cell) => around_tile(tree, cell, bounds, around),
            Content::Leaf(leaf) => around_leaf(tree, leaf, bounds, around),
        };
    }
    (around, None)
}

/// Returns a coordinate past the part and past `start`, if the box found so far holds everything from the part on and before it.
/// Returns `None` if the walk itself finds what follows the part.
fn past_found(bits: Bits, found: &Option<Bounds>, part: Bounds, start: Coord) -> Option<Coord>
    requires { AreBits bits }
    ensures covered { IfSome result (λ next. IsFoundBetween bits part.min next found.now) }
    ensures inside { IfSome result (λ next. IsTrue (is_inside everywhere next)) }
    ensures nearer { IfSome result (λ next. coordinates_past bits next < coordinates_past bits start) }
{
    match *found {
        Some(around) => past_start(bits, around, part, start),
        None => None,
    }
}

/// Returns a coordinate past the part and past `start`, if the box holds everything from the part on and before it.
fn past_start(bits: Bits, around: Bounds, part: Bounds, start: Coord) -> Option<Coord>
    requires { AreBits bits }
    ensures covered { IfSome result (IsCoveredTo bits around part.min) }
    ensures inside { IfSome result (λ next. IsTrue (is_inside everywhere next)) }
    ensures nearer { IfSome result (λ next. coordinates_past bits next < coordinates_past bits start) }
{
    if !around.covers(part) {
        return None;
    }
    match past_covered(bits, around, part) {
        Some(next) => {
            if start.block_cmp_in(bits, &next).is_lt() {
                Some(next)
            } else {
                None
            }
        }
        None => None,
    }
}

/// Returns the bounding box of what was found so far and of the part's active voxels, if each voxel of the part has this cell.
fn around_tile<
    V: Stored<WU> + Stored<WL> + Stored<WF>,
    const U: u32,
    const L: u32,
    const F: u32,
    const WU: usize,
    const WL: usize,
    const WF: usize,
>(
    tree: &TreeOf<V, U, L, F, WU, WL, WF>,
    cell: Cell<V>,
    part: Bounds,
    found: Option<Bounds>,
) -> Option<Bounds>
    requires { (q : Coord) → IsTrue (is_inside part q) → (field_of (bits_of U L F) tree.now).cell q ≡ cell }
    ensures least { Surrounds (is_wanted (field_of (bits_of U L F) tree.now) found part) result }
    ensures order { IfSome result (λ box. IsTrue (is_box box)) }
{
    let _ = tree;
    if cell.on {
        Some(joined(found, part))
    } else {
        found
    }
}

/// Returns the bounding box of what was found so far and of the part's active voxels. The part lies in the leaf's extent.
fn around_leaf<
    V: Stored<WU> + Stored<WL> + Stored<WF>,
    const U: u32,
    const L: u32,
    const F: u32,
    const WU: usize,
    const WL: usize,
    const WF: usize,
>(
    tree: &TreeOf<V, U, L, F, WU, WL, WF>,
    leaf: &Leaf<V, F, WF>,
    part: Bounds,
    found: Option<Bounds>,
) -> Option<Bounds>
    requires few_words { WF ≤ 512 }
    requires leaf { IsPartOfLeaf (bits_of U L F) (field_of (bits_of U L F) tree.now) part leaf.now }
    ensures least { Surrounds (is_wanted (field_of (bits_of U L F) tree.now) found part) result }
    ensures order { IfSome result (λ box. IsTrue (is_box box)) }
{
    if lies_within(part, &found) {
        return found;
    }
    around_voxels(&leaf.states().copied(), tree.bits(), part, found)
}

/// Returns the bounding box of what was found so far and of the part's voxels whose state is on. The part lies in the extent of
/// the leaf with these states. The function finds the voxels by the words of the states, and skips those that follow along z
/// within the box found so far.
fn around_voxels<const W: usize>(
    states: &Mask<W>,
    bits: Bits,
    part: Bounds,
    found: Option<Bounds>,
) -> Option<Bounds>
    requires configured { AreBits bits }
    requires few_words { W ≤ 512 }
    requires past_end { IsOffFrom states.now (entries bits leaf_level) }
    requires past_words { IsOffFrom states.now (64 * W) }
    requires block { IsInFirstBlock bits part }
    ensures least { Surrounds (is_wanted_by bits states.now found part) result }
    ensures order { IfSome result (λ box. IsTrue (is_box box)) }
{
    let corner = block_corner(bits, part);
    let limit = 64 * W as u32;
    let mut around = found;
    let mut from = 0;
    'voxels: while let Some((entry, p)) = next_set_in(states, bits, part, corner, from) {
        let grown = joined(around, Bounds::single(p));
        from = past_run(part, grown, p, entry, limit);
        around = Some(grown);
    }
    around
}

/// Returns whether the part lies within the box found so far.
fn lies_within(part: Bounds, found: &Option<Bounds>) -> bool
    ensures { IsTrue result → (p : _) → IsTrue (is_inside part p) → IsTrue (is_in found.now p) }
{
    match *found {
        Some(bounds) => bounds.covers(part),
        None => false,
    }
}

/// Returns the bounding box of the part and of what was found so far.
fn joined(found: Option<Bounds>, part: Bounds) -> Bounds
    ensures least { Surrounds (λ p. is_in found p || is_inside part p) (Some result) }
    ensures order { IsTrue (is_box result) }
{
    match found {
        Some(bounds) => {
            let min = bounds.min().lesser(part.min());
            let max = bounds.max().greater(part.max());
            match Bounds::new(min, max) {
                Some(both) => both,
                None => unreachable!(),
            }
        }
        None => part,
    }
}
