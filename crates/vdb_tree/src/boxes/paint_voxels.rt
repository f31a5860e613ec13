//! Painting of a leaf's voxels within a box.

ghost use Rattle.std.specs.Prelude.{◌≡◌, ◌<◌, ◌≤◌, IfSome, IsTrue};
ghost use Rattle.vdb_coord.specs.Blocks.{block_number};
ghost use Rattle.vdb_coord.specs.Entries.{AreBits};
ghost use Rattle.vdb_coord.specs.Space.{is_inside};
ghost use Rattle.vdb_coord.specs.Walk.{IsNextBlock, coordinates_after};
ghost use Rattle.vdb_coord.specs.declared.Coord.{Coord};
ghost use Rattle.vdb_coord.specs.declared.Level.TheVariants.{Leaf as leaf_level};
ghost use Rattle.vdb_tree.specs.internal.Paints.{IsRun, PaintsVoxels, voxels};

use vdb_coord::{Bits, Bounds, Coord, Level};
use vdb_node::{Leaf, Stored};
use vdb_value::Cell;

/// Gives the leaf's voxels at the coordinates of `part` this cell, one run at a time. `part` lies in one leaf extent.
#[inline(always)]
pub(crate) fn paint_voxels<V: Stored<W>, const F: u32, const W: usize>(
    leaf: &mut Leaf<V, F, W>,
    bits: Bits,
    part: Bounds,
    cell: Cell<V>,
)
    requires configured { AreBits bits }
    requires leaf { bits.leaf ≡ F }
    requires few_words { W ≤ 512 }
    requires one { (q : Coord) → IsTrue (is_inside part q) → block_number bits leaf_level part.min ≡ block_number bits leaf_level q }
    ensures { PaintsVoxels bits part cell leaf.old leaf.new }
{
    let mut p = part.min();
    loop {
        let last = run_end(bits, part, p);
        let from = u32::from(p.offset_in(bits, Level::Leaf));
        let to = u32::from(last.offset_in(bits, Level::Leaf)) + 1;
        leaf.fill_run(from, to, cell);
        match next_voxel(part, last) {
            Some(next) => p = next,
            None => return,
        }
    }
}

/// Returns the last coordinate of the run from p: within p's leaf extent, `part` has each coordinate from p up to it. The run
/// ends with p's row along z. If `part` spans the extent in z, the run ends with p's plane of x. If `part` spans y too, it ends
/// with `part`. What `part` spans doesn't depend on p, so a loop over runs finds it once.
#[inline(always)]
fn run_end(bits: Bits, part: Bounds, p: Coord) -> Coord
    requires configured { AreBits bits }
    requires inside { IsTrue (is_inside part p) }
    requires one { block_number bits leaf_level part.min ≡ block_number bits leaf_level p }
    ensures { IsRun bits part p result }
{
    let low = part.min();
    let high = part.max();
    let block = low.block_in(bits, Level::Leaf);
    let first = block.min();
    let last = block.max();
    let z = high.z.min(last.z);
    if !is_range(low.z, high.z, first.z, last.z) {
        return Coord { x: p.x, y: p.y, z };
    }
    let y = high.y.min(last.y);
    if !is_range(low.y, high.y, first.y, last.y) {
        return Coord { x: p.x, y, z };
    }
    let x = high.x.min(last.x);
    Coord { x, y, z }
}

/// Returns whether the numbers from `low` to `high` are those from `first` to `last`.
#[inline(always)]
fn is_range(low: i32, high: i32, first: i32, last: i32) -> bool
    ensures { IsTrue result → (low ≡ first) × (high ≡ last) }
{
    low == first && high == last
}

/// Returns the coordinate of the box after p, by z, then by y, then by x, or `None` if p is the last.
#[inline(always)]
fn next_voxel(part: Bounds, p: Coord) -> Option<Coord>
    requires { IsTrue (is_inside part p) }
    ensures next { IsNextBlock voxels leaf_level part p result }
    ensures nearer { IfSome result (λ next. coordinates_after next < coordinates_after p) }
{
    if p.z < part.max().z {
        return Some(Coord {
            x: p.x,
            y: p.y,
            z: p.z + 1,
        });
    }
    if p.y < part.max().y {
        return Some(Coord {
            x: p.x,
            y: p.y + 1,
            z: part.min().z,
        });
    }
    if p.x < part.max().x {
        return Some(Coord {
            x: p.x + 1,
            y: part.min().y,
            z: part.min().z,
        });
    }
    None
}
