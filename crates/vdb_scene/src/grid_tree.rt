//! Calls on a grid of one type of values, or on its tree, in the terms of a grid of any type.

ghost use Rattle.std.specs.Prelude.{◌≡◌, ◌≢◌, ◌&&◌, ◌+◌, ◌*◌, ◌<◌, ◌≤◌, ℕ, Some, Err, false, if◌then◌else◌, IfErr, IsOk, IsTrue, Ok, OnOk, slice_set};
ghost use Rattle.std.specs.Option.{unwrap_or};
ghost use Rattle.vdb_coord.specs.Blocks.{key, vdb};
ghost use Rattle.vdb_coord.specs.Space.{everywhere};
ghost use Rattle.vdb_tree.specs.Field.{as_cell_of, as_field_of, as_write_of, clip as clipped, dilate as dilation, erode as erosion, fill as filled, iterations as iterated, write, written};
ghost use Rattle.vdb_tree.specs.Layout.{field_of};
ghost use Rattle.vdb_tree.specs.Leaves.{IsVoxelWritten};
ghost use Rattle.vdb_tree.specs.Nodes.{KeepsElsewhere};
ghost use Rattle.vdb_tree.specs.Outcome.{IsOutcome};
ghost use Rattle.vdb_tree.specs.Paths.{IsWhole, in_leaf};
ghost use Rattle.vdb_tree.specs.Smallest.{IsLeast};
ghost use Rattle.vdb_tree.specs.Table.{HasCapacity};
ghost use Rattle.vdb_tree.specs.ConstantBlocks.{count as active_count};
ghost use Rattle.vdb_tree.specs.declared.Write.{Write};
ghost use Rattle.vdb_tree.specs.declared.refusal.TreeRefusal.TheVariants.{Memory};
ghost use Rattle.vdb_morph.specs.Growth.{IsGrowth};
ghost use Rattle.vdb_grid.specs.Grid.{IsInLastLeaf, has_leaf, has_lower, last, path};
ghost use Rattle.vdb_scene.specs.Grids.{HasTiles, coords_after, last_of};
ghost use Rattle.vdb_scene.specs.Scalars.{is_of, scalar_eq};
ghost use Rattle.vdb_scene.specs.Step.{passes, write_takes_memory};
ghost use Rattle.vdb_walk.specs.Reports.{IsActiveBounds, census as census_of};

use crate::Scalar;
use crate::any_grid::ACCESSORS;
use crate::scalar::GridValue;
use vdb_coord::{Bounds, Coord};
use vdb_grid::Grid;
use vdb_pool::Steps;
use vdb_tree::{Tree, TreeRefusal, Write};
use vdb_value::Cell;
use vdb_walk::Census;

/// Returns the cell of a voxel, by at most three node visits.
#[inline(always)]
pub fn get<V: GridValue>(tree: &Tree<V>, at: Coord, steps: &mut Steps) -> Cell<Scalar>
    ensures cell { result ≡ (as_field_of V.as_scalar (field_of vdb tree.now)).cell at }
    ensures steps { steps.new ≤ steps.old + 3 }
{
    of_any_kind(tree.get(at, steps))
}

/// Returns the cell of a voxel through an accessor, or without one.
#[inline(always)]
pub fn probe<V: GridValue>(
    grid: &mut Grid<V, ACCESSORS>,
    accessor: Option<usize>,
    at: Coord,
    steps: &mut Steps,
) -> Cell<Scalar>
    requires { (k : ℕ) → accessor ≡ Some k → k < ACCESSORS }
    ensures cell { result ≡ (as_field_of V.as_scalar (field_of vdb grid.old.tree)).cell at }
    ensures tree { grid.new.tree ≡ grid.old.tree }
    ensures last { grid.new.coords ≡ coords_after accessor at grid.old.coords }
    ensures near { IsInLastLeaf grid.old.tree (last_of accessor grid.old.coords) at → steps.new ≤ steps.old + 1 }
    ensures steps { steps.new ≤ steps.old + 3 }
{
    match accessor {
        Some(k) => of_any_kind(grid.probe(k, at, steps)),
        None => of_any_kind(grid.get(at, steps)),
    }
}

/// Writes a voxel, with a value of the grid's type, through an accessor or without one.
#[inline(always)]
pub fn write<V: GridValue>(
    grid: &mut Grid<V, ACCESSORS>,
    accessor: Option<usize>,
    at: Coord,
    change: Write<Scalar>,
    steps: &mut Steps,
) -> Result<(), TreeRefusal>
    requires kind { IsTrue (passes (is_of V.KIND) change) }
    requires within { (k : ℕ) → accessor ≡ Some k → k < ACCESSORS }
    ensures outcome { IsOutcome scalar_eq vdb grid.old.tree.limit (as_field_of V.as_scalar (field_of vdb grid.old.tree))
        (write at change (as_field_of V.as_scalar (field_of vdb grid.old.tree))) (as_field_of V.as_scalar (field_of vdb grid.new.tree)) result }
    ensures limit { grid.new.tree.limit ≡ grid.old.tree.limit }
    ensures last { grid.new.coords ≡ coords_after accessor at grid.old.coords }
    ensures memory { write_takes_memory (as_field_of V.as_scalar (field_of vdb grid.old.tree)) at change ≡ false → IsOk result }
    ensures elsewhere { HasCapacity grid.old.tree (key vdb at) → KeepsElsewhere vdb grid.old.tree grid.new.tree at }
    ensures near { IsInLastLeaf grid.old.tree (last_of accessor grid.old.coords) at → steps.new ≤ steps.old + 1 }
    ensures steps { HasCapacity grid.old.tree (key vdb at) → steps.new ≤ steps.old + (8 + 3 * ACCESSORS) }
{
    let change = of_kind(change);
    match accessor {
        Some(k) => grid.write_by(k, at, change, steps),
        None => grid.set(at, change, steps),
    }
}

/// Writes a voxel in the leaf that ends an accessor's path or, if `IN_LOWER`, in another leaf of the path's lower node, by at most
/// two node visits. Returns whether that leaf holds the voxel; if not, nothing changes.
#[inline(always)]
pub fn write_in_leaf<V: GridValue, const IN_LOWER: bool>(
    grid: &mut Grid<V, ACCESSORS>,
    k: usize,
    at: Coord,
    change: Write<Scalar>,
    steps: &mut Steps,
) -> bool
    requires kind { IsTrue (passes (is_of V.KIND) change) }
    requires within { k < ACCESSORS }
    ensures answer { result ≡ (if IN_LOWER then has_lower (last grid.old.coords k) (path grid.old.paths k) at && in_leaf vdb grid.old.tree at else has_leaf (last grid.old.coords k) (path grid.old.paths k) at) }
    ensures outcome { IsTrue result → IsOutcome scalar_eq vdb grid.old.tree.limit (as_field_of V.as_scalar (field_of vdb grid.old.tree))
        (write at change (as_field_of V.as_scalar (field_of vdb grid.old.tree))) (as_field_of V.as_scalar (field_of vdb grid.new.tree)) (Ok tt) }
    ensures limit { grid.new.tree.limit ≡ grid.old.tree.limit }
    // The accessor caches the path to the voxel. In another leaf of the path's lower node it is given the voxel's coordinate.
    ensures last { grid.new.coords ≡ (if IN_LOWER && result then slice_set grid.old.coords k (Some at) else grid.old.coords) }
    ensures whole { IsTrue result → IsWhole vdb grid.new.tree (path grid.new.paths k) at }
    ensures others { (j : ℕ) → j ≢ k → path grid.new.paths j ≡ path grid.old.paths j }
    // Nothing else of the tree changes.
    ensures alone { IsTrue result → (w : Write V) × (as_write_of V.as_scalar w ≡ change)
        × IsVoxelWritten vdb grid.old.tree grid.new.tree at (written w ((field_of vdb grid.old.tree).cell at)) }
    ensures elsewhere { KeepsElsewhere vdb grid.old.tree grid.new.tree at }
    ensures untouched { result ≡ false → grid.new ≡ grid.old }
    ensures steps { steps.new ≤ steps.old + ((if IN_LOWER && has_lower (last grid.old.coords k) (path grid.old.paths k) at then 1 else 0) + (if result then 1 else 0)) }
{
    let change = of_kind(change);
    if IN_LOWER {
        grid.write_in_lower(k, at, change, steps)
    } else {
        grid.write_in_leaf(k, at, change, steps)
    }
}

/// Writes a voxel in the leaf of the last voxel that was read without an accessor, if that leaf holds it, by one node visit.
/// Returns whether it does; if not, nothing changes.
#[inline(always)]
pub fn write_nearby<V: GridValue>(
    grid: &mut Grid<V, ACCESSORS>,
    at: Coord,
    change: Write<Scalar>,
    steps: &mut Steps,
) -> bool
    requires { IsTrue (passes (is_of V.KIND) change) }
    ensures outcome { IsTrue result → IsOutcome scalar_eq vdb grid.old.tree.limit (as_field_of V.as_scalar (field_of vdb grid.old.tree))
        (write at change (as_field_of V.as_scalar (field_of vdb grid.old.tree))) (as_field_of V.as_scalar (field_of vdb grid.new.tree)) (Ok tt) }
    ensures limit { grid.new.tree.limit ≡ grid.old.tree.limit }
    ensures last { grid.new.coords ≡ grid.old.coords }
    ensures paths { grid.new.paths ≡ grid.old.paths }
    ensures elsewhere { KeepsElsewhere vdb grid.old.tree grid.new.tree at }
    ensures untouched { result ≡ false → grid.new ≡ grid.old }
    ensures steps { steps.new ≤ steps.old + (if result then 1 else 0) }
{
    grid.near_set(at, of_kind(change), steps)
}

/// Sets each voxel of a box to one cell, with a value of the grid's type.
pub fn fill<V: GridValue>(
    grid: &mut Grid<V, ACCESSORS>,
    bounds: Bounds,
    cell: Cell<Scalar>,
    steps: &mut Steps,
) -> Result<(), TreeRefusal>
    requires { IsTrue (is_of V.KIND cell.value) }
    ensures outcome { IsOutcome scalar_eq vdb grid.old.tree.limit (as_field_of V.as_scalar (field_of vdb grid.old.tree))
        (filled bounds cell (as_field_of V.as_scalar (field_of vdb grid.old.tree))) (as_field_of V.as_scalar (field_of vdb grid.new.tree)) result }
    ensures limit { grid.new.tree.limit ≡ grid.old.tree.limit }
    ensures tiles { OnOk result (HasTiles grid.new.tree bounds) }
    ensures last { grid.new.coords ≡ grid.old.coords }
    ensures given_back { result ≡ Err Memory → IsLeast V.eq vdb grid.new.tree }
{
    grid.fill(bounds, cell_of_kind(cell), steps)
}

/// Sets each voxel outside a box to the background, inactive.
pub fn clip<V: GridValue>(
    grid: &mut Grid<V, ACCESSORS>,
    bounds: Bounds,
    steps: &mut Steps,
) -> Result<(), TreeRefusal>
    ensures outcome { IsOutcome scalar_eq vdb grid.old.tree.limit (as_field_of V.as_scalar (field_of vdb grid.old.tree))
        (clipped bounds (as_field_of V.as_scalar (field_of vdb grid.old.tree))) (as_field_of V.as_scalar (field_of vdb grid.new.tree)) result }
    ensures limit { grid.new.tree.limit ≡ grid.old.tree.limit }
    ensures last { grid.new.coords ≡ grid.old.coords }
    ensures memory { IfErr result (λ refusal. refusal ≡ Memory) }
    ensures given_back { result ≡ Err Memory → IsLeast V.eq vdb grid.new.tree }
{
    grid.clip(bounds, steps)
}

/// Activates, in each of 1 to 16 iterations, every voxel that has an active face neighbour.
pub fn dilate<V: GridValue>(
    grid: &mut Grid<V, ACCESSORS>,
    iterations: u32,
    steps: &mut Steps,
) -> Result<(), TreeRefusal>
    requires some { 1 ≤ iterations }
    requires few { iterations ≤ 16 }
    ensures outcome { IsGrowth scalar_eq vdb grid.old.tree.limit (as_field_of V.as_scalar (field_of vdb grid.old.tree))
        (iterated iterations dilation (as_field_of V.as_scalar (field_of vdb grid.old.tree))) (as_field_of V.as_scalar (field_of vdb grid.new.tree)) result }
    ensures limit { grid.new.tree.limit ≡ grid.old.tree.limit }
    ensures last { grid.new.coords ≡ grid.old.coords }
{
    grid.dilate(iterations, steps)
}

/// Deactivates, in each of 1 to 16 iterations, every voxel that has an inactive face neighbour.
pub fn erode<V: GridValue>(
    grid: &mut Grid<V, ACCESSORS>,
    iterations: u32,
    steps: &mut Steps,
) -> Result<(), TreeRefusal>
    requires some { 1 ≤ iterations }
    requires few { iterations ≤ 16 }
    ensures outcome { IsOutcome scalar_eq vdb grid.old.tree.limit (as_field_of V.as_scalar (field_of vdb grid.old.tree))
        (iterated iterations erosion (as_field_of V.as_scalar (field_of vdb grid.old.tree))) (as_field_of V.as_scalar (field_of vdb grid.new.tree)) result }
    ensures limit { grid.new.tree.limit ≡ grid.old.tree.limit }
    ensures last { grid.new.coords ≡ grid.old.coords }
    ensures memory { IfErr result (λ refusal. refusal ≡ Memory) }
{
    grid.erode(iterations, steps)
}

/// Returns the number of active voxels of the box, or of all coordinates.
pub fn count<V: GridValue>(tree: &Tree<V>, bounds: Option<Bounds>, steps: &mut Steps) -> u128
    ensures { result ≡ active_count (as_field_of V.as_scalar (field_of vdb tree.now)) (unwrap_or bounds everywhere) }
{
    vdb_walk::count(tree, bounds, steps)
}

/// Returns the bounding box of the active voxels, if any.
pub fn active_bounds<V: GridValue>(tree: &Tree<V>, steps: &mut Steps) -> Option<Bounds>
    ensures { IsActiveBounds (as_field_of V.as_scalar (field_of vdb tree.now)) result }
{
    vdb_walk::active_bounds(tree, steps)
}

/// Returns the size of the smallest tree of the cells.
pub fn census<V: GridValue>(tree: &Tree<V>, steps: &mut Steps) -> Census
    ensures { result ≡ census_of scalar_eq vdb (as_field_of V.as_scalar (field_of vdb tree.now)) }
{
    vdb_walk::census(tree, steps)
}

/// Returns a cell with its value as one of any type.
#[inline(always)]
pub fn of_any_kind<V: GridValue>(cell: Cell<V>) -> Cell<Scalar>
    ensures { result ≡ as_cell_of V.as_scalar cell }
{
    Cell {
        value: cell.value.scalar(),
        on: cell.on,
    }
}

/// Returns the cell of one type that a cell of any type holds.
fn cell_of_kind<V: GridValue>(cell: Cell<Scalar>) -> Cell<V>
    requires { IsTrue (is_of V.KIND cell.value) }
    ensures { as_cell_of V.as_scalar result ≡ cell }
{
    Cell {
        value: V::from_scalar(cell.value),
        on: cell.on,
    }
}

/// Returns the write of a value of one type that a write of any type holds.
#[inline(always)]
fn of_kind<V: GridValue>(change: Write<Scalar>) -> Write<V>
    requires { IsTrue (passes (is_of V.KIND) change) }
    ensures { as_write_of V.as_scalar result ≡ change }
{
    match change {
        Write::On(value) => Write::On(V::from_scalar(value)),
        Write::Off(value) => Write::Off(V::from_scalar(value)),
        Write::State(on) => Write::State(on),
        Write::Value(value) => Write::Value(V::from_scalar(value)),
    }
}
