//! A grid of any type of values.
ghost use Rattle.std.specs.Prelude.{◌≡◌, ◌+◌, ◌*◌, ◌<◌, ◌≤◌, ℕ, Some, Err, false, IfErr, IfOk, IsOk, IsTrue, OnOk};
ghost use Rattle.std.specs.Option.{unwrap_or};
ghost use Rattle.vdb_coord.specs.Blocks.{vdb};
ghost use Rattle.vdb_coord.specs.Space.{everywhere};
ghost use Rattle.vdb_tree.specs.Field.{clip as clipped, dilate as dilation, erode as erosion, fill as filled, new, iterations as iterated, write};
ghost use Rattle.vdb_tree.specs.Outcome.{IsOutcome};
ghost use Rattle.vdb_tree.specs.ConstantBlocks.{count as active_count};
ghost use Rattle.vdb_tree.specs.declared.refusal.TreeRefusal.TheVariants.{Memory};
ghost use Rattle.vdb_morph.specs.Growth.{IsGrowth};
ghost use Rattle.vdb_walk.specs.Reports.{IsActiveBounds, census as census_of};
ghost use Rattle.vdb_scene.specs.Accessors.{HasUnusedAccessors};
ghost use Rattle.vdb_scene.specs.Scalars.{is_of, kind_of, scalar_eq};
ghost use Rattle.vdb_scene.specs.Grids.{HasRootCapacity, HasSameTree, IsCopyOf, IsInLeafOf, IsPruned, IsTiled, IsVoxelised, KeepsOutside, coords_after, grid_coords, grid_field, grid_root_limit};
ghost use Rattle.vdb_scene.specs.Step.{passes, write_takes_memory};
ghost use Rattle.vdb_scene.specs.TwoGrids.{IsMade, StaysBut};

use crate::two_grids::Operation;
use crate::{Refusal, Scalar, grid_pair, grid_tree};
use std::alloc::Global;
use vdb_coord::{Bounds, Coord};
use vdb_grid::Grid;
use vdb_pool::Steps;
use vdb_tree::{TreeRefusal, Write};
use vdb_value::{Cell, Kind};
use vdb_walk::Census;

/// The number of accessors of a grid.
pub const ACCESSORS: usize = 8;

/// A grid of one of the three types of values, with `ACCESSORS` accessors.
#[derive(Drop)]
pub enum AnyGrid {
    Bool(Grid<bool, ACCESSORS>),
    I32(Grid<i32, ACCESSORS>),
    I64(Grid<i64, ACCESSORS>),
}

impl AnyGrid {
    /// Creates a grid of the background's type that has never been written. At most `limit` of its root blocks, 1 to
    /// `MOST_ROOT_LIMIT`, may have a cell other than the inactive background. Its accessors cache no path. Allocates nothing.
    pub fn new(alloc: Global, background: Scalar, limit: u32) -> AnyGrid
        requires some { 1 ≤ limit }
        requires few { limit ≤ 65536 }
        ensures field { grid_field result ≡ new background }
        ensures limit { grid_root_limit result ≡ limit }
        ensures unused { HasUnusedAccessors result }
    {
        match background {
            Scalar::Bool(value) => AnyGrid::Bool(Grid::new(alloc, value, limit)),
            Scalar::I32(value) => AnyGrid::I32(Grid::new(alloc, value, limit)),
            Scalar::I64(value) => AnyGrid::I64(Grid::new(alloc, value, limit)),
        }
    }

    /// Returns the type of its values.
    #[inline(always)]
    pub fn kind(&self) -> Kind
        ensures { result ≡ kind_of (grid_field self.now).background }
    {
        match self {
            AnyGrid::Bool(_) => Kind::Bool,
            AnyGrid::I32(_) => Kind::I32,
            AnyGrid::I64(_) => Kind::I64,
        }
    }

    /// Returns the background: the value of a voxel that was never written.
    pub fn background(&self) -> Scalar
        ensures { result ≡ (grid_field self.now).background }
    {
        match self {
            AnyGrid::Bool(grid) => Scalar::Bool(grid.tree().background()),
            AnyGrid::I32(grid) => Scalar::I32(grid.tree().background()),
            AnyGrid::I64(grid) => Scalar::I64(grid.tree().background()),
        }
    }

    /// Returns the maximum number of root blocks with a cell other than the inactive background.
    pub fn limit(&self) -> u32
        ensures { result ≡ grid_root_limit self.now }
    {
        match self {
            AnyGrid::Bool(grid) => grid.tree().limit(),
            AnyGrid::I32(grid) => grid.tree().limit(),
            AnyGrid::I64(grid) => grid.tree().limit(),
        }
    }

    /// Returns the cell of a voxel by the descent from the root, by at most three node visits.
    #[inline(always)]
    pub fn get(&self, at: Coord, steps: &mut Steps) -> Cell<Scalar>
        ensures cell { result ≡ (grid_field self.now).cell at }
        ensures steps { steps.new ≤ steps.old + 3 }
    {
        match self {
            AnyGrid::Bool(grid) => grid_tree::get(grid.tree(), at, steps),
            AnyGrid::I32(grid) => grid_tree::get(grid.tree(), at, steps),
            AnyGrid::I64(grid) => grid_tree::get(grid.tree(), at, steps),
        }
    }

    /// Returns the cell of a voxel through an accessor, or without one. The accessor then caches the path to the voxel.
    #[inline(always)]
    pub fn probe(&mut self, accessor: Option<usize>, at: Coord, steps: &mut Steps) -> Cell<Scalar>
        requires { (k : ℕ) → accessor ≡ Some k → k < ACCESSORS }
        ensures cell { result ≡ (grid_field self.old).cell at }
        ensures tree { HasSameTree self.old self.new }
        ensures last { grid_coords self.new ≡ coords_after accessor at (grid_coords self.old) }
        ensures near { IsInLeafOf self.old accessor at → steps.new ≤ steps.old + 1 }
        ensures steps { steps.new ≤ steps.old + 3 }
    {
        match self {
            AnyGrid::Bool(grid) => grid_tree::probe(grid, accessor, at, steps),
            AnyGrid::I32(grid) => grid_tree::probe(grid, accessor, at, steps),
            AnyGrid::I64(grid) => grid_tree::probe(grid, accessor, at, steps),
        }
    }

    /// Writes a voxel, with a value of the grid's type, through an accessor or without one. The accessor then caches the path to
    /// the voxel, also if the write fails.
    ///
    /// Fails with `RootLimit` if more root blocks than the limit would have a cell other than the inactive background, and with
    /// `Memory` if an allocation fails. Both leave every cell unchanged. `Memory` is only possible if the cell changes and all
    /// cells of its leaf extent are equal.
    #[inline(always)]
    pub fn write(
        &mut self,
        accessor: Option<usize>,
        at: Coord,
        change: Write<Scalar>,
        steps: &mut Steps,
    ) -> Result<(), TreeRefusal>
        requires kind { IsTrue (passes (is_of (kind_of (grid_field self.old).background)) change) }
        requires within { (k : ℕ) → accessor ≡ Some k → k < ACCESSORS }
        ensures outcome { IsOutcome scalar_eq vdb (grid_root_limit self.old) (grid_field self.old) (write at change (grid_field self.old)) (grid_field self.new) result }
        ensures limit { grid_root_limit self.new ≡ grid_root_limit self.old }
        ensures last { grid_coords self.new ≡ coords_after accessor at (grid_coords self.old) }
        ensures memory { write_takes_memory (grid_field self.old) at change ≡ false → IsOk result }
        ensures elsewhere { HasRootCapacity self.old at → KeepsOutside self.old self.new at }
        ensures near { IsInLeafOf self.old accessor at → steps.new ≤ steps.old + 1 }
        // No root block is counted, and no node is visited that doesn't hold the voxel or an accessor's coordinate.
        ensures steps { HasRootCapacity self.old at → steps.new ≤ steps.old + (8 + 3 * ACCESSORS) }
    {
        match self {
            AnyGrid::Bool(grid) => grid_tree::write(grid, accessor, at, change, steps),
            AnyGrid::I32(grid) => grid_tree::write(grid, accessor, at, change, steps),
            AnyGrid::I64(grid) => grid_tree::write(grid, accessor, at, change, steps),
        }
    }

    /// Sets each voxel of a box to one cell, with a value of the grid's type. Each block of the tree that lies within the box becomes a tile.
    ///
    /// Fails with `RootLimit` if more root blocks than the limit would have a cell other than the inactive background, and with
    /// `Memory` if an allocation fails. Both leave every cell unchanged. `Memory` prunes the grid.
    pub fn fill(
        &mut self,
        bounds: Bounds,
        cell: Cell<Scalar>,
        steps: &mut Steps,
    ) -> Result<(), TreeRefusal>
        requires { IsTrue (is_of (kind_of (grid_field self.old).background) cell.value) }
        ensures outcome { IsOutcome scalar_eq vdb (grid_root_limit self.old) (grid_field self.old) (filled bounds cell (grid_field self.old)) (grid_field self.new) result }
        ensures limit { grid_root_limit self.new ≡ grid_root_limit self.old }
        ensures tiles { OnOk result (IsTiled self.new bounds) }
        ensures last { grid_coords self.new ≡ grid_coords self.old }
        ensures given_back { result ≡ Err Memory → IsPruned self.new }
    {
        match self {
            AnyGrid::Bool(grid) => grid_tree::fill(grid, bounds, cell, steps),
            AnyGrid::I32(grid) => grid_tree::fill(grid, bounds, cell, steps),
            AnyGrid::I64(grid) => grid_tree::fill(grid, bounds, cell, steps),
        }
    }

    /// Sets each voxel outside a box to the background, inactive. Fails with `Memory` if an allocation fails, leaves every cell
    /// unchanged and prunes the grid.
    pub fn clip(&mut self, bounds: Bounds, steps: &mut Steps) -> Result<(), TreeRefusal>
        ensures outcome { IsOutcome scalar_eq vdb (grid_root_limit self.old) (grid_field self.old) (clipped bounds (grid_field self.old)) (grid_field self.new) result }
        ensures limit { grid_root_limit self.new ≡ grid_root_limit self.old }
        ensures last { grid_coords self.new ≡ grid_coords self.old }
        ensures memory { IfErr result (λ refusal. refusal ≡ Memory) }
        ensures given_back { result ≡ Err Memory → IsPruned self.new }
    {
        match self {
            AnyGrid::Bool(grid) => grid_tree::clip(grid, bounds, steps),
            AnyGrid::I32(grid) => grid_tree::clip(grid, bounds, steps),
            AnyGrid::I64(grid) => grid_tree::clip(grid, bounds, steps),
        }
    }

    /// Activates, in each iteration, every voxel that has an active face neighbour, and keeps the values. The number
    /// of iterations is 1 to 16.
    ///
    /// Fails with `RootLimit` if more root blocks than the limit would have a cell other than the inactive background, and with
    /// `Memory` if an allocation fails. `Memory` may also hide a `RootLimit`. Both leave every cell unchanged.
    pub fn dilate(&mut self, iterations: u32, steps: &mut Steps) -> Result<(), TreeRefusal>
        requires some { 1 ≤ iterations }
        requires few { iterations ≤ 16 }
        ensures outcome { IsGrowth scalar_eq vdb (grid_root_limit self.old) (grid_field self.old) (iterated iterations dilation (grid_field self.old)) (grid_field self.new) result }
        ensures limit { grid_root_limit self.new ≡ grid_root_limit self.old }
        ensures last { grid_coords self.new ≡ grid_coords self.old }
    {
        match self {
            AnyGrid::Bool(grid) => grid_tree::dilate(grid, iterations, steps),
            AnyGrid::I32(grid) => grid_tree::dilate(grid, iterations, steps),
            AnyGrid::I64(grid) => grid_tree::dilate(grid, iterations, steps),
        }
    }

    /// Deactivates, in each iteration, every voxel that has an inactive face neighbour, and keeps the values. The
    /// number of iterations is 1 to 16. Fails with `Memory` if an allocation fails, and leaves every cell unchanged.
    pub fn erode(&mut self, iterations: u32, steps: &mut Steps) -> Result<(), TreeRefusal>
        requires some { 1 ≤ iterations }
        requires few { iterations ≤ 16 }
        ensures outcome { IsOutcome scalar_eq vdb (grid_root_limit self.old) (grid_field self.old) (iterated iterations erosion (grid_field self.old)) (grid_field self.new) result }
        ensures limit { grid_root_limit self.new ≡ grid_root_limit self.old }
        ensures last { grid_coords self.new ≡ grid_coords self.old }
        ensures memory { IfErr result (λ refusal. refusal ≡ Memory) }
    {
        match self {
            AnyGrid::Bool(grid) => grid_tree::erode(grid, iterations, steps),
            AnyGrid::I32(grid) => grid_tree::erode(grid, iterations, steps),
            AnyGrid::I64(grid) => grid_tree::erode(grid, iterations, steps),
        }
    }

    /// Combines this grid with another one by an operation. The other grid is unchanged.
    ///
    /// Each error leaves every cell and the background unchanged:
    /// - `Kind` if values are combined and the grids have different types,
    /// - `NoSum` for a sum of booleans,
    /// - `SumRange` if a sum lies outside the type at some coordinate,
    /// - `RootLimit` if more root blocks than the limit would have a cell other than the inactive background,
    /// - `Memory` if an allocation fails.
    pub fn combine(
        &mut self,
        operation: Operation,
        other: &AnyGrid,
        steps: &mut Steps,
    ) -> Result<(), Refusal>
        ensures kept { IfErr result (λ refusal. StaysBut refusal self.old self.new) }
        ensures outcome { IsMade operation (grid_root_limit self.old) (grid_field self.old) (grid_field other.now) (grid_field self.new) result }
        ensures limit { grid_root_limit self.new ≡ grid_root_limit self.old }
        ensures last { grid_coords self.new ≡ grid_coords self.old }
    {
        match self {
            AnyGrid::Bool(grid) => grid_pair::combine(grid, operation, other, steps),
            AnyGrid::I32(grid) => grid_pair::combine(grid, operation, other, steps),
            AnyGrid::I64(grid) => grid_pair::combine(grid, operation, other, steps),
        }
    }

    /// Returns the number of active voxels of a box, or of all coordinates if `bounds` is `None`. Allocates nothing.
    pub fn count(&self, bounds: Option<Bounds>, steps: &mut Steps) -> u128
        ensures { result ≡ active_count (grid_field self.now) (unwrap_or bounds everywhere) }
    {
        match self {
            AnyGrid::Bool(grid) => grid_tree::count(grid.tree(), bounds, steps),
            AnyGrid::I32(grid) => grid_tree::count(grid.tree(), bounds, steps),
            AnyGrid::I64(grid) => grid_tree::count(grid.tree(), bounds, steps),
        }
    }

    /// Returns the bounding box of the active voxels: `None` if no voxel is active. Allocates nothing.
    pub fn active_bounds(&self, steps: &mut Steps) -> Option<Bounds>
        ensures { IsActiveBounds (grid_field self.now) result }
    {
        match self {
            AnyGrid::Bool(grid) => grid_tree::active_bounds(grid.tree(), steps),
            AnyGrid::I32(grid) => grid_tree::active_bounds(grid.tree(), steps),
            AnyGrid::I64(grid) => grid_tree::active_bounds(grid.tree(), steps),
        }
    }

    /// Returns the number of root blocks with a cell other than the inactive background, and the number of blocks of each level
    /// that aren't constant. Both depend on the cells alone, not on the nodes. Allocates nothing.
    pub fn census(&self, steps: &mut Steps) -> Census
        ensures { result ≡ census_of scalar_eq vdb (grid_field self.now) }
    {
        match self {
            AnyGrid::Bool(grid) => grid_tree::census(grid.tree(), steps),
            AnyGrid::I32(grid) => grid_tree::census(grid.tree(), steps),
            AnyGrid::I64(grid) => grid_tree::census(grid.tree(), steps),
        }
    }

    /// Makes the tree as small as its field allows. No cell changes. Allocates nothing.
    pub fn prune(&mut self, steps: &mut Steps)
        ensures field { grid_field self.new ≡ grid_field self.old }
        ensures limit { grid_root_limit self.new ≡ grid_root_limit self.old }
        ensures last { grid_coords self.new ≡ grid_coords self.old }
        ensures least { IsPruned self.new }
    {
        match self {
            AnyGrid::Bool(grid) => grid.prune(steps),
            AnyGrid::I32(grid) => grid.prune(steps),
            AnyGrid::I64(grid) => grid.prune(steps),
        }
    }

    /// Returns a grid with the same cells, tiles, nodes, background and limit, and with accessors that cache no path. Fails with
    /// `Memory` if an allocation fails.
    pub fn try_copy(&self) -> Result<AnyGrid, TreeRefusal>
        ensures same { IfOk result (λ copy. IsCopyOf self.now copy) }
        ensures field { IfOk result (λ copy. grid_field copy ≡ grid_field self.now) }
        ensures limit { IfOk result (λ copy. grid_root_limit copy ≡ grid_root_limit self.now) }
        ensures memory { IfErr result (λ refusal. refusal ≡ Memory) }
    {
        match self {
            AnyGrid::Bool(grid) => Ok(AnyGrid::Bool(grid.try_copy()?)),
            AnyGrid::I32(grid) => Ok(AnyGrid::I32(grid.try_copy()?)),
            AnyGrid::I64(grid) => Ok(AnyGrid::I64(grid.try_copy()?)),
        }
    }

    /// Puts each active voxel of a box into a leaf. No cell changes. Fails with `Memory` if an allocation fails, and prunes the grid.
    pub fn voxelise(&mut self, bounds: Bounds, steps: &mut Steps) -> Result<(), TreeRefusal>
        ensures field { grid_field self.new ≡ grid_field self.old }
        ensures limit { grid_root_limit self.new ≡ grid_root_limit self.old }
        ensures last { grid_coords self.new ≡ grid_coords self.old }
        ensures leaves { OnOk result (IsVoxelised self.new bounds) }
        ensures memory { IfErr result (λ refusal. refusal ≡ Memory) }
        ensures given_back { IfErr result (λ _. IsPruned self.new) }
    {
        match self {
            AnyGrid::Bool(grid) => grid.voxelise(bounds, steps),
            AnyGrid::I32(grid) => grid.voxelise(bounds, steps),
            AnyGrid::I64(grid) => grid.voxelise(bounds, steps),
        }
    }
}
