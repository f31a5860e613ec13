//! Calls that report on a grid: the number of its active voxels, their bounding box, and the size of its smallest tree.
ghost use Rattle.std.specs.Prelude.{◌≡◌, None, Some};
ghost use Rattle.vdb_coord.specs.Blocks.{vdb};
ghost use Rattle.vdb_walk.specs.Reports.{census as census_of};
ghost use Rattle.vdb_scene.specs.Grids.{grid_field};
ghost use Rattle.vdb_scene.specs.Scalars.{scalar_eq};
ghost use Rattle.vdb_c.specs.Calls.{OnHeld, OnValid, Reads};
ghost use Rattle.vdb_c.specs.Reports.{CountsActive, IsBounds, between, count_number, sizes_of};
ghost use Rattle.vdb_c.specs.Values.{corner_coord, corners_box};

use crate::codes::{DONE, EMPTY, OUT_OF_RANGE};
use crate::handles::GridHandle;
use crate::values::{Corner, Corners, Count, Sizes, bounds};
use vdb_coord::{Bounds, Coord};
use vdb_pool::Steps;
use vdb_scene::AnyGrid;
use vdb_walk::Census;

/// Writes the number of active voxels to `count`.
#[unsafe(no_mangle)]
pub extern "C" fn vdb_grid_count(handle: &mut GridHandle, count: &mut Count) -> i32
    ensures { OnHeld handle.old.grid.held handle.new.grid.held result (count.new ≡ count.old) (λ g h. Reads g h result (CountsActive (grid_field g) None count.new)) }
{
    let Some(grid) = handle.grid.grid_mut() else {
        return EMPTY;
    };
    *count = count_active(grid, None, &mut handle.steps);
    DONE
}

/// Writes the number of active voxels of a box to `count`.
#[unsafe(no_mangle)]
pub extern "C" fn vdb_grid_count_in(
    handle: &mut GridHandle,
    corners: &Corners,
    count: &mut Count,
) -> i32
    ensures { OnHeld handle.old.grid.held handle.new.grid.held result (count.new ≡ count.old) (λ g h. OnValid (corners_box corners.now) g h result (count.new ≡ count.old) (λ box.
        Reads g h result (CountsActive (grid_field g) (Some box) count.new))) }
{
    let Some(grid) = handle.grid.grid_mut() else {
        return EMPTY;
    };
    let Some(bounds) = bounds(corners) else {
        return OUT_OF_RANGE;
    };
    *count = count_active(grid, Some(bounds), &mut handle.steps);
    DONE
}

/// Writes the bounding box of the active voxels to `corners` and 1 to `found`, or 0 to `found` if no voxel is active.
#[unsafe(no_mangle)]
pub extern "C" fn vdb_grid_bounds(
    handle: &mut GridHandle,
    corners: &mut Corners,
    found: &mut i32,
) -> i32
    ensures { OnHeld handle.old.grid.held handle.new.grid.held result ((corners.new ≡ corners.old) × (found.new ≡ found.old)) (λ g h.
        Reads g h result (IsBounds (grid_field g) corners.old corners.new found.new)) }
{
    let Some(grid) = handle.grid.grid_mut() else {
        return EMPTY;
    };
    *found = look_around(grid, corners, &mut handle.steps);
    DONE
}

/// Writes the size of the smallest tree of the grid's cells to `sizes`. It depends on the cells alone.
#[unsafe(no_mangle)]
pub extern "C" fn vdb_grid_census(handle: &mut GridHandle, sizes: &mut Sizes) -> i32
    ensures { OnHeld handle.old.grid.held handle.new.grid.held result (sizes.new ≡ sizes.old) (λ g h.
        Reads g h result (sizes.new ≡ sizes_of (census_of scalar_eq vdb (grid_field g)))) }
{
    let Some(grid) = handle.grid.grid_mut() else {
        return EMPTY;
    };
    *sizes = smallest_sizes(grid, &mut handle.steps);
    DONE
}

/// Returns the size of the smallest tree of a grid's cells.
pub(crate) fn smallest_sizes(grid: &AnyGrid, steps: &mut Steps) -> Sizes
    ensures { result ≡ sizes_of (census_of scalar_eq vdb (grid_field grid.now)) }
{
    let Census {
        roots,
        upper,
        lower,
        leaf,
    } = grid.census(steps);
    Sizes {
        roots,
        upper,
        lower,
        leaf,
    }
}

/// Returns the number of active voxels of a box, or of all voxels.
#[tactic(auto, unfolding(crate::specs::Reports::CountsActive))]
pub(crate) fn count_active(grid: &AnyGrid, bounds: Option<Bounds>, steps: &mut Steps) -> Count
    ensures { CountsActive (grid_field grid.now) bounds result }
{
    parts(grid.count(bounds, steps))
}

/// Writes the bounding box of the active voxels to `corners` and returns 1, or returns 0 if no voxel is active.
#[tactic(auto, unfolding(crate::specs::Reports::IsBounds))]
pub(crate) fn look_around(grid: &AnyGrid, corners: &mut Corners, steps: &mut Steps) -> i32
    ensures { IsBounds (grid_field grid.now) corners.old corners.new result }
{
    match grid.active_bounds(steps) {
        Some(bounds) => {
            *corners = corners_of(bounds);
            1
        }
        None => 0,
    }
}

/// Returns a number in two parts of 64 bits.
#[tactic(auto, unfolding(crate::specs::Reports::count_number))]
fn parts(number: u128) -> Count
    ensures { count_number result ≡ number }
{
    Count {
        low: (number % 18_446_744_073_709_551_616) as u64,
        high: (number / 18_446_744_073_709_551_616) as u64,
    }
}

/// Returns the corners of a box.
fn corners_of(bounds: Bounds) -> Corners
    ensures { between result ≡ bounds }
{
    Corners {
        min: corner(bounds.min()),
        max: corner(bounds.max()),
    }
}

/// Returns a coordinate as C has it.
pub(crate) fn corner(at: Coord) -> Corner
    ensures { corner_coord result ≡ at }
{
    Corner {
        x: at.x,
        y: at.y,
        z: at.z,
    }
}
