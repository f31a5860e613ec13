//! Calls that look for the next active voxel.
ghost use Rattle.std.specs.Prelude.{◌≡◌, None, Some, find};
ghost use Rattle.std.specs.Option.{option_map};
ghost use Rattle.vdb_coord.specs.Blocks.{is_past, vdb};
ghost use Rattle.vdb_walk.specs.Reports.{active};
ghost use Rattle.vdb_scene.specs.Grids.{grid_field};
ghost use Rattle.vdb_scene.specs.declared.scalar.Scalar.TheVariants as scalars;
ghost use Rattle.vdb_c.specs.Calls.{OnHeld};
ghost use Rattle.vdb_c.specs.Reports.{IsFound, LooksPast};
ghost use Rattle.vdb_c.specs.Values.{corner_coord, corners_box};

use crate::codes::{DONE, EMPTY, OUT_OF_RANGE};
use crate::grids::reports::corner;
use crate::handles::GridHandle;
use crate::values::{Corner, Corners, bounds, coord, value_number};
use vdb_coord::{Bounds, Coord};
use vdb_pool::Steps;
use vdb_scene::{AnyGrid, Scalar};

/// Writes the first active voxel of a box in block order to `at`, its value to `value` and 1 to `found`, or 0 to `found` if no
/// voxel of the box is active.
#[unsafe(no_mangle)]
pub extern "C" fn vdb_grid_first_active(
    handle: &mut GridHandle,
    corners: &Corners,
    at: &mut Corner,
    value: &mut i64,
    found: &mut i32,
) -> i32
    ensures { OnHeld handle.old.grid.held handle.new.grid.held result ((at.new ≡ at.old) × (value.new ≡ value.old) × (found.new ≡ found.old)) (λ g h. (h ≡ g)
        × LooksPast None (corners_box corners.now) (grid_field g) at.old at.new value.old value.new found.old found.new result) }
{
    let Some(grid) = handle.grid.grid_mut() else {
        return EMPTY;
    };
    look_past(grid, corners, None, at, value, found, &mut handle.steps)
}

/// Writes the first active voxel of a box past `at` in block order to `at`, its value to `value` and 1 to `found`, or 0 to
/// `found` if no such voxel exists.
#[unsafe(no_mangle)]
pub extern "C" fn vdb_grid_next_active(
    handle: &mut GridHandle,
    corners: &Corners,
    at: &mut Corner,
    value: &mut i64,
    found: &mut i32,
) -> i32
    ensures { OnHeld handle.old.grid.held handle.new.grid.held result ((at.new ≡ at.old) × (value.new ≡ value.old) × (found.new ≡ found.old)) (λ g h. (h ≡ g)
        × LooksPast (Some (corner_coord at.old)) (corners_box corners.now) (grid_field g) at.old at.new value.old value.new found.old found.new result) }
{
    let Some(grid) = handle.grid.grid_mut() else {
        return EMPTY;
    };
    let after = Some(coord(at));
    look_past(grid, corners, after, at, value, found, &mut handle.steps)
}

/// Looks for the first active voxel of a box past `after` in block order, or for the first of all.
#[tactic(auto, unfolding(crate::specs::Reports::LooksPast))]
pub(crate) fn look_past(
    grid: &AnyGrid,
    corners: &Corners,
    after: Option<Coord>,
    at: &mut Corner,
    value: &mut i64,
    found: &mut i32,
    steps: &mut Steps,
) -> i32
    ensures { LooksPast after (corners_box corners.now) (grid_field grid.now) at.old at.new value.old value.new found.old found.new result }
{
    let Some(bounds) = bounds(corners) else {
        return OUT_OF_RANGE;
    };
    *found = write_voxel(next_active(grid, after, bounds, steps), at, value);
    DONE
}

/// Writes a voxel to `at`, its value to `value`, and returns 1, or returns 0 without a voxel.
#[tactic(auto, unfolding(crate::specs::Reports::IsFound))]
fn write_voxel(item: Option<(Coord, Scalar)>, at: &mut Corner, value: &mut i64) -> i32
    ensures { IsFound item at.old at.new value.old value.new result }
{
    match item {
        Some((voxel, held)) => {
            *at = corner(voxel);
            *value = value_number(held);
            1
        }
        None => 0,
    }
}

/// Returns the first active voxel of a box past `after` in block order, or the first of all, with its value.
fn next_active(
    grid: &AnyGrid,
    after: Option<Coord>,
    bounds: Bounds,
    steps: &mut Steps,
) -> Option<(Coord, Scalar)>
    ensures { result ≡ find (λ item. is_past vdb after item.0) (active vdb (grid_field grid.now) bounds) }
{
    match grid {
        AnyGrid::Bool(held) => {
            of_booleans(vdb_walk::next_active(held.tree(), after, bounds, steps))
        }
        AnyGrid::I32(held) => {
            of_numbers(vdb_walk::next_active(held.tree(), after, bounds, steps))
        }
        AnyGrid::I64(held) => {
            of_long_numbers(vdb_walk::next_active(held.tree(), after, bounds, steps))
        }
    }
}

/// Returns a voxel of a grid of booleans as one of any grid.
fn of_booleans(found: Option<(Coord, bool)>) -> Option<(Coord, Scalar)>
    ensures { result ≡ option_map (λ item. (item.0, scalars.Bool item.1)) found }
{
    match found {
        Some((at, value)) => Some((at, Scalar::Bool(value))),
        None => None,
    }
}

/// Returns a voxel of a grid of numbers of 32 bits as one of any grid.
fn of_numbers(found: Option<(Coord, i32)>) -> Option<(Coord, Scalar)>
    ensures { result ≡ option_map (λ item. (item.0, scalars.I32 item.1)) found }
{
    match found {
        Some((at, value)) => Some((at, Scalar::I32(value))),
        None => None,
    }
}

/// Returns a voxel of a grid of numbers of 64 bits as one of any grid.
fn of_long_numbers(found: Option<(Coord, i64)>) -> Option<(Coord, Scalar)>
    ensures { result ≡ option_map (λ item. (item.0, scalars.I64 item.1)) found }
{
    match found {
        Some((at, value)) => Some((at, Scalar::I64(value))),
        None => None,
    }
}
