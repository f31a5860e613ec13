//! Calls that report on the grid of a view, as those of `grid_life` and `reports` do on a grid.
ghost use Rattle.std.specs.Prelude.{◌≡◌, None, Some};
ghost use Rattle.vdb_coord.specs.Blocks.{vdb};
ghost use Rattle.vdb_walk.specs.Reports.{census as census_of};
ghost use Rattle.vdb_scene.specs.Grids.{grid_field, grid_root_limit};
ghost use Rattle.vdb_scene.specs.Scalars.{scalar_eq};
ghost use Rattle.vdb_c.specs.Calls.{grid_kind};
ghost use Rattle.vdb_c.specs.Reports.{CountsActive, IsBounds, sizes_of};
ghost use Rattle.vdb_c.specs.Values.{corners_box, kind_number as number_of_kind, value_number as number_of_value};
ghost use Rattle.vdb_c.specs.Views.{OnShown, OnShownIf, shown};

use crate::codes::{DONE, EMPTY, OUT_OF_RANGE};
use crate::grids::reports::{count_active, look_around, smallest_sizes};
use crate::handles::held_view::ViewHandle;
use crate::values::{Corners, Count, Sizes, bounds, kind_number, value_number};
use std::alloc::Global;

/// Writes the number of the type of the grid's values to `kind`.
#[unsafe(no_mangle)]
pub extern "C" fn vdb_view_kind(alloc: Global, handle: &mut ViewHandle, kind: &mut i32) -> i32
    ensures same { handle.new.view.held ≡ handle.old.view.held }
    ensures read { OnShown (shown handle.old.view.held) result (kind.new ≡ kind.old) (λ g. kind.new ≡ number_of_kind (grid_kind g)) }
{
    let Some(view) = handle.view.take(alloc) else {
        return EMPTY;
    };
    let code = match &view.grid {
        Some(grid) => {
            *kind = kind_number(grid.kind());
            DONE
        }
        None => EMPTY,
    };
    handle.view.put(alloc, view);
    code
}

/// Writes the background to `value`: the value of a voxel that was never written.
#[unsafe(no_mangle)]
pub extern "C" fn vdb_view_background(
    alloc: Global,
    handle: &mut ViewHandle,
    value: &mut i64,
) -> i32
    ensures same { handle.new.view.held ≡ handle.old.view.held }
    ensures read { OnShown (shown handle.old.view.held) result (value.new ≡ value.old) (λ g. value.new ≡ number_of_value (grid_field g).background) }
{
    let Some(view) = handle.view.take(alloc) else {
        return EMPTY;
    };
    let code = match &view.grid {
        Some(grid) => {
            *value = value_number(grid.background());
            DONE
        }
        None => EMPTY,
    };
    handle.view.put(alloc, view);
    code
}

/// Writes the root limit to `limit`.
#[unsafe(no_mangle)]
pub extern "C" fn vdb_view_limit(alloc: Global, handle: &mut ViewHandle, limit: &mut u32) -> i32
    ensures same { handle.new.view.held ≡ handle.old.view.held }
    ensures read { OnShown (shown handle.old.view.held) result (limit.new ≡ limit.old) (λ g. limit.new ≡ grid_root_limit g) }
{
    let Some(view) = handle.view.take(alloc) else {
        return EMPTY;
    };
    let code = match &view.grid {
        Some(grid) => {
            *limit = grid.limit();
            DONE
        }
        None => EMPTY,
    };
    handle.view.put(alloc, view);
    code
}

/// Writes the number of active voxels to `count`.
#[unsafe(no_mangle)]
pub extern "C" fn vdb_view_count(alloc: Global, handle: &mut ViewHandle, count: &mut Count) -> i32
    ensures same { handle.new.view.held ≡ handle.old.view.held }
    ensures read { OnShown (shown handle.old.view.held) result (count.new ≡ count.old) (λ g. CountsActive (grid_field g) None count.new) }
{
    let Some(view) = handle.view.take(alloc) else {
        return EMPTY;
    };
    let code = match &view.grid {
        Some(grid) => {
            *count = count_active(grid, None, &mut handle.steps);
            DONE
        }
        None => EMPTY,
    };
    handle.view.put(alloc, view);
    code
}

/// Writes the number of active voxels of a box to `count`.
#[unsafe(no_mangle)]
pub extern "C" fn vdb_view_count_in(
    alloc: Global,
    handle: &mut ViewHandle,
    corners: &Corners,
    count: &mut Count,
) -> i32
    ensures same { handle.new.view.held ≡ handle.old.view.held }
    ensures read { OnShownIf (shown handle.old.view.held) (corners_box corners.now) result (count.new ≡ count.old) (λ g box. CountsActive (grid_field g) (Some box) count.new) }
{
    let Some(view) = handle.view.take(alloc) else {
        return EMPTY;
    };
    let code = match (&view.grid, bounds(corners)) {
        (None, _) => EMPTY,
        (Some(_), None) => OUT_OF_RANGE,
        (Some(grid), Some(bounds)) => {
            *count = count_active(grid, Some(bounds), &mut handle.steps);
            DONE
        }
    };
    handle.view.put(alloc, view);
    code
}

/// Writes the bounding box of the active voxels to `corners` and 1 to `found`, or 0 to `found` if no voxel is active.
#[unsafe(no_mangle)]
pub extern "C" fn vdb_view_bounds(
    alloc: Global,
    handle: &mut ViewHandle,
    corners: &mut Corners,
    found: &mut i32,
) -> i32
    ensures same { handle.new.view.held ≡ handle.old.view.held }
    ensures read { OnShown (shown handle.old.view.held) result ((corners.new ≡ corners.old) × (found.new ≡ found.old)) (λ g. IsBounds (grid_field g) corners.old corners.new found.new) }
{
    let Some(view) = handle.view.take(alloc) else {
        return EMPTY;
    };
    let code = match &view.grid {
        Some(grid) => {
            *found = look_around(grid, corners, &mut handle.steps);
            DONE
        }
        None => EMPTY,
    };
    handle.view.put(alloc, view);
    code
}

/// Writes the size of the smallest tree of the grid's cells to `sizes`. It depends on the cells alone.
#[unsafe(no_mangle)]
pub extern "C" fn vdb_view_census(alloc: Global, handle: &mut ViewHandle, sizes: &mut Sizes) -> i32
    ensures same { handle.new.view.held ≡ handle.old.view.held }
    ensures read { OnShown (shown handle.old.view.held) result (sizes.new ≡ sizes.old) (λ g. sizes.new ≡ sizes_of (census_of scalar_eq vdb (grid_field g))) }
{
    let Some(view) = handle.view.take(alloc) else {
        return EMPTY;
    };
    let code = match &view.grid {
        Some(grid) => {
            *sizes = smallest_sizes(grid, &mut handle.steps);
            DONE
        }
        None => EMPTY,
    };
    handle.view.put(alloc, view);
    code
}
