//! Calls that go over the active voxels or the leaves of the grid of a view, as those of `found` and `leaves` do on a grid.
ghost use Rattle.std.specs.Prelude.{◌≡◌, None, Some};
ghost use Rattle.vdb_coord.specs.Space.{coord as coordinate};
ghost use Rattle.vdb_scene.specs.Grids.{grid_field};
ghost use Rattle.vdb_c.specs.Leaves.{CopiesLeaves, leaf_count};
ghost use Rattle.vdb_c.specs.Reports.{LooksPast};
ghost use Rattle.vdb_c.specs.Values.{corner_coord, corners_box};
ghost use Rattle.vdb_c.specs.Views.{OnShown, OnView, shown};

use crate::codes::{DONE, EMPTY};
use crate::handles::held_view::ViewHandle;
use crate::leaves::{copy_past, count_leaves};
use crate::values::{Corner, Corners, coord};
use crate::voxels::found::look_past;
use std::alloc::Global;
use vdb_coord::Coord;

/// Writes the first active voxel of a box in block order to `at`, its value to `value` and 1 to `found`, or 0 to `found` if no
/// voxel of the box is active.
#[unsafe(no_mangle)]
pub extern "C" fn vdb_view_first_active(
    alloc: Global,
    handle: &mut ViewHandle,
    corners: &Corners,
    at: &mut Corner,
    value: &mut i64,
    found: &mut i32,
) -> i32
    ensures same { handle.new.view.held ≡ handle.old.view.held }
    ensures read { OnView (shown handle.old.view.held) result ((at.new ≡ at.old) × (value.new ≡ value.old) × (found.new ≡ found.old)) (λ g.
        LooksPast None (corners_box corners.now) (grid_field g) at.old at.new value.old value.new found.old found.new result) }
{
    let Some(view) = handle.view.take(alloc) else {
        return EMPTY;
    };
    let after = None;
    let code = match &view.grid {
        Some(grid) => look_past(grid, corners, after, at, value, found, &mut handle.steps),
        None => EMPTY,
    };
    handle.view.put(alloc, view);
    code
}

/// Writes the first active voxel of a box past `at` in block order to `at`, its value to `value` and 1 to `found`, or 0 to
/// `found` if no such voxel exists.
#[unsafe(no_mangle)]
pub extern "C" fn vdb_view_next_active(
    alloc: Global,
    handle: &mut ViewHandle,
    corners: &Corners,
    at: &mut Corner,
    value: &mut i64,
    found: &mut i32,
) -> i32
    ensures same { handle.new.view.held ≡ handle.old.view.held }
    ensures read { OnView (shown handle.old.view.held) result ((at.new ≡ at.old) × (value.new ≡ value.old) × (found.new ≡ found.old)) (λ g.
        LooksPast (Some (corner_coord at.old)) (corners_box corners.now) (grid_field g) at.old at.new value.old value.new found.old found.new result) }
{
    let Some(view) = handle.view.take(alloc) else {
        return EMPTY;
    };
    let after = Some(coord(at));
    let code = match &view.grid {
        Some(grid) => look_past(grid, corners, after, at, value, found, &mut handle.steps),
        None => EMPTY,
    };
    handle.view.put(alloc, view);
    code
}

/// Writes the number of leaves of the grid's tree to `count`.
#[unsafe(no_mangle)]
pub extern "C" fn vdb_view_leaf_count(
    alloc: Global,
    handle: &mut ViewHandle,
    count: &mut u64,
) -> i32
    ensures same { handle.new.view.held ≡ handle.old.view.held }
    ensures read { OnShown (shown handle.old.view.held) result (count.new ≡ count.old) (λ g. count.new ≡ leaf_count g) }
{
    let Some(view) = handle.view.take(alloc) else {
        return EMPTY;
    };
    let code = match &view.grid {
        Some(grid) => {
            *count = count_leaves(grid);
            DONE
        }
        None => EMPTY,
    };
    handle.view.put(alloc, view);
    code
}

/// Copies the first leaves in block order, as `vdb_grid_first_leaves` does.
#[unsafe(no_mangle)]
pub extern "C" fn vdb_view_first_leaves(
    alloc: Global,
    handle: &mut ViewHandle,
    origins: &mut [Corner],
    values: &mut [i64],
    states: &mut [u64],
    copied: &mut usize,
) -> i32
    ensures same { handle.new.view.held ≡ handle.old.view.held }
    ensures read { OnView (shown handle.old.view.held) result ((copied.new ≡ copied.old) × (origins.new ≡ origins.old) × (values.new ≡ values.old) × (states.new ≡ states.old)) (λ g.
        CopiesLeaves g None copied.old copied.new origins.old origins.new values.old values.new states.old states.new result) }
{
    let Some(view) = handle.view.take(alloc) else {
        return EMPTY;
    };
    let after = None;
    let code = match &view.grid {
        Some(grid) => copy_past(
            grid,
            after,
            origins,
            values,
            states,
            copied,
            &mut handle.steps,
        ),
        None => EMPTY,
    };
    handle.view.put(alloc, view);
    code
}

/// Copies the leaves that begin past a coordinate in block order, as `vdb_grid_next_leaves` does.
#[unsafe(no_mangle)]
pub extern "C" fn vdb_view_next_leaves(
    alloc: Global,
    handle: &mut ViewHandle,
    x: i32,
    y: i32,
    z: i32,
    origins: &mut [Corner],
    values: &mut [i64],
    states: &mut [u64],
    copied: &mut usize,
) -> i32
    ensures same { handle.new.view.held ≡ handle.old.view.held }
    ensures read { OnView (shown handle.old.view.held) result ((copied.new ≡ copied.old) × (origins.new ≡ origins.old) × (values.new ≡ values.old) × (states.new ≡ states.old)) (λ g.
        CopiesLeaves g (Some (coordinate x y z)) copied.old copied.new origins.old origins.new values.old values.new states.old states.new result) }
{
    let Some(view) = handle.view.take(alloc) else {
        return EMPTY;
    };
    let after = Some(Coord { x, y, z });
    let code = match &view.grid {
        Some(grid) => copy_past(
            grid,
            after,
            origins,
            values,
            states,
            copied,
            &mut handle.steps,
        ),
        None => EMPTY,
    };
    handle.view.put(alloc, view);
    code
}
