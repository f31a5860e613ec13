//! Calls on views: a grid that several threads read, each through a handle of its own.
ghost use Rattle.std.specs.Prelude.{◌≡◌, None, length, negsuc};
ghost use Rattle.vdb_coord.specs.Space.{coord, is_inside};
ghost use Rattle.vdb_scene.specs.Grids.{grid_field};
ghost use Rattle.vdb_value.specs.declared.Kind.TheVariants as kinds;
ghost use Rattle.vdb_c.specs.BoxArrays.{ReadsBoxOf, box_beside};
ghost use Rattle.vdb_c.specs.Calls.{IsCopied};
ghost use Rattle.vdb_c.specs.Elements.{IsLaid};
ghost use Rattle.vdb_c.specs.Many.{IsReadAt, accessor_beside, bool_at, byte_at, number_at};
ghost use Rattle.vdb_c.specs.Values.{state_number as number_of_state, value_number as number_of_value};
ghost use Rattle.vdb_c.specs.Views.{IsShared, IsShown, IsTaken, OnShown, OnShownIf, OnView, shown};

pub(crate) mod reports;
pub(crate) mod walks;

use crate::boxes::arrays::{bounds_beside, read, read_bool, read_i32};
use crate::boxes::elements::Strides;
use crate::codes::{DONE, EMPTY, MEMORY, OUT_OF_RANGE};
use crate::handles::GridHandle;
use crate::handles::held_view::ViewHandle;
use crate::handles::view::View;
use crate::values::{Corner, Corners, state_number, value_number};
use crate::voxels::many::{accessor_of_many, read_cells};
use std::alloc::Global;
use std::sync::Arc;
use vdb_coord::Coord;

/// Moves the grid of a handle into a view, which replaces that of `to`. The grid stays where it is if memory runs out.
#[unsafe(no_mangle)]
pub extern "C" fn vdb_view_new(alloc: Global, from: &mut GridHandle, to: &mut ViewHandle) -> i32
    ensures { IsShown from.old.grid.held from.new.grid.held to.old.view.held to.new.view.held result }
{
    let Some(grid) = from.grid.take(alloc) else {
        return EMPTY;
    };
    let Ok(mut view) = Box::new(alloc, View { grid: None }) else {
        from.grid.put(alloc, grid);
        return MEMORY;
    };
    match Arc::new(alloc, for_threads(grid)) {
        Ok(grid) => view.grid = Some(grid),
        Err(refused) => {
            from.grid.put(alloc, refused.value);
            return MEMORY;
        }
    }
    to.view.put(alloc, view);
    DONE
}

/// Returns the same value. Its type says that several threads may read it, and that any of them may free it.
fn for_threads<T: Send + Sync>(value: T) -> T
    ensures { result ≡ value }
{
    value
}

/// Makes another view of the same grid, for another thread. It replaces that of `to`.
#[unsafe(no_mangle)]
pub extern "C" fn vdb_view_share(alloc: Global, from: &mut ViewHandle, to: &mut ViewHandle) -> i32
    ensures same { from.new.view.held ≡ from.old.view.held }
    ensures shared { IsShared (shown from.old.view.held) to.old.view.held to.new.view.held result }
{
    let Some(view) = from.view.take(alloc) else {
        return EMPTY;
    };
    let other = match &view.grid {
        Some(grid) => Arc::try_clone(grid).ok(),
        None => {
            from.view.put(alloc, view);
            return EMPTY;
        }
    };
    from.view.put(alloc, view);
    if other.is_none() {
        return MEMORY;
    }
    let Ok(copy) = Box::new(alloc, View { grid: other }) else {
        return MEMORY;
    };
    to.view.put(alloc, copy);
    DONE
}

/// Copies the grid of a view: cells, nodes, background and limit. The copy replaces the grid of `to`.
#[unsafe(no_mangle)]
pub extern "C" fn vdb_view_copy(alloc: Global, from: &mut ViewHandle, to: &mut GridHandle) -> i32
    ensures same { from.new.view.held ≡ from.old.view.held }
    ensures copied { IsCopied (shown from.old.view.held) to.old.grid.held to.new.grid.held result }
{
    let Some(view) = from.view.take(alloc) else {
        return EMPTY;
    };
    let copy = match &view.grid {
        Some(grid) => grid.try_copy(),
        None => {
            from.view.put(alloc, view);
            return EMPTY;
        }
    };
    from.view.put(alloc, view);
    let Ok(copy) = copy else {
        return MEMORY;
    };
    let Ok(copy) = Box::new(alloc, copy) else {
        return MEMORY;
    };
    to.grid.put(alloc, copy);
    DONE
}

/// Moves the grid of its last view back into a handle, whose grid it replaces. The view's handle is empty then. No cell is copied.
#[unsafe(no_mangle)]
pub extern "C" fn vdb_view_take(alloc: Global, from: &mut ViewHandle, to: &mut GridHandle) -> i32
    ensures { IsTaken (shown from.old.view.held) from.old.view.held from.new.view.held to.old.grid.held to.new.grid.held result }
{
    let Some(mut view) = from.view.take(alloc) else {
        return EMPTY;
    };
    let Some(grid) = view.grid.take() else {
        from.view.put(alloc, view);
        return EMPTY;
    };
    match Arc::try_unwrap(grid) {
        Ok(grid) => {
            to.grid.put(alloc, grid);
            DONE
        }
        Err(grid) => {
            view.grid = Some(grid);
            from.view.put(alloc, view);
            OUT_OF_RANGE
        }
    }
}

/// Frees the handle's view, if it has one, and the grid with its last view. The handle is empty then.
#[unsafe(no_mangle)]
pub extern "C" fn vdb_view_free(alloc: Global, handle: &mut ViewHandle)
    ensures { handle.new.view.held ≡ None }
{
    let _ = handle.view.take(alloc);
}

/// Writes the value and the state of a voxel to `value` and `active`, by the descent from the root.
#[unsafe(no_mangle)]
pub extern "C" fn vdb_view_get(
    alloc: Global,
    handle: &mut ViewHandle,
    x: i32,
    y: i32,
    z: i32,
    value: &mut i64,
    active: &mut i32,
) -> i32
    ensures same { handle.new.view.held ≡ handle.old.view.held }
    ensures read { OnShown (shown handle.old.view.held) result ((value.new ≡ value.old) × (active.new ≡ active.old)) (λ g.
        (value.new ≡ number_of_value ((grid_field g).cell (coord x y z)).value) × (active.new ≡ number_of_state ((grid_field g).cell (coord x y z)).on)) }
{
    let Some(view) = handle.view.take(alloc) else {
        return EMPTY;
    };
    let code = match &view.grid {
        Some(grid) => {
            let cell = grid.get(Coord { x, y, z }, &mut handle.steps);
            *value = value_number(cell.value);
            *active = state_number(cell.on);
            DONE
        }
        None => EMPTY,
    };
    handle.view.put(alloc, view);
    code
}

/// Writes the value and the state of each voxel of `at` to `values` and `states`, by a path that it keeps from voxel to voxel.
#[unsafe(no_mangle)]
pub extern "C" fn vdb_view_get_many(
    alloc: Global,
    handle: &mut ViewHandle,
    at: &[Corner],
    values: &mut [i64],
    states: &mut [u8],
) -> i32
    ensures same { handle.new.view.held ≡ handle.old.view.held }
    ensures read { OnShownIf (shown handle.old.view.held) (accessor_beside (negsuc 0) (length at.now) (length values.old) (length states.old)) result ((values.new ≡ values.old) × (states.new ≡ states.old)) (λ g _.
        IsReadAt (number_at (grid_field g)) at.now values.old values.new × IsReadAt (byte_at (grid_field g)) at.now states.old states.new) }
{
    let Some(view) = handle.view.take(alloc) else {
        return EMPTY;
    };
    let fits = accessor_of_many(-1, at.len(), values.len(), states.len()).is_some();
    let code = match &view.grid {
        None => EMPTY,
        Some(_) if !fits => OUT_OF_RANGE,
        Some(grid) => {
            read_cells(grid, at, values, states, &mut handle.steps);
            DONE
        }
    };
    handle.view.put(alloc, view);
    code
}

/// Writes the value and the state of each voxel of a box to its elements of `values` and `states`, as `vdb_grid_read_box` does.
#[unsafe(no_mangle)]
pub extern "C" fn vdb_view_read_box(
    alloc: Global,
    handle: &mut ViewHandle,
    corners: &Corners,
    strides: &Strides,
    values: &mut [i64],
    states: &mut [u8],
) -> i32
    ensures same { handle.new.view.held ≡ handle.old.view.held }
    ensures read { OnShownIf (shown handle.old.view.held) (box_beside corners.now strides.now (length values.old) (length states.old)) result ((values.new ≡ values.old) × (states.new ≡ states.old)) (λ g box.
        IsLaid box strides.now (is_inside box) (number_at (grid_field g)) values.old values.new × IsLaid box strides.now (is_inside box) (byte_at (grid_field g)) states.old states.new) }
{
    let Some(view) = handle.view.take(alloc) else {
        return EMPTY;
    };
    let bounds = bounds_beside(corners, strides, values.len(), states.len());
    let code = match (&view.grid, bounds) {
        (None, _) => EMPTY,
        (Some(_), None) => OUT_OF_RANGE,
        (Some(grid), Some(bounds)) => {
            read(grid, bounds, strides, values, states, &mut handle.steps);
            DONE
        }
    };
    handle.view.put(alloc, view);
    code
}

/// Writes the value and the state of each voxel of a box of a grid of booleans to its elements of `values` and `states`, as
/// `vdb_grid_read_box_bool` does.
#[unsafe(no_mangle)]
pub extern "C" fn vdb_view_read_box_bool(
    alloc: Global,
    handle: &mut ViewHandle,
    corners: &Corners,
    strides: &Strides,
    values: &mut [u8],
    states: &mut [u8],
) -> i32
    ensures same { handle.new.view.held ≡ handle.old.view.held }
    ensures read { OnView (shown handle.old.view.held) result ((values.new ≡ values.old) × (states.new ≡ states.old)) (λ g.
        ReadsBoxOf kinds.Bool bool_at corners.now strides.now g values.old values.new states.old states.new result) }
{
    let Some(view) = handle.view.take(alloc) else {
        return EMPTY;
    };
    let code = match &view.grid {
        Some(grid) => read_bool(grid, corners, strides, values, states, &mut handle.steps),
        None => EMPTY,
    };
    handle.view.put(alloc, view);
    code
}

/// Writes the value and the state of each voxel of a box of a grid of numbers of 32 bits to its elements of `values` and `states`, as
/// `vdb_grid_read_box_i32` does.
#[unsafe(no_mangle)]
pub extern "C" fn vdb_view_read_box_i32(
    alloc: Global,
    handle: &mut ViewHandle,
    corners: &Corners,
    strides: &Strides,
    values: &mut [i32],
    states: &mut [u8],
) -> i32
    ensures same { handle.new.view.held ≡ handle.old.view.held }
    ensures read { OnView (shown handle.old.view.held) result ((values.new ≡ values.old) × (states.new ≡ states.old)) (λ g.
        ReadsBoxOf kinds.I32 number_at corners.now strides.now g values.old values.new states.old states.new result) }
{
    let Some(view) = handle.view.take(alloc) else {
        return EMPTY;
    };
    let code = match &view.grid {
        Some(grid) => read_i32(grid, corners, strides, values, states, &mut handle.steps),
        None => EMPTY,
    };
    handle.view.put(alloc, view);
    code
}
