//! Calls that create, free and copy a grid, and report what it was created with.
ghost use Rattle.std.specs.Prelude.{◌≡◌, ◌⊎◌, None, Some, ⊤, pos};
ghost use Rattle.vdb_scene.specs.Grids.{IsCopyOf, grid_field, grid_root_limit};
ghost use Rattle.vdb_c.specs.Calls.{IsCopied, IsCreated, OnHeld, Reads, grid_kind};
ghost use Rattle.vdb_c.specs.Values.{kind_number as number_of_kind, value_number as number_of_value};

use crate::codes::{DONE, EMPTY, MEMORY, OUT_OF_RANGE};
use crate::handles::GridHandle;
use crate::values::{kind, kind_number, value, value_number};
use std::alloc::Global;
use vdb_scene::{AnyGrid, MOST_ROOT_LIMIT};

/// Creates a grid that was never written, with this background and root limit. It replaces the handle's grid.
///
/// Returns `OUT_OF_RANGE` if no type has the number, the type doesn't have the background, or the limit is 0 or above 65,536.
#[unsafe(no_mangle)]
pub extern "C" fn vdb_grid_new(
    alloc: Global,
    handle: &mut GridHandle,
    kind_number: i32,
    background: i64,
    limit: u32,
) -> i32
    ensures { IsCreated kind_number background limit handle.old.grid.held handle.new.grid.held result }
{
    let Some(kind) = kind(kind_number) else {
        return OUT_OF_RANGE;
    };
    let Some(background) = value(kind, background) else {
        return OUT_OF_RANGE;
    };
    if limit == 0 || limit > MOST_ROOT_LIMIT {
        return OUT_OF_RANGE;
    }
    let Ok(grid) = Box::new(alloc, AnyGrid::new(alloc, background, limit)) else {
        return MEMORY;
    };
    handle.grid.put(alloc, grid);
    DONE
}

/// Frees the handle's grid, if it has one. The handle is empty then.
#[unsafe(no_mangle)]
pub extern "C" fn vdb_grid_free(alloc: Global, handle: &mut GridHandle)
    ensures { handle.new.grid.held ≡ None }
{
    let _ = handle.grid.take(alloc);
}

/// Copies a grid: cells, nodes, background and limit. The copy replaces the grid of `to`.
#[unsafe(no_mangle)]
pub extern "C" fn vdb_grid_copy(alloc: Global, from: &mut GridHandle, to: &mut GridHandle) -> i32
    ensures same { from.new.grid.held ≡ from.old.grid.held }
    ensures copied { IsCopied from.old.grid.held to.old.grid.held to.new.grid.held result }
{
    let Some(grid) = from.grid.grid_mut() else {
        return EMPTY;
    };
    let Ok(copy) = grid.try_copy() else {
        return MEMORY;
    };
    let Ok(copy) = Box::new(alloc, copy) else {
        return MEMORY;
    };
    to.grid.put(alloc, copy);
    DONE
}

/// Writes the number of the type of the grid's values to `kind`.
#[unsafe(no_mangle)]
pub extern "C" fn vdb_grid_kind(handle: &mut GridHandle, kind: &mut i32) -> i32
    ensures { OnHeld handle.old.grid.held handle.new.grid.held result (kind.new ≡ kind.old) (λ g h. Reads g h result (kind.new ≡ number_of_kind (grid_kind g))) }
{
    let Some(grid) = handle.grid.grid_mut() else {
        return EMPTY;
    };
    *kind = kind_number(grid.kind());
    DONE
}

/// Writes the background to `value`: the value of a voxel that was never written.
#[unsafe(no_mangle)]
pub extern "C" fn vdb_grid_background(handle: &mut GridHandle, value: &mut i64) -> i32
    ensures { OnHeld handle.old.grid.held handle.new.grid.held result (value.new ≡ value.old) (λ g h. Reads g h result (value.new ≡ number_of_value (grid_field g).background)) }
{
    let Some(grid) = handle.grid.grid_mut() else {
        return EMPTY;
    };
    *value = value_number(grid.background());
    DONE
}

/// Writes the root limit to `limit`.
#[unsafe(no_mangle)]
pub extern "C" fn vdb_grid_limit(handle: &mut GridHandle, limit: &mut u32) -> i32
    ensures { OnHeld handle.old.grid.held handle.new.grid.held result (limit.new ≡ limit.old) (λ g h. Reads g h result (limit.new ≡ grid_root_limit g)) }
{
    let Some(grid) = handle.grid.grid_mut() else {
        return EMPTY;
    };
    *limit = grid.limit();
    DONE
}
