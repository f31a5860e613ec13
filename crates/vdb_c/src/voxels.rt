//! Calls on one voxel.
ghost use Rattle.std.specs.Prelude.{◌≡◌, Some, ⊤};
ghost use Rattle.std.specs.Option.{option_map};
ghost use Rattle.vdb_coord.specs.Blocks.{vdb};
ghost use Rattle.vdb_coord.specs.Space.{coord};
ghost use Rattle.vdb_tree.specs.Field.{write as write_field};
ghost use Rattle.vdb_tree.specs.Outcome.{IsOutcome};
ghost use Rattle.vdb_tree.specs.declared.Write.TheVariants as writes;
ghost use Rattle.vdb_scene.specs.Grids.{grid_field, grid_root_limit};
ghost use Rattle.vdb_scene.specs.Scalars.{scalar_eq};
ghost use Rattle.vdb_c.specs.Calls.{IsWriteFor, OnHeld, OnValid, Probes, Reads, ReadsBy, Writes, grid_kind, write_of};
ghost use Rattle.vdb_c.specs.Values.{accessor_of, is_on as number_is_on, state_number as number_of_state, value_number as number_of_value, value_of};

pub(crate) mod arrays;
pub(crate) mod element_writes;
pub(crate) mod found;
pub(crate) mod many;
pub(crate) mod near_writes;

use crate::codes::{DONE, EMPTY, OUT_OF_RANGE, tree_code};
use crate::handles::GridHandle;
use crate::values::cells::{get, go_to, near_cell};
use crate::values::{accessor, is_on, state_number, value};
use crate::voxels::near_writes::set_near;
use vdb_coord::Coord;
use vdb_pool::Steps;
use vdb_scene::{AnyGrid, Scalar};
use vdb_tree::Write;
use vdb_value::Kind;

/// Writes the value and the state of a voxel to `value` and `active`, without an accessor.
#[unsafe(no_mangle)]
pub extern "C" fn vdb_grid_get(
    handle: &mut GridHandle,
    x: i32,
    y: i32,
    z: i32,
    value: &mut i64,
    active: &mut i32,
) -> i32
    ensures { OnHeld handle.old.grid.held handle.new.grid.held result ((value.new ≡ value.old) × (active.new ≡ active.old)) (λ g h. Reads g h result
        ((value.new ≡ number_of_value ((grid_field g).cell (coord x y z)).value) × (active.new ≡ number_of_state ((grid_field g).cell (coord x y z)).on))) }
{
    let Some(grid) = handle.grid.grid_mut() else {
        return EMPTY;
    };
    let cell = get(grid, Coord { x, y, z }, &mut handle.steps);
    *value = cell.value;
    *active = state_number(cell.on);
    DONE
}

/// Writes the value and the state of a voxel to `value` and `active`, through an accessor or, with -1, without one.
#[unsafe(no_mangle)]
pub extern "C" fn vdb_grid_probe(
    handle: &mut GridHandle,
    number: i32,
    x: i32,
    y: i32,
    z: i32,
    value: &mut i64,
    active: &mut i32,
) -> i32
    ensures { OnHeld handle.old.grid.held handle.new.grid.held result ((value.new ≡ value.old) × (active.new ≡ active.old)) (λ g h.
        OnValid (accessor_of number) g h result ((value.new ≡ value.old) × (active.new ≡ active.old)) (λ _. ReadsBy g h result
        ((value.new ≡ number_of_value ((grid_field g).cell (coord x y z)).value) × (active.new ≡ number_of_state ((grid_field g).cell (coord x y z)).on)))) }
{
    let Some(grid) = handle.grid.grid_mut() else {
        return EMPTY;
    };
    let Some(cell) = near_cell(grid, number, Coord { x, y, z }, &mut handle.steps) else {
        return probe_far(handle, number, x, y, z, value, active);
    };
    *value = cell.value;
    *active = state_number(cell.on);
    DONE
}

/// Returns what `vdb_grid_probe` returns, by the descent from the lowest node of the accessor's path that contains the voxel.
#[inline(never)]
fn probe_far(
    handle: &mut GridHandle,
    number: i32,
    x: i32,
    y: i32,
    z: i32,
    value: &mut i64,
    active: &mut i32,
) -> i32
    ensures { Probes number (coord x y z) value.old value.new active.old active.new handle.old.grid.held handle.new.grid.held result }
{
    let Some(grid) = handle.grid.grid_mut() else {
        return EMPTY;
    };
    let Some(accessor) = accessor(number) else {
        return OUT_OF_RANGE;
    };
    let cell = go_to(grid, accessor, Coord { x, y, z }, &mut handle.steps);
    *value = cell.value;
    *active = state_number(cell.on);
    DONE
}

/// Sets the value and the state of a voxel, through an accessor or, with -1, without one.
#[unsafe(no_mangle)]
pub extern "C" fn vdb_grid_set(
    handle: &mut GridHandle,
    number: i32,
    x: i32,
    y: i32,
    z: i32,
    given: i64,
    active: i32,
) -> i32
    ensures { OnHeld handle.old.grid.held handle.new.grid.held result ⊤ (λ g h. Writes (accessor_of number) (coord x y z) (option_map (write_of (number_is_on active)) (value_of (grid_kind g) given)) g h result) }
{
    let Some(grid) = handle.grid.grid_mut() else {
        return EMPTY;
    };
    let at = Coord { x, y, z };
    if set_near::<false>(grid, number, at, given, is_on(active), &mut handle.steps) {
        return DONE;
    }
    set_far(handle, number, x, y, z, given, active)
}

/// Does what `vdb_grid_set` does, by the descent from the lowest node of the accessor's path that contains the voxel.
#[inline(never)]
fn set_far(
    handle: &mut GridHandle,
    number: i32,
    x: i32,
    y: i32,
    z: i32,
    given: i64,
    active: i32,
) -> i32
    ensures { OnHeld handle.old.grid.held handle.new.grid.held result ⊤ (λ g h. Writes (accessor_of number) (coord x y z) (option_map (write_of (number_is_on active)) (value_of (grid_kind g) given)) g h result) }
{
    let Some(grid) = handle.grid.grid_mut() else {
        return EMPTY;
    };
    let at = Coord { x, y, z };
    if set_near::<true>(grid, number, at, given, is_on(active), &mut handle.steps) {
        return DONE;
    }
    let change = cell_write(grid.kind(), given, is_on(active));
    write(grid, number, at, change, &mut handle.steps)
}

/// Sets the value of a voxel and keeps its state.
#[unsafe(no_mangle)]
pub extern "C" fn vdb_grid_set_value(
    handle: &mut GridHandle,
    number: i32,
    x: i32,
    y: i32,
    z: i32,
    given: i64,
) -> i32
    ensures { OnHeld handle.old.grid.held handle.new.grid.held result ⊤ (λ g h. Writes (accessor_of number) (coord x y z) (option_map writes.Value (value_of (grid_kind g) given)) g h result) }
{
    let Some(grid) = handle.grid.grid_mut() else {
        return EMPTY;
    };
    let change = value_write(grid.kind(), given);
    write(grid, number, Coord { x, y, z }, change, &mut handle.steps)
}

/// Sets the state of a voxel and keeps its value.
#[unsafe(no_mangle)]
pub extern "C" fn vdb_grid_set_active(
    handle: &mut GridHandle,
    number: i32,
    x: i32,
    y: i32,
    z: i32,
    active: i32,
) -> i32
    ensures { OnHeld handle.old.grid.held handle.new.grid.held result ⊤ (λ g h. Writes (accessor_of number) (coord x y z) (Some (writes.State (number_is_on active))) g h result) }
{
    let Some(grid) = handle.grid.grid_mut() else {
        return EMPTY;
    };
    let change = Some(Write::State(is_on(active)));
    write(grid, number, Coord { x, y, z }, change, &mut handle.steps)
}

/// Returns the write of a number and a state: `None` if the type doesn't have the number.
#[inline(always)]
pub(crate) fn cell_write(kind: Kind, number: i64, on: bool) -> Option<Write<Scalar>>
    ensures write { result ≡ option_map (write_of on) (value_of kind number) }
    ensures fits { IsWriteFor kind result }
{
    let value = value(kind, number)?;
    Some(if on {
        Write::On(value)
    } else {
        Write::Off(value)
    })
}

/// Returns the write of a number alone: `None` if the type doesn't have it.
#[inline(always)]
fn value_write(kind: Kind, number: i64) -> Option<Write<Scalar>>
    ensures write { result ≡ option_map writes.Value (value_of kind number) }
    ensures fits { IsWriteFor kind result }
{
    Some(Write::Value(value(kind, number)?))
}

/// Writes a voxel, if the value is in the type's range and the number names an accessor or none.
#[inline(always)]
fn write(
    grid: &mut AnyGrid,
    number: i32,
    at: Coord,
    change: Option<Write<Scalar>>,
    steps: &mut Steps,
) -> i32
    requires { IsWriteFor (grid_kind grid.old) change }
    ensures { Writes (accessor_of number) at change grid.old grid.new result }
{
    let Some(change) = change else {
        return OUT_OF_RANGE;
    };
    let Some(accessor) = accessor(number) else {
        return OUT_OF_RANGE;
    };
    tree_code(grid.write(accessor, at, change, steps))
}
