//! Calls that combine two grids: the first changes, the second stays.
ghost use Rattle.std.specs.Prelude.{◌≡◌};
ghost use Rattle.vdb_tree.specs.declared.pairs.StateRule.TheVariants.{Unite, Subtract, Intersect};
ghost use Rattle.vdb_scene.specs.declared.two_grids.Composite.TheVariants.{Maximum, Minimum, Sum, Replace};
ghost use Rattle.vdb_scene.specs.declared.two_grids.Operation.TheVariants.{States, Values};
ghost use Rattle.vdb_c.specs.Calls.{Combines};

use crate::codes::{EMPTY, scene_code};
use crate::handles::GridHandle;
use vdb_scene::{Composite, Operation};
use vdb_tree::StateRule;

/// Activates each voxel that is active in the other grid, and keeps the values. The types may differ.
#[unsafe(no_mangle)]
pub extern "C" fn vdb_grid_unite(handle: &mut GridHandle, other: &mut GridHandle) -> i32
    ensures changed { Combines (States Unite) handle.old.grid.held other.old.grid.held handle.new.grid.held result }
    ensures other { other.new.grid.held ≡ other.old.grid.held }
{
    combine(handle, other, Operation::States(StateRule::Unite))
}

/// Deactivates each voxel that is active in the other grid, and keeps the values. The types may differ.
#[unsafe(no_mangle)]
pub extern "C" fn vdb_grid_subtract(handle: &mut GridHandle, other: &mut GridHandle) -> i32
    ensures changed { Combines (States Subtract) handle.old.grid.held other.old.grid.held handle.new.grid.held result }
    ensures other { other.new.grid.held ≡ other.old.grid.held }
{
    combine(handle, other, Operation::States(StateRule::Subtract))
}

/// Deactivates each voxel that isn't active in the other grid, and keeps the values. The types may differ.
#[unsafe(no_mangle)]
pub extern "C" fn vdb_grid_intersect(handle: &mut GridHandle, other: &mut GridHandle) -> i32
    ensures changed { Combines (States Intersect) handle.old.grid.held other.old.grid.held handle.new.grid.held result }
    ensures other { other.new.grid.held ≡ other.old.grid.held }
{
    combine(handle, other, Operation::States(StateRule::Intersect))
}

/// Sets each voxel to the greater of the two values, active if either is.
#[unsafe(no_mangle)]
pub extern "C" fn vdb_grid_maximum(handle: &mut GridHandle, other: &mut GridHandle) -> i32
    ensures changed { Combines (Values Maximum) handle.old.grid.held other.old.grid.held handle.new.grid.held result }
    ensures other { other.new.grid.held ≡ other.old.grid.held }
{
    combine(handle, other, Operation::Values(Composite::Maximum))
}

/// Sets each voxel to the lesser of the two values, active if either is.
#[unsafe(no_mangle)]
pub extern "C" fn vdb_grid_minimum(handle: &mut GridHandle, other: &mut GridHandle) -> i32
    ensures changed { Combines (Values Minimum) handle.old.grid.held other.old.grid.held handle.new.grid.held result }
    ensures other { other.new.grid.held ≡ other.old.grid.held }
{
    combine(handle, other, Operation::Values(Composite::Minimum))
}

/// Sets each voxel to the sum of the two values, active if either is.
#[unsafe(no_mangle)]
pub extern "C" fn vdb_grid_sum(handle: &mut GridHandle, other: &mut GridHandle) -> i32
    ensures changed { Combines (Values Sum) handle.old.grid.held other.old.grid.held handle.new.grid.held result }
    ensures other { other.new.grid.held ≡ other.old.grid.held }
{
    combine(handle, other, Operation::Values(Composite::Sum))
}

/// Copies the other grid's active cells.
#[unsafe(no_mangle)]
pub extern "C" fn vdb_grid_replace(handle: &mut GridHandle, other: &mut GridHandle) -> i32
    ensures changed { Combines (Values Replace) handle.old.grid.held other.old.grid.held handle.new.grid.held result }
    ensures other { other.new.grid.held ≡ other.old.grid.held }
{
    combine(handle, other, Operation::Values(Composite::Replace))
}

/// Combines two grids by an operation.
fn combine(handle: &mut GridHandle, other: &mut GridHandle, operation: Operation) -> i32
    ensures changed { Combines operation handle.old.grid.held other.old.grid.held handle.new.grid.held result }
    ensures other { other.new.grid.held ≡ other.old.grid.held }
{
    let Some(grid) = handle.grid.grid_mut() else {
        return EMPTY;
    };
    let Some(given) = other.grid.grid_mut() else {
        return EMPTY;
    };
    scene_code(grid.combine(operation, given, &mut handle.steps))
}
