//! Calls on the voxels of a box, or on all voxels.
ghost use Rattle.std.specs.Prelude.{◌≡◌, ⊤, IsTrue};
ghost use Rattle.vdb_coord.specs.Blocks.{vdb};
ghost use Rattle.vdb_tree.specs.Field.{dilate, erode, iterations as iterated};
ghost use Rattle.vdb_tree.specs.Outcome.{IsOutcome};
ghost use Rattle.vdb_morph.specs.Growth.{IsGrowth};
ghost use Rattle.vdb_scene.specs.Grids.{IsPruned, IsVoxelised, grid_field, grid_root_limit};
ghost use Rattle.vdb_scene.specs.Scalars.{is_of, kind_of, scalar_eq};
ghost use Rattle.vdb_c.specs.Calls.{Changes, IsVoxelisedOr, KeepsCells, OnHeld, OnValid, iterations_of};
ghost use Rattle.vdb_c.specs.Regions.{Clips, Fills, FillsWith};
ghost use Rattle.vdb_c.specs.Values.{corners_box};

use crate::codes::{DONE, EMPTY, OUT_OF_RANGE, tree_code};
use crate::handles::GridHandle;
use crate::values::{Corners, bounds, is_on, value};
use vdb_coord::Bounds;
use vdb_pool::Steps;
use vdb_scene::{AnyGrid, Scalar};
use vdb_value::Cell;

/// Sets each voxel of a box to one cell.
#[unsafe(no_mangle)]
pub extern "C" fn vdb_grid_fill(
    handle: &mut GridHandle,
    corners: &Corners,
    given: i64,
    active: i32,
) -> i32
    ensures { OnHeld handle.old.grid.held handle.new.grid.held result ⊤ (λ g h. OnValid (corners_box corners.now) g h result ⊤ (λ box. FillsWith box given active g h result)) }
{
    let Some(grid) = handle.grid.grid_mut() else {
        return EMPTY;
    };
    let Some(bounds) = bounds(corners) else {
        return OUT_OF_RANGE;
    };
    fill_with(grid, bounds, given, active, &mut handle.steps)
}

/// Sets each voxel of a box to a number and a state, if the type has the number.
#[tactic(auto, unfolding(crate::specs::Regions::FillsWith))]
fn fill_with(grid: &mut AnyGrid, bounds: Bounds, given: i64, active: i32, steps: &mut Steps) -> i32
    ensures { FillsWith bounds given active grid.old grid.new result }
{
    let Some(value) = value(grid.kind(), given) else {
        return OUT_OF_RANGE;
    };
    let on = is_on(active);
    fill(grid, bounds, Cell { value, on }, steps)
}

/// Sets each voxel of a box to one cell, with a value of the grid's type.
#[tactic(auto, unfolding(crate::specs::Regions::Fills))]
fn fill(grid: &mut AnyGrid, bounds: Bounds, cell: Cell<Scalar>, steps: &mut Steps) -> i32
    requires { IsTrue (is_of (kind_of (grid_field grid.old).background) cell.value) }
    ensures { Fills bounds cell grid.old grid.new result }
{
    tree_code(grid.fill(bounds, cell, steps))
}

/// Sets each voxel outside a box to the background, inactive.
#[unsafe(no_mangle)]
pub extern "C" fn vdb_grid_clip(handle: &mut GridHandle, corners: &Corners) -> i32
    ensures { OnHeld handle.old.grid.held handle.new.grid.held result ⊤ (λ g h. OnValid (corners_box corners.now) g h result ⊤ (λ box. Clips box g h result)) }
{
    let Some(grid) = handle.grid.grid_mut() else {
        return EMPTY;
    };
    let Some(bounds) = bounds(corners) else {
        return OUT_OF_RANGE;
    };
    clip(grid, bounds, &mut handle.steps)
}

/// Sets each voxel outside a box to the background, inactive.
#[tactic(auto, unfolding(crate::specs::Regions::Clips))]
fn clip(grid: &mut AnyGrid, bounds: Bounds, steps: &mut Steps) -> i32
    ensures { Clips bounds grid.old grid.new result }
{
    tree_code(grid.clip(bounds, steps))
}

/// Makes the tree as small as its cells allow. No cell changes.
#[unsafe(no_mangle)]
pub extern "C" fn vdb_grid_prune(handle: &mut GridHandle) -> i32
    ensures { OnHeld handle.old.grid.held handle.new.grid.held result ⊤ (λ g h. KeepsCells g h result (IsPruned h)) }
{
    let Some(grid) = handle.grid.grid_mut() else {
        return EMPTY;
    };
    grid.prune(&mut handle.steps);
    DONE
}

/// Puts each active voxel of a box into a leaf. No cell changes.
#[unsafe(no_mangle)]
pub extern "C" fn vdb_grid_voxelise(handle: &mut GridHandle, corners: &Corners) -> i32
    ensures { OnHeld handle.old.grid.held handle.new.grid.held result ⊤ (λ g h. OnValid (corners_box corners.now) g h result ⊤ (λ box.
        Changes g h result (IsVoxelisedOr g h box))) }
{
    let Some(grid) = handle.grid.grid_mut() else {
        return EMPTY;
    };
    let Some(bounds) = bounds(corners) else {
        return OUT_OF_RANGE;
    };
    tree_code(grid.voxelise(bounds, &mut handle.steps))
}

/// Activates, in each iteration, every voxel that has an active face neighbour, and keeps the values.
#[unsafe(no_mangle)]
pub extern "C" fn vdb_grid_dilate(handle: &mut GridHandle, iterations: u32) -> i32
    ensures { OnHeld handle.old.grid.held handle.new.grid.held result ⊤ (λ g h. OnValid (iterations_of iterations) g h result ⊤ (λ n.
        Changes g h result (IsGrowth scalar_eq vdb (grid_root_limit g) (grid_field g) (iterated n dilate (grid_field g)) (grid_field h)))) }
{
    let Some(grid) = handle.grid.grid_mut() else {
        return EMPTY;
    };
    let mut code = OUT_OF_RANGE;
    if iterations >= 1 && iterations <= 16 {
        code = tree_code(grid.dilate(iterations, &mut handle.steps));
    }
    code
}

/// Deactivates, in each iteration, every voxel that has an inactive face neighbour, and keeps the values.
#[unsafe(no_mangle)]
pub extern "C" fn vdb_grid_erode(handle: &mut GridHandle, iterations: u32) -> i32
    ensures { OnHeld handle.old.grid.held handle.new.grid.held result ⊤ (λ g h. OnValid (iterations_of iterations) g h result ⊤ (λ n.
        Changes g h result (IsOutcome scalar_eq vdb (grid_root_limit g) (grid_field g) (iterated n erode (grid_field g)) (grid_field h)))) }
{
    let Some(grid) = handle.grid.grid_mut() else {
        return EMPTY;
    };
    let mut code = OUT_OF_RANGE;
    if iterations >= 1 && iterations <= 16 {
        code = tree_code(grid.erode(iterations, &mut handle.steps));
    }
    code
}
