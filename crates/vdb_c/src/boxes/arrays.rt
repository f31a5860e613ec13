//! A box of voxels read into arrays.
ghost use Rattle.std.specs.Prelude.{◌≡◌, IfSome, IsTrue, length};
ghost use Rattle.vdb_coord.specs.Space.{is_inside};
ghost use Rattle.vdb_scene.specs.Grids.{grid_field};
ghost use Rattle.vdb_value.specs.declared.Kind.TheVariants as kinds;
ghost use Rattle.vdb_c.specs.BoxArrays.{ReadsBoxOf, box_beside};
ghost use Rattle.vdb_c.specs.Calls.{OnHeld, OnValid, Reads};
ghost use Rattle.vdb_c.specs.Elements.{IsLaid, are_apart as are_voxels_apart, has_places as has_a_place};
ghost use Rattle.vdb_c.specs.Many.{bool_at, byte_at, number_at};

use crate::boxes::elements::{Strides, are_apart, has_places};
use crate::boxes::reading::{AsByte, AsNumber, AsValue, read_box};
use crate::codes::{DONE, EMPTY, OTHER_KIND, OUT_OF_RANGE};
use crate::handles::GridHandle;
use crate::values::{Corners, bounds};
use vdb_coord::Bounds;
use vdb_pool::Steps;
use vdb_scene::AnyGrid;

/// Writes the value and the state of each voxel of a box to its elements of `values` and `states`. No other element changes, and an
/// empty array isn't written.
#[unsafe(no_mangle)]
pub extern "C" fn vdb_grid_read_box(
    handle: &mut GridHandle,
    corners: &Corners,
    strides: &Strides,
    values: &mut [i64],
    states: &mut [u8],
) -> i32
    ensures { OnHeld handle.old.grid.held handle.new.grid.held result ((values.new ≡ values.old) × (states.new ≡ states.old)) (λ g h.
        OnValid (box_beside corners.now strides.now (length values.old) (length states.old)) g h result ((values.new ≡ values.old) × (states.new ≡ states.old)) (λ box.
        Reads g h result (IsLaid box strides.now (is_inside box) (number_at (grid_field g)) values.old values.new × IsLaid box strides.now (is_inside box) (byte_at (grid_field g)) states.old states.new))) }
{
    let Some(grid) = handle.grid.grid_mut() else {
        return EMPTY;
    };
    let Some(bounds) = bounds_beside(corners, strides, values.len(), states.len()) else {
        return OUT_OF_RANGE;
    };
    read(grid, bounds, strides, values, states, &mut handle.steps);
    DONE
}

/// Writes the value of each voxel of a box of a grid of booleans to its elements of `values`, 1 for true and 0 for false, and the
/// state to its elements of `states`, as `vdb_grid_read_box` does.
#[unsafe(no_mangle)]
pub extern "C" fn vdb_grid_read_box_bool(
    handle: &mut GridHandle,
    corners: &Corners,
    strides: &Strides,
    values: &mut [u8],
    states: &mut [u8],
) -> i32
    ensures { OnHeld handle.old.grid.held handle.new.grid.held result ((values.new ≡ values.old) × (states.new ≡ states.old)) (λ g h. (h ≡ g)
        × ReadsBoxOf kinds.Bool bool_at corners.now strides.now g values.old values.new states.old states.new result) }
{
    let Some(grid) = handle.grid.grid_mut() else {
        return EMPTY;
    };
    read_bool(grid, corners, strides, values, states, &mut handle.steps)
}

/// Writes the value and the state of each voxel of a box of a grid of numbers of 32 bits to its elements of `values` and `states`, as
/// `vdb_grid_read_box` does.
#[unsafe(no_mangle)]
pub extern "C" fn vdb_grid_read_box_i32(
    handle: &mut GridHandle,
    corners: &Corners,
    strides: &Strides,
    values: &mut [i32],
    states: &mut [u8],
) -> i32
    ensures { OnHeld handle.old.grid.held handle.new.grid.held result ((values.new ≡ values.old) × (states.new ≡ states.old)) (λ g h. (h ≡ g)
        × ReadsBoxOf kinds.I32 number_at corners.now strides.now g values.old values.new states.old states.new result) }
{
    let Some(grid) = handle.grid.grid_mut() else {
        return EMPTY;
    };
    read_i32(grid, corners, strides, values, states, &mut handle.steps)
}

/// Returns the box of two corners: `None` if they aren't in order, or an array doesn't fit the box.
pub(crate) fn bounds_beside(
    corners: &Corners,
    strides: &Strides,
    values: usize,
    states: usize,
) -> Option<Bounds>
    ensures value { result ≡ box_beside corners.now strides.now values states }
    ensures apart { IfSome result (λ box. IsTrue (are_voxels_apart box strides.now)) }
    ensures values { IfSome result (λ box. IsTrue (has_a_place box strides.now values)) }
    ensures states { IfSome result (λ box. IsTrue (has_a_place box strides.now states)) }
{
    let bounds = bounds(corners)?;
    if are_apart(bounds, strides)
        && (has_places(bounds, strides, values) && has_places(bounds, strides, states))
    {
        return Some(bounds);
    }
    None
}

/// Writes the value and the state of each voxel of a box to its elements.
pub(crate) fn read(
    grid: &AnyGrid,
    bounds: Bounds,
    strides: &Strides,
    values: &mut [i64],
    states: &mut [u8],
    steps: &mut Steps,
)
    requires apart { IsTrue (are_voxels_apart bounds strides.now) }
    requires values { IsTrue (has_a_place bounds strides.now (length values.old)) }
    requires states { IsTrue (has_a_place bounds strides.now (length states.old)) }
    ensures values { IsLaid bounds strides.now (is_inside bounds) (number_at (grid_field grid.now)) values.old values.new }
    ensures states { IsLaid bounds strides.now (is_inside bounds) (byte_at (grid_field grid.now)) states.old states.new }
{
    let _ = bounds.min(); // the proof learns from it that each voxel is in range
    match grid {
        AnyGrid::Bool(held) => {
            read_box::<bool, i64, AsNumber>(held.tree(), bounds, strides, values, states, steps)
        }
        AnyGrid::I32(held) => {
            read_box::<i32, i64, AsNumber>(held.tree(), bounds, strides, values, states, steps)
        }
        AnyGrid::I64(held) => {
            read_box::<i64, i64, AsValue>(held.tree(), bounds, strides, values, states, steps)
        }
    }
}

/// Writes the value and the state of each voxel of a box of a grid of booleans to its elements.
#[tactic(auto, unfolding(crate::specs::BoxArrays::ReadsBoxOf))]
pub(crate) fn read_bool(
    grid: &AnyGrid,
    corners: &Corners,
    strides: &Strides,
    values: &mut [u8],
    states: &mut [u8],
    steps: &mut Steps,
) -> i32
    ensures { ReadsBoxOf kinds.Bool bool_at corners.now strides.now grid.now values.old values.new states.old states.new result }
{
    let Some(bounds) = bounds_beside(corners, strides, values.len(), states.len()) else {
        return OUT_OF_RANGE;
    };
    let _ = bounds.min(); // the proof learns from it that each voxel is in range
    match grid {
        AnyGrid::Bool(held) => {
            read_box::<bool, u8, AsByte>(held.tree(), bounds, strides, values, states, steps);
            DONE
        }
        AnyGrid::I32(_) => OTHER_KIND,
        AnyGrid::I64(_) => OTHER_KIND,
    }
}

/// Writes the value and the state of each voxel of a box of a grid of numbers of 32 bits to its elements.
#[tactic(auto, unfolding(crate::specs::BoxArrays::ReadsBoxOf))]
pub(crate) fn read_i32(
    grid: &AnyGrid,
    corners: &Corners,
    strides: &Strides,
    values: &mut [i32],
    states: &mut [u8],
    steps: &mut Steps,
) -> i32
    ensures { ReadsBoxOf kinds.I32 number_at corners.now strides.now grid.now values.old values.new states.old states.new result }
{
    let Some(bounds) = bounds_beside(corners, strides, values.len(), states.len()) else {
        return OUT_OF_RANGE;
    };
    let _ = bounds.min(); // the proof learns from it that each voxel is in range
    match grid {
        AnyGrid::I32(held) => {
            read_box::<i32, i32, AsValue>(held.tree(), bounds, strides, values, states, steps);
            DONE
        }
        AnyGrid::Bool(_) => OTHER_KIND,
        AnyGrid::I64(_) => OTHER_KIND,
    }
}
