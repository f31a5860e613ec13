//! Calls on the leaves of a grid.
ghost use Rattle.std.specs.Prelude.{◌≡◌, IsTrue, None, Some, length};
ghost use Rattle.vdb_coord.specs.Space.{coord};
ghost use Rattle.vdb_scene.specs.Grids.{grid_field};
ghost use Rattle.vdb_c.specs.Calls.{OnHeld, Reads};
ghost use Rattle.vdb_c.specs.Leaves.{AreNextLeaves, CopiesLeaves, HasRows, IsNextLeafOf, IsValueOf, IsWordOf, has_rows as has_a_row, is_room as is_room_for, leaf_count};
ghost use Rattle.vdb_c.specs.Many.{number_at, voxel_at};

pub(crate) mod rows;

use crate::codes::{DONE, EMPTY, OUT_OF_RANGE};
use crate::handles::GridHandle;
use crate::leaves::rows::{copy_leaves, has_rows};
use crate::values::Corner;
use vdb_coord::Coord;
use vdb_pool::Steps;
use vdb_scene::AnyGrid;

/// Writes the number of leaves of the grid's tree to `count`.
#[unsafe(no_mangle)]
pub extern "C" fn vdb_grid_leaf_count(handle: &mut GridHandle, count: &mut u64) -> i32
    ensures { OnHeld handle.old.grid.held handle.new.grid.held result (count.new ≡ count.old) (λ g h. Reads g h result (count.new ≡ leaf_count g)) }
{
    let Some(grid) = handle.grid.grid_mut() else {
        return EMPTY;
    };
    *count = count_leaves(grid);
    DONE
}

/// Returns the number of leaves of the grid's tree.
pub(crate) fn count_leaves(grid: &AnyGrid) -> u64
    ensures { result ≡ leaf_count grid.now }
{
    match grid {
        AnyGrid::Bool(held) => held.tree().node_counts().leaf,
        AnyGrid::I32(held) => held.tree().node_counts().leaf,
        AnyGrid::I64(held) => held.tree().node_counts().leaf,
    }
}

/// Copies the first leaves in block order: to each element of `origins` the first coordinate of one, and to the row of that number its
/// 512 values and its 8 words of states. `values` or `states` may be empty, and is then not written. It writes to `copied` how many it copied.
#[unsafe(no_mangle)]
pub extern "C" fn vdb_grid_first_leaves(
    handle: &mut GridHandle,
    origins: &mut [Corner],
    values: &mut [i64],
    states: &mut [u64],
    copied: &mut usize,
) -> i32
    ensures { OnHeld handle.old.grid.held handle.new.grid.held result ((copied.new ≡ copied.old) × (origins.new ≡ origins.old) × (values.new ≡ values.old) × (states.new ≡ states.old)) (λ g h. (h ≡ g)
        × CopiesLeaves g None copied.old copied.new origins.old origins.new values.old values.new states.old states.new result) }
{
    let Some(grid) = handle.grid.grid_mut() else {
        return EMPTY;
    };
    copy_past(
        grid,
        None,
        origins,
        values,
        states,
        copied,
        &mut handle.steps,
    )
}

/// Copies the leaves that begin past a coordinate in block order, such as past the first coordinate of the last leaf copied.
#[unsafe(no_mangle)]
pub extern "C" fn vdb_grid_next_leaves(
    handle: &mut GridHandle,
    x: i32,
    y: i32,
    z: i32,
    origins: &mut [Corner],
    values: &mut [i64],
    states: &mut [u64],
    copied: &mut usize,
) -> i32
    ensures { OnHeld handle.old.grid.held handle.new.grid.held result ((copied.new ≡ copied.old) × (origins.new ≡ origins.old) × (values.new ≡ values.old) × (states.new ≡ states.old)) (λ g h. (h ≡ g)
        × CopiesLeaves g (Some (coord x y z)) copied.old copied.new origins.old origins.new values.old values.new states.old states.new result) }
{
    let Some(grid) = handle.grid.grid_mut() else {
        return EMPTY;
    };
    copy_past(
        grid,
        Some(Coord { x, y, z }),
        origins,
        values,
        states,
        copied,
        &mut handle.steps,
    )
}

/// Copies the leaves past a coordinate, or the first ones, if there is room.
#[tactic(auto, unfolding(crate::specs::Leaves::CopiesLeaves))]
pub(crate) fn copy_past(
    grid: &AnyGrid,
    after: Option<Coord>,
    origins: &mut [Corner],
    values: &mut [i64],
    states: &mut [u64],
    copied: &mut usize,
    steps: &mut Steps,
) -> i32
    ensures { CopiesLeaves grid.now after copied.old copied.new origins.old origins.new values.old values.new states.old states.new result }
{
    if !is_room(origins.len(), values.len(), states.len()) {
        return OUT_OF_RANGE;
    }
    *copied = copy(grid, after, origins, values, states, steps);
    DONE
}

/// Returns whether there is room for a leaf, and both arrays fit the room.
fn is_room(count: usize, values: usize, states: usize) -> bool
    ensures same { result ≡ is_room_for count values states }
    ensures values { IsTrue result → IsTrue (has_a_row 512 count values) }
    ensures states { IsTrue result → IsTrue (has_a_row 8 count states) }
{
    count != 0 && (has_rows(512, count, values) && has_rows(8, count, states))
}

/// Copies leaves of a grid into arrays that have a row for each.
fn copy(
    grid: &AnyGrid,
    after: Option<Coord>,
    origins: &mut [Corner],
    values: &mut [i64],
    states: &mut [u64],
    steps: &mut Steps,
) -> usize
    requires values { IsTrue (has_a_row 512 (length origins.old) (length values.old)) }
    requires states { IsTrue (has_a_row 8 (length origins.old) (length states.old)) }
    ensures leaves { AreNextLeaves (IsNextLeafOf grid.now) after result origins.old origins.new }
    ensures values { HasRows 512 result (λ k. IsValueOf (number_at (grid_field grid.now)) (voxel_at origins.new k)) values.old values.new }
    ensures states { HasRows 8 result (λ k. IsWordOf (λ q. ((grid_field grid.now).cell q).on) (voxel_at origins.new k)) states.old states.new }
{
    match grid {
        AnyGrid::Bool(held) => copy_leaves(held.tree(), after, origins, values, states, steps),
        AnyGrid::I32(held) => copy_leaves(held.tree(), after, origins, values, states, steps),
        AnyGrid::I64(held) => copy_leaves(held.tree(), after, origins, values, states, steps),
    }
}
