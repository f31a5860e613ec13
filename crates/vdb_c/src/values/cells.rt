//! The number and the state of a voxel, as they cross to C.
ghost use Rattle.std.specs.Prelude.{◌≡◌, ◌<◌, ℕ, IfSome, IsSome, None, Some};
ghost use Rattle.vdb_coord.specs.Blocks.{vdb};
ghost use Rattle.vdb_tree.specs.Layout.{field_of};
ghost use Rattle.vdb_scene.specs.Grids.{HasSameTree, grid_field};
ghost use Rattle.vdb_c.specs.Values.{accessor_of, value_number as number_of_value};

use crate::values::accessor;
use crate::values::numbers::Number;
use vdb_coord::Coord;
use vdb_grid::Grid;
use vdb_pool::Steps;
use vdb_scene::{ACCESSORS, AnyGrid};
use vdb_value::Cell;

/// Returns the number and the state of a voxel without an accessor: by the leaf of the last voxel that was read so, if it holds this one,
/// else by the descent. No accessor changes.
#[inline(always)]
pub(crate) fn get(grid: &mut AnyGrid, at: Coord, steps: &mut Steps) -> Cell<i64>
    ensures value { result.value ≡ number_of_value ((grid_field grid.old).cell at).value }
    ensures state { result.on ≡ ((grid_field grid.old).cell at).on }
    ensures kept { grid.new ≡ grid.old }
{
    match near_cell(grid, -1, at, steps) {
        Some(cell) => cell,
        None => go_to(grid, None, at, steps),
    }
}

/// Returns the number and the state of a voxel. The accessor, if one is named, then caches the path to the voxel.
#[inline(always)]
pub(crate) fn go_to(
    grid: &mut AnyGrid,
    accessor: Option<usize>,
    at: Coord,
    steps: &mut Steps,
) -> Cell<i64>
    requires { (k : ℕ) → accessor ≡ Some k → k < ACCESSORS }
    ensures value { result.value ≡ number_of_value ((grid_field grid.old).cell at).value }
    ensures state { result.on ≡ ((grid_field grid.old).cell at).on }
    ensures tree { HasSameTree grid.old grid.new }
    ensures kept { accessor ≡ None → grid.new ≡ grid.old }
{
    match grid {
        AnyGrid::Bool(held) => far_number(held, accessor, at, steps),
        AnyGrid::I32(held) => far_number(held, accessor, at, steps),
        AnyGrid::I64(held) => far_number(held, accessor, at, steps),
    }
}

/// Returns the number and the state of a voxel of a grid of one type. The accessor, if one is named, then caches the path to the voxel.
#[inline(always)]
fn far_number<V: Number>(
    grid: &mut Grid<V, ACCESSORS>,
    accessor: Option<usize>,
    at: Coord,
    steps: &mut Steps,
) -> Cell<i64>
    requires { (k : ℕ) → accessor ≡ Some k → k < ACCESSORS }
    ensures value { result.value ≡ V.number_of ((field_of vdb grid.old.tree).cell at).value }
    ensures state { result.on ≡ ((field_of vdb grid.old.tree).cell at).on }
    ensures tree { grid.new.tree ≡ grid.old.tree }
    ensures kept { accessor ≡ None → grid.new ≡ grid.old }
{
    numbered(far_cell(grid, accessor, at, steps))
}

/// Returns the cell with its value as a number.
#[inline(always)]
fn numbered<V: Number>(cell: Cell<V>) -> Cell<i64>
    ensures value { result.value ≡ V.number_of cell.value }
    ensures state { result.on ≡ cell.on }
{
    Cell {
        value: cell.value.number(),
        on: cell.on,
    }
}

/// Returns the cell of a voxel of a grid of one type. The accessor, if one is named, then caches the path to the voxel.
#[inline(always)]
fn far_cell<V: Number>(
    grid: &mut Grid<V, ACCESSORS>,
    accessor: Option<usize>,
    at: Coord,
    steps: &mut Steps,
) -> Cell<V>
    requires { (k : ℕ) → accessor ≡ Some k → k < ACCESSORS }
    ensures cell { result ≡ (field_of vdb grid.old.tree).cell at }
    ensures tree { grid.new.tree ≡ grid.old.tree }
    ensures kept { accessor ≡ None → grid.new ≡ grid.old }
{
    match accessor {
        Some(k) => grid.go_to(k, at, steps),
        None => grid.far_get(at, steps),
    }
}

/// Returns the number and the state of a voxel, if the leaf that ends the path of an accessor holds it or, without an accessor, that of
/// the last voxel that was read so.
#[inline(always)]
pub(crate) fn near_cell(
    grid: &AnyGrid,
    number: i32,
    at: Coord,
    steps: &mut Steps,
) -> Option<Cell<i64>>
    ensures valid { IfSome result (λ cell. IsSome (accessor_of number)) }
    ensures value { IfSome result (λ cell. cell.value ≡ number_of_value ((grid_field grid.now).cell at).value) }
    ensures state { IfSome result (λ cell. cell.on ≡ ((grid_field grid.now).cell at).on) }
{
    let accessor = accessor(number)?;
    match grid {
        AnyGrid::Bool(held) => near_number(held, accessor, at, steps),
        AnyGrid::I32(held) => near_number(held, accessor, at, steps),
        AnyGrid::I64(held) => near_number(held, accessor, at, steps),
    }
}

/// Returns the number and the state of a voxel of a grid of one type, if that leaf holds it.
#[inline(always)]
fn near_number<V: Number>(
    grid: &Grid<V, ACCESSORS>,
    accessor: Option<usize>,
    at: Coord,
    steps: &mut Steps,
) -> Option<Cell<i64>>
    requires { (k : ℕ) → accessor ≡ Some k → k < ACCESSORS }
    ensures value { IfSome result (λ cell. cell.value ≡ V.number_of ((field_of vdb grid.now.tree).cell at).value) }
    ensures state { IfSome result (λ cell. cell.on ≡ ((field_of vdb grid.now.tree).cell at).on) }
{
    match accessor {
        Some(k) => Some(numbered(grid.near_cell(k, at, steps)?)),
        None => Some(numbered(grid.near_get(at, steps)?)),
    }
}
