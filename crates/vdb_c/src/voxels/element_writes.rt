//! Writes of one voxel from one element of each of two arrays.
ghost use Rattle.std.specs.Option.{option_map};
ghost use Rattle.std.specs.Prelude.{◌≡◌, ◌<◌, ℕ, IsSome, IsTrue, Ok, Some, false};
ghost use Rattle.vdb_coord.specs.Blocks.{vdb};
ghost use Rattle.vdb_tree.specs.Field.{as_field_of, as_write_of};
ghost use Rattle.vdb_tree.specs.Layout.{field_of};
ghost use Rattle.vdb_c.specs.Calls.{IsWrittenBy};
ghost use Rattle.vdb_c.specs.Many.{change_at as change_of_element, change_of as change_of_parts};

use crate::values::is_byte_on;
use crate::values::numbers::Number;
use crate::voxels::arrays::element;
use crate::voxels::many::change_at;
use vdb_coord::Coord;
use vdb_grid::Grid;
use vdb_pool::Steps;
use vdb_scene::{ACCESSORS, write_voxel};
use vdb_tree::{TreeRefusal, Write};

/// Writes one element of each array to a voxel, if they have a write: a value, a state or both. It first tries the leaf that ends the
/// accessor's path.
#[inline(always)]
pub(crate) fn write_element<V: Number>(
    grid: &mut Grid<V, ACCESSORS>,
    accessor: Option<usize>,
    at: Coord,
    values: &[i64],
    states: &[u8],
    index: usize,
    steps: &mut Steps,
) -> Result<(), TreeRefusal>
    requires within { (k : ℕ) → accessor ≡ Some k → k < ACCESSORS }
    ensures outcome { IsSome (change_of_element V.KIND values.now states.now index) → IsWrittenBy grid.old.tree.limit at (change_of_element V.KIND values.now states.now index) (as_field_of V.as_scalar (field_of vdb grid.old.tree)) (as_field_of V.as_scalar (field_of vdb grid.new.tree)) result }
    ensures limit { grid.new.tree.limit ≡ grid.old.tree.limit }
{
    if is_written_near(grid, accessor, at, values, states, index, steps) {
        return Ok(());
    }
    write_far(grid, accessor, copied(at), values, states, index, steps)
}

/// Writes the elements to a voxel, if the leaf that ends the accessor's path holds it. Returns whether it does; if not, nothing changes.
#[inline(always)]
fn is_written_near<V: Number>(
    grid: &mut Grid<V, ACCESSORS>,
    accessor: Option<usize>,
    at: Coord,
    values: &[i64],
    states: &[u8],
    index: usize,
    steps: &mut Steps,
) -> bool
    requires within { (k : ℕ) → accessor ≡ Some k → k < ACCESSORS }
    ensures written { IsTrue result → IsWrittenBy grid.old.tree.limit at (change_of_element V.KIND values.now states.now index) (as_field_of V.as_scalar (field_of vdb grid.old.tree)) (as_field_of V.as_scalar (field_of vdb grid.new.tree)) (Ok tt) }
    ensures limit { grid.new.tree.limit ≡ grid.old.tree.limit }
    ensures untouched { result ≡ false → grid.new ≡ grid.old }
{
    let Some(k) = accessor else {
        return false;
    };
    let Some(change) = element_write(values, states, index) else {
        return false;
    };
    // a call for each variant: the compiler then knows which parts of the cell stay
    match change {
        Write::On(value) => grid.write_in_leaf(k, at, Write::On(value), steps),
        Write::Off(value) => grid.write_in_leaf(k, at, Write::Off(value), steps),
        Write::State(on) => grid.write_in_leaf(k, at, Write::State(on), steps),
        Write::Value(value) => grid.write_in_leaf(k, at, Write::Value(value), steps),
    }
}

/// Moves the accessor to a voxel, and writes the elements to it, if a leaf holds it. Returns whether one does; if not, no node changes.
#[inline(always)]
fn is_written_beside<V: Number>(
    grid: &mut Grid<V, ACCESSORS>,
    accessor: Option<usize>,
    at: Coord,
    values: &[i64],
    states: &[u8],
    index: usize,
    steps: &mut Steps,
) -> bool
    requires within { (k : ℕ) → accessor ≡ Some k → k < ACCESSORS }
    ensures written { IsTrue result → IsWrittenBy grid.old.tree.limit at (change_of_element V.KIND values.now states.now index) (as_field_of V.as_scalar (field_of vdb grid.old.tree)) (as_field_of V.as_scalar (field_of vdb grid.new.tree)) (Ok tt) }
    ensures limit { grid.new.tree.limit ≡ grid.old.tree.limit }
    ensures untouched { result ≡ false → grid.new.tree ≡ grid.old.tree }
{
    let Some(k) = accessor else {
        return false;
    };
    let _ = grid.go_to(k, copied(at), steps);
    is_written_near(grid, accessor, at, values, states, index, steps)
}

/// Writes the elements to a voxel, if they have a write, by the descent from the lowest node of the accessor's path that contains it, or
/// from the root.
#[inline(never)]
fn write_far<V: Number>(
    grid: &mut Grid<V, ACCESSORS>,
    accessor: Option<usize>,
    at: Coord,
    values: &[i64],
    states: &[u8],
    index: usize,
    steps: &mut Steps,
) -> Result<(), TreeRefusal>
    requires within { (k : ℕ) → accessor ≡ Some k → k < ACCESSORS }
    ensures outcome { IsSome (change_of_element V.KIND values.now states.now index) → IsWrittenBy grid.old.tree.limit at (change_of_element V.KIND values.now states.now index) (as_field_of V.as_scalar (field_of vdb grid.old.tree)) (as_field_of V.as_scalar (field_of vdb grid.new.tree)) result }
    ensures limit { grid.new.tree.limit ≡ grid.old.tree.limit }
{
    if is_written_beside(grid, accessor, copied(at), values, states, index, steps) {
        return Ok(());
    }
    let Some(change) = change_at(V::KIND, values, states, index) else {
        return Ok(());
    };
    write_voxel(grid, accessor, at, change, steps)
}

/// Returns the write of one element of each array: `None` if neither has it, or the type doesn't have the number.
#[inline(always)]
pub(crate) fn element_write<V: Number>(
    values: &[i64],
    states: &[u8],
    index: usize,
) -> Option<Write<V>>
    ensures { option_map (as_write_of V.as_scalar) result ≡ change_of_element V.KIND values.now states.now index }
{
    let number = element(values, index);
    let byte = element(states, index);
    write_of(number, byte)
}

/// Returns the write of a number, a state or both: `None` if neither is given, or the type doesn't have the number.
#[inline(always)]
fn write_of<V: Number>(number: Option<i64>, byte: Option<u8>) -> Option<Write<V>>
    ensures { option_map (as_write_of V.as_scalar) result ≡ change_of_parts V.KIND number byte }
{
    let Some(number) = number else {
        return match byte {
            Some(byte) => Some(Write::State(is_byte_on(byte))),
            None => None,
        };
    };
    let value = V::of_number(number)?;
    match byte {
        Some(byte) => Some(if is_byte_on(byte) {
            Write::On(value)
        } else {
            Write::Off(value)
        }),
        None => Some(Write::Value(value)),
    }
}

/// Returns the same coordinate, made from its components. A call takes a coordinate by its address: one that is made for a call alone
/// leaves the other in registers.
#[inline(always)]
fn copied(p: Coord) -> Coord
    ensures { result ≡ p }
{
    let Coord { x, y, z } = p;
    Coord { x, y, z }
}
