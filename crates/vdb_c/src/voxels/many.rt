//! Calls on many voxels, given by their coordinates.
ghost use Rattle.std.specs.Prelude.{◌≡◌, ◌<◌, ◌↔◌, ◌⊎◌, ℕ, IfSome, IsSome, IsTrue, None, Some, ⊤, false, length};
ghost use Rattle.vdb_coord.specs.Blocks.{vdb};
ghost use Rattle.vdb_scene.specs.Grids.{HasSameTree, grid_field};
ghost use Rattle.vdb_tree.specs.Field.{as_field_of};
ghost use Rattle.vdb_tree.specs.Layout.{field_of};
ghost use Rattle.vdb_tree.specs.Paths.{Lives};
ghost use Rattle.vdb_value.specs.declared.Kind.TheVariants.{I64};
ghost use Rattle.vdb_c.specs.Calls.{IsWriteFor, OnHeld, OnValid, ReadsBy, grid_kind};
ghost use Rattle.vdb_c.specs.Many.{IsReadAt, WritesFirst, WritesFirstIn, WritesMany, accessor_beside, byte_at, change_at as change_of_element, change_of as change_of_parts, is_beside, number_at, voxel_at};
ghost use Rattle.vdb_c.specs.Values.{state_byte};

use crate::codes::{DONE, EMPTY, OUT_OF_RANGE, tree_code};
use crate::handles::GridHandle;
use crate::values::numbers::Number;
use crate::values::{Corner, accessor, coord, is_byte_on, value, value_number};
use crate::voxels::arrays::store;
use crate::voxels::element_writes::write_element;
use vdb_coord::Coord;
use vdb_grid::Grid;
use vdb_pool::Steps;
use vdb_scene::{ACCESSORS, AnyGrid, Scalar};
use vdb_tree::{Path, Tree, Write};
use vdb_value::{Cell, Kind};

/// Writes the value and the state of each voxel of `at` to `values` and `states`, through an accessor or, with -1, without one.
/// Each array has an element for each voxel, or is empty and not written.
#[unsafe(no_mangle)]
pub extern "C" fn vdb_grid_get_many(
    handle: &mut GridHandle,
    number: i32,
    at: &[Corner],
    values: &mut [i64],
    states: &mut [u8],
) -> i32
    ensures { OnHeld handle.old.grid.held handle.new.grid.held result ((values.new ≡ values.old) × (states.new ≡ states.old)) (λ g h.
        OnValid (accessor_beside number (length at.now) (length values.old) (length states.old)) g h result ((values.new ≡ values.old) × (states.new ≡ states.old)) (λ _.
        ReadsBy g h result (IsReadAt (number_at (grid_field g)) at.now values.old values.new × IsReadAt (byte_at (grid_field g)) at.now states.old states.new))) }
{
    let Some(grid) = handle.grid.grid_mut() else {
        return EMPTY;
    };
    let Some(accessor) = accessor_of_many(number, at.len(), values.len(), states.len()) else {
        return OUT_OF_RANGE;
    };
    read_many(grid, accessor, at, values, states, &mut handle.steps);
    DONE
}

/// Returns the accessor of a number, or none for -1: `None` if the number is out of range, or an array doesn't fit the voxels.
pub(crate) fn accessor_of_many(
    number: i32,
    count: usize,
    values: usize,
    states: usize,
) -> Option<Option<usize>>
    ensures { result ≡ accessor_beside number count values states }
{
    if is_beside_voxels(count, values) && is_beside_voxels(count, states) {
        return accessor(number);
    }
    None
}

/// Returns whether an array has an element for each voxel, or none.
fn is_beside_voxels(count: usize, len: usize) -> bool
    ensures { result ≡ is_beside count len }
{
    len == count || len == 0
}

/// Writes the value and the state of each voxel to arrays that fit the voxels. The tree stays, and the accessor caches the path to the
/// last voxel.
#[tactic(auto, using(crate::proofs::SameTrees::same_tree))]
fn read_many(
    grid: &mut AnyGrid,
    accessor: Option<usize>,
    at: &[Corner],
    values: &mut [i64],
    states: &mut [u8],
    steps: &mut Steps,
)
    requires within { (k : ℕ) → accessor ≡ Some k → k < ACCESSORS }
    requires values { IsTrue (is_beside (length at.now) (length values.old)) }
    requires states { IsTrue (is_beside (length at.now) (length states.old)) }
    ensures tree { HasSameTree grid.old grid.new }
    ensures values { IsReadAt (number_at (grid_field grid.old)) at.now values.old values.new }
    ensures states { IsReadAt (byte_at (grid_field grid.old)) at.now states.old states.new }
{
    read_cells(grid, at, values, states, steps);
    if at.len() > 0 {
        let last = coord(&at[at.len() - 1]);
        let _ = probe(grid, accessor, last, steps); // the accessor caches the path to it
    }
}

/// Returns the cell of a voxel through an accessor or without one. The tree stays.
fn probe(grid: &mut AnyGrid, accessor: Option<usize>, at: Coord, steps: &mut Steps) -> Cell<Scalar>
    requires { (k : ℕ) → accessor ≡ Some k → k < ACCESSORS }
    ensures cell { result ≡ (grid_field grid.old).cell at }
    ensures tree { HasSameTree grid.old grid.new }
{
    grid.probe(accessor, at, steps)
}

/// Writes the value and the state of each voxel to arrays that fit the voxels.
pub(crate) fn read_cells(
    grid: &AnyGrid,
    at: &[Corner],
    values: &mut [i64],
    states: &mut [u8],
    steps: &mut Steps,
)
    requires values { IsTrue (is_beside (length at.now) (length values.old)) }
    requires states { IsTrue (is_beside (length at.now) (length states.old)) }
    ensures values { IsReadAt (number_at (grid_field grid.now)) at.now values.old values.new }
    ensures states { IsReadAt (byte_at (grid_field grid.now)) at.now states.old states.new }
{
    match grid {
        AnyGrid::Bool(held) => read_voxels(held.tree(), at, values, states, steps),
        AnyGrid::I32(held) => read_voxels(held.tree(), at, values, states, steps),
        AnyGrid::I64(held) => read_voxels(held.tree(), at, values, states, steps),
    }
}

/// Writes the value and the state of each voxel of a tree to arrays that fit the voxels. It keeps the path to the last leaf, so that
/// the next voxel in it needs no descent (OpenVDB's `ValueAccessor::probeValue`).
fn read_voxels<V: Number>(
    tree: &Tree<V>,
    at: &[Corner],
    values: &mut [i64],
    states: &mut [u8],
    steps: &mut Steps,
)
    requires values { IsTrue (is_beside (length at.now) (length values.old)) }
    requires states { IsTrue (is_beside (length at.now) (length states.old)) }
    ensures values { IsReadAt (λ p. V.number_of ((field_of vdb tree.now).cell p).value) at.now values.old values.new }
    ensures states { IsReadAt (λ p. state_byte ((field_of vdb tree.now).cell p).on) at.now states.old states.new }
{
    let mut near = Coord { x: 0, y: 0, z: 0 };
    let mut path = Path::Empty;
    for k in 0..at.len() {
        let cell = read_near(tree, &mut path, &mut near, coord(&at[k]), steps);
        store(values, k, cell.value.number());
        store(states, k, u8::from(cell.on));
    }
}

/// Returns the cell of a voxel by the path to `near`. If the path ends in no leaf that holds the voxel, it then leads to the voxel.
#[inline(always)]
fn read_near<V: Number>(
    tree: &Tree<V>,
    path: &mut Path<V>,
    near: &mut Coord,
    p: Coord,
    steps: &mut Steps,
) -> Cell<V>
    requires { Lives vdb tree.now path.old near.old }
    ensures cell { result ≡ (field_of vdb tree.now).cell p }
    ensures lives { Lives vdb tree.now path.new near.new }
{
    match tree.cell_near(path, *near, p, steps) {
        Some(cell) => cell,
        None => {
            let cell = tree.descend(path, *near, p, steps);
            *near = p;
            cell
        }
    }
}

/// Sets the voxels of `at`, one after another, through an accessor or, with -1, without one: to the numbers of `values` and the
/// states of `states`. If one of these is empty, the voxels keep that part. It writes to `written` how many voxels it has set.
#[unsafe(no_mangle)]
pub extern "C" fn vdb_grid_write_many(
    handle: &mut GridHandle,
    number: i32,
    at: &[Corner],
    values: &[i64],
    states: &[u8],
    written: &mut usize,
) -> i32
    ensures { OnHeld handle.old.grid.held handle.new.grid.held result (written.new ≡ written.old) (λ g h.
        OnValid (accessor_beside number (length at.now) (length values.now) (length states.now)) g h result (written.new ≡ written.old) (λ _.
        WritesMany (length at.now) (voxel_at at.now) (change_of_element (grid_kind g) values.now states.now) g h written.old written.new result)) }
{
    let Some(grid) = handle.grid.grid_mut() else {
        return EMPTY;
    };
    let Some(accessor) = accessor_of_many(number, at.len(), values.len(), states.len()) else {
        return OUT_OF_RANGE;
    };
    write_many(
        grid,
        accessor,
        at,
        values,
        states,
        written,
        &mut handle.steps,
    )
}

/// Writes the voxels one after another, if each has a write.
#[tactic(auto, unfolding(crate::specs::Many::WritesMany))]
fn write_many(
    grid: &mut AnyGrid,
    accessor: Option<usize>,
    at: &[Corner],
    values: &[i64],
    states: &[u8],
    written: &mut usize,
    steps: &mut Steps,
) -> i32
    requires within { (k : ℕ) → accessor ≡ Some k → k < ACCESSORS }
    ensures { WritesMany (length at.now) (voxel_at at.now) (change_of_element (grid_kind grid.old) values.now states.now) grid.old grid.new written.old written.new result }
{
    match missing_change(grid.kind(), at.len(), values, states) {
        Some(_) => OUT_OF_RANGE,
        None => write_first(grid, accessor, at, values, states, written, steps),
    }
}

/// Returns the first voxel without a write, if any: its value isn't one of the type, or no array has an element for it.
fn missing_change(kind: Kind, count: usize, values: &[i64], states: &[u8]) -> Option<usize>
    ensures some { IfSome result (λ k. (k < count) × (change_of_element kind values.now states.now k ≡ None)) }
    ensures none { result ≡ None → (k : ℕ) → k < count → IsSome (change_of_element kind values.now states.now k) }
{
    if has_all_numbers(kind) && (count <= values.len() || count <= states.len()) {
        return None;
    }
    for k in 0..count {
        if change_at(kind, values, states, k).is_none() {
            return Some(k);
        }
    }
    None
}

/// Returns whether a type has each number.
pub(crate) fn has_all_numbers(kind: Kind) -> bool
    ensures { IsTrue result → kind ≡ I64 }
{
    match kind {
        Kind::I64 => true,
        _ => false,
    }
}

/// Returns the write of one element of each array.
#[inline(always)]
pub(crate) fn change_at(
    kind: Kind,
    values: &[i64],
    states: &[u8],
    k: usize,
) -> Option<Write<Scalar>>
    ensures write { result ≡ change_of_element kind values.now states.now k }
    ensures fits { IsWriteFor kind result }
{
    change_of(kind, values.get(k).copied(), states.get(k).copied())
}

/// Returns the write of a value, a state or both: `None` if neither is given or the type doesn't have the value.
#[inline(always)]
fn change_of(kind: Kind, number: Option<i64>, byte: Option<u8>) -> Option<Write<Scalar>>
    ensures write { result ≡ change_of_parts kind number byte }
    ensures fits { IsWriteFor kind result }
{
    let Some(number) = number else {
        return match byte {
            Some(byte) => Some(Write::State(is_byte_on(byte))),
            None => None,
        };
    };
    let value = value(kind, number)?;
    match byte {
        Some(byte) => Some(if is_byte_on(byte) {
            Write::On(value)
        } else {
            Write::Off(value)
        }),
        None => Some(Write::Value(value)),
    }
}

/// Writes the voxels one after another until a write fails.
fn write_first(
    grid: &mut AnyGrid,
    accessor: Option<usize>,
    at: &[Corner],
    values: &[i64],
    states: &[u8],
    written: &mut usize,
    steps: &mut Steps,
) -> i32
    requires within { (k : ℕ) → accessor ≡ Some k → k < ACCESSORS }
    requires given { (k : ℕ) → k < length at.now → IsSome (change_of_element (grid_kind grid.old) values.now states.now k) }
    ensures { WritesFirst (length at.now) (voxel_at at.now) (change_of_element (grid_kind grid.old) values.now states.now) grid.old grid.new written.new result }
{
    match grid {
        AnyGrid::Bool(held) => write_voxels(held, accessor, at, values, states, written, steps),
        AnyGrid::I32(held) => write_voxels(held, accessor, at, values, states, written, steps),
        AnyGrid::I64(held) => write_voxels(held, accessor, at, values, states, written, steps),
    }
}

/// Writes the voxels of a grid of one type, one after another, until a write fails.
#[tactic(auto, unfolding(crate::specs::Many::WritesFirstIn))]
fn write_voxels<V: Number>(
    grid: &mut Grid<V, ACCESSORS>,
    accessor: Option<usize>,
    at: &[Corner],
    values: &[i64],
    states: &[u8],
    written: &mut usize,
    steps: &mut Steps,
) -> i32
    requires within { (k : ℕ) → accessor ≡ Some k → k < ACCESSORS }
    requires given { (k : ℕ) → k < length at.now → IsSome (change_of_element V.KIND values.now states.now k) }
    ensures { WritesFirstIn (length at.now) (voxel_at at.now) (change_of_element V.KIND values.now states.now) grid.old.tree.limit grid.new.tree.limit
        (as_field_of V.as_scalar (field_of vdb grid.old.tree)) (as_field_of V.as_scalar (field_of vdb grid.new.tree)) written.new result }
{
    for k in 0..at.len() {
        let outcome = write_element(grid, accessor, coord(&at[k]), values, states, k, steps);
        if outcome.is_err() {
            *written = k;
            return tree_code(outcome);
        }
    }
    *written = at.len();
    DONE
}
