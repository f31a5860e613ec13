//! A box of voxels written from arrays.
ghost use Rattle.std.specs.Int.{int_gap};
ghost use Rattle.std.specs.Prelude.{◌≡◌, ◌+◌, ◌<◌, ◌^◌, ◌⊎◌, ℕ, IfSome, IsSome, IsTrue, None, Some, length};
ghost use Rattle.vdb_coord.specs.Blocks.{vdb};
ghost use Rattle.vdb_coord.specs.Space.{is_inside};
ghost use Rattle.vdb_coord.specs.declared.Coord.{Coord};
ghost use Rattle.vdb_tree.specs.Field.{as_field_of};
ghost use Rattle.vdb_tree.specs.Layout.{field_of};
ghost use Rattle.vdb_c.specs.BoxWrites.{WritesBox, WritesBoxUpTo, WritesBoxUpToIn, along_z, box_written, change_of_voxel};
ghost use Rattle.vdb_c.specs.Calls.{OnHeld, OnValid, grid_kind};
ghost use Rattle.vdb_c.specs.Elements.{are_apart as are_voxels_apart, place as place_of};
ghost use Rattle.vdb_c.specs.Many.{WritesFirstIn};
ghost use Rattle.vdb_c.specs.Values.{accessor_of};

use crate::boxes::arrays::bounds_beside;
use crate::boxes::elements::{Strides, place};
use crate::boxes::leaf_writes::write_leaves;
use crate::boxes::voxels::{next_voxel, row_end, row_size};
use crate::codes::{DONE, EMPTY, OUT_OF_RANGE, tree_code};
use crate::handles::GridHandle;
use crate::values::numbers::Number;
use crate::values::{Corners, accessor};
use crate::voxels::element_writes::write_element;
use crate::voxels::many::{change_at, has_all_numbers};
use vdb_coord::{Bounds, Coord};
use vdb_grid::Grid;
use vdb_pool::Steps;
use vdb_scene::{ACCESSORS, AnyGrid};
use vdb_value::Kind;

/// Sets each voxel of a box to its elements of `values` and `states`, by x, then y, then z, through an accessor or, with -1, without
/// one. If one of the arrays is empty, the voxels keep that part. It writes to `written` how many voxels it has set.
#[unsafe(no_mangle)]
pub extern "C" fn vdb_grid_write_box(
    handle: &mut GridHandle,
    number: i32,
    corners: &Corners,
    strides: &Strides,
    values: &[i64],
    states: &[u8],
    written: &mut usize,
) -> i32
    ensures { OnHeld handle.old.grid.held handle.new.grid.held result (written.new ≡ written.old) (λ g h.
        OnValid (accessor_of number) g h result (written.new ≡ written.old) (λ _.
        OnValid (box_written corners.now strides.now (length values.now) (length states.now)) g h result (written.new ≡ written.old) (λ box.
        WritesBox box (change_of_voxel (grid_kind g) box strides.now values.now states.now) g h written.old written.new result))) }
{
    let Some(grid) = handle.grid.grid_mut() else {
        return EMPTY;
    };
    let Some(accessor) = accessor(number) else {
        return OUT_OF_RANGE;
    };
    let Some(bounds) = bounds_written(corners, strides, values.len(), states.len()) else {
        return OUT_OF_RANGE;
    };
    write_box(
        grid,
        accessor,
        bounds,
        strides,
        values,
        states,
        written,
        &mut handle.steps,
    )
}

/// Returns the box of two corners: `None` if they aren't in order, an array doesn't fit the box, or both are empty.
fn bounds_written(
    corners: &Corners,
    strides: &Strides,
    values: usize,
    states: usize,
) -> Option<Bounds>
    ensures value { result ≡ box_written corners.now strides.now values states }
    ensures apart { IfSome result (λ box. IsTrue (are_voxels_apart box strides.now)) }
    ensures reach { IfSome result (λ box. place_of box strides.now box.max + 1 < 2 ^ 64) }
{
    if values == 0 && states == 0 {
        return None;
    }
    let bounds = bounds_beside(corners, strides, values, states)?;
    Some(bounds)
}

/// Writes the voxels of a box, if each has a write.
#[tactic(auto, unfolding(crate::specs::BoxWrites::WritesBox))]
fn write_box(
    grid: &mut AnyGrid,
    accessor: Option<usize>,
    bounds: Bounds,
    strides: &Strides,
    values: &[i64],
    states: &[u8],
    written: &mut usize,
    steps: &mut Steps,
) -> i32
    requires within { (k : ℕ) → accessor ≡ Some k → k < ACCESSORS }
    requires apart { IsTrue (are_voxels_apart bounds strides.now) }
    requires reach { place_of bounds strides.now bounds.max + 1 < 2 ^ 64 }
    ensures { WritesBox bounds (change_of_voxel (grid_kind grid.old) bounds strides.now values.now states.now) grid.old grid.new written.old written.new result }
{
    match missing_voxel(grid.kind(), bounds, strides, values, states) {
        Some(_) => OUT_OF_RANGE,
        None => write_voxels(
            grid, accessor, bounds, strides, values, states, written, steps,
        ),
    }
}

/// Returns the first voxel of a box without a write, if any: its value isn't one of the type, or no array has an element for it.
fn missing_voxel(
    kind: Kind,
    bounds: Bounds,
    strides: &Strides,
    values: &[i64],
    states: &[u8],
) -> Option<Coord>
    requires { place_of bounds strides.now bounds.max + 1 < 2 ^ 64 }
    ensures some { IfSome result (λ p. IsTrue (is_inside bounds p) × (change_of_voxel kind bounds strides.now values.now states.now p ≡ None)) }
    ensures none { result ≡ None → (p : Coord) → IsTrue (is_inside bounds p) → IsSome (change_of_voxel kind bounds strides.now values.now states.now p) }
{
    let last = place(bounds, strides, bounds.max());
    if has_all_numbers(kind) && (last < values.len() || last < states.len()) {
        return None;
    }
    let mut p = bounds.min();
    'voxels: loop {
        let index = place(bounds, strides, p);
        if change_at(kind, values, states, index).is_none() {
            return Some(p);
        }
        match next_voxel(bounds, p) {
            Some(next) => p = next,
            None => return None,
        }
    }
}

/// Writes the voxels of a box one after another until a write fails.
fn write_voxels(
    grid: &mut AnyGrid,
    accessor: Option<usize>,
    bounds: Bounds,
    strides: &Strides,
    values: &[i64],
    states: &[u8],
    written: &mut usize,
    steps: &mut Steps,
) -> i32
    requires within { (k : ℕ) → accessor ≡ Some k → k < ACCESSORS }
    requires apart { IsTrue (are_voxels_apart bounds strides.now) }
    requires reach { place_of bounds strides.now bounds.max + 1 < 2 ^ 64 }
    requires given { (p : Coord) → IsTrue (is_inside bounds p) → IsSome (change_of_voxel (grid_kind grid.old) bounds strides.now values.now states.now p) }
    ensures { WritesBoxUpTo bounds (change_of_voxel (grid_kind grid.old) bounds strides.now values.now states.now) grid.old grid.new written.new result }
{
    match grid {
        AnyGrid::Bool(held) => write_cells(
            held, accessor, bounds, strides, values, states, written, steps,
        ),
        AnyGrid::I32(held) => write_cells(
            held, accessor, bounds, strides, values, states, written, steps,
        ),
        AnyGrid::I64(held) => write_cells(
            held, accessor, bounds, strides, values, states, written, steps,
        ),
    }
}

/// Writes the voxels of a box of a grid of one type: a wide box leaf by leaf. If that fails, or the box isn't wide, it writes row by row
/// up to the first write that fails.
#[tactic(auto, unfolding(crate::specs::BoxWrites::WritesBoxUpToIn))]
fn write_cells<V: Number>(
    grid: &mut Grid<V, ACCESSORS>,
    accessor: Option<usize>,
    bounds: Bounds,
    strides: &Strides,
    values: &[i64],
    states: &[u8],
    written: &mut usize,
    steps: &mut Steps,
) -> i32
    requires within { (k : ℕ) → accessor ≡ Some k → k < ACCESSORS }
    requires apart { IsTrue (are_voxels_apart bounds strides.now) }
    requires reach { place_of bounds strides.now bounds.max + 1 < 2 ^ 64 }
    requires given { (p : Coord) → IsTrue (is_inside bounds p) → IsSome (change_of_voxel V.KIND bounds strides.now values.now states.now p) }
    ensures { WritesBoxUpToIn bounds (change_of_voxel V.KIND bounds strides.now values.now states.now) grid.old.tree.limit grid.new.tree.limit
        (as_field_of V.as_scalar (field_of vdb grid.old.tree)) (as_field_of V.as_scalar (field_of vdb grid.new.tree)) written.new result }
{
    if write_leaves(grid, bounds, strides, values, states, steps) {
        let _ = bounds.max(); // the proof learns from it that the corners are in order
        *written = bounds.volume() as usize;
        return DONE;
    }
    write_rows(
        grid, accessor, bounds, strides, values, states, written, steps,
    )
}

/// Writes the voxels of a box of a grid of one type, row by row, until a write fails.
#[tactic(auto, unfolding(crate::specs::BoxWrites::WritesBoxUpToIn))]
fn write_rows<V: Number>(
    grid: &mut Grid<V, ACCESSORS>,
    accessor: Option<usize>,
    bounds: Bounds,
    strides: &Strides,
    values: &[i64],
    states: &[u8],
    written: &mut usize,
    steps: &mut Steps,
) -> i32
    requires within { (k : ℕ) → accessor ≡ Some k → k < ACCESSORS }
    requires apart { IsTrue (are_voxels_apart bounds strides.now) }
    requires reach { place_of bounds strides.now bounds.max + 1 < 2 ^ 64 }
    requires given { (p : Coord) → IsTrue (is_inside bounds p) → IsSome (change_of_voxel V.KIND bounds strides.now values.now states.now p) }
    ensures { WritesBoxUpToIn bounds (change_of_voxel V.KIND bounds strides.now values.now states.now) grid.old.tree.limit grid.new.tree.limit
        (as_field_of V.as_scalar (field_of vdb grid.old.tree)) (as_field_of V.as_scalar (field_of vdb grid.new.tree)) written.new result }
{
    let mut p = bounds.min();
    let mut count = 0;
    'rows: loop {
        let mut done = 0;
        let code = write_row(
            grid, accessor, bounds, strides, p, values, states, &mut done, steps,
        );
        count += done;
        if code != DONE {
            *written = count;
            return code;
        }
        match next_voxel(bounds, row_end(bounds, p)) {
            Some(next) => p = next,
            None => {
                *written = count;
                return DONE;
            }
        }
    }
}

/// Writes the voxels of a box of a grid of one type from one on along z, one after another, until a write fails. It writes to `written`
/// how many voxels it has set.
#[inline(never)]
#[tactic(auto, unfolding(crate::specs::Many::WritesFirstIn))]
fn write_row<V: Number>(
    grid: &mut Grid<V, ACCESSORS>,
    accessor: Option<usize>,
    bounds: Bounds,
    strides: &Strides,
    p: Coord,
    values: &[i64],
    states: &[u8],
    written: &mut usize,
    steps: &mut Steps,
) -> i32
    requires within { (k : ℕ) → accessor ≡ Some k → k < ACCESSORS }
    requires inside { IsTrue (is_inside bounds p) }
    requires reach { place_of bounds strides.now bounds.max + 1 < 2 ^ 64 }
    requires given { (q : Coord) → IsTrue (is_inside bounds q) → IsSome (change_of_voxel V.KIND bounds strides.now values.now states.now q) }
    ensures { WritesFirstIn (int_gap p.z bounds.max.z + 1) (along_z p) (λ i. change_of_voxel V.KIND bounds strides.now values.now states.now (along_z p i)) grid.old.tree.limit grid.new.tree.limit
        (as_field_of V.as_scalar (field_of vdb grid.old.tree)) (as_field_of V.as_scalar (field_of vdb grid.new.tree)) written.new result }
{
    let size = row_size(bounds, p);
    let stride = strides.z;
    let mut index = place(bounds, strides, p);
    let mut z = p.z;
    let mut count = 0;
    'voxels: loop {
        let at = Coord { x: p.x, y: p.y, z };
        let outcome = write_element(grid, accessor, at, values, states, index, steps);
        if outcome.is_err() {
            *written = count;
            return tree_code(outcome);
        }
        count += 1;
        if count == size {
            *written = count;
            return DONE;
        }
        z += 1;
        index += stride;
    }
}
