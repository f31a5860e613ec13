//! A grid made of the elements of a box of voxels, in one pass over them.
ghost use Rattle.std.specs.Option.{option_map};
ghost use Rattle.std.specs.Prelude.{◌≡◌, ◌⊎◌, ◌+◌, ◌*◌, ◌%◌, ◌<◌, ◌≤◌, ◌^◌, ℕ, Err, IfErr, IfOk, IfSome, IsTrue, OnOk, Option, Some, length, pos, slice_index_or};
ghost use Rattle.vdb_coord.specs.Blocks.{block_number, offset, vdb};
ghost use Rattle.vdb_coord.specs.Space.{everywhere, is_inside};
ghost use Rattle.vdb_coord.specs.declared.Coord.{Coord};
ghost use Rattle.vdb_coord.specs.declared.Level.TheVariants.{Leaf as leaf_level};
ghost use Rattle.vdb_mask.specs.Mask.{is_on};
ghost use Rattle.vdb_node.specs.Leaf.{cell_in};
ghost use Rattle.vdb_value.specs.declared.Cell.{Cell};
ghost use Rattle.vdb_value.specs.declared.Kind.TheVariants as kinds;
ghost use Rattle.vdb_tree.specs.ConstantBlocks.{roots};
ghost use Rattle.vdb_tree.specs.Field.{field, new, off};
ghost use Rattle.vdb_tree.specs.Layout.{field_of};
ghost use Rattle.vdb_tree.specs.Parts.{IsInOneLeaf};
ghost use Rattle.vdb_tree.specs.Smallest.{IsLeast};
ghost use Rattle.vdb_tree.specs.declared.refusal.TreeRefusal.TheVariants.{RootLimit};
ghost use Rattle.vdb_scene.specs.declared.any_grid.AnyGrid.{AnyGrid};
ghost use Rattle.vdb_scene.specs.declared.scalar.Scalar.TheVariants as scalars;
ghost use Rattle.vdb_c.specs.BoxWrites.{box_written};
ghost use Rattle.vdb_c.specs.Codes.{done, memory};
ghost use Rattle.vdb_c.specs.Elements.{place as place_of};
ghost use Rattle.vdb_c.specs.FromBox.{AreGiven, HasCells, IsBuilt, IsTreeOf, background_given, cell_at, cell_given, cell_of_element, cells_of, field_given, turned as turned_coord, turned_box};
ghost use Rattle.vdb_c.specs.LeafWrites.{IsBeside};
ghost use Rattle.vdb_c.specs.Values.{byte_is_on};

use crate::boxes::arrays::bounds_beside;
use crate::boxes::elements::{Strides, gaps, place};
use crate::codes::{DONE, MEMORY, OUT_OF_RANGE, tree_code};
use crate::handles::GridHandle;
use crate::values::numbers::Number;
use crate::values::{Corners, is_byte_on};
use std::alloc::Global;
use vdb_coord::{Bits, Bounds, Coord, Level};
use vdb_grid::Grid;
use vdb_mask::Mask;
use vdb_node::Leaf;
use vdb_pool::Steps;
use vdb_scene::{AnyGrid, MOST_ROOT_LIMIT};
use vdb_tree::{Tree, TreeRefusal};
use vdb_value::Cell;

/// Creates a grid of booleans from the elements of a box, which are true unless they are 0. It replaces the handle's grid.
#[unsafe(no_mangle)]
pub extern "C" fn vdb_grid_from_box_bool(
    alloc: Global,
    handle: &mut GridHandle,
    background: i64,
    limit: u32,
    corners: &Corners,
    strides: &Strides,
    values: &[u8],
) -> i32
    ensures { IsBuilt kinds.Bool (λ n. scalars.Bool (byte_is_on n)) background limit corners.now strides.now values.now handle.old.grid.held handle.new.grid.held result }
{
    match made::<bool, u8>(
        alloc,
        background,
        limit,
        corners,
        strides,
        values,
        &mut handle.steps,
    ) {
        Ok(tree) => hold(alloc, handle, AnyGrid::Bool(Grid::from_tree(tree))),
        Err(code) => code,
    }
}

/// Creates a grid of numbers of 32 bits from the elements of a box. It replaces the handle's grid.
#[unsafe(no_mangle)]
pub extern "C" fn vdb_grid_from_box_i32(
    alloc: Global,
    handle: &mut GridHandle,
    background: i64,
    limit: u32,
    corners: &Corners,
    strides: &Strides,
    values: &[i32],
) -> i32
    ensures { IsBuilt kinds.I32 scalars.I32 background limit corners.now strides.now values.now handle.old.grid.held handle.new.grid.held result }
{
    match made::<i32, i32>(
        alloc,
        background,
        limit,
        corners,
        strides,
        values,
        &mut handle.steps,
    ) {
        Ok(tree) => hold(alloc, handle, AnyGrid::I32(Grid::from_tree(tree))),
        Err(code) => code,
    }
}

/// Creates a grid of numbers of 32 bits from the elements of a box, which are bytes. It replaces the handle's grid.
#[unsafe(no_mangle)]
pub extern "C" fn vdb_grid_from_box_u8(
    alloc: Global,
    handle: &mut GridHandle,
    background: i64,
    limit: u32,
    corners: &Corners,
    strides: &Strides,
    values: &[u8],
) -> i32
    ensures { IsBuilt kinds.I32 (λ n. scalars.I32 (pos n)) background limit corners.now strides.now values.now handle.old.grid.held handle.new.grid.held result }
{
    match made::<i32, u8>(
        alloc,
        background,
        limit,
        corners,
        strides,
        values,
        &mut handle.steps,
    ) {
        Ok(tree) => hold(alloc, handle, AnyGrid::I32(Grid::from_tree(tree))),
        Err(code) => code,
    }
}

/// Creates a grid of numbers of 32 bits from the elements of a box, which have 16 bits. It replaces the handle's grid.
#[unsafe(no_mangle)]
pub extern "C" fn vdb_grid_from_box_i16(
    alloc: Global,
    handle: &mut GridHandle,
    background: i64,
    limit: u32,
    corners: &Corners,
    strides: &Strides,
    values: &[i16],
) -> i32
    ensures { IsBuilt kinds.I32 scalars.I32 background limit corners.now strides.now values.now handle.old.grid.held handle.new.grid.held result }
{
    match made::<i32, i16>(
        alloc,
        background,
        limit,
        corners,
        strides,
        values,
        &mut handle.steps,
    ) {
        Ok(tree) => hold(alloc, handle, AnyGrid::I32(Grid::from_tree(tree))),
        Err(code) => code,
    }
}

/// Creates a grid of numbers of 32 bits from the elements of a box, which have 16 bits and no sign. It replaces the handle's grid.
#[unsafe(no_mangle)]
pub extern "C" fn vdb_grid_from_box_u16(
    alloc: Global,
    handle: &mut GridHandle,
    background: i64,
    limit: u32,
    corners: &Corners,
    strides: &Strides,
    values: &[u16],
) -> i32
    ensures { IsBuilt kinds.I32 (λ n. scalars.I32 (pos n)) background limit corners.now strides.now values.now handle.old.grid.held handle.new.grid.held result }
{
    match made::<i32, u16>(
        alloc,
        background,
        limit,
        corners,
        strides,
        values,
        &mut handle.steps,
    ) {
        Ok(tree) => hold(alloc, handle, AnyGrid::I32(Grid::from_tree(tree))),
        Err(code) => code,
    }
}

/// Creates a grid of numbers of 64 bits from the elements of a box. It replaces the handle's grid.
#[unsafe(no_mangle)]
pub extern "C" fn vdb_grid_from_box_i64(
    alloc: Global,
    handle: &mut GridHandle,
    background: i64,
    limit: u32,
    corners: &Corners,
    strides: &Strides,
    values: &[i64],
) -> i32
    ensures { IsBuilt kinds.I64 scalars.I64 background limit corners.now strides.now values.now handle.old.grid.held handle.new.grid.held result }
{
    match made::<i64, i64>(
        alloc,
        background,
        limit,
        corners,
        strides,
        values,
        &mut handle.steps,
    ) {
        Ok(tree) => hold(alloc, handle, AnyGrid::I64(Grid::from_tree(tree))),
        Err(code) => code,
    }
}

/// A type of elements: what an array has for a voxel's value.
trait Given<V>: Copy {
    /// The value of an element.
    ghost value: { Self → V };

    /// Returns the value of an element.
    fn value(self) -> V
        ensures { result ≡ value self };
}

impl Given<bool> for u8 {
    ghost value = { byte_is_on };

    #[inline(always)]
    fn value(self) -> bool {
        is_byte_on(self)
    }
}

impl Given<i32> for i32 {
    ghost value = { λ n. n };

    #[inline(always)]
    fn value(self) -> i32 {
        self
    }
}

impl Given<i32> for u8 {
    ghost value = { λ n. pos n };

    #[inline(always)]
    fn value(self) -> i32 {
        self as i32
    }
}

impl Given<i32> for i16 {
    ghost value = { λ n. n };

    #[inline(always)]
    fn value(self) -> i32 {
        self as i32
    }
}

impl Given<i32> for u16 {
    ghost value = { λ n. pos n };

    #[inline(always)]
    fn value(self) -> i32 {
        self as i32
    }
}

impl Given<i64> for i64 {
    ghost value = { λ n. n };

    #[inline(always)]
    fn value(self) -> i64 {
        self
    }
}

/// Makes the tree of a call's arguments. Returns the code of an error if that fails.
fn made<V: Number, T: Given<V>>(
    alloc: Global,
    background: i64,
    limit: u32,
    corners: &Corners,
    strides: &Strides,
    values: &[T],
    steps: &mut Steps,
) -> Result<Tree<V>, i32>
    ensures made { IfOk result (λ tree. IsTreeOf V.KIND V.eq V.as_scalar (λ x. V.as_scalar (T.value x)) background limit corners.now strides.now values.now tree) }
    ensures some { IfOk result (λ tree. 1 ≤ tree.limit) }
    ensures few { IfOk result (λ tree. tree.limit ≤ 65536) }
    ensures refused { IfErr result (λ code. (g : Option AnyGrid) → IsBuilt V.KIND (λ x. V.as_scalar (T.value x)) background limit corners.now strides.now values.now g g code) }
{
    let Some(background) = background_of(background, limit) else {
        return Err(OUT_OF_RANGE);
    };
    let Some(bounds) = bounds_given(corners, strides, values.len()) else {
        return Err(OUT_OF_RANGE);
    };
    match build(alloc, background, limit, bounds, strides, values, steps) {
        Ok(tree) => Ok(tree),
        Err(refusal) => Err(tree_code(Err(refusal))),
    }
}

/// Returns the background of a number: `None` if the type doesn't have it, or the limit is 0 or above 65,536.
fn background_of<V: Number>(background: i64, limit: u32) -> Option<V>
    ensures value { option_map V.as_scalar result ≡ background_given V.KIND background limit }
    ensures some { IfSome result (λ _. 1 ≤ limit) }
    ensures few { IfSome result (λ _. limit ≤ 65536) }
{
    if limit == 0 || limit > MOST_ROOT_LIMIT {
        return None;
    }
    V::of_number(background)
}

/// Returns the box of two corners: `None` if they aren't in order, or an array of this length is empty or doesn't fit the box.
fn bounds_given(corners: &Corners, strides: &Strides, values: usize) -> Option<Bounds>
    ensures value { result ≡ box_written corners.now strides.now values 0 }
    ensures reach { IfSome result (λ box. place_of box strides.now box.max < values) }
    ensures fits { IfSome result (λ box. place_of box strides.now box.max < 2 ^ 64) }
{
    if values == 0 {
        return None;
    }
    let bounds = bounds_beside(corners, strides, values, 0)?;
    Some(bounds)
}

/// Puts a grid into a handle, in the place of its grid, if there is memory for it.
fn hold(alloc: Global, handle: &mut GridHandle, grid: AnyGrid) -> i32
    ensures { ((result ≡ done) × (handle.new.grid.held ≡ Some grid)) ⊎ ((result ≡ memory) × (handle.new.grid.held ≡ handle.old.grid.held)) }
{
    let Ok(grid) = Box::new(alloc, grid) else {
        return MEMORY;
    };
    handle.grid.put(alloc, grid);
    DONE
}

/// Returns the cell of an element: active unless its value is the background.
#[inline(always)]
fn cell_of<V: Number, T: Given<V>>(element: T, background: V) -> Cell<V>
    ensures { result ≡ cell_of_element V.eq T.value background element }
{
    let value = element.value();
    Cell {
        value,
        on: value != background,
    }
}

/// Returns whether each element of a row has the background.
#[inline(always)]
fn are_blank<V: Number, T: Given<V>>(
    values: &[T],
    first: usize,
    stride: usize,
    count: usize,
    background: V,
) -> bool
    requires reach { (k : ℕ) → k < count → first + k * stride < length values.now }
    ensures { IsTrue result → (k : ℕ) → k < count → cell_at V.eq T.value background values.now (first + k * stride) ≡ off background }
{
    let mut blank = true;
    'voxels: for k in 0..count {
        blank &= values[first + k * stride].value() == background;
    }
    blank
}

/// Copies the values of a row of elements, and returns the states of their cells: active unless the value is the background.
#[inline(always)]
fn read_row<V: Number, T: Given<V>>(
    values: &[T],
    first: usize,
    stride: usize,
    count: usize,
    background: V,
    row: &mut [V],
) -> Mask<1>
    requires few { count ≤ 64 }
    requires room { count ≤ length row.old }
    requires reach { (k : ℕ) → k < count → first + k * stride < length values.now }
    ensures length { length row.new ≡ length row.old }
    ensures cells { (k : ℕ) (d : V) → k < count → record { value = slice_index_or row.new k d; on = is_on result k } ≡ cell_at V.eq T.value background values.now (first + k * stride) }
{
    let mut states = Mask::off();
    'voxels: for k in 0..count {
        let cell = cell_of(values[first + k * stride], background);
        row[k] = cell.value;
        if cell.on {
            states.set(k as u32);
        }
    }
    states
}

/// Makes each cell of a leaf the inactive background, if it stands for a blank one.
#[inline(always)]
fn begin<V: Number>(leaf: &mut Leaf<V, 3, 8>, blank: bool, background: V)
    ensures { (d : Cell V) (i : ℕ) → i < 512 → cell_in d leaf.new i ≡ cells_of background blank leaf.old d i }
{
    if blank {
        leaf.fill_run(
            0,
            512,
            Cell {
                value: background,
                on: false,
            },
        );
    }
}

/// Writes the elements of a row to a leaf from the entry of this index on. Returns whether the leaf still stands for a blank one.
#[inline(always)]
fn lay_row<V: Number, T: Given<V>>(
    leaf: &mut Leaf<V, 3, 8>,
    blank: bool,
    offset: u32,
    count: usize,
    values: &[T],
    first: usize,
    stride: usize,
    background: V,
) -> bool
    requires in_row { offset % 8 + count ≤ 8 }
    requires within { offset < 512 }
    requires reach { (k : ℕ) → k < count → first + k * stride < length values.now }
    ensures { (d : Cell V) → HasCells (λ (k : ℕ). k < count) (λ k. offset + k) (λ k. cell_at V.eq T.value background values.now (first + k * stride)) (cells_of background blank leaf.old d) (cells_of background result leaf.new d) }
{
    if blank && are_blank(values, first, stride, count, background) {
        return true;
    }
    begin(leaf, blank, background);
    let mut row = [background; 8];
    let states = read_row(values, first, stride, count, background, &mut row);
    leaf.set_cells(offset, &row[..count], &states);
    false
}

/// Writes the elements of rows to a leaf, each eight entries after the one before it. Returns whether the leaf still stands for a blank one.
#[inline(always)]
fn lay_rows<V: Number, T: Given<V>>(
    leaf: &mut Leaf<V, 3, 8>,
    blank: bool,
    offset: u32,
    rows: usize,
    count: usize,
    values: &[T],
    first: usize,
    step: usize,
    stride: usize,
    background: V,
) -> bool
    requires in_row { offset % 8 + count ≤ 8 }
    requires some { 0 < count }
    requires within { (y : ℕ) → y < rows → offset + 8 * y < 512 }
    requires reach { (y k : ℕ) → y < rows → k < count → first + y * step + k * stride < length values.now }
    ensures { (d : Cell V) → HasCells (λ (n : ℕ × ℕ). (n.0 < rows) × (n.1 < count)) (λ n. offset + 8 * n.0 + n.1) (λ n. cell_at V.eq T.value background values.now (first + n.0 * step + n.1 * stride)) (cells_of background blank leaf.old d) (cells_of background result leaf.new d) }
{
    let mut blank = blank;
    'rows: for y in 0..rows {
        blank = lay_row(
            leaf,
            blank,
            offset + 8 * y as u32,
            count,
            values,
            first + y * step,
            stride,
            background,
        );
    }
    blank
}

/// Does what `lay_rows` does, with rows of eight and a stride of 1 as numbers that the compiler knows.
fn lay_plane<V: Number, T: Given<V>>(
    leaf: &mut Leaf<V, 3, 8>,
    blank: bool,
    offset: u32,
    rows: usize,
    count: usize,
    values: &[T],
    first: usize,
    strides: &Strides,
    background: V,
) -> bool
    requires in_row { offset % 8 + count ≤ 8 }
    requires some { 0 < count }
    requires within { (y : ℕ) → y < rows → offset + 8 * y < 512 }
    requires reach { (y k : ℕ) → y < rows → k < count → first + y * strides.now.y + k * strides.now.z < length values.now }
    ensures { (d : Cell V) → HasCells (λ (n : ℕ × ℕ). (n.0 < rows) × (n.1 < count)) (λ n. offset + 8 * n.0 + n.1) (λ n. cell_at V.eq T.value background values.now (first + n.0 * strides.now.y + n.1 * strides.now.z)) (cells_of background blank leaf.old d) (cells_of background result leaf.new d) }
{
    if count == 8 && strides.z == 1 {
        lay_rows(
            leaf, blank, offset, rows, 8, values, first, strides.y, 1, background,
        )
    } else if count == 8 {
        lay_rows(
            leaf, blank, offset, rows, 8, values, first, strides.y, strides.z, background,
        )
    } else {
        lay_rows(
            leaf, blank, offset, rows, count, values, first, strides.y, strides.z, background,
        )
    }
}

/// Writes the elements of a part of a box, which lies in one leaf extent, to a leaf, whose other voxels become the inactive background. Returns
/// whether all have the background: then the leaf may have any cells.
fn lay<V: Number, T: Given<V>>(
    leaf: &mut Leaf<V, 3, 8>,
    part: Bounds,
    bounds: Bounds,
    strides: &Strides,
    values: &[T],
    background: V,
) -> bool
    requires within { (q : Coord) → IsTrue (is_inside part q) → IsTrue (is_inside bounds q) }
    requires reach { place_of bounds strides.now bounds.max < length values.now }
    requires fits { place_of bounds strides.now bounds.max < 2 ^ 64 }
    requires block { IsInOneLeaf vdb part }
    ensures { (d : Cell V) → HasCells (λ q. IsTrue (is_inside part q)) (offset vdb leaf_level) (cell_given V.eq T.value background bounds strides.now values.now) (λ i. off background) (cells_of background result leaf.new d) }
{
    let min = part.min();
    let first = place(bounds, strides, min);
    let offset = min.offset(Level::Leaf) as u32;
    let (dx, dy, dz) = gaps(min, part.max());
    let mut blank = true;
    'planes: for x in 0..dx + 1 {
        blank = lay_plane(
            leaf,
            blank,
            offset + 64 * x as u32,
            dy + 1,
            dz + 1,
            values,
            first + x * strides.x,
            strides,
            background,
        );
    }
    blank
}

/// Gives the leaf extent around a coordinate, which is all background, the cells of the elements of a box. `leaf` holds them meanwhile.
/// If the extent has one cell then, it is a tile.
fn give_leaf<V: Number, T: Given<V>>(
    tree: &mut Tree<V>,
    leaf: &mut Leaf<V, 3, 8>,
    p: Coord,
    bounds: Bounds,
    strides: &Strides,
    values: &[T],
    background: V,
    steps: &mut Steps,
) -> Result<(), TreeRefusal>
    requires reach { place_of bounds strides.now bounds.max < length values.now }
    requires fits { place_of bounds strides.now bounds.max < 2 ^ 64 }
    requires blank { (q : Coord) → IsTrue (is_inside everywhere q) → block_number vdb leaf_level q ≡ block_number vdb leaf_level p → (field_of vdb tree.old).cell q ≡ off background }
    ensures limit { tree.new.limit ≡ tree.old.limit }
    ensures given { OnOk result (AreGiven bounds (IsBeside bounds p) (cell_given V.eq T.value background bounds strides.now values.now) (field_of vdb tree.old) (field_of vdb tree.new)) }
    ensures full { result ≡ Err RootLimit → (cells : Coord → Cell V) × AreGiven bounds (IsBeside bounds p) (cell_given V.eq T.value background bounds strides.now values.now) (field_of vdb tree.old) (field tree.old.background cells)
        × (tree.old.limit < roots V.eq vdb (field tree.old.background cells)) }
{
    let Some(part) = bounds.intersect(p.block(Level::Leaf)) else {
        return Ok(());
    };
    if lay(leaf, part, bounds, strides, values, background) {
        return Ok(());
    }
    tree.write_leaf(p, leaf, steps)
}

/// Returns a coordinate, with x and z exchanged if `turn` is true.
#[inline(always)]
fn turned(p: Coord, turn: bool) -> Coord
    ensures { result ≡ turned_coord turn p }
{
    if turn {
        Coord {
            x: p.z,
            y: p.y,
            z: p.x,
        }
    } else {
        p
    }
}

/// Returns a box, with x and z exchanged if `turn` is true.
fn turned_bounds(bounds: Bounds, turn: bool) -> Bounds
    ensures { result ≡ turned_box turn bounds }
{
    let min = turned(bounds.min(), turn);
    let max = turned(bounds.max(), turn);
    match Bounds::new(min, max) {
        Some(order) => order,
        None => bounds, // the corners are in order, so never
    }
}

/// Gives a tree without cells but the inactive background those of the elements of a box, leaf extent by leaf extent: along x first if
/// elements along x are nearer to each other than those along z, since neighbouring extents share cache lines then.
fn give_leaves<V: Number, T: Given<V>>(
    tree: &mut Tree<V>,
    leaf: &mut Leaf<V, 3, 8>,
    bounds: Bounds,
    strides: &Strides,
    values: &[T],
    background: V,
    steps: &mut Steps,
) -> Result<(), TreeRefusal>
    requires reach { place_of bounds strides.now bounds.max < length values.now }
    requires fits { place_of bounds strides.now bounds.max < 2 ^ 64 }
    requires blank { field_of vdb tree.old ≡ new background }
    ensures limit { tree.new.limit ≡ tree.old.limit }
    ensures given { OnOk result (field_of vdb tree.new ≡ field_given V.eq T.value background bounds strides.now values.now) }
    ensures full { result ≡ Err RootLimit → tree.old.limit < roots V.eq vdb (field_given V.eq T.value background bounds strides.now values.now) }
{
    let turn = strides.x < strides.z;
    let order = turned_bounds(bounds, turn);
    let mut p = order.min();
    'leaves: loop {
        let at = turned(p, turn);
        give_leaf(tree, leaf, at, bounds, strides, values, background, steps)?;
        match order.next_block_in(Bits::VDB, Level::Leaf, p) {
            Some(next) => p = next,
            None => return Ok(()),
        }
    }
}

/// Makes the least tree with the cells of the elements of a box, in one pass over them. Every other voxel has the background, inactive.
///
/// `RootLimit`: more upper extents than the limit would have a cell other than the inactive background. `Memory`: an allocation failed,
/// before it was known whether the limit holds.
fn build<V: Number, T: Given<V>>(
    alloc: Global,
    background: V,
    limit: u32,
    bounds: Bounds,
    strides: &Strides,
    values: &[T],
    steps: &mut Steps,
) -> Result<Tree<V>, TreeRefusal>
    requires reach { place_of bounds strides.now bounds.max < length values.now }
    requires fits { place_of bounds strides.now bounds.max < 2 ^ 64 }
    ensures field { IfOk result (λ tree. field_of vdb tree ≡ field_given V.eq T.value background bounds strides.now values.now) }
    ensures limit { IfOk result (λ tree. tree.limit ≡ limit) }
    ensures least { IfOk result (λ tree. IsLeast V.eq vdb tree) }
    ensures full { result ≡ Err RootLimit → limit < roots V.eq vdb (field_given V.eq T.value background bounds strides.now values.now) }
{
    let mut tree = Tree::new(alloc, background, limit);
    let blank = Cell {
        value: background,
        on: false,
    };
    let Ok(mut leaf) = Leaf::new_constant(alloc, blank) else {
        return Err(TreeRefusal::Memory);
    };
    give_leaves(
        &mut tree, &mut leaf, bounds, strides, values, background, steps,
    )?;
    tree.prune(steps);
    Ok(tree)
}
