//! A box of voxels written leaf by leaf.
ghost use Rattle.std.specs.Prelude.{◌≡◌, ◌≢◌, ◌+◌, ◌<◌, ◌^◌, ℕ, IsTrue, false};
ghost use Rattle.vdb_coord.specs.Blocks.{offset, vdb};
ghost use Rattle.vdb_coord.specs.Space.{is_inside};
ghost use Rattle.vdb_coord.specs.declared.Coord.{Coord};
ghost use Rattle.vdb_coord.specs.declared.Level.TheVariants.{Leaf as leaf_level};
ghost use Rattle.vdb_node.specs.Leaf.{cell_in};
ghost use Rattle.vdb_tree.specs.Field.{as_field_of};
ghost use Rattle.vdb_tree.specs.Layout.{field_of};
ghost use Rattle.vdb_tree.specs.Parts.{IsInOneLeaf};
ghost use Rattle.vdb_tree.specs.Paths.{in_leaf};
ghost use Rattle.vdb_value.specs.declared.Cell.{Cell};
ghost use Rattle.vdb_c.specs.BoxWrites.{change_of_voxel, with_writes};
ghost use Rattle.vdb_c.specs.Elements.{place as place_of};
ghost use Rattle.vdb_c.specs.LeafWrites.{AreLaid, AreWritten, IsBeside, IsReady, IsWritten};
ghost use Rattle.vdb_c.specs.Many.{change_at as change_of_element};

use crate::boxes::elements::{Strides, place};
use crate::boxes::voxels::{is_wide, next_voxel};
use crate::values::numbers::Number;
use crate::voxels::element_writes::element_write;
use vdb_coord::{Bits, Bounds, Coord, Level};
use vdb_grid::Grid;
use vdb_node::Leaf;
use vdb_pool::Steps;
use vdb_scene::ACCESSORS;
use vdb_value::Cell;

/// Makes the leaves that the writes of a wide box need, and writes the box leaf by leaf. Returns false, and changes no voxel, if a
/// leaf can't be made.
pub(crate) fn write_leaves<V: Number>(
    grid: &mut Grid<V, ACCESSORS>,
    bounds: Bounds,
    strides: &Strides,
    values: &[i64],
    states: &[u8],
    steps: &mut Steps,
) -> bool
    requires reach { place_of bounds strides.now bounds.max + 1 < 2 ^ 64 }
    ensures limit { grid.new.tree.limit ≡ grid.old.tree.limit }
    ensures written { IsTrue result → as_field_of V.as_scalar (field_of vdb grid.new.tree)
        ≡ with_writes (is_inside bounds) (change_of_voxel V.KIND bounds strides.now values.now states.now) (as_field_of V.as_scalar (field_of vdb grid.old.tree)) }
    ensures untouched { result ≡ false → field_of vdb grid.new.tree ≡ field_of vdb grid.old.tree }
{
    if !is_wide(bounds) {
        return false;
    }
    let background = Cell {
        value: grid.tree().background(),
        on: false,
    };
    let Ok(mut leaf) = Leaf::new_constant(grid.tree().alloc(), background) else {
        return false;
    };
    if !make_leaves(grid, bounds, strides, values, states, steps) {
        return false;
    }
    write_each(grid, &mut leaf, bounds, strides, values, states, steps);
    true
}

/// Makes a leaf for each leaf extent of a box in which a write changes a cell. Returns whether each has one then. No cell changes.
fn make_leaves<V: Number>(
    grid: &mut Grid<V, ACCESSORS>,
    bounds: Bounds,
    strides: &Strides,
    values: &[i64],
    states: &[u8],
    steps: &mut Steps,
) -> bool
    requires reach { place_of bounds strides.now bounds.max + 1 < 2 ^ 64 }
    ensures field { field_of vdb grid.new.tree ≡ field_of vdb grid.old.tree }
    ensures limit { grid.new.tree.limit ≡ grid.old.tree.limit }
    ensures ready { IsTrue result → (q : Coord) → IsTrue (is_inside bounds q) → IsReady V.as_scalar (change_of_voxel V.KIND bounds strides.now values.now states.now) grid.new.tree q }
{
    let mut p = bounds.min();
    'leaves: loop {
        if !make_leaf(grid, p, bounds, strides, values, states, steps) {
            return false;
        }
        match bounds.next_block_in(Bits::VDB, Level::Leaf, p) {
            Some(next) => p = next,
            None => return true,
        }
    }
}

/// Makes a leaf for the leaf extent around a voxel, if it has none and a write changes a cell. Returns whether it has one then, or needs
/// none. No cell changes.
fn make_leaf<V: Number>(
    grid: &mut Grid<V, ACCESSORS>,
    p: Coord,
    bounds: Bounds,
    strides: &Strides,
    values: &[i64],
    states: &[u8],
    steps: &mut Steps,
) -> bool
    requires reach { place_of bounds strides.now bounds.max + 1 < 2 ^ 64 }
    ensures field { field_of vdb grid.new.tree ≡ field_of vdb grid.old.tree }
    ensures limit { grid.new.tree.limit ≡ grid.old.tree.limit }
    ensures ready { IsTrue result → (q : Coord) → IsBeside bounds p q → IsReady V.as_scalar (change_of_voxel V.KIND bounds strides.now values.now states.now) grid.new.tree q }
    ensures leaves { (q : Coord) → IsTrue (in_leaf vdb grid.old.tree q) → IsTrue (in_leaf vdb grid.new.tree q) }
{
    if grid.tree().leaf(p, steps).is_some() {
        return true;
    }
    let cell = grid.tree().get(p, steps);
    let Some(part) = bounds.intersect(p.block(Level::Leaf)) else {
        return true;
    };
    if is_kept(cell, part, bounds, strides, values, states) {
        return true;
    }
    grid.touch_leaf(p, steps).is_ok()
}

/// Returns whether each write of a part of a box leaves a cell as it is.
fn is_kept<V: Number>(
    cell: Cell<V>,
    part: Bounds,
    bounds: Bounds,
    strides: &Strides,
    values: &[i64],
    states: &[u8],
) -> bool
    requires within { (q : Coord) → IsTrue (is_inside part q) → IsTrue (is_inside bounds q) }
    requires reach { place_of bounds strides.now bounds.max + 1 < 2 ^ 64 }
    ensures { IsTrue result → (q : Coord) → IsTrue (is_inside part q) → IsWritten V.as_scalar (change_of_voxel V.KIND bounds strides.now values.now states.now q) cell cell }
{
    let mut p = part.min();
    'voxels: loop {
        let index = place(bounds, strides, p);
        let Some(change) = element_write(values, states, index) else {
            return false;
        };
        if change.applied(cell) != cell {
            return false;
        }
        match next_voxel(part, p) {
            Some(next) => p = next,
            None => return true,
        }
    }
}

/// Writes the voxels of a box leaf by leaf. Each voxel lies in a leaf or keeps its cell. `leaf` holds the cells of each one meanwhile.
fn write_each<V: Number>(
    grid: &mut Grid<V, ACCESSORS>,
    leaf: &mut Leaf<V, 3, 8>,
    bounds: Bounds,
    strides: &Strides,
    values: &[i64],
    states: &[u8],
    steps: &mut Steps,
)
    requires reach { place_of bounds strides.now bounds.max + 1 < 2 ^ 64 }
    requires ready { (q : Coord) → IsTrue (is_inside bounds q) → IsReady V.as_scalar (change_of_voxel V.KIND bounds strides.now values.now states.now) grid.old.tree q }
    ensures limit { grid.new.tree.limit ≡ grid.old.tree.limit }
    ensures written { AreWritten V.as_scalar (change_of_voxel V.KIND bounds strides.now values.now states.now) (λ q. IsTrue (is_inside bounds q)) (field_of vdb grid.old.tree) (field_of vdb grid.new.tree) }
{
    let mut p = bounds.min();
    'leaves: loop {
        write_leaf(grid, leaf, p, bounds, strides, values, states, steps);
        match bounds.next_block_in(Bits::VDB, Level::Leaf, p) {
            Some(next) => p = next,
            None => return,
        }
    }
}

/// Writes the voxels of a box in the leaf around one of them. If there is no leaf, they keep their cells.
fn write_leaf<V: Number>(
    grid: &mut Grid<V, ACCESSORS>,
    leaf: &mut Leaf<V, 3, 8>,
    p: Coord,
    bounds: Bounds,
    strides: &Strides,
    values: &[i64],
    states: &[u8],
    steps: &mut Steps,
)
    requires reach { place_of bounds strides.now bounds.max + 1 < 2 ^ 64 }
    requires ready { (q : Coord) → IsBeside bounds p q → IsReady V.as_scalar (change_of_voxel V.KIND bounds strides.now values.now states.now) grid.old.tree q }
    ensures limit { grid.new.tree.limit ≡ grid.old.tree.limit }
    ensures written { AreWritten V.as_scalar (change_of_voxel V.KIND bounds strides.now values.now states.now) (IsBeside bounds p) (field_of vdb grid.old.tree) (field_of vdb grid.new.tree) }
    ensures leaves { (q : Coord) → in_leaf vdb grid.new.tree q ≡ in_leaf vdb grid.old.tree q }
{
    let Some(part) = bounds.intersect(p.block(Level::Leaf)) else {
        return;
    };
    let Some(old) = grid.tree().leaf(p, steps) else {
        return;
    };
    leaf.copy_from(old);
    lay(leaf, part, bounds, strides, values, states);
    let _ = grid.swap_leaf(p, leaf, steps);
}

/// Writes the voxels of a part of a box, which lies in one leaf extent, in a leaf.
fn lay<V: Number>(
    leaf: &mut Leaf<V, 3, 8>,
    part: Bounds,
    bounds: Bounds,
    strides: &Strides,
    values: &[i64],
    states: &[u8],
)
    requires within { (q : Coord) → IsTrue (is_inside part q) → IsTrue (is_inside bounds q) }
    requires reach { place_of bounds strides.now bounds.max + 1 < 2 ^ 64 }
    requires block { IsInOneLeaf vdb part }
    ensures { AreLaid V.as_scalar (change_of_voxel V.KIND bounds strides.now values.now states.now) (λ q. IsTrue (is_inside part q)) leaf.old leaf.new }
{
    let max = part.max();
    let stride = strides.z;
    let mut p = part.min();
    let mut index = place(bounds, strides, p);
    'rows: loop {
        'row: while p.z < max.z {
            lay_voxel(leaf, p, values, states, index);
            p = Coord {
                x: p.x,
                y: p.y,
                z: p.z + 1,
            };
            index += stride;
        }
        lay_voxel(leaf, p, values, states, index);
        match next_voxel(part, p) {
            Some(next) => {
                index = place(bounds, strides, next);
                p = next;
            }
            None => return,
        }
    }
}

/// Writes one element of each array to a voxel of a leaf, if they have a write.
#[inline(always)]
fn lay_voxel<V: Number>(
    leaf: &mut Leaf<V, 3, 8>,
    p: Coord,
    values: &[i64],
    states: &[u8],
    index: usize,
)
    ensures voxel { (d : Cell V) → IsWritten V.as_scalar (change_of_element V.KIND values.now states.now index) (cell_in d leaf.old (offset vdb leaf_level p)) (cell_in d leaf.new (offset vdb leaf_level p)) }
    ensures others { (d : Cell V) (i : ℕ) → offset vdb leaf_level p ≢ i → cell_in d leaf.new i ≡ cell_in d leaf.old i }
{
    let offset = p.offset(Level::Leaf) as u32;
    if let Some(change) = element_write::<V>(values, states, index) {
        let cell = change.applied(leaf.entry(offset));
        leaf.set(offset, cell);
    }
}
