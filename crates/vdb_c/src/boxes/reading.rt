//! A box of a tree read into arrays.
ghost use Rattle.std.proofs.Common.{arith};
ghost use Rattle.std.specs.Mem.{type_size};
ghost use Rattle.std.specs.Prelude.{◌≡◌, ◌+◌, ◌<◌, ◌≤◌, ◌^◌, ◌&&◌, ℕ, IsSome, IsTrue, length, not, slice_index_or};
ghost use Rattle.vdb_coord.specs.Blocks.{key, offset, vdb};
ghost use Rattle.vdb_coord.specs.Space.{is_inside};
ghost use Rattle.vdb_coord.specs.declared.Coord.{Coord};
ghost use Rattle.vdb_coord.specs.declared.Level.TheVariants.{Leaf as leaf_level};
ghost use Rattle.vdb_node.specs.Leaf.{cell_in};
ghost use Rattle.vdb_tree.specs.Field.{off};
ghost use Rattle.vdb_tree.specs.Layout.{field_of, root_at};
ghost use Rattle.vdb_tree.specs.Parts.{IsInOneLeaf, OnLeaf, content_cell};
ghost use Rattle.vdb_value.specs.declared.Cell.{Cell};
ghost use Rattle.vdb_c.specs.Elements.{IsLaid, are_apart, has_places, place as place_of};
ghost use Rattle.vdb_c.specs.Values.{state_byte};

use crate::boxes::copies::copy_part;
use crate::boxes::elements::{Strides, place};
use crate::boxes::voxels::{is_wide, next_voxel, row_end, row_size};
use crate::values::numbers::Number;
use crate::voxels::arrays::store;
use vdb_coord::{Bounds, Coord, Level};
use vdb_node::Leaf;
use vdb_pool::Steps;
use vdb_tree::{Content, Skip, Tree};
use vdb_value::Cell;

/// What an array of elements of type `T` has of the cells of a tree with values of type `V`.
pub(crate) trait Shown<V: Number, T: Copy> {
    /// The element of a cell.
    ghost of: { Cell V → T };

    /// Returns the element of a cell.
    fn of(cell: Cell<V>) -> T
        ensures { result ≡ of cell };
}

/// How a row of elements is copied from a leaf.
pub(crate) trait Rows<V: Number, T: Copy>: Shown<V, T> {
    /// Copies the elements of a leaf's cells from the entry of this index on to a slice: those of a row along z, as a rule.
    fn copy_row(leaf: &Leaf<V, 3, 8>, from: u32, into: &mut [T])
        requires { from + length into.old ≤ 512 }
        ensures length { length into.new ≡ length into.old }
        ensures elements { (d : Cell V) (i : ℕ) (e : T) → i < length into.old → slice_index_or into.new i e ≡ Self.of (cell_in d leaf.now (from + i)) };

    /// An element takes at most eight bytes.
    ghost small: { type_size T.row ≤ 8 };
}

/// The value.
pub(crate) struct AsValue;

impl<V: Number> Shown<V, V> for AsValue {
    ghost of = { λ c. c.value };

    #[inline(always)]
    fn of(cell: Cell<V>) -> V
        ensures { result ≡ cell.value }
    {
        cell.value
    }
}

impl<V: Number> Rows<V, V> for AsValue {
    ghost small = { V.small.0 };

    #[inline(always)]
    fn copy_row(leaf: &Leaf<V, 3, 8>, from: u32, into: &mut [V]) {
        if into.len() == 8 {
            leaf.copy_values(from, &mut into[..8]); // a length that the compiler knows: a few moves and no call
        } else {
            leaf.copy_values(from, into);
        }
    }
}

/// The value as a number of 64 bits.
pub(crate) struct AsNumber;

impl<V: Number> Shown<V, i64> for AsNumber {
    ghost of = { λ c. V.number_of c.value };

    #[inline(always)]
    fn of(cell: Cell<V>) -> i64
        ensures { result ≡ V.number_of cell.value }
    {
        cell.value.number()
    }
}

impl<V: Number> Rows<V, i64> for AsNumber {
    ghost small = { Prim.omega arith };

    #[inline(always)]
    fn copy_row(leaf: &Leaf<V, 3, 8>, from: u32, into: &mut [i64]) {
        copy_each::<V, i64, AsNumber>(leaf, from, into);
    }
}

/// A boolean as a byte.
pub(crate) struct AsByte;

impl Shown<bool, u8> for AsByte {
    ghost of = { λ c. state_byte c.value };

    #[inline(always)]
    fn of(cell: Cell<bool>) -> u8
        ensures { result ≡ state_byte cell.value }
    {
        u8::from(cell.value)
    }
}

impl Rows<bool, u8> for AsByte {
    ghost small = { Prim.omega arith };

    #[inline(always)]
    fn copy_row(leaf: &Leaf<bool, 3, 8>, from: u32, into: &mut [u8]) {
        copy_each::<bool, u8, AsByte>(leaf, from, into);
    }
}

/// The state as a byte.
pub(crate) struct AsState;

impl<V: Number> Shown<V, u8> for AsState {
    ghost of = { λ c. state_byte c.on };

    #[inline(always)]
    fn of(cell: Cell<V>) -> u8
        ensures { result ≡ state_byte cell.on }
    {
        u8::from(cell.on)
    }
}

impl<V: Number> Rows<V, u8> for AsState {
    ghost small = { Prim.omega arith };

    #[inline(always)]
    fn copy_row(leaf: &Leaf<V, 3, 8>, from: u32, into: &mut [u8]) {
        copy_each::<V, u8, AsState>(leaf, from, into);
    }
}

/// Copies the elements of a leaf's cells from the entry of this index on to a slice, one after another.
#[inline(always)]
fn copy_each<V: Number, T: Copy, S: Shown<V, T>>(leaf: &Leaf<V, 3, 8>, from: u32, into: &mut [T])
    requires { from + length into.old ≤ 512 }
    ensures length { length into.new ≡ length into.old }
    ensures elements { (d : Cell V) (i : ℕ) (e : T) → i < length into.old → slice_index_or into.new i e ≡ S.of (cell_in d leaf.now (from + i)) }
{
    for i in 0..into.len() {
        into[i] = S::of(leaf.entry(from + i as u32));
    }
}

/// Returns the cell that a tile or a leaf has at a voxel.
#[inline(always)]
fn cell_at<V: Number>(content: &Content<V, &Leaf<V, 3, 8>>, p: Coord) -> Cell<V>
    ensures { (d : Cell V) → content_cell vdb (λ leaf. cell_in d leaf.now) content.now p ≡ result }
{
    match content {
        Content::Tile(cell) => *cell,
        Content::Leaf(leaf) => leaf.entry(p.offset(Level::Leaf) as u32),
    }
}

/// Writes what a tile or a leaf has in its part of a box to the part's elements, voxel by voxel.
fn lay_voxels<V: Number, T: Copy, S: Shown<V, T>>(
    content: &Content<V, &Leaf<V, 3, 8>>,
    bounds: Bounds,
    strides: &Strides,
    part: Bounds,
    out: &mut [T],
)
    requires within { (q : Coord) → IsTrue (is_inside part q) → IsTrue (is_inside bounds q) }
    requires apart { IsTrue (are_apart bounds strides.now) }
    requires reach { place_of bounds strides.now bounds.max < 2 ^ 64 }
    ensures { (d : Cell V) → IsLaid bounds strides.now (is_inside part) (λ p. S.of (content_cell vdb (λ leaf. cell_in d leaf.now) content.now p)) out.old out.new }
{
    let max = part.max();
    let stride = strides.z;
    let mut p = part.min();
    let mut index = place(bounds, strides, p);
    'rows: loop {
        'row: while p.z < max.z {
            store(out, index, S::of(cell_at(content, p)));
            p = Coord {
                x: p.x,
                y: p.y,
                z: p.z + 1,
            };
            index += stride;
        }
        store(out, index, S::of(cell_at(content, p)));
        match next_voxel(part, p) {
            Some(next) => {
                index = place(bounds, strides, next);
                p = next;
            }
            None => return,
        }
    }
}

/// Writes what a leaf has in its part of a box to the part's elements, row by row. The elements of a row follow one another.
fn lay_rows<V: Number, T: Copy, S: Rows<V, T>>(
    leaf: &Leaf<V, 3, 8>,
    bounds: Bounds,
    strides: &Strides,
    part: Bounds,
    out: &mut [T],
)
    requires within { (q : Coord) → IsTrue (is_inside part q) → IsTrue (is_inside bounds q) }
    requires apart { IsTrue (are_apart bounds strides.now) }
    requires places { place_of bounds strides.now bounds.max < length out.old }
    requires along { strides.now.z ≡ 1 }
    requires block { IsInOneLeaf vdb part }
    ensures { (d : Cell V) → IsLaid bounds strides.now (is_inside part) (λ p. S.of (cell_in d leaf.now (offset vdb leaf_level p))) out.old out.new }
{
    let mut p = part.min();
    'rows: loop {
        let first = place(bounds, strides, p);
        let behind = first + row_size(part, p);
        S::copy_row(leaf, p.offset(Level::Leaf) as u32, &mut out[first..behind]);
        match next_voxel(part, row_end(part, p)) {
            Some(next) => p = next,
            None => return,
        }
    }
}

/// Writes what a tile has in its part of a box to the part's elements.
#[inline(never)]
fn lay_tile<V: Number, T: Copy, S: Rows<V, T>>(
    cell: Cell<V>,
    bounds: Bounds,
    strides: &Strides,
    part: Bounds,
    out: &mut [T],
)
    requires within { (q : Coord) → IsTrue (is_inside part q) → IsTrue (is_inside bounds q) }
    requires apart { IsTrue (are_apart bounds strides.now) }
    requires places { place_of bounds strides.now bounds.max < length out.old }
    ensures { IsLaid bounds strides.now (is_inside part) (λ p. S.of cell) out.old out.new }
{
    let element = S::of(cell);
    let steps = Strides { x: 0, y: 0, z: 0 };
    copy_part(&[element], 0, &steps, out, bounds, strides, part);
}

/// Writes what a leaf has in its part of a box to the part's elements, by a copy of all its elements.
#[inline(never)]
fn lay_leaf<V: Number, T: Copy, S: Rows<V, T>>(
    leaf: &Leaf<V, 3, 8>,
    bounds: Bounds,
    strides: &Strides,
    part: Bounds,
    out: &mut [T],
)
    requires within { (q : Coord) → IsTrue (is_inside part q) → IsTrue (is_inside bounds q) }
    requires apart { IsTrue (are_apart bounds strides.now) }
    requires places { place_of bounds strides.now bounds.max < length out.old }
    requires block { IsInOneLeaf vdb part }
    ensures { (d : Cell V) → IsLaid bounds strides.now (is_inside part) (λ p. S.of (cell_in d leaf.now (offset vdb leaf_level p))) out.old out.new }
{
    let mut elements = [S::of(leaf.entry(0)); 512];
    S::copy_row(leaf, 0, &mut elements);
    let steps = Strides { x: 64, y: 8, z: 1 };
    let first = part.min().offset(Level::Leaf) as usize;
    copy_part(&elements, first, &steps, out, bounds, strides, part);
}

/// Writes what a tile or a leaf has in its part of a box to the part's elements. An empty array isn't written.
fn lay_part<V: Number, T: Copy, S: Rows<V, T>>(
    content: &Content<V, &Leaf<V, 3, 8>>,
    bounds: Bounds,
    strides: &Strides,
    part: Bounds,
    out: &mut [T],
)
    requires within { (q : Coord) → IsTrue (is_inside part q) → IsTrue (is_inside bounds q) }
    requires apart { IsTrue (are_apart bounds strides.now) }
    requires places { IsTrue (has_places bounds strides.now (length out.old)) }
    requires block { OnLeaf content.now (λ leaf. IsInOneLeaf vdb part) }
    ensures { (d : Cell V) → IsLaid bounds strides.now (is_inside part) (λ p. S.of (content_cell vdb (λ leaf. cell_in d leaf.now) content.now p)) out.old out.new }
{
    if out.len() == 0 {
        return;
    }
    match content {
        Content::Leaf(leaf) if strides.z == 1 => {
            lay_rows::<V, T, S>(leaf, bounds, strides, part, out)
        }
        Content::Leaf(leaf) if is_wide(part) => {
            lay_leaf::<V, T, S>(leaf, bounds, strides, part, out)
        }
        Content::Tile(cell) => lay_tile::<V, T, S>(*cell, bounds, strides, part, out),
        _ => lay_voxels::<V, T, S>(content, bounds, strides, part, out),
    }
}

/// Returns whether a box lies in one upper extent, for which the root table has an entry.
fn is_in_root_block<V: Number>(tree: &Tree<V>, bounds: Bounds) -> bool
    ensures { IsTrue result → (q : Coord) → IsTrue (is_inside bounds q) → IsSome (root_at tree.now.root (key vdb q)) }
{
    let key = bounds.min().key();
    let before = Coord {
        x: key.x,
        y: key.y,
        z: key.z.wrapping_sub(1),
    };
    let Some(next) = tree.next_key(Some(before)) else {
        return false;
    };
    next.numbered_block_in(tree.bits(), Level::Upper)
        .covers(bounds)
}

/// Writes the inactive background to the elements of a box, unless the root table has an entry for all of it. Returns whether it has.
fn lay_start<V: Number, T: Copy, S: Rows<V, T>>(
    tree: &Tree<V>,
    bounds: Bounds,
    strides: &Strides,
    values: &mut [T],
    states: &mut [u8],
) -> bool
    requires apart { IsTrue (are_apart bounds strides.now) }
    requires values { IsTrue (has_places bounds strides.now (length values.old)) }
    requires states { IsTrue (has_places bounds strides.now (length states.old)) }
    ensures there { IsTrue result → (q : Coord) → IsTrue (is_inside bounds q) → IsSome (root_at tree.now.root (key vdb q)) }
    ensures values { IsLaid bounds strides.now (λ p. is_inside bounds p && not result) (λ p. S.of (off tree.now.background)) values.old values.new }
    ensures states { IsLaid bounds strides.now (λ p. is_inside bounds p && not result) (λ p. 0) states.old states.new }
{
    if is_in_root_block(tree, bounds) {
        return true;
    }
    let start = Content::Tile(Cell {
        value: tree.background(),
        on: false,
    });
    lay_part::<V, T, S>(&start, bounds, strides, bounds, values);
    lay_part::<V, u8, AsState>(&start, bounds, strides, bounds, states);
    false
}

/// Writes the values and the states of a box of a tree to the elements of its voxels. No other element changes, and an empty array
/// isn't written. It takes no memory (OpenVDB's `copyToDense`): first it writes the inactive background where the root table may lack an
/// entry, then tile by tile and leaf by leaf what the tree has.
pub(crate) fn read_box<V: Number, T: Copy, S: Rows<V, T>>(
    tree: &Tree<V>,
    bounds: Bounds,
    strides: &Strides,
    values: &mut [T],
    states: &mut [u8],
    steps: &mut Steps,
)
    requires apart { IsTrue (are_apart bounds strides.now) }
    requires values { IsTrue (has_places bounds strides.now (length values.old)) }
    requires states { IsTrue (has_places bounds strides.now (length states.old)) }
    ensures values { IsLaid bounds strides.now (is_inside bounds) (λ p. S.of ((field_of vdb tree.now).cell p)) values.old values.new }
    ensures states { IsLaid bounds strides.now (is_inside bounds) (λ p. state_byte ((field_of vdb tree.now).cell p).on) states.old states.new }
{
    if values.len() == 0 && states.len() == 0 {
        return;
    }
    let there = lay_start::<V, T, S>(tree, bounds, strides, values, states);
    let mut walk = tree.parts(bounds, Skip::Absent);
    'rest: while let Some(part) = tree.next_part(&mut walk, steps) {
        lay_part::<V, T, S>(&part.content, bounds, strides, part.bounds, values);
        lay_part::<V, u8, AsState>(&part.content, bounds, strides, part.bounds, states);
    }
}
