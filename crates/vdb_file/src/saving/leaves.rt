//! Writes the cells, voxels and leaf extents of a tree.

ghost use Rattle.std.specs.Prelude.{◌≡◌, ◌≤◌, ◌*◌, ◌%◌, if◌then◌else◌, ◌∷◌, ◌++◌, ◌||◌, true, false, not, is_err, is_some, length, take, IfSome, IsOk, IsTrue, OnOk};
ghost use Rattle.std.proofs.Math.Bool.{beq};
ghost use Rattle.std.specs.Int.{w16, to_be_bytes};
ghost use Rattle.vdb_coord.specs.Blocks.{block, block_around, entries, sub_block, vdb};
ghost use Rattle.vdb_coord.specs.declared.Level.TheVariants.{Leaf as leaf_level};
ghost use Rattle.vdb_node.specs.Entries.{IsFirstWithout};
ghost use Rattle.vdb_node.specs.Leaf.{cell_in};
ghost use Rattle.vdb_node.specs.Nodes.{entry_count};
ghost use Rattle.vdb_tree.specs.ConstantBlocks.{cell_eq, is_background, is_constant};
ghost use Rattle.vdb_tree.specs.Layout.{field_of};
ghost use Rattle.vdb_tree.specs.Leaves.{IsLeafAround};
ghost use Rattle.vdb_tree.specs.Parts.{IsNextAbove};
ghost use Rattle.vdb_scene.specs.Watched.{has_failed, source};
ghost use Rattle.vdb_file.specs.Bodies.{cell_bytes, leaf_body, listed};
ghost use Rattle.vdb_file.specs.internal.Written.{Puts, numbered, passing, sent};

use crate::fault::SaveFault;
use crate::saving::output::{COUNTING, Output};
use std::io::Write;
use vdb_coord::{Bits, Coord, Level};
use vdb_node::{Leaf, Stored};
use vdb_pool::Steps;
use vdb_scene::{GridValue, Watched};
use vdb_tree::Tree;
use vdb_value::{Cell, Voxel};

/// The byte before the entries of a block whose cells differ.
const NODE: u8 = 3;

/// The bytes of a head of a block whose cells differ: its tag, and two for the count of its entries.
const HEAD: usize = 3;

/// The most bytes of a voxel: two for its number, one for its state and up to eight for its value.
const VOXEL: usize = 11;

/// The most bytes of a leaf's voxels, and of one more.
const VOXELS: usize = 5643;

/// Returns the byte of a state.
#[inline(always)]
fn state_byte(on: bool) -> u8
    ensures { result ≡ (if on then 2 else 1) }
{
    if on { 2 } else { 1 }
}

/// Writes a cell: one byte for its state, and then its value.
pub(crate) fn put_cell<V: Voxel, W: Write, const C: u32>(
    out: &mut Output<C>,
    writer: &mut Watched<W>,
    cell: Cell<V>,
) -> Result<(), SaveFault>
    ensures counts { C ≡ 1 → IsOk result }
    ensures puts { OnOk result (Puts (sent C out.old (W.contents (source writer.old))) (sent C out.new (W.contents (source writer.new))) (cell_bytes V.eq V.bytes_of cell)) }
    ensures failed { has_failed writer.new ≡ (has_failed writer.old || is_err result) }
{
    out.put(writer, [state_byte(cell.on)].as_slice())?;
    put_value(out, writer, cell.value)
}

/// Writes the bytes of a value.
pub(crate) fn put_value<V: Voxel, W: Write, const C: u32>(
    out: &mut Output<C>,
    writer: &mut Watched<W>,
    value: V,
) -> Result<(), SaveFault>
    ensures counts { C ≡ 1 → IsOk result }
    ensures puts { OnOk result (Puts (sent C out.old (W.contents (source writer.old))) (sent C out.new (W.contents (source writer.new))) (V.bytes_of value)) }
    ensures failed { has_failed writer.new ≡ (has_failed writer.old || is_err result) }
{
    let mut bytes = [0; 8];
    let count = value.to_bytes(&mut bytes);
    out.put(writer, &bytes[..count])
}

/// Writes the head of a block whose cells differ, before its entries: its tag, and the count of its entries.
fn put_head<W: Write, const C: u32>(
    out: &mut Output<C>,
    writer: &mut Watched<W>,
    count: u16,
) -> Result<(), SaveFault>
    ensures counts { C ≡ 1 → IsOk result }
    ensures puts { OnOk result (Puts (sent C out.old (W.contents (source writer.old))) (sent C out.new (W.contents (source writer.new)))
        (3 ∷ to_be_bytes w16 count)) }
    ensures failed { has_failed writer.new ≡ (has_failed writer.old || is_err result) }
{
    out.put(writer, [NODE].as_slice())?;
    out.put(writer, count.to_be_bytes().as_slice())
}

/// Writes the head of the level's block around a coordinate, whose cells differ. An output that only counts needs no count of the
/// entries.
pub(crate) fn put_node_head<V: GridValue, W: Write, const C: u32>(
    out: &mut Output<C>,
    writer: &mut Watched<W>,
    tree: &Tree<V>,
    level: Level,
    below: Level,
    p: Coord,
    steps: &mut Steps,
) -> Result<(), SaveFault>
    requires { IsNextAbove level below }
    ensures counts { C ≡ 1 → IsOk result }
    ensures puts { OnOk result (Puts (sent C out.old (W.contents (source writer.old))) (sent C out.new (W.contents (source writer.new)))
        (3 ∷ to_be_bytes w16 (length (listed V.eq V.bytes_of vdb (field_of vdb tree.now) level (block_around vdb level p))))) }
    ensures failed { has_failed writer.new ≡ (has_failed writer.old || is_err result) }
{
    if C == COUNTING {
        out.count(HEAD);
        return Ok(());
    }
    let count = count_listed(tree, level, below, p, steps);
    put_head(out, writer, count)
}

/// Returns the first entry, from this one on, that holds anything but the background, of the block around a coordinate.
pub(crate) fn next_listed<V: GridValue>(
    tree: &Tree<V>,
    level: Level,
    below: Level,
    p: Coord,
    from: u32,
    steps: &mut Steps,
) -> Option<u32>
    requires levels { IsNextAbove level below }
    requires within { from ≤ entries vdb level }
    ensures { IsFirstWithout (λ i. is_background V.eq (field_of vdb tree.now) (sub_block vdb level (block_around vdb level p) i) ≡ true)
        (entries vdb level) from result }
{
    let background = Cell {
        value: tree.background(),
        on: false,
    };
    let mut at = from;
    while let Some(i) = tree.next_unlike(level, p, background, at, steps) {
        let corner = p.entry_block_in(Bits::VDB, level, i as u16).min();
        if !tree.is_block_of(below, corner, background, steps) {
            return Some(i);
        }
        at = i + 1;
    }
    None
}

/// Returns how many entries of the block around a coordinate hold anything but the background.
fn count_listed<V: GridValue>(
    tree: &Tree<V>,
    level: Level,
    below: Level,
    p: Coord,
    steps: &mut Steps,
) -> u16
    requires { IsNextAbove level below }
    ensures { result ≡ length (listed V.eq V.bytes_of vdb (field_of vdb tree.now) level (block_around vdb level p)) }
{
    let mut count = 0;
    let mut from = 0;
    while let Some(i) = next_listed(tree, level, below, p, from, steps) {
        count += 1;
        from = i + 1;
    }
    count
}

/// Writes a voxel to the start of the bytes, its number and then its cell, and returns how many bytes these are. It reads no byte
/// back, since such a read would wait for the store.
#[inline(always)]
fn put_voxel<V: Voxel>(bytes: &mut [u8], i: u16, cell: Cell<V>) -> usize
    requires { length bytes.old ≡ VOXEL }
    ensures few { result ≤ VOXEL }
    ensures length { length bytes.new ≡ VOXEL }
    ensures bytes { take result bytes.new ≡ to_be_bytes w16 i ++ cell_bytes V.eq V.bytes_of cell }
{
    bytes[..2].copy_from_slice(&i.to_be_bytes());
    bytes[2..3].copy_from_slice(&[state_byte(cell.on)]);
    let mut value = [0; 8];
    let count = cell.value.to_bytes(&mut value);
    bytes[3..3 + count].copy_from_slice(&value[..count]);
    3 + count
}

/// Returns whether a cell isn't the background. If `other` says that its state is another one, no value is compared.
#[inline(always)]
fn is_unlike<V: Voxel>(other: bool, cell: Cell<V>, background: Cell<V>) -> bool
    requires { IsTrue other → beq cell.on background.on ≡ false }
    ensures { result ≡ not (cell_eq V.eq cell background) }
{
    other || cell != background
}

/// Encodes those of the first voxels of a leaf that aren't the background, each after its number. Returns how many bytes and how
/// many voxels these are. It reads 64 voxels at a time, whose states are one word.
#[inline(always)]
fn encode_voxels<V: Stored<8>>(
    leaf: &Leaf<V, 3, 8>,
    background: Cell<V>,
    n: u32,
    bytes: &mut [u8; VOXELS],
) -> (usize, u16)
    requires within { n ≤ entry_count 3 }
    requires few { n ≤ 512 }
    requires rows { n % 64 ≡ 0 }
    requires inactive { background.on ≡ false }
    ensures few { result.0 ≤ VOXEL * n }
    ensures count { (d : Cell V) → result.1 ≡ length (passing (λ i. not (cell_eq V.eq (cell_in d leaf.now i) background)) n) }
    ensures bytes { (d : Cell V) → take result.0 bytes.new
        ≡ numbered (λ i. cell_bytes V.eq V.bytes_of (cell_in d leaf.now i)) (passing (λ i. not (cell_eq V.eq (cell_in d leaf.now i) background)) n) }
{
    let states = leaf.states();
    let mut len = 0;
    let mut count = 0;
    'rows: for k in 0..n / 64 {
        let mut values = [background.value; 64];
        leaf.copy_values(64 * k, &mut values);
        let all = states.word(k) == u64::MAX;
        'row: for j in 0..64u32 {
            let i = 64 * k + j;
            let cell = Cell {
                value: values[j as usize],
                on: states.test(i),
            };
            if is_unlike(all, cell, background) {
                len += put_voxel(&mut bytes[len..len + VOXEL], i as u16, cell);
                count += 1;
            }
        }
    }
    (len, count)
}

/// Returns the cell of the leaf extent around a coordinate if all its voxels have that cell.
fn one_cell<V: GridValue>(tree: &Tree<V>, p: Coord, leaf: &Leaf<V, 3, 8>) -> Option<Cell<V>>
    requires { IsLeafAround vdb (field_of vdb tree.now) p leaf.now }
    ensures test { is_some result ≡ is_constant V.eq (field_of vdb tree.now) (block_around vdb leaf_level p) }
    ensures cell { IfSome result (λ cell. (field_of vdb tree.now).cell (block_around vdb leaf_level p).min ≡ cell) }
{
    let _ = leaf.entry(u32::from(Bits::VDB.entries(Level::Leaf)) - 1); // the proof learns from it that each entry has a cell
    leaf.constant()
}

/// Writes the body of the leaf extent around a coordinate, which has a leaf.
fn put_leaf_cells<V: GridValue, W: Write, const C: u32>(
    out: &mut Output<C>,
    writer: &mut Watched<W>,
    tree: &Tree<V>,
    p: Coord,
    leaf: &Leaf<V, 3, 8>,
) -> Result<(), SaveFault>
    requires { IsLeafAround vdb (field_of vdb tree.now) p leaf.now }
    ensures counts { C ≡ 1 → IsOk result }
    ensures puts { OnOk result (Puts (sent C out.old (W.contents (source writer.old))) (sent C out.new (W.contents (source writer.new)))
        (leaf_body V.eq V.bytes_of vdb (field_of vdb tree.now) (block_around vdb leaf_level p))) }
    ensures failed { has_failed writer.new ≡ (has_failed writer.old || is_err result) }
{
    if let Some(cell) = one_cell(tree, p, leaf) {
        return put_cell(out, writer, cell);
    }
    let background = Cell {
        value: tree.background(),
        on: false,
    };
    let mut bytes = [0; VOXELS]; // an output that only counts reads none of them, so the compiler drops the writes
    let n = u32::from(Bits::VDB.entries(Level::Leaf));
    let (len, count) = encode_voxels(leaf, background, n, &mut bytes);
    put_head(out, writer, count)?;
    out.put(writer, &bytes[..len])
}

/// Writes the body of the leaf extent around a coordinate.
pub(crate) fn put_leaf<V: GridValue, W: Write, const C: u32>(
    out: &mut Output<C>,
    writer: &mut Watched<W>,
    tree: &Tree<V>,
    p: Coord,
    steps: &mut Steps,
) -> Result<(), SaveFault>
    ensures counts { C ≡ 1 → IsOk result }
    ensures puts { OnOk result (Puts (sent C out.old (W.contents (source writer.old))) (sent C out.new (W.contents (source writer.new)))
        (leaf_body V.eq V.bytes_of vdb (field_of vdb tree.now) (block_around vdb leaf_level p))) }
    ensures failed { has_failed writer.new ≡ (has_failed writer.old || is_err result) }
{
    match tree.leaf(p, steps) {
        Some(leaf) => put_leaf_cells(out, writer, tree, p, leaf),
        None => put_cell(out, writer, tree.get(p, steps)),
    }
}
