//! Reads the voxels of a leaf extent.

ghost use Rattle.std.specs.List.{slice_range};
ghost use Rattle.std.specs.Prelude.{◌≡◌, ℕ, ◌+◌, ◌*◌, ◌%◌, ◌<◌, ◌≤◌, false, Err, IfErr, IfOk, IfSome, List, Option, Some, length, slice_index_or, take};
ghost use Rattle.vdb_coord.specs.Blocks.{vdb};
ghost use Rattle.vdb_coord.specs.declared.Coord.{Coord};
ghost use Rattle.vdb_node.specs.Leaf.{IsConstantLeaf};
ghost use Rattle.vdb_node.specs.Nodes.{entry_count};
ghost use Rattle.vdb_value.specs.Values.{byte_count};
ghost use Rattle.vdb_tree.specs.Field.{off};
ghost use Rattle.vdb_file.specs.Faults.{is_read_fault};
ghost use Rattle.vdb_file.specs.internal.FieldFaults.{IsInner};
ghost use Rattle.vdb_file.specs.internal.Loading.{IsIndex};
ghost use Rattle.vdb_file.specs.internal.LeafVoxels.{IsActive, IsFilled, IsMixed, IsVoxel, leaf_field, voxel_bytes, voxel_count, voxels_bytes};
ghost use Rattle.vdb_file.specs.internal.Reading.{EndsWith, Moves, Reads, Stock, ahead, passed, position};

use crate::fault::LoadFault;
use crate::loading::block_head::{index_follows, take_cell, take_index};
use crate::loading::input::Input;
use crate::loading::source::Source;
use std::alloc::Global;
use vdb_mask::Mask;
use vdb_node::{Leaf, Stored};
use vdb_value::{Cell, Kind, Voxel};

/// The number of voxels of a leaf extent.
pub(crate) const VOXELS: u16 = 512;

/// The number of voxels of a leaf extent that differ only along z.
const ROW: u16 = 8;

/// Reads this many voxels of a leaf extent whose cells differ: all voxels that aren't the background. Returns a leaf with these
/// cells.
pub(crate) fn take_listed_voxels<V: Stored<8>, S: Source>(
    alloc: Global,
    background: V,
    count: u16,
    input: &mut Input,
    reader: &mut S,
) -> Result<Leaf<V, 3, 8>, LoadFault>
    requires value { V.is_value background }
    requires ends { EndsWith input.old (S.state reader.old) }
    ensures moves { Moves input.old (S.state reader.old) input.new (S.state reader.new) result }
    ensures reads { (p : Coord) → Reads (leaf_field vdb p background) (λ f. IsMixed V.eq V.is_value background vdb p f × (voxel_count V.eq V.bytes_of vdb p f ≡ count))
        (voxels_bytes V.eq V.bytes_of vdb p) result
        (ahead input.old (S.state reader.old)) (ahead input.new (S.state reader.new)) }
    ensures inner { IfErr result IsInner }
{
    let empty = Cell {
        value: background,
        on: false,
    };
    let mut leaf = match Leaf::new_constant(alloc, empty) {
        Ok(leaf) => leaf,
        Err(_) => return Err(LoadFault::Memory),
    };
    take_voxels(background, count, &mut leaf, input, reader)?;
    let _ = leaf.states(); // the proof learns from it that each entry has a value
    match leaf.constant() {
        Some(_) => Err(LoadFault::ConstantNode),
        None => Ok(leaf),
    }
}

/// Reads this many voxels into a leaf that holds nothing but the background: in one step if their bytes are unread.
fn take_voxels<V: Stored<8>, S: Source>(
    background: V,
    count: u16,
    leaf: &mut Leaf<V, 3, 8>,
    input: &mut Input,
    reader: &mut S,
) -> Result<(), LoadFault>
    requires value { V.is_value background }
    requires empty { IsConstantLeaf leaf.old (entry_count 3) (off background) }
    requires ends { EndsWith input.old (S.state reader.old) }
    ensures moves { Moves input.old (S.state reader.old) input.new (S.state reader.new) result }
    ensures reads { (p : Coord) → Reads (λ _. leaf_field vdb p background leaf.new) (IsFilled V.eq V.bytes_of V.is_value background vdb p count)
        (voxels_bytes V.eq V.bytes_of vdb p) result
        (ahead input.old (S.state reader.old)) (ahead input.new (S.state reader.new)) }
    ensures inner { IfErr result IsInner }
{
    let len = voxels_len::<V>(count);
    if let Some(bytes) = input.peek(len) {
        let result = read_voxels(background, count, bytes, leaf);
        input.skip(len);
        return result;
    }
    take_each_voxel(background, count, leaf, input, reader)
}

/// Reads this many voxels from their bytes into a leaf that holds nothing but the background.
fn read_voxels<V: Stored<8>>(
    background: V,
    count: u16,
    bytes: &[u8],
    leaf: &mut Leaf<V, 3, 8>,
) -> Result<(), LoadFault>
    requires value { V.is_value background }
    requires empty { IsConstantLeaf leaf.old (entry_count 3) (off background) }
    requires length { length bytes.now ≡ count * (3 + byte_count V.KIND) }
    ensures reads { (p : Coord) (s : Stock) (known : Option (List ℕ)) → bytes.now ≡ take (length bytes.now) s.unread → length bytes.now ≤ s.capacity
        → Reads (λ _. leaf_field vdb p background leaf.new) (IsFilled V.eq V.bytes_of V.is_value background vdb p count)
        (voxels_bytes V.eq V.bytes_of vdb p) result (position s known) (position (passed (length bytes.now) s) known) }
    ensures inner { IfErr result IsInner }
    ensures whole { result ≡ Err LoadFault.Truncated → ⊥ }
    ensures read { is_read_fault result ≡ false }
{
    let size = voxels_len::<V>(1);
    let mut before = None;
    let mut n = 0;
    let mut at = 0;
    'rows: while let Some(row) = next_row(before, background, count - n, &bytes[at..]) {
        leaf.set_cells(u32::from(row.0), &row.1, &Mask::filled(true));
        before = Some(row.0 + 7);
        n += ROW;
        at += 8 * size;
    }
    'voxels: while n < count {
        let voxel = voxel_of(VOXELS, before, background, &bytes[at..at + size])?;
        leaf.set(u32::from(voxel.0), voxel.1);
        before = Some(voxel.0);
        n += 1;
        at += size;
    }
    Ok(())
}

/// Returns the first eight of so many voxels by their bytes, if they are active and lie side by side along z: the number of the first,
/// which must be greater than the one before, and their values.
#[inline(always)]
fn next_row<V: Voxel>(
    before: Option<u16>,
    background: V,
    count: u16,
    bytes: &[u8],
) -> Option<(u16, [V; 8])>
    requires { length bytes.now ≡ count * (3 + byte_count V.KIND) }
    ensures few { IfSome result (λ row. 8 ≤ count) }
    ensures length { IfSome result (λ row. length row.1 ≡ 8) }
    ensures first { IfSome result (λ row. IsIndex 512 before row.0 × (row.0 % 8 ≡ 0)) }
    ensures voxels { IfSome result (λ row. (k : ℕ) (d : V) → k < 8 → IsActive V.eq V.bytes_of V.is_value (row.0 + k) (slice_index_or row.1 k d)
        (slice_range bytes.now (k * (3 + byte_count V.KIND)) (k * (3 + byte_count V.KIND) + (3 + byte_count V.KIND)))) }
{
    if count < ROW {
        return None;
    }
    let first = u16::from_be_bytes([bytes[0], bytes[1]]);
    if first % ROW != 0 || first >= VOXELS || !index_follows(before, first) {
        return None;
    }
    let size = voxels_len::<V>(1);
    let mut values = [background; 8];
    'row: for k in 0..8usize {
        values[k] = active_value(first + k as u16, &bytes[k * size..k * size + size])?;
    }
    Some((first, values))
}

/// Returns the value of the active voxel with these bytes, if there is one with this number.
#[inline(always)]
fn active_value<V: Voxel>(i: u16, bytes: &[u8]) -> Option<V>
    requires { 3 ≤ length bytes.now }
    ensures { IfSome result (λ value. IsActive V.eq V.bytes_of V.is_value i value bytes.now) }
{
    if u16::from_be_bytes([bytes[0], bytes[1]]) != i || bytes[2] != 2 {
        return None;
    }
    V::from_bytes(&bytes[3..])
}

/// Reads this many voxels, one after another, into a leaf that holds nothing but the background.
fn take_each_voxel<V: Stored<8>, S: Source>(
    background: V,
    count: u16,
    leaf: &mut Leaf<V, 3, 8>,
    input: &mut Input,
    reader: &mut S,
) -> Result<(), LoadFault>
    requires value { V.is_value background }
    requires empty { IsConstantLeaf leaf.old (entry_count 3) (off background) }
    requires ends { EndsWith input.old (S.state reader.old) }
    ensures moves { Moves input.old (S.state reader.old) input.new (S.state reader.new) result }
    ensures reads { (p : Coord) → Reads (λ _. leaf_field vdb p background leaf.new) (IsFilled V.eq V.bytes_of V.is_value background vdb p count)
        (voxels_bytes V.eq V.bytes_of vdb p) result
        (ahead input.old (S.state reader.old)) (ahead input.new (S.state reader.new)) }
    ensures inner { IfErr result IsInner }
{
    let mut before = None;
    for _ in 0..count {
        let voxel = take_voxel(VOXELS, before, background, input, reader)?;
        leaf.set(u32::from(voxel.0), voxel.1);
        before = Some(voxel.0);
    }
    Ok(())
}

/// Reads the number of a voxel, which must be greater than the one before, and then its cell, which must not be the background.
fn take_voxel<V: Voxel, S: Source>(
    most: u16,
    before: Option<u16>,
    background: V,
    input: &mut Input,
    reader: &mut S,
) -> Result<(u16, Cell<V>), LoadFault>
    requires ends { EndsWith input.old (S.state reader.old) }
    ensures moves { Moves input.old (S.state reader.old) input.new (S.state reader.new) result }
    ensures reads { Reads (λ e. e) (IsVoxel V.eq V.is_value background most before) (voxel_bytes V.eq V.bytes_of) result
        (ahead input.old (S.state reader.old)) (ahead input.new (S.state reader.new)) }
    ensures inner { IfErr result IsInner }
{
    let count = voxels_len::<V>(1);
    if let Some(bytes) = input.peek(count) {
        let voxel = voxel_of(most, before, background, bytes);
        input.skip(count);
        return voxel;
    }
    let i = take_index(most, before, input, reader)?;
    let cell = take_cell(background, input, reader)?;
    Ok((i, cell))
}

/// Returns how many bytes this many voxels have.
fn voxels_len<V: Voxel>(count: u16) -> usize
    ensures { result ≡ count * (3 + byte_count V.KIND) }
{
    let count = usize::from(count);
    match V::KIND {
        Kind::Bool => count * 4,
        Kind::I32 => count * 7,
        Kind::I64 => count * 11,
    }
}

/// Returns the voxel with these bytes: its number, which must be greater than the one before, and then its cell, which must not be the
/// background.
fn voxel_of<V: Voxel>(
    most: u16,
    before: Option<u16>,
    background: V,
    bytes: &[u8],
) -> Result<(u16, Cell<V>), LoadFault>
    requires { 3 ≤ length bytes.now }
    ensures voxel { IfOk result (IsVoxel V.eq V.is_value background most before) }
    ensures bytes { IfOk result (λ e. voxel_bytes V.eq V.bytes_of e ≡ bytes.now) }
    ensures none { IfErr result (λ fault. (e : ℕ × Cell V) → IsVoxel V.eq V.is_value background most before e → voxel_bytes V.eq V.bytes_of e ≡ bytes.now → ⊥) }
    ensures inner { IfErr result IsInner }
    ensures whole { result ≡ Err LoadFault.Truncated → ⊥ }
    ensures read { is_read_fault result ≡ false }
{
    let i = u16::from_be_bytes([bytes[0], bytes[1]]);
    if i >= most || !index_follows(before, i) {
        return Err(LoadFault::Index);
    }
    let on = match bytes[2] {
        1 => false,
        2 => true,
        _ => return Err(LoadFault::Tag),
    };
    match V::from_bytes(&bytes[3..]) {
        Some(value) if !on && value == background => Err(LoadFault::Background),
        Some(value) => Ok((i, Cell { value, on })),
        None => Err(LoadFault::Value),
    }
}
