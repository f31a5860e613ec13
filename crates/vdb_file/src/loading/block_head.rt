//! Reads the heads of blocks and the numbers of their entries.

ghost use Rattle.std.specs.Prelude.{◌≡◌, ◌≤◌, ◌↔◌, Err, FitsSigned, IfErr, IsTrue, Some};
ghost use Rattle.std.specs.Int.{w16, w32, to_be_bytes};
ghost use Rattle.std.specs.Ordering.{nat_cmp};
ghost use Rattle.vdb_coord.specs.Blocks.{entries, vdb};
ghost use Rattle.vdb_coord.specs.Space.{coord_cmp};
ghost use Rattle.vdb_file.specs.Bodies.{cell_bytes, key_bytes};
ghost use Rattle.vdb_file.specs.internal.FieldFaults.{IsInner};
ghost use Rattle.vdb_file.specs.internal.Following.{Follows};
ghost use Rattle.vdb_file.specs.internal.Loading.{IsHead, IsIndex, IsKey, IsSpelled, head_bytes};
ghost use Rattle.vdb_file.specs.internal.Reading.{EndsWith, Moves, Reads, ahead};

use crate::fault::LoadFault;
use crate::loading::fields::{take_u8, take_u16, take_value};
use crate::loading::input::Input;
use crate::loading::source::Source;
use vdb_coord::{Bits, Bounds, Coord, Level};
use vdb_value::{Cell, Voxel};

/// The head of a block.
#[derive(Clone, Copy)]
pub(crate) enum Head<V> {
    /// The block's one cell.
    One(Cell<V>),
    /// The number of entries that hold anything but the background, if the block's cells differ.
    Node(u16),
}

/// Reads the value of a cell with this state. The cell must not be the background.
fn take_state<V: Voxel, S: Source>(
    on: bool,
    background: V,
    input: &mut Input,
    reader: &mut S,
) -> Result<Cell<V>, LoadFault>
    requires ends { EndsWith input.old (S.state reader.old) }
    ensures moves { Moves input.old (S.state reader.old) input.new (S.state reader.new) result }
    ensures reads { Reads (λ c. c) (λ c. IsSpelled V.eq V.is_value background c × (c.on ≡ on)) (λ c. V.bytes_of c.value) result
        (ahead input.old (S.state reader.old)) (ahead input.new (S.state reader.new)) }
    ensures inner { IfErr result IsInner }
{
    let value = take_value::<V, S>(input, reader)?;
    if !on && value == background {
        return Err(LoadFault::Background);
    }
    Ok(Cell { value, on })
}

/// Reads a cell, which must not be the background.
pub(crate) fn take_cell<V: Voxel, S: Source>(
    background: V,
    input: &mut Input,
    reader: &mut S,
) -> Result<Cell<V>, LoadFault>
    requires ends { EndsWith input.old (S.state reader.old) }
    ensures moves { Moves input.old (S.state reader.old) input.new (S.state reader.new) result }
    ensures reads { Reads (λ c. c) (IsSpelled V.eq V.is_value background) (cell_bytes V.eq V.bytes_of) result
        (ahead input.old (S.state reader.old)) (ahead input.new (S.state reader.new)) }
    ensures inner { IfErr result IsInner }
{
    let tag = take_u8(input, reader)?;
    match tag {
        1 => take_state(false, background, input, reader),
        2 => take_state(true, background, input, reader),
        _ => Err(LoadFault::Tag),
    }
}

/// Reads the count of a block's listed entries: at least one and at most `most`.
fn take_count<S: Source>(most: u16, input: &mut Input, reader: &mut S) -> Result<u16, LoadFault>
    requires ends { EndsWith input.old (S.state reader.old) }
    ensures moves { Moves input.old (S.state reader.old) input.new (S.state reader.new) result }
    ensures reads { Reads (λ n. n) (λ n. (1 ≤ n) × (n ≤ most)) (to_be_bytes w16) result
        (ahead input.old (S.state reader.old)) (ahead input.new (S.state reader.new)) }
    ensures inner { IfErr result IsInner }
{
    let count = take_u16(input, reader)?;
    if count == 0 {
        return Err(LoadFault::Index);
    }
    if count > most {
        return Err(LoadFault::Index);
    }
    Ok(count)
}

/// Reads the head of a block with this many entries.
pub(crate) fn take_head<V: Voxel, S: Source>(
    background: V,
    most: u16,
    input: &mut Input,
    reader: &mut S,
) -> Result<Head<V>, LoadFault>
    requires ends { EndsWith input.old (S.state reader.old) }
    ensures moves { Moves input.old (S.state reader.old) input.new (S.state reader.new) result }
    ensures reads { Reads (λ h. h) (IsHead V.eq V.is_value background most) (head_bytes V.eq V.bytes_of) result
        (ahead input.old (S.state reader.old)) (ahead input.new (S.state reader.new)) }
    ensures inner { IfErr result IsInner }
{
    let tag = take_u8(input, reader)?;
    match tag {
        1 => Ok(Head::One(take_state(false, background, input, reader)?)),
        2 => Ok(Head::One(take_state(true, background, input, reader)?)),
        3 => Ok(Head::Node(take_count(most, input, reader)?)),
        _ => Err(LoadFault::Tag),
    }
}

/// Reads the number of an entry, below `most`, which must be greater than the one before.
pub(crate) fn take_index<S: Source>(
    most: u16,
    before: Option<u16>,
    input: &mut Input,
    reader: &mut S,
) -> Result<u16, LoadFault>
    requires ends { EndsWith input.old (S.state reader.old) }
    ensures moves { Moves input.old (S.state reader.old) input.new (S.state reader.new) result }
    ensures reads { Reads (λ i. i) (IsIndex most before) (to_be_bytes w16) result
        (ahead input.old (S.state reader.old)) (ahead input.new (S.state reader.new)) }
    ensures inner { IfErr result IsInner }
{
    let i = take_u16(input, reader)?;
    if i >= most {
        return Err(LoadFault::Index);
    }
    if !index_follows(before, i) {
        return Err(LoadFault::Index);
    }
    Ok(i)
}

/// Reads the number of an entry of one of the level's nodes, which must be greater than the one before.
pub(crate) fn take_entry_number<S: Source>(
    level: Level,
    before: Option<u16>,
    input: &mut Input,
    reader: &mut S,
) -> Result<u16, LoadFault>
    requires ends { EndsWith input.old (S.state reader.old) }
    ensures moves { Moves input.old (S.state reader.old) input.new (S.state reader.new) result }
    ensures reads { Reads (λ i. i) (IsIndex (entries vdb level) before) (to_be_bytes w16) result
        (ahead input.old (S.state reader.old)) (ahead input.new (S.state reader.new)) }
    ensures inner { IfErr result IsInner }
{
    let most = Bits::VDB.entries(level);
    take_index(most, before, input, reader)
}

/// Returns whether the number of an entry comes after the one before.
pub(crate) fn index_follows(before: Option<u16>, i: u16) -> bool
    ensures { IsTrue result ↔ Follows nat_cmp before i }
{
    match before {
        Some(last) => last < i,
        None => true,
    }
}

/// Reads three signed numbers, as one field of twelve bytes.
fn take_coord<S: Source>(input: &mut Input, reader: &mut S) -> Result<Coord, LoadFault>
    requires ends { EndsWith input.old (S.state reader.old) }
    ensures moves { Moves input.old (S.state reader.old) input.new (S.state reader.new) result }
    ensures reads { Reads (λ k. k) (λ k. FitsSigned w32 k.x × FitsSigned w32 k.y × FitsSigned w32 k.z) key_bytes result
        (ahead input.old (S.state reader.old)) (ahead input.new (S.state reader.new)) }
    ensures inner { IfErr result IsInner }
{
    if input.capacity() < 12 {
        return Err(LoadFault::TooLong);
    }
    let x = take_value::<i32, S>(input, reader)?;
    let y = take_value::<i32, S>(input, reader)?;
    let z = take_value::<i32, S>(input, reader)?;
    Ok(Coord { x, y, z })
}

/// Reads the key of a root block, which must be greater than the one before.
pub(crate) fn take_key<S: Source>(
    before: Option<Coord>,
    input: &mut Input,
    reader: &mut S,
) -> Result<Coord, LoadFault>
    requires ends { EndsWith input.old (S.state reader.old) }
    ensures moves { Moves input.old (S.state reader.old) input.new (S.state reader.new) result }
    ensures reads { Reads (λ k. k) (IsKey vdb before) key_bytes result
        (ahead input.old (S.state reader.old)) (ahead input.new (S.state reader.new)) }
    ensures inner { IfErr result IsInner }
{
    let key = take_coord(input, reader)?;
    let keys = Bounds::all().block_numbers_in(Bits::VDB, Level::Upper);
    if !keys.contains(key) {
        return Err(LoadFault::Key);
    }
    if !key_follows(before, &key) {
        return Err(LoadFault::Key);
    }
    Ok(key)
}

/// Returns whether a key comes after the one before.
fn key_follows(before: Option<Coord>, key: &Coord) -> bool
    ensures { IsTrue result ↔ Follows coord_cmp before key.now }
{
    match before {
        Some(last) => last < *key,
        None => true,
    }
}
