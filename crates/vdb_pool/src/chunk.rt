//! The chunks of a pool: blocks with equally many slots each.
ghost use Rattle.std.specs.Prelude.{◌≡◌, ◌<◌, ◌*◌, ◌/◌, ◌%◌, length, get_or};
ghost use denote.RawPtr.{null_ptr};
ghost use Rattle.vdb_pool.specs.internal.Chunks.{AreWhole, rows_of, slots_of};

use crate::slot::Slot;
use crate::storage::{Address, Block};
use std::alloc::Global;

/// Returns how many slots of this many bytes a chunk has: as many as fit 24 KiB, of the divisors of `u32::MAX` from 1 to 255. By
/// a divisor the last chunk that a pool may have is whole too.
pub(crate) fn slots_of(bytes: usize) -> u32
    ensures value { result ≡ slots_of bytes }
    ensures some { 0 < result }
    ensures divides { 4294967295 % result ≡ 0 }
{
    match bytes {
        0..=96 => 255,
        97..=289 => 85,
        290..=481 => 51,
        482..=1445 => 17,
        1446..=1638 => 15,
        1639..=4915 => 5,
        4916..=8192 => 3,
        _ => 1,
    }
}

/// Returns the chunk of a slot and its index there, by the slots of a chunk and the most chunks that a pool may have. The product of
/// these two is 4,294,967,295, so that a multiplication and a shift divide.
#[inline(always)]
fn chunk_and_index(slot: u32, len: u32, most: u32) -> (u32, u32)
    requires { len * most ≡ 4294967295 }
    ensures chunk { result.0 ≡ slot / len }
    ensures index { result.1 ≡ slot % len }
{
    let chunk = (((slot as u64 + 1) * most as u64) >> 32) as u32;
    (chunk, slot - chunk * len)
}

/// A block of slots, with its address.
pub struct Chunk<T> {
    pub(crate) base: Address<Slot<T>>,
    pub(crate) block: Block<Slot<T>, Global>,
}

/// Returns the address of a slot, by the slots of a chunk and the most chunks.
pub(crate) fn address_in<T>(chunks: &[Chunk<T>], len: u32, most: u32, slot: u32) -> Address<Slot<T>>
    requires all { len * most ≡ 4294967295 }
    requires whole { AreWhole len chunks.now }
    requires within { slot < length (rows_of len chunks.now) }
    ensures { result.pointer ≡ get_or (rows_of len chunks.now) slot null_ptr }
{
    let (chunk, index) = chunk_and_index(slot, len, most);
    let chunk = &chunks[chunk as usize];
    chunk.block.place(chunk.base, index as usize)
}
