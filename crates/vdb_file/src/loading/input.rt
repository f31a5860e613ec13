//! Buffers the bytes of a file on their way from a reader.

ghost use Rattle.std.specs.Prelude.{◌≡◌, ℕ, ◌+◌, ◌++◌, ◌-◌, ◌<◌, ◌≤◌, ◌||◌, true, false, List, [], Option, is_err, length, min, take, drop, IfErr, IfSome, Ok, OnOk, Some};
ghost use Rattle.std.specs.Io.KnownBytes.{IsAtEnd, Keeps, prepend_known};
ghost use Rattle.vdb_file.specs.Faults.{is_read_fault};
ghost use Rattle.vdb_file.specs.internal.Reading.{EndsWith, GaveWithin, byte_total};

use crate::fault::LoadFault;
use crate::loading::source::Source;
use std::marker::Model;

/// The most bytes that one call asks the reader for.
const PAGE: usize = 65536;

/// The most bytes that the fields of a file may have: 256 MiB.
const MOST_BYTES: usize = 268_435_456;

/// The bytes that a reader gave and that no field has read yet, and how many more bytes the fields may have. It asks for at most
/// one byte more than those.
#[derive(Drop)]
pub(crate) struct Input {
    page: [u8; PAGE],
    start: usize,
    end: usize,
    capacity: usize,
    ended: bool,
}

impl Model for Input {
    ghost use Rattle.std.specs.Prelude.{◌+◌, ◌≤◌, slice_range};
    ghost use Rattle.vdb_file.specs.internal.Reading.{Stock};

    ghost Value = { Stock };

    ghost view = { λ s. record { unread = slice_range s.page s.start s.end; capacity = s.capacity; ended = s.ended } };

    ghost invariant = { λ s. (s.start ≤ s.end) × (s.end ≤ 65536) × (s.capacity ≤ 268435456) × (s.end ≤ s.start + s.capacity + 1) };
}

impl Input {
    /// Returns an input without bytes, with capacity for all of a file.
    pub(crate) fn new() -> Self
        ensures { result ≡ record { unread = []; capacity = MOST_BYTES; ended = false } }
    {
        Input {
            page: [0; PAGE],
            start: 0,
            end: 0,
            capacity: MOST_BYTES,
            ended: false,
        }
    }

    /// Returns how many bytes the remaining fields may have.
    pub(crate) fn capacity(&self) -> usize
        ensures { result ≡ self.now.capacity }
    {
        self.capacity
    }

    /// Returns whether an unread byte exists. If none does, it first asks the reader for more, unless the reader has ended.
    pub(crate) fn fill<S: Source>(&mut self, reader: &mut S) -> Result<bool, LoadFault>
        requires ends { EndsWith self.old (S.state reader.old) }
        ensures ends { EndsWith self.new (S.state reader.new) }
        ensures total { (n : ℕ) → byte_total self.old (S.state reader.old).remaining ≡ Some n → byte_total self.new (S.state reader.new).remaining ≡ Some n }
        ensures given { (n m : ℕ) → GaveWithin n m self.old (S.state reader.old).given (S.state reader.old).empty → GaveWithin n m self.new (S.state reader.new).given (S.state reader.new).empty }
        ensures some { result ≡ Ok true → 0 < length self.new.unread }
        ensures none { result ≡ Ok false → self.new.unread ≡ [] }
        ensures end { result ≡ Ok false → IsAtEnd (S.state reader.new).remaining }
        ensures ended { result ≡ Ok false → self.new.ended ≡ true }
        ensures kept { OnOk result (Keeps (prepend_known self.old.unread (S.state reader.old).remaining)
            (prepend_known self.new.unread (S.state reader.new).remaining)) }
        ensures capacity { self.new.capacity ≡ self.old.capacity }
        ensures quiet { self.old.ended ≡ true → reader.new ≡ reader.old }
        ensures read { IfErr result (λ fault. fault ≡ LoadFault.Read) }
        ensures failed { (S.state reader.new).failed ≡ ((S.state reader.old).failed || is_read_fault result) }
    {
        if self.start < self.end {
            return Ok(true);
        }
        self.refill(reader)?;
        Ok(self.start < self.end)
    }

    /// Asks the reader for bytes, unless the reader has ended. No byte is unread.
    #[tactic(auto, unfolding(crate::specs::internal::Reading::GaveWithin))]
    fn refill<S: Source>(&mut self, reader: &mut S) -> Result<(), LoadFault>
        requires unread { self.old.unread ≡ [] }
        requires ends { EndsWith self.old (S.state reader.old) }
        ensures ends { EndsWith self.new (S.state reader.new) }
        ensures total { (n : ℕ) → byte_total self.old (S.state reader.old).remaining ≡ Some n → byte_total self.new (S.state reader.new).remaining ≡ Some n }
        ensures given { (n m : ℕ) → GaveWithin n m self.old (S.state reader.old).given (S.state reader.old).empty → GaveWithin n m self.new (S.state reader.new).given (S.state reader.new).empty }
        ensures marks { OnOk result (self.new.unread ≡ [] → self.new.ended ≡ true) }
        ensures kept { OnOk result (Keeps (prepend_known self.old.unread (S.state reader.old).remaining)
            (prepend_known self.new.unread (S.state reader.new).remaining)) }
        ensures capacity { self.new.capacity ≡ self.old.capacity }
        ensures quiet { self.old.ended ≡ true → reader.new ≡ reader.old }
        ensures read { IfErr result (λ fault. fault ≡ LoadFault.Read) }
        ensures failed { (S.state reader.new).failed ≡ ((S.state reader.old).failed || is_err result) }
    {
        if self.ended {
            return Ok(());
        }
        let wanted = (self.capacity + 1).min(PAGE); // a byte beyond the capacity shows that the file is too long
        let came = match reader.read_into(&mut self.page[..wanted]) {
            Ok(came) => came,
            Err(_) => return Err(LoadFault::Read),
        };
        self.start = 0;
        self.end = came;
        self.ended = came == 0;
        Ok(())
    }

    /// Returns the next unread bytes, this many. Returns `None` if fewer are unread or the fields may not have that many.
    pub(crate) fn peek(&self, count: usize) -> Option<&[u8]>
        ensures bytes { IfSome result (λ bytes. bytes.now ≡ take count self.now.unread) }
        ensures within { IfSome result (λ bytes. count ≤ length self.now.unread) }
        ensures capacity { IfSome result (λ bytes. count ≤ self.now.capacity) }
    {
        if count > self.end - self.start || count > self.capacity {
            return None;
        }
        Some(&self.page[self.start..self.start + count])
    }

    /// Passes over unread bytes, this many.
    #[tactic(auto, unfolding(crate::specs::internal::Reading::GaveWithin))]
    pub(crate) fn skip(&mut self, count: usize)
        requires within { count ≤ length self.old.unread }
        requires fits { count ≤ self.old.capacity }
        ensures unread { self.new.unread ≡ drop count self.old.unread }
        ensures capacity { self.new.capacity ≡ self.old.capacity - count }
        ensures ended { self.new.ended ≡ self.old.ended }
        ensures total { (known : Option (List ℕ)) → byte_total self.new known ≡ byte_total self.old known }
        ensures given { (n m given empty : ℕ) → GaveWithin n m self.old given empty → GaveWithin n m self.new given empty }
    {
        self.start += count;
        self.capacity -= count;
    }

    /// Copies unread bytes into a field from one position on, as many as are unread and the field needs. Returns how many.
    pub(crate) fn run(&mut self, field: &mut [u8], at: usize) -> usize
        requires within { at ≤ length field.old }
        requires fits { length field.old ≤ at + self.old.capacity }
        ensures count { result ≡ min (length field.old - at) (length self.old.unread) }
        ensures field { take (at + result) field.new ≡ take at field.old ++ take result self.old.unread }
        ensures unread { self.new.unread ≡ drop result self.old.unread }
        ensures capacity { self.new.capacity ≡ self.old.capacity - result }
        ensures ended { self.new.ended ≡ self.old.ended }
        ensures total { (known : Option (List ℕ)) → byte_total self.new known ≡ byte_total self.old known }
        ensures given { (n m given empty : ℕ) → GaveWithin n m self.old given empty → GaveWithin n m self.new given empty }
    {
        let count = (field.len() - at).min(self.end - self.start);
        field[at..at + count].copy_from_slice(&self.page[self.start..self.start + count]);
        self.skip(count);
        count
    }
}
