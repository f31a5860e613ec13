//! Buffers the bytes of a file on their way to a writer.

ghost use Rattle.std.specs.Prelude.{◌≡◌, ◌≤◌, ◌||◌, [], is_err, length, IsOk, List, OnOk, Option, ℕ};
ghost use Rattle.std.specs.Io.KnownBytes.{Appends};
ghost use Rattle.vdb_scene.specs.Watched.{has_failed, source};
ghost use Rattle.vdb_file.specs.internal.Written.{Puts, sent};

use crate::fault::SaveFault;
use arrayvec::ArrayVec;
use std::io::Write;
use std::marker::Model;
use vdb_scene::Watched;

/// The most bytes that wait in the buffer before they are written.
const PAGE: usize = 65536;

/// The mode of an output that writes.
pub(crate) const WRITING: u32 = 0;

/// The mode of an output that only counts.
pub(crate) const COUNTING: u32 = 1;

/// A buffer of bytes to be written together, and the count of all bytes so far. If `COUNTS` is `COUNTING`, it only counts the
/// bytes: it keeps and writes none.
#[derive(Drop)]
pub(crate) struct Output<const COUNTS: u32> {
    page: ArrayVec<u8, PAGE>,
    total: u64,
}

impl<const COUNTS: u32> Model for Output<COUNTS> {
    ghost use Rattle.vdb_file.specs.internal.Written.{Kept};

    ghost Value = { Kept };

    ghost view = { λ o. record { pending = o.page.items; total = o.total } };
}

impl<const COUNTS: u32> Output<COUNTS> {
    /// Returns an output without bytes.
    pub(crate) fn new() -> Self
        ensures { result ≡ record { pending = []; total = 0 } }
    {
        Output {
            page: ArrayVec::new(),
            total: 0,
        }
    }

    /// Returns how many bytes were added in all, or `u64::MAX` if there were more.
    pub(crate) fn total(&self) -> u64
        ensures { result ≡ self.now.total }
    {
        self.total
    }

    /// Appends a few bytes. If the buffer has no room for them, it first writes the bytes in the buffer.
    pub(crate) fn put<W: Write>(
        &mut self,
        writer: &mut Watched<W>,
        bytes: &[u8],
    ) -> Result<(), SaveFault>
        requires { length bytes.now ≤ PAGE }
        ensures counts { COUNTS ≡ 1 → IsOk result }
        ensures puts { OnOk result (Puts (sent COUNTS self.old (W.contents (source writer.old))) (sent COUNTS self.new (W.contents (source writer.new))) bytes.now) }
        ensures failed { has_failed writer.new ≡ (has_failed writer.old || is_err result) }
    {
        self.total = self.total.saturating_add(bytes.len() as u64);
        if COUNTS == COUNTING {
            return Ok(());
        }
        if self.page.len() + bytes.len() > PAGE {
            self.flush(writer)?;
        }
        self.page.try_extend_from_slice(bytes).unwrap();
        Ok(())
    }

    /// Counts bytes of which only their number is known.
    pub(crate) fn count(&mut self, len: usize)
        requires { COUNTS ≡ 1 }
        ensures { (before after : Option (List ℕ)) (bytes : List ℕ) → length bytes ≡ len → Puts (sent COUNTS self.old before) (sent COUNTS self.new after) bytes }
    {
        self.total = self.total.saturating_add(len as u64);
    }

    /// Writes the bytes in the buffer.
    pub(crate) fn flush<W: Write>(&mut self, writer: &mut Watched<W>) -> Result<(), SaveFault>
        ensures empty { OnOk result (self.new ≡ record { pending = []; total = self.old.total }) }
        ensures puts { OnOk result (Appends (W.contents (source writer.old)) (W.contents (source writer.new)) self.old.pending) }
        ensures failed { has_failed writer.new ≡ (has_failed writer.old || is_err result) }
    {
        write_bytes(writer, self.page.as_slice())?;
        self.page.clear();
        Ok(())
    }
}

/// Writes all of the bytes, in one call if the writer takes them all at once. It never retries a writer that fails or that takes
/// no byte.
fn write_bytes<W: Write>(writer: &mut Watched<W>, bytes: &[u8]) -> Result<(), SaveFault>
    ensures appends { OnOk result (Appends (W.contents (source writer.old)) (W.contents (source writer.new)) bytes.now) }
    ensures failed { has_failed writer.new ≡ (has_failed writer.old || is_err result) }
{
    let mut at = 0;
    while at < bytes.len() {
        match writer.write(&bytes[at..]) {
            Ok(0) => return Err(SaveFault::Write),
            Ok(taken) => at += taken,
            Err(_) => return Err(SaveFault::Write),
        }
    }
    Ok(())
}
