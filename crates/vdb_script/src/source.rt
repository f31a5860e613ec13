//! The bytes of a script, read from a reader piece by piece.

ghost use Rattle.std.specs.Prelude.{◌≡◌, ◌≢◌, ℕ, ◌+◌, ◌≤◌, ◌||◌, true, false, [], ◌∷◌, length, drop, OnOk, Err};
ghost use Rattle.std.specs.Io.KnownBytes.{Consumes, Keeps};
ghost use Rattle.vdb_scene.specs.Watched.{bytes_given, empty_reads, has_failed, source};
ghost use Rattle.vdb_script.specs.Reading.{EndsWith, ahead, budget, end_count, excess, is_read_fault};

use std::io::Read;
use std::marker::Model;
use thiserror::Error;
use vdb_scene::Watched;

/// The maximum number of bytes of a script.
pub const SCRIPT_LIMIT: usize = 16_777_216;

/// The maximum number of bytes that one call of a reader asks for.
const PIECE: usize = 4096;

/// The fault that ends a script early.
#[derive(Clone, Copy, Debug, PartialEq, Eq, Error)]
pub enum ScriptFault {
    /// A call of the reader failed.
    #[error("read")]
    Read,
    /// The script has more than `SCRIPT_LIMIT` bytes.
    #[error("too-long")]
    TooLong,
}

/// The bytes between a reader and the lines: the last piece, the number of bytes that the reader may still give, and whether it
/// has reported its end.
#[derive(Drop)]
pub struct Source {
    piece: [u8; PIECE],
    start: usize,
    end: usize,
    left: usize,
    ended: bool,
}

impl Model for Source {
    ghost use Rattle.std.specs.Prelude.{◌≤◌, slice_range};
    ghost use Rattle.vdb_script.specs.Reading.{Stock};

    ghost Value = { Stock };

    ghost view = { λ s. record { unread = slice_range s.piece s.start s.end; left = s.left; ended = s.ended } };

    ghost invariant = { λ s. (s.start ≤ s.end) × (s.end ≤ 4096) × (s.left ≤ 16777216) };
}

impl Source {
    /// Creates a source of which nothing has been read.
    pub fn new() -> Self
        ensures { result ≡ record { unread = []; left = SCRIPT_LIMIT; ended = false } }
    {
        Source {
            piece: [0; PIECE],
            start: 0,
            end: 0,
            left: SCRIPT_LIMIT,
            ended: false,
        }
    }

    /// Returns the bytes that have been read and not skipped yet.
    pub fn unread(&self) -> &[u8]
        ensures { result.now ≡ self.now.unread }
    {
        &self.piece[self.start..self.end]
    }

    /// Skips the first unread bytes.
    pub fn skip(&mut self, count: usize)
        requires { count ≤ length self.old.unread }
        ensures unread { self.new.unread ≡ drop count self.old.unread }
        ensures left { self.new.left ≡ self.old.left }
        ensures ended { self.new.ended ≡ self.old.ended }
    {
        self.start += count;
    }

    /// Reads a piece if nothing is unread, unless the reader has reported its end. After that some bytes are unread, or the
    /// script has ended.
    ///
    /// A reader that has given as many bytes as a script may have is asked for one further byte. Fails with `TooLong` if it gives
    /// one.
    fn refill<R: Read>(&mut self, reader: &mut Watched<R>) -> Result<(), ScriptFault>
        requires unread { self.old.unread ≡ [] }
        requires ends { EndsWith self.old (R.remaining (source reader.old)) }
        ensures ends { EndsWith self.new (R.remaining (source reader.new)) }
        ensures marks { OnOk result (self.new.unread ≡ [] → self.new.ended ≡ true) }
        ensures quiet { self.old.ended ≡ true → reader.new ≡ reader.old }
        ensures stays { self.old.ended ≡ true → self.new.ended ≡ true }
        ensures kept { OnOk result (Keeps (ahead self.old (R.remaining (source reader.old)))
            (ahead self.new (R.remaining (source reader.new)))) }
        ensures budget { OnOk result (budget self.new ≡ budget self.old) }
        ensures too_long { result ≡ Err ScriptFault.TooLong → (budget self.old ≡ 0)
            × ((further : ℕ) × Consumes (R.remaining (source reader.old))
            (R.remaining (source reader.new)) (further ∷ [])) }
        ensures read { result ≡ Err ScriptFault.Read →
            Keeps (ahead self.old (R.remaining (source reader.old))) (R.remaining (source reader.new)) }
        ensures failed { has_failed reader.new ≡ (has_failed reader.old || is_read_fault result) }
        ensures given { bytes_given reader.new + self.new.left ≤ bytes_given reader.old + self.old.left + excess result }
        ensures empty { empty_reads reader.new + end_count self.old ≤ empty_reads reader.old + end_count self.new }
    {
        if self.ended {
            return Ok(());
        }
        let wanted = self.left.min(PIECE).max(1);
        let came = match reader.read(&mut self.piece[..wanted]) {
            Ok(came) => came,
            Err(_) => return Err(ScriptFault::Read),
        };
        if came > self.left {
            return Err(ScriptFault::TooLong);
        }
        self.left -= came;
        self.start = 0;
        self.end = came;
        self.ended = came == 0;
        Ok(())
    }

    /// Makes sure that some bytes are unread, unless the script has ended. Calls the reader only if nothing is unread.
    ///
    /// Fails with `Read` if the reader fails, and with `TooLong` if it gives a byte past the script's limit. Nothing is unread
    /// then.
    pub fn fill<R: Read>(&mut self, reader: &mut Watched<R>) -> Result<(), ScriptFault>
        requires ends { EndsWith self.old (R.remaining (source reader.old)) }
        ensures ends { EndsWith self.new (R.remaining (source reader.new)) }
        ensures marks { OnOk result (self.new.unread ≡ [] → self.new.ended ≡ true) }
        ensures unasked { self.old.unread ≢ [] → reader.new ≡ reader.old }
        ensures quiet { self.old.ended ≡ true → reader.new ≡ reader.old }
        ensures stays { self.old.ended ≡ true → self.new.ended ≡ true }
        ensures kept { OnOk result (Keeps (ahead self.old (R.remaining (source reader.old)))
            (ahead self.new (R.remaining (source reader.new)))) }
        ensures budget { OnOk result (budget self.new ≡ budget self.old) }
        ensures too_long { result ≡ Err ScriptFault.TooLong → (budget self.old ≡ 0)
            × ((further : ℕ) × Consumes (ahead self.old (R.remaining (source reader.old)))
            (R.remaining (source reader.new)) (further ∷ [])) }
        ensures read { result ≡ Err ScriptFault.Read →
            Keeps (ahead self.old (R.remaining (source reader.old))) (R.remaining (source reader.new)) }
        ensures failed { has_failed reader.new ≡ (has_failed reader.old || is_read_fault result) }
        ensures given { bytes_given reader.new + self.new.left ≤ bytes_given reader.old + self.old.left + excess result }
        ensures empty { empty_reads reader.new + end_count self.old ≤ empty_reads reader.old + end_count self.new }
    {
        if !self.unread().is_empty() {
            return Ok(());
        }
        self.refill(reader)
    }
}
