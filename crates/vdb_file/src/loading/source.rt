//! What the bytes of a file are read from: a watched reader, or bytes in memory.

ghost use Rattle.std.specs.Prelude.{◌≡◌, ◌||◌, Some, false, is_err};
ghost use Rattle.std.specs.Io.{ReadsAtMost};
ghost use Rattle.std.specs.Io.KnownBytes.{ReadConsumes};
ghost use Rattle.vdb_scene.specs.Watched.{bytes_given, empty_after, empty_reads, given_after, has_failed, source};
ghost use Rattle.vdb_file.specs.internal.Reading.{Reader};

use std::io;
use std::io::Read;
use vdb_scene::Watched;

/// What the bytes of a file are read from. It knows whether one of its reads has failed, and counts what they gave.
pub(crate) trait Source {
    /// The bytes that it still has, whether one of its reads has failed, and what they gave. Each count is at most 2 ^ 64 - 1.
    ghost state: { Self → Reader };

    /// Reads bytes to the head of a buffer, and returns how many.
    fn read_into(&mut self, buf: &mut [u8]) -> io::Result<usize>
        ensures bound { ReadsAtMost result buf.new }
        ensures bytes { ReadConsumes (state self.old).remaining (state self.new).remaining result buf.new }
        ensures failed { (state self.new).failed ≡ ((state self.old).failed || is_err result) }
        ensures given { (state self.new).given ≡ given_after result (state self.old).given }
        ensures empty { (state self.new).empty ≡ empty_after result (state self.old).empty };
}

impl<R: Read> Source for Watched<R> {
    ghost state = { λ w. record { remaining = R.remaining (source w); failed = has_failed w; given = bytes_given w; empty = empty_reads w } };

    fn read_into(&mut self, buf: &mut [u8]) -> io::Result<usize> {
        self.read(buf)
    }
}

/// Bytes in memory, of which no read fails, with the counts of what the reads gave.
#[derive(Drop)]
pub(crate) struct Bytes<'a> {
    pub(crate) rest: &'a [u8],
    pub(crate) given: u64,
    pub(crate) empty: u64,
}

impl Source for Bytes<'_> {
    ghost state = { λ b. record { remaining = Some b.rest.now; failed = false; given = b.given; empty = b.empty } };

    fn read_into(&mut self, buf: &mut [u8]) -> io::Result<usize> {
        let result = self.rest.read(buf);
        match &result {
            Ok(n) => {
                self.given = self.given.saturating_add(*n as u64);
                if *n == 0 {
                    self.empty = self.empty.saturating_add(1);
                }
            }
            Err(_) => {}
        }
        result
    }
}
