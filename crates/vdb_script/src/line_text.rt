//! The text of one line, kept in place.

ghost use Rattle.std.specs.Prelude.{◌≡◌, ◌≤◌, ◌+◌, ◌↔◌, IsTrue, [], ◌++◌, length, if◌then◌else◌};

use std::marker::Model;

/// The maximum number of bytes of a line before its newline.
pub const LINE_LIMIT: usize = 256;

/// A text of up to `LINE_LIMIT` bytes.
#[derive(Drop)]
pub struct LineText {
    bytes: [u8; LINE_LIMIT],
    len: usize,
}

impl Model for LineText {
    ghost use Rattle.std.specs.Prelude.{ℕ, List, ◌≤◌, take};

    ghost Value = { List ℕ };

    ghost view = { λ t. take t.len t.bytes };

    ghost invariant = { λ t. t.len ≤ 256 };
}

impl LineText {
    /// Creates an empty text.
    pub fn new() -> Self
        ensures { result ≡ [] }
    {
        LineText {
            bytes: [0; LINE_LIMIT],
            len: 0,
        }
    }

    /// Returns the bytes.
    pub fn as_slice(&self) -> &[u8]
        ensures { result.now ≡ self.now }
    {
        &self.bytes[..self.len]
    }

    /// Removes all bytes.
    pub fn clear(&mut self)
        ensures { self.new ≡ [] }
    {
        self.len = 0;
    }

    /// Appends bytes if the text has capacity for all of them, and returns whether it had. Otherwise the text is unchanged.
    pub fn extend(&mut self, bytes: &[u8]) -> bool
        ensures capacity { IsTrue result ↔ (length self.old + length bytes.now ≤ LINE_LIMIT) }
        ensures text { self.new ≡ (if result then self.old ++ bytes.now else self.old) }
    {
        if bytes.len() > LINE_LIMIT - self.len {
            return false;
        }
        let end = self.len + bytes.len();
        self.bytes[self.len..end].copy_from_slice(bytes);
        self.len = end;
        true
    }
}
