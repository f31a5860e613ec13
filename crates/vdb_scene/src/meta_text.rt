//! The texts of metadata pairs.
ghost use Rattle.std.specs.Prelude.{◌≡◌, ◌≤◌, length, IfSome, IfNone, false, true, nat_eq};
ghost use Rattle.std.specs.List.{list_all};
ghost use Rattle.std.specs.Cmp.{partial_equiv_from_equiv};
ghost use Rattle.std.specs.Cmp.Lexicographic.{pointwise, nat_list_eq_equiv};
ghost use Rattle.vdb_scene.specs.Metas.{is_text, is_text_byte};

use std::marker::Model;

/// The maximum number of bytes of a text.
pub const TEXT_LIMIT: usize = 64;

/// The text of a metadata pair: 1 to `TEXT_LIMIT` bytes, each a printable ASCII character other than space (hexadecimal 21 to
/// 7E).
#[derive(Clone, Copy)]
pub struct MetaText {
    bytes: [u8; TEXT_LIMIT],
    len: usize,
}

impl Model for MetaText {
    ghost use Rattle.std.specs.Prelude.{◌≡◌, ℕ, List, length, take, IsTrue};
    ghost use Rattle.vdb_scene.specs.Metas.{is_text, padded_text};

    ghost Value = { List ℕ };

    ghost view = { λ t. take t.len t.bytes };

    ghost invariant = { λ t. (padded_text (take t.len t.bytes) ≡ t.bytes) × (length (take t.len t.bytes) ≡ t.len) × IsTrue (is_text (take t.len t.bytes)) };

    ghost inverse = { λ text. record { bytes = padded_text text; len = length text } };

    ghost inverse_ok = { λ t h i. record { bytes = h.0 i; len = h.1 i } };
}

impl PartialEq for MetaText {
    ghost eq = { pointwise nat_eq };

    ghost laws = { partial_equiv_from_equiv nat_list_eq_equiv };

    fn eq(&self, other: &MetaText) -> bool {
        self.bytes() == other.bytes()
    }
}

impl Eq for MetaText {
    ghost laws = { nat_list_eq_equiv };
}

impl MetaText {
    /// Returns the text of these bytes: `None` if they are empty, more than `TEXT_LIMIT`, or one of them is not a printable ASCII
    /// character other than space.
    pub fn new(bytes: &[u8]) -> Option<MetaText>
        ensures some { IfSome result (λ text. text ≡ bytes.now) }
        ensures valid { IfSome result (λ text. is_text bytes.now ≡ true) }
        ensures none { IfNone result (is_text bytes.now ≡ false) }
    {
        if !is_text(bytes) {
            return None;
        }
        let mut kept = [0; TEXT_LIMIT];
        kept[..bytes.len()].copy_from_slice(bytes);
        Some(MetaText {
            bytes: kept,
            len: bytes.len(),
        })
    }

    /// Returns the bytes of the text.
    pub fn bytes(&self) -> &[u8]
        ensures bytes { result.now ≡ self.now }
        ensures few { length self.now ≤ TEXT_LIMIT }
        ensures valid { is_text self.now ≡ true }
    {
        &self.bytes[..self.len]
    }
}

/// Returns whether a text may have this byte.
fn fits_text(byte: u8) -> bool
    ensures { result ≡ is_text_byte byte }
{
    byte.is_ascii_graphic()
}

/// Returns whether a text may have each of these bytes.
fn all_fit_text(bytes: &[u8]) -> bool
    ensures { result ≡ list_all is_text_byte bytes.now }
{
    bytes.iter().all(|byte| fits_text(*byte))
}

/// Returns whether these bytes have the form of a text.
fn is_text(bytes: &[u8]) -> bool
    ensures { result ≡ is_text bytes.now }
{
    all_fit_text(bytes) && !bytes.is_empty() && bytes.len() <= TEXT_LIMIT
}
