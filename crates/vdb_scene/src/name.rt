//! The names of grids.
ghost use Rattle.std.specs.Prelude.{◌≡◌, ◌≤◌, ◌<◌, length, IfSome, IfNone, false, true, Some, refl, nat_eq};
ghost use Rattle.std.specs.List.{list_all};
ghost use Rattle.std.specs.Ordering.{nat_cmp};
ghost use Rattle.std.specs.Cmp.{partial_equiv_from_equiv};
ghost use Rattle.std.specs.Cmp.Lexicographic.{pointwise, slice_cmp, nat_list_eq_equiv, nat_list_cmp_total, texts_po, texts_ties};
ghost use Rattle.vdb_scene.specs.Names.{is_name, is_lower, is_name, is_name_byte};

use std::cmp::Ordering;
use std::marker::Model;

/// The maximum number of bytes of a name.
pub const NAME_LIMIT: usize = 16;

/// The name of a grid: a letter from a to z, then up to fifteen such letters, digits and underscores. Names are ordered by their
/// bytes; a name comes before each longer name that begins with it.
#[derive(Clone, Copy)]
pub struct Name {
    bytes: [u8; NAME_LIMIT],
    len: usize,
}

impl Model for Name {
    ghost use Rattle.std.specs.Prelude.{◌≡◌, ℕ, List, length, take, IsTrue};
    ghost use Rattle.vdb_scene.specs.Names.{is_name, padded};

    ghost Value = { List ℕ };

    ghost view = { λ n. take n.len n.bytes };

    ghost invariant = { λ n. (padded (take n.len n.bytes) ≡ n.bytes) × (length (take n.len n.bytes) ≡ n.len) × IsTrue (is_name (take n.len n.bytes)) };

    ghost inverse = { λ name. record { bytes = padded name; len = length name } };

    ghost inverse_ok = { λ n h i. record { bytes = h.0 i; len = h.1 i } };
}

impl PartialEq for Name {
    ghost eq = { pointwise nat_eq };

    ghost laws = { partial_equiv_from_equiv nat_list_eq_equiv };

    fn eq(&self, other: &Name) -> bool {
        self.bytes() == other.bytes()
    }
}

impl Eq for Name {
    ghost laws = { nat_list_eq_equiv };
}

impl PartialOrd for Name {
    ghost partial_cmp = { λ a b. Some (slice_cmp nat_cmp a b) };

    ghost laws = { texts_po };

    fn partial_cmp(&self, other: &Name) -> Option<Ordering> {
        Some(self.cmp(other))
    }
}

impl Ord for Name {
    ghost cmp = { slice_cmp nat_cmp };

    ghost total = { nat_list_cmp_total };

    ghost matches_partial_cmp = { λ a b. refl };

    ghost matches_eq = { texts_ties };

    fn cmp(&self, other: &Name) -> Ordering {
        self.bytes().cmp(other.bytes())
    }
}

impl Name {
    /// Returns the name of these bytes: `None` if they don't have the form of a name.
    pub fn new(bytes: &[u8]) -> Option<Name>
        ensures some { IfSome result (λ name. name ≡ bytes.now) }
        ensures valid { IfSome result (λ name. is_name bytes.now ≡ true) }
        ensures none { IfNone result (is_name bytes.now ≡ false) }
    {
        if !is_name_text(bytes) {
            return None;
        }
        let mut kept = [0; NAME_LIMIT];
        kept[..bytes.len()].copy_from_slice(bytes);
        Some(Name {
            bytes: kept,
            len: bytes.len(),
        })
    }

    /// Returns the bytes of the name.
    pub fn bytes(&self) -> &[u8]
        ensures bytes { result.now ≡ self.now }
        ensures few { length self.now ≤ NAME_LIMIT }
        ensures valid { is_name self.now ≡ true }
    {
        &self.bytes[..self.len]
    }
}

/// Returns whether a byte may begin a name.
fn begins_name(byte: u8) -> bool
    ensures { result ≡ is_lower byte }
{
    byte.is_ascii_lowercase()
}

/// Returns whether a name may have this byte.
fn fits_name(byte: u8) -> bool
    ensures { result ≡ is_name_byte byte }
{
    begins_name(byte) || byte.is_ascii_digit() || byte == b'_'
}

/// Returns whether a name may have each of these bytes.
fn all_fit_name(bytes: &[u8]) -> bool
    ensures { result ≡ list_all is_name_byte bytes.now }
{
    bytes.iter().all(|byte| fits_name(*byte))
}

/// Returns whether these bytes have the form of a name.
fn is_name_text(bytes: &[u8]) -> bool
    ensures { result ≡ is_name bytes.now }
{
    match bytes {
        [] => false,
        [first, rest @ ..] => {
            begins_name(*first) && all_fit_name(rest) && rest.len() < NAME_LIMIT
        }
    }
}
