//! Operations on the words of a mask, a whole word at a time.

ghost use Rattle.std.specs.Prelude.{◌≡◌, ◌*◌, ◌<◌, ◌≤◌, ◌↔◌, ◌&&◌, ◌||◌, ℕ, length, not, EachIndex, IsTrue, slice_index};
ghost use Rattle.std.specs.Int.{bit_at};
ghost use Rattle.vdb_mask.specs.Mask.{bits_of, has_bit, is_on, on_count, IsNext};

/// Returns the word whose every bit is `value`.
pub fn repeated(value: bool) -> u64
    ensures { (j : ℕ) → j < 64 → has_bit result j ≡ value }
{
    if value { u64::MAX } else { 0 }
}

/// Sets to 1 each bit that is 1 in the other row.
pub fn unite(words: &mut [u64], other: &[u64])
    requires { length other.now ≡ length words.old }
    ensures { (i : ℕ) → is_on (bits_of words.new) i
        ≡ (is_on (bits_of words.old) i || is_on (bits_of other.now) i) }
{
    'words: for k in 0..words.len() {
        words[k] |= other[k];
    }
}

/// Sets to 0 each bit that is 1 in the other row.
pub fn subtract(words: &mut [u64], other: &[u64])
    requires { length other.now ≡ length words.old }
    ensures { (i : ℕ) → is_on (bits_of words.new) i
        ≡ (is_on (bits_of words.old) i && not (is_on (bits_of other.now) i)) }
{
    'words: for k in 0..words.len() {
        words[k] &= !other[k];
    }
}

/// Sets to 0 each bit that is 0 in the other row.
pub fn intersect(words: &mut [u64], other: &[u64])
    requires { length other.now ≡ length words.old }
    ensures { (i : ℕ) → is_on (bits_of words.new) i
        ≡ (is_on (bits_of words.old) i && is_on (bits_of other.now) i) }
{
    'words: for k in 0..words.len() {
        words[k] &= other[k];
    }
}

/// Returns how many bits of the row are 1.
pub fn count_ones(words: &[u64]) -> u32
    requires { length words.now ≤ 512 }
    ensures { result ≡ on_count (bits_of words.now) (64 * length words.now) }
{
    let mut count = 0;
    'counted: for k in 0..words.len() {
        count += words[k].count_ones();
    }
    count
}

/// Returns whether each bit of the row is `value`.
pub fn are_all(words: &[u64], value: bool) -> bool
    ensures { IsTrue result
        ↔ ((i : ℕ) → i < 64 * length words.now → is_on (bits_of words.now) i ≡ value) }
{
    each_is(words, repeated(value))
}

/// Returns whether each word of the row is this one.
fn each_is(words: &[u64], whole: u64) -> bool
    ensures { IsTrue result ↔ EachIndex words.now (λ k. slice_index words.now k ≡ whole) }
{
    words.iter().all(|word| *word == whole)
}

/// Returns the word that is 1 at each bit that is `value` in this word, and 0 at the others.
pub fn matches(word: u64, value: bool) -> u64
    ensures ones { (j : ℕ) → j < 64 → bit_at result j ≡ 1 → has_bit word j ≡ value }
    ensures zeros { (j : ℕ) → j < 64 → bit_at result j ≡ 0 → has_bit word j ≡ not value }
{
    if value { word } else { !word }
}

/// Returns the least index of a bit of the row, not below `from`, that is `value`.
pub fn next(words: &[u64], value: bool, from: u32) -> Option<u32>
    requires { length words.now ≤ 512 }
    ensures { IsNext value (bits_of words.now) (64 * length words.now) from result }
{
    let first = (from / 64) as usize;
    if first >= words.len() {
        return None;
    }
    // In the first word, the bits below `from` do not count.
    let found = matches(words[first], value) & (u64::MAX << (from % 64));
    if found != 0 {
        return Some(from / 64 * 64 + found.trailing_zeros());
    }
    'words: for k in first + 1..words.len() {
        let found = matches(words[k], value);
        if found != 0 {
            return Some(k as u32 * 64 + found.trailing_zeros());
        }
    }
    None
}
