//! The search of two masks at once, a whole word at a time.

ghost use Rattle.std.specs.Prelude.{◌≡◌, ◌*◌, ◌≤◌, ◌||◌, length};
ghost use Rattle.vdb_mask.specs.Mask.{bits_of, is_on, is_value, IsFirstOn};

use crate::words::matches;

/// Returns the least index, not below `from`, at which the bit is 1 in the first row or `value` in
/// the other.
pub fn next(words: &[u64], others: &[u64], value: bool, from: u32) -> Option<u32>
    requires few_words { length words.now ≤ 512 }
    requires as_many { length others.now ≡ length words.now }
    ensures { IsFirstOn (λ i. is_on (bits_of words.now) i || is_value value (bits_of others.now) i)
        (64 * length words.now) from result }
{
    let first = (from / 64) as usize;
    if first >= words.len() {
        return None;
    }
    // In the first word, the bits below `from` do not count.
    let either = (words[first] | matches(others[first], value)) & (u64::MAX << (from % 64));
    if either != 0 {
        return Some(from / 64 * 64 + either.trailing_zeros());
    }
    'words: for k in first + 1..words.len() {
        let either = words[k] | matches(others[k], value);
        if either != 0 {
            return Some(k as u32 * 64 + either.trailing_zeros());
        }
    }
    None
}
