//! Runs of values set a whole word at a time.

ghost use Rattle.std.specs.Prelude.{◌≡◌, ◌*◌, ◌<◌, ◌≤◌, ℕ, length};
ghost use Rattle.vdb_mask.specs.Mask.{bits_of, has_bit, is_on};

/// Returns the word with each bit from `low` on and below `high` set to `on`.
#[inline(always)]
fn with_run(word: u64, low: u32, high: u32, on: bool) -> u64
    requires begins { low < 64 }
    requires some { 0 < high }
    requires ends { high ≤ 64 }
    ensures run { (j : ℕ) → low ≤ j → j < high → has_bit result j ≡ on }
    ensures before { (j : ℕ) → j < low → has_bit result j ≡ has_bit word j }
    ensures after { (j : ℕ) → high ≤ j → j < 64 → has_bit result j ≡ has_bit word j }
{
    let run = (u64::MAX << low) & (u64::MAX >> (64 - high));
    if on { word | run } else { word & !run }
}

/// Sets each bit of the row from index `from` on and below `to` to `on`.
#[inline(always)]
pub fn put(words: &mut [u64], from: u32, to: u32, on: bool)
    requires few_words { length words.old ≤ 512 }
    requires in_order { from ≤ to }
    requires within { to ≤ 64 * length words.old }
    ensures run { (i : ℕ) → from ≤ i → i < to → is_on (bits_of words.new) i ≡ on }
    ensures before { (i : ℕ) → i < from
        → is_on (bits_of words.new) i ≡ is_on (bits_of words.old) i }
    ensures after { (i : ℕ) → to ≤ i
        → is_on (bits_of words.new) i ≡ is_on (bits_of words.old) i }
{
    'words: for k in from / 64..to.div_ceil(64) {
        let start = 64 * k;
        let low = from.max(start) - start;
        let high = to.min(start + 64) - start;
        words[k as usize] = with_run(words[k as usize], low, high, on);
    }
}
