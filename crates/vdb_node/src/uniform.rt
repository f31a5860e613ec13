//! Masks whose first values alone belong to a node's entries.

ghost use Rattle.std.specs.Prelude.{◌≡◌, ◌≢◌, ◌+◌, ◌*◌, ◌%◌, ◌<◌, ◌≤◌, ◌↔◌, ◌||◌, ℕ, false, IsTrue};
ghost use Rattle.vdb_mask.specs.Mask.{has_bit, is_on};
ghost use Rattle.vdb_node.specs.Nodes.{entry_count, IsOffFrom};

use vdb_mask::Mask;

/// Returns how many entries a node with this many bits has.
pub fn entries(bits: u32) -> u32
    requires { bits ≤ 5 }
    ensures { result ≡ entry_count bits }
{
    1 << (3 * bits)
}

/// Sets the value at index `i` to `on`; every other stays.
#[inline(always)]
pub fn put<const W: usize>(mask: &mut Mask<W>, i: u32, on: bool)
    requires { i < 64 * W }
    ensures here { is_on mask.new i ≡ on }
    ensures others { (j : ℕ) → j ≢ i → is_on mask.new j ≡ is_on mask.old j }
{
    if on {
        mask.set(i);
    } else {
        mask.clear(i);
    }
}

/// Returns the word with `count` bits from bit `low` on set to the first of another word.
#[inline(always)]
fn with_bits(word: u64, low: u32, count: u32, bits: u64) -> u64
    requires some { 0 < count }
    requires ends { low + count ≤ 64 }
    ensures run { (j : ℕ) → j < count → has_bit result (low + j) ≡ has_bit bits j }
    ensures before { (j : ℕ) → j < low → has_bit result j ≡ has_bit word j }
    ensures after { (j : ℕ) → low + count ≤ j → j < 64 → has_bit result j ≡ has_bit word j }
{
    let high = low + count;
    let run = (u64::MAX << low) & (u64::MAX >> (64 - high));
    word & !run | bits << low & run
}

/// Sets `count` values from index `from` on, which one word has, to the other mask's first; every
/// other stays.
#[inline(always)]
pub fn put_bits<const W: usize>(mask: &mut Mask<W>, from: u32, count: u32, bits: &Mask<1>)
    requires within { from + count ≤ 64 * W }
    requires one_word { from % 64 + count ≤ 64 }
    ensures run { (i : ℕ) → i < count → is_on mask.new (from + i) ≡ is_on bits.now i }
    ensures before { (i : ℕ) → i < from → is_on mask.new i ≡ is_on mask.old i }
    ensures after { (i : ℕ) → from + count ≤ i → is_on mask.new i ≡ is_on mask.old i }
{
    if count > 0 {
        let word = with_bits(mask.word(from / 64), from % 64, count, bits.word(0));
        mask.set_word(from / 64, word);
    }
}

/// Returns whether the first `count` values of the mask are all equal.
pub fn is_uniform<const W: usize>(mask: &Mask<W>, count: u32) -> bool
    requires few_words { W ≤ 512 }
    requires some { 0 < count }
    requires capacity { count ≤ 64 * W }
    ensures { IsTrue result ↔ ((i : ℕ) → i < count → is_on mask.now i ≡ is_on mask.now 0) }
{
    let other = if mask.test(0) {
        mask.next_off(0)
    } else {
        mask.next_on(0)
    };
    match other {
        Some(i) => count <= i,
        None => true,
    }
}

/// Turns off every value from index `count` on; the others stay.
pub fn cut<const W: usize>(mask: &mut Mask<W>, count: u32)
    requires few_words { W ≤ 512 }
    requires past_end { IsOffFrom mask.old (64 * W) }
    ensures off { IsOffFrom mask.new count }
    ensures others { (i : ℕ) → i < count → is_on mask.new i ≡ is_on mask.old i }
{
    for i in count..64 * W as u32 {
        mask.clear(i);
    }
}

/// Returns the first index from `from` on and below `to` whose value in the mask is on or whose
/// state is not `on`, or `to` if there is none.
pub fn next_marked<const W: usize>(
    mask: &Mask<W>,
    states: &Mask<W>,
    on: bool,
    from: u32,
    to: u32,
) -> u32
    requires few_words { W ≤ 512 }
    requires from_within { from ≤ to }
    requires capacity { to ≤ 64 * W }
    ensures least { from ≤ result }
    ensures within { result ≤ to }
    ensures here { result < to → is_on mask.now result ≡ false → is_on states.now result ≢ on }
    ensures unmarked { (i : ℕ) → from ≤ i → i < result → is_on mask.now i ≡ false }
    ensures same { (i : ℕ) → from ≤ i → i < result → is_on states.now i ≡ on }
{
    match mask.next_on_or_other(states, !on, from, to) {
        Some(i) => i,
        None => to,
    }
}

/// Turns on the first `count` values of the mask if `on` is true; the others stay.
pub fn join<const W: usize>(mask: &mut Mask<W>, on: bool, count: u32)
    requires few_words { W ≤ 512 }
    requires capacity { count ≤ 64 * W }
    ensures within { (i : ℕ) → i < count → is_on mask.new i ≡ (is_on mask.old i || on) }
    ensures after { (i : ℕ) → count ≤ i → is_on mask.new i ≡ is_on mask.old i }
{
    if on {
        mask.set_run(0, count, true);
    }
}
