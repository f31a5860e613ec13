//! Masks: fixed rows of booleans, 64 to a word. A node of the tree keeps one mask of its child
//! entries and one of its active entries, and tools read them by whole words.
//!
//! This is the `NodeMask` of OpenVDB (`util/NodeMasks.h`). The names in the items' docs are its.
#![tactic(auto)]

ghost use Rattle.std.specs.Prelude.{◌≡◌, ◌≢◌, ◌+◌, ◌*◌, ◌/◌, ◌<◌, ◌≤◌, ◌↔◌, ◌&&◌, ◌||◌, ℕ, false, true, not, IsTrue};
ghost use Rattle.vdb_mask.specs.Mask.{has_bit, is_on, is_value, on_count, IsFirstOn, IsNext};

use std::marker::Model;

mod either;
mod runs;
mod words;

/// `64 * W` booleans in `W` words of 64 bits: the value at index `i` is bit `i % 64` of word
/// `i / 64`, and it is on if that bit is 1. A mask takes no memory beside its words.
///
/// A contract sees the list of the values. It reads the value at index `i` by `is_on mask i`, which
/// is off for every `i` past the end. OpenVDB's class `NodeMask`.
#[derive(Drop)]
pub struct Mask<const W: usize> {
    words: [u64; W],
}

impl<const W: usize> Model for Mask<W> {
    ghost use Rattle.std.specs.Prelude.{Bool, List};
    ghost use Rattle.vdb_mask.specs.Mask.{bits_of};

    ghost Value = { List Bool };

    ghost view = { λ mask. bits_of mask.words };
}

impl<const W: usize> Mask<W> {
    /// Returns a mask with every value off. The constructor `NodeMask()`.
    pub fn off() -> Mask<W>
        ensures { (i : ℕ) → is_on result i ≡ false }
    {
        Mask { words: [0; W] }
    }

    /// Returns a mask with each of its `64 * W` values on, or each off, as `on` says. The
    /// constructor `NodeMask(bool)`.
    pub fn filled(on: bool) -> Mask<W>
        ensures within { (i : ℕ) → i < 64 * W → is_on result i ≡ on }
        ensures past_end { (i : ℕ) → 64 * W ≤ i → is_on result i ≡ false }
    {
        Mask {
            words: [words::repeated(on); W],
        }
    }

    /// Returns a mask of its own with the same values. The copy constructor of `NodeMask`.
    pub fn copied(&self) -> Mask<W>
        ensures same { result ≡ self.now }
        ensures past_end { (i : ℕ) → 64 * W ≤ i → is_on result i ≡ false }
    {
        Mask { words: self.words }
    }

    /// Copies every value from the other mask, which stays as it is. `NodeMask::operator=`.
    pub fn copy_from(&mut self, other: &Mask<W>)
        ensures same { self.new ≡ other.now }
        ensures past_end { (i : ℕ) → 64 * W ≤ i → is_on self.new i ≡ false }
    {
        self.words = other.words;
    }

    /// Returns whether the value at index `i` is on. `NodeMask::isOn(i)`.
    #[inline(always)]
    pub fn test(&self, i: u32) -> bool
        requires { i < 64 * W }
        ensures { is_on self.now i ≡ result }
    {
        (self.words[(i / 64) as usize] >> (i % 64)) & 1 == 1
    }

    /// Turns the value at index `i` on; every other stays. `NodeMask::setOn(i)`.
    #[inline(always)]
    pub fn set(&mut self, i: u32)
        requires { i < 64 * W }
        ensures here { is_on self.new i ≡ true }
        ensures others { (j : ℕ) → j ≢ i → is_on self.new j ≡ is_on self.old j }
    {
        self.words[(i / 64) as usize] |= 1 << (i % 64);
    }

    /// Turns the value at index `i` off; every other stays. `NodeMask::setOff(i)`.
    pub fn clear(&mut self, i: u32)
        requires { i < 64 * W }
        ensures here { is_on self.new i ≡ false }
        ensures others { (j : ℕ) → j ≢ i → is_on self.new j ≡ is_on self.old j }
    {
        self.words[(i / 64) as usize] &= !(1 << (i % 64));
    }

    /// Sets each value from index `from` on and below `to` to `on`; every other stays.
    #[inline(always)]
    pub fn set_run(&mut self, from: u32, to: u32, on: bool)
        requires few_words { W ≤ 512 }
        requires in_order { from ≤ to }
        requires within { to ≤ 64 * W }
        ensures run { (i : ℕ) → from ≤ i → i < to → is_on self.new i ≡ on }
        ensures before { (i : ℕ) → i < from → is_on self.new i ≡ is_on self.old i }
        ensures after { (i : ℕ) → to ≤ i → is_on self.new i ≡ is_on self.old i }
    {
        runs::put(&mut self.words, from, to, on);
    }

    /// Returns the 64 values from index `64 * k` on, the first in the lowest bit: what
    /// `NodeMask::getWord(k)` gives to read.
    #[inline(always)]
    pub fn word(&self, k: u32) -> u64
        requires { k < W }
        ensures { (j : ℕ) → j < 64 → is_on self.now (64 * k + j) ≡ has_bit result j }
    {
        self.words[k as usize]
    }

    /// Sets the 64 values from index `64 * k` on to the bits of `word`, the first from the lowest
    /// bit, and keeps every other. An assignment to what `NodeMask::getWord(k)` gives.
    pub fn set_word(&mut self, k: u32, word: u64)
        requires { k < W }
        ensures here { (j : ℕ) → j < 64 → is_on self.new (64 * k + j) ≡ has_bit word j }
        ensures others { (i : ℕ) → i / 64 ≢ k → is_on self.new i ≡ is_on self.old i }
    {
        self.words[k as usize] = word;
    }

    /// Turns on what the other mask has on; every other value stays, and so does the other mask.
    /// `NodeMask::operator|=`.
    pub fn union(&mut self, other: &Mask<W>)
        ensures { (i : ℕ) → is_on self.new i ≡ (is_on self.old i || is_on other.now i) }
    {
        words::unite(&mut self.words, &other.words);
    }

    /// Turns off what the other mask has on; every other value stays, and so does the other mask.
    /// `NodeMask::operator-=`.
    pub fn minus(&mut self, other: &Mask<W>)
        ensures { (i : ℕ) → is_on self.new i ≡ (is_on self.old i && not (is_on other.now i)) }
    {
        words::subtract(&mut self.words, &other.words);
    }

    /// Turns off what the other mask has off; every other value stays, and so does the other mask.
    /// `NodeMask::operator&=`.
    pub fn both(&mut self, other: &Mask<W>)
        ensures { (i : ℕ) → is_on self.new i ≡ (is_on self.old i && is_on other.now i) }
    {
        words::intersect(&mut self.words, &other.words);
    }

    /// Returns how many of the `64 * W` values are on. `NodeMask::countOn()`.
    ///
    /// If only the first `n` values are used and the others are off, the result counts those `n`
    /// alone (`on_count-past` of `proofs/MaskLemmas`).
    pub fn count(&self) -> u32
        requires { W ≤ 512 }
        ensures { result ≡ on_count self.now (64 * W) }
    {
        words::count_ones(&self.words)
    }

    /// Returns the least index not below `from` whose value is on, or `None` if none is.
    /// `NodeMask::findNextOn(from)`, which answers `SIZE` for none.
    pub fn next_on(&self, from: u32) -> Option<u32>
        requires few_words { W ≤ 512 }
        requires from_within { from ≤ 64 * W }
        ensures { IsNext true self.now (64 * W) from result }
    {
        words::next(&self.words, true, from)
    }

    /// Returns the least index not below `from`, and below `64 * W`, whose value is off, or `None`
    /// if none is. `NodeMask::findNextOff(from)`, which answers `SIZE` for none.
    pub fn next_off(&self, from: u32) -> Option<u32>
        requires few_words { W ≤ 512 }
        requires from_within { from ≤ 64 * W }
        ensures { IsNext false self.now (64 * W) from result }
    {
        words::next(&self.words, false, from)
    }

    /// Returns the least index not below `from` whose value is on in this mask or in the other, or
    /// `None` if none is. `NodeMask::findNextOn(from)` of the two masks joined by `|`.
    pub fn next_on_in_either(&self, other: &Mask<W>, from: u32) -> Option<u32>
        requires few_words { W ≤ 512 }
        requires from_within { from ≤ 64 * W }
        ensures { IsFirstOn (λ i. is_on self.now i || is_on other.now i) (64 * W) from result }
    {
        either::next(&self.words, &other.words, true, from)
    }

    /// Returns the least index not below `from`, and below `to`, whose value is on in this mask or
    /// `value` in the other, or `None` if there is none.
    pub fn next_on_or_other(&self, other: &Mask<W>, value: bool, from: u32, to: u32) -> Option<u32>
        requires few_words { W ≤ 512 }
        requires in_order { from ≤ to }
        requires to_within { to ≤ 64 * W }
        ensures { IsFirstOn (λ i. is_on self.now i || is_value value other.now i) to from result }
    {
        let last = to.div_ceil(64) as usize;
        let index = either::next(&self.words[..last], &other.words[..last], value, from)?;
        if index < to { Some(index) } else { None }
    }

    /// Returns the least index not below `from`, and below `to`, that has this value, or `None` if
    /// none has it.
    pub fn next_before(&self, value: bool, from: u32, to: u32) -> Option<u32>
        requires few_words { W ≤ 512 }
        requires in_order { from ≤ to }
        requires to_within { to ≤ 64 * W }
        ensures { IsNext value self.now to from result }
    {
        let last = to.div_ceil(64) as usize;
        let index = words::next(&self.words[..last], value, from)?;
        if index < to { Some(index) } else { None }
    }

    /// Returns whether each of the `64 * W` values is on. `NodeMask::isOn()`.
    pub fn all_on(&self) -> bool
        ensures { IsTrue result ↔ ((i : ℕ) → i < 64 * W → is_on self.now i ≡ true) }
    {
        words::are_all(&self.words, true)
    }

    /// Returns whether every value is off. `NodeMask::isOff()`.
    pub fn all_off(&self) -> bool
        ensures { IsTrue result ↔ ((i : ℕ) → is_on self.now i ≡ false) }
    {
        words::are_all(&self.words, false)
    }
}
