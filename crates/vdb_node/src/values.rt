//! Rows of values whose last values are all one.

ghost use Rattle.std.specs.Prelude.{◌≡◌, ◌≢◌, ◌+◌, ◌-◌, ◌*◌, ◌<◌, ◌≤◌, ◌↔◌, ℕ, [], false, if◌then◌else◌, Some, None, IfOk, IsTrue, length, slice_index_or};
ghost use Rattle.vdb_mask.specs.Mask.{is_on};
ghost use Rattle.vdb_node.specs.Values.{capacity, value_of};
ghost use Rattle.vdb_value.specs.Blends.{blended};

use crate::slices::{blend_slice_with, blend_slices, copy_run, next_other, set_each};
use std::alloc::{AllocError, Global};
use vdb_mask::Mask;
use vdb_value::{Blend, Voxel};

/// A row of values, in which one value stands for all from some index on. Their places are reserved,
/// but not written. So a row of one value is made without a write, and takes no page of memory.
#[derive(Drop)]
pub struct Values<V> {
    /// The values below that index.
    first: Vec<V>,
    /// The value from that index on.
    rest: V,
}

impl<V: Voxel> Values<V> {
    /// Returns a row of this value alone. Returns an error if the places of `count` values cannot be
    /// allocated.
    pub(crate) fn filled(alloc: Global, value: V, count: u32) -> Result<Values<V>, AllocError>
        ensures capacity { IfOk result (λ row. count ≤ capacity row) }
        ensures values { IfOk result (λ row. (i : ℕ) → value_of row i ≡ value) }
    {
        let first = Vec::with_capacity(alloc, count as usize)?;
        Ok(Values { first, rest: value })
    }

    /// Returns a row of its own with no less capacity and the same values; this one stays. Returns an
    /// error if the memory for them cannot be allocated.
    pub(crate) fn copied(&self, alloc: Global) -> Result<Values<V>, AllocError>
        ensures capacity { IfOk result (λ copy. capacity self.now ≤ capacity copy) }
        ensures values { IfOk result (λ copy. value_of copy ≡ value_of self.now) }
    {
        let mut first = Vec::with_capacity(alloc, self.first.capacity())?;
        first.extend_from_slice(&self.first)?;
        let rest = self.rest;
        Ok(Values { first, rest })
    }

    /// Copies the first `count` values from another row, which stays; the values past them may be
    /// any.
    pub(crate) fn copy_from(&mut self, other: &Values<V>, count: u32)
        requires { count ≤ capacity self.old }
        ensures capacity { capacity self.old ≤ capacity self.new }
        ensures values { (i : ℕ) → i < count → value_of self.new i ≡ value_of other.now i }
    {
        let written = other.written(0, count) as usize;
        self.first.truncate(0);
        append(&mut self.first, &other.first[..written]);
        self.rest = other.rest;
    }

    /// Returns the value at an index.
    #[inline(always)]
    pub(crate) fn at(&self, i: u32) -> V
        ensures { value_of self.now i ≡ result }
    {
        match self.first.get(i as usize) {
            Some(value) => *value,
            None => self.past_written(),
        }
    }

    /// Returns the value past the written ones. It is a call of its own so that a read of a written
    /// value is a branch that is foretold: otherwise the compiler selects between two addresses,
    /// and each read waits for the number of written values.
    #[cold]
    #[inline(never)]
    fn past_written(&self) -> V
        ensures { result ≡ self.now.rest }
    {
        self.rest
    }

    /// Copies the values from index `from` on to a slice of as many places as it has.
    #[inline(always)]
    pub(crate) fn copy_out(&self, from: u32, into: &mut [V])
        requires { from + length into.old ≤ 32768 }
        ensures length { length into.new ≡ length into.old }
        ensures values { (i : ℕ) (d : V) → i < length into.old
            → slice_index_or into.new i d ≡ value_of self.now (from + i) }
    {
        let first = from as usize;
        let end = first + into.len();
        if end <= self.first.len() {
            into.copy_from_slice(&self.first[first..end]);
        } else {
            self.copy_out_past_written(from, into);
        }
    }

    /// Does what `copy_out` does, also where values past the written ones are copied.
    #[inline(never)]
    fn copy_out_past_written(&self, from: u32, into: &mut [V])
        requires { from + length into.old ≤ 32768 }
        ensures length { length into.new ≡ length into.old }
        ensures values { (i : ℕ) (d : V) → i < length into.old
            → slice_index_or into.new i d ≡ value_of self.now (from + i) }
    {
        let count = into.len() as u32;
        let written = self.written(from, from + count);
        if from < written {
            into[..(written - from) as usize].copy_from_slice(
                &self.first[from as usize..written as usize],
            );
        }
        set_each(into, written - from, count, self.rest);
    }

    /// Returns the end of the indices from `from` on and below `to` whose values are written. It is
    /// `from` if there are none.
    fn written(&self, from: u32, to: u32) -> u32
        requires { from ≤ to }
        ensures least { from ≤ result }
        ensures within { result ≤ to }
        ensures first { from < result → result ≤ length self.now.first.items }
        ensures rest { result < to → length self.now.first.items ≤ result }
    {
        let len = self.first.len();
        if len <= from as usize {
            from
        } else if len < to as usize {
            len as u32
        } else {
            to
        }
    }

    /// Writes the values below an index to their places.
    #[inline(always)]
    fn write_to(&mut self, to: u32)
        requires { to ≤ capacity self.old }
        ensures capacity { capacity self.old ≤ capacity self.new }
        ensures written { to ≤ length self.new.first.items }
        ensures values { (i : ℕ) → value_of self.new i ≡ value_of self.old i }
    {
        if self.first.len() < to as usize {
            let rest = self.rest;
            extend(&mut self.first, to, rest);
        }
    }

    /// Writes the values below an index to their places, or all that have one if those are fewer.
    #[inline(never)]
    fn write_below(&mut self, end: usize)
        ensures capacity { capacity self.old ≤ capacity self.new }
        ensures written { (i : ℕ) → i < end → i < capacity self.old → i < length self.new.first.items }
        ensures values { (i : ℕ) → value_of self.new i ≡ value_of self.old i }
    {
        let rest = self.rest;
        let to = end.min(self.first.capacity()).max(self.first.len());
        match self.first.resize(to, rest) {
            Ok(()) => {}
            Err(_) => unreachable!(),
        }
    }

    /// Sets the value at an index; every other stays.
    #[inline(always)]
    pub(crate) fn set(&mut self, i: u32, value: V)
        requires within { i < capacity self.old }
        ensures capacity { capacity self.old ≤ capacity self.new }
        ensures here { value_of self.new i ≡ value }
        ensures others { (j : ℕ) → j ≢ i → value_of self.new j ≡ value_of self.old j }
    {
        if (i as usize) < self.first.len() {
            self.first[i as usize] = value;
        } else {
            self.set_past_written(i, value);
        }
    }

    /// Sets the value at an index, with those below the next multiple of 512 written to their places.
    /// It is a call of its own, after which `set` does nothing, so that `set` keeps no registers for it.
    #[cold]
    #[inline(never)]
    fn set_past_written(&mut self, i: u32, value: V)
        requires within { i < capacity self.old }
        ensures capacity { capacity self.old ≤ capacity self.new }
        ensures here { value_of self.new i ≡ value }
        ensures others { (j : ℕ) → j ≢ i → value_of self.new j ≡ value_of self.old j }
    {
        self.write_below(i as usize / 512 * 512 + 512);
        self.first[i as usize] = value;
    }

    /// Sets the value at each index from `from` on and below `to`; every other stays.
    #[inline(always)]
    pub(crate) fn set_run(&mut self, from: u32, to: u32, value: V)
        requires in_order { from ≤ to }
        requires within { to ≤ capacity self.old }
        ensures capacity { capacity self.old ≤ capacity self.new }
        ensures run { (i : ℕ) → from ≤ i → i < to → value_of self.new i ≡ value }
        ensures before { (i : ℕ) → i < from → value_of self.new i ≡ value_of self.old i }
        ensures after { (i : ℕ) → to ≤ i → value_of self.new i ≡ value_of self.old i }
    {
        if to as usize <= self.first.len() {
            set_each(&mut self.first, from, to, value);
        } else if to - from < 64 {
            self.write_below((to - 1) as usize / 64 * 64 + 64);
            set_each(&mut self.first, from, to, value);
        } else {
            self.set_long_run(from, to, value);
        }
    }

    /// Does what `set_run` does, and writes no value twice that it appends.
    fn set_long_run(&mut self, from: u32, to: u32, value: V)
        requires in_order { from ≤ to }
        requires within { to ≤ capacity self.old }
        ensures capacity { capacity self.old ≤ capacity self.new }
        ensures run { (i : ℕ) → from ≤ i → i < to → value_of self.new i ≡ value }
        ensures before { (i : ℕ) → i < from → value_of self.new i ≡ value_of self.old i }
        ensures after { (i : ℕ) → to ≤ i → value_of self.new i ≡ value_of self.old i }
    {
        self.write_to(from);
        if self.first.len() < to as usize {
            self.first.truncate(from as usize);
            extend(&mut self.first, to, value);
        } else {
            set_each(&mut self.first, from, to, value);
        }
    }

    /// Sets the values from index `from` on to those of a slice; every other stays.
    #[inline(always)]
    pub(crate) fn copy_in(&mut self, from: u32, values: &[V])
        requires few { from + length values.now ≤ 32768 }
        requires within { from + length values.now ≤ capacity self.old }
        ensures capacity { capacity self.old ≤ capacity self.new }
        ensures run { (i : ℕ) (d : V) → i < length values.now
            → value_of self.new (from + i) ≡ slice_index_or values.now i d }
        ensures before { (i : ℕ) → i < from → value_of self.new i ≡ value_of self.old i }
        ensures after { (i : ℕ) → from + length values.now ≤ i → value_of self.new i ≡ value_of self.old i }
    {
        let first = from as usize;
        let end = first + values.len();
        if self.first.len() < end {
            self.write_below(end.div_ceil(64) * 64);
        }
        self.first[first..end].copy_from_slice(values);
    }

    /// Returns whether the first `count` values are all equal.
    pub(crate) fn are_alike(&self, count: u32) -> bool
        requires { 0 < count }
        ensures { IsTrue result ↔ ((i : ℕ) → i < count → value_of self.now i ≡ value_of self.now 0) }
    {
        self.next_unlike(self.at(0), 0, count) == count
    }

    /// Returns the first index from `from` on and below `to` with another value than this, or `to`
    /// if there is none.
    pub(crate) fn next_unlike(&self, value: V, from: u32, to: u32) -> u32
        requires { from ≤ to }
        ensures least { from ≤ result }
        ensures within { result ≤ to }
        ensures here { result < to → value_of self.now result ≢ value }
        ensures before { (i : ℕ) → from ≤ i → i < result → value_of self.now i ≡ value }
    {
        let written = self.written(from, to);
        if from < written {
            let at = next_other(&self.first, value, from, written);
            if at < written {
                return at;
            }
        }
        if self.rest == value { to } else { written }
    }

    /// Combines each of the first `count` values with the other row's. The values past them may be
    /// any afterwards. Returns false if some two of the first `count` do not combine: then some of
    /// these may have changed.
    pub(crate) fn blend(&mut self, other: &Values<V>, count: u32, how: Blend) -> bool
        requires { count ≤ capacity self.old }
        ensures capacity { capacity self.old ≤ capacity self.new }
        ensures blended { IsTrue result → (i : ℕ) → i < count
            → blended V.greater V.lesser V.sum_of how (value_of self.old i) (value_of other.now i)
            ≡ Some (value_of self.new i) }
        ensures lacks { result ≡ false → (i : ℕ) × (i < count)
            × (blended V.greater V.lesser V.sum_of how (value_of self.old i) (value_of other.now i) ≡ None) }
    {
        self.write_to(count);
        let written = other.written(0, count);
        self.blend_first(other, written, how) && self.blend_run(other.rest, written, count, how)
    }

    /// Combines each of the values below `to` with the other row's. These are written in both rows.
    /// Returns false if some two do not combine: then some may have changed.
    fn blend_first(&mut self, other: &Values<V>, to: u32, how: Blend) -> bool
        requires written { to ≤ length self.old.first.items }
        requires other_written { to ≤ length other.now.first.items }
        ensures capacity { capacity self.new ≡ capacity self.old }
        ensures written { length self.new.first.items ≡ length self.old.first.items }
        ensures after { (i : ℕ) → to ≤ i → value_of self.new i ≡ value_of self.old i }
        ensures blended { IsTrue result → (i : ℕ) → i < to
            → blended V.greater V.lesser V.sum_of how (value_of self.old i) (value_of other.now i)
            ≡ Some (value_of self.new i) }
        ensures lacks { result ≡ false → (i : ℕ) × (i < to)
            × (blended V.greater V.lesser V.sum_of how (value_of self.old i) (value_of other.now i) ≡ None) }
    {
        blend_slices(&mut self.first, &other.first, to, how)
    }

    /// Combines each of the values from `from` on and below `to`, which are written, with this one.
    /// Returns false if one of them does not combine with it: then some may have changed.
    fn blend_run(&mut self, value: V, from: u32, to: u32, how: Blend) -> bool
        requires in_order { from ≤ to }
        requires written { to ≤ length self.old.first.items }
        ensures capacity { capacity self.new ≡ capacity self.old }
        ensures before { (i : ℕ) → i < from → value_of self.new i ≡ value_of self.old i }
        ensures blended { IsTrue result → (i : ℕ) → from ≤ i → i < to
            → blended V.greater V.lesser V.sum_of how (value_of self.old i) value
            ≡ Some (value_of self.new i) }
        ensures lacks { result ≡ false → (i : ℕ) × (from ≤ i) × (i < to)
            × (blended V.greater V.lesser V.sum_of how (value_of self.old i) value ≡ None) }
    {
        blend_slice_with(&mut self.first, value, from, to, how)
    }

    /// Combines each of the first `count` values with this one. The values past them may be any
    /// afterwards. Returns false if one of the first `count` and this value do not combine: then
    /// some of these may have changed.
    pub(crate) fn blend_with(&mut self, value: V, count: u32, how: Blend) -> bool
        requires { count ≤ capacity self.old }
        ensures capacity { capacity self.old ≤ capacity self.new }
        ensures blended { IsTrue result → (i : ℕ) → i < count
            → blended V.greater V.lesser V.sum_of how (value_of self.old i) value
            ≡ Some (value_of self.new i) }
        ensures lacks { result ≡ false → (i : ℕ) × (i < count)
            × (blended V.greater V.lesser V.sum_of how (value_of self.old i) value ≡ None) }
    {
        self.write_to(count);
        self.blend_run(value, 0, count, how)
    }

    /// Copies the other row's values at each index below `count` that the mask has on. The others
    /// below `count` stay.
    pub(crate) fn take_marked<const W: usize>(
        &mut self,
        other: &Values<V>,
        marks: &Mask<W>,
        count: u32,
    )
        requires few_words { W ≤ 512 }
        requires mask_capacity { count ≤ 64 * W }
        requires capacity { count ≤ capacity self.old }
        ensures capacity { capacity self.old ≤ capacity self.new }
        ensures taken { (i : ℕ) → i < count → value_of self.new i
            ≡ (if is_on marks.now i then value_of other.now i else value_of self.old i) }
    {
        self.write_to(count);
        let mut from = 0;
        'runs: while from < count {
            from = self.take_next_run(other, marks, from, count);
        }
    }

    /// Copies the others' values in the first run of marks from `from` on, and returns the end of
    /// that run, or `count` if there is no mark. All else stays.
    fn take_next_run<const W: usize>(
        &mut self,
        other: &Values<V>,
        marks: &Mask<W>,
        from: u32,
        count: u32,
    ) -> u32
        requires few_words { W ≤ 512 }
        requires some { from < count }
        requires mask_capacity { count ≤ 64 * W }
        requires written { count ≤ length self.old.first.items }
        ensures capacity { capacity self.new ≡ capacity self.old }
        ensures written { length self.new.first.items ≡ length self.old.first.items }
        ensures further { from < result }
        ensures within { result ≤ count }
        ensures before { (i : ℕ) → i < from → value_of self.new i ≡ value_of self.old i }
        ensures taken { (i : ℕ) → from ≤ i → i < result → value_of self.new i
            ≡ (if is_on marks.now i then value_of other.now i else value_of self.old i) }
        ensures after { (i : ℕ) → result ≤ i → value_of self.new i ≡ value_of self.old i }
    {
        let Some(first) = marks.next_before(true, from, count) else {
            return count;
        };
        let end = match marks.next_before(false, first, count) {
            Some(i) => i,
            None => count,
        };
        self.take_run(other, first, end);
        end
    }

    /// Copies the other row's values from `from` on and below `to`; every other stays.
    fn take_run(&mut self, other: &Values<V>, from: u32, to: u32)
        requires in_order { from ≤ to }
        requires written { to ≤ length self.old.first.items }
        ensures capacity { capacity self.new ≡ capacity self.old }
        ensures written { length self.new.first.items ≡ length self.old.first.items }
        ensures run { (i : ℕ) → from ≤ i → i < to → value_of self.new i ≡ value_of other.now i }
        ensures before { (i : ℕ) → i < from → value_of self.new i ≡ value_of self.old i }
        ensures after { (i : ℕ) → to ≤ i → value_of self.new i ≡ value_of self.old i }
    {
        let written = other.written(from, to);
        if from < written {
            copy_run(&mut self.first, &other.first, from, written);
        }
        set_each(&mut self.first, written, to, other.rest);
    }
}

/// Appends the elements of a slice, for which the vector has capacity.
fn append<V: Voxel>(values: &mut Vec<V>, others: &[V])
    requires { length values.old.items + length others.now ≤ values.old.cap }
    ensures capacity { values.old.cap ≤ values.new.cap }
    ensures length { length values.new.items ≡ length values.old.items + length others.now }
    ensures before { (i : ℕ) (d : V) → i < length values.old.items
        → slice_index_or values.new.items i d ≡ slice_index_or values.old.items i d }
    ensures after { (i : ℕ) (d : V) → length values.old.items ≤ i
        → slice_index_or values.new.items i d ≡ slice_index_or others.now (i - length values.old.items) d }
{
    match values.extend_from_slice(others) {
        Ok(()) => {}
        Err(_) => unreachable!(),
    }
}

/// Appends a value as often as it takes to reach this length, for which the vector has capacity.
fn extend<V: Voxel>(values: &mut Vec<V>, to: u32, value: V)
    requires capacity { to ≤ values.old.cap }
    requires longer { length values.old.items ≤ to }
    ensures capacity { values.old.cap ≤ values.new.cap }
    ensures length { length values.new.items ≡ to }
    ensures before { (i : ℕ) (d : V) → i < length values.old.items
        → slice_index_or values.new.items i d ≡ slice_index_or values.old.items i d }
    ensures after { (i : ℕ) (d : V) → length values.old.items ≤ i → i < to
        → slice_index_or values.new.items i d ≡ value }
{
    match values.resize(to as usize, value) {
        Ok(()) => {}
        Err(_) => unreachable!(),
    }
}
