//! How a node keeps its values.

ghost use Rattle.std.specs.Align.{type_align};
ghost use Rattle.std.specs.Mem.{type_size};
ghost use Rattle.std.specs.Prelude.{◌≡◌, ◌≢◌, ◌+◌, ◌*◌, ◌<◌, ◌≤◌, ◌↔◌, ℕ, max, false, if◌then◌else◌, Some, None, IfOk, IsOk, IsTrue, length, slice_index_or};
ghost use Rattle.vdb_mask.specs.Mask.{is_on};
ghost use Rattle.vdb_mask.specs.contracts.Mask.{the_row as mask_row};
ghost use Rattle.vdb_value.specs.Blends.{blended};
ghost use Rattle.vdb_value.specs.declared.Kind.TheVariants.{Bool as truths};

use std::alloc::{AllocError, Global};
use vdb_mask::Mask;
use vdb_value::{Blend, Voxel};

/// A type of voxel values with the row in which a node keeps them: `Values` for the integers, a
/// mask of `W` words for booleans (OpenVDB's `LeafBuffer<ValueT, LOG2>` and
/// `LeafBuffer<bool, LOG2>`).
pub trait Stored<const W: usize>: Voxel {
    /// A row of values.
    type Row: Drop;

    /// The capacity of a row, in values, which no call lowers, and the value at an index of a row.
    ghost row_len: { Self.Row → ℕ };

    ghost value_in: { Self.Row → ℕ → Self };

    /// The slot of a child, by the value and the number at its index. An integer keeps the slot in
    /// the place of the value; a boolean has no place for one, so a row of numbers keeps it.
    ghost slot_of: { Self → ℕ → ℕ };

    /// Returns a row with this value at the first `count` indices. Returns an error if the memory
    /// for them cannot be allocated; booleans take none beyond the row's place.
    fn filled_row(self, alloc: Global, count: u32) -> Result<Self::Row, AllocError>
        requires { count ≤ 64 * W }
        ensures capacity { IfOk result (λ row. count ≤ row_len row) }
        ensures values { IfOk result (λ row. (i : ℕ) → i < count → value_in row i ≡ self) }
        ensures in_place { Self.KIND ≡ truths → IsOk result };

    /// Returns a row of its own with no less capacity and the same values; this one stays. Returns an error
    /// if the memory for them cannot be allocated; booleans take none beyond the row's place.
    fn copied_row(row: &Self::Row, alloc: Global) -> Result<Self::Row, AllocError>
        ensures capacity { IfOk result (λ copy. row_len row.now ≤ row_len copy) }
        ensures values { IfOk result (λ copy. value_in copy ≡ value_in row.now) }
        ensures in_place { Self.KIND ≡ truths → IsOk result };

    /// Copies the first `count` values from another row, which stays; the values past them may be
    /// any. It takes no memory.
    fn copy_row(row: &mut Self::Row, other: &Self::Row, count: u32)
        requires within { count ≤ row_len row.old }
        requires source { count ≤ row_len other.now }
        ensures capacity { row_len row.old ≤ row_len row.new }
        ensures values { (i : ℕ) → i < count → value_in row.new i ≡ value_in other.now i };

    /// Returns the value at an index.
    fn value_at(row: &Self::Row, i: u32) -> Self
        requires { i < row_len row.now }
        ensures { value_in row.now i ≡ result };

    /// Copies the values from index `from` on to a slice of as many places as it has.
    fn copy_values(row: &Self::Row, from: u32, into: &mut [Self])
        requires few_words { W ≤ 512 }
        requires within { from + length into.old ≤ 64 * W }
        ensures length { length into.new ≡ length into.old }
        ensures values { (i : ℕ) (d : Self) → i < length into.old
            → slice_index_or into.new i d ≡ value_in row.now (from + i) };

    /// Sets the value at an index; every other stays.
    fn set_value(row: &mut Self::Row, i: u32, value: Self)
        requires { i < row_len row.old }
        ensures capacity { row_len row.old ≤ row_len row.new }
        ensures here { value_in row.new i ≡ value }
        ensures others { (j : ℕ) → j ≢ i → value_in row.new j ≡ value_in row.old j };

    /// Sets the value at each index from `from` on and below `to`; every other stays.
    fn set_run(row: &mut Self::Row, from: u32, to: u32, value: Self)
        requires few_words { W ≤ 512 }
        requires in_order { from ≤ to }
        requires within { to ≤ row_len row.old }
        ensures capacity { row_len row.old ≤ row_len row.new }
        ensures run { (i : ℕ) → from ≤ i → i < to → value_in row.new i ≡ value }
        ensures before { (i : ℕ) → i < from → value_in row.new i ≡ value_in row.old i }
        ensures after { (i : ℕ) → to ≤ i → value_in row.new i ≡ value_in row.old i };

    /// Sets the values from index `from` on to those of a slice; every other stays.
    fn set_values(row: &mut Self::Row, from: u32, values: &[Self])
        requires few_words { W ≤ 512 }
        requires mask_capacity { from + length values.now ≤ 64 * W }
        requires within { from + length values.now ≤ row_len row.old }
        ensures capacity { row_len row.old ≤ row_len row.new }
        ensures run { (i : ℕ) (d : Self) → i < length values.now
            → value_in row.new (from + i) ≡ slice_index_or values.now i d }
        ensures before { (i : ℕ) → i < from → value_in row.new i ≡ value_in row.old i }
        ensures after { (i : ℕ) → from + length values.now ≤ i → value_in row.new i ≡ value_in row.old i };

    /// Returns whether the first `count` values are all equal.
    fn are_alike(row: &Self::Row, count: u32) -> bool
        requires few_words { W ≤ 512 }
        requires some { 0 < count }
        requires capacity { count ≤ row_len row.now }
        ensures { IsTrue result ↔ ((i : ℕ) → i < count → value_in row.now i ≡ value_in row.now 0) };

    /// Returns the first index from `from` on and below `to` with another value than this, or `to`
    /// if there is none.
    fn next_unlike(row: &Self::Row, value: Self, from: u32, to: u32) -> u32
        requires few_words { W ≤ 512 }
        requires from_within { from ≤ to }
        requires capacity { to ≤ row_len row.now }
        ensures least { from ≤ result }
        ensures within { result ≤ to }
        ensures here { result < to → value_in row.now result ≢ value }
        ensures before { (i : ℕ) → from ≤ i → i < result → value_in row.now i ≡ value };

    /// Combines each of the first `count` values with the other row's. The values past them may be
    /// any afterwards. Returns false if some two of the first `count` do not combine, as they have
    /// no sum: then some of these may have changed.
    fn blend_rows(row: &mut Self::Row, other: &Self::Row, count: u32, how: Blend) -> bool
        requires capacity { count ≤ row_len row.old }
        requires other_capacity { count ≤ row_len other.now }
        ensures capacity { row_len row.old ≤ row_len row.new }
        ensures blended { IsTrue result → (i : ℕ) → i < count
            → blended Self.greater Self.lesser Self.sum_of how (value_in row.old i) (value_in other.now i)
            ≡ Some (value_in row.new i) }
        ensures lacks { result ≡ false → (i : ℕ) × (i < count)
            × (blended Self.greater Self.lesser Self.sum_of how (value_in row.old i) (value_in other.now i) ≡ None) };

    /// Combines each of the first `count` values with this value. The values past them may be any
    /// afterwards. Returns false if one of the first `count` and this value do not combine, as they
    /// have no sum: then some of these may have changed.
    fn blend_row_with(row: &mut Self::Row, value: Self, count: u32, how: Blend) -> bool
        requires few_words { W ≤ 512 }
        requires capacity { count ≤ row_len row.old }
        ensures capacity { row_len row.old ≤ row_len row.new }
        ensures blended { IsTrue result → (i : ℕ) → i < count
            → blended Self.greater Self.lesser Self.sum_of how (value_in row.old i) value
            ≡ Some (value_in row.new i) }
        ensures lacks { result ≡ false → (i : ℕ) × (i < count)
            × (blended Self.greater Self.lesser Self.sum_of how (value_in row.old i) value ≡ None) };

    /// Copies the other row's values at each index below `count` that the mask has on. The others
    /// below `count` stay.
    fn take_marked(row: &mut Self::Row, other: &Self::Row, marks: &Mask<W>, count: u32)
        requires few_words { W ≤ 512 }
        requires mask_capacity { count ≤ 64 * W }
        requires capacity { count ≤ row_len row.old }
        requires other_capacity { count ≤ row_len other.now }
        ensures capacity { row_len row.old ≤ row_len row.new }
        ensures taken { (i : ℕ) → i < count → value_in row.new i
            ≡ (if is_on marks.now i then value_in other.now i else value_in row.old i) };

    /// Returns the row of numbers that keeps the slots of `count` entries. It has no number, and takes
    /// no memory, for integers. Returns an error if the memory for it cannot be allocated.
    fn slot_row(alloc: Global, count: u32) -> Result<Vec<u32>, AllocError>
        ensures { IfOk result (λ slots. Self.KIND ≡ truths → count ≤ length slots.items) };

    /// Returns the slot of the child at an index.
    fn slot_at(row: &Self::Row, slots: &Vec<u32>, i: u32) -> u32
        requires within { i < row_len row.now }
        requires kept { Self.KIND ≡ truths → i < length slots.now.items }
        ensures { slot_of (value_in row.now i) (slice_index_or slots.now.items i 0) ≡ result };

    /// Sets the slot of the child at an index, where the value there may change; every other value
    /// and number stays.
    fn set_slot(row: &mut Self::Row, slots: &mut Vec<u32>, i: u32, slot: u32)
        requires within { i < row_len row.old }
        requires kept { Self.KIND ≡ truths → i < length slots.old.items }
        ensures capacity { row_len row.old ≤ row_len row.new }
        ensures numbers { length slots.new.items ≡ length slots.old.items }
        ensures here { slot_of (value_in row.new i) (slice_index_or slots.new.items i 0) ≡ slot }
        ensures others { (j : ℕ) → j ≢ i → value_in row.new j ≡ value_in row.old j }
        ensures other_numbers { (j : ℕ) → j ≢ i → slice_index_or slots.new.items j 0 ≡ slice_index_or slots.old.items j 0 };

    /// A row's place takes at most 64 bytes more than a mask's, at addresses that 8 divides or a
    /// mask's place needs. (A law here cannot count a mask's bytes, `8 * W`.)
    ghost row_small: { (type_size Self.Row.row ≤ 64 + type_size (mask_row W.row))
        × (type_align Self.Row.row ≤ max 8 (type_align (mask_row W.row))) };
}
