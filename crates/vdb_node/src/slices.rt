//! Values of slices.

ghost use Rattle.std.specs.Prelude.{◌≡◌, ◌≢◌, ◌<◌, ◌≤◌, ℕ, length, slice_index_or, false, Some, None, IsTrue};
ghost use Rattle.vdb_value.specs.Blends.{blended};

use vdb_value::{Blend, Voxel};

/// Returns the first index from `from` on and below `to` with another value than this, or `to` if
/// there is none.
pub(crate) fn next_other<V: Voxel>(values: &[V], value: V, from: u32, to: u32) -> u32
    requires from_within { from ≤ to }
    requires capacity { to ≤ length values.now }
    ensures least { from ≤ result }
    ensures within { result ≤ to }
    ensures here { (d : V) → result < to → slice_index_or values.now result d ≢ value }
    ensures before { (i : ℕ) (d : V) → from ≤ i → i < result
        → slice_index_or values.now i d ≡ value }
{
    'values: for i in from..to {
        if values[i as usize] != value {
            return i;
        }
    }
    to
}

/// Sets the value at each index from `from` on and below `to`; every other stays.
#[inline(always)]
pub(crate) fn set_each<V: Voxel>(values: &mut [V], from: u32, to: u32, value: V)
    requires in_order { from ≤ to }
    requires within { to ≤ length values.old }
    ensures capacity { length values.new ≡ length values.old }
    ensures run { (i : ℕ) (d : V) → from ≤ i → i < to → slice_index_or values.new i d ≡ value }
    ensures before { (i : ℕ) (d : V) → i < from
        → slice_index_or values.new i d ≡ slice_index_or values.old i d }
    ensures after { (i : ℕ) (d : V) → to ≤ i
        → slice_index_or values.new i d ≡ slice_index_or values.old i d }
{
    'values: for i in from..to {
        values[i as usize] = value;
    }
}

/// Copies the others' values from `from` on and below `to`; every other stays.
pub(crate) fn copy_run<V: Voxel>(values: &mut [V], others: &[V], from: u32, to: u32)
    requires in_order { from ≤ to }
    requires within { to ≤ length values.old }
    requires other_within { to ≤ length others.now }
    ensures capacity { length values.new ≡ length values.old }
    ensures run { (i : ℕ) (d : V) → from ≤ i → i < to
        → slice_index_or values.new i d ≡ slice_index_or others.now i d }
    ensures before { (i : ℕ) (d : V) → i < from
        → slice_index_or values.new i d ≡ slice_index_or values.old i d }
    ensures after { (i : ℕ) (d : V) → to ≤ i
        → slice_index_or values.new i d ≡ slice_index_or values.old i d }
{
    values[from as usize..to as usize].copy_from_slice(&others[from as usize..to as usize]);
}

/// Combines each of the first `count` values with the other at its index; those past them stay.
/// Returns false if some two of the first `count` do not combine: then some may have changed.
#[inline(always)]
fn blend_each<V: Voxel>(values: &mut [V], others: &[V], count: u32, how: Blend) -> bool
    requires capacity { count ≤ length values.old }
    requires other_capacity { count ≤ length others.now }
    ensures capacity { length values.new ≡ length values.old }
    ensures after { (i : ℕ) (d : V) → count ≤ i
        → slice_index_or values.new i d ≡ slice_index_or values.old i d }
    ensures blended { (i : ℕ) (d e : V) → IsTrue result → i < count
        → blended V.greater V.lesser V.sum_of how (slice_index_or values.old i d) (slice_index_or others.now i e)
        ≡ Some (slice_index_or values.new i d) }
    ensures lacks { result ≡ false → (i : ℕ) × (i < count)
        × ((d e : V) → blended V.greater V.lesser V.sum_of how (slice_index_or values.old i d) (slice_index_or others.now i e)
        ≡ None) }
{
    'values: for i in 0..count {
        match how.of(values[i as usize], others[i as usize]) {
            Some(value) => values[i as usize] = value,
            None => return false,
        }
    }
    true
}

/// Combines each of the values from `from` on and below `to` with this one; the others stay. Returns
/// false if one of them does not combine with it: then some may have changed.
#[inline(always)]
fn blend_each_with<V: Voxel>(values: &mut [V], value: V, from: u32, to: u32, how: Blend) -> bool
    requires in_order { from ≤ to }
    requires capacity { to ≤ length values.old }
    ensures capacity { length values.new ≡ length values.old }
    ensures before { (i : ℕ) (d : V) → i < from
        → slice_index_or values.new i d ≡ slice_index_or values.old i d }
    ensures blended { (i : ℕ) (d : V) → IsTrue result → from ≤ i → i < to
        → blended V.greater V.lesser V.sum_of how (slice_index_or values.old i d) value
        ≡ Some (slice_index_or values.new i d) }
    ensures lacks { result ≡ false → (i : ℕ) × (from ≤ i) × (i < to)
        × ((d : V) → blended V.greater V.lesser V.sum_of how (slice_index_or values.old i d) value ≡ None) }
{
    'values: for i in from..to {
        match how.of(values[i as usize], value) {
            Some(both) => values[i as usize] = both,
            None => return false,
        }
    }
    true
}

/// Does what `blend_each` does, by a loop for each `Blend`, so that no loop asks at a value which
/// one it is.
pub(crate) fn blend_slices<V: Voxel>(values: &mut [V], others: &[V], count: u32, how: Blend) -> bool
    requires capacity { count ≤ length values.old }
    requires other_capacity { count ≤ length others.now }
    ensures capacity { length values.new ≡ length values.old }
    ensures after { (i : ℕ) (d : V) → count ≤ i
        → slice_index_or values.new i d ≡ slice_index_or values.old i d }
    ensures blended { (i : ℕ) (d e : V) → IsTrue result → i < count
        → blended V.greater V.lesser V.sum_of how (slice_index_or values.old i d) (slice_index_or others.now i e)
        ≡ Some (slice_index_or values.new i d) }
    ensures lacks { result ≡ false → (i : ℕ) × (i < count)
        × ((d e : V) → blended V.greater V.lesser V.sum_of how (slice_index_or values.old i d) (slice_index_or others.now i e)
        ≡ None) }
{
    match how {
        Blend::Greatest => blend_each(values, others, count, Blend::Greatest),
        Blend::Least => blend_each(values, others, count, Blend::Least),
        Blend::Sum => blend_each(values, others, count, Blend::Sum),
    }
}

/// Does what `blend_each_with` does, by a loop for each `Blend`.
pub(crate) fn blend_slice_with<V: Voxel>(
    values: &mut [V],
    value: V,
    from: u32,
    to: u32,
    how: Blend,
) -> bool
    requires in_order { from ≤ to }
    requires capacity { to ≤ length values.old }
    ensures capacity { length values.new ≡ length values.old }
    ensures before { (i : ℕ) (d : V) → i < from
        → slice_index_or values.new i d ≡ slice_index_or values.old i d }
    ensures blended { (i : ℕ) (d : V) → IsTrue result → from ≤ i → i < to
        → blended V.greater V.lesser V.sum_of how (slice_index_or values.old i d) value
        ≡ Some (slice_index_or values.new i d) }
    ensures lacks { result ≡ false → (i : ℕ) × (from ≤ i) × (i < to)
        × ((d : V) → blended V.greater V.lesser V.sum_of how (slice_index_or values.old i d) value ≡ None) }
{
    match how {
        Blend::Greatest => blend_each_with(values, value, from, to, Blend::Greatest),
        Blend::Least => blend_each_with(values, value, from, to, Blend::Least),
        Blend::Sum => blend_each_with(values, value, from, to, Blend::Sum),
    }
}
