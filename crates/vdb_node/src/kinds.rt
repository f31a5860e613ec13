//! The rows of the three types of values.

ghost use Rattle.std.specs.Prelude.{◌≡◌, ◌*◌, ℕ, length, slice_index_or};
ghost use Rattle.std.proofs.Common.{arith};
ghost use Rattle.vdb_mask.specs.Mask.{is_on};
ghost use Rattle.vdb_node.specs.Slots.{slot_of_i32, slot_of_i64};
ghost use Rattle.vdb_node.specs.Values.{capacity, value_of};

use crate::Stored;
use crate::slots::{i32_of_slot, i64_of_slot, slot_of_i32, slot_of_i64};
use crate::uniform::{is_uniform, put};
use crate::values::Values;
use std::alloc::{AllocError, Global};
use vdb_mask::Mask;
use vdb_value::Blend;

impl<const W: usize> Stored<W> for bool {
    type Row = Mask<W>;

    ghost row_len = { λ row. 64 * W };

    ghost value_in = { is_on };

    ghost slot_of = { λ _ number. number };

    fn filled_row(self, _alloc: Global, _count: u32) -> Result<Mask<W>, AllocError> {
        Ok(Mask::filled(self))
    }

    fn copied_row(row: &Mask<W>, _alloc: Global) -> Result<Mask<W>, AllocError> {
        Ok(row.copied())
    }

    fn copy_row(row: &mut Mask<W>, other: &Mask<W>, _count: u32) {
        row.copy_from(other);
    }

    #[inline(always)]
    fn value_at(row: &Mask<W>, i: u32) -> bool {
        row.test(i)
    }

    fn copy_values(row: &Mask<W>, from: u32, into: &mut [bool]) {
        'values: for i in 0..into.len() {
            into[i] = row.test(from + i as u32);
        }
    }

    #[inline(always)]
    fn set_value(row: &mut Mask<W>, i: u32, value: bool) {
        put(row, i, value);
    }

    fn set_run(row: &mut Mask<W>, from: u32, to: u32, value: bool) {
        row.set_run(from, to, value);
    }

    fn set_values(row: &mut Mask<W>, from: u32, values: &[bool]) {
        'values: for i in 0..values.len() {
            put(row, from + i as u32, values[i]);
        }
    }

    fn are_alike(row: &Mask<W>, count: u32) -> bool {
        is_uniform(row, count)
    }

    fn next_unlike(row: &Mask<W>, value: bool, from: u32, to: u32) -> u32 {
        match row.next_before(!value, from, to) {
            Some(i) => i,
            None => to,
        }
    }

    fn blend_rows(row: &mut Mask<W>, other: &Mask<W>, count: u32, how: Blend) -> bool {
        match how {
            Blend::Greatest => row.union(other),
            Blend::Least => row.both(other),
            Blend::Sum => return count == 0,
        }
        true
    }

    fn blend_row_with(row: &mut Mask<W>, value: bool, count: u32, how: Blend) -> bool {
        match how {
            Blend::Greatest if value => row.set_run(0, count, true),
            Blend::Least if !value => row.set_run(0, count, false),
            Blend::Sum => return count == 0,
            _ => {}
        }
        true
    }

    fn take_marked(row: &mut Mask<W>, other: &Mask<W>, marks: &Mask<W>, _count: u32) {
        let mut taken = other.copied();
        taken.both(marks);
        row.minus(marks);
        row.union(&taken);
    }

    fn slot_row(alloc: Global, count: u32) -> Result<Vec<u32>, AllocError> {
        vec![in alloc; 0; count as usize]
    }

    fn slot_at(_row: &Mask<W>, slots: &Vec<u32>, i: u32) -> u32 {
        slots[i as usize]
    }

    fn set_slot(_row: &mut Mask<W>, slots: &mut Vec<u32>, i: u32, slot: u32) {
        slots[i as usize] = slot;
    }

    ghost row_small = { (Prim.omega arith, Prim.omega arith) };
}

impl<const W: usize> Stored<W> for i32 {
    type Row = Values<i32>;

    ghost row_len = { capacity };

    ghost value_in = { value_of };

    ghost slot_of = { λ value _. slot_of_i32 value };

    fn filled_row(self, alloc: Global, count: u32) -> Result<Values<i32>, AllocError> {
        Values::filled(alloc, self, count)
    }

    fn copied_row(row: &Values<i32>, alloc: Global) -> Result<Values<i32>, AllocError> {
        row.copied(alloc)
    }

    fn copy_row(row: &mut Values<i32>, other: &Values<i32>, count: u32) {
        row.copy_from(other, count);
    }

    #[inline(always)]
    fn value_at(row: &Values<i32>, i: u32) -> i32 {
        row.at(i)
    }

    #[inline(always)]
    fn copy_values(row: &Values<i32>, from: u32, into: &mut [i32]) {
        row.copy_out(from, into);
    }

    #[inline(always)]
    fn set_value(row: &mut Values<i32>, i: u32, value: i32) {
        row.set(i, value);
    }

    #[inline(always)]
    fn set_run(row: &mut Values<i32>, from: u32, to: u32, value: i32) {
        row.set_run(from, to, value);
    }

    #[inline(always)]
    fn set_values(row: &mut Values<i32>, from: u32, values: &[i32]) {
        row.copy_in(from, values);
    }

    fn are_alike(row: &Values<i32>, count: u32) -> bool {
        row.are_alike(count)
    }

    fn next_unlike(row: &Values<i32>, value: i32, from: u32, to: u32) -> u32 {
        row.next_unlike(value, from, to)
    }

    fn blend_rows(row: &mut Values<i32>, other: &Values<i32>, count: u32, how: Blend) -> bool {
        row.blend(other, count, how)
    }

    fn blend_row_with(row: &mut Values<i32>, value: i32, count: u32, how: Blend) -> bool {
        row.blend_with(value, count, how)
    }

    fn take_marked(row: &mut Values<i32>, other: &Values<i32>, marks: &Mask<W>, count: u32) {
        row.take_marked(other, marks, count);
    }

    fn slot_row(alloc: Global, _count: u32) -> Result<Vec<u32>, AllocError> {
        Ok(Vec::new(alloc))
    }

    fn slot_at(row: &Values<i32>, _slots: &Vec<u32>, i: u32) -> u32 {
        slot_of_i32(row.at(i))
    }

    fn set_slot(row: &mut Values<i32>, _slots: &mut Vec<u32>, i: u32, slot: u32) {
        row.set(i, i32_of_slot(slot));
    }

    ghost row_small = { (Prim.omega arith, Prim.omega arith) };
}

impl<const W: usize> Stored<W> for i64 {
    type Row = Values<i64>;

    ghost row_len = { capacity };

    ghost value_in = { value_of };

    ghost slot_of = { λ value _. slot_of_i64 value };

    fn filled_row(self, alloc: Global, count: u32) -> Result<Values<i64>, AllocError> {
        Values::filled(alloc, self, count)
    }

    fn copied_row(row: &Values<i64>, alloc: Global) -> Result<Values<i64>, AllocError> {
        row.copied(alloc)
    }

    fn copy_row(row: &mut Values<i64>, other: &Values<i64>, count: u32) {
        row.copy_from(other, count);
    }

    #[inline(always)]
    fn value_at(row: &Values<i64>, i: u32) -> i64 {
        row.at(i)
    }

    #[inline(always)]
    fn copy_values(row: &Values<i64>, from: u32, into: &mut [i64]) {
        row.copy_out(from, into);
    }

    #[inline(always)]
    fn set_value(row: &mut Values<i64>, i: u32, value: i64) {
        row.set(i, value);
    }

    #[inline(always)]
    fn set_run(row: &mut Values<i64>, from: u32, to: u32, value: i64) {
        row.set_run(from, to, value);
    }

    #[inline(always)]
    fn set_values(row: &mut Values<i64>, from: u32, values: &[i64]) {
        row.copy_in(from, values);
    }

    fn are_alike(row: &Values<i64>, count: u32) -> bool {
        row.are_alike(count)
    }

    fn next_unlike(row: &Values<i64>, value: i64, from: u32, to: u32) -> u32 {
        row.next_unlike(value, from, to)
    }

    fn blend_rows(row: &mut Values<i64>, other: &Values<i64>, count: u32, how: Blend) -> bool {
        row.blend(other, count, how)
    }

    fn blend_row_with(row: &mut Values<i64>, value: i64, count: u32, how: Blend) -> bool {
        row.blend_with(value, count, how)
    }

    fn take_marked(row: &mut Values<i64>, other: &Values<i64>, marks: &Mask<W>, count: u32) {
        row.take_marked(other, marks, count);
    }

    fn slot_row(alloc: Global, _count: u32) -> Result<Vec<u32>, AllocError> {
        Ok(Vec::new(alloc))
    }

    fn slot_at(row: &Values<i64>, _slots: &Vec<u32>, i: u32) -> u32 {
        slot_of_i64(row.at(i))
    }

    fn set_slot(row: &mut Values<i64>, _slots: &mut Vec<u32>, i: u32, slot: u32) {
        row.set(i, i64_of_slot(slot));
    }

    ghost row_small = { (Prim.omega arith, Prim.omega arith) };
}
