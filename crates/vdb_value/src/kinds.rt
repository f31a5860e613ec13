//! The three types of voxel values.
ghost use Rattle.std.specs.Prelude.{◌≡◌, ◌&&◌, ◌||◌, true, false, None, FitsSigned, ⊤, refl};
ghost use Rattle.std.specs.Fmt.{signed_decimal};
ghost use Rattle.std.specs.Int.{int_max, int_min, w32, w64};
ghost use Rattle.std.proofs.Common.{arith};
ghost use Rattle.vdb_value.specs.declared.Kind.TheVariants.{Bool as truths, I32, I64};
ghost use Rattle.vdb_value.specs.Laws.{bool_bytes_exact, bool_bytes_known, bool_exact, bool_greater, bool_lesser, i32_bytes_exact, i32_sum, i64_bytes_exact, i64_sum, int_exact, int_greater, int_lesser};
ghost use Rattle.vdb_value.specs.Values.{number_bytes, sum_in, truth_bytes, truth_text};

use crate::{Kind, Voxel};
use itoa::Buffer;

impl Voxel for bool {
    ghost KIND = { truths };

    const KIND: Kind = Kind::Bool;

    ghost SUMS = { false };

    const SUMS: bool = false;

    ghost is_value = { λ b. ⊤ };

    ghost bytes_of = { truth_bytes };

    ghost text_of = { truth_text };

    ghost lesser = { λ a b. a && b };

    ghost greater = { λ a b. a || b };

    ghost sum_of = { λ a b. None };

    fn least(self, other: bool) -> bool {
        self && other
    }

    fn greatest(self, other: bool) -> bool {
        self || other
    }

    fn plus(self, _other: bool) -> Option<bool> {
        None
    }

    fn to_bytes(self, bytes: &mut [u8; 8]) -> usize {
        bytes[..1].copy_from_slice(&[if self { 1 } else { 0 }]);
        1
    }

    fn from_bytes(bytes: &[u8]) -> Option<bool> {
        match bytes {
            [0] => Some(false),
            [1] => Some(true),
            _ => None,
        }
    }

    fn print(self, _buffer: &mut Buffer) -> &str {
        if self { "true" } else { "false" }
    }

    ghost exact = { bool_exact };

    ghost lesser_by_order = { bool_lesser };

    ghost greater_by_order = { bool_greater };

    ghost sums_by_kind = { refl };

    ghost no_sums = { λ h x y. refl };

    ghost sum_value = { λ x y z h. tt };

    ghost bytes_exact = { bool_bytes_exact };

    ghost bytes_known = { bool_bytes_known };

    ghost small = { (Prim.omega arith, Prim.omega arith) };
}

impl Voxel for i32 {
    ghost KIND = { I32 };

    const KIND: Kind = Kind::I32;

    ghost SUMS = { true };

    const SUMS: bool = true;

    ghost is_value = { FitsSigned w32 };

    ghost bytes_of = { number_bytes w32 };

    ghost text_of = { signed_decimal };

    ghost lesser = { int_min };

    ghost greater = { int_max };

    ghost sum_of = { sum_in I32 };

    fn least(self, other: i32) -> i32 {
        self.min(other)
    }

    fn greatest(self, other: i32) -> i32 {
        self.max(other)
    }

    fn plus(self, other: i32) -> Option<i32> {
        self.checked_add(other)
    }

    fn to_bytes(self, bytes: &mut [u8; 8]) -> usize {
        bytes[..4].copy_from_slice(&self.to_be_bytes());
        4
    }

    fn from_bytes(bytes: &[u8]) -> Option<i32> {
        match bytes.try_into() {
            Ok(all) => Some(i32::from_be_bytes(all)),
            Err(_) => None,
        }
    }

    fn print(self, buffer: &mut Buffer) -> &str {
        i64::from(self).print(buffer)
    }

    ghost exact = { int_exact };

    ghost lesser_by_order = { int_lesser };

    ghost greater_by_order = { int_greater };

    ghost sums_by_kind = { refl };

    ghost no_sums = { λ h x y. Prim.cc };

    ghost sum_value = { i32_sum };

    ghost bytes_exact = { i32_bytes_exact };

    ghost bytes_known = { λ x h. refl };

    ghost small = { (Prim.omega arith, Prim.omega arith) };
}

/// Returns the number that has these bytes.
fn number(bytes: [u8; 8]) -> i64
    ensures { number_bytes w64 result ≡ bytes }
{
    i64::from_be_bytes(bytes)
}

impl Voxel for i64 {
    ghost KIND = { I64 };

    const KIND: Kind = Kind::I64;

    ghost SUMS = { true };

    const SUMS: bool = true;

    ghost is_value = { FitsSigned w64 };

    ghost bytes_of = { number_bytes w64 };

    ghost text_of = { signed_decimal };

    ghost lesser = { int_min };

    ghost greater = { int_max };

    ghost sum_of = { sum_in I64 };

    fn least(self, other: i64) -> i64 {
        self.min(other)
    }

    fn greatest(self, other: i64) -> i64 {
        self.max(other)
    }

    fn plus(self, other: i64) -> Option<i64> {
        self.checked_add(other)
    }

    fn to_bytes(self, bytes: &mut [u8; 8]) -> usize {
        bytes[..8].copy_from_slice(&self.to_be_bytes());
        8
    }

    fn from_bytes(bytes: &[u8]) -> Option<i64> {
        match bytes.try_into() {
            Ok(all) => Some(number(all)),
            Err(_) => None,
        }
    }

    fn print(self, buffer: &mut Buffer) -> &str {
        buffer.format(self)
    }

    ghost exact = { int_exact };

    ghost lesser_by_order = { int_lesser };

    ghost greater_by_order = { int_greater };

    ghost sums_by_kind = { refl };

    ghost no_sums = { λ h x y. Prim.cc };

    ghost sum_value = { i64_sum };

    ghost bytes_exact = { i64_bytes_exact };

    ghost bytes_known = { λ x h. refl };

    ghost small = { (Prim.omega arith, Prim.omega arith) };
}
