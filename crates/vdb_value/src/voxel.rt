//! What a type of voxel values offers.
ghost use Rattle.std.specs.Prelude.{◌≡◌, ◌≤◌, if◌then◌else◌, ℕ, Bool, false, Option, Some, None, List, IfSome, IsAscii, IsTrue, length, take, drop};
ghost use Rattle.std.specs.Option.{is_some};
ghost use Rattle.std.specs.Ordering.{is_gt, is_lt};
ghost use Rattle.std.specs.declared.cmp.Ordering.TheVariants.{Equal};
ghost use Rattle.std.specs.Mem.{type_size};
ghost use Rattle.std.specs.Align.{type_align};
ghost use Rattle.vdb_value.specs.Values.{are_bytes_of, byte_count, has_sums};
ghost use Rattle.vdb_value.specs.declared.Kind.{Kind};

use crate::Kind;
use itoa::Buffer;

/// A type of voxel values: `bool`, `i32` or `i64`.
pub trait Voxel: Copy + Ord + Drop {
    /// The type's kind.
    ghost KIND: { Kind };

    const KIND: Kind;

    /// Whether two values may have a sum: not if they are booleans.
    ghost SUMS: { Bool };

    const SUMS: bool;

    /// Whether it is a value of the type, such as a number within its range: a fact's variable ranges over all numbers.
    ghost is_value: { Self → Type 0 };

    /// The bytes and the text of a value.
    ghost bytes_of: { Self → List ℕ };

    ghost text_of: { Self → List ℕ };

    /// The lesser and the greater of two values, and their sum if the type has it.
    ghost lesser: { Self → Self → Self };

    ghost greater: { Self → Self → Self };

    ghost sum_of: { Self → Self → Option Self };

    /// Returns the lesser of two values: `and` for booleans.
    fn least(self, other: Self) -> Self
        ensures { result ≡ lesser self other };

    /// Returns the greater of two values: `or` for booleans.
    fn greatest(self, other: Self) -> Self
        ensures { result ≡ greater self other };

    /// Returns the sum of two values. Returns `None` exactly if it lies outside the type, and always for booleans.
    fn plus(self, other: Self) -> Option<Self>
        ensures { result ≡ sum_of self other };

    /// Writes the value's bytes to the start of `bytes`, most significant first and in two's complement, and returns
    /// how many they are: 1 for a boolean, which is 0 or 1, and 4 or 8 for a number. The bytes behind them stay.
    fn to_bytes(self, bytes: &mut [u8; 8]) -> usize
        ensures count { result ≡ byte_count KIND }
        ensures few { result ≤ 8 }
        ensures put { take result bytes.new ≡ bytes_of self }
        ensures rest { drop result bytes.new ≡ drop result bytes.old }
        ensures value { is_value self };

    /// Returns the value that has these bytes. Returns `None` exactly if the type's values have another number of
    /// bytes, or if the byte of a boolean is above 1.
    fn from_bytes(bytes: &[u8]) -> Option<Self>
        ensures same { IfSome result (λ x. bytes_of x ≡ bytes.now) }
        ensures value { IfSome result is_value }
        ensures known { is_some result ≡ are_bytes_of KIND bytes.now };

    /// Returns the value's text, which lies in `buffer` or is a constant: `true` or `false`, or a number in decimal,
    /// with a sign if it is negative.
    fn print(self, buffer: &mut Buffer) -> &str
        ensures text { result.now ≡ text_of self }
        ensures short { length result.now ≤ 20 }
        ensures ascii { IsAscii result.now }
        ensures value { is_value self };

    /// Values that compare alike are equal.
    ghost exact: { (x y : Self) → Self.cmp x y ≡ Equal → x ≡ y };

    /// The lesser and the greater are those of the order.
    ghost lesser_by_order: { (x y : Self) → lesser x y ≡ (if is_gt (Self.cmp x y) then y else x) };

    ghost greater_by_order: { (x y : Self) → greater x y ≡ (if is_lt (Self.cmp x y) then y else x) };

    /// A type has sums if its kind has, and without sums no two values have one.
    ghost sums_by_kind: { SUMS ≡ has_sums KIND };

    ghost no_sums: { SUMS ≡ false → (x y : Self) → sum_of x y ≡ None };

    /// A sum is a value of the type.
    ghost sum_value: { (x y z : Self) → sum_of x y ≡ Some z → is_value z };

    /// Values with the same bytes are equal, and a value can be read back from its bytes.
    ghost bytes_exact: { (x y : Self) → is_value x → is_value y → bytes_of x ≡ bytes_of y → x ≡ y };

    ghost bytes_known: { (x : Self) → is_value x → IsTrue (are_bytes_of KIND (bytes_of x)) };

    /// A value takes at most eight bytes.
    ghost small: { (type_size Self.row ≤ 8) × (type_align Self.row ≤ 8) };
}
