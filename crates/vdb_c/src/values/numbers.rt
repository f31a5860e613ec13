//! Values of a tree as numbers of 64 bits.
ghost use Rattle.std.specs.Option.{option_map};
ghost use Rattle.std.specs.Prelude.{◌≡◌, ◌<◌, ℕ, ℤ, pos, if◌then◌else◌, length, slice_index_or};
ghost use Rattle.vdb_node.specs.Leaf.{cell_in};
ghost use Rattle.vdb_value.specs.declared.Cell.{Cell};
ghost use Rattle.vdb_c.specs.Values.{value_of};

use vdb_node::Leaf;
use vdb_scene::GridValue;

/// A type of values that a tree may have.
pub(crate) trait Number: GridValue {
    /// A value as a number: 1 and 0 for true and false.
    ghost number_of: { Self → ℤ };

    /// Returns the value as a number.
    fn number(self) -> i64
        ensures { result ≡ number_of self };

    /// Returns the value of a number: `None` if the type doesn't have it.
    fn of_number(number: i64) -> Option<Self>
        ensures { option_map Self.as_scalar result ≡ value_of Self.KIND number };

    /// Copies the values of a leaf as numbers to a slice of 512 elements.
    fn copy_numbers(leaf: &Leaf<Self, 3, 8>, into: &mut [i64])
        requires { length into.old ≡ 512 }
        ensures length { length into.new ≡ 512 }
        ensures numbers { (d : Cell Self) (i : ℕ) (e : ℤ) → i < 512 → slice_index_or into.new i e ≡ number_of (cell_in d leaf.now i).value };
}

impl Number for bool {
    ghost number_of = { λ b. if b then pos 1 else pos 0 };

    #[inline(always)]
    fn number(self) -> i64 {
        if self { 1 } else { 0 }
    }

    #[inline(always)]
    fn of_number(number: i64) -> Option<bool> {
        if number == 0 {
            return Some(false);
        }
        if number == 1 {
            return Some(true);
        }
        None
    }

    fn copy_numbers(leaf: &Leaf<bool, 3, 8>, into: &mut [i64]) {
        let mut values = [false; 512];
        leaf.copy_values(0, &mut values);
        for i in 0..512usize {
            into[i] = if values[i] { 1 } else { 0 };
        }
    }
}

impl Number for i32 {
    ghost number_of = { λ n. n };

    #[inline(always)]
    fn number(self) -> i64 {
        i64::from(self)
    }

    #[inline(always)]
    fn of_number(number: i64) -> Option<i32> {
        i32::try_from(number).ok()
    }

    fn copy_numbers(leaf: &Leaf<i32, 3, 8>, into: &mut [i64]) {
        let mut values = [0; 512];
        leaf.copy_values(0, &mut values);
        for i in 0..512usize {
            into[i] = i64::from(values[i]);
        }
    }
}

impl Number for i64 {
    ghost number_of = { λ n. n };

    #[inline(always)]
    fn number(self) -> i64 {
        self
    }

    #[inline(always)]
    fn of_number(number: i64) -> Option<i64> {
        Some(number)
    }

    fn copy_numbers(leaf: &Leaf<i64, 3, 8>, into: &mut [i64]) {
        leaf.copy_values(0, into);
    }
}
