//! One component of a coordinate, and the blocks of `2 ^ bits` numbers each along its axis.
ghost use Rattle.std.specs.Prelude.{◌≡◌, ◌+◌, ◌-◌, ◌*◌, ◌<◌, ◌≤◌, ◌^◌, ◌&&◌, ℤ, pos, negsuc, ◌+ℤ◌, IsTrue, int_le};
ghost use Rattle.vdb_coord.specs.Space.{extent, is_between};
ghost use Rattle.vdb_coord.specs.Components.{digit, first_of, last_of, number_at};

/// Returns 2 to the power `bits`.
pub(crate) fn power(bits: u32) -> i32
    requires { bits ≤ 15 }
    ensures { result ≡ pos (2 ^ bits) }
{
    1 << bits
}

/// Returns how far the last number of a block of `2 ^ bits` lies from its first.
pub(crate) fn reach(bits: u32) -> i32
    requires { bits ≤ 15 }
    ensures { result ≡ pos (2 ^ bits - 1) }
{
    power(bits) - 1
}

/// Returns the number of the block of `2 ^ bits` numbers that holds the component, counted in such blocks.
pub(crate) fn number_at(component: i32, bits: u32) -> i32
    requires { bits ≤ 15 }
    ensures { result ≡ number_at bits component }
{
    component >> bits
}

/// Returns the first number of the component's block of `2 ^ bits`.
pub(crate) fn first_around(component: i32, bits: u32) -> i32
    requires { bits ≤ 15 }
    ensures { result ≡ first_of bits (number_at bits component) }
{
    number_at(component, bits) * power(bits)
}

/// Returns the last number of the component's block of `2 ^ bits`.
pub(crate) fn last_around(component: i32, bits: u32) -> i32
    requires { bits ≤ 15 }
    ensures { result ≡ last_of bits (number_at bits component) }
{
    first_around(component, bits) + reach(bits)
}

/// Returns the position of the entry of `2 ^ low` numbers that holds the component, in its block of `2 ^ bits` such
/// entries.
pub(crate) fn digit(component: i32, low: u32, bits: u32) -> u32
    requires low_fits { low ≤ 10 }
    requires bits_fit { bits ≤ 5 }
    ensures value { result ≡ digit low bits component }
    ensures bound { result < 2 ^ bits }
{
    let entry = number_at(component, low);
    // compiles to one mask: the block's number comes from the entry's, not from the component
    (entry - first_around(entry, bits)) as u32
}

/// Returns how many entries a node of `bits` bits has along an axis.
pub(crate) fn width(bits: u32) -> u32
    requires { bits ≤ 5 }
    ensures value { result ≡ 2 ^ bits }
    ensures positive { 0 < result }
{
    1 << bits
}

/// Returns the first number of the entry of `2 ^ low` numbers in this position of the component's block of `2 ^ bits`
/// entries.
pub(crate) fn entry_first(component: i32, low: u32, bits: u32, position: u32) -> i32
    requires low_fits { low ≤ 10 }
    requires bits_fit { bits ≤ 5 }
    requires within { position < 2 ^ bits }
    ensures { result ≡ first_of (low + bits) (number_at (low + bits) component) +ℤ pos (position * 2 ^ low) }
{
    first_around(component, low + bits) + (position << low) as i32
}

/// Returns the last number of the entry of `2 ^ low` numbers in this position of the component's block of `2 ^ bits`
/// entries.
pub(crate) fn entry_last(component: i32, low: u32, bits: u32, position: u32) -> i32
    requires low_fits { low ≤ 10 }
    requires bits_fit { bits ≤ 5 }
    requires within { position < 2 ^ bits }
    ensures { result ≡ first_of (low + bits) (number_at (low + bits) component) +ℤ pos (position * 2 ^ low) +ℤ pos (2 ^ low - 1) }
{
    entry_first(component, low, bits, position) + reach(low)
}

/// Returns how many whole numbers lie from `low` to `high`, both counted.
pub(crate) fn extent(low: i32, high: i32) -> u128
    requires { IsTrue (int_le low high) }
    ensures value { result ≡ extent low high }
    ensures bound { result ≤ 2 ^ 32 }
{
    u128::from(high.abs_diff(low)) + 1
}

/// Returns whether the component is one of the numbers from `low` to `high`.
pub(crate) fn is_between(low: i32, high: i32, component: i32) -> bool
    ensures { result ≡ is_between low high component }
{
    low <= component && component <= high
}

/// Returns whether the numbers from `low` to `high` and those from `least` to `greatest` have one in common.
pub(crate) fn touches(low: i32, high: i32, least: i32, greatest: i32) -> bool
    ensures { result ≡ (int_le least high && int_le low greatest) }
{
    least <= high && low <= greatest
}

/// Returns the first number of the block of `2 ^ bits` numbers that has this number.
pub(crate) fn first_numbered(number: i32, bits: u32) -> i32
    requires few { bits ≤ 15 }
    requires within { IsTrue (is_between (number_at bits (negsuc 2147483647)) (number_at bits (pos 2147483647)) number) }
    ensures { result ≡ first_of bits number }
{
    number * power(bits)
}

/// Returns the last number of the block of `2 ^ bits` numbers that has this number.
pub(crate) fn last_numbered(number: i32, bits: u32) -> i32
    requires few { bits ≤ 15 }
    requires within { IsTrue (is_between (number_at bits (negsuc 2147483647)) (number_at bits (pos 2147483647)) number) }
    ensures { result ≡ last_of bits number }
{
    first_numbered(number, bits) + reach(bits)
}
