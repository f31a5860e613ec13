//! Tokens as numbers.
ghost use Rattle.std.specs.Prelude.{◌≡◌, ℕ, pos, neg_ℤ, min, option_map, if◌then◌else◌, Some, None};
ghost use Rattle.std.specs.List.{list_all};
ghost use Rattle.std.specs.Char.{is_ascii_digit};
ghost use Rattle.vdb_script.specs.Grammar.{digits_value, positive_of, num, number_of};

use vdb_scene::Num;

/// Returns the number that a token writes: 0, or decimal digits that don't begin with 0, with `-` before them for a number below
/// 0. The number may have any length, and is `Num::Far` outside `i64`. Returns `None` if the token is not a number.
pub fn number_of(token: &[u8]) -> Option<Num>
    ensures { result ≡ number_of token.now }
{
    match token {
        b"0" => Some(Num::Near(0)),
        [b'-', digits @ ..] => Some(below_zero(positive_of(digits)?)),
        digits => Some(above_zero(positive_of(digits)?)),
    }
}

/// Returns the number of digits that don't begin with 0, or `u64::MAX` for any greater one: `None` if they are not such digits.
fn positive_of(digits: &[u8]) -> Option<u64>
    ensures { result ≡ option_map (λ n. min n u64.MAX) (positive_of digits.now) }
{
    match digits {
        [] | [b'0', ..] => None,
        _ => digits_value(digits),
    }
}

/// Returns the number of any digits, or `u64::MAX` for any greater one: `None` if a byte is not a digit.
fn digits_value(digits: &[u8]) -> Option<u64>
    ensures { result ≡ (if list_all is_ascii_digit digits.now then Some (min (digits_value digits.now) u64.MAX) else None) }
{
    let mut value = 0u64;
    for digit in digits {
        if !digit.is_ascii_digit() {
            return None;
        }
        let digit = u64::from(*digit - b'0');
        value = if value < u64::MAX / 10 {
            10 * value + digit
        } else {
            value.saturating_mul(10).saturating_add(digit)
        };
    }
    Some(value)
}

/// Returns the number of this size above 0. `u64::MAX` also means any greater size.
fn above_zero(size: u64) -> Num
    ensures { (n : ℕ) → size ≡ min n u64.MAX → result ≡ num (pos n) }
{
    match i64::try_from(size) {
        Ok(number) => Num::Near(number),
        Err(_) => Num::Far,
    }
}

/// Returns the number of this size below 0. `u64::MAX` also means any greater size.
fn below_zero(size: u64) -> Num
    ensures { (n : ℕ) → size ≡ min n u64.MAX → result ≡ num (neg_ℤ (pos n)) }
{
    match 0i64.checked_sub_unsigned(size) {
        Some(number) => Num::Near(number),
        None => Num::Far,
    }
}
