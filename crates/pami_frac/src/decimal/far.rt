//! Decimals of 10^20 and more in absolute value, told by where their first digit other than 0 stands.

ghost use Rattle.std.specs.Prelude.{◌≡◌, ◌++◌, ◌-ℤ◌, ◌<◌, ◌^◌, ◌≤◌, ◌≤ℤ◌, ◌<ℤ◌, ℕ, pos, neg_ℤ, Bool, length, true, false, ◌+ℤ◌, IsTrue};
ghost use Rattle.std.specs.List.{list_all};
ghost use Rattle.pami_frac.specs.BoundText.{is_infinite};
ghost use Rattle.pami_frac.specs.Decimal.{is_digit as digit_test, is_decimal, is_exponent as exponent_test, decimal_value, number_after, power_of, scaled as the_scaled};
ghost use Rattle.pami_frac.specs.DecimalDigits.{HasDigits, IsSamePower};
ghost use Rattle.pami_frac.specs.Range.{signed_of};

use crate::decimal::{after_point, is_negative, mark_place, number, point_place, unsigned};

/// The exponent from which on 1 times that power of ten is infinite.
const FIRST_INFINITE: i128 = 20;

/// The count of digits from the first on that isn't 0.
fn significant(digits: &[u8]) -> usize
    requires { list_all digit_test digits.now ≡ true }
    ensures digits { HasDigits (number_after 0 digits.now) result }
    ensures within { result ≤ length digits.now }
{
    for (place, digit) in digits.iter().enumerate() {
        if *digit != b'0' {
            return digits.len() - place;
        }
    }
    0
}

/// The count of digits of both parts together, from the first on that isn't 0.
fn significant_of(whole: &[u8], fraction: &[u8]) -> u128
    requires whole { list_all digit_test whole.now ≡ true }
    requires fraction { list_all digit_test fraction.now ≡ true }
    ensures digits { HasDigits (number_after 0 (whole.now ++ fraction.now)) result }
    ensures size { result < 2 ^ 66 }
{
    let count = significant(whole);
    if count == 0 {
        return significant(fraction) as u128;
    }
    count as u128 + fraction.len() as u128
}

/// The power of ten that the exponent's part of a text says. Past all counts of digits another one of such a size may
/// stand for it.
fn power(part: &[u8]) -> i128
    requires { exponent_test part.now ≡ true }
    ensures same { IsSamePower result (power_of part.now) }
    ensures size { (neg_ℤ (pos (2 ^ 104)) ≤ℤ result) × (result ≤ℤ pos (2 ^ 104)) }
{
    match part {
        [_, power @ ..] => {
            let size = number(unsigned(power)) as i128;
            if is_negative(power) { -size } else { size }
        }
        [] => 0,
    }
}

/// Whether the first of `count` digits, `places` of which stand behind the point, has an exponent of at least 20 where
/// they are taken by this power of ten.
fn is_high(count: u128, places: usize, power: i128) -> bool
    requires count { count < 2 ^ 66 }
    requires power { (neg_ℤ (pos (2 ^ 104)) ≤ℤ power) × (power ≤ℤ pos (2 ^ 104)) }
    ensures high { result ≡ true → pos 20 ≤ℤ (((pos count -ℤ pos 1) -ℤ pos places) +ℤ power) }
    ensures low { result ≡ false → (((pos count -ℤ pos 1) -ℤ pos places) +ℤ power) <ℤ pos 20 }
    ensures size { places < 2 ^ 64 }
{
    let lead = count as i128 - 1 - places as i128;
    lead + power >= FIRST_INFINITE
}

/// Whether digits with a point between these parts, taken by the power of ten of `part`, are infinite.
fn is_far_by(whole: &[u8], fraction: &[u8], part: &[u8]) -> bool
    requires whole { list_all digit_test whole.now ≡ true }
    requires fraction { list_all digit_test fraction.now ≡ true }
    requires part { exponent_test part.now ≡ true }
    ensures { (s : Bool) → result ≡ is_infinite (the_scaled (signed_of s (number_after 0 (whole.now ++ fraction.now))) (power_of part.now -ℤ pos (length fraction.now))) }
{
    let count = significant_of(whole, fraction);
    if count == 0 {
        return false;
    }
    is_high(count, fraction.len(), power(part))
}

/// Whether a decimal is infinite, however wide it is.
pub(crate) fn is_far(text: &[u8]) -> bool
    requires { IsTrue (is_decimal text.now) }
    ensures { result ≡ is_infinite (decimal_value text.now) }
{
    let body = unsigned(text);
    let (significand, part) = body.split_at(mark_place(body));
    let (whole, pointed) = significand.split_at(point_place(significand));
    is_far_by(whole, after_point(pointed), part)
}
