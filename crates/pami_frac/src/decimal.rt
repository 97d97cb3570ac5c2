//! Decimals: read exactly, and refused where they are past the limits.

ghost use Rattle.std.specs.Prelude.{◌≡◌, ℕ, ◌+◌, ◌*◌, ◌^◌, ◌<◌, ◌≤◌, ◌↔◌, drop, length, IsTrue, IfOk, None, true, IfSome, pos, negsuc, ◌+ℤ◌, ◌-ℤ◌, ◌≤ℤ◌, ◌<ℤ◌, not, ◌++◌, IsErrOf};
ghost use Rattle.std.specs.List.{list_all, position_or_len};
ghost use Rattle.pami_algebra.specs.Reduced.{over};
ghost use Rattle.pami_frac.specs.Range.{signed_of, kept};
ghost use Rattle.pami_frac.specs.Decimal.{is_digit as digit_test, is_mark as mark_test, is_point as point_test, is_negative as begins_negative, unsigned as the_unsigned, are_digits as digits_test, is_exponent as exponent_test, number_after, power_of, scaled as the_scaled, is_decimal, decimal_value, decimal_outcome, IsWideDecimal, IsTooWide};
ghost use Rattle.pami_frac.specs.DecimalShort.{trimmed_digits};
ghost use Rattle.pami_frac.specs.DecimalDigits.{IsRead, zeros_of, IsSameScale};

pub(crate) mod far;
mod trimmed;

use crate::decimal::trimmed::{Trimmed, joined};
use crate::fault::DecimalFault;
use crate::frac::{Frac, make};
use crate::whole::gcd;

/// What the digits of a decimal come to.
#[derive(Clone, Copy)]
enum Mantissa {
    /// No digit but 0.
    Zero,
    Held(Trimmed),
    /// More than 39 digits between the zeros at the ends.
    Wide,
}

/// An exponent of this size or more is past the limits, whatever the count of digits.
const FAR: u128 = 1 << 100;

fn is_digit(byte: u8) -> bool
    ensures { result ≡ digit_test byte }
{
    b'0' <= byte && byte <= b'9'
}

fn are_all_digits(bytes: &[u8]) -> bool
    ensures { result ≡ list_all digit_test bytes.now }
{
    for byte in bytes {
        if !is_digit(*byte) {
            return false;
        }
    }
    true
}

fn is_mark(byte: u8) -> bool
    ensures { result ≡ mark_test byte }
{
    byte == b'e' || byte == b'E'
}

fn is_point(byte: u8) -> bool
    ensures { result ≡ point_test byte }
{
    byte == b'.'
}

/// The place of the first `e` or `E`, or the length.
pub(crate) fn mark_place(bytes: &[u8]) -> usize
    ensures place { result ≡ position_or_len mark_test bytes.now }
    ensures within { result ≤ length bytes.now }
{
    for (place, byte) in bytes.iter().enumerate() {
        if is_mark(*byte) {
            return place;
        }
    }
    bytes.len()
}

/// The place of the first point, or the length.
pub(crate) fn point_place(bytes: &[u8]) -> usize
    ensures place { result ≡ position_or_len point_test bytes.now }
    ensures within { result ≤ length bytes.now }
{
    for (place, byte) in bytes.iter().enumerate() {
        if is_point(*byte) {
            return place;
        }
    }
    bytes.len()
}

pub(crate) fn is_negative(text: &[u8]) -> bool
    ensures { result ≡ begins_negative text.now }
{
    match text {
        [first, ..] => *first == b'-',
        [] => false,
    }
}

/// The text without the sign that it may begin with.
pub(crate) fn unsigned(text: &[u8]) -> &[u8]
    ensures { result.now ≡ the_unsigned text.now }
{
    match text {
        [b'+' | b'-', rest @ ..] => rest,
        _ => text,
    }
}

/// At least one digit, and nothing else.
fn are_some_digits(bytes: &[u8]) -> bool
    ensures { result ≡ digits_test bytes.now }
{
    !bytes.is_empty() && are_all_digits(bytes)
}

/// Digits before and after a point, and at least one.
fn are_digits(whole: &[u8], fraction: &[u8]) -> bool
    ensures { result ≡ digits_test (whole.now ++ fraction.now) }
{
    if whole.is_empty() {
        return are_some_digits(fraction);
    }
    are_all_digits(whole) && are_all_digits(fraction)
}

/// Nothing, or a mark, a sign that may be missing, and digits.
fn is_exponent(part: &[u8]) -> bool
    ensures { result ≡ exponent_test part.now }
{
    match part {
        [_, power @ ..] => are_some_digits(unsigned(power)),
        [] => true,
    }
}

/// The digits with one more at their end.
fn followed(mantissa: Mantissa, digit: u128) -> Mantissa
    requires digit { digit < 10 }
    requires room { zeros_of mantissa < 2 ^ 127 }
    ensures read { (m : ℕ) → IsRead mantissa m → IsRead result (m * 10 + digit) }
    ensures zeros { zeros_of result ≤ zeros_of mantissa + 1 }
{
    match mantissa {
        Mantissa::Zero => {
            if digit == 0 {
                Mantissa::Zero
            } else {
                Mantissa::Held(Trimmed {
                    head: 0,
                    last: digit,
                    zeros: 0,
                })
            }
        }
        Mantissa::Held(digits) => with_digit(digits, digit),
        Mantissa::Wide => Mantissa::Wide,
    }
}

/// The number with one more digit at its end.
fn with_digit(digits: Trimmed, digit: u128) -> Mantissa
    requires digit { digit < 10 }
    requires room { digits.zeros < 2 ^ 127 }
    ensures read { IsRead result (trimmed_digits digits.head digits.last * 10 ^ digits.zeros * 10 + digit) }
    ensures zeros { zeros_of result ≤ digits.zeros + 1 }
{
    if digit == 0 {
        return Mantissa::Held(Trimmed {
            head: digits.head,
            last: digits.last,
            zeros: digits.zeros + 1,
        });
    }
    match joined(digits) {
        Some(head) => Mantissa::Held(Trimmed {
            head,
            last: digit,
            zeros: 0,
        }),
        None => Mantissa::Wide,
    }
}

/// The digits with those that follow them.
fn read_digits(start: Mantissa, digits: &[u8]) -> Mantissa
    requires digits { list_all digit_test digits.now ≡ true }
    requires room { zeros_of start < 2 ^ 64 }
    ensures read { (m : ℕ) → IsRead start m → IsRead result (number_after m digits.now) }
    ensures zeros { zeros_of result ≤ zeros_of start + length digits.now }
{
    let mut mantissa = start;
    for byte in digits {
        mantissa = followed(mantissa, (*byte - b'0') as u128);
    }
    mantissa
}

/// The number that digits write, or some number from `FAR` on where that is as large.
pub(crate) fn number(digits: &[u8]) -> u128
    requires { list_all digit_test digits.now ≡ true }
    ensures near { result < FAR → number_after 0 digits.now ≡ result }
    ensures far { FAR ≤ result → FAR ≤ number_after 0 digits.now }
    ensures bound { result < 2 ^ 104 }
{
    let mut number = 0;
    for byte in digits {
        if number < FAR {
            number = 10 * number + (*byte - b'0') as u128;
        }
    }
    number
}

/// The exponent of the last digit that isn't 0, by the exponent's part of the text, the count of digits after the
/// point and the count of zeros at the end. Past the limits another exponent past the same limit may stand for it.
fn exponent_of(part: &[u8], places: usize, zeros: u128) -> i128
    requires part { exponent_test part.now ≡ true }
    requires zeros { zeros < 2 ^ 66 }
    ensures { IsSameScale result ((power_of part.now -ℤ pos places) +ℤ pos zeros) }
{
    let shift = zeros as i128 - places as i128;
    match part {
        [_, power @ ..] => {
            let size = number(unsigned(power)) as i128;
            if is_negative(power) {
                shift - size
            } else {
                shift + size
            }
        }
        [] => shift,
    }
}

/// The digits times a power of ten of at least 1.
fn raised(negative: bool, digits: Trimmed, power: u32) -> Option<Frac>
    requires { power ≤ 38 }
    ensures { result ≡ kept (the_scaled (signed_of negative (trimmed_digits digits.head digits.last)) (pos power)) }
{
    let tens = digits.head.checked_mul(10)?;
    let all = tens.checked_add(digits.last)?;
    let above = all.checked_mul(10u128.pow(power))?;
    make(negative, above, 1)
}

/// The digits divided by a power of ten.
fn lowered(negative: bool, digits: Trimmed, power: u32) -> Option<Frac>
    requires { (0 < power) × (power ≤ 38) }
    ensures { result ≡ kept (over (signed_of negative (trimmed_digits digits.head digits.last)) (10 ^ power)) }
{
    if digits.head < FAR {
        let above = 10 * digits.head + digits.last;
        return make(negative, above, 10u128.pow(power));
    }
    mixed(negative, digits, 10u128.pow(power - 1))
}

/// The digits divided by ten times `tens`: the whole part, and the part behind the point in lowest terms.
fn mixed(negative: bool, digits: Trimmed, tens: u128) -> Option<Frac>
    requires { (0 < tens) × (tens ≤ 10 ^ 37) }
    ensures { result ≡ kept (over (signed_of negative (trimmed_digits digits.head digits.last)) (10 * tens)) }
{
    let whole = digits.head / tens;
    let rest = 10 * (digits.head % tens) + digits.last;
    let common = gcd(10 * tens, rest);
    let below = 10 * tens / common;
    let parts = whole.checked_mul(below)?;
    let above = parts.checked_add(rest / common)?;
    make(negative, above, below)
}

/// The digits times a power of ten, where the exponent is at least -38 and the value is in range.
fn scaled(negative: bool, digits: Trimmed, exponent: i128) -> Option<Frac>
    ensures refused { exponent <ℤ negsuc 37 → result ≡ None }
    ensures value { negsuc 37 ≤ℤ exponent → result ≡ kept (the_scaled (signed_of negative (trimmed_digits digits.head digits.last)) exponent) }
{
    if exponent < -38 {
        return None;
    }
    if 38 < exponent {
        return None;
    }
    if 0 <= exponent {
        raised(negative, digits, exponent as u32)
    } else {
        lowered(negative, digits, (-exponent) as u32)
    }
}

/// The value of a decimal, where it is within the limits.
fn value_of(negative: bool, mantissa: Mantissa, part: &[u8], places: usize) -> Option<Frac>
    requires part { exponent_test part.now ≡ true }
    requires zeros { zeros_of mantissa < 2 ^ 66 }
    ensures refused { (m : ℕ) → IsRead mantissa m
        → (result ≡ None) ↔ IsTooWide m (power_of part.now -ℤ pos places) (the_scaled (signed_of negative m) (power_of part.now -ℤ pos places)) }
    ensures value { (m : ℕ) → IsRead mantissa m → IfSome result (λ v. v ≡ the_scaled (signed_of negative m) (power_of part.now -ℤ pos places)) }
{
    match mantissa {
        Mantissa::Zero => make(negative, 0, 1),
        Mantissa::Held(digits) => {
            let exponent = exponent_of(part, places, digits.zeros);
            scaled(negative, digits, exponent)
        }
        Mantissa::Wide => None,
    }
}

/// The rest of a text that begins with a point, without it.
pub(crate) fn after_point(text: &[u8]) -> &[u8]
    ensures { result.now ≡ drop 1 text.now }
{
    match text {
        [_, rest @ ..] => rest,
        [] => text,
    }
}

/// The number that the text writes, if it is a decimal within the limits.
fn number_in(text: &[u8]) -> Result<Frac, DecimalFault>
    ensures not_a_number { IsErrOf result DecimalFault.NotANumber ↔ IsTrue (not (is_decimal text.now)) }
    ensures too_wide { IsErrOf result DecimalFault.TooWide ↔ IsWideDecimal text.now }
    ensures value { IfOk result (λ v. v ≡ decimal_value text.now) }
{
    let body = unsigned(text);
    let (significand, part) = body.split_at(mark_place(body));
    let (whole, pointed) = significand.split_at(point_place(significand));
    let fraction = after_point(pointed);
    if !are_digits(whole, fraction) || !is_exponent(part) {
        return Err(DecimalFault::NotANumber);
    }
    let mantissa = read_digits(read_digits(Mantissa::Zero, whole), fraction);
    match value_of(is_negative(text), mantissa, part, fraction.len()) {
        Some(value) => Ok(value),
        None => Err(DecimalFault::TooWide),
    }
}

/// Reads a decimal exactly: an optional sign, digits with an optional point and at least one digit beside it, then
/// optionally `e` or `E`, an optional sign and digits. The exponent may have any length.
///
/// `NotANumber` where the text is anything else. `TooWide` where the decimal isn't 0 and, without the zeros at both
/// ends of its digits (each at the end raises the exponent), has more than 39 digits or an exponent below -38, or
/// where its lowest terms don't fit a `Frac`.
pub fn read_decimal(text: &[u8]) -> Result<Frac, DecimalFault>
    ensures not_a_number { IsErrOf result DecimalFault.NotANumber ↔ IsTrue (not (is_decimal text.now)) }
    ensures too_wide { IsErrOf result DecimalFault.TooWide ↔ IsWideDecimal text.now }
    ensures value { IfOk result (λ v. v ≡ decimal_value text.now) }

    // All three as one: what the text is read as.
    ensures outcome { result ≡ decimal_outcome text.now }
{
    number_in(text)
}
