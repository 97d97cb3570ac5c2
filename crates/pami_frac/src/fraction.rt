//! The printed text of a fraction, read back.

ghost use Rattle.std.specs.Prelude.{◌≡◌, ℕ, ◌<◌, ◌≤◌, ◌^◌, ◌++◌, length, decimal, IfOk, IfSome, Ok, Some, IsTrue, pos, nat_abs};
ghost use Rattle.std.specs.List.{position_or_len};
ghost use Rattle.std.specs.Fmt.{signed_decimal};
ghost use lib.IntN.{ℤ};
ghost use Rattle.pami_algebra.specs.Fraction.{Fraction};
ghost use Rattle.pami_frac.specs.Range.{fits, signed_of};
ghost use Rattle.pami_frac.specs.Printed.{printed, printed_below, is_slash, without_minus};

use crate::decimal::is_negative;
use crate::fault::NotANumber;
use crate::frac::Frac;
use crate::whole::{LARGEST, signed};
use itoa::Buffer;

/// The number whose decimal text this is.
fn number_of(bytes: &[u8]) -> Option<u128>
    ensures read { IfSome result (λ n. bytes.now ≡ decimal n) }
    ensures only { (n : ℕ) → n < 2 ^ 127 → bytes.now ≡ decimal n → result ≡ Some n }
{
    let text = match str::from_utf8(bytes) {
        Ok(text) => text,
        Err(_) => return None,
    };
    let number = match u128::from_str_radix(text, 10) {
        Ok(number) => number,
        Err(_) => return None,
    };
    let mut digits = Buffer::new();
    if digits.format(number).as_bytes() == bytes {
        Some(number)
    } else {
        None
    }
}

/// The text without a `-` that it begins with.
fn without_minus(bytes: &[u8]) -> &[u8]
    ensures { result.now ≡ without_minus bytes.now }
{
    match bytes {
        [b'-', digits @ ..] => digits,
        _ => bytes,
    }
}

/// The whole number whose text this is, below 2^127 in absolute value.
fn numerator_of(bytes: &[u8]) -> Option<i128>
    ensures read { IfSome result (λ z. bytes.now ≡ signed_decimal z) }
    ensures only { (z : ℤ) → nat_abs z < 2 ^ 127 → bytes.now ≡ signed_decimal z → result ≡ Some z }
{
    let negative = is_negative(bytes);
    let number = match number_of(without_minus(bytes)) {
        Some(number) => number,
        None => return None,
    };
    if number > LARGEST {
        return None;
    }
    if negative && number == 0 {
        return None;
    }
    Some(signed(negative, number))
}

/// The denominator: 1 where nothing is written, or the number other than 1 behind a slash.
fn denominator_of(rest: &[u8]) -> Option<i128>
    ensures read { IfSome result (λ z. (d : ℕ) × (z ≡ pos d) × (rest.now ≡ printed_below d)) }
    ensures only { (d : ℕ) → d < 2 ^ 127 → rest.now ≡ printed_below d → result ≡ Some (pos d) }
{
    match rest {
        [] => Some(1),
        [b'/', digits @ ..] => {
            let number = match number_of(digits) {
                Some(number) => number,
                None => return None,
            };
            if number == 1 || number > LARGEST {
                return None;
            }
            Some(number as i128)
        }
        _ => None,
    }
}

/// The fraction of these two parts of a text.
fn fraction_of(above: &[u8], rest: &[u8]) -> Option<Frac>
    ensures read { IfSome result (λ v. above.now ++ rest.now ≡ printed v) }
    ensures fits { IfSome result (λ v. IsTrue (fits v)) }
    ensures only { (v : Fraction) → IsTrue (fits v) → above.now ≡ signed_decimal v.num → rest.now ≡ printed_below v.den → result ≡ Some v }
{
    let n = match numerator_of(above) {
        Some(n) => n,
        None => return None,
    };
    let d = match denominator_of(rest) {
        Some(d) => d,
        None => return None,
    };
    let value = match Frac::new(n, d) {
        Ok(value) => value,
        Err(_) => return None,
    };
    if value.numerator() == n && value.denominator() == d {
        Some(value)
    } else {
        None
    }
}

/// The place of the first slash, or the length.
fn slash_place(bytes: &[u8]) -> usize
    ensures place { result ≡ position_or_len is_slash bytes.now }
    ensures within { result ≤ length bytes.now }
{
    for (place, byte) in bytes.iter().enumerate() {
        if *byte == b'/' {
            return place;
        }
    }
    bytes.len()
}

/// The fraction whose printed text this is: the numerator, and `/` and the denominator where that isn't 1, in lowest terms
/// and with no sign, zero or blank more than `print` writes. It takes no memory.
///
/// # Errors
///
/// `NotANumber` exactly where this is no printed text of a `Frac`.
pub fn read_fraction(text: &[u8]) -> Result<Frac, NotANumber>
    ensures read { IfOk result (λ v. text.now ≡ printed v) }
    ensures only { (v : Fraction) → IsTrue (fits v) → text.now ≡ printed v → result ≡ Ok v }

    // With the two above: a number exactly where this is the text of a fraction that fits.
    ensures fits { IfOk result (λ v. IsTrue (fits v)) }
{
    let (above, rest) = text.split_at(slash_place(text));
    match fraction_of(above, rest) {
        Some(value) => Ok(value),
        None => Err(NotANumber),
    }
}
