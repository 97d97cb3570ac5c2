//! Bounds as texts say them: read exactly, or without end.

ghost use Rattle.std.specs.Prelude.{◌≡◌};
ghost use Rattle.pami_frac.specs.BoundText.{bound_outcome, endless as the_endless, is_infinite as the_infinite, is_infinity};

use crate::decimal::far::is_far;
use crate::decimal::{is_negative, read_decimal, unsigned};
use crate::fault::DecimalFault;
use crate::frac::Frac;

/// What a text says of a bound: a number, or no end above or below.
#[derive(Clone, Copy, Debug, PartialEq, Eq)]
pub enum BoundValue {
    Finite(Frac),
    Plus,
    Minus,
}

/// The least absolute value that counts as infinite.
const INFINITY: u128 = 100_000_000_000_000_000_000;

/// Whether the value is 10^20 or more in absolute value.
fn is_infinite(value: &Frac) -> bool
    ensures { result ≡ the_infinite value.now }
{
    let whole = value.numerator().unsigned_abs() / value.denominator().unsigned_abs();
    whole >= INFINITY
}

/// Whether the text spells `inf` or `infinity`, in letters of any case, with a sign that may be missing.
fn spells_infinity(text: &[u8]) -> bool
    ensures { result ≡ is_infinity text.now }
{
    let word = unsigned(text);
    word.eq_ignore_ascii_case(b"inf") || word.eq_ignore_ascii_case(b"infinity")
}

/// No end in the direction of the sign.
fn endless(negative: bool) -> BoundValue
    ensures { result ≡ the_endless negative }
{
    if negative {
        BoundValue::Minus
    } else {
        BoundValue::Plus
    }
}

/// Reads a bound exactly: a decimal, or `inf` or `infinity` in letters of any case with an optional sign. A decimal of
/// 10^20 or more in absolute value is `Plus` or `Minus` by its sign, however wide it is.
///
/// `NotANumber` where the text is anything else, `TooWide` where `read_decimal` finds it so and it is below 10^20 in
/// absolute value. It takes no memory.
pub fn read_bound(text: &[u8]) -> Result<BoundValue, DecimalFault>
    ensures outcome { result ≡ bound_outcome text.now }
{
    if spells_infinity(text) {
        return Ok(endless(is_negative(text)));
    }
    match read_decimal(text) {
        Ok(value) => {
            if is_infinite(&value) {
                return Ok(endless(is_negative(text)));
            }
            Ok(BoundValue::Finite(value))
        }
        Err(DecimalFault::NotANumber) => Err(DecimalFault::NotANumber),
        Err(DecimalFault::TooWide) => {
            if is_far(text) {
                return Ok(endless(is_negative(text)));
            }
            Err(DecimalFault::TooWide)
        }
    }
}
