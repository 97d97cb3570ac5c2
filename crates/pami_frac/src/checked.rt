//! Whole numbers that are kept only where they are below 2^127 in absolute value, and quotients of small ones.

ghost use Rattle.std.specs.Prelude.{◌≡◌, ℕ, ◌<◌, ◌^◌, ◌*◌, ◌/◌, pos, ◌*ℤ◌, ◌+ℤ◌};
ghost use Rattle.pami_frac.specs.Checked.{small_int, small_nat};

use crate::whole::{LARGEST, NARROW};

/// Numbers below 2^63 in absolute value have products below 2^126.
const HALF: i128 = 1 << 63;

/// `a b`, where that is below 2^127 in absolute value.
///
/// A checked multiplication of 128 bits is a call: most products are of numbers that need no check.
pub(crate) fn times(a: i128, b: i128) -> Option<i128>
    ensures { result ≡ small_int (a *ℤ b) }
{
    if -HALF < a && a < HALF && -HALF < b && b < HALF {
        return Some(a * b);
    }
    match a.checked_mul(b) {
        Some(z) if z != i128::MIN => Some(z),
        _ => None,
    }
}

/// `a b`, where that is below 2^127 in absolute value, for a `b` without a sign.
pub(crate) fn product(a: i128, b: u128) -> Option<i128>
    requires { b < 2 ^ 127 }
    ensures { result ≡ small_int (a *ℤ pos b) }
{
    times(a, b as i128)
}

/// `a + b`, where that is below 2^127 in absolute value.
pub(crate) fn total(a: i128, b: i128) -> Option<i128>
    ensures { result ≡ small_int (a +ℤ b) }
{
    match a.checked_add(b) {
        Some(z) if z != i128::MIN => Some(z),
        _ => None,
    }
}

/// `a b`, where that is below 2^127.
pub(crate) fn multiple(a: u128, b: u128) -> Option<u128>
    ensures { result ≡ small_nat (a * b) }
{
    if a < HALF as u128 && b < HALF as u128 {
        return Some(a * b);
    }
    match a.checked_mul(b) {
        Some(n) if n <= LARGEST => Some(n),
        _ => None,
    }
}

/// `a / b`, without a division of 128 bits where both are small.
pub(crate) fn quotient(a: u128, b: u128) -> u128
    requires { 0 < b }
    ensures { result ≡ a / b }
{
    if b == 1 {
        return a;
    }
    if a <= NARROW && b <= NARROW {
        return (a as u64 / b as u64) as u128;
    }
    a / b
}
