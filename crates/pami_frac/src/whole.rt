//! Whole numbers without a sign: the greatest common divisor and the order of two ratios.

ghost use Rattle.std.specs.Prelude.{◌≡◌, ℕ, ◌<◌, ◌^◌, ◌*◌};
ghost use Rattle.std.specs.Ordering.{MatchOrdering};
ghost use Rattle.pami_algebra.specs.Fraction.{gcd as the_gcd};
ghost use Rattle.pami_frac.specs.Range.{signed_of};

use std::cmp::Ordering;

/// The largest numerator and denominator that a fraction may have.
pub(crate) const LARGEST: u128 = (1 << 127) - 1;

/// The greatest common divisor of two numbers of 64 bits.
fn gcd_narrow(a: u64, b: u64) -> u64
    ensures { result ≡ the_gcd a b }
{
    let mut x = a;
    let mut y = b;
    while y != 0 {
        let rest = x % y;
        x = y;
        y = rest;
    }
    x
}

/// The greatest common divisor, by Euclid's algorithm; 0 only where both are 0.
///
/// With 1 it is 1 at once. It goes on in 64 bits as soon as the smaller number has no more.
pub(crate) fn gcd(a: u128, b: u128) -> u128
    ensures value { result ≡ the_gcd a b }
    ensures positive { 0 < b → 0 < result }
{
    if a == 1 || b == 1 {
        return 1;
    }
    let mut x = a;
    let mut y = b;
    while y > NARROW {
        let rest = x % y;
        x = y;
        y = rest;
    }
    if x <= NARROW {
        return gcd_narrow(x as u64, y as u64) as u128;
    }
    if y == 0 {
        return x;
    }
    gcd_narrow(y as u64, (x % y) as u64) as u128
}

/// The largest number of 64 bits.
pub(crate) const NARROW: u128 = (1 << 64) - 1;

/// The number of this magnitude and sign.
pub(crate) fn signed(negative: bool, magnitude: u128) -> i128
    requires { magnitude < 2 ^ 127 }
    ensures { result ≡ signed_of negative magnitude }
{
    let value = magnitude as i128;
    if negative { -value } else { value }
}

/// Compares `a / b` with `c / d`: the whole parts first, then the rests turned over, as in Euclid's algorithm.
fn compare_ratios(a: u128, b: u128, c: u128, d: u128) -> Ordering
    requires below { (0 < b) × (0 < d) }
    ensures { MatchOrdering result (a * d < c * b) (a * d ≡ c * b) (c * b < a * d) }
{
    let (mut a, mut b, mut c, mut d) = (a, b, c, d);
    loop {
        let p = a / b;
        let q = c / d;
        if p < q {
            return Ordering::Less;
        }
        if q < p {
            return Ordering::Greater;
        }
        let r = a % b;
        let s = c % d;
        if r == 0 {
            return if s == 0 {
                Ordering::Equal
            } else {
                Ordering::Less
            };
        }
        if s == 0 {
            return Ordering::Greater;
        }
        (a, b, c, d) = (d, s, b, r);
    }
}

/// Compares `a / b` with `c / d`, by the products crosswise where both fit.
pub(crate) fn compare_magnitudes(a: u128, b: u128, c: u128, d: u128) -> Ordering
    requires below { (0 < b) × (0 < d) }
    ensures { MatchOrdering result (a * d < c * b) (a * d ≡ c * b) (c * b < a * d) }
{
    if let Some(left) = a.checked_mul(d) {
        if let Some(right) = c.checked_mul(b) {
            return left.cmp(&right);
        }
    }
    compare_ratios(a, b, c, d)
}
