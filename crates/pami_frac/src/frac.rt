//! The fraction: how it is stored, made, negated and compared.

ghost use Rattle.std.specs.Prelude.{◌≡◌, ℕ, ◌<◌, ◌^◌, ◌↔◌, IfOk, IsErrOf, IsTrue, IsFalse, pos, ◌<ℤ◌, nat_abs};
ghost use Rattle.std.specs.Ordering.{MatchOrdering};
ghost use Rattle.pami_algebra.specs.Reduced.{over};
ghost use Rattle.pami_algebra.specs.Operations.{of_int, neg_f, ◌<ᶠ◌};
ghost use Rattle.pami_frac.specs.Range.{fits, kept, quotient, signed_of};
ghost use Rattle.pami_frac.specs.Signs.{is_zero, is_negative};
ghost use Rattle.pami_frac.specs.Stored.{IsStored};

use crate::fault::NewFault;
use crate::whole::{LARGEST, compare_magnitudes, gcd, signed};
use std::cmp::Ordering;
use std::marker::Model;

/// A fraction in lowest terms, whose numerator and denominator are below 2^127 in absolute value.
///
/// A contract sees a `Fraction`: a pair of whole numbers without bound.
#[derive(Clone, Copy, Debug, PartialEq, Eq)]
pub struct Frac {
    numerator: i128,
    denominator: u128,
}

impl Model for Frac {
    ghost use Rattle.pami_algebra.specs.Fraction.{Fraction};
    ghost use Rattle.pami_algebra.specs.Reduced.{over};
    ghost use Rattle.pami_frac.specs.Stored.{fraction_code, IsStored};

    ghost Value = { Fraction };

    ghost coded = { fraction_code };

    ghost view = { λ f. over f.numerator f.denominator };

    ghost invariant = { λ f. IsStored f.numerator f.denominator };

    ghost inverse = { λ p. record { numerator = p.num; denominator = p.den } };
}

/// `above / below` with this sign, brought to lowest terms; `None` exactly where these don't fit.
pub(crate) fn make(negative: bool, above: u128, below: u128) -> Option<Frac>
    requires { 0 < below }
    ensures { result ≡ kept (over (signed_of negative above) below) }
{
    let common = gcd(above, below);
    let n = above / common;
    let d = below / common;
    if n > LARGEST || d > LARGEST {
        return None;
    }
    Some(Frac {
        numerator: signed(negative, n),
        denominator: d,
    })
}

impl Frac {
    /// The whole number 0.
    pub fn zero() -> Frac
        ensures { result ≡ of_int (pos 0) }
    {
        Frac {
            numerator: 0,
            denominator: 1,
        }
    }

    /// The whole number 1.
    pub fn one() -> Frac
        ensures { result ≡ of_int (pos 1) }
    {
        Frac {
            numerator: 1,
            denominator: 1,
        }
    }

    /// A whole number.
    pub fn whole(number: i64) -> Frac
        ensures { result ≡ of_int number }
    {
        Frac::from_lowest(i128::from(number), 1)
    }

    /// `numerator / denominator` in lowest terms with a denominator above 0.
    ///
    /// # Errors
    ///
    /// `ZeroBelow` exactly where the denominator is 0. `TooWide` exactly where the lowest terms don't fit: their
    /// numerator without its sign, or their denominator, is 2^127.
    pub fn new(numerator: i128, denominator: i128) -> Result<Frac, NewFault>
        ensures value { IfOk result (λ f. f ≡ quotient numerator denominator) }
        ensures zero_below { IsErrOf result NewFault.ZeroBelow ↔ (denominator ≡ pos 0) }
        ensures too_wide { IsErrOf result NewFault.TooWide ↔ ((¬ (denominator ≡ pos 0)) × IsFalse (fits (quotient numerator denominator))) }
    {
        if denominator == 0 {
            return Err(NewFault::ZeroBelow);
        }
        let negative = (numerator < 0) != (denominator < 0);
        match make(
            negative,
            numerator.unsigned_abs(),
            denominator.unsigned_abs(),
        ) {
            Some(value) => Ok(value),
            None => Err(NewFault::TooWide),
        }
    }

    /// The numerator in lowest terms, with the sign; it is above -2^127.
    pub fn numerator(&self) -> i128
        ensures value { result ≡ self.now.num }
        ensures small { nat_abs result < 2 ^ 127 }
    {
        self.numerator
    }

    /// The denominator in lowest terms, at least 1.
    pub fn denominator(&self) -> i128
        ensures value { result ≡ pos self.now.den }
        ensures positive { pos 0 <ℤ result }
    {
        self.denominator as i128
    }

    /// `numerator / denominator`, for numbers that are in lowest terms and fit.
    pub(crate) fn from_lowest(numerator: i128, denominator: u128) -> Frac
        requires { IsStored numerator denominator }
        ensures { result ≡ over numerator denominator }
    {
        Frac {
            numerator,
            denominator,
        }
    }

    /// The numerator without its sign.
    pub(crate) fn magnitude(&self) -> u128
        ensures value { result ≡ nat_abs self.now.num }
        ensures small { result < 2 ^ 127 }
    {
        self.numerator().unsigned_abs()
    }

    /// The denominator, as the number without a sign that it is.
    pub(crate) fn below(&self) -> u128
        ensures value { result ≡ self.now.den }
        ensures positive { 0 < result }
        ensures small { result < 2 ^ 127 }
    {
        self.denominator
    }

    /// Is it 0?
    pub fn is_zero(&self) -> bool
        ensures test { result ≡ is_zero self.now }
        ensures value { IsTrue result ↔ (self.now ≡ of_int (pos 0)) }
    {
        self.numerator() == 0
    }

    /// Is it below 0?
    pub fn is_negative(&self) -> bool
        ensures test { result ≡ is_negative self.now }
        ensures value { IsTrue result ↔ (self.now <ᶠ of_int (pos 0)) }
    {
        self.numerator() < 0
    }

    /// The fraction with its sign turned.
    pub fn negate(self) -> Frac
        ensures { result ≡ neg_f self }
    {
        Frac {
            numerator: -self.numerator,
            denominator: self.denominator,
        }
    }

    /// How it stands to `other`. It takes no memory and is exact for every pair.
    pub fn compare(&self, other: &Frac) -> Ordering
        ensures { MatchOrdering result (self.now <ᶠ other.now) (self.now ≡ other.now) (other.now <ᶠ self.now) }
    {
        let (n, b) = (self.magnitude(), self.below());
        let (m, d) = (other.magnitude(), other.below());
        match (self.is_negative(), other.is_negative()) {
            (false, false) => compare_magnitudes(n, b, m, d),
            (false, true) => Ordering::Greater,
            (true, false) => Ordering::Less,
            (true, true) => compare_magnitudes(m, d, n, b),
        }
    }
}
