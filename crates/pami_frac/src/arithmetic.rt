//! Sums, differences, products and quotients of fractions, each exact or refused.

ghost use Rattle.std.specs.Prelude.{◌≡◌, ℕ, false, ◌<◌, ◌^◌, ◌*◌, ◌+ℤ◌, ◌*ℤ◌, nat_abs};
ghost use Rattle.pami_algebra.specs.Fraction.{gcd as the_gcd};
ghost use Rattle.pami_algebra.specs.Reduced.{over};
ghost use Rattle.pami_algebra.specs.Operations.{inv_f};
ghost use Rattle.pami_frac.specs.Range.{kept, signed_of};
ghost use Rattle.pami_frac.specs.Signs.{is_zero};
ghost use Rattle.pami_frac.specs.Arithmetic.{add_outcome, sub_outcome, mul_outcome, div_outcome};
ghost use Rattle.pami_frac.specs.Checked.{sum_parts_by, over_if, sum_if, product_if};

use crate::checked::{multiple, product, quotient, times, total};
use crate::frac::Frac;
use crate::whole::{gcd, signed};

/// One of the four operations.
#[derive(Clone, Copy, Debug, PartialEq, Eq)]
pub enum Op {
    Add,
    Sub,
    Mul,
    Div,
}

/// An operation whose result doesn't fit, with both its operands as they were given.
#[derive(Clone, Copy, Debug, PartialEq, Eq)]
pub struct Refused {
    pub op: Op,
    pub left: Frac,
    pub right: Frac,
}

impl Refused {
    /// The refusal of this operation.
    fn of(op: Op, left: Frac, right: Frac) -> Refused
        ensures { result ≡ record { op = op; left = left; right = right } }
    {
        Refused { op, left, right }
    }
}

/// The sum of `a / b` and `c / d` over the least common multiple of `b` and `d`, where all numbers on the way fit.
///
/// `common` divides `b` and `d`.
fn sum_parts(a: i128, b: u128, c: i128, d: u128, common: u128) -> Option<(i128, u128)>
    requires below { (b < 2 ^ 127) × (d < 2 ^ 127) }
    requires divisor { 0 < common }
    ensures { result ≡ sum_parts_by a b c d common }
{
    let rest = quotient(b, common);
    let other = quotient(d, common);
    let left = product(a, other)?;
    let right = product(c, rest)?;
    let above = total(left, right)?;
    let below = multiple(b, other)?;
    Some((above, below))
}

/// `above / below` in lowest terms. What both have in common divides `common`.
fn reduce(above: i128, below: u128, common: u128) -> Frac
    requires above_fits { nat_abs above < 2 ^ 127 }
    requires below_fits { (0 < below) × (below < 2 ^ 127) }
    requires divisor { the_gcd (nat_abs above) common ≡ the_gcd (nat_abs above) below }
    ensures { result ≡ over above below }
{
    if common == 1 {
        return Frac::from_lowest(above, below);
    }
    let magnitude = above.unsigned_abs();
    let shared = gcd(magnitude, common);
    let numerator = quotient(magnitude, shared);
    let denominator = quotient(below, shared);
    Frac::from_lowest(signed(above < 0, numerator), denominator)
}

/// The sum of `a / b` and `c / b`, where their numerators' sum fits. For whole numbers `b` is 1, and nothing is reduced.
fn level_sum(a: i128, c: i128, b: u128) -> Option<Frac>
    requires { (0 < b) × (b < 2 ^ 127) }
    ensures { result ≡ over_if (a +ℤ c) b }
{
    match total(a, c) {
        Some(sum) => Some(reduce(sum, b, b)),
        None => None,
    }
}

/// The sum, where it fits. Its numbers can only have divisors of both denominators in common (Knuth, 4.5.1).
fn sum_of(p: Frac, q: Frac) -> Option<Frac>
    ensures { result ≡ sum_if p q }
{
    let (a, b) = (p.numerator(), p.below());
    let (c, d) = (q.numerator(), q.below());
    if b == d {
        return level_sum(a, c, b);
    }
    let common = gcd(b, d);
    match sum_parts(a, b, c, d, common) {
        Some((above, below)) => Some(reduce(above, below, common)),
        None => None,
    }
}

/// The product of `a / b` and `c / d` with this sign, both in lowest terms and not 0, where it fits.
fn cross(negative: bool, a: u128, b: u128, c: u128, d: u128) -> Option<Frac>
    requires left { (0 < a) × (0 < b) × (the_gcd a b ≡ 1) }
    requires right { (0 < c) × (0 < d) × (the_gcd c d ≡ 1) }
    ensures { result ≡ kept (over (signed_of negative (a * c)) (b * d)) }
{
    let outer = gcd(a, d);
    let inner = gcd(c, b);
    let (left, right) = (quotient(a, outer), quotient(c, inner));
    let (rest, other) = (quotient(b, inner), quotient(d, outer));
    let above = multiple(left, right)?;
    let below = multiple(rest, other)?;
    Some(Frac::from_lowest(signed(negative, above), below))
}

/// The product of two whole numbers, where it fits.
fn whole_product(a: i128, c: i128) -> Option<Frac>
    ensures { result ≡ over_if (a *ℤ c) 1 }
{
    match times(a, c) {
        Some(product) => Some(Frac::from_lowest(product, 1)),
        None => None,
    }
}

/// The product of two that aren't 0, where it fits. That of two whole numbers is one multiplication.
fn product_of(p: Frac, q: Frac) -> Option<Frac>
    requires left { is_zero p ≡ false }
    requires right { is_zero q ≡ false }
    ensures { result ≡ product_if p q }
{
    let (b, d) = (p.below(), q.below());
    if b == 1 && d == 1 {
        return whole_product(p.numerator(), q.numerator());
    }
    cross(
        p.is_negative() != q.is_negative(),
        p.magnitude(),
        b,
        q.magnitude(),
        d,
    )
}

impl Frac {
    /// The sum, with `self` left. Where one of both is 0 it is the other one.
    ///
    /// # Errors
    ///
    /// `Refused` exactly where, for `a/b + c/d` with `g` the greatest common divisor of `b` and `d`, one of
    /// `a (d/g)`, `c (b/g)`, their sum and `b (d/g)` is 2^127 or more in absolute value.
    #[tactic(auto, unfolding(crate::specs::Arithmetic::add_outcome))]
    pub fn add(self, other: Frac) -> Result<Frac, Refused>
        ensures { result ≡ add_outcome self other }
    {
        if self.is_zero() {
            return Ok(other);
        }
        if other.is_zero() {
            return Ok(self);
        }
        match sum_of(self, other) {
            Some(sum) => Ok(sum),
            None => Err(Refused::of(Op::Add, self, other)),
        }
    }

    /// The difference `self - other`.
    ///
    /// # Errors
    ///
    /// `Refused` exactly where the sum of `self` and the negation of `other` is refused.
    #[tactic(auto, unfolding(crate::specs::Arithmetic::sub_outcome))]
    pub fn sub(self, other: Frac) -> Result<Frac, Refused>
        ensures { result ≡ sub_outcome self other }
    {
        match self.add(other.negate()) {
            Ok(value) => Ok(value),
            Err(_) => Err(Refused::of(Op::Sub, self, other)),
        }
    }

    /// The product. Where one of both is 0 it is 0.
    ///
    /// # Errors
    ///
    /// `Refused` exactly where the lowest terms of the product don't fit.
    #[tactic(auto, unfolding(crate::specs::Arithmetic::mul_outcome))]
    pub fn mul(self, other: Frac) -> Result<Frac, Refused>
        ensures { result ≡ mul_outcome self other }
    {
        if self.is_zero() || other.is_zero() {
            return Ok(Frac::zero());
        }
        match product_of(self, other) {
            Some(product) => Ok(product),
            None => Err(Refused::of(Op::Mul, self, other)),
        }
    }

    /// The inverse of a fraction that isn't 0. Its numbers change places, so it always fits.
    fn inverse(self) -> Frac
        requires { is_zero self ≡ false }
        ensures { result ≡ inv_f self }
    {
        Frac::from_lowest(signed(self.is_negative(), self.below()), self.magnitude())
    }

    /// The quotient `self / other`, for an `other` that isn't 0.
    ///
    /// # Errors
    ///
    /// `Refused` exactly where the lowest terms of the quotient don't fit.
    #[tactic(auto, unfolding(crate::specs::Arithmetic::div_outcome))]
    pub fn div(self, other: Frac) -> Result<Frac, Refused>
        requires { is_zero other ≡ false }
        ensures { result ≡ div_outcome self other }
    {
        match self.mul(other.inverse()) {
            Ok(value) => Ok(value),
            Err(_) => Err(Refused::of(Op::Div, self, other)),
        }
    }
}
