//! Single tests: of two numbers, of a value and its bounds, and what an outcome comes to.

ghost use Rattle.std.specs.Prelude.{◌≡◌, ◌∷◌, [], Ok};
ghost use Rattle.pami_algebra.specs.Operations.{is_below};
ghost use Rattle.pami_theory.specs.Start.{is_same};
ghost use Rattle.pami_check.specs.Tests.{behind, tested, plain};
ghost use Rattle.pami_check.specs.Verdict.{is_at_least, is_at_most, is_within, is_at, is_complementary};

use crate::verdict::{Condition, Verdict};
use pami_frac::{Bounds, Frac, Refused};
use std::cmp::Ordering;

/// Is the first below the second?
pub(crate) fn is_below(left: &Frac, right: &Frac) -> bool
    ensures { result ≡ is_below left.now right.now }
{
    match left.compare(right) {
        Ordering::Less => true,
        _ => false,
    }
}

/// Are both the same number?
pub(crate) fn is_same(left: Frac, right: Frac) -> bool
    ensures { result ≡ is_same left right }
{
    left == right
}

/// Isn't the value below this bound?
fn is_at_least(low: Option<Frac>, value: &Frac) -> bool
    ensures { result ≡ is_at_least low value.now }
{
    match low {
        Some(bound) => !is_below(value, &bound),
        None => true,
    }
}

/// Isn't the value above this bound?
fn is_at_most(high: Option<Frac>, value: &Frac) -> bool
    ensures { result ≡ is_at_most high value.now }
{
    match high {
        Some(bound) => !is_below(&bound, value),
        None => true,
    }
}

/// Is the value within its bounds?
pub(crate) fn is_within(bounds: &Bounds, value: &Frac) -> bool
    ensures { result ≡ is_within bounds.now value.now }
{
    is_at_least(bounds.low, value) && is_at_most(bounds.high, value)
}

/// Is the value at this bound?
fn is_at(bound: Option<Frac>, value: Frac) -> bool
    ensures { result ≡ is_at bound value }
{
    match bound {
        Some(bound) => is_same(bound, value),
        None => false,
    }
}

/// Does a value stand at the bound that the sign of its reduced cost asks for?
pub(crate) fn is_complementary(bounds: &Bounds, value: Frac, reduced: Frac) -> bool
    ensures { result ≡ is_complementary bounds.now value reduced }
{
    let zero = Frac::zero();
    if is_below(&zero, &reduced) {
        is_at(bounds.low, value)
    } else if is_below(&reduced, &zero) {
        is_at(bounds.high, value)
    } else {
        true
    }
}

/// What a test with a total finds: the total behind it, which is `None` where its condition fails.
pub(crate) fn found<T>(
    condition: Condition,
    variable: Option<u32>,
    outcome: Result<Option<T>, Refused>,
) -> Result<T, Verdict>
    ensures { result ≡ behind condition variable outcome (λ total. Ok total) }
{
    match outcome {
        Ok(Some(total)) => Ok(total),
        Ok(None) => Err(Verdict::Invalid {
            condition,
            variable,
        }),
        Err(refused) => Err(Verdict::Refused {
            condition,
            variable,
            refused,
        }),
    }
}

/// What a test finds: nothing where its condition holds.
pub(crate) fn judged(
    condition: Condition,
    variable: Option<u32>,
    outcome: Result<bool, Refused>,
) -> Result<(), Verdict>
    ensures { result ≡ tested (plain condition variable outcome ∷ []) tt }
{
    let kept = match outcome {
        Ok(true) => Ok(Some(())),
        Ok(false) => Ok(None),
        Err(refused) => Err(refused),
    };
    found(condition, variable, kept)
}
