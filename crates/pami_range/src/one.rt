//! One variable, or one place: how far it lets a number move.

ghost use Rattle.std.specs.Prelude.{◌≡◌, Some, true, false};
ghost use Rattle.pami_algebra.specs.Fraction.{Fraction};
ghost use Rattle.pami_frac.specs.Signs.{is_zero};
ghost use Rattle.pami_algebra.specs.Operations.{is_below as the_is_below};
ghost use Rattle.pami_theory.specs.Violation.{is_fixed};
ghost use Rattle.pami_theory.specs.Form.{zero_f};
ghost use Rattle.pami_theory.specs.Ratio.{may_enter};
ghost use Rattle.pami_ranging.specs.Intervals.{greater_low, lesser_high, bounds_from};
ghost use Rattle.pami_range.specs.Scripts.{tighter, moved_script, change_script, when_script, met_bound, meet_script, own_difference, end_of};
ghost use Rattle.pami_range.specs.Lists.{cost_step, bound_step, own_span};
ghost use Rattle.pami_range.specs.declared.span.End.TheVariants.{At};

use crate::span::{End, Span};
use pami_frac::{Bounds, Frac, Refused};
use pami_vec::{Side, Stand};
use std::cmp::Ordering;

/// Is the first below the second?
fn is_below(left: Frac, right: Frac) -> bool
    ensures { result ≡ the_is_below left right }
{
    match left.compare(&right) {
        Ordering::Less => true,
        _ => false,
    }
}

/// Are both bounds finite and equal?
pub(crate) fn is_fixed(bounds: &Bounds) -> bool
    ensures { result ≡ is_fixed bounds.now }
{
    match (bounds.low, bounds.high) {
        (Some(low), Some(high)) => low == high,
        _ => false,
    }
}

/// May a variable that stands so move in the direction of `a`?
fn may_enter(stand: Stand, a: Frac) -> bool
    ensures { result ≡ may_enter stand a }
{
    match stand {
        Stand::Basic => false,
        Stand::Lower => is_below(Frac::zero(), a),
        Stand::Upper => is_below(a, Frac::zero()),
        Stand::Zero => !a.is_zero(),
    }
}

/// Does the variable bound the change from this side?
fn bounds_from(side: Side, bounds: &Bounds, stand: Stand, a: Frac) -> bool
    ensures value { result ≡ bounds_from side (is_fixed bounds.now) stand a }
    ensures nonzero { result ≡ true → is_zero a ≡ false }
{
    !is_fixed(bounds) && may_enter(stand, side.toward(a))
}

/// The greater of two low ends.
fn greater_low(so_far: Option<Frac>, next: Option<Frac>) -> Option<Frac>
    ensures { result ≡ greater_low so_far next }
{
    match (so_far, next) {
        (None, next) => next,
        (Some(p), None) => Some(p),
        (Some(p), Some(q)) => { if is_below(p, q) { Some(q) } else { Some(p) } }
    }
}

/// The lesser of two high ends.
fn lesser_high(so_far: Option<Frac>, next: Option<Frac>) -> Option<Frac>
    ensures { result ≡ lesser_high so_far next }
{
    match (so_far, next) {
        (None, next) => next,
        (Some(p), None) => Some(p),
        (Some(p), Some(q)) => { if is_below(q, p) { Some(q) } else { Some(p) } }
    }
}

/// The tighter of two bounds from one side.
fn tighter(side: Side, so_far: Option<Frac>, next: Option<Frac>) -> Option<Frac>
    ensures { result ≡ tighter side so_far next }
{
    match side {
        Side::Above => lesser_high(so_far, next),
        Side::Below => greater_low(so_far, next),
    }
}

/// How far a cost may change before this reduced cost would be 0.
fn change(stand: Stand, reduced: Frac, a: Frac) -> Result<Frac, Refused>
    requires { is_zero a ≡ false }
    ensures { result ≡ change_script stand reduced a }
{
    match stand {
        Stand::Zero => Ok(Frac::zero()),
        _ => reduced.div(a),
    }
}

/// The bound of a cost's change from this side after one more variable, with this entry of the row.
pub(crate) fn cost_step(
    side: Side,
    bounds: &Bounds,
    stand: Stand,
    reduced: Frac,
    a: Frac,
    so_far: Option<Frac>,
) -> Result<Option<Frac>, Refused>
    ensures { result ≡ cost_step side bounds.now stand reduced a so_far }
{
    if !bounds_from(side, bounds, stand, a) {
        return Ok(tighter(side, so_far, None));
    }
    match change(stand, reduced, a) {
        Ok(quotient) => Ok(tighter(side, so_far, Some(quotient))),
        Err(refused) => Err(refused),
    }
}

/// The bound that a value meets, where the other one's bound moves to this side.
fn met_bound(side: Side, bounds: &Bounds, a: Frac) -> Option<Frac>
    ensures value { result ≡ met_bound side bounds.now a }
    ensures nonzero { (w : Fraction) → result ≡ Some w → is_zero a ≡ false }
{
    let turned = side.toward(a);
    if is_below(Frac::zero(), turned) {
        bounds.low
    } else if is_below(turned, Frac::zero()) {
        bounds.high
    } else {
        None
    }
}

/// How far the other one's bound may change before this value meets its own.
fn meet(value: Frac, a: Frac, bound: Frac) -> Result<Option<Frac>, Refused>
    requires { is_zero a ≡ false }
    ensures { result ≡ meet_script value a (Some bound) }
{
    match value.sub(bound) {
        Ok(distance) => match distance.div(a) {
            Ok(quotient) => Ok(Some(quotient)),
            Err(refused) => Err(refused),
        },
        Err(refused) => Err(refused),
    }
}

/// The bound of a bound's change from this side after one more place, with this member of the column.
pub(crate) fn bound_step(
    side: Side,
    bounds: &Bounds,
    value: Frac,
    a: Frac,
    so_far: Option<Frac>,
) -> Result<Option<Frac>, Refused>
    ensures { result ≡ bound_step side bounds.now value a so_far }
{
    let next = match met_bound(side, bounds, a) {
        Some(bound) => meet(value, a, bound),
        None => Ok(None),
    };
    match next {
        Ok(next) => Ok(tighter(side, so_far, next)),
        Err(refused) => Err(refused),
    }
}

/// The end that a change leads to.
pub(crate) fn end(own: Frac, change: Option<Frac>) -> End
    ensures { result ≡ end_of (moved_script own change) }
{
    match change {
        Some(change) => match own.add(change) {
            Ok(value) => End::At(value),
            Err(refused) => End::Wide(refused),
        },
        None => End::Infinite,
    }
}

/// The end at a column's own cost less its reduced cost.
fn difference(cost: Frac, reduced: Frac) -> End
    ensures { result ≡ end_of (own_difference cost reduced) }
{
    match cost.sub(reduced) {
        Ok(value) => End::At(value),
        Err(refused) => End::Wide(refused),
    }
}

/// The end at this value.
fn at(value: &Frac) -> End
    ensures { result ≡ At value.now }
{
    End::At(*value)
}

/// The span of the cost of a nonbasic column.
pub(crate) fn own_span(bounds: &Bounds, stand: Stand, cost: Frac, reduced: Frac) -> Span
    ensures { result ≡ own_span (is_fixed bounds.now) stand cost reduced }
{
    if is_fixed(bounds) {
        return Span {
            low: End::Infinite,
            high: End::Infinite,
        };
    }
    match stand {
        Stand::Basic => Span {
            low: End::Infinite,
            high: End::Infinite,
        },
        Stand::Lower => Span {
            low: difference(cost, reduced),
            high: End::Infinite,
        },
        Stand::Upper => Span {
            low: End::Infinite,
            high: difference(cost, reduced),
        },
        Stand::Zero => Span {
            low: at(&cost),
            high: at(&cost),
        },
    }
}
