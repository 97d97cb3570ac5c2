//! The bounds of rows and columns by what the lines tell of them.

ghost use Rattle.std.specs.Prelude.{◌≡◌, IfOk};
ghost use Rattle.pami_algebra.specs.Operations.{◌+ᶠ◌};
ghost use Rattle.pami_frac.specs.Answers.{Follows};
ghost use Rattle.pami_frac.specs.Arithmetic.{add_outcome};
ghost use Rattle.pami_mps.specs.Judge.{judge_sum, judge_side, judge_width, is_bad_limit as bad_limit, is_bad_right as bad_right};
ghost use Rattle.pami_mps.specs.Limits.{effect as the_effect, has_value as value_wanted, low_under as the_low};
ghost use Rattle.pami_mps.specs.Rows.{bound_by, bounds_with, goes_down as the_direction, is_below_zero as below_zero, magnitude as the_magnitude, other_side as the_side, plain_bounds as the_bounds, ranged_bounds, reach as the_reach};

use crate::kind::{LimitKind, RowKind, Sides};
use pami_frac::{BoundValue, Bounds, Fault, Frac};
use pami_model::FileKind;

/// A bound of this value; there is none where the value is infinite.
fn bound_of(value: &BoundValue) -> Option<Frac>
    ensures { result ≡ bound_by value.now }
{
    match value {
        BoundValue::Finite(value) => Some(*value),
        BoundValue::Plus => None,
        BoundValue::Minus => None,
    }
}

/// The bounds of a row by its type and its right-hand side; `None` is an infinite one.
pub(crate) fn plain_bounds(kind: RowKind, right: Option<Frac>) -> Bounds
    ensures { result ≡ the_bounds kind right }
{
    match kind {
        RowKind::Free => Bounds {
            low: None,
            high: None,
        },
        RowKind::AtMost => Bounds {
            low: None,
            high: right,
        },
        RowKind::AtLeast => Bounds {
            low: right,
            high: None,
        },
        RowKind::Equal => {
            let high = right;
            Bounds { low: right, high }
        }
    }
}

/// The bounds of a row by its type and a right-hand side as it is read.
pub(crate) fn right_bounds(kind: RowKind, right: &BoundValue) -> Bounds
    ensures { result ≡ the_bounds kind (bound_by right.now) }
{
    plain_bounds(kind, bound_of(right))
}

/// Whether a right-hand side is infinite on a side on which its row needs a bound.
pub(crate) fn is_bad_right(kind: RowKind, right: &BoundValue) -> bool
    ensures { result ≡ bad_right kind right.now }
{
    match (kind, right) {
        (_, BoundValue::Finite(_)) => false,
        (RowKind::AtMost, BoundValue::Plus) => false,
        (RowKind::AtLeast, BoundValue::Minus) => false,
        _ => true,
    }
}

/// The absolute value.
fn magnitude(value: Frac) -> Frac
    ensures { result ≡ the_magnitude value }
{
    if value.is_negative() {
        value.negate()
    } else {
        value
    }
}

/// How far the side that a range computes is from the right-hand side.
fn reach(kind: RowKind, range: Frac) -> Frac
    ensures { result ≡ the_reach kind range }
{
    match kind {
        RowKind::Free => Frac::zero(),
        RowKind::AtMost => magnitude(range).negate(),
        RowKind::AtLeast => magnitude(range),
        RowKind::Equal => range,
    }
}

/// A sum. `Wide` where it doesn't fit.
fn sum(left: Frac, right: Frac) -> Result<Frac, Fault<FileKind>>
    ensures judged { Follows (judge_sum (add_outcome left right)) result }
    ensures value { IfOk result (λ v. v ≡ left +ᶠ right) }
{
    match left.add(right) {
        Ok(value) => Ok(value),
        Err(_) => Err(Fault::Named(FileKind::Wide)),
    }
}

/// The side that a range computes; `None` is an infinite one. `Wide` where it doesn't fit.
fn other_side(
    kind: RowKind,
    right: Frac,
    range: &BoundValue,
) -> Result<Option<Frac>, Fault<FileKind>>
    ensures judged { Follows (judge_width kind right range.now) result }
    ensures value { IfOk result (λ side. side ≡ the_side kind right range.now) }
{
    match range {
        BoundValue::Finite(range) => {
            let side = sum(right, reach(kind, *range))?;
            Ok(Some(side))
        }
        BoundValue::Plus => Ok(None),
        BoundValue::Minus => Ok(None),
    }
}

/// Whether a value is below 0.
fn is_below_zero(value: &BoundValue) -> bool
    ensures { result ≡ below_zero value.now }
{
    match value {
        BoundValue::Finite(value) => value.is_negative(),
        BoundValue::Plus => false,
        BoundValue::Minus => true,
    }
}

/// Whether the side that a range computes is the lower one.
fn goes_down(kind: RowKind, range: &BoundValue) -> bool
    ensures { result ≡ the_direction kind range.now }
{
    match kind {
        RowKind::Free => false,
        RowKind::AtMost => true,
        RowKind::AtLeast => false,
        RowKind::Equal => is_below_zero(range),
    }
}

/// The bounds of a row by its type, its right-hand side and a range. `Wide` where the side that the range computes
/// doesn't fit.
fn with_finite(kind: RowKind, right: Frac, range: &BoundValue) -> Result<Bounds, Fault<FileKind>>
    ensures judged { Follows (judge_width kind right range.now) result }
    ensures bounds { IfOk result (λ b. b ≡ ranged_bounds kind right range.now) }
{
    let other = other_side(kind, right, range)?;
    if goes_down(kind, range) {
        return Ok(Bounds {
            low: other,
            high: Some(right),
        });
    }
    Ok(Bounds {
        low: Some(right),
        high: other,
    })
}

/// The bounds of a row by its type, its right-hand side and a range. `Infinite` where the right-hand side is, `Wide`
/// where the side that the range computes doesn't fit.
pub(crate) fn with_range(
    kind: RowKind,
    right: &BoundValue,
    range: &BoundValue,
) -> Result<Bounds, Fault<FileKind>>
    ensures judged { Follows (judge_side kind right.now range.now) result }
    ensures bounds { IfOk result (λ b. b ≡ bounds_with kind right.now (Some range.now)) }
{
    match right {
        BoundValue::Finite(right) => with_finite(kind, *right, range),
        BoundValue::Plus => Err(Fault::Named(FileKind::Infinite)),
        BoundValue::Minus => Err(Fault::Named(FileKind::Infinite)),
    }
}

/// Whether a line of this type has a value.
pub(crate) fn has_value(kind: LimitKind) -> bool
    ensures { result ≡ value_wanted kind }
{
    match kind {
        LimitKind::Upper => true,
        LimitKind::Lower => true,
        LimitKind::Fixed => true,
        LimitKind::Unbounded => false,
        LimitKind::NoLower => false,
        LimitKind::NoUpper => false,
    }
}

/// Whether a bound is infinite on the wrong side.
pub(crate) fn is_bad_limit(kind: LimitKind, value: &BoundValue) -> bool
    ensures { result ≡ bad_limit kind value.now }
{
    match (kind, value) {
        (_, BoundValue::Finite(_)) => false,
        (LimitKind::Upper, BoundValue::Plus) => false,
        (LimitKind::Lower, BoundValue::Minus) => false,
        _ => true,
    }
}

/// The lower bound under a new upper one: one below 0 takes a lower bound away that no line has stated.
fn low_under(value: &BoundValue, sides: &Sides) -> Option<Frac>
    ensures { result ≡ the_low value.now sides.now }
{
    if is_below_zero(value) && !sides.stated {
        return None;
    }
    sides.bounds.low
}

/// The bounds of a column behind one more line of BOUNDS.
pub(crate) fn effect(kind: LimitKind, value: &BoundValue, sides: &Sides) -> Sides
    ensures { result ≡ the_effect kind value.now sides.now }
{
    match kind {
        LimitKind::Upper => Sides {
            bounds: Bounds {
                low: low_under(value, sides),
                high: bound_of(value),
            },
            stated: sides.stated,
        },
        LimitKind::Lower => Sides {
            bounds: Bounds {
                low: bound_of(value),
                high: sides.bounds.high,
            },
            stated: true,
        },
        LimitKind::Fixed => Sides {
            bounds: Bounds {
                low: bound_of(value),
                high: bound_of(value),
            },
            stated: true,
        },
        LimitKind::Unbounded => Sides {
            bounds: Bounds {
                low: None,
                high: None,
            },
            stated: true,
        },
        LimitKind::NoLower => Sides {
            bounds: Bounds {
                low: None,
                high: sides.bounds.high,
            },
            stated: true,
        },
        LimitKind::NoUpper => Sides {
            bounds: Bounds {
                low: sides.bounds.low,
                high: None,
            },
            stated: sides.stated,
        },
    }
}
