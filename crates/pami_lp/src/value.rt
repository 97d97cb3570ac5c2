//! Numbers and values of tokens, and what they set.

ghost use Rattle.std.specs.Prelude.{◌≡◌};
ghost use Rattle.pami_frac.specs.Answers.{FollowsBy};
ghost use Rattle.pami_model.specs.Draft.{is_crossed};
ghost use Rattle.pami_lp.specs.Rules as rules;
ghost use Rattle.pami_lp.specs.Values as values;

use pami_frac::{BoundValue, Bounds, Fault, Frac};
use pami_lp_text::Relation;
use pami_model::{FileKind, read_limit, read_number};
use std::cmp::Ordering;

/// The number that a token spells.
pub(crate) fn number(text: &[u8]) -> Result<Frac, Fault<FileKind>>
    ensures { FollowsBy (λ v. v) (values.number_of text.now) result }
{
    read_number(text)
}

/// The number with its signs.
pub(crate) fn signed(negative: bool, value: Frac) -> Frac
    ensures { result ≡ values.signed negative value }
{
    if negative {
        return value.negate();
    }
    value
}

/// The coefficient of a term, by its signs and its number.
pub(crate) fn coefficient_of(negative: bool, coefficient: Option<Frac>) -> Frac
    ensures { result ≡ values.coefficient_of negative coefficient }
{
    match coefficient {
        Some(size) => signed(negative, size),
        None => signed(negative, Frac::one()),
    }
}

/// The sum of two numbers. `Wide` where it doesn't fit.
pub(crate) fn sum_of(left: Frac, right: Frac) -> Result<Frac, FileKind>
    ensures { result ≡ values.sum_of left right }
{
    match left.add(right) {
        Ok(total) => Ok(total),
        Err(_) => Err(FileKind::Wide),
    }
}

/// The value with its signs.
fn signed_value(negative: bool, value: BoundValue) -> BoundValue
    ensures { result ≡ values.signed_value negative value }
{
    match value {
        BoundValue::Finite(value) => BoundValue::Finite(signed(negative, value)),
        BoundValue::Plus => {
            if negative {
                return BoundValue::Minus;
            }
            BoundValue::Plus
        }
        BoundValue::Minus => {
            if negative {
                return BoundValue::Plus;
            }
            BoundValue::Minus
        }
    }
}

/// The value that a token spells behind its signs: a number, or a word for infinity.
pub(crate) fn value_of(text: &[u8], negative: bool) -> Result<BoundValue, Fault<FileKind>>
    ensures { FollowsBy (λ v. v) (values.value_of text.now negative) result }
{
    let value = read_limit(text)?;
    Ok(signed_value(negative, value))
}

/// The relation as seen from its other side.
pub(crate) fn turned(relation: Relation) -> Relation
    ensures { result ≡ values.turned relation }
{
    match relation {
        Relation::AtMost => Relation::AtLeast,
        Relation::AtLeast => Relation::AtMost,
        Relation::Equal => Relation::Equal,
    }
}

/// What a value sets to the right of a relation, if it is finite. `Infinite` where an infinite one may not stand.
fn side_of(relation: Relation, value: BoundValue) -> Result<Option<Frac>, FileKind>
    ensures { result ≡ values.side_of relation value }
{
    match value {
        BoundValue::Finite(value) => Ok(Some(value)),
        BoundValue::Plus => match relation {
            Relation::AtMost => Ok(None),
            Relation::AtLeast => Err(FileKind::Infinite),
            Relation::Equal => Err(FileKind::Infinite),
        },
        BoundValue::Minus => match relation {
            Relation::AtMost => Err(FileKind::Infinite),
            Relation::AtLeast => Ok(None),
            Relation::Equal => Err(FileKind::Infinite),
        },
    }
}

/// Bounds with what a relation and the value on its right set.
fn with_right(sides: Bounds, relation: Relation, value: Option<Frac>) -> Bounds
    ensures { result ≡ values.with_right sides relation value }
{
    match relation {
        Relation::AtMost => Bounds {
            low: sides.low,
            high: value,
        },
        Relation::AtLeast => Bounds {
            low: value,
            high: sides.high,
        },
        Relation::Equal => {
            let high = value;
            Bounds { low: value, high }
        }
    }
}

/// The sides behind a value to the right of a relation.
pub(crate) fn read_side(
    text: &[u8],
    negative: bool,
    relation: Relation,
    sides: Bounds,
) -> Result<Bounds, Fault<FileKind>>
    ensures { FollowsBy (λ b. b) (values.read_side text.now negative relation sides) result }
{
    let value = value_of(text, negative)?;
    match side_of(relation, value) {
        Ok(side) => Ok(with_right(sides, relation, side)),
        Err(kind) => Err(Fault::Named(kind)),
    }
}

/// No side.
pub(crate) fn unbounded() -> Bounds
    ensures { result ≡ values.unbounded }
{
    Bounds {
        low: None,
        high: None,
    }
}

/// Whether the lower side is greater than the upper one.
pub(crate) fn are_crossed(bounds: &Bounds) -> bool
    ensures { result ≡ is_crossed bounds.now }
{
    match (bounds.low, bounds.high) {
        (Some(low), Some(high)) => high.compare(&low) == Ordering::Less,
        _ => false,
    }
}

fn is_below_zero(value: &Option<Frac>) -> bool
    ensures { result ≡ rules.is_negative value.now }
{
    match value {
        Some(value) => value.compare(&Frac::zero()) == Ordering::Less,
        None => false,
    }
}

fn with_high(stated: bool, old: Bounds, high: Option<Frac>) -> Bounds
    ensures { result ≡ rules.with_high stated old high }
{
    if is_below_zero(&high) && !stated {
        return Bounds { low: None, high };
    }
    Bounds { low: old.low, high }
}

/// A column's bounds behind what a relation sets of it; `stated` says whether it has a lower bound of its own.
pub(crate) fn bounds_set(relation: Relation, stated: bool, old: Bounds, sides: Bounds) -> Bounds
    ensures { result ≡ rules.bounds_set relation stated old sides }
{
    match relation {
        Relation::AtMost => with_high(stated, old, sides.high),
        Relation::AtLeast => Bounds {
            low: sides.low,
            high: old.high,
        },
        Relation::Equal => sides,
    }
}
