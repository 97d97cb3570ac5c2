//! Small rows: what enters, what is flipped before, ties, fixed and free variables, and first refusals.

ghost use Rattle.std.specs.Prelude.{◌≡◌};
ghost use Rattle.pami_script.specs.Dense.{Rising};

use crate::{Side, Violation, Walk, ratio_walk};
use pami_frac::{Bounds, Entry, Fault, Frac, Op, Refused};
use pami_vec::Stand;
use std::alloc::Global;

const MAX: i128 = i128::MAX;

/// The fraction, for numbers that make one.
fn frac(numerator: i128, denominator: i128) -> Frac {
    match Frac::new(numerator, denominator) {
        Ok(value) => value,
        Err(_) => Frac::zero(),
    }
}

/// A nonbasic variable: where it stands, its upper bound, its width, its reduced cost and its entry in the pivot row.
#[derive(Clone, Copy)]
struct Column {
    stand: Stand,
    high: Option<Frac>,
    width: Option<Frac>,
    reduced: Frac,
    alpha: Frac,
}

/// One at its lower bound 0, with no upper one.
fn open(reduced: i128, alpha: i128) -> Column {
    Column {
        stand: Stand::Lower,
        high: None,
        width: None,
        reduced: frac(reduced, 1),
        alpha: frac(alpha, 1),
    }
}

/// One at its lower bound 0, boxed with this width.
fn boxed(reduced: i128, alpha: i128, width: i128) -> Column {
    Column {
        stand: Stand::Lower,
        high: Some(frac(width, 1)),
        width: Some(frac(width, 1)),
        reduced: frac(reduced, 1),
        alpha: frac(alpha, 1),
    }
}

/// Entries at the first two of three variables.
fn two(first: Frac, second: Frac) -> [Entry; 2]
    ensures { Rising 0 3 result }
{
    [
        Entry {
            place: 0,
            value: first,
        },
        Entry {
            place: 1,
            value: second,
        },
    ]
}

/// The bounds of a variable with the lower bound 0.
fn bounds(high: Option<Frac>) -> Bounds {
    Bounds {
        low: Some(Frac::zero()),
        high,
    }
}

/// The walk over two variables beside a basic one.
fn walk(
    alloc: Global,
    first: Column,
    second: Column,
    side: Side,
    amount: Frac,
) -> Result<Walk, Fault<Refused>> {
    ratio_walk(
        alloc,
        &[first.stand, second.stand, Stand::Basic],
        &[bounds(first.high), bounds(second.high), bounds(None)],
        &[first.width, second.width, None],
        &[first.reduced, second.reduced, Frac::zero()],
        &two(first.alpha, second.alpha),
        &Violation { side, amount },
    )
}

/// Enters this variable, with this ratio, behind these flips?
fn enters(answer: &Result<Walk, Fault<Refused>>, entering: u32, ratio: Frac, list: &[u32]) -> bool {
    match answer {
        Ok(
            Walk::Entering {
                variable,
                tau,
                flips,
            },
        ) => *variable == entering && *tau == ratio && flips.as_slice() == list,
        _ => false,
    }
}

/// Enters none?
fn none(answer: &Result<Walk, Fault<Refused>>) -> bool {
    match answer {
        Ok(Walk::NoEntering) => true,
        _ => false,
    }
}

/// The refused operation, if there is one.
fn refusal(answer: &Result<Walk, Fault<Refused>>) -> Option<Refused> {
    match answer {
        Err(Fault::Named(refused)) => Some(*refused),
        _ => None,
    }
}

#[test]
fn the_first_that_is_not_passed_enters(rt: HostRuntime) {
    let ten = frac(10, 1);
    let answer = walk(rt.alloc(), open(3, -1), boxed(2, -1, 6), Side::Below, ten);
    assert!(rt; enters(&answer, 0, frac(3, 1), &[1]));
    let answer = walk(rt.alloc(), open(3, -1), boxed(2, -1, 10), Side::Below, ten);
    assert!(rt; enters(&answer, 1, frac(2, 1), &[]));
    let answer = walk(rt.alloc(), open(3, 1), boxed(2, 1, 9), Side::Above, ten);
    assert!(rt; enters(&answer, 0, frac(3, 1), &[1]));
    let answer = walk(rt.alloc(), boxed(1, 2, 2), boxed(1, 1, 5), Side::Above, ten);
    assert!(rt; none(&answer));
    let answer = walk(rt.alloc(), boxed(1, 2, 2), boxed(1, 1, 6), Side::Above, ten);
    assert!(rt; enters(&answer, 1, frac(1, 1), &[0]));
}

#[test]
fn ties_go_to_the_greater_entry_and_then_to_the_smaller_variable(rt: HostRuntime) {
    let one = frac(1, 1);
    let answer = walk(rt.alloc(), open(1, 1), open(2, 2), Side::Above, one);
    assert!(rt; enters(&answer, 1, one, &[]));
    let answer = walk(rt.alloc(), open(1, -1), open(1, -1), Side::Below, one);
    assert!(rt; enters(&answer, 0, one, &[]));
    let answer = walk(rt.alloc(), open(5, 2), open(7, 3), Side::Above, one);
    assert!(rt; enters(&answer, 1, frac(7, 3), &[]));
}

/// One with the bounds 0 and 0.
fn fixed() -> Column {
    Column {
        stand: Stand::Lower,
        high: Some(Frac::zero()),
        width: None,
        reduced: frac(-1, 1),
        alpha: frac(1, 1),
    }
}

/// One at its upper bound.
fn upper(reduced: i128, alpha: i128) -> Column {
    Column {
        stand: Stand::Upper,
        high: Some(frac(1, 1)),
        width: Some(frac(1, 1)),
        reduced: frac(reduced, 1),
        alpha: frac(alpha, 1),
    }
}

#[test]
fn stands_decide_what_may_enter(rt: HostRuntime) {
    let one = frac(1, 1);
    let answer = walk(rt.alloc(), fixed(), open(4, 2), Side::Above, one);
    assert!(rt; enters(&answer, 1, frac(2, 1), &[]));
    let answer = walk(rt.alloc(), open(0, -1), upper(-4, 2), Side::Above, one);
    assert!(rt; none(&answer));
    let answer = walk(rt.alloc(), open(0, -1), upper(-4, -2), Side::Above, one);
    assert!(rt; enters(&answer, 1, frac(2, 1), &[]));
    let answer = walk(rt.alloc(), open(0, 1), upper(-4, 2), Side::Below, one);
    assert!(rt; enters(&answer, 1, frac(2, 1), &[]));
}

/// One whose ratio doesn't fit.
fn wide() -> Column {
    Column {
        stand: Stand::Lower,
        high: None,
        width: None,
        reduced: frac(MAX, 1),
        alpha: frac(1, 2),
    }
}

/// The refusal of this operation.
fn refused(op: Op, left: Frac, right: Frac) -> Option<Refused> {
    Some(Refused { op, left, right })
}

#[test]
fn ratios_are_refused_before_slopes(rt: HostRuntime) {
    let one = frac(1, 1);
    let answer = walk(rt.alloc(), boxed(0, MAX, 2), wide(), Side::Above, one);
    assert_eq!(rt;
        refusal(&answer),
        refused(Op::Div, frac(MAX, 1), frac(1, 2))
    );
    let answer = walk(rt.alloc(), boxed(0, MAX, 2), open(1, 1), Side::Above, one);
    assert_eq!(rt;
        refusal(&answer),
        refused(Op::Mul, frac(MAX, 1), frac(2, 1))
    );
    let answer = walk(rt.alloc(), boxed(5, MAX, 2), open(0, 1), Side::Above, one);
    assert!(rt; enters(&answer, 1, frac(0, 1), &[]));
    let answer = walk(
        rt.alloc(),
        boxed(0, MAX, 1),
        open(1, 1),
        Side::Above,
        frac(1, 2),
    );
    assert_eq!(rt;
        refusal(&answer),
        refused(Op::Sub, frac(1, 2), frac(MAX, 1))
    );
}

/// An entry of value 1.
fn one_at(place: u32) -> Entry
    ensures { result.place ≡ place }
{
    Entry {
        place,
        value: frac(1, 1),
    }
}

/// Entries at the first ten of eleven variables.
fn ten_entries() -> [Entry; 10]
    ensures { Rising 0 11 result }
{
    [
        one_at(0),
        one_at(1),
        one_at(2),
        one_at(3),
        one_at(4),
        one_at(5),
        one_at(6),
        one_at(7),
        one_at(8),
        one_at(9),
    ]
}

#[test]
fn a_long_walk_flips_in_order(rt: HostRuntime) {
    let one = frac(1, 1);
    let unit = Bounds {
        low: Some(Frac::zero()),
        high: Some(one),
    };
    let costs = [
        frac(3, 1),
        frac(1, 1),
        frac(10, 1),
        frac(4, 1),
        frac(2, 1),
        frac(9, 1),
        frac(5, 1),
        frac(8, 1),
        frac(7, 1),
        frac(6, 1),
        frac(0, 1),
    ];
    let answer = ratio_walk(
        rt.alloc(),
        &[Stand::Lower; 11],
        &[unit; 11],
        &[Some(one); 11],
        &costs,
        &ten_entries(),
        &Violation {
            side: Side::Above,
            amount: frac(19, 2),
        },
    );
    assert!(rt; enters(&answer, 2, frac(10, 1), &[1, 4, 0, 3, 6, 9, 8, 7, 5]));
}
