//! Violations and choices of small tables.

ghost use Rattle.pami_devex.specs.Weights.{AreWeights};

use crate::{ChosenRow, Side, Violation, choose, violation};
use pami_frac::{Bounds, Fault, Frac, Op, Refused};
use std::test::Fail;

const MAX: i128 = i128::MAX;

/// The fraction, for numbers that make one.
fn frac(numerator: i128, denominator: i128) -> Frac {
    match Frac::new(numerator, denominator) {
        Ok(value) => value,
        Err(_) => Frac::zero(),
    }
}

/// No lower bound but this one.
fn at_least(low: Frac) -> Bounds {
    Bounds {
        low: Some(low),
        high: None,
    }
}

/// No upper bound but this one.
fn at_most(high: Frac) -> Bounds {
    Bounds {
        low: None,
        high: Some(high),
    }
}

/// Four weights, the second one 64 or 1.
fn weights(heavy: bool) -> [u64; 4]
    ensures { AreWeights result }
{
    if heavy { [1, 64, 1, 1] } else { [1, 1, 1, 1] }
}

fn row(place: u32, side: Side, merit: i32) -> ChosenRow {
    ChosenRow { place, side, merit }
}

/// The refused operation, if there is one.
fn refusal(outcome: &Result<Vec<ChosenRow>, Fault<Refused>>) -> Option<Refused> {
    match outcome {
        Err(Fault::Named(refused)) => Some(*refused),
        _ => None,
    }
}

#[test]
fn violations(rt: HostRuntime) {
    let one = frac(1, 1);
    let fixed = Bounds {
        low: Some(one),
        high: Some(one),
    };
    let above = Violation {
        side: Side::Above,
        amount: frac(1, 2),
    };
    let below = Violation {
        side: Side::Below,
        amount: frac(1, 3),
    };
    let refused = Refused {
        op: Op::Sub,
        left: one,
        right: frac(-MAX, 1),
    };
    assert_eq!(rt; violation(&one, &fixed), Ok(None));
    assert_eq!(rt; violation(&frac(3, 2), &fixed), Ok(Some(above)));
    assert_eq!(rt; violation(&frac(2, 3), &fixed), Ok(Some(below)));
    assert_eq!(rt; violation(&frac(-MAX, 1), &fixed), Err(refused));
    assert_eq!(rt; violation(&frac(-MAX, 1), &at_most(one)), Ok(None));
}

#[test]
fn rows_in_the_order_of_choice(rt: HostRuntime) -> Result<(), Fail> {
    let zero = Frac::zero();
    let one = frac(1, 1);
    let values = [zero, frac(9, 1), frac(-5, 1), frac(9, 1)];
    let bounds = [at_least(zero), at_most(one), at_least(zero), at_most(one)];
    let first = row(1, Side::Above, 6);
    let second = row(3, Side::Above, 6);
    let third = row(2, Side::Below, 4);
    let all = choose(rt.alloc(), &values, &bounds, &weights(false), 8)?;
    assert!(rt; all.as_slice() == [first, second, third].as_slice());
    let two = choose(rt.alloc(), &values, &bounds, &weights(false), 2)?;
    assert!(rt; two.as_slice() == [first, second].as_slice());
    let best = choose(rt.alloc(), &values, &bounds, &weights(true), 1)?;
    assert!(rt; best.as_slice() == [second].as_slice());
    let light = row(1, Side::Above, 0);
    let heavy = choose(rt.alloc(), &values, &bounds, &weights(true), 3)?;
    assert!(rt; heavy.as_slice() == [second, third, light].as_slice());
    Ok(())
}

#[test]
fn the_least_place_that_is_refused(rt: HostRuntime) {
    let one = frac(1, 1);
    let two = frac(2, 1);
    let low = frac(-MAX, 1);
    let values = [frac(9, 1), low, frac(9, 1), low];
    let bounds = [at_most(one), at_least(two), at_most(one), at_least(one)];
    let refused = Refused {
        op: Op::Sub,
        left: two,
        right: low,
    };
    let outcome = choose(rt.alloc(), &values, &bounds, &weights(false), 2);
    assert_eq!(rt; refusal(&outcome), Some(refused));
}
