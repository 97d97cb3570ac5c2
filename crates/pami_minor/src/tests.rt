//! Picks among two rows that remain, by hand, and operations that don't fit.

ghost use Rattle.std.specs.Prelude.{◌≡◌, All};
ghost use Rattle.pami_devex.specs.Weights.{IsWeight};
ghost use Rattle.pami_minor.specs.declared.row.Remaining.{Remaining as TheRemaining};

use crate::{Remaining, RowPick, pick_row};
use pami_frac::{Bounds, Fault, Frac, Op, Refused};
use pami_vec::{Side, Violation};
use std::test::Fail;

const MAX: i128 = i128::MAX;

/// The fraction, for numbers that make one.
fn frac(numerator: i128, denominator: i128) -> Frac {
    match Frac::new(numerator, denominator) {
        Ok(value) => value,
        Err(_) => Frac::zero(),
    }
}

/// A row of this merit at its choice, whose variable is so far above its upper bound 1. With a weight of 1 its merit now is
/// 6 from 8 on and 8 from 16 on; a weight of 4 takes 2 away.
fn above(place: u32, merit: i32, amount: i64, weight: u64) -> Remaining
    requires { IsWeight weight }
    ensures { result.weight ≡ weight }
{
    Remaining {
        place,
        merit,
        bounds: Bounds {
            low: None,
            high: Some(Frac::one()),
        },
        value: frac(i128::from(amount) + 1, 1),
        weight,
    }
}

/// A row whose variable is so far below its lower bound that it doesn't fit.
fn far_below(place: u32, low: Frac) -> Remaining
    ensures { result.weight ≡ 1 }
{
    Remaining {
        place,
        merit: 0,
        bounds: Bounds {
            low: Some(low),
            high: None,
        },
        value: frac(-MAX, 1),
        weight: 1,
    }
}

fn two(first: Remaining, second: Remaining) -> [Remaining; 2]
    requires first { IsWeight first.weight }
    requires second { IsWeight second.weight }
    ensures { All (λ (row : TheRemaining). IsWeight row.weight) result }
{
    [first, second]
}

/// The row at this place leaves, so far above its bound.
fn leaves(place: u32, amount: i64) -> RowPick {
    RowPick::Row {
        place,
        violation: Violation {
            side: Side::Above,
            amount: Frac::whole(amount),
        },
    }
}

/// The refused operation, if there is one.
fn refusal(outcome: &Result<(Vec<u32>, RowPick), Fault<Refused>>) -> Option<Refused> {
    match outcome {
        Err(Fault::Named(refused)) => Some(*refused),
        _ => None,
    }
}

#[test]
fn rows_that_lost_their_merit_are_dropped(rt: HostRuntime) -> Result<(), Fail> {
    // Both have a merit of 6 now: 2 less than 8, and 3 less than 9.
    let rows = two(above(7, 9, 8, 1), above(4, 8, 8, 1));
    let (dropped, pick) = pick_row(rt.alloc(), &rows, false)?;
    assert!(rt; dropped.as_slice() == [7].as_slice());
    assert_eq!(rt; pick, leaves(4, 8));
    // A weight of 4 makes it 4, which is 2 less than 6; the other one is feasible.
    let rows = two(above(2, -90, 0, 1), above(5, 6, 8, 4));
    let (dropped, pick) = pick_row(rt.alloc(), &rows, false)?;
    assert!(rt; dropped.as_slice() == [2].as_slice());
    assert_eq!(rt; pick, leaves(5, 8));
    // All are dropped, in the order in which they stand.
    let rows = two(above(7, 9, 8, 1), above(4, 7, 8, 4));
    let (dropped, pick) = pick_row(rt.alloc(), &rows, false)?;
    assert!(rt; dropped.as_slice() == [7, 4].as_slice());
    assert_eq!(rt; pick, RowPick::Stop);
    // At the limit none is.
    let (dropped, pick) = pick_row(rt.alloc(), &rows, true)?;
    assert!(rt; dropped.is_empty());
    assert_eq!(rt; pick, RowPick::Stop);
    Ok(())
}

#[test]
fn the_best_of_those_that_stay(rt: HostRuntime) -> Result<(), Fail> {
    // The greater merit now, 8 against 6, whatever it was at the choice.
    let rows = two(above(1, 8, 15, 1), above(2, 4, 16, 1));
    assert_eq!(rt; pick_row(rt.alloc(), &rows, false)?.1, leaves(2, 16));
    // The same merit now: the greater infeasibility.
    let rows = two(above(1, 6, 8, 1), above(2, 6, 9, 1));
    assert_eq!(rt; pick_row(rt.alloc(), &rows, false)?.1, leaves(2, 9));
    // Neither: the smaller place, wherever it stands.
    let rows = two(above(5, 6, 8, 1), above(3, 6, 8, 1));
    assert_eq!(rt; pick_row(rt.alloc(), &rows, false)?.1, leaves(3, 8));
    let rows = two(above(3, 6, 8, 1), above(5, 6, 8, 1));
    assert_eq!(rt; pick_row(rt.alloc(), &rows, false)?.1, leaves(3, 8));
    Ok(())
}

#[test]
fn the_first_operation_that_does_not_fit(rt: HostRuntime) -> Result<(), Fail> {
    let low = frac(2, 1);
    let refused = Refused {
        op: Op::Sub,
        left: low,
        right: frac(-MAX, 1),
    };
    // The first in the order in which they stand, and not by place; at the limit none is tried.
    let rows = two(far_below(5, low), far_below(3, Frac::one()));
    assert_eq!(rt; refusal(&pick_row(rt.alloc(), &rows, false)), Some(refused));
    assert_eq!(rt; pick_row(rt.alloc(), &rows, true)?.1, RowPick::Stop);
    // It comes before a drop and before a row that stays.
    let rows = two(above(7, 9, 8, 1), far_below(5, low));
    assert_eq!(rt; refusal(&pick_row(rt.alloc(), &rows, false)), Some(refused));
    let rows = two(above(4, 8, 8, 1), far_below(5, low));
    assert_eq!(rt; refusal(&pick_row(rt.alloc(), &rows, false)), Some(refused));
    Ok(())
}
