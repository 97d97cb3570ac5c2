//! The collective update of one and two pivots over two places, by hand, and operations that don't fit.

ghost use Rattle.std.specs.Prelude.{◌≡◌, ◌<◌, length, All, true};
ghost use Rattle.pami_devex.specs.Weights.{IsWeight};
ghost use Rattle.pami_vec.specs.Pivots.{ArePivots};

use crate::{collect, collect_values, flip_total, transform};
use pami_frac::{Fault, Frac, FracList, Op, OutOfMemory, Refused};
use pami_state::{BatchEnd, State};
use pami_vec::{Pivot, PlaceList, SpVec, Stand, StandList, Step, WeightList};
use std::alloc::Global;
use std::test::Fail;

/// The fraction, for numbers that make one.
fn frac(numerator: i128, denominator: i128) -> Frac {
    match Frac::new(numerator, denominator) {
        Ok(value) => value,
        Err(_) => Frac::zero(),
    }
}

/// Two whole members.
fn pair(alloc: Global, first: i128, second: i128) -> Result<SpVec, OutOfMemory> {
    let mut members = Vec::new(alloc);
    members.push(frac(first, 1))?;
    members.push(frac(second, 1))?;
    if members.len() < 3 {
        return SpVec::from_dense(alloc, &members);
    }
    Err(OutOfMemory)
}

/// A step at a place, with these flips by row.
fn step(place: u32, old_value: i128, bound: i128, flip_column: SpVec) -> Step {
    Step {
        place,
        leaving: 0,
        entering: 0,
        tau: Frac::zero(),
        theta: Frac::zero(),
        bound: frac(bound, 1),
        old_value: frac(old_value, 1),
        flip_column,
    }
}

/// Is each a pivot of so many places?
fn are_pivots(pivots: &[Pivot], rows: u32) -> bool
    ensures { result ≡ true → ArePivots rows pivots.now }
{
    for pivot in pivots {
        if pivot.place >= rows || pivot.column.len() != rows {
            return false;
        }
        if pivot.column.at(pivot.place).is_zero() {
            return false;
        }
    }
    true
}

/// Is each step at one of so many places, with flips in as many rows?
fn are_steps(steps: &[Step], rows: u32) -> bool
    ensures places { result ≡ true → All (λ s. s.place < rows) steps.now }
    ensures flips { result ≡ true → All (λ s. length s.flip_column ≡ rows) steps.now }
{
    for step in steps {
        if step.place >= rows || step.flip_column.len() != rows {
            return false;
        }
    }
    true
}

/// Has each column so many members?
fn are_columns(columns: &[SpVec], rows: u32) -> bool
    ensures { result ≡ true → All (λ c. length c ≡ rows) columns.now }
{
    for column in columns {
        if column.len() != rows {
            return false;
        }
    }
    true
}

/// Is it a weight?
fn is_weight(weight: u64) -> bool
    ensures { result ≡ true → IsWeight weight }
{
    if weight < 1 {
        return false;
    }
    weight <= 1 << 40
}

/// Is each a weight?
fn are_weights(weights: &[u64]) -> bool
    ensures { result ≡ true → All IsWeight weights.now }
{
    for k in 0..weights.len() {
        let weight = weights[k];
        if !is_weight(weight) {
            return false;
        }
    }
    true
}

#[test]
fn flips_are_added(rt: HostRuntime) -> Result<(), Fail> {
    let alloc = rt.alloc();
    let mut steps = Vec::new(alloc);
    steps.push(step(0, 0, 0, pair(alloc, 1, 0)?))?;
    steps.push(step(1, 0, 0, pair(alloc, 2, -1)?))?;
    assert!(rt; are_steps(&steps, 2));
    let total = flip_total(alloc, &steps, 2)?;
    assert!(rt; total.entries() == pair(alloc, 3, -1)?.entries());
    Ok(())
}

fn named(fault: &Fault<Refused>) -> Option<Refused> {
    match fault {
        Fault::Named(refused) => Some(*refused),
        Fault::OutOfMemory => None,
    }
}

/// The refused operation, if there is one.
fn refusal(outcome: &Result<SpVec, Fault<Refused>>) -> Option<Refused> {
    match outcome {
        Ok(_) => None,
        Err(fault) => named(fault),
    }
}

#[test]
fn a_flip_that_does_not_fit_is_named(rt: HostRuntime) -> Result<(), Fail> {
    let alloc = rt.alloc();
    let mut steps = Vec::new(alloc);
    steps.push(step(0, 0, 0, pair(alloc, 1, i128::MAX)?))?;
    steps.push(step(1, 0, 0, pair(alloc, 2, 3)?))?;
    assert!(rt; are_steps(&steps, 2));
    let wanted = Refused {
        op: Op::Add,
        left: frac(i128::MAX, 1),
        right: frac(3, 1),
    };
    assert_eq!(rt; refusal(&flip_total(alloc, &steps, 2)), Some(wanted));
    Ok(())
}

/// Two pivots: at place 0 with the members 2 and 3, and at place 1 with the members 1 and 4.
fn two_pivots(alloc: Global) -> Result<Vec<Pivot>, OutOfMemory> {
    let mut pivots = Vec::new(alloc);
    pivots.push(Pivot {
        place: 0,
        column: pair(alloc, 2, 3)?,
    })?;
    pivots.push(Pivot {
        place: 1,
        column: pair(alloc, 1, 4)?,
    })?;
    Ok(pivots)
}

#[test]
fn a_column_goes_through_both_pivots(rt: HostRuntime) -> Result<(), Fail> {
    let alloc = rt.alloc();
    let column = pair(alloc, 4, 10)?;
    let pivots = two_pivots(alloc)?;
    assert!(rt; column.len() == 2);
    assert!(rt; are_pivots(&pivots, 2));
    // (4, 10) becomes (2, 10 - 2 * 3), and that becomes (2 - 1, 4 / 4).
    let behind = transform(alloc, &column, &pivots)?;
    assert!(rt; behind.entries() == pair(alloc, 1, 1)?.entries());
    Ok(())
}

#[test]
fn values_are_collected(rt: HostRuntime) -> Result<(), Fail> {
    let alloc = rt.alloc();
    let values = [frac(10, 1), frac(20, 1)];
    let flips = pair(alloc, 1, 2)?;
    let mut steps = Vec::new(alloc);
    steps.push(step(0, 3, 4, pair(alloc, 0, 0)?))?;
    let mut columns = Vec::new(alloc);
    columns.push(pair(alloc, 2, 3)?)?;
    let mut pivots = Vec::new(alloc);
    pivots.push(Pivot {
        place: 0,
        column: pair(alloc, 2, 3)?,
    })?;
    assert!(rt; flips.len() == 2);
    assert!(rt; columns.len() == steps.len());
    assert!(rt; are_columns(&columns, 2));
    assert!(rt; are_steps(&steps, 2));
    assert!(rt; are_pivots(&pivots, 2));
    // (9, 18) and 3 times (2, 3) are (15, 27), less 4 at the first place (11, 27), and through the pivot (11/2, 21/2).
    let collected = collect_values(alloc, &values, &flips, &steps, &columns, &pivots)?;
    assert!(rt; collected.as_slice() == [frac(11, 2), frac(21, 2)].as_slice());
    Ok(())
}

#[test]
fn a_state_is_collected(rt: HostRuntime) -> Result<(), Fail> {
    let alloc = rt.alloc();
    let state = State {
        head: PlaceList::from_vec(Vec::from_slice(alloc, &[0, 1])?),
        stands: StandList::from_vec(Vec::from_slice(alloc, &[Stand::Basic, Stand::Basic])?),
        values: FracList::from_vec(Vec::new(alloc)),
        reduced: FracList::from_vec(Vec::new(alloc)),
        weights: WeightList::from_vec(Vec::from_slice(alloc, &[6, 7])?),
        pivots: 2,
    };
    let after = BatchEnd {
        head: PlaceList::from_vec(Vec::from_slice(alloc, &[2, 1])?),
        stands: StandList::from_vec(Vec::from_slice(alloc, &[Stand::Lower, Stand::Basic])?),
        reduced: FracList::from_vec(Vec::new(alloc)),
    };
    let values = FracList::from_vec(Vec::from_slice(alloc, &[frac(5, 1), frac(7, 1)])?);
    let mut pivots = Vec::new(alloc);
    pivots.push(Pivot {
        place: 0,
        column: pair(alloc, 1, 3)?,
    })?;
    assert!(rt; state.weights.as_slice().len() == 2);
    assert!(rt; are_weights(state.weights.as_slice()));
    assert!(rt; are_pivots(&pivots, 2));
    assert!(rt; pivots.len() == 1);
    let new = collect(alloc, &state, after, values, &pivots)?;
    assert!(rt; new.pivots == 3);
    assert!(rt; new.head.as_slice() == [2, 1].as_slice());
    assert!(rt; new.stands.as_slice() == [Stand::Lower, Stand::Basic].as_slice());
    assert!(rt; new.values.as_slice() == [frac(5, 1), frac(7, 1)].as_slice());
    // The column's member 3 has one binary digit more than the pivot's 1, so the weight beside it is at least 4 times 6.
    assert!(rt; new.weights.as_slice() == [6, 24].as_slice());
    Ok(())
}
