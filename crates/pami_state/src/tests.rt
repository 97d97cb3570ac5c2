//! The starting state of small lists, and what is read of it.

ghost use Rattle.std.specs.Prelude.{◌≡◌, ◌<◌, ℕ, IfOk, length};
ghost use Rattle.pami_algebra.specs.Operations.{◌≤ᶠ◌};
ghost use Rattle.pami_linear.specs.Lists.{get};
ghost use Rattle.pami_theory.specs.Form.{limits, IsUncrossed};
ghost use Rattle.pami_theory.specs.Basis.{IsBasis};
ghost use Rattle.pami_state.specs.Columns.{bounds_form};
ghost use Rattle.pami_state.specs.State.{basis_of};

use crate::{State, start};
use pami_frac::{Bounds, Entry, Fault, Frac, Op, OutOfMemory, Refused};
use pami_vec::{SpVec, Stand};
use std::alloc::Global;
use std::cmp::Ordering;
use std::test::Fail;

const MAX: i128 = i128::MAX;

/// The fraction, for numbers that make one.
fn frac(numerator: i128, denominator: i128) -> Frac {
    match Frac::new(numerator, denominator) {
        Ok(value) => value,
        Err(_) => Frac::zero(),
    }
}

/// The value, or the least one that is wanted where it is below that.
fn at_least(least: Frac, value: Frac) -> Frac
    ensures { least ≤ᶠ result }
{
    match value.compare(&least) {
        Ordering::Less => least,
        Ordering::Equal => value,
        Ordering::Greater => value,
    }
}

/// These bounds, the upper one raised to the lower one where they are crossed.
fn uncrossed(low: Option<Frac>, high: Option<Frac>) -> Bounds
    ensures { IsUncrossed result }
{
    match (low, high) {
        (Some(least), Some(most)) => Bounds {
            low,
            high: Some(at_least(least, most)),
        },
        (Some(_), None) => Bounds { low, high },
        (None, Some(_)) => Bounds { low, high },
        (None, None) => Bounds { low, high },
    }
}

/// A column of two rows.
fn column(alloc: Global, first: Frac, second: Frac) -> Result<SpVec, OutOfMemory>
    ensures two { IfOk result (λ v. length v ≡ 2) }
    ensures first { IfOk result (λ v. get v 0 ≡ first) }
    ensures second { IfOk result (λ v. get v 1 ≡ second) }
{
    let entries = [
        Entry {
            place: 0,
            value: first,
        },
        Entry {
            place: 1,
            value: second,
        },
    ];
    let vector = SpVec::from_entries(alloc, 2, &entries)?;
    Ok(vector)
}

/// No bounds.
fn free() -> Bounds {
    uncrossed(None, None)
}

/// A lower bound alone.
fn from(low: Frac) -> Bounds {
    uncrossed(Some(low), None)
}

/// These bounds of four variables, none of them crossed.
fn four(bounds: &[Bounds; 4]) -> [Bounds; 4]
    ensures four { length result ≡ 4 }
    ensures uncrossed { (v : ℕ) → v < 4 → IsUncrossed (limits (bounds_form 0 result) v) }
{
    [
        uncrossed(bounds[0].low, bounds[0].high),
        uncrossed(bounds[1].low, bounds[1].high),
        uncrossed(bounds[2].low, bounds[2].high),
        uncrossed(bounds[3].low, bounds[3].high),
    ]
}

/// The starting state of two rows with two columns.
fn begin(
    alloc: Global,
    entries: [[Frac; 2]; 2],
    bounds: &[Bounds; 4],
    costs: [Frac; 2],
) -> Result<State, Fault<Refused>>
    requires { (v : ℕ) → v < 4 → IsUncrossed (limits (bounds_form 0 bounds.now) v) }
    ensures values { IfOk result (λ st. length st.values ≡ length st.head) }
    ensures stands { IfOk result (λ st. length st.stands ≡ 4) }
    ensures reduced { IfOk result (λ st. length st.reduced ≡ 4) }
    ensures basis { IfOk result (λ st. IsBasis (bounds_form (length st.head) bounds.now) (basis_of st)) }
{
    let zero = Frac::zero();
    let less = Frac::one().negate();
    let columns = [
        column(alloc, entries[0][0], entries[0][1])?,
        column(alloc, entries[1][0], entries[1][1])?,
        column(alloc, less, zero)?,
        column(alloc, zero, less)?,
    ];
    let state = start(alloc, &columns, bounds, &[costs[0], costs[1], zero, zero])?;
    Ok(state)
}

/// The values of the four variables.
fn values(state: &State, bounds: &[Bounds; 4]) -> [Frac; 4]
    requires values { length state.now.values ≡ length state.now.head }
    requires stands { length state.now.stands ≡ 4 }
    requires basis { IsBasis (bounds_form (length state.now.head) bounds.now) (basis_of state.now) }
{
    [
        state.value_of(bounds, 0),
        state.value_of(bounds, 1),
        state.value_of(bounds, 2),
        state.value_of(bounds, 3),
    ]
}

#[test]
fn starting_states(rt: HostRuntime) -> Result<(), Fail> {
    let zero = Frac::zero();
    let one = Frac::one();
    let two = frac(2, 1);
    let less = frac(-1, 1);
    let rows = [
        // Columns from 0 on.
        (
            [[one, two], [two, less]],
            [from(zero), from(zero), free(), free()],
            [two, zero],
            [Stand::Lower, Stand::Lower, Stand::Basic, Stand::Basic],
            [zero, zero, zero, zero],
            true,
        ),
        // Columns from 1 and 2 on, one of them with a cost below 0.
        (
            [[one, frac(3, 1)], [two, less]],
            [from(one), from(two), from(zero), from(zero)],
            [less, zero],
            [Stand::Lower, Stand::Lower, Stand::Basic, Stand::Basic],
            [one, two, frac(5, 1), one],
            false,
        ),
        // Boxed columns, of cost below 0 and of cost 0.
        (
            [[one, zero], [one, two]],
            [
                uncrossed(Some(zero), Some(frac(4, 1))),
                uncrossed(Some(one), Some(two)),
                free(),
                free(),
            ],
            [less, zero],
            [Stand::Upper, Stand::Lower, Stand::Basic, Stand::Basic],
            [frac(4, 1), one, frac(5, 1), two],
            true,
        ),
        // A free column of cost 0, and one that is bounded from above.
        (
            [[two, two], [frac(1, 2), frac(3, 1)]],
            [free(), uncrossed(None, Some(frac(-2, 1))), free(), free()],
            [zero, less],
            [Stand::Zero, Stand::Upper, Stand::Basic, Stand::Basic],
            [zero, frac(-2, 1), less, frac(-6, 1)],
            true,
        ),
        // A fixed column of cost below 0, and a free one of cost 1.
        (
            [[two, frac(4, 1)], [one, one]],
            [
                uncrossed(Some(frac(7, 2)), Some(frac(7, 2))),
                free(),
                free(),
                free(),
            ],
            [less, one],
            [Stand::Lower, Stand::Zero, Stand::Basic, Stand::Basic],
            [frac(7, 2), zero, frac(7, 1), frac(14, 1)],
            false,
        ),
    ];
    for (entries, bounds, costs, stands, wanted, feasible) in &rows {
        let bounds = four(bounds);
        let state = begin(rt.alloc(), *entries, &bounds, *costs)?;
        assert!(rt; state.head.as_slice() == [2, 3].as_slice());
        assert!(rt; state.stands.as_slice() == stands.as_slice());
        assert!(rt; state.reduced.as_slice() == [costs[0], costs[1], zero, zero].as_slice());
        assert!(rt; state.weights.as_slice() == [1, 1].as_slice());
        assert_eq!(rt; values(&state, &bounds), *wanted);
        let all = state.values(rt.alloc(), &bounds)?;
        assert!(rt; all.as_slice() == wanted.as_slice());
        assert_eq!(rt; state.dual_feasible(&bounds), *feasible);
    }
    Ok(())
}

fn named(fault: &Fault<Refused>) -> Option<Refused> {
    match fault {
        Fault::Named(refused) => Some(*refused),
        Fault::OutOfMemory => None,
    }
}

/// The refused operation, if there is one.
fn refusal(outcome: &Result<State, Fault<Refused>>) -> Option<Refused> {
    match outcome {
        Ok(_) => None,
        Err(fault) => named(fault),
    }
}

#[test]
fn the_first_row_is_refused_first(rt: HostRuntime) {
    let zero = Frac::zero();
    let one = Frac::one();
    let two = frac(2, 1);
    let largest = frac(MAX, 1);
    let bounds = four(&[from(largest), from(one), free(), free()]);
    let sum = Refused {
        op: Op::Add,
        left: largest,
        right: one,
    };
    let product = Refused {
        op: Op::Mul,
        left: two,
        right: largest,
    };
    // The first column's second product doesn't fit; the sum of the first row comes before it, where it doesn't either.
    let both = begin(rt.alloc(), [[one, two], [one, one]], &bounds, [zero, zero]);
    assert_eq!(rt; refusal(&both), Some(sum));
    let second = begin(rt.alloc(), [[one, two], [zero, one]], &bounds, [zero, zero]);
    assert_eq!(rt; refusal(&second), Some(product));
}

#[test]
fn copies_are_equal(rt: HostRuntime) -> Result<(), Fail> {
    let zero = Frac::zero();
    let one = Frac::one();
    let two = frac(2, 1);
    let bounds = four(&[from(two), uncrossed(None, Some(one)), free(), free()]);
    let state = begin(rt.alloc(), [[one, two], [two, one]], &bounds, [one, zero])?;
    let copy = state.copy(rt.alloc())?;
    assert!(rt; copy.head.as_slice() == [2, 3].as_slice());
    assert!(rt;
        copy.stands.as_slice()
            == [Stand::Lower, Stand::Upper, Stand::Basic, Stand::Basic].as_slice()
    );
    assert!(rt; copy.values.as_slice() == [frac(4, 1), frac(5, 1)].as_slice());
    assert!(rt; copy.reduced.as_slice() == [one, zero, zero, zero].as_slice());
    assert!(rt; copy.weights.as_slice() == [1, 1].as_slice());
    assert_eq!(rt; copy.pivots, 0);
    Ok(())
}
