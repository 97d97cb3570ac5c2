//! Spans worked out by hand: of one cost, of one bound, and of all bounds of a small model at its last basis.

ghost use Rattle.std.specs.Prelude.{◌≡◌, length, IfOk};
ghost use Rattle.std.specs.List.{All};

use crate::bounds::spans_by;
use crate::one::own_span;
use crate::span::{End, Span};
use crate::spans::{Factored, entries_span, members_span};
use pami_factor::Factor;
use pami_frac::{Bounds, Frac, Op, OutOfMemory, Refused};
use pami_lu::{Steps, eliminate};
use pami_vec::{SpVec, Stand};
use std::alloc::Global;
use std::process::Abort;
use std::test::Fail;

const MAX: i128 = i128::MAX;

const TEN_TO_38: i128 = 100_000_000_000_000_000_000_000_000_000_000_000_000;

/// The fraction of these numbers, for those that the tests use.
fn frac(numerator: i128, denominator: i128) -> Frac {
    match Frac::new(numerator, denominator) {
        Ok(value) => value,
        Err(_) => Frac::zero(),
    }
}

fn whole(number: i128) -> Frac {
    frac(number, 1)
}

fn at(numerator: i128, denominator: i128) -> End {
    End::At(frac(numerator, denominator))
}

fn wide(op: Op, left: Frac, right: Frac) -> End {
    End::Wide(Refused { op, left, right })
}

fn at_least(low: i128) -> Bounds {
    Bounds {
        low: Some(whole(low)),
        high: None,
    }
}

fn between(low: i128, high: i128) -> Bounds {
    Bounds {
        low: Some(whole(low)),
        high: Some(whole(high)),
    }
}

fn wide_both(op: Op, left: Frac, right: Frac) -> Span {
    Span {
        low: wide(op, left, right),
        high: wide(op, left, right),
    }
}

fn free() -> Bounds {
    Bounds {
        low: None,
        high: None,
    }
}

/// The span of a basic column's cost, from nonbasic variables with these bounds, stands and reduced costs, and with this row.
fn basic_span(
    rt: &impl Abort,
    alloc: Global,
    own: Frac,
    bounds: &[Bounds],
    stands: &[Stand],
    reduced: &[Frac],
    row: &[Frac],
) -> Result<Span, Fail> {
    assert!(rt; stands.len() == bounds.len());
    assert!(rt; reduced.len() == bounds.len());
    assert!(rt; row.len() == bounds.len());
    assert!(rt; row.len() < 16);
    let row = SpVec::from_dense(alloc, row)?;
    Ok(entries_span(bounds, stands, reduced, own, row.entries()))
}

/// The span of a bound of the value `own`, at a basis of three variables with these bounds and values, whose column is this.
fn bound_span(
    alloc: Global,
    own: Frac,
    bounds: &[Bounds; 3],
    values: &[Frac; 3],
    column: &[Frac; 3],
) -> Result<Span, Fail> {
    let column = SpVec::from_dense(alloc, column)?;
    Ok(members_span(bounds, &[0, 1, 2], values, own, &column))
}

#[test]
fn costs_out_of_the_basis(rt: HostRuntime) {
    let lower = own_span(&at_least(0), Stand::Lower, whole(5), whole(2));
    assert_eq!(rt; lower.low, at(3, 1));
    assert_eq!(rt; lower.high, End::Infinite);
    let upper = own_span(&between(0, 9), Stand::Upper, whole(5), whole(-2));
    assert_eq!(rt; upper.low, End::Infinite);
    assert_eq!(rt; upper.high, at(7, 1));
    let zero = own_span(&free(), Stand::Zero, whole(5), Frac::zero());
    assert_eq!(rt; zero.low, at(5, 1));
    assert_eq!(rt; zero.high, at(5, 1));
    let fixed = own_span(&between(4, 4), Stand::Lower, whole(5), whole(2));
    assert_eq!(rt; fixed.low, End::Infinite);
    assert_eq!(rt; fixed.high, End::Infinite);
    // 2^127 - 1 less -1, and -(2^127 - 1) less 1.
    let high = own_span(&between(0, 9), Stand::Upper, whole(MAX), whole(-1));
    assert_eq!(rt; high.high, wide(Op::Sub, whole(MAX), whole(-1)));
    let low = own_span(&at_least(0), Stand::Lower, whole(-MAX), whole(1));
    assert_eq!(rt; low.low, wide(Op::Sub, whole(-MAX), whole(1)));
}

/// Nonbasic variables bound the change of a basic cost where their reduced costs would lose their signs.
#[test]
fn costs_in_the_basis(rt: HostRuntime) -> Result<(), Fail> {
    let alloc = rt.alloc();
    // 2 - 4 t and 3 + 6 t stay at least 0, -1 + 4 t and -2 - 6 t at most 0: t from -1/3 to 1/4. A fixed variable and one
    // with no entry bound nothing.
    let bounds = [
        at_least(0),
        at_least(0),
        between(0, 5),
        between(0, 5),
        between(2, 2),
        at_least(0),
    ];
    let stands = [
        Stand::Lower,
        Stand::Lower,
        Stand::Upper,
        Stand::Upper,
        Stand::Lower,
        Stand::Lower,
    ];
    let reduced = [whole(2), whole(3), whole(-1), whole(-2), whole(1), whole(7)];
    let row = [
        whole(4),
        whole(-6),
        whole(-4),
        whole(6),
        whole(100),
        whole(0),
    ];
    let both = basic_span(&rt, alloc, whole(3), &bounds, &stands, &reduced, &row)?;
    assert_eq!(rt; both.low, at(8, 3));
    assert_eq!(rt; both.high, at(13, 4));

    // The basic variable's own place has no entry, and nothing else bounds from below.
    let above = basic_span(
        &rt,
        alloc,
        whole(3),
        &[at_least(0), at_least(0)],
        &[Stand::Basic, Stand::Lower],
        &[whole(0), whole(0)],
        &[whole(1), whole(5)],
    )?;
    assert_eq!(rt; above.low, End::Infinite);
    assert_eq!(rt; above.high, at(3, 1));

    // A free variable at 0 lets the cost move to neither side.
    let still = basic_span(
        &rt,
        alloc,
        whole(3),
        &[at_least(0), free()],
        &[Stand::Lower, Stand::Zero],
        &[whole(2), whole(0)],
        &[whole(4), whole(-7)],
    )?;
    assert_eq!(rt; still.low, at(3, 1));
    assert_eq!(rt; still.high, at(3, 1));
    Ok(())
}

/// Each end is wide by itself, at its own first operation that doesn't fit.
#[test]
fn wide_ends_of_costs(rt: HostRuntime) -> Result<(), Fail> {
    let alloc = rt.alloc();
    let tiny = frac(1, TEN_TO_38);
    let stands = [Stand::Lower, Stand::Lower, Stand::Lower];
    let bounds = [at_least(0), at_least(0), at_least(0)];
    // 2 10^38 and 3 10^38 don't fit, and the first of them is told; from below there is 3 / -6.
    let quotient = basic_span(
        &rt,
        alloc,
        whole(3),
        &bounds,
        &stands,
        &[whole(3), whole(2), whole(3)],
        &[whole(-6), tiny, tiny],
    )?;
    assert_eq!(rt; quotient.low, at(5, 2));
    assert_eq!(rt; quotient.high, wide(Op::Div, whole(2), tiny));
    // The change fits, and its sum with the cost doesn't.
    let sum = basic_span(
        &rt,
        alloc,
        whole(MAX),
        &bounds,
        &stands,
        &[whole(1), whole(8), whole(0)],
        &[whole(1), whole(-2), whole(0)],
    )?;
    assert_eq!(rt; sum.low, End::At(whole(MAX - 4)));
    assert_eq!(rt; sum.high, wide(Op::Add, whole(MAX), whole(1)));
    Ok(())
}

/// The values at the places bound the change of a bound where they would meet their own bounds.
#[test]
fn bounds_of_nonbasic_variables(rt: HostRuntime) -> Result<(), Fail> {
    let alloc = rt.alloc();
    let bounds = [between(0, 10), at_least(1), free()];
    // 4 - 2 t from 0 to 10, 7 + 3 t at least 1: t from -2 to 2.
    let both = bound_span(
        alloc,
        whole(1),
        &bounds,
        &[whole(4), whole(7), whole(1)],
        &[whole(2), whole(-3), whole(5)],
    )?;
    assert_eq!(rt; both.low, at(-1, 1));
    assert_eq!(rt; both.high, at(3, 1));
    // A value at its bound already holds the bound on that side.
    let degenerate = bound_span(
        alloc,
        whole(1),
        &bounds,
        &[whole(0), whole(7), whole(1)],
        &[frac(2, 3), whole(0), whole(5)],
    )?;
    assert_eq!(rt; degenerate.low, at(-14, 1));
    assert_eq!(rt; degenerate.high, at(1, 1));
    // Only a value without bounds moves.
    let infinite = bound_span(
        alloc,
        whole(1),
        &bounds,
        &[whole(4), whole(7), whole(1)],
        &[whole(0), whole(0), whole(5)],
    )?;
    assert_eq!(rt; infinite.low, End::Infinite);
    assert_eq!(rt; infinite.high, End::Infinite);
    Ok(())
}

/// A distance, a quotient and a sum that don't fit, each kept at its own end alone.
#[test]
fn wide_ends_of_bounds(rt: HostRuntime) -> Result<(), Fail> {
    let alloc = rt.alloc();
    let tiny = frac(1, TEN_TO_38);
    let none = [Frac::zero(); 3];
    let distance = bound_span(
        alloc,
        whole(1),
        &[at_least(-1), between(0, 10), free()],
        &[whole(MAX), whole(4), whole(1)],
        &[whole(1), whole(2), whole(5)],
    )?;
    assert_eq!(rt; distance.low, at(-2, 1));
    assert_eq!(rt; distance.high, wide(Op::Sub, whole(MAX), whole(-1)));
    let quotient = bound_span(
        alloc,
        whole(1),
        &[between(0, 3), between(0, 10), free()],
        &[whole(2), whole(4), whole(1)],
        &[tiny, whole(2), whole(5)],
    )?;
    // (2 - 3) / 10^-38 fits, and -3 bounds from below before it.
    assert_eq!(rt; quotient.low, at(-2, 1));
    assert_eq!(rt; quotient.high, wide(Op::Div, whole(2), tiny));
    let sum = bound_span(
        alloc,
        whole(MAX),
        &[between(0, 10), free(), free()],
        &[whole(4), whole(0), whole(0)],
        &[whole(1), whole(0), whole(0)],
    )?;
    assert_eq!(rt; sum.low, End::At(whole(MAX - 6)));
    assert_eq!(rt; sum.high, wide(Op::Add, whole(MAX), whole(4)));
    let still = bound_span(alloc, whole(MAX), &[free(), free(), free()], &none, &none)?;
    assert_eq!(rt; still.low, End::Infinite);
    Ok(())
}

/// Columns of one row with these entries.
fn one_row(alloc: Global, values: &[Frac]) -> Result<Vec<SpVec>, OutOfMemory>
    ensures tall { IfOk result (λ columns. All (λ column. length column ≡ 1) columns.items) }
    ensures many { IfOk result (λ columns. length columns.items ≡ length values.now) }
{
    let mut columns = Vec::new(alloc);
    for value in values {
        columns.push(SpVec::from_dense(alloc, &[*value])?)?;
    }
    Ok(columns)
}

/// x + y - z + w / 10^38 >= 2 with nothing to pay: x is 2, and all others stand at 0, the row at 2.
#[test]
fn bounds_of_one_row(rt: HostRuntime) -> Result<(), Fail> {
    let alloc = rt.alloc();
    let entries = [whole(1), whole(1), whole(-1), frac(1, TEN_TO_38), whole(-1)];
    let columns = one_row(alloc, &entries)?;
    let bounds = [
        at_least(0),
        at_least(0),
        at_least(0),
        at_least(0),
        at_least(2),
    ];
    let stands = [
        Stand::Basic,
        Stand::Lower,
        Stand::Lower,
        Stand::Lower,
        Stand::Lower,
    ];
    let mut steps = Steps::<()>::new();
    let lu = eliminate(alloc, columns.as_slice(), &[0], &mut steps)
        .ok()
        .ok_or("an elimination")?;
    let known = Factored::Known(Factor::of(lu));
    let columns = columns.as_slice();
    let spans = spans_by(
        alloc,
        &known,
        columns,
        &bounds,
        &[0],
        &stands,
        &[whole(2)],
        &mut steps,
    )?;
    let wanted = [
        None,
        Some((End::Infinite, at(2, 1))),
        Some((at(-2, 1), End::Infinite)),
        Some((End::Infinite, wide(Op::Div, whole(2), frac(1, TEN_TO_38)))),
        Some((at(0, 1), End::Infinite)),
    ];
    assert_eq!(rt; spans.len(), wanted.len());
    for (span, ends) in spans.iter().zip(wanted) {
        assert_eq!(rt; span.map(|span| (span.low, span.high)), ends);
    }

    // Where the elimination doesn't fit, no end is known.
    let unfit = Factored::Unfit(Refused {
        op: Op::Mul,
        left: whole(MAX),
        right: whole(2),
    });
    let spans = spans_by(
        alloc,
        &unfit,
        columns,
        &bounds,
        &[0],
        &stands,
        &[whole(2)],
        &mut steps,
    )?;
    assert_eq!(rt; spans.len(), 5);
    assert!(rt; spans[0].is_none());
    assert_eq!(rt; spans[3], Some(wide_both(Op::Mul, whole(MAX), whole(2))));
    Ok(())
}
