//! Slices of small tables, with zeros, basic variables and first refusals.

ghost use Rattle.pami_script.specs.Dense.{Rising};

use crate::{SliceRefused, price_all, price_slice};
use pami_frac::{Entry, Fault, Frac, Op, Refused};
use pami_vec::{RowWise, SpVec, Stand};
use std::alloc::Global;
use std::test::Fail;

const MAX: i128 = i128::MAX;

/// The fraction, for numbers that make one.
fn frac(numerator: i128, denominator: i128) -> Frac {
    match Frac::new(numerator, denominator) {
        Ok(value) => value,
        Err(_) => Frac::zero(),
    }
}

/// Two entries, zeros too.
fn two(first: Frac, second: Frac) -> [Entry; 2]
    ensures { Rising 0 2 result }
{
    [
        Entry {
            place: 0,
            value: first,
        },
        Entry {
            place: 1,
            value: second,
        },
    ]
}

/// Has the answer these values at variables 0 and 3 alone?
fn has(answer: &Vec<Entry>, first: Frac, last: Frac) -> bool {
    answer.len() == 2
        && answer[0].place == 0
        && answer[0].value == first
        && answer[1].place == 3
        && answer[1].value == last
}

/// The refused operation, if there is one.
fn refusal(answer: &Result<Vec<Entry>, Fault<Refused>>) -> Option<Refused> {
    match answer {
        Err(Fault::Named(refused)) => Some(*refused),
        _ => None,
    }
}

/// The refused operation with its slice, if there is one.
fn row_refusal(answer: &Result<Vec<Entry>, Fault<SliceRefused>>) -> Option<SliceRefused> {
    match answer {
        Err(Fault::Named(refused)) => Some(*refused),
        _ => None,
    }
}

/// The sum that is refused first.
fn too_great() -> Refused {
    Refused {
        op: Op::Add,
        left: frac(MAX, 2),
        right: frac(MAX, 1),
    }
}

#[tactic(auto, using(crate::proofs::Rows::four_columns, crate::proofs::Rows::four_even))]
#[test]
fn a_slice_has_its_entries(rt: HostRuntime) -> Result<(), Fail> {
    let zero = Frac::zero();
    let one = Frac::one();
    let largest = frac(MAX, 1);
    let rho = SpVec::from_entries(rt.alloc(), 2, &two(frac(1, 2), one))?;
    let first = SpVec::from_entries(rt.alloc(), 2, &two(frac(4, 1), one))?;
    let second = SpVec::from_entries(rt.alloc(), 2, &two(largest, largest))?;
    let third = SpVec::from_entries(rt.alloc(), 2, &two(frac(2, 1), frac(-1, 1)))?;
    let fourth = SpVec::from_entries(rt.alloc(), 2, &two(zero, frac(-1, 1)))?;
    assert!(rt; first.len() == rho.len());
    assert!(rt; second.len() == rho.len());
    assert!(rt; third.len() == rho.len());
    assert!(rt; fourth.len() == rho.len());
    let mut columns = Vec::new(rt.alloc());
    columns.push(first)?;
    columns.push(second)?;
    columns.push(third)?;
    columns.push(fourth)?;
    let by_row = RowWise::of(rt.alloc(), &columns)?;
    let stands = [Stand::Lower, Stand::Basic, Stand::Upper, Stand::Zero];
    let slice = price_slice(rt.alloc(), &by_row, &stands, &rho, 0)?;
    assert!(rt; has(&slice, frac(3, 1), frac(-1, 1)));
    let row = price_all(rt.alloc(), &by_row, &stands, &rho)?;
    assert!(rt; has(&row, frac(3, 1), frac(-1, 1)));
    let stands = [Stand::Lower, Stand::Zero, Stand::Upper, Stand::Zero];
    let answer = price_slice(rt.alloc(), &by_row, &stands, &rho, 0);
    assert_eq!(rt; refusal(&answer), Some(too_great()));
    let answer = price_all(rt.alloc(), &by_row, &stands, &rho);
    let wanted = Some(SliceRefused {
        slice: 0,
        refused: too_great(),
    });
    assert_eq!(rt; row_refusal(&answer), wanted);
    Ok(())
}

/// What the price of two columns answers where rho is the largest number in both rows and both variables are nonbasic: the
/// slice of the first two variables.
#[tactic(auto, using(crate::proofs::Rows::two_columns, crate::proofs::Rows::two_even))]
fn priced_by_largest(
    alloc: Global,
    first: [Frac; 2],
    second: [Frac; 2],
) -> Result<Option<Refused>, Fail> {
    let largest = frac(MAX, 1);
    let rho = SpVec::from_entries(alloc, 2, &two(largest, largest))?;
    let first = SpVec::from_entries(alloc, 2, &two(first[0], first[1]))?;
    let second = SpVec::from_entries(alloc, 2, &two(second[0], second[1]))?;
    if first.len() != rho.len() || second.len() != rho.len() {
        return Ok(None);
    }
    let mut columns = Vec::new(alloc);
    columns.push(first)?;
    columns.push(second)?;
    let by_row = RowWise::of(alloc, &columns)?;
    let stands = [Stand::Lower, Stand::Zero];
    Ok(refusal(&price_slice(alloc, &by_row, &stands, &rho, 0)))
}

/// The product of the largest number with this one, refused.
fn product(right: i128) -> Option<Refused> {
    Some(Refused {
        op: Op::Mul,
        left: frac(MAX, 1),
        right: frac(right, 1),
    })
}

#[test]
fn the_least_variable_refuses(rt: HostRuntime) -> Result<(), Fail> {
    let zero = Frac::zero();
    let (one, second, third) = (Frac::one(), frac(2, 1), frac(3, 1));
    // The walk over the rows meets the second column's product first. The first column's, one row later, is the answer.
    assert_eq!(rt;
        priced_by_largest(rt.alloc(), [zero, second], [second, zero])?,
        product(2)
    );
    assert_eq!(rt;
        priced_by_largest(rt.alloc(), [zero, second], [third, zero])?,
        product(2)
    );
    // Here the first column's product fits.
    assert_eq!(rt;
        priced_by_largest(rt.alloc(), [zero, one], [third, zero])?,
        product(3)
    );
    Ok(())
}
