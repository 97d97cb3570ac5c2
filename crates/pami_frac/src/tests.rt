//! Tables of made, compared and printed fractions, at the ends of 128 bits too.

use crate::{Frac, NewFault};
use std::cmp::Ordering;
use std::test::Fail;

const MIN: i128 = i128::MIN;

const MAX: i128 = i128::MAX;

/// The fraction, for numbers that make one.
fn frac(numerator: i128, denominator: i128) -> Frac {
    match Frac::new(numerator, denominator) {
        Ok(value) => value,
        Err(_) => Frac::zero(),
    }
}

#[test]
fn makes_lowest_terms(rt: HostRuntime) {
    let rows = [
        (6, 4, Ok((3, 2))),
        (6, -4, Ok((-3, 2))),
        (-6, -4, Ok((3, 2))),
        (0, -7, Ok((0, 1))),
        (0, MIN, Ok((0, 1))),
        (7, 0, Err(NewFault::ZeroBelow)),
        (0, 0, Err(NewFault::ZeroBelow)),
        (MIN, 0, Err(NewFault::ZeroBelow)),
        (MIN, 1, Err(NewFault::TooWide)),
        (MIN, -1, Err(NewFault::TooWide)),
        (1, MIN, Err(NewFault::TooWide)),
        (MIN, 3, Err(NewFault::TooWide)),
        (MIN, 2, Ok((-85070591730234615865843651857942052864, 1))),
        (MIN, MIN, Ok((1, 1))),
        (2, MIN, Ok((-1, 85070591730234615865843651857942052864))),
        (MIN, 6, Ok((-85070591730234615865843651857942052864, 3))),
        (MAX, MAX, Ok((1, 1))),
        (MAX, -1, Ok((-MAX, 1))),
        (-1, -MAX, Ok((1, MAX))),
        (MIN, MAX, Err(NewFault::TooWide)),
        (36893488147419103232, 55340232221128654848, Ok((2, 3))),
    ];
    for (numerator, denominator, wanted) in rows {
        let made = Frac::new(numerator, denominator).map(|f| (f.numerator(), f.denominator()));
        assert_eq!(rt; made, wanted);
    }
}

#[test]
fn compares_at_the_ends(rt: HostRuntime) {
    let rows = [
        (frac(1, 3), frac(2, 6), Ordering::Equal),
        (frac(1, 3), frac(1, 2), Ordering::Less),
        (frac(-1, 3), frac(-1, 2), Ordering::Greater),
        (frac(-1, 2), frac(1, 3), Ordering::Less),
        (frac(0, 1), frac(-1, MAX), Ordering::Greater),
        (frac(0, 1), frac(1, MAX), Ordering::Less),
        (frac(MAX, MAX - 1), frac(MAX - 1, MAX - 2), Ordering::Less),
        (
            frac(MAX - 1, MAX),
            frac(MAX - 2, MAX - 1),
            Ordering::Greater,
        ),
        (
            frac(-MAX, MAX - 1),
            frac(1 - MAX, MAX - 2),
            Ordering::Greater,
        ),
        (frac(MAX, 2), frac(MAX, 2), Ordering::Equal),
        (frac(MAX, 2), frac(MAX - 2, 2), Ordering::Greater),
        (frac(-MAX, 1), frac(MAX, 1), Ordering::Less),
        (frac(2, MAX), frac(2, MAX - 2), Ordering::Less),
    ];
    for (left, right, wanted) in rows {
        assert_eq!(rt; left.compare(&right), wanted);
        assert_eq!(rt; right.compare(&left), wanted.reverse());
        assert_eq!(rt; left == right, wanted == Ordering::Equal);
        assert_eq!(rt; left.negate().compare(&right.negate()), wanted.reverse());
    }
}

#[test]
fn prints(rt: HostRuntime) -> Result<(), Fail> {
    let rows = [
        (frac(0, 5), b"0".as_slice()),
        (frac(-3, 6), b"-1/2".as_slice()),
        (frac(12, 1), b"12".as_slice()),
        (frac(10, 100), b"1/10".as_slice()),
        (
            frac(-MAX, MAX - 1),
            b"-170141183460469231731687303715884105727/170141183460469231731687303715884105726".as_slice(),
        ),
    ];
    for (value, wanted) in rows {
        let text = value.print(rt.alloc())?;
        assert!(rt; text.as_slice() == wanted);
    }
    Ok(())
}

#[test]
fn appends_behind_what_stands(rt: HostRuntime) -> Result<(), Fail> {
    let mut out = Vec::new(rt.alloc());
    frac(1, 2).append_to(&mut out)?;
    Frac::one().append_to(&mut out)?;
    assert!(rt; out.as_slice() == b"1/21".as_slice());
    Ok(())
}

#[test]
fn tells_signs(rt: HostRuntime) {
    let rows = [
        (frac(-1, 2), false, true),
        (Frac::zero(), true, false),
        (frac(1, 2), false, false),
    ];
    for (value, zero, negative) in rows {
        assert_eq!(rt; value.is_zero(), zero);
        assert_eq!(rt; value.is_negative(), negative);
    }
}
