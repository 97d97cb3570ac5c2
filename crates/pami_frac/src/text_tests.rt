//! Bounds and printed fractions as texts: what is read, and what isn't.

use crate::bound::{BoundValue, read_bound};
use crate::fault::{DecimalFault, NotANumber};
use crate::frac::Frac;
use crate::fraction::read_fraction;
use std::test::*;

/// The bound of these numbers, which make a fraction.
fn finite(numerator: i128, denominator: i128) -> Result<BoundValue, DecimalFault> {
    match Frac::new(numerator, denominator) {
        Ok(value) => Ok(BoundValue::Finite(value)),
        Err(_) => Err(DecimalFault::NotANumber),
    }
}

/// The text is the printed text of the fraction of these numbers.
fn is_printed(text: &[u8], numerator: i128, denominator: i128) -> bool {
    match read_fraction(text) {
        Ok(value) => value.numerator() == numerator && value.denominator() == denominator,
        Err(NotANumber) => false,
    }
}

#[test]
fn bounds(rt: HostRuntime) {
    let numbers = [
        (b"5".as_slice(), 5, 1),
        (b"-2.5".as_slice(), -5, 2),
        (b"-0".as_slice(), 0, 1),
        (b"0e99".as_slice(), 0, 1),
        (b"99999999999999999999".as_slice(), 99999999999999999999, 1),
        (
            b"-9.9999999999999999999e19".as_slice(),
            -99999999999999999999,
            1,
        ),
        (b"00000000000000000000000012".as_slice(), 12, 1),
        (b"0.00000000000000000000000000000001e30".as_slice(), 1, 100),
    ];
    for (text, numerator, denominator) in numbers {
        assert!(rt; read_bound(text) == finite(numerator, denominator));
    }
    let endless = [
        (b"100000000000000000000".as_slice(), BoundValue::Plus),
        (b"-1e20".as_slice(), BoundValue::Minus),
        (b"+1E+20".as_slice(), BoundValue::Plus),
        (b"0.1e21".as_slice(), BoundValue::Plus),
        (b"-.0001E24".as_slice(), BoundValue::Minus),
        (
            b"1e999999999999999999999999999999999999999999".as_slice(),
            BoundValue::Plus,
        ),
        (
            b"12345678901234567890123456789012345678901234567890".as_slice(),
            BoundValue::Plus,
        ),
        (
            b"-9999999999999999999999999999999999999999e-19".as_slice(),
            BoundValue::Minus,
        ),
        (
            b"123456789012345678901.5555555555555555555555555".as_slice(),
            BoundValue::Plus,
        ),
        (b"inf".as_slice(), BoundValue::Plus),
        (b"-Inf".as_slice(), BoundValue::Minus),
        (b"+INFINITY".as_slice(), BoundValue::Plus),
        (b"-infinity".as_slice(), BoundValue::Minus),
    ];
    for (text, value) in endless {
        assert!(rt; read_bound(text) == Ok(value));
    }
    let wide = [
        b"1e-39".as_slice(),
        b"1e-99999999999999999999999999999999999999".as_slice(),
        b"0.1234567890123456789012345678901234567891".as_slice(),
        b"99999999999999999999.5555555555555555555555".as_slice(),
        b"-9999999999999999999999999999999999999999e-21".as_slice(),
    ];
    for text in wide {
        assert!(rt; read_bound(text) == Err(DecimalFault::TooWide));
    }
    let others = [
        b"".as_slice(),
        b"+".as_slice(),
        b"in".as_slice(),
        b"inff".as_slice(),
        b"infinit".as_slice(),
        b"--inf".as_slice(),
        b"inf ".as_slice(),
        b"nan".as_slice(),
        b"1e".as_slice(),
        b"1e20x".as_slice(),
    ];
    for text in others {
        assert!(rt; read_bound(text) == Err(DecimalFault::NotANumber));
    }
}

#[test]
fn printed_fractions(rt: HostRuntime) {
    let numbers = [
        (b"0".as_slice(), 0, 1),
        (b"-7".as_slice(), -7, 1),
        (b"3/2".as_slice(), 3, 2),
        (b"-1/10".as_slice(), -1, 10),
        (
            b"170141183460469231731687303715884105727".as_slice(),
            170141183460469231731687303715884105727,
            1,
        ),
        (
            b"1/170141183460469231731687303715884105727".as_slice(),
            1,
            170141183460469231731687303715884105727,
        ),
    ];
    for (text, numerator, denominator) in numbers {
        assert!(rt; is_printed(text, numerator, denominator));
    }
    let others = [
        b"".as_slice(),
        b"-".as_slice(),
        b"-0".as_slice(),
        b"+1".as_slice(),
        b"01".as_slice(),
        b"2/4".as_slice(),
        b"3/1".as_slice(),
        b"0/5".as_slice(),
        b"1/0".as_slice(),
        b"1/-2".as_slice(),
        b"1/".as_slice(),
        b"/2".as_slice(),
        b"1/2/3".as_slice(),
        b"1.5".as_slice(),
        b" 1".as_slice(),
        b"1 ".as_slice(),
        b"170141183460469231731687303715884105728".as_slice(),
        b"1/170141183460469231731687303715884105728".as_slice(),
    ];
    for text in others {
        assert!(rt; read_fraction(text) == Err(NotANumber));
    }
}
