//! The plain sums of products, with values and with first refusals.

ghost use Rattle.std.specs.Prelude.{◌≡◌};

use crate::plain::{add_products, add_sparse};
use pami_frac::{Entry, Frac, Op, Refused};

const MAX: i128 = i128::MAX;

/// The fraction, for numbers that make one.
fn frac(numerator: i128, denominator: i128) -> Frac {
    match Frac::new(numerator, denominator) {
        Ok(value) => value,
        Err(_) => Frac::zero(),
    }
}

/// The value at a place.
fn entry(place: u32, value: Frac) -> Entry
    ensures { result ≡ record { place = place; value = value } }
{
    Entry { place, value }
}

#[test]
fn sums_by_all_places_and_by_entries(rt: HostRuntime) {
    let zero = Frac::zero();
    let one = Frac::one();
    let largest = frac(MAX, 1);
    let second = Refused {
        op: Op::Add,
        left: largest,
        right: one,
    };
    let sum = Refused {
        op: Op::Add,
        left: frac(-MAX, 1),
        right: frac(3, 2),
    };
    let product = Refused {
        op: Op::Mul,
        left: largest,
        right: frac(3, 2),
    };
    let rows = [
        (zero, [zero, zero, zero], Ok(zero)),
        (frac(1, 2), [frac(1, 3), zero, frac(2, 5)], Ok(frac(31, 10))),
        (largest, [zero, zero, zero], Ok(largest)),
        (largest, [one, frac(-1, 1), zero], Err(second)),
        (frac(1 - MAX, 1), [frac(-1, 1), one, zero], Err(sum)),
        (one, [zero, largest, one], Err(product)),
    ];
    let vs = [one, frac(3, 2), frac(17, 3)];
    for (t, us, wanted) in rows {
        let low = us[0];
        let middle = us[1];
        let high = us[2];
        let all = [entry(0, low), entry(1, middle), entry(2, high)];
        let later = [entry(1, middle), entry(2, high)];
        let earlier = [entry(0, low), entry(1, middle)];
        assert_eq!(rt; add_products(t, &us, &vs), wanted);
        assert_eq!(rt; add_sparse(t, &all, &vs), wanted);
        if low.is_zero() {
            assert_eq!(rt; add_sparse(t, &later, &vs), wanted);
        }
        if high.is_zero() {
            assert_eq!(rt; add_sparse(t, &earlier, &vs), wanted);
        }
    }
}
