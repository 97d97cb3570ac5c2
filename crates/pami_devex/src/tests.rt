//! Merits and weights of small tables.

ghost use Rattle.std.specs.Prelude.{◌≡◌, false};
ghost use Rattle.pami_algebra.specs.Operations.{is_zero};
ghost use Rattle.pami_script.specs.Dense.{at, Rising};

use crate::{merit, reweigh, reweigh_one};
use pami_frac::{Entry, Frac};

/// The fraction, for numbers that make one.
fn frac(numerator: i128, denominator: i128) -> Frac {
    match Frac::new(numerator, denominator) {
        Ok(value) => value,
        Err(_) => Frac::zero(),
    }
}

/// A column with a pivot of 1 at place 1 and this member at place 2.
fn column(last: Frac) -> [Entry; 2]
    ensures rising { Rising 0 4 result }
    ensures pivot { is_zero (at result 1) ≡ false }
{
    [
        Entry {
            place: 1,
            value: Frac::one(),
        },
        Entry {
            place: 2,
            value: last,
        },
    ]
}

#[test]
fn merits(rt: HostRuntime) {
    assert_eq!(rt; merit(&frac(53, 1), 1), 10);
    assert_eq!(rt; merit(&frac(10, 1), 1), 6);
    assert_eq!(rt; merit(&frac(4, 1), 7), 2);
    assert_eq!(rt; merit(&frac(1, 8), 1 << 40), -46);
}

#[test]
fn weights_beside_a_pivot(rt: HostRuntime) {
    let one = frac(1, 1);
    assert_eq!(rt; reweigh_one(3, &Frac::zero(), &one, 9), 3);
    assert_eq!(rt; reweigh_one(3, &one, &frac(16, 1), 9), 9);
    assert_eq!(rt; reweigh_one(3, &frac(-16, 1), &one, 9), 2304);
    assert_eq!(rt; reweigh_one(3, &frac(1 << 30, 1), &one, 256), 1 << 40);
    assert_eq!(rt; reweigh_one(3, &frac(1 << 30, 1), &one, 257), 1 << 40);
}

#[test]
fn weights_behind_a_pivot(rt: HostRuntime) {
    let mut weights = [5, 6, 7, 8];
    reweigh(&mut weights, &column(frac(3, 1)), 1);
    assert!(rt; weights == [5, 6, 24, 8]);
}
