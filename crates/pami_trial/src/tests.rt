//! A trial's numbers, worked by hand, and its names.

use crate::draws::Draws;
use crate::trial_model;
use pami_frac::{Bounds, Entry, Frac, OutOfMemory};
use pami_model::Sense;
use std::alloc::Global;
use std::test::Fail;

/// The caller that the crate's head shows.
fn counts(alloc: Global, seed: u32) -> Result<(usize, usize), OutOfMemory> {
    let model = trial_model(alloc, seed, 20, 30)?;
    Ok((model.rows.as_slice().len(), model.columns.as_slice().len()))
}

#[test]
fn a_caller_counts(rt: HostRuntime) -> Result<(), Fail> {
    let counts = counts(rt.alloc(), 7).ok().ok_or("a model")?;
    assert_eq!(rt; counts, (50, 600));
    Ok(())
}

/// The first states of 1 are 39,022 and 61,087, with the upper twelve bits 2,438 and 3,817.
#[test]
fn draws_of_seeds(rt: HostRuntime) -> Result<(), Fail> {
    let mut draws = Draws::new(1);
    assert_eq!(rt; draws.below(50), 38);
    assert_eq!(rt; draws.below(100), 17);
    let mut same = Draws::new(65_537);
    assert_eq!(rt; same.below(50), 38);
    Ok(())
}

fn whole(number: i64) -> Option<Frac> {
    Some(Frac::whole(number))
}

/// The states of 5 are 8642, 44931, 41624, then 25233, 29246, 57519, 52788, 38237, 26618: demands 41, 9 and 2, of which each
/// of two sources supplies 26, and costs 78, 28, 95, 100, 90, 64.
#[test]
fn a_small_trial(rt: HostRuntime) -> Result<(), Fail> {
    let model = trial_model(rt.alloc(), 5, 2, 3).ok().ok_or("a model")?;
    assert_eq!(rt; model.sense, Sense::Min);
    assert_eq!(rt; model.constant, Frac::zero());
    let rows: [(&[u8], Option<Frac>, Option<Frac>); 5] = [
        (b"s1", None, whole(26)),
        (b"s2", None, whole(26)),
        (b"t1", whole(41), None),
        (b"t2", whole(9), None),
        (b"t3", whole(2), None),
    ];
    assert!(rt; model.rows.as_slice().len() == 5);
    for (i, row) in model.rows.as_slice().iter().enumerate() {
        let (name, low, high) = rows[i];
        assert_eq!(rt; row.name.as_slice(), name);
        assert_eq!(rt; row.bounds, Bounds { low, high });
    }
    let columns: [(&[u8], i64, u32, u32); 6] = [
        (b"x1_1", 78, 0, 2),
        (b"x1_2", 28, 0, 3),
        (b"x1_3", 95, 0, 4),
        (b"x2_1", 100, 1, 2),
        (b"x2_2", 90, 1, 3),
        (b"x2_3", 64, 1, 4),
    ];
    assert!(rt; model.columns.as_slice().len() == 6);
    for (i, column) in model.columns.as_slice().iter().enumerate() {
        let (name, cost, source, sink) = columns[i];
        let one = Frac::one();
        let entries = [
            Entry {
                place: source,
                value: one,
            },
            Entry {
                place: sink,
                value: one,
            },
        ];
        assert_eq!(rt; column.name.as_slice(), name);
        assert_eq!(rt; column.cost, Frac::whole(cost));
        assert_eq!(rt;
            column.bounds,
            Bounds {
                low: whole(0),
                high: whole(26)
            }
        );
        assert_eq!(rt; column.entries.as_slice(), entries.as_slice());
    }
    Ok(())
}

/// The greatest size, and the greatest seed.
#[test]
fn a_large_trial(rt: HostRuntime) -> Result<(), Fail> {
    let model = trial_model(rt.alloc(), 4_294_967_295, 64, 64)
        .ok()
        .ok_or("a model")?;
    let rows = model.rows.as_slice();
    let columns = model.columns.as_slice();
    assert!(rt; rows.len() == 128);
    assert!(rt; columns.len() == 4096);
    assert_eq!(rt; rows[127].name.as_slice(), b"t64".as_slice());
    assert_eq!(rt; columns[4095].name.as_slice(), b"x64_64".as_slice());
    Ok(())
}
