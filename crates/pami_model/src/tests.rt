//! A builder's answers, each compared: names, entries, settings and the finished model; and what readers share.

use crate::{
    BuildFault, Builder, Crossed, FileKind, Model, Sense, What, file_fault, one_first_fault,
    read_limit, read_number,
};
use pami_frac::{BoundValue, Bounds, Entry, Fault, Frac};
use std::test::Fail;

/// A whole number, for those that the tests use.
fn whole(number: i128) -> Frac {
    match Frac::new(number, 1) {
        Ok(value) => value,
        Err(_) => Frac::zero(),
    }
}

fn between(low: i128, high: i128) -> Bounds {
    Bounds {
        low: Some(whole(low)),
        high: Some(whole(high)),
    }
}

fn free() -> Bounds {
    Bounds {
        low: None,
        high: None,
    }
}

/// The answer with its named refusal; `None` where memory ran out.
fn told<T: Drop, E: Drop>(answer: Result<T, Fault<E>>) -> Result<T, Option<E>> {
    match answer {
        Ok(value) => Ok(value),
        Err(Fault::Named(refusal)) => Err(Some(refusal)),
        Err(Fault::OutOfMemory) => Err(None),
    }
}

const LONG: [u8; 256] = [b'n'; 256];

#[test]
fn names_are_judged(rt: HostRuntime) -> Result<(), Fail> {
    let mut builder = Builder::new(rt.alloc()).ok().ok_or("a builder")?;
    let rows = [
        (b"a".as_slice(), Ok(0)),
        (b"b".as_slice(), Ok(1)),
        (
            b"a".as_slice(),
            Err(Some(BuildFault::DuplicateRow { earlier: 0 })),
        ),
        (b"".as_slice(), Ok(2)),
        (&LONG[..255], Ok(3)),
        (LONG.as_slice(), Err(Some(BuildFault::NameTooLong))),
        (
            &LONG[..255],
            Err(Some(BuildFault::DuplicateRow { earlier: 3 })),
        ),
        (b"B".as_slice(), Ok(4)),
    ];
    for (name, wanted) in rows {
        assert_eq!(rt; told(builder.add_row(name, free())), wanted);
    }
    let columns = [
        (b"a".as_slice(), Ok(0)),
        (LONG.as_slice(), Err(Some(BuildFault::NameTooLong))),
        (b"c".as_slice(), Ok(1)),
        (
            b"c".as_slice(),
            Err(Some(BuildFault::DuplicateColumn { earlier: 1 })),
        ),
        (&LONG[..255], Ok(2)),
    ];
    for (name, wanted) in columns {
        assert_eq!(rt; told(builder.add_column(name)), wanted);
    }
    assert_eq!(rt; (builder.row_count(), builder.column_count()), (5, 3));
    assert_eq!(rt; builder.find_row(b"b".as_slice()), Some(1));
    assert_eq!(rt; builder.find_row(b"c".as_slice()), None);
    assert_eq!(rt; builder.find_row(&LONG[..255]), Some(3));
    assert_eq!(rt; builder.find_column(b"c".as_slice()), Some(1));
    assert_eq!(rt; builder.find_column(b"b".as_slice()), None);
    Ok(())
}

#[test]
fn rows_are_limited(rt: HostRuntime) -> Result<(), Fail> {
    let mut builder = Builder::new(rt.alloc()).ok().ok_or("a builder")?;
    for i in 0..256_u32 {
        let name = [(i % 256) as u8];
        assert_eq!(rt; told(builder.add_row(name.as_slice(), free())), Ok(i));
    }
    let full = BuildFault::TooMany {
        what: What::Rows,
        limit: 256,
    };
    let cases = [
        (LONG.as_slice(), BuildFault::NameTooLong),
        ([7].as_slice(), BuildFault::DuplicateRow { earlier: 7 }),
        (b"aa".as_slice(), full),
    ];
    for (name, wanted) in cases {
        assert_eq!(rt; told(builder.add_row(name, free())), Err(Some(wanted)));
    }
    assert_eq!(rt; told(builder.add_column(b"aa".as_slice())), Ok(0));
    Ok(())
}

/// Two rows and two columns.
fn square(rt: &HostRuntime) -> Result<Builder, Fail> {
    let mut builder = Builder::new(rt.alloc()).ok().ok_or("a builder")?;
    for name in [b"one".as_slice(), b"two".as_slice(), b"three".as_slice()] {
        builder.add_row(name, between(0, 1)).ok().ok_or("a row")?;
    }
    for name in [b"x".as_slice(), b"y".as_slice()] {
        builder.add_column(name).ok().ok_or("a column")?;
    }
    Ok(builder)
}

fn finished(builder: Builder) -> Result<Model, Fail> {
    Ok(told(builder.finish()).ok().ok_or("a model")?)
}

#[test]
fn entries_are_sorted(rt: HostRuntime) -> Result<(), Fail> {
    let mut builder = square(&rt)?;
    let twice = BuildFault::DuplicateEntry { column: 0, row: 2 };
    let steps = [
        (0, 2, 5, Ok(())),
        (0, 0, 0, Ok(())),
        (0, 1, -7, Ok(())),
        (0, 2, 5, Err(Some(twice))),
        (0, 2, 0, Err(Some(twice))),
        (
            0,
            0,
            3,
            Err(Some(BuildFault::DuplicateEntry { column: 0, row: 0 })),
        ),
        (
            0,
            0,
            0,
            Err(Some(BuildFault::DuplicateEntry { column: 0, row: 0 })),
        ),
        (1, 0, 2, Ok(())),
    ];
    for (column, row, value, wanted) in steps {
        assert!(rt; column < builder.column_count());
        assert!(rt; row < builder.row_count());
        assert_eq!(rt; told(builder.add_entry(column, row, whole(value))), wanted);
    }
    let model = finished(builder)?;
    let x = [
        Entry {
            place: 1,
            value: whole(-7),
        },
        Entry {
            place: 2,
            value: whole(5),
        },
    ];
    let y = [Entry {
        place: 0,
        value: whole(2),
    }];
    let columns = model.columns.as_slice();
    assert!(rt; columns.len() == 2);
    assert_eq!(rt; columns[0].entries.as_slice(), x.as_slice());
    assert_eq!(rt; columns[1].entries.as_slice(), y.as_slice());
    Ok(())
}

#[test]
fn settings_are_kept(rt: HostRuntime) -> Result<(), Fail> {
    let mut builder = square(&rt)?;
    assert!(rt; builder.row_count() == 3);
    assert!(rt; builder.column_count() == 2);
    builder.set_row_bounds(1, between(-3, 4));
    builder.set_column_bounds(1, free());
    builder.set_cost(1, whole(9));
    builder.set_goal(Sense::Max, whole(8));
    let model = finished(builder)?;
    assert_eq!(rt; model.sense, Sense::Max);
    assert_eq!(rt; model.constant, whole(8));
    let rows = model.rows.as_slice();
    assert!(rt; rows.len() == 3);
    assert_eq!(rt; rows[0].name.as_slice(), b"one".as_slice());
    assert_eq!(rt;
        (rows[0].bounds, rows[1].bounds),
        (between(0, 1), between(-3, 4))
    );
    let columns = model.columns.as_slice();
    assert!(rt; columns.len() == 2);
    assert_eq!(rt; columns[1].name.as_slice(), b"y".as_slice());
    assert_eq!(rt;
        (columns[0].cost, columns[1].cost),
        (Frac::zero(), whole(9))
    );
    assert_eq!(rt;
        columns[0].bounds,
        Bounds {
            low: Some(Frac::zero()),
            high: None
        }
    );
    assert_eq!(rt; columns[1].bounds, free());
    Ok(())
}

#[test]
fn first_crossed(rt: HostRuntime) -> Result<(), Fail> {
    let cases = [
        (between(2, 1), between(2, 1), Some(Crossed::Row(1))),
        (between(1, 1), between(0, -1), Some(Crossed::Column(1))),
        (between(1, 1), between(0, 0), None),
        (
            Bounds {
                low: Some(whole(3)),
                high: None,
            },
            free(),
            None,
        ),
    ];
    for (row, column, wanted) in cases {
        let mut builder = square(&rt)?;
        assert!(rt; builder.row_count() == 3);
        assert!(rt; builder.column_count() == 2);
        builder.set_row_bounds(1, row);
        builder.set_column_bounds(1, column);
        let found = match told(builder.finish()) {
            Ok(_) => None,
            Err(crossed) => crossed,
        };
        assert_eq!(rt; found, wanted);
    }
    Ok(())
}

#[test]
fn readers_share(rt: HostRuntime) -> Result<(), Fail> {
    let numbers = [
        (b"-12".as_slice(), Ok(whole(-12))),
        (b"twelve".as_slice(), Err(Some(FileKind::Number))),
        (b"1e40".as_slice(), Err(Some(FileKind::Wide))),
    ];
    for (word, wanted) in numbers {
        assert_eq!(rt; told(read_number(word)), wanted);
    }
    let limits = [
        (b"-12".as_slice(), Ok(BoundValue::Finite(whole(-12)))),
        (b"-1e20".as_slice(), Ok(BoundValue::Minus)),
        (b"Inf".as_slice(), Ok(BoundValue::Plus)),
        (b"none".as_slice(), Err(Some(FileKind::Number))),
        (b"1e-40".as_slice(), Err(Some(FileKind::Wide))),
    ];
    for (word, wanted) in limits {
        assert_eq!(rt; told(read_limit(word)), wanted);
    }
    let full = BuildFault::TooMany {
        what: What::Entries,
        limit: 65536,
    };
    let refusals = [
        (BuildFault::NameTooLong, FileKind::NameLong),
        (
            BuildFault::DuplicateRow { earlier: 3 },
            FileKind::DuplicateRow,
        ),
        (full, FileKind::TooManyEntries),
    ];
    for (refusal, wanted) in refusals {
        let answer: Result<(), Fault<FileKind>> = Err(file_fault(Fault::Named(refusal)));
        assert_eq!(rt; told(answer), Err(Some(wanted)));
    }
    one_first_fault();
    Ok(())
}
