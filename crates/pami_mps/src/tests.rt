//! Texts of models: what each section gives, and the values that the format works out.

use super::*;
use pami_frac::{Bounds, Entry, Fault, Frac};
use pami_model::{FileFault, Model, Sense};
use std::alloc::{AllocError, Global};
use std::test::*;

/// A text whose lines end at each `|`.
pub(crate) fn lines(alloc: Global, text: &str) -> Result<Vec<u8>, AllocError> {
    let mut out = Vec::new(alloc);
    for byte in text.as_bytes() {
        out.push(if *byte == b'|' { b'\n' } else { *byte })?;
    }
    Ok(out)
}

/// The first fault of a text, where it is refused.
pub(crate) fn fault_of(read: Result<Model, Fault<FileFault>>) -> Option<FileFault> {
    match read {
        Err(Fault::Named(fault)) => Some(fault),
        Err(Fault::OutOfMemory) => None,
        Ok(_) => None,
    }
}

fn whole(n: i128) -> Option<Frac> {
    Frac::new(n, 1).ok()
}

fn is_within(bounds: Bounds, low: Option<i128>, high: Option<i128>) -> bool {
    bounds.low == low.and_then(whole) && bounds.high == high.and_then(whole)
}

const WORKED: &str =
    "NAME T|ROWS| N COST| E e1| E e2| L l1|COLUMNS| a COST 1 e1 1| a e2 1 l1 1| b l1 1|RHS| e1 10 e2 10| l1 7|RANGES| RNG e1 -4 e2 0|BOUNDS| UP BND a -3| MI b|ENDATA";

#[test]
fn one_model_of_each_section(rt: HostRuntime) -> Result<(), Fail> {
    let text = lines(rt.alloc(), WORKED)?;
    let model = read_mps(rt.alloc(), text.as_slice())
        .ok()
        .ok_or("the text has a model")?;
    let rows = model.rows.as_slice();
    let columns = model.columns.as_slice();
    assert_eq!(rt; model.sense, Sense::Min);
    assert_eq!(rt; model.constant, Frac::zero());
    assert_eq!(rt; rows.len(), 3);
    assert_eq!(rt; columns.len(), 2);
    assert!(rt; rows[0].name.as_slice() == b"e1".as_slice());
    assert!(rt; is_within(rows[0].bounds, Some(6), Some(10)));
    assert!(rt; is_within(rows[1].bounds, Some(10), Some(10)));
    assert!(rt; is_within(rows[2].bounds, None, Some(7)));
    assert_eq!(rt; Some(columns[0].cost), whole(1));
    assert!(rt; is_within(columns[0].bounds, None, Some(-3)));
    assert_eq!(rt; columns[0].entries.as_slice().len(), 3);
    assert!(rt; columns[1].name.as_slice() == b"b".as_slice());
    assert_eq!(rt; columns[1].cost, Frac::zero());
    assert!(rt; is_within(columns[1].bounds, None, None));
    Ok(())
}

const ORDERED: &str =
    "* entries by row, the sense on its own line|OBJSENSE| MAX|ROWS| N cost| N other| E a| L b|COLUMNS| x b 3 other 9| x a 2 other 8|\ty cost -1|RHS| set cost 7 b 4| set other inf| other 1|ENDATA|\0 rest";

#[test]
fn objective_and_order(rt: HostRuntime) -> Result<(), Fail> {
    let text = lines(rt.alloc(), ORDERED)?;
    let model = read_mps(rt.alloc(), text.as_slice())
        .ok()
        .ok_or("the text has a model")?;
    let rows = model.rows.as_slice();
    let columns = model.columns.as_slice();
    assert_eq!(rt; model.sense, Sense::Max);
    assert_eq!(rt; Some(model.constant), whole(-7));
    assert_eq!(rt; rows.len(), 2);
    assert_eq!(rt; columns.len(), 2);
    assert!(rt; is_within(rows[0].bounds, Some(0), Some(0)));
    assert!(rt; is_within(rows[1].bounds, None, Some(4)));
    assert_eq!(rt; Some(columns[1].cost), whole(-1));
    let entries = columns[0].entries.as_slice();
    assert_eq!(rt; entries.len(), 2);
    assert_eq!(rt;
        entries[0],
        Entry {
            place: 0,
            value: whole(2).ok_or("2")?
        }
    );
    assert_eq!(rt;
        entries[1],
        Entry {
            place: 1,
            value: whole(3).ok_or("3")?
        }
    );
    Ok(())
}

/// The row r of this type by its right-hand side and its range: low, high.
#[test]
fn sides_of_rows(rt: HostRuntime) -> Result<(), Fail> {
    for (text, low, high) in [
        ("ROWS| L r|COLUMNS|RHS| r 5|ENDATA|", None, Some(5)),
        ("ROWS| G r|COLUMNS|RHS| r 5|ENDATA|", Some(5), None),
        ("ROWS| E r|COLUMNS|RHS| r 5|ENDATA|", Some(5), Some(5)),
        (
            "ROWS| L r|COLUMNS|RHS| r 5|RANGES| r 2|ENDATA|",
            Some(3),
            Some(5),
        ),
        (
            "ROWS| L r|COLUMNS|RHS| r 5|RANGES| r -2|ENDATA|",
            Some(3),
            Some(5),
        ),
        (
            "ROWS| G r|COLUMNS|RHS| r 5|RANGES| r 2|ENDATA|",
            Some(5),
            Some(7),
        ),
        (
            "ROWS| G r|COLUMNS|RHS| r 5|RANGES| r -2|ENDATA|",
            Some(5),
            Some(7),
        ),
        (
            "ROWS| E r|COLUMNS|RHS| r 5|RANGES| r 2|ENDATA|",
            Some(5),
            Some(7),
        ),
        (
            "ROWS| E r|COLUMNS|RHS| r 5|RANGES| r -2|ENDATA|",
            Some(3),
            Some(5),
        ),
        (
            "ROWS| E r|COLUMNS|RHS| r 5|RANGES| r 0|ENDATA|",
            Some(5),
            Some(5),
        ),
        ("ROWS| L r|COLUMNS|RANGES| r 4|ENDATA|", Some(-4), Some(0)),
        // An infinite range; a right-hand side that is no bound; a computed side that stays finite.
        ("ROWS| L r|COLUMNS|RANGES| r -inf|ENDATA|", None, Some(0)),
        (
            "ROWS| G r|COLUMNS|RANGES| r -Infinity|ENDATA|",
            Some(0),
            None,
        ),
        ("ROWS| E r|COLUMNS|RANGES| r 1e20|ENDATA|", Some(0), None),
        ("ROWS| E r|COLUMNS|RANGES| r -1e20|ENDATA|", None, Some(0)),
        ("ROWS| L r|COLUMNS|RHS| r INF|ENDATA|", None, None),
        ("ROWS| G r|COLUMNS|RHS| r -1e99|ENDATA|", None, None),
        (
            "ROWS| G r|COLUMNS|RHS| r 9e19|RANGES| r 9e19|ENDATA|",
            Some(90_000_000_000_000_000_000),
            Some(180_000_000_000_000_000_000),
        ),
    ] {
        let bytes = lines(rt.alloc(), text)?;
        let model = read_mps(rt.alloc(), bytes.as_slice())
            .ok()
            .ok_or("the text has a model")?;
        let rows = model.rows.as_slice();
        assert_eq!(rt; rows.len(), 1);
        assert!(rt; is_within(rows[0].bounds, low, high), "{text}");
    }
    Ok(())
}

/// The column x behind its lines of BOUNDS: low, high.
#[test]
fn bounds_of_columns(rt: HostRuntime) -> Result<(), Fail> {
    for (limits, low, high) in [
        ("", Some(0), None),
        (" UP B x 4|", Some(0), Some(4)),
        (" UP x 0|", Some(0), Some(0)),
        (" UP x -1|", None, Some(-1)),
        (" LO x 0| UP x 4| UP x -1| LO x -2|", Some(-2), Some(-1)),
        (" UP x -1| UP x 4|", None, Some(4)),
        (" MI x| UP x -1|", None, Some(-1)),
        (" FR x| LO x 3|", Some(3), None),
        (" FX x -3| UP x -1|", Some(-3), Some(-1)),
        (" PL x| UP x -1|", None, Some(-1)),
        (" FX B x 3|", Some(3), Some(3)),
        (" FX x 3| PL x|", Some(3), None),
        (" LO x -inf| UP B x 1e20|", None, None),
        (" UP x 5| UP x INFINITY|", Some(0), None),
        (" MI B x 7| UP x 5|", None, Some(5)),
    ] {
        let mut bytes = lines(rt.alloc(), "ROWS| N c|COLUMNS| x c 1|BOUNDS|")?;
        bytes.extend_from_slice(lines(rt.alloc(), limits)?.as_slice())?;
        bytes.extend_from_slice(b"ENDATA")?;
        let model = read_mps(rt.alloc(), bytes.as_slice())
            .ok()
            .ok_or("the text has a model")?;
        let columns = model.columns.as_slice();
        assert_eq!(rt; columns.len(), 1);
        assert!(rt; is_within(columns[0].bounds, low, high), "{limits}");
    }
    Ok(())
}

/// Texts of models that stand at the edge of a rule.
#[test]
fn taken_texts(rt: HostRuntime) -> Result<(), Fail> {
    for text in [
        "ROWS|COLUMNS|ENDATA",
        "NAME|ROWS|COLUMNS|ENDATA",
        "NAME one two three|OBJSENSE MINIMIZE|ROWS| N c|COLUMNS|ENDATA",
        "OBJSENSE|* a comment|   |\t MAXIMIZE|ROWS| N c|COLUMNS|ENDATA",
        "NAME\r|ROWS\r| N\tc\r|COLUMNS\r|\tx  c\t1 \r|ENDATA\r|",
        "ROWS| N kosten-ü| L größe|COLUMNS| λ größe 1 kosten-ü 2|ENDATA",
        "ROWS| N c|COLUMNS| x c 1|RHS|RANGES|BOUNDS|ENDATA|ROWS|",
        "ROWS| L r|COLUMNS| x r 0| y r 1e20|ENDATA|",
        "ROWS| L r|COLUMNS| 'MARKER' r 1|ENDATA|",
    ] {
        let bytes = lines(rt.alloc(), text)?;
        assert!(rt; read_mps(rt.alloc(), bytes.as_slice()).is_ok(), "{text}");
    }
    Ok(())
}
