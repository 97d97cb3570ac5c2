//! One text read whole, its cuts, and first faults of every kind with their lines, worked out from the format.

use crate::read_lp;
use pami_frac::{Bounds, Fault, Frac};
use pami_model::{FileKind, Sense};
use std::alloc::{AllocError, Global};
use std::process::Abort;
use std::test::Fail;

const TEXT: &[u8] =
    b"max\n obj: 3e1 x + 3 e1\nst\n 2 <= x + y <= 8 \\ ranged\n c2: x + x - y >= \\ note\n   -4\nbounds\n e1 <= 6\n y free\nend\n";

static BLANKS: [u8; 4096] = [b' '; 4096];

fn whole(number: i128) -> Frac {
    match Frac::new(number, 1) {
        Ok(value) => value,
        Err(_) => Frac::zero(),
    }
}

fn between(low: i128, high: i128) -> Bounds {
    Bounds {
        low: Some(whole(low)),
        high: Some(whole(high)),
    }
}

#[test]
fn one_text_is_read(rt: HostRuntime) -> Result<(), Fail> {
    let model = read_lp(rt.alloc(), TEXT)
        .ok()
        .ok_or("the text has a model")?;
    assert_eq!(rt; model.sense, Sense::Max);
    let rows = model.rows.as_slice();
    let columns = model.columns.as_slice();
    assert_eq!(rt; rows.len(), 2);
    assert_eq!(rt; columns.len(), 3);
    assert!(rt; rows[0].name.as_slice() == b"R1".as_slice());
    assert_eq!(rt; rows[0].bounds, between(2, 8));
    assert!(rt; rows[1].bounds.low == Some(whole(-4)) && rows[1].bounds.high == None);
    assert_eq!(rt; columns[0].cost, whole(30));
    assert!(rt; columns[1].name.as_slice() == b"e1".as_slice());
    assert_eq!(rt; columns[1].cost, whole(3));
    assert_eq!(rt; columns[1].bounds, between(0, 6));
    assert!(rt; columns[2].bounds.low == None && columns[2].bounds.high == None);
    let entries = columns[0].entries.as_slice();
    assert_eq!(rt; entries.len(), 2);
    assert_eq!(rt; entries[1].value, whole(2));
    let entries = columns[2].entries.as_slice();
    assert_eq!(rt; entries.len(), 2);
    assert_eq!(rt; entries[1].value, whole(-1));
    Ok(())
}

fn expect_fault<R: Abort + AllocGlobal>(rt: &R, text: &[u8], line: u32, kind: FileKind) {
    match read_lp(rt.alloc(), text) {
        Err(Fault::Named(fault)) => {
            assert_eq!(rt; fault.kind, kind);
            assert_eq!(rt; fault.line, line);
        }
        _ => panic!(rt; "a fault was due"),
    }
}

/// The kind and the line of the first fault of the text's first `count` bytes, which are fewer than those up to `end`.
fn fault_of_cut(count: usize, lines: u32) -> (u32, FileKind) {
    match count {
        1 => (1, FileKind::Syntax),
        2 => (1, FileKind::Syntax),
        24 => (3, FileKind::Syntax),
        103 => (9, FileKind::Syntax),
        104 => (9, FileKind::Syntax),
        105 => (9, FileKind::Syntax),
        _ => (lines, FileKind::EndMissing),
    }
}

#[test]
fn cuts(rt: HostRuntime) {
    let mut lines: u32 = 1;
    let mut begun = false;
    for (i, byte) in TEXT.iter().enumerate() {
        if i < 110 {
            let behind = if begun { lines.wrapping_add(1) } else { lines };
            let (line, kind) = fault_of_cut(i, behind);
            expect_fault(&rt, &TEXT[..i], line, kind);
        } else {
            assert!(rt; read_lp(rt.alloc(), &TEXT[..i]).is_ok());
        }
        begun = *byte != b'\n';
        if !begun {
            lines = lines.wrapping_add(1);
        }
    }
}

#[test]
fn first_faults(rt: HostRuntime) {
    let texts = [
        (b"min\n x ^ 2\nst\nend\n".as_slice(), 2, FileKind::Byte),
        (b"min x\nst\n x [ <= 1\nend\n".as_slice(), 3, FileKind::Byte),
        (b".x\n".as_slice(), 1, FileKind::Byte),
        (
            b"min x\nst\n x >= 1\r2\nend\n".as_slice(),
            3,
            FileKind::Byte,
        ),
        (b"min x\nbounds\n".as_slice(), 2, FileKind::Order),
        (b"st\nend\n".as_slice(), 1, FileKind::Order),
        (
            b"min x\nst\n x >= 1\nmax\nend\n".as_slice(),
            4,
            FileKind::Order,
        ),
        (
            b"min x\nst\n x + \nsubject to\n".as_slice(),
            4,
            FileKind::Order,
        ),
        (b"x\nst\nend\n".as_slice(), 1, FileKind::Syntax),
        (b"min x y\nst\nend\n".as_slice(), 1, FileKind::Syntax),
        (
            b"min x\nst\n x +\n <= 1\nend\n".as_slice(),
            4,
            FileKind::Syntax,
        ),
        (
            b"min x\nst\n 2 <= x\n >= 1\nend\n".as_slice(),
            4,
            FileKind::Syntax,
        ),
        (
            b"min x\nst\n 1 = x = 1\nend\n".as_slice(),
            3,
            FileKind::Syntax,
        ),
        (
            b"min x\nst\ngeneral\n x\nend\n".as_slice(),
            3,
            FileKind::Integer,
        ),
        (b"min x +\nbin\n".as_slice(), 2, FileKind::Integer),
        (b"int\n".as_slice(), 1, FileKind::Integer),
        (
            b"min x\nst\n c: x <= 1\n c: x\n <= 2\nend\n".as_slice(),
            5,
            FileKind::DuplicateRow,
        ),
        (
            b"min x\nst\n x <= 1\n R1: x <= 2\nend\n".as_slice(),
            4,
            FileKind::DuplicateRow,
        ),
        (
            b"min x\nst\n R2: x <= 1\n 1 <=\n x\nend\n".as_slice(),
            5,
            FileKind::DuplicateRow,
        ),
        (b"min 1e39 x\nst\nend\n".as_slice(), 1, FileKind::Wide),
        (
            b"min x\nst\n x <=\n 1e-39\nend\n".as_slice(),
            4,
            FileKind::Wide,
        ),
        (
            b"min x\nst\n x + 1e50 y\n <= 3\nend\n".as_slice(),
            3,
            FileKind::Wide,
        ),
        (
            b"min 170141183460469231731687303715884105727 x\n + x\nst\nend\n".as_slice(),
            2,
            FileKind::Wide,
        ),
        (
            b"min x\nst\n x >=\n inf\nend\n".as_slice(),
            4,
            FileKind::Infinite,
        ),
        (
            b"min x\nst\n x = 1e20\nend\n".as_slice(),
            3,
            FileKind::Infinite,
        ),
        (
            b"min x\nst\n 1e50\n <= x\nend\n".as_slice(),
            3,
            FileKind::Infinite,
        ),
        (
            b"min x\nst\nbounds\n x <= - infinity\nend\n".as_slice(),
            4,
            FileKind::Infinite,
        ),
        (
            b"min x\nst\n 3 <= x <= 2\nend\n".as_slice(),
            3,
            FileKind::Crossed,
        ),
        (
            b"min x\nst\n 2 >= x >=\n 3\nend\n".as_slice(),
            4,
            FileKind::Crossed,
        ),
        (
            b"min x\nst\nbounds\n x <= 1\n x >= 2\nend\n".as_slice(),
            6,
            FileKind::Crossed,
        ),
        (b"".as_slice(), 1, FileKind::EndMissing),
        (b"min x\nst\n x <= 2\n".as_slice(), 4, FileKind::EndMissing),
        (b"min x\nst\n 2 <= x +".as_slice(), 4, FileKind::EndMissing),
        (
            b"max\n obj: 3e1 x\nst\n 2 <= x\nbounds\n x free\ngeneral\n".as_slice(),
            7,
            FileKind::Integer,
        ),
    ];
    for (text, line, kind) in texts {
        expect_fault(&rt, text, line, kind);
    }
}

/// A text with this piece so many times in its middle.
fn repeated(
    alloc: Global,
    head: &[u8],
    piece: &[u8],
    count: u32,
    tail: &[u8],
) -> Result<Vec<u8>, AllocError> {
    let mut text = Vec::from_slice(alloc, head)?;
    for _ in 0..count {
        text.extend_from_slice(piece)?;
    }
    text.extend_from_slice(tail)?;
    Ok(text)
}

#[test]
fn limits(rt: HostRuntime) -> Result<(), Fail> {
    let texts = [
        (
            b"min\n ".as_slice(),
            b"n".as_slice(),
            256,
            b"\nst\nend\n".as_slice(),
            2,
            FileKind::NameLong,
        ),
        (
            b"min\n ",
            b"n",
            256,
            b": x\nst\nend\n",
            2,
            FileKind::NameLong,
        ),
        (
            b"min x\nst\n ",
            b"n",
            256,
            b": x\n >= 1\nend\n",
            4,
            FileKind::NameLong,
        ),
        (
            b"min x\nst\n",
            b" x >= 1\n",
            257,
            b"end\n",
            259,
            FileKind::TooManyRows,
        ),
        (
            b"min x\nst\n",
            b" 1 <= x\n",
            257,
            b"end\n",
            259,
            FileKind::TooManyRows,
        ),
        (
            b"min x\nst\n",
            b" x >= 1 ",
            257,
            b"\nend\n",
            3,
            FileKind::TooManyRows,
        ),
        (b"", &BLANKS, 4097, b"", 0, FileKind::TooLong),
        (
            b"min x\nst\nend\n",
            &BLANKS,
            4096,
            b"",
            0,
            FileKind::TooLong,
        ),
        (b"^", &BLANKS, 4096, b"\nmin", 0, FileKind::TooLong),
    ];
    for (head, piece, count, tail, line, kind) in texts {
        let text = repeated(rt.alloc(), head, piece, count, tail)?;
        expect_fault(&rt, text.as_slice(), line, kind);
    }
    Ok(())
}

/// Pieces with the names of so many columns, four letters each, between what stands around a name.
fn named(alloc: Global, before: &[u8], count: u32, after: &[u8]) -> Result<Vec<u8>, AllocError> {
    let mut text = Vec::new(alloc);
    for i in 0..count {
        text.extend_from_slice(before)?;
        text.push(b'a' + (i / 4096 % 16) as u8)?;
        text.push(b'a' + (i / 256 % 16) as u8)?;
        text.push(b'a' + (i / 16 % 16) as u8)?;
        text.push(b'a' + (i % 16) as u8)?;
        text.extend_from_slice(after)?;
    }
    Ok(text)
}

#[test]
fn counts(rt: HostRuntime) -> Result<(), Fail> {
    let texts = [
        (
            b"min\n".as_slice(),
            b"+ ".as_slice(),
            4097,
            b"\n".as_slice(),
            b"st\nend\n".as_slice(),
            4098,
        ),
        (b"min\nst\n", b"+", 4097, b" ", b">= 1\nend\n", 3),
        (b"min\nst\nbounds\n", b"", 4097, b" free\n", b"end\n", 4100),
    ];
    for (head, before, count, after, tail, line) in texts {
        let names = named(rt.alloc(), before, count, after)?;
        let text = repeated(rt.alloc(), head, names.as_slice(), 1, tail)?;
        expect_fault(&rt, text.as_slice(), line, FileKind::TooManyColumns);
    }
    let row = named(rt.alloc(), b"+", 4096, b" ")?;
    let texts = [
        (
            b"\n".as_slice(),
            b" >= 1".as_slice(),
            b"\n+ aaaa >=\n 1\nend\n".as_slice(),
            20,
        ),
        (b"\n 1 <=", b"", b"\n x: aaaa <= 1\nend\n", 19),
        (b" ", b" = 1 ", b"2 <= aaaa <= 3\nend\n", 2),
    ];
    for (before, after, tail, line) in texts {
        let first = repeated(rt.alloc(), before, row.as_slice(), 1, after)?;
        let text = repeated(rt.alloc(), b"min\nst", first.as_slice(), 16, tail)?;
        expect_fault(&rt, text.as_slice(), line, FileKind::TooManyEntries);
    }
    Ok(())
}
