//! Texts at a limit and one past it.

use crate::read_mps;
use crate::tests::fault_of;
use pami_model::{BYTE_LIMIT, FileFault, FileKind};
use std::alloc::{AllocError, Global};
use std::test::*;

/// A line of each number below `count`, between `front` and `back`.
fn add_lines(
    alloc: Global,
    out: &mut Vec<u8>,
    front: &str,
    count: u32,
    back: &str,
) -> Result<(), AllocError> {
    for i in 0..count {
        let line = format!(in alloc; "{front}{i}{back}\n")?;
        out.extend_from_slice(line.as_bytes())?;
    }
    Ok(())
}

/// A text of as many rows and columns, each column with an entry of 1 in each row.
fn full_text(alloc: Global, rows: u32, columns: u32) -> Result<Vec<u8>, AllocError> {
    let mut out = b"ROWS\n".to_vec(alloc)?;
    add_lines(alloc, &mut out, " L r", rows, "")?;
    out.extend_from_slice(b"COLUMNS\n")?;
    for j in 0..columns {
        let column = format!(in alloc; " x{j} r")?;
        add_lines(alloc, &mut out, column.as_str(), rows, " 1")?;
    }
    out.extend_from_slice(b"ENDATA\n")?;
    Ok(out)
}

#[test]
fn counts_at_their_limits(rt: HostRuntime) -> Result<(), Fail> {
    let alloc = rt.alloc();
    for (rows, columns, fault) in [
        (256, 1, None),
        (
            257,
            1,
            Some(FileFault {
                line: 258,
                kind: FileKind::TooManyRows,
            }),
        ),
        (
            300,
            0,
            Some(FileFault {
                line: 258,
                kind: FileKind::TooManyRows,
            }),
        ),
        (1, 4096, None),
        (
            1,
            4097,
            Some(FileFault {
                line: 4100,
                kind: FileKind::TooManyColumns,
            }),
        ),
        (
            2,
            4097,
            Some(FileFault {
                line: 8197,
                kind: FileKind::TooManyColumns,
            }),
        ),
        (256, 256, None),
        (
            256,
            257,
            Some(FileFault {
                line: 65795,
                kind: FileKind::TooManyEntries,
            }),
        ),
        (
            128,
            513,
            Some(FileFault {
                line: 65667,
                kind: FileKind::TooManyEntries,
            }),
        ),
    ] {
        let text = full_text(alloc, rows, columns)?;
        let found = fault_of(read_mps(alloc, text.as_slice()));
        assert_eq!(rt; found, fault, "{rows} rows, {columns} columns");
    }
    Ok(())
}

#[test]
fn names_at_their_limit(rt: HostRuntime) -> Result<(), Fail> {
    let alloc = rt.alloc();
    for (front, back, line) in [
        ("ROWS\n N ", "\nCOLUMNS\nENDATA\n", 2),
        ("ROWS\n N c\n E ", "\nCOLUMNS\nENDATA\n", 3),
        ("ROWS\n N c\nCOLUMNS\n ", " c 1\nENDATA\n", 4),
    ] {
        for length in [255, 256] {
            let mut text = front.as_bytes().to_vec(alloc)?;
            for _ in 0..length {
                text.push(b'n')?;
            }
            text.extend_from_slice(back.as_bytes())?;
            let found = fault_of(read_mps(alloc, text.as_slice()));
            if length == 255 {
                assert_eq!(rt; found, None, "{front}");
            } else {
                assert_eq!(rt;
                    found,
                    Some(FileFault {
                        line,
                        kind: FileKind::NameLong
                    }),
                    "{front}"
                );
            }
        }
    }
    Ok(())
}

#[test]
fn bytes_at_their_limit(rt: HostRuntime) -> Result<(), Fail> {
    let alloc = rt.alloc();
    let mut text = Vec::new(alloc);
    for _ in 0..BYTE_LIMIT {
        text.push(b'*')?;
    }
    let found = fault_of(read_mps(alloc, text.as_slice()));
    assert_eq!(rt;
        found,
        Some(FileFault {
            line: 2,
            kind: FileKind::EndMissing
        })
    );
    text.push(b'\n')?;
    let found = fault_of(read_mps(alloc, text.as_slice()));
    assert_eq!(rt;
        found,
        Some(FileFault {
            line: 0,
            kind: FileKind::TooLong
        })
    );
    Ok(())
}
