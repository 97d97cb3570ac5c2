//! Texts with a fault: the line, and what is wrong there first.

use crate::read_mps;
use crate::tests::{fault_of, lines};
use pami_model::{FileFault, FileKind};
use std::alloc::Global;
use std::process::Abort;
use std::test::*;

/// Whether each text is refused with this line and this kind.
fn refused(rt: &impl Abort, alloc: Global, rows: &[(&str, u32, FileKind)]) -> Result<(), Fail> {
    for (text, line, kind) in rows {
        let bytes = lines(alloc, text)?;
        let found = fault_of(read_mps(alloc, bytes.as_slice()));
        assert_eq!(rt;
            found,
            Some(FileFault {
                line: *line,
                kind: *kind
            }),
            "{text}"
        );
    }
    Ok(())
}

#[test]
fn bytes_sections_and_their_order(rt: HostRuntime) -> Result<(), Fail> {
    refused(
        &rt,
        rt.alloc(),
        [
            ("ROWS| N c\0|", 2, FileKind::Byte),
            ("* rung \x07|ROWS|", 1, FileKind::Byte),
            ("ROWS\x7f|", 1, FileKind::Byte),
            ("ROWS| N c|COLUMNS| x c 1|ENDATA\r", 5, FileKind::Byte),
            (" \x0b |ROWS|", 1, FileKind::Byte),
            ("ROWS| X c c \x01|", 2, FileKind::Byte),
            ("ROW|", 1, FileKind::Section),
            ("ROWS| N c|rhs|", 3, FileKind::Section),
            ("OBJSENSE|MAX|", 2, FileKind::Section),
            ("ROWS|COLUMNS|SOS1|", 3, FileKind::Section),
            (" N c|", 1, FileKind::Order),
            ("NAME T| N c|", 2, FileKind::Order),
            ("OBJSENSE MAX| MIN|", 2, FileKind::Order),
            ("COLUMNS|", 1, FileKind::Order),
            ("ROWS| N c|ENDATA|", 3, FileKind::Order),
            ("ROWS| N c|RHS|", 3, FileKind::Order),
            ("ROWS|ROWS|", 2, FileKind::Order),
            ("ROWS|NAME|", 2, FileKind::Order),
            ("ROWS|OBJSENSE MAX|", 2, FileKind::Order),
            ("OBJSENSE|ROWS|", 2, FileKind::Order),
            ("OBJSENSE|OBJSENSE MAX|", 2, FileKind::Order),
            ("ROWS|COLUMNS|BOUNDS|RANGES more|", 4, FileKind::Order),
            ("ROWS|COLUMNS|RANGES|RHS|", 4, FileKind::Order),
            ("OBJSENSE max|", 1, FileKind::Sense),
            ("OBJSENSE|| MAXI|", 3, FileKind::Sense),
        ]
        .as_slice(),
    )
}

#[test]
fn counts_of_words(rt: HostRuntime) -> Result<(), Fail> {
    refused(
        &rt,
        rt.alloc(),
        [
            ("ROWS now|", 1, FileKind::Words),
            ("OBJSENSE MAX now|", 1, FileKind::Words),
            ("OBJSENSE| MAX now|", 2, FileKind::Words),
            ("ROWS| X|", 2, FileKind::Words),
            ("ROWS| N c d|", 2, FileKind::Words),
            ("ROWS| N c|COLUMNS| x c|", 4, FileKind::Words),
            ("ROWS| N c|COLUMNS| x q 1 c|", 4, FileKind::Words),
            ("ROWS| N c|COLUMNS| x c 1 c 1 c|", 4, FileKind::Words),
            ("ROWS| N c|COLUMNS|RHS| c|", 5, FileKind::Words),
            ("ROWS| N c|COLUMNS|RHS| s c 1 c 1 c|", 5, FileKind::Words),
            ("ROWS| N c|COLUMNS|RANGES| q|", 5, FileKind::Words),
            (
                "ROWS| N c|COLUMNS|RANGES| s q 1 q 1 q 1|",
                5,
                FileKind::Words,
            ),
            ("ROWS|COLUMNS|BOUNDS| XX|", 4, FileKind::Words),
            ("ROWS|COLUMNS|BOUNDS| UP x|", 4, FileKind::Words),
            ("ROWS|COLUMNS|BOUNDS| UP B x 1 1|", 4, FileKind::Words),
            ("ROWS|COLUMNS|BOUNDS| MI|", 4, FileKind::Words),
            ("ROWS|COLUMNS|BOUNDS| FR B x 1 1|", 4, FileKind::Words),
            ("ROWS|COLUMNS|BOUNDS| BV B x 1 1|", 4, FileKind::Words),
            ("ROWS|COLUMNS|ENDATA now|", 3, FileKind::Words),
        ]
        .as_slice(),
    )
}

#[test]
fn types_and_names(rt: HostRuntime) -> Result<(), Fail> {
    refused(
        &rt,
        rt.alloc(),
        [
            ("ROWS| X c|", 2, FileKind::RowType),
            ("ROWS| N c| l r|", 3, FileKind::RowType),
            ("ROWS|COLUMNS|BOUNDS| XX x|", 4, FileKind::BoundType),
            ("ROWS|COLUMNS|BOUNDS| up B x 1|", 4, FileKind::BoundType),
            (
                "ROWS| N c|COLUMNS| M 'MARKER' 'INTORG'|",
                4,
                FileKind::Integer,
            ),
            (
                "ROWS| N c|COLUMNS| x c 1| x 'MARKER' 1|",
                5,
                FileKind::Integer,
            ),
            ("ROWS|COLUMNS|BOUNDS| BV x|", 4, FileKind::Integer),
            ("ROWS|COLUMNS|BOUNDS| LI B x 1|", 4, FileKind::Integer),
            ("ROWS|COLUMNS|BOUNDS| UI x 1|", 4, FileKind::Integer),
            ("ROWS|COLUMNS|BOUNDS| SC x 1|", 4, FileKind::Integer),
            ("ROWS|COLUMNS|BOUNDS| SI x 1|", 4, FileKind::Integer),
            ("ROWS| N c| N c|", 3, FileKind::DuplicateRow),
            ("ROWS| L a| N a|", 3, FileKind::DuplicateRow),
            ("ROWS| N a| L a|", 3, FileKind::DuplicateRow),
            ("ROWS| L a| G a|", 3, FileKind::DuplicateRow),
            (
                "ROWS| N c|COLUMNS| x c 1| y c 1| x q 1|",
                6,
                FileKind::DuplicateColumn,
            ),
            (
                "ROWS| N c|COLUMNS| x c 1| y c 1| x 'MARKER' 1|",
                6,
                FileKind::DuplicateColumn,
            ),
            ("ROWS| N c|COLUMNS| x c 0 c 0|", 4, FileKind::DuplicateEntry),
            (
                "ROWS| L r|COLUMNS| x r 0| x r 1|",
                5,
                FileKind::DuplicateEntry,
            ),
            (
                "ROWS| L r|COLUMNS|RHS| r 0| s r 0|",
                6,
                FileKind::DuplicateEntry,
            ),
            (
                "ROWS| N c|COLUMNS|RHS| c 1 c 1|",
                5,
                FileKind::DuplicateEntry,
            ),
            (
                "ROWS| E r|COLUMNS|RHS| r 1 r inf|",
                5,
                FileKind::DuplicateEntry,
            ),
            (
                "ROWS| L r|COLUMNS|RANGES| r 1 r 2|",
                5,
                FileKind::DuplicateEntry,
            ),
            ("ROWS| L r|COLUMNS| x q 1z|", 4, FileKind::UnknownRow),
            ("ROWS| L r|COLUMNS|RHS| r 1 R 1|", 5, FileKind::UnknownRow),
            ("ROWS| L r|COLUMNS|RANGES| q z|", 5, FileKind::UnknownRow),
            ("ROWS|COLUMNS|BOUNDS| UP x z|", 4, FileKind::UnknownColumn),
            (
                "ROWS| L r|COLUMNS|BOUNDS| FR r|",
                5,
                FileKind::UnknownColumn,
            ),
        ]
        .as_slice(),
    )
}

#[test]
fn numbers_and_bounds(rt: HostRuntime) -> Result<(), Fail> {
    refused(
        &rt,
        rt.alloc(),
        [
            ("ROWS| L r|COLUMNS| x r 1z|", 4, FileKind::Number),
            ("ROWS| N c| N d|COLUMNS| x d one|", 5, FileKind::Number),
            ("ROWS| L r|COLUMNS| x r inf|", 4, FileKind::Number),
            ("ROWS| N c|COLUMNS|RHS| c inf|", 5, FileKind::Number),
            ("ROWS| L r|COLUMNS|RHS| r infinite|", 5, FileKind::Number),
            ("ROWS| L r|COLUMNS|RANGES| r --1|", 5, FileKind::Number),
            (
                "ROWS| N c|COLUMNS| x c 1|BOUNDS| UP x 1e|",
                6,
                FileKind::Number,
            ),
            ("ROWS| L r|COLUMNS| x r 1e50|", 4, FileKind::Wide),
            ("ROWS| N c| N d|COLUMNS|RHS| d 1e-39|", 6, FileKind::Wide),
            ("ROWS| N c|COLUMNS|RHS| c 1e50|", 5, FileKind::Wide),
            (
                "ROWS| L r|COLUMNS|RHS| r 1e-38|RANGES| r 1e19|",
                7,
                FileKind::Wide,
            ),
            (
                "ROWS| N c|COLUMNS| x c 1|BOUNDS| LO x 1e-39|",
                6,
                FileKind::Wide,
            ),
            ("ROWS| E r|COLUMNS|RHS| r inf|", 5, FileKind::Infinite),
            ("ROWS| G r|COLUMNS|RHS| r 1e20|", 5, FileKind::Infinite),
            ("ROWS| L r|COLUMNS|RHS| r -Inf|", 5, FileKind::Infinite),
            (
                "ROWS| L r|COLUMNS|RHS| r inf|RANGES| r 1|",
                7,
                FileKind::Infinite,
            ),
            (
                "ROWS| N c|COLUMNS| x c 1|BOUNDS| UP x -inf|",
                6,
                FileKind::Infinite,
            ),
            (
                "ROWS| N c|COLUMNS| x c 1|BOUNDS| LO x 1e20|",
                6,
                FileKind::Infinite,
            ),
            (
                "ROWS| N c|COLUMNS| x c 1|BOUNDS| FX x -1e20|",
                6,
                FileKind::Infinite,
            ),
            ("ROWS| N c|COLUMNS|RANGES| c z|", 5, FileKind::RangeOnN),
            (
                "ROWS| N c| N d| L r|COLUMNS|RANGES| r 1 d 1|",
                7,
                FileKind::RangeOnN,
            ),
            (
                "ROWS| N c|COLUMNS| x c 1|BOUNDS| LO x 0| UP x -1||ENDATA|",
                9,
                FileKind::Crossed,
            ),
            (
                "ROWS| N c|COLUMNS| x c 1|BOUNDS| FX x 1| UP x 0|ENDATA",
                8,
                FileKind::Crossed,
            ),
            ("", 1, FileKind::EndMissing),
            ("NAME", 2, FileKind::EndMissing),
            ("OBJSENSE||", 3, FileKind::EndMissing),
        ]
        .as_slice(),
    )
}

const WHOLE: &str =
    "NAME T|OBJSENSE| MAX|ROWS| N c| E r| L s|COLUMNS| x c 1 r 2| x s 1|RHS| r 4 s 5|RANGES| r 1|BOUNDS| UP x 3|";

/// A text that is cut behind any of its lines has no end.
#[test]
fn cut_texts(rt: HostRuntime) -> Result<(), Fail> {
    let bytes = lines(rt.alloc(), WHOLE)?;
    let mut line = 1u32;
    for (i, byte) in bytes.as_slice().iter().enumerate() {
        if *byte == b'\n' {
            line = line.saturating_add(1);
            let found = fault_of(read_mps(rt.alloc(), &bytes.as_slice()[..i]));
            assert_eq!(rt;
                found,
                Some(FileFault {
                    line,
                    kind: FileKind::EndMissing
                })
            );
        }
    }
    assert_eq!(rt; line, 17);
    Ok(())
}
