//! Runs of `trial`, and words that are none. The texts come from another program, which solves each basis afresh.

use super::run_plain;
use crate::tests::{lines, words};
use pami_edge::{MemoryShelf, MemorySink};
use std::alloc::Global;
use std::process::Abort;
use std::test::Fail;

/// These words over a shelf with no files: the status's number and what was written.
fn ran(alloc: Global, texts: &[&str]) -> Result<(u8, Vec<u8>), Fail> {
    let mut shelf = MemoryShelf::new(alloc, 64, &[])?;
    let mut out = MemorySink::new(alloc, 4096, 4096, &[])?;
    let words = words(alloc, texts)?;
    let status = run_plain(alloc, words.as_slice(), &mut shelf, &mut out);
    Ok((status.code(), out.bytes().to_vec(alloc)?))
}

/// Is each of these trials answered with its summary?
fn are_told(rt: &impl Abort, alloc: Global, rows: &[([&str; 3], &str)]) -> Result<(), Fail> {
    for ([seed, sources, sinks], text) in rows {
        let (code, written) = ran(alloc, &["trial", seed, sources, sinks])?;
        assert_eq!(rt; code, 0);
        assert!(rt;
            written.as_slice() == lines(alloc, text)?.as_slice(),
            "text of {text}"
        );
    }
    Ok(())
}

/// Leading zeros aren't told; seeds count modulo 65536.
#[test]
fn trials_are_summed_up(rt: HostRuntime) -> Result<(), Fail> {
    are_told(
        &rt,
        rt.alloc(),
        &[
            (
                ["1", "1", "1"],
                "trial 1 1 1|answer optimal objective 702|pivots 1 majors 1 flips 0 rollbacks 0|",
            ),
            (
                ["0", "1", "1"],
                "trial 0 1 1|answer optimal objective 752|pivots 1 majors 1 flips 0 rollbacks 0|",
            ),
            (
                ["7", "2", "3"],
                "trial 7 2 3|answer optimal objective 3441|pivots 3 majors 1 flips 1 rollbacks 0|",
            ),
            (
                ["3", "2", "2"],
                "trial 3 2 2|answer optimal objective 3472|pivots 2 majors 1 flips 1 rollbacks 0|",
            ),
            (
                ["4294967295", "3", "2"],
                "trial 4294967295 3 2|answer optimal objective 2106|pivots 3 majors 2 flips 2 rollbacks 0|",
            ),
            (
                ["65537", "1", "1"],
                "trial 65537 1 1|answer optimal objective 702|pivots 1 majors 1 flips 0 rollbacks 0|",
            ),
            (
                ["9", "1", "4"],
                "trial 9 1 4|answer optimal objective 7523|pivots 4 majors 1 flips 0 rollbacks 0|",
            ),
            (
                ["0000000005", "04", "001"],
                "trial 5 4 1|answer optimal objective 1053|pivots 1 majors 1 flips 3 rollbacks 0|",
            ),
        ],
    )
}

/// A trial reads no file, and a failed write ends it.
#[test]
fn trials_read_nothing(rt: HostRuntime) -> Result<(), Fail> {
    let alloc = rt.alloc();
    let mut shelf = MemoryShelf::new(alloc, 64, &[1])?;
    let mut out = MemorySink::new(alloc, 4096, 8, &[3])?;
    let words = words(alloc, &["trial", "1", "1", "1"])?;
    let status = run_plain(alloc, words.as_slice(), &mut shelf, &mut out);
    assert_eq!(rt; status.code(), 5);
    assert!(rt; out.bytes() == lines(alloc, "trial 1 1 1|answ")?.as_slice());
    Ok(())
}

/// Words that ask for no run: no file, a batch of nine rows, a limit twice, workers, ranges with a value or twice, and trials with
/// options or out of their ranges.
#[test]
fn bad_words_have_no_run(rt: HostRuntime) -> Result<(), Fail> {
    let alloc = rt.alloc();
    let bad = lines(alloc, "bad words|")?;
    let rows: [&[&str]; 16] = [
        &[],
        &["solve"],
        &["solve", "m.lp", "--batch", "9"],
        &["solve", "m.lp", "--limit", "3", "--limit", "3"],
        &["solve", "m.lp", "--workers", "2"],
        &["solve", "m.lp", "--ranging", "--ranging"],
        &["solve", "m.lp", "--ranging=yes"],
        &["check", "m.lp", "c", "--ranging"],
        &["trial", "1", "1"],
        &["trial", "1", "1", "1", "1"],
        &["trial", "1", "1", "65"],
        &["trial", "1", "0", "1"],
        &["trial", "4294967296", "1", "1"],
        &["trial", "1", "1", "1", "--ranging"],
        &["trial", "1", "1", "1", "--limit=5"],
        &["trial", "1", "1", "1", "--workers", "1"],
    ];
    for texts in rows {
        let (code, written) = ran(alloc, texts)?;
        assert_eq!(rt; code, 2);
        assert!(rt; written.as_slice() == bad.as_slice());
    }
    Ok(())
}
