//! Runs of `check` over files in memory. Every expected text and status is worked out from the format by hand.

ghost use Rattle.std.specs.Prelude.{◌<◌};

use super::run_plain;
use crate::tests::{lines, word, words};
use pami_edge::{MemoryShelf, MemorySink};
use std::alloc::Global;
use std::process::Abort;
use std::test::Fail;

/// These words over these files, of which each call of the shelf gives at most so many bytes, and the calls with these
/// numbers fail: the status's number and what was written.
fn ran(
    alloc: Global,
    asked: &[&str],
    most: u32,
    failing: &[u64],
    files: &[(&str, &str)],
) -> Result<(u8, Vec<u8>), Fail>
    requires { 0 < most }
{
    let mut shelf = MemoryShelf::new(alloc, most, failing)?;
    for (name, text) in files {
        shelf.add(alloc, word(alloc, name)?, lines(alloc, text)?.as_slice())?;
    }
    let mut out = MemorySink::new(alloc, 1 << 20, 1 << 20, &[])?;
    let words = words(alloc, asked)?;
    let status = run_plain(alloc, words.as_slice(), &mut shelf, &mut out);
    Ok((status.code(), out.bytes().to_vec(alloc)?))
}

/// Is each of these certificates answered with its status and its text, against this LP file?
fn are_judged(
    rt: &impl Abort,
    alloc: Global,
    file: &str,
    rows: &[(&str, u8, &str)],
) -> Result<(), Fail> {
    for (cert, status, text) in rows {
        let files = [("m.lp", file), ("c", *cert)];
        let (code, written) = ran(alloc, &["check", "m.lp", "c"], 1 << 20, &[], &files)?;
        assert_eq!(rt; code, *status, "status of {cert}");
        assert!(rt;
            written.as_slice() == lines(alloc, text)?.as_slice(),
            "text of {cert}"
        );
    }
    Ok(())
}

const FOUR: &str = "min| x|st| c1: x >= 4|bounds| x <= 4|end|";

const FOUR_TEXT: &str =
    "pami 1|model 1 1 1|phase 2|major 1 full 0|pivot 1 0 r:c1 L x:x 1|answer optimal|certificate 1 optimal|objective 4|x x 4 0|r c1 4 1|end|basis B L|";

#[test]
fn judges_certificates(rt: HostRuntime) -> Result<(), Fail> {
    are_judged(
        &rt,
        rt.alloc(),
        FOUR,
        &[
            (FOUR_TEXT, 0, "valid|"),
            (
                "certificate 1 optimal|objective wide|x x 4 0|r c1 4 1|end|",
                0,
                "valid|",
            ),
            // 1 - (-1) 1 is 2, which asks for x at its lower bound.
            (
                "certificate 1 optimal|objective 4|x x 4 2|r c1 4 -1|end|",
                20,
                "invalid sign x:x|",
            ),
            (
                "certificate 1 optimal|objective 5|x x 4 0|r c1 4 1|end|",
                20,
                "invalid objective -|",
            ),
            (
                "certificate 1 optimal|objective 4|x x 4 0|r c1 5 1|end|",
                20,
                "invalid row r:c1|",
            ),
            // The least value is 4 - 4.
            (
                "certificate 1 infeasible|r c1 1|end|",
                20,
                "invalid positive -|",
            ),
            (
                "certificate 1 infeasible|r c1 -1|end|",
                20,
                "invalid finite r:c1|",
            ),
            (
                "certificate 1 dual-infeasible|x x 1|r c1 1|end|",
                20,
                "invalid bound x:x|",
            ),
        ],
    )
}

#[test]
fn tells_where_a_text_is_no_certificate(rt: HostRuntime) -> Result<(), Fail> {
    are_judged(
        &rt,
        rt.alloc(),
        FOUR,
        &[
            ("", 22, "malformed 1 none|"),
            (FOUR, 22, "malformed 8 none|"),
            ("certificate 1 best|", 22, "malformed 1 word|"),
            (
                "certificate 1 optimal|objective 4|x z 4 0|r c1 4 1|end|",
                22,
                "malformed 3 name|",
            ),
            (
                "certificate 1 optimal|objective 4|x x 8/2 0|r c1 4 1|end|",
                22,
                "malformed 3 number|",
            ),
            (
                "answer optimal|certificate 1 optimal|objective 4|x x 4 0|",
                22,
                "malformed 5 end-missing|",
            ),
        ],
    )
}

#[test]
fn judges_other_answers(rt: HostRuntime) -> Result<(), Fail> {
    let alloc = rt.alloc();
    // The least value is 5 - 1 - 2.
    are_judged(
        &rt,
        alloc,
        "min| x + y|st| c1: x + y >= 5|bounds| x <= 1| y <= 2|end|",
        &[(
            "pami 1|model 1 2 2|phase 2|major 1 full 0|none 0 r:c1|answer infeasible|certificate 1 infeasible|r c1 1|end|",
            0,
            "valid|",
        )],
    )?;
    are_judged(
        &rt,
        alloc,
        "max| x|st| c1: x - y <= 1|bounds| y free|end|",
        &[
            (
                "certificate 1 dual-infeasible|x x 1|x y 1|r c1 0|end|",
                0,
                "valid|",
            ),
            (
                "certificate 1 dual-infeasible|x x 0|x y 0|r c1 0|end|",
                20,
                "invalid cost -|",
            ),
        ],
    )?;
    are_judged(
        &rt,
        alloc,
        "min| x|st| c1: 10 x >= 100| c2: 1e-38 x >= 1e-38|end|",
        &[(
            "certificate 1 optimal|objective wide|x x 170141183460469231731687303715884105727 0|r c1 0 0|r c2 0 0|end|",
            21,
            "unchecked row r:c1 mul 10 170141183460469231731687303715884105727|",
        )],
    )
}

/// FILE is judged before CERT is opened, and CERT is read in no format.
#[test]
fn asks_for_file_and_then_for_cert(rt: HostRuntime) -> Result<(), Fail> {
    let alloc = rt.alloc();
    let rows: [(&[&str], u8, &str); 9] = [
        (&["check", "m.lp", "c"], 0, "valid|"),
        (&["check", "m", "c.lp", "--format", "lp"], 0, "valid|"),
        (&["check", "c", "m.lp"], 3, "refused 1 section|"),
        (&["check", "m.lp", "m.lp"], 22, "malformed 8 none|"),
        (&["check", "m.lp", "none"], 4, "read fault|"),
        (&["check", "none", "c"], 4, "read fault|"),
        (&["check", "cut.lp", "none"], 3, "refused 3 end-missing|"),
        (&["check", "wide.lp", "none"], 3, "refused 0 width x:x|"),
        (&["check", "m.lp"], 2, "bad words|"),
    ];
    for (asked, status, text) in rows {
        let files = [
            ("m.lp", FOUR),
            ("m", FOUR),
            ("c", FOUR_TEXT),
            ("c.lp", FOUR_TEXT),
            ("cut.lp", "min|x|"),
            // 10^19 - 10^-38 has 57 digits above its fraction bar.
            ("wide.lp", "min|x|st|bounds|1e-38 <= x <= 1e19|end|"),
        ];
        let (code, written) = ran(alloc, asked, 1 << 20, &[], &files)?;
        assert_eq!(rt; code, status, "status of {text}");
        assert!(rt; written.as_slice() == lines(alloc, text)?.as_slice());
    }
    Ok(())
}

/// The file has 42 bytes and is taken in one call, whose second one finds its end.
#[test]
fn counts_the_faults_of_both_files(rt: HostRuntime) -> Result<(), Fail> {
    let alloc = rt.alloc();
    let rows: [(u32, &[u64], u8, &str); 7] = [
        (4096, &[], 0, "valid|"),
        (1, &[], 0, "valid|"),
        (4096, &[1], 4, "read fault|"),
        (4096, &[2], 4, "read fault|"),
        (4096, &[3], 4, "read fault|"),
        (4096, &[4], 4, "read fault|"),
        (4096, &[5], 0, "valid|"),
    ];
    for (most, failing, status, text) in rows {
        let files = [("m.lp", FOUR), ("c", FOUR_TEXT)];
        let (code, written) = ran(alloc, &["check", "m.lp", "c"], most, failing, &files)?;
        assert_eq!(rt; code, status, "take {most}");
        assert!(rt; written.as_slice() == lines(alloc, text)?.as_slice());
    }
    Ok(())
}
