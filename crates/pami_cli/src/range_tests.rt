//! Runs with `--ranging` over files in memory. The small texts are worked out from the format by hand; that of the diet comes from
//! another program, which solves each basis afresh.

use super::run_plain;
use crate::tests::{lines, word, words};
use pami_edge::{MemoryShelf, MemorySink};
use std::alloc::Global;
use std::process::Abort;
use std::test::Fail;

/// `solve m.lp` with these words behind it, over a file of these bytes: the status's number and what was written.
fn ran(alloc: Global, more: &[&str], bytes: &[u8]) -> Result<(u8, Vec<u8>), Fail> {
    let mut shelf = MemoryShelf::new(alloc, 1 << 20, &[])?;
    shelf.add(alloc, word(alloc, "m.lp")?, bytes)?;
    let mut out = MemorySink::new(alloc, 1 << 20, 1 << 20, &[])?;
    let mut asked = words(alloc, &["solve", "m.lp"])?;
    for text in more {
        asked.push(word(alloc, text)?)?;
    }
    let status = run_plain(alloc, asked.as_slice(), &mut shelf, &mut out);
    Ok((status.code(), out.bytes().to_vec(alloc)?))
}

/// Is each of these files answered with its status and its text, with these words behind it?
fn are_answered(
    rt: &impl Abort,
    alloc: Global,
    more: &[&str],
    rows: &[(&str, u8, &str)],
) -> Result<(), Fail> {
    for (file, status, text) in rows {
        let (code, written) = ran(alloc, more, lines(alloc, file)?.as_slice())?;
        assert_eq!(rt; code, *status, "status of {file}");
        assert!(rt;
            written.as_slice() == lines(alloc, text)?.as_slice(),
            "text of {file}"
        );
    }
    Ok(())
}

/// An end that doesn't fit; a maximum, whose intervals of costs are in the file's own sense; a free column at 0 beside a fixed row;
/// no rows.
#[test]
fn ranges_stand_behind_the_basis(rt: HostRuntime) -> Result<(), Fail> {
    are_answered(
        &rt,
        rt.alloc(),
        &["--ranging"],
        &[
            (
                "min| 0 x + 0 y + 0 z + 0 w|st| c1: x + y - z + 1e-38 w >= 2|end|",
                0,
                "pami 1|model 1 4 4|phase 2|major 1 full 0|pivot 1 0 r:c1 L x:x 0|answer optimal|certificate 1 optimal|objective 0|x x 2 0|x y 0 0|x z 0 0|x w 0 0|r c1 2 0|end|basis BLLL L|range cost x 0 0|range cost y 0 inf|range cost z 0 inf|range cost w 0 inf|range bound x:y -inf 2|range bound x:z -2 inf|range bound x:w -inf wide|range bound r:c1 0 inf|",
            ),
            (
                "max| 3 x + 2 y|st| a: x + y <= 4| b: x + 3 y <= 6|bounds| x <= 3|end|",
                0,
                "pami 1|model 2 2 4|phase 1|major 1 full 1 0|pivot 1 1 r:b U x:y 2/3|drop 0|phase 2|answer optimal|certificate 1 optimal|objective 11|x x 3 -7/3|x y 1 0|r a 4 0|r b 6 -2/3|end|basis UB BU|range cost x 2/3 inf|range cost y 0 9|range bound x:x -inf 3|range bound r:b 3 6|",
            ),
            (
                "min| x|st| c1: x + y <= 3| c2: x - z = 1|bounds| z free| x >= 1|end|",
                0,
                "pami 1|model 2 3 4|phase 2|answer optimal|certificate 1 optimal|objective 1|x x 1 1|x y 0 0|x z 0 0|r c1 1 0|r c2 1 0|end|basis LLZ BB|range cost x 0 inf|range cost y 0 inf|range cost z 0 0|range bound x:x 1 1|range bound x:y -inf 2|",
            ),
            (
                "min| x|st|end|",
                0,
                "pami 1|model 0 1 0|phase 2|answer optimal|certificate 1 optimal|objective 0|x x 0 1|end|basis L -|range cost x 0 inf|range bound x:x -inf inf|",
            ),
        ],
    )
}

const DIET: &str =
    "min| cost: 3 oats + 24 fish + 13 eggs + 9 milk + 20 pie + 19 beans|st| energy: 110 oats + 205 fish + 160 eggs + 160 milk + 420 pie + 260 beans >= 2000| protein: 4 oats + 32 fish + 13 eggs + 8 milk + 4 pie + 14 beans >= 55| calcium: 2 oats + 12 fish + 54 eggs + 285 milk + 22 pie + 80 beans >= 800|bounds| oats <= 4| fish <= 3| eggs <= 2| milk <= 8| pie <= 2| beans <= 2|end|";

/// The diet with and without its ranges, which change no other line.
#[test]
fn ranges_of_a_diet(rt: HostRuntime) -> Result<(), Fail> {
    let alloc = rt.alloc();
    let answer =
        "pami 1|model 3 6 18|phase 2|major 1 full 0 2 1|flip x:oats U|flip x:pie U|pivot 1 0 r:energy L x:milk 9/160|drop 2|drop 1|answer optimal|certificate 1 optimal|objective 185/2|x oats 4 -51/16|x fish 0 399/32|x eggs 0 4|x milk 9/2 0|x pie 2 -29/8|x beans 0 35/8|r energy 2000 9/160|r protein 60 0|r calcium 2669/2 0|end|basis ULLBUL LBB|";
    let ranges =
        "range cost oats -inf 99/16|range cost fish 369/32 inf|range cost eggs 9 inf|range cost milk 160/21 152/13|range cost pie -inf 189/8|range cost beans 117/8 inf|range bound x:oats -12/11 20964/3103|range bound x:fish -20/87 17104/11301|range bound x:eggs -1 1069/462|range bound x:pie 2/3 39/17|range bound x:beans -28/13 4276/3065|range bound r:energy 1900 2560|";
    let mut whole = lines(alloc, answer)?;
    let (code, written) = ran(alloc, &[], lines(alloc, DIET)?.as_slice())?;
    assert_eq!(rt; code, 0);
    assert!(rt; written.as_slice() == whole.as_slice());
    whole.extend_from_slice(lines(alloc, ranges)?.as_slice())?;
    let (code, written) = ran(alloc, &["--ranging"], lines(alloc, DIET)?.as_slice())?;
    assert_eq!(rt; code, 0);
    assert!(rt; written.as_slice() == whole.as_slice());
    Ok(())
}

/// No ranges behind any other answer.
#[test]
fn other_answers_have_no_ranges(rt: HostRuntime) -> Result<(), Fail> {
    let alloc = rt.alloc();
    are_answered(
        &rt,
        alloc,
        &["--ranging"],
        &[(
            "min| x + y|st| c1: x + y >= 5|bounds| x <= 1| y <= 2|end|",
            10,
            "pami 1|model 1 2 2|phase 2|major 1 full 0|none 0 r:c1|answer infeasible|certificate 1 infeasible|r c1 1|end|",
        )],
    )?;
    are_answered(
        &rt,
        alloc,
        &["--ranging", "--format=mps"],
        &[
            (
                "OBJSENSE MAX|ROWS| N c| L c1|COLUMNS| x c 1 c1 1| y c1 -1|RHS| c1 1|BOUNDS| FR y|ENDATA|",
                11,
                "pami 1|model 1 2 2|phase 1|major 1 full 0|pivot 1 0 r:c1 U x:y 0|answer dual-infeasible|certificate 1 dual-infeasible|x x 1|x y 1|r c1 0|end|",
            ),
            (
                "ROWS| L r|COLUMNS| x r 1e19| y r 1e19|BOUNDS| LO x 1e19| LO y 1e19|ENDATA|",
                13,
                "pami 1|model 1 2 2|answer overflow start add 100000000000000000000000000000000000000 100000000000000000000000000000000000000|",
            ),
            ("min| x|st|end|", 3, "refused 1 section|"),
        ],
    )?;
    are_answered(
        &rt,
        alloc,
        &["--limit", "0", "--ranging"],
        &[(
            "min| x + y|st| c1: x + y >= 2|end|",
            12,
            "pami 1|model 1 2 2|phase 2|answer limit 0|basis LL B|",
        )],
    )
}
