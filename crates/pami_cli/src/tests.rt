//! Runs over shelves and sinks in memory. Every expected text and status is worked out from the format by hand.

use super::run_plain;
use crate::solve::model_answer;
use crate::status::Status;
use crate::wish::Wish;
use pami_edge::{MemoryShelf, MemorySink, Word};
use pami_frac::{Bounds, Frac};
use pami_major::Options;
use pami_model::Builder;
use std::alloc::Global;
use std::process::Abort;
use std::test::Fail;

/// A file with a line feed for each bar.
pub(crate) fn lines(alloc: Global, text: &str) -> Result<Vec<u8>, Fail> {
    let mut bytes = Vec::new(alloc);
    for byte in text.as_bytes() {
        bytes.push(if *byte == b'|' { b'\n' } else { *byte })?;
    }
    Ok(bytes)
}

pub(crate) fn word(alloc: Global, text: &str) -> Result<Word, Fail> {
    Ok(Word::from_string(String::from_str(alloc, text)?))
}

pub(crate) fn words(alloc: Global, texts: &[&str]) -> Result<Vec<Word>, Fail> {
    let mut words = Vec::new(alloc);
    for text in texts {
        words.push(word(alloc, text)?)?;
    }
    Ok(words)
}

/// `solve m.mps` with these options, and this limit of pivots, or none given where it is empty, over a file of these bytes: the
/// status's number and what was written.
fn solved_with(
    alloc: Global,
    options: &[&str],
    limit: &str,
    bytes: &[u8],
) -> Result<(u8, Vec<u8>), Fail> {
    let mut shelf = MemoryShelf::new(alloc, 1 << 20, &[])?;
    shelf.add(alloc, word(alloc, "m.mps")?, bytes)?;
    let mut out = MemorySink::new(alloc, 1 << 20, 1 << 20, &[])?;
    let mut words = words(alloc, &["solve", "m.mps"])?;
    for option in options {
        words.push(word(alloc, option)?)?;
    }
    if !limit.is_empty() {
        words.push(word(alloc, "--limit")?)?;
        words.push(word(alloc, limit)?)?;
    }
    let status = run_plain(alloc, words.as_slice(), &mut shelf, &mut out);
    Ok((status.code(), out.bytes().to_vec(alloc)?))
}

/// The same without further options.
fn solved(alloc: Global, limit: &str, bytes: &[u8]) -> Result<(u8, Vec<u8>), Fail> {
    solved_with(alloc, &[], limit, bytes)
}

/// Is each of these files answered with its status and its text, with this limit of pivots?
fn are_answered(
    rt: &impl Abort,
    alloc: Global,
    limit: &str,
    rows: &[(&str, u8, &str)],
) -> Result<(), Fail> {
    for (file, status, text) in rows {
        let (code, written) = solved(alloc, limit, lines(alloc, file)?.as_slice())?;
        assert_eq!(rt; code, *status, "status of {file}");
        assert!(rt;
            written.as_slice() == lines(alloc, text)?.as_slice(),
            "text of {file}"
        );
    }
    Ok(())
}

const FIRST: &str = "NAME T|ROWS| N c| L c1| G c2|COLUMNS| x c 1 c1 2| x c2 1|RHS| c1 5|ENDATA|";

/// Where no pivot is allowed.
#[test]
fn answers_at_the_start(rt: HostRuntime) -> Result<(), Fail> {
    are_answered(
        &rt,
        rt.alloc(),
        "0",
        &[
            (
                FIRST,
                0,
                "pami 1|model 2 1 2|phase 2|answer optimal|certificate 1 optimal|objective 0|x x 0 1|r c1 0 0|r c2 0 0|end|basis L BB|",
            ),
            (
                "NAME T|ROWS| N c| L c1| G c2|COLUMNS| x c 1 c1 2| x c2 1|RHS| c1 5 c2 3|ENDATA|",
                12,
                "pami 1|model 2 1 2|phase 2|answer limit 0|basis L BB|",
            ),
            (
                "NAME T|ROWS| N c| L c1| G c2|COLUMNS| x c 1 c1 2| x c2 1|RHS| c1 5 c -7|ENDATA|",
                0,
                "pami 1|model 2 1 2|phase 2|answer optimal|certificate 1 optimal|objective 7|x x 0 1|r c1 0 0|r c2 0 0|end|basis L BB|",
            ),
            // A negative right-hand side of an L row leaves 0 out.
            (
                "ROWS| L r|COLUMNS| x r 1|RHS| r -1|ENDATA|",
                12,
                "pami 1|model 1 1 1|phase 2|answer limit 0|basis L B|",
            ),
            // No columns, no rows, long decimals and fractions.
            (
                "ROWS| N c|COLUMNS|ENDATA|",
                0,
                "pami 1|model 0 0 0|phase 2|answer optimal|certificate 1 optimal|objective 0|end|basis - -|",
            ),
            (
                "ROWS| N c| E e|COLUMNS| a c .25 e 1| b c 1e2|RHS| c 0.5|ENDATA|",
                0,
                "pami 1|model 1 2 1|phase 2|answer optimal|certificate 1 optimal|objective -1/2|x a 0 1/4|x b 0 100|r e 0 0|end|basis LL B|",
            ),
        ],
    )
}

/// Columns that don't start at 0: by their bounds, and a boxed one by its cost.
#[test]
fn starts_where_the_bounds_say(rt: HostRuntime) -> Result<(), Fail> {
    are_answered(
        &rt,
        rt.alloc(),
        "",
        &[
            // A free column at 0, one at its upper bound, a fixed one, one at its lower bound; a row between two sides.
            (
                "ROWS| N c| E e|COLUMNS| z e 1| u c -1 e 1| f c -2 e 1| l c 1|RHS| e 10|RANGES| e -4|BOUNDS| FR z| MI u| UP u 4| FX f 3| LO l -1|ENDATA|",
                0,
                "pami 1|model 1 4 3|phase 2|answer optimal|certificate 1 optimal|objective -11|x z 0 0|x u 4 -1|x f 3 -2|x l -1 1|r e 7 0|end|basis ZULL B|",
            ),
            // An upper bound below 0 takes the lower one away.
            (
                "ROWS| N c| L r|COLUMNS| x c -1 r 1|BOUNDS| UP x -3|ENDATA|",
                0,
                "pami 1|model 1 1 1|phase 2|answer optimal|certificate 1 optimal|objective 3|x x -3 -1|r r -3 0|end|basis U B|",
            ),
            // A maximum: reduced costs are those of the minimum, the objective is the file's own.
            (
                "OBJSENSE MAX|ROWS| N c| L r|COLUMNS| x c 2 r 1|RHS| r 3 c -1|BOUNDS| UP x 1|ENDATA|",
                0,
                "pami 1|model 1 1 1|phase 2|answer optimal|certificate 1 optimal|objective 3|x x 1 -2|r r 1 0|end|basis U B|",
            ),
            (
                "OBJSENSE| MAXIMIZE|ROWS| N c| L r|COLUMNS| x c 2 r 1|RHS| r 0.5|BOUNDS| UP x 1|ENDATA|",
                0,
                "pami 1|model 1 1 1|phase 2|major 1 full 0|pivot 1 0 r:r U x:x 2|answer optimal|certificate 1 optimal|objective 1|x x 1/2 0|r r 1/2 -2|end|basis B U|",
            ),
            // The objective's sum doesn't fit, but every value does.
            (
                "ROWS| N c|COLUMNS| x c 1e20|BOUNDS| LO x 1e19|ENDATA|",
                0,
                "pami 1|model 0 1 0|phase 2|answer optimal|certificate 1 optimal|objective wide|x x 10000000000000000000 100000000000000000000|end|basis L -|",
            ),
            // The starting values don't fit: a product, a sum.
            (
                "ROWS| N c| L r|COLUMNS| x c -1 r 1e20|BOUNDS| LO x 1e19|ENDATA|",
                13,
                "pami 1|model 1 1 1|answer overflow start mul 100000000000000000000 10000000000000000000|",
            ),
            (
                "ROWS| L r|COLUMNS| x r 1e19| y r 1e19|BOUNDS| LO x 1e19| LO y 1e19|ENDATA|",
                13,
                "pami 1|model 1 2 2|answer overflow start add 100000000000000000000000000000000000000 100000000000000000000000000000000000000|",
            ),
        ],
    )
}

const RISING: &str =
    "OBJSENSE MAX|ROWS| N c| L c1| L c2|COLUMNS| x c 1 c1 1| x c2 1|RHS| c1 3 c2 2|ENDATA|";

/// Starts that aren't dual feasible: phase one in the boxes, and phase two behind the switch.
#[test]
fn answers_behind_phase_one(rt: HostRuntime) -> Result<(), Fail> {
    let alloc = rt.alloc();
    are_answered(
        &rt,
        alloc,
        "",
        &[
            (
                "OBJSENSE MAX|ROWS| N c| L c1|COLUMNS| x c 1 c1 1|RHS| c1 3|ENDATA|",
                0,
                "pami 1|model 1 1 1|phase 1|major 1 full 0|pivot 1 0 r:c1 U x:x 1|phase 2|answer optimal|certificate 1 optimal|objective 3|x x 3 0|r c1 3 -1|end|basis B U|",
            ),
            (
                "NAME T|ROWS| N c| L c1| G c2|COLUMNS| x c -1 c1 2| x c2 1|RHS| c1 5|ENDATA|",
                0,
                "pami 1|model 2 1 2|phase 1|major 1 full 0|pivot 1 0 r:c1 U x:x 1/2|phase 2|answer optimal|certificate 1 optimal|objective -5/2|x x 5/2 0|r c1 5 -1/2|r c2 5/2 0|end|basis B UB|",
            ),
            // Pivots are counted and majors are numbered over both phases.
            (
                RISING,
                0,
                "pami 1|model 2 1 2|phase 1|major 1 full 0 1|pivot 1 0 r:c1 U x:x 1|drop 1|phase 2|major 2 full 1|pivot 2 1 r:c2 U r:c1 1|answer optimal|certificate 1 optimal|objective 2|x x 2 0|r c1 2 0|r c2 2 -1|end|basis B BU|",
            ),
            // A cost above 0 with no lower bound; behind the switch a, which is to be at most -3, is 6.
            (
                "NAME T|ROWS| N COST| E e1| E e2| L l1|COLUMNS| a COST 1 e1 1| a e2 1 l1 1| b l1 1|RHS| e1 10 e2 10| l1 7|RANGES| RNG e1 -4 e2 0|BOUNDS| UP BND a -3| MI b|ENDATA|",
                10,
                "pami 1|model 3 2 4|phase 1|major 1 full 0 1 2|pivot 1 0 r:e1 L x:a 1|drop 1|drop 2|phase 2|major 2 full 0 1|none 0 x:a|answer infeasible|certificate 1 infeasible|r e1 1|r e2 0|r l1 0|end|",
            ),
        ],
    )?;
    are_answered(
        &rt,
        alloc,
        "1",
        &[(
            RISING,
            12,
            "pami 1|model 2 1 2|phase 1|major 1 full 0 1|pivot 1 0 r:c1 U x:x 1|phase 2|answer limit 1|basis B UB|",
        )],
    )?;
    are_answered(
        &rt,
        alloc,
        "0",
        &[(
            RISING,
            12,
            "pami 1|model 2 1 2|phase 1|answer limit 0|basis U BB|",
        )],
    )
}

/// Runs that end in phase one or at the switch.
#[test]
fn costs_may_fall_without_end(rt: HostRuntime) -> Result<(), Fail> {
    are_answered(
        &rt,
        rt.alloc(),
        "",
        &[
            (
                "OBJSENSE MAX|ROWS| N c| L c1|COLUMNS| x c 1 c1 1| y c1 -1|RHS| c1 1|BOUNDS| FR y|ENDATA|",
                11,
                "pami 1|model 1 2 2|phase 1|major 1 full 0|pivot 1 0 r:c1 U x:y 0|answer dual-infeasible|certificate 1 dual-infeasible|x x 1|x y 1|r c1 0|end|",
            ),
            // A free column of cost, with no row.
            (
                "ROWS| N c|COLUMNS| x c 1|BOUNDS| FR x|ENDATA|",
                11,
                "pami 1|model 0 1 0|phase 1|answer dual-infeasible|certificate 1 dual-infeasible|x x -1|end|",
            ),
            // The starting values in the boxes don't fit: x and y are 1 there.
            (
                "ROWS| N c| L r|COLUMNS| x c -1 r 1e38| y c -1 r 1e38|ENDATA|",
                13,
                "pami 1|model 1 2 2|phase 1|answer overflow start add 100000000000000000000000000000000000000 100000000000000000000000000000000000000|",
            ),
            // Behind the switch x would be 9 times 10^38.
            (
                "ROWS| N c| L r|COLUMNS| x c -1 r 1e-19|RHS| r 9e19|ENDATA|",
                13,
                "pami 1|model 1 1 1|phase 1|major 1 full 0|pivot 1 0 r:r U x:x 10000000000000000000|phase 2|answer overflow switch div 90000000000000000000 1/10000000000000000000|",
            ),
        ],
    )
}

const FLIPPED: &str =
    "NAME T|ROWS| N c| G c1|COLUMNS| x c 1 c1 1| y c 2 c1 1|RHS| c1 3|BOUNDS| UP B x 1|ENDATA|";

/// Boxed columns that the ratio walk passes.
#[test]
fn flips_what_the_walk_passes(rt: HostRuntime) -> Result<(), Fail> {
    let alloc = rt.alloc();
    are_answered(
        &rt,
        alloc,
        "",
        &[
            (
                FLIPPED,
                0,
                "pami 1|model 1 2 2|phase 2|major 1 full 0|flip x:x U|pivot 1 0 r:c1 L x:y 2|answer optimal|certificate 1 optimal|objective 5|x x 1 -1|x y 2 0|r c1 3 2|end|basis UB L|",
            ),
            // Passed by rising ratio, down to the lower bound too.
            (
                "ROWS| N c| G r|COLUMNS| x c -2 r -1| y c 1 r 1| z c 3 r 1|RHS| r 4|BOUNDS| UP x 1| UP y 2|ENDATA|",
                0,
                "pami 1|model 1 3 3|phase 2|major 1 full 0|flip x:y U|flip x:x L|pivot 1 0 r:r L x:z 3|answer optimal|certificate 1 optimal|objective 8|x x 0 1|x y 2 -2|x z 2 0|r r 4 3|end|basis LUB L|",
            ),
            // The flip takes another row past its bound, so the column comes back into the basis.
            (
                "ROWS| N c| G g| L l|COLUMNS| x c 1 g 1| x l 1| y c 2 g 1|RHS| g 3 l 0.5|BOUNDS| UP x 1|ENDATA|",
                0,
                "pami 1|model 2 2 3|phase 2|major 1 full 0|flip x:x U|pivot 1 0 r:g L x:y 2|major 2 full 1|pivot 2 1 r:l U x:x 1|answer optimal|certificate 1 optimal|objective 11/2|x x 1/2 0|x y 5/2 0|r g 3 2|r l 1/2 -1|end|basis BB LU|",
            ),
            // All that may enter is passed: no point meets the row.
            (
                "ROWS| N c| G c1|COLUMNS| x c 1 c1 1| y c 1 c1 1|RHS| c1 5|BOUNDS| UP x 1| UP y 2|ENDATA|",
                10,
                "pami 1|model 1 2 2|phase 2|major 1 full 0|none 0 r:c1|answer infeasible|certificate 1 infeasible|r c1 1|end|",
            ),
            // Behind a flip the step doesn't fit; by how much a flip would move the row doesn't fit.
            (
                "ROWS| N c| G r|COLUMNS| x r 1| y c 1 r 1e-38|RHS| r 3|BOUNDS| UP x 1|ENDATA|",
                13,
                "pami 1|model 1 2 2|phase 2|rollback 1 step-1 div -2 -1/100000000000000000000000000000000000000|answer overflow step-1 div -2 -1/100000000000000000000000000000000000000|",
            ),
            (
                "ROWS| N c| G r|COLUMNS| x r 1e38|RHS| r 5|BOUNDS| UP x 10|ENDATA|",
                13,
                "pami 1|model 1 1 1|phase 2|rollback 1 ratio-1 mul 100000000000000000000000000000000000000 10|answer overflow ratio-1 mul 100000000000000000000000000000000000000 10|",
            ),
        ],
    )?;
    // The limit counts pivots, and no flip comes before it.
    are_answered(
        &rt,
        alloc,
        "0",
        &[(
            FLIPPED,
            12,
            "pami 1|model 1 2 2|phase 2|answer limit 0|basis LL B|",
        )],
    )
}

const TWO_ROWS: &str =
    "NAME T|ROWS| N c| G c1| G c2|COLUMNS| x c 1 c1 10| x c2 1|RHS| c1 40 c2 6|ENDATA|";

const SMALL_ENTRY: &str =
    "NAME T|ROWS| N c| G c1| G c2|COLUMNS| x c 1 c1 10| x c2 1e-38|RHS| c1 100 c2 1|ENDATA|";

/// Walks with pivots: each file, its limit where one is given, the status and the text.
#[test]
fn answers_behind_pivots(rt: HostRuntime) -> Result<(), Fail> {
    let alloc = rt.alloc();
    let rows = [
        (
            "NAME T|ROWS| N c| G c1|COLUMNS| x c 1 c1 1| y c 1 c1 1|RHS| c1 2|ENDATA|",
            "",
            0,
            "pami 1|model 1 2 2|phase 2|major 1 full 0|pivot 1 0 r:c1 L x:x 1|answer optimal|certificate 1 optimal|objective 2|x x 2 0|x y 0 0|r c1 2 1|end|basis BL L|",
        ),
        (
            "NAME T|ROWS| N c| G c1|COLUMNS| x c 1 c1 -1| y c 1 c1 -1|RHS| c1 2|ENDATA|",
            "",
            10,
            "pami 1|model 1 2 2|phase 2|major 1 full 0|none 0 r:c1|answer infeasible|certificate 1 infeasible|r c1 1|end|",
        ),
        (
            TWO_ROWS,
            "",
            0,
            "pami 1|model 2 1 2|phase 2|major 1 full 0 1|pivot 1 0 r:c1 L x:x 1/10|pivot 2 1 r:c2 L r:c1 1|answer optimal|certificate 1 optimal|objective 6|x x 6 0|r c1 60 0|r c2 6 1|end|basis B BL|",
        ),
        // The limit is met between two pivots, and with the last one it isn't.
        (
            TWO_ROWS,
            "1",
            12,
            "pami 1|model 2 1 2|phase 2|major 1 full 0 1|pivot 1 0 r:c1 L x:x 1/10|answer limit 1|basis B LB|",
        ),
        (
            TWO_ROWS,
            "2",
            0,
            "pami 1|model 2 1 2|phase 2|major 1 full 0 1|pivot 1 0 r:c1 L x:x 1/10|pivot 2 1 r:c2 L r:c1 1|answer optimal|certificate 1 optimal|objective 6|x x 6 0|r c1 60 0|r c2 6 1|end|basis B BL|",
        ),
        // An operation doesn't fit: a Full major is rolled back, and a Single one is kept, or ends the walk.
        (
            SMALL_ENTRY,
            "",
            13,
            "pami 1|model 2 1 2|phase 2|rollback 1 reach-1-1 div -1/100000000000000000000000000000000000000 -10|major 2 single 0|pivot 1 0 r:c1 L x:x 1/10|rollback 3 backward-1 div 1/100000000000000000000000000000000000000 -10|answer overflow factor div 1/100000000000000000000000000000000000000 10|",
        ),
        (
            SMALL_ENTRY,
            "1",
            12,
            "pami 1|model 2 1 2|phase 2|rollback 1 reach-1-1 div -1/100000000000000000000000000000000000000 -10|major 2 single 0|pivot 1 0 r:c1 L x:x 1/10|answer limit 1|basis B LB|",
        ),
        // A row leaves to its upper bound; two rows exclude each other behind a pivot.
        (
            "NAME T|ROWS| N c| E e| L l|COLUMNS| x c 2 e 3| x l 1| y c 1 e -1| y l 1|RHS| e -6 l 9|ENDATA|",
            "",
            0,
            "pami 1|model 2 2 4|phase 2|major 1 full 0|pivot 1 0 r:e U x:y 1|answer optimal|certificate 1 optimal|objective 6|x x 0 5|x y 6 0|r e -6 -1|r l 6 0|end|basis LB UB|",
        ),
        (
            "NAME T|ROWS| N c| L c1| G c2|COLUMNS| x c 1 c1 2| x c2 1|RHS| c1 5 c2 3|ENDATA|",
            "",
            10,
            "pami 1|model 2 1 2|phase 2|major 1 full 1|pivot 1 1 r:c2 L x:x 1|major 2 full 0|none 0 r:c1|answer infeasible|certificate 1 infeasible|r c1 -1|r c2 2|end|",
        ),
    ];
    for (file, limit, status, text) in rows {
        let (code, written) = solved(alloc, limit, lines(alloc, file)?.as_slice())?;
        assert_eq!(rt; code, status, "status of {file}");
        assert!(rt;
            written.as_slice() == lines(alloc, text)?.as_slice(),
            "text of {file}"
        );
    }
    Ok(())
}

/// One row a major, and a new elimination in each.
#[test]
fn answers_one_row_at_a_time(rt: HostRuntime) -> Result<(), Fail> {
    let alloc = rt.alloc();
    let options = ["--batch", "1", "--refactor=0"];
    let rows = [
        (
            TWO_ROWS,
            "",
            0,
            "pami 1|model 2 1 2|phase 2|major 1 full 0|pivot 1 0 r:c1 L x:x 1/10|major 2 full 1|pivot 2 1 r:c2 L r:c1 1|answer optimal|certificate 1 optimal|objective 6|x x 6 0|r c1 60 0|r c2 6 1|end|basis B BL|",
        ),
        (
            TWO_ROWS,
            "1",
            12,
            "pami 1|model 2 1 2|phase 2|major 1 full 0|pivot 1 0 r:c1 L x:x 1/10|answer limit 1|basis B LB|",
        ),
        (
            SMALL_ENTRY,
            "",
            13,
            "pami 1|model 2 1 2|phase 2|major 1 full 0|pivot 1 0 r:c1 L x:x 1/10|rollback 2 factor div 1/100000000000000000000000000000000000000 10|answer overflow factor div 1/100000000000000000000000000000000000000 10|",
        ),
    ];
    for (file, limit, status, text) in rows {
        let bytes = lines(alloc, file)?;
        let (code, written) = solved_with(alloc, &options, limit, bytes.as_slice())?;
        assert_eq!(rt; code, status, "status of {file}");
        assert!(rt;
            written.as_slice() == lines(alloc, text)?.as_slice(),
            "text of {file}"
        );
    }
    Ok(())
}

#[test]
fn accepts_what_the_layout_leaves_free(rt: HostRuntime) -> Result<(), Fail> {
    let alloc = rt.alloc();
    let text = lines(
        alloc,
        "pami 1|model 2 1 2|phase 2|answer optimal|certificate 1 optimal|objective 0|x x 0 1|r c1 0 0|r c2 0 0|end|basis L BB|",
    )?;
    let rows = [
        "* note|NAME|ROWS| N c| L c1| G c2|COLUMNS| x c 1 c1 2| x c2 1|RHS| c1 5|ENDATA|",
        "ROWS| N  c|\tL\tc1|   G   c2   |COLUMNS|  x  c  1  c1  2|| |\t|  x  c2  1|RHS| c1 5|ENDATA|",
        "NAME a b c d e f|ROWS| N c| L c1| G c2|COLUMNS| x c 1 c1 2| x c2 1|RHS| set c1 5|ENDATA",
        "ROWS\r| N c\r| L c1\r| G c2\r|COLUMNS\r| x c 1 c1 2\r| x c2 1\r|RHS\r| c1 5\r|ENDATA\r|",
        "ROWS| N c| L c1| G c2|COLUMNS| x c 1 c1 2| x c2 1|ENDATA|what follows|\u{1}| isn't read|",
        "ROWS| N c| N d| L c1| G c2|COLUMNS| x d 3 d 4| x c 1 c1 2| x c2 1 d 5|RHS| d 1 d 2|ENDATA|",
        "ROWS| L c1| N c| G c2|COLUMNS| x c2 1 c1 2| x c 1|RHS| set c1 5 c 0|ENDATA|",
    ];
    for file in rows {
        let (code, written) = solved(alloc, "0", lines(alloc, file)?.as_slice())?;
        assert_eq!(rt; code, 0, "status of {file}");
        assert!(rt; written.as_slice() == text.as_slice(), "text of {file}");
    }
    Ok(())
}

/// The word of each kind of fault that an MPS file may have, and the line of its first fault.
#[test]
fn refuses_at_the_first_fault(rt: HostRuntime) -> Result<(), Fail> {
    are_answered(
        &rt,
        rt.alloc(),
        "",
        &[
            ("* a \u{7}|ROWS| N c|COLUMNS|ENDATA|", 3, "refused 1 byte|"),
            ("ROWS| N c|COLUMNS|ENDATA\r", 3, "refused 4 byte|"),
            ("rows| N c|COLUMNS|ENDATA|", 3, "refused 1 section|"),
            ("ROWS| N c|RHS|COLUMNS|ENDATA|", 3, "refused 3 order|"),
            (" N c|ROWS|COLUMNS|ENDATA|", 3, "refused 1 order|"),
            ("ROWS| N|COLUMNS|ENDATA|", 3, "refused 2 words|"),
            ("ROWS| X c|COLUMNS|ENDATA|", 3, "refused 2 row-type|"),
            (
                "ROWS| N c|COLUMNS| x c 1|BOUNDS| XX B x 1|ENDATA|",
                3,
                "refused 6 bound-type|",
            ),
            ("OBJSENSE|\tLEAST|ROWS|", 3, "refused 2 sense|"),
            (
                "ROWS| N c|COLUMNS| M 'MARKER' 'INTORG'|ENDATA|",
                3,
                "refused 4 integer|",
            ),
            (
                "ROWS| L c| G c|COLUMNS|ENDATA|",
                3,
                "refused 3 duplicate-row|",
            ),
            (
                "ROWS| L r|COLUMNS| x r 1| y r 1| x r 1|ENDATA|",
                3,
                "refused 6 duplicate-column|",
            ),
            (
                "ROWS| L r|COLUMNS| x r 0| x r 2|ENDATA|",
                3,
                "refused 5 duplicate-entry|",
            ),
            (
                "ROWS| N c|COLUMNS| x d 1|ENDATA|",
                3,
                "refused 4 unknown-row|",
            ),
            (
                "ROWS| N c|COLUMNS| x c 1|BOUNDS| UP y 1|ENDATA|",
                3,
                "refused 6 unknown-column|",
            ),
            ("ROWS| N c|COLUMNS| x c one|ENDATA|", 3, "refused 4 number|"),
            ("ROWS| N c|COLUMNS| x c 1e39|ENDATA|", 3, "refused 4 wide|"),
            (
                "ROWS| N c| L r|COLUMNS|RHS| r -inf|ENDATA|",
                3,
                "refused 6 infinite|",
            ),
            (
                "ROWS| N c|COLUMNS|RANGES| c 1|ENDATA|",
                3,
                "refused 5 range-on-n|",
            ),
            (
                "ROWS| N c|COLUMNS| x c 1|BOUNDS| LO x 2| UP x 1|ENDATA|",
                3,
                "refused 8 crossed|",
            ),
            ("ROWS| N c|COLUMNS|", 3, "refused 4 end-missing|"),
            ("", 3, "refused 1 end-missing|"),
            // The bounds of x fit, and their distance doesn't; a fault of the text hides that.
            (
                "NAME T|ROWS| N c| L c1| G c2|COLUMNS| x c 1 c1 2| x c2 1|RHS| c1 5|BOUNDS| LO B x 1e-38| UP B x 1e19|ENDATA|",
                3,
                "refused 0 width x:x|",
            ),
            (
                "ROWS| N c|COLUMNS| x c 1|BOUNDS| LO x 1e-38| UP x 1e19|",
                3,
                "refused 8 end-missing|",
            ),
        ],
    )
}

/// Files have no such row, but models may.
#[test]
fn a_row_may_be_too_wide(rt: HostRuntime) -> Result<(), Fail> {
    let alloc = rt.alloc();
    let low = Frac::new(1, 100_000_000_000_000_000_000_000_000_000_000_000_000)
        .ok()
        .ok_or("a fraction")?;
    let mut builder = Builder::new(alloc).ok().ok_or("a builder")?;
    let bounds = Bounds {
        low: Some(low),
        high: Some(Frac::whole(1_000_000_000_000_000_000)),
    };
    builder.add_row(b"r", bounds).ok().ok_or("a row")?;
    let model = builder.finish().ok().ok_or("a model")?;
    let options = Options {
        batch: 4,
        refactor: 16,
        limit: 0,
    };
    let wish = Wish {
        options,
        ranging: false,
    };
    let answer = model_answer(alloc, &model, wish)?;
    assert_eq!(rt; answer.status, Status::File);
    assert_eq!(rt; answer.text.as_slice(), b"refused 0 width r:r\n".as_slice());
    Ok(())
}

#[test]
fn takes_names_rows_and_columns_up_to_the_limits(rt: HostRuntime) -> Result<(), Fail> {
    let alloc = rt.alloc();
    // The length of the row's name, the counts of further rows, of columns and of bytes behind ENDATA, and the refusal. A
    // file of one byte more than the limit isn't looked into.
    let rows = [
        (255usize, 0u32, 0u32, 0usize, ""),
        (256, 0, 0, 0, "refused 4 name-long|"),
        (1, 255, 0, 0, ""),
        (1, 256, 0, 0, "refused 260 too-many-rows|"),
        (1, 0, 4096, 0, ""),
        (1, 0, 4097, 0, "refused 4102 too-many-columns|"),
        (1, 0, 0, 16_777_179, ""),
        (256, 0, 0, 16_776_925, "refused 0 too-long|"),
    ];
    for (name, more_rows, columns, behind, refused) in rows {
        let mut file = Vec::from_slice(alloc, b"NAME T\nROWS\n N c\n L ")?;
        for _ in 0..name {
            file.push(b'r')?;
        }
        for row in 0..more_rows {
            file.extend_from_slice(format!(in alloc; "\n L r{row}")?.as_bytes())?;
        }
        file.extend_from_slice(b"\nCOLUMNS\n")?;
        for column in 0..columns {
            file.extend_from_slice(format!(in alloc; " x{column} c 1\n")?.as_bytes())?;
        }
        file.extend_from_slice(b"ENDATA\n")?;
        for _ in 0..behind {
            file.push(b'.')?;
        }
        let (code, written) = solved(alloc, "0", file.as_slice())?;
        if refused.is_empty() {
            assert_eq!(rt; code, 0, "{name} {more_rows} {columns} {behind}");
        } else {
            assert_eq!(rt; code, 3, "{name} {more_rows} {columns} {behind}");
            assert!(rt; written.as_slice() == lines(alloc, refused)?.as_slice());
        }
    }
    Ok(())
}

#[test]
fn bad_words_are_answered(rt: HostRuntime) -> Result<(), Fail> {
    let alloc = rt.alloc();
    let bad = lines(alloc, "bad words|")?;
    let rows: [&[&str]; 3] = [
        &[],
        &["m.mps", "solve"],
        &["solve", "m.mps", "--limit", "1000001"],
    ];
    for texts in rows {
        let mut shelf = MemoryShelf::new(alloc, 64, &[])?;
        let mut out = MemorySink::new(alloc, 64, 64, &[])?;
        let words = words(alloc, texts)?;
        let status = run_plain(alloc, words.as_slice(), &mut shelf, &mut out);
        assert_eq!(rt; status.code(), 2);
        assert!(rt; out.bytes() == bad.as_slice());
    }
    Ok(())
}

#[test]
fn counts_every_fault(rt: HostRuntime) -> Result<(), Fail> {
    let alloc = rt.alloc();
    let file = lines(alloc, FIRST)?;
    let whole = lines(
        alloc,
        "pami 1|model 2 1 2|phase 2|answer optimal|certificate 1 optimal|objective 0|x x 0 1|r c1 0 0|r c2 0 0|end|basis L BB|",
    )?;
    let fault = lines(alloc, "read fault|")?;
    // The greatest lengths of a take and of a put, the failing takes and puts, the file's name, and what comes of it.
    let rows: [(u32, u32, &[u64], &[u64], &str, u8, &[u8]); 8] = [
        (1, 4096, &[], &[], "m.mps", 0, whole.as_slice()),
        (7, 1, &[], &[], "m.mps", 0, whole.as_slice()),
        (4096, 4, &[], &[3], "m.mps", 5, b"pami 1\nm".as_slice()),
        (4096, 4096, &[], &[1], "m.mps", 5, b"".as_slice()),
        (1, 4096, &[2], &[], "m.mps", 4, fault.as_slice()),
        (4096, 4096, &[2], &[], "m.mps", 4, fault.as_slice()),
        (4096, 4096, &[], &[], "-", 4, fault.as_slice()),
        (4096, 4096, &[1], &[1], "m.mps", 5, b"".as_slice()),
    ];
    for (take, put, takes, puts, name, status, written) in rows {
        let mut shelf = MemoryShelf::new(alloc, take, takes)?;
        shelf.add(alloc, word(alloc, "m.mps")?, file.as_slice())?;
        let mut out = MemorySink::new(alloc, 4096, put, puts)?;
        let words = words(alloc, &["solve", name])?;
        let ended = run_plain(alloc, words.as_slice(), &mut shelf, &mut out);
        assert_eq!(rt; ended.code(), status);
        assert!(rt; out.bytes() == written);
    }
    Ok(())
}
