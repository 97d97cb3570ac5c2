//! Runs over LP files in memory. Every expected text and status is worked out from the format by hand.

use super::run_plain;
use crate::tests::{lines, word, words};
use pami_edge::{MemoryShelf, MemorySink};
use std::alloc::Global;
use std::test::Fail;

/// These words over a file of these bytes under this name: the status's number and what was written.
fn ran(alloc: Global, asked: &[&str], name: &str, bytes: &[u8]) -> Result<(u8, Vec<u8>), Fail> {
    let mut shelf = MemoryShelf::new(alloc, 1 << 20, &[])?;
    shelf.add(alloc, word(alloc, name)?, bytes)?;
    let mut out = MemorySink::new(alloc, 1 << 20, 1 << 20, &[])?;
    let words = words(alloc, asked)?;
    let status = run_plain(alloc, words.as_slice(), &mut shelf, &mut out);
    Ok((status.code(), out.bytes().to_vec(alloc)?))
}

const SUM: &str = "min| x + y|st| c1: x + y >= 2|end|";

#[test]
fn answers_lp_files(rt: HostRuntime) -> Result<(), Fail> {
    let alloc = rt.alloc();
    let asked = ["solve", "m.lp"];
    let rows = [
        (
            "min| x|st|end|",
            0,
            "pami 1|model 0 1 0|phase 2|answer optimal|certificate 1 optimal|objective 0|x x 0 1|end|basis L -|",
        ),
        (
            "min| x|st| c1: x >= 4|bounds| x <= 4|end|",
            0,
            "pami 1|model 1 1 1|phase 2|major 1 full 0|pivot 1 0 r:c1 L x:x 1|answer optimal|certificate 1 optimal|objective 4|x x 4 0|r c1 4 1|end|basis B L|",
        ),
        (
            SUM,
            0,
            "pami 1|model 1 2 2|phase 2|major 1 full 0|pivot 1 0 r:c1 L x:x 1|answer optimal|certificate 1 optimal|objective 2|x x 2 0|x y 0 0|r c1 2 1|end|basis BL L|",
        ),
        (
            "min| x + y|st| c1: x + y >= 5|bounds| x <= 1| y <= 2|end|",
            10,
            "pami 1|model 1 2 2|phase 2|major 1 full 0|none 0 r:c1|answer infeasible|certificate 1 infeasible|r c1 1|end|",
        ),
        (
            "min| 170141183460469231731687303715884105727 x|st|end|",
            0,
            "pami 1|model 0 1 0|phase 2|answer optimal|certificate 1 optimal|objective 0|x x 0 170141183460469231731687303715884105727|end|basis L -|",
        ),
        (
            "min| .5 x|st|end|",
            0,
            "pami 1|model 0 1 0|phase 2|answer optimal|certificate 1 optimal|objective 0|x x 0 1/2|end|basis L -|",
        ),
        (
            "min| 170141183460469231731687303715884105728 x|st|end|",
            3,
            "refused 2 wide|",
        ),
        (
            "min| 0.1234567890123456789012345678901234567891 x|st|end|",
            3,
            "refused 2 wide|",
        ),
        (
            "min| x|st| c: x >= 1| c: x >= 2|end|",
            3,
            "refused 5 duplicate-row|",
        ),
        ("min| x|st|general|end|", 3, "refused 4 integer|"),
        ("min| x|st| x >= 1|", 3, "refused 5 end-missing|"),
    ];
    for (file, status, text) in rows {
        let (code, written) = ran(alloc, &asked, "m.lp", lines(alloc, file)?.as_slice())?;
        assert_eq!(rt; code, status, "status of {file}");
        assert!(rt;
            written.as_slice() == lines(alloc, text)?.as_slice(),
            "text of {file}"
        );
    }
    Ok(())
}

/// Majors of several rows, and what becomes of those that are refused. Each with its options behind `solve m.lp`.
#[test]
fn answers_by_batches(rt: HostRuntime) -> Result<(), Fail> {
    let alloc = rt.alloc();
    let rows: [(&[&str], &str, u8, &str); 8] = [
        // A bounded column is passed on the way to the second pivot.
        (
            &[],
            "min| cost: 3 a + 2 b + 4 c + 5 d + 1.5 e + 2 f| st| demand1: a + b >= 10| demand2: c + 0.25 d >= 4| cap1: a + c <= 20| cap2: b + d + e <= 80| stock: 1.06 e + f >= 53| bounds| b <= 6| end|",
            0,
            "pami 1|model 5 6 11|phase 2|major 1 full 4 0 1|pivot 1 4 r:stock L x:e 75/53|flip x:b U|pivot 2 0 r:demand1 L x:a 3|pivot 3 1 r:demand2 L x:c 4|answer optimal|certificate 1 optimal|objective 115|x a 4 0|x b 6 -1|x c 4 0|x d 0 4|x e 50 0|x f 0 31/53|r demand1 10 3|r demand2 4 4|r cap1 8 0|r cap2 56 0|r stock 53 75/53|end|basis BUBLBL LLBBL|",
        ),
        // The second row is met behind the first pivot, and is dropped.
        (
            &["--batch", "3"],
            "min| x + y|st| c1: x >= 8| c2: x >= 4| c3: y >= 1|end|",
            0,
            "pami 1|model 3 2 3|phase 2|major 1 full 0 1 2|pivot 1 0 r:c1 L x:x 1|drop 1|pivot 2 2 r:c3 L x:y 1|answer optimal|certificate 1 optimal|objective 9|x x 8 0|x y 1 0|r c1 8 1|r c2 8 0|r c3 1 1|end|basis BB LBL|",
        ),
        // x is flipped in the first pivot and enters in the second one.
        (
            &[],
            "min| x + 2 y + 5 z|st| c1: x + y >= 3| c2: - x + y + z >= 2|bounds| x <= 1|end|",
            0,
            "pami 1|model 2 3 5|phase 2|major 1 full 0 1|flip x:x U|pivot 1 0 r:c1 L x:y 2|pivot 2 1 r:c2 L x:x 1/2|answer optimal|certificate 1 optimal|objective 11/2|x x 1/2 0|x y 5/2 0|x z 0 9/2|r c1 3 3/2|r c2 2 1/2|end|basis BBL LL|",
        ),
        // The row variable that left in the first pivot enters in the second one.
        (
            &[],
            "min| x|st| c1: 10 x >= 40| c2: x >= 6|end|",
            0,
            "pami 1|model 2 1 2|phase 2|major 1 full 0 1|pivot 1 0 r:c1 L x:x 1/10|pivot 2 1 r:c2 L r:c1 1|answer optimal|certificate 1 optimal|objective 6|x x 6 0|r c1 60 0|r c2 6 1|end|basis B BL|",
        ),
        // No variable can enter for the last row: nothing is collected, and its multipliers are its own.
        (
            &[],
            "min| x + y + z|st| c1: x >= 32| c2: y >= 16| c3: z >= 4|bounds| z <= 1|end|",
            10,
            "pami 1|model 3 3 3|phase 2|major 1 full 0 1 2|pivot 1 0 r:c1 L x:x 1|pivot 2 1 r:c2 L x:y 1|none 2 r:c3|answer infeasible|certificate 1 infeasible|r c1 0|r c2 0|r c3 1|end|",
        ),
        // The limit is met between two pivots of a batch.
        (
            &["--limit", "1"],
            "min| x + y + z|st| c1: x >= 32| c2: y >= 16| c3: z >= 4|bounds| z <= 1|end|",
            12,
            "pami 1|model 3 3 3|phase 2|major 1 full 0 1 2|pivot 1 0 r:c1 L x:x 1|answer limit 1|basis BLL LBB|",
        ),
        // A batch doesn't fit, and its first row alone does.
        (
            &[],
            "min| x|st| c1: 10 x >= 100| c2: 1e-38 x >= 1e-38|end|",
            0,
            "pami 1|model 2 1 2|phase 2|rollback 1 reach-1-1 div -1/100000000000000000000000000000000000000 -10|major 2 single 0|pivot 1 0 r:c1 L x:x 1/10|answer optimal|certificate 1 optimal|objective 10|x x 10 0|r c1 100 1/10|r c2 1/10000000000000000000000000000000000000 0|end|basis B LB|",
        ),
        // Nor does the second row then, by the factor or by a new elimination.
        (
            &[],
            "min| x|st| c1: 10 x >= 100| c2: 1e-38 x >= 1|end|",
            13,
            "pami 1|model 2 1 2|phase 2|rollback 1 reach-1-1 div -1/100000000000000000000000000000000000000 -10|major 2 single 0|pivot 1 0 r:c1 L x:x 1/10|rollback 3 backward-1 div 1/100000000000000000000000000000000000000 -10|answer overflow factor div 1/100000000000000000000000000000000000000 10|",
        ),
    ];
    for (options, file, status, text) in rows {
        let mut asked = Vec::from_slice(alloc, &["solve", "m.lp"])?;
        asked.extend_from_slice(options)?;
        let bytes = lines(alloc, file)?;
        let (code, written) = ran(alloc, asked.as_slice(), "m.lp", bytes.as_slice())?;
        assert_eq!(rt; code, status, "status of {file}");
        assert!(rt;
            written.as_slice() == lines(alloc, text)?.as_slice(),
            "text of {file}"
        );
    }
    Ok(())
}

/// The option decides the format, and else the end of the name; a limit goes with either.
#[test]
fn reads_in_the_format_that_is_asked(rt: HostRuntime) -> Result<(), Fail> {
    let alloc = rt.alloc();
    let file = lines(alloc, SUM)?;
    let rows: [(&[&str], &str, u8, &str); 6] = [
        (
            &["solve", "m.LP", "--limit", "0"],
            "m.LP",
            12,
            "pami 1|model 1 2 2|phase 2|answer limit 0|basis LL B|",
        ),
        (
            &["solve", "m.mps", "--format", "lp", "--limit=0"],
            "m.mps",
            12,
            "pami 1|model 1 2 2|phase 2|answer limit 0|basis LL B|",
        ),
        (&["solve", "m.mps"], "m.mps", 3, "refused 1 section|"),
        (
            &["solve", "m.lp", "--format=mps"],
            "m.lp",
            3,
            "refused 1 section|",
        ),
        (
            &["solve", "m.lp", "--format", "free"],
            "m.lp",
            2,
            "bad words|",
        ),
        (
            &["solve", "m.lp", "--format=lp", "--format=lp"],
            "m.lp",
            2,
            "bad words|",
        ),
    ];
    for (asked, name, status, text) in rows {
        let (code, written) = ran(alloc, asked, name, file.as_slice())?;
        assert_eq!(rt; code, status, "status of {name}");
        assert!(rt;
            written.as_slice() == lines(alloc, text)?.as_slice(),
            "text of {name}"
        );
    }
    Ok(())
}
