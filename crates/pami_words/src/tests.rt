//! The words of the table, and words that stand in none of its rows.

use super::*;
use crate::item::{Item, Reading, option_taking};
use crate::number::number_between;
use crate::table::{OptionName, Takes};
use crate::value::Value;
use pami_edge::Word;
use pami_frac::Fault;
use std::alloc::Global;
use std::test::Fail;

fn words(alloc: Global, texts: &[&str]) -> Result<Vec<Word>, Fail> {
    let mut words = Vec::new(alloc);
    for text in texts {
        words.push(Word::from_string(String::from_str(alloc, text)?))?;
    }
    Ok(words)
}

/// The caller that the crate's head shows.
fn model_file(alloc: Global, words: &[Word]) -> Result<Option<Word>, Fault<BadWords>> {
    match read_words(alloc, words)? {
        Command::Solve { file, .. } => Ok(Some(file)),
        Command::Check { file, .. } => Ok(Some(file)),
        Command::Trial { .. } => Ok(None),
    }
}

#[test]
fn a_caller_takes_what_is_asked(rt: HostRuntime) -> Result<(), Fail> {
    let rows: [&[&str]; 2] = [
        &["solve", "m.mps", "--limit", "7"],
        &["check", "m.mps", "m.cert"],
    ];
    for texts in rows {
        let given = words(rt.alloc(), texts)?;
        let Ok(Some(file)) = model_file(rt.alloc(), given.as_slice()) else {
            return Err(Fail::from("words of the table"));
        };
        assert!(rt; file.is(b"m.mps"));
    }
    let trial = words(rt.alloc(), &["trial", "7", "20", "30"])?;
    assert!(rt; matches!(model_file(rt.alloc(), trial.as_slice()), Ok(None)));
    Ok(())
}

#[test]
fn words_of_solve(rt: HostRuntime) -> Result<(), Fail> {
    let alloc = rt.alloc();
    let rows: [(&[&str], &str, u32); 19] = [
        (&["solve", "m.mps"], "m.mps", 100_000),
        (&["solve", "-"], "-", 100_000),
        (&["solve", "solve"], "solve", 100_000),
        (&["solve", "--", "m.mps"], "m.mps", 100_000),
        (&["solve", "m.mps", "--"], "m.mps", 100_000),
        (&["solve", "--", "-m.mps"], "-m.mps", 100_000),
        (&["solve", "--", "--"], "--", 100_000),
        (&["solve", "--", "--limit=5"], "--limit=5", 100_000),
        (&["solve", "--limit", "5", "m.mps"], "m.mps", 5),
        (&["solve", "m.mps", "--limit", "5"], "m.mps", 5),
        (&["solve", "--limit=5", "m.mps"], "m.mps", 5),
        (&["solve", "m.mps", "--limit=5"], "m.mps", 5),
        (&["solve", "--limit", "5", "--", "--limit"], "--limit", 5),
        (&["solve", "--limit=5", "-", "--"], "-", 5),
        (&["solve", "--limit", "0", "7"], "7", 0),
        (&["solve", "m.mps", "--limit", "0000000005"], "m.mps", 5),
        (&["solve", "m.mps", "--limit=0000000000"], "m.mps", 0),
        (
            &["solve", "m.mps", "--limit", "0001000000"],
            "m.mps",
            1_000_000,
        ),
        (&["solve", "m.mps", "--limit=1000000"], "m.mps", 1_000_000),
    ];
    for (texts, file, limit) in rows {
        let words = words(alloc, texts)?;
        let Ok(
            Command::Solve {
                file: name,
                lp: _,
                options,
                ranging,
            },
        ) = read_words(alloc, words.as_slice())
        else {
            return Err(Fail::from("words of the table"));
        };
        assert!(rt; name.is(file.as_bytes()), "FILE {file}");
        assert_eq!(rt; options.limit, limit, "limit of {file}");
        assert_eq!(rt; options.batch, DEFAULT_BATCH, "batch of {file}");
        assert_eq!(rt; options.refactor, DEFAULT_REFACTOR, "refactor of {file}");
        assert!(rt; !ranging, "ranges of {file}");
    }
    Ok(())
}

/// The numbers of all options, in both spellings and in any order: the rows of a batch, the pivots that a factor is kept for
/// and the limit of pivots.
#[test]
fn options_of_solve(rt: HostRuntime) -> Result<(), Fail> {
    let alloc = rt.alloc();
    let rows: [(&[&str], [u32; 3]); 8] = [
        (&["solve", "m.mps"], [4, 16, 100_000]),
        (&["solve", "m.mps", "--batch", "1"], [1, 16, 100_000]),
        (&["solve", "--batch=8", "m.mps"], [8, 16, 100_000]),
        (&["solve", "m.mps", "--refactor", "0"], [4, 0, 100_000]),
        (&["solve", "--refactor=64", "m.mps"], [4, 64, 100_000]),
        (
            &["solve", "--batch", "1", "--refactor", "0", "m.mps"],
            [1, 0, 100_000],
        ),
        (
            &[
                "solve",
                "--limit=7",
                "m.mps",
                "--refactor=5",
                "--batch",
                "03",
            ],
            [3, 5, 7],
        ),
        (
            &["solve", "--batch=2", "--limit", "0", "--", "--batch=2"],
            [2, 16, 0],
        ),
    ];
    for (texts, [batch, refactor, limit]) in rows {
        let words = words(alloc, texts)?;
        let Ok(
            Command::Solve {
                file: _,
                lp: _,
                options,
                ranging: _,
            },
        ) = read_words(alloc, words.as_slice())
        else {
            return Err(Fail::from("words of the table"));
        };
        assert_eq!(rt; options.batch, batch);
        assert_eq!(rt; options.refactor, refactor);
        assert_eq!(rt; options.limit, limit);
    }
    Ok(())
}

#[test]
fn formats_of_solve(rt: HostRuntime) -> Result<(), Fail> {
    let alloc = rt.alloc();
    let rows: [(&[&str], bool); 16] = [
        (&["solve", "m.mps"], false),
        (&["solve", "m.lp"], true),
        (&["solve", "M.LP"], true),
        (&["solve", "a.mps.Lp"], true),
        (&["solve", ".lp"], true),
        (&["solve", "lp"], false),
        (&["solve", "m.lp.gz"], false),
        (&["solve", "m_lp"], false),
        (&["solve", "-"], false),
        (&["solve", "m.lp", "--format", "mps"], false),
        (&["solve", "m.lp", "--format=mps"], false),
        (&["solve", "--format", "lp", "m.mps"], true),
        (&["solve", "--format=lp", "m"], true),
        (&["solve", "--format=lp", "--limit=3", "m"], true),
        (&["solve", "--limit", "3", "--format", "mps", "m.lp"], false),
        (&["solve", "--", "--format=mps.lp"], true),
    ];
    for (texts, format) in rows {
        let words = words(alloc, texts)?;
        let Ok(
            Command::Solve {
                file: _,
                lp,
                options: _,
                ranging: _,
            },
        ) = read_words(alloc, words.as_slice())
        else {
            return Err(Fail::from("words of the table"));
        };
        assert_eq!(rt; lp, format);
    }
    Ok(())
}

/// The flag for the ranges, which takes nothing: the word behind it is FILE, another option or the end of the options.
#[test]
fn ranges_of_solve(rt: HostRuntime) -> Result<(), Fail> {
    let alloc = rt.alloc();
    let rows: [(&[&str], &str, u32, bool); 8] = [
        (&["solve", "m.mps"], "m.mps", 100_000, false),
        (&["solve", "m.mps", "--ranging"], "m.mps", 100_000, true),
        (&["solve", "--ranging", "m.mps"], "m.mps", 100_000, true),
        (&["solve", "--ranging", "--limit=7", "m"], "m", 7, true),
        (&["solve", "--limit", "7", "--ranging", "m"], "m", 7, true),
        (&["solve", "--ranging", "--", "-"], "-", 100_000, true),
        (
            &["solve", "--ranging", "--", "--ranging"],
            "--ranging",
            100_000,
            true,
        ),
        (&["solve", "--", "--ranging"], "--ranging", 100_000, false),
    ];
    for (texts, file, limit, wanted) in rows {
        let words = words(alloc, texts)?;
        let Ok(
            Command::Solve {
                file: name,
                lp: _,
                options,
                ranging,
            },
        ) = read_words(alloc, words.as_slice())
        else {
            return Err(Fail::from("words of the table"));
        };
        assert!(rt; name.is(file.as_bytes()), "FILE {file}");
        assert_eq!(rt; options.limit, limit, "limit of {file}");
        assert_eq!(rt; ranging, wanted, "ranges of {file}");
    }
    Ok(())
}

/// The seed of a trial and its sides, each in 1 to 10 digits.
#[test]
fn words_of_trial(rt: HostRuntime) -> Result<(), Fail> {
    let alloc = rt.alloc();
    let rows: [(&[&str], [u32; 3]); 8] = [
        (&["trial", "7", "20", "30"], [7, 20, 30]),
        (&["trial", "0", "1", "1"], [0, 1, 1]),
        (&["trial", "4294967295", "64", "64"], [u32::MAX, 64, 64]),
        (&["trial", "0000000007", "020", "0000000030"], [7, 20, 30]),
        (&["trial", "--", "7", "20", "30"], [7, 20, 30]),
        (&["trial", "7", "--", "20", "30"], [7, 20, 30]),
        (&["trial", "7", "20", "30", "--"], [7, 20, 30]),
        (&["trial", "0000000000", "1", "64"], [0, 1, 64]),
    ];
    for (texts, wanted) in rows {
        let words = words(alloc, texts)?;
        let Ok(
            Command::Trial {
                seed,
                sources,
                sinks,
            },
        ) = read_words(alloc, words.as_slice())
        else {
            return Err(Fail::from("words of the table"));
        };
        assert_eq!(rt; [seed, sources, sinks], wanted);
    }
    Ok(())
}

/// FILE stands before CERT, wherever the option stands.
#[test]
fn words_of_check(rt: HostRuntime) -> Result<(), Fail> {
    let alloc = rt.alloc();
    let rows: [(&[&str], &str, &str, bool); 12] = [
        (&["check", "m.mps", "c"], "m.mps", "c", false),
        (&["check", "m.lp", "c.mps"], "m.lp", "c.mps", true),
        (&["check", "m.mps", "c.lp"], "m.mps", "c.lp", false),
        (&["check", "-", "-"], "-", "-", false),
        (&["check", "check", "solve"], "check", "solve", false),
        (&["check", "--format", "lp", "m", "c"], "m", "c", true),
        (&["check", "m", "--format=lp", "c"], "m", "c", true),
        (
            &["check", "m.lp", "c", "--format", "mps"],
            "m.lp",
            "c",
            false,
        ),
        (&["check", "--", "m", "c"], "m", "c", false),
        (&["check", "m", "--", "--format"], "m", "--format", false),
        (&["check", "m", "c", "--"], "m", "c", false),
        (
            &["check", "--format=mps", "--", "-m.lp", "--"],
            "-m.lp",
            "--",
            false,
        ),
    ];
    for (texts, file, cert, format) in rows {
        let words = words(alloc, texts)?;
        let Ok(
            Command::Check {
                file: model,
                cert: checked,
                lp,
            },
        ) = read_words(alloc, words.as_slice())
        else {
            return Err(Fail::from("words of the table"));
        };
        assert!(rt; model.is(file.as_bytes()), "FILE {file}");
        assert!(rt; checked.is(cert.as_bytes()), "CERT {cert}");
        assert_eq!(rt; lp, format);
    }
    Ok(())
}

#[test]
fn words_outside_the_table(rt: HostRuntime) -> Result<(), Fail> {
    let alloc = rt.alloc();
    let rows: [&[&str]; 80] = [
        &[],
        &["solve"],
        &["m.mps"],
        &["Solve", "m.mps"],
        &["solv", "m.mps"],
        &["m.mps", "solve"],
        &["--", "solve", "m.mps"],
        &["--limit", "5", "solve", "m.mps"],
        // FILE: none, two, empty, or like an option.
        &["solve", ""],
        &["solve", "-m.mps"],
        &["solve", "--"],
        &["solve", "--limit", "5"],
        &["solve", "--limit=5"],
        &["solve", "--limit", "m.mps"],
        &["solve", "m.mps", "m.mps"],
        &["solve", "m.mps", "--limit", "5", "m.mps"],
        &["solve", "m.mps", "--", "m.mps"],
        &["solve", "m.mps", ""],
        &["solve", "--", ""],
        &["solve", "m.mps", "--", ""],
        &["solve", "--", "--", "--"],
        &["solve", "--", "m.mps", "--limit", "5"],
        // The option: twice, without its value, or with an empty one.
        &["solve", "m.mps", "--limit", "5", "--limit", "5"],
        &["solve", "--limit=5", "m.mps", "--limit", "5"],
        &["solve", "m.mps", "--limit"],
        &["solve", "--limit", "--", "m.mps"],
        &["solve", "m.mps", "--limit", ""],
        &["solve", "m.mps", "--limit="],
        &["solve", "m.mps", "--limit=", "5"],
        &["solve", "m.mps", "--limit", "=5"],
        // The value: a sign, other bytes, too many digits, too large.
        &["solve", "m.mps", "--limit", "-5"],
        &["solve", "m.mps", "--limit=-5"],
        &["solve", "m.mps", "--limit", "-"],
        &["solve", "m.mps", "--limit", "+5"],
        &["solve", "m.mps", "--limit", "5.0"],
        &["solve", "m.mps", "--limit", " 5"],
        &["solve", "m.mps", "--limit==5"],
        &["solve", "m.mps", "--limit", "00000000005"],
        &["solve", "m.mps", "--limit=00000000005"],
        &["solve", "m.mps", "--limit", "1000001"],
        &["solve", "m.mps", "--limit=1000001"],
        &["solve", "m.mps", "--limit", "4294967301"],
        &["solve", "m.mps", "--limit", "9999999999"],
        // The batch and the refactor number: twice, without a value, out of their ranges, and not of `check`.
        &["solve", "m.mps", "--batch", "0"],
        &["solve", "m.mps", "--batch=9"],
        &["solve", "m.mps", "--batch"],
        &["solve", "m.mps", "--batch=4", "--batch", "4"],
        &["solve", "m.mps", "--refactor", "65"],
        &["solve", "m.mps", "--refactor="],
        &["solve", "m.mps", "--refactor", "-1"],
        &["solve", "m.mps", "--refactor=1", "--refactor=1"],
        &["check", "m.mps", "c", "--batch", "4"],
        &["check", "m.mps", "c", "--refactor=16"],
        // The format: none, twice, another word, or in capitals.
        &["solve", "m.lp", "--format"],
        &["solve", "m.lp", "--format="],
        &["solve", "--format", "m.lp"],
        &["solve", "m.lp", "--format", "LP"],
        &["solve", "m.lp", "--format=free"],
        &["solve", "m.lp", "--format", "lp", "--format", "lp"],
        &["solve", "m.lp", "--format=mps", "--format=lp"],
        &["solve", "m.lp", "--format", "-lp"],
        &["solve", "m.lp", "--form=lp"],
        // CERT: none, a third word, an empty one, or like an option; no limit, and the format once.
        &["check"],
        &["check", "m.mps"],
        &["check", "m.mps", "c", "c"],
        &["check", "m.mps", ""],
        &["check", "", "c"],
        &["check", "m.mps", "-c"],
        &["check", "m.mps", "--format", "lp"],
        &["check", "m.mps", "c", "--limit", "5"],
        &["check", "m.mps", "c", "--limit=5"],
        &["check", "m.mps", "c", "--format=lp", "--format=lp"],
        &["Check", "m.mps", "c"],
        // No abbreviations, and no other options.
        &["solve", "m.mps", "--lim", "5"],
        &["solve", "m.mps", "--limits", "5"],
        &["solve", "m.mps", "--Limit", "5"],
        &["solve", "m.mps", "-limit", "5"],
        &["solve", "m.mps", "-l", "5"],
        &["solve", "m.mps", "--help"],
        &["solve", "--version"],
    ];
    for texts in rows {
        let words = words(alloc, texts)?;
        let read = read_words(alloc, words.as_slice());
        assert!(rt; matches!(read, Err(Fault::Named(BadWords))));
    }
    Ok(())
}

/// The flag with a value, twice, abbreviated, or of another command; and words of `trial` that aren't three numbers, each in
/// its range.
#[test]
fn no_flags_and_no_trials(rt: HostRuntime) -> Result<(), Fail> {
    let alloc = rt.alloc();
    let rows: [&[&str]; 36] = [
        &["solve", "--ranging"],
        &["solve", "m.mps", "--ranging", "--ranging"],
        &["solve", "--ranging", "m.mps", "--ranging"],
        &["solve", "m.mps", "--ranging="],
        &["solve", "m.mps", "--ranging=1"],
        &["solve", "m.mps", "--ranging", "1"],
        &["solve", "m.mps", "--Ranging"],
        &["solve", "m.mps", "--rang"],
        &["solve", "m.mps", "-ranging"],
        &["solve", "m.mps", "--limit", "--ranging"],
        &["check", "m.mps", "c", "--ranging"],
        &["trial"],
        &["trial", "7"],
        &["trial", "7", "20"],
        &["trial", "7", "20", "30", "40"],
        &["Trial", "7", "20", "30"],
        &["trial", "7", "20", ""],
        &["trial", "", "20", "30"],
        &["trial", "-7", "20", "30"],
        &["trial", "--", "-7", "20", "30"],
        &["trial", "+7", "20", "30"],
        &["trial", "-", "20", "30"],
        &["trial", "7", "20", "3x"],
        &["trial", "7.0", "20", "30"],
        &["trial", "4294967296", "20", "30"],
        &["trial", "00000000007", "20", "30"],
        &["trial", "7", "0", "30"],
        &["trial", "7", "65", "30"],
        &["trial", "7", "20", "0"],
        &["trial", "7", "20", "65"],
        &["trial", "7", "20", "4294967297"],
        &["trial", "7", "20", "30", "--limit", "5"],
        &["trial", "7", "20", "30", "--batch=4"],
        &["trial", "7", "20", "30", "--refactor=0"],
        &["trial", "7", "20", "30", "--ranging"],
        &["trial", "7", "20", "30", "--format=mps"],
    ];
    for texts in rows {
        let words = words(alloc, texts)?;
        let read = read_words(alloc, words.as_slice());
        assert!(rt; matches!(read, Err(Fault::Named(BadWords))));
    }
    Ok(())
}

/// An option that takes nothing, alone and with a value; and ranges of numbers.
#[test]
fn flags_and_numbers(rt: HostRuntime) -> Result<(), Fail> {
    let flag = option_taking(OptionName::Ranging, Takes::Nothing, b"");
    assert!(rt;
        matches!(
            flag,
            Some(Reading::Alone(Item::Given(OptionName::Ranging, Value::Nothing)))
        )
    );
    for value in [b"=".as_slice(), b"=1".as_slice()] {
        assert!(rt; option_taking(OptionName::Ranging, Takes::Nothing, value).is_none());
    }
    for (text, number) in [
        ("0", None),
        ("1", Some(1)),
        ("8", Some(8)),
        ("9", None),
        ("08", Some(8)),
    ] {
        assert_eq!(rt; number_between(text.as_bytes(), 1, 8), number, "{text}");
    }
    assert_eq!(rt; number_between(b"4294967295", 0, u32::MAX), Some(u32::MAX));
    assert_eq!(rt; number_between(b"4294967296", 0, u32::MAX), None);
    Ok(())
}
