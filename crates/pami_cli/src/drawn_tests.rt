//! Whole texts of drawn models: several rows leave in a major, rows are dropped, majors are rolled back, factors are kept. The
//! models and the texts that are due stand in `drawn_cases.rt`.

use super::run_plain;
use crate::drawn_cases::{FIRST, FOURTH, SECOND, THIRD};
use crate::tests::{lines, word, words};
use pami_edge::{MemoryShelf, MemorySink};
use std::alloc::Global;
use std::process::Abort;
use std::test::Fail;

/// A model, the options that it is solved with, each empty where it isn't given, and the status and the text that are due.
pub(crate) struct Drawn {
    pub(crate) batch: &'static str,
    pub(crate) refactor: &'static str,
    pub(crate) limit: &'static str,
    pub(crate) file: &'static str,
    pub(crate) status: u8,
    pub(crate) text: &'static str,
}

/// The status's number and what is written for a drawn model.
fn solved(alloc: Global, drawn: &Drawn) -> Result<(u8, Vec<u8>), Fail> {
    let mut shelf = MemoryShelf::new(alloc, 1 << 20, &[])?;
    let file = lines(alloc, drawn.file)?;
    shelf.add(alloc, word(alloc, "m.lp")?, file.as_slice())?;
    let mut out = MemorySink::new(alloc, 1 << 20, 1 << 20, &[])?;
    let mut words = words(alloc, &["solve", "m.lp"])?;
    let options = [
        ("--batch", drawn.batch),
        ("--refactor", drawn.refactor),
        ("--limit", drawn.limit),
    ];
    for (option, value) in options {
        if !value.is_empty() {
            words.push(word(alloc, option)?)?;
            words.push(word(alloc, value)?)?;
        }
    }
    let status = run_plain(alloc, words.as_slice(), &mut shelf, &mut out);
    Ok((status.code(), out.bytes().to_vec(alloc)?))
}

/// Has each of these models its status and its text?
fn have_their_texts(rt: &impl Abort, alloc: Global, models: &[Drawn]) -> Result<(), Fail> {
    for drawn in models {
        let (code, written) = solved(alloc, drawn)?;
        assert_eq!(rt; code, drawn.status, "status of {}", drawn.file);
        assert!(rt;
            written.as_slice() == lines(alloc, drawn.text)?.as_slice(),
            "text of {}",
            drawn.file
        );
    }
    Ok(())
}

#[test]
fn first_models_have_their_texts(rt: HostRuntime) -> Result<(), Fail> {
    have_their_texts(&rt, rt.alloc(), FIRST.as_slice())
}

#[test]
fn second_models_have_their_texts(rt: HostRuntime) -> Result<(), Fail> {
    have_their_texts(&rt, rt.alloc(), SECOND.as_slice())
}

#[test]
fn third_models_have_their_texts(rt: HostRuntime) -> Result<(), Fail> {
    have_their_texts(&rt, rt.alloc(), THIRD.as_slice())
}

#[test]
fn fourth_models_have_their_texts(rt: HostRuntime) -> Result<(), Fail> {
    have_their_texts(&rt, rt.alloc(), FOURTH.as_slice())
}
