//! The program: what the words of a call ask for, read or drawn, solved or checked, and written.
//!
//! Stands on all crates of the solver, the ranges, the checker, the words, the files and the trials' models. `run_plain` is the whole of it, over a shelf of named
//! files and a sink, and carries the theorem from bytes to bytes; `main` hands it the words, the files and the output
//! of the machine.
#![tactic(auto)]

mod answer;
pub mod answer_laws;
mod certificate;
mod check;
#[cfg(test)]
mod check_tests;
#[cfg(test)]
mod drawn_cases;
#[cfg(test)]
mod drawn_tests;
#[cfg(test)]
mod lp_tests;
mod output;
mod print;
#[cfg(test)]
mod range_tests;
mod ranges;
mod reading;
mod refuse;
mod run;
mod solve;
mod status;
mod summary;
#[cfg(test)]
mod tests;
mod trial;
#[cfg(test)]
mod trial_tests;
mod verdict;
mod wish;

ghost use Rattle.std.specs.Prelude.{◌≡◌};
ghost use Rattle.std.specs.Process.{exit_status};
ghost use Rattle.pami_cli.specs.Status.{code_of};

use pami_edge::{RealShelf, RealSink, Word};
pub use run::run_plain;
pub use status::Status;
use std::process::ExitCode;
use std::rt::Env;
use std::{env, io};

/// The words after the program's name.
fn given_words<R: Env + AllocGlobal>(rt: &R) -> io::Result<Vec<Word>> {
    let mut words = Vec::new(rt.alloc());
    for word in env::args(rt)?.skip(1) {
        words.push(Word::from_string(word))?;
    }
    Ok(words)
}

/// The process ends with the number of its status.
fn ended(status: Status) -> ExitCode
    ensures { exit_status result ≡ code_of status }
{
    ExitCode::from(status.code())
}

fn main(rt: HostRuntime) -> ExitCode {
    let words = match given_words(&rt) {
        Ok(words) => words,
        // A word that is no text stands in no table, so these are bad words, as no words at all are.
        Err(fault) if fault.kind() == io::ErrorKind::InvalidData => Vec::new(rt.alloc()),
        Err(_) => return ended(Status::OutOfMemory),
    };
    let mut shelf = RealShelf::new(&rt);
    let mut out = RealSink::new(rt.stdout());
    ended(run_plain(rt.alloc(), words.as_slice(), &mut shelf, &mut out))
}
