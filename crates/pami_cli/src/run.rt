//! One run: the words, the files and the answer, from bytes to bytes.

ghost use Rattle.std.specs.Prelude.{◌≡◌, ◌≤◌, ◌⊎◌, ℕ, List, [], ◌∷◌, Some, IfOk, OnOk, IsTrue};
ghost use Rattle.pami_edge.specs.Outside.{Files, HasFile};
ghost use Rattle.pami_edge.specs.Calls.{shelf_call, sink_call, ShelfFailed, SinkFailed, ShelfCounted, SinkCounted, Wrote};
ghost use Rattle.pami_words.specs.declared.command.Command.{Command};
ghost use Rattle.pami_words.specs.declared.command.Command.TheVariants.{Solve, Trial};
ghost use Rattle.pami_method.specs.Walk.{IsOptions};
ghost use Rattle.pami_cli.specs.declared.status.Status.{Status};
ghost use Rattle.pami_cli.specs.Status.{is_judgement};
ghost use Rattle.pami_trial.specs.Transport.{IsSide};
ghost use Rattle.pami_cli.specs.Reading.{format_by};
ghost use Rattle.pami_cli.specs.Trial.{AnswersTrial, TrialHolds};
ghost use Rattle.pami_cli.specs.Run.{Answers, SolvesSoundly, CommandAnswers, call, AskFor, AreBad, EndsBy, AsksFor, ModelFile, file_of, HasBytes, Ends, IsComplete, IsFileRefused, IsCertJudged, IsFront, IsOrFault, Refuses};

use crate::answer::Answer;
use crate::check::check_file;
use crate::output::{finish, finish_answer};
use crate::reading::{long_answer, read_model};
use crate::refuse::refused_file;
use crate::solve::model_answer;
use crate::status::Status;
use crate::trial::trial_answer;
use crate::wish::Wish;
use pami_edge::{ReadStop, Shelf, Sink, Word, read_whole};
use pami_frac::{Fault, OutOfMemory};
use pami_model::BYTE_LIMIT;
use pami_words::{Command, read_words};
use std::alloc::Global;

/// What `solve` answers on the bytes of a file.
fn file_answer(alloc: Global, bytes: &[u8], lp: bool, wish: Wish) -> Result<Answer, OutOfMemory>
    requires { IsOptions wish.options }
    ensures answer { IfOk result (λ a. Answers (format_by lp) bytes.now wish a.status a.text.items) }
    ensures sound { OnOk result (SolvesSoundly (format_by lp) bytes.now wish.options) }
{
    match read_model(alloc, bytes, lp) {
        Ok(model) => model_answer(alloc, &model, wish),
        Err(Fault::Named(fault)) => refused_file(alloc, fault),
        Err(Fault::OutOfMemory) => Err(OutOfMemory),
    }
}

/// Solves the model of one file, which is LP or else MPS.
fn solve_file<S: Shelf, K: Sink>(
    alloc: Global,
    file: Word,
    lp: bool,
    wish: Wish,
    shelf: &mut S,
    out: &mut K,
) -> Status
    requires unasked { S.asked shelf.old ≡ [] }
    requires options { IsOptions wish.options }
    ensures ends { (words : List (List ℕ)) → AskFor words (Solve file lp wish.options wish.ranging)
        → Ends (call words (shelf_call S.Shelf shelf.old shelf.new) (sink_call K.Sink out.old out.new)) result }
    ensures asked { S.asked shelf.new ≡ file ∷ [] }
    ensures shelf_faults { ShelfCounted (shelf_call S.Shelf shelf.old shelf.new) → IsOrFault result Status.ReadFault }
    ensures sink_faults { SinkCounted (sink_call K.Sink out.old out.new) → result ≡ Status.WriteFault }
{
    match read_whole(alloc, shelf, file, BYTE_LIMIT as u32) {
        Ok(bytes) => finish_answer(out, file_answer(alloc, bytes.as_slice(), lp, wish)),
        Err(ReadStop::Failed) => finish(out, Status::ReadFault, b"read fault\n"),
        Err(ReadStop::TooLong) => finish_answer(out, long_answer(alloc)),
        Err(ReadStop::OutOfMemory) => Status::OutOfMemory,
    }
}

/// Solves the model that a seed draws, with so many sources and sinks, and writes the summary.
fn solve_trial<K: Sink>(alloc: Global, seed: u32, sources: u32, sinks: u32, out: &mut K) -> Status
    requires sources { IsSide sources }
    requires sinks { IsSide sinks }
    ensures ends { EndsBy (λ status written. AnswersTrial seed sources sinks status written × TrialHolds seed sources sinks)
        (sink_call K.Sink out.old out.new) result }
    ensures sink_faults { SinkCounted (sink_call K.Sink out.old out.new) → result ≡ Status.WriteFault }
{
    finish_answer(out, trial_answer(alloc, seed, sources, sinks))
}

/// `run_plain`, with what its clauses follow from.
fn run_words<S: Shelf, K: Sink>(alloc: Global, words: &[Word], shelf: &mut S, out: &mut K) -> Status
    requires { S.asked shelf.old ≡ [] }
    ensures ends { Ends (call words.now (shelf_call S.Shelf shelf.old shelf.new) (sink_call K.Sink out.old out.new)) result }
    ensures asked { AsksFor words.now (S.asked shelf.new) }
    ensures file_first { (files : Files) (command : Command) (file : ModelFile) (bytes written : List ℕ)
        → S.files shelf.old ≡ Some files → AskFor words.now command → file_of command ≡ Some file
        → files file.name ≡ Some bytes → Refuses file.format bytes written → IsFront (S.asked shelf.new) (file.name ∷ []) }
    ensures shelf_faults { ShelfCounted (shelf_call S.Shelf shelf.old shelf.new) → IsOrFault result Status.ReadFault }
    ensures sink_faults { SinkCounted (sink_call K.Sink out.old out.new) → result ≡ Status.WriteFault }
{
    match read_words(alloc, words) {
        Ok(
            Command::Solve {
                file,
                lp,
                options,
                ranging,
            },
        ) => solve_file(alloc, file, lp, Wish { options, ranging }, shelf, out),
        Ok(Command::Check { file, cert, lp }) => check_file(alloc, file, cert, lp, shelf, out),
        Ok(
            Command::Trial {
                seed,
                sources,
                sinks,
            },
        ) => solve_trial(alloc, seed, sources, sinks, out),
        Err(Fault::Named(_)) => finish(out, Status::Words, b"bad words\n"),
        Err(Fault::OutOfMemory) => Status::OutOfMemory,
    }
}

/// Runs the words over a shelf that was asked for nothing yet, writes the answer to the sink and tells how it ended.
///
/// What the words ask is told by `read_words`: `solve` reads FILE, in its format, and solves the model with its
/// options: the most rows of a batch, the most pivots that a factor is kept for, and the limit of pivots, and tells the ranges
/// behind an optimal answer where they are wanted; `check` reads FILE, and, where that is accepted, CERT, and judges the
/// certificate against the model; `trial` reads nothing, and solves the model that a seed draws; words in no row of the table
/// are bad words. No other name is asked for.
pub fn run_plain<S: Shelf, K: Sink>(
    alloc: Global,
    words: &[Word],
    shelf: &mut S,
    out: &mut K,
) -> Status
    requires unasked { S.asked shelf.old ≡ [] }

    // Whatever the answer: it is that of the definition on bytes under the names of its files, if any, and was written whole, or a
    // fault or want of memory took its place. What `solve` answers is sound: it holds against the model of FILE, and its
    // certificate can be read again; and what `trial` tells holds against the model that it draws.
    ensures ends { Ends (call words.now (shelf_call S.Shelf shelf.old shelf.new) (sink_call K.Sink out.old out.new)) result }

    // Over a shelf that tells its files, the answer is exactly that of the definition on the bytes under their names; there is
    // one (`files_have_an_answer`, `checks_have_an_answer`, `trials_have_an_answer`).
    ensures exact { (files : Files) (command : Command) (bytes written : List ℕ) (status : Status)
        → S.files shelf.old ≡ Some files → AskFor words.now command → HasBytes (Some files) command bytes
        → CommandAnswers command bytes (HasFile (Some files)) status written
        → ((result ≡ status) × Wrote (sink_call K.Sink out.old out.new) written) ⊎ IsOrFault result Status.ReadFault }

    // Where neither the shelf nor the sink failed, the command is answered with a whole text, or memory ran out.
    ensures complete { (command : Command) → AskFor words.now command
        → (ShelfFailed (shelf_call S.Shelf shelf.old shelf.new) → ⊥) → (SinkFailed (sink_call K.Sink out.old out.new) → ⊥)
        → IsComplete (call words.now (shelf_call S.Shelf shelf.old shelf.new) (sink_call K.Sink out.old out.new)) result }

    // FILE is refused, with the line and the kind of its first fault or with the variable whose width doesn't fit, only
    // where the definition has it so; `exact` says that it is then.
    ensures file_only { result ≡ Status.File
        → IsFileRefused (call words.now (shelf_call S.Shelf shelf.old shelf.new) (sink_call K.Sink out.old out.new)) }

    // A certificate is invalid, unchecked or malformed only where the definition has it so, behind a FILE that is accepted.
    ensures judged_only { IsTrue (is_judgement result)
        → IsCertJudged (call words.now (shelf_call S.Shelf shelf.old shelf.new) (sink_call K.Sink out.old out.new)) result }

    // The causes of the statuses that are no answers.
    ensures words { AreBad words.now → (result ≡ Status.Words) ⊎ ((result ≡ Status.WriteFault) ⊎ (result ≡ Status.OutOfMemory)) }
    ensures words_only { result ≡ Status.Words → AreBad words.now }
    ensures read_fault { result ≡ Status.ReadFault → ShelfFailed (shelf_call S.Shelf shelf.old shelf.new) }
    ensures write_fault { result ≡ Status.WriteFault → SinkFailed (sink_call K.Sink out.old out.new) }

    // No names but those of the command's files are asked for, in their order, and none behind a FILE that is refused; no
    // fault is passed over.
    ensures asked { AsksFor words.now (S.asked shelf.new) }
    ensures file_first { (files : Files) (command : Command) (file : ModelFile) (bytes written : List ℕ)
        → S.files shelf.old ≡ Some files → AskFor words.now command → file_of command ≡ Some file
        → files file.name ≡ Some bytes → Refuses file.format bytes written → IsFront (S.asked shelf.new) (file.name ∷ []) }
    ensures shelf_faults { ShelfCounted (shelf_call S.Shelf shelf.old shelf.new) → IsOrFault result Status.ReadFault }
    ensures sink_faults { SinkCounted (sink_call K.Sink out.old out.new) → result ≡ Status.WriteFault }
{
    run_words(alloc, words, shelf, out)
}
