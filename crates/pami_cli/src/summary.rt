//! What a summary tells of a run: its answer, its objective, and how many lines of some kinds its text has.

ghost use Rattle.std.specs.Prelude.{ℕ, List, ◌≡◌, ◌≤◌, ◌^◌, ◌∷◌, [], ◌++◌, OnOk, codes, decimal, length, map};
ghost use Rattle.std.specs.List.{flat_map};
ghost use Rattle.std.specs.Str.{bytes_eq};
ghost use Rattle.pami_model.specs.Contents.{Contents, contents};
ghost use Rattle.pami_theory.specs.Form as theory;
ghost use Rattle.pami_method.specs.Phases as phases;
ghost use Rattle.pami_model_form.specs.ModelForm.{model_form};
ghost use Rattle.pami_model_form.specs.Named.{named_of};
ghost use Rattle.pami_lines.specs.Line.{line};
ghost use Rattle.pami_lines.specs.Head.{Counts};
ghost use Rattle.pami_lines.specs.Names.{Names};
ghost use Rattle.pami_text.specs.Record.{answer_lines};
ghost use Rattle.pami_log.specs.Events.{move_line, event_lines};
ghost use Rattle.pami_form.specs.FormOf.{form_of as form_for};
ghost use Rattle.pami_phase.specs.Runs.{IsAnswerOf};
ghost use Rattle.pami_cli.specs.Solved.{IsReadable};
ghost use Rattle.pami_cli.specs.Summary.{begins, count_lines, told_behind};

use crate::certificate::told_objective;
use itoa::Buffer;
use pami_form::Form;
use pami_frac::OutOfMemory;
use pami_lines::{push_fraction, push_word};
use pami_log::{Event, Move};
use pami_model::Model;
use pami_phase::Answer as Solved;
use std::alloc::Global;

/// The first word of the line of a move.
fn move_word(it: &Move) -> &'static [u8]
    ensures { (names : Names) (word : List ℕ) → begins word (move_line names it.now) ≡ bytes_eq result.now word }
{
    match it {
        Move::Dropped { .. } => b"drop",
        Move::Flipped { .. } => b"flip",
        Move::Pivoted { .. } => b"pivot",
        Move::Stuck { .. } => b"none",
    }
}

/// How many lines of these moves begin with the word.
fn count_moves(moves: &[Move], word: &[u8]) -> usize
    ensures count { (names : Names) → result ≡ count_lines word.now (map (move_line names) moves.now) }
{
    let mut count = 0;
    for it in moves {
        if move_word(it) == word {
            count += 1;
        }
    }
    count
}

/// 1 for the word itself, and 0 for another one.
fn one_for(own: &[u8], word: &[u8]) -> u128
    ensures count { (behind : List (List ℕ)) → result ≡ count_lines word.now ((own.now ∷ behind) ∷ []) }
    ensures small { result ≤ 1 }
{
    if own == word { 1 } else { 0 }
}

/// How many lines of an event begin with the word.
fn count_lines_of(event: &Event, word: &[u8]) -> u128
    ensures count { (names : Names) (counts : Counts) → result ≡ count_lines word.now (event_lines names counts event.now) }
    ensures small { result ≤ 2 ^ 64 }
{
    match event {
        Event::Header => one_for(b"pami", word) + one_for(b"model", word),
        Event::Phase(_) => one_for(b"phase", word),
        Event::Major { moves, .. } => {
            one_for(b"major", word) + count_moves(moves.as_slice(), word) as u128
        }
        Event::Rollback { .. } => one_for(b"rollback", word),
    }
}

/// How many lines of these events begin with the word.
fn count_events(events: &[Event], word: &[u8]) -> u128
    ensures { (names : Names) (counts : Counts) → result ≡ count_lines word.now (flat_map (event_lines names counts) events.now) }
{
    let mut count = 0;
    for event in events {
        count += count_lines_of(event, word);
    }
    count
}

/// A blank and a count.
///
/// # Errors
///
/// `OutOfMemory` alone.
fn push_digits(out: &mut Vec<u8>, count: u128) -> Result<(), OutOfMemory>
    ensures { OnOk result (out.new.items ≡ out.old.items ++ 32 ∷ decimal count) }
{
    let mut digits = Buffer::new();
    out.push(b' ')?;
    out.extend_from_slice(digits.format(count).as_bytes())?;
    Ok(())
}

/// A word, and how many lines of these events begin with another one.
///
/// # Errors
///
/// `OutOfMemory` alone.
fn push_counted(
    out: &mut Vec<u8>,
    name: &[u8],
    events: &[Event],
    word: &[u8],
) -> Result<(), OutOfMemory>
    ensures { OnOk result ((names : Names) (counts : Counts)
        → out.new.items ≡ out.old.items ++ (name.now ++ 32 ∷ decimal (count_lines word.now (flat_map (event_lines names counts) events.now)))) }
{
    out.extend_from_slice(name)?;
    push_digits(out, count_events(events, word))
}

/// The line of the counts, from the events of a run.
///
/// # Errors
///
/// `OutOfMemory` alone.
pub fn push_counts(out: &mut Vec<u8>, events: &[Event]) -> Result<(), OutOfMemory>
    ensures { OnOk result ((names : Names) (counts : Counts)
        → out.new.items ≡ out.old.items ++ line (
        codes "pivots" ∷ decimal (count_lines (codes "pivot") (flat_map (event_lines names counts) events.now))
        ∷ codes "majors" ∷ decimal (count_lines (codes "major") (flat_map (event_lines names counts) events.now))
        ∷ codes "flips" ∷ decimal (count_lines (codes "flip") (flat_map (event_lines names counts) events.now))
        ∷ codes "rollbacks" ∷ decimal (count_lines (codes "rollback") (flat_map (event_lines names counts) events.now)) ∷ [])) }
{
    push_counted(out, b"pivots", events, b"pivot")?;
    push_counted(out, b" majors", events, b"major")?;
    push_counted(out, b" flips", events, b"flip")?;
    push_counted(out, b" rollbacks", events, b"rollback")?;
    out.push(b'\n')?;
    Ok(())
}

/// The word of an answer.
fn answer_word(answer: &Solved) -> &'static [u8]
    ensures { (c : Contents) (f : theory.Form) (a : phases.Answer) → IsAnswerOf f answer.now a
        → result.now ≡ told_behind (codes "answer") (answer_lines (named_of c) a) }
{
    match answer {
        Solved::Optimal { .. } => b"optimal",
        Solved::Infeasible { .. } => b"infeasible",
        Solved::DualInfeasible { .. } => b"dual-infeasible",
        Solved::Limit { .. } => b"limit",
        Solved::Overflow(_) => b"overflow",
    }
}

/// A blank and the objective of an answer: where it is optimal and has none that fits, `wide`; where it isn't, a dash.
///
/// # Errors
///
/// `OutOfMemory` alone.
fn push_objective(
    alloc: Global,
    out: &mut Vec<u8>,
    model: &Model,
    form: &Form,
    answer: &Solved,
) -> Result<(), OutOfMemory>
    requires form { form_for form.now ≡ model_form (contents model.now) }
    requires readable { IsReadable (model_form (contents model.now)) answer.now }
    ensures { OnOk result ((a : phases.Answer) → IsAnswerOf (model_form (contents model.now)) answer.now a
        → out.new.items ≡ out.old.items ++ 32 ∷ told_behind (codes "objective") (answer_lines (named_of (contents model.now)) a)) }
{
    match answer {
        Solved::Optimal { state, factor: _ } => {
            let values = state.values(alloc, form.bounds.as_slice())?;
            match told_objective(model.constant, model.columns.as_slice(), values.as_slice()) {
                Some(value) => push_fraction(out, &value),
                None => push_word(out, b"wide"),
            }
        }
        Solved::Infeasible { .. } => push_word(out, b"-"),
        Solved::DualInfeasible { .. } => push_word(out, b"-"),
        Solved::Limit { .. } => push_word(out, b"-"),
        Solved::Overflow(_) => push_word(out, b"-"),
    }
}

/// The line of the answer: its word and its objective.
///
/// # Errors
///
/// `OutOfMemory` alone.
pub fn push_outcome(
    alloc: Global,
    out: &mut Vec<u8>,
    model: &Model,
    form: &Form,
    answer: &Solved,
) -> Result<(), OutOfMemory>
    requires form { form_for form.now ≡ model_form (contents model.now) }
    requires readable { IsReadable (model_form (contents model.now)) answer.now }
    ensures { OnOk result ((a : phases.Answer) → IsAnswerOf (model_form (contents model.now)) answer.now a
        → out.new.items ≡ out.old.items ++ line (codes "answer" ∷ told_behind (codes "answer") (answer_lines (named_of (contents model.now)) a)
        ∷ codes "objective" ∷ told_behind (codes "objective") (answer_lines (named_of (contents model.now)) a) ∷ [])) }
{
    out.extend_from_slice(b"answer")?;
    push_word(out, answer_word(answer))?;
    push_word(out, b"objective")?;
    push_objective(alloc, out, model, form, answer)?;
    out.push(b'\n')?;
    Ok(())
}
