//! The command `trial`: the model that a seed draws, the run on its form, and a summary of it.

ghost use Rattle.std.specs.Prelude.{◌≡◌, ◌++◌, IfOk, OnOk};
ghost use Rattle.pami_model.specs.Contents.{contents};
ghost use Rattle.pami_model_form.specs.ModelForm.{model_form};
ghost use Rattle.pami_lines.specs.Line.{line};
ghost use Rattle.pami_form.specs.FormOf.{form_of as form_for};
ghost use Rattle.pami_trial.specs.Transport.{IsSide, trial_model as the_trial_model};
ghost use Rattle.pami_cli.specs.Solved.{IsTold};
ghost use Rattle.pami_cli.specs.Answer.{RunsTruly};
ghost use Rattle.pami_cli.specs.Summary.{trial_line};
ghost use Rattle.pami_cli.specs.Trial.{default_options as the_default_options, AnswersTrial, TellsRun, TrialHolds};

use crate::answer::{Answer, status_of};
use crate::status::Status;
use crate::summary::{push_counts, push_outcome};
use pami_form::{Form, form_of};
use pami_frac::{Fault, OutOfMemory};
use pami_lines::push_number;
use pami_log::{Event, ListTeller};
use pami_lu::Steps;
use pami_major::Options;
use pami_model::Model;
use pami_phase::{Answer as Solved, solve};
use pami_trial::trial_model;
use pami_words::{DEFAULT_BATCH, DEFAULT_LIMIT, DEFAULT_REFACTOR};
use std::alloc::Global;

/// The options of a run where none are given.
fn default_options() -> Options
    ensures { result ≡ the_default_options }
{
    Options {
        batch: DEFAULT_BATCH,
        refactor: DEFAULT_REFACTOR,
        limit: DEFAULT_LIMIT,
    }
}

/// The last two lines of a summary, from the answer on the model's form and the events that were told of the run there. The
/// status is that of the answer.
///
/// # Errors
///
/// `OutOfMemory` alone.
fn push_told(
    alloc: Global,
    out: &mut Vec<u8>,
    model: &Model,
    form: &Form,
    answer: &Solved,
    events: &[Event],
) -> Result<Status, OutOfMemory>
    requires form { form_for form.now ≡ model_form (contents model.now) }
    requires told { IsTold (model_form (contents model.now)) the_default_options answer.now events.now }
    ensures { IfOk result (λ status. TellsRun (contents model.now) status out.old.items out.new.items) }
{
    push_outcome(alloc, out, model, form, answer)?;
    push_counts(out, events)?;
    Ok(status_of(answer))
}

/// The last two lines of a summary, from the run of a model of this form. The status is that of the answer.
///
/// # Errors
///
/// `OutOfMemory` alone.
fn push_run(
    alloc: Global,
    out: &mut Vec<u8>,
    model: &Model,
    form: &Form,
) -> Result<Status, OutOfMemory>
    requires form { form_for form.now ≡ model_form (contents model.now) }
    ensures told { IfOk result (λ status. TellsRun (contents model.now) status out.old.items out.new.items) }
    ensures holds { OnOk result (RunsTruly (contents model.now) the_default_options) }
{
    let mut teller = ListTeller::new(alloc)?;
    // Nobody asks for the count.
    let mut steps = Steps::<()>::new();
    match solve(alloc, form, &default_options(), &mut teller, &mut steps) {
        Ok(answer) => push_told(alloc, out, model, form, &answer, teller.events()),
        // A list never fails to be told.
        Err(Fault::Named(_)) => unreachable!(),
        Err(Fault::OutOfMemory) => Err(OutOfMemory),
    }
}

/// The first line of a summary.
///
/// # Errors
///
/// `OutOfMemory` alone.
fn begun(alloc: Global, seed: u32, sources: u32, sinks: u32) -> Result<Vec<u8>, OutOfMemory>
    ensures { IfOk result (λ text. text.items ≡ line (trial_line seed sources sinks)) }
{
    let mut text = Vec::from_slice(alloc, b"trial")?;
    push_number(&mut text, u64::from(seed))?;
    push_number(&mut text, u64::from(sources))?;
    push_number(&mut text, u64::from(sinks))?;
    text.push(b'\n')?;
    Ok(text)
}

/// What a trial is answered: the summary of the run of the model that the seed draws, with so many sources and sinks.
///
/// # Errors
///
/// `OutOfMemory` alone.
pub fn trial_answer(
    alloc: Global,
    seed: u32,
    sources: u32,
    sinks: u32,
) -> Result<Answer, OutOfMemory>
    requires sources { IsSide sources }
    requires sinks { IsSide sinks }
    ensures answer { IfOk result (λ a. AnswersTrial seed sources sinks a.status a.text.items) }
    ensures holds { OnOk result (TrialHolds seed sources sinks) }
{
    let model = trial_model(alloc, seed, sources, sinks)?;
    let mut text = begun(alloc, seed, sources, sinks)?;
    match form_of(alloc, &model) {
        Ok(form) => {
            let status = push_run(alloc, &mut text, &model, &form)?;
            Ok(Answer { status, text })
        }
        // Each box begins at 0, so that its width is its upper bound.
        Err(Fault::Named(_)) => unreachable!(),
        Err(Fault::OutOfMemory) => Err(OutOfMemory),
    }
}
