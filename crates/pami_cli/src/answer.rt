//! What a run is answered at its end: a status, and the text of the run up to its last line.

ghost use Rattle.std.specs.Prelude.{◌≡◌, ◌++◌, ℕ, IfOk, OnOk};
ghost use Rattle.pami_model.specs.Contents.{contents};
ghost use Rattle.pami_theory.specs.Form as theory;
ghost use Rattle.pami_method.specs.Phases as phases;
ghost use Rattle.pami_model_form.specs.ModelForm.{model_form};
ghost use Rattle.pami_model_form.specs.Named.{named_of};
ghost use Rattle.pami_lines.specs.Line.{text};
ghost use Rattle.pami_text.specs.Record.{answer_lines};
ghost use Rattle.pami_form.specs.FormOf.{form_of as form_for};
ghost use Rattle.pami_phase.specs.Runs.{IsAnswerOf};
ghost use Rattle.pami_cli.specs.Solved.{IsReadable, IsTold};
ghost use Rattle.pami_cli.specs.Text.{ranges_behind};
ghost use Rattle.pami_cli.specs.Answer.{HasStatus, IsCertified, RunsSoundly, AnswersRun};

use crate::print::{
    begun, push_dual_infeasible, push_infeasible, push_limit, push_optimal, push_overflow,
};
use crate::ranges::push_range_lines;
use crate::status::Status;
use crate::wish::Wish;
use pami_form::Form;
use pami_frac::OutOfMemory;
use pami_log::Event;
use pami_model::Model;
use pami_phase::Answer as Solved;
use std::alloc::Global;

/// A status and the whole text that goes with it.
#[derive(Drop)]
pub struct Answer {
    pub status: Status,
    pub text: Vec<u8>,
}

/// The status that goes with the answer of a form.
pub fn status_of(answer: &Solved) -> Status
    ensures { (f : theory.Form) (a : phases.Answer) → IsAnswerOf f answer.now a → HasStatus a result }
{
    match answer {
        Solved::Optimal { .. } => Status::Good,
        Solved::Infeasible { .. } => Status::Infeasible,
        Solved::DualInfeasible { .. } => Status::DualInfeasible,
        Solved::Limit { .. } => Status::Limit,
        Solved::Overflow(_) => Status::Overflow,
    }
}

/// The last lines of a run, from the answer on the model's form; the ranges behind an optimal one are written by themselves.
///
/// # Errors
///
/// `OutOfMemory` alone.
fn push_answer(
    alloc: Global,
    out: &mut Vec<u8>,
    model: &Model,
    form: &Form,
    answer: &Solved,
) -> Result<(), OutOfMemory>
    requires form { form_for form.now ≡ model_form (contents model.now) }
    requires readable { IsReadable (model_form (contents model.now)) answer.now }
    ensures lines { OnOk result ((a : phases.Answer) → IsAnswerOf (model_form (contents model.now)) answer.now a
        → out.new.items ≡ out.old.items ++ text (answer_lines (named_of (contents model.now)) a)) }
    ensures certified { OnOk result ((a : phases.Answer) → IsAnswerOf (model_form (contents model.now)) answer.now a
        → IsCertified (contents model.now) a) }
{
    match answer {
        Solved::Optimal { state, factor: _ } => {
            let values = state.values(alloc, form.bounds.as_slice())?;
            push_optimal(alloc, out, model, values.as_slice(), state)
        }
        Solved::Infeasible { y } => push_infeasible(alloc, out, model, y),
        Solved::DualInfeasible { state, form } => {
            let values = state.values(alloc, form.bounds.as_slice())?;
            push_dual_infeasible(alloc, out, model, values.as_slice())
        }
        Solved::Limit { state } => push_limit(out, model, state),
        Solved::Overflow(place) => push_overflow(out, place),
    }
}

/// The lines of the ranges, where they are wanted and the answer is optimal.
///
/// # Errors
///
/// `OutOfMemory` alone.
fn push_wanted(
    alloc: Global,
    out: &mut Vec<u8>,
    model: &Model,
    form: &Form,
    answer: &Solved,
    wanted: bool,
) -> Result<(), OutOfMemory>
    requires form { form_for form.now ≡ model_form (contents model.now) }
    requires readable { IsReadable (model_form (contents model.now)) answer.now }
    ensures { OnOk result ((a : phases.Answer) → IsAnswerOf (model_form (contents model.now)) answer.now a
        → out.new.items ≡ out.old.items ++ text (ranges_behind (contents model.now) wanted a)) }
{
    match answer {
        Solved::Optimal { state, factor: _ } => {
            if wanted {
                push_range_lines(alloc, out, model, form, state)
            } else {
                Ok(())
            }
        }
        Solved::Infeasible { .. } => Ok(()),
        Solved::DualInfeasible { .. } => Ok(()),
        Solved::Limit { .. } => Ok(()),
        Solved::Overflow(_) => Ok(()),
    }
}

/// What a model is answered from the answer on its form and the events that were told of the run there.
///
/// # Errors
///
/// `OutOfMemory` alone.
pub fn told_answer(
    alloc: Global,
    model: &Model,
    form: &Form,
    wish: Wish,
    answer: &Solved,
    events: &[Event],
) -> Result<Answer, OutOfMemory>
    requires form { form_for form.now ≡ model_form (contents model.now) }
    requires told { IsTold (model_form (contents model.now)) wish.options answer.now events.now }
    ensures answer { IfOk result (λ a. AnswersRun (contents model.now) wish a.status a.text.items) }
    ensures sound { OnOk result (RunsSoundly (contents model.now) wish.options) }
{
    let mut text = begun(alloc, model, events)?;
    push_answer(alloc, &mut text, model, form, answer)?;
    push_wanted(alloc, &mut text, model, form, answer, wish.ranging)?;
    Ok(Answer {
        status: status_of(answer),
        text,
    })
}
