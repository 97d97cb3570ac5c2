//! What a model is answered: its form, and the run there.

ghost use Rattle.std.specs.Prelude.{◌≡◌, ◌≤◌, IfOk, OnOk};
ghost use Rattle.pami_model.specs.Contents.{contents};
ghost use Rattle.pami_method.specs.Walk.{IsOptions};
ghost use Rattle.pami_form.specs.FormOf.{form_of as form_for};
ghost use Rattle.pami_model_form.specs.ModelForm.{model_form};
ghost use Rattle.pami_cli.specs.Answer.{RunsSoundly, AnswersRun, AnswersModel};

use crate::answer::{Answer, told_answer};
use crate::refuse::refused_width;
use crate::wish::Wish;
use pami_form::{Form, form_of};
use pami_frac::{Fault, OutOfMemory};
use pami_log::ListTeller;
use pami_lu::Steps;
use pami_model::Model;
use pami_phase::solve;
use std::alloc::Global;

/// What a model of this form is answered.
fn form_answer(alloc: Global, model: &Model, form: &Form, wish: Wish) -> Result<Answer, OutOfMemory>
    requires options { IsOptions wish.options }
    requires form { form_for form.now ≡ model_form (contents model.now) }
    ensures answer { IfOk result (λ a. AnswersRun (contents model.now) wish a.status a.text.items) }
    ensures sound { OnOk result (RunsSoundly (contents model.now) wish.options) }
{
    let mut teller = ListTeller::new(alloc)?;
    // Nobody asks for the count.
    let mut steps = Steps::<()>::new();
    match solve(alloc, form, &wish.options, &mut teller, &mut steps) {
        Ok(answer) => told_answer(alloc, model, form, wish, &answer, teller.events()),
        // A list never fails to be told.
        Err(Fault::Named(_)) => unreachable!(),
        Err(Fault::OutOfMemory) => Err(OutOfMemory),
    }
}

/// What a model is answered.
///
/// # Errors
///
/// `OutOfMemory` alone.
pub fn model_answer(alloc: Global, model: &Model, wish: Wish) -> Result<Answer, OutOfMemory>
    requires options { IsOptions wish.options }
    ensures answer { IfOk result (λ a. AnswersModel (contents model.now) wish a.status a.text.items) }
    ensures sound { OnOk result (RunsSoundly (contents model.now) wish.options) }
{
    match form_of(alloc, model) {
        Ok(form) => form_answer(alloc, model, &form, wish),
        Err(Fault::Named(wide)) => refused_width(alloc, model, wide.variable),
        Err(Fault::OutOfMemory) => Err(OutOfMemory),
    }
}
