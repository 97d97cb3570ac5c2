//! The ranges at the last state of a run that ended optimal.

ghost use Rattle.std.specs.Prelude.{◌≡◌, ◌++◌, OnOk};
ghost use Rattle.pami_model.specs.Contents.{contents};
ghost use Rattle.pami_model_form.specs.ModelForm.{model_form};
ghost use Rattle.pami_lines.specs.Line.{text};
ghost use Rattle.pami_theory.specs.Fresh.{Fresh, IsFresh};
ghost use Rattle.pami_state.specs.State.{basis_of};
ghost use Rattle.pami_form.specs.FormOf.{form_of as form_for};
ghost use Rattle.pami_range.specs.Optimal.{IsOptimal};
ghost use Rattle.pami_range.specs.RangeLines.{range_lines};

use pami_form::Form;
use pami_frac::OutOfMemory;
use pami_lu::Steps;
use pami_model::Model;
use pami_range::{bound_spans, cost_spans, push_ranges};
use pami_state::State;
use std::alloc::Global;

/// The lines of the ranges: how far each cost, and each bound at which a variable stands, may be moved while the last basis
/// stays optimal.
///
/// # Errors
///
/// `OutOfMemory` alone.
pub fn push_range_lines(
    alloc: Global,
    out: &mut Vec<u8>,
    model: &Model,
    form: &Form,
    state: &State,
) -> Result<(), OutOfMemory>
    requires form { form_for form.now ≡ model_form (contents model.now) }
    requires optimal { IsOptimal form.now state.now }
    ensures { OnOk result ((s : Fresh) → IsFresh (model_form (contents model.now)) (basis_of state.now) s
        → out.new.items ≡ out.old.items ++ text (range_lines (contents model.now) (basis_of state.now) s)) }
{
    // Nobody asks for the count.
    let mut steps = Steps::<()>::new();
    let costs = cost_spans(alloc, form, state, &mut steps)?;
    let bounds = bound_spans(alloc, form, state, &mut steps)?;
    push_ranges(out, model, costs.as_slice(), bounds.as_slice())
}
