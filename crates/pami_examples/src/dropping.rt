//! A row that is dropped between two pivots.

ghost use Rattle.std.specs.Prelude.{◌≡◌};
ghost use Rattle.pami_mps.specs.Mps.{Mps};
ghost use Rattle.pami_model_form.specs.ModelForm.{model_form};
ghost use Rattle.pami_method.specs.Phases.{IsRun};
ghost use Rattle.pami_lines.specs.Line.{text};
ghost use Rattle.pami_text.specs.Record.{run_lines};
ghost use Rattle.pami_examples.specs.Words.{usual};
ghost use Rattle.pami_examples.specs.Dropping.{dropping_file, dropping_contents, dropping, dropping_record, dropping_answer, dropping_named, dropping_text};

/// The first pivot makes the second row feasible, which is dropped before the third one leaves.
pub fn dropping_is_solved()
    ensures read { Mps dropping_file dropping_contents }
    ensures formed { model_form dropping_contents ≡ dropping }
    ensures run { IsRun dropping usual dropping_record dropping_answer }
    ensures written { text (run_lines dropping_named usual dropping_record dropping_answer) ≡ dropping_text }
{}
