//! A row variable that enters.

ghost use Rattle.std.specs.Prelude.{◌≡◌};
ghost use Rattle.pami_mps.specs.Mps.{Mps};
ghost use Rattle.pami_model_form.specs.ModelForm.{model_form};
ghost use Rattle.pami_method.specs.Phases.{IsRun};
ghost use Rattle.pami_lines.specs.Line.{text};
ghost use Rattle.pami_text.specs.Record.{run_lines};
ghost use Rattle.pami_examples.specs.Words.{usual};
ghost use Rattle.pami_examples.specs.Returning.{returning_file, returning_contents, returning, returning_record, returning_answer, returning_named, returning_text};

/// A row variable leaves at the first pivot and enters at the second.
pub fn returning_is_solved()
    ensures read { Mps returning_file returning_contents }
    ensures formed { model_form returning_contents ≡ returning }
    ensures run { IsRun returning usual returning_record returning_answer }
    ensures written { text (run_lines returning_named usual returning_record returning_answer) ≡ returning_text }
{}
