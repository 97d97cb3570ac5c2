//! A major that is rolled back, and one row alone.

ghost use Rattle.std.specs.Prelude.{◌≡◌};
ghost use Rattle.pami_mps.specs.Mps.{Mps};
ghost use Rattle.pami_model_form.specs.ModelForm.{model_form};
ghost use Rattle.pami_method.specs.Phases.{IsRun};
ghost use Rattle.pami_lines.specs.Line.{text};
ghost use Rattle.pami_text.specs.Record.{run_lines};
ghost use Rattle.pami_examples.specs.Words.{usual};
ghost use Rattle.pami_examples.specs.Refusing.{refusing_file, refusing_contents, refusing, refusing_record, refusing_answer, refusing_named, refusing_text};

/// The first major is rolled back, and the row that it began with leaves in a major of its own.
pub fn refusing_is_solved()
    ensures read { Mps refusing_file refusing_contents }
    ensures formed { model_form refusing_contents ≡ refusing }
    ensures run { IsRun refusing usual refusing_record refusing_answer }
    ensures written { text (run_lines refusing_named usual refusing_record refusing_answer) ≡ refusing_text }
{}
