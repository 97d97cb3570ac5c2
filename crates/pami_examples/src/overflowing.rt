//! A run that ends with a refusal.

ghost use Rattle.std.specs.Prelude.{◌≡◌};
ghost use Rattle.pami_mps.specs.Mps.{Mps};
ghost use Rattle.pami_model_form.specs.ModelForm.{model_form};
ghost use Rattle.pami_method.specs.Phases.{IsRun};
ghost use Rattle.pami_lines.specs.Line.{text};
ghost use Rattle.pami_text.specs.Record.{run_lines};
ghost use Rattle.pami_examples.specs.Words.{usual};
ghost use Rattle.pami_examples.specs.Overflowing.{overflowing_file, overflowing_contents, overflowing, overflowing_record, overflowing_answer, overflowing_named, overflowing_text};

/// The first major is rolled back and its first row leaves alone; the third is rolled back at a solve, and alone its
/// row is refused at the new elimination, which ends the run.
pub fn overflowing_is_solved()
    ensures read { Mps overflowing_file overflowing_contents }
    ensures formed { model_form overflowing_contents ≡ overflowing }
    ensures run { IsRun overflowing usual overflowing_record overflowing_answer }
    ensures written { text (run_lines overflowing_named usual overflowing_record overflowing_answer)
        ≡ overflowing_text }
{}
