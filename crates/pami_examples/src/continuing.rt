//! Both phases, with a major in each.

ghost use Rattle.std.specs.Prelude.{◌≡◌};
ghost use Rattle.pami_mps.specs.Mps.{Mps};
ghost use Rattle.pami_model_form.specs.ModelForm.{model_form};
ghost use Rattle.pami_method.specs.Phases.{IsRun};
ghost use Rattle.pami_lines.specs.Line.{text};
ghost use Rattle.pami_text.specs.Record.{run_lines};
ghost use Rattle.pami_examples.specs.Words.{usual};
ghost use Rattle.pami_examples.specs.Continuing.{continuing_file, continuing_contents, continuing, continuing_record, continuing_answer, continuing_named, continuing_text};

/// A start that isn't dual feasible: one pivot in the boxes, and one more behind the switch, with the next number and count
/// and with the factor of the switch.
pub fn continuing_is_solved()
    ensures read { Mps continuing_file continuing_contents }
    ensures formed { model_form continuing_contents ≡ continuing }
    ensures run { IsRun continuing usual continuing_record continuing_answer }
    ensures written { text (run_lines continuing_named usual continuing_record continuing_answer) ≡ continuing_text }
{}
