//! A factor that lives past its major, and one that has had its pivots.

ghost use Rattle.std.specs.Prelude.{◌≡◌, Some};
ghost use Rattle.pami_mps.specs.Mps.{Mps};
ghost use Rattle.pami_model_form.specs.ModelForm.{model_form};
ghost use Rattle.pami_method.specs.Factor.{elimination, unfit};
ghost use Rattle.pami_method.specs.Phases.{IsRun};
ghost use Rattle.pami_lines.specs.Line.{text};
ghost use Rattle.pami_text.specs.Record.{run_lines};
ghost use Rattle.pami_examples.specs.Keeping.{keeping_file, keeping_contents, keeping, keeping_options, keeping_record};
ghost use Rattle.pami_examples.specs.Keeping.{keeping_second_basis, keeping_unfit, keeping_answer, keeping_named, keeping_text};

/// Three majors of one pivot each with `--batch 1 --refactor 1`: the second one's solves go through the first one's pivot,
/// since a new elimination wouldn't fit, and the third one eliminates anew, since two pivots are more than one.
pub fn keeping_is_solved()
    ensures read { Mps keeping_file keeping_contents }
    ensures formed { model_form keeping_contents ≡ keeping }
    ensures run { IsRun keeping keeping_options keeping_record keeping_answer }
    ensures anew { unfit (elimination keeping keeping_second_basis.head) ≡ Some keeping_unfit }
    ensures written { text (run_lines keeping_named keeping_options keeping_record keeping_answer) ≡ keeping_text }
{}
