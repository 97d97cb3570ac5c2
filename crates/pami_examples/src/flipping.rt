//! A flip, and the flipped variable entering.

ghost use Rattle.std.specs.Prelude.{◌≡◌};
ghost use Rattle.pami_method.specs.Phases.{IsRun};
ghost use Rattle.pami_lines.specs.Line.{text};
ghost use Rattle.pami_text.specs.Record.{run_lines};
ghost use Rattle.pami_examples.specs.Words.{usual};
ghost use Rattle.pami_examples.specs.Flipping.{flipping, flipping_record, flipping_answer, flipping_named, flipping_text};

/// A variable is flipped at the first pivot and enters at the second.
pub fn flipping_is_solved()
    ensures run { IsRun flipping usual flipping_record flipping_answer }
    ensures written { text (run_lines flipping_named usual flipping_record flipping_answer) ≡ flipping_text }
{}
