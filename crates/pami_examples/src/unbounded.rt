//! Phase one alone.

ghost use Rattle.std.specs.Prelude.{◌≡◌};
ghost use Rattle.pami_method.specs.Phases.{IsRun};
ghost use Rattle.pami_lines.specs.Line.{text};
ghost use Rattle.pami_text.specs.Record.{run_lines};
ghost use Rattle.pami_examples.specs.Words.{usual};
ghost use Rattle.pami_examples.specs.Unbounded.{unbounded, unbounded_record, unbounded_answer, unbounded_named, unbounded_text};

/// The last basis of the boxes isn't dual feasible on the form's own bounds.
pub fn unbounded_is_solved()
    ensures run { IsRun unbounded usual unbounded_record unbounded_answer }
    ensures written { text (run_lines unbounded_named usual unbounded_record unbounded_answer) ≡ unbounded_text }
{}
