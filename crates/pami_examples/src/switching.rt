//! Both phases.

ghost use Rattle.std.specs.Prelude.{◌≡◌};
ghost use Rattle.pami_method.specs.Phases.{IsRun};
ghost use Rattle.pami_lines.specs.Line.{text};
ghost use Rattle.pami_text.specs.Record.{run_lines};
ghost use Rattle.pami_examples.specs.Words.{usual};
ghost use Rattle.pami_examples.specs.Switching.{switching, switching_record, switching_answer, switching_named, switching_text};

/// A start that isn't dual feasible: one pivot in the boxes, and behind the switch no place is infeasible.
pub fn switching_is_solved()
    ensures run { IsRun switching usual switching_record switching_answer }
    ensures written { text (run_lines switching_named usual switching_record switching_answer) ≡ switching_text }
{}
