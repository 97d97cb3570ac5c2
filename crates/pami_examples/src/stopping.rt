//! Two pivots, and then a row that no variable enters; and the same with a limit of one pivot.

ghost use Rattle.std.specs.Prelude.{◌≡◌};
ghost use Rattle.pami_method.specs.Phases.{IsRun};
ghost use Rattle.pami_lines.specs.Line.{text};
ghost use Rattle.pami_text.specs.Record.{run_lines};
ghost use Rattle.pami_examples.specs.Words.{usual, limited};
ghost use Rattle.pami_examples.specs.Stopping.{stopping, stopping_record, stopping_answer, stopping_named, stopping_text, stopping_limited_record, stopping_limited_answer, stopping_limited_text};

/// Two rows pivot, and no variable enters for the third: nothing is collected, and the third row proves infeasibility.
/// A limit of one pivot stops the batch behind the first.
pub fn stopping_is_solved()
    ensures run { IsRun stopping usual stopping_record stopping_answer }
    ensures written { text (run_lines stopping_named usual stopping_record stopping_answer) ≡ stopping_text }
    ensures limited_run { IsRun stopping limited stopping_limited_record stopping_limited_answer }
    ensures limited_written { text (run_lines stopping_named limited stopping_limited_record stopping_limited_answer)
        ≡ stopping_limited_text }
{}
