//! A row that no variable enters.

ghost use Rattle.std.specs.Prelude.{◌≡◌};
ghost use Rattle.pami_method.specs.Phases.{IsRun};
ghost use Rattle.pami_lines.specs.Line.{text};
ghost use Rattle.pami_text.specs.Record.{run_lines};
ghost use Rattle.pami_examples.specs.Words.{usual};
ghost use Rattle.pami_examples.specs.Passing.{passing, passing_record, passing_answer, passing_named, passing_text};

/// Both candidates are passed and distance is left: the row proves infeasibility.
pub fn passing_is_solved()
    ensures run { IsRun passing usual passing_record passing_answer }
    ensures written { text (run_lines passing_named usual passing_record passing_answer) ≡ passing_text }
{}
