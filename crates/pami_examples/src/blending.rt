//! Five rows: three pivots in the order of merit, and a flip.

ghost use Rattle.std.specs.Prelude.{◌≡◌};
ghost use Rattle.pami_method.specs.Phases.{IsRun};
ghost use Rattle.pami_lines.specs.Line.{text};
ghost use Rattle.pami_text.specs.Record.{run_lines};
ghost use Rattle.pami_examples.specs.Words.{usual};
ghost use Rattle.pami_examples.specs.Blending.{blending, blending_record, blending_answer, blending_named, blending_text};

/// Three rows leave in the order of merit; in the second minor a boxed variable is flipped.
pub fn blending_is_solved()
    ensures run { IsRun blending usual blending_record blending_answer }
    ensures written { text (run_lines blending_named usual blending_record blending_answer) ≡ blending_text }
{}
