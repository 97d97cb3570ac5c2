//! How the text of a run is put together.

ghost use Rattle.std.specs.Prelude.{◌≡◌, ℕ, [], ◌∷◌, ◌++◌, Some, codes, decimal};
ghost use Rattle.pami_theory.specs.Form.{Form};
ghost use Rattle.pami_method.specs.declared.words.Mode.TheVariants.{Full, Single};
ghost use Rattle.pami_method.specs.declared.words.Options.{Options};
ghost use Rattle.pami_method.specs.declared.words.Place.{Place};
ghost use Rattle.pami_method.specs.Walk.{Major};
ghost use Rattle.pami_method.specs.Phases.{Record, Answer};
ghost use Rattle.pami_lines.specs.Line.{text};
ghost use Rattle.pami_lines.specs.Head.{head_lines};
ghost use Rattle.pami_lines.specs.Names.{Names};
ghost use Rattle.pami_lines.specs.Certificate.{Named};
ghost use Rattle.pami_text.specs.Record.{refused_words, major_lines, phase_lines, answer_lines, run_lines};

/// The text of a run is that of its head, those of its phases and that of its answer, one behind the other.
pub fn runs_are_told_in_order()
    ensures parts { (m : Named) (o : Options) (r : Record) (answer : Answer)
        → text (run_lines m o r answer)
        ≡ text (head_lines m.counts) ++ (text (phase_lines m.names o 1 r.phase_one)
        ++ (text (phase_lines m.names o 2 r.phase_two) ++ text (answer_lines m answer))) }
{}

/// Of a major that was refused, nothing is told of what it did: a Full one leaves the line of its rollback, with the script,
/// the operation and its operands, and a Single one no line.
pub fn refused_majors_leave_a_line_at_most()
    ensures full { (n : Names) (f : Form) (limit : ℕ) (g : Major) (r : Place) → g.mode ≡ Full
        → major_lines n f limit g (Some r) ≡ (codes "rollback" ∷ decimal g.number ∷ refused_words r) ∷ [] }
    ensures single { (n : Names) (f : Form) (limit : ℕ) (g : Major) (r : Place) → g.mode ≡ Single
        → major_lines n f limit g (Some r) ≡ [] }
{}
