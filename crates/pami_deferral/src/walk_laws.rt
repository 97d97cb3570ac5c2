//! The factors along walks and runs.

ghost use Rattle.std.specs.Prelude.{◌≡◌, ℕ, List};
ghost use Rattle.pami_theory.specs.Form.{Form};
ghost use Rattle.pami_theory.specs.Basis.{Basis, IsBasis};
ghost use Rattle.pami_method.specs.declared.words.Mode.{Mode};
ghost use Rattle.pami_method.specs.declared.words.Options.{Options};
ghost use Rattle.pami_method.specs.Walk.{State, Major, IsMajor, history_of, state_after, WalkEnd, Optimal, Limit, IsWalk};
ghost use Rattle.pami_method.specs.Phases.{starting_state, switched_state, Record, Answer, IsRun};
ghost use Rattle.pami_deferral.specs.Factored.{IsHistoryOf};
ghost use Rattle.pami_deferral.specs.Factors.{IsFactored, HasFactor, AllStates, IsFactoredPhase};

/// Where the first state of a walk has no factor or one of its own basis, each major works with a factor of the basis that it
/// begins with, kept from earlier majors or new; behind a major that is kept there is a factor of the basis reached; and so at
/// each state of the walk, also where a major was rolled back, and at its end.
pub fn factors_stand_along_walks()
    ensures works { (f : Form) (o : Options) (st : State) (g : Major) → IsFactored f st
        → IsHistoryOf f (history_of o st g) st.basis }
    ensures kept { (f : Form) (o : Options) (st : State) (g : Major) → IsFactored f st → IsMajor f o st g
        → HasFactor f (state_after o st g) }
    ensures states { (f : Form) (o : Options) (number : ℕ) (mode : Mode) (st : State) (gs : List Major)
        (end : WalkEnd)
        → IsFactored f st → IsWalk f o number mode st gs end
        → AllStates (IsFactored f) f o st gs }
    ensures optimal { (f : Form) (o : Options) (number : ℕ) (mode : Mode) (st : State) (gs : List Major)
        (last : State)
        → IsFactored f st → IsWalk f o number mode st gs (Optimal last)
        → IsFactored f last }
    ensures limited { (f : Form) (o : Options) (number : ℕ) (mode : Mode) (st : State) (gs : List Major)
        (last : State)
        → IsFactored f st → IsWalk f o number mode st gs (Limit last)
        → IsFactored f last }
{}

/// A phase begins without a factor, and phase two behind a switch with the one that the switch eliminated. So in both phases
/// of a run each factor is one of its state's basis.
pub fn factors_stand_along_runs()
    ensures start { (f : Form) → IsFactored f (starting_state f) }
    ensures switch { (f : Form) (b : Basis) (count : ℕ) → IsBasis f b → HasFactor f (switched_state f b count) }
    ensures phases { (f : Form) (o : Options) (r : Record) (a : Answer) → IsRun f o r a
        → IsFactoredPhase o r.phase_one × IsFactoredPhase o r.phase_two }
{}
