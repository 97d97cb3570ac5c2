//! A form has exactly one run with given options.

ghost use Rattle.std.specs.Prelude.{◌≡◌, ℕ, ◌≤◌, List};
ghost use Rattle.pami_theory.specs.Form.{Form};
ghost use Rattle.pami_theory.specs.Basis.{IsBasis};
ghost use Rattle.pami_theory.specs.Fresh.{Fresh, IsFresh};
ghost use Rattle.pami_method.specs.Batch.{Reached, Minor, IsBatch};
ghost use Rattle.pami_method.specs.declared.words.Mode.{Mode};
ghost use Rattle.pami_method.specs.declared.words.Options.{Options};
ghost use Rattle.pami_method.specs.Walk.{State, Major, WalkEnd, IsWalk};
ghost use Rattle.pami_method.specs.Phases.{Record, Answer, IsRun};

/// Two runs of one form with the same options have the same record and the same answer.
pub fn runs_are_determined()
    ensures only { (f : Form) (o : Options) (r q : Record) (a c : Answer) → IsRun f o r a → IsRun f o q c → (r ≡ q) × (a ≡ c) }
{}

/// There is a run wherever a batch may have a row. It ends since each kept
/// major pivots, up to the limit. From a basis with what is solved there, there are a batch and, within the limit, a walk.
pub fn runs_exist()
    ensures run { (f : Form) (o : Options) → 1 ≤ o.batch → (r : Record) × (a : Answer) × IsRun f o r a }
    ensures walk { (f : Form) (o : Options) (number : ℕ) (mode : Mode) (st : State) (s : Fresh) → 1 ≤ o.batch → IsBasis f st.basis → IsFresh f st.basis s → st.count ≤ o.limit
        → (gs : List Major) × (end : WalkEnd) × IsWalk f o number mode st gs end }
    ensures batch { (f : Form) (limit : ℕ) (first : Reached) → IsBasis f first.basis → IsFresh f first.basis first.fresh
        → (ms : List Minor) × (last : Reached) × IsBatch f limit first ms last }
{}
