//! Walks: one major of a state, one walk, and the limit of its pivots.

ghost use Rattle.std.specs.Prelude.{◌≡◌, ℕ, ◌≤◌, List, Some};
ghost use Rattle.std.specs.List.{All};
ghost use Rattle.pami_theory.specs.Form.{Form};
ghost use Rattle.pami_theory.specs.Basis.{IsBasis};
ghost use Rattle.pami_theory.specs.Fresh.{IsFresh};
ghost use Rattle.pami_method.specs.declared.words.Mode.{Mode};
ghost use Rattle.pami_method.specs.declared.words.Mode.TheVariants.{Full, Single};
ghost use Rattle.pami_method.specs.declared.words.Options.{Options};
ghost use Rattle.pami_method.specs.declared.words.Place.{Place};
ghost use Rattle.pami_method.specs.Walk.{State, Major, IsMajor, WalkEnd, Optimal, Limit, Overflow, Ends, GoesOn, refused_in, after, IsWalk};

/// A state that stands at a basis has one major of a number and a mode, and what it begins with is determined by the mode.
pub fn majors_are_determined()
    ensures first { (f : Form) (o : Options) (st : State) (g h : Major) → IsBasis f st.basis → g.mode ≡ h.mode
        → IsMajor f o st g → IsMajor f o st h → g.first ≡ h.first }
    ensures only { (f : Form) (o : Options) (st : State) (g h : Major) → IsBasis f st.basis → g.number ≡ h.number → g.mode ≡ h.mode
        → IsMajor f o st g → IsMajor f o st h → g ≡ h }
    ensures ends { (f : Form) (o : Options) (st : State) (g : Major) → IsBasis f st.basis → IsMajor f o st g
        → IsBasis f g.last.basis × IsFresh f g.last.basis g.last.fresh }
{}

/// A refused major of mode Full is rolled back: one of mode Single follows from the same state, so that none of its pivots
/// counts. A refused one of mode Single ends the walk with its refusal.
pub fn refused_majors_are_rolled_back()
    ensures again { (f : Form) (o : Options) (st : State) (g : Major) (refused : Place) → g.mode ≡ Full
        → refused_in f o st g ≡ Some refused → after f o st g ≡ GoesOn Single st }
    ensures ends { (f : Form) (o : Options) (st : State) (g : Major) (refused : Place) → g.mode ≡ Single
        → refused_in f o st g ≡ Some refused → after f o st g ≡ Ends (Overflow refused) }
{}

/// From a state that stands at a basis there is one walk at most: its majors and its end.
pub fn walks_are_determined()
    ensures only { (f : Form) (o : Options) (number : ℕ) (mode : Mode) (st : State) (gs hs : List Major) (end found : WalkEnd) → IsBasis f st.basis
        → IsWalk f o number mode st gs end → IsWalk f o number mode st hs found → (gs ≡ hs) × (end ≡ found) }
    ensures optimal { (f : Form) (o : Options) (number : ℕ) (mode : Mode) (st : State) (gs : List Major) (last : State) → IsBasis f st.basis
        → IsWalk f o number mode st gs (Optimal last) → IsBasis f last.basis }
    ensures limited { (f : Form) (o : Options) (number : ℕ) (mode : Mode) (st : State) (gs : List Major) (last : State) → IsBasis f st.basis
        → IsWalk f o number mode st gs (Limit last) → IsBasis f last.basis }
{}

/// The pivots of a walk never pass the limit: not within a major that was tried, and not at the end.
pub fn walks_stay_within_the_limit()
    ensures majors { (f : Form) (o : Options) (number : ℕ) (mode : Mode) (st : State) (gs : List Major) (end : WalkEnd) → st.count ≤ o.limit
        → IsWalk f o number mode st gs end → All (λ (g : Major). g.last.count ≤ o.limit) gs }
    ensures optimal { (f : Form) (o : Options) (number : ℕ) (mode : Mode) (st : State) (gs : List Major) (last : State) → st.count ≤ o.limit
        → IsWalk f o number mode st gs (Optimal last) → last.count ≤ o.limit }
    ensures limited { (f : Form) (o : Options) (number : ℕ) (mode : Mode) (st : State) (gs : List Major) (last : State) → st.count ≤ o.limit
        → IsWalk f o number mode st gs (Limit last) → last.count ≤ o.limit }
{}
