//! What a state that is solved afresh is known by.

ghost use Rattle.std.specs.Prelude.{◌≡◌, List, length};
ghost use Rattle.pami_frac.specs.declared.list.Bounds.{Bounds};
ghost use Rattle.pami_theory.specs.Form.{Form};
ghost use Rattle.pami_theory.specs.Basis.{IsBasis};
ghost use Rattle.pami_state.specs.declared.state.State.{State};
ghost use Rattle.pami_state.specs.Columns.{bounds_form, HasBounds};
ghost use Rattle.pami_state.specs.State.{basis_of, IsSolvedAfresh};

/// Such a state at a basis of a form may be read with the form's bounds: its lists have the lengths that this takes.
pub fn solved_states_may_be_read()
    ensures values { (f : Form) (st : State) → IsBasis f (basis_of st) → IsSolvedAfresh f st → length st.values ≡ length st.head }
    ensures stands { (f : Form) (bounds : List Bounds) (st : State) → HasBounds f bounds → IsBasis f (basis_of st)
        → length st.stands ≡ length bounds }
    ensures reduced { (f : Form) (bounds : List Bounds) (st : State) → HasBounds f bounds → IsSolvedAfresh f st
        → length st.reduced ≡ length bounds }
    ensures basis { (f : Form) (bounds : List Bounds) (st : State) → HasBounds f bounds → IsBasis f (basis_of st)
        → IsBasis (bounds_form (length st.head) bounds) (basis_of st) }
{}

/// Such states at one basis have the same values and reduced costs, and are equal where weights and counts are.
pub fn bases_have_one_solved_state()
    ensures values { (f : Form) (a b : State) → IsBasis f (basis_of a) → basis_of a ≡ basis_of b
        → IsSolvedAfresh f a → IsSolvedAfresh f b → a.values ≡ b.values }
    ensures reduced { (f : Form) (a b : State) → IsBasis f (basis_of a) → basis_of a ≡ basis_of b
        → IsSolvedAfresh f a → IsSolvedAfresh f b → a.reduced ≡ b.reduced }
    ensures state { (f : Form) (a b : State) → IsBasis f (basis_of a) → basis_of a ≡ basis_of b
        → IsSolvedAfresh f a → IsSolvedAfresh f b → a.weights ≡ b.weights → a.pivots ≡ b.pivots → a ≡ b }
{}
