//! A step of the dual simplex method: its pivot, and the basis behind it.

ghost use Rattle.std.specs.Prelude.{◌≡◌, ℕ};
ghost use Rattle.pami_linear.specs.Lists.{get};
ghost use Rattle.pami_theory.specs.Form.{Form, zero_f};
ghost use Rattle.pami_theory.specs.Basis.{Basis, head_at, IsBasis, IsRegularBasis};
ghost use Rattle.pami_theory.specs.Fresh.{Fresh, row_at, column_at};
ghost use Rattle.pami_theory.specs.declared.words.Violation.{Violation};
ghost use Rattle.pami_theory.specs.Ratio.{row_entry, IsEntering, entering_at};
ghost use Rattle.pami_theory.specs.Step.{Step, leaving_at, step_by, TakesStep, basis_after};

/// The step of an infeasible place has the variable at which the walk ends; its place and side are the place's own.
pub fn steps_are_of_the_walk()
    ensures enters { (f : Form) (b : Basis) (s : Fresh) (p : ℕ) (v : Violation) (t : Step) → TakesStep f b s p v t
        → IsEntering f b (leaving_at s p v) t.entering }
    ensures parts { (f : Form) (b : Basis) (s : Fresh) (p : ℕ) (v : Violation) (t : Step) → TakesStep f b s p v t
        → t ≡ step_by b p v.side (entering_at f b (leaving_at s p v) t.entering) }
{}

/// The pivot isn't 0, by the row and by the column, and behind the step there is a basis that is regular again.
pub fn steps_keep_a_regular_basis()
    ensures pivot { (f : Form) (b : Basis) (s : Fresh) (p : ℕ) (v : Violation) (t : Step) → TakesStep f b s p v t
        → ¬ (row_entry f (row_at s t.place) t.entering ≡ zero_f) }
    ensures pivot_of_column { (f : Form) (b : Basis) (s : Fresh) (p : ℕ) (v : Violation) (t : Step) → TakesStep f b s p v t
        → ¬ (get (column_at s t.entering) t.place ≡ zero_f) }
    ensures basis { (f : Form) (b : Basis) (s : Fresh) (p : ℕ) (v : Violation) (t : Step) → TakesStep f b s p v t
        → IsBasis f (basis_after b t) }
    ensures regular { (f : Form) (b : Basis) (s : Fresh) (p : ℕ) (v : Violation) (t : Step) → TakesStep f b s p v t
        → IsRegularBasis f (basis_after b t) }
{}
