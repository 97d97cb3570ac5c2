//! What the answers of a run prove of its form.

ghost use Rattle.std.specs.Prelude.{◌≡◌, ℕ, ◌<◌, List, length};
ghost use Rattle.pami_algebra.specs.Fraction.{Fraction};
ghost use Rattle.pami_linear.specs.Lists.{get};
ghost use Rattle.pami_theory.specs.Form.{Form, limits, variables, IsUncrossed};
ghost use Rattle.pami_theory.specs.Fresh.{Fresh};
ghost use Rattle.pami_theory.specs.declared.words.Side.{Side};
ghost use Rattle.pami_theory.specs.Certificate.{HoldsOptimal, HoldsInfeasible, HoldsDualInfeasible};
ghost use Rattle.pami_method.specs.declared.words.Options.{Options};
ghost use Rattle.pami_method.specs.Walk.{State, Major, NoEntering};
ghost use Rattle.pami_method.specs.Phases.{Record, Optimal, Infeasible, DualInfeasible, IsPhaseOne, IsRun};

/// Each answer of a run but a limit and an overflow has its certificate: the values and reduced costs of an optimal one,
/// where no variable's bounds are crossed; the row of an infeasible one; the values of phase one as a ray, where each
/// variable has its bounds in the form.
pub fn answers_have_their_certificates()
    ensures optimal { (f : Form) (o : Options) (r : Record) (st : State) (s : Fresh) → ((v : ℕ) → v < variables f → IsUncrossed (limits f v))
        → IsRun f o r (Optimal st s) → HoldsOptimal f (get s.values) (get s.reduced) }
    ensures infeasible { (f : Form) (o : Options) (r : Record) (y : List Fraction) → IsRun f o r (Infeasible y) → HoldsInfeasible f (get y) }
    ensures dual_infeasible { (f : Form) (o : Options) (r : Record) (st : State) (s : Fresh) → length f.bounds ≡ variables f
        → IsRun f o r (DualInfeasible st s) → HoldsDualInfeasible f (get s.values) }
{}

/// Phase one never lacks an entering variable.
pub fn phase_one_enters()
    ensures enters { (f : Form) (o : Options) (majors : List Major) (p : ℕ) (side : Side) (row : List Fraction) → ¬ IsPhaseOne f o majors (NoEntering p side row) }
{}
