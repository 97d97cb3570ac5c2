//! Batches: what a turn that pivots does, how many pivots there are, and that there is one batch.

ghost use Rattle.std.specs.Prelude.{◌≡◌, ℕ, ◌+◌, ◌<◌, ◌≤◌, List, length};
ghost use Rattle.pami_theory.specs.Form.{Form};
ghost use Rattle.pami_theory.specs.Basis.{IsBasis};
ghost use Rattle.pami_theory.specs.Fresh.{IsFresh};
ghost use Rattle.pami_theory.specs.Choice.{InfeasibleRow};
ghost use Rattle.pami_theory.specs.Step.{Step, TakesStep};
ghost use Rattle.pami_method.specs.Batch.{Reached, Minor, Pivots, dropped, turn, IsNext, IsBatch};

/// A turn that pivots takes the step of its row's place, below the limit.
pub fn turns_take_steps()
    ensures step { (f : Form) (limit : ℕ) (r : Reached) (d : List ℕ) (row : InfeasibleRow) (t : Step) → IsBasis f r.basis → IsFresh f r.basis r.fresh
        → turn f limit r ≡ Pivots d row t → TakesStep f r.basis r.fresh row.place row.violation t }
    ensures place { (f : Form) (limit : ℕ) (r : Reached) (d : List ℕ) (row : InfeasibleRow) (t : Step) → turn f limit r ≡ Pivots d row t → t.place ≡ row.place }
    ensures dropped { (f : Form) (limit : ℕ) (r : Reached) (d : List ℕ) (row : InfeasibleRow) (t : Step) → turn f limit r ≡ Pivots d row t → d ≡ dropped f r }
    ensures below_limit { (f : Form) (limit : ℕ) (r : Reached) (d : List ℕ) (row : InfeasibleRow) (t : Step) → turn f limit r ≡ Pivots d row t → ¬ (r.count ≡ limit) }
{}

/// Behind a pivot there remain fewer rows, by those that were dropped and by its own. So a batch has at most one pivot for
/// each chosen row; its count is that of its beginning and its pivots, and stays within the limit.
pub fn batches_are_counted()
    ensures remaining { (f : Form) (limit : ℕ) (m : Minor) (next : Reached) → turn f limit m.reached ≡ Pivots m.dropped m.row m.step → IsNext f m next
        → length next.rows + length m.dropped < length m.reached.rows }
    ensures rows { (f : Form) (limit : ℕ) (first : Reached) (ms : List Minor) (last : Reached) → IsBatch f limit first ms last
        → length last.rows + length ms ≤ length first.rows }
    ensures count { (f : Form) (limit : ℕ) (first : Reached) (ms : List Minor) (last : Reached) → IsBatch f limit first ms last
        → last.count ≡ first.count + length ms }
    ensures within { (f : Form) (limit : ℕ) (first : Reached) (ms : List Minor) (last : Reached) → IsBatch f limit first ms last
        → first.count ≤ limit → last.count ≤ limit }
{}

/// From a basis, with what is solved there, there is one batch at most, and it ends at a basis with what is solved there.
pub fn batches_are_determined()
    ensures only { (f : Form) (limit : ℕ) (first : Reached) (ms ns : List Minor) (last end : Reached) → IsBasis f first.basis → IsFresh f first.basis first.fresh
        → IsBatch f limit first ms last → IsBatch f limit first ns end → (ms ≡ ns) × (last ≡ end) }
    ensures ends { (f : Form) (limit : ℕ) (first : Reached) (ms : List Minor) (last : Reached) → IsBasis f first.basis → IsFresh f first.basis first.fresh
        → IsBatch f limit first ms last → IsBasis f last.basis × IsFresh f last.basis last.fresh }
{}
