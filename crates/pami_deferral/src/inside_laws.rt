//! What a batch keeps inside is fresh before each of its turns.

ghost use Rattle.std.specs.Prelude.{◌≡◌, ℕ, ◌<◌, List, ◌∷◌, ◌++◌, map};
ghost use Rattle.std.specs.List.{Contains};
ghost use Rattle.pami_linear.specs.Lists.{get};
ghost use Rattle.pami_theory.specs.Form.{Form, variables};
ghost use Rattle.pami_theory.specs.Basis.{Basis, IsBasis};
ghost use Rattle.pami_theory.specs.Fresh.{Fresh, IsFresh, row_at, value_at_place};
ghost use Rattle.pami_theory.specs.Step.{Step, theta};
ghost use Rattle.pami_theory.specs.Weights.{weight_at};
ghost use Rattle.pami_theory.specs.Choice.{InfeasibleRow, chosen};
ghost use Rattle.pami_method.specs.Batch.{Reached, Minor, turn, IsBatch};
ghost use Rattle.pami_deferral.specs.SolvedBatch.{IsSolvedBatch, IsSolvedPivot};
ghost use Rattle.pami_deferral.specs.Inside.{Inside, fresh_row, fresh_inside, kept_turn, kept_theta, value_behind, rho_behind, weight_behind, cost_behind, step_of, inside_behind, insides_behind, IsPlaced, IsDeferred};

/// Where what is kept is fresh, the turn by what is kept is the batch's.
pub fn kept_turns_are_the_batch_s()
    ensures turn { (f : Form) (limit : ℕ) (r : Reached) → kept_turn f limit (fresh_inside r) ≡ turn f limit r }
{}

/// What one pivot makes of it is fresh behind the pivot: the step length, the row, value and weight of each place that
/// remains, the reduced cost of each variable, and so all that is kept.
pub fn one_pivot_keeps_the_inside_fresh()
    ensures length { (f : Form) (limit : ℕ) (m : Minor) (next : Reached) → IsSolvedPivot f limit m next
        → kept_theta f (fresh_inside m.reached) m.step ≡ theta f m.reached.basis m.reached.fresh m.step }
    ensures row { (f : Form) (limit : ℕ) (m : Minor) (next : Reached) (row : InfeasibleRow)
        → IsSolvedPivot f limit m next → row.place < f.rows → ¬ (row.place ≡ m.step.place)
        → rho_behind f (fresh_inside m.reached) m.step (fresh_row m.reached row) ≡ row_at next.fresh row.place }
    ensures value { (f : Form) (limit : ℕ) (m : Minor) (next : Reached) (row : InfeasibleRow)
        → IsSolvedPivot f limit m next → row.place < f.rows → ¬ (row.place ≡ m.step.place)
        → value_behind f (fresh_inside m.reached) m.step (fresh_row m.reached row)
        ≡ value_at_place next.basis next.fresh row.place }
    ensures weight { (f : Form) (limit : ℕ) (m : Minor) (next : Reached) (row : InfeasibleRow)
        → IsSolvedPivot f limit m next → IsPlaced f m.reached → row.place < f.rows → ¬ (row.place ≡ m.step.place)
        → weight_behind f (fresh_inside m.reached) m.step (fresh_row m.reached row)
        ≡ weight_at next.weights row.place }
    ensures cost { (f : Form) (limit : ℕ) (m : Minor) (next : Reached) (u : ℕ) → IsSolvedPivot f limit m next
        → u < variables f
        → cost_behind f (fresh_inside m.reached) m.step u ≡ get next.fresh.reduced u }
    ensures all { (f : Form) (limit : ℕ) (m : Minor) (next : Reached) → IsSolvedPivot f limit m next
        → IsPlaced f m.reached
        → inside_behind f (fresh_inside m.reached) m.step ≡ fresh_inside next }
{}

/// So before each turn of a batch, and at its end, what the pivots so far made of what was fresh at its beginning is fresh.
/// Chosen rows have their places.
pub fn the_inside_is_fresh_before_each_turn()
    ensures turn { (f : Form) (limit : ℕ) (first : Reached) (es : List Minor) (m : Minor) (ms : List Minor)
        (last : Reached)
        → IsSolvedBatch f limit first (es ++ m ∷ ms) last → IsPlaced f first
        → insides_behind f (fresh_inside first) (map step_of es) ≡ fresh_inside m.reached }
    ensures end { (f : Form) (limit : ℕ) (first : Reached) (ms : List Minor) (last : Reached)
        → IsSolvedBatch f limit first ms last → IsPlaced f first
        → insides_behind f (fresh_inside first) (map step_of ms) ≡ fresh_inside last }
    ensures chosen { (f : Form) (b : Basis) (s : Fresh) (weights : List ℕ) (most : ℕ) (row : InfeasibleRow)
        → Contains (chosen f b s weights most) row → row.place < f.rows }
{}

/// A batch whose turns are taken by what is kept alone has the steps of the batch whose turns are taken on the whole form,
/// and ends with what that one has reached; and there is one.
pub fn deferred_batches_are_batches()
    ensures deferred { (f : Form) (limit : ℕ) (first : Reached) (ms : List Minor) (last : Reached)
        → IsSolvedBatch f limit first ms last → IsPlaced f first
        → IsDeferred f limit (fresh_inside first) (map step_of ms) (fresh_inside last) }
    ensures batch { (f : Form) (limit : ℕ) (first : Reached) (ts : List Step) (end : Inside)
        → IsBasis f first.basis → IsFresh f first.basis first.fresh → IsPlaced f first
        → IsDeferred f limit (fresh_inside first) ts end
        → (ms : List Minor) × (last : Reached) × IsBatch f limit first ms last × (ts ≡ map step_of ms)
        × (end ≡ fresh_inside last) }
    ensures only { (f : Form) (limit : ℕ) (d : Inside) (ts us : List Step) (x y : Inside) → IsDeferred f limit d ts x
        → IsDeferred f limit d us y → (ts ≡ us) × (x ≡ y) }
{}
