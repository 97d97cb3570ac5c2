//! A major's arithmetic with deferred inputs: the same list of scripts, and their values.

ghost use Rattle.std.specs.Prelude.{◌≡◌, ℕ, ◌<◌, Bool, List, ◌∷◌, ◌++◌, map, None, Ok};
ghost use Rattle.std.specs.List.{range_with_len};
ghost use Rattle.pami_algebra.specs.Fraction.{Fraction};
ghost use Rattle.pami_linear.specs.Lists.{get};
ghost use Rattle.pami_factoring.specs.declared.kept.Kept.{Kept};
ghost use Rattle.pami_factoring.specs.Solve.{forward_script, backward_script, transform_script};
ghost use Rattle.pami_theory.specs.Form.{Form};
ghost use Rattle.pami_theory.specs.Fresh.{IsFresh, row_at, column_at, value_at_place};
ghost use Rattle.pami_theory.specs.Step.{theta};
ghost use Rattle.pami_theory.specs.Choice.{InfeasibleRow};
ghost use Rattle.pami_method.specs.Factor.{History, elimination};
ghost use Rattle.pami_method.specs.Batch.{Reached, Minor};
ghost use Rattle.pami_method.specs.Scripts.{zeros};
ghost use Rattle.pami_method.specs.Work.{pivot_of, unit_at, column_of, backward_task, all_flips_script, all_flips_at, values_script, collect_tasks, work, first_refused};
ghost use Rattle.pami_deferral.specs.SolvedBatch.{IsSolvedBatch, IsSolvedPivot};
ghost use Rattle.pami_deferral.specs.Inside.{fresh_row, fresh_inside, kept_theta, IsPlaced};
ghost use Rattle.pami_deferral.specs.Factored.{IsHistoryOf, reached_script};
ghost use Rattle.pami_deferral.specs.KeptWork.{kept_reach_script, kept_work};

/// The scripts of a major whose inputs are what its batch keeps and defers are those of the major, whose inputs are solved
/// afresh: the same list, with the same first refusals.
pub fn deferred_work_is_the_major_s()
    ensures list { (f : Form) (limit : ℕ) (h : History) (anew : Bool) (first : Reached) (ms : List Minor)
        (last : Reached)
        → IsSolvedBatch f limit first ms last → IsPlaced f first
        → kept_work f limit h anew first ms ≡ work f limit h anew first ms last }
    ensures reach { (f : Form) (limit : ℕ) (m : Minor) (next : Reached) (row : InfeasibleRow)
        → IsSolvedPivot f limit m next
        → kept_reach_script f (fresh_inside m.reached) m.step (kept_theta f (fresh_inside m.reached) m.step)
        (fresh_row m.reached row)
        ≡ reached_script f m.reached.basis m.reached.fresh m.step
        (theta f m.reached.basis m.reached.fresh m.step) row.place }
{}

/// Where nothing of the collective update is refused, each of its scripts has a value, and it is the exact one.
pub fn unrefused_majors_are_exact()
    ensures row { (f : Form) (h : History) (first : Reached) (steps : List Kept) (p : ℕ)
        → IsFresh f first.basis first.fresh → IsHistoryOf f h first.basis
        → elimination f h.head ≡ Ok steps → p < f.rows → (backward_task f h p).refusal ≡ None
        → backward_script steps h.pivots (unit_at f p) ≡ Ok (row_at first.fresh p) }
    ensures column { (f : Form) (limit : ℕ) (h : History) (first : Reached) (es : List Minor) (m : Minor)
        (ms : List Minor) (last : Reached) (steps : List Kept)
        → IsSolvedBatch f limit first (es ++ m ∷ ms) last
        → IsHistoryOf f h first.basis → elimination f h.head ≡ Ok steps
        → first_refused (collect_tasks f h first (es ++ m ∷ ms)) ≡ None
        → forward_script steps h.pivots (column_of f m.step.entering) ≡ Ok (column_at first.fresh m.step.entering) }
    ensures flips { (f : Form) (h : History) (first : Reached) (ms : List Minor) (steps : List Kept)
        → IsFresh f first.basis first.fresh → IsHistoryOf f h first.basis
        → elimination f h.head ≡ Ok steps → first_refused (collect_tasks f h first ms) ≡ None
        → (total : List Fraction) × (z : List Fraction) × (all_flips_script f ms (zeros f.rows) ≡ Ok total)
        × (forward_script steps h.pivots total ≡ Ok z)
        × ((p : ℕ) → p < f.rows → get z p ≡ all_flips_at f first ms p) }
    ensures transform { (f : Form) (limit : ℕ) (h : History) (first : Reached) (es : List Minor) (m : Minor)
        (ms : List Minor) (last : Reached)
        → IsSolvedBatch f limit first (es ++ m ∷ ms) last
        → first_refused (collect_tasks f h first (es ++ m ∷ ms)) ≡ None
        → transform_script (map pivot_of es) (column_at first.fresh m.step.entering)
        ≡ Ok (column_at m.reached.fresh m.step.entering) }
    ensures values { (f : Form) (limit : ℕ) (h : History) (first : Reached) (ms : List Minor) (last : Reached)
        → IsSolvedBatch f limit first ms last
        → first_refused (collect_tasks f h first ms) ≡ None
        → values_script f first ms ≡ Ok (map (value_at_place last.basis last.fresh) (range_with_len 0 f.rows)) }
{}
