//! The scripts of a deferred batch: where they aren't refused, they have what is fresh.

ghost use Rattle.std.specs.Prelude.{◌≡◌, ℕ, ◌<◌, List, [], ◌∷◌, ◌++◌, map, length, Ok, All};
ghost use Rattle.std.specs.List.{range_with_len};
ghost use Rattle.pami_algebra.specs.Fraction.{Fraction};
ghost use Rattle.pami_linear.specs.Lists.{get};
ghost use Rattle.pami_factoring.specs.declared.kept.Kept.{Kept};
ghost use Rattle.pami_factoring.specs.Solve.{ColumnPivot, forward_script, backward_script, transform_script};
ghost use Rattle.pami_factoring.specs.History.{IsColumnPivot};
ghost use Rattle.pami_theory.specs.Form.{Form, variables};
ghost use Rattle.pami_theory.specs.Basis.{Basis, IsBasis};
ghost use Rattle.pami_theory.specs.Fresh.{Fresh, IsFresh, row_at, column_at, value_at_place};
ghost use Rattle.pami_theory.specs.Step.{Step, theta};
ghost use Rattle.pami_method.specs.Task.{refusal};
ghost use Rattle.pami_method.specs.Factor.{History, elimination};
ghost use Rattle.pami_method.specs.Batch.{Reached, Minor};
ghost use Rattle.pami_method.specs.Scripts.{reach_script, zeros};
ghost use Rattle.pami_method.specs.Work.{pivot_of, unit_at, column_of, all_flips_script, all_flips_change, all_flips_at, moved_script, values_script};
ghost use Rattle.pami_deferral.specs.SolvedBatch.{IsSolvedBatch, IsSolvedPivot};
ghost use Rattle.pami_deferral.specs.Collected.{through_all};
ghost use Rattle.pami_deferral.specs.Factored.{IsHistoryOf, ReachedRow, reached_script};
ghost use Rattle.pami_deferral.specs.Listed.{AreChanges, total_script, exchange_at, exchanges_script, collect_script};

/// The head that is eliminated stands for its basis without pivots, and behind a batch with the batch's pivots. What is
/// solved by a history is what its basis solves: the row of a place, the column of a variable, and what all flips change
/// at each place.
pub fn histories_solve_their_bases()
    ensures new { (f : Form) (b : Basis) → IsBasis f b → IsHistoryOf f (record { head = b.head; pivots = [] }) b }
    ensures behind { (f : Form) (limit : ℕ) (h : History) (first : Reached) (ms : List Minor) (last : Reached)
        → IsSolvedBatch f limit first ms last
        → IsHistoryOf f h first.basis
        → IsHistoryOf f (record { head = h.head; pivots = h.pivots ++ map pivot_of ms }) last.basis }
    ensures row { (f : Form) (h : History) (b : Basis) (s : Fresh) (steps : List Kept) (p : ℕ) (rho : List Fraction)
        → IsHistoryOf f h b → IsFresh f b s
        → elimination f h.head ≡ Ok steps → p < f.rows → backward_script steps h.pivots (unit_at f p) ≡ Ok rho
        → rho ≡ row_at s p }
    ensures column { (f : Form) (h : History) (b : Basis) (s : Fresh) (steps : List Kept) (v : ℕ) (x : List Fraction)
        → IsHistoryOf f h b → IsFresh f b s
        → elimination f h.head ≡ Ok steps → v < variables f → forward_script steps h.pivots (column_of f v) ≡ Ok x
        → x ≡ column_at s v }
    ensures flips { (f : Form) (h : History) (first : Reached) (ms : List Minor) (steps : List Kept)
        (total z : List Fraction) (p : ℕ)
        → IsHistoryOf f h first.basis → IsFresh f first.basis first.fresh → elimination f h.head ≡ Ok steps
        → all_flips_script f ms (zeros f.rows) ≡ Ok total → forward_script steps h.pivots total ≡ Ok z → p < f.rows
        → get z p ≡ all_flips_at f first ms p }
{}

/// The scripts of the collective update: the sum of the flips, a column through pivots and through those before its own,
/// and the values behind the batch.
pub fn collected_scripts_are_exact()
    ensures flips { (f : Form) (ms : List Minor) (total : List Fraction) (i : ℕ)
        → all_flips_script f ms (zeros f.rows) ≡ Ok total → i < f.rows
        → get total i ≡ all_flips_change f ms i }
    ensures through { (m : ℕ) (es : List ColumnPivot) (x y : List Fraction) → All (IsColumnPivot m) es → length x ≡ m
        → transform_script es x ≡ Ok y → y ≡ through_all es x }
    ensures column { (f : Form) (limit : ℕ) (first : Reached) (es : List Minor) (m : Minor) (ms : List Minor)
        (last : Reached) (y : List Fraction)
        → IsSolvedBatch f limit first (es ++ m ∷ ms) last
        → transform_script (map pivot_of es) (column_at first.fresh m.step.entering) ≡ Ok y
        → y ≡ column_at m.reached.fresh m.step.entering }
    ensures values { (f : Form) (limit : ℕ) (first : Reached) (ms : List Minor) (last : Reached) (xs : List Fraction)
        → IsSolvedBatch f limit first ms last
        → values_script f first ms ≡ Ok xs
        → xs ≡ map (value_at_place last.basis last.fresh) (range_with_len 0 f.rows) }
{}

/// The script of a reach, which has no value of its own, refuses as the one that has: and that gives the value and the row
/// behind the pivot.
pub fn reached_rows_are_fresh()
    ensures refusal { (f : Form) (b : Basis) (s : Fresh) (t : Step) (step : Fraction) (i : ℕ)
        → refusal (reached_script f b s t step i) ≡ refusal (reach_script f b s t step i) }
    ensures fresh { (f : Form) (limit : ℕ) (m : Minor) (next : Reached) (i : ℕ) (row : ReachedRow)
        → IsSolvedPivot f limit m next → i < f.rows → ¬ (i ≡ m.step.place)
        → reached_script f m.reached.basis m.reached.fresh m.step (theta f m.reached.basis m.reached.fresh m.step) i
        ≡ Ok row
        → (row.value ≡ value_at_place next.basis next.fresh i) × (row.rho ≡ row_at next.fresh i) }
{}

/// Over plain lists the scripts are those of the major, refusals with them, where the lists are its own.
pub fn listed_scripts_are_the_major_s()
    ensures flips { (f : Form) (ms : List Minor) (changes : List (List Fraction)) (rows : List Fraction)
        → AreChanges f ms changes → length rows ≡ f.rows
        → total_script changes rows ≡ all_flips_script f ms rows }
    ensures exchanges { (f : Form) (first : Reached) (ms : List Minor) (v : List Fraction)
        → exchanges_script (map (exchange_at f first) ms) v ≡ moved_script f first ms v }
    ensures values { (f : Form) (first : Reached) (ms : List Minor) (flips : List Fraction)
        → ((p : ℕ) → p < f.rows → get flips p ≡ all_flips_at f first ms p)
        → collect_script (map (value_at_place first.basis first.fresh) (range_with_len 0 f.rows)) flips
        (map (exchange_at f first) ms) (map pivot_of ms) ≡ values_script f first ms }
{}
