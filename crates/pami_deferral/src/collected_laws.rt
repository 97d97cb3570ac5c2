//! The collective update gives the state that the batch ends with.

ghost use Rattle.std.specs.Prelude.{◌≡◌, ℕ, ◌+◌, List, [], ◌∷◌, ◌++◌, map, length};
ghost use Rattle.std.specs.List.{range_with_len};
ghost use Rattle.pami_linear.specs.Systems.{Solves};
ghost use Rattle.pami_theory.specs.Form.{Form, limits};
ghost use Rattle.pami_theory.specs.Basis.{stand_at, head_at, basis_column};
ghost use Rattle.pami_theory.specs.Fresh.{IsFresh, column_at, value_at_place, standing_value};
ghost use Rattle.pami_method.specs.Batch.{Reached, Minor, IsBatch};
ghost use Rattle.pami_method.specs.Work.{pivot_of, all_flips_change, all_flips_at, entering_value};
ghost use Rattle.pami_deferral.specs.SolvedBatch.{IsSolvedBatch};
ghost use Rattle.pami_deferral.specs.Collected.{through_all, deferred_pivots, collected_values, reweighed, stepped_through};

/// The column of a variable that enters, solved by the first basis and taken through the pivots before its own, is its
/// fresh column at that pivot. So the pivots in product form are those with fresh columns.
pub fn deferred_columns_are_fresh()
    ensures column { (f : Form) (limit : ℕ) (first : Reached) (es : List Minor) (m : Minor) (ms : List Minor)
        (last : Reached)
        → IsSolvedBatch f limit first (es ++ m ∷ ms) last
        → through_all (deferred_pivots first [] es) (column_at first.fresh m.step.entering)
        ≡ column_at m.reached.fresh m.step.entering }
    ensures pivots { (f : Form) (limit : ℕ) (first : Reached) (ms : List Minor) (last : Reached)
        → IsSolvedBatch f limit first ms last
        → deferred_pivots first [] ms ≡ map pivot_of ms }
{}

/// The values that are collected are the fresh basic values behind the batch. Each variable enters with the value at
/// which it stands then, and each leaves from the place at which it stood when the batch began.
pub fn collected_values_are_fresh()
    ensures values { (f : Form) (limit : ℕ) (first : Reached) (ms : List Minor) (last : Reached)
        → IsSolvedBatch f limit first ms last
        → collected_values f first ms ≡ map (value_at_place last.basis last.fresh) (range_with_len 0 f.rows) }
    ensures entering { (f : Form) (limit : ℕ) (first : Reached) (es : List Minor) (m : Minor) (ms : List Minor)
        (last : Reached)
        → IsSolvedBatch f limit first (es ++ m ∷ ms) last
        → entering_value m ≡ standing_value (limits f m.step.entering) (stand_at m.reached.basis m.step.entering) }
    ensures leaving { (f : Form) (limit : ℕ) (first : Reached) (es : List Minor) (m : Minor) (ms : List Minor)
        (last : Reached)
        → IsSolvedBatch f limit first (es ++ m ∷ ms) last
        → m.step.leaving ≡ head_at first.basis m.step.place }
    ensures flips { (f : Form) (first : Reached) (ms : List Minor) → IsFresh f first.basis first.fresh
        → Solves f.rows (basis_column f first.basis) (all_flips_at f first ms) (all_flips_change f ms) }
{}

/// The weights of all places go through the pivots in order, the basis through the steps, and the count rises by one for
/// each.
pub fn the_rest_is_collected()
    ensures weights { (f : Form) (limit : ℕ) (first : Reached) (ms : List Minor) (last : Reached)
        → IsSolvedBatch f limit first ms last
        → reweighed (deferred_pivots first [] ms) first.weights ≡ last.weights }
    ensures basis { (f : Form) (limit : ℕ) (first : Reached) (ms : List Minor) (last : Reached)
        → IsSolvedBatch f limit first ms last
        → stepped_through ms first.basis ≡ last.basis }
    ensures count { (f : Form) (limit : ℕ) (first : Reached) (ms : List Minor) (last : Reached)
        → IsBatch f limit first ms last
        → last.count ≡ first.count + length ms }
{}
