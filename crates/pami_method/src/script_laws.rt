//! Scripts of a major that aren't refused have the exact values.

ghost use Rattle.std.specs.Prelude.{◌≡◌, ℕ, ◌<◌, List, map, length, not, nat_eq, Option, Some, Ok};
ghost use Rattle.std.specs.List.{filter, range_with_len};
ghost use Rattle.pami_algebra.specs.Fraction.{Fraction};
ghost use Rattle.pami_algebra.specs.Operations.{◌+ᶠ◌, ◌-ᶠ◌, ◌*ᶠ◌, ◌/ᶠ◌};
ghost use Rattle.pami_linear.specs.Lists.{get};
ghost use Rattle.pami_linear.specs.Sums.{dot};
ghost use Rattle.pami_frac.specs.declared.list.Bounds.{Bounds};
ghost use Rattle.pami_theory.specs.Form.{Form, limits, entry, variables};
ghost use Rattle.pami_theory.specs.Basis.{Basis, head_at};
ghost use Rattle.pami_theory.specs.Fresh.{Fresh, row_at, value_at_place};
ghost use Rattle.pami_theory.specs.declared.words.Violation.{Violation};
ghost use Rattle.pami_theory.specs.Violation.{violation};
ghost use Rattle.pami_theory.specs.Ratio.{Leaving, turned_entry, row_entry, ratio, is_candidate};
ghost use Rattle.pami_theory.specs.Step.{Step, step_at, flips_change, theta};
ghost use Rattle.pami_method.specs.Scripts.{start_script, violation_script, choose_script, row_script, nonbasic_in, price_script, ratios_script, flips_script, ascending, step_script, reach_script, shift_script};

/// The sum of each row at the start.
pub fn the_start_has_the_sums_of_rows()
    ensures sums { (f : Form) (x : ℕ → Fraction) (sums : List Fraction) → start_script f x ≡ Ok sums
        → sums ≡ map (λ i. dot f.columns (entry f i) x) (range_with_len 0 f.rows) }
{}

/// How far values are outside of their bounds: one value, all places, and the places that are looked at.
pub fn choice_has_the_violations()
    ensures one { (l : Bounds) (value : Fraction) (found : Option Violation) → violation_script l value ≡ Ok found → found ≡ violation l value }
    ensures all { (f : Form) (b : Basis) (s : Fresh) (found : List (Option Violation)) → choose_script f b s ≡ Ok found
        → found ≡ map (λ p. violation (limits f (head_at b p)) (value_at_place b s p)) (range_with_len 0 f.rows) }
    ensures some { (f : Form) (b : Basis) (s : Fresh) (places : List ℕ) (found : List (Option Violation)) → row_script f b s places ≡ Ok found
        → found ≡ map (λ p. violation (limits f (head_at b p)) (value_at_place b s p)) places }
{}

/// The entries of the pivot row in a slice, and the ratios of the candidates.
pub fn pricing_has_the_entries_and_ratios()
    ensures entries { (f : Form) (b : Basis) (rho : List Fraction) (slice : ℕ) (entries : List Fraction) → price_script f b rho slice ≡ Ok entries
        → entries ≡ map (row_entry f rho) (nonbasic_in f b slice) }
    ensures ratios { (f : Form) (b : Basis) (l : Leaving) (ratios : List Fraction) → ratios_script f b l ≡ Ok ratios
        → ratios ≡ map (ratio f l) (filter (is_candidate f b l) (range_with_len 0 (variables f))) }
{}

/// What flips change in each row, in any order, and the primal step length.
pub fn a_step_has_its_length()
    ensures flips { (f : Form) (b : Basis) (flips : List ℕ) (rows changed : List Fraction) (i : ℕ) → flips_script f b flips rows ≡ Ok changed
        → i < length rows → get changed i ≡ get rows i +ᶠ flips_change f b flips i }
    ensures ascending { (f : Form) (b : Basis) (s : Fresh) (p : ℕ) (v : Violation) (t : Step) (i : ℕ) → step_at f b s p v ≡ Some t
        → flips_change f b (ascending f t.flips) i ≡ flips_change f b t.flips i }
    ensures length { (f : Form) (b : Basis) (s : Fresh) (p : ℕ) (v : Violation) (t : Step) (found : Fraction) → step_at f b s p v ≡ Some t
        → step_script f b s t ≡ Ok found → found ≡ theta f b s t }
{}

/// The row of a remaining place behind a pivot, and the reduced costs of a slice.
pub fn updates_have_their_values()
    ensures row { (f : Form) (b : Basis) (s : Fresh) (t : Step) (step : Fraction) (i : ℕ) (next : List Fraction) (h : ℕ)
        → reach_script f b s t step i ≡ Ok next → h < length (row_at s i)
        → get next h ≡ get (row_at s i) h -ᶠ row_entry f (row_at s i) t.entering /ᶠ row_entry f (row_at s t.place) t.entering *ᶠ get (row_at s t.place) h }
    ensures costs { (f : Form) (b : Basis) (l : Leaving) (t : Step) (slice : ℕ) (next : List Fraction) → shift_script f b l t slice ≡ Ok next
        → next ≡ map (λ v. get l.reduced v -ᶠ t.tau *ᶠ turned_entry f l v) (filter (λ v. not (nat_eq v t.entering)) (nonbasic_in f b slice)) }
{}
