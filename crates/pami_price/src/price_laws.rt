//! What a slice and a whole row have, on the whole form.

ghost use Rattle.std.specs.Prelude.{◌≡◌, ℕ, ◌<◌, List, length, Result, Ok, Err, cond, pos};
ghost use Rattle.pami_algebra.specs.Fraction.{Fraction};
ghost use Rattle.pami_algebra.specs.Operations.{of_int};
ghost use Rattle.pami_frac.specs.declared.list.Entry.{Entry};
ghost use Rattle.pami_script.specs.Script.{then};
ghost use Rattle.pami_script.specs.Dense.{at, Rising};
ghost use Rattle.pami_theory.specs.Form.{Form, variables};
ghost use Rattle.pami_theory.specs.Basis.{Basis, stand_at};
ghost use Rattle.pami_theory.specs.Ratio.{row_entry};
ghost use Rattle.pami_method.specs.Scripts.{price_script, nonbasic_in, is_nonbasic};
ghost use Rattle.pami_vec.specs.Entries.{NoZeros};
ghost use Rattle.pami_theory.specs.declared.words.Stand.{Stand};
ghost use Rattle.pami_price.specs.Slices.{slice_script, row_script};
ghost use Rattle.pami_price.specs.Agreement.{AreListed, entries_at, nonzero_entries, all_nonbasic};

/// A slice has the script of the method: the same refusal, and its results but for those that are 0.
pub fn slices_follow_the_method()
    ensures script { (f : Form) (b : Basis) (columns : List (List Fraction)) (stands : List Stand) (rho : List Fraction) (slice : ℕ) → AreListed f b columns stands → length rho ≡ f.rows
        → slice_script columns stands rho slice ≡ then (price_script f b rho slice) (λ alphas. Ok (entries_at (nonbasic_in f b slice) alphas)) }
{}

/// What isn't refused is exact: the entries of the row at the nonbasic variables, of a slice or of all, that aren't 0.
pub fn entries_are_those_of_the_row()
    ensures slice { (f : Form) (b : Basis) (columns : List (List Fraction)) (stands : List Stand) (rho : List Fraction) (slice : ℕ) (es : List Entry) → AreListed f b columns stands → length rho ≡ f.rows
        → slice_script columns stands rho slice ≡ Ok es → es ≡ nonzero_entries (row_entry f rho) (nonbasic_in f b slice) }
    ensures all { (f : Form) (b : Basis) (columns : List (List Fraction)) (stands : List Stand) (rho : List Fraction) (es : List Entry) → AreListed f b columns stands → length rho ≡ f.rows
        → row_script columns stands rho ≡ Ok es → es ≡ nonzero_entries (row_entry f rho) (all_nonbasic f b) }
{}

/// Entries at all nonbasic variables rise, none is 0, and each has its variable's value; basic variables have none.
pub fn entries_of_a_row_rise()
    ensures rising { (f : Form) (b : Basis) (row : ℕ → Fraction) → Rising 0 (variables f) (nonzero_entries row (all_nonbasic f b)) }
    ensures nonzero { (f : Form) (b : Basis) (row : ℕ → Fraction) → NoZeros (nonzero_entries row (all_nonbasic f b)) }
    ensures value { (f : Form) (b : Basis) (row : ℕ → Fraction) (v : ℕ) → v < variables f → at (nonzero_entries row (all_nonbasic f b)) v ≡ cond (is_nonbasic (stand_at b v)) (row v) (of_int (pos 0)) }
{}
