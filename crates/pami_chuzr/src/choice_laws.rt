//! The choice over lists by place is that of the theory.

ghost use Rattle.std.specs.Prelude.{◌≡◌, ◌↔◌, ℕ, List, Result, Ok, Err, None, map};
ghost use Rattle.pami_algebra.specs.Fraction.{Fraction};
ghost use Rattle.pami_frac.specs.declared.arithmetic.Refused.{Refused};
ghost use Rattle.pami_frac.specs.declared.list.Bounds.{Bounds};
ghost use Rattle.pami_theory.specs.Form.{Form, IsWithin};
ghost use Rattle.pami_theory.specs.Basis.{Basis};
ghost use Rattle.pami_theory.specs.Fresh.{Fresh};
ghost use Rattle.pami_theory.specs.Choice.{chosen as the_chosen};
ghost use Rattle.pami_method.specs.Scripts.{violation_script, choose_script};
ghost use Rattle.pami_chuzr.specs.declared.row.ChosenRow.{ChosenRow};
ghost use Rattle.pami_chuzr.specs.Choice.{AreOfPlaces, places_script, chosen_by, chosen_row, choice_script};

/// A value has no violation exactly within its bounds; there no operation is refused.
pub fn violations_are_outside()
    ensures { (l : Bounds) (value : Fraction) → (violation_script l value ≡ Ok None) ↔ IsWithin l value }
{}

/// At a basis, the rows that are chosen over the lists of its places are those that the theory chooses, and the operations
/// are those of its script.
pub fn choices_are_those_of_a_basis()
    ensures rows { (f : Form) (b : Basis) (s : Fresh) (bounds : List Bounds) (values : List Fraction) (weights : List ℕ) (most : ℕ)
        → AreOfPlaces f b s bounds values → chosen_by bounds values weights most ≡ the_chosen f b s weights most }
    ensures operations { (f : Form) (b : Basis) (s : Fresh) (bounds : List Bounds) (values : List Fraction)
        → AreOfPlaces f b s bounds values → places_script bounds values ≡ choose_script f b s }
{}

/// What is answered at a basis: the theory's rows where its script isn't refused, and otherwise its first refusal.
pub fn choices_follow_the_basis()
    ensures value { (f : Form) (b : Basis) (s : Fresh) (bounds : List Bounds) (values : List Fraction) (weights : List ℕ) (most : ℕ) (rows : List ChosenRow)
        → AreOfPlaces f b s bounds values → choice_script bounds values weights most ≡ Ok rows → rows ≡ map chosen_row (the_chosen f b s weights most) }
    ensures refused { (f : Form) (b : Basis) (s : Fresh) (bounds : List Bounds) (values : List Fraction) (weights : List ℕ) (most : ℕ) (r : Refused)
        → AreOfPlaces f b s bounds values → (choice_script bounds values weights most ≡ Err r) ↔ (choose_script f b s ≡ Err r) }
{}
