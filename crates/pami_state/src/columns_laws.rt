//! The form that a program's lists make.

ghost use Rattle.std.specs.Prelude.{◌≡◌, ℕ, ◌<◌, List, length};
ghost use Rattle.pami_algebra.specs.Fraction.{Fraction};
ghost use Rattle.pami_linear.specs.Lists.{get};
ghost use Rattle.pami_frac.specs.declared.list.Bounds.{Bounds};
ghost use Rattle.pami_theory.specs.Form.{Form, variables, coefficient, cost_of};
ghost use Rattle.pami_theory.specs.Basis.{Basis, IsBasis};
ghost use Rattle.pami_state.specs.Columns.{rows_of, column_of, form_by, IsForm, bounds_form, HasBounds};

/// Coefficients and costs of all variables, row variables too, are those of the lists, and so are the bounds.
pub fn forms_are_their_lists()
    ensures variables { (columns : List (List Fraction)) (bounds : List Bounds) (costs : List Fraction) → IsForm columns bounds costs
        → variables (form_by columns bounds costs) ≡ length columns }
    ensures coefficients { (columns : List (List Fraction)) (bounds : List Bounds) (costs : List Fraction) (v i : ℕ) → IsForm columns bounds costs
        → v < length columns → i < rows_of columns → coefficient (form_by columns bounds costs) v i ≡ get (column_of columns v) i }
    ensures costs { (columns : List (List Fraction)) (bounds : List Bounds) (costs : List Fraction) (v : ℕ) → IsForm columns bounds costs
        → v < length columns → cost_of (form_by columns bounds costs) v ≡ get costs v }
    ensures bounds { (columns : List (List Fraction)) (bounds : List Bounds) (costs : List Fraction) → IsForm columns bounds costs
        → HasBounds (form_by columns bounds costs) bounds }
{}

/// Whether a head and stands are a basis depends on the bounds alone.
pub fn bases_are_those_of_their_bounds()
    ensures basis { (f : Form) (b : Basis) (bounds : List Bounds) → HasBounds f bounds → IsBasis f b → IsBasis (bounds_form (length b.head) bounds) b }
{}
