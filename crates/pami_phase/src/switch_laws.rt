//! What the script of the switch gives.

ghost use Rattle.std.specs.Prelude.{◌≡◌, List, Ok};
ghost use Rattle.pami_algebra.specs.Fraction.{Fraction};
ghost use Rattle.pami_frac.specs.declared.list.Bounds.{Bounds};
ghost use Rattle.pami_theory.specs.Basis.{Basis, IsBasis};
ghost use Rattle.pami_theory.specs.Fresh.{Fresh, IsFresh};
ghost use Rattle.pami_method.specs.Task.{refusal};
ghost use Rattle.pami_method.specs.Phases.{switch_refused};
ghost use Rattle.pami_state.specs.Columns.{form_by, IsForm};
ghost use Rattle.pami_state.specs.State.{values_by_place};
ghost use Rattle.pami_phase.specs.Switches.{switch_script};

/// What is refused at the switch is what its script refuses first, and where nothing is refused the script has the values by
/// place of the switched basis, solved afresh.
pub fn the_switch_solves_afresh()
    ensures refused { (columns : List (List Fraction)) (bounds : List Bounds) (costs : List Fraction) (b : Basis) (t : Fresh)
        → IsForm columns bounds costs → IsBasis (form_by columns bounds costs) b → IsFresh (form_by columns bounds costs) b t
        → switch_refused (form_by columns bounds costs) b t ≡ refusal (switch_script (form_by columns bounds costs) b t) }
    ensures values { (columns : List (List Fraction)) (bounds : List Bounds) (costs : List Fraction) (b : Basis) (t : Fresh) (x : List Fraction)
        → IsForm columns bounds costs → IsBasis (form_by columns bounds costs) b → IsFresh (form_by columns bounds costs) b t
        → switch_script (form_by columns bounds costs) b t ≡ Ok x → x ≡ values_by_place (form_by columns bounds costs) b t }
{}
