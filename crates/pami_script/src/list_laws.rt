//! Scripts over the members of a list.

ghost use Rattle.std.specs.Prelude.{◌≡◌, ℕ, ◌+◌, ◌<◌, List, length, Result, Ok};
ghost use Rattle.pami_algebra.specs.Fraction.{Fraction};
ghost use Rattle.pami_frac.specs.declared.arithmetic.Refused.{Refused};
ghost use Rattle.pami_linear.specs.Lists.{get};
ghost use Rattle.pami_script.specs.Script.{each_member};

/// A script over members that isn't refused gives as many members, and each is what its own step gives.
pub fn members_have_their_results()
    ensures length { (step : ℕ → Fraction → Result Fraction Refused) (k : ℕ) (xs ys : List Fraction) → each_member step k xs ≡ Ok ys → length ys ≡ length xs }
    ensures member { (step : ℕ → Fraction → Result Fraction Refused) (k : ℕ) (xs ys : List Fraction) (i : ℕ) → each_member step k xs ≡ Ok ys → i < length xs → step (k + i) (get xs i) ≡ Ok (get ys i) }
{}
