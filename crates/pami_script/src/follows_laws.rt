//! What it means that the answer of a call follows a script.

ghost use Rattle.std.specs.Prelude.{◌≡◌, ◌↔◌, List, Result, Ok, Err};
ghost use Rattle.pami_algebra.specs.Fraction.{Fraction};
ghost use Rattle.pami_frac.specs.declared.arithmetic.Refused.{Refused};
ghost use Rattle.pami_frac.specs.declared.fault.Fault.{Fault};
ghost use Rattle.pami_frac.specs.Answers.{FollowsBy};

/// A value is the script's, a named refusal is its first refused operation, and want of memory is always allowed.
pub fn answers_follow()
    ensures value { (s : Result Fraction Refused) (v : Fraction) → FollowsBy (λ v. v) s (Ok v) ↔ (s ≡ Ok v) }
    ensures refused { (s : Result Fraction Refused) (r : Refused) → FollowsBy {A = Fraction} {B = Fraction} (λ v. v) s (Err (Fault.Named r)) ↔ (s ≡ Err r) }
    ensures memory { (s : Result Fraction Refused) → FollowsBy {A = Fraction} {B = Fraction} (λ v. v) s (Err Fault.OutOfMemory) }
    ensures vector { (s : Result (List Fraction) Refused) (v : List Fraction) → FollowsBy (λ v. v) s (Ok v) ↔ (s ≡ Ok v) }
    ensures vector_refused { (s : Result (List Fraction) Refused) (r : Refused) → FollowsBy {A = List Fraction} {B = List Fraction} (λ v. v) s (Err (Fault.Named r)) ↔ (s ≡ Err r) }
    ensures vector_memory { (s : Result (List Fraction) Refused) → FollowsBy {A = List Fraction} {B = List Fraction} (λ v. v) s (Err Fault.OutOfMemory) }
{}

/// One script has one value or one refusal.
pub fn answers_exclude_each_other()
    ensures one_value { (s : Result Fraction Refused) (v w : Fraction) → FollowsBy (λ v. v) s (Ok v) → FollowsBy (λ v. v) s (Ok w) → v ≡ w }
    ensures one_refusal { (s : Result Fraction Refused) (r e : Refused) → FollowsBy {A = Fraction} {B = Fraction} (λ v. v) s (Err (Fault.Named r)) → FollowsBy {A = Fraction} {B = Fraction} (λ v. v) s (Err (Fault.Named e)) → r ≡ e }
    ensures not_both { (s : Result Fraction Refused) (v : Fraction) (r : Refused) → FollowsBy (λ v. v) s (Ok v) → ¬ (FollowsBy {A = Fraction} {B = Fraction} (λ v. v) s (Err (Fault.Named r))) }
{}
