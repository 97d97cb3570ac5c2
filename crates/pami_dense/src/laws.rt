//! That the dense elimination and the one over nonzeros give the same answer.

ghost use Rattle.std.specs.Prelude.{List, Result};
ghost use Rattle.pami_algebra.specs.Fraction.{Fraction};
ghost use Rattle.pami_frac.specs.declared.fault.Fault.{Fault};
ghost use Rattle.pami_frac.specs.Answers.{FollowsBy};
ghost use Rattle.pami_factoring.specs.declared.kept.Kept.{Kept};
ghost use Rattle.pami_factoring.specs.declared.kept.LuFault.{LuFault};
ghost use Rattle.pami_factoring.specs.Factor.{elimination_script};
ghost use Rattle.pami_dense.specs.Alike.{AreAlike};

/// Two answers that follow the script of the same matrix, as the clauses `script` of `eliminate_dense` and of
/// `pami_lu::eliminate` say of theirs, are the same steps or the same fault, unless one of both wanted memory.
pub fn both_eliminations_agree()
    ensures alike { (rows : List (List Fraction)) (dense sparse : Result (List Kept) (Fault LuFault)) → FollowsBy (λ ks. ks) (elimination_script rows) dense
        → FollowsBy (λ ks. ks) (elimination_script rows) sparse → AreAlike dense sparse }
{}
