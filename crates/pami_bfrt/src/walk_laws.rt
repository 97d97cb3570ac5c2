//! The walk over lists is the walk on the whole form.

ghost use Rattle.std.specs.Prelude.{◌≡◌, List, Ok, Err, Option};
ghost use Rattle.pami_frac.specs.declared.arithmetic.Refused.{Refused};
ghost use Rattle.pami_frac.specs.declared.list.Entry.{Entry};
ghost use Rattle.pami_script.specs.Script.{then};
ghost use Rattle.pami_theory.specs.Form.{Form};
ghost use Rattle.pami_theory.specs.Basis.{Basis};
ghost use Rattle.pami_theory.specs.Ratio.{Leaving, Entering, ratio_walk as the_ratio_walk};
ghost use Rattle.pami_method.specs.Scripts.{ratio_script};
ghost use Rattle.pami_theory.specs.declared.words.Violation.{Violation};
ghost use Rattle.pami_bfrt.specs.Candidates.{Table};
ghost use Rattle.pami_bfrt.specs.Walks.{walk_script};
ghost use Rattle.pami_bfrt.specs.Agreement.{IsTable, AreRowEntries};

/// Where the table and the entries are those of a form, a basis and a row that leaves, the walk meets the operations of
/// the method's script, and where none is refused it finds what the theory's walk finds.
pub fn walks_follow_the_method()
    ensures script { (f : Form) (b : Basis) (l : Leaving) (t : Table) (alpha : List Entry) (violation : Violation)
        → IsTable f b l t → AreRowEntries f b l alpha → l.violation ≡ violation
        → walk_script t alpha violation ≡ then (ratio_script f b l) (λ slope. Ok (the_ratio_walk f b l)) }
    ensures found { (f : Form) (b : Basis) (l : Leaving) (t : Table) (alpha : List Entry) (violation : Violation) (found : Option Entering)
        → IsTable f b l t → AreRowEntries f b l alpha → l.violation ≡ violation
        → walk_script t alpha violation ≡ Ok found → found ≡ the_ratio_walk f b l }
    ensures refused { (f : Form) (b : Basis) (l : Leaving) (t : Table) (alpha : List Entry) (violation : Violation) (r : Refused)
        → IsTable f b l t → AreRowEntries f b l alpha → l.violation ≡ violation
        → walk_script t alpha violation ≡ Err r → ratio_script f b l ≡ Err r }
{}
