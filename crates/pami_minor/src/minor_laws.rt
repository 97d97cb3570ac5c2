//! Where all of an opening or of a step is taken in, a Minor is fresh.

ghost use Rattle.std.specs.Prelude.{ℕ, length};
ghost use Rattle.pami_theory.specs.Form.{Form, variables};
ghost use Rattle.pami_method.specs.Batch.{Minor as TheMinor, Reached};
ghost use Rattle.pami_price.specs.Slices.{slices};
ghost use Rattle.pami_minor.specs.declared.minor.Minor.{Minor as Program};
ghost use Rattle.pami_minor.specs.Fresh.{IsFreshMinor, IsStepping};
ghost use Rattle.pami_minor.specs.Opening.{IsOpening};

/// When the rows of the inverse of all chosen places are taken in, each row, all stands and all reduced costs are those of
/// the basis at which the batch begins.
pub fn opened_minors_are_fresh()
    ensures fresh { (f : Form) (limit : ℕ) (r : Reached) (minor : Program)
        → IsOpening f limit r (length r.rows) minor → IsFreshMinor f limit r minor }
{}

/// Behind a step, when all rows that remain and all slices are taken in, each remaining row, all stands and all reduced
/// costs are those of the next basis: so before each row of a batch, by induction over its pivots.
pub fn stepped_minors_are_fresh()
    ensures fresh { (f : Form) (limit : ℕ) (m : TheMinor) (next : Reached) (minor : Program)
        → IsStepping f limit m next (length next.rows) (slices (variables f)) minor → IsFreshMinor f limit next minor }
{}
