//! The backward solve: back through the pivots since, the factor of each step, then up with them.

ghost use Rattle.std.specs.Prelude.{◌≡◌, ◌<◌, ◌^◌, ℕ, [], List, Bool, false, Ok, map, length, IfOk};
ghost use Rattle.pami_linear.specs.Lists.{get};
ghost use Rattle.pami_frac.specs.Signs.{is_zero};
ghost use Rattle.pami_frac.specs.Answers.{FollowsBy, BecomesBy};
ghost use Rattle.pami_frac.specs.Arithmetic.{div_outcome};
ghost use Rattle.pami_script.specs.Dense.{at, Rising};
ghost use Rattle.pami_script.specs.Script.{then, sub_product as the_sub_product};
ghost use Rattle.pami_factoring.specs.Solve.{combined, backward_script};
ghost use Rattle.pami_vec.specs.Pivots.{column_pivots, ArePivots};
ghost use Rattle.pami_lu.specs.Stored.{full_steps, AreWhole};
ghost use Rattle.pami_factor.specs.Reads.{IsLeftOut, rest_at, row_value, row_factors};
ghost use Rattle.pami_factor.specs.Units.{unit_list};

use crate::dense::{unit, vector_of, zeros};
use crate::product::go_back_all;
use crate::sums::subtract_entries;
use pami_frac::{Entry, Fault, Frac, OutOfMemory, Refused};
use pami_lu::SparseStep;
use pami_script::plain::sub_product;
use pami_vec::{Pivot, SpVec};
use std::alloc::Global;

/// What is left of a member of the right side, or the operation at which it was refused. A refusal waits here until the
/// member is wanted, since that of another member may come before it.
type Rest = Result<Frac, Refused>;

/// The members of the right side before any step.
fn all_left(alloc: Global, right: &[Frac]) -> Result<Vec<Rest>, OutOfMemory>
    ensures { IfOk result (λ rests. rests.items ≡ map (λ t. Ok t) right.now) }
{
    let mut rests = Vec::with_capacity(alloc, right.len())?;
    for member in right {
        rests.push(Ok(*member))?;
    }
    Ok(rests)
}

/// `rest - factor value`, where there is a rest.
fn less(rest: Rest, factor: Frac, value: Frac) -> Rest
    ensures { result ≡ then rest (λ t. the_sub_product t factor value) }
{
    sub_product(rest?, factor, value)
}

/// Takes the factor of a step times its kept row from the rests at all places but its own. A factor 0 takes nothing.
fn take_kept(rests: &mut [Rest], factor: Frac, kept: &[Entry], own: u32)
    requires { Rising 0 (length rests.old) kept.now }
    ensures each { (g : ℕ) → ¬ (g ≡ own) → rest_at rests.new g ≡ then (rest_at rests.old g) (λ t. the_sub_product t factor (at kept.now g)) }
    ensures as_many { length rests.new ≡ length rests.old }
{
    if factor.is_zero() {
        return;
    }
    for entry in kept {
        if entry.place != own {
            let place = entry.place as usize;
            rests[place] = less(rests[place], factor, entry.value);
        }
    }
}

/// The factor of a step, from what is left at its place and its pivot.
fn factor_of(rest: Rest, pivot: Frac) -> Result<Frac, Refused>
    requires { is_zero pivot ≡ false }
    ensures { result ≡ then rest (λ t. div_outcome t pivot) }
{
    rest?.div(pivot)
}

/// The factors of all steps by row, each in the row of its step, for a right side by place.
pub(crate) fn find_factors(
    alloc: Global,
    steps: &[SparseStep],
    right: &[Frac],
) -> Result<Vec<Frac>, Fault<Refused>>
    requires few { length right.now < 2 ^ 32 }
    requires stored { AreWhole steps.now }
    requires same { length right.now ≡ length steps.now }
    ensures script { FollowsBy (λ v. v.items) (row_factors (full_steps [] steps.now) right.now) result }
    ensures size { IfOk result (λ v. length v.items ≡ length right.now) }
{
    let mut rests = all_left(alloc, right)?;
    let mut out = zeros(alloc, right.len())?;
    for step in steps {
        let own = step.place as u32;
        let factor = factor_of(rests[step.place], step.kept.at(own))?;
        take_kept(rests.as_mut_slice(), factor, step.kept.entries(), own);
        out[step.row] = factor;
    }
    Ok(out)
}

/// Takes the members in the rows below a step from the one in its row. A row that isn't active after the step has no
/// multiplier.
fn take_below(members: &mut [Frac], step: &SparseStep) -> Result<(), Refused>
    requires low { step.now.row < length members.old }
    requires same { length step.now.multipliers ≡ length members.old }
    ensures script { (ts : List Bool) → IsLeftOut ts (length members.old) step.now.multipliers
        → BecomesBy (row_value ts step.now members.old) members.new result }
    ensures as_many { length members.new ≡ length members.old }
{
    let value = subtract_entries(members[step.row], step.multipliers.entries(), members)?;
    members[step.row] = value;
    Ok(())
}

/// Takes factors by row to the solution by row, from the last step to the first.
pub(crate) fn combine(members: &mut [Frac], steps: &[SparseStep]) -> Result<(), Refused>
    requires stored { AreWhole steps.now }
    requires same { length members.old ≡ length steps.now }
    ensures script { BecomesBy (combined (length members.old) (full_steps [] steps.now) members.old) members.new result }
    ensures as_many { length members.new ≡ length members.old }
{
    let mut k = steps.len();
    while k > 0 {
        k -= 1;
        take_below(members, &steps[k])?;
    }
    Ok(())
}

/// The row of a place: the unit vector of that place goes back through the pivots since, and by the elimination it has a
/// solution, by row.
#[tactic(auto, unfolding(pami_factoring::specs::Solve::backward_script))]
pub(crate) fn solve_row(
    alloc: Global,
    steps: &[SparseStep],
    pivots: &[Pivot],
    place: usize,
) -> Result<SpVec, Fault<Refused>>
    requires few { length steps.now < 2 ^ 32 }
    requires low { place < length steps.now }
    requires stored { AreWhole steps.now }
    requires pivots { ArePivots (length steps.now) pivots.now }
    ensures { let unit = unit_list (length steps.now) place in
        FollowsBy (λ v. v) (backward_script (full_steps [] steps.now) (column_pivots pivots.now) unit) result }
{
    let mut right = unit(alloc, steps.len(), place)?;
    go_back_all(right.as_mut_slice(), pivots)?;
    let mut solution = find_factors(alloc, steps, &right)?;
    combine(solution.as_mut_slice(), steps)?;
    Ok(vector_of(alloc, &solution)?)
}
