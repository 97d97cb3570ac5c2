//! The reduced costs behind a step, slice by slice.

ghost use Rattle.std.specs.Prelude.{◌≡◌, ◌<◌, ◌≤◌, ◌^◌, ◌*◌, ◌+◌, ℕ, List, Some, Ok, length, All, IfOk};
ghost use Rattle.std.specs.List.{range_with_len};
ghost use Rattle.pami_linear.specs.Lists.{get};
ghost use Rattle.pami_frac.specs.declared.list.Entry.{Entry as TheEntry};
ghost use Rattle.pami_theory.specs.Form.{Form as TheForm, variables, zero_f};
ghost use Rattle.pami_method.specs.Batch.{Minor as TheMinor, Reached as TheReached};
ghost use Rattle.pami_method.specs.Scripts.{slice_variables};
ghost use Rattle.pami_price.specs.Slices.{slices, slice_size as the_slice_size};
ghost use Rattle.pami_minor.specs.Costs.{costs, had_cost as the_had_cost, put_all, cost_in};
ghost use Rattle.pami_minor.specs.Fresh.{IsStepping};
ghost use Rattle.pami_minor.specs.Shifts.{AreCosts, FollowsShift};

use crate::minor::Minor;
use crate::shift::shift_at;
use pami_frac::{Entry, Fault, Frac, OutOfMemory, Refused};
use pami_vec::{Side, Stand, Step};
use std::alloc::Global;

/// Was a variable nonbasic before a step, behind which the variables stand so?
fn had_cost(stands: &[Stand], step: &Step, variable: usize) -> bool
    requires { variable < length stands.now }
    ensures { result ≡ the_had_cost stands.now step.now variable }
{
    match stands[variable] {
        Stand::Basic => variable == step.entering as usize,
        _ => variable != step.leaving as usize,
    }
}

/// How many variables a slice has.
fn slice_size(count: usize, slice: usize) -> usize
    requires few { count < 2 ^ 32 }
    requires exists { 64 * slice < count }
    ensures value { result ≡ the_slice_size count slice }
    ensures within { 64 * slice + result ≤ count }
{
    let left = count - 64 * slice;
    if 64 < left { 64 } else { left }
}

/// The reduced costs of a slice of the variables that were nonbasic before a step, zeros among them, by the stands behind it.
///
/// # Errors
///
/// `OutOfMemory` alone.
fn slice_costs(
    alloc: Global,
    reduced: &[Frac],
    stands: &[Stand],
    step: &Step,
    slice: usize,
) -> Result<Vec<Entry>, OutOfMemory>
    requires same { length stands.now ≡ length reduced.now }
    requires few { length reduced.now < 2 ^ 32 }
    requires exists { 64 * slice < length reduced.now }
    ensures { IfOk result (λ es. es.items
        ≡ costs (the_had_cost stands.now step.now) (get reduced.now) (slice_variables (length reduced.now) slice)) }
{
    let first = 64 * slice;
    let last = first + slice_size(reduced.len(), slice);
    let mut kept = Vec::new(alloc);
    for v in first..last {
        if had_cost(stands, step, v) {
            kept.push(Entry {
                place: v as u32,
                value: reduced[v],
            })?;
        }
    }
    Ok(kept)
}

/// Puts costs in at their places; both go by variable.
pub(crate) fn put_costs(reduced: &mut [Frac], costs: &[Entry])
    requires { All (λ (e : TheEntry). e.place < length reduced.old) costs.now }
    ensures { reduced.new ≡ put_all costs.now reduced.old }
{
    for cost in costs {
        reduced[cost.place as usize] = cost.value;
    }
}

/// Puts in the costs of the entering and of the leaving variable, as far as they are of this slice.
fn exchange_costs(reduced: &mut [Frac], slice: u32, entering: u32, leaving: u32, cost: Frac)
    requires entering { entering < length reduced.old }
    requires leaving { leaving < length reduced.old }
    ensures { reduced.new ≡ cost_in slice leaving cost (cost_in slice entering zero_f reduced.old) }
{
    if entering / 64 == slice {
        reduced[entering as usize] = Frac::zero();
    }
    if leaving / 64 == slice {
        reduced[leaving as usize] = cost;
    }
}

impl Minor {
    /// The reduced costs of the next slice behind the last step: of each variable that was nonbasic before, but the
    /// entering one, by rising variable.
    ///
    /// # Errors
    ///
    /// `Named` exactly where an operation doesn't fit: the first such. `OutOfMemory` where memory runs out.
    pub fn shift_slice(&self, alloc: Global, slice: u32) -> Result<Vec<Entry>, Fault<Refused>>
        requires turn { (f : TheForm) × (limit : ℕ) × (m : TheMinor) × (next : TheReached) × (i : ℕ)
            × IsStepping f limit m next i slice self.now × (slice < slices (variables f)) × (variables f < 2 ^ 32) }
        // They are those of the basis behind the step.
        ensures shift { (f : TheForm) (limit : ℕ) (m : TheMinor) (next : TheReached) (i : ℕ)
            → IsStepping f limit m next i slice self.now → FollowsShift f m next slice result }
    {
        let step = self.last_step();
        let side = self.picked_side();
        let reduced = self.reduced.as_slice();
        let costs = slice_costs(alloc, reduced, self.stands.as_slice(), step, slice as usize)?;
        let alpha = &self.alpha[slice as usize];
        shift_at(alloc, costs.as_slice(), alpha.as_slice(), step, side)
    }

    /// Takes in the reduced costs of the next slice behind the last step; the entering variable has 0 there, and the leaving
    /// one the step length on its side. It takes no memory.
    pub fn commit_shift(&mut self, slice: u32, reduced: Vec<Entry>)
        requires turn { (f : TheForm) × (limit : ℕ) × (m : TheMinor) × (next : TheReached) × (i : ℕ)
            × IsStepping f limit m next i slice self.old × (slice < slices (variables f))
            × AreCosts f m next slice reduced.items }
        // One slice more is that of the basis behind the step, where these are its costs.
        ensures shifted { (f : TheForm) (limit : ℕ) (m : TheMinor) (next : TheReached) (i : ℕ)
            → IsStepping f limit m next i slice self.old → AreCosts f m next slice reduced.items
            → IsStepping f limit m next i (slice + 1) self.new }
        ensures steps { self.new.steps ≡ self.old.steps }
        ensures dropped { self.new.dropped ≡ self.old.dropped }
    {
        let side = self.picked_side();
        let step = self.last_step();
        let entering = step.entering;
        let leaving = step.leaving;
        let tau = step.tau;
        put_costs(self.reduced.as_mut_slice(), reduced.as_slice());
        exchange_costs(
            self.reduced.as_mut_slice(),
            slice,
            entering,
            leaving,
            side.toward(tau).negate(),
        );
    }
}
