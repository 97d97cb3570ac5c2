//! The state, and what is read of it.

ghost use Rattle.std.specs.Prelude.{◌≡◌, ◌↔◌, ◌<◌, ℕ, length, map, slice_index_or, IfOk, IsTrue};
ghost use Rattle.pami_linear.specs.Lists.{get};
ghost use Rattle.pami_theory.specs.Form.{Form, limits};
ghost use Rattle.pami_theory.specs.Basis.{stand_at, head_at, StandsAt, IsBasis};
ghost use Rattle.pami_theory.specs.Fresh.{IsDualFeasible};
ghost use Rattle.pami_state.specs.Columns.{bounds_form, HasBounds};
ghost use Rattle.pami_state.specs.State.{basis_of, HasSigns, IsSolvedAfresh};
ghost use Rattle.pami_state.specs.Sums.{standing_values as the_standing_values};

use crate::standing::is_signed;
use pami_frac::{Bounds, Frac, FracList, OutOfMemory};
use pami_vec::{PlaceList, Stand, StandList, WeightList, value_at};
use std::alloc::Global;

/// A basis with what is solved there: the variable at each place, where each variable stands, the value of each place,
/// the reduced cost of each variable, the weight of each place, and the count of pivots since the start.
#[derive(Debug, Drop)]
pub struct State {
    pub head: PlaceList,
    pub stands: StandList,
    pub values: FracList,
    pub reduced: FracList,
    pub weights: WeightList,
    pub pivots: u32,
}

/// What a batch leaves of a state before its values are collected: the variable at each place, where each variable stands,
/// and the reduced cost of each variable.
#[derive(Debug, Drop)]
pub struct BatchEnd {
    pub head: PlaceList,
    pub stands: StandList,
    pub reduced: FracList,
}

/// The place of a basic variable.
fn place_of(head: &[u32], variable: u32) -> usize
    requires { (p : ℕ) × (p < length head.now) × (slice_index_or head.now p 0 ≡ variable) }
    ensures within { result < length head.now }
    ensures found { slice_index_or head.now result 0 ≡ variable }
{
    let mut place = 0;
    while head[place] != variable {
        place += 1;
    }
    place
}

/// The values where nonbasic variables stand, by variable; 0 for basic ones. The bounds go by variable.
///
/// # Errors
///
/// `OutOfMemory` alone.
fn standing_values(
    alloc: Global,
    stands: &[Stand],
    bounds: &[Bounds],
) -> Result<Vec<Frac>, OutOfMemory>
    requires { length stands.now ≡ length bounds.now }
    ensures { IfOk result (λ list. list.items ≡ the_standing_values bounds.now stands.now) }
{
    let mut list = Vec::new(alloc);
    for (v, limits) in bounds.iter().enumerate() {
        list.push(value_at(limits, stands[v]))?;
    }
    Ok(list)
}

impl State {
    /// Has the reduced cost of each nonbasic variable that isn't fixed the sign of its stand? The bounds go by
    /// variable. It takes no memory. (Koberstein 2005, chapter 2.)
    pub fn dual_feasible(&self, bounds: &[Bounds]) -> bool
        requires stands { length self.now.stands ≡ length bounds.now }
        requires reduced { length self.now.reduced ≡ length bounds.now }
        ensures signs { IsTrue result ↔ HasSigns bounds.now self.now }
        ensures feasible { (f : Form) → HasBounds f bounds.now → IsSolvedAfresh f self.now
            → IsTrue result ↔ IsDualFeasible f (basis_of self.now) }
    {
        let stands = self.stands.as_slice();
        let reduced = self.reduced.as_slice();
        for (v, limits) in bounds.iter().enumerate() {
            if !is_signed(limits, stands[v], reduced[v]) {
                return false;
            }
        }
        true
    }

    /// The value of a variable, basic or not. The bounds go by variable. It takes no memory.
    pub fn value_of(&self, bounds: &[Bounds], variable: u32) -> Frac
        requires values { length self.now.values ≡ length self.now.head }
        requires stands { length self.now.stands ≡ length bounds.now }
        requires basis { IsBasis (bounds_form (length self.now.head) bounds.now) (basis_of self.now) }
        requires variable { variable < length bounds.now }
        ensures basic { (p : ℕ) → p < length self.now.head → head_at (basis_of self.now) p ≡ variable
            → result ≡ get self.now.values p }
        ensures nonbasic { StandsAt (limits (bounds_form 0 bounds.now) variable) (stand_at (basis_of self.now) variable) result }
        ensures solved { (f : Form) → HasBounds f bounds.now → (a : IsSolvedAfresh f self.now) → result ≡ get a.fresh.values variable }
    {
        let stand = self.stands.as_slice()[variable as usize];
        if stand == Stand::Basic {
            return self.values.as_slice()[place_of(self.head.as_slice(), variable)];
        }
        value_at(&bounds[variable as usize], stand)
    }

    /// The values of all variables, by variable. The bounds go by variable.
    ///
    /// # Errors
    ///
    /// `OutOfMemory` alone.
    pub fn values(&self, alloc: Global, bounds: &[Bounds]) -> Result<FracList, OutOfMemory>
        requires values { length self.now.values ≡ length self.now.head }
        requires stands { length self.now.stands ≡ length bounds.now }
        requires basis { IsBasis (bounds_form (length self.now.head) bounds.now) (basis_of self.now) }
        ensures by_variable { IfOk result (λ list. length list ≡ length bounds.now) }
        ensures solved { IfOk result (λ list. (f : Form) → HasBounds f bounds.now → (a : IsSolvedAfresh f self.now)
            → list ≡ a.fresh.values) }
    {
        let head = self.head.as_slice();
        let values = self.values.as_slice();
        let mut list = standing_values(alloc, self.stands.as_slice(), bounds)?;
        for p in 0..head.len() {
            list[head[p] as usize] = values[p];
        }
        Ok(FracList::from_vec(list))
    }

    /// An equal state.
    ///
    /// # Errors
    ///
    /// `OutOfMemory` alone.
    pub fn copy(&self, alloc: Global) -> Result<State, OutOfMemory>
        ensures { IfOk result (λ st. st ≡ self.now) }
    {
        Ok(State {
            head: PlaceList::from_vec(Vec::from_slice(alloc, self.head.as_slice())?),
            stands: StandList::from_vec(Vec::from_slice(alloc, self.stands.as_slice())?),
            values: FracList::from_vec(Vec::from_slice(alloc, self.values.as_slice())?),
            reduced: FracList::from_vec(Vec::from_slice(alloc, self.reduced.as_slice())?),
            weights: WeightList::from_vec(Vec::from_slice(alloc, self.weights.as_slice())?),
            pivots: self.pivots,
        })
    }
}
