//! The state at the start: the row variables in the basis, each column at a bound or at 0.

ghost use Rattle.std.specs.Prelude.{◌≡◌, ◌<◌, ◌≤◌, ◌+◌, ◌^◌, ℕ, length, map, replicate, IfOk};
ghost use Rattle.std.specs.List.{range_with_len};
ghost use Rattle.pami_frac.specs.Answers.{Follows, FollowsBy};
ghost use Rattle.pami_theory.specs.Fresh.{Fresh, IsFresh};
ghost use Rattle.pami_theory.specs.Start.{starting_basis};
ghost use Rattle.pami_method.specs.Phases.{start_refused};
ghost use Rattle.pami_state.specs.Columns.{column_of, form_by, rows_of, IsForm};
ghost use Rattle.pami_state.specs.State.{basis_of, IsSolvedAfresh};
ghost use Rattle.pami_state.specs.Sums.{stand_by_lists, standing_at, sum_more, sums_script, AddsColumn, AreSums};

use crate::standing::starting_stand;
use crate::state::State;
use pami_frac::{Bounds, Fault, Frac, FracList, OutOfMemory, Refused};
use pami_script::plain::add_product;
use pami_vec::{PlaceList, SpVec, Stand, StandList, WeightList, value_at};
use std::alloc::Global;

/// The count of rows: the length of each column.
fn row_count(columns: &[SpVec]) -> u32
    ensures { result ≡ rows_of columns.now }
{
    match columns.first() {
        Some(column) => column.len(),
        None => 0,
    }
}

/// Where each variable stands at the start, the columns first.
///
/// # Errors
///
/// `OutOfMemory` alone.
fn starting_stands(
    alloc: Global,
    columns: u32,
    bounds: &[Bounds],
    costs: &[Frac],
) -> Result<Vec<Stand>, OutOfMemory>
    requires columns { columns ≤ length bounds.now }
    requires costs { length costs.now ≡ length bounds.now }
    ensures { IfOk result (λ stands. stands.items ≡ map (stand_by_lists columns bounds.now costs.now) (range_with_len 0 (length bounds.now))) }
{
    let mut stands = Vec::new(alloc);
    for (v, limits) in bounds.iter().enumerate() {
        if v < columns as usize {
            stands.push(starting_stand(limits, costs[v]))?;
        } else {
            stands.push(Stand::Basic)?;
        }
    }
    Ok(stands)
}

/// The row variables, each at the place of its row.
///
/// # Errors
///
/// `OutOfMemory` alone.
fn row_variables(alloc: Global, columns: u32, rows: u32) -> Result<Vec<u32>, OutOfMemory>
    requires { columns + rows < 2 ^ 32 }
    ensures { IfOk result (λ head. head.items ≡ map (λ i. columns + i) (range_with_len 0 rows)) }
{
    let mut head = Vec::new(alloc);
    for row in 0..rows {
        head.push(columns + row)?;
    }
    Ok(head)
}

/// The sum with one product more, `entry` left; a refused one stays as it is.
fn go_on(sum: Result<Frac, Refused>, entry: Frac, x: Frac) -> Result<Frac, Refused>
    ensures { result ≡ sum_more sum entry x }
{
    add_product(sum?, entry, x)
}

/// Goes on with the sum of each row by its entry of a column, times `x`.
fn add_column(sums: &mut [Result<Frac, Refused>], column: &SpVec, x: Frac)
    requires { length sums.old ≡ length column.now }
    ensures { AddsColumn sums.old column.now x sums.new }
{
    for entry in column.entries() {
        let row = entry.place as usize;
        sums[row] = go_on(sums[row], entry.value, x);
    }
}

/// The sum of each row over the columns where they stand, or the first refused operation of its row. Columns of value 0
/// are left out, and so are the zeros of the others.
///
/// # Errors
///
/// `OutOfMemory` alone.
fn row_sums(
    alloc: Global,
    columns: &[SpVec],
    rows: u32,
    bounds: &[Bounds],
    stands: &[Stand],
) -> Result<Vec<Result<Frac, Refused>>, OutOfMemory>
    requires bounds { length columns.now ≤ length bounds.now }
    requires stands { length columns.now ≤ length stands.now }
    requires tall { (j : ℕ) → j < length columns.now → length (column_of columns.now j) ≡ rows }
    ensures { IfOk result (λ sums. AreSums columns.now rows (length columns.now) (standing_at bounds.now stands.now) sums.items) }
{
    let mut sums = vec![in alloc; Ok(Frac::zero()); rows as usize]?;
    for (j, column) in columns.iter().enumerate() {
        let x = value_at(&bounds[j], stands[j]);
        if x.is_zero() {
            continue;
        }
        add_column(sums.as_mut_slice(), column, x);
    }
    Ok(sums)
}

/// The values of the rows.
///
/// # Errors
///
/// `Named` exactly where a row was refused: the refusal of the first such. `OutOfMemory` where memory runs out.
fn row_values(alloc: Global, sums: &[Result<Frac, Refused>]) -> Result<FracList, Fault<Refused>>
    ensures { FollowsBy (λ v. v) (sums_script sums.now) result }
{
    let mut values = Vec::new(alloc);
    for sum in sums {
        match sum {
            Ok(value) => values.push(*value)?,
            Err(refused) => return Err(Fault::Named(*refused)),
        }
    }
    Ok(FracList::from_vec(values))
}

/// The starting state. The lists go over all variables, the columns first: each column is boxed, fixed, bounded from one
/// side or free, and stands by its bounds and, where it is boxed, its cost. (Koberstein 2005, section 4.1.)
///
/// # Errors
///
/// `Named` exactly where an operation of the sums that are the values of the rows doesn't fit: rows ascending, in each
/// the columns ascending, the first such. `OutOfMemory` where memory runs out.
pub fn start(
    alloc: Global,
    columns: &[SpVec],
    bounds: &[Bounds],
    costs: &[Frac],
) -> Result<State, Fault<Refused>>
    requires { IsForm columns.now bounds.now costs.now }
    ensures basis { IfOk result (λ st. basis_of st ≡ starting_basis (form_by columns.now bounds.now costs.now)) }
    ensures solved { IfOk result (λ st. IsSolvedAfresh (form_by columns.now bounds.now costs.now) st) }
    ensures weights { IfOk result (λ st. st.weights ≡ replicate (rows_of columns.now) 1) }
    ensures pivots { IfOk result (λ st. st.pivots ≡ 0) }
    // The refusal is that of the values which the starting basis has.
    ensures follows { (s : Fresh) → IsFresh (form_by columns.now bounds.now costs.now) (starting_basis (form_by columns.now bounds.now costs.now)) s
        → Follows (start_refused (form_by columns.now bounds.now costs.now) s) result }
{
    let rows = row_count(columns);
    let count = columns.len() as u32 - rows;
    let stands = starting_stands(alloc, count, bounds, costs)?;
    let sums = row_sums(
        alloc,
        &columns[..count as usize],
        rows,
        bounds,
        stands.as_slice(),
    )?;
    let values = row_values(alloc, sums.as_slice())?;
    Ok(State {
        head: PlaceList::from_vec(row_variables(alloc, count, rows)?),
        stands: StandList::from_vec(stands),
        values,
        reduced: FracList::from_vec(Vec::from_slice(alloc, costs)?),
        weights: WeightList::from_vec(vec![in alloc; 1; rows as usize]?),
        pivots: 0,
    })
}
