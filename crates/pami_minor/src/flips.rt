//! What the flips of a step change in the rows, and the step's primal length.

ghost use Rattle.std.specs.Prelude.{◌≡◌, ◌<◌, ◌^◌, ℕ, length, false, slice_index_or, All, IfOk};
ghost use Rattle.std.specs.List.{filter, range_with_len};
ghost use Rattle.pami_frac.specs.Signs.{is_zero};
ghost use Rattle.pami_frac.specs.Answers.{BecomesBy, FollowsBy};
ghost use Rattle.pami_theory.specs.Step.{is_among, change_by};
ghost use Rattle.pami_theory.specs.Violation.{value_or_zero as the_value_or_zero};
ghost use Rattle.pami_method.specs.Scripts.{zeros};
ghost use Rattle.pami_state.specs.Columns.{column_of};
ghost use Rattle.pami_minor.specs.Flips.{flip_at, flips_by, ascending_to, length_by};

use pami_form::Form;
use pami_frac::{Fault, Frac, FracList, OutOfMemory, Refused};
use pami_vec::{Change, SpVec, Stand, change_members, value_or_zero};
use std::alloc::Global;

/// By how much the value of a variable that stands so changes by its flip.
fn flip_change(stand: Stand, width: Option<Frac>) -> Frac
    ensures { result ≡ change_by stand (the_value_or_zero width) }
{
    let width = value_or_zero(width);
    match stand {
        Stand::Basic => Frac::zero(),
        Stand::Lower => width,
        Stand::Upper => width.negate(),
        Stand::Zero => Frac::zero(),
    }
}

/// Which of so many variables are flipped.
fn flip_marks(alloc: Global, count: usize, flips: &[u32]) -> Result<Vec<bool>, OutOfMemory>
    requires known { All (λ v. v < count) flips.now }
    ensures as_many { IfOk result (λ marks. length marks.items ≡ count) }
    ensures marks { IfOk result (λ marks. (v : ℕ) → slice_index_or marks.items v false ≡ is_among v flips.now) }
{
    let mut marks = vec![in alloc; false; count]?;
    for v in flips {
        marks[*v as usize] = true;
    }
    Ok(marks)
}

/// Adds the columns of marked variables, each times its change, to the rows.
fn add_flips(
    columns: &[SpVec],
    stands: &[Stand],
    widths: &[Option<Frac>],
    marks: &[bool],
    rows: &mut [Frac],
) -> Result<(), Refused>
    requires stands { length stands.now ≡ length columns.now }
    requires widths { length widths.now ≡ length columns.now }
    requires marks { length marks.now ≡ length columns.now }
    requires tall { (v : ℕ) → v < length columns.now → length (column_of columns.now v) ≡ length rows.old }
    ensures { BecomesBy (flips_by columns.now (flip_at stands.now widths.now)
        (filter (λ v. slice_index_or marks.now v false) (range_with_len 0 (length columns.now))) rows.old) rows.new result }
{
    for (v, column) in columns.iter().enumerate() {
        if marks[v] {
            let factor = flip_change(stands[v], widths[v]);
            match change_members(Change::More { factor }, rows, column.entries()) {
                Ok(()) => {}
                Err(stop) => return Err(stop.refused),
            }
        }
    }
    Ok(())
}

/// What the flips of these variables change in each of so many rows, zeros among them.
///
/// # Errors
///
/// `Named` exactly where an operation doesn't fit: the first such, the rows of each column ascending. `OutOfMemory` where
/// memory runs out.
fn flip_changes(
    alloc: Global,
    columns: &[SpVec],
    stands: &[Stand],
    widths: &[Option<Frac>],
    rows: u32,
    flips: &[u32],
) -> Result<FracList, Fault<Refused>>
    requires stands { length stands.now ≡ length columns.now }
    requires widths { length widths.now ≡ length columns.now }
    requires tall { (v : ℕ) → v < length columns.now → length (column_of columns.now v) ≡ rows }
    requires known { All (λ v. v < length columns.now) flips.now }
    ensures { FollowsBy (λ v. v) (flips_by columns.now (flip_at stands.now widths.now)
        (ascending_to (length columns.now) flips.now) (zeros rows)) result }
{
    let mut sums = vec![in alloc; Frac::zero(); rows as usize]?;
    if flips.is_empty() {
        return Ok(FracList::from_vec(sums));
    }
    let marks = match flip_marks(alloc, columns.len(), flips) {
        Ok(marks) => marks,
        Err(_) => return Err(Fault::OutOfMemory),
    };
    match add_flips(columns, stands, widths, &marks, sums.as_mut_slice()) {
        Ok(()) => Ok(FracList::from_vec(sums)),
        Err(refused) => Err(Fault::Named(refused)),
    }
}

/// What the flips of these variables change, by row: for each, by rising variable, its change times its column. Stands go
/// by variable.
///
/// # Errors
///
/// `Named` exactly where an operation doesn't fit: the first such, the rows of each column ascending. `OutOfMemory` where
/// memory runs out.
pub(crate) fn flip_column(
    alloc: Global,
    form: &Form,
    stands: &[Stand],
    flips: &[u32],
) -> Result<SpVec, Fault<Refused>>
    requires stands { length stands.now ≡ length form.now.columns }
    requires known { All (λ v. v < length form.now.columns) flips.now }
    ensures script { FollowsBy (λ v. v) (flips_by form.now.columns (flip_at stands.now form.now.widths)
        (ascending_to (length form.now.columns) flips.now) (zeros form.now.rows)) result }
    ensures rows { IfOk result (λ v. length v ≡ form.now.rows) }
{
    let columns = form.columns.as_slice();
    let widths = form.widths.as_slice();
    let changes = flip_changes(alloc, columns, stands, widths, form.rows, flips)?;
    Ok(SpVec::from_dense(alloc, changes.as_slice())?)
}

/// The primal step length: the value at the leaving place without what the flips change there, less the bound that is
/// passed, by the pivot. `rho`, the row of the place, and `flips` go by row.
///
/// # Errors
///
/// `Refused` exactly where an operation doesn't fit: the first such.
pub(crate) fn step_length(
    rho: &SpVec,
    flips: &SpVec,
    value: Frac,
    bound: Frac,
    pivot: Frac,
) -> Result<Frac, Refused>
    requires rows { length rho.now ≡ length flips.now }
    requires nonzero { is_zero pivot ≡ false }
    ensures { result ≡ length_by rho.now flips.now value bound pivot }
{
    let change = rho.dot(flips)?;
    let unflipped = value.sub(change)?;
    let distance = unflipped.sub(bound)?;
    distance.div(pivot)
}
