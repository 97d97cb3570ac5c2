//! The sums over a row and over a column, each refused exactly as its script over all places.
//!
//! A column keeps its entries alone, by rising row, and the checker takes no memory to turn them round. So a sum over a
//! column goes along its entries, and a sum over a row looks the row up in each column. What is left out are operations
//! with a zero operand, which always fit.

ghost use Rattle.std.specs.Prelude.{◌≡◌, ◌⊎◌, length, IfSome, IfNone};
ghost use Rattle.std.specs.List.{All};
ghost use Rattle.pami_linear.specs.Lists.{get};
ghost use Rattle.pami_script.specs.Dense.{at, Rising};
ghost use Rattle.pami_script.specs.Script.{add_dot, sub_dot};
ghost use Rattle.pami_theory.specs.Form.{zero_f};
ghost use Rattle.pami_model.specs.declared.list.Column.{Column};
ghost use Rattle.pami_model.specs.Rules.{IsRising};
ghost use Rattle.pami_model_form.specs.ModelForm.{minimised};
ghost use Rattle.pami_check.specs.Lists.{entry_by, cost_by};

use pami_frac::{Entry, Frac, Refused};
use pami_model::{Column, Sense};
use pami_script::plain::{add_product, sub_product};

/// The entry at a row, found by bisection.
fn entry_at(entries: &[Entry], row: u32) -> Option<Frac>
    requires { IsRising entries.now }
    ensures found { IfSome result (λ entry. entry ≡ at entries.now row) }
    ensures none { IfNone result (at entries.now row ≡ zero_f) }
{
    let mut low = 0;
    let mut high = entries.len();
    while low < high {
        let middle = low + (high - low) / 2;
        if entries[middle].place < row {
            low = middle + 1;
        } else {
            high = middle;
        }
    }
    if low < entries.len() && entries[low].place == row {
        return Some(entries[low].value);
    }
    None
}

/// The entry at a row, where it counts in a sum: the value that it multiplies, which in most columns is 0, isn't.
fn entry_that_counts(entries: &[Entry], row: u32, value: &Frac) -> Option<Frac>
    requires { IsRising entries.now }
    ensures found { IfSome result (λ entry. entry ≡ at entries.now row) }
    ensures none { IfNone result ((at entries.now row ≡ zero_f) ⊎ (value.now ≡ zero_f)) }
{
    if value.is_zero() {
        return None;
    }
    entry_at(entries, row)
}

/// The sum over a row, columns ascending: 0, and then each entry times the column's value.
pub(crate) fn row_sum(columns: &[Column], row: u32, values: &[Frac]) -> Result<Frac, Refused>
    requires rising { All (λ (c : Column). IsRising c.entries) columns.now }
    requires values { length values.now ≡ length columns.now }
    ensures { result ≡ add_dot (length columns.now) (entry_by columns.now row) (get values.now) zero_f }
{
    let mut total = Frac::zero();
    for (j, column) in columns.iter().enumerate() {
        let value = values[j];
        if let Some(entry) = entry_that_counts(column.entries.as_slice(), row, &value) {
            total = add_product(total, entry, value)?;
        }
    }
    Ok(total)
}

/// The cost of a column that is to be made small.
pub(crate) fn minimised(sense: Sense, cost: Frac) -> Frac
    ensures { result ≡ minimised sense cost }
{
    match sense {
        Sense::Min => cost,
        Sense::Max => cost.negate(),
    }
}

/// `start` and the costs times the values, columns ascending. The costs are those to be made small; where the sense is
/// `Min`, these are the file's own.
pub(crate) fn cost_sum(
    start: Frac,
    sense: Sense,
    columns: &[Column],
    values: &[Frac],
) -> Result<Frac, Refused>
    requires { length values.now ≡ length columns.now }
    ensures { result ≡ add_dot (length columns.now) (cost_by sense columns.now) (get values.now) start }
{
    let mut total = start;
    for (j, column) in columns.iter().enumerate() {
        total = add_product(total, minimised(sense, column.cost), values[j])?;
    }
    Ok(total)
}

/// The combination of the rows at a column, rows ascending: 0, and then each factor times the row's entry.
pub(crate) fn column_sum(factors: &[Frac], entries: &[Entry]) -> Result<Frac, Refused>
    requires { Rising 0 (length factors.now) entries.now }
    ensures { result ≡ add_dot (length factors.now) (get factors.now) (at entries.now) zero_f }
{
    let mut total = Frac::zero();
    for entry in entries {
        total = add_product(total, factors[entry.place as usize], entry.value)?;
    }
    Ok(total)
}

/// A cost without the combination of the rows at its column, rows ascending.
pub(crate) fn reduced_cost(cost: Frac, factors: &[Frac], entries: &[Entry]) -> Result<Frac, Refused>
    requires { Rising 0 (length factors.now) entries.now }
    ensures { result ≡ sub_dot (length factors.now) (get factors.now) (at entries.now) cost }
{
    let mut total = cost;
    for entry in entries {
        total = sub_product(total, factors[entry.place as usize], entry.value)?;
    }
    Ok(total)
}
