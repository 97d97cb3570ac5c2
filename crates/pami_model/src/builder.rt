//! The builder: tables of names with what stands at each, and the pairs that were taken.
//!
//! A name is looked up by hash, and so is a pair, so that no call but `finish` grows with the model. What the fields
//! keep is the record `IsKept`; `finish` turns it into what a `Model` keeps.

ghost use Rattle.std.specs.Prelude.{map, not, if◌then◌else◌, ◌≡◌, ◌++◌, ◌∷◌, [], ◌<◌, ◌≤◌, IfOk, OnOk, OnErr, length};
ghost use Rattle.std.specs.List.{All, list_any};
ghost use Rattle.pami_frac.specs.Answers.{Follows};
ghost use Rattle.pami_model.specs.Rules.{IsDistinct, column_limit, names_of_rows, names_of_columns, row_limit};
ghost use Rattle.pami_model.specs.Build.{IsApart, built_column, columns_of, rows_of, duplicate_on, limit_on, name_fault, named, names_of, too_many_on};
ghost use Rattle.pami_model.specs.Draft.{changed, column_at, row_at, crossed_column, crossed_row, first_crossed, column_with_bounds, column_with_cost, empty_draft, entry_fault, finished, is_crossed, is_pair, row_with_bounds, stores, place_of, row_fault, column_fault, new_row, new_column};

use crate::fault::{BuildFault, Crossed, What};
use crate::limit::{COLUMN_LIMIT, ENTRY_LIMIT, NAME_LIMIT, ROW_LIMIT};
use crate::list::{Column, ColumnList, EntryList, Name, Row, RowList};
use crate::model::{Model, Sense};
use indexmap::{IndexMap, IndexSet};
use pami_frac::{Bounds, Entry, Fault, Frac, OutOfMemory};
use std::alloc::Global;
use std::cmp::Ordering;
use std::marker;

/// A column whose name stands in the table of names, with its entries in the order of their adding.
#[derive(Debug, Drop)]
pub struct Building {
    pub cost: Frac,
    pub bounds: Bounds,
    pub entries: Vec<Entry>,
}

/// A model in the making: rows, columns and entries come one at a time. An entry's row and column come before it.
///
/// A contract sees a `Draft`. Rows and columns are numbered from 0 in the order of their adding.
#[derive(Debug, Drop)]
pub struct Builder {
    alloc: Global,
    sense: Sense,
    constant: Frac,
    rows: IndexMap<Vec<u8>, Bounds>,
    columns: IndexMap<Vec<u8>, Building>,
    pairs: IndexSet<(u32, u32)>,
    stored: u32,
}

impl marker::Model for Builder {
    ghost use Rattle.pami_model.specs.Draft.{Draft};
    ghost use Rattle.pami_model.specs.Build.{rows_of, columns_of, IsKept};

    ghost Value = { Draft };

    ghost view = { λ b. record { sense = b.sense; constant = b.constant; rows = rows_of b.rows.entries; columns = columns_of b.columns.entries; pairs = b.pairs.keys } };

    ghost invariant = { λ b. IsKept (record { sense = b.sense; constant = b.constant; rows = rows_of b.rows.entries; columns = columns_of b.columns.entries; pairs = b.pairs.keys }) b.stored };
}

/// Which of the two tables a name is for.
#[derive(Clone, Copy, Debug, PartialEq, Eq)]
pub enum Side {
    Row,
    Column,
}

/// How many names the table may have.
fn limit_of(side: Side) -> u32
    ensures { result ≡ limit_on side }
{
    match side {
        Side::Row => ROW_LIMIT,
        Side::Column => COLUMN_LIMIT,
    }
}

/// The refusal of a name that stands already.
fn duplicate_of(side: Side, earlier: u32) -> BuildFault
    ensures { result ≡ duplicate_on side earlier }
{
    match side {
        Side::Row => BuildFault::DuplicateRow { earlier },
        Side::Column => BuildFault::DuplicateColumn { earlier },
    }
}

/// The refusal of one name more than the limit.
fn too_many_of(side: Side) -> BuildFault
    ensures { result ≡ too_many_on side }
{
    match side {
        Side::Row => BuildFault::TooMany {
            what: What::Rows,
            limit: ROW_LIMIT,
        },
        Side::Column => BuildFault::TooMany {
            what: What::Columns,
            limit: COLUMN_LIMIT,
        },
    }
}

/// Adds a name with its value at the end of a table, and answers its place.
fn add_name<V: Drop>(
    alloc: Global,
    table: &mut IndexMap<Vec<u8>, V>,
    side: Side,
    name: &[u8],
    value: V,
) -> Result<u32, Fault<BuildFault>>
    requires { length table.old.entries ≤ limit_on side }
    ensures judged { Follows (name_fault side (names_of table.old.entries) name.now) result }
    ensures placed { IfOk result (λ i. i ≡ length table.old.entries) }
    ensures added { OnOk result (named table.new.entries ≡ named table.old.entries ++ (name.now, value) ∷ []) }
    ensures kept { OnErr result (table.new.entries ≡ table.old.entries) }
{
    if name.len() > NAME_LIMIT {
        return Err(Fault::Named(BuildFault::NameTooLong));
    }
    if let Some(earlier) = table.get_index_of(name) {
        return Err(Fault::Named(duplicate_of(side, earlier as u32)));
    }
    let place = table.len() as u32;
    if place >= limit_of(side) {
        return Err(Fault::Named(too_many_of(side)));
    }
    let key = Vec::from_slice(alloc, name)?;
    table.insert(key, value)?;
    Ok(place)
}

/// Records a pair of a column and a row, and stores the entry, where the pair is new; answers whether it was.
fn store(
    building: &mut Building,
    pairs: &mut IndexSet<(u32, u32)>,
    column: u32,
    entry: Entry,
) -> Result<bool, OutOfMemory>
    ensures fresh { IfOk result (λ new. new ≡ not (list_any (is_pair column entry.place) pairs.old.keys)) }
    ensures recorded { IfOk result (λ new. pairs.new.keys ≡ (if new then pairs.old.keys ++ (column, entry.place) ∷ [] else pairs.old.keys)) }
    ensures stored { IfOk result (λ new. building.new.entries.items ≡ (if new then building.old.entries.items ++ entry ∷ [] else building.old.entries.items)) }
    ensures same_pairs { OnErr result (pairs.new.keys ≡ pairs.old.keys) }
    ensures same_entries { OnErr result (building.new.entries.items ≡ building.old.entries.items) }
    ensures same_cost { building.new.cost ≡ building.old.cost }
    ensures same_bounds { building.new.bounds ≡ building.old.bounds }
{
    building.entries.reserve(1)?;
    if !pairs.insert((column, entry.place))? {
        return Ok(false);
    }
    building.entries.push(entry).unwrap();
    Ok(true)
}

/// Whether the lower bound is greater than the upper one.
fn are_crossed(bounds: &Bounds) -> bool
    ensures { result ≡ is_crossed bounds.now }
{
    match (bounds.low, bounds.high) {
        (Some(low), Some(high)) => high.compare(&low) == Ordering::Less,
        _ => false,
    }
}

/// The column with its entries by rising row.
fn finish_column(name: Vec<u8>, column: Building) -> Column
    requires { IsApart column.entries.items }
    ensures { result ≡ finished (built_column (name.items, column)) }
{
    let mut sorted = column.entries;
    sorted.sort_unstable_by_key(|entry| entry.place);
    let name = Name::from_vec(name);
    let entries = EntryList::from_vec(sorted);
    Column {
        name,
        cost: column.cost,
        bounds: column.bounds,
        entries,
    }
}

/// The rows of a table, or the first whose bounds are crossed.
fn finish_rows(alloc: Global, table: IndexMap<Vec<u8>, Bounds>) -> Result<Vec<Row>, Fault<Crossed>>
    requires { length table.entries ≤ row_limit }
    ensures judged { Follows (crossed_row (rows_of table.entries)) result }
    ensures rows { IfOk result (λ rows. rows.items ≡ rows_of table.entries) }
    ensures distinct { IsDistinct (names_of table.entries) }
{
    let mut rows = Vec::new(alloc);
    for (name, bounds) in table {
        if are_crossed(&bounds) {
            return Err(Fault::Named(Crossed::Row(rows.len() as u32)));
        }
        let name = Name::from_vec(name);
        rows.push(Row { name, bounds })?;
    }
    Ok(rows)
}

/// The columns of a table with their entries by row, or the first whose bounds are crossed.
fn finish_columns(
    alloc: Global,
    table: IndexMap<Vec<u8>, Building>,
) -> Result<Vec<Column>, Fault<Crossed>>
    requires limited { length table.entries ≤ column_limit }
    requires apart { All (λ c. IsApart c.entries) (columns_of table.entries) }
    ensures judged { Follows (crossed_column (columns_of table.entries)) result }
    ensures columns { IfOk result (λ columns. columns.items ≡ map finished (columns_of table.entries)) }
    ensures distinct { IsDistinct (names_of table.entries) }
{
    let mut columns = Vec::new(alloc);
    for (name, column) in table {
        if are_crossed(&column.bounds) {
            return Err(Fault::Named(Crossed::Column(columns.len() as u32)));
        }
        columns.push(finish_column(name, column))?;
    }
    Ok(columns)
}

impl Builder {
    /// A builder with no rows and no columns, that minimises 0. It allocates with `alloc`.
    pub fn new(alloc: Global) -> Result<Builder, OutOfMemory>
        ensures empty { IfOk result (λ b. b ≡ empty_draft) }
    {
        Ok(Builder {
            alloc,
            sense: Sense::Min,
            constant: Frac::zero(),
            rows: IndexMap::new(alloc),
            columns: IndexMap::new(alloc),
            pairs: IndexSet::new(alloc),
            stored: 0,
        })
    }

    /// The row of this name, if one was added.
    pub fn find_row(&self, name: &[u8]) -> Option<u32>
        ensures { result ≡ place_of name.now (names_of_rows self.now.rows) }
    {
        let place = self.rows.get_index_of(name)?;
        Some(place as u32)
    }

    /// The column of this name, if one was added.
    pub fn find_column(&self, name: &[u8]) -> Option<u32>
        ensures { result ≡ place_of name.now (names_of_columns self.now.columns) }
    {
        let place = self.columns.get_index_of(name)?;
        Some(place as u32)
    }

    /// Adds a row at the end and answers its number. `NameTooLong` comes first, then `DuplicateRow`, then `TooMany`;
    /// after a refusal, and where memory ran out, the rows are as before.
    pub fn add_row(&mut self, name: &[u8], bounds: Bounds) -> Result<u32, Fault<BuildFault>>
        ensures judged { Follows (row_fault self.old name.now) result }
        ensures numbered { IfOk result (λ i. i ≡ length self.old.rows) }
        ensures added { OnOk result (self.new ≡ record self.old { rows = self.old.rows ++ new_row name.now bounds ∷ [] }) }
        ensures kept { OnErr result (self.new ≡ self.old) }
    {
        // Taken apart and put together: the prover makes no plan for a function that only hands its `Bounds` on.
        let Bounds { low, high } = bounds;
        let bounds = Bounds { low, high };
        add_name(self.alloc, &mut self.rows, Side::Row, name, bounds)
    }

    /// Adds a column at the end and answers its number; its cost is 0 and its bounds are 0 and infinity.
    /// `NameTooLong` comes first, then `DuplicateColumn`, then `TooMany`; after a refusal, and where memory ran out,
    /// the columns are as before.
    pub fn add_column(&mut self, name: &[u8]) -> Result<u32, Fault<BuildFault>>
        ensures judged { Follows (column_fault self.old name.now) result }
        ensures numbered { IfOk result (λ i. i ≡ length self.old.columns) }
        ensures added { OnOk result (self.new ≡ record self.old { columns = self.old.columns ++ new_column name.now ∷ [] }) }
        ensures kept { OnErr result (self.new ≡ self.old) }
    {
        let zero = Frac::zero();
        let column = Building {
            cost: zero,
            bounds: Bounds {
                low: Some(zero),
                high: None,
            },
            entries: Vec::new(self.alloc),
        };
        add_name(self.alloc, &mut self.columns, Side::Column, name, column)
    }

    /// Takes the value of a column at a row; a 0 is recorded for the duplicate rule but not stored. `DuplicateEntry`
    /// comes first, then `TooMany`, which counts stored entries alone; after a refusal, and where memory ran out,
    /// everything is as before. Both numbers are below the counts so far.
    pub fn add_entry(&mut self, column: u32, row: u32, value: Frac) -> Result<(), Fault<BuildFault>>
        requires column_known { column < length self.old.columns }
        requires row_known { row < length self.old.rows }
        ensures judged { Follows (entry_fault self.old column row value) result }
        ensures added { OnOk result (self.new ≡ record self.old { pairs = self.old.pairs ++ (column, row) ∷ []; columns = changed column (stores row value) self.old.columns }) }
        ensures counted { OnOk result (length self.new.columns ≡ length self.old.columns) }
        ensures kept { OnErr result (self.new ≡ self.old) }
    {
        if value.is_zero() {
            if !self.pairs.insert((column, row))? {
                return Err(Fault::Named(BuildFault::DuplicateEntry { column, row }));
            }
            return Ok(());
        }
        if self.stored >= ENTRY_LIMIT {
            if self.pairs.contains(&(column, row)) {
                return Err(Fault::Named(BuildFault::DuplicateEntry { column, row }));
            }
            return Err(Fault::Named(BuildFault::TooMany {
                what: What::Entries,
                limit: ENTRY_LIMIT,
            }));
        }
        let building = &mut self.columns[column as usize];
        if !store(
            building,
            &mut self.pairs,
            column,
            Entry { place: row, value },
        )? {
            return Err(Fault::Named(BuildFault::DuplicateEntry { column, row }));
        }
        self.stored += 1;
        Ok(())
    }

    /// Sets the bounds of a row; its number is below the count of rows.
    pub fn set_row_bounds(&mut self, row: u32, bounds: Bounds)
        requires { row < length self.old.rows }
        ensures set { self.new ≡ record self.old { rows = changed row (row_with_bounds bounds) self.old.rows } }
        ensures counted { length self.new.rows ≡ length self.old.rows }
    {
        self.rows[row as usize] = bounds;
    }

    /// Sets the bounds of a column; its number is below the count of columns.
    pub fn set_column_bounds(&mut self, column: u32, bounds: Bounds)
        requires { column < length self.old.columns }
        ensures set { self.new ≡ record self.old { columns = changed column (column_with_bounds bounds) self.old.columns } }
        ensures counted { length self.new.columns ≡ length self.old.columns }
    {
        self.columns[column as usize].bounds = bounds;
    }

    /// Sets the cost of a column; its number is below the count of columns.
    pub fn set_cost(&mut self, column: u32, cost: Frac)
        requires { column < length self.old.columns }
        ensures set { self.new ≡ record self.old { columns = changed column (column_with_cost cost) self.old.columns } }
        ensures counted { length self.new.columns ≡ length self.old.columns }
    {
        self.columns[column as usize].cost = cost;
    }

    /// The bounds of a row; its number is below the count of rows.
    pub fn row_bounds_at(&self, row: u32) -> Bounds
        requires { row < length self.now.rows }
        ensures { result ≡ (row_at self.now.rows row).bounds }
    {
        self.rows[row as usize]
    }

    /// The bounds of a column; its number is below the count of columns.
    pub fn column_bounds_at(&self, column: u32) -> Bounds
        requires { column < length self.now.columns }
        ensures { result ≡ (column_at self.now.columns column).bounds }
    {
        self.columns[column as usize].bounds
    }

    /// The cost of a column; its number is below the count of columns.
    pub fn cost_at(&self, column: u32) -> Frac
        requires { column < length self.now.columns }
        ensures { result ≡ (column_at self.now.columns column).cost }
    {
        self.columns[column as usize].cost
    }

    /// The constant of the objective.
    pub fn constant(&self) -> Frac
        ensures { result ≡ self.now.constant }
    {
        self.constant
    }

    /// The sense of the objective.
    pub fn sense(&self) -> Sense
        ensures { result ≡ self.now.sense }
    {
        self.sense
    }

    /// Sets the sense of the objective and its constant.
    pub fn set_goal(&mut self, sense: Sense, constant: Frac)
        ensures { self.new ≡ record self.old { sense = sense; constant = constant } }
    {
        self.sense = sense;
        self.constant = constant;
    }

    /// The count of rows.
    pub fn row_count(&self) -> u32
        ensures { result ≡ length self.now.rows }
    {
        self.rows.len() as u32
    }

    /// The count of columns.
    pub fn column_count(&self) -> u32
        ensures { result ≡ length self.now.columns }
    {
        self.columns.len() as u32
    }

    /// The model, its rows and columns in the order of their adding and each column's entries by rising row; or the
    /// first row whose lower bound is greater than its upper one, or else the first such column.
    pub fn finish(self) -> Result<Model, Fault<Crossed>>
        ensures judged { Follows (first_crossed self) result }
        ensures sense { IfOk result (λ m. m.sense ≡ self.sense) }
        ensures constant { IfOk result (λ m. m.constant ≡ self.constant) }
        ensures rows { IfOk result (λ m. m.rows ≡ self.rows) }
        ensures columns { IfOk result (λ m. m.columns ≡ map finished self.columns) }
    {
        let rows = finish_rows(self.alloc, self.rows)?;
        let columns = finish_columns(self.alloc, self.columns)?;
        Ok(Model {
            sense: self.sense,
            constant: self.constant,
            rows: RowList::from_vec(rows),
            columns: ColumnList::from_vec(columns),
        })
    }
}
