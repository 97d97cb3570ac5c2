//! The reader's state, and one function for each kind of line.

ghost use Rattle.std.specs.Prelude.{◌≡◌, ◌<◌, ◌∷◌, [], false, length, map, Some, IfOk, OnOk};
ghost use Rattle.std.specs.Option.{option_map};
ghost use Rattle.pami_frac.specs.Answers.{Follows};
ghost use Rattle.pami_mps.specs.Line.{is_end, line_of};
ghost use Rattle.pami_mps.specs.Gather.{is_free as is_free_kind, without_set, Kept, Objective};
ghost use Rattle.pami_frac.specs.declared.bound.BoundValue.TheVariants.{Finite};
ghost use Rattle.pami_model.specs.Draft.{zero};
ghost use Rattle.pami_model.specs.Number.{limit_value};
ghost use Rattle.pami_mps.specs.Limits.{limit, effect as the_effect, unstated as nothing_stated, unvalued_in, valued_in};
ghost use Rattle.pami_mps.specs.After.{after, after_column, after_goal, after_head, after_limits, after_ranges, after_read, after_row, after_sense, after_values, after_words, role_for, sides_at, with_column, with_constant, with_entry, with_limit, with_limits, with_pair, with_range as with_the_range, with_ranged, with_right, with_row, with_sides, with_told, with_value};
ghost use Rattle.pami_mps.specs.Judge.{judge, judge_body, judge_column, judge_column_name, judge_data, judge_entry, judge_free, judge_goal, judge_head, judge_kept, judge_known, judge_limit_kind, judge_limited, judge_limits, judge_pair, judge_range, judge_ranged, judge_ranges, judge_right, judge_row, judge_sense_line, judge_unvalued, judge_value, judge_valued, judge_values, judge_whole_kind};
ghost use Rattle.pami_mps.specs.Reader.{seen_by_reader, nothing_seen, IsEven, role_told};

use crate::bounds::{
    effect, has_value, is_bad_limit, is_bad_right, plain_bounds, right_bounds, with_range,
};
use crate::kind::{LimitKind, RowKind, RowRole, Section, Sides, Told};
use crate::text::{has_control, is_comment, is_head, words};
use crate::word::{
    follows, is_marker, is_whole_kind, kind_of, limit_kind_of, section_of, sense_of,
};
use indexmap::IndexSet;
use pami_frac::{BoundValue, Bounds, Fault, Frac, OutOfMemory};
use pami_model::{Builder, FileKind, NAME_LIMIT, file_fault, read_limit, read_number};
use std::alloc::Global;

/// What a reader has gathered of the lines so far.
#[derive(Drop)]
pub(crate) struct Reader {
    pub(crate) section: Section,
    /// The names of the N rows; the first is the objective.
    pub(crate) free: IndexSet<Vec<u8>>,
    /// What the lines have told of each row of the model.
    pub(crate) told: Vec<Told>,
    /// The bounds of each column.
    pub(crate) sides: Vec<Sides>,
    pub(crate) builder: Builder,
    /// Whether the last column has a cost.
    pub(crate) has_cost: bool,
    /// Whether the objective has a right-hand side.
    pub(crate) has_constant: bool,
}

/// The bounds of a column that no line of BOUNDS names.
fn unstated() -> Sides
    ensures { result ≡ nothing_stated }
{
    Sides {
        bounds: Bounds {
            low: Some(Frac::zero()),
            high: None,
        },
        stated: false,
    }
}

/// The words behind the name of a set.
fn pairs_of<'a>(words: &'a [&'a [u8]]) -> &'a [&'a [u8]]
    ensures { map (λ w. w.now) result.now ≡ without_set (map (λ w. w.now) words.now) }
{
    if words.len() % 2 == 1 {
        let (_, pairs) = words.split_at(1);
        return pairs;
    }
    words
}

/// Whether the count and the type of a line of BOUNDS are those of a model without integers.
fn check_limit(kind: &[u8], words: &[&[u8]]) -> Result<(), Fault<FileKind>>
    ensures { Follows (judge_whole_kind kind.now (map (λ w. w.now) words.now)) result }
{
    if words.is_empty() || words.len() > 3 {
        return Err(Fault::Named(FileKind::Words));
    }
    if is_whole_kind(kind) {
        return Err(Fault::Named(FileKind::Integer));
    }
    Ok(())
}

impl Reader {
    /// A reader that no line has come to.
    pub(crate) fn new(alloc: Global) -> Result<Reader, OutOfMemory>
        ensures { IfOk result (λ r. seen_by_reader r ≡ nothing_seen) }
    {
        Ok(Reader {
            section: Section::Start,
            free: IndexSet::new(alloc),
            told: Vec::new(alloc),
            sides: Vec::new(alloc),
            builder: Builder::new(alloc)?,
            has_cost: false,
            has_constant: false,
        })
    }

    /// A word that is the sense.
    fn take_sense(&mut self, word: &[u8]) -> Result<(), Fault<FileKind>>
        ensures judged { Follows (judge_sense_line (word.now ∷ [])) result }
        ensures grown { OnOk result (seen_by_reader self.new ≡ after_goal (seen_by_reader self.old) (word.now ∷ [])) }
    {
        match sense_of(word) {
            None => Err(Fault::Named(FileKind::Sense)),
            Some(sense) => {
                let constant = self.builder.constant();
                self.builder.set_goal(sense, constant);
                self.section = Section::SenseGiven;
                Ok(())
            }
        }
    }

    /// The words behind OBJSENSE on its line.
    fn take_goal(&mut self, others: &[&[u8]]) -> Result<(), Fault<FileKind>>
        ensures judged { Follows (judge_goal (map (λ w. w.now) others.now)) result }
        ensures grown { OnOk result (seen_by_reader self.new
            ≡ after_goal (seen_by_reader self.old) (map (λ w. w.now) others.now)) }
    {
        match others {
            [] => {
                self.section = Section::SenseDue;
                Ok(())
            }
            [word] => self.take_sense(word),
            _ => Err(Fault::Named(FileKind::Words)),
        }
    }

    /// The data line where the sense is due.
    fn take_sense_line(&mut self, words: &[&[u8]]) -> Result<(), Fault<FileKind>>
        requires { 0 < length words.now }
        ensures judged { Follows (judge_sense_line (map (λ w. w.now) words.now)) result }
        ensures grown { OnOk result (seen_by_reader self.new
            ≡ after_sense (seen_by_reader self.old) (map (λ w. w.now) words.now)) }
    {
        match words {
            [word] => self.take_sense(word),
            _ => Err(Fault::Named(FileKind::Words)),
        }
    }

    /// A section line.
    fn take_head(&mut self, words: &[&[u8]]) -> Result<(), Fault<FileKind>>
        ensures judged { Follows (judge_head self.old.section (map (λ w. w.now) words.now)) result }
        ensures grown { OnOk result (seen_by_reader self.new
            ≡ after_head (seen_by_reader self.old) (map (λ w. w.now) words.now)) }
    {
        match words {
            [] => Err(Fault::Named(FileKind::Section)),
            [word, others @ ..] => {
                let next = match section_of(word) {
                    Some(next) => next,
                    None => return Err(Fault::Named(FileKind::Section)),
                };
                if !follows(self.section, next) {
                    return Err(Fault::Named(FileKind::Order));
                }
                if next == Section::SenseDue {
                    return self.take_goal(others);
                }
                if next != Section::Name && !others.is_empty() {
                    return Err(Fault::Named(FileKind::Words));
                }
                self.section = next;
                Ok(())
            }
        }
    }

    /// What a name stands for among the rows.
    fn role_of(&self, name: &[u8]) -> Option<RowRole>
        ensures { option_map role_told result ≡ role_for (seen_by_reader self.now) name.now }
    {
        if let Some(row) = self.builder.find_row(name) {
            return Some(RowRole::Kept(row));
        }
        match self.free.get_index_of(name) {
            Some(0) => Some(RowRole::Objective),
            Some(_) => Some(RowRole::Dropped),
            None => None,
        }
    }

    /// An N row.
    fn add_free(&mut self, alloc: Global, name: &[u8]) -> Result<(), Fault<FileKind>>
        ensures judged { Follows (judge_free (seen_by_reader self.old) name.now) result }
        ensures grown { OnOk result (seen_by_reader self.new
            ≡ with_row (Some RowKind.Free) name.now (seen_by_reader self.old)) }
    {
        if name.len() > NAME_LIMIT {
            return Err(Fault::Named(FileKind::NameLong));
        }
        if self.free.contains(name) {
            return Err(Fault::Named(FileKind::DuplicateRow));
        }
        if self.builder.find_row(name).is_some() {
            return Err(Fault::Named(FileKind::DuplicateRow));
        }
        self.free.insert(Vec::from_slice(alloc, name)?)?;
        Ok(())
    }

    /// A row of the model.
    fn add_kept(&mut self, kind: RowKind, name: &[u8]) -> Result<(), Fault<FileKind>>
        requires { is_free_kind kind ≡ false }
        ensures judged { Follows (judge_kept (seen_by_reader self.old) name.now) result }
        ensures grown { OnOk result (seen_by_reader self.new
            ≡ with_row (Some kind) name.now (seen_by_reader self.old)) }
    {
        if name.len() > NAME_LIMIT {
            return Err(Fault::Named(FileKind::NameLong));
        }
        if self.free.contains(name) {
            return Err(Fault::Named(FileKind::DuplicateRow));
        }
        if let Err(fault) = self
            .builder
            .add_row(name, plain_bounds(kind, Some(Frac::zero())))
        {
            return Err(file_fault(fault));
        }
        self.told.push(Told {
            kind,
            right: BoundValue::Finite(Frac::zero()),
            has_right: false,
            has_range: false,
        })?;
        Ok(())
    }

    /// A line of ROWS.
    fn take_row(&mut self, alloc: Global, words: &[&[u8]]) -> Result<(), Fault<FileKind>>
        ensures judged { Follows (judge_row (seen_by_reader self.old) (map (λ w. w.now) words.now)) result }
        ensures grown { OnOk result (seen_by_reader self.new
            ≡ after_row (seen_by_reader self.old) (map (λ w. w.now) words.now)) }
    {
        match words {
            [kind, name] => match kind_of(kind) {
                None => Err(Fault::Named(FileKind::RowType)),
                Some(kind) => {
                    if kind == RowKind::Free {
                        return self.add_free(alloc, name);
                    }
                    self.add_kept(kind, name)
                }
            },
            _ => Err(Fault::Named(FileKind::Words)),
        }
    }

    /// The name of a line of COLUMNS: that of the last column, or of a new one.
    fn stand_column(&mut self, name: &[u8]) -> Result<(), Fault<FileKind>>
        ensures judged { Follows (judge_column_name (seen_by_reader self.old) name.now) result }
        ensures grown { OnOk result (seen_by_reader self.new ≡ with_column name.now (seen_by_reader self.old)) }
        ensures some { OnOk result (0 < length self.new.builder.columns) }
    {
        if let Some(place) = self.builder.find_column(name) {
            if u64::from(place) + 1 == u64::from(self.builder.column_count()) {
                return Ok(());
            }
        }
        if let Err(fault) = self.builder.add_column(name) {
            return Err(file_fault(fault));
        }
        self.sides.push(unstated())?;
        self.has_cost = false;
        Ok(())
    }

    /// An entry of the last column.
    fn add_entry(&mut self, row: u32, value: Frac) -> Result<(), Fault<FileKind>>
        requires some { 0 < length self.old.builder.columns }
        requires row_in { row < length self.old.builder.rows }
        ensures judged { Follows (judge_entry (seen_by_reader self.old) (Kept row) value) result }
        ensures grown { OnOk result (seen_by_reader self.new
            ≡ with_entry (Some (Kept row)) value (seen_by_reader self.old)) }
        ensures some { OnOk result (0 < length self.new.builder.columns) }
    {
        let last = self.builder.column_count() - 1;
        match self.builder.add_entry(last, row, value) {
            Ok(()) => Ok(()),
            Err(fault) => Err(file_fault(fault)),
        }
    }

    /// The cost of the last column.
    fn set_cost(&mut self, value: Frac) -> Result<(), Fault<FileKind>>
        requires { 0 < length self.old.builder.columns }
        ensures judged { Follows (judge_entry (seen_by_reader self.old) Objective value) result }
        ensures grown { OnOk result (seen_by_reader self.new
            ≡ with_entry (Some Objective) value (seen_by_reader self.old)) }
        ensures some { OnOk result (0 < length self.new.builder.columns) }
    {
        if self.has_cost {
            return Err(Fault::Named(FileKind::DuplicateEntry));
        }
        let last = self.builder.column_count() - 1;
        self.builder.set_cost(last, value);
        self.has_cost = true;
        Ok(())
    }

    /// A pair of a line of COLUMNS.
    fn take_pair(&mut self, row: &[u8], value: &[u8]) -> Result<(), Fault<FileKind>>
        requires { 0 < length self.old.builder.columns }
        ensures judged { Follows (judge_pair (seen_by_reader self.old) row.now value.now) result }
        ensures grown { OnOk result (seen_by_reader self.new ≡ with_pair row.now value.now (seen_by_reader self.old)) }
        ensures some { OnOk result (0 < length self.new.builder.columns) }
    {
        let role = match self.role_of(row) {
            Some(role) => role,
            None => return Err(Fault::Named(FileKind::UnknownRow)),
        };
        let value = read_number(value)?;
        match role {
            RowRole::Kept(row) => self.add_entry(row, value),
            RowRole::Objective => self.set_cost(value),
            RowRole::Dropped => Ok(()),
        }
    }

    /// A line of COLUMNS.
    fn take_column(&mut self, words: &[&[u8]]) -> Result<(), Fault<FileKind>>
        ensures judged { Follows (judge_column (seen_by_reader self.old) (map (λ w. w.now) words.now)) result }
        ensures grown { OnOk result (seen_by_reader self.new
            ≡ after_column (seen_by_reader self.old) (map (λ w. w.now) words.now)) }
    {
        match words {
            [column, row, value] => self.take_one(column, row, value),
            [column, row, value, other_row, other_value] => {
                self.take_one(column, row, value)?;
                self.take_pair(other_row, other_value)
            }
            _ => Err(Fault::Named(FileKind::Words)),
        }
    }

    /// The name and the first pair of a line of COLUMNS.
    fn take_one(&mut self, column: &[u8], row: &[u8], value: &[u8]) -> Result<(), Fault<FileKind>>
        ensures judged { Follows
            (judge_column (seen_by_reader self.old) (column.now ∷ row.now ∷ value.now ∷ [])) result }
        ensures grown { OnOk result (seen_by_reader self.new
            ≡ after_column (seen_by_reader self.old) (column.now ∷ row.now ∷ value.now ∷ [])) }
        ensures some { OnOk result (0 < length self.new.builder.columns) }
    {
        self.stand_column(column)?;
        if is_marker(row) {
            return Err(Fault::Named(FileKind::Integer));
        }
        self.take_pair(row, value)
    }

    /// The right-hand side of a row of the model.
    fn set_right(&mut self, row: u32, value: BoundValue) -> Result<(), Fault<FileKind>>
        requires even { IsEven (seen_by_reader self.old) }
        requires row_in { row < length self.old.builder.rows }
        ensures judged { Follows (judge_right (seen_by_reader self.old) row value) result }
        ensures grown { OnOk result (seen_by_reader self.new ≡ with_right row value (seen_by_reader self.old)) }
    {
        let told = &mut self.told[row as usize];
        if told.has_right {
            return Err(Fault::Named(FileKind::DuplicateEntry));
        }
        if is_bad_right(told.kind, &value) {
            return Err(Fault::Named(FileKind::Infinite));
        }
        let bounds = right_bounds(told.kind, &value);
        told.right = value;
        told.has_right = true;
        self.builder.set_row_bounds(row, bounds);
        Ok(())
    }

    /// The right-hand side of the objective: minus the constant.
    fn set_constant(&mut self, value: Frac)
        ensures { seen_by_reader self.new ≡ with_constant value (seen_by_reader self.old) }
    {
        let sense = self.builder.sense();
        self.builder.set_goal(sense, value.negate());
        self.has_constant = true;
    }

    /// A right-hand side of a line of RHS.
    fn take_value(&mut self, row: &[u8], value: &[u8]) -> Result<(), Fault<FileKind>>
        requires { IsEven (seen_by_reader self.old) }
        ensures judged { Follows (judge_value (seen_by_reader self.old) row.now value.now) result }
        ensures grown { OnOk result (seen_by_reader self.new ≡ with_value row.now value.now (seen_by_reader self.old)) }
    {
        match self.role_of(row) {
            None => Err(Fault::Named(FileKind::UnknownRow)),
            Some(RowRole::Kept(row)) => {
                let value = read_limit(value)?;
                self.set_right(row, value)
            }
            Some(RowRole::Objective) => {
                let value = read_number(value)?;
                if self.has_constant {
                    return Err(Fault::Named(FileKind::DuplicateEntry));
                }
                self.set_constant(value);
                Ok(())
            }
            Some(RowRole::Dropped) => {
                read_limit(value)?;
                Ok(())
            }
        }
    }

    /// A line of RHS.
    fn take_values(&mut self, words: &[&[u8]]) -> Result<(), Fault<FileKind>>
        requires { IsEven (seen_by_reader self.old) }
        ensures judged { Follows
            (judge_values (seen_by_reader self.old) (without_set (map (λ w. w.now) words.now))) result }
        ensures grown { OnOk result (seen_by_reader self.new
            ≡ after_values (seen_by_reader self.old) (without_set (map (λ w. w.now) words.now))) }
    {
        match pairs_of(words) {
            [row, value] => self.take_value(row, value),
            [row, value, other_row, other_value] => {
                self.take_value(row, value)?;
                self.take_value(other_row, other_value)
            }
            _ => Err(Fault::Named(FileKind::Words)),
        }
    }

    /// The range of a row of the model.
    fn set_range(&mut self, row: u32, range: BoundValue) -> Result<(), Fault<FileKind>>
        requires even { IsEven (seen_by_reader self.old) }
        requires row_in { row < length self.old.builder.rows }
        ensures judged { Follows (judge_range (seen_by_reader self.old) row range) result }
        ensures grown { OnOk result (seen_by_reader self.new ≡ with_the_range row range (seen_by_reader self.old)) }
    {
        let told = &mut self.told[row as usize];
        if told.has_range {
            return Err(Fault::Named(FileKind::DuplicateEntry));
        }
        let Bounds { low, high } = with_range(told.kind, &told.right, &range)?;
        told.has_range = true;
        self.builder.set_row_bounds(row, Bounds { low, high });
        Ok(())
    }

    /// A range of a line of RANGES.
    fn take_range(&mut self, row: &[u8], value: &[u8]) -> Result<(), Fault<FileKind>>
        requires { IsEven (seen_by_reader self.old) }
        ensures judged { Follows (judge_ranged (seen_by_reader self.old) row.now value.now) result }
        ensures grown { OnOk result (seen_by_reader self.new
            ≡ with_ranged row.now value.now (seen_by_reader self.old)) }
    {
        match self.role_of(row) {
            None => Err(Fault::Named(FileKind::UnknownRow)),
            Some(RowRole::Kept(row)) => {
                let range = read_limit(value)?;
                self.set_range(row, range)
            }
            Some(RowRole::Objective) => Err(Fault::Named(FileKind::RangeOnN)),
            Some(RowRole::Dropped) => Err(Fault::Named(FileKind::RangeOnN)),
        }
    }

    /// A line of RANGES.
    fn take_ranges(&mut self, words: &[&[u8]]) -> Result<(), Fault<FileKind>>
        requires { IsEven (seen_by_reader self.old) }
        ensures judged { Follows
            (judge_ranges (seen_by_reader self.old) (without_set (map (λ w. w.now) words.now))) result }
        ensures grown { OnOk result (seen_by_reader self.new
            ≡ after_ranges (seen_by_reader self.old) (without_set (map (λ w. w.now) words.now))) }
    {
        match pairs_of(words) {
            [row, value] => self.take_range(row, value),
            [row, value, other_row, other_value] => {
                self.take_range(row, value)?;
                self.take_range(other_row, other_value)
            }
            _ => Err(Fault::Named(FileKind::Words)),
        }
    }

    /// What a line of BOUNDS states of the column at this place.
    fn set_limit(&mut self, column: u32, kind: LimitKind, value: BoundValue)
        requires even { IsEven (seen_by_reader self.old) }
        requires column_in { column < length self.old.builder.columns }
        ensures { seen_by_reader self.new
            ≡ with_sides column (the_effect kind value (sides_at self.old.sides.items column)) (seen_by_reader self.old) }
    {
        let sides = &mut self.sides[column as usize];
        *sides = effect(kind, &value, sides);
        let bounds = sides.bounds;
        self.builder.set_column_bounds(column, bounds);
    }

    /// A line of BOUNDS with a value.
    fn take_limit(
        &mut self,
        kind: LimitKind,
        column: &[u8],
        value: &[u8],
    ) -> Result<(), Fault<FileKind>>
        requires { IsEven (seen_by_reader self.old) }
        ensures judged { Follows (judge_limited (seen_by_reader self.old) kind column.now value.now) result }
        ensures grown { OnOk result (seen_by_reader self.new
            ≡ with_limit (limit column.now kind (limit_value value.now)) (seen_by_reader self.old)) }
    {
        let column = match self.builder.find_column(column) {
            Some(column) => column,
            None => return Err(Fault::Named(FileKind::UnknownColumn)),
        };
        let value = read_limit(value)?;
        if is_bad_limit(kind, &value) {
            return Err(Fault::Named(FileKind::Infinite));
        }
        self.set_limit(column, kind, value);
        Ok(())
    }

    /// A line of BOUNDS without a value.
    fn take_mark(&mut self, kind: LimitKind, column: &[u8]) -> Result<(), Fault<FileKind>>
        requires { IsEven (seen_by_reader self.old) }
        ensures judged { Follows (judge_known (seen_by_reader self.old) column.now) result }
        ensures grown { OnOk result (seen_by_reader self.new
            ≡ with_limit (limit column.now kind (Finite zero)) (seen_by_reader self.old)) }
    {
        match self.builder.find_column(column) {
            Some(column) => {
                self.set_limit(column, kind, BoundValue::Finite(Frac::zero()));
                Ok(())
            }
            None => Err(Fault::Named(FileKind::UnknownColumn)),
        }
    }

    /// The words behind a type with a value.
    fn take_valued(&mut self, kind: LimitKind, words: &[&[u8]]) -> Result<(), Fault<FileKind>>
        requires { IsEven (seen_by_reader self.old) }
        ensures judged { Follows (judge_valued (seen_by_reader self.old) kind (map (λ w. w.now) words.now)) result }
        ensures grown { OnOk result (seen_by_reader self.new
            ≡ with_limits (valued_in kind (map (λ w. w.now) words.now)) (seen_by_reader self.old)) }
    {
        match words {
            [column, value] => self.take_limit(kind, column, value),
            [_, column, value] => self.take_limit(kind, column, value),
            _ => Err(Fault::Named(FileKind::Words)),
        }
    }

    /// The words behind a type without a value.
    fn take_unvalued(&mut self, kind: LimitKind, words: &[&[u8]]) -> Result<(), Fault<FileKind>>
        requires { IsEven (seen_by_reader self.old) }
        ensures judged { Follows (judge_unvalued (seen_by_reader self.old) (map (λ w. w.now) words.now)) result }
        ensures grown { OnOk result (seen_by_reader self.new
            ≡ with_limits (unvalued_in kind (map (λ w. w.now) words.now)) (seen_by_reader self.old)) }
    {
        match words {
            [column] => self.take_mark(kind, column),
            [_, column] => self.take_mark(kind, column),
            [_, column, _] => self.take_mark(kind, column),
            _ => Err(Fault::Named(FileKind::Words)),
        }
    }

    /// A line of BOUNDS, by its type and the words behind it.
    fn take_typed(&mut self, kind: &[u8], words: &[&[u8]]) -> Result<(), Fault<FileKind>>
        requires { IsEven (seen_by_reader self.old) }
        ensures judged { Follows
            (judge_limits (seen_by_reader self.old) (kind.now ∷ map (λ w. w.now) words.now)) result }
        ensures grown { OnOk result (seen_by_reader self.new
            ≡ after_limits (seen_by_reader self.old) (kind.now ∷ map (λ w. w.now) words.now)) }
    {
        check_limit(kind, words)?;
        match limit_kind_of(kind) {
            Some(kind) => {
                if has_value(kind) {
                    return self.take_valued(kind, words);
                }
                self.take_unvalued(kind, words)
            }
            None => Err(Fault::Named(FileKind::BoundType)),
        }
    }

    /// A line of BOUNDS.
    fn take_limits(&mut self, words: &[&[u8]]) -> Result<(), Fault<FileKind>>
        requires { IsEven (seen_by_reader self.old) }
        ensures judged { Follows (judge_limits (seen_by_reader self.old) (map (λ w. w.now) words.now)) result }
        ensures grown { OnOk result (seen_by_reader self.new
            ≡ after_limits (seen_by_reader self.old) (map (λ w. w.now) words.now)) }
    {
        match words {
            [] => Err(Fault::Named(FileKind::Words)),
            [kind, others @ ..] => self.take_typed(kind, others),
        }
    }

    /// A data line.
    fn take_data(&mut self, alloc: Global, words: &[&[u8]]) -> Result<(), Fault<FileKind>>
        requires { IsEven (seen_by_reader self.old) }
        ensures judged { Follows (judge_data (seen_by_reader self.old) (map (λ w. w.now) words.now)) result }
        ensures grown { OnOk result (seen_by_reader self.new
            ≡ after_words self.old.section (seen_by_reader self.old) (map (λ w. w.now) words.now)) }
    {
        if words.is_empty() {
            return Ok(());
        }
        match self.section {
            Section::SenseDue => self.take_sense_line(words),
            Section::Rows => self.take_row(alloc, words),
            Section::Columns => self.take_column(words),
            Section::Rhs => self.take_values(words),
            Section::Ranges => self.take_ranges(words),
            Section::Limits => self.take_limits(words),
            Section::Start => Err(Fault::Named(FileKind::Order)),
            Section::Name => Err(Fault::Named(FileKind::Order)),
            Section::SenseGiven => Err(Fault::Named(FileKind::Order)),
            Section::End => Ok(()),
        }
    }

    /// A line of words: a section line or a data line.
    fn take_words(
        &mut self,
        alloc: Global,
        head: bool,
        words: &[&[u8]],
    ) -> Result<(), Fault<FileKind>>
        requires { IsEven (seen_by_reader self.old) }
        ensures judged { Follows (judge_body head (seen_by_reader self.old) (map (λ w. w.now) words.now)) result }
        ensures grown { OnOk result (seen_by_reader self.new
            ≡ after_read head (seen_by_reader self.old) (map (λ w. w.now) words.now)) }
    {
        if head {
            return self.take_head(words);
        }
        self.take_data(alloc, words)
    }

    /// Takes the next line, which stands before the end.
    pub(crate) fn take_line(&mut self, alloc: Global, line: &[u8]) -> Result<(), Fault<FileKind>>
        requires open { is_end self.old.section ≡ false }
        requires even { IsEven (seen_by_reader self.old) }
        ensures judged { Follows (judge (seen_by_reader self.old) (line_of line.now)) result }
        ensures grown { OnOk result (seen_by_reader self.new ≡ after (seen_by_reader self.old) (line_of line.now)) }
    {
        if has_control(line) {
            return Err(Fault::Named(FileKind::Byte));
        }
        if is_comment(line) {
            return Ok(());
        }
        let found = words(alloc, line)?;
        self.take_words(alloc, is_head(line), found.as_slice())
    }
}
