//! What a builder and a reader refuse.

/// What there may be too many of.
#[derive(Clone, Copy, Debug, PartialEq, Eq)]
pub enum What {
    Rows,
    Columns,
    Entries,
}

/// Why a builder didn't take a row, a column or an entry.
#[derive(Clone, Copy, Debug, PartialEq, Eq)]
pub enum BuildFault {
    /// The row `earlier` has this name.
    DuplicateRow { earlier: u32 },
    /// The column `earlier` has this name.
    DuplicateColumn { earlier: u32 },
    /// The pair of this column and this row was taken before.
    DuplicateEntry { column: u32, row: u32 },
    /// The name has more than `NAME_LIMIT` bytes.
    NameTooLong,
    /// One more would pass the limit.
    TooMany { what: What, limit: u32 },
}

/// The first row, or else the first column, whose lower bound is greater than its upper one.
#[derive(Clone, Copy, Debug, PartialEq, Eq)]
pub enum Crossed {
    Row(u32),
    Column(u32),
}

/// What is wrong with a line of a model file.
#[derive(Clone, Copy, Debug, PartialEq, Eq)]
pub enum FileKind {
    /// A control byte, or a byte that no token has.
    Byte,
    /// An unknown section word.
    Section,
    /// A section or data line out of its order.
    Order,
    /// A wrong count of words.
    Words,
    /// A token that the grammar can't take.
    Syntax,
    /// An unknown type of row.
    RowType,
    /// An unknown type of bound.
    BoundType,
    /// An unknown sense of the objective.
    Sense,
    /// A mark of an integer model.
    Integer,
    /// A row's name that stood before.
    DuplicateRow,
    /// A column that begins again.
    DuplicateColumn,
    /// A second value of one row, in one column, among the right-hand sides or among the ranges.
    DuplicateEntry,
    /// A row that wasn't declared.
    UnknownRow,
    /// A column that wasn't declared.
    UnknownColumn,
    /// A word that should be a number and isn't.
    Number,
    /// A decimal past the limits, or a sum or a computed range that doesn't fit.
    Wide,
    /// An infinite value where none may stand.
    Infinite,
    /// A range on an N row.
    RangeOnN,
    /// A lower bound or side above the upper one.
    Crossed,
    /// A name of more than `NAME_LIMIT` bytes.
    NameLong,
    /// One row more than the limit.
    TooManyRows,
    /// One column more than the limit.
    TooManyColumns,
    /// One stored entry more than the limit.
    TooManyEntries,
    /// The end of the file without its last section.
    EndMissing,
    /// More bytes than the limit.
    TooLong,
}

impl FileKind {
    ghost use Rattle.std.specs.Prelude.{◌≡◌};
    ghost use Rattle.pami_model.specs.KindWords.{kind_word};

    /// The word by which a refusal tells this kind.
    pub fn word(&self) -> &'static [u8]
        ensures { result.now ≡ kind_word self.now }
    {
        match self {
            FileKind::Byte => b"byte",
            FileKind::Section => b"section",
            FileKind::Order => b"order",
            FileKind::Words => b"words",
            FileKind::Syntax => b"syntax",
            FileKind::RowType => b"row-type",
            FileKind::BoundType => b"bound-type",
            FileKind::Sense => b"sense",
            FileKind::Integer => b"integer",
            FileKind::DuplicateRow => b"duplicate-row",
            FileKind::DuplicateColumn => b"duplicate-column",
            FileKind::DuplicateEntry => b"duplicate-entry",
            FileKind::UnknownRow => b"unknown-row",
            FileKind::UnknownColumn => b"unknown-column",
            FileKind::Number => b"number",
            FileKind::Wide => b"wide",
            FileKind::Infinite => b"infinite",
            FileKind::RangeOnN => b"range-on-n",
            FileKind::Crossed => b"crossed",
            FileKind::NameLong => b"name-long",
            FileKind::TooManyRows => b"too-many-rows",
            FileKind::TooManyColumns => b"too-many-columns",
            FileKind::TooManyEntries => b"too-many-entries",
            FileKind::EndMissing => b"end-missing",
            FileKind::TooLong => b"too-long",
        }
    }
}

/// The first thing that is wrong with a model file, and its line, counted from 1.
#[derive(Clone, Copy, Debug, PartialEq, Eq)]
pub struct FileFault {
    pub line: u32,
    pub kind: FileKind,
}
