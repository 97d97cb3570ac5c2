//! The lines of the columns, and those of the rows.

ghost use Rattle.std.specs.Prelude.{◌≡◌, ◌<◌, [], length, slice_index_or};
ghost use Rattle.pami_model.specs.Contents.{contents};
ghost use Rattle.pami_cert.specs.Part.{names, tag as the_tag};

use pami_model::Model;

/// A part of a certificate's lines, one for each column or for each row, in the model's order.
#[derive(Clone, Copy, Debug, PartialEq, Eq)]
pub(crate) enum Part {
    Columns,
    Rows,
}

impl Part {
    /// The first word of these lines.
    pub(crate) fn tag(self) -> &'static [u8]
        ensures { result.now ≡ the_tag self }
    {
        match self {
            Part::Columns => b"x",
            Part::Rows => b"r",
        }
    }

    /// How many lines there are.
    pub(crate) fn count(self, model: &Model) -> usize
        ensures { result ≡ length (names (contents model.now) self) }
    {
        match self {
            Part::Columns => model.columns.as_slice().len(),
            Part::Rows => model.rows.as_slice().len(),
        }
    }

    /// The name in the line of this index.
    pub(crate) fn name(self, model: &Model, i: usize) -> &[u8]
        requires { i < length (names (contents model.now) self) }
        ensures { result.now ≡ slice_index_or (names (contents model.now) self) i [] }
    {
        match self {
            Part::Columns => model.columns.as_slice()[i].name.as_slice(),
            Part::Rows => model.rows.as_slice()[i].name.as_slice(),
        }
    }
}
