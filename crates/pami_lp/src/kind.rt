//! The plain types of the machine that takes tokens: where it stands, and what a token does there.

use pami_lp_text::Relation;
use pami_model::Sense;

/// What the tokens so far leave to be taken.
#[derive(Clone, Copy, Debug, PartialEq, Eq)]
pub enum Place {
    Start,
    GoalHead,
    GoalColon,
    GoalFirst,
    GoalSigned,
    GoalNumber,
    GoalTerm,
    RowsSecond,
    RowHead,
    RowColon,
    RowFirst,
    /// A left value; its relation is due.
    RowLeft,
    /// A term is due; behind a left value, its relation.
    RowMiddle(Option<Relation>),
    /// The name of a term is due.
    RowNumber(Option<Relation>),
    /// Behind a term.
    RowTerm(Option<Relation>),
    /// A right value is due.
    RowValue(Relation),
    BoundHead,
    BoundSigned,
    BoundLeft,
    BoundName(Relation),
    BoundAgain,
    BoundColumn,
    BoundValue(Relation),
    End,
}

/// Which section's tokens are being read.
#[derive(Clone, Copy, Debug, PartialEq, Eq)]
pub enum Section {
    /// In front of the word that begins the objective.
    Start,
    Objective,
    Rows,
    Bounds,
}

/// What a token does in the grammar.
#[derive(Clone, Copy, Debug, PartialEq, Eq)]
pub enum Role {
    Goal(Sense),
    /// A word or a sign of the layout: nothing but a place.
    Mark,
    Plus,
    Minus,
    GoalLabel,
    RowLabel,
    /// A number whose name follows.
    Coefficient,
    /// A number of the objective alone.
    Constant,
    GoalName,
    /// A name of a row that goes on.
    RowName,
    /// A name of a row that ends with it.
    RowLast,
    /// A value to the left of this relation.
    RowLeft(Relation),
    /// A number or word behind which neither a name nor a relation stands.
    Stray,
    /// A value to the right of this relation, with which the row ends.
    RowRight(Relation),
    BoundLeft(Relation),
    /// The name behind a value.
    BoundName(Relation),
    /// The name at the head of a bound.
    BoundColumn,
    BoundFree,
    BoundRight(Relation),
    End,
}

/// What a token does, and the place behind it.
#[derive(Clone, Copy, Debug, PartialEq, Eq)]
pub struct Move {
    pub role: Role,
    pub place: Place,
}
