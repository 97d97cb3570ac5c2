//! The plain types of tokens: how far a lexeme has come, relations, and the classes of tokens.

use pami_model::Sense;

/// How far the longest lexeme has come.
#[derive(Clone, Copy, Debug, PartialEq, Eq)]
pub enum Scan {
    Start,
    /// Digits.
    Digits,
    /// A point with no digit yet.
    Point,
    /// Digits and a point.
    Fraction,
    /// A number and `e`.
    Mark,
    /// A number, `e` and a sign.
    MarkSign,
    /// A number with its exponent.
    Power,
    Name,
    Less,
    Equals,
    Greater,
    /// A lexeme that nothing lengthens.
    Closed,
    /// No lexeme, and none with more bytes.
    Dead,
}

/// Which way a relation points.
#[derive(Clone, Copy, Debug, PartialEq, Eq)]
pub enum Relation {
    /// The left side is at most the right one.
    AtMost,
    /// The left side is at least the right one.
    AtLeast,
    Equal,
}

/// What a token is, by itself and the token after it.
#[derive(Clone, Copy, Debug, PartialEq, Eq)]
pub enum Class {
    Number,
    /// What may name a row or a column.
    Name,
    Free,
    Infinity,
    Relation(Relation),
    Plus,
    Minus,
    Colon,
    /// The word that begins the objective.
    Goal(Sense),
    /// The word that begins the rows.
    Rows,
    /// The first of the two words that begin the rows.
    RowsPair,
    Bounds,
    End,
    /// A word for integer models.
    Whole,
    /// A byte of no token.
    Bad,
}
