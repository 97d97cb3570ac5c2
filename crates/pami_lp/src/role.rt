//! The grammar: what a token does at a place, and the place behind it.

ghost use Rattle.std.specs.Prelude.{◌≡◌, if◌then◌else◌, Option, None, Some};
ghost use Rattle.pami_lp.specs.Moves as moves;
ghost use Rattle.pami_lp.specs.Sections as sections;

use crate::kind::{Move, Place, Role, Section};
use pami_lp_text::{Class, Relation};
use pami_model::FileKind;

fn to(role: Role, place: Place) -> Option<Move>
    ensures { result ≡ moves.to role place }
{
    Some(Move { role, place })
}

fn is_name(class: Class) -> bool
    ensures { result ≡ moves.is_name_class class }
{
    match class {
        Class::Name => true,
        _ => false,
    }
}

fn is_colon(class: Class) -> bool
    ensures { result ≡ moves.is_colon_class class }
{
    match class {
        Class::Colon => true,
        _ => false,
    }
}

/// Whether a row or a bound with this left relation goes on with such a token as its second relation: the two point
/// the same way, and neither is `=`.
fn agrees(left: Relation, after: Class) -> bool
    ensures { result ≡ moves.agrees left after }
{
    match (left, after) {
        (Relation::AtMost, Class::Relation(Relation::AtMost)) => true,
        (Relation::AtLeast, Class::Relation(Relation::AtLeast)) => true,
        _ => false,
    }
}

/// Whether a row behind a term goes on.
fn goes_on(left: Relation, after: Class) -> bool
    ensures { result ≡ moves.goes_on left after }
{
    match after {
        Class::Plus => true,
        Class::Minus => true,
        _ => agrees(left, after),
    }
}

/// A term of the objective, from its signs on.
fn goal_signed(class: Class, after: Class) -> Option<Move>
    ensures { result ≡ moves.goal_signed class after }
{
    match class {
        Class::Plus => to(Role::Plus, Place::GoalSigned),
        Class::Minus => to(Role::Minus, Place::GoalSigned),
        Class::Number => {
            if is_name(after) {
                return to(Role::Coefficient, Place::GoalNumber);
            }
            to(Role::Constant, Place::GoalTerm)
        }
        Class::Name => to(Role::GoalName, Place::GoalTerm),
        _ => None,
    }
}

fn goal_first(class: Class, after: Class) -> Option<Move>
    ensures { result ≡ moves.goal_first class after }
{
    match class {
        Class::Rows => to(Role::Mark, Place::RowHead),
        Class::RowsPair => to(Role::Mark, Place::RowsSecond),
        _ => goal_signed(class, after),
    }
}

fn goal_head(class: Class, after: Class) -> Option<Move>
    ensures { result ≡ moves.goal_head class after }
{
    if is_name(class) && is_colon(after) {
        return to(Role::GoalLabel, Place::GoalColon);
    }
    goal_first(class, after)
}

fn goal_number(class: Class) -> Option<Move>
    ensures { result ≡ moves.goal_number class }
{
    match class {
        Class::Name => to(Role::GoalName, Place::GoalTerm),
        _ => None,
    }
}

fn goal_term(class: Class) -> Option<Move>
    ensures { result ≡ moves.goal_term class }
{
    match class {
        Class::Rows => to(Role::Mark, Place::RowHead),
        Class::RowsPair => to(Role::Mark, Place::RowsSecond),
        Class::Plus => to(Role::Plus, Place::GoalSigned),
        Class::Minus => to(Role::Minus, Place::GoalSigned),
        _ => None,
    }
}

/// A value to the left of a relation, in a row.
fn row_left(after: Class) -> Option<Move>
    ensures { result ≡ moves.row_left after }
{
    match after {
        Class::Relation(relation) => to(Role::RowLeft(relation), Place::RowLeft),
        _ => to(Role::Stray, Place::RowLeft),
    }
}

/// The first term or value of a row.
fn row_first(class: Class, after: Class) -> Option<Move>
    ensures { result ≡ moves.row_first class after }
{
    match class {
        Class::Plus => to(Role::Plus, Place::RowFirst),
        Class::Minus => to(Role::Minus, Place::RowFirst),
        Class::Number => {
            if is_name(after) {
                return to(Role::Coefficient, Place::RowNumber(None));
            }
            row_left(after)
        }
        Class::Infinity => row_left(after),
        Class::Name => to(Role::RowName, Place::RowTerm(None)),
        _ => None,
    }
}

fn row_head(class: Class, after: Class) -> Option<Move>
    ensures { result ≡ moves.row_head class after }
{
    if is_name(class) && is_colon(after) {
        return to(Role::RowLabel, Place::RowColon);
    }
    row_begin(class, after)
}

fn row_begin(class: Class, after: Class) -> Option<Move>
    ensures { result ≡ moves.row_begin class after }
{
    match class {
        Class::Bounds => to(Role::Mark, Place::BoundHead),
        Class::End => to(Role::End, Place::End),
        _ => row_first(class, after),
    }
}

fn row_relation(class: Class) -> Option<Move>
    ensures { result ≡ moves.row_relation class }
{
    match class {
        Class::Relation(relation) => to(Role::Mark, Place::RowMiddle(Some(relation))),
        _ => None,
    }
}

/// The name of a term of a row with this left relation; the row ends with it where the next token can't go on.
fn row_number(left: Option<Relation>, class: Class, after: Class) -> Option<Move>
    ensures { result ≡ moves.row_number left class after }
{
    if !is_name(class) {
        return None;
    }
    row_name(left, after)
}

fn row_name(left: Option<Relation>, after: Class) -> Option<Move>
    ensures { result ≡ moves.row_name left after }
{
    match left {
        None => to(Role::RowName, Place::RowTerm(None)),
        Some(relation) => {
            if goes_on(relation, after) {
                return to(Role::RowName, Place::RowTerm(Some(relation)));
            }
            to(Role::RowLast, Place::RowHead)
        }
    }
}

/// A term of a row, from its signs on.
fn row_middle(left: Option<Relation>, class: Class, after: Class) -> Option<Move>
    ensures { result ≡ moves.row_middle left class after }
{
    match class {
        Class::Plus => to(Role::Plus, Place::RowMiddle(left)),
        Class::Minus => to(Role::Minus, Place::RowMiddle(left)),
        Class::Number => to(Role::Coefficient, Place::RowNumber(left)),
        _ => row_number(left, class, after),
    }
}

/// Behind a term of a row: one more term, or a relation and then the right value.
fn row_term(left: Option<Relation>, class: Class) -> Option<Move>
    ensures { result ≡ moves.row_term left class }
{
    match class {
        Class::Plus => to(Role::Plus, Place::RowMiddle(left)),
        Class::Minus => to(Role::Minus, Place::RowMiddle(left)),
        Class::Relation(relation) => row_right(left, relation),
        _ => None,
    }
}

fn row_right(left: Option<Relation>, relation: Relation) -> Option<Move>
    ensures { result ≡ moves.row_right left relation }
{
    match left {
        None => to(Role::Mark, Place::RowValue(relation)),
        Some(first) => {
            if agrees(first, Class::Relation(relation)) {
                return to(Role::Mark, Place::RowValue(relation));
            }
            None
        }
    }
}

fn row_value(relation: Relation, class: Class) -> Option<Move>
    ensures { result ≡ moves.row_value relation class }
{
    match class {
        Class::Plus => to(Role::Plus, Place::RowValue(relation)),
        Class::Minus => to(Role::Minus, Place::RowValue(relation)),
        Class::Number => to(Role::RowRight(relation), Place::RowHead),
        Class::Infinity => to(Role::RowRight(relation), Place::RowHead),
        _ => None,
    }
}

/// A value to the left of a relation, in a bound.
fn bound_left(after: Class) -> Option<Move>
    ensures { result ≡ moves.bound_left after }
{
    match after {
        Class::Relation(relation) => to(Role::BoundLeft(relation), Place::BoundLeft),
        _ => to(Role::Stray, Place::BoundLeft),
    }
}

fn bound_signed(class: Class, after: Class) -> Option<Move>
    ensures { result ≡ moves.bound_signed class after }
{
    match class {
        Class::Plus => to(Role::Plus, Place::BoundSigned),
        Class::Minus => to(Role::Minus, Place::BoundSigned),
        Class::Number => bound_left(after),
        Class::Infinity => bound_left(after),
        _ => None,
    }
}

fn bound_head(class: Class, after: Class) -> Option<Move>
    ensures { result ≡ moves.bound_head class after }
{
    match class {
        Class::Name => to(Role::BoundColumn, Place::BoundColumn),
        Class::End => to(Role::End, Place::End),
        _ => bound_signed(class, after),
    }
}

fn bound_relation(class: Class) -> Option<Move>
    ensures { result ≡ moves.bound_relation class }
{
    match class {
        Class::Relation(relation) => to(Role::Mark, Place::BoundName(relation)),
        _ => None,
    }
}

fn bound_name(left: Relation, class: Class, after: Class) -> Option<Move>
    ensures { result ≡ moves.bound_name left class after }
{
    if !is_name(class) {
        return None;
    }
    if agrees(left, after) {
        return to(Role::BoundName(left), Place::BoundAgain);
    }
    to(Role::BoundName(left), Place::BoundHead)
}

fn bound_again(class: Class) -> Option<Move>
    ensures { result ≡ moves.bound_again class }
{
    match class {
        Class::Relation(relation) => to(Role::Mark, Place::BoundValue(relation)),
        _ => None,
    }
}

fn bound_column(class: Class) -> Option<Move>
    ensures { result ≡ moves.bound_column class }
{
    match class {
        Class::Free => to(Role::BoundFree, Place::BoundHead),
        _ => bound_again(class),
    }
}

fn bound_value(relation: Relation, class: Class) -> Option<Move>
    ensures { result ≡ moves.bound_value relation class }
{
    match class {
        Class::Plus => to(Role::Plus, Place::BoundValue(relation)),
        Class::Minus => to(Role::Minus, Place::BoundValue(relation)),
        Class::Number => to(Role::BoundRight(relation), Place::BoundHead),
        Class::Infinity => to(Role::BoundRight(relation), Place::BoundHead),
        _ => None,
    }
}

fn start(class: Class) -> Option<Move>
    ensures { result ≡ moves.start class }
{
    match class {
        Class::Goal(sense) => to(Role::Goal(sense), Place::GoalHead),
        _ => None,
    }
}

fn colon(class: Class, place: Place) -> Option<Move>
    ensures { result ≡ (if moves.is_colon_class class then moves.to Role.Mark place else None) }
{
    if is_colon(class) {
        return to(Role::Mark, place);
    }
    None
}

fn second_word(class: Class) -> Option<Move>
    ensures { result ≡ (if moves.is_name_class class then moves.to Role.Mark Place.RowHead else None) }
{
    if is_name(class) {
        return to(Role::Mark, Place::RowHead);
    }
    None
}

/// What a token of this class does at a place, before one of the class `after`; `None` where it can't be taken.
pub(crate) fn move_of(place: Place, class: Class, after: Class) -> Option<Move>
    ensures { result ≡ moves.move_of place class after }
{
    match place {
        Place::Start => start(class),
        Place::GoalHead => goal_head(class, after),
        Place::GoalColon => colon(class, Place::GoalFirst),
        Place::GoalFirst => goal_first(class, after),
        Place::GoalSigned => goal_signed(class, after),
        Place::GoalNumber => goal_number(class),
        Place::GoalTerm => goal_term(class),
        Place::RowsSecond => second_word(class),
        Place::RowHead => row_head(class, after),
        Place::RowColon => colon(class, Place::RowFirst),
        Place::RowFirst => row_first(class, after),
        Place::RowLeft => row_relation(class),
        Place::RowMiddle(left) => row_middle(left, class, after),
        Place::RowNumber(left) => row_number(left, class, after),
        Place::RowTerm(left) => row_term(left, class),
        Place::RowValue(relation) => row_value(relation, class),
        Place::BoundHead => bound_head(class, after),
        Place::BoundSigned => bound_signed(class, after),
        Place::BoundLeft => bound_relation(class),
        Place::BoundName(left) => bound_name(left, class, after),
        Place::BoundAgain => bound_again(class),
        Place::BoundColumn => bound_column(class),
        Place::BoundValue(relation) => bound_value(relation, class),
        Place::End => None,
    }
}

/// The section of a place.
fn section_at(place: Place) -> Section
    ensures { result ≡ moves.section_at place }
{
    match place {
        Place::Start => Section::Start,
        Place::GoalHead => Section::Objective,
        Place::GoalColon => Section::Objective,
        Place::GoalFirst => Section::Objective,
        Place::GoalSigned => Section::Objective,
        Place::GoalNumber => Section::Objective,
        Place::GoalTerm => Section::Objective,
        Place::BoundHead => Section::Bounds,
        Place::BoundSigned => Section::Bounds,
        Place::BoundLeft => Section::Bounds,
        Place::BoundName(_) => Section::Bounds,
        Place::BoundAgain => Section::Bounds,
        Place::BoundColumn => Section::Bounds,
        Place::BoundValue(_) => Section::Bounds,
        Place::End => Section::Bounds,
        _ => Section::Rows,
    }
}

/// Whether the section word of this class isn't next in the sequence of sections.
fn is_out_of_order(section: Section, class: Class) -> bool
    ensures { result ≡ sections.is_out_of_order section class }
{
    match (class, section) {
        (Class::Goal(_), Section::Start) => false,
        (Class::Rows, Section::Objective) => false,
        (Class::RowsPair, Section::Objective) => false,
        (Class::Bounds, Section::Rows) => false,
        (Class::End, Section::Rows) => false,
        (Class::End, Section::Bounds) => false,
        (Class::Goal(_), _) => true,
        (Class::Rows, _) => true,
        (Class::RowsPair, _) => true,
        (Class::Bounds, _) => true,
        (Class::End, _) => true,
        _ => false,
    }
}

/// What is wrong with a token of this class that can't be taken.
pub(crate) fn refusal(place: Place, class: Class) -> FileKind
    ensures { result ≡ sections.refusal (moves.section_at place) class }
{
    match class {
        Class::Bad => FileKind::Byte,
        Class::Whole => FileKind::Integer,
        _ => {
            if is_out_of_order(section_at(place), class) {
                return FileKind::Order;
            }
            FileKind::Syntax
        }
    }
}
