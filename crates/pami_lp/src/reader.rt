//! The reader's state, and what each role asks for.

ghost use Rattle.std.specs.Prelude.{◌≡◌, ◌+◌, ◌++◌, [], length, Ok, IfOk, OnOk, codes, decimal};
ghost use Rattle.std.specs.Option.{option_map};
ghost use Rattle.pami_frac.specs.Answers.{FollowsBy};
ghost use Rattle.pami_lp.specs.Known.{IsKnown};
ghost use Rattle.pami_lp.specs.Rules.{name_by};

use crate::draft::{add_constant, add_cost, end_row, set_bound, set_free, stand_column};
use crate::kind::{Place, Role};
use crate::role::{move_of, refusal};
use crate::sums::Sums;
use crate::value::{coefficient_of, number, read_side, signed, turned, unbounded, value_of};
use indexmap::IndexSet;
use itoa::Buffer;
use pami_frac::{Bounds, Fault, Frac, OutOfMemory};
use pami_lp_text::{Class, Relation};
use pami_model::{Builder, FileKind, NAME_LIMIT, Sense};
use std::alloc::Global;

/// What a reader has gathered of the tokens so far.
#[derive(Drop)]
pub(crate) struct Reader {
    pub(crate) place: Place,
    pub(crate) builder: Builder,
    /// The columns with a lower bound of their own.
    pub(crate) lowered: IndexSet<u32>,
    /// Whether the signs before the next number or name make it negative.
    pub(crate) negative: bool,
    /// The number that stands before a name.
    pub(crate) coefficient: Option<Frac>,
    /// The name of the open row, where it has one.
    pub(crate) label: Option<Vec<u8>>,
    /// The sides of the open row, or of the open bound's value.
    pub(crate) sides: Bounds,
    /// The columns of the open row with their sums.
    pub(crate) sums: Sums,
    /// The column of the open bound.
    pub(crate) column: Option<u32>,
    ghost known: { IsKnown builder sums column },
}

/// The name of a row without one.
fn row_number_name(alloc: Global, row: u32) -> Result<Vec<u8>, OutOfMemory>
    ensures { IfOk result (λ name. name.items ≡ codes "R" ++ decimal (row + 1)) }
{
    let mut digits = Buffer::new();
    let mut name = Vec::from_slice(alloc, b"R")?;
    name.extend_from_slice(digits.format(row as u64 + 1).as_bytes())?;
    Ok(name)
}

/// The name of a row: its own, or by its number.
fn row_name(alloc: Global, label: &Option<Vec<u8>>, row: u32) -> Result<Vec<u8>, OutOfMemory>
    ensures { IfOk result (λ name. name.items ≡ name_by row (option_map (λ v. v.items) label.now)) }
{
    match label {
        Some(name) => Ok(Vec::from_slice(alloc, name.as_slice())?),
        None => row_number_name(alloc, row),
    }
}

impl Reader {
    ghost use Rattle.pami_lp.specs.Acts as acts;
    ghost use Rattle.pami_lp.specs.Acts.{act as the_act};
    ghost use Rattle.pami_lp.specs.Run.{seen_by_reader, start, step};

    /// A reader that no token has come to.
    pub(crate) fn new(alloc: Global) -> Result<Reader, OutOfMemory>
        ensures { IfOk result (λ r. seen_by_reader r ≡ start) }
    {
        Ok(Reader {
            place: Place::Start,
            builder: Builder::new(alloc)?,
            lowered: IndexSet::new(alloc),
            negative: false,
            coefficient: None,
            label: None,
            sides: unbounded(),
            sums: Sums::new(alloc),
            column: None,
        })
    }

    fn take_sense(&mut self, sense: Sense)
        ensures { Ok (seen_by_reader self.new) ≡ the_act (seen_by_reader self.old) (Role.Goal sense) [] }
    {
        let constant = self.builder.constant();
        self.builder.set_goal(sense, constant);
    }

    fn take_goal_label(&self, text: &[u8]) -> Result<(), Fault<FileKind>>
        ensures { FollowsBy (λ _. seen_by_reader self.now)
            (acts.act_goal_label (seen_by_reader self.now) text.now) result }
    {
        if text.len() > NAME_LIMIT {
            return Err(Fault::Named(FileKind::NameLong));
        }
        Ok(())
    }

    fn take_label(&mut self, alloc: Global, name: &[u8]) -> Result<(), Fault<FileKind>>
        ensures { FollowsBy (λ _. seen_by_reader self.new)
            (the_act (seen_by_reader self.old) Role.RowLabel name.now) result }
    {
        let label = Vec::from_slice(alloc, name)?;
        self.label = Some(label);
        Ok(())
    }

    fn take_number(&mut self, text: &[u8]) -> Result<(), Fault<FileKind>>
        ensures { FollowsBy (λ _. seen_by_reader self.new)
            (acts.act_coefficient (seen_by_reader self.old) text.now) result }
    {
        let size = number(text)?;
        self.coefficient = Some(size);
        Ok(())
    }

    fn take_constant(&mut self, text: &[u8]) -> Result<(), Fault<FileKind>>
        ensures { FollowsBy (λ _. seen_by_reader self.new)
            (acts.act_constant (seen_by_reader self.old) text.now) result }
    {
        let size = number(text)?;
        match add_constant(&mut self.builder, signed(self.negative, size)) {
            Ok(()) => {
                self.negative = false;
                Ok(())
            }
            Err(kind) => Err(Fault::Named(kind)),
        }
    }

    fn take_goal_name(&mut self, name: &[u8]) -> Result<(), Fault<FileKind>>
        ensures { FollowsBy (λ _. seen_by_reader self.new)
            (acts.act_goal_name (seen_by_reader self.old) name.now) result }
    {
        let value = coefficient_of(self.negative, self.coefficient);
        let column = stand_column(&mut self.builder, name)?;
        match add_cost(&mut self.builder, column, value) {
            Ok(()) => {
                self.coefficient = None;
                self.negative = false;
                Ok(())
            }
            Err(kind) => Err(Fault::Named(kind)),
        }
    }

    fn take_row_name(&mut self, name: &[u8]) -> Result<(), Fault<FileKind>>
        ensures { FollowsBy (λ _. seen_by_reader self.new)
            (acts.act_row_name (seen_by_reader self.old) name.now) result }
    {
        let value = coefficient_of(self.negative, self.coefficient);
        let column = stand_column(&mut self.builder, name)?;
        self.sums.add(column, value)?;
        self.coefficient = None;
        self.negative = false;
        Ok(())
    }

    /// A value to the left of a relation.
    fn take_left(&mut self, text: &[u8], relation: Relation) -> Result<(), Fault<FileKind>>
        ensures { FollowsBy (λ _. seen_by_reader self.new)
            (acts.act_left (seen_by_reader self.old) relation text.now) result }
    {
        let sides = read_side(text, self.negative, turned(relation), self.sides)?;
        self.sides = sides;
        self.negative = false;
        Ok(())
    }

    /// A number or a word for infinity behind which neither a name nor a relation stands.
    fn take_stray(&mut self, text: &[u8]) -> Result<(), Fault<FileKind>>
        ensures { FollowsBy (λ _. seen_by_reader self.new) (acts.act_stray (seen_by_reader self.old) text.now) result }
    {
        value_of(text, self.negative)?;
        self.negative = false;
        Ok(())
    }

    /// Adds the open row, which is complete, under this name.
    fn end_named(&mut self, name: &[u8]) -> Result<(), Fault<FileKind>>
        ensures { FollowsBy (λ _. seen_by_reader self.new) (acts.end_named (seen_by_reader self.old) name.now) result }
    {
        end_row(&mut self.builder, name, self.sides, self.sums.as_slice())?;
        self.sums.clear();
        self.sides = unbounded();
        self.label = None;
        Ok(())
    }

    /// Adds the open row, which is complete.
    fn end_row(&mut self, alloc: Global) -> Result<(), Fault<FileKind>>
        ensures { FollowsBy (λ _. seen_by_reader self.new) (acts.act_end (seen_by_reader self.old)) result }
    {
        let name = row_name(alloc, &self.label, self.builder.row_count())?;
        self.end_named(name.as_slice())
    }

    fn take_row_last(&mut self, alloc: Global, name: &[u8]) -> Result<(), Fault<FileKind>>
        ensures { FollowsBy (λ _. seen_by_reader self.new)
            (acts.act_row_last (seen_by_reader self.old) name.now) result }
    {
        self.take_row_name(name)?;
        self.end_row(alloc)
    }

    fn take_row_right(
        &mut self,
        alloc: Global,
        text: &[u8],
        relation: Relation,
    ) -> Result<(), Fault<FileKind>>
        ensures { FollowsBy (λ _. seen_by_reader self.new)
            (acts.act_row_right (seen_by_reader self.old) relation text.now) result }
    {
        let sides = read_side(text, self.negative, relation, self.sides)?;
        self.sides = sides;
        self.negative = false;
        self.end_row(alloc)
    }

    /// Sets bounds of the open bound's column by a relation and what a value on its right sets.
    fn set_side(&mut self, relation: Relation) -> Result<(), OutOfMemory>
        ensures { OnOk result (seen_by_reader self.new ≡ acts.set_side relation (seen_by_reader self.old)) }
    {
        let column = match self.column {
            Some(column) => column,
            None => return Ok(()),
        };
        set_bound(
            &mut self.builder,
            &mut self.lowered,
            relation,
            column,
            self.sides,
        )?;
        self.sides = unbounded();
        Ok(())
    }

    fn take_bound_column(&mut self, name: &[u8]) -> Result<(), Fault<FileKind>>
        ensures { FollowsBy (λ _. seen_by_reader self.new)
            (acts.act_bound_column (seen_by_reader self.old) name.now) result }
    {
        let column = stand_column(&mut self.builder, name)?;
        self.column = Some(column);
        Ok(())
    }

    fn take_bound_name(&mut self, name: &[u8], relation: Relation) -> Result<(), Fault<FileKind>>
        ensures { FollowsBy (λ _. seen_by_reader self.new)
            (acts.act_bound_name (seen_by_reader self.old) relation name.now) result }
    {
        self.take_bound_column(name)?;
        self.set_side(turned(relation))?;
        Ok(())
    }

    fn take_free(&mut self) -> Result<(), OutOfMemory>
        ensures { OnOk result (seen_by_reader self.new ≡ acts.free_at self.old.column (seen_by_reader self.old)) }
    {
        let column = match self.column {
            Some(column) => column,
            None => return Ok(()),
        };
        set_free(&mut self.builder, &mut self.lowered, column)
    }

    fn take_bound_right(&mut self, text: &[u8], relation: Relation) -> Result<(), Fault<FileKind>>
        ensures { FollowsBy (λ _. seen_by_reader self.new)
            (acts.act_bound_right (seen_by_reader self.old) relation text.now) result }
    {
        let sides = read_side(text, self.negative, relation, self.sides)?;
        self.sides = sides;
        self.negative = false;
        self.set_side(relation)?;
        Ok(())
    }

    /// Does what a role asks for.
    fn act(&mut self, alloc: Global, role: Role, text: &[u8]) -> Result<(), Fault<FileKind>>
        ensures { FollowsBy (λ _. seen_by_reader self.new) (the_act (seen_by_reader self.old) role text.now) result }
    {
        match role {
            Role::Goal(sense) => {
                self.take_sense(sense);
                Ok(())
            }
            Role::Mark => Ok(()),
            Role::Plus => Ok(()),
            Role::Minus => {
                self.negative = !self.negative;
                Ok(())
            }
            Role::GoalLabel => self.take_goal_label(text),
            Role::RowLabel => self.take_label(alloc, text),
            Role::Coefficient => self.take_number(text),
            Role::Constant => self.take_constant(text),
            Role::GoalName => self.take_goal_name(text),
            Role::RowName => self.take_row_name(text),
            Role::RowLast => self.take_row_last(alloc, text),
            Role::RowLeft(relation) => self.take_left(text, relation),
            Role::Stray => self.take_stray(text),
            Role::RowRight(relation) => self.take_row_right(alloc, text, relation),
            Role::BoundLeft(relation) => self.take_left(text, relation),
            Role::BoundName(relation) => self.take_bound_name(text, relation),
            Role::BoundColumn => self.take_bound_column(text),
            Role::BoundFree => {
                self.take_free()?;
                Ok(())
            }
            Role::BoundRight(relation) => self.take_bound_right(text, relation),
            Role::End => Ok(()),
        }
    }

    /// Takes the next token: its class, the class of the token after it, and its text.
    pub(crate) fn take(
        &mut self,
        alloc: Global,
        class: Class,
        after: Class,
        text: &[u8],
    ) -> Result<(), Fault<FileKind>>
        ensures { FollowsBy (λ _. seen_by_reader self.new)
            (step (seen_by_reader self.old) class after text.now) result }
    {
        match move_of(self.place, class, after) {
            Some(step) => {
                self.act(alloc, step.role, text)?;
                self.place = step.place;
                Ok(())
            }
            None => Err(Fault::Named(refusal(self.place, class))),
        }
    }
}
