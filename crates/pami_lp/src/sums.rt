//! The sums of an open row, one for each of its columns.

ghost use Rattle.std.specs.Prelude.{◌≡◌, ◌<◌, ◌++◌, ◌∷◌, [], length, ℕ, IfSome, OnErr, OnOk, None};
ghost use Rattle.pami_frac.specs.Answers.{FollowsBy};
ghost use Rattle.pami_lp.specs.Known.{AreBelow};
ghost use Rattle.pami_lp.specs.Placed.{ArePlaced};
ghost use Rattle.pami_lp.specs.Rules.{add_term, entry};
ghost use Rattle.pami_lp.specs.Sums.{place_in};

use crate::value::sum_of;
use pami_frac::{Entry, Fault, Frac, OutOfMemory};
use pami_model::FileKind;
use std::alloc::Global;
use std::marker;

/// The columns of an open row with their sums, in the order of their first terms.
///
/// A contract sees the list of them. A column's sum is found by its place, which is kept by column, so that no term
/// walks the row; places of earlier rows are left as they are, and are told apart by the column that they lead to.
#[derive(Drop)]
pub(crate) struct Sums {
    entries: Vec<Entry>,
    places: Vec<usize>,
}

impl marker::Model for Sums {
    ghost use Rattle.std.specs.Prelude.{List};
    ghost use Rattle.pami_frac.specs.declared.list.Entry.{Entry};
    ghost use Rattle.pami_lp.specs.Placed.{ArePlaced};

    ghost Value = { List Entry };

    ghost view = { λ s. s.entries.items };

    ghost invariant = { λ s. ArePlaced s.entries.items s.places.items };
}

/// The place of a column's sum.
fn place_of(entries: &[Entry], places: &[usize], column: u32) -> Option<usize>
    requires { ArePlaced entries.now places.now }
    ensures found { result ≡ place_in entries.now column }
    ensures within { IfSome result (λ i. i < length entries.now) }
{
    let index = column as usize;
    if index >= places.len() {
        return None;
    }
    let place = places[index];
    if place >= entries.len() {
        return None;
    }
    if entries[place].place != column {
        return None;
    }
    Some(place)
}

/// Begins the sum of a column that has none.
fn begin(
    entries: &mut Vec<Entry>,
    places: &mut Vec<usize>,
    column: u32,
    value: Frac,
) -> Result<(), OutOfMemory>
    requires placed { ArePlaced entries.old.items places.old.items }
    requires new { place_in entries.old.items column ≡ None }
    ensures begun { OnOk result (entries.new.items ≡ entries.old.items ++ entry column value ∷ []) }
    ensures kept { OnErr result (entries.new.items ≡ entries.old.items) }
    ensures placed { ArePlaced entries.new.items places.new.items }
{
    let index = column as usize;
    if index >= places.as_slice().len() {
        places.resize(index + 1, 0)?;
    }
    let place = entries.as_slice().len();
    entries.push(Entry {
        place: column,
        value,
    })?;
    places[index] = place;
    Ok(())
}

impl Sums {
    /// No sums. Memory is asked of `alloc`.
    pub(crate) fn new(alloc: Global) -> Sums
        ensures { result ≡ [] }
    {
        Sums {
            entries: Vec::new(alloc),
            places: Vec::new(alloc),
        }
    }

    /// The columns with their sums.
    pub(crate) fn as_slice(&self) -> &[Entry]
        ensures { result.now ≡ self.now }
    {
        self.entries.as_slice()
    }

    /// Adds a term of a column. `Wide` where the sum doesn't fit; the sums are then as before, and so they are where
    /// memory ran out.
    pub(crate) fn add(&mut self, column: u32, value: Frac) -> Result<(), Fault<FileKind>>
        ensures added { FollowsBy (λ _. self.new) (add_term self.old column value) result }
        ensures below { (count : ℕ) → column < count → AreBelow count self.old → AreBelow count self.new }
    {
        match place_of(self.entries.as_slice(), self.places.as_slice(), column) {
            Some(place) => {
                let total = match sum_of(self.entries[place].value, value) {
                    Ok(total) => total,
                    Err(kind) => return Err(Fault::Named(kind)),
                };
                self.entries[place] = Entry {
                    place: column,
                    value: total,
                };
                Ok(())
            }
            None => {
                begin(&mut self.entries, &mut self.places, column, value)?;
                Ok(())
            }
        }
    }

    /// Takes all sums away.
    pub(crate) fn clear(&mut self)
        ensures { self.new ≡ [] }
    {
        self.entries.clear();
    }
}
