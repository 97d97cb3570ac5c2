//! The steps of an elimination, as a value.

ghost use Rattle.std.specs.Prelude.{◌≡◌, ◌<◌, ℕ, List, [], length, slice_index_or, Ok};
ghost use Rattle.pami_algebra.specs.Fraction.{Fraction};
ghost use Rattle.pami_linear.specs.Elimination.{EliminationStep, eliminate};
ghost use Rattle.pami_script.specs.Dense.{at, Rising};
ghost use Rattle.pami_factoring.specs.declared.kept.Kept.{Kept};
ghost use Rattle.pami_factoring.specs.Factor.{entry, elimination_script};
ghost use Rattle.pami_factoring.specs.Steps.{IsSquare};
ghost use Rattle.pami_vec.specs.Entries.{NoZeros, AreEntriesOf};
ghost use Rattle.pami_lu.specs.Stored.{full_steps, kept_at, multiplier_below, AreWhole};

use crate::step::SparseStep;
use pami_frac::Entry;
use std::alloc::Global;
use std::marker::Model;

/// The steps of an elimination that came to its end.
///
/// A contract sees the list of the dense script's steps, which keep whole rows; stored are their active parts alone.
#[derive(Debug, Drop)]
pub struct Lu {
    steps: Vec<SparseStep>,
}

impl Model for Lu {
    ghost use Rattle.std.specs.Prelude.{List, []};
    ghost use Rattle.pami_factoring.specs.declared.kept.Kept.{Kept};
    ghost use Rattle.pami_lu.specs.Stored.{full_steps, AreWhole};

    ghost Value = { List Kept };

    ghost view = { λ l. full_steps [] l.steps.items };

    ghost invariant = { λ l. AreWhole l.steps.items };
}

impl Lu {
    /// The value of these steps.
    pub(crate) fn of(steps: Vec<SparseStep>) -> Lu
        requires { AreWhole steps.items }
        ensures { result ≡ full_steps [] steps.items }
    {
        Lu { steps }
    }

    /// The steps as they are stored, in their order: one for each row and each place.
    pub fn steps(&self) -> &[SparseStep]
        ensures steps { full_steps [] result.now ≡ self.now }
        ensures count { length result.now ≡ length self.now }
        ensures stored { AreWhole result.now }
    {
        self.steps.as_slice()
    }

    /// The entries of the row that a step kept, the pivot among them, by rising place: its pivot's row as it stood then, at the
    /// places that no step before it pivoted. It takes no memory.
    pub fn kept_row(&self, step: u32) -> &[Entry]
        requires { step < length self.now }
        ensures rising { Rising 0 (length self.now) result.now }
        ensures nonzero { NoZeros result.now }
        ensures kept { (d : Kept) (g : ℕ) → g < length self.now → at result.now g ≡ kept_at self.now step d g }
        ensures elimination { (rows : List (List Fraction)) (es : List EliminationStep) (e : EliminationStep) (g : ℕ) → g < length rows → IsSquare rows
            → elimination_script rows ≡ Ok self.now → eliminate (length rows) (entry rows) ≡ Ok es → at result.now g ≡ (slice_index_or es step e).kept g }
    {
        let stored = &self.steps[step as usize];
        stored.kept.entries()
    }

    /// The multipliers of a step that aren't 0, by rising row: how often its pivot's row was taken from each row that stayed
    /// active. It takes no memory.
    pub fn multipliers(&self, step: u32) -> &[Entry]
        requires { step < length self.now }
        ensures entries { (d : Kept) → AreEntriesOf (slice_index_or self.now step d).multipliers result.now }
        ensures elimination { (rows : List (List Fraction)) (es : List EliminationStep) (e : EliminationStep) (h : ℕ) → h < length rows → IsSquare rows
            → elimination_script rows ≡ Ok self.now → eliminate (length rows) (entry rows) ≡ Ok es
            → at result.now h ≡ multiplier_below (slice_index_or es step e) h }
    {
        let stored = &self.steps[step as usize];
        stored.multipliers.entries()
    }

    /// Where the steps' memory is from.
    pub fn allocator(&self) -> Global {
        *self.steps.allocator()
    }
}
