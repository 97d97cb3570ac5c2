//! The minor iterations of a batch, run on one thread.

ghost use Rattle.std.specs.Prelude.{◌≡◌, ◌<◌, ◌≤◌, ◌^◌, ◌+◌, [], ℕ, List, length, map, None};
ghost use Rattle.pami_theory.specs.Fresh.{Fresh, IsFresh};
ghost use Rattle.pami_theory.specs.Choice.{chosen as the_chosen};
ghost use Rattle.pami_method.specs.Factor.{History};
ghost use Rattle.pami_method.specs.Batch.{Reached as TheReached, places};
ghost use Rattle.pami_method.specs.Work.{backward_task, first_refused};
ghost use Rattle.pami_chuzr.specs.Choice.{chosen_row};
ghost use Rattle.pami_state.specs.State.{basis_of};
ghost use Rattle.pami_form.specs.FormOf.{form_of};
ghost use Rattle.pami_minor.specs.Opening.{IsOpenable, first_reached};
ghost use Rattle.pami_minor.specs.Fresh.{IsFreshMinor};
ghost use Rattle.pami_batch.specs.Factors.{IsFactorOf};
ghost use Rattle.pami_batch.specs.Minors.{HasMinors};

use crate::minors_parts::solve_rows;
use crate::minors_turn::{Taken, take_turn};
use pami_chuzr::ChosenRow;
use pami_factor::Factor;
use pami_form::Form;
use pami_frac::{Fault, ListOf};
use pami_log::{Place, Record};
use pami_lu::Steps;
use pami_minor::Minor;
use pami_state::State;
use pami_vec::SpVec;
use std::alloc::Global;

/// What the minor iterations of a batch come to.
#[derive(Debug, Drop)]
pub(crate) enum Minors {
    /// No row is left, or the limit is met.
    Stopped { minor: Minor, moves: Record },
    /// The best row has no entering variable: its row of the inverse, by row.
    Stuck { rho: SpVec, moves: Record },
}

/// Takes the turns of a batch, whose chosen rows are solved for, up to its end.
///
/// # Errors
///
/// `Named` exactly where an operation doesn't fit: the first such. `OutOfMemory` where memory runs out.
fn take_turns(alloc: Global, form: &Form, mut minor: Minor) -> Result<Minors, Fault<Place>>
    requires turn { (limit : ℕ) × (h : History) × (first : TheReached)
        × IsFreshMinor (form_of form.now) limit first minor
        × (first_refused (map (backward_task (form_of form.now) h) (places first.rows)) ≡ None) }
    requires steps { minor.steps.items ≡ [] }
    ensures minors { (limit : ℕ) (h : History) (first : TheReached)
        → IsFreshMinor (form_of form.now) limit first minor
        → first_refused (map (backward_task (form_of form.now) h) (places first.rows)) ≡ None
        → HasMinors (form_of form.now) limit h first result }
{
    let mut moves = Vec::new(alloc);
    let mut taken = 0;
    loop {
        match take_turn(alloc, form, taken, &mut minor, &mut moves)? {
            Taken::Stopped => {
                let moves = ListOf::from_vec(moves);
                return Ok(Minors::Stopped { minor, moves });
            }
            Taken::Stuck { rho } => {
                let moves = ListOf::from_vec(moves);
                return Ok(Minors::Stuck { rho, moves });
            }
            Taken::Pivoted => taken += 1,
        }
    }
}

/// Runs the inside of a batch from a state with these chosen rows, in order of choice, and so many pivots left: the rows of
/// the chosen places by the factor, and then minor iterations as long as a row is left. (Huangfu and Hall 2018, section 3.)
///
/// # Errors
///
/// `Named` exactly where an operation doesn't fit: the first such, with its script. `OutOfMemory` where memory runs out.
pub(crate) fn run_minors<L>(
    alloc: Global,
    form: &Form,
    state: &State,
    factor: &Factor,
    chosen: &[ChosenRow],
    steps_left: u32,
    steps: &mut Steps<L>,
) -> Result<Minors, Fault<Place>>
    requires openable { IsOpenable form.now state.now chosen.now steps_left }
    requires factor { (h : History) × IsFactorOf (form_of form.now) h (basis_of state.now) factor.now }
    // They are those of the batch of the chosen rows, as the definition takes it, with the first refusal of its list.
    ensures minors { (s : Fresh) (most : ℕ) (h : History)
        → IsFresh (form_of form.now) (basis_of state.now) s
        → chosen.now ≡ map chosen_row (the_chosen (form_of form.now) (basis_of state.now) s state.now.weights most)
        → IsFactorOf (form_of form.now) h (basis_of state.now) factor.now
        → HasMinors (form_of form.now) (state.now.pivots + steps_left) h
        (first_reached form.now state.now s most) result }
    // A solve for each chosen row.
    ensures counted { steps.new.count ≤ steps.old.count + length chosen.now }
{
    let mut minor = Minor::open(alloc, form, state, chosen, steps_left)?;
    solve_rows(alloc, factor, chosen, &mut minor, steps)?;
    take_turns(alloc, form, minor)
}
