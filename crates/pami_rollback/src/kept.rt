//! What is kept of a state.

ghost use Rattle.std.specs.Prelude.{◌≡◌, IfOk};

use pami_frac::OutOfMemory;
use pami_state::State;
use std::alloc::Global;

/// A state as it was.
#[derive(Debug, Drop)]
pub struct Kept {
    state: State,
}

/// Keeps a state: its head, stands, values, reduced costs, weights and its count of pivots, which are what a batch changes.
///
/// # Errors
///
/// `OutOfMemory` alone.
pub fn keep(alloc: Global, state: &State) -> Result<Kept, OutOfMemory>
    ensures { IfOk result (λ kept. kept.state ≡ state.now) }
{
    Ok(Kept {
        state: state.copy(alloc)?,
    })
}

impl Kept {
    /// Makes the state again as it was kept. It takes no memory.
    pub fn restore(self, state: &mut State)
        ensures { state.new ≡ self.state }
    {
        *state = self.state;
    }
}
