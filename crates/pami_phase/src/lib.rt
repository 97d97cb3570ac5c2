//! The phases of a run: the start, phase one in the boxes, the switch to the form's own bounds, phase two.
//!
//! Stands on `pami_major`, whose `drive` walks each phase, on `pami_form` for the boxes and on `pami_state` for the start; on
//! `pami_lu` and `pami_factor` for the switch, which eliminates and solves with the factor; and on `pami_log`, whose teller is
//! told what comes about. The layer above relies on `solve`: its answer and the events that it tells are those of the run of
//! `pami_method`, its last state is solved afresh, and its values are the answer's certificate.
#![tactic(auto)]

mod answer;
mod stages;
mod switch;
pub mod switch_laws;
#[cfg(test)]
mod tests;

pub use answer::Answer;
pub use stages::solve;
