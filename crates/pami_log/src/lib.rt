//! The record of a run as plain events.
//!
//! Stands on `pami_text`, whose lines an event has, and on `pami_model_form` for the names and counts of a model. The layers
//! above tell events as they happen, and may rely on the events of a walk having the lines that the definition of a run's
//! text gives, and on `push_event` printing exactly these.
#![tactic(auto)]

mod event;
pub mod event_laws;
mod print;
mod teller;
#[cfg(test)]
mod tests;
mod words;

pub use event::{Event, EventList, Move, Record};
pub use pami_method::{Mode, Place, Spot};
pub use print::{print_event, push_event};
pub use teller::{ListTeller, TellFailed, Teller};
pub use words::{push_place, push_variable};
