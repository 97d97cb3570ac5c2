//! Ranging: how far each cost, and each bound at which a variable stands, may be moved while the final basis stays
//! optimal, each end exact or with the first operation that didn't fit.
//!
//! Stands on `pami_ranging`, whose sets the spans are, and on the scripts of `pami_method`.
#![tactic(auto)]

mod bounds;
mod costs;
mod ends;
mod lines;
mod lists;
mod one;
mod ranging;
pub mod script_laws;
mod span;
mod spans;
#[cfg(test)]
mod tests;

pub use lines::push_ranges;
pub use ranging::{bound_spans, cost_spans};
pub use span::{End, Span};
