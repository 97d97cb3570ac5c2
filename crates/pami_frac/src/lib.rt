//! Fractions of 128-bit whole numbers in lowest terms: made, compared, printed and read without rounding, as decimals,
//! bounds and printed fractions.
//!
//! Stands on `pami_algebra`, whose unbounded fractions are what a contract sees of a `Frac`. The layers above may
//! rely on exact values and on each refusal coming exactly where the answer doesn't fit, and they share from here
//! the plain types of bounds, entries and lists, `Fault`, the answer of every call that takes memory, and the forms in
//! which contracts say such answers (`specs/Answers.antt`).
#![tactic(auto)]

mod arithmetic;
pub mod arithmetic_laws;
#[cfg(test)]
mod arithmetic_tests;
mod bound;
mod checked;
mod decimal;
#[cfg(test)]
mod decimal_tests;
mod fault;
mod frac;
mod fraction;
mod list;
mod print;
pub mod size;
#[cfg(test)]
mod tests;
#[cfg(test)]
mod text_tests;
mod whole;

pub use arithmetic::{Op, Refused};
pub use bound::{BoundValue, read_bound};
pub use decimal::read_decimal;
pub use fault::{DecimalFault, Fault, NewFault, NotANumber, OutOfMemory};
pub use frac::Frac;
pub use fraction::read_fraction;
pub use list::{Bounds, Entry, FracList, ListOf};
