//! The computational form of a model: columns, bounds, costs and widths of all variables, row variables too.
//!
//! Stands on `pami_state`, whose `form_by` is the form that such lists make. The layers above may rely on the lists of a
//! `Form` going over the same variables, columns first, on the last ones being the row variables, on bounds that aren't
//! crossed, and on a width standing exactly where a variable is boxed.
#![tactic(auto)]

mod boxes;
mod build;
mod form;
mod list;
#[cfg(test)]
mod tests;

pub use boxes::phase_one_form;
pub use build::form_of;
pub use form::{Form, WideBox};
pub use list::{BoundsList, Columns, WidthList};
