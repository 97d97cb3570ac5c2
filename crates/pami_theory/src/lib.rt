//! The theory of the dual simplex method over fractions without bound: forms, bases and what is solved at them, the
//! ratio walk, the step and what it changes, the choice of rows, the boxes of phase one, and what certificates say of a
//! form.
//!
//! Stands on `pami_linear`, and on `pami_frac` for the plain types of bounds and entries. Nothing here runs but for the
//! words that programs say too (`Stand`, `Side`, `Violation`): each other function has an empty body, and its contract is a
//! list of theorems about the definitions of `specs/`, which speak of no program, and of no width but through the view of
//! those plain types. The layers above may rely on those definitions and on each theorem, and cite the lemmas of
//! `proofs/` that carry the theorems.
#![tactic(auto)]

pub mod basis_laws;
pub mod boxes_laws;
pub mod certificate_laws;
pub mod choice_laws;
pub mod fresh_laws;
pub mod order_laws;
pub mod point_laws;
pub mod ratio_laws;
pub mod start_laws;
pub mod step_laws;
pub mod update_laws;
mod words;

pub use words::{Side, Stand, Violation};
