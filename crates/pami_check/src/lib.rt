//! The checker: whether a certificate shows the answer on a model to be right.
//!
//! Stands on `pami_model`, on `pami_cert` for the type of a certificate, and on the definitions below them; nothing in
//! it knows of the method. The layers above may rely on `check` answering the first test that fails, or the operation
//! that is refused before one; on a valid certificate holding against the model over fractions without bound, and so
//! showing what it is a certificate of; and on an invalid one not holding. It takes no memory.
//!
//! A caller, which stands among the tests:
//!
//! ```
//! /// Whether the certificate shows that no point is within all bounds of the model.
//! fn shows_infeasible(model: &Model, cert: &Cert) -> bool
//!     requires { IsSized (contents model.now) cert.now }
//!     ensures { IsTrue result → (z : ℕ → Fraction) → ¬ IsFeasible (model_form (contents model.now)) z }
//! {
//!     match cert {
//!         Cert::Infeasible { y: _ } => check(model, cert) == Verdict::Valid,
//!         _ => false,
//!     }
//! }
//! ```
#![tactic(auto)]

mod checker;
mod direction;
mod infeasible;
mod optimal;
mod point;
mod single;
mod sums;
#[cfg(test)]
mod tests;
mod verdict;

pub use checker::check;
pub use verdict::{Condition, Verdict};
