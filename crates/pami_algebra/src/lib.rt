//! Fractions without bound: whole numbers and their greatest common divisor, a solver for identities of
//! commutative rings, fractions in lowest terms with their operations and order, and the laws of both.
//!
//! Stands on the kit alone. Nothing here runs: each function has an empty body, and its contract is a list of
//! theorems about the definitions of `specs/`. The layers above may rely on those definitions and on each
//! theorem; they treat the operations as opaque and cite the lemmas of `proofs/` that carry the theorems.
#![tactic(auto)]

pub mod decisions;
pub mod field_laws;
pub mod lowest_terms;
pub mod order_laws;
pub mod whole_numbers;
