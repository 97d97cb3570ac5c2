//! Linear algebra over unbounded fractions: sums over the numbers below a length, systems of square matrices, bases
//! before and after a pivot, the elimination with its pivot rule and its solves, and the product form.
//!
//! Stands on `pami_algebra`. Nothing here runs: each function has an empty body, and its contract is a list of
//! theorems about the definitions of `specs/`, where a vector is a function of the index beside its length, and a
//! matrix one of two. A regular matrix has exactly one solution of each system; the elimination completes exactly
//! there, and its solves give that solution. The layers above cite the lemmas of `proofs/` that carry the theorems.
#![tactic(auto)]

pub mod elimination_laws;
pub mod pivot_laws;
pub mod product_laws;
pub mod sum_laws;
pub mod system_laws;
