//! Pricing: the entries of the pivot row, by slices of 64 variables.
//!
//! Stands on `pami_vec`, whose script of a sum of products gives one entry, and on `pami_method`, whose script a slice
//! follows. The layers above may rely on a slice having exactly the entries of its nonbasic variables that aren't 0,
//! ascending, on its refusal being the first of that script, on slices not depending on each other, and on the work of a
//! call being in proportion to its variables and the matrix's entries in the rows where rho isn't 0, beside one search in
//! each of these rows.
#![tactic(auto)]

mod price;
pub mod price_laws;
mod sums;
#[cfg(test)]
mod tests;

pub use price::{SliceRefused, price_all, price_slice};
