//! The transport model that a seed draws, with so many sources and sinks.
//!
//! Stands on `pami_model`. The layers above may rely on `trial_model` making exactly the model of `specs/Transport.antt`,
//! whose numbers are those of `specs/Draws.antt`, for each seed and each size within its limits.
//!
//! ```
//! /// How many rows and columns a trial's model has.
//! fn counts(alloc: Global, seed: u32) -> Result<(usize, usize), OutOfMemory> {
//!     let model = trial_model(alloc, seed, 20, 30)?;
//!     Ok((model.rows.as_slice().len(), model.columns.as_slice().len()))
//! }
//! ```
#![tactic(auto)]

mod columns;
mod draws;
mod limit;
mod rows;
mod trial;

pub use limit::GREATEST_SIDE;
pub use trial::trial_model;

#[cfg(test)]
mod tests;
