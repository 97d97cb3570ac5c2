//! The inside of a batch: rows that leave one after the other, each at a basis that is reached by single pivots.
//!
//! Stands on `pami_deferral`, whose laws say that what is kept of the remaining rows may be brought up to date pivot by
//! pivot, and on `pami_price`, `pami_bfrt` and `pami_devex` for what a step reads. The layers above may rely on each call
//! giving what its task gives at the basis that the batch has reached, or the first operation of its script that doesn't fit.
#![tactic(auto)]

mod behind;
mod costs;
mod flips;
mod kept;
mod lent;
mod minor;
pub mod minor_laws;
mod opening;
mod pick;
mod picking;
mod reach;
mod row;
mod shift;
#[cfg(test)]
mod tests;
mod turns;
mod walk;

pub use minor::Minor;
pub use picking::pick_row;
pub use reach::reach_at;
pub use row::{Reached, Remaining, RowPick};
pub use shift::shift_at;
pub use turns::flips_of;
pub use walk::{Leaving, walk_at};
