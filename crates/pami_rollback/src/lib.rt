//! A state as it was before a major, so that it can be given back.
//!
//! Stands on `pami_state`. The layer above keeps a state before it tries a major, and relies on `restore` making it again,
//! without memory, whatever has become of it in between.
#![tactic(auto)]

mod kept;

pub use kept::{Kept, keep};
