//! Worked examples: small models from the form to the text of their runs, and, where a file can say the model, from the
//! file's bytes on.
//!
//! Nothing stands on this crate, and it has no code that runs. For each model there is one file of `specs/` with
//! the bytes, the form, the bases of the run and the expected text, all worked out apart from the definitions, and one
//! function here, whose clauses say that the definitions agree: `read` that the bytes say the model, `formed` that this is
//! its form, `run` that this is the run of the form, `written` that this is the run's text. `worked_steps` has single
//! steps of several of these models.
#![tactic(auto)]

pub mod blending;
pub mod continuing;
pub mod dropping;
pub mod flipping;
pub mod keeping;
pub mod overflowing;
pub mod passing;
pub mod refusing;
pub mod returning;
pub mod stopping;
pub mod switching;
pub mod unbounded;
pub mod worked_steps;
