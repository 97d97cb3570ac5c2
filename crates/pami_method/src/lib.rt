//! The method as definitions: the scripts of one major iteration, the batch that it takes on the whole form, the list
//! of its arithmetic, the walk of majors and the phases of a run.
//!
//! Stands on `pami_theory`, at whose bases everything is solved afresh, and on `pami_factoring`, whose scripts its solves
//! follow. Nothing here runs and nothing knows of workers, schedules or memory: `words` has the plain types that programs
//! say too, and each function has an empty body, whose contract is a list of theorems about the definitions of `specs/`.
//! The layers above state what they answer by these definitions and may rely on each form having exactly one run with its
//! options, on the answers having their certificates, and on the exact values of scripts that aren't refused. Worked runs
//! stand in `pami_examples`.
#![tactic(auto)]

pub mod answer_laws;
pub mod batch_laws;
pub mod run_laws;
pub mod script_laws;
pub mod task_laws;
pub mod walk_laws;
mod words;

pub use words::{GREATEST_BATCH, GREATEST_LIMIT, GREATEST_REFACTOR, Mode, Options, Place, Spot};
