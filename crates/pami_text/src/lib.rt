//! The text of a run as a definition on lists of bytes: the lines of its majors, of its phases and of its answer, made of
//! what the run's record and answer say.
//!
//! Stands on `pami_method`, whose record and answer of a run it writes down, and on `pami_lines` for the words, the head and
//! the certificates. It has no code that runs: the layers above print, and may rely on what is to be printed standing here
//! alone, on a run's text being put together from its parts, and on what is told of a major that was refused.
#![tactic(auto)]

pub mod text_laws;
