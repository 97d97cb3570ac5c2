//! The outside as the program meets it: bytes that come from a shelf of named files, and bytes that go to a sink.
//!
//! Stands on `pami_frac` for the answer of want of memory alone. The layers above may rely on `read_whole` giving
//! exactly the bytes under a name, on `write_whole` writing all of its bytes or saying that the sink failed, and on
//! each failure being counted by the shelf or sink where it happened, so that none is taken for an end of the bytes.
//! `MemoryShelf` and `MemorySink` tell their bytes and fail where they are asked to; `RealShelf` and `RealSink`
//! stand for files and an output, and tell none.
#![tactic(auto)]

mod asked;
mod line;
mod memory;
mod outside;
mod plan;
mod real;
mod stored;
mod whole;
mod word;

pub use line::{Line, lines};
pub use memory::{MemoryShelf, MemorySink};
pub use outside::{Failed, ReadStop, Shelf, Sink};
pub use real::{RealShelf, RealSink};
pub use whole::{read_whole, write_whole};
pub use word::Word;

#[cfg(test)]
mod tests;
