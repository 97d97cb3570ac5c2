//! What a trial may have at most.

/// The most sources, and the most sinks.
pub const GREATEST_SIDE: u32 = 64;
