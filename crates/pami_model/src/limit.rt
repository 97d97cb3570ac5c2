//! What a model, and the file that states it, may have at most.

/// The most rows that a model may have.
pub const ROW_LIMIT: u32 = 256;

/// The most columns that a model may have.
pub const COLUMN_LIMIT: u32 = 4096;

/// The most stored entries that a model may have.
pub const ENTRY_LIMIT: u32 = 65536;

/// The most bytes that a name may have.
pub const NAME_LIMIT: usize = 255;

/// The most bytes that the file of a model may have.
pub const BYTE_LIMIT: usize = 16_777_216;
