// How long a line and what it holds may be.

/// The most bytes of a line.
pub const MAX_LINE: usize = 8_500;

/// The most bytes of a name.
pub const MAX_NAME: u64 = 128;

/// The most entries of a chunk.
pub const MAX_CHUNK: u64 = 1_000;
