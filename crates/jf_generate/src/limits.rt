// How long a generated script may be.

/// The most batches.
pub const MAX_BATCHES: u64 = 1_000;

/// The most puts and deletes of a batch, of which there is at least one.
pub const MAX_SIZE: u64 = 10_000;
