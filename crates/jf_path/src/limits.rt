// Limits that several crates share.

/// The most bytes of a value.
pub const MAX_VALUE: u64 = 4_096;

/// The most forks that live at once, and the most landings that are recorded together.
pub const MAX_FORKS: u64 = 1_024;

/// The most threads that may work at once.
pub const MAX_WORKERS: u64 = 64;

/// The most sessions that share a store.
pub const MAX_SESSIONS: u64 = 16;

/// How many versions a session may pin at once: the number of its places.
pub const MAX_PINS: u64 = 8;
