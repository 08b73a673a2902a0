//! How much one operation may do.

/// How many transfers an operation may make.
pub const MOST_CALLS: u32 = 128;

/// How many leaves of storages, entries and changes an operation may read, write and make, and how
/// many balances it may touch.
pub const MOST_ROOM: u64 = 16_384;

/// How much gas an operation may ask for.
pub const MOST_GAS: u32 = 100_000_000;

/// How many starts of bodies an operation may ask for.
pub const MOST_TURNS: u32 = 1_000_000;

/// How deep a param may be.
pub const MOST_DEPTH: u32 = 128;

/// How large a param may be.
pub const MOST_SIZE: u64 = 4096;
