//! How much a block may hold.

/// How many operations a block may hold, and how many numbers a join list.
pub const MOST_OPS: u32 = 512;

/// How much gas the operations of a block may ask for together.
pub const MOST_BLOCK_GAS: u32 = 1_000_000_000;
