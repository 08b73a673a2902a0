//! The head of a state or a block.

/// The level of a state or a block, and its `now`.
#[derive(Clone, Copy, Debug, PartialEq, Eq)]
pub struct Head {
    /// How many blocks stand before.
    pub level: u32,
    /// Seconds since 1970.
    pub now: u64,
}
