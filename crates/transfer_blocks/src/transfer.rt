//! The plain data of a block of transfers.

use value_core::Address;

/// An operation that moves an amount from one implicit account to another.
#[derive(Clone, Copy, Debug, PartialEq, Eq)]
pub struct Transfer {
    /// The account that pays.
    pub source: Address,
    /// The account that is paid.
    pub dest: Address,
    /// Millionths, below 2^63.
    pub amount: u64,
    /// What the operation may spend on instructions, at most 100,000,000.
    pub gas: u32,
    /// How many bodies it may start, at most 1,000,000: one turn is one start of a loop's body.
    pub turns: u32,
}

/// How a transfer ended: applied, or failed since the source had too little.
#[derive(Clone, Copy, Debug, PartialEq, Eq)]
pub struct Receipt {
    /// Whether the operation was done; else the source had too little.
    pub applied: bool,
    /// What was spent on instructions.
    pub gas: u32,
}
