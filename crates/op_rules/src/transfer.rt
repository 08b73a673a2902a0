//! Transfers, of which operations are made.

use value_core::{Address, Name, Val};

/// What goes from a sender to an account or a contract, whose entry is given the param.
#[derive(Debug, Drop)]
pub struct Transfer {
    /// The source of the operation, or the contract that emits.
    pub sender: Address,
    /// The account or contract to which it goes.
    pub dest: Address,
    /// The entry that is called.
    pub entry: Name,
    /// What the entry is given.
    pub param: Val,
    /// Millionths that go along.
    pub amount: u64,
}
