//! What one account has.

use value_core::Address;

/// How many bytes a holding takes in a file: the cell and its value.
pub(crate) const CELL: usize = 32;

/// The balance of an account.
#[derive(Clone, Copy, Debug, PartialEq, Eq)]
pub struct Holding {
    /// The account.
    pub address: Address,
    /// Its balance in millionths, from 1 to 2^63 - 1.
    pub amount: u64,
}
