//! A balance as its block holds it.

use value_core::Address;

/// What one account has.
#[derive(Clone, Copy, Debug, PartialEq, Eq)]
pub struct Holding {
    /// The account.
    pub address: Address,
    /// Its balance in millionths.
    pub amount: u64,
}
