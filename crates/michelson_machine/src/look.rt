//! What a machine waits for.

use value_core::{Address, Name, Ty, Val};

/// A question that is open, and what is needed to go on after its answer.
#[derive(Debug, Drop)]
pub enum Look<'a> {
    /// Whether a big map has the key.
    Has {
        /// The place of the big map.
        place: u8,
        /// The key.
        key: Val,
    },
    /// What it has there.
    Get {
        /// The place of the big map.
        place: u8,
        /// The key.
        key: Val,
    },
    /// What it has there before a change.
    Change(Change),
    /// The balance.
    Balance,
    /// Whether an entry stands.
    Contract {
        /// The contract.
        address: Address,
        /// Its entry.
        entry: Name,
        /// The type of the entry.
        ty: &'a Ty,
    },
}

/// A change of a big map.
#[derive(Debug, Drop)]
pub struct Change {
    /// The place of the big map.
    pub place: u8,
    /// Its version.
    pub version: u32,
    /// The key.
    pub key: Val,
    /// What it has there from now on.
    pub choice: Option<Val>,
}

/// A key of a big map.
#[derive(Debug, Drop)]
pub struct Key {
    /// The place of the big map.
    pub place: u8,
    /// Its version.
    pub version: u32,
    /// The key.
    pub key: Val,
}
