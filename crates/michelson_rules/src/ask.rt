//! What a run may ask, who called, and what a run may spend.

ghost use Rattle.std.specs.Prelude.{◌≡◌, ◌↔◌, IfOk, IsTrue};

use std::alloc::Global;
use value_core::{Address, Name, NoMemory, Ty, Val};

/// A question to the ledger.
#[derive(Debug, Drop)]
pub enum Ask {
    /// What stands at the key of the big map at the place, below 16, of this contract's storage.
    Entry {
        place: u8,
        key: Val,
    },
    /// The balance of this contract.
    Balance,
    /// Whether the entry stands at the address with the type.
    Contract {
        address: Address,
        entry: Name,
        ty: Ty,
    },
}

/// Who called, with what, and when.
#[derive(Clone, Copy, Debug, PartialEq, Eq)]
pub struct Env {
    /// Millionths that came with the call, below 2^63.
    pub amount: u64,
    /// Who called.
    pub sender: Address,
    /// Who sent the operation.
    pub source: Address,
    /// The contract that runs.
    pub me: Address,
    /// The time of the block, in seconds since 1970.
    pub now: u64,
    /// The level of the block.
    pub level: u32,
}

/// What a run may still spend.
#[derive(Clone, Copy, Debug, PartialEq, Eq)]
pub struct Budget {
    /// Gas, the sum of the costs of instructions.
    pub gas: u64,
    /// Starts of bodies.
    pub turns: u64,
    /// Leaves of storages, entries and changes.
    pub room: u64,
}
