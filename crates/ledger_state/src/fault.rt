//! Why cells make no state.

ghost use Rattle.std.specs.Prelude.{◌≡◌};
ghost use Rattle.ledger_state.specs.declared.fault.BuildFault.TheVariants as faults;

use std::alloc::AllocError;
use value_core::Address;

/// Why cells make no state: the least place of a cell against which there is a reason, with the first
/// of three reasons; else the least contract without a storage.
#[derive(Clone, Copy, Debug, PartialEq, Eq)]
pub enum BuildFault {
    /// The value of the cell at this place doesn't fit it by the book.
    Misfit(usize),
    /// The cell at this place stood before.
    Twice(usize),
    /// With the cell at this place the supply passes 2^63 - 1.
    TooMuch(usize),
    /// The contract has no storage.
    NoStorage(Address),
    /// Memory ran out.
    NoMemory,
}

impl From<AllocError> for BuildFault {
    ghost from_gives = { λ _ e. e ≡ faults.NoMemory };

    fn from(_e: AllocError) -> BuildFault {
        BuildFault::NoMemory
    }
}
