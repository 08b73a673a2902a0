//! Why a run ends without effect.

ghost use Rattle.std.specs.Prelude.{◌≡◌, ◌↔◌, IfOk, IsTrue};

use std::alloc::Global;
use value_core::{NoMemory, Val};

/// Why an operation failed.
#[derive(Debug, Drop)]
pub enum Why {
    /// The payer holds less than the amount.
    BalanceTooLow,
    /// No contract stands at the address.
    NoSuchContract,
    /// The contract has no entry of the name.
    NoSuchEntry,
    /// The value given hasn't the entry's type.
    WrongParameter,
    /// `FAILWITH` was reached with this value on top.
    Raised(Val),
    /// A number left the range of its type.
    Overflow,
    /// A shift by more than 256.
    Shift,
    /// A value grew past the limit of size.
    TooLarge,
    /// Less gas was left than an instruction costs.
    OutOfGas,
    /// A body was to start and no turn was left.
    OutOfTurns,
    /// A big map was returned at another place than its own.
    BigMapMoved,
    /// The operation touched more cells than it may.
    TooManyCells,
    /// The room of an operation was spent.
    TooMuchData,
    /// The operation made more calls than it may.
    TooManyCalls,
}

impl Why {
    /// An equal cause.
    pub fn copy(&self, alloc: Global) -> Result<Why, NoMemory>
        ensures { IfOk result (λ w. w ≡ self.now) }
    {
        match self {
            Why::BalanceTooLow => Ok(Why::BalanceTooLow),
            Why::NoSuchContract => Ok(Why::NoSuchContract),
            Why::NoSuchEntry => Ok(Why::NoSuchEntry),
            Why::WrongParameter => Ok(Why::WrongParameter),
            Why::Raised(v) => Ok(Why::Raised(v.copy(alloc)?)),
            Why::Overflow => Ok(Why::Overflow),
            Why::Shift => Ok(Why::Shift),
            Why::TooLarge => Ok(Why::TooLarge),
            Why::OutOfGas => Ok(Why::OutOfGas),
            Why::OutOfTurns => Ok(Why::OutOfTurns),
            Why::BigMapMoved => Ok(Why::BigMapMoved),
            Why::TooManyCells => Ok(Why::TooManyCells),
            Why::TooMuchData => Ok(Why::TooMuchData),
            Why::TooManyCalls => Ok(Why::TooManyCalls),
        }
    }

    /// Whether the causes are equal.
    pub fn same(&self, other: &Why) -> bool
        ensures { IsTrue result ↔ (self.now ≡ other.now) }
    {
        match (self, other) {
            (Why::Raised(v), Why::Raised(w)) => v.same(w),
            (Why::BalanceTooLow, Why::BalanceTooLow)
            | (Why::NoSuchContract, Why::NoSuchContract)
            | (Why::NoSuchEntry, Why::NoSuchEntry)
            | (Why::WrongParameter, Why::WrongParameter)
            | (Why::Overflow, Why::Overflow)
            | (Why::Shift, Why::Shift)
            | (Why::TooLarge, Why::TooLarge)
            | (Why::OutOfGas, Why::OutOfGas)
            | (Why::OutOfTurns, Why::OutOfTurns)
            | (Why::BigMapMoved, Why::BigMapMoved)
            | (Why::TooManyCells, Why::TooManyCells)
            | (Why::TooMuchData, Why::TooMuchData)
            | (Why::TooManyCalls, Why::TooManyCalls) => true,
            _ => false,
        }
    }
}
