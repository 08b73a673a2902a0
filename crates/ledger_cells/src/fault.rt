//! Why a cell isn't added.

ghost use Rattle.std.specs.Prelude.{◌≡◌};
ghost use Rattle.ledger_cells.specs.declared.fault.AddEnd.TheVariants as ends;

use std::alloc::AllocError;

/// Why a cell isn't added, the first of these in this order.
#[derive(Clone, Copy, Debug, PartialEq, Eq)]
pub enum AddEnd {
    /// The value doesn't fit the cell, by the book.
    Misfit,
    /// The cell is there.
    Twice,
    /// All money together would be 2^63 or more.
    TooMuch,
    /// Memory ran out.
    NoMemory,
}

impl From<AllocError> for AddEnd {
    ghost from_gives = { λ _ e. e ≡ ends.NoMemory };

    fn from(_e: AllocError) -> AddEnd {
        AddEnd::NoMemory
    }
}
