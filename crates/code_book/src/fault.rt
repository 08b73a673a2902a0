//! Why a contract isn't added to a book, and why an entry isn't found.

ghost use Rattle.std.specs.Prelude.{◌≡◌};
ghost use Rattle.code_book.specs.declared.fault.BookEnd.TheVariants as ends;

use std::alloc::AllocError;

/// Why a contract isn't added, the first of these in this order.
#[derive(Clone, Copy, Debug, PartialEq, Eq)]
pub enum BookEnd {
    /// The address is an implicit account's.
    NotContract,
    /// A contract of the book has the address.
    Taken,
    /// There are as many contracts as a book may have.
    Full,
    /// The script's text has 2^32 bytes or more.
    TooLong,
    /// Memory ran out.
    NoMemory,
}

impl From<AllocError> for BookEnd {
    ghost from_gives = { λ _ e. e ≡ ends.NoMemory };

    fn from(_e: AllocError) -> BookEnd {
        BookEnd::NoMemory
    }
}

/// Why an entry isn't found.
#[derive(Clone, Copy, Debug, PartialEq, Eq)]
pub enum NoEntry {
    /// The address is a contract's, and no contract of the book has it.
    NoSuchContract,
    /// The account has no entry of that name.
    NoSuchEntry,
}
