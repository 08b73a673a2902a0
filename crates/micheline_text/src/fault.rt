//! Why bytes are no text of Micheline.

ghost use Rattle.std.specs.Prelude.{◌≡◌};
ghost use Rattle.micheline_text.specs.declared.fault.TextFault.TheVariants.{NoMemory};

use std::alloc::{AllocError, AllocFailed};

/// Why bytes are no text, and the offset at which that is told.
#[derive(Debug, Drop)]
pub enum TextFault {
    /// A token that can't follow, or bytes that spell none: at their first byte.
    BadToken(usize),
    /// The text could go on, but something has no end: at the first bracket, quote or comment that
    /// has none.
    Unclosed(usize),
    /// A numeral beyond 2^127 - 1 on either side of 0: at its first byte.
    WiderNumber(usize),
    /// The bracket within 256 open ones: at it.
    TooDeep(usize),
    /// Memory ran out.
    NoMemory,
}

impl From<AllocError> for TextFault {
    ghost from_gives = { λ _ e. e ≡ NoMemory };

    fn from(_error: AllocError) -> TextFault {
        TextFault::NoMemory
    }
}

impl<T: Drop> From<AllocFailed<T>> for TextFault {
    ghost from_gives = { λ _ e. e ≡ NoMemory };

    fn from(_error: AllocFailed<T>) -> TextFault {
        TextFault::NoMemory
    }
}
