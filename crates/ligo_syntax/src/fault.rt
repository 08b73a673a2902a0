//! Why bytes are no program, and where that is told.

ghost use Rattle.std.specs.Prelude.{◌≡◌};
ghost use Rattle.ligo_syntax.specs.declared.fault.Stop.TheVariants as stop;
ghost use Rattle.ligo_syntax.specs.declared.fault.SyntaxRefusal.TheVariants as refusal;

use std::alloc::{AllocError, AllocFailed};

/// What could stand at the place of a fault.
#[derive(Clone, Copy, Debug, PartialEq, Eq)]
pub enum Expected {
    /// A declaration.
    Declaration,
    /// A type, or what a type is declared as.
    TypeExpr,
    /// An expression.
    Expression,
    /// A pattern, that of an arm too.
    Pattern,
    /// A token that begins none of these, or the end.
    Token,
    /// A smaller numeral with the same suffix.
    NumberInRange,
    /// The token itself, in a tree that isn't as deep.
    TooDeep,
}

/// The fault of a text.
#[derive(Clone, Copy, Debug, PartialEq, Eq)]
pub struct SyntaxFault {
    /// The offset of the token at which it is told; that of the end is the length.
    pub at: usize,
    /// What could stand there.
    pub expected: Expected,
}

/// Why no program was read.
#[derive(Debug, Drop)]
pub enum SyntaxRefusal {
    /// The bytes are none.
    Fault(SyntaxFault),
    /// Memory ran out.
    NoMemory,
}

/// Why reading stopped: it counts the tokens that are left.
#[derive(Debug, Drop)]
pub(crate) enum Stop {
    /// No text goes on with the token from which so many are left, and this could stand there.
    Unexpected(Expected, usize),
    /// It gets too deep with the token from which so many are left.
    TooDeep(usize),
    /// Memory ran out.
    NoMemory,
}

impl From<AllocError> for Stop {
    ghost from_gives = { λ _ e. e ≡ stop.NoMemory };

    fn from(_error: AllocError) -> Stop {
        Stop::NoMemory
    }
}

impl<T: Drop> From<AllocFailed<T>> for Stop {
    ghost from_gives = { λ _ e. e ≡ stop.NoMemory };

    fn from(_error: AllocFailed<T>) -> Stop {
        Stop::NoMemory
    }
}

impl From<AllocError> for SyntaxRefusal {
    ghost from_gives = { λ _ e. e ≡ refusal.NoMemory };

    fn from(_error: AllocError) -> SyntaxRefusal {
        SyntaxRefusal::NoMemory
    }
}

impl<T: Drop> From<AllocFailed<T>> for SyntaxRefusal {
    ghost from_gives = { λ _ e. e ≡ refusal.NoMemory };

    fn from(_error: AllocFailed<T>) -> SyntaxRefusal {
        SyntaxRefusal::NoMemory
    }
}
