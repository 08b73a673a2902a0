//! Why a program isn't typed, and where that is told.

ghost use Rattle.std.specs.Prelude.{◌≡◌};
ghost use Rattle.ligo_typer.specs.declared.fault.LigoRefusal.TheVariants as refusal;

use std::alloc::{AllocError, AllocFailed};

/// A rule that is broken (docs/LANGUAGE.md, "Refusals").
#[derive(Clone, Copy, Debug, PartialEq, Eq)]
pub enum LigoKind {
    /// Nothing above declares this name of a value, a type, a field or a case. Told at the name.
    Unknown,
    /// Something is of another type or form than its place asks for.
    Mismatch,
    /// A recursive function calls itself in no tail position.
    NotTail,
    /// A match misses a case.
    NotExhaustive,
    /// An arm of a match covers no case that isn't covered before.
    Redundant,
    /// Nothing is an entry. Told at the end of the text.
    NoEntry,
    /// A function has another number of arguments than of params, or is no head of an application.
    HigherOrder,
    /// A name is declared or bound twice.
    Twice,
    /// Nothing tells the type of an empty list or map, of `None`, `failwith` or a contract.
    NeedsType,
    /// The keys of a map aren't comparable.
    NotComparable,
    /// A big map stands where none may.
    BigMapPlace,
    /// The image of a type has more than 1,024 nodes, or is deeper than 64.
    TooWide,
    /// A name of a library that isn't there. Told at the name.
    LeftOut,
}

/// The fault of a program.
#[derive(Clone, Copy, Debug, PartialEq, Eq)]
pub struct LigoFault {
    /// An offset in the first declaration that isn't typed, or the end of the text.
    pub at: usize,
    /// The rule that is broken there.
    pub kind: LigoKind,
}

/// Why no program was typed.
#[derive(Debug, Drop)]
pub enum LigoRefusal {
    /// The program isn't typed.
    Fault(LigoFault),
    /// Memory ran out.
    NoMemory,
}

impl From<AllocError> for LigoRefusal {
    ghost from_gives = { λ _ e. e ≡ refusal.NoMemory };

    fn from(_error: AllocError) -> LigoRefusal {
        LigoRefusal::NoMemory
    }
}

impl<T: Drop> From<AllocFailed<T>> for LigoRefusal {
    ghost from_gives = { λ _ e. e ≡ refusal.NoMemory };

    fn from(_error: AllocFailed<T>) -> LigoRefusal {
        LigoRefusal::NoMemory
    }
}
