//! Why a text is refused, and at which line that is told.

ghost use Rattle.std.specs.Prelude.{◌≡◌};
ghost use Rattle.chain_text.specs.declared.fault.ChainRefusal.TheVariants as refusals;
ghost use Rattle.chain_text.specs.declared.fault.LineEnd.TheVariants as ends;
ghost use Rattle.chain_text.specs.Inside.{told_at};

use std::alloc::{AllocError, AllocFailed};

/// What is wrong with a line.
#[derive(Clone, Copy, Debug, PartialEq, Eq)]
pub enum ChainKind {
    /// The level or the time isn't where it must be.
    Missing,
    /// The first word is unknown, or there are too few or too many words.
    BadWord,
    /// A number isn't spelt as one, or is out of its range.
    BadNumber,
    /// A word is no address, or not one of the kind that is asked for.
    BadAddress,
    /// A word is no name of an entry.
    BadName,
    /// A type may not be passed, or the data is none of its type or too deep.
    BadData,
    /// The text between the line and `end` is no script that may run.
    BadScript,
    /// A script has no line `end`.
    NotClosed,
    /// A balance, a contract or a storage stands a second time for its address.
    Twice,
    /// The contract of a storage or a balance isn't there.
    Unknown,
    /// The supply passes 2^63 - 1, there are more contracts than a book may have, or a script's
    /// printed text has 2^32 bytes or more.
    TooMuch,
    /// The contract has no storage line.
    NoStorage,
}

/// The first fault of a text.
#[derive(Clone, Copy, Debug, PartialEq, Eq)]
pub struct ChainFault {
    /// The line, counted from 1; what is missing stands behind the last one.
    pub line: u32,
    /// What is wrong with it.
    pub kind: ChainKind,
}

/// Why nothing was read.
#[derive(Clone, Copy, Debug, PartialEq, Eq)]
pub enum ChainRefusal {
    /// The text has this fault.
    Fault(ChainFault),
    /// Memory ran out.
    NoMemory,
}

/// Why a line wasn't read.
#[derive(Clone, Copy, Debug, PartialEq, Eq)]
pub(crate) enum LineEnd {
    /// The line has a fault of this kind.
    Faulty(ChainKind),
    /// Memory ran out.
    NoMemory,
}

impl LineEnd {
    /// The same of the text, at this line.
    pub(crate) fn at(self, line: u32) -> ChainRefusal
        ensures { result ≡ told_at line self }
    {
        match self {
            LineEnd::Faulty(kind) => ChainRefusal::Fault(ChainFault { line, kind }),
            LineEnd::NoMemory => ChainRefusal::NoMemory,
        }
    }
}

impl From<ChainKind> for LineEnd {
    ghost from_gives = { λ kind e. e ≡ ends.Faulty kind };

    fn from(kind: ChainKind) -> LineEnd {
        LineEnd::Faulty(kind)
    }
}

impl From<AllocError> for LineEnd {
    ghost from_gives = { λ _ e. e ≡ ends.NoMemory };

    fn from(_e: AllocError) -> LineEnd {
        LineEnd::NoMemory
    }
}

impl<T: Drop> From<AllocFailed<T>> for LineEnd {
    ghost from_gives = { λ _ e. e ≡ ends.NoMemory };

    fn from(_e: AllocFailed<T>) -> LineEnd {
        LineEnd::NoMemory
    }
}

impl From<ChainFault> for ChainRefusal {
    ghost from_gives = { λ fault e. e ≡ refusals.Fault fault };

    fn from(fault: ChainFault) -> ChainRefusal {
        ChainRefusal::Fault(fault)
    }
}

impl From<AllocError> for ChainRefusal {
    ghost from_gives = { λ _ e. e ≡ refusals.NoMemory };

    fn from(_e: AllocError) -> ChainRefusal {
        ChainRefusal::NoMemory
    }
}
