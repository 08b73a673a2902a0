//! Why bytes are no script, and where that is told.

ghost use Rattle.std.specs.Prelude.{◌≡◌};
ghost use Rattle.michelson_reader.specs.declared.fault.ReadFault.TheVariants.{NoMemory};
ghost use Rattle.michelson_reader.specs.Returned.{of_text};

use data_nodes::DataFault;
use micheline_text::TextFault;
use sqlite_items::Items;
use std::alloc::{AllocError, AllocFailed};

/// Why bytes are no script: a fault of the text, or else the leftmost of the others. At one place
/// they come in this order.
#[derive(Debug, Drop)]
pub enum ReadFault {
    /// The bytes are no text of Micheline.
    Text(TextFault),
    /// `parameter`, `storage` and `code` aren't there once each: at the first node that is none of
    /// them or stands a second time, else at the text's end.
    Sections(usize),
    /// A word of Michelson that this language leaves out: at it, with the word.
    LeftOut(usize, Items<u8>),
    /// A word that is none of Michelson: at it.
    UnknownPrim(usize),
    /// A node isn't of the kind that its place asks for, or has too few or too many arguments: at
    /// it. A number of an instruction is out of range: at the instruction.
    Arity(usize),
    /// Pushed data.
    Data(DataFault),
    /// Memory ran out.
    NoMemory,
}

impl From<AllocError> for ReadFault {
    ghost from_gives = { λ _ e. e ≡ NoMemory };

    fn from(_error: AllocError) -> ReadFault {
        ReadFault::NoMemory
    }
}

impl<T: Drop> From<AllocFailed<T>> for ReadFault {
    ghost from_gives = { λ _ e. e ≡ NoMemory };

    fn from(_error: AllocFailed<T>) -> ReadFault {
        ReadFault::NoMemory
    }
}

impl From<TextFault> for ReadFault {
    ghost from_gives = { λ fault e. e ≡ of_text fault };

    fn from(fault: TextFault) -> ReadFault {
        match fault {
            TextFault::NoMemory => ReadFault::NoMemory,
            fault => ReadFault::Text(fault),
        }
    }
}
