//! Files by their names, as the program meets them.
ghost use Rattle.std.specs.Prelude.{◌≡◌, length};
ghost use Rattle.edge_io.specs.Outside.{Outside, HasRoom, ReadsFile, MakesRoom, WritesFile};
ghost use Rattle.edge_io.specs.declared.files.ReadEnd.TheVariants.{NoMemory as no_memory};

use std::alloc::{AllocError, AllocFailed, Global};

/// Want of memory.
pub type NoMemory = AllocError;

/// The longest file that is read: 64 MiB.
pub(crate) const MOST_BYTES: usize = 67_108_864;

/// A write or a piece failed, and its count of faults tells it: a write into a folder that isn't
/// there, a piece for an output that takes nothing more.
#[derive(Clone, Copy, Debug, PartialEq, Eq)]
pub struct Failed;

/// Why a file wasn't read.
#[derive(Clone, Copy, Debug, PartialEq, Eq)]
pub enum ReadEnd {
    /// The read failed, and the count of read faults tells it: the name isn't there.
    Failed,
    /// The file has more than 67,108,864 bytes, as one of 67,108,865, and the count of long reads
    /// tells it.
    TooLong,
    /// Memory ran out, for the bytes or for a name's counts.
    NoMemory,
}

impl From<AllocError> for ReadEnd {
    ghost from_gives = { λ _ e. e ≡ no_memory };

    fn from(_e: AllocError) -> ReadEnd {
        ReadEnd::NoMemory
    }
}

impl<T: Drop> From<AllocFailed<T>> for ReadEnd {
    ghost from_gives = { λ _ e. e ≡ no_memory };

    fn from(_e: AllocFailed<T>) -> ReadEnd {
        ReadEnd::NoMemory
    }
}

/// Files by their names.
pub trait Files {
    /// What is seen of them: contents where these are told, and for each name counts and a room.
    ghost seen: { Self → Outside };

    /// The bytes of a file.
    fn read(&mut self, alloc: Global, name: &str) -> Result<Vec<u8>, ReadEnd>
        ensures { ReadsFile (seen self.old) name.now result (seen self.new) };

    /// Makes room for a later write of that many bytes, which then takes no memory.
    fn ready(&mut self, alloc: Global, name: &str, n: usize) -> Result<(), NoMemory>
        ensures { MakesRoom (seen self.old) name.now n result (seen self.new) };

    /// Makes the bytes the whole content of a file.
    fn write(&mut self, name: &str, bytes: &[u8]) -> Result<(), Failed>
        requires { HasRoom (seen self.old) name.now (length bytes.now) }
        ensures { WritesFile (seen self.old) name.now bytes.now result (seen self.new) };
}
