//! Reading the files of a command.
ghost use Rattle.std.specs.Prelude.{◌≡◌, map};
ghost use Rattle.edge_io.specs.Outside.{GoesOn};
ghost use Rattle.block_cli.specs.Inside.{ReadsAll};
ghost use Rattle.block_cli.specs.declared.input.Unread.TheVariants.{NoMemory as no_memory};

use edge_io::{Files, ReadEnd};
use std::alloc::{AllocError, AllocFailed, Global};

/// Why not all files were read whole.
#[derive(Clone, Copy, Debug)]
pub enum Unread<'a> {
    /// Memory ran out: a file is larger than what is left of it.
    NoMemory,
    /// This one, the first that wasn't read whole, couldn't be read: it isn't there.
    CannotRead(&'a str),
    /// This one, the first that wasn't read whole, is longer than 64 MiB.
    TooLong(&'a str),
}

impl<'a> From<AllocError> for Unread<'a> {
    ghost from_gives = { λ _ e. e ≡ no_memory };

    fn from(_e: AllocError) -> Unread<'a> {
        Unread::NoMemory
    }
}

impl<'a, T: Drop> From<AllocFailed<T>> for Unread<'a> {
    ghost from_gives = { λ _ e. e ≡ no_memory };

    fn from(_e: AllocFailed<T>) -> Unread<'a> {
        Unread::NoMemory
    }
}

/// Reads files in their order.
pub fn read_all<'a, F: Files>(
    alloc: Global,
    names: &[&'a str],
    files: &mut F,
) -> Result<Vec<Vec<u8>>, Unread<'a>>
    ensures goes { GoesOn (F.seen files.old) (F.seen files.new) }
    ensures same { (F.seen files.new).told ≡ (F.seen files.old).told }
    ensures read { ReadsAll (map (λ name. name.now) names.now)
        (F.seen files.old) result (F.seen files.new) }
{
    let mut contents = Vec::new(alloc);
    for name in names {
        match files.read(alloc, name) {
            Ok(bytes) => contents.push(bytes)?,
            Err(ReadEnd::NoMemory) => return Err(Unread::NoMemory),
            Err(ReadEnd::Failed) => return Err(Unread::CannotRead(name)),
            Err(ReadEnd::TooLong) => return Err(Unread::TooLong(name)),
        }
    }
    Ok(contents)
}
