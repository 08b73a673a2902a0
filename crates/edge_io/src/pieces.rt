//! The bytes of a reader, piece by piece, and how many of its reads ended in an error.
ghost use Rattle.std.specs.Prelude.{◌≡◌, ◌≢◌, ◌<◌, ◌≤◌, ◌⊎◌, ℕ, List, Option, true, false, IsErrOf, OnOk, length};
ghost use Rattle.std.specs.Io.KnownBytes.{Consumes, IsAtEnd};
ghost use Rattle.edge_io.specs.Outside.{Rose};
ghost use Rattle.edge_io.specs.declared.files.ReadEnd.TheVariants.{Failed as failed, TooLong as too_long};

use crate::files::ReadEnd;
use std::io::{ErrorKind, Read};

/// What gives its bytes piece by piece.
pub trait Pieces {
    /// The bytes that are left, where they are known.
    ghost left: { Self → Option (List ℕ) };

    /// How many reads ended in an error.
    ghost errors: { Self → ℕ };

    /// Reads a further piece behind the bytes, and tells whether there may be more.
    fn add_piece(&mut self, room: &mut [u8], bytes: &mut Vec<u8>) -> Result<bool, ReadEnd>
        requires { 0 < length room.old }
        ensures read { OnOk result ((whole : Option (List ℕ))
            → Consumes whole (left self.old) bytes.old.items
            → Consumes whole (left self.new) bytes.new.items) }
        ensures end { result ≡ Ok false → IsAtEnd (left self.new) }
        ensures more { result ≡ Ok true → (length bytes.old.items < length bytes.new.items)
            ⊎ Rose (errors self.old) (errors self.new) }
        ensures later { errors self.old ≤ errors self.new }
        ensures failed { IsErrOf result failed → Rose (errors self.old) (errors self.new) }
        ensures never_long { result ≢ Err too_long };
}

/// A reader, and how many of its reads ended in an error: those that were interrupted, after which
/// it is read on, and those that failed.
#[derive(Drop)]
pub struct Source<S: Read> {
    reader: S,
    errors: u64,
}

impl<S: Read> Source<S> {
    /// A reader of which nothing was read yet.
    pub fn new(reader: S) -> Source<S>
        ensures { result ≡ record { reader = reader; errors = 0 } }
    {
        Source { reader, errors: 0 }
    }
}

impl<S: Read> Pieces for Source<S> {
    ghost left = { λ s. S.remaining s.reader };

    ghost errors = { λ s. s.errors };

    fn add_piece(&mut self, room: &mut [u8], bytes: &mut Vec<u8>) -> Result<bool, ReadEnd> {
        match self.reader.read(room) {
            Ok(0) => Ok(false),
            Ok(n) => {
                bytes.extend_from_slice(&room[..n])?;
                Ok(true)
            }
            Err(e) => {
                self.errors = self.errors.saturating_add(1);
                if e.kind() == ErrorKind::Interrupted {
                    Ok(true)
                } else {
                    Err(ReadEnd::Failed)
                }
            }
        }
    }
}
