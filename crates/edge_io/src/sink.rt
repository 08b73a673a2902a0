//! What takes printed bytes, as the program meets it.
ghost use Rattle.std.specs.Prelude.{◌<◌, length};
ghost use Rattle.edge_io.specs.Outside.{Taken, TakesPiece};

use crate::files::Failed;

/// What takes printed bytes.
pub trait Sink {
    /// The bytes taken where these are told, and the count of faults.
    ghost seen: { Self → Taken };

    /// Takes a first part of the piece, and tells how many bytes it took.
    fn write(&mut self, piece: &[u8]) -> Result<usize, Failed>
        requires { 0 < length piece.now }
        ensures { TakesPiece (seen self.old) piece.now result (seen self.new) };
}
