//! Which calls are to fail, by their numbers.
ghost use Rattle.std.specs.Prelude.{◌≡◌, ◌==◌};
ghost use Rattle.edge_io.specs.Shelf.{is_due, reads_after};

use crate::files::ReadEnd;

/// Whether the call of a number is one that fails.
pub fn is_due(failing: &[u32], n: u64) -> bool
    ensures { result ≡ is_due failing.now n }
{
    failing.iter().any(|k| u64::from(*k) == n)
}

/// The number of reads after one that ended so.
pub fn reads_after(n: u64, ended: &Result<Vec<u8>, ReadEnd>) -> u64
    ensures { result ≡ reads_after n ended.now }
{
    match ended {
        Err(ReadEnd::NoMemory) => n,
        Err(ReadEnd::Failed) => n.saturating_add(1),
        Err(ReadEnd::TooLong) => n.saturating_add(1),
        Ok(_) => n.saturating_add(1),
    }
}
