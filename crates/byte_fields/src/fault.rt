//! Why bytes could not be read.

ghost use Rattle.std.specs.Prelude.{◌≡◌};
ghost use Rattle.byte_fields.specs.declared.fault.ReadStop.TheVariants as stops;
ghost use Rattle.byte_fields.specs.Told.{fault_of};

use std::alloc::{AllocError, AllocFailed};

/// Where reading stopped, inside a format, of what takes no memory: a field misses bytes or breaks
/// its rule, and so many bytes are left at its first byte.
#[derive(Clone, Copy, Debug, PartialEq, Eq)]
pub struct Left(pub usize);

/// Why reading stopped, inside a format, of what takes memory.
#[derive(Clone, Copy, Debug, PartialEq, Eq)]
pub enum ReadStop {
    /// Memory ran out.
    NoMemory,
    /// A field misses bytes or breaks its rule: so many bytes are left at its first byte.
    Left(usize),
}

impl From<Left> for ReadStop {
    ghost from_gives = { λ left e. e ≡ stops.Left left.0 };

    fn from(left: Left) -> ReadStop {
        ReadStop::Left(left.0)
    }
}

impl From<AllocError> for ReadStop {
    ghost from_gives = { λ _ e. e ≡ stops.NoMemory };

    fn from(_e: AllocError) -> ReadStop {
        ReadStop::NoMemory
    }
}

impl<T: Drop> From<AllocFailed<T>> for ReadStop {
    ghost from_gives = { λ _ e. e ≡ stops.NoMemory };

    fn from(_e: AllocFailed<T>) -> ReadStop {
        ReadStop::NoMemory
    }
}

/// A place in bytes: how many stand before it.
#[derive(Clone, Copy, Debug, PartialEq, Eq)]
pub struct At(pub usize);

/// Why bytes could not be read, for the callers of a format.
#[derive(Clone, Copy, Debug, PartialEq, Eq)]
pub enum FieldFault {
    /// The first byte of the first field that misses bytes or breaks its rule.
    At(At),
    /// Memory ran out.
    NoMemory,
}

/// What a stop means in so many bytes.
pub fn fault_at(total: usize, stop: ReadStop) -> FieldFault
    ensures { result ≡ fault_of total stop }
{
    match stop {
        ReadStop::NoMemory => FieldFault::NoMemory,
        ReadStop::Left(left) => FieldFault::At(At(total.saturating_sub(left))),
    }
}
