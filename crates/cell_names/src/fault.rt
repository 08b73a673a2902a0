//! Why bytes of a format can't be read, where not all of the format is built.

ghost use Rattle.std.specs.Prelude.{◌≡◌};
ghost use Rattle.cell_names.specs.declared.fault.FieldStop.TheVariants as fields;
ghost use Rattle.cell_names.specs.declared.fault.FormatStop.TheVariants as stops;
ghost use Rattle.cell_names.specs.Stops.{of_field, of_read, fault_of};

use byte_fields::{At, Left, ReadStop};
use std::alloc::{AllocError, AllocFailed};

/// Where reading stopped, inside a format, of what takes no memory.
#[derive(Clone, Copy, Debug, PartialEq, Eq)]
pub enum FieldStop {
    /// A field misses bytes or breaks its rule: so many bytes are left at its first byte.
    Left(usize),
    /// A field is lawful and isn't built yet: so many bytes are left at its first byte.
    NotYet(usize),
}

/// Why reading stopped, inside a format, of what takes memory.
#[derive(Clone, Copy, Debug, PartialEq, Eq)]
pub enum FormatStop {
    /// Memory ran out, as for a list's items.
    NoMemory,
    /// A field misses bytes or breaks its rule: so many bytes are left at its first byte.
    Left(usize),
    /// A field is lawful and isn't built yet: so many bytes are left at its first byte.
    NotYet(usize),
}

impl From<Left> for FieldStop {
    ghost from_gives = { λ left e. e ≡ fields.Left left.0 };

    fn from(left: Left) -> FieldStop {
        FieldStop::Left(left.0)
    }
}

impl From<Left> for FormatStop {
    ghost from_gives = { λ left e. e ≡ stops.Left left.0 };

    fn from(left: Left) -> FormatStop {
        FormatStop::Left(left.0)
    }
}

impl From<FieldStop> for FormatStop {
    ghost from_gives = { λ stop e. e ≡ of_field stop };

    fn from(stop: FieldStop) -> FormatStop {
        match stop {
            FieldStop::Left(left) => FormatStop::Left(left),
            FieldStop::NotYet(left) => FormatStop::NotYet(left),
        }
    }
}

impl From<ReadStop> for FormatStop {
    ghost from_gives = { λ stop e. e ≡ of_read stop };

    fn from(stop: ReadStop) -> FormatStop {
        match stop {
            ReadStop::NoMemory => FormatStop::NoMemory,
            ReadStop::Left(left) => FormatStop::Left(left),
        }
    }
}

impl From<AllocError> for FormatStop {
    ghost from_gives = { λ _ e. e ≡ stops.NoMemory };

    fn from(_e: AllocError) -> FormatStop {
        FormatStop::NoMemory
    }
}

impl<T: Drop> From<AllocFailed<T>> for FormatStop {
    ghost from_gives = { λ _ e. e ≡ stops.NoMemory };

    fn from(_e: AllocFailed<T>) -> FormatStop {
        FormatStop::NoMemory
    }
}

/// Why bytes could not be read.
#[derive(Clone, Copy, Debug, PartialEq, Eq)]
pub enum FormatFault {
    /// The first byte of the first field that misses bytes or breaks its rule.
    At(At),
    /// The first byte of a field that isn't built yet, where all before it keeps the rules.
    NotYet(usize),
    /// Memory ran out.
    NoMemory,
}

/// What a stop means in so many bytes.
pub fn fault_at(total: usize, stop: FormatStop) -> FormatFault
    ensures { result ≡ fault_of total stop }
{
    match stop {
        FormatStop::NoMemory => FormatFault::NoMemory,
        FormatStop::Left(left) => FormatFault::At(At(total.saturating_sub(left))),
        FormatStop::NotYet(left) => FormatFault::NotYet(total.saturating_sub(left)),
    }
}
