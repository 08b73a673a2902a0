//! Why an instruction on data gives no result.

ghost use Rattle.std.specs.Prelude.{◌≡◌};
ghost use Rattle.michelson_data.specs.declared.fault.DataEnd.TheVariants.{NoMemory};

use std::alloc::AllocError;

/// How an instruction ends without a result.
#[derive(Clone, Copy, Debug, PartialEq, Eq)]
pub enum DataEnd {
    /// A number left the range of its type.
    Overflow,
    /// A shift by more than 256.
    Shift,
    /// The result has more than 4,096 leaves.
    TooLarge,
    /// Memory ran out.
    NoMemory,
}

impl From<AllocError> for DataEnd {
    ghost from_gives = { λ _ e. e ≡ NoMemory };

    fn from(_error: AllocError) -> DataEnd {
        DataEnd::NoMemory
    }
}
