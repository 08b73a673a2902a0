//! Why a node is no data of a type, and where that is told.

ghost use Rattle.std.specs.Prelude.{◌≡◌};
ghost use Rattle.data_nodes.specs.declared.fault.DataKind.TheVariants.{Order, Range, Shape, TooLarge};
ghost use Rattle.data_nodes.specs.declared.fault.DataRefusal.TheVariants.{Fault, NoMemory};

use std::alloc::{AllocError, AllocFailed};

/// What is wrong with a node.
#[derive(Clone, Copy, Debug, PartialEq, Eq)]
pub enum DataKind {
    /// The node isn't written as data of its type: at the innermost such node.
    Shape,
    /// A number is outside the range of its type: at the number.
    Range,
    /// A set's item or a map's key isn't above the one before: at it.
    Order,
    /// The value has more than 4,096 leaves: at the node that was given.
    TooLarge,
}

/// The leftmost fault of a node, and the offset at which it is told.
#[derive(Clone, Copy, Debug, PartialEq, Eq)]
pub struct DataFault {
    /// The offset of the node that is at fault, in bytes of the text.
    pub at: usize,
    /// What is wrong with it.
    pub kind: DataKind,
}

/// Why no value was read.
#[derive(Debug, Drop)]
pub enum DataRefusal {
    /// The node is no data of the type.
    Fault(DataFault),
    /// Memory ran out.
    NoMemory,
}

/// The node at the offset isn't written as its type asks.
pub(crate) fn shape(at: usize) -> DataRefusal
    ensures { result ≡ Fault (record { at = at; kind = Shape }) }
{
    let kind = DataKind::Shape;
    DataRefusal::Fault(DataFault { at, kind })
}

/// The number at the offset is outside the range of its type.
pub(crate) fn out_of_range(at: usize) -> DataRefusal
    ensures { result ≡ Fault (record { at = at; kind = Range }) }
{
    let kind = DataKind::Range;
    DataRefusal::Fault(DataFault { at, kind })
}

/// The item or key at the offset isn't above the one before.
pub(crate) fn out_of_order(at: usize) -> DataRefusal
    ensures { result ≡ Fault (record { at = at; kind = Order }) }
{
    let kind = DataKind::Order;
    DataRefusal::Fault(DataFault { at, kind })
}

/// The value of the node at the offset has too many leaves.
pub(crate) fn too_large(at: usize) -> DataRefusal
    ensures { result ≡ Fault (record { at = at; kind = TooLarge }) }
{
    let kind = DataKind::TooLarge;
    DataRefusal::Fault(DataFault { at, kind })
}

impl From<AllocError> for DataRefusal {
    ghost from_gives = { λ _ e. e ≡ NoMemory };

    fn from(_error: AllocError) -> DataRefusal {
        DataRefusal::NoMemory
    }
}

impl<T: Drop> From<AllocFailed<T>> for DataRefusal {
    ghost from_gives = { λ _ e. e ≡ NoMemory };

    fn from(_error: AllocFailed<T>) -> DataRefusal {
        DataRefusal::NoMemory
    }
}
