//! What is left to do.

use crate::pile::Pile;
use michelson_code::Instr;
use sqlite_items::Items;
use value_core::Val;

/// The top for which a loop goes on.
#[derive(Clone, Copy, Debug)]
pub enum While {
    /// While it is true.
    True,
    /// While it is left.
    Left,
}

/// Something that is left to do.
#[derive(Debug, Drop)]
pub enum Frame<'a> {
    /// The rest of a code.
    Rest(&'a [Instr]),
    /// An item that was set aside, to be put on top.
    Under(Val),
    /// Items that were set aside, the lowest first.
    UnderAll(Pile<Val>),
    /// A loop.
    Again(While, &'a [Instr]),
    /// A body for each of the items.
    Each(&'a [Instr], Pile<Val>),
    /// A body that leaves a result on top, for an item and each of those left.
    Mapping(Mapping<'a>),
}

/// A `MAP` that isn't done.
#[derive(Debug, Drop)]
pub struct Mapping<'a> {
    /// The body.
    pub body: &'a [Instr],
    /// The items that are left.
    pub items: Pile<Val>,
    /// The keys of a map.
    pub keys: Option<Items<Val>>,
    /// The results so far.
    pub done: Items<Val>,
}
