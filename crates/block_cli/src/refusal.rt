//! Why a block is refused.
use cell_names::Cell;

/// Why a block is refused; of several reasons the first in this order.
#[derive(Debug, Drop)]
pub enum Refusal {
    /// Its bytes break their format, first at this offset: a block that is cut by one byte, where the
    /// digest at its end begins.
    Malformed(usize),
    /// Its bytes hold something lawful that isn't built yet, first at this offset: a destination that
    /// is a contract.
    NotYet(usize),
    /// It doesn't stand on the state, by its parent, its level or its `now`: a block on the state that
    /// it led to before.
    WrongParent,
    /// This operation's joins don't ascend, or name one that isn't earlier: 1 and then 0, or itself.
    BadJoin(u32),
    /// These two operations conflict in the cell, and the earlier isn't before the later: two transfers
    /// out of one account, the second joined to none.
    Unordered(u32, u32, Cell),
    /// This operation touches other cells, or in other modes, than is published: a transfer without
    /// its receiver.
    FootprintDiffers(u32),
    /// This operation ends otherwise than is published: Applied, and the source has too little.
    ReceiptDiffers(u32),
    /// The operations leave another state than is published: the digest is that of the state before.
    StateDiffers,
}
