//! How a run ends.

use michelson_code::Why;
use michelson_rules::{Ask, Budget};
use sqlite_items::Items;
use value_core::{Emit, Val};

/// What a machine does next.
#[derive(Debug, Drop)]
pub enum Turn {
    /// It asks the ledger, and waits for the answer.
    Ask(Ask),
    /// It is done.
    Done(End),
}

/// The end of a run.
#[derive(Debug, Drop)]
pub enum End {
    /// The contract returns.
    Return {
        /// The operations that it emits, the first to run first.
        ops: Items<Emit>,
        /// What it keeps; each big map has version 0.
        storage: Val,
        /// What its big maps have from now on, by place and key.
        changes: Items<(u8, Val, Option<Val>)>,
        /// What is left.
        left: Budget,
    },
    /// It fails.
    Fail {
        /// The cause.
        why: Why,
        /// What is left.
        left: Budget,
    },
}
