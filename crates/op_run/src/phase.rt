//! Where a run of an operation stands.

use crate::pile::Pile;
use cell_names::Access;
use michelson_code::Typed;
use michelson_machine::Machine;
use op_rules::{Receipt, Transfer};
use value_core::{Address, Val};

/// What a big map of a contract has from now on: its place, the key, and what is there.
pub(crate) type Change = (u8, Val, Option<Val>);

/// A code that runs.
#[derive(Drop)]
pub struct Code<'a> {
    /// The contract.
    pub dest: Address,
    /// Its script.
    pub code: &'a Typed,
    /// The storage that was read.
    pub stored: Val,
    /// The run itself.
    pub machine: Machine<'a>,
}

/// What goes on once an access has its reply.
#[derive(Drop)]
pub enum Then<'a> {
    /// The sender was debited, or had too little.
    Debited(Transfer),
    /// The destination was credited.
    Credited(Transfer),
    /// The storage of a contract was read.
    Stored(Transfer, &'a Typed),
    /// A code looked at a cell.
    Looked(Code<'a>),
    /// A storage or an entry was written; these changes are left.
    Written(Address, Pile<Change>),
}

/// What a run does next.
#[derive(Drop)]
pub enum Phase<'a> {
    /// The next transfer, if there is one.
    Ready,
    /// A transfer begins.
    Entering(Transfer),
    /// Its sender pays.
    Paying(Transfer),
    /// Its destination is paid.
    Crediting(Transfer),
    /// Its destination is called.
    Calling(Transfer),
    /// The code of a contract begins on the storage that was read.
    Starting(Transfer, &'a Typed, Val),
    /// A code runs.
    Running(Code<'a>),
    /// A storage is written, and then the changes.
    Storing(Address, Val, Pile<Change>),
    /// Changes are written.
    Writing(Address, Pile<Change>),
    /// A reply to the access is waited for.
    Waiting(Access, Then<'a>),
    /// The end.
    Over(Receipt),
    /// Memory ran out.
    Spent,
}
