//! What an operation asks of the ledger, what it is answered, and what takes that back.

ghost use Rattle.std.specs.Prelude.{◌≡◌, ◌↔◌, IsTrue, IfOk, Option};

use crate::cell::{Cell, NoMemory};
use crate::optional::{copy_value, same_value};
use std::alloc::Global;
use value_core::{Address, Val};

/// What is asked of a cell.
#[derive(Debug, Drop)]
pub enum Access {
    /// What stands in the cell. It needs mode `Read`.
    Read(Cell),
    /// The storage or the entry has this value, or is gone. It needs mode `Own`.
    Write(Cell, Option<Val>),
    /// The account gets so much of what is in flight. It needs mode `Credit`.
    Credit(Address, u64),
    /// So much of what the account has goes into flight. It needs mode `Own`.
    Debit(Address, u64),
}

/// What an access is answered.
#[derive(Debug, Drop)]
pub enum Reply {
    /// What stands in the cell that is read.
    Value(Option<Val>),
    /// The cell is written, credited or debited.
    Done,
    /// The account has less than is to be debited, and nothing changed.
    Low,
}

/// What takes an access back.
#[derive(Debug, Drop)]
pub enum Undo {
    /// Nothing was changed.
    Nothing,
    /// The cell has this value again, or is gone.
    Put(Cell, Option<Val>),
    /// The account gives back so much, which is in flight again.
    Uncredit(Address, u64),
    /// The account has again so much of what is in flight.
    Undebit(Address, u64),
}

impl Access {
    /// An equal access.
    pub fn copy(&self, alloc: Global) -> Result<Access, NoMemory>
        ensures { IfOk result (λ access. access ≡ self.now) }
    {
        match self {
            Access::Read(cell) => {
                let cell = cell.copy(alloc)?;
                Ok(Access::Read(cell))
            }
            Access::Write(cell, value) => {
                let cell = cell.copy(alloc)?;
                let value = copy_value(alloc, value)?;
                Ok(Access::Write(cell, value))
            }
            Access::Credit(address, amount) => Ok(Access::Credit(*address, *amount)),
            Access::Debit(address, amount) => Ok(Access::Debit(*address, *amount)),
        }
    }

    /// Whether both are one access.
    pub fn same(&self, other: &Access) -> bool
        ensures { IsTrue result ↔ (self.now ≡ other.now) }
    {
        match (self, other) {
            (Access::Read(a), Access::Read(b)) => a.same(b),
            (Access::Write(a, x), Access::Write(b, y)) => a.same(b) && same_value(x, y),
            (Access::Credit(a, m), Access::Credit(b, n)) => a == b && m == n,
            (Access::Debit(a, m), Access::Debit(b, n)) => a == b && m == n,
            _ => false,
        }
    }
}

impl Reply {
    /// An equal reply.
    pub fn copy(&self, alloc: Global) -> Result<Reply, NoMemory>
        ensures { IfOk result (λ reply. reply ≡ self.now) }
    {
        match self {
            Reply::Value(value) => {
                let value = copy_value(alloc, value)?;
                Ok(Reply::Value(value))
            }
            Reply::Done => Ok(Reply::Done),
            Reply::Low => Ok(Reply::Low),
        }
    }

    /// Whether both are one reply.
    pub fn same(&self, other: &Reply) -> bool
        ensures { IsTrue result ↔ (self.now ≡ other.now) }
    {
        match (self, other) {
            (Reply::Value(x), Reply::Value(y)) => same_value(x, y),
            (Reply::Done, Reply::Done) => true,
            (Reply::Low, Reply::Low) => true,
            _ => false,
        }
    }
}

impl Undo {
    /// An equal undo.
    pub fn copy(&self, alloc: Global) -> Result<Undo, NoMemory>
        ensures { IfOk result (λ undo. undo ≡ self.now) }
    {
        match self {
            Undo::Nothing => Ok(Undo::Nothing),
            Undo::Put(cell, value) => {
                let cell = cell.copy(alloc)?;
                let value = copy_value(alloc, value)?;
                Ok(Undo::Put(cell, value))
            }
            Undo::Uncredit(address, amount) => Ok(Undo::Uncredit(*address, *amount)),
            Undo::Undebit(address, amount) => Ok(Undo::Undebit(*address, *amount)),
        }
    }

    /// Whether both are one undo.
    pub fn same(&self, other: &Undo) -> bool
        ensures { IsTrue result ↔ (self.now ≡ other.now) }
    {
        match (self, other) {
            (Undo::Nothing, Undo::Nothing) => true,
            (Undo::Put(a, x), Undo::Put(b, y)) => a.same(b) && same_value(x, y),
            (Undo::Uncredit(a, m), Undo::Uncredit(b, n)) => a == b && m == n,
            (Undo::Undebit(a, m), Undo::Undebit(b, n)) => a == b && m == n,
            _ => false,
        }
    }
}
