//! What an access is answered, and what takes it back, by what stands in its cell.

ghost use Rattle.std.specs.Prelude.{◌≡◌, if◌then◌else◌, nat_lt, IfOk};
ghost use Rattle.std.specs.FinMap.{get};
ghost use Rattle.cell_names.specs.Contents.{Contents, amount_in};
ghost use Rattle.cell_names.specs.Effects.{cell_of, reply_to, undo_of};

use crate::access::{Access, Reply, Undo};
use crate::cell::NoMemory;
use crate::optional::copy_value;
use std::alloc::Global;
use value_core::Val;

/// How much money stands in a cell: what an account has, by its balance.
pub fn amount_in(held: &Option<Val>) -> u64
    ensures { result ≡ amount_in held.now }
{
    match held {
        Some(Val::Mutez(amount)) => *amount,
        _ => 0,
    }
}

impl Access {
    /// What a store answers in whose cell this stands. A debit above the balance is Low.
    pub fn reply(&self, alloc: Global, held: &Option<Val>) -> Result<Reply, NoMemory>
        ensures { IfOk result (λ reply. (m : Contents) → get m (cell_of self.now) ≡ held.now
            → reply ≡ reply_to self.now m) }
    {
        match self {
            Access::Read(_) => value_reply(alloc, held),
            Access::Write(_, _) => Ok(Reply::Done),
            Access::Credit(_, _) => Ok(Reply::Done),
            Access::Debit(_, amount) => Ok(debit_reply(amount_in(held), *amount)),
        }
    }

    /// What takes the access back from a store in whose cell this stood before.
    pub fn undo(&self, alloc: Global, held: &Option<Val>) -> Result<Undo, NoMemory>
        ensures { IfOk result (λ undo. (m : Contents) → get m (cell_of self.now) ≡ held.now
            → undo ≡ undo_of self.now m) }
    {
        match self {
            Access::Read(_) => Ok(Undo::Nothing),
            Access::Write(cell, _) => {
                let cell = cell.copy(alloc)?;
                let value = copy_value(alloc, held)?;
                Ok(Undo::Put(cell, value))
            }
            Access::Credit(address, amount) => Ok(Undo::Uncredit(*address, *amount)),
            Access::Debit(address, amount) => {
                if amount_in(held) < *amount {
                    return Ok(Undo::Nothing);
                }
                Ok(Undo::Undebit(*address, *amount))
            }
        }
    }
}

fn value_reply(alloc: Global, held: &Option<Val>) -> Result<Reply, NoMemory>
    ensures { IfOk result (λ reply. reply ≡ Reply.Value held.now) }
{
    let value = copy_value(alloc, held)?;
    Ok(Reply::Value(value))
}

fn debit_reply(balance: u64, amount: u64) -> Reply
    ensures { result ≡ (if nat_lt balance amount then Reply.Low else Reply.Done) }
{
    if balance < amount {
        Reply::Low
    } else {
        Reply::Done
    }
}
