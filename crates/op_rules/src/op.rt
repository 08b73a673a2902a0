//! Operations, and which of them a block may hold.

ghost use Rattle.std.specs.Prelude.{◌≡◌, ◌↔◌, IfOk, IsTrue};
ghost use Rattle.cell_names.specs.Accounts.{is_implicit};
ghost use Rattle.op_rules.specs.Operations.{IsLawful};

use crate::limits::{MOST_DEPTH, MOST_GAS, MOST_SIZE, MOST_TURNS};
use std::alloc::Global;
use value_core::{
    Address, Name, NoMemory, Val, has_no_big_map, is_plain, is_within_depth, is_within_size,
};

/// All money stays below it.
const MONEY_END: u64 = 1 << 63;

/// What an account sends: money, and a call of a contract.
#[derive(Debug, Drop)]
pub struct Op {
    /// The implicit account that sends it.
    pub source: Address,
    /// The account or contract to which it goes.
    pub dest: Address,
    /// The entry that is called.
    pub entry: Name,
    /// What the entry is given.
    pub param: Val,
    /// Millionths that go along.
    pub amount: u64,
    /// What the instructions of all its codes may cost.
    pub gas: u32,
    /// How many bodies may start.
    pub turns: u32,
}

impl Op {
    /// An equal operation.
    pub fn copy(&self, alloc: Global) -> Result<Op, NoMemory>
        ensures { IfOk result (λ op. op ≡ self.now) }
    {
        let param = self.param.copy(alloc)?;
        Ok(Op {
            source: self.source,
            dest: self.dest,
            entry: self.entry,
            param,
            amount: self.amount,
            gas: self.gas,
            turns: self.turns,
        })
    }

    /// Whether the operations are equal.
    pub fn same(&self, other: &Op) -> bool
        ensures { IsTrue result ↔ (self.now ≡ other.now) }
    {
        self.source == other.source
            && self.dest == other.dest
            && self.entry == other.entry
            && self.param.same(&other.param)
            && self.amount == other.amount
            && self.gas == other.gas
            && self.turns == other.turns
    }
}

/// Whether a block may hold the operation. The size of the param is tested first, so that no more of
/// a larger one is looked at.
pub fn lawful(o: &Op) -> bool
    ensures { IsTrue result ↔ IsLawful o.now }
{
    is_implicit(&o.source)
        && o.amount < MONEY_END
        && o.gas <= MOST_GAS
        && o.turns <= MOST_TURNS
        && is_within_size(&o.param, MOST_SIZE)
        && is_within_depth(&o.param, MOST_DEPTH)
        && has_no_big_map(&o.param)
        && is_plain(&o.param)
}

/// Whether the address is an implicit account's, and not a contract's.
fn is_implicit(address: &Address) -> bool
    ensures { result ≡ is_implicit address.now }
{
    address.bytes()[0] == 0
}
