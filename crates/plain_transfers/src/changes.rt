//! What changed over the balances of a state.
ghost use Rattle.std.specs.Prelude.{◌≡◌, ◌≤◌, IfOk, OnOk, OnErr, IsSome, All, List, ℕ, map};
ghost use Rattle.std.specs.Ordering.{nat_cmp};
ghost use Rattle.std.specs.Cmp.Lexicographic.{slice_cmp};
ghost use Rattle.std.specs.BTreeMap.{IsOrdered, get, keys};
ghost use Rattle.cell_names.specs.Accounts.{IsImplicit};
ghost use Rattle.plain_ledger.specs.Ledger.{Balances, balance, supply, with_balance};
ghost use Rattle.plain_transfers.specs.Changes.{AreChanges, holding_of, over};
ghost use Rattle.plain_transfers.specs.Serial.{credited, debited};

use plain_ledger::{Holding, NoMemory, State};
use std::alloc::Global;
use std::collections::BTreeMap;
use value_core::Address;

/// What some accounts have now, by address.
pub(crate) type Changes = BTreeMap<Address, u64>;

/// What an account has now.
pub(crate) fn balance_in(state: &State, changes: &Changes, address: &Address) -> u64
    ensures { result ≡ balance (over state.now.balances changes.now.entries) address.now }
{
    match changes.get(address) {
        Some(amount) => *amount,
        None => state.balance(address),
    }
}

/// Writes what an account has now. It takes no memory where the account changed before.
fn put(changes: &mut Changes, address: Address, amount: u64) -> Result<(), NoMemory>
    ensures written { OnOk result ((m : Balances)
        → over m changes.new.entries ≡ with_balance (over m changes.old.entries) address amount) }
    ensures present { OnOk result (get (slice_cmp nat_cmp) changes.new address ≡ Some amount) }
    ensures accounts { IsImplicit address → All IsImplicit (keys changes.old)
        → All IsImplicit (keys changes.new) }
    ensures ascend { IsOrdered (slice_cmp nat_cmp) changes.new }
    ensures kept { (q : List ℕ) → IsSome (get (slice_cmp nat_cmp) changes.old q)
        → IsSome (get (slice_cmp nat_cmp) changes.new q) }
    ensures absent { OnErr result (get (slice_cmp nat_cmp) changes.old address ≡ None) }
    ensures unchanged { OnErr result (changes.new.entries ≡ changes.old.entries) }
{
    changes.insert(address, amount)?;
    Ok(())
}

/// Debits one account, which has as much, and then credits another.
pub(crate) fn pay(
    state: &State,
    changes: &mut Changes,
    source: Address,
    dest: Address,
    amount: u64,
) -> Result<(), NoMemory>
    requires source { IsImplicit source }
    requires dest { IsImplicit dest }
    requires lawful { AreChanges state.now.balances changes.old.entries }
    requires enough { amount ≤ balance (over state.now.balances changes.old.entries) source }
    ensures paid { OnOk result (over state.now.balances changes.new.entries
        ≡ credited (debited (over state.now.balances changes.old.entries) source amount)
        dest amount) }
    ensures unchanged { OnErr result (over state.now.balances changes.new.entries
        ≡ over state.now.balances changes.old.entries) }
    ensures lawful { AreChanges state.now.balances changes.new.entries }
    ensures supply { supply (over state.now.balances changes.new.entries)
        ≡ supply (over state.now.balances changes.old.entries) }
{
    // The destination's place first: once it is there, no write behind the debit can fail.
    let before = balance_in(state, changes, &dest);
    put(changes, dest, before)?;
    let has = balance_in(state, changes, &source);
    put(changes, source, has - amount)?;
    let had = balance_in(state, changes, &dest);
    put(changes, dest, had + amount)?;
    Ok(())
}

/// The changes in the order of their addresses.
pub(crate) fn holdings_of(alloc: Global, changes: &Changes) -> Result<Vec<Holding>, NoMemory>
    ensures { IfOk result (λ v. v.items ≡ map holding_of changes.now.entries) }
{
    changes
        .iter()
        .map(|(address, amount)| Holding {
            address: *address,
            amount: *amount,
        })
        .collect(alloc)
}
