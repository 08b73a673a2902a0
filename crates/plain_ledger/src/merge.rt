//! Where an address stands among holdings, and holdings with changes put in.

ghost use Rattle.std.specs.Prelude.{◌≡◌, ◌+◌, ◌≤◌, ◌++◌, ◌↔◌, length, take, drop, map, IsTrue, IfOk, OnOk};
ghost use Rattle.std.specs.List.{list_all};
ghost use Rattle.std.specs.FinMap.{entries};
ghost use Rattle.plain_ledger.specs.Ledger.{Ascends, changed, pair};
ghost use Rattle.plain_ledger.specs.Holdings.{balances_of, first_amount, is_below, is_not_below, kept, without};

use crate::holding::Holding;
use cell_names::NoMemory;
use std::alloc::Global;
use value_core::Address;

/// How many holdings stand below the address.
pub fn place_in(holdings: &[Holding], address: &Address) -> usize
    requires { Ascends holdings.now }
    ensures within { result ≤ length holdings.now }
    ensures below { IsTrue (list_all (is_below address.now) (take result holdings.now)) }
    ensures others { IsTrue (list_all (is_not_below address.now) (drop result holdings.now)) }
{
    holdings.partition_point(|holding| holding.address < *address)
}

/// What the first holding has, where that is the address's.
pub fn amount_in(holdings: &[Holding], address: &Address) -> u64
    ensures { result ≡ first_amount address.now holdings.now }
{
    match holdings.split_first() {
        Some((first, _)) if first.address == *address => first.amount,
        _ => 0,
    }
}

/// The holdings without the first, where that is the address's.
fn past<'a>(holdings: &'a [Holding], address: &Address) -> &'a [Holding]
    ensures { result.now ≡ without address.now holdings.now }
{
    match holdings.split_first() {
        Some((first, others)) if first.address == *address => others,
        _ => holdings,
    }
}

fn same_holding(a: &Holding, b: &Holding) -> bool
    ensures { IsTrue result ↔ (a.now ≡ b.now) }
{
    *a == *b
}

/// Whether they are the same holdings.
pub fn same_holdings(a: &[Holding], b: &[Holding]) -> bool
    ensures { IsTrue result ↔ (a.now ≡ b.now) }
{
    if a.len() != b.len() {
        return false;
    }
    for i in 0..a.len() {
        if !same_holding(&a[i], &b[i]) {
            return false;
        }
    }
    true
}

/// Appends a holding that is not 0.
fn put(out: &mut Vec<Holding>, holding: &Holding) -> Result<(), NoMemory>
    ensures { OnOk result (out.new.items ≡ out.old.items ++ kept holding.now) }
{
    if holding.amount != 0 {
        out.push(*holding)?;
    }
    Ok(())
}

/// Room for all holdings and all changes, which is the most that can stand at the end.
fn capacity(holdings: &[Holding], changes: &[Holding]) -> usize
    ensures { result ≤ length holdings.now + length changes.now }
{
    holdings.len().saturating_add(changes.len())
}

/// The holdings, where each account that is changed has what its change says.
pub fn merged(
    alloc: Global,
    holdings: &[Holding],
    changes: &[Holding],
) -> Result<Vec<Holding>, NoMemory>
    requires holdings { Ascends holdings.now }
    requires changes { Ascends changes.now }
    ensures { IfOk result (λ v. map pair v.items
        ≡ entries (changed (balances_of holdings.now) changes.now)) }
{
    let mut out = Vec::with_capacity(alloc, capacity(holdings, changes))?;
    let mut rest = holdings;
    for change in changes {
        let (front, back) = rest.split_at(place_in(rest, &change.address));
        out.extend_from_slice(front)?;
        put(&mut out, change)?;
        rest = past(back, &change.address);
    }
    out.extend_from_slice(rest)?;
    Ok(out)
}
