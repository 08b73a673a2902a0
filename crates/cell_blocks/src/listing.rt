//! One block at a time: how many cells it has, whether two are the same, and equal ones.

ghost use Rattle.std.specs.Prelude.{◌≡◌, ◌<◌, ◌≤◌, ◌^◌, ◌↔◌, length, IsTrue, IfOk};

use crate::holding::Holding;
use cell_names::{Cell, NoMemory};
use std::alloc::Global;
use value_core::Val;

fn same_holding(a: &Holding, b: &Holding) -> bool
    ensures { IsTrue result ↔ (a.now ≡ b.now) }
{
    *a == *b
}

/// Whether they are the same balances.
pub(crate) fn same_balances(a: &[Holding], b: &[Holding]) -> bool
    ensures { IsTrue result ↔ (a.now ≡ b.now) }
{
    if a.len() != b.len() {
        return false;
    }
    for i in 0..a.len() {
        if !same_holding(&a[i], &b[i]) {
            return false;
        }
    }
    true
}

/// Whether they are the same cells with the same values.
pub(crate) fn same_others(a: &[(Cell, Val)], b: &[(Cell, Val)]) -> bool
    ensures { IsTrue result ↔ (a.now ≡ b.now) }
{
    if a.len() != b.len() {
        return false;
    }
    for i in 0..a.len() {
        if !(a[i].0.same(&b[i].0) && a[i].1.same(&b[i].1)) {
            return false;
        }
    }
    true
}

/// Room for as many cells.
fn capacity(others: &[(Cell, Val)]) -> usize
    ensures { result ≤ length others.now }
{
    others.len()
}

/// Equal cells with equal values.
pub(crate) fn copy_others(
    alloc: Global,
    others: &[(Cell, Val)],
) -> Result<Vec<(Cell, Val)>, NoMemory>
    ensures { IfOk result (λ copied. copied.items ≡ others.now) }
{
    let mut copied = Vec::with_capacity(alloc, capacity(others))?;
    for other in others {
        copied.push((other.0.copy(alloc)?, other.1.copy(alloc)?))?;
    }
    Ok(copied)
}

/// How many balances there are. Each takes some bytes, so they are fewer than addresses in memory.
pub(crate) fn count_balances(row: &[Holding]) -> usize
    ensures length { result ≡ length row.now }
    ensures small { result < 2 ^ 62 }
{
    row.len()
}

/// How many other cells there are, which are few for the same reason.
pub(crate) fn count_others(row: &[(Cell, Val)]) -> usize
    ensures length { result ≡ length row.now }
    ensures small { result < 2 ^ 62 }
{
    row.len()
}
