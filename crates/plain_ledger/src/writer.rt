//! Writing a ledger's file.

ghost use Rattle.std.specs.Prelude.{◌≡◌, ◌+◌, ◌*◌, ◌<◌, ◌≤◌, ◌^◌, ◌++◌, length, map, OnOk, IfOk};
ghost use Rattle.std.specs.List.{flat_map};
ghost use Rattle.std.specs.FinMap.{len};
ghost use Rattle.plain_ledger.specs.Ledger.{pair};
ghost use Rattle.plain_ledger.specs.Spelling.{cell, spelling};

use crate::holding::{CELL, Holding};
use crate::state::State;
use cell_names::NoMemory;
use std::alloc::Global;

/// Room for the fields in front and all cells.
fn capacity(holdings: &[Holding]) -> usize
    ensures { result ≤ 32 * length holdings.now + 24 }
{
    holdings.len().saturating_mul(CELL).saturating_add(24)
}

fn put_cell(out: &mut Vec<u8>, holding: &Holding) -> Result<(), NoMemory>
    ensures { OnOk result (out.new.items ≡ out.old.items ++ cell (pair holding.now)) }
{
    out.push(0)?;
    out.extend_from_slice(holding.address.bytes().as_slice())?;
    out.push(5)?;
    out.extend_from_slice(&holding.amount.to_be_bytes())?;
    Ok(())
}

fn put_cells(out: &mut Vec<u8>, holdings: &[Holding]) -> Result<(), NoMemory>
    ensures { OnOk result (out.new.items ≡ out.old.items ++ flat_map cell (map pair holdings.now)) }
{
    for holding in holdings {
        put_cell(out, holding)?;
    }
    Ok(())
}

/// The one spelling of a state.
pub fn write_state(alloc: Global, state: &State) -> Result<Vec<u8>, NoMemory>
    requires { len state.now.balances < 2 ^ 32 }
    ensures { IfOk result (λ v. v.items ≡ spelling state.now) }
{
    let head = state.head();
    let holdings = state.holdings();
    let mut out = Vec::with_capacity(alloc, capacity(holdings))?;
    out.extend_from_slice(b"FJS1")?;
    out.extend_from_slice(&head.level.to_be_bytes())?;
    out.extend_from_slice(&head.now.to_be_bytes())?;
    out.extend_from_slice(&0u32.to_be_bytes())?;
    out.extend_from_slice(&(holdings.len() as u32).to_be_bytes())?;
    put_cells(&mut out, holdings)?;
    Ok(out)
}
