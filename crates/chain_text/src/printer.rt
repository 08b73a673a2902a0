//! The text of a state.

ghost use Rattle.std.specs.Prelude.{◌≡◌, ◌++◌, IfOk, OnOk};
ghost use Rattle.std.specs.FinMap.{entries, get};
ghost use Rattle.std.specs.Fmt.{decimal};
ghost use Rattle.std.specs.List.{flat_map};
ghost use Rattle.cell_names.specs.declared.cell.Cell.TheVariants as named;
ghost use Rattle.cell_names.specs.Contents.{amount_of, balance};
ghost use Rattle.chain_text.specs.Printed.{account_text, contract_text, genesis_text, head_text, storage_text};
ghost use Rattle.chain_text.specs.PrintedLines.{balance_text};

use crate::addresses::{is_implicit, put_address};
use crate::entries::Entries;
use cell_blocks::Row;
use cell_names::{Cell, NoMemory};
use code_book::Book;
use data_nodes::{print_data, storage_data};
use ledger_cells::Cells;
use ledger_state::State;
use michelson_code::Typed;
use michelson_reader::print_script;
use std::alloc::Global;
use value_core::{Address, Val};

/// The text of a state.
pub fn print_genesis(alloc: Global, s: &State) -> Result<Vec<u8>, NoMemory>
    ensures { IfOk result (λ text. text.items ≡ genesis_text s.now) }
{
    let head = s.head();
    let mut out = Vec::new(alloc);
    out.extend_from_slice(b"level ")?;
    put_number(alloc, u64::from(head.level), &mut out)?;
    out.extend_from_slice(b"\nnow ")?;
    put_number(alloc, head.now, &mut out)?;
    out.push(b'\n')?;
    put_accounts(alloc, s.cells(), &mut out)?;
    put_contracts(alloc, s.book(), s.cells(), &mut out)?;
    Ok(out)
}

/// The balances of implicit accounts, each in a line.
fn put_accounts(alloc: Global, cells: &Cells, out: &mut Vec<u8>) -> Result<(), NoMemory>
    ensures { OnOk result (out.new.items
        ≡ out.old.items ++ flat_map account_text (entries cells.now.cells)) }
{
    let mut walk = cells.walk();
    while let Some(row) = walk.next() {
        put_account(alloc, &row, out)?;
    }
    Ok(())
}

/// The line of an implicit account's balance, and nothing for other cells.
fn put_account(alloc: Global, row: &Row, out: &mut Vec<u8>) -> Result<(), NoMemory>
    ensures { OnOk result (out.new.items ≡ out.old.items ++ account_text row.now) }
{
    match row.cell() {
        Cell::Balance(address) if is_implicit(address) => {
            put_balance(alloc, address, amount_of(row.value()), out)
        }
        _ => Ok(()),
    }
}

/// The line of a balance; one of 0 has none.
fn put_balance(
    alloc: Global,
    address: &Address,
    amount: u64,
    out: &mut Vec<u8>,
) -> Result<(), NoMemory>
    ensures { OnOk result (out.new.items ≡ out.old.items ++ balance_text address.now amount) }
{
    if amount == 0 {
        return Ok(());
    }
    out.extend_from_slice(b"balance ")?;
    put_address(alloc, address, out)?;
    out.push(b' ')?;
    put_number(alloc, amount, out)?;
    out.push(b'\n')?;
    Ok(())
}

/// The contracts, by address.
fn put_contracts(
    alloc: Global,
    book: &Book,
    cells: &Cells,
    out: &mut Vec<u8>,
) -> Result<(), NoMemory>
    ensures { OnOk result (out.new.items
        ≡ out.old.items ++ flat_map (contract_text cells.now.cells) (entries book.now)) }
{
    let count = book.len();
    let mut last: Option<Address> = None;
    let mut entries = Entries::new(cells);
    for _ in 0..count {
        match book.after(last.as_ref()) {
            Some((address, typed)) => {
                put_contract(alloc, address, typed, cells, out)?;
                let maps = entries.of(alloc, address)?;
                put_storage(alloc, address, cells, maps.as_slice(), out)?;
                last = Some(*address);
            }
            None => return Ok(()),
        }
    }
    Ok(())
}

/// A contract's line, its script up to `end`, and its balance.
fn put_contract(
    alloc: Global,
    address: &Address,
    typed: &Typed,
    cells: &Cells,
    out: &mut Vec<u8>,
) -> Result<(), NoMemory>
    ensures { OnOk result (out.new.items ≡ out.old.items
        ++ head_text cells.now.cells (address.now, typed.now.script)) }
{
    out.extend_from_slice(b"contract ")?;
    put_address(alloc, address, out)?;
    out.push(b'\n')?;
    let script = print_script(alloc, typed.script())?;
    out.extend_from_slice(script.as_slice())?;
    out.extend_from_slice(b"end\n")?;
    put_balance(alloc, address, balance_of(cells, address), out)
}

/// What an account has.
fn balance_of(cells: &Cells, address: &Address) -> u64
    ensures { result ≡ balance cells.now.cells address.now }
{
    match cells.get(&Cell::Balance(*address)) {
        Some(value) => amount_of(value.get()),
        None => 0,
    }
}

/// How much money a value is, and 0 where it is none.
fn amount_of(value: &Val) -> u64
    ensures { result ≡ amount_of value.now }
{
    match value {
        Val::Mutez(amount) => *amount,
        _ => 0,
    }
}

/// The line of a contract's storage, with the entries of its big maps in their places.
fn put_storage(
    alloc: Global,
    address: &Address,
    cells: &Cells,
    entries: &[(u8, Val, Val)],
    out: &mut Vec<u8>,
) -> Result<(), NoMemory>
    ensures { OnOk result (out.new.items ≡ out.old.items
        ++ storage_text address.now entries.now (get cells.now.cells (named.Storage address.now))) }
{
    let Some(storage) = cells.get(&Cell::Storage(*address)) else {
        return Ok(());
    };
    let written = storage_data(alloc, storage.get(), entries)?;
    let text = print_data(alloc, &written)?;
    out.extend_from_slice(b"storage ")?;
    put_address(alloc, address, out)?;
    out.push(b' ')?;
    out.extend_from_slice(text.as_slice())?;
    out.push(b'\n')?;
    Ok(())
}

/// The decimal digits of a number.
fn put_number(alloc: Global, n: u64, out: &mut Vec<u8>) -> Result<(), NoMemory>
    ensures { OnOk result (out.new.items ≡ out.old.items ++ decimal n) }
{
    let digits = n.to_string(alloc)?;
    out.extend_from_slice(digits.as_bytes())
}
