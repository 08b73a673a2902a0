//! Writing a state's file.

ghost use Rattle.std.specs.Prelude.{◌≡◌, ◌<◌, ◌≤◌, ◌^◌, ◌++◌, IfOk, IsTrue, OnOk};
ghost use Rattle.std.specs.FinMap.{len};
ghost use Rattle.value_core.specs.Depth.{depth_of};
ghost use Rattle.value_core.specs.Sound.{is_plain};
ghost use Rattle.value_codec.specs.Spelling.{IsSpelt};
ghost use Rattle.michelson_reader.specs.Printed.{script_text};
ghost use Rattle.michelson_reader.specs.Script.{IsScriptOf};
ghost use Rattle.cell_names.specs.Spelling.{CanBeSpelt, IsCell};
ghost use Rattle.code_book.specs.Books.{IsListed};
ghost use Rattle.ledger_state.specs.Spelling.{AreSpelt, AreWritable, CanBeStored, spell_book, spell_cells, spell_contract, spell_held, spelling};

use crate::state::State;
use cell_blocks::Row;
use cell_names::{NoMemory, write_cell};
use code_book::Book;
use ledger_cells::Cells;
use michelson_code::Typed;
use michelson_reader::print_script;
use std::alloc::Global;
use value_codec::{ANY_VALUE, write_val};
use value_core::Address;

/// The one spelling of a state of fewer than 2^32 cells.
pub fn write_state(alloc: Global, s: &State) -> Result<Vec<u8>, NoMemory>
    requires { len s.now.cells < 2 ^ 32 }
    ensures written { IfOk result (λ file. file.items ≡ spelling s.now) }
    // So `read_state` reads it again.
    ensures again { IfOk result (λ _. CanBeStored s.now) }
{
    let cells = s.cells();
    let head = s.head();
    let mut out = Vec::new(alloc);
    out.extend_from_slice(b"FJS1")?;
    out.extend_from_slice(&head.level.to_be_bytes())?;
    out.extend_from_slice(&head.now.to_be_bytes())?;
    put_book(alloc, s.book(), &mut out)?;
    put_cells(alloc, cells, &mut out)?;
    Ok(out)
}

/// The number of contracts, then each with its script.
pub fn put_book(alloc: Global, book: &Book, out: &mut Vec<u8>) -> Result<(), NoMemory>
    ensures written { OnOk result (out.new.items ≡ out.old.items ++ spell_book book.now) }
    ensures again { OnOk result (AreWritable book.now) }
{
    let count = book.len();
    out.extend_from_slice(&(count as u32).to_be_bytes())?;
    let mut last: Option<Address> = None;
    for _ in 0..count {
        match book.after(last.as_ref()) {
            Some((address, typed)) => {
                put_contract(alloc, address, typed, out)?;
                last = Some(*address);
            }
            None => return Ok(()),
        }
    }
    Ok(())
}

fn put_contract(
    alloc: Global,
    address: &Address,
    typed: &Typed,
    out: &mut Vec<u8>,
) -> Result<(), NoMemory>
    requires { IsListed address.now typed.now.script }
    ensures written { OnOk result (out.new.items
        ≡ out.old.items ++ spell_contract (address.now, typed.now.script)) }
    ensures again { OnOk result (IsScriptOf (script_text typed.now.script) typed.now.script) }
{
    let text = print_script(alloc, typed.script())?;
    out.extend_from_slice(address.bytes().as_slice())?;
    out.extend_from_slice(&(text.len() as u32).to_be_bytes())?;
    out.extend_from_slice(&text)
}

/// The number of cells, then each with its value.
fn put_cells(alloc: Global, cells: &Cells, out: &mut Vec<u8>) -> Result<(), NoMemory>
    requires { len cells.now.cells < 2 ^ 32 }
    ensures written { OnOk result (out.new.items ≡ out.old.items ++ spell_cells cells.now.cells) }
    ensures again { OnOk result (AreSpelt cells.now.cells) }
{
    let count = cells.len();
    out.extend_from_slice(&(count as u32).to_be_bytes())?;
    let mut walk = cells.walk();
    while let Some(row) = walk.next() {
        put_row(alloc, &row, out)?;
    }
    Ok(())
}

fn put_row(alloc: Global, row: &Row, out: &mut Vec<u8>) -> Result<(), NoMemory>
    requires cell { CanBeSpelt row.now.0 }
    requires plain { IsTrue (is_plain row.now.1) }
    requires deep { depth_of row.now.1 ≤ 128 }
    ensures written { OnOk result (out.new.items ≡ out.old.items ++ spell_held row.now) }
    ensures cell { OnOk result (IsCell row.now.0) }
    ensures value { OnOk result (IsSpelt ANY_VALUE 128 row.now.1) }
{
    write_cell(alloc, row.cell(), out)?;
    write_val(alloc, row.value(), out)
}
