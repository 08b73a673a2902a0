//! What accesses and their undos leave, in which order cells are told, and each refusal once.

ghost use Rattle.std.specs.Prelude.{◌≡◌, true, IfOk, IsTrue};
ghost use Rattle.cell_names.specs.Conditions.{CanUndo, IsCovered};
ghost use Rattle.code_book.specs.Fits.{fits_undo};

use crate::changes::copy_value;
use crate::{AddEnd, Cells};
use cell_names::{Access, Cell, NoMemory, Reply, Store, Undo};
use code_book::Book;
use michelson_code::{Instr, Script, Typed, the_counter_is_typed};
use sqlite_items::Items;
use std::alloc::{AllocError, Global};
use std::test::Fail;
use value_core::{Address, Num, Ty, Val};

// An implicit account's address where the first byte is 0, and a contract's where it is 1.
fn address(first: u8, last: u8) -> Result<Address, Fail> {
    let mut bytes = [0; 22];
    bytes[0] = first;
    bytes[21] = last;
    Ok(Address::from_bytes(&bytes).ok().ok_or("no address")?)
}

fn balance(last: u8) -> Result<Cell, Fail> {
    Ok(Cell::Balance(address(0, last)?))
}

fn storage(last: u8) -> Result<Cell, Fail> {
    Ok(Cell::Storage(address(1, last)?))
}

fn number(n: i128) -> Result<Val, Fail> {
    Ok(Val::Int(Num::new(n).ok_or("no number")?))
}

// `parameter int ; storage int ; code { UNPAIR ; ADD ; NIL operation ; PAIR }`
fn counter(alloc: Global) -> Result<Typed, AllocError> {
    let mut code = Items::new(alloc);
    code.push(Instr::Unpair)?;
    code.push(Instr::Add)?;
    code.push(Instr::Nil(Ty::Operation))?;
    code.push(Instr::Pair)?;
    let script = Script {
        param: Ty::Int,
        names: Items::new(alloc),
        storage: Ty::Int,
        code,
    };
    the_counter_is_typed();
    Ok(Typed::new(script))
}

// The cells of a ledger with the contract 01..01.
fn no_cells(alloc: Global) -> Result<Cells, Fail> {
    let mut book = Book::new(alloc);
    book.add(alloc, address(1, 1)?, counter(alloc)?)
        .ok()
        .ok_or("not added")?;
    Ok(Cells::new(alloc, &book)?)
}

fn add(alloc: Global, cells: &mut Cells, c: Cell, v: Val) -> Result<(), Fail> {
    match cells.add(alloc, c, v) {
        Ok(()) => Ok(()),
        Err(_) => Err(Fail::from("not added")),
    }
}

// Accounts 0a with 100 and 0c with 50, and the contract's storage, which is 5.
fn three(alloc: Global) -> Result<Cells, Fail> {
    let mut cells = no_cells(alloc)?;
    add(alloc, &mut cells, balance(0x0a)?, Val::Mutez(100))?;
    add(alloc, &mut cells, balance(0x0c)?, Val::Mutez(50))?;
    add(alloc, &mut cells, storage(1)?, number(5)?)?;
    Ok(cells)
}

fn is_covered(a: &Access, flight: u64) -> bool
    ensures { IsTrue result → IsCovered flight a.now }
{
    match a {
        Access::Credit(_, amount) => *amount <= flight,
        _ => true,
    }
}

// The access is done: its reply, and what takes it back.
fn done(alloc: Global, cells: &mut Cells, a: &Access) -> Result<(Reply, Undo), Fail> {
    if !cells.book().fits_access(a) {
        return Err(Fail::from("not fit"));
    }
    if !is_covered(a, cells.flight()) {
        return Err(Fail::from("not covered"));
    }
    match cells.access(alloc, a) {
        Ok(x) => Ok(x),
        Err(_) => Err(Fail::from("not done")),
    }
}

// Whether what the undo puts, or gives back, fits the book.
fn is_fit(alloc: Global, book: &Book, u: &Undo) -> Result<bool, NoMemory>
    ensures { IfOk result (λ fit. IsTrue fit → fits_undo book.now u.now ≡ true) }
{
    match u {
        Undo::Nothing => Ok(true),
        Undo::Put(c, value) => {
            let cell = c.copy(alloc)?;
            let value = copy_value(alloc, value)?;
            Ok(book.fits_access(&Access::Write(cell, value)))
        }
        Undo::Uncredit(_, _) => Ok(true),
        Undo::Undebit(address, amount) => Ok(book.fits_access(&Access::Credit(*address, *amount))),
    }
}

// Any store takes back what may be taken back.
fn take_back<S: Store>(store: &mut S, u: Undo)
    requires { CanUndo (S.seen store.old) u }
{
    store.undo(u);
}

// The access is done and taken back at once: its reply.
fn there_and_back(alloc: Global, cells: &mut Cells, a: &Access) -> Result<Reply, Fail> {
    if !cells.book().fits_access(a) {
        return Err(Fail::from("not fit"));
    }
    if !is_covered(a, cells.flight()) {
        return Err(Fail::from("not covered"));
    }
    let _lawful = cells.len();
    let Ok((reply, undo)) = cells.access(alloc, a) else {
        return Err(Fail::from("not done"));
    };
    let fit = is_fit(alloc, cells.book(), &undo)?;
    if !fit {
        return Err(Fail::from("not to be undone"));
    }
    take_back(cells, undo);
    Ok(reply)
}

fn has(cells: &Cells, last: u8) -> Result<Option<u64>, Fail> {
    match cells.get(&balance(last)?) {
        Some(value) => match value.get() {
            Val::Mutez(amount) => Ok(Some(*amount)),
            _ => Err(Fail::from("no amount")),
        },
        None => Ok(None),
    }
}

// Whether the access is answered so, and taken back so.
fn answers(
    alloc: Global,
    cells: &mut Cells,
    a: &Access,
    reply: &Reply,
    undo: &Undo,
) -> Result<bool, Fail> {
    let (is_reply, is_undo) = done(alloc, cells, a)?;
    Ok(is_reply.same(reply) && is_undo.same(undo))
}

// Whether an account has so much, and so much is in flight of 150 in all.
fn stands(cells: &Cells, last: u8, amount: Option<u64>, flight: u64) -> Result<bool, Fail> {
    let has = has(cells, last)?;
    Ok(has == amount && cells.flight() == flight && cells.supply() == 150)
}

#[test]
fn money_goes_through_the_flight(rt: HostRuntime) -> Result<(), Fail> {
    let alloc = rt.alloc();
    let mut cells = three(alloc)?;
    let (a, c) = (address(0, 0x0a)?, address(0, 0x0c)?);
    let debit = Access::Debit(a, 10);
    assert!(rt;
        answers(
            alloc,
            &mut cells,
            &debit,
            &Reply::Done,
            &Undo::Undebit(a, 10)
        )?
    );
    assert!(rt; stands(&cells, 0x0a, Some(90), 10)?);
    let credit = Access::Credit(c, 10);
    assert!(rt;
        answers(
            alloc,
            &mut cells,
            &credit,
            &Reply::Done,
            &Undo::Uncredit(c, 10)
        )?
    );
    assert!(rt; stands(&cells, 0x0c, Some(60), 0)?);
    let more = Access::Debit(a, 91);
    assert!(rt; answers(alloc, &mut cells, &more, &Reply::Low, &Undo::Nothing)?);
    let all = Access::Debit(a, 90);
    assert!(rt; answers(alloc, &mut cells, &all, &Reply::Done, &Undo::Undebit(a, 90))?);
    assert!(rt; stands(&cells, 0x0a, None, 90)?);
    Ok(())
}

#[test]
fn a_written_storage_is_read(rt: HostRuntime) -> Result<(), Fail> {
    let alloc = rt.alloc();
    let mut cells = three(alloc)?;
    let write = Access::Write(storage(1)?, Some(number(7)?));
    let undo = Undo::Put(storage(1)?, Some(number(5)?));
    assert!(rt; answers(alloc, &mut cells, &write, &Reply::Done, &undo)?);
    let read = Access::Read(storage(1)?);
    let value = Reply::Value(Some(number(7)?));
    assert!(rt; answers(alloc, &mut cells, &read, &value, &Undo::Nothing)?);
    Ok(())
}

#[test]
fn what_is_taken_back_leaves_no_trace(rt: HostRuntime) -> Result<(), Fail> {
    let alloc = rt.alloc();
    let mut cells = three(alloc)?;
    let told = cells.copy(alloc)?;
    let _debited = there_and_back(alloc, &mut cells, &Access::Debit(address(0, 0x0a)?, 100))?;
    assert!(rt; cells.same(&told));
    let write = Access::Write(storage(1)?, Some(number(7)?));
    let _written = there_and_back(alloc, &mut cells, &write)?;
    assert!(rt; cells.same(&told));
    let _in_flight = done(alloc, &mut cells, &Access::Debit(address(0, 0x0a)?, 40))?;
    let told = cells.copy(alloc)?;
    let _credited = there_and_back(alloc, &mut cells, &Access::Credit(address(0, 0x0b)?, 30))?;
    assert!(rt; cells.same(&told));
    Ok(())
}

#[test]
fn each_refusal_is_told_in_its_order(rt: HostRuntime) -> Result<(), Fail> {
    let alloc = rt.alloc();
    let mut cells = three(alloc)?;
    let most = (1u64 << 63) - 1 - 150;
    assert!(rt; cells.add(alloc, balance(1)?, Val::Mutez(0)) == Err(AddEnd::Misfit));
    assert!(rt; cells.add(alloc, balance(0x0a)?, Val::Mutez(1)) == Err(AddEnd::Twice));
    assert!(rt; cells.add(alloc, balance(1)?, Val::Mutez(most + 1)) == Err(AddEnd::TooMuch));
    assert!(rt; cells.add(alloc, balance(1)?, Val::Mutez(most)) == Ok(()));
    assert!(rt; cells.len() == 4);
    Ok(())
}

// Whether these are all cells, in this order.
fn are_told(cells: &Cells, wanted: &[Cell]) -> bool {
    let mut walk = cells.walk();
    for cell in wanted {
        match walk.next() {
            Some(row) => {
                if !row.cell().same(cell) {
                    return false;
                }
            }
            None => return false,
        }
    }
    walk.next().is_none()
}

fn comes_after(cells: &Cells, given: Option<&Cell>, wanted: &Cell) -> bool {
    match cells.after(given) {
        Some(row) => row.cell().same(wanted),
        None => false,
    }
}

#[test]
fn cells_are_told_in_order_and_settled(rt: HostRuntime) -> Result<(), Fail> {
    let alloc = rt.alloc();
    let mut cells = three(alloc)?;
    add(alloc, &mut cells, balance(0x0b)?, Val::Mutez(20))?;
    let _in_flight = done(alloc, &mut cells, &Access::Debit(address(0, 0x0a)?, 100))?;
    let wanted = [balance(0x0b)?, balance(0x0c)?, storage(1)?];
    assert!(rt; are_told(&cells, &wanted));
    assert!(rt; comes_after(&cells, None, &wanted[0]));
    assert!(rt; comes_after(&cells, Some(&wanted[0]), &wanted[1]));
    assert!(rt; cells.after(Some(&wanted[2])).is_none());
    let told = cells.copy(alloc)?;
    cells.settle(alloc)?;
    assert!(rt; cells.same(&told) && are_told(&cells, &wanted));
    Ok(())
}
