ghost use Rattle.cell_names.specs.Spelling.{IsCell, IsFootprint};

use crate::{
    Access, Cell, Footprint, Mode, Reply, StoreEnd, Undo, amount_in, conflict, join, order,
    read_cell, read_footprint, write_cell, write_footprint,
};
use byte_fields::{At, FieldFault};
use std::alloc::Global;
use std::cmp::Ordering;
use std::test::Fail;
use value_core::{Address, Val, some};

// The kinds of cells and the modes, as docs/FORMATS.md numbers them.
const BALANCE: u8 = 0x00;

const STORAGE: u8 = 0x01;

const ENTRY: u8 = 0x02;

// The tags of values that are used here.
const TRUE: u8 = 0x02;

const SOME: u8 = 0x0b;

const LIST: u8 = 0x0f;

const CREDIT: u8 = 0x01;

const OWN: u8 = 0x02;

// The places of the fields in a footprint of two cells.
const COUNT: usize = 0;

const FIRST: usize = COUNT + 4;

const FIRST_ADDRESS: usize = FIRST + 1;

const FIRST_MODE: usize = FIRST_ADDRESS + 22;

const SECOND: usize = FIRST_MODE + 1;

const SECOND_ADDRESS: usize = SECOND + 1;

const SECOND_MODE: usize = SECOND_ADDRESS + 22;

const END: usize = SECOND_MODE + 1;

// The address of an implicit account: the byte 00, twenty bytes 00 and a last byte.
fn address(last: u8) -> [u8; 22] {
    let mut bytes = [0; 22];
    bytes[21] = last;
    bytes
}

fn account(last: u8) -> Result<Cell, Fail> {
    let bytes = address(last);
    Ok(Cell::Balance(Address::from_bytes(&bytes).ok().ok_or("no address")?))
}

fn footprint(alloc: Global, touches: &[(u8, Mode)]) -> Result<Footprint, Fail> {
    let mut made = Footprint::new(alloc);
    for touch in touches {
        made.touch(alloc, &account(touch.0)?, touch.1)?;
    }
    Ok(made)
}

#[test]
fn modes_share_and_join(rt: HostRuntime) {
    assert!(rt; !conflict(Mode::Read, Mode::Read));
    assert!(rt; !conflict(Mode::Credit, Mode::Credit));
    assert!(rt; conflict(Mode::Read, Mode::Credit));
    assert!(rt; conflict(Mode::Own, Mode::Own));
    assert!(rt; matches!(join(Mode::Credit, Mode::Credit), Mode::Credit));
    assert!(rt; matches!(join(Mode::Read, Mode::Credit), Mode::Own));
}

#[test]
fn a_second_touch_joins_the_mode(rt: HostRuntime) -> Result<(), Fail> {
    let made = footprint(
        rt.alloc(),
        &[(12, Mode::Credit), (10, Mode::Read), (12, Mode::Own)],
    )?;
    assert_eq!(rt; made.len(), 2);
    assert!(rt; matches!(made.get(&account(10)?), Some(Mode::Read)));
    assert!(rt; matches!(made.get(&account(12)?), Some(Mode::Own)));
    assert!(rt; made.get(&account(11)?).is_none());
    let (first, _) = made.at(0).ok_or("no first cell")?;
    assert!(rt; first.same(&account(10)?));
    assert!(rt; order(first, &account(12)?) == Ordering::Less);
    assert!(rt; made.copy(rt.alloc())?.same(&made));
    Ok(())
}

// Fields, one after another.
fn joined(alloc: Global, fields: &[&[u8]]) -> Result<Vec<u8>, Fail> {
    let mut bytes = Vec::new(alloc);
    for field in fields {
        bytes.extend_from_slice(field)?;
    }
    Ok(bytes)
}

// The bytes of a transfer's footprint: the source owned, the destination credited.
fn transfer(alloc: Global) -> Result<Vec<u8>, Fail> {
    joined(
        alloc,
        &[
            &2u32.to_be_bytes(),
            &[BALANCE],
            &address(10),
            &[OWN],
            &[BALANCE],
            &address(11),
            &[CREDIT],
        ],
    )
}

// What is written of a footprint that was read.
fn footprint_bytes(alloc: Global, touches: &Footprint) -> Result<Vec<u8>, Fail>
    requires { IsFootprint touches.now }
{
    let mut out = Vec::new(alloc);
    write_footprint(alloc, touches, &mut out)?;
    Ok(out)
}

// Whether the bytes are the footprint's, read and written.
fn spell_all(alloc: Global, bytes: &[u8], touches: &Footprint) -> Result<bool, Fail> {
    match read_footprint(alloc, bytes, 0) {
        Ok((read, end)) => {
            let written = footprint_bytes(alloc, &read)?;
            Ok(end == bytes.len() && read.same(touches) && written.as_slice() == bytes)
        }
        Err(_) => Ok(false),
    }
}

#[test]
fn a_footprint_is_written_and_read(rt: HostRuntime) -> Result<(), Fail> {
    let bytes = transfer(rt.alloc())?;
    let made = footprint(rt.alloc(), &[(11, Mode::Credit), (10, Mode::Own)])?;
    assert_eq!(rt; bytes.len(), END);
    assert!(rt; spell_all(rt.alloc(), &bytes, &made)?);
    Ok(())
}

fn entry(alloc: Global, last: u8, place: u8) -> Result<Cell, Fail> {
    let bytes = address(last);
    let owner = Address::from_bytes(&bytes).ok().ok_or("no address")?;
    Ok(Cell::Entry(owner, place, some(alloc, Val::Bool(true))?))
}

fn storage(last: u8) -> Result<Cell, Fail> {
    let bytes = address(last);
    Ok(Cell::Storage(Address::from_bytes(&bytes).ok().ok_or("no address")?))
}

// What is written of a cell that was read.
fn cell_bytes(alloc: Global, cell: &Cell) -> Result<Vec<u8>, Fail>
    requires { IsCell cell.now }
{
    let mut out = Vec::new(alloc);
    write_cell(alloc, cell, &mut out)?;
    Ok(out)
}

// Whether the bytes are the cell's, read and written.
fn spell(alloc: Global, bytes: &[u8], cell: &Cell) -> Result<bool, Fail> {
    match read_cell(alloc, bytes, 0) {
        Ok((read, end)) => {
            let written = cell_bytes(alloc, &read)?;
            Ok(end == bytes.len() && read.same(cell) && written.as_slice() == bytes)
        }
        Err(_) => Ok(false),
    }
}

#[test]
fn a_cell_of_each_kind_is_written_and_read(rt: HostRuntime) -> Result<(), Fail> {
    let alloc = rt.alloc();
    let owner = address(10);
    let bytes = joined(alloc, &[&[BALANCE], &owner])?;
    assert!(rt; spell(alloc, &bytes, &account(10)?)?);
    let bytes = joined(alloc, &[&[STORAGE], &owner])?;
    assert!(rt; spell(alloc, &bytes, &storage(10)?)?);
    let bytes = joined(alloc, &[&[ENTRY], &owner, &[15, SOME, TRUE]])?;
    assert!(rt; spell(alloc, &bytes, &entry(alloc, 10, 15)?)?);
    Ok(())
}

#[test]
fn cells_go_by_kind_then_address_then_place_then_key(rt: HostRuntime) -> Result<(), Fail> {
    let alloc = rt.alloc();
    let cells = [
        account(12)?,
        storage(11)?,
        entry(alloc, 10, 7)?,
        entry(alloc, 10, 8)?,
        entry(alloc, 11, 0)?,
    ];
    for i in 0..4 {
        assert!(rt; order(&cells[i], &cells[i + 1]) == Ordering::Less);
        assert!(rt; cells[i].copy(alloc)?.same(&cells[i]));
        assert!(rt; !cells[i].same(&cells[i + 1]));
    }
    Ok(())
}

// What is told of an entry's cell with another byte at the place.
fn entry_told(alloc: Global, at: usize, byte: u8) -> Result<Option<FieldFault>, Fail> {
    let mut bytes = joined(alloc, &[&[ENTRY], &address(10), &[0, SOME, TRUE]])?;
    if at >= bytes.len() {
        return Err(Fail::from("no such byte"));
    }
    bytes[at] = byte;
    Ok(read_cell(alloc, &bytes, 0).err())
}

#[test]
fn each_fault_of_an_entry_is_told_at_its_field(rt: HostRuntime) -> Result<(), Fail> {
    // The byte that is changed, what it becomes, and what it is then.
    let faults: [(usize, u8, &str); 5] = [
        (0, 3, "a cell of no kind"),
        (1, 2, "no address"),
        (23, 16, "no place"),
        (24, LIST, "a key that is a list"),
        (25, LIST, "a key with a list in it"),
    ];
    for (at, byte, case) in faults {
        // The address begins at its first byte, so each fault is told where the byte is changed.
        let fault = entry_told(rt.alloc(), at, byte)?;
        assert!(rt; fault == Some(FieldFault::At(At(at))), "{case}");
    }
    Ok(())
}

#[test]
fn accesses_and_what_they_give_are_copied(rt: HostRuntime) -> Result<(), Fail> {
    let alloc = rt.alloc();
    let bytes = address(10);
    let owner = Address::from_bytes(&bytes).ok().ok_or("no address")?;
    let write = Access::Write(entry(alloc, 10, 0)?, Some(Val::Mutez(5)));
    assert!(rt; write.copy(alloc)?.same(&write));
    assert!(rt; !write.same(&Access::Read(entry(alloc, 10, 0)?)));
    assert!(rt; !Access::Credit(owner, 5).same(&Access::Debit(owner, 5)));
    let reply = Reply::Value(Some(Val::Mutez(5)));
    assert!(rt; reply.copy(alloc)?.same(&reply));
    assert!(rt; !reply.same(&Reply::Low));
    let undo = Undo::Put(storage(10)?, None);
    assert!(rt; undo.copy(alloc)?.same(&undo));
    assert!(rt; !Undo::Uncredit(owner, 5).same(&Undo::Undebit(owner, 5)));
    let end = StoreEnd::Outside(storage(10)?);
    assert!(rt; end.copy(alloc)?.same(&end));
    assert!(rt; !end.same(&StoreEnd::NoMemory));
    Ok(())
}

#[test]
fn what_stands_in_a_cell_tells_reply_and_undo(rt: HostRuntime) -> Result<(), Fail> {
    let alloc = rt.alloc();
    let bytes = address(10);
    let owner = Address::from_bytes(&bytes).ok().ok_or("no address")?;
    let held = Some(Val::Mutez(5));
    assert_eq!(rt; amount_in(&held), 5);
    assert_eq!(rt; amount_in(&None), 0);
    let (all, more) = (Access::Debit(owner, 5), Access::Debit(owner, 6));
    assert!(rt; all.reply(alloc, &held)?.same(&Reply::Done));
    assert!(rt; all.undo(alloc, &held)?.same(&Undo::Undebit(owner, 5)));
    assert!(rt; more.reply(alloc, &held)?.same(&Reply::Low));
    assert!(rt; more.undo(alloc, &held)?.same(&Undo::Nothing));
    let credit = Access::Credit(owner, 3);
    assert!(rt; credit.reply(alloc, &held)?.same(&Reply::Done));
    assert!(rt; credit.undo(alloc, &held)?.same(&Undo::Uncredit(owner, 3)));
    let write = Access::Write(storage(10)?, Some(Val::Unit));
    assert!(rt;
        write
            .undo(alloc, &None)?
            .same(&Undo::Put(storage(10)?, None))
    );
    let read = Access::Read(account(10)?);
    assert!(rt;
        read.reply(alloc, &held)?
            .same(&Reply::Value(Some(Val::Mutez(5))))
    );
    assert!(rt; read.undo(alloc, &held)?.same(&Undo::Nothing));
    Ok(())
}

#[test]
fn a_footprint_of_256_cells_is_written_and_read(rt: HostRuntime) -> Result<(), Fail> {
    let mut made = Footprint::new(rt.alloc());
    let mut bytes = Vec::from_slice(rt.alloc(), &256u32.to_be_bytes())?;
    for last in 0..=255u8 {
        made.touch(rt.alloc(), &account(last)?, Mode::Own)?;
        bytes.push(BALANCE)?;
        bytes.extend_from_slice(&address(last))?;
        bytes.push(OWN)?;
    }
    assert_eq!(rt; made.len(), 256);
    assert!(rt; spell_all(rt.alloc(), &bytes, &made)?);
    Ok(())
}

// What is told of a transfer's footprint with another byte at the place.
fn told(alloc: Global, at: usize, byte: u8) -> Result<Option<FieldFault>, Fail> {
    let mut bytes = transfer(alloc)?;
    if at >= bytes.len() {
        return Err(Fail::from("no such byte"));
    }
    bytes[at] = byte;
    Ok(read_footprint(alloc, &bytes, COUNT).err())
}

#[test]
fn each_fault_is_told_at_its_field(rt: HostRuntime) -> Result<(), Fail> {
    // The byte that is changed, what it becomes, and the place that is told.
    let faults: [(usize, u8, usize, &str); 6] = [
        (COUNT + 2, 1, COUNT, "258 cells"),
        (FIRST, 3, FIRST, "a cell of no kind"),
        (FIRST_ADDRESS, 2, FIRST_ADDRESS, "no address"),
        (FIRST_MODE, 3, FIRST_MODE, "a fourth mode"),
        (SECOND_ADDRESS + 21, 10, SECOND, "the same cell again"),
        (SECOND_MODE, 9, SECOND_MODE, "no mode"),
    ];
    for (at, byte, place, case) in faults {
        let fault = told(rt.alloc(), at, byte)?;
        assert!(rt; fault == Some(FieldFault::At(At(place))), "{case}");
    }
    Ok(())
}
