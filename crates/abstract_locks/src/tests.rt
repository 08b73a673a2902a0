use crate::{Asked, LockTable};
use cell_names::{Cell, Mode};
use std::alloc::Global;
use std::test::Fail;
use value_core::Address;

// The balance of the implicit account whose address ends in this byte.
fn account(last: u8) -> Result<Cell, Fail> {
    let mut bytes = [0; 22];
    bytes[21] = last;
    Ok(Cell::Balance(Address::from_bytes(&bytes).ok().ok_or("no address")?))
}

fn held(by: u32, mode: Mode) -> Asked {
    Asked::Held { by, mode }
}

// Asks for one cell, ticket by ticket, and compares each answer.
fn asks(
    alloc: Global,
    locks: &mut LockTable,
    c: &Cell,
    table: &[(u32, Mode, Asked)],
) -> Result<bool, Fail> {
    for (ticket, mode, wanted) in table {
        if locks.ask(alloc, *ticket, c, *mode)? != *wanted {
            return Ok(false);
        }
    }
    Ok(true)
}

#[test]
fn creditors_share_a_cell_and_the_least_is_named(rt: HostRuntime) -> Result<(), Fail> {
    let mut locks = LockTable::new(rt.alloc());
    let table = [
        (7, Mode::Credit, Asked::Granted),
        (3, Mode::Credit, Asked::Granted),
        (9, Mode::Credit, Asked::Granted),
        (5, Mode::Read, held(3, Mode::Credit)),
        (3, Mode::Read, held(7, Mode::Credit)),
    ];
    assert!(rt; asks(rt.alloc(), &mut locks, &account(1)?, &table)?);
    Ok(())
}

#[test]
fn one_ticket_joins_what_it_holds_and_keeps_it_until_its_release(
    rt: HostRuntime,
) -> Result<(), Fail> {
    let mut locks = LockTable::new(rt.alloc());
    let before = [
        (4, Mode::Read, Asked::Granted),
        (4, Mode::Credit, Asked::Granted),
        (4, Mode::Own, Asked::Granted),
        (2, Mode::Credit, held(4, Mode::Own)),
    ];
    assert!(rt; asks(rt.alloc(), &mut locks, &account(1)?, &before)?);
    assert!(rt;
        asks(
            rt.alloc(),
            &mut locks,
            &account(2)?,
            &[(4, Mode::Own, Asked::Granted)]
        )?
    );
    locks.release(4);
    let after = [(2, Mode::Own, Asked::Granted)];
    assert!(rt; asks(rt.alloc(), &mut locks, &account(1)?, &after)?);
    assert!(rt; asks(rt.alloc(), &mut locks, &account(2)?, &after)?);
    Ok(())
}

#[test]
fn a_reserved_place_holds_nothing_until_it_is_granted(rt: HostRuntime) -> Result<(), Fail> {
    let mut locks = LockTable::new(rt.alloc());
    let c = account(1)?;
    match locks.test(1, &c, Mode::Own) {
        Asked::Granted => {
            locks.reserve(rt.alloc(), 1, &c)?;
            assert!(rt; locks.test(2, &c, Mode::Own) == Asked::Granted);
            locks.grant(1, &c, Mode::Own);
            assert!(rt; locks.test(2, &c, Mode::Read) == held(1, Mode::Own));
            Ok(())
        }
        Asked::Held { .. } => Err(Fail::from("an empty table holds a cell")),
    }
}
