//! Blocks of two balances, a storage and two entries.

use crate::{Blocks, Holding, Row};
use cell_names::Cell;
use std::alloc::Global;
use std::mem::size_of;
use std::test::Fail;
use value_core::{Address, Val};

// An implicit account's address where the first byte is 0, and a contract's where it is 1.
fn address(first: u8, last: u8) -> Result<Address, Fail> {
    let mut bytes = [0; 22];
    bytes[0] = first;
    bytes[21] = last;
    Ok(Address::from_bytes(&bytes).ok().ok_or("no address")?)
}

fn balance(last: u8) -> Result<Cell, Fail> {
    Ok(Cell::Balance(address(0, last)?))
}

fn storage(last: u8) -> Result<Cell, Fail> {
    Ok(Cell::Storage(address(1, last)?))
}

fn entry(last: u8, key: bool) -> Result<Cell, Fail> {
    Ok(Cell::Entry(address(1, last)?, 0, Val::Bool(key)))
}

fn add_balance(blocks: &mut Blocks, last: u8, amount: u64) -> Result<(), Fail> {
    let cell = Cell::Balance(address(0, last)?);
    if blocks.is_above_all(&cell) {
        blocks.push(cell, Val::Mutez(amount))?;
    }
    Ok(())
}

fn add_storage(blocks: &mut Blocks, last: u8, value: Val) -> Result<(), Fail> {
    let cell = Cell::Storage(address(1, last)?);
    if blocks.is_above_all(&cell) {
        blocks.push(cell, value)?;
    }
    Ok(())
}

fn add_entry(blocks: &mut Blocks, last: u8, key: bool, value: Val) -> Result<(), Fail> {
    let cell = Cell::Entry(address(1, last)?, 0, Val::Bool(key));
    if blocks.is_above_all(&cell) {
        blocks.push(cell, value)?;
    }
    Ok(())
}

fn set(blocks: &mut Blocks, last: u8, amount: u64) -> Result<(), Fail> {
    let account = address(0, last)?;
    if blocks.get(&Cell::Balance(account)).is_some() {
        blocks.set_balance(&account, amount);
    }
    Ok(())
}

// Balances of 10 and 30, the storage of a contract, and its entries at False and True.
fn five(alloc: Global) -> Result<Blocks, Fail> {
    let mut blocks = Blocks::new(alloc);
    add_balance(&mut blocks, 1, 10)?;
    add_balance(&mut blocks, 3, 30)?;
    add_storage(&mut blocks, 2, Val::Unit)?;
    add_entry(&mut blocks, 2, false, Val::Mutez(5))?;
    add_entry(&mut blocks, 2, true, Val::Bool(true))?;
    Ok(blocks)
}

fn has(blocks: &Blocks, c: &Cell, v: &Val) -> bool {
    match blocks.get(c) {
        Some(held) => held.get().same(v),
        None => false,
    }
}

fn stands(row: &Option<Row>, c: &Cell, v: &Val) -> bool {
    match row {
        Some(row) => row.cell().same(c) && row.value().same(v),
        None => false,
    }
}

#[test]
fn a_balance_takes_32_bytes(rt: HostRuntime) {
    assert_eq!(rt; size_of::<Holding>(), 32);
    assert_eq!(rt; size_of::<(Cell, Val)>(), 160);
}

#[test]
fn each_cell_is_found_and_no_other(rt: HostRuntime) -> Result<(), Fail> {
    let blocks = five(rt.alloc())?;
    assert_eq!(rt; blocks.len(), 5);
    assert!(rt; !blocks.is_empty());
    assert!(rt; has(&blocks, &balance(1)?, &Val::Mutez(10)));
    assert!(rt; has(&blocks, &balance(3)?, &Val::Mutez(30)));
    assert!(rt; has(&blocks, &storage(2)?, &Val::Unit));
    assert!(rt; has(&blocks, &entry(2, false)?, &Val::Mutez(5)));
    assert!(rt; has(&blocks, &entry(2, true)?, &Val::Bool(true)));
    assert!(rt; blocks.get(&balance(2)?).is_none());
    assert!(rt; blocks.get(&storage(3)?).is_none());
    assert!(rt; blocks.get(&entry(3, true)?).is_none());
    Ok(())
}

#[test]
fn the_cell_above_is_in_the_same_block_or_the_next(rt: HostRuntime) -> Result<(), Fail> {
    let blocks = five(rt.alloc())?;
    assert!(rt; stands(&blocks.next_above(None), &balance(1)?, &Val::Mutez(10)));
    assert!(rt;
        stands(
            &blocks.next_above(Some(&balance(2)?)),
            &balance(3)?,
            &Val::Mutez(30)
        )
    );
    assert!(rt;
        stands(
            &blocks.next_above(Some(&balance(3)?)),
            &storage(2)?,
            &Val::Unit
        )
    );
    assert!(rt;
        stands(
            &blocks.next_above(Some(&storage(2)?)),
            &entry(2, false)?,
            &Val::Mutez(5)
        )
    );
    assert!(rt; blocks.next_above(Some(&entry(2, true)?)).is_none());
    assert!(rt; blocks.is_above_all(&entry(3, false)?));
    assert!(rt; !blocks.is_above_all(&entry(2, true)?));
    assert!(rt; !blocks.is_above_all(&balance(9)?));
    Ok(())
}

#[test]
fn a_balance_of_0_is_away(rt: HostRuntime) -> Result<(), Fail> {
    let mut blocks = five(rt.alloc())?;
    set(&mut blocks, 3, 31)?;
    assert!(rt; has(&blocks, &balance(3)?, &Val::Mutez(31)));
    set(&mut blocks, 1, 0)?;
    assert!(rt; blocks.get(&balance(1)?).is_none());
    assert!(rt; has(&blocks, &balance(3)?, &Val::Mutez(31)));
    assert_eq!(rt; blocks.len(), 4);
    Ok(())
}

#[test]
fn a_walk_goes_over_all_cells_in_their_order(rt: HostRuntime) -> Result<(), Fail> {
    let blocks = five(rt.alloc())?;
    let mut walk = blocks.walk();
    assert!(rt; stands(&walk.peek(), &balance(1)?, &Val::Mutez(10)));
    assert!(rt; stands(&walk.next(), &balance(1)?, &Val::Mutez(10)));
    assert!(rt; stands(&walk.next(), &balance(3)?, &Val::Mutez(30)));
    assert!(rt; stands(&walk.next(), &storage(2)?, &Val::Unit));
    assert!(rt; stands(&walk.next(), &entry(2, false)?, &Val::Mutez(5)));
    assert!(rt; stands(&walk.next(), &entry(2, true)?, &Val::Bool(true)));
    assert!(rt; walk.next().is_none());
    assert!(rt; walk.peek().is_none());
    Ok(())
}

#[test]
fn a_copy_is_the_same_until_a_balance_is_another(rt: HostRuntime) -> Result<(), Fail> {
    let blocks = five(rt.alloc())?;
    let mut copied = blocks.copy(rt.alloc())?;
    assert!(rt; copied.same(&blocks));
    set(&mut copied, 3, 29)?;
    assert!(rt; !copied.same(&blocks));
    let held = blocks.get(&storage(2)?).ok_or("no storage")?;
    assert!(rt; held.copy(rt.alloc())?.same(&Val::Unit));
    Ok(())
}
