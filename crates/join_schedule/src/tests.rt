use crate::{Joins, bad_join, first_unordered};
use cell_names::{Cell, Footprint, Mode};
use std::alloc::Global;
use std::test::Fail;
use value_core::Address;

// Accounts are the byte 00, twenty bytes 00 and a last byte.
const A: u8 = 10;

const B: u8 = 11;

const C: u8 = 12;

const T: u8 = 13;

fn account(last: u8) -> Result<Cell, Fail> {
    let mut bytes = [0; 22];
    bytes[21] = last;
    Ok(Cell::Balance(Address::from_bytes(&bytes).ok().ok_or("no address")?))
}

fn footprint(alloc: Global, owned: u8, credited: Option<u8>) -> Result<Footprint, Fail> {
    let mut made = Footprint::new(alloc);
    made.touch(alloc, &account(owned)?, Mode::Own)?;
    if let Some(last) = credited {
        made.touch(alloc, &account(last)?, Mode::Credit)?;
    }
    Ok(made)
}

fn joins(alloc: Global, lists: &[&[u32]]) -> Result<Joins, Fail> {
    let mut all = Vec::new(alloc);
    for list in lists {
        all.push(Vec::from_slice(alloc, list)?)?;
    }
    Ok(Joins::new(all))
}

fn bad(alloc: Global, lists: &[&[u32]]) -> Result<Option<u32>, Fail> {
    let published = joins(alloc, lists)?;
    if published.len() > 3 {
        return Err(Fail::from("too many lists"));
    }
    Ok(bad_join(&published))
}

#[test]
fn bad_lists_are_told(rt: HostRuntime) -> Result<(), Fail> {
    assert_eq!(rt; bad(rt.alloc(), &[&[], &[0], &[0, 1]])?, None);
    assert_eq!(rt; bad(rt.alloc(), &[&[], &[1], &[2]])?, Some(1));
    assert_eq!(rt; bad(rt.alloc(), &[&[], &[0], &[1, 0]])?, Some(2));
    Ok(())
}

// What is told of two transfers, the second joined to the first or not.
fn told(
    alloc: Global,
    first: Footprint,
    second: Footprint,
    list: &[u32],
) -> Result<Option<(u32, u32, Cell)>, Fail> {
    let published = joins(alloc, &[&[], list])?;
    let mut footprints = Vec::new(alloc);
    footprints.push(first)?;
    footprints.push(second)?;
    if published.len() != 2 || footprints.len() != 2 {
        return Err(Fail::from("not two operations"));
    }
    match bad_join(&published) {
        Some(_) => Err(Fail::from("a bad list")),
        None => Ok(first_unordered(alloc, &published, footprints.as_slice())?),
    }
}

#[test]
fn a_transfer_that_needs_another_is_joined_to_it(rt: HostRuntime) -> Result<(), Fail> {
    let alloc = rt.alloc();
    // The first leaves the second too little, which then touches its source alone.
    let (first, second) = (footprint(alloc, A, Some(B))?, footprint(alloc, A, None)?);
    assert!(rt; told(alloc, first, second, &[0])?.is_none());
    let (first, second) = (footprint(alloc, A, Some(B))?, footprint(alloc, A, None)?);
    let (earlier, later, cell) = told(alloc, first, second, &[])?.ok_or("ordered")?;
    assert_eq!(rt; (earlier, later), (0, 1));
    assert!(rt; cell.same(&account(A)?));
    Ok(())
}

#[test]
fn two_credits_of_one_account_need_no_order(rt: HostRuntime) -> Result<(), Fail> {
    let alloc = rt.alloc();
    let (first, second) = (footprint(alloc, A, Some(T))?, footprint(alloc, C, Some(T))?);
    assert!(rt; told(alloc, first, second, &[])?.is_none());
    Ok(())
}

#[test]
fn a_transfer_out_of_a_credited_account_is_ordered(rt: HostRuntime) -> Result<(), Fail> {
    let alloc = rt.alloc();
    let (first, second) = (footprint(alloc, A, Some(T))?, footprint(alloc, T, Some(C))?);
    assert!(rt; told(alloc, first, second, &[0])?.is_none());
    // Published the other way round.
    let (first, second) = (footprint(alloc, T, None)?, footprint(alloc, A, Some(T))?);
    let (_, _, cell) = told(alloc, first, second, &[])?.ok_or("ordered")?;
    assert!(rt; cell.same(&account(T)?));
    Ok(())
}

// 512 transfers out of one account, each joined to the one before.
#[test]
fn a_chain_of_512_operations_covers_their_conflicts(rt: HostRuntime) -> Result<(), Fail> {
    let alloc = rt.alloc();
    let mut lists: Vec<Vec<u32>> = Vec::new(alloc);
    let mut footprints = Vec::new(alloc);
    lists.push(Vec::new(alloc))?;
    footprints.push(footprint(alloc, A, Some(B))?)?;
    for before in 0..511u32 {
        lists.push(Vec::from_slice(alloc, &[before])?)?;
        footprints.push(footprint(alloc, A, Some(B))?)?;
    }
    let published = Joins::new(lists);
    assert_eq!(rt; published.len(), 512);
    assert_eq!(rt; footprints.len(), 512);
    match bad_join(&published) {
        Some(_) => Err(Fail::from("a bad list")),
        None => {
            let unordered = first_unordered(alloc, &published, footprints.as_slice())?;
            assert!(rt; unordered.is_none());
            Ok(())
        }
    }
}
