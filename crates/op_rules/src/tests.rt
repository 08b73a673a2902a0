//! What may stand in a block, at its limits; and equal copies.

use crate::{Batch, Op, Receipt, lawful};
use michelson_code::Why;
use sqlite_items::Items;
use std::alloc::Global;
use std::test::Fail;
use value_core::{Address, Name, Val, left};

// An account's address, or a contract's.
fn address(first: u8) -> Result<Address, Fail> {
    let mut bytes = [0; 22];
    bytes[0] = first;
    Ok(Address::from_bytes(&bytes).ok().ok_or("no address")?)
}

fn op(first: u8, param: Val, amount: u64, gas: u32, turns: u32) -> Result<Op, Fail> {
    Ok(Op {
        source: address(first)?,
        dest: address(1)?,
        entry: Name::new(b"default").ok_or("no name")?,
        param,
        amount,
        gas,
        turns,
    })
}

// `Unit` in so many `Left`s.
fn nested(alloc: Global, lefts: usize) -> Result<Val, Fail> {
    let mut v = Val::Unit;
    for _ in 0..lefts {
        v = left(alloc, v)?;
    }
    Ok(v)
}

#[test]
fn an_operation_is_lawful_up_to_its_limits(rt: HostRuntime) -> Result<(), Fail> {
    let most = (1 << 63) - 1;
    assert!(rt; lawful(&op(0, Val::Unit, most, 100_000_000, 1_000_000)?));
    assert!(rt; !lawful(&op(1, Val::Unit, 0, 0, 0)?));
    assert!(rt; !lawful(&op(0, Val::Unit, most + 1, 0, 0)?));
    assert!(rt; !lawful(&op(0, Val::Unit, 0, 100_000_001, 0)?));
    assert!(rt; !lawful(&op(0, Val::Unit, 0, 0, 1_000_001)?));
    Ok(())
}

#[test]
fn a_param_is_at_most_128_deep_and_without_big_maps(rt: HostRuntime) -> Result<(), Fail> {
    let alloc = rt.alloc();
    assert!(rt; lawful(&op(0, nested(alloc, 127)?, 0, 0, 0)?));
    assert!(rt; !lawful(&op(0, nested(alloc, 128)?, 0, 0, 0)?));
    let map = Val::BigMap {
        place: 0,
        version: 0,
    };
    assert!(rt; !lawful(&op(0, map, 0, 0, 0)?));
    Ok(())
}

#[test]
fn copies_are_the_same(rt: HostRuntime) -> Result<(), Fail> {
    let alloc = rt.alloc();
    let mut ops = Items::new(alloc);
    ops.push(op(0, Val::Mutez(7), 1, 2, 3)?)?;
    let batch = Batch { now: 5, ops };
    assert!(rt; batch.copy(alloc)?.same(&batch));
    let receipt = Receipt {
        end: Some(Why::Raised(Val::Unit)),
        gas: 9,
    };
    assert!(rt; receipt.copy(alloc)?.same(&receipt));
    assert!(rt; !receipt.same(&Receipt { end: None, gas: 9 }));
    Ok(())
}
