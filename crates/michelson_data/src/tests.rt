//! Rows of the tables, each with an item that stood below its operands.

use crate::{DataEnd, DataOp, apply};
use sqlite_items::Items;
use std::alloc::Global;
use std::test::Fail;
use value_core::{Blob, Num, Val, pair, some};

const LARGEST: i128 = i128::MAX;

fn int(n: i128) -> Result<Val, Fail> {
    Ok(Val::Int(Num::new(n).ok_or("no number")?))
}

fn nat(n: i128) -> Result<Val, Fail> {
    Ok(Val::Nat(Num::new(n).ok_or("no number")?))
}

/// Whether the instruction leaves the result on what stood below the two operands.
fn makes_of_two(alloc: Global, op: DataOp, x: Val, y: Val, want: Val) -> Result<bool, Fail> {
    let mut stack = vec![in alloc; Val::Unit, y, x]?;
    apply(alloc, op, &mut stack).or(Err("an end"))?;
    Ok(stack.len() == 2 && stack[0].same(&Val::Unit) && stack[1].same(&want))
}

/// Whether the instruction ends so, and leaves what stood below the two operands.
fn ends_of_two(alloc: Global, op: DataOp, x: Val, y: Val, want: DataEnd) -> Result<bool, Fail> {
    let mut stack = vec![in alloc; Val::Unit, y, x]?;
    let end = apply(alloc, op, &mut stack).err();
    Ok(end == Some(want) && stack.len() == 1 && stack[0].same(&Val::Unit))
}

#[test]
fn the_remainder_of_a_negative_number_is_not_negative(rt: HostRuntime) -> Result<(), Fail> {
    let alloc = rt.alloc();
    let quotient = some(alloc, pair(alloc, int(-4)?, nat(1)?)?)?;
    assert!(rt; makes_of_two(alloc, DataOp::Ediv, int(-7)?, int(2)?, quotient)?);
    assert!(rt; makes_of_two(alloc, DataOp::Ediv, int(-7)?, int(0)?, Val::Nothing)?);
    Ok(())
}

#[test]
fn one_more_than_the_largest_number_is_an_overflow(rt: HostRuntime) -> Result<(), Fail> {
    let alloc = rt.alloc();
    let end = DataEnd::Overflow;
    assert!(rt; ends_of_two(alloc, DataOp::Add, nat(LARGEST)?, nat(1)?, end)?);
    Ok(())
}

#[test]
fn shifts_by_126_by_127_and_by_257(rt: HostRuntime) -> Result<(), Fail> {
    let alloc = rt.alloc();
    let high = nat(85_070_591_730_234_615_865_843_651_857_942_052_864)?;
    assert!(rt; makes_of_two(alloc, DataOp::Lsl, nat(1)?, nat(126)?, high)?);
    assert!(rt; ends_of_two(alloc, DataOp::Lsl, nat(1)?, nat(127)?, DataEnd::Overflow)?);
    assert!(rt; ends_of_two(alloc, DataOp::Lsl, nat(1)?, nat(257)?, DataEnd::Shift)?);
    Ok(())
}

#[test]
fn an_int_below_0_has_all_high_bits(rt: HostRuntime) -> Result<(), Fail> {
    let alloc = rt.alloc();
    assert!(rt; makes_of_two(alloc, DataOp::And, int(-2)?, nat(7)?, nat(6)?)?);
    Ok(())
}

/// What an instruction makes of the one item above unit.
fn of_one(alloc: Global, op: DataOp, x: Val) -> Result<(Option<DataEnd>, Vec<Val>), Fail> {
    let mut stack = vec![in alloc; Val::Unit, x]?;
    let end = apply(alloc, op, &mut stack).err();
    Ok((end, stack))
}

#[test]
fn the_complement_of_the_largest_number_is_an_overflow(rt: HostRuntime) -> Result<(), Fail> {
    let (end, stack) = of_one(rt.alloc(), DataOp::Not, nat(LARGEST)?)?;
    assert_eq!(rt; end, Some(DataEnd::Overflow));
    assert_eq!(rt; stack.len(), 1);
    Ok(())
}

#[test]
fn the_hash_of_nothing(rt: HostRuntime) -> Result<(), Fail> {
    let alloc = rt.alloc();
    let nothing = Val::Bytes(Blob::new(Vec::new(alloc)).ok_or("no blob")?);
    let (end, stack) = of_one(alloc, DataOp::Sha256, nothing)?;
    assert_eq!(rt; end, None);
    let hash = [
        0xe3, 0xb0, 0xc4, 0x42, 0x98, 0xfc, 0x1c, 0x14, 0x9a, 0xfb, 0xf4, 0xc8, 0x99, 0x6f, 0xb9,
        0x24, 0x27, 0xae, 0x41, 0xe4, 0x64, 0x9b, 0x93, 0x4c, 0xa4, 0x95, 0x99, 0x1b, 0x78, 0x52,
        0xb8, 0x55,
    ];
    let want = Val::Bytes(Blob::new(hash.to_vec(alloc)?).ok_or("no blob")?);
    assert!(rt; stack.len() == 2 && stack[1].same(&want));
    Ok(())
}

#[test]
fn a_pair_is_put_together_and_taken_apart(rt: HostRuntime) -> Result<(), Fail> {
    let alloc = rt.alloc();
    let both = pair(alloc, int(1)?, int(2)?)?;
    assert!(rt; makes_of_two(alloc, DataOp::Pair, int(1)?, int(2)?, both)?);
    let (end, stack) = of_one(alloc, DataOp::Unpair, pair(alloc, int(1)?, int(2)?)?)?;
    assert_eq!(rt; end, None);
    assert!(rt; stack.len() == 3 && stack[2].same(&int(1)?) && stack[1].same(&int(2)?));
    Ok(())
}

#[test]
fn an_item_stands_in_front_of_a_list(rt: HostRuntime) -> Result<(), Fail> {
    let alloc = rt.alloc();
    let list = Val::List(Items::from_vec(vec![in alloc; int(2)?]?));
    let longer = Val::List(Items::from_vec(vec![in alloc; int(1)?, int(2)?]?));
    assert!(rt; makes_of_two(alloc, DataOp::Cons, int(1)?, list, longer)?);
    Ok(())
}

#[test]
fn a_key_is_put_into_a_map_and_the_old_value_comes_on_top(rt: HostRuntime) -> Result<(), Fail> {
    let alloc = rt.alloc();
    let map = Val::Map(Items::from_vec(vec![in alloc; (int(1)?, int(5)?)]?));
    let mut stack = vec![in alloc; Val::Unit, map, some(alloc, int(6)?)?, int(1)?]?;
    assert_eq!(rt; apply(alloc, DataOp::GetAndUpdate, &mut stack), Ok(()));
    let changed = Val::Map(Items::from_vec(vec![in alloc; (int(1)?, int(6)?)]?));
    assert!(rt; stack.len() == 3 && stack[2].same(&some(alloc, int(5)?)?));
    assert!(rt; stack[1].same(&changed));
    Ok(())
}
