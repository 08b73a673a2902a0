//! Small checked types at their bounds, and each call that takes memory once.

use crate::{
    Address, AddressFault, Blob, Emit, Name, Num, Text, Ty, Val, comb, compare, has_type,
    is_comparable, is_passable, left, map_put, operation, pair, right, set_insert, size, some,
};
use sqlite_items::{Boxed, Items};
use std::alloc::Global;
use std::cmp::Ordering;
use std::test::Fail;

#[test]
fn leaves_are_refused_by_their_rules(rt: HostRuntime) {
    let short = [0; 21];
    let mut other = [0; 22];
    other[0] = 2;
    let account = [0; 22];
    assert_eq!(rt;
        Address::from_bytes(&short).err(),
        Some(AddressFault::BadLength(21))
    );
    assert_eq!(rt;
        Address::from_bytes(&other).err(),
        Some(AddressFault::BadFirst(2))
    );
    assert!(rt; Address::from_bytes(&account).is_ok());
    assert!(rt; Num::new(i128::MIN).is_none());
    assert!(rt; Num::new(i128::MIN + 1).is_some());
}

fn number(n: i128) -> Result<Val, Fail> {
    Ok(Val::Int(Num::new(n).ok_or("no number")?))
}

fn text(alloc: Global) -> Result<Val, Fail> {
    let bytes = b"ab".to_vec(alloc)?;
    Ok(Val::Text(Text::new(bytes).ok_or("no text")?))
}

fn blob(alloc: Global) -> Result<Val, Fail> {
    let bytes = [0, 255].to_vec(alloc)?;
    Ok(Val::Bytes(Blob::new(bytes).ok_or("no blob")?))
}

#[test]
fn a_copy_of_a_pair_is_the_same_pair(rt: HostRuntime) -> Result<(), Fail> {
    let alloc = rt.alloc();
    let v = pair(alloc, number(-1)?, text(alloc)?)?;
    let w = v.copy(alloc)?;
    assert!(rt; v.same(&w));
    assert_eq!(rt; size(&w), 2);
    let t = Ty::Pair(Boxed::new(alloc, Ty::Int)?, Boxed::new(alloc, Ty::Text)?);
    let u = t.copy(alloc)?;
    assert!(rt; t.same(&u));
    assert!(rt; has_type(&w, &u));
    Ok(())
}

#[test]
fn a_copy_of_an_operation_is_the_same_operation(rt: HostRuntime) -> Result<(), Fail> {
    let alloc = rt.alloc();
    let mut items = Items::new(alloc);
    items.push(some(alloc, blob(alloc)?)?)?;
    let mut entries = Items::new(alloc);
    entries.push((number(1)?, left(alloc, Val::List(items))?))?;
    let emit = Emit {
        dest: Address::from_bytes(&[1; 22]).ok().ok_or("no address")?,
        entry: Name::new(b"default").ok_or("no name")?,
        param: right(alloc, Val::Map(entries))?,
        amount: 7,
    };
    let v = operation(alloc, emit)?;
    let w = v.copy(alloc)?;
    assert!(rt; v.same(&w));
    // the operation, Right, the map, its key, Left, the list, Some, and the bytes
    assert_eq!(rt; size(&w), 8);
    assert!(rt; has_type(&w, &Ty::Operation));
    Ok(())
}

#[test]
fn a_key_is_put_into_an_empty_set(rt: HostRuntime) -> Result<(), Fail> {
    let alloc = rt.alloc();
    let mut items = Items::new(alloc);
    assert!(rt; set_insert(alloc, &mut items, Val::Mutez(7))?);
    assert_eq!(rt; items.len(), 1);
    Ok(())
}

#[test]
fn a_key_is_put_into_an_empty_map(rt: HostRuntime) -> Result<(), Fail> {
    let alloc = rt.alloc();
    let mut entries = Items::new(alloc);
    map_put(alloc, &mut entries, Val::Mutez(7), Val::Unit)?;
    assert_eq!(rt; entries.len(), 1);
    Ok(())
}

// As a flat text makes them, and deeper than a stack is.
const PARTS: usize = 1_000_000;

fn flat_pair(alloc: Global) -> Result<Val, Fail> {
    let mut firsts = Items::new(alloc);
    for _ in 1..PARTS {
        firsts.push(Val::Unit)?;
    }
    Ok(comb(alloc, firsts, Val::Unit)?)
}

fn flat_pair_type(alloc: Global) -> Result<Ty, Fail> {
    let mut t = Ty::Unit;
    for _ in 1..PARTS {
        t = Ty::Pair(Boxed::new(alloc, Ty::Unit)?, Boxed::new(alloc, t)?);
    }
    Ok(t)
}

#[test]
fn a_pair_of_a_million_parts_is_copied_compared_and_dropped(rt: HostRuntime) -> Result<(), Fail> {
    let alloc = rt.alloc();
    let v = flat_pair(alloc)?;
    let w = v.copy(alloc)?;
    assert!(rt; v.same(&w));
    assert_eq!(rt; compare(&v, &w), Ordering::Equal);
    assert_eq!(rt; size(&w), 1_000_000);
    let t = flat_pair_type(alloc)?;
    let u = t.copy(alloc)?;
    assert!(rt; t.same(&u));
    assert!(rt; has_type(&v, &u));
    assert!(rt; is_passable(&t));
    assert!(rt; is_comparable(&t));
    Ok(())
}
