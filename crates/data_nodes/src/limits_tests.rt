//! Data at its limits, and combs that are far longer than a stack is deep.

use crate::{
    DataKind, DataRefusal, data_node, has_few_big_maps, print_data, read_data, read_storage,
    storage_data,
};
use micheline_text::{Body, Node, read_nodes};
use sqlite_items::{Boxed, Items};
use std::alloc::Global;
use std::test::Fail;
use value_core::{Ty, Val, comb, some};

const LONG: u32 = 30_000;

/// So many units.
fn units(alloc: Global, count: u32) -> Result<Items<Val>, Fail> {
    let mut units = Items::new(alloc);
    for _ in 0..count {
        units.push(Val::Unit)?;
    }
    Ok(units)
}

/// A comb of so many units before the last one.
fn unit_comb(alloc: Global, count: u32) -> Result<Val, Fail> {
    Ok(comb(alloc, units(alloc, count)?, Val::Unit)?)
}

/// Its type, with this type as that of the last part.
fn comb_type(alloc: Global, count: u32, last: Ty) -> Result<Ty, Fail> {
    let mut t = last;
    for _ in 0..count {
        t = Ty::Pair(Boxed::new(alloc, Ty::Unit)?, Boxed::new(alloc, t)?);
    }
    Ok(t)
}

fn word(alloc: Global, name: &[u8], args: Items<Node>) -> Result<Node, Fail> {
    let (name, notes) = (Items::from_slice(alloc, name)?, Items::new(alloc));
    let body = Body::Prim { name, notes, args };
    Ok(Node { at: 0, body })
}

/// `Pair Unit Unit ..`, with so many units before the last part.
fn flat_pair(alloc: Global, count: u32, last: Node) -> Result<Node, Fail> {
    let mut args = Items::new(alloc);
    for _ in 0..count {
        args.push(word(alloc, b"Unit", Items::new(alloc))?)?;
    }
    args.push(last)?;
    word(alloc, b"Pair", args)
}

#[test]
fn data_of_4096_leaves_is_read(rt: HostRuntime) -> Result<(), Fail> {
    let alloc = rt.alloc();
    let t = Ty::List(Boxed::new(alloc, Ty::Unit)?);
    let v = Val::List(units(alloc, 4095)?);
    let read = read_data(alloc, &t, &data_node(alloc, &v)?).ok();
    assert!(rt; read.ok_or("not read")?.same(&v));
    Ok(())
}

#[test]
fn data_of_4097_leaves_is_too_large(rt: HostRuntime) -> Result<(), Fail> {
    let alloc = rt.alloc();
    let t = Ty::List(Boxed::new(alloc, Ty::Unit)?);
    let v = Val::List(units(alloc, 4096)?);
    let Err(DataRefusal::Fault(fault)) = read_data(alloc, &t, &data_node(alloc, &v)?) else {
        return Err(Fail::from("read"));
    };
    assert!(rt; fault.kind == DataKind::TooLarge && fault.at == 0);
    Ok(())
}

/// Options in options, so deep that the value is 128 deep, and their type.
fn deep(alloc: Global) -> Result<(Val, Ty), Fail> {
    let (mut v, mut t) = (Val::Unit, Ty::Unit);
    for _ in 0..127 {
        v = some(alloc, v)?;
        t = Ty::Option(Boxed::new(alloc, t)?);
    }
    Ok((v, t))
}

#[test]
fn a_value_128_deep_is_printed_and_read_again(rt: HostRuntime) -> Result<(), Fail> {
    let alloc = rt.alloc();
    let (v, t) = deep(alloc)?;
    let text = print_data(alloc, &v)?;
    assert!(rt; text.len() < 0x1_0000_0000);
    let nodes = read_nodes(alloc, &text).ok().ok_or("no text")?;
    let node = nodes.get(0).ok_or("no node")?;
    let read = read_data(alloc, &t, node).ok();
    assert!(rt; read.ok_or("not read")?.same(&v));
    Ok(())
}

#[test]
fn a_long_comb_is_read_as_a_storage(rt: HostRuntime) -> Result<(), Fail> {
    let alloc = rt.alloc();
    let t = comb_type(alloc, LONG, Ty::Unit)?;
    let n = flat_pair(alloc, LONG, word(alloc, b"Unit", Items::new(alloc))?)?;
    assert!(rt; has_few_big_maps(&t));
    let (storage, entries) = read_storage(alloc, &t, &n).ok().ok_or("not read")?;
    assert!(rt; entries.is_empty() && storage.same(&unit_comb(alloc, LONG)?));
    Ok(())
}

#[test]
fn a_big_map_behind_a_long_comb_has_place_0(rt: HostRuntime) -> Result<(), Fail> {
    let alloc = rt.alloc();
    let map = Ty::BigMap(Boxed::new(alloc, Ty::Unit)?, Boxed::new(alloc, Ty::Unit)?);
    let t = comb_type(alloc, LONG, map)?;
    let mut args = Items::new(alloc);
    args.push(word(alloc, b"Unit", Items::new(alloc))?)?;
    args.push(word(alloc, b"Unit", Items::new(alloc))?)?;
    let mut nodes = Items::new(alloc);
    nodes.push(word(alloc, b"Elt", args)?)?;
    let body = Body::Seq(nodes);
    let n = flat_pair(alloc, LONG, Node { at: 0, body })?;
    assert!(rt; has_few_big_maps(&t));
    let (storage, entries) = read_storage(alloc, &t, &n).ok().ok_or("not read")?;
    let (place, version) = (0, 0);
    let wanted = comb(alloc, units(alloc, LONG)?, Val::BigMap { place, version })?;
    assert!(rt; entries.len() == 1 && storage.same(&wanted));
    // Put back, the entry stands in a map behind the comb.
    let mut map = Items::new(alloc);
    map.push((Val::Unit, Val::Unit))?;
    let data = comb(alloc, units(alloc, LONG)?, Val::Map(map))?;
    assert!(rt; storage_data(alloc, &storage, &entries)?.same(&data));
    Ok(())
}

#[test]
fn a_long_comb_has_a_node_of_two_parts(rt: HostRuntime) -> Result<(), Fail> {
    let alloc = rt.alloc();
    let node = data_node(alloc, &unit_comb(alloc, LONG)?)?;
    let Body::Prim { name, args, .. } = &node.body else {
        return Err(Fail::from("no word"));
    };
    assert!(rt; name.as_slice() == b"Pair".as_slice() && args.len() == 2);
    Ok(())
}

#[test]
fn a_long_comb_is_printed_with_its_parts_in_parentheses(rt: HostRuntime) -> Result<(), Fail> {
    let alloc = rt.alloc();
    let text = print_data(alloc, &unit_comb(alloc, LONG)?)?;
    // `Pair Unit (` and `)` for each part but two, and `Pair Unit Unit`.
    assert!(rt; text.len() == 12 * 29_999 + 14);
    Ok(())
}
