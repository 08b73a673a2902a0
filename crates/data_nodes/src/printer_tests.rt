//! Values and the texts that are written by hand for them.

use crate::print_data;
use sqlite_items::Items;
use std::alloc::Global;
use std::test::Fail;
use value_core::{Address, Num, Text, Val, left, pair, some};

fn shown(alloc: Global, v: &Val) -> Result<String, Fail> {
    let text = String::from_utf8(print_data(alloc, v)?).ok();
    Ok(text.ok_or("no text")?)
}

fn number(n: i128) -> Result<Val, Fail> {
    Ok(Val::Int(Num::new(n).ok_or("no number")?))
}

fn text(alloc: Global, bytes: &[u8]) -> Result<Val, Fail> {
    let text = Text::new(Vec::from_slice(alloc, bytes)?);
    Ok(Val::Text(text.ok_or("no text")?))
}

fn address(first: u8) -> Result<Val, Fail> {
    let mut bytes = [0xab; 22];
    bytes[0] = first;
    let address = Address::from_bytes(&bytes).ok();
    Ok(Val::Addr(address.ok_or("no address")?))
}

#[test]
fn a_pair_is_printed_with_its_parts_in_parentheses(rt: HostRuntime) -> Result<(), Fail> {
    let alloc = rt.alloc();
    let inner = pair(alloc, Val::Mutez(7), Val::Bool(true))?;
    let v = pair(alloc, Val::Unit, inner)?;
    assert_eq!(rt; shown(alloc, &v)?.as_str(), "Pair Unit (Pair 7 True)");
    Ok(())
}

#[test]
fn a_map_is_printed_as_its_entries(rt: HostRuntime) -> Result<(), Fail> {
    let alloc = rt.alloc();
    let mut entries = Items::new(alloc);
    entries.push((number(1)?, text(alloc, b"a")?))?;
    entries.push((number(2)?, text(alloc, b"b")?))?;
    let v = Val::Map(entries);
    assert_eq!(rt; shown(alloc, &v)?.as_str(), "{ Elt 1 \"a\" ; Elt 2 \"b\" }");
    Ok(())
}

#[test]
fn an_option_of_a_negative_number_is_printed(rt: HostRuntime) -> Result<(), Fail> {
    let alloc = rt.alloc();
    let v = some(alloc, left(alloc, number(-1)?)?)?;
    assert_eq!(rt; shown(alloc, &v)?.as_str(), "Some (Left -1)");
    Ok(())
}

#[test]
fn an_address_is_printed_as_its_bytes(rt: HostRuntime) -> Result<(), Fail> {
    let v = address(1)?;
    assert_eq!(rt;
        shown(rt.alloc(), &v)?.as_str(),
        "0x01ababababababababababababababababababababab"
    );
    Ok(())
}

#[test]
fn an_empty_list_is_printed_as_empty_braces(rt: HostRuntime) -> Result<(), Fail> {
    let v = Val::List(Items::new(rt.alloc()));
    assert_eq!(rt; shown(rt.alloc(), &v)?.as_str(), "{}");
    Ok(())
}
