//! Values and a storage that are read, with what is wanted written by hand.

use crate::{has_few_big_maps, read_data, read_storage};
use micheline_text::{NoMemory, Node, read_nodes};
use sqlite_items::{Boxed, Items};
use std::alloc::{AllocError, Global};
use std::test::Fail;
use value_core::{Num, Ty, Val, pair};

fn nodes_of(alloc: Global, text: &str) -> Result<Items<Node>, NoMemory> {
    if text.len() > 1000 {
        return Err(AllocError);
    }
    read_nodes(alloc, text.as_bytes()).map_err(|_| AllocError)
}

fn number(n: i128) -> Result<Num, NoMemory> {
    Num::new(n).ok_or(AllocError)
}

fn pair_type(alloc: Global, s: Ty, t: Ty) -> Result<Ty, NoMemory> {
    Ok(Ty::Pair(Boxed::new(alloc, s)?, Boxed::new(alloc, t)?))
}

/// Whether the text is data of the type that says this value.
fn says(alloc: Global, t: &Ty, text: &str, wanted: &Val) -> Result<bool, NoMemory> {
    let nodes = nodes_of(alloc, text)?;
    let Some(node) = nodes.as_slice().first() else {
        return Ok(false);
    };
    let v = read_data(alloc, t, node).map_err(|_| AllocError)?;
    Ok(v.same(wanted))
}

#[test]
fn unit_is_read(rt: HostRuntime) -> Result<(), Fail> {
    assert!(rt; says(rt.alloc(), &Ty::Unit, "Unit", &Val::Unit)?);
    Ok(())
}

/// `pair int (pair nat mutez)`.
fn two_pairs(alloc: Global) -> Result<Ty, NoMemory> {
    let inner = pair_type(alloc, Ty::Nat, Ty::Mutez)?;
    pair_type(alloc, Ty::Int, inner)
}

fn one_two_three(alloc: Global) -> Result<Val, NoMemory> {
    let inner = pair(alloc, Val::Nat(number(2)?), Val::Mutez(3))?;
    pair(alloc, Val::Int(number(1)?), inner)
}

#[test]
fn three_items_are_read_as_two_pairs(rt: HostRuntime) -> Result<(), Fail> {
    let alloc = rt.alloc();
    let t = two_pairs(alloc)?;
    let wanted = one_two_three(alloc)?;
    let texts: [&str; 4] = [
        "Pair 1 2 3",
        "{1; 2; 3}",
        "Pair 1 (Pair 2 3)",
        "{1; {2; 3}}",
    ];
    for text in texts {
        assert!(rt; says(alloc, &t, text, &wanted)?);
    }
    Ok(())
}

/// `pair (big_map int nat) int`.
fn storage_type(alloc: Global) -> Result<Ty, NoMemory> {
    let map = Ty::BigMap(Boxed::new(alloc, Ty::Int)?, Boxed::new(alloc, Ty::Nat)?);
    pair_type(alloc, map, Ty::Int)
}

/// The big map of the first place, and 7.
fn kept(alloc: Global) -> Result<Val, NoMemory> {
    let map = Val::BigMap {
        place: 0,
        version: 0,
    };
    pair(alloc, map, Val::Int(number(7)?))
}

/// Whether 2 stands at 1 in the first place, and nothing else.
fn is_one_entry(entries: &[(u8, Val, Val)]) -> Result<bool, NoMemory> {
    let (key, value) = (Val::Int(number(1)?), Val::Nat(number(2)?));
    let Some(entry) = entries.first() else {
        return Ok(false);
    };
    Ok(entries.len() == 1 && entry.0 == 0 && entry.1.same(&key) && entry.2.same(&value))
}

fn is_kept(alloc: Global, text: &str) -> Result<bool, NoMemory> {
    let t = storage_type(alloc)?;
    let nodes = nodes_of(alloc, text)?;
    let Some(node) = nodes.as_slice().first() else {
        return Ok(false);
    };
    if !has_few_big_maps(&t) {
        return Ok(false);
    }
    let (storage, entries) = read_storage(alloc, &t, node).map_err(|_| AllocError)?;
    Ok(storage.same(&kept(alloc)?) && is_one_entry(entries.as_slice())?)
}

#[test]
fn entries_of_a_big_map_are_given_with_its_place(rt: HostRuntime) -> Result<(), Fail> {
    assert!(rt; is_kept(rt.alloc(), "Pair {Elt 1 2} 7")?);
    Ok(())
}
