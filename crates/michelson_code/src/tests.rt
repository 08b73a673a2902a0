//! Each call that takes memory once, and weights and counts that were summed by hand.

use crate::{Code, Instr, Script, Side, Why, copy_code, count, is_printable, same_code, weight};
use sqlite_items::{Boxed, Items};
use std::alloc::Global;
use std::test::Fail;
use value_core::{Name, Num, Ty, Val};

fn one(alloc: Global, instr: Instr) -> Result<Code, Fail> {
    let mut code = Items::new(alloc);
    code.push(instr)?;
    Ok(code)
}

fn number() -> Result<Val, Fail> {
    Ok(Val::Int(Num::new(1).ok_or("no number")?))
}

// UNPAIR ; ADD ; NIL operation ; PAIR
fn counter(alloc: Global) -> Result<Code, Fail> {
    let mut code = one(alloc, Instr::Unpair)?;
    code.push(Instr::Add)?;
    code.push(Instr::Nil(Ty::Operation))?;
    code.push(Instr::Pair)?;
    Ok(code)
}

// IF { PUSH int 1 } { DIP 2 { DROP } }
fn choice(alloc: Global) -> Result<Code, Fail> {
    let pushed = one(alloc, Instr::Push(Ty::Int, number()?))?;
    let dipped = one(alloc, Instr::DipN(2, one(alloc, Instr::Drop)?))?;
    one(alloc, Instr::If(pushed, dipped))
}

#[test]
fn a_script_is_weighed_and_copied(rt: HostRuntime) -> Result<(), Fail> {
    let alloc = rt.alloc();
    let mut path = Items::new(alloc);
    path.push(Side::Left)?;
    let mut names = Items::new(alloc);
    names.push((path, Name::new(b"add").ok_or("no name")?))?;
    let script = Script {
        param: Ty::Or(Boxed::new(alloc, Ty::Int)?, Boxed::new(alloc, Ty::Unit)?),
        names,
        storage: Ty::Int,
        code: counter(alloc)?,
    };
    let copy = script.copy(alloc)?;
    assert!(rt; script.same(&copy));
    assert_eq!(rt; weight(copy.code.as_slice()), 6);
    assert_eq!(rt; count(copy.code.as_slice()), 4);
    Ok(())
}

#[test]
fn both_branches_and_each_body_are_weighed_once(rt: HostRuntime) -> Result<(), Fail> {
    let alloc = rt.alloc();
    let code = choice(alloc)?;
    // 2 for IF, 2 for PUSH, 2 for DIP and 1 for DROP
    assert_eq!(rt; weight(code.as_slice()), 7);
    assert_eq!(rt; count(code.as_slice()), 4);
    Ok(())
}

#[test]
fn a_raised_value_is_copied(rt: HostRuntime) -> Result<(), Fail> {
    let why = Why::Raised(number()?);
    let copy = why.copy(rt.alloc())?;
    assert!(rt; why.same(&copy));
    Ok(())
}

#[test]
fn a_code_is_copied(rt: HostRuntime) -> Result<(), Fail> {
    let alloc = rt.alloc();
    let code = choice(alloc)?;
    let copy = copy_code(alloc, code.as_slice())?;
    assert!(rt; same_code(code.as_slice(), copy.as_slice()));
    Ok(())
}

fn way(alloc: Global, side: Side) -> Result<Items<Side>, Fail> {
    let mut path = Items::new(alloc);
    path.push(side)?;
    Ok(path)
}

fn name(bytes: &[u8]) -> Result<Name, Fail> {
    Ok(Name::new(bytes).ok_or("no name")?)
}

// parameter (or (int %add) (unit %clear)) ; storage int ; and that code
fn named(alloc: Global, code: Code) -> Result<Script, Fail> {
    let mut names = Items::new(alloc);
    names.push((way(alloc, Side::Left)?, name(b"add")?))?;
    names.push((way(alloc, Side::Right)?, name(b"clear")?))?;
    Ok(Script {
        param: Ty::Or(Boxed::new(alloc, Ty::Int)?, Boxed::new(alloc, Ty::Unit)?),
        names,
        storage: Ty::Int,
        code,
    })
}

#[test]
fn the_counter_is_read_again_as_it_is_printed(rt: HostRuntime) -> Result<(), Fail> {
    let alloc = rt.alloc();
    let script = Script {
        param: Ty::Int,
        names: Items::new(alloc),
        storage: Ty::Int,
        code: counter(alloc)?,
    };
    assert!(rt; is_printable(&script));
    Ok(())
}

#[test]
fn a_script_with_names_a_push_and_bodies_is_read_again(rt: HostRuntime) -> Result<(), Fail> {
    let alloc = rt.alloc();
    let script = named(alloc, choice(alloc)?)?;
    assert!(rt; is_printable(&script));
    Ok(())
}

#[test]
fn a_script_with_names_in_another_order_is_not(rt: HostRuntime) -> Result<(), Fail> {
    let alloc = rt.alloc();
    let mut script = named(alloc, choice(alloc)?)?;
    script
        .names
        .push((way(alloc, Side::Left)?, name(b"more")?))?;
    assert!(rt; !is_printable(&script));
    Ok(())
}

#[test]
fn a_script_with_a_number_past_65535_is_not(rt: HostRuntime) -> Result<(), Fail> {
    let alloc = rt.alloc();
    let kept = named(alloc, one(alloc, Instr::DropN(65_535))?)?;
    assert!(rt; is_printable(&kept));
    let past = named(alloc, one(alloc, Instr::DropN(65_536))?)?;
    assert!(rt; !is_printable(&past));
    Ok(())
}

// list (list .. unit), with so many lists
fn lists(alloc: Global, count: u32) -> Result<Ty, Fail> {
    let mut t = Ty::Unit;
    for _ in 0..count {
        t = Ty::List(Boxed::new(alloc, t)?);
    }
    Ok(t)
}

#[test]
fn brackets_go_256_deep_and_no_deeper(rt: HostRuntime) -> Result<(), Fail> {
    let alloc = rt.alloc();
    let mut script = named(alloc, choice(alloc)?)?;
    script.storage = lists(alloc, 256)?;
    assert!(rt; is_printable(&script));
    script.storage = lists(alloc, 257)?;
    assert!(rt; !is_printable(&script));
    Ok(())
}
