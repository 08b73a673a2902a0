//! Scripts and the texts that are written by hand for them.

use crate::print_script;
use michelson_code::{Instr, Script, Side};
use sqlite_items::{Boxed, Items};
use std::alloc::Global;
use std::test::Fail;
use value_core::{Name, Num, Text, Ty, Val, pair};

fn shown(alloc: Global, s: &Script) -> Result<String, Fail> {
    let text = String::from_utf8(print_script(alloc, s)?).ok();
    Ok(text.ok_or("no text")?)
}

fn or(alloc: Global, s: Ty, t: Ty) -> Result<Ty, Fail> {
    Ok(Ty::Or(Boxed::new(alloc, s)?, Boxed::new(alloc, t)?))
}

fn pair_type(alloc: Global, s: Ty, t: Ty) -> Result<Ty, Fail> {
    Ok(Ty::Pair(Boxed::new(alloc, s)?, Boxed::new(alloc, t)?))
}

fn name(word: &str) -> Result<Name, Fail> {
    Ok(Name::new(word.as_bytes()).ok_or("no name")?)
}

fn number(n: i128) -> Result<Val, Fail> {
    Ok(Val::Int(Num::new(n).ok_or("no number")?))
}

fn text(alloc: Global, bytes: &[u8]) -> Result<Val, Fail> {
    let text = Text::new(Vec::from_slice(alloc, bytes)?);
    Ok(Val::Text(text.ok_or("no text")?))
}

/// A script without entries that keeps its storage, a unit.
fn with_code(alloc: Global, code: Items<Instr>) -> Script {
    Script {
        param: Ty::Unit,
        names: Items::new(alloc),
        storage: Ty::Unit,
        code,
    }
}

#[test]
fn a_counter_is_printed_in_three_lines(rt: HostRuntime) -> Result<(), Fail> {
    let alloc = rt.alloc();
    let mut code = Items::new(alloc);
    code.push(Instr::Unpair)?;
    code.push(Instr::Add)?;
    code.push(Instr::Nil(Ty::Operation))?;
    code.push(Instr::Pair)?;
    let s = Script {
        param: Ty::Int,
        names: Items::new(alloc),
        storage: Ty::Int,
        code,
    };
    assert_eq!(rt;
        shown(alloc, &s)?.as_str(),
        "parameter int ;\nstorage int ;\ncode { UNPAIR ; ADD ; NIL operation ; PAIR }\n"
    );
    Ok(())
}

#[test]
fn each_name_of_an_entry_stands_at_its_node(rt: HostRuntime) -> Result<(), Fail> {
    let alloc = rt.alloc();
    let mut names = Items::new(alloc);
    let add = Items::from_slice(alloc, &[Side::Left])?;
    names.push((add, name("add")?))?;
    let rest = Items::from_slice(alloc, &[Side::Right])?;
    names.push((rest, name("rest")?))?;
    let sub = Items::from_slice(alloc, &[Side::Right, Side::Right])?;
    names.push((sub, name("sub")?))?;
    let s = Script {
        param: or(alloc, Ty::Int, or(alloc, Ty::Unit, Ty::Nat)?)?,
        names,
        storage: Ty::Unit,
        code: Items::new(alloc),
    };
    assert_eq!(rt;
        shown(alloc, &s)?.as_str(),
        "parameter (or (int %add) (or %rest unit (nat %sub))) ;\nstorage unit ;\ncode {}\n"
    );
    Ok(())
}

#[test]
fn a_pushed_value_stands_behind_its_type(rt: HostRuntime) -> Result<(), Fail> {
    let alloc = rt.alloc();
    let t = pair_type(alloc, Ty::Int, Ty::Text)?;
    let v = pair(alloc, number(-1)?, text(alloc, b"a")?)?;
    let mut code = Items::new(alloc);
    code.push(Instr::Push(t, v))?;
    assert_eq!(rt;
        shown(alloc, &with_code(alloc, code))?.as_str(),
        "parameter unit ;\nstorage unit ;\ncode { PUSH (pair int string) (Pair -1 \"a\") }\n"
    );
    Ok(())
}

#[test]
fn the_name_of_an_entry_is_an_annotation(rt: HostRuntime) -> Result<(), Fail> {
    let alloc = rt.alloc();
    let mut code = Items::new(alloc);
    code.push(Instr::SelfEntry(Some(name("add")?)))?;
    code.push(Instr::SelfEntry(None))?;
    code.push(Instr::Contract(Some(name("sub")?), Ty::Nat))?;
    assert_eq!(rt;
        shown(alloc, &with_code(alloc, code))?.as_str(),
        "parameter unit ;\nstorage unit ;\ncode { SELF %add ; SELF ; CONTRACT %sub nat }\n"
    );
    Ok(())
}

#[test]
fn a_body_stands_in_braces_behind_its_number(rt: HostRuntime) -> Result<(), Fail> {
    let alloc = rt.alloc();
    let mut body = Items::new(alloc);
    body.push(Instr::Drop)?;
    let mut code = Items::new(alloc);
    code.push(Instr::DipN(2, body))?;
    code.push(Instr::If(Items::new(alloc), Items::new(alloc)))?;
    assert_eq!(rt;
        shown(alloc, &with_code(alloc, code))?.as_str(),
        "parameter unit ;\nstorage unit ;\ncode { DIP 2 { DROP } ; IF {} {} }\n"
    );
    Ok(())
}
