//! What no clause says: that calls end with an answer.

use crate::{TypeRefusal, check};
use michelson_code::{Code, Instr, Script, TypeKind};
use sqlite_items::Items;
use std::alloc::{AllocError, Global};
use std::test::Fail;
use value_core::{Name, Ty};

fn script_of(alloc: Global, code: Code) -> Script {
    Script {
        param: Ty::Int,
        names: Items::new(alloc),
        storage: Ty::Int,
        code,
    }
}

fn counter(alloc: Global) -> Result<Script, AllocError> {
    let mut code = Items::new(alloc);
    code.push(Instr::Unpair)?;
    code.push(Instr::Add)?;
    code.push(Instr::Nil(Ty::Operation))?;
    code.push(Instr::Pair)?;
    Ok(script_of(alloc, code))
}

#[test]
fn the_counter_is_typed(rt: HostRuntime) -> Result<(), Fail> {
    let script = counter(rt.alloc())?;
    assert!(rt; check(rt.alloc(), script).is_ok());
    Ok(())
}

#[test]
fn a_typed_counter_is_copied_and_has_one_entry(rt: HostRuntime) -> Result<(), Fail> {
    let script = counter(rt.alloc())?;
    let typed = check(rt.alloc(), script).ok().ok_or("refused")?;
    assert!(rt; typed.script().same(&counter(rt.alloc())?));
    assert!(rt; typed.copy(rt.alloc())?.same(&typed));
    let default = Name::new(b"default").ok_or("no name")?;
    let other = Name::new(b"other").ok_or("no name")?;
    assert!(rt; typed.entry(&default).is_some());
    assert!(rt; typed.entry(&other).is_none());
    Ok(())
}

fn kind_of(alloc: Global, script: Script) -> Option<TypeKind> {
    match check(alloc, script) {
        Err(TypeRefusal::Fault(fault)) => Some(fault.kind),
        _ => None,
    }
}

#[test]
fn an_empty_code_ends_with_the_wrong_stack(rt: HostRuntime) -> Result<(), Fail> {
    let script = script_of(rt.alloc(), Items::new(rt.alloc()));
    assert_eq!(rt; kind_of(rt.alloc(), script), Some(TypeKind::LastStack));
    Ok(())
}
