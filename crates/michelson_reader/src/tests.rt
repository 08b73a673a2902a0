//! Scripts with their weights and counts, and faults with their places.

use crate::{ReadFault, print_script, read_script};
use michelson_code::{Script, count, weight};
use std::alloc::{AllocError, Global};
use std::test::Fail;
use value_core::NoMemory;

/// The weight of the script's code and the number of its instructions, or the fault.
fn answer(alloc: Global, text: &str) -> Result<String, NoMemory> {
    let bytes = text.as_bytes();
    if bytes.len() > 1000 {
        return Err(AllocError);
    }
    match read_script(alloc, bytes) {
        Ok(script) => {
            let code = script.code.as_slice();
            format!(in alloc; "{} {}", weight(code), count(code))
        }
        Err(fault) => told(alloc, fault),
    }
}

fn told(alloc: Global, fault: ReadFault) -> Result<String, NoMemory> {
    match fault {
        ReadFault::Text(_) => format!(in alloc; "Text"),
        ReadFault::Sections(at) => format!(in alloc; "Sections {at}"),
        ReadFault::LeftOut(at, word) => { format!(in alloc; "LeftOut {at} {}", word.len()) }
        ReadFault::UnknownPrim(at) => format!(in alloc; "UnknownPrim {at}"),
        ReadFault::Arity(at) => format!(in alloc; "Arity {at}"),
        ReadFault::Data(fault) => format!(in alloc; "Data {} {:?}", fault.at, fault.kind),
        ReadFault::NoMemory => Err(AllocError),
    }
}

#[test]
fn scripts_are_read_and_weighed(rt: HostRuntime) -> Result<(), Fail> {
    let rows = [
        (
            "parameter int ; storage int ; code { UNPAIR ; ADD ; NIL operation ; PAIR }",
            "6 4",
        ),
        (
            "{ parameter int ; storage int ; code { UNPAIR ; ADD ; NIL operation ; PAIR } }",
            "6 4",
        ),
        (
            "storage int ; code { UNPAIR ; ADD ; NIL operation ; PAIR } ; parameter int",
            "6 4",
        ),
        (
            "parameter nat ; storage (big_map address nat) ; code { UNPAIR ; SWAP ; DUP ; SENDER ; GET ; IF_NONE { PUSH nat 0 } {} ; DIG 2 ; ADD ; SOME ; SENDER ; UPDATE ; NIL operation ; PAIR }",
            "40 14",
        ),
        (
            "parameter (or (nat %add) (pair int int bool)) ; storage unit ; code { SELF %add ; CONTRACT %a unit }",
            "13 2",
        ),
    ];
    for (text, wanted) in rows {
        assert_eq!(rt; answer(rt.alloc(), text)?.as_str(), wanted);
    }
    Ok(())
}

#[test]
fn the_leftmost_fault_is_told(rt: HostRuntime) -> Result<(), Fail> {
    let rows = [
        ("parameter int ; storage int", "Sections 27"),
        ("parameter int ; parameter int", "Sections 16"),
        ("parameter int ; 1", "Sections 16"),
        ("parameter int int", "Arity 0"),
        ("parameter (int nat)", "Arity 11"),
        ("parameter (or (nat %a%b) nat)", "Arity 15"),
        ("parameter (or (lambda %) nat)", "UnknownPrim 15"),
        ("parameter (LAMBDA int nat)", "LeftOut 11 6"),
        ("code { FROB }", "UnknownPrim 7"),
        ("code { DROP 65536 }", "Arity 7"),
        ("code { DROP {} }", "Arity 12"),
        ("code { DROP LAMBDA }", "LeftOut 12 6"),
        ("code { DIP ADD }", "Arity 11"),
        ("code { DIP FOO }", "UnknownPrim 11"),
        ("code { PUSH int EXEC }", "LeftOut 16 4"),
        ("code { PUSH nat -1 }", "Data 16 Range"),
        ("code { PUSH (list nat) {-1 ; PACK} }", "Data 24 Range"),
        ("code { SELF %a %b }", "Arity 7"),
    ];
    for (text, wanted) in rows {
        assert_eq!(rt; answer(rt.alloc(), text)?.as_str(), wanted);
    }
    Ok(())
}

#[test]
fn the_names_of_entries_stand_with_their_ways(rt: HostRuntime) -> Result<(), Fail> {
    let text =
        "parameter (or %all (or (nat %add) (int %sub)) unit) ; storage unit ; code {}".as_bytes();
    let Ok(script) = read_script(rt.alloc(), text) else {
        return Err("no script")?;
    };
    let names = script.names.as_slice();
    assert_eq!(rt; names.len(), 3);
    assert_eq!(rt; names[0].0.len(), 0);
    assert_eq!(rt; names[1].0.len(), 2);
    assert_eq!(rt; names[2].0.len(), 2);
    Ok(())
}

#[test]
fn what_is_printed_is_read_as_the_same_script(rt: HostRuntime) -> Result<(), Fail> {
    let alloc = rt.alloc();
    let texts: [&str; 4] = [
        "parameter (or (nat %add) (or %rest unit (nat %sub))) ; storage unit ; code { PUSH (list (pair int nat)) { Pair 1 2 ; Pair 3 4 } ; IF_CONS { DIP 2 { DROP } } { ITER { DROP } } ; SELF %add }",
        "parameter int ; storage int ; code { UNPAIR ; ADD ; NIL operation ; PAIR }",
        "{ parameter int ; storage int ; code { UNPAIR ; ADD ; NIL operation ; PAIR } }",
        "parameter nat ; storage (big_map address nat) ; code { UNPAIR ; SWAP ; DUP ; SENDER ; GET ; IF_NONE { PUSH nat 0 } {} ; DIG 2 ; ADD ; SOME ; SENDER ; UPDATE ; NIL operation ; PAIR }",
    ];
    for text in texts {
        assert!(rt; is_read_again(alloc, text)?);
    }
    Ok(())
}

fn is_read_again(alloc: Global, text: &str) -> Result<bool, NoMemory> {
    let script = script_of(alloc, text.as_bytes())?;
    let printed = print_script(alloc, &script)?;
    let again = script_of(alloc, &printed)?;
    Ok(script.same(&again))
}

fn script_of(alloc: Global, text: &[u8]) -> Result<Script, NoMemory> {
    if text.len() > 1000 {
        return Err(AllocError);
    }
    read_script(alloc, text).map_err(|_| AllocError)
}
