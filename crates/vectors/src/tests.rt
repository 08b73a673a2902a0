//! Runs of small scripts through the public calls, with a ledger that the test plays.

ghost use Rattle.std.specs.Prelude.{◌≡◌, ◌<◌, ◌^◌, IfOk, None, length};
ghost use Rattle.michelson_machine.specs.Outcomes.{awaits};

use crate::run::{started, typed};
use michelson_code::{Typed, Why};
use michelson_machine::{Ask, Budget, End, Env, Machine, Turn};
use sqlite_items::Items;
use std::alloc::Global;
use std::test::Fail;
use value_core::{Address, Name, Num, Ty, Val};

fn int(n: i128) -> Result<Val, Fail> {
    Ok(Val::Int(Num::new(n).ok_or("no number")?))
}

fn script(alloc: Global, text: &[u8]) -> Result<Typed, Fail>
    requires { length text.now < 2 ^ 32 }
{
    Ok(typed(alloc, text)?.ok_or("no script")?)
}

/// A run with so much gas and room, and no turn.
fn begun<'a>(
    alloc: Global,
    script: &'a Typed,
    param: Val,
    storage: Val,
    gas: u64,
    room: u64,
) -> Result<Machine<'a>, Fail>
    ensures { IfOk result (λ machine. awaits machine ≡ None) }
{
    let nobody = Address::from_bytes(&[0; 22])?;
    let env = Env {
        amount: 0,
        sender: nobody,
        source: nobody,
        me: nobody,
        now: 0,
        level: 0,
    };
    let left = Budget {
        gas,
        turns: 0,
        room,
    };
    match started(alloc, script, env, param, storage, left)? {
        Some(machine) => Ok(machine),
        None => Err(Fail::from("other types")),
    }
}

/// The one question of a run, and how the run ends after this answer.
fn asked_once(alloc: Global, mut machine: Machine<'_>, v: Option<Val>) -> Result<(Ask, Turn), Fail>
    requires { awaits machine ≡ None }
{
    match machine.advance(alloc)? {
        Turn::Ask(ask) => {
            machine.reply(alloc, v)?;
            Ok((ask, machine.advance(alloc)?))
        }
        Turn::Done(_) => Err(Fail::from("no question")),
    }
}

type Returned = (Val, Items<(u8, Val, Option<Val>)>, Budget);

/// The storage that is returned, the changes, and what is left.
fn returned(turn: Turn) -> Result<Returned, Fail> {
    match turn {
        Turn::Done(
            End::Return {
                ops: _,
                storage,
                changes,
                left,
            },
        ) => Ok((storage, changes, left)),
        _ => Err(Fail::from("no return")),
    }
}

#[test]
fn the_counter_runs_with_a_gas_of_six_and_not_with_five(rt: HostRuntime) -> Result<(), Fail> {
    let alloc = rt.alloc();
    let text = b"parameter int ; storage int ; code { UNPAIR ; ADD ; NIL operation ; PAIR }";
    let counter = script(alloc, text)?;
    let mut enough = begun(alloc, &counter, int(5)?, int(10)?, 6, 0)?;
    let (storage, changes, left) = returned(enough.advance(alloc)?)?;
    assert!(rt; storage.same(&int(15)?));
    assert_eq!(rt; (changes.len(), left.gas), (0, 0));
    let mut short = begun(alloc, &counter, int(5)?, int(10)?, 5, 0)?;
    let turn = short.advance(alloc)?;
    assert!(rt;
        matches!(
            turn,
            Turn::Done(End::Fail {
                why: Why::OutOfGas,
                ..
            })
        )
    );
    Ok(())
}

#[test]
fn a_balance_that_is_answered_takes_a_room_of_one(rt: HostRuntime) -> Result<(), Fail> {
    let alloc = rt.alloc();
    let text = b"parameter unit ; storage mutez ; code { DROP ; BALANCE ; NIL operation ; PAIR }";
    let script = script(alloc, text)?;
    let run = begun(alloc, &script, Val::Unit, Val::Mutez(0), 1000, 1)?;
    let (ask, turn) = asked_once(alloc, run, Some(Val::Mutez(7)))?;
    assert!(rt; matches!(ask, Ask::Balance));
    let (storage, _, left) = returned(turn)?;
    assert!(rt; storage.same(&Val::Mutez(7)));
    assert_eq!(rt; left.room, 0);
    Ok(())
}

#[test]
fn an_entry_is_asked_for_and_its_change_is_returned(rt: HostRuntime) -> Result<(), Fail> {
    let alloc = rt.alloc();
    let text = b"parameter int ; storage (big_map int int) ; code { UNPAIR ;
        DIP { PUSH int 9 ; SOME } ; GET_AND_UPDATE ; DROP ; NIL operation ; PAIR }";
    let script = script(alloc, text)?;
    let (place, version) = (0, 0);
    let map = Val::BigMap { place, version };
    let run = begun(alloc, &script, int(3)?, map, 1000, 6)?;
    let (ask, turn) = asked_once(alloc, run, Some(int(4)?))?;
    let Ask::Entry { place, key } = ask else {
        return Err(Fail::from("another question"));
    };
    assert!(rt; place == 0 && key.same(&int(3)?));
    let (storage, changes, left) = returned(turn)?;
    assert!(rt;
        storage.same(&Val::BigMap {
            place: 0,
            version: 0
        })
    );
    assert_eq!(rt; left.room, 0);
    let [(place, key, Some(v))] = changes.as_slice() else {
        return Err(Fail::from("not one change"));
    };
    assert!(rt; *place == 0 && key.same(&int(3)?) && v.same(&int(9)?));
    Ok(())
}

#[test]
fn a_contract_stands_where_the_ledger_says_so(rt: HostRuntime) -> Result<(), Fail> {
    let alloc = rt.alloc();
    let text = b"parameter address ; storage bool ; code { CAR ; CONTRACT unit ;
        IF_NONE { PUSH bool False } { DROP ; PUSH bool True } ; NIL operation ; PAIR }";
    let script = script(alloc, text)?;
    let other = Address::from_bytes(&[0; 22])?;
    let default = Name::new(b"default").ok_or("no name")?;
    let run = begun(alloc, &script, Val::Addr(other), Val::Bool(false), 1000, 0)?;
    let (ask, turn) = asked_once(alloc, run, Some(Val::Contract(other, default)))?;
    let Ask::Contract { address, entry, ty } = ask else {
        return Err(Fail::from("another question"));
    };
    assert!(rt; address == other && entry == default && matches!(&ty, Ty::Unit));
    assert!(rt; returned(turn)?.0.same(&Val::Bool(true)));
    let run = begun(alloc, &script, Val::Addr(other), Val::Bool(true), 1000, 0)?;
    let (_, turn) = asked_once(alloc, run, None)?;
    assert!(rt; returned(turn)?.0.same(&Val::Bool(false)));
    Ok(())
}
