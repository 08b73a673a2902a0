//! Small codes, run to their end or to a question.

use crate::frame::Frame;
use crate::look::Look;
use crate::pile::Pile;
use crate::state::{State, Step};
use map_versions::Versions;
use michelson_code::{Instr, Script, Why};
use michelson_rules::{Budget, Env};
use sqlite_items::Items;
use std::alloc::Global;
use std::test::Fail;
use value_core::{Address, Num, Ty, Val, pair};

fn env() -> Result<Env, Fail> {
    let nobody = Address::from_bytes(&[0; 22])?;
    Ok(Env {
        amount: 0,
        sender: nobody,
        source: nobody,
        me: nobody,
        now: 0,
        level: 0,
    })
}

fn name_of(step: &Step<'_>) -> &'static str {
    match step {
        Step::Ask(Look::Balance) => "asks for the balance",
        Step::Fail(Why::OutOfGas) => "out of gas",
        Step::Fail(Why::OutOfTurns) => "out of turns",
        Step::Fail(Why::TooLarge) => "too large",
        Step::Return => "returns",
        _ => "else",
    }
}

fn ends(
    alloc: Global,
    code: Items<Instr>,
    on: Val,
    gas: u64,
    turns: u64,
) -> Result<(&'static str, u64), Fail> {
    let script = Script {
        param: Ty::Unit,
        names: Items::new(alloc),
        storage: Ty::Unit,
        code,
    };
    let mut frames = Pile::new(alloc);
    frames.push(Frame::Rest(script.code.as_slice()))?;
    let mut stack = Pile::new(alloc);
    stack.push(on)?;
    let mut state = State {
        script: &script,
        env: env()?,
        frames,
        stack,
        versions: Versions::new(alloc),
        left: Budget {
            gas,
            turns,
            room: 0,
        },
    };
    let step = state.run(alloc)?;
    Ok((name_of(&step), state.left.gas))
}

fn int(n: i128) -> Result<Val, Fail> {
    Ok(Val::Int(Num::new(n).ok_or("no number")?))
}

fn counter(alloc: Global, gas: u64) -> Result<(&'static str, u64), Fail> {
    let mut code = Items::new(alloc);
    code.push(Instr::Unpair)?;
    code.push(Instr::Add)?;
    code.push(Instr::Nil(Ty::Operation))?;
    code.push(Instr::Pair)?;
    ends(alloc, code, pair(alloc, int(5)?, int(10)?)?, gas, 0)
}

fn doubled(alloc: Global, times: usize) -> Result<(&'static str, u64), Fail> {
    let mut code = Items::new(alloc);
    for _ in 0..times {
        code.push(Instr::Dup)?;
        code.push(Instr::Pair)?;
    }
    ends(alloc, code, int(1)?, 26, 0)
}

fn endless(alloc: Global, turns: u64) -> Result<(&'static str, u64), Fail> {
    let mut body = Items::new(alloc);
    body.push(Instr::Push(Ty::Bool, Val::Bool(true)))?;
    let mut code = Items::new(alloc);
    code.push(Instr::Loop(body))?;
    ends(alloc, code, Val::Bool(true), 100, turns)
}

fn asked(alloc: Global, gas: u64) -> Result<(&'static str, u64), Fail> {
    let mut code = Items::new(alloc);
    code.push(Instr::Balance)?;
    ends(alloc, code, Val::Unit, gas, 0)
}

#[test]
fn the_counter_costs_six(rt: HostRuntime) -> Result<(), Fail> {
    assert_eq!(rt; counter(rt.alloc(), 6)?, ("returns", 0));
    assert_eq!(rt; counter(rt.alloc(), 5)?, ("out of gas", 0));
    Ok(())
}

#[test]
fn a_pair_of_pairs_has_4096_leaves_at_most(rt: HostRuntime) -> Result<(), Fail> {
    assert_eq!(rt; doubled(rt.alloc(), 12)?, ("returns", 2));
    assert_eq!(rt; doubled(rt.alloc(), 13)?, ("too large", 0));
    Ok(())
}

#[test]
fn an_endless_loop_runs_out_of_turns(rt: HostRuntime) -> Result<(), Fail> {
    assert_eq!(rt; endless(rt.alloc(), 3)?, ("out of turns", 92));
    Ok(())
}

#[test]
fn the_balance_is_asked_for_once_it_is_paid(rt: HostRuntime) -> Result<(), Fail> {
    assert_eq!(rt; asked(rt.alloc(), 10)?, ("asks for the balance", 0));
    assert_eq!(rt; asked(rt.alloc(), 9)?, ("out of gas", 9));
    Ok(())
}
