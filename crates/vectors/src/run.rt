//! Cases of metered runs: what a script returns or how it fails, what is left, and what it asked.

ghost use Rattle.std.specs.Prelude.{◌≡◌, ◌<◌, ◌^◌, IfOk, IfSome, None, length};
ghost use Rattle.michelson_machine.specs.Outcomes.{awaits};

use crate::ledger::Ledger;
use crate::words::{address_of, bytes_of, put_hex, put_value, value_of};
use michelson_code::{Typed, Why};
use michelson_machine::{Ask, Budget, End, Env, Machine, Turn};
use michelson_reader::{ReadFault, print_type, read_script};
use michelson_typer::{TypeRefusal, check};
use std::alloc::{AllocError, Global};
use value_core::{Emit, Val, has_type, is_placed};

/// The answer to a case of this table, and `no case` to any other line.
pub fn answer(alloc: Global, words: &str) -> Result<Vec<u8>, AllocError> {
    let mut parts = Vec::new(alloc);
    for word in words.split(' ') {
        parts.push(word)?;
    }
    match of_words(alloc, parts.as_slice())? {
        Some(answer) => Ok(answer),
        None => Vec::from_slice(alloc, b"no case"),
    }
}

/// A script with its values, who calls, what may be spent, and the ledger.
fn of_words(alloc: Global, words: &[&str]) -> Result<Option<Vec<u8>>, AllocError> {
    if words.len() != 15 {
        return Ok(None);
    }
    let Some(script) = script_of(alloc, words[0])? else {
        return Ok(None);
    };
    let Some(param) = value_of(alloc, words[1])? else {
        return Ok(None);
    };
    let Some(storage) = value_of(alloc, words[2])? else {
        return Ok(None);
    };
    let Some(env) = env_of(alloc, &words[3..9])? else {
        return Ok(None);
    };
    let Some(left) = budget_of(words[9], words[10], words[11]) else {
        return Ok(None);
    };
    let Some(ledger) = Ledger::of_words(alloc, words[12], words[13], words[14])? else {
        return Ok(None);
    };
    ran(alloc, &script, env, param, storage, left, &ledger)
}

fn script_of(alloc: Global, word: &str) -> Result<Option<Typed>, AllocError> {
    match bytes_of(alloc, word)? {
        Some(text) if text.len() < 0x1_0000_0000 => typed(alloc, &text),
        _ => Ok(None),
    }
}

/// The script that a text writes, where it may run.
pub fn typed(alloc: Global, text: &[u8]) -> Result<Option<Typed>, AllocError>
    requires { length text.now < 2 ^ 32 }
{
    let script = match read_script(alloc, text) {
        Ok(script) => script,
        Err(ReadFault::NoMemory) => return Err(AllocError),
        Err(_) => return Ok(None),
    };
    match check(alloc, script) {
        Ok(typed) => Ok(Some(typed)),
        Err(TypeRefusal::Fault(_)) => Ok(None),
        Err(TypeRefusal::NoMemory) => Err(AllocError),
    }
}

/// Six words: the amount, the sender, the source, the contract, the time and the level.
fn env_of(alloc: Global, words: &[&str]) -> Result<Option<Env>, AllocError>
    requires { length words.now ≡ 6 }
{
    let Some(sender) = address_of(alloc, words[1])? else {
        return Ok(None);
    };
    let Some(source) = address_of(alloc, words[2])? else {
        return Ok(None);
    };
    let Some(me) = address_of(alloc, words[3])? else {
        return Ok(None);
    };
    let amount = words[0].parse::<u64>();
    let now = words[4].parse::<u64>();
    match (amount, now, words[5].parse::<u32>()) {
        (Ok(amount), Ok(now), Ok(level)) => Ok(Some(Env {
            amount,
            sender,
            source,
            me,
            now,
            level,
        })),
        _ => Ok(None),
    }
}

fn budget_of(gas: &str, turns: &str, room: &str) -> Option<Budget> {
    match (
        gas.parse::<u64>(),
        turns.parse::<u64>(),
        room.parse::<u64>(),
    ) {
        (Ok(gas), Ok(turns), Ok(room)) => Some(Budget { gas, turns, room }),
        _ => None,
    }
}

/// What the run answers, where the values are those of the script.
fn ran(
    alloc: Global,
    script: &Typed,
    env: Env,
    param: Val,
    storage: Val,
    left: Budget,
    ledger: &Ledger,
) -> Result<Option<Vec<u8>>, AllocError> {
    let Some(machine) = started(alloc, script, env, param, storage, left)? else {
        return Ok(None);
    };
    let (end, asks) = run_to_the_end(alloc, machine, ledger)?;
    match end {
        Some(end) => Ok(Some(ended(alloc, &end, &asks)?)),
        None => Ok(None),
    }
}

/// A run, where the values are those of the script.
pub fn started<'a>(
    alloc: Global,
    script: &'a Typed,
    env: Env,
    param: Val,
    storage: Val,
    left: Budget,
) -> Result<Option<Machine<'a>>, AllocError>
    ensures { IfOk result (λ begun. IfSome begun (λ machine. awaits machine ≡ None)) }
{
    let types = script.script();
    if env.amount >= 1 << 63
        || !has_type(&param, &types.param)
        || !has_type(&storage, &types.storage)
        || !is_placed(&storage, &types.storage)
    {
        return Ok(None);
    }
    Ok(Some(Machine::start(alloc, script, env, param, storage, left)?))
}

/// How the run ends, and what it asked.
fn run_to_the_end(
    alloc: Global,
    mut machine: Machine<'_>,
    ledger: &Ledger,
) -> Result<(Option<End>, Vec<u8>), AllocError>
    requires { awaits machine ≡ None }
{
    let mut asks = Vec::new(alloc);
    for _ in 0..u64::MAX {
        match machine.advance(alloc)? {
            Turn::Done(end) => return Ok((Some(end), asks)),
            Turn::Ask(ask) => {
                put_ask(alloc, &ask, &mut asks)?;
                machine.reply(alloc, ledger.answer(alloc, &ask)?)?;
            }
        }
    }
    Ok((None, asks))
}

/// A comma where something stands before.
fn part(out: &mut Vec<u8>) -> Result<(), AllocError> {
    if !out.is_empty() {
        out.push(b',')?;
    }
    Ok(())
}

fn put_text(out: &mut Vec<u8>, text: &str) -> Result<(), AllocError> {
    out.extend_from_slice(text.as_bytes())
}

fn put_ask(alloc: Global, ask: &Ask, out: &mut Vec<u8>) -> Result<(), AllocError> {
    part(out)?;
    match ask {
        Ask::Balance => put_text(out, "balance"),
        Ask::Entry { place, key } => {
            let text = format!(in alloc; "entry:{place}:")?;
            put_text(out, text.as_str())?;
            put_value(alloc, key, out)
        }
        Ask::Contract { address, entry, ty } => {
            put_text(out, "contract:")?;
            put_hex(alloc, address.bytes(), out)?;
            put_text(out, ":")?;
            out.extend_from_slice(entry.bytes())?;
            put_text(out, ":")?;
            put_hex(alloc, &print_type(alloc, ty)?, out)
        }
    }
}

fn put_emit(alloc: Global, emit: &Emit, out: &mut Vec<u8>) -> Result<(), AllocError> {
    part(out)?;
    put_hex(alloc, emit.dest.bytes(), out)?;
    put_text(out, ":")?;
    out.extend_from_slice(emit.entry.bytes())?;
    put_text(out, ":")?;
    put_value(alloc, &emit.param, out)?;
    let amount = emit.amount;
    let text = format!(in alloc; ":{amount}")?;
    put_text(out, text.as_str())
}

fn put_change(
    alloc: Global,
    change: &(u8, Val, Option<Val>),
    out: &mut Vec<u8>,
) -> Result<(), AllocError> {
    part(out)?;
    let place = change.0;
    let text = format!(in alloc; "{place}:")?;
    put_text(out, text.as_str())?;
    put_value(alloc, &change.1, out)?;
    put_text(out, ":")?;
    match &change.2 {
        Some(v) => put_value(alloc, v, out),
        None => put_text(out, "none"),
    }
}

/// A list, and `-` where it is empty.
fn put_list(list: &[u8], out: &mut Vec<u8>) -> Result<(), AllocError> {
    put_text(out, " ")?;
    if list.is_empty() {
        put_text(out, "-")
    } else {
        out.extend_from_slice(list)
    }
}

fn put_left(alloc: Global, left: Budget, out: &mut Vec<u8>) -> Result<(), AllocError> {
    let Budget { gas, turns, room } = left;
    let text = format!(in alloc; " {gas} {turns} {room}")?;
    put_text(out, text.as_str())
}

fn ended(alloc: Global, end: &End, asks: &[u8]) -> Result<Vec<u8>, AllocError> {
    let mut out = Vec::new(alloc);
    match end {
        End::Return {
            ops,
            storage,
            changes,
            left,
        } => {
            put_text(&mut out, "return")?;
            put_left(alloc, *left, &mut out)?;
            put_text(&mut out, " ")?;
            put_value(alloc, storage, &mut out)?;
            put_list(&emits(alloc, ops.as_slice())?, &mut out)?;
            put_list(&all_changes(alloc, changes.as_slice())?, &mut out)?;
        }
        End::Fail { why, left } => {
            put_text(&mut out, "fail ")?;
            put_why(alloc, why, &mut out)?;
            put_left(alloc, *left, &mut out)?;
        }
    }
    put_list(asks, &mut out)?;
    Ok(out)
}

fn emits(alloc: Global, ops: &[Emit]) -> Result<Vec<u8>, AllocError> {
    let mut list = Vec::new(alloc);
    for emit in ops {
        put_emit(alloc, emit, &mut list)?;
    }
    Ok(list)
}

fn all_changes(alloc: Global, changes: &[(u8, Val, Option<Val>)]) -> Result<Vec<u8>, AllocError> {
    let mut list = Vec::new(alloc);
    for change in changes {
        put_change(alloc, change, &mut list)?;
    }
    Ok(list)
}

fn put_why(alloc: Global, why: &Why, out: &mut Vec<u8>) -> Result<(), AllocError> {
    match why {
        Why::Raised(v) => {
            put_text(out, "Raised:")?;
            put_value(alloc, v, out)
        }
        _ => {
            let text = format!(in alloc; "{why:?}")?;
            put_text(out, text.as_str())
        }
    }
}
