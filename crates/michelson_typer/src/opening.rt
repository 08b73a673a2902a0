//! What the bodies of an instruction begin on.

ghost use Rattle.std.specs.Prelude.{◌≡◌, ◌++◌, [], ◌∷◌, IfOk, IsTrue, drop, false, if◌then◌else◌, length, nat_le, true};
ghost use Rattle.std.specs.Option.{option_map};
ghost use Rattle.michelson_code.specs.declared.instr.Instr.TheViews.{out-Instr};
ghost use Rattle.michelson_code.specs.Forms.{bodies_of};
ghost use Rattle.michelson_typer.specs.Opened.{Opens, body_list, dips, goes_over, has_bodies, starts_of};
ghost use Rattle.michelson_typer.specs.Tables.{Grows, are_in};

use crate::stack::joined;
use crate::types::{TypeId, Types};
use michelson_code::{Instr, Level};
use std::alloc::Global;
use value_core::NoMemory;

/// How many items are set aside while a body runs, and the stack that it begins on.
#[derive(Drop)]
pub(crate) struct Start {
    pub aside: usize,
    pub stack: Vec<TypeId>,
}

/// The starts of the bodies of an instruction.
#[derive(Drop)]
pub(crate) enum Starts {
    None,
    One(Start),
    Two(Start, Start),
}

/// The bodies of an instruction.
#[derive(Clone, Copy)]
pub(crate) enum Bodies<'a> {
    None,
    One(&'a [Instr]),
    Two(&'a [Instr], &'a [Instr]),
}

/// The bodies of an instruction, from the left.
pub(crate) fn bodies_of(instr: &Instr) -> Bodies<'_>
    ensures { body_list result ≡ bodies_of instr.now }
{
    match instr {
        Instr::Dip(c)
        | Instr::DipN(_, c)
        | Instr::Loop(c)
        | Instr::LoopLeft(c)
        | Instr::Iter(c)
        | Instr::Map(c) => Bodies::One(c.as_slice()),
        Instr::If(c, d) | Instr::IfNone(c, d) | Instr::IfLeft(c, d) | Instr::IfCons(c, d) => {
            Bodies::Two(c.as_slice(), d.as_slice())
        }
        _ => Bodies::None,
    }
}

/// Whether the instruction has bodies, or fails.
pub(crate) fn has_bodies(instr: &Instr) -> bool
    ensures { result ≡ has_bodies (out-Instr instr.now) }
{
    matches!(
        instr,
        Instr::Dip(_)
            | Instr::DipN(_, _)
            | Instr::If(_, _)
            | Instr::IfNone(_, _)
            | Instr::IfLeft(_, _)
            | Instr::IfCons(_, _)
            | Instr::Loop(_)
            | Instr::LoopLeft(_)
            | Instr::Iter(_)
            | Instr::Map(_)
            | Instr::Failwith
    )
}

/// What the bodies begin on; none where the operands don't stand on the stack.
pub(crate) fn opened(
    alloc: Global,
    types: &mut Types,
    instr: &Instr,
    stack: &[TypeId],
) -> Result<Option<Starts>, NoMemory>
    requires { IsTrue (are_in types.old stack.now) }
    ensures grows { Grows types.old types.new }
    ensures starts { IfOk result (λ begun.
        Opens types.old types.new instr.now stack.now (option_map starts_of begun)) }
{
    match instr {
        Instr::Dip(_) => below(alloc, stack, 1),
        Instr::DipN(n, _) => below(alloc, stack, *n as usize),
        _ => match stack {
            [top, rest @ ..] => on_top(alloc, types, instr, *top, rest),
            [] => Ok(None),
        },
    }
}

/// What the bodies begin on of an instruction that takes its top apart.
fn on_top(
    alloc: Global,
    types: &mut Types,
    instr: &Instr,
    top: TypeId,
    rest: &[TypeId],
) -> Result<Option<Starts>, NoMemory>
    requires dips { dips (out-Instr instr.now) ≡ false }
    requires stack { IsTrue (are_in types.old (top ∷ rest.now)) }
    ensures grows { Grows types.old types.new }
    ensures starts { IfOk result (λ begun.
        Opens types.old types.new instr.now (top ∷ rest.now) (option_map starts_of begun)) }
{
    match instr {
        Instr::If(_, _) => match types.level(top) {
            Level::Bool => two_bodies(alloc, &[], rest, &[], rest),
            _ => Ok(None),
        },
        Instr::IfNone(_, _) => match types.level(top) {
            Level::Option(a) => two_bodies(alloc, &[], rest, &[a], rest),
            _ => Ok(None),
        },
        Instr::IfLeft(_, _) => match types.level(top) {
            Level::Or(a, b) => two_bodies(alloc, &[a], rest, &[b], rest),
            _ => Ok(None),
        },
        Instr::IfCons(_, _) => match types.level(top) {
            Level::List(a) => two_bodies(alloc, &[a, top], rest, &[], rest),
            _ => Ok(None),
        },
        Instr::Loop(_) => match types.level(top) {
            Level::Bool => one_body(alloc, &[], rest),
            _ => Ok(None),
        },
        Instr::LoopLeft(_) => match types.level(top) {
            Level::Or(a, _) => one_body(alloc, &[a], rest),
            _ => Ok(None),
        },
        Instr::Iter(_) | Instr::Map(_) => over_items(alloc, types, instr, top, rest),
        Instr::Failwith => match types.extent(top).passable {
            true => Ok(Some(Starts::None)),
            false => Ok(None),
        },
        _ => Ok(None),
    }
}

/// What the body of `ITER` or `MAP` begins on.
fn over_items(
    alloc: Global,
    types: &mut Types,
    instr: &Instr,
    top: TypeId,
    rest: &[TypeId],
) -> Result<Option<Starts>, NoMemory>
    requires over { goes_over (out-Instr instr.now) ≡ true }
    requires stack { IsTrue (are_in types.old (top ∷ rest.now)) }
    ensures grows { Grows types.old types.new }
    ensures starts { IfOk result (λ begun.
        Opens types.old types.new instr.now (top ∷ rest.now) (option_map starts_of begun)) }
{
    match types.level(top) {
        Level::List(a) => one_body(alloc, &[a], rest),
        Level::Set(a) => match instr {
            Instr::Iter(_) => one_body(alloc, &[a], rest),
            _ => Ok(None),
        },
        Level::Map(k, v) => {
            let pair = types.intern(Level::Pair(k, v))?;
            one_body(alloc, &[pair], rest)
        }
        _ => Ok(None),
    }
}

/// A body below so many items.
fn below(alloc: Global, stack: &[TypeId], aside: usize) -> Result<Option<Starts>, NoMemory>
    ensures { IfOk result (λ begun. option_map starts_of begun ≡
        (if nat_le aside (length stack.now) then Some ((aside, drop aside stack.now) ∷ []) else None)) }
{
    if aside > stack.len() {
        return Ok(None);
    }
    let stack = Vec::from_slice(alloc, &stack[aside..])?;
    Ok(Some(Starts::One(Start { aside, stack })))
}

/// One body, with these types on top of a stack.
fn one_body(alloc: Global, top: &[TypeId], rest: &[TypeId]) -> Result<Option<Starts>, NoMemory>
    ensures { IfOk result (λ begun.
        option_map starts_of begun ≡ Some ((0, top.now ++ rest.now) ∷ [])) }
{
    Ok(Some(Starts::One(begin(alloc, top, rest)?)))
}

/// Two bodies.
fn two_bodies(
    alloc: Global,
    top: &[TypeId],
    rest: &[TypeId],
    other_top: &[TypeId],
    other_rest: &[TypeId],
) -> Result<Option<Starts>, NoMemory>
    ensures { IfOk result (λ begun. option_map starts_of begun ≡
        Some ((0, top.now ++ rest.now) ∷ (0, other_top.now ++ other_rest.now) ∷ [])) }
{
    let first = begin(alloc, top, rest)?;
    let second = begin(alloc, other_top, other_rest)?;
    Ok(Some(Starts::Two(first, second)))
}

fn begin(alloc: Global, top: &[TypeId], rest: &[TypeId]) -> Result<Start, NoMemory>
    ensures aside { IfOk result (λ start. start.aside ≡ 0) }
    ensures stack { IfOk result (λ start. start.stack.items ≡ top.now ++ rest.now) }
{
    let stack = joined(alloc, top, rest)?;
    Ok(Start { aside: 0, stack })
}
