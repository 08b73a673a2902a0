//! The walk over code: paths, and the order in which faults are told.

ghost use Rattle.std.specs.Prelude.{◌≡◌, ◌+◌, ◌≤◌, ◌↔◌, ℕ, List, IsTrue, false, length, sum_by, true};
ghost use Rattle.value_core.specs.declared.ty.Ty.{Ty};
ghost use Rattle.michelson_code.specs.declared.instr.Instr.TheViews.{out-Instr};
ghost use Rattle.michelson_code.specs.FirstFault.{BodiesFault, CodeFault, HasTooLarge, InstrFault, IsShort, IsTooTall, StartsKept};
ghost use Rattle.michelson_code.specs.Typing.{BodiesTyped, CodeTyped, InstrTyped, IsKept, is_fit_alone};
ghost use Rattle.michelson_code.specs.Weight.{code_count, count_of};
ghost use Rattle.michelson_typer.specs.Closed.{end_at, end_of, is_end_in};
ghost use Rattle.michelson_typer.specs.FirstKinds.{RulesOut};
ghost use Rattle.michelson_typer.specs.Opened.{are_starts_in, body_list, has_bodies, starts_at, starts_of};
ghost use Rattle.michelson_typer.specs.Tables.{Grows, are_in, types_at};
ghost use Rattle.michelson_typer.specs.Told.{BodiesOrTold, EndBreaks, EndsOrTold, IsBehind, IsEndKept, IsHere, KeptAs, SomeStart};

use crate::closing::{BodyEnds, outcome};
use crate::fault::{TypeRefusal, here, inside};
use crate::opening::{Bodies, Start, Starts, bodies_of, has_bodies, opened};
use crate::operands::{
    applied, is_fit_alone, is_short, writes_comparable_keys, writes_passable_values,
};
use crate::stack::{Ends, is_light, is_low};
use crate::types::{TypeId, Types};
use michelson_code::{Instr, Script, TypeKind};
use std::alloc::Global;

/// How a code ends that begins on the stack, while so many items are set aside.
#[cycle(walking)]
pub(crate) fn code_ends(
    alloc: Global,
    script: &Script,
    types: &mut Types,
    aside: usize,
    code: &[Instr],
    stack: &[TypeId],
) -> Result<Ends, TypeRefusal>
    requires stack { IsTrue (are_in types.old stack.now) }
    requires kept { IsKept aside (types_at types.old stack.now) }
    requires small { code_count code.now ≤ 65536 }
    ensures grows { Grows types.old types.new }
    ensures ends { let before = types_at types.old stack.now in
        EndsOrTold types.new (CodeTyped script.now aside code.now before)
        (CodeFault script.now aside code.now before) result }
{
    let mut ends = Ends::To(Vec::from_slice(alloc, stack)?);
    for (number, instr) in code.iter().enumerate() {
        let number = number as u32;
        let Ends::To(before) = ends else {
            return Err(inside(number, here(alloc, TypeKind::FailNotLast)));
        };
        match instr_ends(alloc, script, types, aside, instr, before.as_slice()) {
            Ok(after) => ends = after,
            Err(refusal) => return Err(inside(number, refusal)),
        }
    }
    Ok(ends)
}

/// What an instruction makes of the stack.
#[cycle(walking)]
fn instr_ends(
    alloc: Global,
    script: &Script,
    types: &mut Types,
    aside: usize,
    instr: &Instr,
    stack: &[TypeId],
) -> Result<Ends, TypeRefusal>
    requires stack { IsTrue (are_in types.old stack.now) }
    requires small { count_of instr.now ≤ 65536 }
    ensures grows { Grows types.old types.new }
    ensures ends { let before = types_at types.old stack.now in
        EndsOrTold types.new
        (λ o. InstrTyped script.now aside instr.now before o × IsEndKept aside o)
        (InstrFault script.now aside instr.now before) result }
{
    if is_short(types, instr, stack) {
        return Err(here(alloc, TypeKind::StackTooShort));
    }
    if !is_fit_alone(instr) {
        return Err(here(alloc, TypeKind::WrongType));
    }
    if has_bodies(instr) {
        around(alloc, script, types, aside, instr, stack)
    } else {
        alone(alloc, script, types, aside, instr, stack)
    }
}

/// An instruction without bodies.
fn alone(
    alloc: Global,
    script: &Script,
    types: &mut Types,
    aside: usize,
    instr: &Instr,
    stack: &[TypeId],
) -> Result<Ends, TypeRefusal>
    requires stack { IsTrue (are_in types.old stack.now) }
    requires long { IsShort (out-Instr instr.now) (types_at types.old stack.now) → ⊥ }
    requires fit { is_fit_alone instr.now ≡ true }
    requires lone { has_bodies (out-Instr instr.now) ≡ false }
    ensures grows { Grows types.old types.new }
    ensures ends { let before = types_at types.old stack.now in
        EndsOrTold types.new
        (λ o. InstrTyped script.now aside instr.now before o × IsEndKept aside o)
        (InstrFault script.now aside instr.now before) result }
{
    let Some(after) = applied(alloc, script, types, instr, stack)? else {
        return Err(here(alloc, TypeKind::WrongType));
    };
    if !writes_comparable_keys(instr) {
        return Err(here(alloc, TypeKind::NotComparable));
    }
    if !writes_passable_values(instr) {
        return Err(here(alloc, TypeKind::BigMapPlace));
    }
    kept(alloc, types, aside, Ends::To(after))
}

/// An end whose stack keeps the limits.
fn kept(alloc: Global, types: &Types, aside: usize, ends: Ends) -> Result<Ends, TypeRefusal>
    requires { IsTrue (is_end_in types.now (end_of ends)) }
    ensures { let end = end_at types.now (end_of ends) in
        EndsOrTold types.now (KeptAs aside end) (IsHere (EndBreaks aside end)) result }
{
    match ends {
        Ends::Fails => Ok(Ends::Fails),
        Ends::To(stack) => {
            if !is_low(aside, stack.as_slice()) {
                return Err(here(alloc, TypeKind::StackTooTall));
            }
            if !is_light(types, stack.as_slice()) {
                return Err(here(alloc, TypeKind::TypeTooLarge));
            }
            Ok(Ends::To(stack))
        }
    }
}

/// An instruction with bodies, or one that fails.
#[cycle(walking)]
fn around(
    alloc: Global,
    script: &Script,
    types: &mut Types,
    aside: usize,
    instr: &Instr,
    stack: &[TypeId],
) -> Result<Ends, TypeRefusal>
    requires stack { IsTrue (are_in types.old stack.now) }
    requires long { IsShort (out-Instr instr.now) (types_at types.old stack.now) → ⊥ }
    requires fit { is_fit_alone instr.now ≡ true }
    requires bodied { has_bodies (out-Instr instr.now) ≡ true }
    requires small { count_of instr.now ≤ 65536 }
    ensures grows { Grows types.old types.new }
    ensures ends { let before = types_at types.old stack.now in
        EndsOrTold types.new
        (λ o. InstrTyped script.now aside instr.now before o × IsEndKept aside o)
        (InstrFault script.now aside instr.now before) result }
{
    let Some(starts) = opened(alloc, types, instr, stack)? else {
        return Err(here(alloc, TypeKind::WrongType));
    };
    if !are_low(aside, &starts) {
        return Err(here(alloc, TypeKind::StackTooTall));
    }
    if !are_light(types, &starts) {
        return Err(here(alloc, TypeKind::TypeTooLarge));
    }
    let ends = body_ends(alloc, script, types, aside, bodies_of(instr), starts)?;
    match outcome(alloc, types, instr, stack, ends)? {
        Ok(ends) => kept(alloc, types, aside, ends),
        Err(kind) => Err(here(alloc, kind)),
    }
}

/// Whether each body begins on a stack of at most 128 items.
fn are_low(aside: usize, starts: &Starts) -> bool
    ensures { (table : List Ty) →
        RulesOut result (SomeStart IsTooTall aside (starts_at table (starts_of starts.now))) }
{
    match starts {
        Starts::None => true,
        Starts::One(start) => begins_low(aside, start),
        Starts::Two(first, second) => begins_low(aside, first) && begins_low(aside, second),
    }
}

fn begins_low(aside: usize, start: &Start) -> bool
    ensures { IsTrue result ↔ (aside + start.now.aside + length start.now.stack.items ≤ 128) }
{
    start.aside <= 128 && aside <= 128 && is_low(aside + start.aside, start.stack.as_slice())
}

/// Whether each body begins on types within the limits.
fn are_light(types: &Types, starts: &Starts) -> bool
    requires { IsTrue (are_starts_in types.now (starts_of starts.now)) }
    ensures { (n : ℕ) →
        RulesOut result (SomeStart HasTooLarge n (starts_at types.now (starts_of starts.now))) }
{
    match starts {
        Starts::None => true,
        Starts::One(start) => is_light(types, start.stack.as_slice()),
        Starts::Two(first, second) => {
            is_light(types, first.stack.as_slice()) && is_light(types, second.stack.as_slice())
        }
    }
}

/// How each body ends.
#[cycle(walking)]
fn body_ends(
    alloc: Global,
    script: &Script,
    types: &mut Types,
    aside: usize,
    bodies: Bodies<'_>,
    starts: Starts,
) -> Result<BodyEnds, TypeRefusal>
    requires many { length (body_list bodies) ≡ length (starts_of starts) }
    requires stacks { IsTrue (are_starts_in types.old (starts_of starts)) }
    requires kept { StartsKept aside (starts_at types.old (starts_of starts)) }
    requires small { sum_by code_count (body_list bodies) ≤ 65536 }
    ensures grows { Grows types.old types.new }
    ensures ends { let begun = starts_at types.old (starts_of starts) in
        BodiesOrTold types.new (BodiesTyped script.now aside (body_list bodies.entry) begun)
        (BodiesFault script.now aside (body_list bodies.entry) begun) result }
{
    match (bodies, starts) {
        (Bodies::One(code), Starts::One(start)) => {
            let end = body_end(alloc, script, types, aside, 0, code, &start)?;
            Ok(BodyEnds::One(end))
        }
        (Bodies::Two(code, other), Starts::Two(start, other_start)) => {
            let first = body_end(alloc, script, types, aside, 0, code, &start)?;
            let second = body_end(alloc, script, types, aside, 1, other, &other_start)?;
            Ok(BodyEnds::Two(first, second))
        }
        _ => Ok(BodyEnds::None),
    }
}

/// How the body of that number ends.
#[cycle(walking)]
fn body_end(
    alloc: Global,
    script: &Script,
    types: &mut Types,
    aside: usize,
    number: u32,
    code: &[Instr],
    start: &Start,
) -> Result<Ends, TypeRefusal>
    requires stack { IsTrue (are_in types.old start.now.stack.items) }
    requires kept { IsKept (aside + start.now.aside) (types_at types.old start.now.stack.items) }
    requires small { code_count code.now ≤ 65536 }
    ensures grows { Grows types.old types.new }
    ensures ends { let below = aside + start.now.aside in
        let before = types_at types.old start.now.stack.items in
        EndsOrTold types.new (CodeTyped script.now below code.now before)
        (IsBehind number (CodeFault script.now below code.now before)) result }
{
    let below = aside + start.aside;
    match code_ends(alloc, script, types, below, code, start.stack.as_slice()) {
        Ok(end) => Ok(end),
        Err(refusal) => Err(inside(number, refusal)),
    }
}
