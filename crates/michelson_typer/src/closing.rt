//! What an instruction makes of how its bodies end.

ghost use Rattle.std.specs.Prelude.{◌≡◌, ◌<◌, ◌≤◌, ◌++◌, [], ◌∷◌, IfOk, IsTrue, length, take};
ghost use Rattle.michelson_code.specs.Forms.{bodies_of};
ghost use Rattle.michelson_code.specs.Typing.{MayBegin};
ghost use Rattle.michelson_typer.specs.Closed.{
  Closes,
  IsDipped,
  IsJoined,
  IsMapped,
  IsRound,
  RemakesLevel,
  are_ends_in,
  closed,
  end_of,
  ends_of,
  is_end_in,
};
ghost use Rattle.michelson_typer.specs.Tables.{Grows, are_in, types_at};

use crate::stack::{Ends, joined, same_stack};
use crate::types::{TypeId, Types};
use michelson_code::{Instr, Level, TypeKind};
use std::alloc::Global;
use value_core::NoMemory;

/// How the bodies of an instruction end.
#[derive(Drop)]
pub(crate) enum BodyEnds {
    None,
    One(Ends),
    Two(Ends, Ends),
}

/// What the instruction makes of the stack, or why the bodies may not end so.
pub(crate) fn outcome(
    alloc: Global,
    types: &mut Types,
    instr: &Instr,
    stack: &[TypeId],
    ends: BodyEnds,
) -> Result<Result<Ends, TypeKind>, NoMemory>
    requires begun { MayBegin instr.now (types_at types.old stack.now) }
    requires many { length (ends_of ends) ≡ length (bodies_of instr.now) }
    requires stack { IsTrue (are_in types.old stack.now) }
    requires ends { IsTrue (are_ends_in types.old (ends_of ends)) }
    ensures grows { Grows types.old types.new }
    ensures closes { IfOk result (λ answer.
        Closes types.old types.new instr.now stack.now (ends_of ends) (closed answer)) }
{
    types.are_distinct();
    match ends {
        BodyEnds::None => Ok(Ok(Ends::Fails)),
        BodyEnds::One(end) => after_body(alloc, types, instr, stack, end),
        BodyEnds::Two(first, second) => Ok(after_branches(first, second)),
    }
}

/// Branches end alike, unless one fails.
fn after_branches(first: Ends, second: Ends) -> Result<Ends, TypeKind>
    ensures { IsJoined (end_of first) (end_of second) (closed result) }
{
    match (first, second) {
        (Ends::Fails, end) => Ok(end),
        (end, Ends::Fails) => Ok(end),
        (Ends::To(a), Ends::To(b)) => {
            if same_stack(a.as_slice(), b.as_slice()) {
                Ok(Ends::To(a))
            } else {
                Err(TypeKind::BranchesDiffer)
            }
        }
    }
}

fn after_body(
    alloc: Global,
    types: &mut Types,
    instr: &Instr,
    stack: &[TypeId],
    end: Ends,
) -> Result<Result<Ends, TypeKind>, NoMemory>
    requires begun { MayBegin instr.now (types_at types.old stack.now) }
    requires many { 1 ≡ length (bodies_of instr.now) }
    requires stack { IsTrue (are_in types.old stack.now) }
    requires end { IsTrue (is_end_in types.old (end_of end)) }
    ensures grows { Grows types.old types.new }
    ensures closes { IfOk result (λ answer.
        Closes types.old types.new instr.now stack.now (end_of end ∷ []) (closed answer)) }
{
    types.are_distinct();
    match instr {
        Instr::Dip(_) => after_dip(alloc, stack, 1, end),
        Instr::DipN(n, _) => after_dip(alloc, stack, *n as usize, end),
        Instr::Map(_) => after_map(alloc, types, stack, end),
        Instr::LoopLeft(_) => match stack {
            [top, rest @ ..] => match types.level(*top) {
                Level::Or(_, b) => after_round(alloc, stack, &[b], rest, end),
                _ => Ok(Err(TypeKind::BranchesDiffer)),
            },
            [] => Ok(Err(TypeKind::BranchesDiffer)),
        },
        Instr::Loop(_) => match stack {
            [_, rest @ ..] => after_round(alloc, stack, &[], rest, end),
            [] => Ok(Err(TypeKind::BranchesDiffer)),
        },
        Instr::Iter(_) => match stack {
            [_, rest @ ..] => after_round(alloc, rest, &[], rest, end),
            [] => Ok(Err(TypeKind::BranchesDiffer)),
        },
        _ => Ok(Err(TypeKind::BranchesDiffer)),
    }
}

/// A body that runs again ends with a stack, unless it fails; then this one is left.
fn after_round(
    alloc: Global,
    wanted: &[TypeId],
    top: &[TypeId],
    rest: &[TypeId],
    end: Ends,
) -> Result<Result<Ends, TypeKind>, NoMemory>
    ensures { IfOk result (λ answer.
        IsRound wanted.now (top.now ++ rest.now) (end_of end) (closed answer)) }
{
    if let Ends::To(stack) = end
        && !same_stack(stack.as_slice(), wanted)
    {
        return Ok(Err(TypeKind::BranchesDiffer));
    }
    Ok(Ok(Ends::To(joined(alloc, top, rest)?)))
}

/// The items that were set aside stand on top again.
fn after_dip(
    alloc: Global,
    stack: &[TypeId],
    aside: usize,
    end: Ends,
) -> Result<Result<Ends, TypeKind>, NoMemory>
    requires { aside ≤ length stack.now }
    ensures { IfOk result (λ answer.
        IsDipped (take aside stack.now) (end_of end) (closed answer)) }
{
    match end {
        Ends::Fails => Ok(Err(TypeKind::FailNotLast)),
        Ends::To(below) => {
            let stack = joined(alloc, &stack[..aside], below.as_slice())?;
            Ok(Ok(Ends::To(stack)))
        }
    }
}

/// A body leaves one item for each of the list or map.
fn after_map(
    alloc: Global,
    types: &mut Types,
    stack: &[TypeId],
    end: Ends,
) -> Result<Result<Ends, TypeKind>, NoMemory>
    requires stack { IsTrue (are_in types.old stack.now) }
    requires end { IsTrue (is_end_in types.old (end_of end)) }
    ensures grows { Grows types.old types.new }
    ensures mapped { IfOk result (λ answer.
        IsMapped types.old types.new stack.now (end_of end) (closed answer)) }
{
    let Ends::To(left) = end else {
        return Ok(Err(TypeKind::FailNotLast));
    };
    match left.as_slice() {
        [made, under @ ..] => match stack {
            [top, rest @ ..] => {
                if !same_stack(under, rest) {
                    return Ok(Err(TypeKind::BranchesDiffer));
                }
                let level = remade(types, *top, *made);
                let whole = types.intern(level)?;
                Ok(Ok(Ends::To(joined(alloc, &[whole], rest)?)))
            }
            [] => Ok(Err(TypeKind::BranchesDiffer)),
        },
        [] => Ok(Err(TypeKind::BranchesDiffer)),
    }
}

/// The level of a list or a map with what a body made of each item.
fn remade(types: &Types, top: TypeId, made: TypeId) -> Level<TypeId>
    requires top { top < length types.now }
    requires made { made < length types.now }
    ensures { RemakesLevel types.now top made result }
{
    match types.level(top) {
        Level::Map(k, _) => Level::Map(k, made),
        _ => Level::List(made),
    }
}
