//! Stacks of types, top first.

ghost use Rattle.std.specs.Prelude.{◌≡◌, ◌+◌, ◌++◌, ◌≤◌, ◌↔◌, IfOk, IsTrue, length};
ghost use Rattle.std.specs.List.{list_all};
ghost use Rattle.michelson_code.specs.WrittenTypes.{is_within_limits};
ghost use Rattle.michelson_typer.specs.Tables.{are_in, types_at};

use crate::types::{TypeId, Types};
use std::alloc::Global;
use value_core::NoMemory;

/// A stack, whose top stands first, or that code fails on each way.
#[derive(Drop)]
pub(crate) enum Ends {
    To(Vec<TypeId>),
    Fails,
}

/// Some types on top of a stack.
pub(crate) fn joined(
    alloc: Global,
    top: &[TypeId],
    below: &[TypeId],
) -> Result<Vec<TypeId>, NoMemory>
    ensures { IfOk result (λ stack. stack.items ≡ top.now ++ below.now) }
{
    let mut stack = Vec::with_capacity(alloc, top.len())?;
    stack.extend_from_slice(top)?;
    stack.extend_from_slice(below)?;
    Ok(stack)
}

/// Whether a stack has at most 128 items, with those that are set aside.
pub(crate) fn is_low(aside: usize, stack: &[TypeId]) -> bool
    ensures { IsTrue result ↔ (aside + length stack.now ≤ 128) }
{
    aside <= 128 && stack.len() <= 128 - aside
}

/// Whether each type of a stack is within the limits.
#[tactic(auto, using(crate::proofs::LimitLaws::limit_laws))]
pub(crate) fn is_light(types: &Types, stack: &[TypeId]) -> bool
    requires { IsTrue (are_in types.now stack.now) }
    ensures { result ≡ list_all is_within_limits (types_at types.now stack.now) }
{
    for id in stack {
        if !types.extent(*id).is_light() {
            return false;
        }
    }
    true
}

/// Whether two stacks are equal, number by number.
pub(crate) fn same_stack(a: &[TypeId], b: &[TypeId]) -> bool
    ensures { IsTrue result ↔ a.now ≡ b.now }
{
    a == b
}
