//! Pairs to the right: put together, and taken apart.

ghost use Rattle.std.specs.Prelude.{◌+◌, ◌++◌, ◌-◌, ◌<◌, ◌≡◌, ◌^◌, ◌≤◌, ◌↔◌, ◌∷◌, [], Err, IfOk, IsTrue, List, Some, is_some, length, min, reverse, sum_by, vec_capacity, vec_len};
ghost use Rattle.value_core.specs.Size.{size_of};
ghost use Rattle.michelson_rules.specs.Plain as rule;
ghost use Rattle.michelson_rules.specs.Answers.{on_any};
ghost use Rattle.michelson_data.specs.Replaces.{Replaces};
ghost use Rattle.michelson_data.specs.Pairing.{comb_up};
ghost use Rattle.michelson_data.specs.Tells.{Tells};

use crate::fault::DataEnd;
use crate::stack::settle;
use std::alloc::Global;
use value_core::{NoMemory, Val, is_within_size, pair, size};

/// Makes pairs to the right of so many. They are copied: a box takes its value at once, so one that
/// isn't had would take a part with it, and want of memory leaves the stack as it was.
pub(crate) fn together(alloc: Global, stack: &mut Vec<Val>, n: u32) -> Result<(), DataEnd>
    ensures applies { Replaces (rule.paired n (reverse stack.old.items)) result
        (reverse stack.new.items) }
    ensures unchanged { result ≡ Err DataEnd.NoMemory → stack.new.items ≡ stack.old.items }
{
    let (height, n) = (stack.len(), n as usize);
    if n == 0 || height < n {
        return Err(DataEnd::NoMemory);
    }
    let made = combed(alloc, &stack.as_slice()[height - n..]);
    settle(stack, n, made)
}

/// The pairs of these, the first of them the last part.
fn combed(alloc: Global, parts: &[Val]) -> Result<Val, DataEnd>
    requires { 1 ≤ length parts.now }
    ensures { Tells result (rule.combed (reverse parts.now)) }
{
    if !are_within_size(parts, 4096) {
        return Err(DataEnd::TooLarge);
    }
    Ok(comb_up(alloc, parts)?)
}

/// Whether all together are at most so large; no part is looked at further than there is room left.
fn are_within_size(parts: &[Val], most: u64) -> bool
    ensures { IsTrue result ↔ (sum_by size_of parts.now ≤ most) }
{
    let mut left = most;
    for part in parts {
        if !is_within_size(part, left) {
            return false;
        }
        left -= size(part);
    }
    true
}

fn comb_up(alloc: Global, parts: &[Val]) -> Result<Val, NoMemory>
    requires { 1 ≤ length parts.now }
    ensures { IfOk result (λ v. v ≡ comb_up parts.now) }
{
    let mut made = parts[0].copy(alloc)?;
    for part in &parts[1..] {
        made = pair(alloc, part.copy(alloc)?, made)?;
    }
    Ok(made)
}

/// Takes pairs to the right apart into so many.
pub(crate) fn apart(stack: &mut Vec<Val>, n: u32) -> Result<(), DataEnd>
    ensures applies { Replaces (on_any (λ v. rule.in_parts (rule.parts_of_comb n v)) (reverse stack.old.items))
        result (reverse stack.new.items) }
    ensures unchanged { result ≡ Err DataEnd.NoMemory → stack.new.items ≡ stack.old.items }
{
    let n = n as usize;
    let Some(v) = stack.pop() else {
        return Err(DataEnd::NoMemory);
    };
    match (has_parts(&v, n), stack.reserve(n)) {
        (true, Ok(())) => {
            spread(v, n, stack);
            Ok(())
        }
        _ => {
            stack.push_reserved(v);
            Err(DataEnd::NoMemory)
        }
    }
}

/// Whether there are so many parts.
fn has_parts(v: &Val, n: usize) -> bool
    ensures there { IsTrue result → IsTrue (is_some (rule.parts_of_comb n v.now)) }
    ensures some { IsTrue result → 1 ≤ n }
{
    if n < 1 {
        return false;
    }
    let mut rest = v;
    for _ in 1..n {
        match rest {
            Val::Pair(_, after) => rest = after.get(),
            _ => return false,
        }
    }
    true
}

/// Puts so many parts on the stack, the first on top.
fn spread(v: Val, n: usize, stack: &mut Vec<Val>)
    requires some { 1 ≤ n }
    requires room { vec_len stack.old + n ≤ vec_capacity stack.old }
    ensures parts { (parts : List Val) → rule.parts_of_comb n v ≡ Some parts →
        stack.new.items ≡ stack.old.items ++ reverse parts }
{
    let below = stack.len();
    let mut rest = v;
    for _ in 1..n {
        match rest.into_pair() {
            Ok((first, after)) => {
                stack.push_reserved(first);
                rest = after;
            }
            Err(other) => {
                stack.push_reserved(other);
                return;
            }
        }
    }
    stack.push_reserved(rest);
    stack[below..].reverse();
}
