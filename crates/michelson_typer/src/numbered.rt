//! Instructions that move as many items as they say.

ghost use Rattle.std.specs.Prelude.{◌≡◌, ◌+◌, ◌-◌, ◌<◌, ◌≤◌, ◌∷◌, ◌++◌, ◌⊎◌, [], IfOk, IsTrue, MatchOption, drop, length, slice_index, take};
ghost use Rattle.michelson_code.specs.Typing.{comb_type};
ghost use Rattle.michelson_typer.specs.Numbered.{HasItems, IsComb, IsUnpaired, StartsWithComb};
ghost use Rattle.michelson_typer.specs.Stacks.{IsStackOf};
ghost use Rattle.michelson_typer.specs.Tables.{Grows, IsTypeOf, are_in, type_at, types_at};

use crate::stack::joined;
use crate::types::{TypeId, Types};
use michelson_code::Level;
use std::alloc::Global;
use value_core::NoMemory;

/// Without so many items.
pub(crate) fn drop_n(
    alloc: Global,
    stack: &[TypeId],
    n: usize,
) -> Result<Option<Vec<TypeId>>, NoMemory>
    ensures { IfOk result (λ r. MatchOption r (length stack.now < n) (λ made.
        (n ≤ length stack.now) × (made.items ≡ drop n stack.now))) }
{
    if n > stack.len() {
        return Ok(None);
    }
    Ok(Some(Vec::from_slice(alloc, &stack[n..])?))
}

/// With a copy of the item of that number on top, counted from 1.
pub(crate) fn dup_n(
    alloc: Global,
    stack: &[TypeId],
    n: usize,
) -> Result<Option<Vec<TypeId>>, NoMemory>
    ensures { IfOk result (λ r. MatchOption r ((n ≡ 0) ⊎ (length stack.now < n)) (λ made.
        (0 < n) × (n ≤ length stack.now)
        × (made.items ≡ slice_index stack.now (n - 1) ∷ stack.now))) }
{
    if n == 0 || n > stack.len() {
        return Ok(None);
    }
    Ok(Some(joined(alloc, &[stack[n - 1]], stack)?))
}

/// With the item below so many others on top.
pub(crate) fn dig(
    alloc: Global,
    stack: &[TypeId],
    n: usize,
) -> Result<Option<Vec<TypeId>>, NoMemory>
    ensures { IfOk result (λ r. MatchOption r (length stack.now ≤ n) (λ made.
        (n < length stack.now)
        × (made.items ≡ (slice_index stack.now n ∷ take n stack.now) ++ drop (n + 1) stack.now))) }
{
    if n >= stack.len() {
        return Ok(None);
    }
    let mut dug = joined(alloc, &[stack[n]], &stack[..n])?;
    dug.extend_from_slice(&stack[n + 1..])?;
    Ok(Some(dug))
}

/// With the top item below so many others.
pub(crate) fn dug(
    alloc: Global,
    stack: &[TypeId],
    n: usize,
) -> Result<Option<Vec<TypeId>>, NoMemory>
    ensures { IfOk result (λ r. MatchOption r (length stack.now ≤ n) (λ made.
        (n < length stack.now)
        × (made.items ≡
        (take n (drop 1 stack.now) ++ slice_index stack.now 0 ∷ []) ++ drop (n + 1) stack.now))) }
{
    if n >= stack.len() {
        return Ok(None);
    }
    let below = &stack[1..];
    let mut dug = joined(alloc, &below[..n], &[stack[0]])?;
    dug.extend_from_slice(&stack[n + 1..])?;
    Ok(Some(dug))
}

/// With pairs to the right of so many items, at least 1, in their place.
pub(crate) fn pair_n(
    alloc: Global,
    types: &mut Types,
    stack: &[TypeId],
    n: usize,
) -> Result<Option<Vec<TypeId>>, NoMemory>
    requires { IsTrue (are_in types.old stack.now) }
    ensures grows { Grows types.old types.new }
    ensures made { IfOk result (λ r. MatchOption r ((n ≡ 0) ⊎ (length stack.now < n)) (λ made.
        (0 < n) × (n ≤ length stack.now) × IsStackOf types.new made.items
        (comb_type (types_at types.old (take (n - 1) stack.now))
        (type_at types.old (slice_index stack.now (n - 1)))
        ∷ types_at types.old (drop n stack.now)))) }
{
    if n == 0 || n > stack.len() {
        return Ok(None);
    }
    let comb = comb(types, &stack[..n - 1], stack[n - 1])?;
    Ok(Some(joined(alloc, &[comb], &stack[n..])?))
}

/// Pairs to the right of items and a last one.
fn comb(types: &mut Types, items: &[TypeId], last: TypeId) -> Result<TypeId, NoMemory>
    requires items { IsTrue (are_in types.old items.now) }
    requires last { last < length types.old }
    ensures grows { Grows types.old types.new }
    ensures made { IfOk result (λ id. IsTypeOf types.new id
        (comb_type (types_at types.old items.now) (type_at types.old last))) }
{
    match items {
        [] => Ok(last),
        [first, rest @ ..] => {
            let behind = comb(types, rest, last)?;
            types.intern(Level::Pair(*first, behind))
        }
    }
}

/// With the items of pairs to the right, so many, in their place.
pub(crate) fn unpair_n(
    alloc: Global,
    types: &Types,
    stack: &[TypeId],
    n: usize,
) -> Result<Option<Vec<TypeId>>, NoMemory>
    requires { IsTrue (are_in types.now stack.now) }
    ensures { IfOk result (λ r. MatchOption r (¬ StartsWithComb types.now stack.now n) (λ made.
        IsUnpaired types.now stack.now n made.items)) }
{
    match stack {
        [] => Ok(None),
        [top, below @ ..] => match comb_items(alloc, types, *top, n)? {
            Some(items) => Ok(Some(joined(alloc, items.as_slice(), below)?)),
            None => Ok(None),
        },
    }
}

/// The items of pairs to the right, so many.
fn comb_items(
    alloc: Global,
    types: &Types,
    id: TypeId,
    n: usize,
) -> Result<Option<Vec<TypeId>>, NoMemory>
    requires { id < length types.now }
    ensures { IfOk result (λ r. MatchOption r (¬ IsComb (type_at types.now id) n) (λ made.
        HasItems types.now (type_at types.now id) n made.items)) }
{
    if n == 0 {
        return Ok(None);
    }
    if n == 1 {
        return Ok(Some(joined(alloc, &[id], &[])?));
    }
    match types.level(id) {
        Level::Pair(first, rest) => match comb_items(alloc, types, rest, n - 1)? {
            Some(items) => Ok(Some(joined(alloc, &[first], items.as_slice())?)),
            None => Ok(None),
        },
        _ => Ok(None),
    }
}
