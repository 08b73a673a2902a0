//! Items of lists, sets and maps, moved out of them.

ghost use Rattle.std.specs.Prelude.{◌≡◌, ◌∷◌, ◌++◌, [], IfOk, List, MatchOption, Ok, Some, length, map};
ghost use Rattle.value_core.specs.declared.val.Val.{Val};
ghost use Rattle.value_core.specs.declared.val.Val.TheViews.{out-Val};
ghost use Rattle.value_core.specs.Sorted.{keys_of};
ghost use Rattle.michelson_rules.specs.Bodies.{entry_pair, items_of};
ghost use Rattle.michelson_machine.specs.Resume.{entries_of, made_of};
ghost use Rattle.michelson_machine.specs.Steps.{keys_in};

use crate::pile::Pile;
use sqlite_items::Items;
use std::alloc::{AllocError, Global};
use value_core::{NoMemory, Val, pair};

/// The first item, and the others.
pub fn split_first(mut items: Items<Val>) -> Option<(Val, Items<Val>)>
    ensures { MatchOption result (items ≡ []) (λ p. items ≡ p.0 ∷ p.1) }
{
    if items.is_empty() {
        return None;
    }
    let first = items.remove(0);
    Some((first, items))
}

/// Items with the first on top.
pub fn in_a_pile(alloc: Global, mut items: Items<Val>) -> Result<Pile<Val>, NoMemory>
    ensures { IfOk result (λ pile. pile ≡ items) }
{
    let mut pile = Pile::new(alloc);
    while let Some(item) = items.pop() {
        pile.push(item)?;
    }
    Ok(pile)
}

/// Entries as pairs, with the first on top.
pub fn in_pairs(alloc: Global, mut entries: Items<(Val, Val)>) -> Result<Pile<Val>, NoMemory>
    ensures { IfOk result (λ pile. pile ≡ map entry_pair entries) }
{
    let mut pile = Pile::new(alloc);
    while let Some(entry) = entries.pop() {
        pile.push(pair(alloc, entry.0, entry.1)?)?;
    }
    Ok(pile)
}

/// The items of a list, set or map, from the least.
pub fn items_of(alloc: Global, v: Val) -> Result<Pile<Val>, NoMemory>
    ensures { IfOk result (λ pile. items_of (out-Val v) ≡ Some pile) }
{
    match v.into_list() {
        Ok(items) => in_a_pile(alloc, items),
        Err(v) => match v.into_set() {
            Ok(items) => in_a_pile(alloc, items),
            Err(v) => match v.into_entries() {
                Ok(entries) => in_pairs(alloc, entries),
                Err(_) => Err(AllocError),
            },
        },
    }
}

/// Copies of the keys of a map; a list has none.
pub fn keys_of(alloc: Global, v: &Val) -> Result<Option<Items<Val>>, NoMemory>
    ensures { IfOk result (λ keys. keys_in (out-Val v.now) ≡ Some keys) }
{
    match v {
        Val::List(_) => Ok(None),
        Val::Map(entries) => Ok(Some(copies(alloc, entries.as_slice())?)),
        _ => Err(AllocError),
    }
}

fn copies(alloc: Global, entries: &[(Val, Val)]) -> Result<Items<Val>, NoMemory>
    ensures { IfOk result (λ keys. keys ≡ keys_of entries.now) }
{
    let mut keys = Items::new(alloc);
    for entry in entries {
        keys.push(entry.0.copy(alloc)?)?;
    }
    Ok(keys)
}

/// A list of results, or a map of the keys with them.
pub fn made_of(alloc: Global, keys: Option<Items<Val>>, done: Items<Val>) -> Result<Val, NoMemory>
    ensures { IfOk result (λ v. v ≡ made_of keys done) }
{
    match keys {
        None => Ok(Val::List(done)),
        Some(keys) => Ok(Val::Map(entries_of(alloc, keys, done)?)),
    }
}

fn entries_of(
    alloc: Global,
    keys: Items<Val>,
    done: Items<Val>,
) -> Result<Items<(Val, Val)>, NoMemory>
    ensures { IfOk result (λ entries. entries ≡ entries_of keys done) }
{
    let mut keys = in_a_pile(alloc, keys)?;
    let mut values = in_a_pile(alloc, done)?;
    let mut entries = Items::new(alloc);
    'entries: loop {
        match (keys.pop(), values.pop()) {
            (Some(key), Some(value)) => entries.push((key, value))?,
            _ => return Ok(entries),
        }
    }
}
