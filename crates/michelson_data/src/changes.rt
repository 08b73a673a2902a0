//! Lists, sets and maps with one item more or less. All memory is had before anything moves.

ghost use Rattle.std.specs.Prelude.{◌<◌, ◌≡◌, ◌≤◌, ◌∷◌, [], Err, IfErr, IfOk, IsTrue, None, insert, if◌then◌else◌, length, reverse, vec_capacity, vec_len, ◌+◌, ◌++◌, OnOk};
ghost use Rattle.value_core.specs.declared.val.Val.TheViews.{out-Val};
ghost use Rattle.value_core.specs.Order.{order};
ghost use Rattle.value_core.specs.Sorted.{keys_of, put, with_key, without, without_key};
ghost use Rattle.value_core.specs.Sound.{ascends};
ghost use Rattle.michelson_rules.specs.Answers.{on_entry, on_key, sized};
ghost use Rattle.michelson_rules.specs.Collections as rule;
ghost use Rattle.michelson_data.specs.Replaces.{Replaces};
ghost use Rattle.michelson_data.specs.Sized.{IsSizedOf};

use crate::fault::DataEnd;
use crate::keys::found;
use crate::rows::within;
use sqlite_items::Items;
use std::alloc::{AllocError, Global};
use value_core::{NoMemory, Val, place_in_map, place_in_set};

/// Room for the items and one more.
fn room_for<T>(alloc: Global, items: &[T]) -> Result<Vec<T>, NoMemory>
    ensures empty { IfOk result (λ room. room.items ≡ []) }
    ensures room { IfOk result (λ room. length items.now < vec_capacity room) }
{
    let wanted = items.len().checked_add(1).ok_or(AllocError)?;
    Ok(Vec::with_capacity(alloc, wanted)?)
}

/// The items with one more at the place, in the room.
fn inserted<T: Drop>(mut room: Vec<T>, mut items: Items<T>, at: usize, item: T) -> Items<T>
    requires empty { room.items ≡ [] }
    requires room { length items < vec_capacity room }
    requires within { at ≤ length items }
    ensures { result ≡ insert items at item }
{
    while let Some(last) = items.pop() {
        room.push_reserved(last);
    }
    room.reverse();
    let _ = room.insert(at, item);
    Items::from_vec(room)
}

/// A set with the key or without it; or what was given, where memory ran out.
fn set_changed(
    alloc: Global,
    key: Val,
    there: bool,
    mut items: Items<Val>,
) -> Result<Items<Val>, (Val, Items<Val>)>
    ensures changed { IfOk result (λ new. IsTrue (ascends items) →
        new ≡ (if there then with_key order key items else without_key order key items)) }
    ensures kept { IfErr result (λ given. given ≡ (key, items)) }
{
    match place_in_set(items.as_slice(), &key) {
        Ok(_) if there => Ok(items),
        Ok(at) => {
            let _ = items.remove(at);
            Ok(items)
        }
        Err(at) if there => match room_for(alloc, items.as_slice()) {
            Ok(room) => Ok(inserted(room, items, at, key)),
            Err(_) => Err((key, items)),
        },
        Err(_) => Ok(items),
    }
}

/// A map with what the option has at the key; or what was given, where memory ran out.
fn map_with(
    alloc: Global,
    key: Val,
    choice: Val,
    mut entries: Items<(Val, Val)>,
) -> Result<Items<(Val, Val)>, (Val, Val, Items<(Val, Val)>)>
    ensures changed { IfOk result (λ new. (value : Val) → choice ≡ Val.Some value →
        IsTrue (ascends (keys_of entries)) → new ≡ put order key value entries) }
    ensures kept { IfErr result (λ given. given ≡ (key, choice, entries)) }
{
    match place_in_map(entries.as_slice(), &key) {
        Ok(at) => match choice.into_part() {
            Ok(value) => {
                entries.set(at, (key, value));
                Ok(entries)
            }
            Err(choice) => Err((key, choice, entries)),
        },
        Err(at) => match room_for(alloc, entries.as_slice()) {
            Ok(room) => match choice.into_part() {
                Ok(value) => Ok(inserted(room, entries, at, (key, value))),
                Err(choice) => Err((key, choice, entries)),
            },
            Err(_) => Err((key, choice, entries)),
        },
    }
}

/// A map without the key.
fn map_without(key: &Val, mut entries: Items<(Val, Val)>) -> Items<(Val, Val)>
    ensures { IsTrue (ascends (keys_of entries)) → result ≡ without order key.now entries }
{
    if let Ok(at) = place_in_map(entries.as_slice(), key) {
        let _ = entries.remove(at);
    }
    entries
}

/// A set or a map with the choice at the key; or what was given, where memory ran out or the
/// operands are of no such kinds.
fn changed(alloc: Global, key: Val, choice: Val, of: Val) -> Result<Val, (Val, Val, Val)>
    ensures changed { IfOk result (λ made.
        IsSizedOf made (rule.updated key (out-Val choice) (out-Val of))) }
    ensures kept { IfErr result (λ given. given ≡ (key, choice, of)) }
{
    match &choice {
        Val::Bool(there) => match of.into_set() {
            Ok(items) => match set_changed(alloc, key, *there, items) {
                Ok(items) => Ok(Val::Set(items)),
                Err((key, items)) => Err((key, choice, Val::Set(items))),
            },
            Err(of) => Err((key, choice, of)),
        },
        Val::Nothing => match of.into_entries() {
            Ok(entries) => Ok(Val::Map(map_without(&key, entries))),
            Err(of) => Err((key, choice, of)),
        },
        Val::Some(_) => match of.into_entries() {
            Ok(entries) => match map_with(alloc, key, choice, entries) {
                Ok(entries) => Ok(Val::Map(entries)),
                Err((key, choice, entries)) => Err((key, choice, Val::Map(entries))),
            },
            Err(of) => Err((key, choice, of)),
        },
        _ => Err((key, choice, of)),
    }
}

/// A list with the item in front; or what was given, where memory ran out or there is no list.
fn consed(alloc: Global, x: Val, of: Val) -> Result<Val, (Val, Val)>
    ensures made { IfOk result (λ made. rule.in_front x (out-Val of) ≡ sized made) }
    ensures kept { IfErr result (λ given. given ≡ (x, of)) }
{
    match of.into_list() {
        Ok(items) => match room_for(alloc, items.as_slice()) {
            Ok(room) => Ok(Val::List(inserted(room, items, 0, x))),
            Err(_) => Err((x, Val::List(items))),
        },
        Err(of) => Err((x, of)),
    }
}

/// Takes the top from the stack, whose room stays.
fn take(stack: &mut Vec<Val>) -> Val
    requires { 1 ≤ vec_len stack.old }
    ensures items { stack.old.items ≡ stack.new.items ++ result ∷ [] }
    ensures len { vec_len stack.new + 1 ≡ vec_len stack.old }
    ensures capacity { vec_capacity stack.new ≡ vec_capacity stack.old }
{
    stack.pop().unwrap()
}

/// Puts what was made on top, unless it is too large.
fn put_sized(stack: &mut Vec<Val>, made: Val) -> Result<(), DataEnd>
    requires { vec_len stack.old < vec_capacity stack.old }
    ensures applies { Replaces (sized made, reverse stack.old.items) result
        (reverse stack.new.items) }
    ensures refused { IfErr result (λ e. e ≡ DataEnd.TooLarge) }
    ensures capacity { vec_capacity stack.new ≡ vec_capacity stack.old }
    ensures len { vec_len stack.new ≤ vec_len stack.old + 1 }
{
    let made = within(made)?;
    stack.push_reserved(made);
    Ok(())
}

/// Puts the item on top in front of the list below it.
pub(crate) fn in_front(alloc: Global, stack: &mut Vec<Val>) -> Result<(), DataEnd>
    ensures applies { Replaces (on_key rule.in_front (reverse stack.old.items)) result
        (reverse stack.new.items) }
    ensures unchanged { result ≡ Err DataEnd.NoMemory → stack.new.items ≡ stack.old.items }
{
    if stack.len() < 2 {
        return Err(DataEnd::NoMemory);
    }
    let x = take(stack);
    let of = take(stack);
    match consed(alloc, x, of) {
        Ok(made) => put_sized(stack, made),
        Err((x, of)) => {
            stack.push_reserved(of);
            stack.push_reserved(x);
            Err(DataEnd::NoMemory)
        }
    }
}

/// Makes a set or a map with the choice at the key of the three on top.
pub(crate) fn updated(alloc: Global, stack: &mut Vec<Val>) -> Result<(), DataEnd>
    ensures applies { Replaces (on_entry rule.updated (reverse stack.old.items)) result
        (reverse stack.new.items) }
    ensures unchanged { result ≡ Err DataEnd.NoMemory → stack.new.items ≡ stack.old.items }
{
    if stack.len() < 3 {
        return Err(DataEnd::NoMemory);
    }
    let key = take(stack);
    let choice = take(stack);
    let of = take(stack);
    match changed(alloc, key, choice, of) {
        Ok(made) => put_sized(stack, made),
        Err((key, choice, of)) => put_back(stack, key, choice, of),
    }
}

/// The same, with what was at the key on top.
pub(crate) fn updated_with_old(alloc: Global, stack: &mut Vec<Val>) -> Result<(), DataEnd>
    ensures applies { Replaces (on_entry rule.updated_with_old (reverse stack.old.items)) result
        (reverse stack.new.items) }
    ensures unchanged { result ≡ Err DataEnd.NoMemory → stack.new.items ≡ stack.old.items }
{
    if stack.len() < 3 {
        return Err(DataEnd::NoMemory);
    }
    let key = take(stack);
    let choice = take(stack);
    let of = take(stack);
    match found(alloc, &key, &of) {
        Ok(old) => match changed(alloc, key, choice, of) {
            Ok(made) => {
                put_sized(stack, made)?;
                stack.push_reserved(old);
                Ok(())
            }
            Err((key, choice, of)) => put_back(stack, key, choice, of),
        },
        Err(_) => put_back(stack, key, choice, of),
    }
}

/// Puts the three back, for want of memory.
fn put_back(stack: &mut Vec<Val>, key: Val, choice: Val, of: Val) -> Result<(), DataEnd>
    requires { vec_len stack.old + 3 ≤ vec_capacity stack.old }
    ensures refused { result ≡ Err DataEnd.NoMemory }
    ensures put { stack.new.items ≡ stack.old.items ++ of ∷ choice ∷ key ∷ [] }
{
    stack.push_reserved(of);
    stack.push_reserved(choice);
    stack.push_reserved(key);
    Err(DataEnd::NoMemory)
}
