//! Insertion into the lists that sets and maps are.

ghost use Rattle.std.specs.Prelude.{◌≡◌, ◌<◌, ◌≤◌, IsTrue, OnOk, OnErr, IfOk, insert, length, not, vec_capacity, vec_len};
ghost use Rattle.value_core.specs.Order.{order};
ghost use Rattle.value_core.specs.Sorted.{has, keys_of, put, with_key};
ghost use Rattle.value_core.specs.Sound.{ascends};

use crate::memory::NoMemory;
use crate::sorted::{place_in_map, place_in_set};
use crate::val::Val;
use sqlite_items::Items;
use std::alloc::{AllocError, Global};

/// Puts a key into a set, and tells whether it is new there.
pub fn set_insert(alloc: Global, items: &mut Items<Val>, key: Val) -> Result<bool, NoMemory>
    requires { IsTrue (ascends items.old) }
    ensures inserted { OnOk result (items.new ≡ with_key order key items.old) }
    ensures told { IfOk result (λ new. new ≡ not (has order key items.old)) }
    ensures unchanged { OnErr result (items.new ≡ items.old) }
{
    match place_in_set(items.as_slice(), &key) {
        Ok(_) => Ok(false),
        Err(at) => {
            insert_at(alloc, items, at, key)?;
            Ok(true)
        }
    }
}

/// Gives a key of a map a value. It wants memory where the key is new alone.
pub fn map_put(
    alloc: Global,
    entries: &mut Items<(Val, Val)>,
    key: Val,
    value: Val,
) -> Result<(), NoMemory>
    requires { IsTrue (ascends (keys_of entries.old)) }
    ensures written { OnOk result (entries.new ≡ put order key value entries.old) }
    ensures unchanged { OnErr result (entries.new ≡ entries.old) }
{
    match place_in_map(entries.as_slice(), &key) {
        Ok(at) => {
            entries.set(at, (key, value));
            Ok(())
        }
        Err(at) => insert_at(alloc, entries, at, (key, value)),
    }
}

/// Puts an item in at the place. All items move to new room.
fn insert_at<T: Drop>(
    alloc: Global,
    items: &mut Items<T>,
    at: usize,
    item: T,
) -> Result<(), NoMemory>
    requires { at ≤ length items.old }
    ensures inserted { OnOk result (items.new ≡ insert items.old at item) }
    ensures unchanged { OnErr result (items.new ≡ items.old) }
{
    // All memory first: once the items have moved, nothing can fail.
    let mut moved = taken(alloc, items)?;
    let _ = moved.insert(at, item);
    *items = Items::from_vec(moved);
    Ok(())
}

/// The items in a vector that has room for one more.
fn taken<T>(alloc: Global, items: &mut Items<T>) -> Result<Vec<T>, NoMemory>
    ensures taken { IfOk result (λ moved. moved.items ≡ items.old) }
    ensures room { IfOk result (λ moved. vec_len moved < vec_capacity moved) }
    ensures unchanged { OnErr result (items.new ≡ items.old) }
{
    let room = items.len().checked_add(1).ok_or(AllocError)?;
    let mut moved = Vec::with_capacity(alloc, room)?;
    while let Some(last) = items.pop() {
        moved.push_reserved(last);
    }
    moved.reverse();
    Ok(moved)
}
