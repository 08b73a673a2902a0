//! The data of storages: entries are put back into maps in the places of their big maps.

ghost use Rattle.std.specs.Prelude.{◌≡◌, IfOk, IsTrue};
ghost use Rattle.value_core.specs.declared.ty.Ty.{Ty};
ghost use Rattle.value_core.specs.Typed.{has_type};
ghost use Rattle.data_nodes.specs.Storage.{IsKept, entries_at, with_entries, with_maps};

use micheline_text::NoMemory;
use sqlite_items::Items;
use std::alloc::Global;
use value_core::{Val, comb};

/// The data of a storage: a map of its entries in the place of each of its big maps.
pub fn storage_data(
    alloc: Global,
    storage: &Val,
    entries: &[(u8, Val, Val)],
) -> Result<Val, NoMemory>
    ensures data { IfOk result (λ v. v ≡ with_entries entries.now storage.now) }
    // It has the type with maps of each type of which these are a storage and its entries.
    ensures typed { IfOk result (λ v. (t : Ty) →
        IsKept t (storage.now, entries.now) → IsTrue (has_type v (with_maps t))) }
{
    joined(alloc, storage, entries)
}

/// The last part of a pair is joined in the loop, since a comb may be long.
fn joined(alloc: Global, storage: &Val, entries: &[(u8, Val, Val)]) -> Result<Val, NoMemory>
    ensures { IfOk result (λ v. v ≡ with_entries entries.now storage.now) }
{
    let mut firsts = Items::new(alloc);
    let mut rest = storage;
    loop {
        match rest {
            Val::Pair(first, behind) => {
                firsts.push(joined(alloc, first.get(), entries)?)?;
                rest = behind.get();
            }
            Val::BigMap { place, .. } => {
                let map = Val::Map(entries_at(alloc, *place, entries)?);
                return comb(alloc, firsts, map);
            }
            _ => {
                let last = rest.copy(alloc)?;
                return comb(alloc, firsts, last);
            }
        }
    }
}

/// The keys and values of the entries with this place.
fn entries_at(
    alloc: Global,
    place: u8,
    entries: &[(u8, Val, Val)],
) -> Result<Items<(Val, Val)>, NoMemory>
    ensures { IfOk result (λ es. es ≡ entries_at place entries.now) }
{
    let mut found = Items::new(alloc);
    for entry in entries {
        if entry.0 == place {
            found.push((entry.1.copy(alloc)?, entry.2.copy(alloc)?))?;
        }
    }
    Ok(found)
}
