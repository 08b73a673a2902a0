//! Keys of sets and maps, which ascend: whether one is there, and with which value.

ghost use Rattle.value_core.specs.declared.val.Val.TheViews.{out-Val};
ghost use Rattle.michelson_rules.specs.Collections as rule;
ghost use Rattle.michelson_data.specs.Tells.{TellsIf};

use crate::fault::DataEnd;
use std::alloc::Global;
use value_core::{Val, place_in_map, place_in_set, some};

/// Whether the key is there.
pub(crate) fn member(key: &Val, of: &Val) -> Result<Val, DataEnd>
    ensures { TellsIf result (rule.member key.now (out-Val of.now)) }
{
    match of {
        Val::Set(items) => Ok(Val::Bool(place_in_set(items.as_slice(), key).is_ok())),
        Val::Map(entries) => Ok(Val::Bool(place_in_map(entries.as_slice(), key).is_ok())),
        _ => Err(DataEnd::NoMemory),
    }
}

/// The value at the key, or none. It is copied: a box that isn't had would take it along.
pub(crate) fn found(alloc: Global, key: &Val, of: &Val) -> Result<Val, DataEnd>
    ensures { TellsIf result (rule.found key.now (out-Val of.now)) }
{
    match of {
        Val::Map(entries) => {
            let entries = entries.as_slice();
            match place_in_map(entries, key) {
                Ok(at) => Ok(some(alloc, entries[at].1.copy(alloc)?)?),
                Err(_) => Ok(Val::Nothing),
            }
        }
        _ => Err(DataEnd::NoMemory),
    }
}
