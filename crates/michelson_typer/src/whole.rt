//! Faults of a script as a whole, which belong to no instruction.

ghost use Rattle.std.specs.Prelude.{◌≡◌, ◌↔◌, AllPairs, IfOk, IsTrue, MatchOption};
ghost use Rattle.value_core.specs.declared.ty.Ty.TheVariants as type;
ghost use Rattle.michelson_code.specs.declared.type_fault.TypeKind.TheVariants as kind;
ghost use Rattle.michelson_code.specs.FirstFault.{WholeBreaks};
ghost use Rattle.michelson_code.specs.TypedScript.{AreNamedApart};
ghost use Rattle.michelson_code.specs.WrittenTypes.{has_storage_big_maps, is_within_limits};
ghost use Rattle.michelson_typer.specs.FirstKinds.{IsKindOfParts, RulesOut};
ghost use Rattle.michelson_typer.specs.Tables.{Grows, IsTypeOf};

use crate::keys::{
    has_comparable_keys, has_passable_values, has_placed_big_maps, is_free_of_big_maps, is_kept,
    places_behind,
};
use crate::types::{TypeId, Types};
use crate::written::intern_type;
use michelson_code::{Level, Script, Side, TypeKind, are_entries_of, brackets_within, count};
use sqlite_items::Items;
use std::alloc::Global;
use std::collections::BTreeSet;
use value_core::{Name, NoMemory, Ty, type_is_within_depth, type_is_within_nodes};

/// The first kind of fault of parameter, storage and names, without their limits.
pub(crate) fn kind_of_parts(alloc: Global, script: &Script) -> Result<Option<TypeKind>, NoMemory>
    ensures { IfOk result (IsKindOfParts script.now) }
{
    if !is_kept(&script.param)
        || !is_kept(&script.storage)
        || !are_entries_of(&script.param, script.names.as_slice())
    {
        return Ok(Some(TypeKind::WrongType));
    }
    if !has_comparable_keys(&script.param) || !has_comparable_keys(&script.storage) {
        return Ok(Some(TypeKind::NotComparable));
    }
    if !is_free_of_big_maps(&script.param) || !has_storage_big_maps(&script.storage) {
        return Ok(Some(TypeKind::BigMapPlace));
    }
    if !are_named_apart(alloc, script.names.as_slice())? {
        return Ok(Some(TypeKind::EntryTwice));
    }
    Ok(None)
}

/// The pair of parameter and storage, where all three are within the limits.
pub(crate) fn first_item(
    alloc: Global,
    types: &mut Types,
    script: &Script,
) -> Result<Option<TypeId>, NoMemory>
    ensures grows { Grows types.old types.new }
    ensures first { IfOk result (λ r. MatchOption r (WholeBreaks script.now kind.TypeTooLarge)
        (λ id. (WholeBreaks script.now kind.TypeTooLarge → ⊥)
        × IsTypeOf types.new id (type.Pair script.now.param script.now.storage))) }
{
    if !is_within_limits(&script.param) || !is_within_limits(&script.storage) {
        return Ok(None);
    }
    let param = intern_type(alloc, types, &script.param)?;
    let storage = intern_type(alloc, types, &script.storage)?;
    let pair = types.intern(Level::Pair(param, storage))?;
    if types.extent(pair).is_light() {
        Ok(Some(pair))
    } else {
        Ok(None)
    }
}

/// Whether the code has at most 65,536 instructions, and the text's brackets go at most 256 deep.
pub(crate) fn is_small(script: &Script) -> bool
    ensures { RulesOut result (WholeBreaks script.now kind.CodeTooLarge) }
{
    count(script.code.as_slice()) <= 65_536 && brackets_within(script, 256)
}

/// The big maps of a storage: on the path of pairs from the root, with passable values, at most
/// 16.
fn has_storage_big_maps(t: &Ty) -> bool
    ensures { result ≡ has_storage_big_maps t.now }
{
    has_placed_big_maps(t) && has_passable_values(t) && places_behind(t, 16).is_some()
}

/// Whether a type has at most 16,384 nodes, and is at most 128 deep.
fn is_within_limits(t: &Ty) -> bool
    ensures { result ≡ is_within_limits t.now }
{
    type_is_within_nodes(t, 16_384) && type_is_within_depth(t, 128)
}

/// Whether no name stands twice.
fn are_named_apart(alloc: Global, names: &[(Items<Side>, Name)]) -> Result<bool, NoMemory>
    ensures { IfOk result (λ apart. IsTrue apart ↔ AllPairs AreNamedApart names.now) }
{
    let mut seen = BTreeSet::new(alloc);
    for entry in names {
        if !seen.insert(entry.1)? {
            return Ok(false);
        }
    }
    Ok(true)
}
