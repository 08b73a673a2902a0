//! What a contract returns, from what stands on the stack at the end.

ghost use Rattle.std.specs.Prelude.{◌≡◌, ◌∷◌, ◌++◌, [], IfOk, OnOk, Some, map};
ghost use Rattle.std.specs.List.{flat_map};
ghost use Rattle.value_core.specs.declared.val.Val.TheViews.{out-Val};
ghost use Rattle.michelson_rules.specs.Metered.{Ended};
ghost use Rattle.michelson_rules.specs.Returned.{big_maps_in, change_order, changes_in, emits_of, in_order, operations, unversioned};
ghost use Rattle.michelson_rules.specs.Runs.{Return};
ghost use Rattle.michelson_machine.specs.Ends.{IsEnd, big_maps_of_entry, unversioned_entry};
ghost use Rattle.michelson_machine.specs.Resume.{beside_of, work_at};

use crate::end::End;
use crate::state::State;
use map_versions::Versions;
use sqlite_items::Items;
use std::alloc::{AllocError, Global};
use std::cmp::Ordering;
use value_core::{
    Emit, NoMemory, Val, compare, has_no_big_map, left, operation, pair, right, some,
};

/// What a big map has at a key from now on, with the place of the big map.
type Changed = (u8, Val, Option<Val>);

impl<'a> State<'a> {
    /// The end of a run that has nothing left to do.
    pub fn finish(&mut self, alloc: Global) -> Result<End, NoMemory>
        ensures end { IfOk result (λ e. IsEnd (Ended (Return self.old.stack (beside_of self.old))
            self.old.left) e) }
        ensures still { work_at self.new ≡ work_at self.old }
    {
        match self.stack.pop() {
            None => Err(AllocError),
            Some(top) => {
                if self.stack.len() > 0 {
                    return Err(AllocError);
                }
                match top.into_pair() {
                    Err(_) => Err(AllocError),
                    Ok((ops, storage)) => Ok(End::Return {
                        ops: operations(alloc, &ops)?,
                        changes: changes(alloc, &self.versions, &storage)?,
                        storage: kept(alloc, storage)?,
                        left: self.left,
                    }),
                }
            }
        }
    }
}

/// The operations of a list.
fn operations(alloc: Global, v: &Val) -> Result<Items<Emit>, NoMemory>
    ensures { IfOk result (λ ops. operations (out-Val v.now) ≡ Some ops) }
{
    match v {
        Val::List(items) => emits_of(alloc, items.as_slice()),
        _ => Err(AllocError),
    }
}

fn emits_of(alloc: Global, items: &[Val]) -> Result<Items<Emit>, NoMemory>
    ensures { IfOk result (λ ops. emits_of items.now ≡ Some ops) }
{
    let mut ops = Items::new(alloc);
    for item in items {
        match item {
            Val::Operation(emit) => ops.push(emit.get().copy(alloc)?)?,
            _ => return Err(AllocError),
        }
    }
    Ok(ops)
}

/// The changes of the big maps in a storage, by place and key.
fn changes(alloc: Global, versions: &Versions, storage: &Val) -> Result<Items<Changed>, NoMemory>
    ensures { IfOk result (λ made. made
        ≡ in_order (flat_map (changes_in versions.now) (big_maps_in storage.now))) }
{
    let mut maps = Items::new(alloc);
    collect(storage, &mut maps)?;
    let mut all = all_changes(alloc, versions, maps.as_slice())?;
    sort(&mut all)?;
    Ok(Items::from_vec(all))
}

fn all_changes(
    alloc: Global,
    versions: &Versions,
    maps: &[(u8, u32)],
) -> Result<Vec<Changed>, NoMemory>
    ensures { IfOk result (λ made. made.items ≡ flat_map (changes_in versions.now) maps.now) }
{
    let mut all = Vec::new(alloc);
    for map in maps {
        let mut more = changes_in(alloc, versions, map.0, map.1)?;
        all.append(&mut more)?;
    }
    Ok(all)
}

fn changes_in(
    alloc: Global,
    versions: &Versions,
    place: u8,
    version: u32,
) -> Result<Vec<Changed>, NoMemory>
    ensures { IfOk result (λ made. made.items ≡ changes_in versions.now (place, version)) }
{
    let mut changes = versions.changes(alloc, version)?;
    let mut made = Vec::new(alloc);
    while let Some((key, choice)) = changes.pop() {
        made.push((place, key, choice))?;
    }
    made.reverse();
    Ok(made)
}

/// By place and key; of equal ones the one that came first stays first.
fn sort(changes: &mut Vec<Changed>) -> Result<(), NoMemory>
    ensures { OnOk result (changes.new.items ≡ in_order changes.old.items) }
{
    changes.sort_by(order_of)
}

fn order_of(a: &Changed, b: &Changed) -> Ordering
    ensures { result ≡ change_order a.now b.now }
{
    match a.0.cmp(&b.0) {
        Ordering::Equal => compare(&a.1, &b.1),
        unequal => unequal,
    }
}

/// A storage whose big maps have no versions; one without big maps stays as it is.
fn kept(alloc: Global, storage: Val) -> Result<Val, NoMemory>
    ensures { IfOk result (λ made. made ≡ unversioned storage) }
{
    if has_no_big_map(&storage) {
        Ok(storage)
    } else {
        unversioned(alloc, &storage)
    }
}

/// A copy of a value whose big maps have no versions.
#[cycle(unversioning)]
pub fn unversioned(alloc: Global, v: &Val) -> Result<Val, NoMemory>
    ensures { IfOk result (λ made. made ≡ unversioned v.now) }
{
    match v {
        Val::Unit => Ok(Val::Unit),
        Val::Bool(b) => Ok(Val::Bool(*b)),
        Val::Int(n) => Ok(Val::Int(*n)),
        Val::Nat(n) => Ok(Val::Nat(*n)),
        Val::Mutez(n) => Ok(Val::Mutez(*n)),
        Val::Time(n) => Ok(Val::Time(*n)),
        Val::Text(text) => Ok(Val::Text(text.copy(alloc)?)),
        Val::Bytes(blob) => Ok(Val::Bytes(blob.copy(alloc)?)),
        Val::Addr(address) => Ok(Val::Addr(*address)),
        Val::Nothing => Ok(Val::Nothing),
        Val::Some(part) => some(alloc, unversioned(alloc, part.get())?),
        Val::Left(part) => left(alloc, unversioned(alloc, part.get())?),
        Val::Right(part) => right(alloc, unversioned(alloc, part.get())?),
        Val::Pair(a, b) => {
            let first = unversioned(alloc, a.get())?;
            pair(alloc, first, unversioned(alloc, b.get())?)
        }
        Val::List(items) => Ok(Val::List(unversioned_all(alloc, items.as_slice())?)),
        Val::Set(items) => Ok(Val::Set(unversioned_all(alloc, items.as_slice())?)),
        Val::Map(entries) => Ok(Val::Map(unversioned_entries(alloc, entries.as_slice())?)),
        Val::BigMap { place, version: _ } => Ok(Val::BigMap {
            place: *place,
            version: 0,
        }),
        Val::Contract(address, entry) => Ok(Val::Contract(*address, *entry)),
        Val::Operation(emit) => {
            let emit = emit.get();
            let param = unversioned(alloc, &emit.param)?;
            operation(
                alloc,
                Emit {
                    dest: emit.dest,
                    entry: emit.entry,
                    param,
                    amount: emit.amount,
                },
            )
        }
    }
}

#[cycle(unversioning)]
fn unversioned_all(alloc: Global, items: &[Val]) -> Result<Items<Val>, NoMemory>
    ensures { IfOk result (λ made. made ≡ map unversioned items.now) }
{
    let mut made = Items::new(alloc);
    for item in items {
        made.push(unversioned(alloc, item)?)?;
    }
    Ok(made)
}

#[cycle(unversioning)]
fn unversioned_entries(alloc: Global, entries: &[(Val, Val)]) -> Result<Items<(Val, Val)>, NoMemory>
    ensures { IfOk result (λ made. made ≡ map unversioned_entry entries.now) }
{
    let mut made = Items::new(alloc);
    for entry in entries {
        let key = unversioned(alloc, &entry.0)?;
        made.push((key, unversioned(alloc, &entry.1)?))?;
    }
    Ok(made)
}

/// The big maps in a value from the left, each its place and its version.
#[cycle(collecting)]
fn collect(v: &Val, out: &mut Items<(u8, u32)>) -> Result<(), NoMemory>
    ensures { OnOk result (out.new ≡ out.old ++ big_maps_in v.now) }
{
    match v {
        Val::BigMap { place, version } => out.push((*place, *version)),
        Val::Some(part) | Val::Left(part) | Val::Right(part) => collect(part.get(), out),
        Val::Pair(a, b) => {
            collect(a.get(), out)?;
            collect(b.get(), out)
        }
        Val::List(items) | Val::Set(items) => collect_all(items.as_slice(), out),
        Val::Map(entries) => collect_entries(entries.as_slice(), out),
        Val::Operation(emit) => collect(&emit.get().param, out),
        _ => Ok(()),
    }
}

#[cycle(collecting)]
fn collect_all(items: &[Val], out: &mut Items<(u8, u32)>) -> Result<(), NoMemory>
    ensures { OnOk result (out.new ≡ out.old ++ flat_map big_maps_in items.now) }
{
    for item in items {
        collect(item, out)?;
    }
    Ok(())
}

#[cycle(collecting)]
fn collect_entries(entries: &[(Val, Val)], out: &mut Items<(u8, u32)>) -> Result<(), NoMemory>
    ensures { OnOk result (out.new ≡ out.old ++ flat_map big_maps_of_entry entries.now) }
{
    for entry in entries {
        collect(&entry.0, out)?;
        collect(&entry.1, out)?;
    }
    Ok(())
}
