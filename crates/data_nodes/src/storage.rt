//! Storages: big maps are written as maps, and their entries are given beside the storage.

ghost use Rattle.std.specs.Prelude.{◌≡◌, ◌≢◌, ◌+◌, ◌++◌, ◌≤◌, IfErr, IfOk, IsTrue, Ok, OnOk, length};
ghost use Rattle.std.specs.List.{AllByRecursion};
ghost use Rattle.value_core.specs.declared.ty.Ty.{Ty};
ghost use Rattle.value_core.specs.BigMaps.{big_maps_of};
ghost use Rattle.value_core.specs.Combs.{comb};
ghost use Rattle.value_core.specs.Sound.{is_plain};
ghost use Rattle.value_core.specs.Typed.{has_type};
ghost use Rattle.micheline_text.specs.Told.{AnswersUnlessFull};
ghost use Rattle.data_nodes.specs.Told.{Tells, node_fault};
ghost use Rattle.data_nodes.specs.FirstFault.{IsFirstFault};
ghost use Rattle.data_nodes.specs.Faults.{storage_read};
ghost use Rattle.data_nodes.specs.Parts.{BecomesKept, parted, tagged};
ghost use Rattle.data_nodes.specs.Readers.{then_read};
ghost use Rattle.data_nodes.specs.Storage.{IsStorage, Kept, with_maps};

use crate::fault::DataRefusal;
use crate::reader::value;
use micheline_text::{NoMemory, Node};
use sqlite_items::{Boxed, Items};
use std::alloc::Global;
use value_core::{Ty, Val, comb};

/// The type with a map for each big map on the path of pairs from its root.
fn with_maps(alloc: Global, t: &Ty) -> Result<Ty, NoMemory>
    ensures { IfOk result (λ written. written ≡ with_maps t.now) }
{
    let mut firsts = Items::new(alloc);
    let mut rest = t;
    loop {
        match rest {
            Ty::Pair(first, behind) => {
                firsts.push(with_maps(alloc, first.get())?)?;
                rest = behind.get();
            }
            Ty::BigMap(k, v) => {
                let map = map_type(alloc, k.get(), v.get())?;
                return pairs(alloc, firsts, map);
            }
            _ => {
                let last = rest.copy(alloc)?;
                return pairs(alloc, firsts, last);
            }
        }
    }
}

fn map_type(alloc: Global, k: &Ty, v: &Ty) -> Result<Ty, NoMemory>
    ensures { IfOk result (λ t. t ≡ Ty.Map k.now v.now) }
{
    Ok(Ty::Map(
        Boxed::new(alloc, k.copy(alloc)?)?,
        Boxed::new(alloc, v.copy(alloc)?)?,
    ))
}

/// The type of a comb: each of the first parts in a pair with all that stands behind it.
#[tactic(auto, using(value_core::proofs::Combs::one_more_part))]
fn pairs(alloc: Global, mut firsts: Items<Ty>, last: Ty) -> Result<Ty, NoMemory>
    ensures { IfOk result (λ t. t ≡ comb Ty.Pair firsts last) }
{
    let mut made = last;
    while let Some(part) = firsts.pop() {
        made = Ty::Pair(Boxed::new(alloc, part)?, Boxed::new(alloc, made)?);
    }
    Ok(made)
}

/// Moves the entries of a map to the end, each with the map's place.
fn take_out(
    alloc: Global,
    place: u8,
    pairs: Items<(Val, Val)>,
    entries: &mut Vec<(u8, Val, Val)>,
) -> Result<(), NoMemory>
    ensures { OnOk result (entries.new.items ≡ entries.old.items ++ tagged place pairs) }
{
    let mut left = pairs;
    let mut taken = Vec::new(alloc);
    while let Some((k, v)) = left.pop() {
        taken.push((place, k, v))?;
    }
    taken.reverse();
    entries.append(&mut taken)
}

/// The value with the places of its big maps, from a first one on, and the place after them; their
/// entries go to the end. The last part of a pair is taken in the loop, since a comb may be long.
fn part(
    alloc: Global,
    t: &Ty,
    v: Val,
    first: u8,
    entries: &mut Vec<(u8, Val, Val)>,
) -> Result<(Val, u8), NoMemory>
    requires few { first + length (big_maps_of t.now) ≤ 16 }
    requires typed { IsTrue (has_type v (with_maps t.now)) }
    ensures { IfOk result (λ r.
        BecomesKept t.now v first entries.old.items r.0 entries.new.items r.1) }
{
    let mut firsts = Items::new(alloc);
    let (mut kind, mut rest, mut next) = (t, v, first);
    while let Ty::Pair(s, u) = kind {
        match rest.into_pair() {
            Ok((a, b)) => {
                let (x, place) = part(alloc, s.get(), a, next, entries)?;
                firsts.push(x)?;
                next = place;
                kind = u.get();
                rest = b;
            }
            Err(_) => unreachable!(),
        }
    }
    let (last, behind) = last_part(alloc, kind, rest, next, entries)?;
    Ok((comb(alloc, firsts, last)?, behind))
}

/// The same of a value at a type that is no pair.
fn last_part(
    alloc: Global,
    t: &Ty,
    v: Val,
    first: u8,
    entries: &mut Vec<(u8, Val, Val)>,
) -> Result<(Val, u8), NoMemory>
    requires few { first + length (big_maps_of t.now) ≤ 16 }
    requires typed { IsTrue (has_type v (with_maps t.now)) }
    requires unpaired { (s u : Ty) → t.now ≢ Ty.Pair s u }
    ensures { IfOk result (λ r.
        BecomesKept t.now v first entries.old.items r.0 entries.new.items r.1) }
{
    match t {
        Ty::BigMap(_, _) => match v.into_entries() {
            Ok(pairs) => {
                take_out(alloc, first, pairs, entries)?;
                let (place, version) = (first, 0);
                Ok((Val::BigMap { place, version }, first + 1))
            }
            Err(_) => unreachable!(),
        },
        _ => Ok((v, first)),
    }
}

/// A storage of a type and the entries of its big maps, each with its map's place; of any size.
pub fn read_storage(
    alloc: Global,
    t: &Ty,
    n: &Node,
) -> Result<(Val, Vec<(u8, Val, Val)>), DataRefusal>
    requires few { length (big_maps_of t.now) ≤ 16 }
    // What is read is a storage of the type with its entries, as the node says it.
    ensures found { IfOk result (λ r. IsStorage t.now n.now (r.0, r.1.items)) }
    // Such a storage is read, unless memory runs out.
    ensures only { (kept : Kept) →
        IsStorage t.now n.now kept →
        AnswersUnlessFull node_fault (λ r. (r.0, r.1.items)) result (Ok kept) }
    // It may be written and kept, with the keys and values of its big maps.
    ensures plain { IfOk result (λ r. IsTrue (is_plain r.0)) }
    ensures entries { IfOk result (λ r.
        AllByRecursion (λ e. IsTrue (is_plain e.1) × IsTrue (is_plain e.2)) r.1.items) }
    // The fault is the one that stands before all others.
    ensures first { IfErr result (Tells (IsFirstFault (with_maps t.now) n.now)) }
{
    read_parted(alloc, t, n)
}

fn read_parted(alloc: Global, t: &Ty, n: &Node) -> Result<(Val, Vec<(u8, Val, Val)>), DataRefusal>
    requires few { length (big_maps_of t.now) ≤ 16 }
    ensures { AnswersUnlessFull node_fault (λ r. (r.0, r.1.items)) result
        (then_read (storage_read (with_maps t.now) n.now) (λ v. Ok (parted t.now v))) }
{
    let written = with_maps(alloc, t)?;
    let v = value(alloc, &written, n)?;
    let mut entries = Vec::new(alloc);
    let (kept, _) = part(alloc, t, v, 0, &mut entries)?;
    Ok((kept, entries))
}
