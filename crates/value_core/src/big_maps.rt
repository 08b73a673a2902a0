//! Where big maps stand in types and in values.

ghost use Rattle.std.specs.Prelude.{◌≡◌, ◌+◌, ◌-◌, ◌^◌, ◌==◌, if◌then◌else◌, length, min};
ghost use Rattle.std.specs.List.{list_all};
ghost use Rattle.value_core.specs.BigMaps.{big_maps_of, has_no_big_map, is_placed, place_behind, placing};
ghost use Rattle.value_core.specs.Layer.{flat};

use crate::ty::Ty;
use crate::val::Val;

/// Whether no big map stands in the value.
#[cycle(no_big_map)]
#[tactic(auto, using(crate::proofs::BigMapLemmas::no_big_map_parts))]
pub fn has_no_big_map(v: &Val) -> bool
    ensures { result ≡ has_no_big_map v.now }
{
    let mut rest = v;
    loop {
        match rest {
            Val::Some(part) | Val::Left(part) | Val::Right(part) => rest = part.get(),
            Val::Pair(a, b) => {
                if !has_no_big_map(a.get()) {
                    return false;
                }
                rest = b.get();
            }
            Val::List(items) | Val::Set(items) => return items_have_none(items.as_slice()),
            Val::Map(entries) => return entries_have_none(entries.as_slice()),
            Val::Operation(emit) => return has_no_big_map(&emit.get().param),
            Val::BigMap { .. } => return false,
            Val::Unit
            | Val::Bool(_)
            | Val::Int(_)
            | Val::Nat(_)
            | Val::Mutez(_)
            | Val::Time(_)
            | Val::Text(_)
            | Val::Bytes(_)
            | Val::Addr(_)
            | Val::Nothing
            | Val::Contract(_, _) => return true,
        }
    }
}

#[cycle(no_big_map)]
fn items_have_none(items: &[Val]) -> bool
    ensures { result ≡ list_all has_no_big_map items.now }
{
    for item in items {
        if !has_no_big_map(item) {
            return false;
        }
    }
    true
}

#[cycle(no_big_map)]
fn entries_have_none(entries: &[(Val, Val)]) -> bool
    ensures { result ≡ list_all has_no_big_map (flat entries.now) }
{
    for entry in entries {
        if !has_no_big_map(&entry.0) || !has_no_big_map(&entry.1) {
            return false;
        }
    }
    true
}

/// How many big maps the type has on the path of pairs from its root, or 2^64 - 1 where there are
/// more.
pub fn count_big_maps(t: &Ty) -> u64
    ensures { result ≡ min (length (big_maps_of t.now)) (2 ^ 64 - 1) }
{
    let mut rest = t;
    let mut count: u64 = 0;
    loop {
        match rest {
            Ty::Pair(first, second) => {
                count = count.saturating_add(count_big_maps(first.get()));
                rest = second.get();
            }
            Ty::BigMap(_, _) => return count.saturating_add(1),
            _ => return count,
        }
    }
}

/// Whether the big maps of a value stand at their own places by the type: counted from the left.
pub fn is_placed(v: &Val, t: &Ty) -> bool
    ensures { result ≡ is_placed v.now t.now }
{
    place_behind(v, t, 0).is_some()
}

/// The place behind the big maps of the value, where they stand from a first place on.
fn place_behind(v: &Val, t: &Ty, first: u16) -> Option<u16>
    ensures { result ≡ place_behind (placing t.now) first v.now }
{
    let mut rest = v;
    let mut kind = t;
    let mut next = first;
    loop {
        match (kind, rest) {
            (Ty::Pair(s, u), Val::Pair(a, b)) => match place_behind(a.get(), s.get(), next) {
                Some(place) => {
                    next = place;
                    rest = b.get();
                    kind = u.get();
                }
                None => return None,
            },
            (Ty::BigMap(_, _), Val::BigMap { place, .. }) => return behind(*place, next),
            (Ty::Pair(_, _) | Ty::BigMap(_, _), _) => return None,
            _ => return Some(next),
        }
    }
}

fn behind(place: u8, next: u16) -> Option<u16>
    ensures { result ≡ (if place == next then Some (next + 1) else None) }
{
    if u16::from(place) == next {
        Some(next + 1)
    } else {
        None
    }
}
