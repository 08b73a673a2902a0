//! Whether values and types are too deep.

ghost use Rattle.std.specs.Prelude.{◌≤◌, ◌↔◌, IsTrue, map};
ghost use Rattle.value_core.specs.Depth.{depth_of, depth_of_type, greatest};
ghost use Rattle.value_core.specs.Layer.{flat};

use crate::ty::Ty;
use crate::val::Val;

/// Whether a value is at most so deep; one without parts is 1 deep.
#[cycle(deepening)]
#[tactic(auto, using(crate::proofs::Depths::depths))]
pub fn is_within_depth(v: &Val, most: u32) -> bool
    ensures { IsTrue result ↔ (depth_of v.now ≤ most) }
{
    if most == 0 {
        return false;
    }
    match v {
        Val::Some(part) | Val::Left(part) | Val::Right(part) => {
            is_within_depth(part.get(), most - 1)
        }
        Val::Pair(a, b) => {
            is_within_depth(a.get(), most - 1) && is_within_depth(b.get(), most - 1)
        }
        Val::List(items) | Val::Set(items) => are_items_within(items.as_slice(), most - 1),
        Val::Map(entries) => are_entries_within(entries.as_slice(), most - 1),
        Val::Operation(emit) => is_within_depth(&emit.get().param, most - 1),
        Val::Unit
        | Val::Bool(_)
        | Val::Int(_)
        | Val::Nat(_)
        | Val::Mutez(_)
        | Val::Time(_)
        | Val::Text(_)
        | Val::Bytes(_)
        | Val::Addr(_)
        | Val::Nothing
        | Val::BigMap { .. }
        | Val::Contract(_, _) => true,
    }
}

#[cycle(deepening)]
fn are_items_within(items: &[Val], most: u32) -> bool
    ensures { IsTrue result ↔ (greatest (map depth_of items.now) ≤ most) }
{
    for item in items {
        if !is_within_depth(item, most) {
            return false;
        }
    }
    true
}

#[cycle(deepening)]
fn are_entries_within(entries: &[(Val, Val)], most: u32) -> bool
    ensures { IsTrue result ↔ (greatest (map depth_of (flat entries.now)) ≤ most) }
{
    for entry in entries {
        if !is_within_depth(&entry.0, most) || !is_within_depth(&entry.1, most) {
            return false;
        }
    }
    true
}

/// Whether a type is at most so deep; one without parts is 1 deep, and none that is deeper is
/// looked into any further.
pub fn type_is_within_depth(t: &Ty, most: u32) -> bool
    ensures { IsTrue result ↔ (depth_of_type t.now ≤ most) }
{
    if most == 0 {
        return false;
    }
    match t {
        Ty::Option(part) | Ty::List(part) | Ty::Set(part) | Ty::Contract(part) => {
            type_is_within_depth(part.get(), most - 1)
        }
        Ty::Or(s, t) | Ty::Pair(s, t) | Ty::Map(s, t) | Ty::BigMap(s, t) => {
            type_is_within_depth(s.get(), most - 1) && type_is_within_depth(t.get(), most - 1)
        }
        Ty::Unit
        | Ty::Bool
        | Ty::Int
        | Ty::Nat
        | Ty::Mutez
        | Ty::Time
        | Ty::Text
        | Ty::Bytes
        | Ty::Addr
        | Ty::Operation => true,
    }
}
