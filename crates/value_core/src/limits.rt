//! Whether values and types are too large, without a look at more than may be there.

ghost use Rattle.std.specs.Prelude.{◌≡◌, ◌≤◌, ◌+◌, ◌↔◌, IsTrue, sum_by, ℕ};
ghost use Rattle.value_core.specs.Counting.{after, room_behind};
ghost use Rattle.value_core.specs.Nodes.{nodes_of};
ghost use Rattle.value_core.specs.Size.{entry_size, size_of};

use crate::ty::Ty;
use crate::val::Val;

/// Whether the size of the value is at most so large; of a larger one no more than that is looked
/// at.
pub fn is_within_size(v: &Val, most: u64) -> bool
    ensures { IsTrue result ↔ (size_of v.now ≤ most) }
{
    room_behind(v, most).is_some()
}

/// What a value leaves of a room.
#[cycle(room)]
#[tactic(auto, using(crate::proofs::SizeLaws::room_laws))]
fn room_behind(v: &Val, room: u64) -> Option<u64>
    ensures { result ≡ room_behind (size_of v.now) room }
{
    let mut rest = v;
    let mut left = room;
    loop {
        match rest {
            Val::Text(text) => return left.checked_sub(1 + text.bytes().len() as u64 / 32),
            Val::Bytes(blob) => return left.checked_sub(1 + blob.bytes().len() as u64 / 32),
            Val::Some(part) | Val::Left(part) | Val::Right(part) => {
                left = left.checked_sub(1)?;
                rest = part.get();
            }
            Val::Pair(a, b) => match room_behind_first(a.get(), left) {
                Some(room) => {
                    left = room;
                    rest = b.get();
                }
                None => return None,
            },
            Val::List(items) | Val::Set(items) => {
                return room_behind_items(items.as_slice(), left.checked_sub(1)?);
            }
            Val::Map(entries) => {
                return room_behind_entries(entries.as_slice(), left.checked_sub(1)?);
            }
            Val::Operation(emit) => {
                left = left.checked_sub(1)?;
                rest = &emit.get().param;
            }
            Val::Unit
            | Val::Bool(_)
            | Val::Int(_)
            | Val::Nat(_)
            | Val::Mutez(_)
            | Val::Time(_)
            | Val::Addr(_)
            | Val::Nothing
            | Val::BigMap { .. }
            | Val::Contract(_, _) => return left.checked_sub(1),
        }
    }
}

/// What the first part of a pair leaves. The second takes at least 1, so that pairs in pairs are
/// looked into no further than there is room.
#[cycle(room)]
fn room_behind_first(a: &Val, room: u64) -> Option<u64>
    ensures { (rest : ℕ) → 1 ≤ rest → room_behind (size_of a.now + rest) room ≡ after rest result }
{
    let left = room_behind(a, room.checked_sub(1)?)?;
    Some(left + 1)
}

#[cycle(room)]
fn room_behind_items(items: &[Val], room: u64) -> Option<u64>
    ensures { result ≡ room_behind (sum_by size_of items.now) room }
{
    let mut left = room;
    for item in items {
        left = room_behind(item, left)?;
    }
    Some(left)
}

#[cycle(room)]
fn room_behind_entries(entries: &[(Val, Val)], room: u64) -> Option<u64>
    ensures { result ≡ room_behind (sum_by entry_size entries.now) room }
{
    let mut left = room;
    for entry in entries {
        left = room_behind(&entry.0, left)?;
        left = room_behind(&entry.1, left)?;
    }
    Some(left)
}

/// Whether the type has at most so many nodes; of a larger one no more than that are looked at.
pub fn type_is_within_nodes(t: &Ty, most: u32) -> bool
    ensures { IsTrue result ↔ (nodes_of t.now ≤ most) }
{
    room_behind_nodes(t, most).is_some()
}

/// What the nodes of a type leave of a room.
fn room_behind_nodes(t: &Ty, room: u32) -> Option<u32>
    ensures { result ≡ room_behind (nodes_of t.now) room }
{
    let mut rest = t;
    let mut left = room;
    loop {
        left = left.checked_sub(1)?;
        match rest {
            Ty::Option(part) | Ty::List(part) | Ty::Set(part) | Ty::Contract(part) => {
                rest = part.get();
            }
            Ty::Or(s, t) | Ty::Pair(s, t) | Ty::Map(s, t) | Ty::BigMap(s, t) => {
                left = room_behind_nodes(s.get(), left)?;
                rest = t.get();
            }
            Ty::Unit
            | Ty::Bool
            | Ty::Int
            | Ty::Nat
            | Ty::Mutez
            | Ty::Time
            | Ty::Text
            | Ty::Bytes
            | Ty::Addr
            | Ty::Operation => return Some(left),
        }
    }
}
