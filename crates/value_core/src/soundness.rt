//! Which values are sound.

ghost use Rattle.std.specs.Prelude.{◌≡◌, ◌^◌, map, nat_lt};
ghost use Rattle.std.specs.List.{list_all};
ghost use Rattle.value_core.specs.Layer.{flat};
ghost use Rattle.value_core.specs.Sound.{ascends, is_sound};
ghost use Rattle.value_core.specs.SoundParts.{is_sound_list, is_sound_map, is_sound_set};

use crate::ordering::compare;
use crate::val::Val;
use std::cmp::Ordering;

/// Whether each number is in its range, each list countable, and sets and keys strictly ascend.
#[cycle(sounding)]
pub fn is_sound(v: &Val) -> bool
    ensures { result ≡ is_sound v.now }
{
    let mut v = v;
    loop {
        match v {
            Val::Some(part) | Val::Left(part) | Val::Right(part) => v = part.get(),
            Val::Pair(first, rest) => {
                if !is_sound(first.get()) {
                    return false;
                }
                v = rest.get();
            }
            Val::Nat(n) => return n.get() >= 0,
            Val::Mutez(n) => return *n < AMOUNT_LIMIT,
            Val::List(items) => return is_sound_list(items.as_slice()),
            Val::Set(items) => return is_sound_set(items.as_slice()),
            Val::Map(entries) => return is_sound_map(entries.as_slice()),
            Val::BigMap { place, .. } => return *place < 16,
            Val::Operation(emit) => {
                return emit.get().amount < AMOUNT_LIMIT && is_sound(&emit.get().param);
            }
            Val::Unit
            | Val::Bool(_)
            | Val::Int(_)
            | Val::Time(_)
            | Val::Text(_)
            | Val::Bytes(_)
            | Val::Addr(_)
            | Val::Nothing
            | Val::Contract(_, _) => return true,
        }
    }
}

const AMOUNT_LIMIT: u64 = 0x8000_0000_0000_0000;

#[cycle(sounding)]
fn is_sound_list(items: &[Val]) -> bool
    ensures { result ≡ is_sound_list items.now }
{
    is_countable(items.len()) && all_sound(items)
}

#[cycle(sounding)]
fn is_sound_set(items: &[Val]) -> bool
    ensures { result ≡ is_sound_set items.now }
{
    is_countable(items.len()) && ascend(items) && all_sound(items)
}

#[cycle(sounding)]
fn is_sound_map(entries: &[(Val, Val)]) -> bool
    ensures { result ≡ is_sound_map entries.now }
{
    is_countable(entries.len()) && keys_ascend(entries) && entries_sound(entries)
}

#[cycle(sounding)]
fn all_sound(items: &[Val]) -> bool
    ensures { result ≡ list_all is_sound items.now }
{
    for item in items {
        if !is_sound(item) {
            return false;
        }
    }
    true
}

#[cycle(sounding)]
fn entries_sound(entries: &[(Val, Val)]) -> bool
    ensures { result ≡ list_all is_sound (flat entries.now) }
{
    for entry in entries {
        if !is_sound(&entry.0) || !is_sound(&entry.1) {
            return false;
        }
    }
    true
}

fn is_countable(count: usize) -> bool
    ensures { result ≡ nat_lt count (2 ^ 32) }
{
    count < 0x1_0000_0000
}

fn ascend(items: &[Val]) -> bool
    ensures { result ≡ ascends items.now }
{
    for i in 1..items.len() {
        if compare(&items[i - 1], &items[i]) != Ordering::Less {
            return false;
        }
    }
    true
}

fn keys_ascend(entries: &[(Val, Val)]) -> bool
    ensures { result ≡ ascends (map (λ e. e.0) entries.now) }
{
    for i in 1..entries.len() {
        if compare(&entries[i - 1].0, &entries[i].0) != Ordering::Less {
            return false;
        }
    }
    true
}
