//! Which values are plain.

ghost use Rattle.std.specs.Prelude.{◌≡◌};
ghost use Rattle.std.specs.List.{list_all};
ghost use Rattle.value_core.specs.Layer.{flat};
ghost use Rattle.value_core.specs.Sound.{is_plain};
ghost use Rattle.value_core.specs.Settled.{is_settled};

use crate::soundness::is_sound;
use crate::val::Val;

/// Whether the value is sound, has no contract or operation in it, and each big map is unchanged.
pub fn is_plain(v: &Val) -> bool
    ensures { result ≡ is_plain v.now }
{
    is_settled(v) && is_sound(v)
}

#[cycle(settling)]
#[tactic(auto, using(crate::proofs::SettledLemmas::settled_lists))]
fn is_settled(v: &Val) -> bool
    ensures { result ≡ is_settled v.now }
{
    let mut rest = v;
    loop {
        match rest {
            Val::Some(part) | Val::Left(part) | Val::Right(part) => rest = part.get(),
            Val::Pair(a, b) => {
                if !is_settled(a.get()) {
                    return false;
                }
                rest = b.get();
            }
            Val::List(items) | Val::Set(items) => return items_are_settled(items.as_slice()),
            Val::Map(entries) => return entries_are_settled(entries.as_slice()),
            Val::BigMap { version, .. } => return *version == 0,
            Val::Contract(_, _) | Val::Operation(_) => return false,
            Val::Unit
            | Val::Bool(_)
            | Val::Int(_)
            | Val::Nat(_)
            | Val::Mutez(_)
            | Val::Time(_)
            | Val::Text(_)
            | Val::Bytes(_)
            | Val::Addr(_)
            | Val::Nothing => return true,
        }
    }
}

#[cycle(settling)]
fn items_are_settled(items: &[Val]) -> bool
    ensures { result ≡ list_all is_settled items.now }
{
    for item in items {
        if !is_settled(item) {
            return false;
        }
    }
    true
}

#[cycle(settling)]
fn entries_are_settled(entries: &[(Val, Val)]) -> bool
    ensures { result ≡ list_all is_settled (flat entries.now) }
{
    for entry in entries {
        if !is_settled(&entry.0) || !is_settled(&entry.1) {
            return false;
        }
    }
    true
}
