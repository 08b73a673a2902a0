//! Which values have a type.

ghost use Rattle.std.specs.Prelude.{◌≡◌, ◌≤◌, ◌&&◌, IsTrue};
ghost use Rattle.std.specs.List.{list_all};
ghost use Rattle.value_core.specs.Depth.{depth_of, depth_of_type};
ghost use Rattle.value_core.specs.Kinds.{is_passable};
ghost use Rattle.value_core.specs.Sound.{is_plain};
ghost use Rattle.value_core.specs.Typed.{fits, has_type};
ghost use Rattle.value_core.specs.declared.ty.Ty.{Ty};
ghost use Rattle.value_core.specs.declared.val.Val.{Val};

use crate::soundness::is_sound;
use crate::ty::Ty;
use crate::val::Val;

/// Whether the value is sound and built as the type is.
pub fn has_type(v: &Val, t: &Ty) -> bool
    ensures { result ≡ has_type v.now t.now }
{
    fits(v, t) && is_sound(v)
}

#[cycle(fitting)]
fn fits(v: &Val, t: &Ty) -> bool
    ensures { result ≡ fits v.now t.now }
{
    let (mut v, mut t) = (v, t);
    loop {
        match (v, t) {
            (Val::Unit, Ty::Unit)
            | (Val::Bool(_), Ty::Bool)
            | (Val::Int(_), Ty::Int)
            | (Val::Nat(_), Ty::Nat)
            | (Val::Mutez(_), Ty::Mutez)
            | (Val::Time(_), Ty::Time)
            | (Val::Text(_), Ty::Text)
            | (Val::Bytes(_), Ty::Bytes)
            | (Val::Addr(_), Ty::Addr)
            | (Val::Nothing, Ty::Option(_))
            | (Val::BigMap { .. }, Ty::BigMap(_, _))
            | (Val::Contract(_, _), Ty::Contract(_))
            | (Val::Operation(_), Ty::Operation) => return true,
            (Val::Some(part), Ty::Option(s))
            | (Val::Left(part), Ty::Or(s, _))
            | (Val::Right(part), Ty::Or(_, s)) => {
                v = part.get();
                t = s.get();
            }
            (Val::Pair(a, b), Ty::Pair(r, s)) => {
                if !fits(a.get(), r.get()) {
                    return false;
                }
                v = b.get();
                t = s.get();
            }
            (Val::List(items), Ty::List(s)) | (Val::Set(items), Ty::Set(s)) => {
                return all_fit(items.as_slice(), s.get());
            }
            (Val::Map(entries), Ty::Map(r, s)) => {
                return entries_fit(entries.as_slice(), r.get(), s.get());
            }
            _ => return false,
        }
    }
}

#[cycle(fitting)]
fn all_fit(items: &[Val], t: &Ty) -> bool
    ensures { result ≡ list_all (λ item. fits item t.now) items.now }
{
    for item in items {
        if !fits(item, t) {
            return false;
        }
    }
    true
}

#[cycle(fitting)]
fn entries_fit(entries: &[(Val, Val)], k: &Ty, v: &Ty) -> bool
    ensures { result ≡ list_all (λ e. fits e.0 k.now && fits e.1 v.now) entries.now }
{
    for entry in entries {
        if !fits(&entry.0, k) || !fits(&entry.1, v) {
            return false;
        }
    }
    true
}

/// A value of a passable type is plain, and a plain value is no deeper than its type.
pub fn typed_values_are_plain()
    ensures plain { (v : Val) (t : Ty) →
        IsTrue (has_type v t) → IsTrue (is_passable t) → IsTrue (is_plain v) }
    ensures depth { (v : Val) (t : Ty) →
        IsTrue (is_plain v) → IsTrue (fits v t) → depth_of v ≤ depth_of_type t }
{}
