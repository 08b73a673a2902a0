//! Whether two values, or two operations, are equal.

ghost use Rattle.std.specs.Prelude.{◌≡◌, ◌↔◌, IsTrue};

use crate::val::{Emit, Val};

impl Val {
    /// Whether the values are equal.
    #[cycle(sameness)]
    pub fn same(&self, other: &Val) -> bool
        ensures { IsTrue result ↔ (self.now ≡ other.now) }
    {
        let (mut v, mut w) = (self, other);
        loop {
            match (v, w) {
                (Val::Unit, Val::Unit) | (Val::Nothing, Val::Nothing) => return true,
                (Val::Bool(a), Val::Bool(b)) => return *a == *b,
                (Val::Int(a), Val::Int(b))
                | (Val::Nat(a), Val::Nat(b))
                | (Val::Time(a), Val::Time(b)) => return a.get() == b.get(),
                (Val::Mutez(a), Val::Mutez(b)) => return *a == *b,
                (Val::Text(a), Val::Text(b)) => return a.same(b),
                (Val::Bytes(a), Val::Bytes(b)) => return a.same(b),
                (Val::Addr(a), Val::Addr(b)) => return *a == *b,
                (Val::Some(a), Val::Some(b))
                | (Val::Left(a), Val::Left(b))
                | (Val::Right(a), Val::Right(b)) => {
                    v = a.get();
                    w = b.get();
                }
                (Val::Pair(a, b), Val::Pair(c, d)) if a.get().same(c.get()) => {
                    v = b.get();
                    w = d.get();
                }
                (Val::List(a), Val::List(b)) | (Val::Set(a), Val::Set(b)) => {
                    return all_same(a.as_slice(), b.as_slice());
                }
                (Val::Map(a), Val::Map(b)) => return entries_same(a.as_slice(), b.as_slice()),
                (Val::BigMap { place, version: m }, Val::BigMap { place: p, version }) => {
                    return *place == *p && *m == *version;
                }
                (Val::Contract(a, b), Val::Contract(c, d)) => return *a == *c && *b == *d,
                (Val::Operation(a), Val::Operation(b)) => return a.get().same(b.get()),
                _ => return false,
            }
        }
    }
}

impl Emit {
    /// Whether the operations are equal.
    #[cycle(sameness)]
    pub fn same(&self, other: &Emit) -> bool
        ensures { IsTrue result ↔ (self.now ≡ other.now) }
    {
        self.dest == other.dest
            && self.entry == other.entry
            && self.param.same(&other.param)
            && self.amount == other.amount
    }
}

#[cycle(sameness)]
fn all_same(a: &[Val], b: &[Val]) -> bool
    ensures { IsTrue result ↔ (a.now ≡ b.now) }
{
    if a.len() != b.len() {
        return false;
    }
    for i in 0..a.len() {
        if !a[i].same(&b[i]) {
            return false;
        }
    }
    true
}

#[cycle(sameness)]
fn entries_same(a: &[(Val, Val)], b: &[(Val, Val)]) -> bool
    ensures { IsTrue result ↔ (a.now ≡ b.now) }
{
    if a.len() != b.len() {
        return false;
    }
    for i in 0..a.len() {
        if !a[i].0.same(&b[i].0) || !a[i].1.same(&b[i].1) {
            return false;
        }
    }
    true
}
