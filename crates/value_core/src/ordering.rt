//! The order of values.

ghost use Rattle.std.specs.Prelude.{◌≡◌};
ghost use Rattle.std.specs.Cmp.Lexicographic.{slice_cmp};
ghost use Rattle.std.specs.Ordering.{nat_cmp};
ghost use Rattle.value_core.specs.Alike.{AreAlike};
ghost use Rattle.value_core.specs.Layer.{flat, tag_of};
ghost use Rattle.value_core.specs.Order.{IsOrder, order, order_emit};
ghost use Rattle.value_core.specs.declared.val.Val.TheViews.{out-Val};

use crate::address::Address;
use crate::val::{Emit, Val};
use std::cmp::Ordering;

fn tag(v: &Val) -> u8
    ensures { result ≡ tag_of (out-Val v.now) }
{
    match v {
        Val::Unit => 0,
        Val::Bool(false) => 1,
        Val::Bool(true) => 2,
        Val::Int(_) => 3,
        Val::Nat(_) => 4,
        Val::Mutez(_) => 5,
        Val::Time(_) => 6,
        Val::Text(_) => 7,
        Val::Bytes(_) => 8,
        Val::Addr(_) => 9,
        Val::Nothing => 10,
        Val::Some(_) => 11,
        Val::Left(_) => 12,
        Val::Right(_) => 13,
        Val::Pair(_, _) => 14,
        Val::List(_) => 15,
        Val::Set(_) => 16,
        Val::Map(_) => 17,
        Val::BigMap { .. } => 18,
        Val::Contract(_, _) => 19,
        Val::Operation(_) => 20,
    }
}

/// How the first value stands to the second in the order of values.
#[cycle(comparing)]
pub fn compare(a: &Val, b: &Val) -> Ordering
    ensures { result ≡ order a.now b.now }
{
    let (mut a, mut b) = (a, b);
    loop {
        match tag(a).cmp(&tag(b)) {
            Ordering::Equal => {}
            unequal => return unequal,
        }
        match (a, b) {
            (Val::Pair(x, y), Val::Pair(z, w)) => match compare(x.get(), z.get()) {
                Ordering::Equal => {
                    a = y.get();
                    b = w.get();
                }
                unequal => return unequal,
            },
            _ => return compare_alike(a, b),
        }
    }
}

// The order of two values with one tag, other than pairs.
#[cycle(comparing)]
fn compare_alike(a: &Val, b: &Val) -> Ordering
    ensures { AreAlike (out-Val a.now) (out-Val b.now) → result ≡ order a.now b.now }
{
    match (a, b) {
        (Val::Int(m), Val::Int(n)) | (Val::Nat(m), Val::Nat(n)) | (Val::Time(m), Val::Time(n)) => {
            m.get().cmp(&n.get())
        }
        (Val::Mutez(m), Val::Mutez(n)) => m.cmp(n),
        (Val::Text(s), Val::Text(t)) => s.bytes().cmp(t.bytes()),
        (Val::Bytes(s), Val::Bytes(t)) => s.bytes().cmp(t.bytes()),
        (Val::Addr(s), Val::Addr(t)) => compare_addresses(s, t),
        (Val::Some(x), Val::Some(y))
        | (Val::Left(x), Val::Left(y))
        | (Val::Right(x), Val::Right(y)) => compare(x.get(), y.get()),
        (Val::List(x), Val::List(y)) | (Val::Set(x), Val::Set(y)) => {
            compare_all(x.as_slice(), y.as_slice())
        }
        (Val::Map(x), Val::Map(y)) => compare_entries(x.as_slice(), y.as_slice()),
        (
            Val::BigMap { place, version },
            Val::BigMap {
                place: other_place,
                version: other_version,
            },
        ) => match place.cmp(other_place) {
            Ordering::Equal => version.cmp(other_version),
            unequal => unequal,
        },
        (Val::Contract(s, x), Val::Contract(t, y)) => match compare_addresses(s, t) {
            Ordering::Equal => x.bytes().cmp(y.bytes()),
            unequal => unequal,
        },
        (Val::Operation(x), Val::Operation(y)) => compare_emits(x.get(), y.get()),
        _ => Ordering::Equal,
    }
}

fn compare_addresses(a: &Address, b: &Address) -> Ordering
    ensures { result ≡ slice_cmp nat_cmp a.now b.now }
{
    a.cmp(b)
}

#[cycle(comparing)]
fn compare_emits(a: &Emit, b: &Emit) -> Ordering
    ensures { result ≡ order_emit a.now b.now }
{
    match compare_addresses(&a.dest, &b.dest) {
        Ordering::Equal => match a.entry.bytes().cmp(b.entry.bytes()) {
            Ordering::Equal => match compare(&a.param, &b.param) {
                Ordering::Equal => a.amount.cmp(&b.amount),
                unequal => unequal,
            },
            unequal => unequal,
        },
        unequal => unequal,
    }
}

#[cycle(comparing)]
fn compare_all(a: &[Val], b: &[Val]) -> Ordering
    ensures { result ≡ slice_cmp order a.now b.now }
{
    let common = a.len().min(b.len());
    for i in 0..common {
        match compare(&a[i], &b[i]) {
            Ordering::Equal => {}
            unequal => return unequal,
        }
    }
    a.len().cmp(&b.len())
}

#[cycle(comparing)]
fn compare_entries(map: &[(Val, Val)], other: &[(Val, Val)]) -> Ordering
    ensures { result ≡ slice_cmp order (flat map.now) (flat other.now) }
{
    let common = map.len().min(other.len());
    for i in 0..common {
        match compare(&map[i].0, &other[i].0) {
            Ordering::Equal => match compare(&map[i].1, &other[i].1) {
                Ordering::Equal => {}
                unequal => return unequal,
            },
            unequal => return unequal,
        }
    }
    map.len().cmp(&other.len())
}

/// The order is total, and ties equal values alone.
pub fn order_is_total()
    ensures { IsOrder order }
{}
