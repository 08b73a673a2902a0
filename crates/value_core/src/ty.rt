//! Types of values.

ghost use Rattle.std.specs.Prelude.{◌≡◌, ◌↔◌, IfOk, IsTrue};

use crate::memory::NoMemory;
use sqlite_items::{Boxed, Items};
use std::alloc::Global;

/// What a value may be built as.
#[derive(Debug)]
pub enum Ty {
    /// The one value `Unit`.
    Unit,
    /// True or false.
    Bool,
    /// A whole number from -(2^127 - 1) to 2^127 - 1.
    Int,
    /// A whole number from 0 to 2^127 - 1.
    Nat,
    /// An amount of money, from 0 to 2^63 - 1 millionths.
    Mutez,
    /// Seconds since 1970, with the range of `Int`.
    Time,
    /// At most 131,071 printable characters and newlines.
    Text,
    /// At most 131,071 bytes.
    Bytes,
    /// The 22 bytes of an account or a contract.
    Addr,
    /// None, or a value.
    Option(Boxed<Ty>),
    /// A value on the left, or one on the right.
    Or(Boxed<Ty>, Boxed<Ty>),
    /// Two values.
    Pair(Boxed<Ty>, Boxed<Ty>),
    /// Values in a row.
    List(Boxed<Ty>),
    /// Values that strictly ascend.
    Set(Boxed<Ty>),
    /// Keys that strictly ascend, each with a value.
    Map(Boxed<Ty>, Boxed<Ty>),
    /// A map that stays in the state, named by its place.
    BigMap(Boxed<Ty>, Boxed<Ty>),
    /// The entry of a contract that takes such a value.
    Contract(Boxed<Ty>),
    /// What a contract emits.
    Operation,
}

// The last part is dropped in the loop: a flat `pair` is as deep as it has parts.
impl Drop for Ty {
    fn drop(mut self) {
        loop {
            match self {
                Ty::Unit
                | Ty::Bool
                | Ty::Int
                | Ty::Nat
                | Ty::Mutez
                | Ty::Time
                | Ty::Text
                | Ty::Bytes
                | Ty::Addr
                | Ty::Operation => return,
                Ty::Option(last) | Ty::List(last) | Ty::Set(last) | Ty::Contract(last) => {
                    self = last.into_inner();
                }
                Ty::Or(first, last)
                | Ty::Pair(first, last)
                | Ty::Map(first, last)
                | Ty::BigMap(first, last) => {
                    drop(first);
                    self = last.into_inner();
                }
            }
        }
    }
}

impl Ty {
    /// An equal type.
    #[cycle(copying_types)]
    pub fn copy(&self, alloc: Global) -> Result<Ty, NoMemory>
        ensures { IfOk result (λ t. t ≡ self.now) }
    {
        match self {
            Ty::Unit => Ok(Ty::Unit),
            Ty::Bool => Ok(Ty::Bool),
            Ty::Int => Ok(Ty::Int),
            Ty::Nat => Ok(Ty::Nat),
            Ty::Mutez => Ok(Ty::Mutez),
            Ty::Time => Ok(Ty::Time),
            Ty::Text => Ok(Ty::Text),
            Ty::Bytes => Ok(Ty::Bytes),
            Ty::Addr => Ok(Ty::Addr),
            Ty::Option(t) => Ok(Ty::Option(copy_boxed(alloc, t)?)),
            Ty::Or(s, t) => Ok(Ty::Or(copy_boxed(alloc, s)?, copy_boxed(alloc, t)?)),
            Ty::Pair(first, rest) => copy_comb(alloc, first.get(), rest.get()),
            Ty::List(t) => Ok(Ty::List(copy_boxed(alloc, t)?)),
            Ty::Set(t) => Ok(Ty::Set(copy_boxed(alloc, t)?)),
            Ty::Map(k, v) => Ok(Ty::Map(copy_boxed(alloc, k)?, copy_boxed(alloc, v)?)),
            Ty::BigMap(k, v) => Ok(Ty::BigMap(copy_boxed(alloc, k)?, copy_boxed(alloc, v)?)),
            Ty::Contract(t) => Ok(Ty::Contract(copy_boxed(alloc, t)?)),
            Ty::Operation => Ok(Ty::Operation),
        }
    }

    /// Whether the types are equal.
    pub fn same(&self, other: &Ty) -> bool
        ensures { IsTrue result ↔ (self.now ≡ other.now) }
    {
        let (mut a, mut b) = (self, other);
        loop {
            match (a, b) {
                (Ty::Unit, Ty::Unit)
                | (Ty::Bool, Ty::Bool)
                | (Ty::Int, Ty::Int)
                | (Ty::Nat, Ty::Nat)
                | (Ty::Mutez, Ty::Mutez)
                | (Ty::Time, Ty::Time)
                | (Ty::Text, Ty::Text)
                | (Ty::Bytes, Ty::Bytes)
                | (Ty::Addr, Ty::Addr)
                | (Ty::Operation, Ty::Operation) => return true,
                (Ty::Option(s), Ty::Option(t))
                | (Ty::List(s), Ty::List(t))
                | (Ty::Set(s), Ty::Set(t))
                | (Ty::Contract(s), Ty::Contract(t)) => {
                    a = s.get();
                    b = t.get();
                }
                (Ty::Or(r, s), Ty::Or(t, u))
                | (Ty::Pair(r, s), Ty::Pair(t, u))
                | (Ty::Map(r, s), Ty::Map(t, u))
                | (Ty::BigMap(r, s), Ty::BigMap(t, u)) => {
                    if !r.get().same(t.get()) {
                        return false;
                    }
                    a = s.get();
                    b = u.get();
                }
                _ => return false,
            }
        }
    }
}

#[cycle(copying_types)]
fn copy_boxed(alloc: Global, t: &Boxed<Ty>) -> Result<Boxed<Ty>, NoMemory>
    ensures { IfOk result (λ copied. copied ≡ t.now) }
{
    Boxed::new(alloc, t.get().copy(alloc)?)
}

// The pair of the copies of two types; the first parts of a comb wait in a list for its last one.
#[cycle(copying_types)]
#[tactic(auto, using(crate::proofs::Combs::one_more_part))]
fn copy_comb(alloc: Global, first: &Ty, rest: &Ty) -> Result<Ty, NoMemory>
    ensures { IfOk result (λ t. t ≡ Ty.Pair first.now rest.now) }
{
    let mut firsts = Items::new(alloc);
    let (mut left, mut right) = (first, rest);
    while let Ty::Pair(next, behind) = right {
        firsts.push(left.copy(alloc)?)?;
        left = next.get();
        right = behind.get();
    }
    let mut comb = pair(alloc, left.copy(alloc)?, right.copy(alloc)?)?;
    while let Some(part) = firsts.pop() {
        comb = pair(alloc, part, comb)?;
    }
    Ok(comb)
}

fn pair(alloc: Global, a: Ty, b: Ty) -> Result<Ty, NoMemory>
    ensures { IfOk result (λ t. t ≡ Ty.Pair a b) }
{
    Ok(Ty::Pair(Boxed::new(alloc, a)?, Boxed::new(alloc, b)?))
}
