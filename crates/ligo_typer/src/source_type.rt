//! The types of source values.

ghost use Rattle.std.specs.Prelude.{◌≡◌, ◌↔◌, IfOk, IsTrue};

use sqlite_items::{Boxed, Items};
use std::alloc::Global;
use value_core::NoMemory;

/// The type of a source value. Fields and cases stand in declared order.
#[derive(Debug, Drop)]
pub enum SrcTy {
    /// A whole number.
    Int,
    /// A whole number that isn't below 0.
    Nat,
    /// An amount of money, in mutez.
    Tez,
    /// A string.
    Text,
    /// Bytes.
    Bytes,
    /// True or false.
    Bool,
    /// The one value `()`.
    Unit,
    /// An address.
    Addr,
    /// A timestamp.
    Time,
    /// What a contract emits.
    Operation,
    /// None, or a value.
    Option(Boxed<SrcTy>),
    /// Values in a row.
    List(Boxed<SrcTy>),
    /// The entry of a contract that takes such a value.
    Contract(Boxed<SrcTy>),
    /// Keys, each with a value.
    Map(Boxed<SrcTy>, Boxed<SrcTy>),
    /// A map that stays in the state.
    BigMap(Boxed<SrcTy>, Boxed<SrcTy>),
    /// Two values and more.
    Tuple(Items<SrcTy>),
    /// Named values.
    Record(Items<(Items<u8>, SrcTy)>),
    /// One of several cases, each with a value or alone.
    Variant(Items<(Items<u8>, Option<SrcTy>)>),
}

impl SrcTy {
    /// An equal type.
    #[cycle(copying)]
    pub fn copy(&self, alloc: Global) -> Result<SrcTy, NoMemory>
        ensures { IfOk result (λ t. t ≡ self.now) }
    {
        match self {
            SrcTy::Int => Ok(SrcTy::Int),
            SrcTy::Nat => Ok(SrcTy::Nat),
            SrcTy::Tez => Ok(SrcTy::Tez),
            SrcTy::Text => Ok(SrcTy::Text),
            SrcTy::Bytes => Ok(SrcTy::Bytes),
            SrcTy::Bool => Ok(SrcTy::Bool),
            SrcTy::Unit => Ok(SrcTy::Unit),
            SrcTy::Addr => Ok(SrcTy::Addr),
            SrcTy::Time => Ok(SrcTy::Time),
            SrcTy::Operation => Ok(SrcTy::Operation),
            SrcTy::Option(t) => Ok(SrcTy::Option(copy_boxed(alloc, t)?)),
            SrcTy::List(t) => Ok(SrcTy::List(copy_boxed(alloc, t)?)),
            SrcTy::Contract(t) => Ok(SrcTy::Contract(copy_boxed(alloc, t)?)),
            SrcTy::Map(k, v) => Ok(SrcTy::Map(copy_boxed(alloc, k)?, copy_boxed(alloc, v)?)),
            SrcTy::BigMap(k, v) => {
                Ok(SrcTy::BigMap(copy_boxed(alloc, k)?, copy_boxed(alloc, v)?))
            }
            SrcTy::Tuple(parts) => Ok(SrcTy::Tuple(copy_all(alloc, parts.as_slice())?)),
            SrcTy::Record(fields) => Ok(SrcTy::Record(copy_fields(alloc, fields.as_slice())?)),
            SrcTy::Variant(cases) => Ok(SrcTy::Variant(copy_cases(alloc, cases.as_slice())?)),
        }
    }

    /// Whether the types are equal.
    #[cycle(sameness)]
    pub fn same(&self, other: &SrcTy) -> bool
        ensures { IsTrue result ↔ (self.now ≡ other.now) }
    {
        match (self, other) {
            (SrcTy::Int, SrcTy::Int)
            | (SrcTy::Nat, SrcTy::Nat)
            | (SrcTy::Tez, SrcTy::Tez)
            | (SrcTy::Text, SrcTy::Text)
            | (SrcTy::Bytes, SrcTy::Bytes)
            | (SrcTy::Bool, SrcTy::Bool)
            | (SrcTy::Unit, SrcTy::Unit)
            | (SrcTy::Addr, SrcTy::Addr)
            | (SrcTy::Time, SrcTy::Time)
            | (SrcTy::Operation, SrcTy::Operation) => true,
            (SrcTy::Option(s), SrcTy::Option(t))
            | (SrcTy::List(s), SrcTy::List(t))
            | (SrcTy::Contract(s), SrcTy::Contract(t)) => s.get().same(t.get()),
            (SrcTy::Map(r, s), SrcTy::Map(t, u)) | (SrcTy::BigMap(r, s), SrcTy::BigMap(t, u)) => {
                r.get().same(t.get()) && s.get().same(u.get())
            }
            (SrcTy::Tuple(s), SrcTy::Tuple(t)) => all_same(s.as_slice(), t.as_slice()),
            (SrcTy::Record(s), SrcTy::Record(t)) => fields_same(s.as_slice(), t.as_slice()),
            (SrcTy::Variant(s), SrcTy::Variant(t)) => cases_same(s.as_slice(), t.as_slice()),
            _ => false,
        }
    }
}

#[cycle(copying)]
fn copy_boxed(alloc: Global, t: &Boxed<SrcTy>) -> Result<Boxed<SrcTy>, NoMemory>
    ensures { IfOk result (λ copied. copied ≡ t.now) }
{
    Boxed::new(alloc, t.get().copy(alloc)?)
}

#[cycle(copying)]
fn copy_all(alloc: Global, parts: &[SrcTy]) -> Result<Items<SrcTy>, NoMemory>
    ensures { IfOk result (λ made. made ≡ parts.now) }
{
    let mut made = Items::new(alloc);
    for part in parts {
        made.push(part.copy(alloc)?)?;
    }
    Ok(made)
}

#[cycle(copying)]
fn copy_fields(
    alloc: Global,
    fields: &[(Items<u8>, SrcTy)],
) -> Result<Items<(Items<u8>, SrcTy)>, NoMemory>
    ensures { IfOk result (λ made. made ≡ fields.now) }
{
    let mut made = Items::new(alloc);
    for field in fields {
        let name = Items::from_slice(alloc, field.0.as_slice())?;
        made.push((name, field.1.copy(alloc)?))?;
    }
    Ok(made)
}

#[cycle(copying)]
fn copy_cases(
    alloc: Global,
    cases: &[(Items<u8>, Option<SrcTy>)],
) -> Result<Items<(Items<u8>, Option<SrcTy>)>, NoMemory>
    ensures { IfOk result (λ made. made ≡ cases.now) }
{
    let mut made = Items::new(alloc);
    for case in cases {
        let name = Items::from_slice(alloc, case.0.as_slice())?;
        let part = match &case.1 {
            Some(t) => Some(t.copy(alloc)?),
            None => None,
        };
        made.push((name, part))?;
    }
    Ok(made)
}

#[cycle(sameness)]
fn all_same(a: &[SrcTy], b: &[SrcTy]) -> bool
    ensures { IsTrue result ↔ (a.now ≡ b.now) }
{
    if a.len() != b.len() {
        return false;
    }
    for i in 0..a.len() {
        if !a[i].same(&b[i]) {
            return false;
        }
    }
    true
}

#[cycle(sameness)]
fn fields_same(a: &[(Items<u8>, SrcTy)], b: &[(Items<u8>, SrcTy)]) -> bool
    ensures { IsTrue result ↔ (a.now ≡ b.now) }
{
    if a.len() != b.len() {
        return false;
    }
    for i in 0..a.len() {
        if a[i].0.as_slice() != b[i].0.as_slice() || !a[i].1.same(&b[i].1) {
            return false;
        }
    }
    true
}

#[cycle(sameness)]
fn cases_same(a: &[(Items<u8>, Option<SrcTy>)], b: &[(Items<u8>, Option<SrcTy>)]) -> bool
    ensures { IsTrue result ↔ (a.now ≡ b.now) }
{
    if a.len() != b.len() {
        return false;
    }
    for i in 0..a.len() {
        if a[i].0.as_slice() != b[i].0.as_slice() {
            return false;
        }
        match (&a[i].1, &b[i].1) {
            (None, None) => {}
            (Some(s), Some(t)) if s.same(t) => {}
            _ => return false,
        }
    }
    true
}
