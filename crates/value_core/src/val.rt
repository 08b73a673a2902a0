//! Values, and the operations that a contract emits.

ghost use Rattle.std.specs.Prelude.{◌≡◌, ◌≢◌, IfErr, IfOk, List, Ok, OnErr};
ghost use Rattle.value_core.specs.Combs.{comb};
ghost use Rattle.value_core.specs.declared.val.Val.{Val};

use crate::address::Address;
use crate::memory::NoMemory;
use crate::name::Name;
use crate::num::Num;
use crate::text::{Blob, Text};
use sqlite_items::{Boxed, Items};
use std::alloc::Global;

/// A value of contract data. `Nothing` is Michelson's `None`.
#[cycle(values)]
#[derive(Debug)]
pub enum Val {
    /// The one value of its type.
    Unit,
    /// True or false.
    Bool(bool),
    /// A whole number.
    Int(Num),
    /// A whole number; a sound value has none below 0.
    Nat(Num),
    /// An amount in millionths; of a sound value below 2^63.
    Mutez(u64),
    /// Seconds since 1970, also before.
    Time(Num),
    /// Printable characters and newlines.
    Text(Text),
    /// Any bytes.
    Bytes(Blob),
    /// The address of an account or a contract.
    Addr(Address),
    /// An option without a value.
    Nothing,
    /// An option with its value.
    Some(Boxed<Val>),
    /// The left of an `or`.
    Left(Boxed<Val>),
    /// The right of an `or`.
    Right(Boxed<Val>),
    /// Two values, the first and the second.
    Pair(Boxed<Val>, Boxed<Val>),
    /// Values in a row; of a sound value fewer than 2^32.
    List(Items<Val>),
    /// Values; of a sound value strictly ascending.
    Set(Items<Val>),
    /// Keys with their values; of a sound value strictly ascending by key.
    Map(Items<(Val, Val)>),
    /// A map of the state: its place in the storage, below 16 in a sound value, and its version, 0 where it is unchanged.
    BigMap { place: u8, version: u32 },
    /// The entry of a contract that stands.
    Contract(Address, Name),
    /// What a contract emits.
    Operation(Boxed<Emit>),
}

// The last part is dropped in the loop: a flat `Pair` is as deep as it has parts.
impl Drop for Val {
    #[cycle(dropping)]
    fn drop(mut self) {
        loop {
            match self {
                Val::Some(last) | Val::Left(last) | Val::Right(last) => self = last.into_inner(),
                Val::Pair(first, last) => {
                    drop(first);
                    self = last.into_inner();
                }
                Val::Text(text) => return drop(text),
                Val::Bytes(blob) => return drop(blob),
                Val::List(items) | Val::Set(items) => return drop(items),
                Val::Map(entries) => return drop(entries),
                Val::Operation(emit) => return drop(emit),
                Val::Unit
                | Val::Bool(_)
                | Val::Int(_)
                | Val::Nat(_)
                | Val::Mutez(_)
                | Val::Time(_)
                | Val::Addr(_)
                | Val::Nothing
                | Val::BigMap {
                    place: _,
                    version: _,
                }
                | Val::Contract(_, _) => return,
            }
        }
    }
}

/// An operation that a contract emits: `amount` goes to `dest`, whose `entry` is given `param`.
#[cycle(values)]
#[derive(Debug, Drop)]
pub struct Emit {
    /// The account or contract that is called.
    pub dest: Address,
    /// The name of its entry; an account has `default`.
    pub entry: Name,
    /// What the entry is given.
    pub param: Val,
    /// Millionths that go along; in a sound value below 2^63.
    pub amount: u64,
}

impl Val {
    /// The two values of a pair; any other value is given back.
    pub fn into_pair(self) -> Result<(Val, Val), Val>
        ensures pair { IfOk result (λ parts. self ≡ Val.Pair parts.0 parts.1) }
        ensures other { IfErr result (λ v. v ≡ self) }
        ensures unpaired { OnErr result ((a b : Val) → self ≢ Val.Pair a b) }
    {
        match self {
            Val::Pair(a, b) => Ok((a.into_inner(), b.into_inner())),
            other => Err(other),
        }
    }

    /// The entries of a map; any other value is given back.
    pub fn into_entries(self) -> Result<Items<(Val, Val)>, Val>
        ensures map { IfOk result (λ entries. self ≡ Val.Map entries) }
        ensures other { IfErr result (λ v. v ≡ self) }
        ensures unmapped { OnErr result ((entries : List (Val × Val)) → self ≢ Val.Map entries) }
    {
        match self {
            Val::Map(entries) => Ok(entries),
            other => Err(other),
        }
    }

    /// The items of a list; any other value is given back.
    pub fn into_list(self) -> Result<Items<Val>, Val>
        ensures list { IfOk result (λ items. self ≡ Val.List items) }
        ensures other { IfErr result (λ v. v ≡ self) }
        ensures unlisted { OnErr result ((items : List Val) → self ≢ Val.List items) }
    {
        match self {
            Val::List(items) => Ok(items),
            other => Err(other),
        }
    }

    /// The items of a set; any other value is given back.
    pub fn into_set(self) -> Result<Items<Val>, Val>
        ensures set { IfOk result (λ items. self ≡ Val.Set items) }
        ensures other { IfErr result (λ v. v ≡ self) }
        ensures no_set { OnErr result ((items : List Val) → self ≢ Val.Set items) }
    {
        match self {
            Val::Set(items) => Ok(items),
            other => Err(other),
        }
    }

    /// What an option or a side of an `or` has; any other value is given back.
    pub fn into_part(self) -> Result<Val, Val>
        ensures some { (part : Val) → self ≡ Val.Some part → result ≡ Ok part }
        ensures left { (part : Val) → self ≡ Val.Left part → result ≡ Ok part }
        ensures right { (part : Val) → self ≡ Val.Right part → result ≡ Ok part }
        ensures other { IfErr result (λ v. v ≡ self) }
    {
        match self {
            Val::Some(part) | Val::Left(part) | Val::Right(part) => Ok(part.into_inner()),
            other => Err(other),
        }
    }
}

/// `Some` of a value.
pub fn some(alloc: Global, part: Val) -> Result<Val, NoMemory>
    ensures { IfOk result (λ v. v ≡ Val.Some part) }
{
    Ok(Val::Some(Boxed::new(alloc, part)?))
}

/// `Left` of a value.
pub fn left(alloc: Global, part: Val) -> Result<Val, NoMemory>
    ensures { IfOk result (λ v. v ≡ Val.Left part) }
{
    Ok(Val::Left(Boxed::new(alloc, part)?))
}

/// `Right` of a value.
pub fn right(alloc: Global, part: Val) -> Result<Val, NoMemory>
    ensures { IfOk result (λ v. v ≡ Val.Right part) }
{
    Ok(Val::Right(Boxed::new(alloc, part)?))
}

/// The pair of two values.
pub fn pair(alloc: Global, a: Val, b: Val) -> Result<Val, NoMemory>
    ensures { IfOk result (λ v. v ≡ Val.Pair a b) }
{
    Ok(Val::Pair(Boxed::new(alloc, a)?, Boxed::new(alloc, b)?))
}

/// The pairs of a flat `Pair`: each of the first parts in a pair with all that stands behind it.
#[tactic(auto, using(crate::proofs::Combs::one_more_part))]
pub fn comb(alloc: Global, mut firsts: Items<Val>, last: Val) -> Result<Val, NoMemory>
    ensures { IfOk result (λ v. v ≡ comb Val.Pair firsts last) }
{
    let mut made = last;
    while let Some(part) = firsts.pop() {
        made = pair(alloc, part, made)?;
    }
    Ok(made)
}

/// An operation as a value.
pub fn operation(alloc: Global, emit: Emit) -> Result<Val, NoMemory>
    ensures { IfOk result (λ v. v ≡ Val.Operation emit) }
{
    Ok(Val::Operation(Boxed::new(alloc, emit)?))
}
