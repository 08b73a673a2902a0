//! Copies of values and of operations.

ghost use Rattle.std.specs.Prelude.{◌≡◌, IfOk};

use crate::memory::NoMemory;
use crate::val::{Emit, Val, comb, left, operation, pair, right, some};
use sqlite_items::Items;
use std::alloc::Global;

impl Val {
    /// An equal value.
    #[cycle(copying)]
    pub fn copy(&self, alloc: Global) -> Result<Val, NoMemory>
        ensures { IfOk result (λ v. v ≡ self.now) }
    {
        match self {
            Val::Unit => Ok(Val::Unit),
            Val::Bool(b) => Ok(Val::Bool(*b)),
            Val::Int(n) => Ok(Val::Int(*n)),
            Val::Nat(n) => Ok(Val::Nat(*n)),
            Val::Mutez(n) => Ok(Val::Mutez(*n)),
            Val::Time(n) => Ok(Val::Time(*n)),
            Val::Text(text) => Ok(Val::Text(text.copy(alloc)?)),
            Val::Bytes(blob) => Ok(Val::Bytes(blob.copy(alloc)?)),
            Val::Addr(address) => Ok(Val::Addr(*address)),
            Val::Nothing => Ok(Val::Nothing),
            Val::Some(part) => some(alloc, part.get().copy(alloc)?),
            Val::Left(part) => left(alloc, part.get().copy(alloc)?),
            Val::Right(part) => right(alloc, part.get().copy(alloc)?),
            Val::Pair(first, rest) => copy_comb(alloc, first.get(), rest.get()),
            Val::List(items) => Ok(Val::List(copy_all(alloc, items.as_slice())?)),
            Val::Set(items) => Ok(Val::Set(copy_all(alloc, items.as_slice())?)),
            Val::Map(entries) => Ok(Val::Map(copy_entries(alloc, entries.as_slice())?)),
            Val::BigMap { place, version } => Ok(Val::BigMap {
                place: *place,
                version: *version,
            }),
            Val::Contract(address, entry) => Ok(Val::Contract(*address, *entry)),
            Val::Operation(emit) => operation(alloc, emit.get().copy(alloc)?),
        }
    }
}

impl Emit {
    /// An equal operation.
    #[cycle(copying)]
    pub fn copy(&self, alloc: Global) -> Result<Emit, NoMemory>
        ensures { IfOk result (λ e. e ≡ self.now) }
    {
        Ok(Emit {
            dest: self.dest,
            entry: self.entry,
            param: self.param.copy(alloc)?,
            amount: self.amount,
        })
    }
}

// The pair of the copies of two values; the first parts of a comb wait in a list for its last one.
#[cycle(copying)]
fn copy_comb(alloc: Global, first: &Val, rest: &Val) -> Result<Val, NoMemory>
    ensures { IfOk result (λ v. v ≡ Val.Pair first.now rest.now) }
{
    let mut firsts = Items::new(alloc);
    let (mut left, mut right) = (first, rest);
    while let Val::Pair(next, behind) = right {
        firsts.push(left.copy(alloc)?)?;
        left = next.get();
        right = behind.get();
    }
    let last = pair(alloc, left.copy(alloc)?, right.copy(alloc)?)?;
    comb(alloc, firsts, last)
}

#[cycle(copying)]
fn copy_all(alloc: Global, items: &[Val]) -> Result<Items<Val>, NoMemory>
    ensures { IfOk result (λ made. made ≡ items.now) }
{
    let mut made = Items::new(alloc);
    for item in items {
        made.push(item.copy(alloc)?)?;
    }
    Ok(made)
}

#[cycle(copying)]
fn copy_entries(alloc: Global, entries: &[(Val, Val)]) -> Result<Items<(Val, Val)>, NoMemory>
    ensures { IfOk result (λ made. made ≡ entries.now) }
{
    let mut made = Items::new(alloc);
    for entry in entries {
        made.push((entry.0.copy(alloc)?, entry.1.copy(alloc)?))?;
    }
    Ok(made)
}
