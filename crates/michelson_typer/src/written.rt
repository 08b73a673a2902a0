//! Types of the script in the table.

ghost use Rattle.std.specs.Prelude.{◌≡◌, ◌<◌, IfOk, length};
ghost use Rattle.michelson_typer.specs.Tables.{Grows, IsTypeOf, type_at};
ghost use Rattle.michelson_typer.specs.Writing.{AreWaiting, IsBegun, filled, over_all};

use crate::types::{TypeId, Types};
use michelson_code::Level;
use std::alloc::Global;
use value_core::{NoMemory, Ty};

/// What still waits for the number of its last part.
#[derive(Clone, Copy)]
enum Waiting {
    Option,
    List,
    Set,
    Contract,
    Or(TypeId),
    Pair(TypeId),
    Map(TypeId),
    BigMap(TypeId),
}

/// A type whose level is known, or one that waits for its last part.
enum Begun<'a> {
    Whole(Level<TypeId>),
    Waits(Waiting, &'a Ty),
}

/// The number of a type of the script. A loop goes along last parts, so that a flat `pair` may be
/// as long as it likes.
#[cycle(writing)]
pub(crate) fn intern_type(alloc: Global, types: &mut Types, t: &Ty) -> Result<TypeId, NoMemory>
    ensures grows { Grows types.old types.new }
    ensures number { IfOk result (λ id. IsTypeOf types.new id t.now) }
{
    let mut above = Vec::new(alloc);
    let mut rest = t;
    loop {
        match open_type(alloc, types, rest)? {
            Begun::Whole(level) => {
                let id = types.intern(level)?;
                return close_all(types, above, id);
            }
            Begun::Waits(waiting, last) => {
                above.push(waiting)?;
                rest = last;
            }
        }
    }
}

/// A type whose first part has its number.
#[cycle(writing)]
#[tactic(auto, using(crate::proofs::WritingLaws::nodes_laws))]
fn open_type<'a>(alloc: Global, types: &mut Types, t: &'a Ty) -> Result<Begun<'a>, NoMemory>
    ensures grows { Grows types.old types.new }
    ensures begun { IfOk result (IsBegun types.new t.now) }
{
    let begun = match t {
        Ty::Unit => Begun::Whole(Level::Unit),
        Ty::Bool => Begun::Whole(Level::Bool),
        Ty::Int => Begun::Whole(Level::Int),
        Ty::Nat => Begun::Whole(Level::Nat),
        Ty::Mutez => Begun::Whole(Level::Mutez),
        Ty::Time => Begun::Whole(Level::Time),
        Ty::Text => Begun::Whole(Level::Text),
        Ty::Bytes => Begun::Whole(Level::Bytes),
        Ty::Addr => Begun::Whole(Level::Addr),
        Ty::Operation => Begun::Whole(Level::Operation),
        Ty::Option(t) => Begun::Waits(Waiting::Option, t.get()),
        Ty::List(t) => Begun::Waits(Waiting::List, t.get()),
        Ty::Set(t) => Begun::Waits(Waiting::Set, t.get()),
        Ty::Contract(t) => Begun::Waits(Waiting::Contract, t.get()),
        Ty::Or(s, t) => Begun::Waits(Waiting::Or(intern_type(alloc, types, s.get())?), t.get()),
        Ty::Pair(s, t) => Begun::Waits(Waiting::Pair(intern_type(alloc, types, s.get())?), t.get()),
        Ty::Map(s, t) => Begun::Waits(Waiting::Map(intern_type(alloc, types, s.get())?), t.get()),
        Ty::BigMap(s, t) => {
            Begun::Waits(
                Waiting::BigMap(intern_type(alloc, types, s.get())?),
                t.get(),
            )
        }
    };
    Ok(begun)
}

/// The number of the type under levels that wait, the outermost first.
fn close_all(types: &mut Types, mut above: Vec<Waiting>, last: TypeId) -> Result<TypeId, NoMemory>
    requires above { AreWaiting types.old above.items }
    requires last { last < length types.old }
    ensures grows { Grows types.old types.new }
    ensures number { IfOk result (λ id.
        IsTypeOf types.new id (over_all types.old above.items (type_at types.old last))) }
{
    let mut id = last;
    while let Some(waiting) = above.pop() {
        id = types.intern(filled(waiting, id))?;
    }
    Ok(id)
}

/// The level that waited, with its last part.
fn filled(waiting: Waiting, last: TypeId) -> Level<TypeId>
    ensures { result ≡ filled waiting last }
{
    match waiting {
        Waiting::Option => Level::Option(last),
        Waiting::List => Level::List(last),
        Waiting::Set => Level::Set(last),
        Waiting::Contract => Level::Contract(last),
        Waiting::Or(first) => Level::Or(first, last),
        Waiting::Pair(first) => Level::Pair(first, last),
        Waiting::Map(first) => Level::Map(first, last),
        Waiting::BigMap(first) => Level::BigMap(first, last),
    }
}
