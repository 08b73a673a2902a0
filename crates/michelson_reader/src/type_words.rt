//! Words of types, by how many parts stand behind them.

ghost use Rattle.std.specs.Prelude.{◌≡◌, ◌||◌, IfOk};
ghost use Rattle.std.specs.Option.{option_map};
ghost use Rattle.michelson_reader.specs.Makers.{type_of_one, type_of_two};
ghost use Rattle.michelson_reader.specs.Names.{is_in, named, plain_types, types_of_one, types_of_two};

use crate::words::is_word;
use sqlite_items::Boxed;
use std::alloc::Global;
use value_core::{NoMemory, Ty};

/// A type with one part.
#[derive(Clone, Copy)]
pub(crate) enum TypeOfOne {
    Option,
    List,
    Set,
    Contract,
}

/// A type with two parts.
#[derive(Clone, Copy)]
pub(crate) enum TypeOfTwo {
    Or,
    Pair,
    Map,
    BigMap,
}

/// The type that a word alone is written for.
pub(crate) fn plain_type(name: &[u8]) -> Option<Ty>
    ensures { result ≡ named name.now plain_types }
{
    match name {
        _ if is_word(name, "unit") => Some(Ty::Unit),
        _ if is_word(name, "bool") => Some(Ty::Bool),
        _ if is_word(name, "int") => Some(Ty::Int),
        _ if is_word(name, "nat") => Some(Ty::Nat),
        _ if is_word(name, "mutez") => Some(Ty::Mutez),
        _ if is_word(name, "timestamp") => Some(Ty::Time),
        _ if is_word(name, "string") => Some(Ty::Text),
        _ if is_word(name, "bytes") => Some(Ty::Bytes),
        _ if is_word(name, "address") => Some(Ty::Addr),
        _ if is_word(name, "operation") => Some(Ty::Operation),
        _ => None,
    }
}

impl TypeOfOne {
    pub(crate) fn named(name: &[u8]) -> Option<TypeOfOne>
        ensures { option_map type_of_one result ≡ named name.now types_of_one }
    {
        match name {
            _ if is_word(name, "option") => Some(TypeOfOne::Option),
            _ if is_word(name, "list") => Some(TypeOfOne::List),
            _ if is_word(name, "set") => Some(TypeOfOne::Set),
            _ if is_word(name, "contract") => Some(TypeOfOne::Contract),
            _ => None,
        }
    }

    pub(crate) fn of(self, alloc: Global, part: Ty) -> Result<Ty, NoMemory>
        ensures { IfOk result (λ t. t ≡ type_of_one self part) }
    {
        let part = Boxed::new(alloc, part)?;
        Ok(match self {
            TypeOfOne::Option => Ty::Option(part),
            TypeOfOne::List => Ty::List(part),
            TypeOfOne::Set => Ty::Set(part),
            TypeOfOne::Contract => Ty::Contract(part),
        })
    }
}

impl TypeOfTwo {
    pub(crate) fn named(name: &[u8]) -> Option<TypeOfTwo>
        ensures { option_map type_of_two result ≡ named name.now types_of_two }
    {
        match name {
            _ if is_word(name, "or") => Some(TypeOfTwo::Or),
            _ if is_word(name, "pair") => Some(TypeOfTwo::Pair),
            _ if is_word(name, "map") => Some(TypeOfTwo::Map),
            _ if is_word(name, "big_map") => Some(TypeOfTwo::BigMap),
            _ => None,
        }
    }

    pub(crate) fn of(self, alloc: Global, first: Ty, second: Ty) -> Result<Ty, NoMemory>
        ensures { IfOk result (λ t. t ≡ type_of_two self first second) }
    {
        let first = Boxed::new(alloc, first)?;
        let second = Boxed::new(alloc, second)?;
        Ok(match self {
            TypeOfTwo::Or => Ty::Or(first, second),
            TypeOfTwo::Pair => Ty::Pair(first, second),
            TypeOfTwo::Map => Ty::Map(first, second),
            TypeOfTwo::BigMap => Ty::BigMap(first, second),
        })
    }
}

pub(crate) fn is_type_word(name: &[u8]) -> bool
    ensures { result ≡ (is_in name.now plain_types
        || is_in name.now types_of_one || is_in name.now types_of_two) }
{
    plain_type(name).is_some()
        || TypeOfOne::named(name).is_some()
        || TypeOfTwo::named(name).is_some()
}
