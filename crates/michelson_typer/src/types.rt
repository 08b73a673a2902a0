//! The types on the checker's stack, each written down once.

use crate::extent::{Extent, over, over_two, scalar};
use indexmap::IndexMap;
use michelson_code::Level;
use std::alloc::Global;
use std::marker::Model;
use value_core::NoMemory;

/// The number of a type in the table.
pub(crate) type TypeId = usize;

/// The types that were written down, each once: a level of a type, whose parts stand before it.
#[derive(Drop)]
pub(crate) struct Types {
    rows: IndexMap<Level<TypeId>, Extent>,
}

impl Model for Types {
    ghost use Rattle.std.specs.Prelude.{List};
    ghost use Rattle.value_core.specs.declared.ty.Ty.{Ty};
    ghost use Rattle.value_core.specs.contracts.ty.Ty as ty;
    ghost use Rattle.std.specs.Coded.{codes};
    ghost use Rattle.michelson_typer.specs.Rows.{AreRows, table_of};

    ghost Value = { List Ty };

    ghost coded = { Prim.hlevel (codes, ty.the_row.coded) };

    ghost view = { λ t. table_of t.rows.entries };

    ghost invariant = { λ t. AreRows t.rows.entries };
}

impl Types {
    ghost use Rattle.std.specs.Prelude.{◌≡◌, [], ◌∷◌, ◌++◌, ◌<◌, ◌↔◌, IfOk, IsTrue, OnErr, OnOk, length};
    ghost use Rattle.michelson_code.specs.Typing.{level_type};
    ghost use Rattle.michelson_typer.specs.Extents.{extent_of, level_extent};
    ghost use Rattle.michelson_typer.specs.Tables.{Grows, IsDistinct, IsRow, IsTypeOf, are_in, parts_in, type_at};

    /// No type.
    pub fn new(alloc: Global) -> Types
        ensures { result ≡ [] }
    {
        Types {
            rows: IndexMap::new(alloc),
        }
    }

    /// The number of the type with that level, which is written down where it isn't yet.
    pub fn intern(&mut self, level: Level<TypeId>) -> Result<TypeId, NoMemory>
        requires { IsTrue (are_in self.old (parts_in level)) }
        ensures grows { Grows self.old self.new }
        ensures number { IfOk result (λ id.
            IsTypeOf self.new id (level_type (type_at self.old) level)) }
    {
        match self.find(level) {
            Some(id) => Ok(id),
            None => self.add(level),
        }
    }

    /// The number of the type with that level, where it is written down.
    fn find(&self, level: Level<TypeId>) -> Option<TypeId>
        requires { IsTrue (are_in self.now (parts_in level)) }
        ensures { IsRow self.now level result }
    {
        self.rows.get_index_of(&level)
    }

    /// Writes a type down that isn't yet.
    fn add(&mut self, level: Level<TypeId>) -> Result<TypeId, NoMemory>
        requires parts { IsTrue (are_in self.old (parts_in level)) }
        requires absent { IsRow self.old level None }
        ensures ok { OnOk result (self.new ≡ self.old ++ level_type (type_at self.old) level ∷ []) }
        ensures number { IfOk result (λ id. id ≡ length self.old) }
        ensures err { OnErr result (self.new ≡ self.old) }
    {
        let id = self.rows.len();
        let extent = self.level_extent(level);
        self.rows.insert(level, extent)?;
        Ok(id)
    }

    /// The one level of a type.
    pub fn level(&self, id: TypeId) -> Level<TypeId>
        requires { id < length self.now }
        ensures parts { IsTrue (are_in self.now (parts_in result)) }
        ensures is { type_at self.now id ≡ level_type (type_at self.now) result }
    {
        match self.rows.get_index(id) {
            Some((level, _)) => *level,
            None => unreachable!(),
        }
    }

    /// What is asked of a type as a whole.
    pub fn extent(&self, id: TypeId) -> Extent
        requires { id < length self.now }
        ensures { result ≡ extent_of (type_at self.now id) }
    {
        match self.rows.get_index(id) {
            Some((_, extent)) => *extent,
            None => unreachable!(),
        }
    }

    /// The numbers of two types are equal exactly where the types are.
    pub fn are_distinct(&self)
        ensures { IsDistinct self.now }
    {
        let _ = &self.rows;
    }

    /// The extent of a type with that level.
    fn level_extent(&self, level: Level<TypeId>) -> Extent
        requires { IsTrue (are_in self.now (parts_in level)) }
        ensures { result ≡ level_extent (λ id. extent_of (type_at self.now id)) level }
    {
        match level {
            Level::Option(p) => over(self.extent(p), true, true),
            Level::List(p) | Level::Set(p) => over(self.extent(p), false, true),
            Level::Contract(p) => over(self.extent(p), false, false),
            Level::Or(p, q) | Level::Pair(p, q) => {
                over_two(self.extent(p), self.extent(q), true, true)
            }
            Level::Map(p, q) => over_two(self.extent(p), self.extent(q), false, true),
            Level::BigMap(p, q) => over_two(self.extent(p), self.extent(q), false, false),
            Level::Operation => scalar(false),
            Level::Unit
            | Level::Bool
            | Level::Int
            | Level::Nat
            | Level::Mutez
            | Level::Time
            | Level::Text
            | Level::Bytes
            | Level::Addr => scalar(true),
        }
    }
}
