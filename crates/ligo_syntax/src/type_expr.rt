//! The tree of a type.

use sqlite_items::{Boxed, Items};

/// A type, with the offset of its first token.
#[cycle(type_trees)]
#[derive(Debug, Drop)]
pub struct TypeExpr {
    /// The offset of its first token.
    pub at: u32,
    /// How deep it is: one more than the deepest of its parts, or 1.
    pub depth: u32,
    /// How it is written.
    pub form: Boxed<TypeForm>,
}

/// How a type is written.
#[cycle(type_trees)]
#[derive(Debug, Drop)]
pub enum TypeForm {
    /// The name of a type.
    Name(Items<u8>),
    /// `(t)`
    Brackets(TypeExpr),
    /// `(k, v) map`
    Map(TypeExpr, TypeExpr),
    /// `(k, v) big_map`
    BigMap(TypeExpr, TypeExpr),
    /// `t list`
    List(TypeExpr),
    /// `t option`
    Option(TypeExpr),
    /// `t contract`
    Contract(TypeExpr),
    /// `t * u * ..`: two parts and more.
    Tuple(Items<TypeExpr>),
}
