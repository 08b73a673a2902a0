//! Expressions of typed programs: their names are resolved, and each has its type.

use crate::builtin::Builtin;
use crate::source_type::SrcTy;
use crate::typed_pattern::{TypedChoice, TypedPattern};
use ligo_syntax::{Literal, Operator};
use sqlite_items::{Boxed, Items};
use value_core::Address;

/// An expression with its type.
#[cycle(typed_trees)]
#[derive(Debug, Drop)]
pub struct TypedExpr {
    /// Its type.
    pub of: SrcTy,
    /// What it does.
    pub form: Boxed<TypedForm>,
}

/// What an expression does. Operands, arguments, parts and fields stand as they are written.
#[cycle(typed_trees)]
#[derive(Debug, Drop)]
pub enum TypedForm {
    /// What is written out.
    Literal(Literal),
    /// A bytes literal that is an address.
    Addr(Address),
    /// `true` or `false`.
    Bool(bool),
    /// `()`
    Unit,
    /// The value that is bound to the name, the latest one.
    Local(Items<u8>),
    /// The constant of that number.
    Constant(u32),
    /// Binds the names of a pattern.
    Let(TypedPattern, TypedExpr, TypedExpr),
    /// `if`, without `else` too.
    If(TypedExpr, TypedExpr, Option<TypedExpr>),
    /// `match`
    Match(TypedExpr, Items<TypedArm>),
    /// Two parts and more.
    Tuple(Items<TypedExpr>),
    /// The part of a tuple at that place.
    Part(TypedExpr, u32),
    /// Each field, with its place in the type.
    Record(Items<TypedField>),
    /// The field of a record at that place.
    Field(TypedExpr, u32),
    /// A record in which these fields are replaced.
    With(TypedExpr, Items<TypedField>),
    /// The case of a variant at that place, with its part if it has one.
    Case(u32, Option<TypedExpr>),
    /// `None`
    Nothing,
    /// `Some`
    Some(TypedExpr),
    /// Items in a row.
    List(Items<TypedExpr>),
    /// An operator between two expressions.
    Binary(Operator, TypedExpr, TypedExpr),
    /// A minus before an expression.
    Negate(TypedExpr),
    /// A call of the function of that number.
    Call(u32, Items<TypedExpr>),
    /// A call of the recursive function around it.
    Again(Items<TypedExpr>),
    /// A call of a function of the language.
    Builtin(Builtin, Items<TypedExpr>),
    /// `Map.empty`
    EmptyMap,
    /// `Map.literal`
    MapLiteral(Items<TypedEntry>),
}

/// An arm of a match.
#[cycle(typed_trees)]
#[derive(Debug, Drop)]
pub struct TypedArm {
    /// What it takes apart.
    pub choice: TypedChoice,
    /// What it gives.
    pub body: TypedExpr,
}

/// A field of a record that is written out.
#[cycle(typed_trees)]
#[derive(Debug, Drop)]
pub struct TypedField {
    /// Its place in the type.
    pub place: u32,
    /// Its value.
    pub value: TypedExpr,
}

/// An entry of a map that is written out.
#[cycle(typed_trees)]
#[derive(Debug, Drop)]
pub struct TypedEntry {
    /// The key.
    pub key: TypedExpr,
    /// Its value.
    pub value: TypedExpr,
}
