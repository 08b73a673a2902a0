//! The tree of a program.

use crate::expr::Expr;
use crate::name::Name;
use crate::pattern::Pattern;
use crate::type_expr::TypeExpr;
use sqlite_items::Items;

/// A program.
#[derive(Debug, Drop)]
pub struct Program {
    /// Its declarations, in their order.
    pub decls: Items<Decl>,
    /// The length of its text.
    pub end: u32,
}

/// A declaration, with the offset of its first token.
#[derive(Debug, Drop)]
pub enum Decl {
    /// `type t = ..`
    Type(TypeDecl),
    /// `let x = ..`
    Value(ValueDecl),
}

/// The declaration of a type.
#[derive(Debug, Drop)]
pub struct TypeDecl {
    /// The offset of its first token.
    pub at: u32,
    /// What it declares.
    pub name: Name,
    /// What that is.
    pub definition: Definition,
}

/// What a declared type is.
#[derive(Debug, Drop)]
pub enum Definition {
    /// Another type.
    Type(TypeExpr),
    /// A record, with the offset of its bracket.
    Record(u32, Items<TypeField>),
    /// A variant, with the offset of its first token.
    Variant(u32, Items<TypeCase>),
}

/// A field of a record type.
#[derive(Debug, Drop)]
pub struct TypeField {
    /// Its name.
    pub name: Name,
    /// Its type.
    pub of: TypeExpr,
}

/// A case of a variant type.
#[derive(Debug, Drop)]
pub struct TypeCase {
    /// Its constructor.
    pub name: Name,
    /// The type of its part, if it has one.
    pub part: Option<TypeExpr>,
}

/// The declaration of a constant, a function or an entry.
#[derive(Debug, Drop)]
pub struct ValueDecl {
    /// The offset of its first token.
    pub at: u32,
    /// The marks before it, in their order.
    pub attributes: Items<Attribute>,
    /// Whether it is declared by `let rec`.
    pub recursive: bool,
    /// What it declares.
    pub name: Name,
    /// Its params, in their order.
    pub params: Items<Param>,
    /// The type of its result, if it is told.
    pub result: Option<TypeExpr>,
    /// What it is.
    pub body: Expr,
}

/// A mark before a declaration.
#[derive(Clone, Copy, Debug, PartialEq, Eq)]
pub enum Attribute {
    /// `[@entry]`
    Entry,
    /// `[@inline]`
    Inline,
}

/// A param, with the offset of its bracket.
#[derive(Debug, Drop)]
pub struct Param {
    /// The offset of its bracket.
    pub at: u32,
    /// How it is written.
    pub form: ParamForm,
}

/// How a param is written.
#[derive(Debug, Drop)]
pub enum ParamForm {
    /// `()`
    Unit,
    /// `(p : t)`
    Typed(Pattern, TypeExpr),
}
