//! Typed programs.

use crate::source_type::SrcTy;
use crate::typed_expr::TypedExpr;
use crate::typed_pattern::TypedPattern;
use sqlite_items::Items;

/// A program whose declarations are typed. A value is named by its number among them.
#[derive(Debug, Drop)]
pub struct TypedProgram {
    /// The declared values, in their order.
    pub decls: Items<TypedDecl>,
    /// The type of the storage, which all entries have.
    pub storage: SrcTy,
}

/// The declaration of a constant, a function or an entry.
#[derive(Debug, Drop)]
pub struct TypedDecl {
    /// Its name.
    pub name: Items<u8>,
    /// Whether it is an entry.
    pub entry: bool,
    /// Whether it may call itself.
    pub recursive: bool,
    /// Its params; a constant has none.
    pub params: Items<TypedParam>,
    /// What it is, or gives.
    pub body: TypedExpr,
}

/// A param, with its type.
#[derive(Debug, Drop)]
pub struct TypedParam {
    /// The names that it binds.
    pub pattern: TypedPattern,
    /// Its type.
    pub of: SrcTy,
}
