//! The tree of an expression.

use crate::name::Name;
use crate::pattern::Pattern;
use crate::type_expr::TypeExpr;
use sqlite_items::{Boxed, Items};
use value_core::{Blob, Num, Text};

/// What is written out.
#[derive(Debug, Drop)]
pub enum Literal {
    /// `1`
    Int(Num),
    /// `1n`
    Nat(Num),
    /// `1tez`, in mutez
    Tez(u64),
    /// `0x00`
    Bytes(Blob),
    /// `"a"`
    Text(Text),
}

/// An operator between two expressions, the loosest first.
#[derive(Clone, Copy, Debug, PartialEq, Eq)]
pub enum Operator {
    /// `||`
    Or,
    /// `&&`
    And,
    /// `=`
    Equal,
    /// `<>`
    Unequal,
    /// `<`
    Less,
    /// `>`
    Greater,
    /// `<=`
    AtMost,
    /// `>=`
    AtLeast,
    /// `^`
    Join,
    /// `::`
    Cons,
    /// `+`
    Add,
    /// `-`
    Subtract,
    /// `*`
    Multiply,
    /// `/`
    Divide,
    /// `mod`
    Modulo,
}

/// An expression, with the offset of its first token.
#[cycle(expr_trees)]
#[derive(Debug, Drop)]
pub struct Expr {
    /// The offset of its first token.
    pub at: u32,
    /// How deep it is: one more than the deepest of its parts, or 1.
    pub depth: u32,
    /// How it is written.
    pub form: Boxed<ExprForm>,
}

/// How an expression is written.
#[cycle(expr_trees)]
#[derive(Debug, Drop)]
pub enum ExprForm {
    /// `let p : t = e in f`, with its annotation if there is one.
    Let(Pattern, Option<TypeExpr>, Expr, Expr),
    /// `match e with ..`
    Match(Expr, Items<Arm>),
    /// `if e then f else g`
    If(Expr, Expr, Option<Expr>),
    /// `e, f, ..`: two parts and more.
    Tuple(Items<Expr>),
    /// `e + f`
    Binary(Operator, Expr, Expr),
    /// `-e`
    Negate(Expr),
    /// `e f ..`: one argument and more.
    Apply(Expr, Items<Expr>),
    /// `e.name`
    Field(Expr, Name),
    /// `e.1`
    Part(Expr, Num),
    /// A name of a value.
    Name(Items<u8>),
    /// `Upper.lower`
    Library(Items<u8>, Items<u8>),
    /// A constructor.
    Constructor(Items<u8>),
    /// What is written out.
    Literal(Literal),
    /// `()`
    Unit,
    /// `(e)`
    Brackets(Expr),
    /// `(e : t)`
    Annotated(Expr, TypeExpr),
    /// `[e; f; ..]`
    List(Items<Expr>),
    /// `{x = e; ..}`
    Record(Items<ValueField>),
    /// `{e with x = f; ..}`
    With(Expr, Items<ValueField>),
}

/// A field of a record that is written out, with its value.
#[cycle(expr_trees)]
#[derive(Debug, Drop)]
pub struct ValueField {
    /// The field.
    pub name: Name,
    /// Its value.
    pub value: Expr,
}

/// An arm of a match.
#[cycle(expr_trees)]
#[derive(Debug, Drop)]
pub struct Arm {
    /// What it matches.
    pub pattern: ArmPattern,
    /// What it gives.
    pub body: Expr,
}

/// The pattern of an arm, with the offset of its first token.
#[derive(Debug, Drop)]
pub struct ArmPattern {
    /// The offset of its first token.
    pub at: u32,
    /// How it is written.
    pub form: ArmForm,
}

/// How the pattern of an arm is written.
#[derive(Debug, Drop)]
pub enum ArmForm {
    /// `_`
    Any,
    /// `[]`
    Nil,
    /// `h :: t`
    Cons(Name, Name),
    /// A constructor, and the pattern of its part if it has one.
    Constructor(Items<u8>, Option<Pattern>),
}
