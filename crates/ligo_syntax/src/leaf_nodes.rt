//! Expressions of one or two tokens.

ghost use Rattle.std.specs.Prelude.{◌≡◌, ◌<◌, ◌-◌, ◌^◌, pos, IfOk, None, Some};
ghost use Rattle.ligo_tokens.specs.declared.token.Kind.TheVariants as kind;
ghost use Rattle.ligo_syntax.specs.Said.{said_number, literal_of};
ghost use Rattle.ligo_syntax.specs.AtomTrees.{leaf_expr, dotted, upper_expr};
ghost use Rattle.ligo_syntax.specs.TreeNodes.{expr_node};

use crate::expr::{Expr, ExprForm, Literal};
use crate::tokens::{name_of, word_of};
use ligo_tokens::{Kind, Says, Token};
use sqlite_items::{Boxed, Items};
use std::alloc::{AllocError, Global};
use value_core::Num;

/// An expression with its place.
pub(crate) fn expr_node(
    alloc: Global,
    at: u32,
    depth: u32,
    form: ExprForm,
) -> Result<Expr, AllocError>
    ensures { IfOk result (λ e. e ≡ expr_node at depth form) }
{
    Ok(Expr {
        at,
        depth,
        form: Boxed::new(alloc, form)?,
    })
}

/// The number of a numeral.
fn number_of(token: &Token) -> Num
    ensures { result ≡ said_number token.now.says }
{
    if let Some(said) = &token.says {
        if let Says::Number(number) = said.get() {
            return *number;
        }
    }
    zero()
}

fn zero() -> Num
    ensures { result ≡ pos 0 }
{
    let Some(number) = Num::new(0) else {
        unreachable!()
    };
    number
}

/// What a literal says.
fn literal_of(alloc: Global, token: &Token) -> Result<Literal, AllocError>
    ensures { IfOk result (λ l. l ≡ literal_of token.now.kind token.now.says) }
{
    if token.kind == Kind::Nat {
        return Ok(Literal::Nat(number_of(token)));
    }
    if let Some(said) = &token.says {
        return literal_said(alloc, said.get());
    }
    Ok(Literal::Int(zero()))
}

/// What a literal says that isn't of the type `nat`.
fn literal_said(alloc: Global, said: &Says) -> Result<Literal, AllocError>
    ensures { IfOk result (λ l. l ≡ literal_of kind.Int (Some said.now)) }
{
    match said {
        Says::Mutez(mutez) => Ok(Literal::Tez(*mutez)),
        Says::Bytes(bytes) => Ok(Literal::Bytes(bytes.copy(alloc)?)),
        Says::Text(text) => Ok(Literal::Text(text.copy(alloc)?)),
        Says::Number(number) => Ok(Literal::Int(*number)),
        Says::Word(_) | Says::Wide => Ok(Literal::Int(zero())),
    }
}

/// A name, or a literal.
pub(crate) fn leaf_expr(alloc: Global, leaf: &Token) -> Result<Expr, AllocError>
    ensures { IfOk result (λ e. e ≡ leaf_expr leaf.now) }
{
    match leaf.kind {
        Kind::Int | Kind::Nat | Kind::Tez | Kind::Bytes | Kind::Text => {
            let literal = literal_of(alloc, leaf)?;
            expr_node(alloc, leaf.at, 1, ExprForm::Literal(literal))
        }
        _ => {
            let word = word_of(alloc, leaf)?;
            expr_node(alloc, leaf.at, 1, ExprForm::Name(word))
        }
    }
}

/// A constructor.
pub(crate) fn constructor_expr(alloc: Global, name: &Token) -> Result<Expr, AllocError>
    ensures { IfOk result (λ e. e ≡ upper_expr (name.now, None)) }
{
    let word = word_of(alloc, name)?;
    expr_node(alloc, name.at, 1, ExprForm::Constructor(word))
}

/// A library name, or a part of a constructor.
pub(crate) fn linked_expr(alloc: Global, name: &Token, link: &Token) -> Result<Expr, AllocError>
    ensures { IfOk result (λ e. e ≡ upper_expr (name.now, Some link.now)) }
{
    if link.kind == Kind::Int {
        let constructor = constructor_expr(alloc, name)?;
        return expr_node(
            alloc,
            name.at,
            2,
            ExprForm::Part(constructor, number_of(link)),
        );
    }
    let word = word_of(alloc, name)?;
    let of = word_of(alloc, link)?;
    expr_node(alloc, name.at, 1, ExprForm::Library(word, of))
}

/// A dot behind an expression, and a name or digits.
pub(crate) fn dotted(alloc: Global, of: Expr, link: &Token) -> Result<Expr, AllocError>
    requires { of.depth < 2 ^ 32 - 1 }
    ensures { IfOk result (λ e. e ≡ dotted of link.now) }
{
    let at = of.at;
    let depth = of.depth + 1;
    if link.kind == Kind::Int {
        return expr_node(alloc, at, depth, ExprForm::Part(of, number_of(link)));
    }
    let name = name_of(alloc, link)?;
    expr_node(alloc, at, depth, ExprForm::Field(of, name))
}
