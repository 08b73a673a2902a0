//! Types, made of what is read.

ghost use Rattle.std.specs.Prelude.{◌≡◌, ◌∷◌, [], ◌<◌, ◌≤◌, ◌+◌, ◌-◌, ◌^◌, max, IfOk, None, Some};
ghost use Rattle.ligo_syntax.specs.Depth.{deepest, type_depth};
ghost use Rattle.ligo_syntax.specs.TreeNodes.{type_node};
ghost use Rattle.ligo_syntax.specs.TypeTrees.{bracket_type, postfixed, tuple_type, type_name};

use crate::lists::listed;
use crate::room::greater;
use crate::tokens::word_of;
use crate::type_expr::{TypeExpr, TypeForm};
use ligo_tokens::{Kind, Token};
use sqlite_items::{Boxed, Items};
use std::alloc::{AllocError, Global};

/// A type with its place.
fn type_node(alloc: Global, at: u32, depth: u32, form: TypeForm) -> Result<TypeExpr, AllocError>
    ensures { IfOk result (λ t. t ≡ type_node at depth form) }
{
    Ok(TypeExpr {
        at,
        depth,
        form: Boxed::new(alloc, form)?,
    })
}

pub(crate) fn name_type(alloc: Global, name: &Token) -> Result<TypeExpr, AllocError>
    ensures { IfOk result (λ t. t ≡ type_name name.now) }
{
    let word = word_of(alloc, name)?;
    type_node(alloc, name.at, 1, TypeForm::Name(word))
}

pub(crate) fn bracket_type(alloc: Global, at: u32, inner: TypeExpr) -> Result<TypeExpr, AllocError>
    requires { inner.depth < 2 ^ 32 - 1 }
    ensures { IfOk result (λ t. t ≡ bracket_type (at, (inner, None))) }
{
    let depth = inner.depth + 1;
    type_node(alloc, at, depth, TypeForm::Brackets(inner))
}

pub(crate) fn map_type(
    alloc: Global,
    at: u32,
    key: TypeExpr,
    value: TypeExpr,
    word: &Token,
) -> Result<TypeExpr, AllocError>
    requires key_fits { key.depth < 2 ^ 32 - 1 }
    requires value_fits { value.depth < 2 ^ 32 - 1 }
    ensures { IfOk result (λ t. t ≡ bracket_type (at, (key, Some (value, word.now)))) }
{
    let depth = greater(key.depth, value.depth) + 1;
    let form = match word.kind {
        Kind::Map => TypeForm::Map(key, value),
        _ => TypeForm::BigMap(key, value),
    };
    type_node(alloc, at, depth, form)
}

/// One more word behind a type.
pub(crate) fn postfix(alloc: Global, of: TypeExpr, word: &Token) -> Result<TypeExpr, AllocError>
    requires { of.depth < 2 ^ 32 - 1 }
    ensures { IfOk result (λ t. t ≡ postfixed of word.now) }
{
    let at = of.at;
    let depth = of.depth + 1;
    let form = match word.kind {
        Kind::List => TypeForm::List(of),
        Kind::Option => TypeForm::Option(of),
        _ => TypeForm::Contract(of),
    };
    type_node(alloc, at, depth, form)
}

pub(crate) fn tuple_type(
    alloc: Global,
    first: TypeExpr,
    more: Items<TypeExpr>,
) -> Result<TypeExpr, AllocError>
    requires first_fits { first.depth < 2 ^ 32 - 1 }
    requires more_fit { deepest type_depth more < 2 ^ 32 - 1 }
    ensures made { IfOk result (λ t. t ≡ tuple_type (first, more)) }
    ensures depth { IfOk result (λ t. t.depth ≤ 1 + max first.depth (deepest type_depth more)) }
{
    if more.is_empty() {
        return Ok(first);
    }
    let at = first.at;
    let depth = greater(first.depth, deepest_type(more.as_slice())) + 1;
    type_node(
        alloc,
        at,
        depth,
        TypeForm::Tuple(listed(alloc, first, more)?),
    )
}

fn deepest_type(types: &[TypeExpr]) -> u32
    ensures { result ≡ deepest type_depth types.now }
{
    let mut found = 0;
    for one in types {
        found = greater(found, one.depth);
    }
    found
}
