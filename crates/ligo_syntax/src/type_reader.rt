//! Reading of types.

ghost use Rattle.std.specs.Prelude.{◌≡◌, ◌∷◌, [], ◌<◌, ◌≤◌, ◌+◌, ◌-◌, ◌^◌, IfOk, length};
ghost use Rattle.ligo_tokens.specs.declared.token.Kind.TheVariants as kind;
ghost use Rattle.ligo_syntax.specs.declared.fault.Expected.TheVariants as expected;
ghost use Rattle.ligo_syntax.specs.Classes.{postfix_kinds, type_firsts};
ghost use Rattle.ligo_syntax.specs.Depth.{deepest, if_there, type_depth};
ghost use Rattle.ligo_syntax.specs.Readers.{links, repeated, too_deep_at};
ghost use Rattle.ligo_syntax.specs.Phrases.{Gives, key, optional};
ghost use Rattle.ligo_syntax.specs.TypeReading.{token, bracket_type_rule, base_type_rule, post_type_rule, type_at, read_type, Tuple, Post};
ghost use Rattle.ligo_syntax.specs.TypeTrees.{postfixed};

use crate::fault::{Expected, Stop};
use crate::tokens::{at, name_token, token, too_deep};
use crate::type_expr::TypeExpr;
use crate::type_nodes::{bracket_type, map_type, name_type, postfix, tuple_type};
use ligo_tokens::{Kind, Token};
use sqlite_items::Items;
use std::alloc::Global;

/// A type at most so deep.
#[cycle(reading_types)]
pub(crate) fn read_type(
    alloc: Global,
    depth: u32,
    tokens: &[Token],
) -> Result<(TypeExpr, &[Token]), Stop>
    ensures read { Gives (λ x. (x.0, x.1.now)) result (type_at depth Tuple tokens.now) }
    ensures within { IfOk result (λ x. x.0.depth ≤ depth) }
{
    if depth == 0 {
        return Err(no_depth(tokens));
    }
    let (first, rest) = post_type(alloc, depth - 1, tokens)?;
    if !at(&[Kind::Star], rest) {
        return Ok((first, rest));
    }
    if first.depth >= depth {
        return Err(Stop::TooDeep(rest.len()));
    }
    let (more, rest) = more_types(alloc, depth - 1, rest)?;
    Ok((tuple_type(alloc, first, more)?, rest))
}

/// A part of a tuple, at most so deep.
#[cycle(reading_types)]
fn read_post(alloc: Global, depth: u32, tokens: &[Token]) -> Result<(TypeExpr, &[Token]), Stop>
    ensures read { Gives (λ x. (x.0, x.1.now)) result (type_at depth Post tokens.now) }
    ensures within { IfOk result (λ x. x.0.depth ≤ depth) }
{
    if depth == 0 {
        return Err(no_depth(tokens));
    }
    post_type(alloc, depth - 1, tokens)
}

fn no_depth(tokens: &[Token]) -> Stop
    ensures { result ≡ too_deep_at expected.TypeExpr type_firsts tokens.now }
{
    too_deep(
        Expected::TypeExpr,
        &[
            Kind::OpenParen,
            Kind::Name,
            Kind::List,
            Kind::Option,
            Kind::Contract,
            Kind::Map,
            Kind::BigMap,
        ],
        tokens,
    )
}

/// The types behind stars, each at most so deep.
#[cycle(reading_types)]
fn more_types(
    alloc: Global,
    depth: u32,
    tokens: &[Token],
) -> Result<(Items<TypeExpr>, &[Token]), Stop>
    ensures read { Gives (λ x. (x.0, x.1.now)) result
        (repeated (kind.Star ∷ []) (key kind.Star (type_at depth Post)) tokens.now) }
    ensures within { IfOk result (λ x. deepest type_depth x.0 ≤ depth) }
{
    let mut items = Items::new(alloc);
    let mut rest = tokens;
    for _ in 0..tokens.len() {
        if !at(&[Kind::Star], rest) {
            return Ok((items, rest));
        }
        let (_, after) = token(Expected::Token, &[Kind::Star], rest)?;
        let (item, after) = read_post(alloc, depth, after)?;
        items.push(item)?;
        rest = after;
    }
    Ok((items, rest))
}

/// A type with words behind it, with what is at most so deep in its brackets.
#[cycle(reading_types)]
fn post_type(alloc: Global, depth: u32, tokens: &[Token]) -> Result<(TypeExpr, &[Token]), Stop>
    requires { depth < 2 ^ 32 - 1 }
    ensures read { Gives (λ x. (x.0, x.1.now)) result
        (post_type_rule depth (type_at depth Tuple) tokens.now) }
    ensures within { IfOk result (λ x. x.0.depth ≤ depth + 1) }
{
    let (first, rest) = base_type(alloc, depth, tokens)?;
    read_words(alloc, depth + 1, first, rest)
}

#[cycle(reading_types)]
fn base_type(alloc: Global, depth: u32, tokens: &[Token]) -> Result<(TypeExpr, &[Token]), Stop>
    requires { depth < 2 ^ 32 - 1 }
    ensures read { Gives (λ x. (x.0, x.1.now)) result
        (base_type_rule (type_at depth Tuple) tokens.now) }
    ensures within { IfOk result (λ x. x.0.depth ≤ depth + 1) }
{
    if at(&[Kind::OpenParen], tokens) {
        return read_bracket(alloc, depth, tokens);
    }
    let (name, rest) = name_token(Expected::TypeExpr, tokens)?;
    Ok((name_type(alloc, name)?, rest))
}

/// A type in brackets, or two and a word.
#[cycle(reading_types)]
fn read_bracket(alloc: Global, depth: u32, tokens: &[Token]) -> Result<(TypeExpr, &[Token]), Stop>
    requires { depth < 2 ^ 32 - 1 }
    ensures read { Gives (λ x. (x.0, x.1.now)) result
        (bracket_type_rule (type_at depth Tuple) tokens.now) }
    ensures within { IfOk result (λ x. x.0.depth ≤ depth + 1) }
{
    let (open, rest) = token(Expected::Token, &[Kind::OpenParen], tokens)?;
    let (first, rest) = read_type(alloc, depth, rest)?;
    if at(&[Kind::Comma], rest) {
        let (_, rest) = token(Expected::Token, &[Kind::Comma], rest)?;
        let (second, rest) = read_type(alloc, depth, rest)?;
        let (_, rest) = token(Expected::Token, &[Kind::CloseParen], rest)?;
        let (word, rest) = token(Expected::Token, &[Kind::Map, Kind::BigMap], rest)?;
        return Ok((map_type(alloc, open.at, first, second, word)?, rest));
    }
    let (_, rest) = token(Expected::Token, &[Kind::CloseParen], rest)?;
    Ok((bracket_type(alloc, open.at, first)?, rest))
}

/// The words behind a type.
fn read_words(
    alloc: Global,
    depth: u32,
    first: TypeExpr,
    tokens: &[Token],
) -> Result<(TypeExpr, &[Token]), Stop>
    requires { first.depth ≤ depth }
    ensures read { Gives (λ x. (x.0, x.1.now)) result
        (links type_depth depth postfixed postfix_kinds (token postfix_kinds)
        (length tokens.now) first tokens.now) }
    ensures within { IfOk result (λ x. x.0.depth ≤ depth) }
{
    let mut made = first;
    let mut rest = tokens;
    for _ in 0..tokens.len() {
        if !at(&[Kind::List, Kind::Option, Kind::Contract], rest) {
            return Ok((made, rest));
        }
        if made.depth >= depth {
            return Err(Stop::TooDeep(rest.len()));
        }
        let (word, after) = token(
            Expected::Token,
            &[Kind::List, Kind::Option, Kind::Contract],
            rest,
        )?;
        made = postfix(alloc, made, word)?;
        rest = after;
    }
    Ok((made, rest))
}

/// A colon and a type at most so deep, if a colon stands there.
pub(crate) fn read_annotation(
    alloc: Global,
    depth: u32,
    tokens: &[Token],
) -> Result<(Option<TypeExpr>, &[Token]), Stop>
    ensures read { Gives (λ x. (x.0, x.1.now)) result
        (optional (kind.Colon ∷ []) (key kind.Colon (read_type depth)) tokens.now) }
    ensures within { IfOk result (λ x. if_there type_depth x.0 ≤ depth) }
{
    if at(&[Kind::Colon], tokens) {
        let (_, rest) = token(Expected::Token, &[Kind::Colon], tokens)?;
        let (of, rest) = read_type(alloc, depth, rest)?;
        return Ok((Some(of), rest));
    }
    Ok((None, tokens))
}
