//! Reading of patterns.

ghost use Rattle.std.specs.Prelude.{◌≡◌, ◌∷◌, [], ◌<◌, ◌≤◌, ◌+◌, ◌-◌, ◌^◌, IfOk, length};
ghost use Rattle.ligo_tokens.specs.declared.token.Kind.TheVariants as kind;
ghost use Rattle.ligo_syntax.specs.declared.fault.Expected.TheVariants as expected;
ghost use Rattle.ligo_syntax.specs.Classes.{name_kinds, pattern_firsts};
ghost use Rattle.ligo_syntax.specs.Depth.{deepest, pattern_depth};
ghost use Rattle.ligo_syntax.specs.Readers.{repeated, one_of, too_deep_at};
ghost use Rattle.ligo_syntax.specs.Phrases.{Gives, key};
ghost use Rattle.ligo_syntax.specs.Kinds.{has, next};
ghost use Rattle.ligo_syntax.specs.TypeReading.{pattern_rule, pattern_at, Several, Single};

use crate::fault::{Expected, Stop};
use crate::pattern::Pattern;
use crate::pattern_nodes::{bracket_pattern, leaf_pattern, tuple_pattern};
use crate::tokens::{at, token, too_deep};
use ligo_tokens::{Kind, Token};
use sqlite_items::Items;
use std::alloc::Global;

/// Patterns between commas, at most so deep.
#[cycle(reading_patterns)]
pub(crate) fn read_pattern(
    alloc: Global,
    depth: u32,
    tokens: &[Token],
) -> Result<(Pattern, &[Token]), Stop>
    ensures read { Gives (λ x. (x.0, x.1.now)) result (pattern_at depth Several tokens.now) }
    ensures within { IfOk result (λ x. x.0.depth ≤ depth) }
{
    if depth == 0 {
        return Err(no_depth(tokens));
    }
    let (first, rest) = single_pattern(alloc, depth - 1, tokens)?;
    if !at(&[Kind::Comma], rest) {
        return Ok((first, rest));
    }
    if first.depth >= depth {
        return Err(Stop::TooDeep(rest.len()));
    }
    let (more, rest) = more_patterns(alloc, depth - 1, rest)?;
    Ok((tuple_pattern(alloc, first, more)?, rest))
}

/// One pattern, at most so deep.
#[cycle(reading_patterns)]
pub(crate) fn read_single(
    alloc: Global,
    depth: u32,
    tokens: &[Token],
) -> Result<(Pattern, &[Token]), Stop>
    ensures read { Gives (λ x. (x.0, x.1.now)) result (pattern_at depth Single tokens.now) }
    ensures within { IfOk result (λ x. x.0.depth ≤ depth) }
{
    if depth == 0 {
        return Err(no_depth(tokens));
    }
    single_pattern(alloc, depth - 1, tokens)
}

fn no_depth(tokens: &[Token]) -> Stop
    ensures { result ≡ too_deep_at expected.Pattern pattern_firsts tokens.now }
{
    too_deep(
        Expected::Pattern,
        &[
            Kind::OpenParen,
            Kind::Underscore,
            Kind::Name,
            Kind::List,
            Kind::Option,
            Kind::Contract,
            Kind::Map,
            Kind::BigMap,
        ],
        tokens,
    )
}

/// Whether a pattern begins here.
pub(crate) fn at_pattern(tokens: &[Token]) -> bool
    ensures { result ≡ has pattern_firsts (next tokens.now) }
{
    at(
        &[
            Kind::OpenParen,
            Kind::Underscore,
            Kind::Name,
            Kind::List,
            Kind::Option,
            Kind::Contract,
            Kind::Map,
            Kind::BigMap,
        ],
        tokens,
    )
}

/// The patterns behind commas, each at most so deep.
#[cycle(reading_patterns)]
fn more_patterns(
    alloc: Global,
    depth: u32,
    tokens: &[Token],
) -> Result<(Items<Pattern>, &[Token]), Stop>
    ensures read { Gives (λ x. (x.0, x.1.now)) result
        (repeated (kind.Comma ∷ []) (key kind.Comma (pattern_at depth Single)) tokens.now) }
    ensures within { IfOk result (λ x. deepest pattern_depth x.0 ≤ depth) }
{
    let mut items = Items::new(alloc);
    let mut rest = tokens;
    for _ in 0..tokens.len() {
        if !at(&[Kind::Comma], rest) {
            return Ok((items, rest));
        }
        let (_, after) = token(Expected::Token, &[Kind::Comma], rest)?;
        let (item, after) = read_single(alloc, depth, after)?;
        items.push(item)?;
        rest = after;
    }
    Ok((items, rest))
}

/// A pattern, with what is at most so deep in its brackets.
#[cycle(reading_patterns)]
fn single_pattern(alloc: Global, depth: u32, tokens: &[Token]) -> Result<(Pattern, &[Token]), Stop>
    requires { depth < 2 ^ 32 - 1 }
    ensures read { Gives (λ x. (x.0, x.1.now)) result
        (pattern_rule (pattern_at depth Several) tokens.now) }
    ensures within { IfOk result (λ x. x.0.depth ≤ depth + 1) }
{
    if at(&[Kind::OpenParen], tokens) {
        let (open, rest) = token(Expected::Token, &[Kind::OpenParen], tokens)?;
        let (inner, rest) = read_pattern(alloc, depth, rest)?;
        let (_, rest) = token(Expected::Token, &[Kind::CloseParen], rest)?;
        return Ok((bracket_pattern(alloc, open.at, inner)?, rest));
    }
    let (leaf, rest) = leaf_token(tokens)?;
    Ok((leaf_pattern(alloc, leaf)?, rest))
}

/// A name, or `_`.
fn leaf_token(tokens: &[Token]) -> Result<(&Token, &[Token]), Stop>
    ensures { Gives (λ x. (x.0.now, x.1.now)) result
        (one_of expected.Pattern (kind.Underscore ∷ name_kinds) tokens.now) }
{
    token(
        Expected::Pattern,
        &[
            Kind::Underscore,
            Kind::Name,
            Kind::List,
            Kind::Option,
            Kind::Contract,
            Kind::Map,
            Kind::BigMap,
        ],
        tokens,
    )
}
