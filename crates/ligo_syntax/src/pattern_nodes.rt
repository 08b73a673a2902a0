//! Patterns, made of what is read.

ghost use Rattle.std.specs.Prelude.{◌≡◌, ◌<◌, ◌≤◌, ◌+◌, ◌-◌, ◌^◌, max, IfOk};
ghost use Rattle.ligo_syntax.specs.Depth.{deepest, pattern_depth};
ghost use Rattle.ligo_syntax.specs.TreeNodes.{pattern_node};
ghost use Rattle.ligo_syntax.specs.TypeTrees.{bracket_pattern, leaf_pattern, tuple_pattern};

use crate::lists::listed;
use crate::pattern::{Pattern, PatternForm};
use crate::room::greater;
use crate::tokens::word_of;
use ligo_tokens::{Kind, Token};
use sqlite_items::{Boxed, Items};
use std::alloc::{AllocError, Global};

/// A pattern with its place.
fn pattern_node(
    alloc: Global,
    at: u32,
    depth: u32,
    form: PatternForm,
) -> Result<Pattern, AllocError>
    ensures { IfOk result (λ p. p ≡ pattern_node at depth form) }
{
    Ok(Pattern {
        at,
        depth,
        form: Boxed::new(alloc, form)?,
    })
}

/// A name, or `_`.
pub(crate) fn leaf_pattern(alloc: Global, leaf: &Token) -> Result<Pattern, AllocError>
    ensures { IfOk result (λ p. p ≡ leaf_pattern leaf.now) }
{
    match leaf.kind {
        Kind::Underscore => pattern_node(alloc, leaf.at, 1, PatternForm::Any),
        _ => {
            let word = word_of(alloc, leaf)?;
            pattern_node(alloc, leaf.at, 1, PatternForm::Name(word))
        }
    }
}

pub(crate) fn bracket_pattern(alloc: Global, at: u32, inner: Pattern) -> Result<Pattern, AllocError>
    requires { inner.depth < 2 ^ 32 - 1 }
    ensures { IfOk result (λ p. p ≡ bracket_pattern (at, inner)) }
{
    let depth = inner.depth + 1;
    pattern_node(alloc, at, depth, PatternForm::Brackets(inner))
}

pub(crate) fn tuple_pattern(
    alloc: Global,
    first: Pattern,
    more: Items<Pattern>,
) -> Result<Pattern, AllocError>
    requires first_fits { first.depth < 2 ^ 32 - 1 }
    requires more_fit { deepest pattern_depth more < 2 ^ 32 - 1 }
    ensures made { IfOk result (λ p. p ≡ tuple_pattern (first, more)) }
    ensures depth { IfOk result (λ p. p.depth ≤ 1 + max first.depth (deepest pattern_depth more)) }
{
    if more.is_empty() {
        return Ok(first);
    }
    let at = first.at;
    let depth = greater(first.depth, deepest_pattern(more.as_slice())) + 1;
    pattern_node(
        alloc,
        at,
        depth,
        PatternForm::Tuple(listed(alloc, first, more)?),
    )
}

fn deepest_pattern(patterns: &[Pattern]) -> u32
    ensures { result ≡ deepest pattern_depth patterns.now }
{
    let mut found = 0;
    for one in patterns {
        found = greater(found, one.depth);
    }
    found
}
