//! Reading of `let`, `match` and whole expressions.

ghost use Rattle.std.specs.Prelude.{◌≡◌, ◌∷◌, [], ◌<◌, ◌≤◌, ◌+◌, ◌-◌, ◌^◌, IfOk};
ghost use Rattle.ligo_tokens.specs.declared.token.Kind.TheVariants as kind;
ghost use Rattle.ligo_syntax.specs.Depth.{deepest, arm_depth};
ghost use Rattle.ligo_syntax.specs.AtomGrammar.{Part, Whole};
ghost use Rattle.ligo_syntax.specs.Readers.{repeated};
ghost use Rattle.ligo_syntax.specs.Phrases.{Gives, key};
ghost use Rattle.ligo_syntax.specs.ExprReading.{arm_rule, form_rule, let_rule, match_rule, form_at, arm_at};

use crate::arm_reader::{no_arm_depth, read_arm_pattern};
use crate::condition_reader::{read_condition, read_tuple};
use crate::expr::{Arm, Expr};
use crate::expr_nodes::{let_expr, match_expr};
use crate::fault::{Expected, Stop};
use crate::leaf_reader::maybe;
use crate::level::Level;
use crate::level_reader::read_level;
use crate::pattern_reader::read_pattern;
use crate::tokens::{at, token};
use crate::type_reader::read_annotation;
use ligo_tokens::{Kind, Token};
use sqlite_items::Items;
use std::alloc::Global;

/// Any expression.
#[cycle(reading_exprs)]
pub(crate) fn read_whole(
    alloc: Global,
    depth: u32,
    tokens: &[Token],
) -> Result<(Expr, &[Token]), Stop>
    requires { depth < 2 ^ 32 - 1 }
    ensures read { Gives (λ x. (x.0, x.1.now)) result
        (form_rule depth (form_at depth) (arm_at depth) Whole tokens.now) }
    ensures within { IfOk result (λ x. x.0.depth ≤ depth + 1) }
{
    if at(&[Kind::Let], tokens) {
        return read_let(alloc, depth, tokens);
    }
    if at(&[Kind::Match], tokens) {
        return read_match(alloc, depth, tokens);
    }
    read_tuple(alloc, depth, tokens)
}

/// A part of an `if`: any expression that is no tuple.
#[cycle(reading_exprs)]
pub(crate) fn read_part(
    alloc: Global,
    depth: u32,
    tokens: &[Token],
) -> Result<(Expr, &[Token]), Stop>
    requires { depth < 2 ^ 32 - 1 }
    ensures read { Gives (λ x. (x.0, x.1.now)) result
        (form_rule depth (form_at depth) (arm_at depth) Part tokens.now) }
    ensures within { IfOk result (λ x. x.0.depth ≤ depth + 1) }
{
    if at(&[Kind::Let], tokens) {
        return read_let(alloc, depth, tokens);
    }
    if at(&[Kind::Match], tokens) {
        return read_match(alloc, depth, tokens);
    }
    read_condition(alloc, depth, tokens)
}

#[cycle(reading_exprs)]
fn read_let(alloc: Global, depth: u32, tokens: &[Token]) -> Result<(Expr, &[Token]), Stop>
    requires { depth < 2 ^ 32 - 1 }
    ensures read { Gives (λ x. (x.0, x.1.now)) result
        (let_rule depth (form_at depth) (arm_at depth) tokens.now) }
    ensures within { IfOk result (λ x. x.0.depth ≤ depth + 1) }
{
    let (word, rest) = token(Expected::Token, &[Kind::Let], tokens)?;
    let (pattern, rest) = read_pattern(alloc, depth, rest)?;
    let (of, rest) = read_annotation(alloc, depth, rest)?;
    let (_, rest) = token(Expected::Token, &[Kind::Equals], rest)?;
    let (value, rest) = read_level(alloc, depth, Level::Whole, rest)?;
    let (_, rest) = token(Expected::Token, &[Kind::In], rest)?;
    let (body, rest) = read_level(alloc, depth, Level::Whole, rest)?;
    Ok((let_expr(alloc, word.at, pattern, of, value, body)?, rest))
}

#[cycle(reading_exprs)]
fn read_match(alloc: Global, depth: u32, tokens: &[Token]) -> Result<(Expr, &[Token]), Stop>
    requires { depth < 2 ^ 32 - 1 }
    ensures read { Gives (λ x. (x.0, x.1.now)) result
        (match_rule depth (form_at depth) (arm_at depth) tokens.now) }
    ensures within { IfOk result (λ x. x.0.depth ≤ depth + 1) }
{
    let (word, rest) = token(Expected::Token, &[Kind::Match], tokens)?;
    let (head, rest) = read_level(alloc, depth, Level::Whole, rest)?;
    let (_, rest) = token(Expected::Token, &[Kind::With], rest)?;
    let (_, rest) = maybe(Kind::Bar, rest)?;
    let (first, rest) = read_arm(alloc, depth, rest)?;
    let (more, rest) = more_arms(alloc, depth, rest)?;
    Ok((match_expr(alloc, word.at, head, first, more)?, rest))
}

/// The arms behind bars.
#[cycle(reading_exprs)]
fn more_arms(alloc: Global, depth: u32, tokens: &[Token]) -> Result<(Items<Arm>, &[Token]), Stop>
    ensures read { Gives (λ x. (x.0, x.1.now)) result
        (repeated (kind.Bar ∷ []) (key kind.Bar (arm_at depth)) tokens.now) }
    ensures within { IfOk result (λ x. deepest arm_depth x.0 ≤ depth) }
{
    let mut items = Items::new(alloc);
    let mut rest = tokens;
    for _ in 0..tokens.len() {
        if !at(&[Kind::Bar], rest) {
            return Ok((items, rest));
        }
        let (_, after) = token(Expected::Token, &[Kind::Bar], rest)?;
        let (item, after) = read_arm(alloc, depth, after)?;
        items.push(item)?;
        rest = after;
    }
    Ok((items, rest))
}

/// An arm, at most so deep.
#[cycle(reading_exprs)]
fn read_arm(alloc: Global, depth: u32, tokens: &[Token]) -> Result<(Arm, &[Token]), Stop>
    ensures read { Gives (λ x. (x.0, x.1.now)) result (arm_at depth tokens.now) }
    ensures within { IfOk result (λ x. arm_depth x.0 ≤ depth) }
{
    if depth == 0 {
        return Err(no_arm_depth(tokens));
    }
    arm_above(alloc, depth - 1, tokens)
}

/// An arm, with parts that are at most so deep.
#[cycle(reading_exprs)]
fn arm_above(alloc: Global, depth: u32, tokens: &[Token]) -> Result<(Arm, &[Token]), Stop>
    ensures read { Gives (λ x. (x.0, x.1.now)) result
        (arm_rule depth (form_at depth Whole) tokens.now) }
    ensures within { IfOk result (λ x. arm_depth x.0 ≤ depth + 1) }
{
    let (pattern, rest) = read_arm_pattern(alloc, depth, tokens)?;
    let (_, rest) = token(Expected::Token, &[Kind::Arrow], rest)?;
    let (body, rest) = read_level(alloc, depth, Level::Whole, rest)?;
    Ok((Arm { pattern, body }, rest))
}
