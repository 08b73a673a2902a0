//! Reading of conditions and tuples.

ghost use Rattle.std.specs.Prelude.{◌≡◌, ◌∷◌, [], ◌<◌, ◌≤◌, ◌+◌, ◌-◌, ◌^◌, IfOk};
ghost use Rattle.ligo_tokens.specs.declared.token.Kind.TheVariants as kind;
ghost use Rattle.ligo_syntax.specs.Depth.{deepest, if_there, expr_depth};
ghost use Rattle.ligo_syntax.specs.AtomGrammar.{Condition, Part};
ghost use Rattle.ligo_syntax.specs.Readers.{repeated};
ghost use Rattle.ligo_syntax.specs.Phrases.{Gives, key, optional};
ghost use Rattle.ligo_syntax.specs.ExprReading.{condition_rule, if_rule, tuple_rule, form_at, arm_at};

use crate::expr::Expr;
use crate::expr_nodes::{if_expr, tuple_expr};
use crate::fault::{Expected, Stop};
use crate::level::Level;
use crate::level_reader::{read_disjunction, read_level};
use crate::tokens::{at, token};
use ligo_tokens::{Kind, Token};
use sqlite_items::Items;
use std::alloc::Global;

/// Conditions between commas.
#[cycle(reading_exprs)]
pub(crate) fn read_tuple(
    alloc: Global,
    depth: u32,
    tokens: &[Token],
) -> Result<(Expr, &[Token]), Stop>
    requires { depth < 2 ^ 32 - 1 }
    ensures read { Gives (λ x. (x.0, x.1.now)) result
        (tuple_rule depth (form_at depth) (arm_at depth) tokens.now) }
    ensures within { IfOk result (λ x. x.0.depth ≤ depth + 1) }
{
    let (first, rest) = read_condition(alloc, depth, tokens)?;
    if !at(&[Kind::Comma], rest) {
        return Ok((first, rest));
    }
    if first.depth > depth {
        return Err(Stop::TooDeep(rest.len()));
    }
    let (more, rest) = more_conditions(alloc, depth, rest)?;
    Ok((tuple_expr(alloc, first, more)?, rest))
}

/// The conditions behind commas.
#[cycle(reading_exprs)]
fn more_conditions(
    alloc: Global,
    depth: u32,
    tokens: &[Token],
) -> Result<(Items<Expr>, &[Token]), Stop>
    ensures read { Gives (λ x. (x.0, x.1.now)) result
        (repeated (kind.Comma ∷ []) (key kind.Comma (form_at depth Condition)) tokens.now) }
    ensures within { IfOk result (λ x. deepest expr_depth x.0 ≤ depth) }
{
    let mut items = Items::new(alloc);
    let mut rest = tokens;
    for _ in 0..tokens.len() {
        if !at(&[Kind::Comma], rest) {
            return Ok((items, rest));
        }
        let (_, after) = token(Expected::Token, &[Kind::Comma], rest)?;
        let (item, after) = read_level(alloc, depth, Level::Condition, after)?;
        items.push(item)?;
        rest = after;
    }
    Ok((items, rest))
}

/// An `if`, or operators.
#[cycle(reading_exprs)]
pub(crate) fn read_condition(
    alloc: Global,
    depth: u32,
    tokens: &[Token],
) -> Result<(Expr, &[Token]), Stop>
    requires { depth < 2 ^ 32 - 1 }
    ensures read { Gives (λ x. (x.0, x.1.now)) result
        (condition_rule depth (form_at depth) (arm_at depth) tokens.now) }
    ensures within { IfOk result (λ x. x.0.depth ≤ depth + 1) }
{
    if at(&[Kind::If], tokens) {
        return read_if(alloc, depth, tokens);
    }
    read_disjunction(alloc, depth, tokens)
}

#[cycle(reading_exprs)]
fn read_if(alloc: Global, depth: u32, tokens: &[Token]) -> Result<(Expr, &[Token]), Stop>
    requires { depth < 2 ^ 32 - 1 }
    ensures read { Gives (λ x. (x.0, x.1.now)) result
        (if_rule depth (form_at depth) (arm_at depth) tokens.now) }
    ensures within { IfOk result (λ x. x.0.depth ≤ depth + 1) }
{
    let (word, rest) = token(Expected::Token, &[Kind::If], tokens)?;
    let (test, rest) = read_level(alloc, depth, Level::Whole, rest)?;
    let (_, rest) = token(Expected::Token, &[Kind::Then], rest)?;
    let (yes, rest) = read_level(alloc, depth, Level::Part, rest)?;
    let (other, rest) = read_else(alloc, depth, rest)?;
    Ok((if_expr(alloc, word.at, test, yes, other)?, rest))
}

/// The other part of an `if`, where it has one.
#[cycle(reading_exprs)]
fn read_else(alloc: Global, depth: u32, tokens: &[Token]) -> Result<(Option<Expr>, &[Token]), Stop>
    ensures read { Gives (λ x. (x.0, x.1.now)) result
        (optional (kind.Else ∷ []) (key kind.Else (form_at depth Part)) tokens.now) }
    ensures within { IfOk result (λ x. if_there expr_depth x.0 ≤ depth) }
{
    if at(&[Kind::Else], tokens) {
        let (_, rest) = token(Expected::Token, &[Kind::Else], tokens)?;
        let (other, rest) = read_level(alloc, depth, Level::Part, rest)?;
        return Ok((Some(other), rest));
    }
    Ok((None, tokens))
}
