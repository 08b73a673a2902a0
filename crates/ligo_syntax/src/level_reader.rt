//! Reading of expressions by their levels.

ghost use Rattle.std.specs.Prelude.{◌≡◌, ◌∷◌, [], ◌<◌, ◌≤◌, ◌+◌, ◌-◌, ◌^◌, IfOk, length, suc};
ghost use Rattle.ligo_syntax.specs.Classes.{comparison_kinds};
ghost use Rattle.ligo_syntax.specs.Depth.{expr_depth};
ghost use Rattle.ligo_syntax.specs.AtomGrammar.{Joined};
ghost use Rattle.ligo_syntax.specs.Levels.{form_of};
ghost use Rattle.ligo_syntax.specs.Readers.{before, both, links, made, nothing};
ghost use Rattle.ligo_syntax.specs.Phrases.{Gives, key, optional};
ghost use Rattle.ligo_syntax.specs.TypeReading.{token};
ghost use Rattle.ligo_syntax.specs.OperatorReading.{disjunction_rule, conjunction_rule, comparison_rule, joined_rule, consed_rule, sum_rule, product_rule, unary_rule};
ghost use Rattle.ligo_syntax.specs.ExprReading.{form_rule, form_at, arm_at};
ghost use Rattle.ligo_syntax.specs.ExprTrees.{binary, maybe_binary, operator_of};

use crate::atom_reader::{read_application, read_atom};
use crate::condition_reader::read_condition;
use crate::expr::Expr;
use crate::expr_nodes::{binary, negated, operator_of};
use crate::fault::{Expected, Stop};
use crate::leaf_reader::no_depth;
use crate::level::Level;
use crate::tokens::{at, token};
use crate::whole_reader::{read_part, read_whole};
use ligo_tokens::{Kind, Token};
use std::alloc::Global;

/// An expression of this level, at most so deep.
#[cycle(reading_exprs)]
pub(crate) fn read_level(
    alloc: Global,
    depth: u32,
    level: Level,
    tokens: &[Token],
) -> Result<(Expr, &[Token]), Stop>
    ensures read { Gives (λ x. (x.0, x.1.now)) result (form_at depth (form_of level) tokens.now) }
    ensures within { IfOk result (λ x. x.0.depth ≤ depth) }
{
    if depth == 0 {
        return Err(no_depth(level, tokens));
    }
    level_above(alloc, depth - 1, level, tokens)
}

/// An expression of this level, with parts that are at most so deep.
#[cycle(reading_exprs)]
fn level_above(
    alloc: Global,
    depth: u32,
    level: Level,
    tokens: &[Token],
) -> Result<(Expr, &[Token]), Stop>
    requires { depth < 2 ^ 32 - 1 }
    ensures read { Gives (λ x. (x.0, x.1.now)) result
        (form_rule depth (form_at depth) (arm_at depth) (form_of level) tokens.now) }
    ensures within { IfOk result (λ x. x.0.depth ≤ depth + 1) }
{
    match level {
        Level::Whole => read_whole(alloc, depth, tokens),
        Level::Part => read_part(alloc, depth, tokens),
        Level::Condition => read_condition(alloc, depth, tokens),
        Level::Disjunction => read_disjunction(alloc, depth, tokens),
        Level::Conjunction => read_conjunction(alloc, depth, tokens),
        Level::Comparison => read_comparison(alloc, depth, tokens),
        Level::Joined => read_joined(alloc, depth, tokens),
        Level::Consed => read_consed(alloc, depth, tokens),
        Level::Sum => read_sum(alloc, depth, tokens),
        Level::Product => read_product(alloc, depth, tokens),
        Level::Unary => read_unary(alloc, depth, tokens),
        Level::Application => read_application(alloc, depth, tokens),
        Level::Atom => read_atom(alloc, depth, tokens),
    }
}

/// Operators from `||` on: tighter ones are taken one level after another, in one frame.
#[cycle(reading_exprs)]
pub(crate) fn read_disjunction(
    alloc: Global,
    depth: u32,
    tokens: &[Token],
) -> Result<(Expr, &[Token]), Stop>
    requires { depth < 2 ^ 32 - 1 }
    ensures read { Gives (λ x. (x.0, x.1.now)) result
        (disjunction_rule depth (form_at depth) (arm_at depth) tokens.now) }
    ensures within { IfOk result (λ x. x.0.depth ≤ depth + 1) }
{
    let (first, rest) = read_joined(alloc, depth, tokens)?;
    let (first, rest) = read_compared(alloc, depth, first, rest)?;
    let (first, rest) = read_operators(alloc, depth, first, &[Kind::And], Level::Comparison, rest)?;
    read_operators(alloc, depth, first, &[Kind::Or], Level::Conjunction, rest)
}

/// Operators from `&&` on.
#[cycle(reading_exprs)]
fn read_conjunction(alloc: Global, depth: u32, tokens: &[Token]) -> Result<(Expr, &[Token]), Stop>
    requires { depth < 2 ^ 32 - 1 }
    ensures read { Gives (λ x. (x.0, x.1.now)) result
        (conjunction_rule depth (form_at depth) (arm_at depth) tokens.now) }
    ensures within { IfOk result (λ x. x.0.depth ≤ depth + 1) }
{
    let (first, rest) = read_joined(alloc, depth, tokens)?;
    let (first, rest) = read_compared(alloc, depth, first, rest)?;
    read_operators(alloc, depth, first, &[Kind::And], Level::Comparison, rest)
}

/// Operators from comparisons on.
#[cycle(reading_exprs)]
fn read_comparison(alloc: Global, depth: u32, tokens: &[Token]) -> Result<(Expr, &[Token]), Stop>
    requires { depth < 2 ^ 32 - 1 }
    ensures read { Gives (λ x. (x.0, x.1.now)) result
        (comparison_rule depth (form_at depth) (arm_at depth) tokens.now) }
    ensures within { IfOk result (λ x. x.0.depth ≤ depth + 1) }
{
    let (first, rest) = read_joined(alloc, depth, tokens)?;
    read_compared(alloc, depth, first, rest)
}

/// The comparisons behind an expression.
#[cycle(reading_exprs)]
fn read_compared(
    alloc: Global,
    depth: u32,
    first: Expr,
    tokens: &[Token],
) -> Result<(Expr, &[Token]), Stop>
    requires fits { depth < 2 ^ 32 - 1 }
    requires within { first.depth ≤ depth + 1 }
    ensures read { Gives (λ x. (x.0, x.1.now)) result
        (links expr_depth (suc depth) binary comparison_kinds
        (both (token comparison_kinds) (form_at depth Joined))
        (length tokens.now) first tokens.now) }
    ensures within { IfOk result (λ x. x.0.depth ≤ depth + 1) }
{
    let signs = [
        Kind::Equals,
        Kind::Differs,
        Kind::Less,
        Kind::Greater,
        Kind::AtMost,
        Kind::AtLeast,
    ];
    read_operators(alloc, depth, first, &signs, Level::Joined, tokens)
}

/// Operators from `^` on.
#[cycle(reading_exprs)]
fn read_joined(alloc: Global, depth: u32, tokens: &[Token]) -> Result<(Expr, &[Token]), Stop>
    requires { depth < 2 ^ 32 - 1 }
    ensures read { Gives (λ x. (x.0, x.1.now)) result
        (joined_rule depth (form_at depth) (arm_at depth) tokens.now) }
    ensures within { IfOk result (λ x. x.0.depth ≤ depth + 1) }
{
    let (first, rest) = read_sum(alloc, depth, tokens)?;
    let (first, rest) = read_right(alloc, depth, first, Kind::Cons, Level::Consed, rest)?;
    read_right(alloc, depth, first, Kind::Caret, Level::Joined, rest)
}

/// Operators from `::` on.
#[cycle(reading_exprs)]
fn read_consed(alloc: Global, depth: u32, tokens: &[Token]) -> Result<(Expr, &[Token]), Stop>
    requires { depth < 2 ^ 32 - 1 }
    ensures read { Gives (λ x. (x.0, x.1.now)) result
        (consed_rule depth (form_at depth) (arm_at depth) tokens.now) }
    ensures within { IfOk result (λ x. x.0.depth ≤ depth + 1) }
{
    let (first, rest) = read_sum(alloc, depth, tokens)?;
    read_right(alloc, depth, first, Kind::Cons, Level::Consed, rest)
}

/// Operators from `+` and `-` on.
#[cycle(reading_exprs)]
fn read_sum(alloc: Global, depth: u32, tokens: &[Token]) -> Result<(Expr, &[Token]), Stop>
    requires { depth < 2 ^ 32 - 1 }
    ensures read { Gives (λ x. (x.0, x.1.now)) result
        (sum_rule depth (form_at depth) (arm_at depth) tokens.now) }
    ensures within { IfOk result (λ x. x.0.depth ≤ depth + 1) }
{
    let (first, rest) = read_unary(alloc, depth, tokens)?;
    let signs = [Kind::Star, Kind::Slash, Kind::Mod];
    let (first, rest) = read_operators(alloc, depth, first, &signs, Level::Unary, rest)?;
    let signs = [Kind::Plus, Kind::Minus];
    read_operators(alloc, depth, first, &signs, Level::Product, rest)
}

/// Operators from `*` and `/` on.
#[cycle(reading_exprs)]
fn read_product(alloc: Global, depth: u32, tokens: &[Token]) -> Result<(Expr, &[Token]), Stop>
    requires { depth < 2 ^ 32 - 1 }
    ensures read { Gives (λ x. (x.0, x.1.now)) result
        (product_rule depth (form_at depth) (arm_at depth) tokens.now) }
    ensures within { IfOk result (λ x. x.0.depth ≤ depth + 1) }
{
    let (first, rest) = read_unary(alloc, depth, tokens)?;
    let signs = [Kind::Star, Kind::Slash, Kind::Mod];
    read_operators(alloc, depth, first, &signs, Level::Unary, rest)
}

/// The operators behind an expression.
#[cycle(reading_exprs)]
fn read_operators<'a>(
    alloc: Global,
    depth: u32,
    first: Expr,
    signs: &[Kind],
    operand: Level,
    tokens: &'a [Token],
) -> Result<(Expr, &'a [Token]), Stop>
    requires fits { depth < 2 ^ 32 - 1 }
    requires within { first.depth ≤ depth + 1 }
    ensures read { Gives (λ x. (x.0, x.1.now)) result
        (links expr_depth (suc depth) binary signs.now
        (both (token signs.now) (form_at depth (form_of operand)))
        (length tokens.now) first tokens.now) }
    ensures within { IfOk result (λ x. x.0.depth ≤ depth + 1) }
{
    let mut made = first;
    let mut rest = tokens;
    for _ in 0..tokens.len() {
        if !at(signs, rest) {
            return Ok((made, rest));
        }
        if made.depth > depth {
            return Err(Stop::TooDeep(rest.len()));
        }
        let (sign, after) = token(Expected::Token, signs, rest)?;
        let (item, after) = read_level(alloc, depth, operand, after)?;
        made = binary(alloc, operator_of(sign.kind), made, item)?;
        rest = after;
    }
    Ok((made, rest))
}

/// What stands behind an operator that goes to the right.
#[cycle(reading_exprs)]
fn read_right(
    alloc: Global,
    depth: u32,
    first: Expr,
    sign: Kind,
    operand: Level,
    tokens: &[Token],
) -> Result<(Expr, &[Token]), Stop>
    requires fits { depth < 2 ^ 32 - 1 }
    requires within { first.depth ≤ depth + 1 }
    ensures read { Gives (λ x. (x.0, x.1.now)) result
        (made (maybe_binary (operator_of sign)) (both
        (before expr_depth (suc depth) (sign ∷ []) (nothing first))
        (optional (sign ∷ []) (key sign (form_at depth (form_of operand))))) tokens.now) }
    ensures within { IfOk result (λ x. x.0.depth ≤ depth + 1) }
{
    if !at(&[sign], tokens) {
        return Ok((first, tokens));
    }
    if first.depth > depth {
        return Err(Stop::TooDeep(tokens.len()));
    }
    let (_, rest) = token(Expected::Token, &[sign], tokens)?;
    let (second, rest) = read_level(alloc, depth, operand, rest)?;
    Ok((binary(alloc, operator_of(sign), first, second)?, rest))
}

/// A minus before an expression, or an application.
#[cycle(reading_exprs)]
fn read_unary(alloc: Global, depth: u32, tokens: &[Token]) -> Result<(Expr, &[Token]), Stop>
    requires { depth < 2 ^ 32 - 1 }
    ensures read { Gives (λ x. (x.0, x.1.now)) result
        (unary_rule depth (form_at depth) (arm_at depth) tokens.now) }
    ensures within { IfOk result (λ x. x.0.depth ≤ depth + 1) }
{
    if at(&[Kind::Minus], tokens) {
        let (sign, rest) = token(Expected::Token, &[Kind::Minus], tokens)?;
        let (of, rest) = read_level(alloc, depth, Level::Unary, rest)?;
        return Ok((negated(alloc, sign.at, of)?, rest));
    }
    read_application(alloc, depth, tokens)
}
