//! Reading of expressions without brackets.

ghost use Rattle.std.specs.Prelude.{◌≡◌, ◌∷◌, [], ◌<◌, ◌≤◌, ◌+◌, ◌-◌, ◌^◌, IfOk, length, option_copied};
ghost use Rattle.ligo_tokens.specs.declared.token.Kind.TheVariants as kind;
ghost use Rattle.ligo_syntax.specs.declared.fault.Expected.TheVariants as expected;
ghost use Rattle.ligo_syntax.specs.Classes.{atom_firsts, expr_firsts, leaf_kinds, link_kinds};
ghost use Rattle.ligo_syntax.specs.Depth.{expr_depth};
ghost use Rattle.ligo_syntax.specs.Kinds.{has, next};
ghost use Rattle.ligo_syntax.specs.Levels.{form_of};
ghost use Rattle.ligo_syntax.specs.Readers.{links, made, one_of, too_deep_at};
ghost use Rattle.ligo_syntax.specs.Phrases.{Gives, key, optional};
ghost use Rattle.ligo_syntax.specs.TypeReading.{token};
ghost use Rattle.ligo_syntax.specs.AtomReading.{upper_link_at, upper_rule};
ghost use Rattle.ligo_syntax.specs.ExprReading.{firsts_of, form_at, arm_at};
ghost use Rattle.ligo_syntax.specs.AtomTrees.{dotted, leaf_expr, link_depth};

use crate::expr::Expr;
use crate::fault::{Expected, Stop};
use crate::leaf_nodes::{constructor_expr, dotted, leaf_expr, linked_expr};
use crate::level::Level;
use crate::tokens::{at, at_name, name_token, token, too_deep};
use ligo_tokens::{Kind, Token};
use std::alloc::Global;

/// Whether an expression begins here.
pub(crate) fn at_expr(tokens: &[Token]) -> bool
    ensures { result ≡ has expr_firsts (next tokens.now) }
{
    at(&[Kind::Let, Kind::Match, Kind::If, Kind::Minus], tokens) || at_atom(tokens)
}

/// Whether an atom begins here.
pub(crate) fn at_atom(tokens: &[Token]) -> bool
    ensures { result ≡ has atom_firsts (next tokens.now) }
{
    let opening = [
        Kind::OpenParen,
        Kind::OpenSquare,
        Kind::OpenBrace,
        Kind::Upper,
    ];
    at(&opening, tokens) || at_leaf(tokens)
}

/// Whether a name or a literal stands here.
fn at_leaf(tokens: &[Token]) -> bool
    ensures { result ≡ has leaf_kinds (next tokens.now) }
{
    let literals = [Kind::Int, Kind::Nat, Kind::Tez, Kind::Bytes, Kind::Text];
    at(&literals, tokens) || at_name(tokens)
}

/// Whether something of this level begins here.
fn at_level(level: Level, tokens: &[Token]) -> bool
    ensures { result ≡ has (firsts_of (form_of level)) (next tokens.now) }
{
    match level {
        Level::Whole | Level::Part => at_expr(tokens),
        Level::Condition => at(&[Kind::If, Kind::Minus], tokens) || at_atom(tokens),
        Level::Application | Level::Atom => at_atom(tokens),
        Level::Disjunction
        | Level::Conjunction
        | Level::Comparison
        | Level::Joined
        | Level::Consed
        | Level::Sum
        | Level::Product
        | Level::Unary => at(&[Kind::Minus], tokens) || at_atom(tokens),
    }
}

/// Why reading stops where no depth is left for an expression.
pub(crate) fn no_depth(level: Level, tokens: &[Token]) -> Stop
    ensures { result ≡ too_deep_at expected.Expression (firsts_of (form_of level)) tokens.now }
{
    if at_level(level, tokens) {
        Stop::TooDeep(tokens.len())
    } else {
        Stop::Unexpected(Expected::Expression, tokens.len())
    }
}

/// A token of this kind, if one stands here.
pub(crate) fn maybe(kind: Kind, tokens: &[Token]) -> Result<(Option<&Token>, &[Token]), Stop>
    ensures { Gives (λ x. (option_copied x.0, x.1.now)) result
        (optional (kind ∷ []) (token (kind ∷ [])) tokens.now) }
{
    if at(&[kind], tokens) {
        let (found, rest) = token(Expected::Token, &[kind], tokens)?;
        return Ok((Some(found), rest));
    }
    Ok((None, tokens))
}

/// A name or a literal.
pub(crate) fn read_leaf(alloc: Global, tokens: &[Token]) -> Result<(Expr, &[Token]), Stop>
    ensures read { Gives (λ x. (x.0, x.1.now)) result
        (made leaf_expr (one_of expected.Expression leaf_kinds) tokens.now) }
    ensures within { IfOk result (λ x. x.0.depth ≤ 1) }
{
    let (leaf, rest) = leaf_token(tokens)?;
    Ok((leaf_expr(alloc, leaf)?, rest))
}

fn leaf_token(tokens: &[Token]) -> Result<(&Token, &[Token]), Stop>
    ensures { Gives (λ x. (x.0.now, x.1.now)) result
        (one_of expected.Expression leaf_kinds tokens.now) }
{
    token(
        Expected::Expression,
        &[
            Kind::Int,
            Kind::Nat,
            Kind::Tez,
            Kind::Bytes,
            Kind::Text,
            Kind::Name,
            Kind::List,
            Kind::Option,
            Kind::Contract,
            Kind::Map,
            Kind::BigMap,
        ],
        tokens,
    )
}

/// What stands behind a dot.
fn link_token(tokens: &[Token]) -> Result<(&Token, &[Token]), Stop>
    ensures { Gives (λ x. (x.0.now, x.1.now)) result (token link_kinds tokens.now) }
{
    token(
        Expected::Token,
        &[
            Kind::Int,
            Kind::Name,
            Kind::List,
            Kind::Option,
            Kind::Contract,
            Kind::Map,
            Kind::BigMap,
        ],
        tokens,
    )
}

/// What stands behind an upper name and a dot: digits want depth.
fn upper_link(depth: u32, tokens: &[Token]) -> Result<(&Token, &[Token]), Stop>
    ensures read { Gives (λ x. (x.0.now, x.1.now)) result (upper_link_at depth tokens.now) }
    ensures within { IfOk result (λ x. link_depth x.0.now ≤ depth) }
{
    if depth > 0 {
        return link_token(tokens);
    }
    if at(&[Kind::Int], tokens) {
        return Err(too_deep(Expected::Token, &[Kind::Int], tokens));
    }
    name_token(Expected::Token, tokens)
}

/// An upper name, and what stands behind a dot.
pub(crate) fn read_upper(
    alloc: Global,
    depth: u32,
    tokens: &[Token],
) -> Result<(Expr, &[Token]), Stop>
    ensures read { Gives (λ x. (x.0, x.1.now)) result
        (upper_rule depth (form_at depth) (arm_at depth) tokens.now) }
    ensures within { IfOk result (λ x. x.0.depth ≤ depth + 1) }
{
    let (name, rest) = token(Expected::Token, &[Kind::Upper], tokens)?;
    if at(&[Kind::Dot], rest) {
        let (_, rest) = token(Expected::Token, &[Kind::Dot], rest)?;
        let (link, rest) = upper_link(depth, rest)?;
        return Ok((linked_expr(alloc, name, link)?, rest));
    }
    Ok((constructor_expr(alloc, name)?, rest))
}

/// The dots behind an expression.
pub(crate) fn read_dots(
    alloc: Global,
    depth: u32,
    first: Expr,
    tokens: &[Token],
) -> Result<(Expr, &[Token]), Stop>
    requires { first.depth ≤ depth }
    ensures read { Gives (λ x. (x.0, x.1.now)) result
        (links expr_depth depth dotted (kind.Dot ∷ []) (key kind.Dot (token link_kinds))
        (length tokens.now) first tokens.now) }
    ensures within { IfOk result (λ x. x.0.depth ≤ depth) }
{
    let mut made = first;
    let mut rest = tokens;
    for _ in 0..tokens.len() {
        if !at(&[Kind::Dot], rest) {
            return Ok((made, rest));
        }
        if made.depth >= depth {
            return Err(Stop::TooDeep(rest.len()));
        }
        let (link, after) = read_dot(rest)?;
        made = dotted(alloc, made, link)?;
        rest = after;
    }
    Ok((made, rest))
}

/// A dot, and what stands behind it.
fn read_dot(tokens: &[Token]) -> Result<(&Token, &[Token]), Stop>
    ensures { Gives (λ x. (x.0.now, x.1.now)) result (key kind.Dot (token link_kinds) tokens.now) }
{
    let (_, rest) = token(Expected::Token, &[Kind::Dot], tokens)?;
    link_token(rest)
}
