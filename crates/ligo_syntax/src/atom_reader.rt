//! Reading of atoms and applications.

ghost use Rattle.std.specs.Prelude.{◌≡◌, ◌∷◌, [], ◌<◌, ◌≤◌, ◌+◌, ◌-◌, ◌^◌, IfOk};
ghost use Rattle.ligo_syntax.specs.Classes.{atom_firsts, expr_firsts};
ghost use Rattle.ligo_syntax.specs.Depth.{deepest, expr_depth};
ghost use Rattle.ligo_syntax.specs.AtomGrammar.{Atom, Whole};
ghost use Rattle.ligo_syntax.specs.Readers.{repeated};
ghost use Rattle.ligo_syntax.specs.Phrases.{Gives, listed, more_of};
ghost use Rattle.ligo_syntax.specs.AtomReading.{application_rule, atom_rule, base_rule, paren_rule, square_rule};
ghost use Rattle.ligo_syntax.specs.ExprReading.{form_at, arm_at};

use crate::brace_reader::read_brace;
use crate::expr::Expr;
use crate::expr_nodes::{applied, empty_list, list_expr, paren_expr, unit_expr};
use crate::fault::{Expected, Stop};
use crate::leaf_reader::{at_atom, at_expr, read_dots, read_leaf, read_upper};
use crate::level::Level;
use crate::level_reader::read_level;
use crate::lists::listed;
use crate::tokens::{at, token};
use crate::type_reader::read_annotation;
use ligo_tokens::{Kind, Token};
use sqlite_items::Items;
use std::alloc::Global;

/// A function and its arguments.
#[cycle(reading_exprs)]
pub(crate) fn read_application(
    alloc: Global,
    depth: u32,
    tokens: &[Token],
) -> Result<(Expr, &[Token]), Stop>
    requires { depth < 2 ^ 32 - 1 }
    ensures read { Gives (λ x. (x.0, x.1.now)) result
        (application_rule depth (form_at depth) (arm_at depth) tokens.now) }
    ensures within { IfOk result (λ x. x.0.depth ≤ depth + 1) }
{
    let (head, rest) = read_atom(alloc, depth, tokens)?;
    if !at_atom(rest) {
        return Ok((head, rest));
    }
    if head.depth > depth {
        return Err(Stop::TooDeep(rest.len()));
    }
    let (more, rest) = more_atoms(alloc, depth, rest)?;
    Ok((applied(alloc, head, more)?, rest))
}

/// The arguments of a function.
#[cycle(reading_exprs)]
fn more_atoms(alloc: Global, depth: u32, tokens: &[Token]) -> Result<(Items<Expr>, &[Token]), Stop>
    ensures read { Gives (λ x. (x.0, x.1.now)) result
        (repeated atom_firsts (form_at depth Atom) tokens.now) }
    ensures within { IfOk result (λ x. deepest expr_depth x.0 ≤ depth) }
{
    let mut items = Items::new(alloc);
    let mut rest = tokens;
    for _ in 0..tokens.len() {
        if !at_atom(rest) {
            return Ok((items, rest));
        }
        let (item, after) = read_level(alloc, depth, Level::Atom, rest)?;
        items.push(item)?;
        rest = after;
    }
    Ok((items, rest))
}

/// What stands alone, and dots behind it.
#[cycle(reading_exprs)]
pub(crate) fn read_atom(
    alloc: Global,
    depth: u32,
    tokens: &[Token],
) -> Result<(Expr, &[Token]), Stop>
    requires { depth < 2 ^ 32 - 1 }
    ensures read { Gives (λ x. (x.0, x.1.now)) result
        (atom_rule depth (form_at depth) (arm_at depth) tokens.now) }
    ensures within { IfOk result (λ x. x.0.depth ≤ depth + 1) }
{
    let (first, rest) = read_base(alloc, depth, tokens)?;
    read_dots(alloc, depth + 1, first, rest)
}

#[cycle(reading_exprs)]
fn read_base(alloc: Global, depth: u32, tokens: &[Token]) -> Result<(Expr, &[Token]), Stop>
    requires { depth < 2 ^ 32 - 1 }
    ensures read { Gives (λ x. (x.0, x.1.now)) result
        (base_rule depth (form_at depth) (arm_at depth) tokens.now) }
    ensures within { IfOk result (λ x. x.0.depth ≤ depth + 1) }
{
    if at(&[Kind::OpenParen], tokens) {
        return read_paren(alloc, depth, tokens);
    }
    if at(&[Kind::OpenSquare], tokens) {
        return read_square(alloc, depth, tokens);
    }
    if at(&[Kind::OpenBrace], tokens) {
        return read_brace(alloc, depth, tokens);
    }
    if at(&[Kind::Upper], tokens) {
        return read_upper(alloc, depth, tokens);
    }
    read_leaf(alloc, tokens)
}

/// `()`, or an expression in brackets, with its type if it is told.
#[cycle(reading_exprs)]
fn read_paren(alloc: Global, depth: u32, tokens: &[Token]) -> Result<(Expr, &[Token]), Stop>
    requires { depth < 2 ^ 32 - 1 }
    ensures read { Gives (λ x. (x.0, x.1.now)) result
        (paren_rule depth (form_at depth) (arm_at depth) tokens.now) }
    ensures within { IfOk result (λ x. x.0.depth ≤ depth + 1) }
{
    let (open, rest) = token(Expected::Token, &[Kind::OpenParen], tokens)?;
    if at(&[Kind::CloseParen], rest) {
        let (_, rest) = token(Expected::Token, &[Kind::CloseParen], rest)?;
        return Ok((unit_expr(alloc, open.at)?, rest));
    }
    let (inner, rest) = read_level(alloc, depth, Level::Whole, rest)?;
    let (of, rest) = read_annotation(alloc, depth, rest)?;
    let (_, rest) = token(Expected::Token, &[Kind::CloseParen], rest)?;
    Ok((paren_expr(alloc, open.at, inner, of)?, rest))
}

/// A list that is written out.
#[cycle(reading_exprs)]
fn read_square(alloc: Global, depth: u32, tokens: &[Token]) -> Result<(Expr, &[Token]), Stop>
    requires { depth < 2 ^ 32 - 1 }
    ensures read { Gives (λ x. (x.0, x.1.now)) result
        (square_rule depth (form_at depth) (arm_at depth) tokens.now) }
    ensures within { IfOk result (λ x. x.0.depth ≤ depth + 1) }
{
    let (open, rest) = token(Expected::Token, &[Kind::OpenSquare], tokens)?;
    if at_expr(rest) {
        let (items, rest) = read_items(alloc, depth, rest)?;
        let (_, rest) = token(Expected::Token, &[Kind::CloseSquare], rest)?;
        return Ok((list_expr(alloc, open.at, items)?, rest));
    }
    let (_, rest) = token(Expected::Token, &[Kind::CloseSquare], rest)?;
    Ok((empty_list(alloc, open.at)?, rest))
}

/// Expressions between semicolons.
#[cycle(reading_exprs)]
fn read_items(alloc: Global, depth: u32, tokens: &[Token]) -> Result<(Items<Expr>, &[Token]), Stop>
    ensures read { Gives (λ x. (x.0, x.1.now)) result
        (listed expr_firsts (form_at depth Whole) tokens.now) }
    ensures within { IfOk result (λ x. deepest expr_depth x.0 ≤ depth) }
{
    let (first, rest) = read_level(alloc, depth, Level::Whole, tokens)?;
    let (more, rest) = more_items(alloc, depth, rest)?;
    Ok((listed(alloc, first, more)?, rest))
}

/// The expressions behind semicolons.
#[cycle(reading_exprs)]
fn more_items(alloc: Global, depth: u32, tokens: &[Token]) -> Result<(Items<Expr>, &[Token]), Stop>
    ensures read { Gives (λ x. (x.0, x.1.now)) result
        (more_of expr_firsts (form_at depth Whole) tokens.now) }
    ensures within { IfOk result (λ x. deepest expr_depth x.0 ≤ depth) }
{
    let mut items = Items::new(alloc);
    let mut rest = tokens;
    for _ in 0..tokens.len() {
        if !at(&[Kind::Semicolon], rest) {
            return Ok((items, rest));
        }
        let (_, after) = token(Expected::Token, &[Kind::Semicolon], rest)?;
        if !at_expr(after) {
            return Ok((items, after));
        }
        let (item, after) = read_level(alloc, depth, Level::Whole, after)?;
        items.push(item)?;
        rest = after;
    }
    Ok((items, rest))
}
