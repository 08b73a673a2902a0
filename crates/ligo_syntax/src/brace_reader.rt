//! Reading of records.

ghost use Rattle.std.specs.Prelude.{◌≡◌, ◌∷◌, [], ◌<◌, ◌≤◌, ◌+◌, ◌-◌, ◌^◌, IfOk};
ghost use Rattle.ligo_tokens.specs.declared.token.Kind.TheVariants as kind;
ghost use Rattle.ligo_syntax.specs.Classes.{name_kinds};
ghost use Rattle.ligo_syntax.specs.Depth.{deepest, field_depth};
ghost use Rattle.ligo_syntax.specs.Readers.{repeated};
ghost use Rattle.ligo_syntax.specs.Phrases.{Gives, key, more_of};
ghost use Rattle.ligo_syntax.specs.AtomReading.{brace_inside, brace_rule, field_rule, record_rest, with_rest};
ghost use Rattle.ligo_syntax.specs.ExprReading.{form_at, arm_at};

use crate::brace_nodes::{Inside, brace_expr, into_name, is_name, record_inside, with_inside};
use crate::expr::{Expr, ValueField};
use crate::fault::{Expected, Stop};
use crate::level::Level;
use crate::level_reader::read_level;
use crate::name::Name;
use crate::tokens::{at, at_name, name_of, name_token, token};
use ligo_tokens::{Kind, Token};
use sqlite_items::Items;
use std::alloc::Global;

/// What stands in braces.
#[cycle(reading_exprs)]
pub(crate) fn read_brace(
    alloc: Global,
    depth: u32,
    tokens: &[Token],
) -> Result<(Expr, &[Token]), Stop>
    requires { depth < 2 ^ 32 - 1 }
    ensures read { Gives (λ x. (x.0, x.1.now)) result
        (brace_rule depth (form_at depth) (arm_at depth) tokens.now) }
    ensures within { IfOk result (λ x. x.0.depth ≤ depth + 1) }
{
    let (open, rest) = token(Expected::Token, &[Kind::OpenBrace], tokens)?;
    let (inside, rest) = read_inside(alloc, depth, rest)?;
    let (_, rest) = token(Expected::Token, &[Kind::CloseBrace], rest)?;
    Ok((brace_expr(open.at, inside), rest))
}

/// Fields, or an atom and fields that replace its own: a name alone may be that of a field.
#[cycle(reading_exprs)]
fn read_inside(alloc: Global, depth: u32, tokens: &[Token]) -> Result<(Inside, &[Token]), Stop>
    ensures read { Gives (λ x. ((x.0.depth, x.0.form), x.1.now)) result
        (brace_inside depth (form_at depth) (arm_at depth) tokens.now) }
    ensures within { IfOk result (λ x. x.0.depth ≤ depth) }
{
    let (first, rest) = read_level(alloc, depth, Level::Atom, tokens)?;
    if is_name(&first) && at(&[Kind::Equals], rest) {
        return read_record(alloc, depth, into_name(first), rest);
    }
    read_with(alloc, depth, first, rest)
}

/// The value of a first field, and more fields.
#[cycle(reading_exprs)]
fn read_record(
    alloc: Global,
    depth: u32,
    name: Name,
    tokens: &[Token],
) -> Result<(Inside, &[Token]), Stop>
    ensures read { Gives (λ x. ((x.0.depth, x.0.form), x.1.now)) result
        (record_rest depth (form_at depth) (arm_at depth) name tokens.now) }
    ensures within { IfOk result (λ x. x.0.depth ≤ depth) }
{
    let (_, rest) = token(Expected::Token, &[Kind::Equals], tokens)?;
    let (value, rest) = read_level(alloc, depth, Level::Whole, rest)?;
    let (more, rest) = more_fields(alloc, depth, rest)?;
    Ok((
        record_inside(alloc, ValueField { name, value }, more)?,
        rest,
    ))
}

/// `with`, and fields.
#[cycle(reading_exprs)]
fn read_with(
    alloc: Global,
    depth: u32,
    first: Expr,
    tokens: &[Token],
) -> Result<(Inside, &[Token]), Stop>
    requires { first.depth ≤ depth }
    ensures read { Gives (λ x. ((x.0.depth, x.0.form), x.1.now)) result
        (with_rest depth (form_at depth) (arm_at depth) first tokens.now) }
    ensures within { IfOk result (λ x. x.0.depth ≤ depth) }
{
    let (_, rest) = token(Expected::Token, &[Kind::With], tokens)?;
    let (field, rest) = read_field(alloc, depth, rest)?;
    let (more, rest) = other_fields(alloc, depth, rest)?;
    Ok((with_inside(alloc, first, field, more)?, rest))
}

#[cycle(reading_exprs)]
fn read_field(alloc: Global, depth: u32, tokens: &[Token]) -> Result<(ValueField, &[Token]), Stop>
    ensures read { Gives (λ x. (x.0, x.1.now)) result
        (field_rule depth (form_at depth) (arm_at depth) tokens.now) }
    ensures within { IfOk result (λ x. field_depth x.0 ≤ depth) }
{
    let (name, rest) = name_token(Expected::Token, tokens)?;
    let (_, rest) = token(Expected::Token, &[Kind::Equals], rest)?;
    let (value, rest) = read_level(alloc, depth, Level::Whole, rest)?;
    let name = name_of(alloc, name)?;
    Ok((ValueField { name, value }, rest))
}

/// The fields behind semicolons, the last of which may have nothing behind it.
#[cycle(reading_exprs)]
fn more_fields(
    alloc: Global,
    depth: u32,
    tokens: &[Token],
) -> Result<(Items<ValueField>, &[Token]), Stop>
    ensures read { Gives (λ x. (x.0, x.1.now)) result
        (more_of name_kinds (field_rule depth (form_at depth) (arm_at depth)) tokens.now) }
    ensures within { IfOk result (λ x. deepest field_depth x.0 ≤ depth) }
{
    let mut items = Items::new(alloc);
    let mut rest = tokens;
    for _ in 0..tokens.len() {
        if !at(&[Kind::Semicolon], rest) {
            return Ok((items, rest));
        }
        let (_, after) = token(Expected::Token, &[Kind::Semicolon], rest)?;
        if !at_name(after) {
            return Ok((items, after));
        }
        let (item, after) = read_field(alloc, depth, after)?;
        items.push(item)?;
        rest = after;
    }
    Ok((items, rest))
}

/// The fields behind semicolons.
#[cycle(reading_exprs)]
fn other_fields(
    alloc: Global,
    depth: u32,
    tokens: &[Token],
) -> Result<(Items<ValueField>, &[Token]), Stop>
    ensures read { Gives (λ x. (x.0, x.1.now)) result
        (repeated (kind.Semicolon ∷ [])
        (key kind.Semicolon (field_rule depth (form_at depth) (arm_at depth))) tokens.now) }
    ensures within { IfOk result (λ x. deepest field_depth x.0 ≤ depth) }
{
    let mut items = Items::new(alloc);
    let mut rest = tokens;
    for _ in 0..tokens.len() {
        if !at(&[Kind::Semicolon], rest) {
            return Ok((items, rest));
        }
        let (_, after) = token(Expected::Token, &[Kind::Semicolon], rest)?;
        let (item, after) = read_field(alloc, depth, after)?;
        items.push(item)?;
        rest = after;
    }
    Ok((items, rest))
}
