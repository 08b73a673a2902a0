//! Reading of what a type is declared as.

ghost use Rattle.std.specs.Prelude.{◌≡◌, ◌∷◌, [], ◌-◌, length, option_copied};
ghost use Rattle.ligo_tokens.specs.declared.token.Kind.TheVariants as kind;
ghost use Rattle.ligo_syntax.specs.declared.fault.Expected.TheVariants as expected;
ghost use Rattle.ligo_syntax.specs.Classes.{name_kinds, definition_firsts};
ghost use Rattle.ligo_syntax.specs.Kinds.{has, next};
ghost use Rattle.ligo_syntax.specs.ProgramTrees.{first_place};
ghost use Rattle.ligo_syntax.specs.Readers.{repeated, too_deep_at};
ghost use Rattle.ligo_syntax.specs.Phrases.{Gives, key, more_of, optional};
ghost use Rattle.ligo_syntax.specs.TypeReading.{token, read_type};
ghost use Rattle.ligo_syntax.specs.Reading.{type_field_rule, type_case_rule, record_type_rule, variant_type_rule, definition_at};

use crate::fault::{Expected, Stop};
use crate::leaf_reader::maybe;
use crate::lists::listed;
use crate::program::{Definition, TypeCase, TypeField};
use crate::tokens::{at, at_name, name_of, name_token, token, too_deep};
use crate::type_expr::TypeExpr;
use crate::type_reader::read_type;
use ligo_tokens::{Kind, Token};
use sqlite_items::Items;
use std::alloc::Global;

/// What a type is declared as, at most so deep.
pub(crate) fn read_definition(
    alloc: Global,
    depth: u32,
    tokens: &[Token],
) -> Result<(Definition, &[Token]), Stop>
    ensures { Gives (λ x. (x.0, x.1.now)) result (definition_at depth tokens.now) }
{
    if depth == 0 {
        return Err(no_depth(tokens));
    }
    if at(&[Kind::OpenBrace], tokens) {
        return record_type(alloc, depth - 1, tokens);
    }
    if at(&[Kind::Bar, Kind::Upper], tokens) {
        return variant_type(alloc, depth - 1, tokens);
    }
    let (of, rest) = read_type(alloc, depth, tokens)?;
    Ok((Definition::Type(of), rest))
}

fn no_depth(tokens: &[Token]) -> Stop
    ensures { result ≡ too_deep_at expected.TypeExpr definition_firsts tokens.now }
{
    too_deep(
        Expected::TypeExpr,
        &[
            Kind::OpenBrace,
            Kind::Bar,
            Kind::Upper,
            Kind::OpenParen,
            Kind::Name,
            Kind::List,
            Kind::Option,
            Kind::Contract,
            Kind::Map,
            Kind::BigMap,
        ],
        tokens,
    )
}

/// A record type, with fields at most so deep.
fn record_type(alloc: Global, depth: u32, tokens: &[Token]) -> Result<(Definition, &[Token]), Stop>
    ensures { Gives (λ x. (x.0, x.1.now)) result (record_type_rule depth tokens.now) }
{
    let (open, rest) = token(Expected::Token, &[Kind::OpenBrace], tokens)?;
    let (first, rest) = type_field(alloc, depth, rest)?;
    let (more, rest) = more_fields(alloc, depth, rest)?;
    let (_, rest) = token(Expected::Token, &[Kind::CloseBrace], rest)?;
    let fields = listed(alloc, first, more)?;
    Ok((Definition::Record(open.at, fields), rest))
}

/// The fields behind semicolons.
fn more_fields(
    alloc: Global,
    depth: u32,
    tokens: &[Token],
) -> Result<(Items<TypeField>, &[Token]), Stop>
    ensures { Gives (λ x. (x.0, x.1.now)) result (more_of name_kinds (type_field_rule depth) tokens.now) }
{
    let mut items = Items::new(alloc);
    let mut rest = tokens;
    for _ in 0..tokens.len() {
        if !at(&[Kind::Semicolon], rest) {
            return Ok((items, rest));
        }
        let (_, after) = token(Expected::Token, &[Kind::Semicolon], rest)?;
        if !at_name(after) {
            return Ok((items, after));
        }
        let (item, after) = type_field(alloc, depth, after)?;
        items.push(item)?;
        rest = after;
    }
    Ok((items, rest))
}

fn type_field(alloc: Global, depth: u32, tokens: &[Token]) -> Result<(TypeField, &[Token]), Stop>
    ensures { Gives (λ x. (x.0, x.1.now)) result (type_field_rule depth tokens.now) }
{
    let (word, rest) = name_token(Expected::Token, tokens)?;
    let (_, rest) = token(Expected::Token, &[Kind::Colon], rest)?;
    let (of, rest) = read_type(alloc, depth, rest)?;
    let name = name_of(alloc, word)?;
    Ok((TypeField { name, of }, rest))
}

/// A variant type, with cases at most so deep.
fn variant_type(alloc: Global, depth: u32, tokens: &[Token]) -> Result<(Definition, &[Token]), Stop>
    ensures { Gives (λ x. (x.0, x.1.now)) result (variant_type_rule depth tokens.now) }
{
    let (bar, rest) = maybe(Kind::Bar, tokens)?;
    let (first, rest) = type_case(alloc, depth, rest)?;
    let (more, rest) = more_cases(alloc, depth, rest)?;
    let place = first_place(bar, &first);
    let cases = listed(alloc, first, more)?;
    Ok((Definition::Variant(place, cases), rest))
}

/// Where a variant begins.
fn first_place(bar: Option<&Token>, first: &TypeCase) -> u32
    ensures { result ≡ first_place (option_copied bar.entry) first.now }
{
    match bar {
        None => first.name.at,
        Some(bar) => bar.at,
    }
}

/// The cases behind bars.
fn more_cases(
    alloc: Global,
    depth: u32,
    tokens: &[Token],
) -> Result<(Items<TypeCase>, &[Token]), Stop>
    ensures { Gives (λ x. (x.0, x.1.now)) result
        (repeated (kind.Bar ∷ []) (key kind.Bar (type_case_rule depth)) tokens.now) }
{
    let mut items = Items::new(alloc);
    let mut rest = tokens;
    for _ in 0..tokens.len() {
        if !at(&[Kind::Bar], rest) {
            return Ok((items, rest));
        }
        let (_, after) = token(Expected::Token, &[Kind::Bar], rest)?;
        let (item, after) = type_case(alloc, depth, after)?;
        items.push(item)?;
        rest = after;
    }
    Ok((items, rest))
}

fn type_case(alloc: Global, depth: u32, tokens: &[Token]) -> Result<(TypeCase, &[Token]), Stop>
    ensures { Gives (λ x. (x.0, x.1.now)) result (type_case_rule depth tokens.now) }
{
    let (word, rest) = token(Expected::Token, &[Kind::Upper], tokens)?;
    let (part, rest) = case_part(alloc, depth, rest)?;
    let name = name_of(alloc, word)?;
    Ok((TypeCase { name, part }, rest))
}

/// The type of a case's part, if it has one.
fn case_part(
    alloc: Global,
    depth: u32,
    tokens: &[Token],
) -> Result<(Option<TypeExpr>, &[Token]), Stop>
    ensures { Gives (λ x. (x.0, x.1.now)) result
        (optional (kind.Of ∷ []) (key kind.Of (read_type depth)) tokens.now) }
{
    if at(&[Kind::Of], tokens) {
        let (_, rest) = token(Expected::Token, &[Kind::Of], tokens)?;
        let (of, rest) = read_type(alloc, depth, rest)?;
        return Ok((Some(of), rest));
    }
    Ok((None, tokens))
}
