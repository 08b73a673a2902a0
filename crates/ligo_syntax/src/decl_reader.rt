//! Reading of declarations.

ghost use Rattle.std.specs.Prelude.{◌≡◌, ◌≤◌, ◌∷◌, [], ◌-◌, IfOk, Ok, length, map, take, drop};
ghost use Rattle.ligo_tokens.specs.declared.token.Kind.TheVariants as kind;
ghost use Rattle.ligo_tokens.specs.declared.token.Token.{Token};
ghost use Rattle.ligo_syntax.specs.declared.fault.Expected.TheVariants as expected;
ghost use Rattle.ligo_syntax.specs.Classes.{attribute_kinds, decl_firsts};
ghost use Rattle.ligo_syntax.specs.Kinds.{has, next};
ghost use Rattle.ligo_syntax.specs.ProgramTrees.{attribute_of, first_of};
ghost use Rattle.ligo_syntax.specs.Readers.{repeated, too_deep_at};
ghost use Rattle.ligo_syntax.specs.Phrases.{Gives};
ghost use Rattle.ligo_syntax.specs.TypeReading.{token};
ghost use Rattle.ligo_syntax.specs.Reading.{type_decl_rule, value_decl_rule, decl_at, decls_at};

use crate::definition_reader::read_definition;
use crate::fault::{Expected, Stop};
use crate::leaf_reader::maybe;
use crate::level::Level;
use crate::level_reader::read_level;
use crate::param_reader::read_params;
use crate::program::{Attribute, Decl, TypeDecl, ValueDecl};
use crate::tokens::{at, name_of, name_token, token, too_deep};
use crate::type_reader::read_annotation;
use ligo_tokens::{Kind, Token};
use sqlite_items::Items;
use std::alloc::{AllocError, Global};

/// Declarations, one after another, each at most so deep.
pub(crate) fn read_decls(
    alloc: Global,
    depth: u32,
    tokens: &[Token],
) -> Result<(Items<Decl>, &[Token]), Stop>
    ensures { Gives (λ x. (x.0, x.1.now)) result (decls_at depth tokens.now) }
{
    let mut items = Items::new(alloc);
    let mut rest = tokens;
    for _ in 0..tokens.len() {
        if !at_decl(rest) {
            return Ok((items, rest));
        }
        let (item, after) = read_decl(alloc, depth, rest)?;
        items.push(item)?;
        rest = after;
    }
    Ok((items, rest))
}

fn at_decl(tokens: &[Token]) -> bool
    ensures { result ≡ has decl_firsts (next tokens.now) }
{
    at(&[Kind::Type, Kind::Entry, Kind::Inline, Kind::Let], tokens)
}

fn no_depth(tokens: &[Token]) -> Stop
    ensures { result ≡ too_deep_at expected.Declaration decl_firsts tokens.now }
{
    too_deep(
        Expected::Declaration,
        &[Kind::Type, Kind::Entry, Kind::Inline, Kind::Let],
        tokens,
    )
}

fn read_decl(alloc: Global, depth: u32, tokens: &[Token]) -> Result<(Decl, &[Token]), Stop>
    ensures { Gives (λ x. (x.0, x.1.now)) result (decl_at depth tokens.now) }
{
    if depth == 0 {
        return Err(no_depth(tokens));
    }
    if at(&[Kind::Type], tokens) {
        return type_decl(alloc, depth - 1, tokens);
    }
    value_decl(alloc, depth - 1, tokens)
}

/// The declaration of a type, with parts at most so deep.
fn type_decl(alloc: Global, depth: u32, tokens: &[Token]) -> Result<(Decl, &[Token]), Stop>
    ensures { Gives (λ x. (x.0, x.1.now)) result (type_decl_rule depth tokens.now) }
{
    let (first, rest) = token(Expected::Token, &[Kind::Type], tokens)?;
    let (word, rest) = name_token(Expected::Token, rest)?;
    let (_, rest) = token(Expected::Token, &[Kind::Equals], rest)?;
    let (definition, rest) = read_definition(alloc, depth, rest)?;
    let name = name_of(alloc, word)?;
    let at = first.at;
    Ok((
        Decl::Type(TypeDecl {
            at,
            name,
            definition,
        }),
        rest,
    ))
}

/// The declaration of a value, with parts at most so deep.
fn value_decl(alloc: Global, depth: u32, tokens: &[Token]) -> Result<(Decl, &[Token]), Stop>
    ensures { Gives (λ x. (x.0, x.1.now)) result (value_decl_rule depth tokens.now) }
{
    let (marks, rest) = read_marks(tokens);
    let (first, rest) = token(Expected::Token, &[Kind::Let], rest)?;
    let (again, rest) = maybe(Kind::Rec, rest)?;
    let (word, rest) = name_token(Expected::Token, rest)?;
    let (params, rest) = read_params(alloc, depth, rest)?;
    let (result, rest) = read_annotation(alloc, depth, rest)?;
    let (_, rest) = token(Expected::Token, &[Kind::Equals], rest)?;
    let (body, rest) = read_level(alloc, depth, Level::Whole, rest)?;
    let attributes = attributes(alloc, marks)?;
    let name = name_of(alloc, word)?;
    Ok((
        Decl::Value(ValueDecl {
            at: first_of(marks, first),
            attributes,
            recursive: again.is_some(),
            name,
            params,
            result,
            body,
        }),
        rest,
    ))
}

/// The marks before a declaration, and what stands behind them.
fn read_marks(tokens: &[Token]) -> (&[Token], &[Token])
    ensures { repeated attribute_kinds (token attribute_kinds) tokens.now
        ≡ Ok (result.0.now, result.1.now) }
{
    tokens.split_at(count_marks(tokens))
}

/// How many marks stand in front.
fn count_marks(tokens: &[Token]) -> usize
    ensures within { result ≤ length tokens.now }
    ensures read { repeated attribute_kinds (token attribute_kinds) tokens.now
        ≡ Ok (take result tokens.now, drop result tokens.now) }
{
    let mut count = 0;
    while count < tokens.len() {
        if !at(&[Kind::Entry, Kind::Inline], &tokens[count..]) {
            return count;
        }
        count += 1;
    }
    count
}

/// Where a declaration begins.
fn first_of(marks: &[Token], word: &Token) -> u32
    ensures { result ≡ first_of marks.now word.now }
{
    match marks.first() {
        None => word.at,
        Some(mark) => mark.at,
    }
}

fn attributes(alloc: Global, marks: &[Token]) -> Result<Items<Attribute>, AllocError>
    ensures { IfOk result (λ all. all ≡ map (λ (m : Token). attribute_of m.kind) marks.now) }
{
    let mut all = Items::new(alloc);
    for mark in marks {
        all.push(attribute_of(mark.kind))?;
    }
    Ok(all)
}

fn attribute_of(kind: Kind) -> Attribute
    ensures { result ≡ attribute_of kind }
{
    match kind {
        Kind::Entry => Attribute::Entry,
        _ => Attribute::Inline,
    }
}
