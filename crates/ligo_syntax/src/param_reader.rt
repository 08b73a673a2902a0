//! Reading of params.

ghost use Rattle.std.specs.Prelude.{◌≡◌, ◌∷◌, [], ◌-◌, length};
ghost use Rattle.ligo_tokens.specs.declared.token.Kind.TheVariants as kind;
ghost use Rattle.ligo_syntax.specs.Readers.{repeated};
ghost use Rattle.ligo_syntax.specs.Phrases.{Gives};
ghost use Rattle.ligo_syntax.specs.Reading.{param_at};

use crate::fault::{Expected, Stop};
use crate::pattern_reader::read_pattern;
use crate::program::{Param, ParamForm};
use crate::tokens::{at, token, too_deep};
use crate::type_reader::read_type;
use ligo_tokens::{Kind, Token};
use sqlite_items::Items;
use std::alloc::Global;

/// Params, one behind another, each at most so deep.
pub(crate) fn read_params(
    alloc: Global,
    depth: u32,
    tokens: &[Token],
) -> Result<(Items<Param>, &[Token]), Stop>
    ensures { Gives (λ x. (x.0, x.1.now)) result
        (repeated (kind.OpenParen ∷ []) (param_at depth) tokens.now) }
{
    let mut items = Items::new(alloc);
    let mut rest = tokens;
    for _ in 0..tokens.len() {
        if !at(&[Kind::OpenParen], rest) {
            return Ok((items, rest));
        }
        let (item, after) = read_param(alloc, depth, rest)?;
        items.push(item)?;
        rest = after;
    }
    Ok((items, rest))
}

fn read_param(alloc: Global, depth: u32, tokens: &[Token]) -> Result<(Param, &[Token]), Stop>
    ensures { Gives (λ x. (x.0, x.1.now)) result (param_at depth tokens.now) }
{
    if depth == 0 {
        return Err(too_deep(Expected::Token, &[Kind::OpenParen], tokens));
    }
    let (open, rest) = token(Expected::Token, &[Kind::OpenParen], tokens)?;
    if at(&[Kind::CloseParen], rest) {
        let (_, rest) = token(Expected::Token, &[Kind::CloseParen], rest)?;
        let form = ParamForm::Unit;
        return Ok((Param { at: open.at, form }, rest));
    }
    let (pattern, rest) = read_pattern(alloc, depth - 1, rest)?;
    let (_, rest) = token(Expected::Token, &[Kind::Colon], rest)?;
    let (of, rest) = read_type(alloc, depth - 1, rest)?;
    let (_, rest) = token(Expected::Token, &[Kind::CloseParen], rest)?;
    let form = ParamForm::Typed(pattern, of);
    Ok((Param { at: open.at, form }, rest))
}
