//! Patterns: without brackets, and whether they fit a type.

ghost use Rattle.std.specs.Prelude.{◌≡◌, IfOk, map, slice_get};
ghost use Rattle.ligo_typer.specs.Patterns.{each_of, misfit_parts, misfits, typed_pattern};
ghost use Rattle.ligo_typer.specs.Views.{tuple_parts};

use crate::fault::{LigoFault, LigoKind};
use crate::source_type::SrcTy;
use crate::typed_pattern::TypedPattern;
use ligo_syntax::{Pattern, PatternForm};
use sqlite_items::Items;
use std::alloc::Global;
use value_core::NoMemory;

/// The pattern without its brackets.
#[cycle(patterns)]
pub fn typed_pattern(alloc: Global, p: &Pattern) -> Result<TypedPattern, NoMemory>
    ensures { IfOk result (λ t. t ≡ typed_pattern p.now) }
{
    match p.form.get() {
        PatternForm::Name(word) => {
            Ok(TypedPattern::Name(Items::from_slice(alloc, word.as_slice())?))
        }
        PatternForm::Any => Ok(TypedPattern::Any),
        PatternForm::Brackets(inner) => typed_pattern(alloc, inner),
        PatternForm::Tuple(parts) => {
            Ok(TypedPattern::Tuple(typed_patterns(alloc, parts.as_slice())?))
        }
    }
}

#[cycle(patterns)]
fn typed_patterns(alloc: Global, parts: &[Pattern]) -> Result<Items<TypedPattern>, NoMemory>
    ensures { IfOk result (λ made. made ≡ map typed_pattern parts.now) }
{
    let mut made = Items::new(alloc);
    for part in parts {
        made.push(typed_pattern(alloc, part)?)?;
    }
    Ok(made)
}

/// The first tuple of a pattern that meets no tuple of as many parts.
#[cycle(misfitting)]
pub fn misfit(p: &Pattern, t: &SrcTy) -> Option<LigoFault>
    ensures { result ≡ slice_get (misfits p.now t.now) 0 }
{
    match p.form.get() {
        PatternForm::Name(_) | PatternForm::Any => None,
        PatternForm::Brackets(inner) => misfit(inner, t),
        PatternForm::Tuple(parts) => tuple_misfit(p.at, parts.as_slice(), t),
    }
}

#[cycle(misfitting)]
fn tuple_misfit(at: u32, parts: &[Pattern], t: &SrcTy) -> Option<LigoFault>
    ensures { result ≡ slice_get (misfit_parts at (map misfits parts.now) (tuple_parts t.now)) 0 }
{
    match t {
        SrcTy::Tuple(types) if parts.len() == types.as_slice().len() => {
            part_misfit(parts, types.as_slice())
        }
        _ => Some(LigoFault {
            at: at as usize,
            kind: LigoKind::Mismatch,
        }),
    }
}

#[cycle(misfitting)]
fn part_misfit(parts: &[Pattern], types: &[SrcTy]) -> Option<LigoFault>
    ensures { result ≡ slice_get (each_of (map misfits parts.now) types.now) 0 }
{
    for i in 0..parts.len() {
        if i >= types.len() {
            return None;
        }
        if let Some(fault) = misfit(&parts[i], &types[i]) {
            return Some(fault);
        }
    }
    None
}
