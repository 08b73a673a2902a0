//! Reading of the patterns of arms.

ghost use Rattle.std.specs.Prelude.{◌≡◌, ◌∷◌, [], ◌<◌, ◌≤◌, ◌+◌, ◌-◌, ◌^◌, IfOk};
ghost use Rattle.ligo_tokens.specs.declared.token.Kind.TheVariants as kind;
ghost use Rattle.ligo_syntax.specs.declared.fault.Expected.TheVariants as expected;
ghost use Rattle.ligo_syntax.specs.Classes.{arm_firsts, name_kinds, pattern_firsts};
ghost use Rattle.ligo_syntax.specs.Depth.{arm_pattern_depth, if_there, pattern_depth};
ghost use Rattle.ligo_syntax.specs.Readers.{both, made, one_of, too_deep_at};
ghost use Rattle.ligo_syntax.specs.Phrases.{Gives, from, key, optional};
ghost use Rattle.ligo_syntax.specs.TypeReading.{token, arm_pattern_at, arm_pattern_rule, pattern_at, Single};
ghost use Rattle.ligo_syntax.specs.ExprTrees.{any_arm, cons_arm, constructor_arm, nil_arm};

use crate::expr::{ArmForm, ArmPattern};
use crate::fault::{Expected, Stop};
use crate::pattern::Pattern;
use crate::pattern_reader::{at_pattern, read_single};
use crate::tokens::{at, name_of, name_token, token, too_deep, word_of};
use ligo_tokens::{Kind, Token};
use std::alloc::Global;

/// The pattern of an arm, at most so deep.
pub(crate) fn read_arm_pattern(
    alloc: Global,
    depth: u32,
    tokens: &[Token],
) -> Result<(ArmPattern, &[Token]), Stop>
    ensures read { Gives (λ x. (x.0, x.1.now)) result (arm_pattern_at depth tokens.now) }
    ensures within { IfOk result (λ x. arm_pattern_depth x.0 ≤ depth) }
{
    if depth == 0 {
        return Err(no_arm_depth(tokens));
    }
    arm_pattern(alloc, depth - 1, tokens)
}

/// Why reading stops where no depth is left for an arm.
pub(crate) fn no_arm_depth(tokens: &[Token]) -> Stop
    ensures { result ≡ too_deep_at expected.Pattern arm_firsts tokens.now }
{
    too_deep(
        Expected::Pattern,
        &[
            Kind::Underscore,
            Kind::OpenSquare,
            Kind::Upper,
            Kind::Name,
            Kind::List,
            Kind::Option,
            Kind::Contract,
            Kind::Map,
            Kind::BigMap,
        ],
        tokens,
    )
}

fn arm_pattern(alloc: Global, depth: u32, tokens: &[Token]) -> Result<(ArmPattern, &[Token]), Stop>
    ensures read { Gives (λ x. (x.0, x.1.now)) result
        (arm_pattern_rule (pattern_at depth Single) tokens.now) }
    ensures within { IfOk result (λ x. arm_pattern_depth x.0 ≤ depth + 1) }
{
    if at(&[Kind::Underscore], tokens) {
        return read_any(tokens);
    }
    if at(&[Kind::OpenSquare], tokens) {
        return read_nil(tokens);
    }
    if at(&[Kind::Upper], tokens) {
        return read_constructor(alloc, depth, tokens);
    }
    read_cons(alloc, tokens)
}

/// `_`
fn read_any(tokens: &[Token]) -> Result<(ArmPattern, &[Token]), Stop>
    ensures read { Gives (λ x. (x.0, x.1.now)) result
        (made any_arm (token (kind.Underscore ∷ [])) tokens.now) }
    ensures within { IfOk result (λ x. arm_pattern_depth x.0 ≤ 1) }
{
    let (any, rest) = token(Expected::Token, &[Kind::Underscore], tokens)?;
    let pattern = ArmPattern {
        at: any.at,
        form: ArmForm::Any,
    };
    Ok((pattern, rest))
}

/// `[]`
fn read_nil(tokens: &[Token]) -> Result<(ArmPattern, &[Token]), Stop>
    ensures read { Gives (λ x. (x.0, x.1.now)) result
        (made nil_arm (from kind.OpenSquare (token (kind.CloseSquare ∷ []))) tokens.now) }
    ensures within { IfOk result (λ x. arm_pattern_depth x.0 ≤ 1) }
{
    let (open, rest) = token(Expected::Token, &[Kind::OpenSquare], tokens)?;
    let (_, rest) = token(Expected::Token, &[Kind::CloseSquare], rest)?;
    let pattern = ArmPattern {
        at: open.at,
        form: ArmForm::Nil,
    };
    Ok((pattern, rest))
}

/// A constructor, and the pattern of its part if one begins there.
fn read_constructor(
    alloc: Global,
    depth: u32,
    tokens: &[Token],
) -> Result<(ArmPattern, &[Token]), Stop>
    ensures read { Gives (λ x. (x.0, x.1.now)) result
        (made constructor_arm (both (token (kind.Upper ∷ []))
        (optional pattern_firsts (pattern_at depth Single))) tokens.now) }
    ensures within { IfOk result (λ x. arm_pattern_depth x.0 ≤ depth + 1) }
{
    let (name, rest) = token(Expected::Token, &[Kind::Upper], tokens)?;
    let (part, rest) = read_part(alloc, depth, rest)?;
    let word = word_of(alloc, name)?;
    let pattern = ArmPattern {
        at: name.at,
        form: ArmForm::Constructor(word, part),
    };
    Ok((pattern, rest))
}

/// The pattern of a constructor's part, if one begins here.
fn read_part(
    alloc: Global,
    depth: u32,
    tokens: &[Token],
) -> Result<(Option<Pattern>, &[Token]), Stop>
    ensures read { Gives (λ x. (x.0, x.1.now)) result
        (optional pattern_firsts (pattern_at depth Single) tokens.now) }
    ensures within { IfOk result (λ x. if_there pattern_depth x.0 ≤ depth) }
{
    if at_pattern(tokens) {
        let (part, rest) = read_single(alloc, depth, tokens)?;
        return Ok((Some(part), rest));
    }
    Ok((None, tokens))
}

/// `h :: t`
fn read_cons(alloc: Global, tokens: &[Token]) -> Result<(ArmPattern, &[Token]), Stop>
    ensures read { Gives (λ x. (x.0, x.1.now)) result
        (made cons_arm (both (one_of expected.Pattern name_kinds)
        (key kind.Cons (token name_kinds))) tokens.now) }
    ensures within { IfOk result (λ x. arm_pattern_depth x.0 ≤ 1) }
{
    let (head, rest) = name_token(Expected::Pattern, tokens)?;
    let (_, rest) = token(Expected::Token, &[Kind::Cons], rest)?;
    let (tail, rest) = name_token(Expected::Token, rest)?;
    let at = head.at;
    let head = name_of(alloc, head)?;
    let tail = name_of(alloc, tail)?;
    let pattern = ArmPattern {
        at,
        form: ArmForm::Cons(head, tail),
    };
    Ok((pattern, rest))
}
