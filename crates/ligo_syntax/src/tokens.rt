//! What stands in front.

ghost use Rattle.std.specs.Prelude.{◌≡◌, IfOk};
ghost use Rattle.ligo_syntax.specs.Classes.{name_kinds};
ghost use Rattle.ligo_syntax.specs.Kinds.{code, next, has, sort};
ghost use Rattle.ligo_syntax.specs.Readers.{one_of, too_deep_at};
ghost use Rattle.ligo_syntax.specs.Phrases.{Gives};
ghost use Rattle.ligo_syntax.specs.Said.{word_of, name_of, said_number};

use crate::fault::{Expected, Stop};
use crate::name::Name;
use ligo_tokens::{Kind, Says, Token};
use sqlite_items::Items;
use std::alloc::{AllocError, Global};
use value_core::Num;

/// The number of a numeral past its range, which is of no kind.
pub(crate) const PAST_RANGE: u8 = 64;

/// The number of a kind.
pub(crate) fn code_of(kind: Kind) -> u8
    ensures { result ≡ code kind }
{
    match kind {
        Kind::Name => 1,
        Kind::List => 2,
        Kind::Option => 3,
        Kind::Contract => 4,
        Kind::Map => 5,
        Kind::BigMap => 6,
        Kind::Upper => 7,
        Kind::Int => 8,
        Kind::Nat => 9,
        Kind::Tez => 10,
        Kind::Bytes => 11,
        Kind::Text => 12,
        Kind::Type => 13,
        Kind::Let => 14,
        Kind::Rec => 15,
        Kind::In => 16,
        Kind::Match => 17,
        Kind::With => 18,
        Kind::If => 19,
        Kind::Then => 20,
        Kind::Else => 21,
        Kind::Of => 22,
        Kind::Mod => 23,
        Kind::Underscore => 24,
        Kind::Entry => 25,
        Kind::Inline => 26,
        Kind::OpenParen => 27,
        Kind::CloseParen => 28,
        Kind::OpenSquare => 29,
        Kind::CloseSquare => 30,
        Kind::OpenBrace => 31,
        Kind::CloseBrace => 32,
        Kind::Colon => 33,
        Kind::Semicolon => 34,
        Kind::Comma => 35,
        Kind::Dot => 36,
        Kind::Bar => 37,
        Kind::Arrow => 38,
        Kind::Or => 39,
        Kind::And => 40,
        Kind::Equals => 41,
        Kind::Differs => 42,
        Kind::Less => 43,
        Kind::Greater => 44,
        Kind::AtMost => 45,
        Kind::AtLeast => 46,
        Kind::Caret => 47,
        Kind::Cons => 48,
        Kind::Plus => 49,
        Kind::Minus => 50,
        Kind::Star => 51,
        Kind::Slash => 52,
        Kind::Faulty => 53,
    }
}

/// The number of a token.
fn sort_of_token(token: &Token) -> u8
    ensures { result ≡ sort token.now }
{
    if let Some(said) = &token.says {
        if let Says::Wide = said.get() {
            return PAST_RANGE;
        }
    }
    code_of(token.kind)
}

/// The number of the token in front.
pub(crate) fn next_sort(tokens: &[Token]) -> u8
    ensures { result ≡ next tokens.now }
{
    match tokens.first() {
        None => 0,
        Some(token) => sort_of_token(token),
    }
}

/// Whether one of these kinds stands in front.
pub(crate) fn at(kinds: &[Kind], tokens: &[Token]) -> bool
    ensures { result ≡ has kinds.now (next tokens.now) }
{
    let found = next_sort(tokens);
    for kind in kinds {
        if code_of(*kind) == found {
            return true;
        }
    }
    false
}

/// A token of one of these kinds.
pub(crate) fn token<'a>(
    expected: Expected,
    kinds: &[Kind],
    tokens: &'a [Token],
) -> Result<(&'a Token, &'a [Token]), Stop>
    ensures { Gives (λ x. (x.0.now, x.1.now)) result (one_of expected kinds.now tokens.now) }
{
    match tokens.split_first() {
        None => Err(Stop::Unexpected(expected, 0)),
        Some((token, rest)) => {
            if at(kinds, tokens) {
                Ok((token, rest))
            } else {
                Err(Stop::Unexpected(expected, tokens.len()))
            }
        }
    }
}

/// Why reading stops where no depth is left for what begins with one of these kinds.
pub(crate) fn too_deep(expected: Expected, kinds: &[Kind], tokens: &[Token]) -> Stop
    ensures { result ≡ too_deep_at expected kinds.now tokens.now }
{
    if at(kinds, tokens) {
        Stop::TooDeep(tokens.len())
    } else {
        Stop::Unexpected(expected, tokens.len())
    }
}

/// Whether a lower name stands in front.
pub(crate) fn at_name(tokens: &[Token]) -> bool
    ensures { result ≡ has name_kinds (next tokens.now) }
{
    at(
        &[
            Kind::Name,
            Kind::List,
            Kind::Option,
            Kind::Contract,
            Kind::Map,
            Kind::BigMap,
        ],
        tokens,
    )
}

/// A lower name.
pub(crate) fn name_token(expected: Expected, tokens: &[Token]) -> Result<(&Token, &[Token]), Stop>
    ensures { Gives (λ x. (x.0.now, x.1.now)) result (one_of expected name_kinds tokens.now) }
{
    token(
        expected,
        &[
            Kind::Name,
            Kind::List,
            Kind::Option,
            Kind::Contract,
            Kind::Map,
            Kind::BigMap,
        ],
        tokens,
    )
}

/// The bytes of a name.
pub(crate) fn word_of(alloc: Global, token: &Token) -> Result<Items<u8>, AllocError>
    ensures { IfOk result (λ word. word ≡ word_of token.now) }
{
    if let Some(said) = &token.says {
        if let Says::Word(word) = said.get() {
            return Items::from_slice(alloc, word.as_slice());
        }
    }
    Ok(Items::new(alloc))
}

/// The name that a token is, with its place.
pub(crate) fn name_of(alloc: Global, token: &Token) -> Result<Name, AllocError>
    ensures { IfOk result (λ name. name ≡ name_of token.now) }
{
    Ok(Name {
        at: token.at,
        word: word_of(alloc, token)?,
    })
}
