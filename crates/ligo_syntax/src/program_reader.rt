//! Reading of whole texts, and what is told of them.

ghost use Rattle.std.specs.Prelude.{◌≡◌, ◌≤◌, ◌<◌, ◌^◌, ◌+◌, IfOk, length, take, drop, IsTrue, ◌==◌};
ghost use Rattle.micheline_text.specs.Told.{AnswersUnlessFull};
ghost use Rattle.ligo_syntax.specs.declared.fault.Stop.TheVariants as stop;
ghost use Rattle.ligo_syntax.specs.Faults.{place_of, smaller, least_says};
ghost use Rattle.ligo_syntax.specs.Kinds.{next};
ghost use Rattle.ligo_syntax.specs.Phrases.{stopped};
ghost use Rattle.ligo_syntax.specs.Verdict.{most_deep, decls_of, goes_past, kind_at, fault_of, verdict, told_fault};

use crate::decl_reader::read_decls;
use crate::fault::{Expected, Stop, SyntaxFault, SyntaxRefusal};
use crate::program::{Decl, Program};
use crate::tokens::{PAST_RANGE, next_sort};
use ligo_tokens::{Kind, Says, Token, tokens};
use sqlite_items::{Boxed, Items};
use std::alloc::{AllocError, Global};
use value_core::Num;

/// What is told of a text.
pub(crate) fn read_text(alloc: Global, b: &[u8]) -> Result<Program, SyntaxRefusal>
    requires { length b.now < 2 ^ 32 }
    ensures { AnswersUnlessFull told_fault (λ p. p) result (verdict b.now) }
{
    let found = tokens(alloc, b)?;
    match all_decls(alloc, found.as_slice()) {
        Ok(decls) => Ok(Program {
            decls,
            end: b.len() as u32,
        }),
        Err(Stop::Unexpected(expected, left)) => Err(SyntaxRefusal::Fault(unexpected(
            alloc,
            b.len(),
            found,
            expected,
            left,
        )?)),
        Err(Stop::TooDeep(left)) => Err(SyntaxRefusal::Fault(too_deep(
            b.len(),
            found.as_slice(),
            left,
        ))),
        Err(Stop::NoMemory) => Err(SyntaxRefusal::NoMemory),
    }
}

/// All declarations of a text, with nothing left.
fn all_decls(alloc: Global, tokens: &[Token]) -> Result<Items<Decl>, Stop>
    ensures { AnswersUnlessFull stopped (λ ds. ds) result (decls_of tokens.now) }
{
    let (decls, rest) = read_decls(alloc, most_deep(), tokens)?;
    if rest.is_empty() {
        Ok(decls)
    } else {
        Err(Stop::Unexpected(Expected::Token, rest.len()))
    }
}

/// How deep the declarations of a program may be.
fn most_deep() -> u32
    ensures { result ≡ most_deep }
{
    511
}

/// The fault where reading stopped with so many tokens left.
fn unexpected(
    alloc: Global,
    end: usize,
    tokens: Items<Token>,
    expected: Expected,
    left: usize,
) -> Result<SyntaxFault, AllocError>
    ensures { IfOk result (λ f. f ≡ fault_of end tokens (stop.Unexpected expected left)) }
{
    let front = tokens.len().saturating_sub(left);
    let at = place_of(end, &tokens.as_slice()[front..]);
    let expected = kind_at(alloc, expected, tokens, front)?;
    Ok(SyntaxFault { at, expected })
}

/// The fault where it got too deep with so many tokens left.
fn too_deep(end: usize, tokens: &[Token], left: usize) -> SyntaxFault
    ensures { result ≡ fault_of end tokens.now (stop.TooDeep left) }
{
    let front = tokens.len().saturating_sub(left);
    let at = place_of(end, &tokens[front..]);
    let expected = Expected::TooDeep;
    SyntaxFault { at, expected }
}

/// The offset of the next token, or of the end.
fn place_of(end: usize, tokens: &[Token]) -> usize
    ensures { result ≡ place_of end tokens.now }
{
    match tokens.first() {
        None => end,
        Some(token) => token.at as usize,
    }
}

/// What is told behind so many tokens: where a numeral past its range stands there, and with a
/// smaller one reading goes past it, that.
fn kind_at(
    alloc: Global,
    expected: Expected,
    tokens: Items<Token>,
    front: usize,
) -> Result<Expected, AllocError>
    requires { front ≤ length tokens }
    ensures { IfOk result (λ k. k ≡ kind_at expected (take front tokens) (drop front tokens)) }
{
    if next_sort(&tokens.as_slice()[front..]) != PAST_RANGE {
        return Ok(expected);
    }
    kind_of_numeral(alloc, expected, tokens, front)
}

/// The same, where such a numeral stands there.
fn kind_of_numeral(
    alloc: Global,
    expected: Expected,
    tokens: Items<Token>,
    front: usize,
) -> Result<Expected, AllocError>
    requires within { front ≤ length tokens }
    requires wide { next (drop front tokens) ≡ PAST_RANGE }
    ensures { IfOk result (λ k. k ≡ kind_at expected (take front tokens) (drop front tokens)) }
{
    let mut tokens = tokens;
    let smaller = smaller(alloc, &tokens.as_slice()[front])?;
    tokens.set(front, smaller);
    if goes_past(alloc, &tokens.as_slice()[..front + 1])? {
        Ok(Expected::NumberInRange)
    } else {
        Ok(expected)
    }
}

/// The least numeral with the same suffix.
fn smaller(alloc: Global, token: &Token) -> Result<Token, AllocError>
    ensures { IfOk result (λ t. t ≡ smaller token.now) }
{
    let says = Some(Boxed::new(alloc, least_says(token.kind))?);
    Ok(Token {
        at: token.at,
        kind: token.kind,
        says,
    })
}

fn least_says(kind: Kind) -> Says
    ensures { result ≡ least_says kind }
{
    match kind {
        Kind::Tez => Says::Mutez(0),
        _ => match Num::new(0) {
            Some(zero) => Says::Number(zero),
            None => Says::Wide,
        },
    }
}

/// Whether reading these doesn't stop at the last of them.
fn goes_past(alloc: Global, tokens: &[Token]) -> Result<bool, AllocError>
    ensures { IfOk result (λ past. past ≡ goes_past (decls_of tokens.now)) }
{
    match all_decls(alloc, tokens) {
        Ok(_) => Ok(true),
        Err(Stop::Unexpected(_, left)) => Ok(left == 0),
        Err(Stop::TooDeep(_)) => Ok(true),
        Err(Stop::NoMemory) => Err(AllocError),
    }
}
