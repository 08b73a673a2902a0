//! The token in front of bytes that begin with no gap.

ghost use Rattle.std.specs.Prelude.{◌≡◌, ◌≤◌, length, slice_index, IfOk, IsTrue};
ghost use Rattle.micheline_text.specs.Kinds.{is_digit, is_letter};
ghost use Rattle.micheline_text.specs.Lexing.{begins_hex, digits_at, front_token, mark, minus_at, note_at, reach, token_at, word_at};

use crate::NoMemory;
use crate::kinds::{Kind, begins_note, is_digit, is_letter, run_of};
use crate::literals::{bytes_token, number_token};
use crate::slices::{front_of, rest_from};
use crate::text::text_at;
use crate::token::Token;
use sqlite_items::Items;
use std::alloc::Global;

fn mark(b: u8) -> Token
    ensures { result ≡ mark b }
{
    match b {
        b'{' => Token::OpenBrace,
        b'}' => Token::CloseBrace,
        b'(' => Token::OpenParen,
        b')' => Token::CloseParen,
        b';' => Token::Semicolon,
        _ => Token::Faulty,
    }
}

fn minus_at(bytes: &[u8]) -> (Token, usize)
    requires { 1 ≤ length bytes.now }
    ensures token { result ≡ minus_at bytes.now }
    ensures within { (1 ≤ result.1) × (result.1 ≤ length bytes.now) }
{
    let rest = rest_from(bytes, 1);
    let n = run_of(Kind::Digit, rest);
    if n == 0 {
        return (Token::Faulty, 1);
    }
    (number_token(true, front_of(rest, n)), 1 + n)
}

/// Whether `0x` stands in front.
pub fn begins_hex(bytes: &[u8]) -> bool
    ensures hex { result ≡ begins_hex bytes.now }
    ensures within { IsTrue result → 2 ≤ length bytes.now }
{
    bytes.len() >= 2 && bytes[0] == b'0' && bytes[1] == b'x'
}

fn digits_at(alloc: Global, bytes: &[u8]) -> Result<(Token, usize), NoMemory>
    requires first { 1 ≤ length bytes.now }
    requires digit { IsTrue (is_digit (slice_index bytes.now 0)) }
    ensures token { IfOk result (λ x. x ≡ digits_at bytes.now) }
    ensures within { IfOk result (λ x. (1 ≤ x.1) × (x.1 ≤ length bytes.now)) }
{
    if begins_hex(bytes) {
        let rest = rest_from(bytes, 2);
        let n = run_of(Kind::Hex, rest);
        return Ok((bytes_token(alloc, front_of(rest, n))?, 2 + n));
    }
    let n = run_of(Kind::Digit, bytes);
    Ok((number_token(false, front_of(bytes, n)), n))
}

fn word_at(alloc: Global, bytes: &[u8]) -> Result<(Token, usize), NoMemory>
    requires first { 1 ≤ length bytes.now }
    requires letter { IsTrue (is_letter (slice_index bytes.now 0)) }
    ensures token { IfOk result (λ x. x ≡ word_at bytes.now) }
    ensures within { IfOk result (λ x. (1 ≤ x.1) × (x.1 ≤ length bytes.now)) }
{
    let n = run_of(Kind::Word, bytes);
    let word = Items::from_slice(alloc, front_of(bytes, n))?;
    Ok((Token::Word(word), n))
}

fn note_at(alloc: Global, bytes: &[u8]) -> Result<(Token, usize), NoMemory>
    requires { 1 ≤ length bytes.now }
    ensures token { IfOk result (λ x. x ≡ note_at bytes.now) }
    ensures within { IfOk result (λ x. (1 ≤ x.1) × (x.1 ≤ length bytes.now)) }
{
    let n = 1 + run_of(Kind::Note, rest_from(bytes, 1));
    let note = Items::from_slice(alloc, front_of(bytes, n))?;
    Ok((Token::Note(note), n))
}

fn front_token(alloc: Global, bytes: &[u8]) -> Result<(Token, usize), NoMemory>
    requires { 1 ≤ length bytes.now }
    ensures token { IfOk result (λ x. x ≡ front_token bytes.now) }
    ensures within { IfOk result (λ x. (1 ≤ x.1) × (x.1 ≤ length bytes.now)) }
{
    let b = bytes[0];
    if b == b'"' {
        text_at(alloc, bytes)
    } else if b == b'-' {
        Ok(minus_at(bytes))
    } else if is_digit(b) {
        digits_at(alloc, bytes)
    } else if is_letter(b) {
        word_at(alloc, bytes)
    } else if begins_note(b) {
        note_at(alloc, bytes)
    } else {
        Ok((mark(b), 1))
    }
}

fn reach(token: &Token, taken: usize, left: usize) -> usize
    ensures reach { result ≡ reach token.now taken left }
    ensures within { (1 ≤ taken) → (taken ≤ left) → (1 ≤ result) × (result ≤ left) }
{
    match token {
        Token::Faulty => left,
        _ => taken,
    }
}

/// The token in front, and how many bytes it takes: all that are left, where it is none.
pub(crate) fn token_at(alloc: Global, bytes: &[u8]) -> Result<(Token, usize), NoMemory>
    requires { 1 ≤ length bytes.now }
    ensures token { IfOk result (λ x. x ≡ token_at bytes.now) }
    ensures within { IfOk result (λ x. (1 ≤ x.1) × (x.1 ≤ length bytes.now)) }
{
    let (token, taken) = front_token(alloc, bytes)?;
    let end = reach(&token, taken, bytes.len());
    Ok((token, end))
}
