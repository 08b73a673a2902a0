//! Strings in quotes.

ghost use Rattle.std.specs.Prelude.{◌≡◌, ◌≤◌, false, length, drop, IfOk};
ghost use Rattle.micheline_text.specs.Lexing.{text_at, text_by};
ghost use Rattle.micheline_text.specs.Literals.{part_at, quoted};

use crate::NoMemory;
use crate::slices::rest_from;
use crate::token::Token;
use std::alloc::Global;
use value_core::Text;

/// What a byte of a string says.
#[derive(Clone, Copy, Debug, PartialEq, Eq)]
pub(crate) enum Part {
    Byte(u8),
    Escape,
    End,
    Wrong,
}

/// How a string ends: by its quote, with the bytes, or before a byte that stands in no string.
#[derive(Clone, Copy, Debug, PartialEq, Eq)]
pub enum Ending {
    /// Its quote stands.
    Closed,
    /// The bytes end before its quote.
    Open,
    /// A byte that no string has, or an escape that is none of the three.
    Wrong,
}

fn part_at(escaped: bool, b: u8) -> Part
    ensures { result ≡ part_at escaped b }
{
    if escaped {
        return match b {
            b'n' => Part::Byte(b'\n'),
            b'"' | b'\\' => Part::Byte(b),
            _ => Part::Wrong,
        };
    }
    match b {
        b'"' => Part::End,
        b'\\' => Part::Escape,
        b' '..=b'~' => Part::Byte(b),
        _ => Part::Wrong,
    }
}

/// What a string says behind its quote, how many bytes it takes, and how it ends.
pub fn quoted(alloc: Global, bytes: &[u8]) -> Result<(Vec<u8>, usize, Ending), NoMemory>
    ensures said { IfOk result (λ x. (x.0.items, x.1, x.2) ≡ quoted false bytes.now) }
    ensures within { IfOk result (λ x. x.1 ≤ length bytes.now) }
{
    let mut text = Vec::new(alloc);
    let mut escaped = false;
    for (i, b) in bytes.iter().enumerate() {
        match part_at(escaped, *b) {
            Part::Byte(said) => {
                text.push(said)?;
                escaped = false;
            }
            Part::Escape => escaped = true,
            Part::End => return Ok((text, i + 1, Ending::Closed)),
            Part::Wrong => return Ok((text, i, Ending::Wrong)),
        }
    }
    // A string that ends behind a `\` says one byte more, whatever it is.
    if escaped {
        text.push(b'\n')?;
    }
    Ok((text, bytes.len(), Ending::Open))
}

fn text_by(ending: Ending, text: Vec<u8>) -> Token
    ensures { result ≡ text_by ending text.items }
{
    match (ending, Text::new(text)) {
        (Ending::Closed, Some(text)) => Token::Text(text),
        (Ending::Open, Some(_)) => Token::OpenText,
        _ => Token::Faulty,
    }
}

/// The string whose quote is the first byte, and how many bytes it takes.
pub(crate) fn text_at(alloc: Global, bytes: &[u8]) -> Result<(Token, usize), NoMemory>
    requires { 1 ≤ length bytes.now }
    ensures token { IfOk result (λ x. x ≡ text_at bytes.now) }
    ensures within { IfOk result (λ x. (1 ≤ x.1) × (x.1 ≤ length bytes.now)) }
{
    let (text, taken, ending) = quoted(alloc, rest_from(bytes, 1))?;
    Ok((text_by(ending, text), 1 + taken))
}
