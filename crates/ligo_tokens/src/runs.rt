//! Runs of bytes of one sort, and words in front.

ghost use Rattle.std.specs.Prelude.{◌≡◌, ◌≤◌, length};
ghost use Rattle.std.specs.List.{prefix_len};
ghost use Rattle.std.specs.Str.{bytes_eq};
ghost use Rattle.ligo_tokens.specs.Lexing.{begins_with, is_lower, is_name_byte, is_run, is_upper};

use micheline_text::{is_digit, is_hex, is_letter};

/// What a token may go on with.
#[derive(Clone, Copy, Debug, PartialEq, Eq)]
pub(crate) enum Run {
    Name,
    Number,
    Hex,
}

pub(crate) fn is_lower(b: u8) -> bool
    ensures { result ≡ is_lower b }
{
    (b'a' <= b && b <= b'z') || b == b'_'
}

pub(crate) fn is_upper(b: u8) -> bool
    ensures { result ≡ is_upper b }
{
    b'A' <= b && b <= b'Z'
}

fn is_name_byte(b: u8) -> bool
    ensures { result ≡ is_name_byte b }
{
    is_letter(b) || is_digit(b) || b == b'_' || b == b'\''
}

fn is_run(run: Run, b: u8) -> bool
    ensures { result ≡ is_run run b }
{
    match run {
        Run::Name => is_name_byte(b),
        Run::Number => is_digit(b) || b == b'_',
        Run::Hex => is_hex(b),
    }
}

/// How many bytes of the run stand in front.
pub(crate) fn length_of(run: Run, bytes: &[u8]) -> usize
    ensures count { result ≡ prefix_len (is_run run) bytes.now }
    ensures within { result ≤ length bytes.now }
{
    for (i, b) in bytes.iter().enumerate() {
        if !is_run(run, *b) {
            return i;
        }
    }
    bytes.len()
}

pub(crate) fn is_word(name: &[u8], word: &str) -> bool
    ensures { result ≡ bytes_eq name.now word.now }
{
    name == word.as_bytes()
}

/// Whether the word stands in front.
pub(crate) fn begins_with(bytes: &[u8], word: &str) -> bool
    ensures { result ≡ begins_with bytes.now word.now }
{
    word.len() <= bytes.len() && is_word(bytes.split_at(word.len()).0, word)
}
