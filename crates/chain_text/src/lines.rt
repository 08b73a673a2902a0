//! The lines of a text with their numbers.

ghost use Rattle.std.specs.Prelude.{◌≡◌, ◌≢◌, ◌+◌, ◌∷◌, ◌<◌, ◌≤◌, ◌^◌, [], drop, length, MatchOption, IfSome, IfNone};
ghost use Rattle.std.specs.List.{prefix_len};
ghost use Rattle.chain_text.specs.Inside.{IsParted, behind, left_lines};
ghost use Rattle.chain_text.specs.Lines.{is_inside, lines_of};

use std::marker::Model;

/// A line with its number, counted from 1.
#[derive(Clone, Copy, Drop)]
pub(crate) struct Line<'a> {
    pub(crate) number: u32,
    pub(crate) bytes: &'a [u8],
    ghost short: { length bytes.now < 2 ^ 32 },
}

/// The lines that are left of a text.
#[derive(Drop)]
pub(crate) struct Lines<'a> {
    rest: &'a [u8],
    number: u32,
}

impl<'a> Model for Lines<'a> {
    ghost use Rattle.std.specs.Prelude.{ℕ, ◌+◌, ◌<◌, ◌^◌, List, length, refl};
    ghost use Rattle.std.specs.Coded.{code_by, coded×, coded_ℕ, coded_list};
    ghost use Rattle.chain_text.specs.Inside.{Left};

    ghost Value = { Left };

    ghost coded = { code_by (ℕ × List ℕ) (coded× coded_ℕ (coded_list coded_ℕ))
        (λ s. (s.number, s.rest)) (λ p. record { number = p.0; rest = p.1 }) (λ _. refl) };

    ghost view = { λ s. record { number = s.number; rest = s.rest.now } };

    // So each line has a number, and the one behind the last.
    ghost invariant = { λ s. s.number + length s.rest.now < 2 ^ 32 };
}

impl<'a> Lines<'a> {
    /// All lines of a text.
    pub(crate) fn new(text: &'a [u8]) -> Lines<'a>
        requires { length text.now + 1 < 2 ^ 32 }
        ensures { result ≡ record { number = 1; rest = text.now } }
    {
        Lines {
            rest: text,
            number: 1,
        }
    }

    /// The number of the next line, or of the one behind the last.
    pub(crate) fn number(&self) -> u32
        ensures { result ≡ self.now.number }
    {
        self.number
    }

    /// The bytes of all lines that are left.
    pub(crate) fn rest(&self) -> &'a [u8]
        ensures rest { result.now ≡ self.now.rest }
        ensures short { length result.now < 2 ^ 32 }
    {
        self.rest
    }

    /// The next line, which is left no more.
    pub(crate) fn next(&mut self) -> Option<Line<'a>>
        ensures next { MatchOption result (self.old.rest ≡ [])
            (λ line. left_lines self.old ≡ line.bytes.now ∷ left_lines self.new) }
        ensures number { IfSome result (λ line. line.number ≡ self.old.number) }
        ensures next_number { IfSome result (λ line. self.new.number ≡ self.old.number + 1) }
        ensures behind { behind self.new ≡ behind self.old }
        ensures parted { IfSome result (λ line. IsParted self.old.rest line.bytes.now self.new.rest) }
        ensures shorter { IfSome result (λ line. length self.new.rest < length self.old.rest) }
        ensures last { IfNone result (self.new ≡ self.old) }
    {
        if self.rest.is_empty() {
            return None;
        }
        let (bytes, rest) = cut(self.rest);
        let number = self.number;
        self.rest = rest;
        self.number = number + 1;
        Some(Line { number, bytes })
    }
}

/// The first line of a text, and the text behind it.
fn cut(text: &[u8]) -> (&[u8], &[u8])
    requires { text.now ≢ [] }
    ensures lines { lines_of text.now ≡ result.0.now ∷ lines_of result.1.now }
    ensures parted { IsParted text.now result.0.now result.1.now }
    ensures within { length result.0.now ≤ length text.now }
{
    let (line, rest) = text.split_at(length_of_first(text));
    (line, behind_newline(rest))
}

/// What stands behind a newline, or behind nothing at the end.
fn behind_newline(rest: &[u8]) -> &[u8]
    ensures { result.now ≡ drop 1 rest.now }
{
    match rest.split_first() {
        Some((_, others)) => others,
        None => rest,
    }
}

/// How many bytes stand before the first newline, or before the end.
fn length_of_first(text: &[u8]) -> usize
    ensures count { result ≡ prefix_len is_inside text.now }
    ensures within { result ≤ length text.now }
{
    for (i, byte) in text.iter().enumerate() {
        if *byte == b'\n' {
            return i;
        }
    }
    text.len()
}
