//! The fields of a line from the left.

ghost use Rattle.std.specs.Prelude.{◌≡◌, ◌≤◌, IfOk, is_none, length};
ghost use Rattle.std.specs.List.{prefix_len};
ghost use Rattle.std.specs.Option.{option_map};
ghost use Rattle.chain_text.specs.Fields.{address, end, number, word};
ghost use Rattle.chain_text.specs.Inside.{Answers};
ghost use Rattle.chain_text.specs.Lines.{is_part, is_space, next_word, unspaced};

use crate::addresses::address_of;
use crate::fault::ChainKind;
use crate::numbers::number_of;
use std::marker::Model;
use value_core::Address;

/// What is left of a line.
#[derive(Drop)]
pub(crate) struct Words<'a> {
    rest: &'a [u8],
}

impl<'a> Model for Words<'a> {
    ghost use Rattle.std.specs.Prelude.{ℕ, List};
    ghost use Rattle.std.specs.Coded.{coded_ℕ, coded_list};

    ghost Value = { List ℕ };

    ghost coded = { coded_list coded_ℕ };

    ghost view = { λ words. words.rest.now };
}

impl<'a> Words<'a> {
    /// All of a line.
    pub(crate) fn new(line: &'a [u8]) -> Words<'a>
        ensures { result ≡ line.now }
    {
        Words { rest: line }
    }

    /// What is left, without the spaces at its front.
    pub(crate) fn left(&self) -> &'a [u8]
        ensures left { result.now ≡ unspaced self.now }
        ensures within { length result.now ≤ length self.now }
    {
        unspaced(self.rest)
    }

    /// The next word, which is left no more.
    pub(crate) fn next(&mut self) -> Option<&'a [u8]>
        ensures next { option_map (λ w. (w.now, self.new)) result ≡ next_word self.old }
        ensures shorter { length self.new ≤ length self.old }
    {
        let line = unspaced(self.rest);
        if line.is_empty() {
            return None;
        }
        let (word, rest) = line.split_at(parts(line));
        self.rest = rest;
        Some(word)
    }

    /// Whether no word is left.
    pub(crate) fn is_empty(&self) -> bool
        ensures { result ≡ is_none (next_word self.now) }
    {
        unspaced(self.rest).is_empty()
    }

    /// A word.
    pub(crate) fn word(&mut self) -> Result<&'a [u8], ChainKind>
        ensures word { Answers (λ w. (w.now, self.new)) result (word self.old) }
        ensures shorter { length self.new ≤ length self.old }
    {
        self.next().ok_or(ChainKind::BadWord)
    }

    /// No word.
    pub(crate) fn end(&self) -> Result<(), ChainKind>
        ensures { result ≡ end self.now }
    {
        if !self.is_empty() {
            return Err(ChainKind::BadWord);
        }
        Ok(())
    }

    /// An address.
    pub(crate) fn address(&mut self) -> Result<Address, ChainKind>
        ensures address { Answers (λ a. (a, self.new)) result (address self.old) }
        ensures shorter { length self.new ≤ length self.old }
    {
        let word = self.word()?;
        address_of(word).ok_or(ChainKind::BadAddress)
    }

    /// A number that is at most so great.
    pub(crate) fn number(&mut self, most: u64) -> Result<u64, ChainKind>
        ensures number { Answers (λ n. (n, self.new)) result (number most self.old) }
        ensures within { IfOk result (λ n. n ≤ most) }
    {
        let word = self.word()?;
        number_of(most, word).ok_or(ChainKind::BadNumber)
    }
}

/// The line without the spaces at its front.
fn unspaced(line: &[u8]) -> &[u8]
    ensures unspaced { result.now ≡ unspaced line.now }
    ensures within { length result.now ≤ length line.now }
{
    line.split_at(spaces(line)).1
}

/// How many spaces stand in front.
fn spaces(line: &[u8]) -> usize
    ensures count { result ≡ prefix_len is_space line.now }
    ensures within { result ≤ length line.now }
{
    for (i, byte) in line.iter().enumerate() {
        if *byte != b' ' {
            return i;
        }
    }
    line.len()
}

/// How many bytes stand in front of the first space.
fn parts(line: &[u8]) -> usize
    ensures count { result ≡ prefix_len is_part line.now }
    ensures within { result ≤ length line.now }
{
    for (i, byte) in line.iter().enumerate() {
        if *byte == b' ' {
            return i;
        }
    }
    line.len()
}
