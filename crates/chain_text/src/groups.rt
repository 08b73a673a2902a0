//! The lines that say something, each with the script behind it.

ghost use Rattle.std.specs.Prelude.{◌≡◌, ◌+◌, ◌<◌, ◌≤◌, ◌^◌, ◌∷◌, [], codes, false, length, IfSome, MatchOption};
ghost use Rattle.std.specs.Option.{option_copied};
ghost use Rattle.chain_text.specs.Groups.{begins_with, grouped, is_end, is_skipped};
ghost use Rattle.chain_text.specs.Inside.{Closes, behind, left_groups, left_lines};

use crate::lines::{Line, Lines};
use crate::words::Words;
use std::marker::Model;

/// A line with its number, and the text of the script between it and a line `end`.
#[derive(Drop)]
pub(crate) struct Group<'a> {
    pub(crate) line: u32,
    pub(crate) bytes: &'a [u8],
    pub(crate) script: Option<&'a [u8]>,
}

impl<'a> Model for Group<'a> {
    ghost use Rattle.std.specs.Prelude.{ℕ, ◌<◌, ◌^◌, IfSome, List, Option, length, refl};
    ghost use Rattle.std.specs.Option.{option_copied};
    ghost use Rattle.std.specs.Coded.{code_by, coded×, coded_ℕ, coded_list, coded_option};
    ghost use Rattle.chain_text.specs.Groups as said;

    ghost Value = { said.Group };

    ghost coded = { code_by (ℕ × (List ℕ × Option (List ℕ)))
        (coded× coded_ℕ (coded× (coded_list coded_ℕ) (coded_option (coded_list coded_ℕ))))
        (λ g. (g.line, (g.bytes, g.script)))
        (λ p. record { line = p.0; bytes = p.1.0; script = p.1.1 }) (λ _. refl) };

    ghost view = { λ g. record {
      line = g.line;
      bytes = g.bytes.now;
      script = option_copied g.script;
    } };

    // What stands in a text is shorter than a text may be.
    ghost invariant = { λ g. (length g.bytes.now < 2 ^ 32) × IfSome g.script (λ text. length text.now < 2 ^ 32) };
}

/// The next group of the lines that are left.
pub(crate) fn next_group<'a>(lines: &mut Lines<'a>) -> Option<Group<'a>>
    ensures next { MatchOption result ((left_groups lines.old ≡ []) × (behind lines.old ≡ lines.new.number))
        (λ g. left_groups lines.old ≡ g ∷ left_groups lines.new) }
    ensures behind { behind lines.new ≡ behind lines.old }
{
    while let Some(line) = lines.next() {
        if !is_skipped(line.bytes) {
            return Some(group_of(line, lines));
        }
    }
    None
}

/// The group of a line.
fn group_of<'a>(line: Line<'a>, lines: &mut Lines<'a>) -> Group<'a>
    requires says { is_skipped line.bytes.now ≡ false }
    requires next { lines.old.number ≡ line.number + 1 }
    ensures group { grouped None line.entry.number (line.entry.bytes.now ∷ left_lines lines.old) ≡ result ∷ left_groups lines.new }
    ensures behind { behind lines.new ≡ behind lines.old }
    ensures shorter { length lines.new.rest ≤ length lines.old.rest }
{
    if !begins_with_contract(line.bytes) {
        return Group {
            line: line.number,
            bytes: line.bytes,
            script: None,
        };
    }
    let script = script_in(lines);
    Group {
        line: line.number,
        bytes: line.bytes,
        script,
    }
}

/// The text of the lines up to the first that is `end`, which is passed too.
fn script_in<'a>(lines: &mut Lines<'a>) -> Option<&'a [u8]>
    ensures closes { Closes lines.old (option_copied result) lines.new }
    ensures behind { behind lines.new ≡ behind lines.old }
    ensures shorter { length lines.new.rest ≤ length lines.old.rest }
    ensures short { IfSome result (λ text. length text.now < 2 ^ 32) }
{
    let text = lines.rest();
    let mut length = 0;
    while let Some(line) = lines.next() {
        if is_end(line.bytes) {
            return Some(text.split_at(length).0);
        }
        length = text.len() - lines.rest().len();
    }
    None
}

/// Whether the line says nothing: it is a comment, or has no word.
fn is_skipped(line: &[u8]) -> bool
    ensures { result ≡ is_skipped line.now }
{
    line.first() == Some(&b'#') || Words::new(line).is_empty()
}

/// Whether the line is one of a contract.
fn begins_with_contract(line: &[u8]) -> bool
    ensures { result ≡ begins_with (codes "contract") line.now }
{
    match Words::new(line).next() {
        Some(word) => word == b"contract".as_slice(),
        None => false,
    }
}

/// Whether the line is `end`.
fn is_end(line: &[u8]) -> bool
    ensures { result ≡ is_end line.now }
{
    let mut words = Words::new(line);
    match words.next() {
        Some(word) => word == b"end".as_slice() && words.is_empty(),
        None => false,
    }
}
