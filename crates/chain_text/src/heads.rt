//! The first lines of a text: the level, and the time; and whether all of it is ASCII.

ghost use Rattle.std.specs.Prelude.{◌≡◌, ◌+◌, ◌<◌, ◌≤◌, ◌^◌, length, IfOk, OnOk};
ghost use Rattle.chain_text.specs.Heads.{all_ascii, head_line, head_number};
ghost use Rattle.chain_text.specs.Inside.{Answers, behind, left_groups};
ghost use Rattle.chain_text.specs.Lines.{lines_of};

use crate::fault::{ChainFault, ChainKind};
use crate::groups::next_group;
use crate::lines::Lines;
use crate::words::Words;

/// Nothing, where each byte is ASCII; else the first line with another byte is at fault.
pub(crate) fn all_ascii(text: &[u8]) -> Result<(), ChainFault>
    requires { length text.now + 1 < 2 ^ 32 }
    ensures { result ≡ all_ascii 1 (lines_of text.now) }
{
    let mut lines = Lines::new(text);
    while let Some(line) = lines.next() {
        if !line.bytes.is_ascii() {
            return Err(ChainFault {
                line: line.number,
                kind: ChainKind::BadWord,
            });
        }
    }
    Ok(())
}

/// The number of one of the first two lines, which has this word.
pub(crate) fn head_number(name: &[u8], most: u64, lines: &mut Lines<'_>) -> Result<u64, ChainFault>
    ensures read { Answers (λ n. (n, left_groups lines.new)) result
        (head_number name.now most (behind lines.old) (left_groups lines.old)) }
    ensures behind { OnOk result (behind lines.new ≡ behind lines.old) }
    ensures within { IfOk result (λ n. n ≤ most) }
{
    let Some(group) = next_group(lines) else {
        return Err(ChainFault {
            line: lines.number(),
            kind: ChainKind::Missing,
        });
    };
    match head_line(name, most, group.bytes) {
        Ok(number) => Ok(number),
        Err(kind) => Err(ChainFault {
            line: group.line,
            kind,
        }),
    }
}

/// The number of a line of this word and a number that is at most so great.
fn head_line(name: &[u8], most: u64, line: &[u8]) -> Result<u64, ChainKind>
    ensures read { result ≡ head_line name.now most line.now }
    ensures within { IfOk result (λ n. n ≤ most) }
{
    let mut words = Words::new(line);
    let word = words.word()?;
    if word != name {
        return Err(ChainKind::Missing);
    }
    let number = words.number(most)?;
    words.end()?;
    Ok(number)
}
