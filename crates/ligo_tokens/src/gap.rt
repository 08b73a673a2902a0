//! What parts tokens: blanks, `//` to the end of the line, and `(* *)`, one in another.

ghost use Rattle.std.specs.Prelude.{◌≡◌, ◌≤◌, ◌<◌, ◌+◌, ◌-◌, ◌^◌, ℕ, length};
ghost use Rattle.micheline_text.specs.Gaps.{GapWithin, IsLeft};
ghost use Rattle.ligo_tokens.specs.Gaps.{gap_end, gap_from, move_at, opened, ModeWithin, MoveWithin, moved};
ghost use Rattle.ligo_tokens.specs.declared.gap.Mode.TheVariants.{Between};

use micheline_text::{Gap, is_blank};

/// What was seen of a gap. A comment that is open has so many bytes left from its first on, and so
/// many further comments are open in it.
#[derive(Clone, Copy, Debug, PartialEq, Eq)]
pub(crate) enum Mode {
    Between,
    /// Behind a `/`.
    Slash(usize),
    Line,
    /// Behind a `(`.
    Paren(usize),
    Block(usize, usize),
    /// In a comment, behind a `*`.
    Star(usize, usize),
    /// In a comment, behind a `(`.
    Inner(usize, usize),
}

/// What the next byte does.
#[derive(Clone, Copy, Debug, PartialEq, Eq)]
pub(crate) enum Move {
    On(Mode),
    /// So many bytes are left at the first byte that belongs to no gap.
    Stop(usize),
}

fn move_at(mode: Mode, left: usize, b: u8) -> Move
    requires { opened mode < 2 ^ 64 - 1 }
    ensures moved { result ≡ move_at mode left b }
    ensures opened { moved result ≤ opened mode + 1 }
    ensures within { (total : ℕ) →
        IsLeft left total → ModeWithin total mode → MoveWithin total result }
{
    match mode {
        Mode::Between if is_blank(b) => Move::On(Mode::Between),
        Mode::Between if b == b'/' => Move::On(Mode::Slash(left)),
        Mode::Between if b == b'(' => Move::On(Mode::Paren(left)),
        Mode::Between => Move::Stop(left),
        Mode::Slash(_) if b == b'/' => Move::On(Mode::Line),
        Mode::Slash(from) => Move::Stop(from),
        Mode::Line if b == b'\n' => Move::On(Mode::Between),
        Mode::Line => Move::On(Mode::Line),
        Mode::Paren(from) if b == b'*' => Move::On(Mode::Block(from, 0)),
        Mode::Paren(from) => Move::Stop(from),
        Mode::Inner(from, further) if b == b'*' => Move::On(Mode::Block(from, further + 1)),
        Mode::Star(_, 0) if b == b')' => Move::On(Mode::Between),
        Mode::Star(from, further) if b == b')' => Move::On(Mode::Block(from, further - 1)),
        Mode::Block(from, further) | Mode::Star(from, further) if b == b'*' => {
            Move::On(Mode::Star(from, further))
        }
        Mode::Block(from, further) | Mode::Star(from, further) | Mode::Inner(from, further)
            if b == b'(' => { Move::On(Mode::Inner(from, further)) }
        Mode::Block(from, further) | Mode::Star(from, further) | Mode::Inner(from, further) => {
            Move::On(Mode::Block(from, further))
        }
    }
}

fn gap_end(mode: Mode) -> Gap
    ensures gap { result ≡ gap_end mode }
    ensures within { (total : ℕ) → ModeWithin total mode → GapWithin total result }
{
    match mode {
        Mode::Between | Mode::Line => Gap::End,
        Mode::Slash(from) | Mode::Paren(from) => Gap::Token(from),
        Mode::Block(from, _) | Mode::Star(from, _) | Mode::Inner(from, _) => Gap::Comment(from),
    }
}

/// What follows the gap in front of the bytes.
pub(crate) fn skip(bytes: &[u8]) -> Gap
    ensures gap { result ≡ gap_from Between bytes.now }
    ensures within { GapWithin (length bytes.now) result }
{
    let mut mode = Mode::Between;
    for (i, b) in bytes.iter().enumerate() {
        match move_at(mode, bytes.len() - i, *b) {
            Move::On(next) => mode = next,
            Move::Stop(left) => return Gap::Token(left),
        }
    }
    gap_end(mode)
}
