//! What parts tokens: blanks, `#` to the end of the line, and `/* */`.

ghost use Rattle.std.specs.Prelude.{◌≡◌, ℕ, length};
ghost use Rattle.micheline_text.specs.Gaps.{gap_end, gap_from, move_at, GapWithin, IsLeft, ModeWithin, MoveWithin};
ghost use Rattle.micheline_text.specs.declared.gap.Mode.TheVariants.{Between};

use crate::kinds::is_blank;

/// What was seen of a gap; a comment that is open has so many bytes left from its first on.
#[derive(Clone, Copy, Debug, PartialEq, Eq)]
pub(crate) enum Mode {
    Between,
    Line,
    Slash(usize),
    Block(usize),
    Star(usize),
}

/// What the next byte does.
#[derive(Clone, Copy, Debug, PartialEq, Eq)]
pub(crate) enum Move {
    On(Mode),
    /// So many bytes are left at the first byte that belongs to no gap.
    Stop(usize),
}

/// What follows a gap.
#[derive(Clone, Copy, Debug, PartialEq, Eq)]
pub enum Gap {
    /// Nothing follows it: the text ends.
    End,
    /// So many bytes are left at the token.
    Token(usize),
    /// A comment has no end; so many bytes are left from its first on.
    Comment(usize),
}

fn move_at(mode: Mode, left: usize, b: u8) -> Move
    ensures moved { result ≡ move_at mode left b }
    ensures within { (total : ℕ) →
        IsLeft left total → ModeWithin total mode → MoveWithin total result }
{
    match mode {
        Mode::Between if is_blank(b) => Move::On(Mode::Between),
        Mode::Between if b == b'#' => Move::On(Mode::Line),
        Mode::Between if b == b'/' => Move::On(Mode::Slash(left)),
        Mode::Between => Move::Stop(left),
        Mode::Line if b == b'\n' => Move::On(Mode::Between),
        Mode::Line => Move::On(Mode::Line),
        Mode::Slash(from) if b == b'*' => Move::On(Mode::Block(from)),
        Mode::Slash(from) => Move::Stop(from),
        Mode::Block(from) | Mode::Star(from) if b == b'*' => Move::On(Mode::Star(from)),
        Mode::Star(_) if b == b'/' => Move::On(Mode::Between),
        Mode::Block(from) | Mode::Star(from) => Move::On(Mode::Block(from)),
    }
}

fn gap_end(mode: Mode) -> Gap
    ensures gap { result ≡ gap_end mode }
    ensures within { (total : ℕ) → ModeWithin total mode → GapWithin total result }
{
    match mode {
        Mode::Between | Mode::Line => Gap::End,
        Mode::Slash(from) => Gap::Token(from),
        Mode::Block(from) | Mode::Star(from) => Gap::Comment(from),
    }
}

/// What follows the gap in front of the bytes.
pub(crate) fn skip(bytes: &[u8]) -> Gap
    ensures gap { result ≡ gap_from Between bytes.now }
    ensures within { GapWithin (length bytes.now) result }
{
    let mut mode = Mode::Between;
    for (i, b) in bytes.iter().enumerate() {
        match move_at(mode, bytes.len() - i, *b) {
            Move::On(next) => mode = next,
            Move::Stop(left) => return Gap::Token(left),
        }
    }
    gap_end(mode)
}
