//! The bytes of which tokens are made.

ghost use Rattle.std.specs.Prelude.{◌≡◌, ◌≤◌, length};
ghost use Rattle.std.specs.List.{prefix_len};
ghost use Rattle.micheline_text.specs.Kinds.{is_kind, is_digit, is_letter, is_word_byte, is_hex, begins_note, is_blank};

/// What a token may go on with.
#[derive(Clone, Copy, Debug, PartialEq, Eq)]
pub(crate) enum Kind {
    Digit,
    Word,
    Note,
    Hex,
}

/// 0 to 9.
pub fn is_digit(b: u8) -> bool
    ensures { result ≡ is_digit b }
{
    b.is_ascii_digit()
}

/// A to Z and a to z.
pub fn is_letter(b: u8) -> bool
    ensures { result ≡ is_letter b }
{
    (b'A' <= b && b <= b'Z') || (b'a' <= b && b <= b'z')
}

fn is_word_byte(b: u8) -> bool
    ensures { result ≡ is_word_byte b }
{
    is_letter(b) || is_digit(b) || b == b'_'
}

/// A hexadecimal digit in either case.
pub fn is_hex(b: u8) -> bool
    ensures { result ≡ is_hex b }
{
    is_digit(b) || (b'A' <= b && b <= b'F') || (b'a' <= b && b <= b'f')
}

pub(crate) fn begins_note(b: u8) -> bool
    ensures { result ≡ begins_note b }
{
    b == b'%' || b == b':' || b == b'@'
}

/// A tab, a newline, a carriage return or a blank.
pub fn is_blank(b: u8) -> bool
    ensures { result ≡ is_blank b }
{
    b == b'\t' || b == b'\n' || b == b'\r' || b == b' '
}

fn is_kind(kind: Kind, b: u8) -> bool
    ensures { result ≡ is_kind kind b }
{
    match kind {
        Kind::Digit => is_digit(b),
        Kind::Word => is_word_byte(b),
        Kind::Note => is_word_byte(b) || b == b'.' || b == b'%' || b == b'@',
        Kind::Hex => is_hex(b),
    }
}

/// How many bytes of the kind stand in front.
pub(crate) fn run_of(kind: Kind, bytes: &[u8]) -> usize
    ensures count { result ≡ prefix_len (is_kind kind) bytes.now }
    ensures within { result ≤ length bytes.now }
{
    for (i, b) in bytes.iter().enumerate() {
        if !is_kind(kind, *b) {
            return i;
        }
    }
    bytes.len()
}
