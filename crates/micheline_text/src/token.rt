//! The tokens of a text, and what may stand in the place of one.

use sqlite_items::Items;
use value_core::{Blob, Num, Text};

/// What stands between two gaps.
#[derive(Debug, Drop)]
pub enum Token {
    /// A numeral within 2^127 - 1 on either side of 0.
    Number(Num),
    /// A string.
    Text(Text),
    /// A byte literal.
    Bytes(Blob),
    /// A word.
    Word(Items<u8>),
    /// An annotation, with its first character.
    Note(Items<u8>),
    /// `{`
    OpenBrace,
    /// `}`
    CloseBrace,
    /// `(`
    OpenParen,
    /// `)`
    CloseParen,
    /// `;`
    Semicolon,

    /// No token: a numeral beyond the numbers.
    Wide,
    /// No token: a string without an end, in which nothing is faulty.
    OpenText,
    /// No token: a comment without an end.
    OpenComment,
    /// No token: bytes that spell none.
    Faulty,
}
