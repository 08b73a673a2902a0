//! Tokens: what stands between blanks and comments.

use sqlite_items::{Boxed, Items};
use value_core::{Blob, Num, Text};

/// What a token is.
#[derive(Clone, Copy, Debug, PartialEq, Eq)]
pub enum Kind {
    /// A lower name that isn't one of the words below.
    Name,
    /// `list`, a name too.
    List,
    /// `option`, a name too.
    Option,
    /// `contract`, a name too.
    Contract,
    /// `map`, a name too.
    Map,
    /// `big_map`, a name too.
    BigMap,
    /// An upper name.
    Upper,

    /// A number without a suffix.
    Int,
    /// A number with the suffix `n`.
    Nat,
    /// A number with the suffix `mutez` or `tez`.
    Tez,
    /// A byte literal.
    Bytes,
    /// A string.
    Text,

    /// `type`
    Type,
    /// `let`
    Let,
    /// `rec`
    Rec,
    /// `in`
    In,
    /// `match`
    Match,
    /// `with`
    With,
    /// `if`
    If,
    /// `then`
    Then,
    /// `else`
    Else,
    /// `of`
    Of,
    /// `mod`
    Mod,
    /// `_` alone
    Underscore,
    /// `[@entry]`
    Entry,
    /// `[@inline]`
    Inline,

    /// `(`
    OpenParen,
    /// `)`
    CloseParen,
    /// `[`
    OpenSquare,
    /// `]`
    CloseSquare,
    /// `{`
    OpenBrace,
    /// `}`
    CloseBrace,
    /// `:`
    Colon,
    /// `;`
    Semicolon,
    /// `,`
    Comma,
    /// `.`
    Dot,
    /// `|`
    Bar,
    /// `->`
    Arrow,

    /// `||`
    Or,
    /// `&&`
    And,
    /// `=`
    Equals,
    /// `<>`
    Differs,
    /// `<`
    Less,
    /// `>`
    Greater,
    /// `<=`
    AtMost,
    /// `>=`
    AtLeast,
    /// `^`
    Caret,
    /// `::`
    Cons,
    /// `+`
    Plus,
    /// `-`
    Minus,
    /// `*`
    Star,
    /// `/`
    Slash,

    /// No token: a byte that begins none, or a string or a comment that has no end.
    Faulty,
}

/// What a token says, beside its kind.
#[derive(Debug, Drop)]
pub enum Says {
    /// The bytes of a name.
    Word(Items<u8>),
    /// The number of a numeral.
    Number(Num),
    /// So many mutez, below 2^63.
    Mutez(u64),
    /// No number: the numeral is past its range.
    Wide,
    /// The bytes of a byte literal.
    Bytes(Blob),
    /// A string, as it is said and not as it is escaped.
    Text(Text),
}

/// A token with its place.
#[derive(Debug, Drop)]
pub struct Token {
    /// The offset of its first byte in the text.
    pub at: u32,
    /// What it is.
    pub kind: Kind,
    /// What it says: nothing where the kind says all.
    pub says: Option<Boxed<Says>>,
}
