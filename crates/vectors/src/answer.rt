//! What a line is answered.

use std::fmt;

#[derive(Clone, Copy, Debug, PartialEq, Eq)]
pub enum Answer {
    /// The bytes are what the case asks for.
    Ok,
    /// A value stands in front: the offset after it, and its size.
    Value(usize, u64),
    /// Where the fault is.
    At(usize),
    /// The first value is below the second.
    Less,
    /// The values are equal.
    Equal,
    /// The first value is above the second.
    Greater,
    /// So many bytes are no address.
    BadLength(usize),
    /// No address begins with this byte.
    BadFirst(u8),
    /// The bytes are not what the case asks for.
    Nothing,
    /// The line is no case.
    NoCase,
}

impl fmt::Display for Answer {
    fn fmt<W: fmt::Write>(&self, f: &mut fmt::Formatter<W>) -> fmt::Result {
        match *self {
            Answer::Ok => write!(f, "ok"),
            Answer::Value(end, size) => write!(f, "ok {end} {size}"),
            Answer::At(place) => write!(f, "at {place}"),
            Answer::Less => write!(f, "less"),
            Answer::Equal => write!(f, "equal"),
            Answer::Greater => write!(f, "greater"),
            Answer::BadLength(length) => write!(f, "BadLength {length}"),
            Answer::BadFirst(first) => write!(f, "BadFirst {first}"),
            Answer::Nothing => write!(f, "none"),
            Answer::NoCase => write!(f, "no case"),
        }
    }
}
