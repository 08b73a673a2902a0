//! Patterns of typed programs.

use sqlite_items::Items;

/// A pattern that takes a value of its type apart.
#[derive(Debug, Drop)]
pub enum TypedPattern {
    /// A name, which is bound.
    Name(Items<u8>),
    /// Nothing is bound.
    Any,
    /// The parts of a tuple, each by its own pattern.
    Tuple(Items<TypedPattern>),
}

/// What an arm of a match takes apart.
#[derive(Debug, Drop)]
pub enum TypedChoice {
    /// Whatever no arm before it does.
    Any,
    /// The empty list.
    Nil,
    /// The first item and the others, each with its name.
    Cons(Items<u8>, Items<u8>),
    /// `None`
    Nothing,
    /// `Some`, and the pattern of its part.
    Some(TypedPattern),
    /// The case at that place of the variant, and the pattern of its part if it has one.
    Case(u32, Option<TypedPattern>),
}
