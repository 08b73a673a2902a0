//! The tree of a pattern that always matches.

use sqlite_items::{Boxed, Items};

/// A pattern, with the offset of its first token.
#[cycle(pattern_trees)]
#[derive(Debug, Drop)]
pub struct Pattern {
    /// The offset of its first token.
    pub at: u32,
    /// How deep it is: one more than the deepest of its parts, or 1.
    pub depth: u32,
    /// How it is written.
    pub form: Boxed<PatternForm>,
}

/// How a pattern is written.
#[cycle(pattern_trees)]
#[derive(Debug, Drop)]
pub enum PatternForm {
    /// A name, which is bound.
    Name(Items<u8>),
    /// `_`
    Any,
    /// `(p)`
    Brackets(Pattern),
    /// `p, q, ..`: two parts and more.
    Tuple(Items<Pattern>),
}
