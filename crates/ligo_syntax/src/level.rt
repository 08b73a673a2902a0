//! What stands in expressions for others.

/// From a whole expression over the levels of operators down to an atom.
#[derive(Clone, Copy, Debug, PartialEq, Eq)]
pub(crate) enum Level {
    /// Any expression.
    Whole,
    /// A part of an `if`: any expression that is no tuple.
    Part,
    /// An `if`, or operators.
    Condition,
    /// `||` and what is tighter.
    Disjunction,
    /// `&&` and what is tighter.
    Conjunction,
    /// `=`, `<` and the like, and what is tighter.
    Comparison,
    /// `^` and what is tighter.
    Joined,
    /// `::` and what is tighter.
    Consed,
    /// `+`, `-` and what is tighter.
    Sum,
    /// `*`, `/`, `mod` and what is tighter.
    Product,
    /// A minus before an expression, or an application.
    Unary,
    /// A function and its arguments.
    Application,
    /// What stands alone.
    Atom,
}
