//! Why a script isn't typed.

/// What is wrong with a script or with one of its instructions. Of several kinds that hold of one
/// the first in this order is told, but `LastStack` after all others.
#[derive(Clone, Copy, Debug, PartialEq, Eq)]
pub enum TypeKind {
    /// The stack has fewer items than the instruction takes.
    StackTooShort,
    /// An operand has none of the types that the instruction takes, or a number, a pushed value or
    /// a type is none that may stand there.
    WrongType,
    /// Branches end with different stacks, or a body doesn't end with the stack of its line.
    BranchesDiffer,
    /// A key or an element isn't comparable.
    NotComparable,
    /// A big map stands where none may.
    BigMapPlace,
    /// Two entries have one name.
    EntryTwice,
    /// An instruction follows one that fails, or a body of `DIP` or `MAP` fails.
    FailNotLast,
    /// The stack has more than 128 items, with those that are set aside.
    StackTooTall,
    /// A type has more than 16,384 nodes, or is more than 128 deep.
    TypeTooLarge,
    /// The code has more than 65,536 instructions, or its text more than 256 brackets.
    CodeTooLarge,
    /// The code doesn't end with one pair of operations and storage.
    LastStack,
}
