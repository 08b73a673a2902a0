//! The instructions on data, one variant for each form, in the order of their table.

/// An instruction that looks at its operands alone. A number is the one of the form.
#[derive(Clone, Copy, Debug, PartialEq, Eq)]
pub enum DataOp {
    /// A pair of the two on top.
    Pair,
    /// Pairs to the right of so many.
    PairN(u32),
    /// The two parts of a pair.
    Unpair,
    /// So many parts of pairs to the right.
    UnpairN(u32),
    /// An item in front of a list.
    Cons,
    /// The sum.
    Add,
    /// The difference.
    Sub,
    /// The difference of two amounts, or none below 0.
    SubMutez,
    /// The number with the other sign.
    Neg,
    /// The number without its sign.
    Abs,
    /// The number as a nat, or none below 0.
    IsNat,
    /// The nat as an int.
    Int,
    /// Bits to the left.
    Lsl,
    /// Bits to the right.
    Lsr,
    /// Both, bit by bit.
    And,
    /// Either, bit by bit.
    Or,
    /// One and not the other, bit by bit.
    Xor,
    /// The other, bit by bit.
    Not,
    /// Whether the int is 0.
    Eq,
    /// Whether it is not 0.
    Neq,
    /// Whether it is below 0.
    Lt,
    /// Whether it is above 0.
    Gt,
    /// Whether it is at most 0.
    Le,
    /// Whether it is at least 0.
    Ge,
    /// How long a string, bytes, a list, a set or a map is.
    Size,
    /// -1, 0 or 1, as the first stands to the second.
    Compare,
    /// The product.
    Mul,
    /// Quotient and remainder, or none for a divisor of 0.
    Ediv,
    /// Strings or bytes in a row.
    Concat,
    /// Whether the key is there.
    Mem,
    /// The value at the key, or none.
    Get,
    /// With another value at the key, or without it.
    Update,
    /// The same, with the old value on top.
    GetAndUpdate,
    /// The hash of bytes.
    Sha256,
}
