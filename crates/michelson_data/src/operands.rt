//! What an instruction takes from the stack, and how it is handled.

ghost use Rattle.std.specs.Prelude.{◌≡◌};
ghost use Rattle.michelson_data.specs.Operands.{kind_of};

use crate::op::DataOp;

/// The operands of an instruction.
#[derive(Clone, Copy, Debug, PartialEq, Eq)]
pub(crate) enum Operands {
    /// One, of which one value is made.
    One,
    /// Two, of which one value is made.
    Two,
    /// So many, which become pairs to the right.
    Together(u32),
    /// Pairs to the right, which become so many.
    Apart(u32),
    /// An item and a list.
    Front,
    /// A list, or two strings or bytes.
    Row,
    /// A key, a choice, and a set or a map.
    Entry,
    /// The same, with the old value on top.
    EntryWithOld,
}

/// What the instruction takes.
pub(crate) fn operands_of(op: DataOp) -> Operands
    ensures { result ≡ kind_of op }
{
    match op {
        DataOp::Pair => Operands::Together(2),
        DataOp::PairN(n) => Operands::Together(n),
        DataOp::Unpair => Operands::Apart(2),
        DataOp::UnpairN(n) => Operands::Apart(n),
        DataOp::Cons => Operands::Front,
        DataOp::Concat => Operands::Row,
        DataOp::Update => Operands::Entry,
        DataOp::GetAndUpdate => Operands::EntryWithOld,
        DataOp::Neg
        | DataOp::Abs
        | DataOp::IsNat
        | DataOp::Int
        | DataOp::Not
        | DataOp::Eq
        | DataOp::Neq
        | DataOp::Lt
        | DataOp::Gt
        | DataOp::Le
        | DataOp::Ge
        | DataOp::Size
        | DataOp::Sha256 => Operands::One,
        DataOp::Add
        | DataOp::Sub
        | DataOp::SubMutez
        | DataOp::Lsl
        | DataOp::Lsr
        | DataOp::And
        | DataOp::Or
        | DataOp::Xor
        | DataOp::Compare
        | DataOp::Mul
        | DataOp::Ediv
        | DataOp::Mem
        | DataOp::Get => Operands::Two,
    }
}
