//! Instructions, one variant for each form, in the order of the table of forms.

use sqlite_items::Items;
use value_core::{Name, Ty, Val};

/// An instruction. Its fields stand in the order in which the form is written: a number, a type,
/// data, the name of an entry or none, a body.
#[derive(Debug, Drop)]
pub enum Instr {
    // cost 1
    /// Takes the top item away.
    Drop,
    /// Takes so many items away, from 0 to 65,535.
    DropN(u32),
    /// Copies the top item.
    Dup,
    /// Copies the item of that number, counted from 1 to 65,535.
    DupN(u32),
    /// Exchanges the two items on top.
    Swap,
    /// Brings the item below so many others to the top.
    Dig(u32),
    /// Puts the top item below so many others.
    Dug(u32),
    /// Puts unit on top.
    Unit,
    /// Makes a pair of the two on top.
    Pair,
    /// Makes pairs to the right of so many, from 2.
    PairN(u32),
    /// Takes a pair apart.
    Unpair,
    /// Takes pairs to the right apart into so many, from 2.
    UnpairN(u32),
    /// The first part of a pair.
    Car,
    /// The second part of a pair.
    Cdr,
    /// Makes an option of the top item.
    Some,
    /// Puts none of an option of the type on top.
    None(Ty),
    /// Makes the top item the left of an `or`, whose right has the type.
    Left(Ty),
    /// Makes the top item the right of an `or`, whose left has the type.
    Right(Ty),
    /// Puts the empty list of the type on top.
    Nil(Ty),
    /// Puts an item in front of a list.
    Cons,
    /// Asks that the top item has the type.
    Cast(Ty),
    /// Changes nothing.
    Rename,
    // cost 2
    /// Puts the value of the type on top.
    Push(Ty, Val),
    /// Runs the body below the top item.
    Dip(Items<Instr>),
    /// Runs the body below so many items.
    DipN(u32, Items<Instr>),
    /// Runs the first body where the top is true, else the second.
    If(Items<Instr>, Items<Instr>),
    /// Runs the first body where the top is none, else the second on its value.
    IfNone(Items<Instr>, Items<Instr>),
    /// Runs the first body on what is left, the second on what is right.
    IfLeft(Items<Instr>, Items<Instr>),
    /// Runs the first body on an item and the rest of a list, the second where it is empty.
    IfCons(Items<Instr>, Items<Instr>),
    /// Runs the body while the top is true.
    Loop(Items<Instr>),
    /// Runs the body while the top is left.
    LoopLeft(Items<Instr>),
    /// Runs the body for each item, from the least.
    Iter(Items<Instr>),
    /// Runs the body for each item, and gathers what it leaves.
    Map(Items<Instr>),
    /// Puts the empty set of the type on top.
    EmptySet(Ty),
    /// Puts the empty map of the types on top.
    EmptyMap(Ty, Ty),
    /// Ends the run with the top item as its cause.
    Failwith,
    // cost 3
    /// The sum of the two on top.
    Add,
    /// The difference of the two on top.
    Sub,
    /// The difference of two amounts, or none below 0.
    SubMutez,
    /// The number with the other sign.
    Neg,
    /// The number without its sign.
    Abs,
    /// The number as a nat, or none below 0.
    IsNat,
    /// The nat as an int.
    Int,
    /// Shifts bits to the left, by at most 256.
    Lsl,
    /// Shifts bits to the right, by at most 256.
    Lsr,
    /// Both, bit by bit.
    And,
    /// Either, bit by bit.
    Or,
    /// One and not the other, bit by bit.
    Xor,
    /// The other, bit by bit.
    Not,
    /// Whether the int is 0.
    Eq,
    /// Whether it is not 0.
    Neq,
    /// Whether it is below 0.
    Lt,
    /// Whether it is above 0.
    Gt,
    /// Whether it is at most 0.
    Le,
    /// Whether it is at least 0.
    Ge,
    /// The length of a string, bytes, list, set or map.
    Size,
    /// What came with the call, in millionths.
    Amount,
    /// Who called.
    Sender,
    /// Who sent the operation.
    Source,
    /// The address of this contract.
    SelfAddress,
    /// The time of the block, in seconds since 1970.
    Now,
    /// The level of the block.
    Level,
    /// The entry of this contract of that name, or `default`.
    SelfEntry(Option<Name>),
    /// The address of an entry.
    Address,
    // cost 5
    /// -1, 0 or 1, as the first stands to the second.
    Compare,
    /// The product of the two on top.
    Mul,
    /// Quotient and remainder, or none for a divisor of 0.
    Ediv,
    /// Strings or bytes in a row.
    Concat,
    // cost 10
    /// Whether the key is there.
    Mem,
    /// The value at the key, or none.
    Get,
    /// With another value at the key, or without it.
    Update,
    /// The same, with the old value on top.
    GetAndUpdate,
    /// The hash of bytes.
    Sha256,
    /// The balance of this contract, in millionths.
    Balance,
    /// The entry of that name, or `default`, of an address, where it takes the type.
    Contract(Option<Name>, Ty),
    /// A call of an entry, as an operation.
    TransferTokens,
}

/// The instructions of a script, of a branch or of a body, first to last.
pub type Code = Items<Instr>;
