//! The table of operands: what an instruction without bodies takes from the top of the stack, and
//! what it leaves there, one line for each kind of operands.

ghost use Rattle.std.specs.Prelude.{◌≡◌};
ghost use Rattle.michelson_code.specs.declared.instr.Instr.TheViews.{out-Instr};
ghost use Rattle.michelson_code.specs.Operands.{lines};

use crate::instr::Instr;

/// One level of a type, with something else in the place of each part.
#[derive(Clone, Copy, PartialEq, Eq, Hash)]
pub enum Level<P> {
    /// `unit`.
    Unit,
    /// `bool`.
    Bool,
    /// `int`.
    Int,
    /// `nat`.
    Nat,
    /// `mutez`, an amount in millionths.
    Mutez,
    /// `timestamp`, in seconds since 1970.
    Time,
    /// `string`.
    Text,
    /// `bytes`.
    Bytes,
    /// `address`.
    Addr,
    /// `option` of the part.
    Option(P),
    /// `or` of the left and the right part.
    Or(P, P),
    /// `pair` of the first and the second part.
    Pair(P, P),
    /// `list` of the part.
    List(P),
    /// `set` of the part.
    Set(P),
    /// `map` from the first part to the second.
    Map(P, P),
    /// `big_map` from the first part to the second.
    BigMap(P, P),
    /// `contract` that takes the part.
    Contract(P),
    /// `operation`.
    Operation,
}

/// A part of a slot. A letter stands for one type wherever it stands in a line.
#[derive(Clone, Copy)]
pub enum Part {
    /// Any type.
    A,
    /// Any type, the same as that of `A` or another.
    B,
    /// A comparable type.
    K,
    /// The first type that the instruction writes; of `SELF` the type of the entry.
    T,
    /// The second type that it writes.
    U,
    /// `int`.
    Int,
    /// `nat`.
    Nat,
    /// `mutez`, an amount in millionths.
    Mutez,
    /// `string`.
    Text,
    /// `bytes`.
    Bytes,
}

/// The type of an operand or of a result.
#[derive(Clone, Copy)]
pub enum Slot {
    /// The type that a part stands for.
    Whole(Part),
    /// A type made of parts.
    Of(Level<Part>),
    /// An option of such a type.
    OptionOf(Level<Part>),
}

/// Operands or results, from the top of the stack.
#[derive(Clone, Copy)]
pub enum Slots {
    /// Nothing is taken, or left.
    None,
    /// The top alone.
    One(Slot),
    /// The top, and the item below it.
    Two(Slot, Slot),
    /// The top, and the two items below it.
    Three(Slot, Slot, Slot),
}

/// The operands of a line, and the results that stand in their place.
#[derive(Clone, Copy)]
pub struct Line(pub Slots, pub Slots);

/// The lines of an instruction; none where it has bodies, fails, or moves as many items as it
/// says.
pub fn lines_of(instr: &Instr) -> &'static [Line]
    ensures { result.now ≡ lines (out-Instr instr.now) }
{
    match instr {
        Instr::Drop => DROP,
        Instr::Dup => DUP,
        Instr::Swap => SWAP,
        Instr::Unit => UNIT_ITSELF,
        Instr::Pair => PAIRED,
        Instr::Unpair => UNPAIR,
        Instr::Car => CAR,
        Instr::Cdr => CDR,
        Instr::Some => OPTION,
        Instr::None(_) => NONE,
        Instr::Left(_) => LEFT,
        Instr::Right(_) => RIGHT,
        Instr::Nil(_) => NIL,
        Instr::Cons => CONS,
        Instr::Cast(_) => CAST,
        Instr::Rename => RENAME,
        Instr::Push(_, _) => PUSH,
        Instr::EmptySet(_) => EMPTY_SET,
        Instr::EmptyMap(_, _) => EMPTY_MAP,
        Instr::Add => ADD,
        Instr::Sub => SUB,
        Instr::SubMutez => SUB_MUTEZ,
        Instr::Neg => NEG,
        Instr::Abs => ABS,
        Instr::IsNat => IS_NAT,
        Instr::Int => OF_NAT,
        Instr::Lsl | Instr::Lsr => SHIFT,
        Instr::And => AND,
        Instr::Or | Instr::Xor => OR,
        Instr::Not => NOT,
        Instr::Eq | Instr::Neq | Instr::Lt | Instr::Gt | Instr::Le | Instr::Ge => SIGN,
        Instr::Size => SIZE,
        Instr::Amount | Instr::Balance => MONEY,
        Instr::Sender | Instr::Source | Instr::SelfAddress => ACCOUNT,
        Instr::Now => NOW,
        Instr::Level => BLOCK_LEVEL,
        Instr::SelfEntry(_) => SELF_ENTRY,
        Instr::Address => ADDRESS_OF,
        Instr::Compare => COMPARE,
        Instr::Mul => MUL,
        Instr::Ediv => EDIV,
        Instr::Concat => CONCAT,
        Instr::Mem => MEM,
        Instr::Get => GET,
        Instr::Update => UPDATE,
        Instr::GetAndUpdate => GET_AND_UPDATE,
        Instr::Sha256 => SHA256,
        Instr::Contract(_, _) => CONTRACT,
        Instr::TransferTokens => TRANSFER_TOKENS,
        _ => &[],
    }
}

const A: Slot = Slot::Whole(Part::A);

const B: Slot = Slot::Whole(Part::B);

const UNIT: Slot = Slot::Of(Level::Unit);

const PAIR_A_B: Slot = Slot::Of(Level::Pair(Part::A, Part::B));

const OPTION_A: Slot = Slot::Of(Level::Option(Part::A));

const OPTION_T: Slot = Slot::Of(Level::Option(Part::T));

const OR_A_T: Slot = Slot::Of(Level::Or(Part::A, Part::T));

const OR_T_A: Slot = Slot::Of(Level::Or(Part::T, Part::A));

const LIST_T: Slot = Slot::Of(Level::List(Part::T));

const LIST_A: Slot = Slot::Of(Level::List(Part::A));

const T: Slot = Slot::Whole(Part::T);

const SET_T: Slot = Slot::Of(Level::Set(Part::T));

const MAP_T_U: Slot = Slot::Of(Level::Map(Part::T, Part::U));

const NAT: Slot = Slot::Of(Level::Nat);

const INT: Slot = Slot::Of(Level::Int);

const TIMESTAMP: Slot = Slot::Of(Level::Time);

const MUTEZ: Slot = Slot::Of(Level::Mutez);

const OPTION_MUTEZ: Slot = Slot::Of(Level::Option(Part::Mutez));

const OPTION_NAT: Slot = Slot::Of(Level::Option(Part::Nat));

const BOOL: Slot = Slot::Of(Level::Bool);

const STRING: Slot = Slot::Of(Level::Text);

const BYTES: Slot = Slot::Of(Level::Bytes);

const SET_A: Slot = Slot::Of(Level::Set(Part::A));

const MAP_A_B: Slot = Slot::Of(Level::Map(Part::A, Part::B));

const ADDRESS: Slot = Slot::Of(Level::Addr);

const CONTRACT_T: Slot = Slot::Of(Level::Contract(Part::T));

const CONTRACT_A: Slot = Slot::Of(Level::Contract(Part::A));

const K: Slot = Slot::Whole(Part::K);

const OPTION_PAIR_NAT_NAT: Slot = Slot::OptionOf(Level::Pair(Part::Nat, Part::Nat));

const OPTION_PAIR_INT_NAT: Slot = Slot::OptionOf(Level::Pair(Part::Int, Part::Nat));

const OPTION_PAIR_MUTEZ_MUTEZ: Slot = Slot::OptionOf(Level::Pair(Part::Mutez, Part::Mutez));

const OPTION_PAIR_NAT_MUTEZ: Slot = Slot::OptionOf(Level::Pair(Part::Nat, Part::Mutez));

const LIST_STRING: Slot = Slot::Of(Level::List(Part::Text));

const BIG_MAP_A_B: Slot = Slot::Of(Level::BigMap(Part::A, Part::B));

const OPTION_B: Slot = Slot::Of(Level::Option(Part::B));

const OPTION_CONTRACT_T: Slot = Slot::OptionOf(Level::Contract(Part::T));

const OPERATION: Slot = Slot::Of(Level::Operation);

const DROP: &[Line] = &[Line(Slots::One(A), Slots::None)];

const DUP: &[Line] = &[Line(Slots::One(A), Slots::Two(A, A))];

const SWAP: &[Line] = &[Line(Slots::Two(A, B), Slots::Two(B, A))];

const UNIT_ITSELF: &[Line] = &[Line(Slots::None, Slots::One(UNIT))];

const PAIRED: &[Line] = &[Line(Slots::Two(A, B), Slots::One(PAIR_A_B))];

const UNPAIR: &[Line] = &[Line(Slots::One(PAIR_A_B), Slots::Two(A, B))];

const CAR: &[Line] = &[Line(Slots::One(PAIR_A_B), Slots::One(A))];

const CDR: &[Line] = &[Line(Slots::One(PAIR_A_B), Slots::One(B))];

const OPTION: &[Line] = &[Line(Slots::One(A), Slots::One(OPTION_A))];

const NONE: &[Line] = &[Line(Slots::None, Slots::One(OPTION_T))];

const LEFT: &[Line] = &[Line(Slots::One(A), Slots::One(OR_A_T))];

const RIGHT: &[Line] = &[Line(Slots::One(A), Slots::One(OR_T_A))];

const NIL: &[Line] = &[Line(Slots::None, Slots::One(LIST_T))];

const CONS: &[Line] = &[Line(Slots::Two(A, LIST_A), Slots::One(LIST_A))];

const CAST: &[Line] = &[Line(Slots::One(T), Slots::One(T))];

const RENAME: &[Line] = &[Line(Slots::One(A), Slots::One(A))];

const PUSH: &[Line] = &[Line(Slots::None, Slots::One(T))];

const EMPTY_SET: &[Line] = &[Line(Slots::None, Slots::One(SET_T))];

const EMPTY_MAP: &[Line] = &[Line(Slots::None, Slots::One(MAP_T_U))];

const ADD: &[Line] = &[
    Line(Slots::Two(NAT, NAT), Slots::One(NAT)),
    Line(Slots::Two(INT, INT), Slots::One(INT)),
    Line(Slots::Two(INT, NAT), Slots::One(INT)),
    Line(Slots::Two(NAT, INT), Slots::One(INT)),
    Line(Slots::Two(TIMESTAMP, INT), Slots::One(TIMESTAMP)),
    Line(Slots::Two(INT, TIMESTAMP), Slots::One(TIMESTAMP)),
    Line(Slots::Two(MUTEZ, MUTEZ), Slots::One(MUTEZ)),
];

const SUB: &[Line] = &[
    Line(Slots::Two(NAT, NAT), Slots::One(INT)),
    Line(Slots::Two(INT, INT), Slots::One(INT)),
    Line(Slots::Two(INT, NAT), Slots::One(INT)),
    Line(Slots::Two(NAT, INT), Slots::One(INT)),
    Line(Slots::Two(TIMESTAMP, INT), Slots::One(TIMESTAMP)),
    Line(Slots::Two(TIMESTAMP, TIMESTAMP), Slots::One(INT)),
];

const SUB_MUTEZ: &[Line] = &[Line(Slots::Two(MUTEZ, MUTEZ), Slots::One(OPTION_MUTEZ))];

const NEG: &[Line] = &[
    Line(Slots::One(INT), Slots::One(INT)),
    Line(Slots::One(NAT), Slots::One(INT)),
];

const ABS: &[Line] = &[Line(Slots::One(INT), Slots::One(NAT))];

const IS_NAT: &[Line] = &[Line(Slots::One(INT), Slots::One(OPTION_NAT))];

const OF_NAT: &[Line] = &[Line(Slots::One(NAT), Slots::One(INT))];

const SHIFT: &[Line] = &[Line(Slots::Two(NAT, NAT), Slots::One(NAT))];

const AND: &[Line] = &[
    Line(Slots::Two(BOOL, BOOL), Slots::One(BOOL)),
    Line(Slots::Two(NAT, NAT), Slots::One(NAT)),
    Line(Slots::Two(INT, NAT), Slots::One(NAT)),
];

const OR: &[Line] = &[
    Line(Slots::Two(BOOL, BOOL), Slots::One(BOOL)),
    Line(Slots::Two(NAT, NAT), Slots::One(NAT)),
];

const NOT: &[Line] = &[
    Line(Slots::One(BOOL), Slots::One(BOOL)),
    Line(Slots::One(INT), Slots::One(INT)),
    Line(Slots::One(NAT), Slots::One(INT)),
];

const SIGN: &[Line] = &[Line(Slots::One(INT), Slots::One(BOOL))];

const SIZE: &[Line] = &[
    Line(Slots::One(STRING), Slots::One(NAT)),
    Line(Slots::One(BYTES), Slots::One(NAT)),
    Line(Slots::One(LIST_A), Slots::One(NAT)),
    Line(Slots::One(SET_A), Slots::One(NAT)),
    Line(Slots::One(MAP_A_B), Slots::One(NAT)),
];

const MONEY: &[Line] = &[Line(Slots::None, Slots::One(MUTEZ))];

const ACCOUNT: &[Line] = &[Line(Slots::None, Slots::One(ADDRESS))];

const NOW: &[Line] = &[Line(Slots::None, Slots::One(TIMESTAMP))];

const BLOCK_LEVEL: &[Line] = &[Line(Slots::None, Slots::One(NAT))];

const SELF_ENTRY: &[Line] = &[Line(Slots::None, Slots::One(CONTRACT_T))];

const ADDRESS_OF: &[Line] = &[Line(Slots::One(CONTRACT_A), Slots::One(ADDRESS))];

const COMPARE: &[Line] = &[Line(Slots::Two(K, K), Slots::One(INT))];

const MUL: &[Line] = &[
    Line(Slots::Two(NAT, NAT), Slots::One(NAT)),
    Line(Slots::Two(INT, INT), Slots::One(INT)),
    Line(Slots::Two(INT, NAT), Slots::One(INT)),
    Line(Slots::Two(NAT, INT), Slots::One(INT)),
    Line(Slots::Two(MUTEZ, NAT), Slots::One(MUTEZ)),
    Line(Slots::Two(NAT, MUTEZ), Slots::One(MUTEZ)),
];

const EDIV: &[Line] = &[
    Line(Slots::Two(NAT, NAT), Slots::One(OPTION_PAIR_NAT_NAT)),
    Line(Slots::Two(INT, INT), Slots::One(OPTION_PAIR_INT_NAT)),
    Line(Slots::Two(INT, NAT), Slots::One(OPTION_PAIR_INT_NAT)),
    Line(Slots::Two(NAT, INT), Slots::One(OPTION_PAIR_INT_NAT)),
    Line(Slots::Two(MUTEZ, NAT), Slots::One(OPTION_PAIR_MUTEZ_MUTEZ)),
    Line(Slots::Two(MUTEZ, MUTEZ), Slots::One(OPTION_PAIR_NAT_MUTEZ)),
];

const CONCAT: &[Line] = &[
    Line(Slots::Two(STRING, STRING), Slots::One(STRING)),
    Line(Slots::Two(BYTES, BYTES), Slots::One(BYTES)),
    Line(Slots::One(LIST_STRING), Slots::One(STRING)),
];

const MEM: &[Line] = &[
    Line(Slots::Two(A, SET_A), Slots::One(BOOL)),
    Line(Slots::Two(A, MAP_A_B), Slots::One(BOOL)),
    Line(Slots::Two(A, BIG_MAP_A_B), Slots::One(BOOL)),
];

const GET: &[Line] = &[
    Line(Slots::Two(A, MAP_A_B), Slots::One(OPTION_B)),
    Line(Slots::Two(A, BIG_MAP_A_B), Slots::One(OPTION_B)),
];

const UPDATE: &[Line] = &[
    Line(Slots::Three(A, BOOL, SET_A), Slots::One(SET_A)),
    Line(Slots::Three(A, OPTION_B, MAP_A_B), Slots::One(MAP_A_B)),
    Line(
        Slots::Three(A, OPTION_B, BIG_MAP_A_B),
        Slots::One(BIG_MAP_A_B),
    ),
];

const GET_AND_UPDATE: &[Line] = &[
    Line(
        Slots::Three(A, OPTION_B, MAP_A_B),
        Slots::Two(OPTION_B, MAP_A_B),
    ),
    Line(
        Slots::Three(A, OPTION_B, BIG_MAP_A_B),
        Slots::Two(OPTION_B, BIG_MAP_A_B),
    ),
];

const SHA256: &[Line] = &[Line(Slots::One(BYTES), Slots::One(BYTES))];

const CONTRACT: &[Line] = &[Line(Slots::One(ADDRESS), Slots::One(OPTION_CONTRACT_T))];

const TRANSFER_TOKENS: &[Line] = &[Line(Slots::Three(A, MUTEZ, CONTRACT_A), Slots::One(OPERATION))];
