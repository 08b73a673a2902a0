//! The table of forms: how each instruction is written, and what it costs.

ghost use Rattle.std.specs.Prelude.{◌≡◌, ◌∷◌, []};
ghost use Rattle.michelson_code.specs.Forms.{ACode, ANumber, cost_of, entered, form, form_of};
ghost use Rattle.michelson_code.specs.Shown.{operand_shown, operands_shown, shown};

use crate::instr::{Code, Instr};
use value_core::{Name, Ty, Val};

/// What stands behind a word.
#[derive(Clone, Copy)]
pub enum Operand<'a> {
    /// A number that isn't below the least.
    Number { least: u32, number: u32 },
    /// A type.
    Type(&'a Ty),
    /// Data of a type.
    Data(&'a Ty, &'a Val),
    /// Instructions in braces.
    Code(&'a [Instr]),
}

/// The operands of a form, from the left.
#[derive(Clone, Copy)]
pub enum Operands<'a> {
    /// Nothing stands behind the word.
    None,
    /// One operand.
    One(Operand<'a>),
    /// Two operands, in the order in which they are written.
    Two(Operand<'a>, Operand<'a>),
}

/// A line of the table of forms.
#[derive(Clone, Copy)]
pub struct Form<'a> {
    /// The word that begins it, in capitals.
    pub word: &'static str,
    /// The gas, without that of bodies.
    pub cost: u64,
    /// The name of an entry or none, where the word takes one.
    pub entry: Option<Option<Name>>,
    /// What stands behind the word.
    pub operands: Operands<'a>,
}

/// The gas that an instruction costs, without its bodies.
pub fn cost(instr: &Instr) -> u64
    ensures { result ≡ cost_of instr.now }
{
    form_of(instr).cost
}

/// The form of an instruction.
pub fn form_of(instr: &Instr) -> Form<'_>
    ensures { shown result ≡ form_of instr.now }
{
    match instr {
        Instr::Drop => plain("DROP", 1),
        Instr::DropN(n) => with_one("DROP", 1, number(0, *n)),
        Instr::Dup => plain("DUP", 1),
        Instr::DupN(n) => with_one("DUP", 1, number(1, *n)),
        Instr::Swap => plain("SWAP", 1),
        Instr::Dig(n) => with_one("DIG", 1, number(0, *n)),
        Instr::Dug(n) => with_one("DUG", 1, number(0, *n)),
        Instr::Unit => plain("UNIT", 1),
        Instr::Pair => plain("PAIR", 1),
        Instr::PairN(n) => with_one("PAIR", 1, number(2, *n)),
        Instr::Unpair => plain("UNPAIR", 1),
        Instr::UnpairN(n) => with_one("UNPAIR", 1, number(2, *n)),
        Instr::Car => plain("CAR", 1),
        Instr::Cdr => plain("CDR", 1),
        Instr::Some => plain("SOME", 1),
        Instr::None(t) => with_one("NONE", 1, Operand::Type(t)),
        Instr::Left(t) => with_one("LEFT", 1, Operand::Type(t)),
        Instr::Right(t) => with_one("RIGHT", 1, Operand::Type(t)),
        Instr::Nil(t) => with_one("NIL", 1, Operand::Type(t)),
        Instr::Cons => plain("CONS", 1),
        Instr::Cast(t) => with_one("CAST", 1, Operand::Type(t)),
        Instr::Rename => plain("RENAME", 1),
        Instr::Push(t, v) => with_two("PUSH", 2, Operand::Type(t), Operand::Data(t, v)),
        Instr::Dip(c) => with_one("DIP", 2, body(c)),
        Instr::DipN(n, c) => with_two("DIP", 2, number(0, *n), body(c)),
        Instr::If(c, d) => with_two("IF", 2, body(c), body(d)),
        Instr::IfNone(c, d) => with_two("IF_NONE", 2, body(c), body(d)),
        Instr::IfLeft(c, d) => with_two("IF_LEFT", 2, body(c), body(d)),
        Instr::IfCons(c, d) => with_two("IF_CONS", 2, body(c), body(d)),
        Instr::Loop(c) => with_one("LOOP", 2, body(c)),
        Instr::LoopLeft(c) => with_one("LOOP_LEFT", 2, body(c)),
        Instr::Iter(c) => with_one("ITER", 2, body(c)),
        Instr::Map(c) => with_one("MAP", 2, body(c)),
        Instr::EmptySet(t) => with_one("EMPTY_SET", 2, Operand::Type(t)),
        Instr::EmptyMap(k, v) => with_two("EMPTY_MAP", 2, Operand::Type(k), Operand::Type(v)),
        Instr::Failwith => plain("FAILWITH", 2),
        Instr::Add => plain("ADD", 3),
        Instr::Sub => plain("SUB", 3),
        Instr::SubMutez => plain("SUB_MUTEZ", 3),
        Instr::Neg => plain("NEG", 3),
        Instr::Abs => plain("ABS", 3),
        Instr::IsNat => plain("ISNAT", 3),
        Instr::Int => plain("INT", 3),
        Instr::Lsl => plain("LSL", 3),
        Instr::Lsr => plain("LSR", 3),
        Instr::And => plain("AND", 3),
        Instr::Or => plain("OR", 3),
        Instr::Xor => plain("XOR", 3),
        Instr::Not => plain("NOT", 3),
        Instr::Eq => plain("EQ", 3),
        Instr::Neq => plain("NEQ", 3),
        Instr::Lt => plain("LT", 3),
        Instr::Gt => plain("GT", 3),
        Instr::Le => plain("LE", 3),
        Instr::Ge => plain("GE", 3),
        Instr::Size => plain("SIZE", 3),
        Instr::Amount => plain("AMOUNT", 3),
        Instr::Sender => plain("SENDER", 3),
        Instr::Source => plain("SOURCE", 3),
        Instr::SelfAddress => plain("SELF_ADDRESS", 3),
        Instr::Now => plain("NOW", 3),
        Instr::Level => plain("LEVEL", 3),
        Instr::SelfEntry(e) => entered("SELF", 3, *e, Operands::None),
        Instr::Address => plain("ADDRESS", 3),
        Instr::Compare => plain("COMPARE", 5),
        Instr::Mul => plain("MUL", 5),
        Instr::Ediv => plain("EDIV", 5),
        Instr::Concat => plain("CONCAT", 5),
        Instr::Mem => plain("MEM", 10),
        Instr::Get => plain("GET", 10),
        Instr::Update => plain("UPDATE", 10),
        Instr::GetAndUpdate => plain("GET_AND_UPDATE", 10),
        Instr::Sha256 => plain("SHA256", 10),
        Instr::Balance => plain("BALANCE", 10),
        Instr::Contract(e, t) => entered("CONTRACT", 10, *e, Operands::One(Operand::Type(t))),
        Instr::TransferTokens => plain("TRANSFER_TOKENS", 10),
    }
}

fn plain<'a>(word: &'static str, cost: u64) -> Form<'a>
    ensures { shown result ≡ form word.now cost [] }
{
    Form {
        word,
        cost,
        entry: None,
        operands: Operands::None,
    }
}

fn with_one<'a>(word: &'static str, cost: u64, operand: Operand<'a>) -> Form<'a>
    ensures { shown result ≡ form word.now cost (operand_shown operand.entry ∷ []) }
{
    Form {
        word,
        cost,
        entry: None,
        operands: Operands::One(operand),
    }
}

fn with_two<'a>(word: &'static str, cost: u64, first: Operand<'a>, second: Operand<'a>) -> Form<'a>
    ensures { shown result ≡
        form word.now cost (operand_shown first.entry ∷ operand_shown second.entry ∷ []) }
{
    Form {
        word,
        cost,
        entry: None,
        operands: Operands::Two(first, second),
    }
}

fn entered<'a>(
    word: &'static str,
    cost: u64,
    entry: Option<Name>,
    operands: Operands<'a>,
) -> Form<'a>
    ensures { shown result ≡ entered word.now cost entry (operands_shown operands.entry) }
{
    Form {
        word,
        cost,
        entry: Some(entry),
        operands,
    }
}

fn number<'a>(least: u32, number: u32) -> Operand<'a>
    ensures { operand_shown result ≡ ANumber least number }
{
    Operand::Number { least, number }
}

fn body<'a>(code: &'a Code) -> Operand<'a>
    ensures { operand_shown result ≡ ACode code.now }
{
    Operand::Code(code.as_slice())
}
