//! Copies of instructions and of codes.

ghost use Rattle.std.specs.Prelude.{◌≡◌, IfOk};

use crate::instr::{Code, Instr};
use sqlite_items::Items;
use std::alloc::Global;
use value_core::NoMemory;

impl Instr {
    /// An equal instruction.
    #[cycle(copying)]
    pub fn copy(&self, alloc: Global) -> Result<Instr, NoMemory>
        ensures { IfOk result (λ i. i ≡ self.now) }
    {
        match self {
            Instr::Drop => Ok(Instr::Drop),
            Instr::DropN(n) => Ok(Instr::DropN(*n)),
            Instr::Dup => Ok(Instr::Dup),
            Instr::DupN(n) => Ok(Instr::DupN(*n)),
            Instr::Swap => Ok(Instr::Swap),
            Instr::Dig(n) => Ok(Instr::Dig(*n)),
            Instr::Dug(n) => Ok(Instr::Dug(*n)),
            Instr::Unit => Ok(Instr::Unit),
            Instr::Pair => Ok(Instr::Pair),
            Instr::PairN(n) => Ok(Instr::PairN(*n)),
            Instr::Unpair => Ok(Instr::Unpair),
            Instr::UnpairN(n) => Ok(Instr::UnpairN(*n)),
            Instr::Car => Ok(Instr::Car),
            Instr::Cdr => Ok(Instr::Cdr),
            Instr::Some => Ok(Instr::Some),
            Instr::None(t) => Ok(Instr::None(t.copy(alloc)?)),
            Instr::Left(t) => Ok(Instr::Left(t.copy(alloc)?)),
            Instr::Right(t) => Ok(Instr::Right(t.copy(alloc)?)),
            Instr::Nil(t) => Ok(Instr::Nil(t.copy(alloc)?)),
            Instr::Cons => Ok(Instr::Cons),
            Instr::Cast(t) => Ok(Instr::Cast(t.copy(alloc)?)),
            Instr::Rename => Ok(Instr::Rename),
            Instr::Push(t, v) => Ok(Instr::Push(t.copy(alloc)?, v.copy(alloc)?)),
            Instr::Dip(c) => Ok(Instr::Dip(copy_code(alloc, c.as_slice())?)),
            Instr::DipN(n, c) => Ok(Instr::DipN(*n, copy_code(alloc, c.as_slice())?)),
            Instr::If(c, d) => Ok(Instr::If(
                copy_code(alloc, c.as_slice())?,
                copy_code(alloc, d.as_slice())?,
            )),
            Instr::IfNone(c, d) => Ok(Instr::IfNone(
                copy_code(alloc, c.as_slice())?,
                copy_code(alloc, d.as_slice())?,
            )),
            Instr::IfLeft(c, d) => Ok(Instr::IfLeft(
                copy_code(alloc, c.as_slice())?,
                copy_code(alloc, d.as_slice())?,
            )),
            Instr::IfCons(c, d) => Ok(Instr::IfCons(
                copy_code(alloc, c.as_slice())?,
                copy_code(alloc, d.as_slice())?,
            )),
            Instr::Loop(c) => Ok(Instr::Loop(copy_code(alloc, c.as_slice())?)),
            Instr::LoopLeft(c) => Ok(Instr::LoopLeft(copy_code(alloc, c.as_slice())?)),
            Instr::Iter(c) => Ok(Instr::Iter(copy_code(alloc, c.as_slice())?)),
            Instr::Map(c) => Ok(Instr::Map(copy_code(alloc, c.as_slice())?)),
            Instr::EmptySet(t) => Ok(Instr::EmptySet(t.copy(alloc)?)),
            Instr::EmptyMap(k, v) => Ok(Instr::EmptyMap(k.copy(alloc)?, v.copy(alloc)?)),
            Instr::Failwith => Ok(Instr::Failwith),
            Instr::Add => Ok(Instr::Add),
            Instr::Sub => Ok(Instr::Sub),
            Instr::SubMutez => Ok(Instr::SubMutez),
            Instr::Neg => Ok(Instr::Neg),
            Instr::Abs => Ok(Instr::Abs),
            Instr::IsNat => Ok(Instr::IsNat),
            Instr::Int => Ok(Instr::Int),
            Instr::Lsl => Ok(Instr::Lsl),
            Instr::Lsr => Ok(Instr::Lsr),
            Instr::And => Ok(Instr::And),
            Instr::Or => Ok(Instr::Or),
            Instr::Xor => Ok(Instr::Xor),
            Instr::Not => Ok(Instr::Not),
            Instr::Eq => Ok(Instr::Eq),
            Instr::Neq => Ok(Instr::Neq),
            Instr::Lt => Ok(Instr::Lt),
            Instr::Gt => Ok(Instr::Gt),
            Instr::Le => Ok(Instr::Le),
            Instr::Ge => Ok(Instr::Ge),
            Instr::Size => Ok(Instr::Size),
            Instr::Amount => Ok(Instr::Amount),
            Instr::Sender => Ok(Instr::Sender),
            Instr::Source => Ok(Instr::Source),
            Instr::SelfAddress => Ok(Instr::SelfAddress),
            Instr::Now => Ok(Instr::Now),
            Instr::Level => Ok(Instr::Level),
            Instr::SelfEntry(e) => Ok(Instr::SelfEntry(*e)),
            Instr::Address => Ok(Instr::Address),
            Instr::Compare => Ok(Instr::Compare),
            Instr::Mul => Ok(Instr::Mul),
            Instr::Ediv => Ok(Instr::Ediv),
            Instr::Concat => Ok(Instr::Concat),
            Instr::Mem => Ok(Instr::Mem),
            Instr::Get => Ok(Instr::Get),
            Instr::Update => Ok(Instr::Update),
            Instr::GetAndUpdate => Ok(Instr::GetAndUpdate),
            Instr::Sha256 => Ok(Instr::Sha256),
            Instr::Balance => Ok(Instr::Balance),
            Instr::Contract(e, t) => Ok(Instr::Contract(*e, t.copy(alloc)?)),
            Instr::TransferTokens => Ok(Instr::TransferTokens),
        }
    }
}

/// An equal code.
#[cycle(copying)]
pub fn copy_code(alloc: Global, code: &[Instr]) -> Result<Code, NoMemory>
    ensures { IfOk result (λ made. made ≡ code.now) }
{
    let mut made = Items::new(alloc);
    for instr in code {
        made.push(instr.copy(alloc)?)?;
    }
    Ok(made)
}
