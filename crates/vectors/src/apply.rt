//! Cases of data instructions: the stack that is left, or the failure and what stood below.

use crate::words::{bytes_of, put_value, value_of};
use michelson_code::Instr;
use michelson_data::{DataEnd, DataOp, apply};
use michelson_reader::{ReadFault, read_script};
use std::alloc::{AllocError, Global};
use value_core::Val;

/// The answer to a case of this table, and `no case` to any other line.
pub fn answer(alloc: Global, words: &str) -> Result<Vec<u8>, AllocError> {
    let (instr, values) = match words.split_once(' ') {
        Some((instr, values)) => (instr, values),
        None => (words, ""),
    };
    match (op_of(alloc, instr)?, stack_of(alloc, values)?) {
        (Some(op), Some(stack)) => applied(alloc, op, stack),
        _ => Vec::from_slice(alloc, b"no case"),
    }
}

/// The instruction that a word writes: it is read as the code of a script.
fn op_of(alloc: Global, word: &str) -> Result<Option<DataOp>, AllocError> {
    let Some(instr) = bytes_of(alloc, word)? else {
        return Ok(None);
    };
    let mut text = Vec::from_slice(alloc, b"parameter unit ; storage unit ; code { ")?;
    text.extend_from_slice(&instr)?;
    text.extend_from_slice(b" }")?;
    if text.len() >= 0x1_0000_0000 {
        return Ok(None);
    }
    match read_script(alloc, &text) {
        Ok(script) => Ok(only(script.code.as_slice())),
        Err(ReadFault::NoMemory) => Err(AllocError),
        Err(_) => Ok(None),
    }
}

fn only(code: &[Instr]) -> Option<DataOp> {
    match code {
        [instr] => data_op(instr),
        _ => None,
    }
}

fn data_op(instr: &Instr) -> Option<DataOp> {
    Some(match instr {
        Instr::Pair => DataOp::Pair,
        Instr::PairN(n) => DataOp::PairN(*n),
        Instr::Unpair => DataOp::Unpair,
        Instr::UnpairN(n) => DataOp::UnpairN(*n),
        Instr::Cons => DataOp::Cons,
        Instr::Add => DataOp::Add,
        Instr::Sub => DataOp::Sub,
        Instr::SubMutez => DataOp::SubMutez,
        Instr::Neg => DataOp::Neg,
        Instr::Abs => DataOp::Abs,
        Instr::IsNat => DataOp::IsNat,
        Instr::Int => DataOp::Int,
        Instr::Lsl => DataOp::Lsl,
        Instr::Lsr => DataOp::Lsr,
        Instr::And => DataOp::And,
        Instr::Or => DataOp::Or,
        Instr::Xor => DataOp::Xor,
        Instr::Not => DataOp::Not,
        Instr::Eq => DataOp::Eq,
        Instr::Neq => DataOp::Neq,
        Instr::Lt => DataOp::Lt,
        Instr::Gt => DataOp::Gt,
        Instr::Le => DataOp::Le,
        Instr::Ge => DataOp::Ge,
        Instr::Size => DataOp::Size,
        Instr::Compare => DataOp::Compare,
        Instr::Mul => DataOp::Mul,
        Instr::Ediv => DataOp::Ediv,
        Instr::Concat => DataOp::Concat,
        Instr::Mem => DataOp::Mem,
        Instr::Get => DataOp::Get,
        Instr::Update => DataOp::Update,
        Instr::GetAndUpdate => DataOp::GetAndUpdate,
        Instr::Sha256 => DataOp::Sha256,
        _ => return None,
    })
}

/// Values with the top first, as a stack whose last item is its top.
fn stack_of(alloc: Global, words: &str) -> Result<Option<Vec<Val>>, AllocError> {
    let mut stack = Vec::new(alloc);
    if !words.is_empty() {
        for word in words.split(' ') {
            match value_of(alloc, word)? {
                Some(v) => stack.push(v)?,
                None => return Ok(None),
            }
        }
    }
    stack.reverse();
    Ok(Some(stack))
}

fn applied(alloc: Global, op: DataOp, mut stack: Vec<Val>) -> Result<Vec<u8>, AllocError> {
    let word = match apply(alloc, op, &mut stack) {
        Ok(()) => "ok",
        Err(DataEnd::Overflow) => "Overflow",
        Err(DataEnd::Shift) => "Shift",
        Err(DataEnd::TooLarge) => "TooLarge",
        Err(DataEnd::NoMemory) => return Err(AllocError),
    };
    let mut out = Vec::from_slice(alloc, word.as_bytes())?;
    for v in stack.iter().rev() {
        out.extend_from_slice(b" ")?;
        put_value(alloc, v, &mut out)?;
    }
    Ok(out)
}
