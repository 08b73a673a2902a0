//! Reading a block.

ghost use Rattle.std.specs.Prelude.{◌≡◌, [], IfOk};
ghost use Rattle.byte_fields.specs.Readers.{many};
ghost use Rattle.byte_fields.specs.Laws.{TellsWhole};
ghost use Rattle.byte_fields.specs.Told.{Answers, AnswersUnlessFull, field_fault, left_stop, read_stop};
ghost use Rattle.cell_names.specs.Reading.{footprint};
ghost use Rattle.block_codec.specs.Block.{IsBlock};
ghost use Rattle.block_codec.specs.Spelling.{spelling};
ghost use Rattle.block_codec.specs.Receipts.{receipt};
ghost use Rattle.block_codec.specs.Reading.{block, block_of, list, numbers, ops, small};

use crate::block::Block;
use crate::limits::MOST_OPS;
use crate::operation::op_at;
use crate::receipt::receipt_at;
use byte_fields::{FieldFault, Left, ReadStop, array_at, fault_at, mark_of, u32_at, u64_at};
use cell_names::{Footprint, Head, footprint_at};
use join_schedule::Joins;
use op_rules::{Op, Receipt};
use std::alloc::Global;

/// The block that all of the bytes spell.
pub fn read_block(alloc: Global, bytes: &[u8]) -> Result<Block, FieldFault>
    // What is read is spelt so.
    ensures found { IfOk result (λ b. IsBlock b × (bytes.now ≡ spelling b)) }
    // What is spelt so is read, unless memory runs out.
    ensures only { TellsWhole field_fault spelling IsBlock bytes.now result }
    // Which fault it is.
    ensures place { AnswersUnlessFull field_fault (λ x. x) result (block_of bytes.now) }
{
    told_block(alloc, bytes)
}

fn told_block(alloc: Global, bytes: &[u8]) -> Result<Block, FieldFault>
    ensures { AnswersUnlessFull field_fault (λ x. x) result (block_of bytes.now) }
{
    match block_at(alloc, bytes) {
        Ok(block) => Ok(block),
        Err(stop) => Err(fault_at(bytes.len(), stop)),
    }
}

/// The fields of a block, and nothing behind them.
#[tactic(auto, unfolding(crate::specs::Reading::fields))]
fn block_at(alloc: Global, bytes: &[u8]) -> Result<Block, ReadStop>
    ensures { AnswersUnlessFull read_stop (λ b. (b, [])) result (block bytes.now) }
{
    let rest = mark_of(b"FJB1", bytes)?;
    let (parent, rest) = array_at::<32>(rest)?;
    let (level, rest) = u32_at(rest)?;
    let (now, rest) = u64_at(rest)?;
    let (count, rest) = small_at(rest)?;
    let (ops, rest) = ops_at(alloc, count, rest)?;
    let (joins, rest) = joins_at(alloc, count, rest)?;
    let (footprints, rest) = footprints_at(alloc, count, rest)?;
    let (receipts, rest) = receipts_at(alloc, count, rest)?;
    let (state, rest) = array_at::<32>(rest)?;
    if !rest.is_empty() {
        return Err(ReadStop::Left(rest.len()));
    }
    Ok(Block {
        parent,
        head: Head { level, now },
        ops,
        joins,
        footprints,
        receipts,
        state,
    })
}

/// So many operations, whose gas together stays within a block's.
fn ops_at(alloc: Global, count: u32, bytes: &[u8]) -> Result<(Vec<Op>, &[u8]), ReadStop>
    ensures { AnswersUnlessFull read_stop (λ x. (x.0.items, x.1.now)) result (ops count bytes.now) }
{
    let mut ops = Vec::new(alloc);
    let mut total = 0;
    let mut rest = bytes;
    for _ in 0..count {
        match op_at(alloc, total, rest) {
            Ok((op, after)) => {
                total += op.gas;
                ops.push(op)?;
                rest = after;
            }
            Err(stop) => return Err(stop),
        }
    }
    Ok((ops, rest))
}

/// So many lists of joins.
fn joins_at(alloc: Global, count: u32, bytes: &[u8]) -> Result<(Joins, &[u8]), ReadStop>
    ensures { AnswersUnlessFull read_stop (λ x. (x.0, x.1.now)) result
        (many list count bytes.now) }
{
    let mut lists: Vec<Vec<u32>> = Vec::new(alloc);
    let mut rest = bytes;
    for _ in 0..count {
        match list_at(alloc, rest) {
            Ok((list, after)) => {
                lists.push(list)?;
                rest = after;
            }
            Err(stop) => return Err(stop),
        }
    }
    Ok((Joins::new(lists), rest))
}

/// A count, and so many numbers.
fn list_at(alloc: Global, bytes: &[u8]) -> Result<(Vec<u32>, &[u8]), ReadStop>
    ensures { AnswersUnlessFull read_stop (λ x. (x.0.items, x.1.now)) result (list bytes.now) }
{
    let (count, rest) = small_at(bytes)?;
    numbers_at(alloc, count, rest)
}

fn numbers_at(alloc: Global, count: u32, bytes: &[u8]) -> Result<(Vec<u32>, &[u8]), ReadStop>
    ensures { AnswersUnlessFull read_stop (λ x. (x.0.items, x.1.now)) result
        (numbers count bytes.now) }
{
    let mut all = Vec::new(alloc);
    let mut rest = bytes;
    for _ in 0..count {
        match u32_at(rest) {
            Ok((number, after)) => {
                all.push(number)?;
                rest = after;
            }
            Err(stop) => return Err(ReadStop::from(stop)),
        }
    }
    Ok((all, rest))
}

fn footprints_at(
    alloc: Global,
    count: u32,
    bytes: &[u8],
) -> Result<(Vec<Footprint>, &[u8]), ReadStop>
    ensures { AnswersUnlessFull read_stop (λ x. (x.0.items, x.1.now)) result
        (many footprint count bytes.now) }
{
    let mut footprints: Vec<Footprint> = Vec::new(alloc);
    let mut rest = bytes;
    for _ in 0..count {
        match footprint_at(alloc, rest) {
            Ok((footprint, after)) => {
                footprints.push(footprint)?;
                rest = after;
            }
            Err(stop) => return Err(stop),
        }
    }
    Ok((footprints, rest))
}

fn receipts_at(alloc: Global, count: u32, bytes: &[u8]) -> Result<(Vec<Receipt>, &[u8]), ReadStop>
    ensures { AnswersUnlessFull read_stop (λ x. (x.0.items, x.1.now)) result
        (many receipt count bytes.now) }
{
    let mut receipts = Vec::new(alloc);
    let mut rest = bytes;
    for _ in 0..count {
        match receipt_at(alloc, rest) {
            Ok((receipt, after)) => {
                receipts.push(receipt)?;
                rest = after;
            }
            Err(stop) => return Err(stop),
        }
    }
    Ok((receipts, rest))
}

/// A number of at most 512.
fn small_at(bytes: &[u8]) -> Result<(u32, &[u8]), Left>
    ensures { Answers left_stop (λ x. (x.0, x.1.now)) result (small bytes.now) }
{
    let (number, rest) = u32_at(bytes)?;
    if number > MOST_OPS {
        return Err(Left(bytes.len()));
    }
    Ok((number, rest))
}
