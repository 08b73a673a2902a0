//! Reading a block.

ghost use Rattle.std.specs.Prelude.{◌≡◌, [], IfOk};
ghost use Rattle.byte_fields.specs.Readers.{many};
ghost use Rattle.byte_fields.specs.Laws.{TellsWhole};
ghost use Rattle.byte_fields.specs.Told.{Answers, AnswersUnlessFull, read_stop};
ghost use Rattle.cell_names.specs.Reading.{footprint};
ghost use Rattle.cell_names.specs.Stops.{field_stop, format_stop, format_fault};
ghost use Rattle.transfer_blocks.specs.Block.{IsBlock};
ghost use Rattle.transfer_blocks.specs.Spelling.{spelling};
ghost use Rattle.transfer_blocks.specs.Reading.{block, block_from, block_of, list, numbers, ops, parts, published, receipt, small, tag};

use crate::block::Block;
use crate::fields::op_at;
use crate::transfer::{Receipt, Transfer};
use byte_fields::{ReadStop, array_at, mark_of, u8_at, u32_at, u64_at};
use cell_names::{FieldStop, Footprint, FormatFault, FormatStop, Head, fault_at, footprint_at};
use join_schedule::Joins;
use std::alloc::Global;
use std::marker::Model;

/// The block that all of the bytes spell.
pub fn read_block(alloc: Global, bytes: &[u8]) -> Result<Block, FormatFault>
    // What is read is spelt so.
    ensures found { IfOk result (λ b. IsBlock b × (bytes.now ≡ spelling b)) }
    // What is spelt so is read, unless memory runs out.
    ensures only { TellsWhole format_fault spelling IsBlock bytes.now result }
    // Which fault it is, or which field isn't built.
    ensures place { AnswersUnlessFull format_fault (λ x. x) result (block_of bytes.now) }
{
    told_block(alloc, bytes)
}

fn told_block(alloc: Global, bytes: &[u8]) -> Result<Block, FormatFault>
    ensures { AnswersUnlessFull format_fault (λ x. x) result (block_of bytes.now) }
{
    match block_at(alloc, bytes) {
        Ok(block) => Ok(block),
        Err(stop) => Err(fault_at(bytes.len(), stop)),
    }
}

/// The fields of a block, and nothing behind them.
#[tactic(auto, unfolding(crate::specs::Reading::block))]
fn block_at(alloc: Global, bytes: &[u8]) -> Result<Block, FormatStop>
    ensures { AnswersUnlessFull format_stop (λ b. (b, [])) result (block bytes.now) }
{
    let rest = mark_of(b"FJB1", bytes)?;
    let (parent, rest) = array_at::<32>(rest)?;
    let (level, rest) = u32_at(rest)?;
    let (now, rest) = u64_at(rest)?;
    let (published, rest) = published_at(alloc, rest)?;
    let (state, rest) = array_at::<32>(rest)?;
    if !rest.is_empty() {
        return Err(FormatStop::Left(rest.len()));
    }
    let head = Head { level, now };
    Ok(block_from(parent, head, published, state))
}

fn block_from(parent: [u8; 32], head: Head, published: Published, state: [u8; 32]) -> Block
    ensures { result ≡ block_from (parent, (head.level, (head.now, (published, state)))) }
{
    let Published {
        ops,
        joins,
        footprints,
        receipts,
    } = published;
    Block {
        parent,
        head,
        ops,
        joins,
        footprints,
        receipts,
        state,
    }
}

/// What a block publishes: the operations, and the joins, footprints and receipts of each.
#[derive(Drop)]
struct Published {
    ops: Vec<Transfer>,
    joins: Joins,
    footprints: Vec<Footprint>,
    receipts: Vec<Receipt>,
}

impl Model for Published {
    ghost use Rattle.std.specs.Coded.{codes};
    ghost use Rattle.value_core.specs.contracts.val.Val as val;
    ghost use Rattle.transfer_blocks.specs.Reading.{Parts};

    ghost Value = { Parts };

    ghost coded = { Prim.hlevel (codes, val.the_row.coded) };

    ghost view = { λ p. (p.ops.items, (p.joins, (p.footprints.items, p.receipts.items))) };
}

/// How many operations, and their parts.
fn published_at(alloc: Global, bytes: &[u8]) -> Result<(Published, &[u8]), FormatStop>
    ensures { AnswersUnlessFull format_stop (λ x. (x.0, x.1.now)) result (published bytes.now) }
{
    let (count, rest) = small_at(bytes)?;
    parts_at(alloc, count, rest)
}

/// The parts of so many operations.
#[tactic(auto, unfolding(crate::specs::Reading::parts))]
fn parts_at(alloc: Global, count: u32, bytes: &[u8]) -> Result<(Published, &[u8]), FormatStop>
    ensures { AnswersUnlessFull format_stop (λ x. (x.0, x.1.now)) result (parts count bytes.now) }
{
    let (ops, rest) = ops_at(alloc, count, bytes)?;
    let (joins, rest) = joins_at(alloc, count, rest)?;
    let (footprints, rest) = footprints_at(alloc, count, rest)?;
    let (receipts, rest) = receipts_at(alloc, count, rest)?;
    let published = Published {
        ops,
        joins,
        footprints,
        receipts,
    };
    Ok((published, rest))
}

/// So many operations, whose gas together stays within a block's.
fn ops_at(alloc: Global, count: u32, bytes: &[u8]) -> Result<(Vec<Transfer>, &[u8]), FormatStop>
    ensures { AnswersUnlessFull format_stop (λ x. (x.0.items, x.1.now)) result
        (ops count bytes.now) }
{
    let mut ops = Vec::new(alloc);
    let mut total = 0;
    let mut rest = bytes;
    for _ in 0..count {
        match op_at(total, rest) {
            Ok((op, after)) => {
                total += op.gas;
                ops.push(op)?;
                rest = after;
            }
            Err(stop) => return Err(FormatStop::from(stop)),
        }
    }
    Ok((ops, rest))
}

/// So many lists of joins.
fn joins_at(alloc: Global, count: u32, bytes: &[u8]) -> Result<(Joins, &[u8]), FormatStop>
    ensures { AnswersUnlessFull format_stop (λ x. (x.0, x.1.now)) result
        (many list count bytes.now) }
{
    let mut lists: Vec<Vec<u32>> = Vec::new(alloc);
    let mut rest = bytes;
    for _ in 0..count {
        match list_at(alloc, rest) {
            Ok((list, after)) => {
                lists.push(list)?;
                rest = after;
            }
            Err(stop) => return Err(stop),
        }
    }
    Ok((Joins::new(lists), rest))
}

/// A count, and so many numbers.
fn list_at(alloc: Global, bytes: &[u8]) -> Result<(Vec<u32>, &[u8]), FormatStop>
    ensures { AnswersUnlessFull format_stop (λ x. (x.0.items, x.1.now)) result (list bytes.now) }
{
    let (count, rest) = small_at(bytes)?;
    let (all, rest) = numbers_at(alloc, count, rest)?;
    Ok((all, rest))
}

fn numbers_at(alloc: Global, count: u32, bytes: &[u8]) -> Result<(Vec<u32>, &[u8]), ReadStop>
    ensures { AnswersUnlessFull read_stop (λ x. (x.0.items, x.1.now)) result
        (numbers count bytes.now) }
{
    let mut all = Vec::new(alloc);
    let mut rest = bytes;
    for _ in 0..count {
        match u32_at(rest) {
            Ok((number, after)) => {
                all.push(number)?;
                rest = after;
            }
            Err(stop) => return Err(ReadStop::from(stop)),
        }
    }
    Ok((all, rest))
}

fn footprints_at(
    alloc: Global,
    count: u32,
    bytes: &[u8],
) -> Result<(Vec<Footprint>, &[u8]), ReadStop>
    ensures { AnswersUnlessFull read_stop (λ x. (x.0.items, x.1.now)) result
        (many footprint count bytes.now) }
{
    let mut footprints: Vec<Footprint> = Vec::new(alloc);
    let mut rest = bytes;
    for _ in 0..count {
        match footprint_at(alloc, rest) {
            Ok((footprint, after)) => {
                footprints.push(footprint)?;
                rest = after;
            }
            Err(stop) => return Err(stop),
        }
    }
    Ok((footprints, rest))
}

fn receipts_at(alloc: Global, count: u32, bytes: &[u8]) -> Result<(Vec<Receipt>, &[u8]), FormatStop>
    ensures { AnswersUnlessFull format_stop (λ x. (x.0.items, x.1.now)) result
        (many receipt count bytes.now) }
{
    let mut receipts = Vec::new(alloc);
    let mut rest = bytes;
    for _ in 0..count {
        match receipt_at(rest) {
            Ok((receipt, after)) => {
                receipts.push(receipt)?;
                rest = after;
            }
            Err(stop) => return Err(FormatStop::from(stop)),
        }
    }
    Ok((receipts, rest))
}

#[tactic(auto, unfolding(crate::specs::Reading::receipt))]
fn receipt_at(bytes: &[u8]) -> Result<(Receipt, &[u8]), FieldStop>
    ensures { Answers field_stop (λ x. (x.0, x.1.now)) result (receipt bytes.now) }
{
    let (tag, rest) = tag_at(bytes)?;
    let (gas, rest) = u32_at(rest)?;
    let applied = tag == 0;
    Ok((Receipt { applied, gas }, rest))
}

/// The tag of a receipt.
fn tag_at(bytes: &[u8]) -> Result<(u8, &[u8]), FieldStop>
    ensures { Answers field_stop (λ x. (x.0, x.1.now)) result (tag bytes.now) }
{
    let (number, rest) = u8_at(bytes)?;
    match number {
        0 | 1 => Ok((number, rest)),
        2..=14 => Err(FieldStop::NotYet(bytes.len())),
        _ => Err(FieldStop::Left(bytes.len())),
    }
}

/// A number of at most 512.
fn small_at(bytes: &[u8]) -> Result<(u32, &[u8]), FieldStop>
    ensures { Answers field_stop (λ x. (x.0, x.1.now)) result (small bytes.now) }
{
    let (number, rest) = u32_at(bytes)?;
    if number > 512 {
        return Err(FieldStop::Left(bytes.len()));
    }
    Ok((number, rest))
}
