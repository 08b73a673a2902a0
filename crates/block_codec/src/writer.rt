//! Writing a block.

ghost use Rattle.std.specs.Prelude.{◌≡◌, ◌<◌, ◌≤◌, ◌^◌, ◌++◌, IfOk, IsTrue, OnOk, length};
ghost use Rattle.std.specs.Int.{w32, to_be_bytes};
ghost use Rattle.std.specs.List.{flat_map, AllByRecursion};
ghost use Rattle.value_core.specs.Leaves.{is_name};
ghost use Rattle.cell_names.specs.Spelling.{spell_footprint, IsFootprint};
ghost use Rattle.op_rules.specs.Operations.{IsLawful};
ghost use Rattle.block_codec.specs.Block.{IsBlock, IsEnd, IsList, IsOp, IsReceipt};
ghost use Rattle.block_codec.specs.Format.{CanBePublished, CanEnd, IsWithinFormat};
ghost use Rattle.block_codec.specs.Spelling.{list_bytes, name_bytes, op_bytes, published_bytes, raised_bytes, receipt_bytes, spelling, tag_of};

use crate::block::Block;
use crate::limits::MOST_OPS;
use cell_names::{Footprint, NoMemory, write_footprint};
use join_schedule::Joins;
use michelson_code::Why;
use op_rules::{Op, Receipt};
use std::alloc::Global;
use value_codec::write_val;
use value_core::Name;

/// The one spelling of a block.
pub fn write_block(alloc: Global, block: &Block) -> Result<Vec<u8>, NoMemory>
    requires { IsWithinFormat block.now }
    ensures written { IfOk result (λ v. v.items ≡ spelling block.now) }
    // So `read_block` reads it again.
    ensures spelt { IfOk result (λ v. IsBlock block.now) }
{
    let mut out = Vec::new(alloc);
    out.extend_from_slice(b"FJB1")?;
    out.extend_from_slice(&block.parent)?;
    out.extend_from_slice(&block.head.level.to_be_bytes())?;
    out.extend_from_slice(&block.head.now.to_be_bytes())?;
    put_published(alloc, block, &mut out)?;
    out.extend_from_slice(&block.state)?;
    Ok(out)
}

/// The parts that have a place for each operation.
fn put_published(alloc: Global, block: &Block, out: &mut Vec<u8>) -> Result<(), NoMemory>
    requires { IsWithinFormat block.now }
    ensures written { OnOk result (out.new.items ≡ out.old.items ++ published_bytes block.now) }
    ensures ops { OnOk result (AllByRecursion IsOp block.now.ops) }
    ensures joins { OnOk result (AllByRecursion IsList block.now.joins) }
    ensures footprints { OnOk result (AllByRecursion IsFootprint block.now.footprints) }
    ensures receipts { OnOk result (AllByRecursion IsReceipt block.now.receipts) }
{
    put_count(block.ops.len(), out)?;
    put_ops(alloc, &block.ops, out)?;
    put_joins(&block.joins, out)?;
    put_footprints(alloc, &block.footprints, out)?;
    put_receipts(alloc, &block.receipts, out)
}

fn put_count(count: usize, out: &mut Vec<u8>) -> Result<(), NoMemory>
    requires { count < 2 ^ 32 }
    ensures { OnOk result (out.new.items ≡ out.old.items ++ to_be_bytes w32 count) }
{
    out.extend_from_slice(&(count as u32).to_be_bytes())
}

fn put_ops(alloc: Global, ops: &[Op], out: &mut Vec<u8>) -> Result<(), NoMemory>
    requires { AllByRecursion IsLawful ops.now }
    ensures written { OnOk result (out.new.items ≡ out.old.items ++ flat_map op_bytes ops.now) }
    ensures spelt { OnOk result (AllByRecursion IsOp ops.now) }
{
    for op in ops {
        put_op(alloc, op, out)?;
    }
    Ok(())
}

fn put_op(alloc: Global, op: &Op, out: &mut Vec<u8>) -> Result<(), NoMemory>
    requires { IsLawful op.now }
    ensures written { OnOk result (out.new.items ≡ out.old.items ++ op_bytes op.now) }
    ensures spelt { OnOk result (IsOp op.now) }
{
    out.extend_from_slice(op.source.bytes())?;
    out.extend_from_slice(op.dest.bytes())?;
    put_name(&op.entry, out)?;
    write_val(alloc, &op.param, out)?;
    out.extend_from_slice(&op.amount.to_be_bytes())?;
    out.extend_from_slice(&op.gas.to_be_bytes())?;
    out.extend_from_slice(&op.turns.to_be_bytes())?;
    Ok(())
}

fn put_name(name: &Name, out: &mut Vec<u8>) -> Result<(), NoMemory>
    ensures written { OnOk result (out.new.items ≡ out.old.items ++ name_bytes name.now) }
    ensures spelt { IsTrue (is_name name.now) }
{
    let bytes = name.bytes();
    out.push(bytes.len() as u8)?;
    out.extend_from_slice(bytes)
}

fn put_joins(joins: &Joins, out: &mut Vec<u8>) -> Result<(), NoMemory>
    requires { AllByRecursion (λ list. length list ≤ MOST_OPS) joins.now }
    ensures written { OnOk result (out.new.items ≡ out.old.items ++ flat_map list_bytes joins.now) }
    ensures spelt { OnOk result (AllByRecursion IsList joins.now) }
{
    for number in 0..joins.len() {
        if let Some(list) = joins.of(number) {
            put_list(list, out)?;
        }
    }
    Ok(())
}

fn put_list(list: &[u32], out: &mut Vec<u8>) -> Result<(), NoMemory>
    requires { length list.now ≤ MOST_OPS }
    ensures written { OnOk result (out.new.items ≡ out.old.items ++ list_bytes list.now) }
    ensures spelt { OnOk result (IsList list.now) }
{
    put_count(list.len(), out)?;
    for number in list {
        out.extend_from_slice(&number.to_be_bytes())?;
    }
    Ok(())
}

fn put_footprints(alloc: Global, all: &[Footprint], out: &mut Vec<u8>) -> Result<(), NoMemory>
    requires { AllByRecursion CanBePublished all.now }
    ensures written { OnOk result (out.new.items
        ≡ out.old.items ++ flat_map spell_footprint all.now) }
    ensures spelt { OnOk result (AllByRecursion IsFootprint all.now) }
{
    for footprint in all {
        put_footprint(alloc, footprint, out)?;
    }
    Ok(())
}

fn put_footprint(alloc: Global, footprint: &Footprint, out: &mut Vec<u8>) -> Result<(), NoMemory>
    requires { CanBePublished footprint.now }
    ensures written { OnOk result (out.new.items ≡ out.old.items ++ spell_footprint footprint.now) }
    ensures spelt { OnOk result (IsFootprint footprint.now) }
{
    write_footprint(alloc, footprint, out)
}

fn put_receipts(alloc: Global, receipts: &[Receipt], out: &mut Vec<u8>) -> Result<(), NoMemory>
    requires { AllByRecursion (λ r. CanEnd r.end) receipts.now }
    ensures written { OnOk result (out.new.items
        ≡ out.old.items ++ flat_map receipt_bytes receipts.now) }
    ensures spelt { OnOk result (AllByRecursion IsReceipt receipts.now) }
{
    for receipt in receipts {
        put_receipt(alloc, receipt, out)?;
    }
    Ok(())
}

fn put_receipt(alloc: Global, receipt: &Receipt, out: &mut Vec<u8>) -> Result<(), NoMemory>
    requires { CanEnd receipt.now.end }
    ensures written { OnOk result (out.new.items ≡ out.old.items ++ receipt_bytes receipt.now) }
    ensures spelt { OnOk result (IsReceipt receipt.now) }
{
    out.push(tag_of(&receipt.end))?;
    out.extend_from_slice(&receipt.gas.to_be_bytes())?;
    put_raised(alloc, &receipt.end, out)
}

/// The tag of an end.
fn tag_of(end: &Option<Why>) -> u8
    ensures { result ≡ tag_of end.now }
{
    match end {
        None => 0,
        Some(Why::BalanceTooLow) => 1,
        Some(Why::NoSuchContract) => 2,
        Some(Why::NoSuchEntry) => 3,
        Some(Why::WrongParameter) => 4,
        Some(Why::Raised(_)) => 5,
        Some(Why::Overflow) => 6,
        Some(Why::Shift) => 7,
        Some(Why::TooLarge) => 8,
        Some(Why::OutOfGas) => 9,
        Some(Why::OutOfTurns) => 10,
        Some(Why::BigMapMoved) => 11,
        Some(Why::TooManyCells) => 12,
        Some(Why::TooMuchData) => 13,
        Some(Why::TooManyCalls) => 14,
    }
}

/// The value that was raised, if one was.
fn put_raised(alloc: Global, end: &Option<Why>, out: &mut Vec<u8>) -> Result<(), NoMemory>
    requires { CanEnd end.now }
    ensures written { OnOk result (out.new.items ≡ out.old.items ++ raised_bytes end.now) }
    ensures spelt { OnOk result (IsEnd end.now) }
{
    match end {
        Some(Why::Raised(value)) => write_val(alloc, value, out),
        _ => Ok(()),
    }
}
