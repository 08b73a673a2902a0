//! Writing a block.

ghost use Rattle.std.specs.Prelude.{◌≡◌, ◌<◌, ◌≤◌, ◌^◌, ◌++◌, length, IfOk, OnOk};
ghost use Rattle.std.specs.Int.{w32, to_be_bytes};
ghost use Rattle.std.specs.List.{flat_map, AllByRecursion};
ghost use Rattle.cell_names.specs.Spelling.{spell_footprint, IsFootprint};
ghost use Rattle.transfer_blocks.specs.Block.{IsBlock, IsList};
ghost use Rattle.transfer_blocks.specs.Spelling.{list_bytes, op_bytes, published_bytes, receipt_bytes, spelling};

use crate::block::Block;
use crate::transfer::{Receipt, Transfer};
use cell_names::{Footprint, NoMemory, write_footprint};
use join_schedule::Joins;
use std::alloc::Global;

/// The one spelling of a block.
pub fn write_block(alloc: Global, block: &Block) -> Result<Vec<u8>, NoMemory>
    requires { IsBlock block.now }
    ensures { IfOk result (λ v. v.items ≡ spelling block.now) }
{
    let mut out = Vec::new(alloc);
    out.extend_from_slice(b"FJB1")?;
    out.extend_from_slice(&block.parent)?;
    out.extend_from_slice(&block.head.level.to_be_bytes())?;
    out.extend_from_slice(&block.head.now.to_be_bytes())?;
    put_published(alloc, block, &mut out)?;
    out.extend_from_slice(&block.state)?;
    Ok(out)
}

fn put_published(alloc: Global, block: &Block, out: &mut Vec<u8>) -> Result<(), NoMemory>
    requires { IsBlock block.now }
    ensures { OnOk result (out.new.items ≡ out.old.items ++ published_bytes block.now) }
{
    put_count(block.ops.len(), out)?;
    put_ops(&block.ops, out)?;
    put_joins(&block.joins, out)?;
    put_footprints(alloc, &block.footprints, out)?;
    put_receipts(&block.receipts, out)
}

fn put_count(count: usize, out: &mut Vec<u8>) -> Result<(), NoMemory>
    requires { count < 2 ^ 32 }
    ensures { OnOk result (out.new.items ≡ out.old.items ++ to_be_bytes w32 count) }
{
    out.extend_from_slice(&(count as u32).to_be_bytes())
}

fn put_ops(ops: &[Transfer], out: &mut Vec<u8>) -> Result<(), NoMemory>
    ensures { OnOk result (out.new.items ≡ out.old.items ++ flat_map op_bytes ops.now) }
{
    for op in ops {
        put_op(op, out)?;
    }
    Ok(())
}

fn put_op(op: &Transfer, out: &mut Vec<u8>) -> Result<(), NoMemory>
    ensures { OnOk result (out.new.items ≡ out.old.items ++ op_bytes op.now) }
{
    out.extend_from_slice(op.source.bytes())?;
    out.extend_from_slice(op.dest.bytes())?;
    out.extend_from_slice(b"\x07default\x00")?;
    out.extend_from_slice(&op.amount.to_be_bytes())?;
    out.extend_from_slice(&op.gas.to_be_bytes())?;
    out.extend_from_slice(&op.turns.to_be_bytes())?;
    Ok(())
}

fn put_joins(joins: &Joins, out: &mut Vec<u8>) -> Result<(), NoMemory>
    requires { AllByRecursion IsList joins.now }
    ensures { OnOk result (out.new.items ≡ out.old.items ++ flat_map list_bytes joins.now) }
{
    for number in 0..joins.len() {
        if let Some(list) = joins.of(number) {
            put_list(list, out)?;
        }
    }
    Ok(())
}

fn put_list(list: &[u32], out: &mut Vec<u8>) -> Result<(), NoMemory>
    requires { length list.now ≤ 512 }
    ensures { OnOk result (out.new.items ≡ out.old.items ++ list_bytes list.now) }
{
    put_count(list.len(), out)?;
    for number in list {
        out.extend_from_slice(&number.to_be_bytes())?;
    }
    Ok(())
}

fn put_footprints(alloc: Global, all: &[Footprint], out: &mut Vec<u8>) -> Result<(), NoMemory>
    requires { AllByRecursion IsFootprint all.now }
    ensures { OnOk result (out.new.items ≡ out.old.items ++ flat_map spell_footprint all.now) }
{
    for footprint in all {
        put_footprint(alloc, footprint, out)?;
    }
    Ok(())
}

fn put_footprint(alloc: Global, footprint: &Footprint, out: &mut Vec<u8>) -> Result<(), NoMemory>
    requires { IsFootprint footprint.now }
    ensures { OnOk result (out.new.items ≡ out.old.items ++ spell_footprint footprint.now) }
{
    write_footprint(alloc, footprint, out)
}

fn put_receipts(receipts: &[Receipt], out: &mut Vec<u8>) -> Result<(), NoMemory>
    ensures { OnOk result (out.new.items ≡ out.old.items ++ flat_map receipt_bytes receipts.now) }
{
    for receipt in receipts {
        put_receipt(receipt, out)?;
    }
    Ok(())
}

fn put_receipt(receipt: &Receipt, out: &mut Vec<u8>) -> Result<(), NoMemory>
    ensures { OnOk result (out.new.items ≡ out.old.items ++ receipt_bytes receipt.now) }
{
    out.push(if receipt.applied { 0 } else { 1 })?;
    out.extend_from_slice(&receipt.gas.to_be_bytes())?;
    Ok(())
}
