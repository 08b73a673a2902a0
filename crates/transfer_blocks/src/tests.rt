//! Blocks read and written, and where faults and what isn't built are told.

use crate::{At, Block, FormatFault, read_block, write_block};
use cell_names::{Cell, Mode};
use std::alloc::Global;
use std::test::Fail;
use value_core::Address;

// Tags, kinds and modes, as docs/FORMATS.md numbers them.
const UNIT: u8 = 0x00;

const MAP: u8 = 0x11;

const BIG_MAP: u8 = 0x12;

const CONTRACT: u8 = 0x01;

const BALANCE: u8 = 0x00;

const STORAGE: u8 = 0x01;

const CREDIT: u8 = 0x01;

const OWN: u8 = 0x02;

const APPLIED: u8 = 0x00;

const BALANCE_TOO_LOW: u8 = 0x01;

const NO_SUCH_CONTRACT: u8 = 0x02;

const TOO_MANY_CALLS: u8 = 0x0e;

// The digests of the states before and after.
const PARENT: [u8; 32] = [0x11; 32];

const STATE: [u8; 32] = [0x22; 32];

// The places of the fields in a block of one transfer that touches two accounts.
const COUNT: usize = 48;

const SOURCE: usize = COUNT + 4;

const DEST: usize = SOURCE + 22;

const NAME_LENGTH: usize = DEST + 22;

const NAME: usize = NAME_LENGTH + 1;

const PARAM: usize = NAME + 7;

const AMOUNT: usize = PARAM + 1;

const GAS: usize = AMOUNT + 8;

const TURNS: usize = GAS + 4;

const JOINS: usize = TURNS + 4;

const CELLS: usize = JOINS + 4;

const FIRST_CELL: usize = CELLS + 4;

const FIRST_MODE: usize = FIRST_CELL + 23;

const SECOND_CELL: usize = FIRST_MODE + 1;

const SECOND_MODE: usize = SECOND_CELL + 23;

const RECEIPT: usize = SECOND_MODE + 1;

const AFTER: usize = RECEIPT + 5;

const END: usize = AFTER + 32;

// The address of an implicit account: the byte 00, twenty bytes 00 and a last byte.
fn address(last: u8) -> [u8; 22] {
    let mut bytes = [0; 22];
    bytes[21] = last;
    bytes
}

fn account(last: u8) -> Result<Address, Fail> {
    let bytes = address(last);
    Ok(Address::from_bytes(&bytes).ok().ok_or("no address")?)
}

// Appends fields, one after another.
fn put(out: &mut Vec<u8>, fields: &[&[u8]]) -> Result<(), Fail> {
    for field in fields {
        out.extend_from_slice(field)?;
    }
    Ok(())
}

// What stands before the operations: level 1, now 60, and how many there are.
fn put_front(out: &mut Vec<u8>, count: u32) -> Result<(), Fail> {
    let (level, now) = (1u32.to_be_bytes(), 60u64.to_be_bytes());
    put(out, &[b"FJB1", &PARENT, &level, &now, &count.to_be_bytes()])
}

// A transfer from the account 0a, without turns.
fn put_transfer(out: &mut Vec<u8>, dest: u8, amount: u64, gas: u32) -> Result<(), Fail> {
    put(
        out,
        &[
            &address(0x0a),
            &address(dest),
            &[7],
            b"default",
            &[UNIT],
            &amount.to_be_bytes(),
            &gas.to_be_bytes(),
            &0u32.to_be_bytes(),
        ],
    )
}

// The footprint of a transfer that was done.
fn put_paid(out: &mut Vec<u8>, dest: u8) -> Result<(), Fail> {
    put(
        out,
        &[
            &2u32.to_be_bytes(),
            &[BALANCE],
            &address(0x0a),
            &[OWN],
            &[BALANCE],
            &address(dest),
            &[CREDIT],
        ],
    )
}

fn put_receipt(out: &mut Vec<u8>, tag: u8) -> Result<(), Fail> {
    put(out, &[&[tag], &0u32.to_be_bytes()])
}

/// Level 1, now 60, 10 from 0a to 0b.
fn one(alloc: Global) -> Result<Vec<u8>, Fail> {
    let mut out = Vec::new(alloc);
    put_front(&mut out, 1)?;
    put_transfer(&mut out, 0x0b, 10, 0)?;
    put(&mut out, &[&0u32.to_be_bytes()])?;
    put_paid(&mut out, 0x0b)?;
    put_receipt(&mut out, APPLIED)?;
    put(&mut out, &[&STATE])?;
    Ok(out)
}

/// The same with 60 from 0a to 0b, and 60 from 0a to 0c, which 0a has too little for: it is joined
/// to the first, and touched 0a alone.
fn two(alloc: Global) -> Result<Vec<u8>, Fail> {
    let mut out = Vec::new(alloc);
    put_front(&mut out, 2)?;
    put_transfer(&mut out, 0x0b, 60, 0)?;
    put_transfer(&mut out, 0x0c, 60, 0)?;
    let (no_join, one_join) = (0u32.to_be_bytes(), 1u32.to_be_bytes());
    put(&mut out, &[&no_join, &one_join, &0u32.to_be_bytes()])?;
    put_paid(&mut out, 0x0b)?;
    put(
        &mut out,
        &[&1u32.to_be_bytes(), &[BALANCE], &address(0x0a), &[OWN]],
    )?;
    put_receipt(&mut out, APPLIED)?;
    put_receipt(&mut out, BALANCE_TOO_LOW)?;
    put(&mut out, &[&STATE])?;
    Ok(out)
}

// The block that the bytes spell, which is written as the same bytes.
fn read_and_written(alloc: Global, bytes: &[u8]) -> Result<Block, Fail> {
    let block = read_block(alloc, bytes)?;
    let written = write_block(alloc, &block)?;
    if written.as_slice() != bytes {
        return Err(Fail::from("other bytes are written"));
    }
    Ok(block)
}

#[test]
fn a_block_of_one_transfer_is_read_and_written(rt: HostRuntime) -> Result<(), Fail> {
    let bytes = one(rt.alloc())?;
    assert_eq!(rt; bytes.len(), END);
    let block = read_and_written(rt.alloc(), &bytes)?;
    assert_eq!(rt; block.parent, PARENT);
    assert_eq!(rt; (block.head.level, block.head.now), (1, 60));
    assert_eq!(rt; block.state, STATE);
    assert_eq!(rt; block.ops.len(), 1);
    let op = block.ops[0];
    assert_eq!(rt; op.source.bytes(), &address(0x0a));
    assert_eq!(rt; (op.amount, op.gas, op.turns), (10, 0, 0));
    Ok(())
}

#[test]
fn a_join_and_a_low_balance_are_read_and_written(rt: HostRuntime) -> Result<(), Fail> {
    let block = read_and_written(rt.alloc(), &two(rt.alloc())?)?;
    assert_eq!(rt; block.ops.len(), 2);
    assert_eq!(rt; block.ops[1].dest.bytes(), &address(0x0c));
    assert_eq!(rt; block.joins.of(0).ok_or("no list")?, [].as_slice());
    assert_eq!(rt; block.joins.of(1).ok_or("no list")?, [0].as_slice());
    assert_eq!(rt; block.footprints.len(), 2);
    let touched = block.footprints[1].get(&Cell::Balance(account(0x0a)?));
    assert_eq!(rt; touched, Some(Mode::Own));
    assert_eq!(rt; block.receipts.len(), 2);
    let (done, low) = (block.receipts[0], block.receipts[1]);
    assert_eq!(rt; (done.applied, done.gas), (true, 0));
    assert_eq!(rt; (low.applied, low.gas), (false, 0));
    Ok(())
}

// 512 operations of 1,953,125 gas, which is 1,000,000,000 together, the last with 512 joins.
#[test]
fn a_block_of_512_operations_is_read_and_written(rt: HostRuntime) -> Result<(), Fail> {
    let mut out = Vec::new(rt.alloc());
    put_front(&mut out, 512)?;
    for _ in 0..512 {
        put_transfer(&mut out, 0x0b, (1 << 63) - 1, 1_953_125)?;
    }
    for _ in 1..512 {
        put(&mut out, &[&0u32.to_be_bytes()])?;
    }
    put(&mut out, &[&512u32.to_be_bytes()])?;
    for number in 0..512u32 {
        put(&mut out, &[&number.to_be_bytes()])?;
    }
    for _ in 0..512 {
        put_paid(&mut out, 0x0b)?;
    }
    for _ in 0..512 {
        put_receipt(&mut out, APPLIED)?;
    }
    put(&mut out, &[&STATE])?;
    let block = read_and_written(rt.alloc(), &out)?;
    assert_eq!(rt; block.ops.len(), 512);
    assert_eq!(rt; block.joins.of(511).ok_or("no list")?.len(), 512);
    Ok(())
}

// The block of one transfer with other bytes from a place on.
fn changed(alloc: Global, at: usize, field: &[u8]) -> Result<Vec<u8>, Fail> {
    let whole = one(alloc)?;
    let mut bytes = whole.clone()?;
    bytes.truncate(at);
    bytes.extend_from_slice(field)?;
    let end = bytes.len();
    if end < whole.len() {
        bytes.extend_from_slice(&whole[end..])?;
    }
    Ok(bytes)
}

// What is told of it.
fn told(alloc: Global, at: usize, field: &[u8]) -> Result<FormatFault, Fail> {
    let bytes = changed(alloc, at, field)?;
    Ok(read_block(alloc, &bytes).err().ok_or("a block")?)
}

#[test]
fn a_fault_is_told_at_the_first_byte_of_its_field(rt: HostRuntime) -> Result<(), Fail> {
    let many = 513u32.to_be_bytes();
    let (cells, same) = (257u32.to_be_bytes(), address(0x0a));
    let amount = (1u64 << 63).to_be_bytes();
    let (gas, turns) = (100_000_001u32.to_be_bytes(), 1_000_001u32.to_be_bytes());
    let table: [(usize, &[u8], usize, &str); 17] = [
        (0, b"G", 0, "another magic"),
        (COUNT, &many, COUNT, "513 operations"),
        (SOURCE, &[CONTRACT], SOURCE, "the source is a contract"),
        (DEST, &[2], DEST, "the destination is no address"),
        (NAME_LENGTH, &[0], NAME_LENGTH, "an entry of no letters"),
        (NAME_LENGTH, &[32], NAME_LENGTH, "an entry of 32 letters"),
        (NAME, b" ", NAME, "an entry that begins with a blank"),
        (PARAM, &[BIG_MAP], PARAM, "a param that is a big map"),
        (AMOUNT, &amount, AMOUNT, "an amount of 2^63"),
        (GAS, &gas, GAS, "a gas of more than 100,000,000"),
        (TURNS, &turns, TURNS, "turns of more than 1,000,000"),
        (JOINS, &many, JOINS, "513 joins"),
        (CELLS, &cells, CELLS, "257 cells touched"),
        (
            SECOND_CELL + 1,
            &same,
            SECOND_CELL,
            "a cell as the one before",
        ),
        (
            FIRST_CELL,
            &[STORAGE],
            SECOND_CELL,
            "a balance behind a storage",
        ),
        (FIRST_MODE, &[3], FIRST_MODE, "a fourth mode"),
        (RECEIPT, &[15], RECEIPT, "a receipt that there isn't"),
    ];
    for (at, field, place, case) in table {
        assert!(rt;
            told(rt.alloc(), at, field)? == FormatFault::At(At(place)),
            "{case}"
        );
    }
    Ok(())
}

#[test]
fn what_is_not_built_is_told_apart(rt: HostRuntime) -> Result<(), Fail> {
    let table: [(usize, &[u8], &str); 6] = [
        (DEST, &[CONTRACT], "the destination is a contract"),
        (NAME_LENGTH, &[31], "an entry of 31 letters"),
        (NAME, b"D", "the entry Default"),
        (PARAM, &[MAP], "a param that is a map"),
        (RECEIPT, &[NO_SUCH_CONTRACT], "no such contract"),
        (RECEIPT, &[TOO_MANY_CALLS], "too many calls"),
    ];
    for (at, field, case) in table {
        assert!(rt;
            told(rt.alloc(), at, field)? == FormatFault::NotYet(at),
            "{case}"
        );
    }
    Ok(())
}

#[test]
fn the_greatest_gas_and_turns_are_read(rt: HostRuntime) -> Result<(), Fail> {
    let (gas, turns) = (100_000_000u32.to_be_bytes(), 1_000_000u32.to_be_bytes());
    for (at, field) in [(GAS, gas), (TURNS, turns)] {
        let bytes = changed(rt.alloc(), at, &field)?;
        assert!(rt; read_block(rt.alloc(), &bytes).is_ok());
    }
    Ok(())
}

#[test]
fn a_block_that_is_cut_or_longer_is_refused_at_its_end(rt: HostRuntime) -> Result<(), Fail> {
    let mut bytes = one(rt.alloc())?;
    bytes.push(0)?;
    assert_eq!(rt; bytes.len(), END + 1);
    let longer = read_block(rt.alloc(), &bytes).err();
    assert!(rt; longer == Some(FormatFault::At(At(END))));
    bytes.pop();
    bytes.pop();
    assert_eq!(rt; bytes.len(), END - 1);
    let cut = read_block(rt.alloc(), &bytes).err();
    assert!(rt; cut == Some(FormatFault::At(At(AFTER))));
    Ok(())
}

#[test]
fn exchanged_cells_are_refused_at_the_second(rt: HostRuntime) -> Result<(), Fail> {
    let mut cells = Vec::new(rt.alloc());
    put(
        &mut cells,
        &[
            &[BALANCE],
            &address(0x0b),
            &[CREDIT],
            &[BALANCE],
            &address(0x0a),
            &[OWN],
        ],
    )?;
    assert!(rt; told(rt.alloc(), FIRST_CELL, &cells)? == FormatFault::At(At(SECOND_CELL)));
    Ok(())
}
