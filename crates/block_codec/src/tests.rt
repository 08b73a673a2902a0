//! Blocks read and written, and where faults are told.

use crate::{At, Block, FieldFault, read_block, write_block};
use cell_names::{Cell, Mode};
use michelson_code::Why;
use std::alloc::Global;
use std::test::Fail;
use value_core::{Address, Num, Text, Val, pair};

// Tags, kinds and modes, as docs/FORMATS.md numbers them.
const UNIT: u8 = 0x00;

const NAT: u8 = 0x04;

const TEXT: u8 = 0x07;

const BYTES: u8 = 0x08;

const PAIR: u8 = 0x0e;

const BIG_MAP: u8 = 0x12;

const CONTRACT: u8 = 0x01;

const BALANCE: u8 = 0x00;

const STORAGE: u8 = 0x01;

const CREDIT: u8 = 0x01;

const OWN: u8 = 0x02;

const APPLIED: u8 = 0x00;

const BALANCE_TOO_LOW: u8 = 0x01;

const RAISED: u8 = 0x05;

// The digests of the states before and after.
const PARENT: [u8; 32] = [0x11; 32];

const STATE: [u8; 32] = [0x22; 32];

// Where each field begins in a block of one transfer that touches two accounts.
const STARTS: [usize; 24] = [
    0,
    4,
    36,
    40,
    COUNT,
    SOURCE,
    DEST,
    NAME_LENGTH,
    NAME,
    PARAM,
    AMOUNT,
    GAS,
    TURNS,
    JOINS,
    CELLS,
    FIRST_CELL,
    130,
    FIRST_MODE,
    SECOND_CELL,
    154,
    SECOND_MODE,
    RECEIPT,
    178,
    AFTER,
];

const COUNT: usize = 48;

const SOURCE: usize = 52;

const DEST: usize = 74;

const NAME_LENGTH: usize = 96;

const NAME: usize = 97;

const PARAM: usize = 104;

const AMOUNT: usize = 105;

const GAS: usize = 113;

const TURNS: usize = 117;

const JOINS: usize = 121;

const CELLS: usize = 125;

const FIRST_CELL: usize = 129;

const FIRST_MODE: usize = 152;

const SECOND_CELL: usize = 153;

const SECOND_MODE: usize = 176;

const RECEIPT: usize = 177;

const AFTER: usize = 182;

const END: usize = 214;

// An address: its first byte, twenty bytes 00 and a last byte.
fn address(first: u8, last: u8) -> [u8; 22] {
    let mut bytes = [0; 22];
    bytes[0] = first;
    bytes[21] = last;
    bytes
}

// Appends fields, one after another.
fn put(out: &mut Vec<u8>, fields: &[&[u8]]) -> Result<(), Fail> {
    for field in fields {
        out.extend_from_slice(field)?;
    }
    Ok(())
}

// What stands before the operations: level 1, now 60, and how many there are.
fn put_front(out: &mut Vec<u8>, count: u32) -> Result<(), Fail> {
    let (level, now) = (1u32.to_be_bytes(), 60u64.to_be_bytes());
    put(out, &[b"FJB1", &PARENT, &level, &now, &count.to_be_bytes()])
}

// A transfer from the account 0a, without turns.
fn put_transfer(out: &mut Vec<u8>, last: u8, amount: u64, gas: u32) -> Result<(), Fail> {
    put(
        out,
        &[
            &address(0, 0x0a),
            &address(0, last),
            &[7],
            b"default",
            &[UNIT],
            &amount.to_be_bytes(),
            &gas.to_be_bytes(),
            &0u32.to_be_bytes(),
        ],
    )
}

// The footprint of a transfer that was done.
fn put_paid(out: &mut Vec<u8>, last: u8) -> Result<(), Fail> {
    put(
        out,
        &[
            &2u32.to_be_bytes(),
            &[BALANCE],
            &address(0, 0x0a),
            &[OWN],
            &[BALANCE],
            &address(0, last),
            &[CREDIT],
        ],
    )
}

fn put_receipt(out: &mut Vec<u8>, tag: u8) -> Result<(), Fail> {
    put(out, &[&[tag], &0u32.to_be_bytes()])
}

/// Level 1, now 60, 10 from 0a to 0b.
fn one(alloc: Global) -> Result<Vec<u8>, Fail> {
    let mut out = Vec::new(alloc);
    put_front(&mut out, 1)?;
    put_transfer(&mut out, 0x0b, 10, 0)?;
    put(&mut out, &[&0u32.to_be_bytes()])?;
    put_paid(&mut out, 0x0b)?;
    put_receipt(&mut out, APPLIED)?;
    put(&mut out, &[&STATE])?;
    Ok(out)
}

/// So many transfers of as much gas each, with no join and nothing touched.
fn many(alloc: Global, count: u32, gas: u32) -> Result<Vec<u8>, Fail> {
    let mut out = Vec::new(alloc);
    put_front(&mut out, count)?;
    for _ in 0..count {
        put_transfer(&mut out, 0x0b, (1 << 63) - 1, gas)?;
    }
    for _ in 0..count {
        put(&mut out, &[&0u32.to_be_bytes()])?;
    }
    for _ in 0..count {
        put(&mut out, &[&0u32.to_be_bytes()])?;
    }
    for _ in 0..count {
        put_receipt(&mut out, APPLIED)?;
    }
    put(&mut out, &[&STATE])?;
    Ok(out)
}

/// The block of one transfer with a field in place of the bytes from one place up to another.
fn with_field(alloc: Global, from: usize, to: usize, field: &[u8]) -> Result<Vec<u8>, Fail> {
    let whole = one(alloc)?;
    let mut bytes = Vec::from_slice(alloc, whole.get(..from).ok_or("no place")?)?;
    bytes.extend_from_slice(field)?;
    bytes.extend_from_slice(whole.get(to..).ok_or("no place")?)?;
    Ok(bytes)
}

/// The block that the bytes spell, which is written as the same bytes.
fn read_and_written(alloc: Global, bytes: &[u8]) -> Result<Block, Fail> {
    let block = read_block(alloc, bytes)?;
    let written = write_block(alloc, &block)?;
    if written.as_slice() != bytes {
        return Err(Fail::from("other bytes are written"));
    }
    Ok(block)
}

/// The place that is told of bytes that spell no block.
fn told(alloc: Global, bytes: &[u8]) -> Result<usize, Fail> {
    match read_block(alloc, bytes) {
        Ok(_) => Err(Fail::from("a block")),
        Err(FieldFault::At(At(place))) => Ok(place),
        Err(FieldFault::NoMemory) => Err(Fail::from("no memory")),
    }
}

#[test]
fn a_block_of_one_transfer_has_214_bytes(rt: HostRuntime) -> Result<(), Fail> {
    let bytes = one(rt.alloc())?;
    assert_eq!(rt; bytes.len(), END);
    let block = read_and_written(rt.alloc(), &bytes)?;
    assert_eq!(rt; block.parent, PARENT);
    assert_eq!(rt; (block.head.level, block.head.now), (1, 60));
    assert_eq!(rt; block.state, STATE);
    assert_eq!(rt; block.ops.len(), 1);
    let op = block.ops.first().ok_or("no operation")?;
    assert_eq!(rt; op.source.bytes(), &address(0, 0x0a));
    assert_eq!(rt; op.dest.bytes(), &address(0, 0x0b));
    assert_eq!(rt; op.entry.bytes(), b"default".as_slice());
    assert!(rt; op.param.same(&Val::Unit));
    assert_eq!(rt; (op.amount, op.gas, op.turns), (10, 0, 0));
    assert_eq!(rt; block.joins.of(0).ok_or("no list")?, [].as_slice());
    let paid = Cell::Balance(
        Address::from_bytes(&address(0, 0x0b))
            .ok()
            .ok_or("no address")?,
    );
    let footprint = block.footprints.first().ok_or("no footprint")?;
    assert_eq!(rt; footprint.get(&paid), Some(Mode::Credit));
    Ok(())
}

#[test]
fn a_call_with_a_param_is_read_and_written(rt: HostRuntime) -> Result<(), Fail> {
    let alloc = rt.alloc();
    let mut call = Vec::new(alloc);
    let mut five = [0; 16];
    five[15] = 5;
    let gas = 92u32.to_be_bytes();
    put(
        &mut call,
        &[
            &address(CONTRACT, 0x50),
            &[6],
            b"Vote_2",
            &[PAIR, NAT],
            &five,
            &[TEXT, 0, 0, 0, 2],
            b"no",
            &7u64.to_be_bytes(),
            &gas,
            &3u32.to_be_bytes(),
        ],
    )?;
    let block = read_and_written(alloc, &with_field(alloc, DEST, JOINS, &call)?)?;
    let op = block.ops.first().ok_or("no operation")?;
    assert_eq!(rt; op.dest.bytes(), &address(CONTRACT, 0x50));
    assert_eq!(rt; op.entry.bytes(), b"Vote_2".as_slice());
    let text = Text::new(Vec::from_slice(alloc, b"no")?).ok_or("no text")?;
    let number = Num::new(5).ok_or("no number")?;
    assert!(rt;
        op.param
            .same(&pair(alloc, Val::Nat(number), Val::Text(text))?)
    );
    assert_eq!(rt; (op.amount, op.gas, op.turns), (7, 92, 3));
    Ok(())
}

#[test]
fn each_end_without_a_value_is_read_and_written(rt: HostRuntime) -> Result<(), Fail> {
    let ends = [
        (0x00, None),
        (0x01, Some(Why::BalanceTooLow)),
        (0x02, Some(Why::NoSuchContract)),
        (0x03, Some(Why::NoSuchEntry)),
        (0x04, Some(Why::WrongParameter)),
        (0x06, Some(Why::Overflow)),
        (0x07, Some(Why::Shift)),
        (0x08, Some(Why::TooLarge)),
        (0x09, Some(Why::OutOfGas)),
        (0x0a, Some(Why::OutOfTurns)),
        (0x0b, Some(Why::BigMapMoved)),
        (0x0c, Some(Why::TooManyCells)),
        (0x0d, Some(Why::TooMuchData)),
        (0x0e, Some(Why::TooManyCalls)),
    ];
    for (tag, end) in ends {
        let bytes = with_field(rt.alloc(), RECEIPT, AFTER, &[tag, 0, 0, 0, 92])?;
        let block = read_and_written(rt.alloc(), &bytes)?;
        let wanted = op_rules::Receipt { end, gas: 92 };
        let receipt = block.receipts.first().ok_or("no receipt")?;
        assert!(rt; receipt.same(&wanted), "{tag}");
    }
    Ok(())
}

#[test]
fn a_raised_value_is_read_and_written(rt: HostRuntime) -> Result<(), Fail> {
    let receipt = [RAISED, 0, 0, 0, 92, TEXT, 0, 0, 0, 2, b'n', b'o'];
    let bytes = with_field(rt.alloc(), RECEIPT, AFTER, &receipt)?;
    let block = read_and_written(rt.alloc(), &bytes)?;
    let text = Text::new(Vec::from_slice(rt.alloc(), b"no")?).ok_or("no text")?;
    let end = Some(Why::Raised(Val::Text(text)));
    let published = block.receipts.first().ok_or("no receipt")?;
    assert!(rt; published.same(&op_rules::Receipt { end, gas: 92 }));
    Ok(())
}

#[test]
fn a_join_and_a_low_balance_are_read_and_written(rt: HostRuntime) -> Result<(), Fail> {
    let mut out = Vec::new(rt.alloc());
    put_front(&mut out, 2)?;
    put_transfer(&mut out, 0x0b, 60, 0)?;
    put_transfer(&mut out, 0x0c, 60, 0)?;
    let (no_join, one_join) = (0u32.to_be_bytes(), 1u32.to_be_bytes());
    put(&mut out, &[&no_join, &one_join, &0u32.to_be_bytes()])?;
    put_paid(&mut out, 0x0b)?;
    put(
        &mut out,
        &[&1u32.to_be_bytes(), &[BALANCE], &address(0, 0x0a), &[OWN]],
    )?;
    put_receipt(&mut out, APPLIED)?;
    put_receipt(&mut out, BALANCE_TOO_LOW)?;
    put(&mut out, &[&STATE])?;
    let block = read_and_written(rt.alloc(), &out)?;
    assert_eq!(rt; block.ops.len(), 2);
    assert_eq!(rt; block.joins.of(0).ok_or("no list")?, [].as_slice());
    assert_eq!(rt; block.joins.of(1).ok_or("no list")?, [0].as_slice());
    assert_eq!(rt; block.footprints.len(), 2);
    assert_eq!(rt; block.receipts.len(), 2);
    Ok(())
}

// 512 operations of 1,953,125 gas, which is 1,000,000,000 together.
#[test]
fn a_block_of_512_operations_is_read_and_written(rt: HostRuntime) -> Result<(), Fail> {
    let bytes = many(rt.alloc(), 512, 1_953_125)?;
    let block = read_and_written(rt.alloc(), &bytes)?;
    assert_eq!(rt; block.ops.len(), 512);
    assert_eq!(rt; told(rt.alloc(), &many(rt.alloc(), 513, 0)?)?, COUNT);
    Ok(())
}

#[test]
fn the_gas_with_which_the_sum_passes_is_refused(rt: HostRuntime) -> Result<(), Fail> {
    let ten = many(rt.alloc(), 10, 100_000_000)?;
    assert!(rt; read_block(rt.alloc(), &ten).is_ok());
    // An operation is 69 bytes long here.
    let eleven = many(rt.alloc(), 11, 100_000_000)?;
    assert_eq!(rt; told(rt.alloc(), &eleven)?, GAS + 10 * 69);
    Ok(())
}

#[test]
fn a_block_that_is_cut_is_refused_at_the_field_that_is_cut(rt: HostRuntime) -> Result<(), Fail> {
    let whole = one(rt.alloc())?;
    for length in 0..END {
        let cut = whole.get(..length).ok_or("no place")?;
        let mut place = 0;
        for start in STARTS {
            if start <= length {
                place = start;
            }
        }
        assert_eq!(rt; told(rt.alloc(), cut)?, place);
    }
    Ok(())
}

#[test]
fn a_byte_behind_the_end_is_refused(rt: HostRuntime) -> Result<(), Fail> {
    let bytes = with_field(rt.alloc(), END, END, &[0])?;
    assert_eq!(rt; told(rt.alloc(), &bytes)?, END);
    Ok(())
}

#[test]
fn exchanged_cells_are_refused_at_the_second(rt: HostRuntime) -> Result<(), Fail> {
    let mut cells = Vec::new(rt.alloc());
    put(
        &mut cells,
        &[
            &[BALANCE],
            &address(0, 0x0b),
            &[CREDIT],
            &[BALANCE],
            &address(0, 0x0a),
            &[OWN],
        ],
    )?;
    let bytes = with_field(rt.alloc(), FIRST_CELL, RECEIPT, &cells)?;
    assert_eq!(rt; told(rt.alloc(), &bytes)?, SECOND_CELL);
    Ok(())
}

#[test]
fn an_unlawful_field_is_refused_at_its_first_byte(rt: HostRuntime) -> Result<(), Fail> {
    let many = 513u32.to_be_bytes();
    let (cells, same) = (257u32.to_be_bytes(), address(0, 0x0a));
    let amount = (1u64 << 63).to_be_bytes();
    let (gas, turns) = (100_000_001u32.to_be_bytes(), 1_000_001u32.to_be_bytes());
    let table: [(usize, &[u8], usize, &str); 19] = [
        (0, b"G", 0, "another magic"),
        (SOURCE, &[CONTRACT], SOURCE, "a contract is the source"),
        (SOURCE, &[2], SOURCE, "the source is no address"),
        (DEST, &[2], DEST, "the destination is no address"),
        (NAME_LENGTH, &[0], NAME_LENGTH, "a name of no letters"),
        (NAME_LENGTH, &[32], NAME_LENGTH, "a name of 32 letters"),
        (NAME, b"defau-t", NAME, "a name with a hyphen"),
        (PARAM, &[BIG_MAP], PARAM, "a param that is a big map"),
        (PARAM, &[0x13], PARAM, "a param with no tag"),
        (AMOUNT, &amount, AMOUNT, "an amount of 2^63"),
        (GAS, &gas, GAS, "a gas of more than 100,000,000"),
        (TURNS, &turns, TURNS, "turns of more than 1,000,000"),
        (JOINS, &many, JOINS, "513 joins"),
        (CELLS, &cells, CELLS, "257 cells touched"),
        (SECOND_CELL + 1, &same, SECOND_CELL, "a cell twice"),
        (FIRST_CELL, &[STORAGE], SECOND_CELL, "a balance last"),
        (FIRST_MODE, &[3], FIRST_MODE, "a fourth mode"),
        (RECEIPT, &[15], RECEIPT, "an end that there isn't"),
        (RECEIPT, &[RAISED], AFTER, "an end without its value"),
    ];
    for (at, field, place, case) in table {
        let bytes = with_field(rt.alloc(), at, at.saturating_add(field.len()), field)?;
        assert_eq!(rt; told(rt.alloc(), &bytes)?, place, "{case}");
    }
    Ok(())
}

#[test]
fn a_big_map_is_refused_at_its_tag(rt: HostRuntime) -> Result<(), Fail> {
    let param = [PAIR, UNIT, BIG_MAP, 0];
    let bytes = with_field(rt.alloc(), PARAM, AMOUNT, &param)?;
    assert_eq!(rt; told(rt.alloc(), &bytes)?, PARAM + 2);
    let receipt = [RAISED, 0, 0, 0, 0, PAIR, UNIT, BIG_MAP, 0];
    let bytes = with_field(rt.alloc(), RECEIPT, AFTER, &receipt)?;
    assert_eq!(rt; told(rt.alloc(), &bytes)?, AFTER + 2);
    Ok(())
}

// 131,071 bytes have the size 4,096.
#[test]
fn a_param_is_at_most_4096_in_size(rt: HostRuntime) -> Result<(), Fail> {
    let mut param = Vec::from_slice(rt.alloc(), &[BYTES, 0, 1, 0xff, 0xff])?;
    for _ in 0..131_071 {
        param.push(0)?;
    }
    let bytes = with_field(rt.alloc(), PARAM, AMOUNT, &param)?;
    assert!(rt; read_block(rt.alloc(), &bytes).is_ok());
    let mut larger = Vec::from_slice(rt.alloc(), &[PAIR])?;
    put(&mut larger, &[&param, &[UNIT]])?;
    let bytes = with_field(rt.alloc(), PARAM, AMOUNT, &larger)?;
    assert_eq!(rt; told(rt.alloc(), &bytes)?, PARAM);
    Ok(())
}

#[test]
fn the_limits_of_an_operation_are_read(rt: HostRuntime) -> Result<(), Fail> {
    let amount = ((1u64 << 63) - 1).to_be_bytes();
    let (gas, turns) = (100_000_000u32.to_be_bytes(), 1_000_000u32.to_be_bytes());
    let mut name = Vec::from_slice(rt.alloc(), &[31])?;
    for _ in 0..31 {
        name.push(b'_')?;
    }
    let table: [(usize, usize, &[u8]); 5] = [
        (NAME_LENGTH, PARAM, name.as_slice()),
        (NAME_LENGTH, PARAM, b"\x01Z"),
        (AMOUNT, GAS, &amount),
        (GAS, TURNS, &gas),
        (TURNS, JOINS, &turns),
    ];
    for (from, to, field) in table {
        let bytes = with_field(rt.alloc(), from, to, field)?;
        read_and_written(rt.alloc(), &bytes)?;
    }
    Ok(())
}
