//! A state of two accounts, read and written, and where faults are told.

use crate::{At, FormatFault, Head, Holding, read_state, write_state};
use std::alloc::Global;
use std::test::Fail;
use value_core::Address;

// A cell's kinds and its value's tags, as docs/FORMATS.md numbers them.
const BALANCE: u8 = 0x00;

const STORAGE: u8 = 0x01;

const ENTRY: u8 = 0x02;

const UNIT: u8 = 0x00;

const MUTEZ: u8 = 0x05;

// The places of the fields in the file of a state of two accounts.
const MAGIC: usize = 0;

const LEVEL: usize = MAGIC + 4;

const NOW: usize = LEVEL + 4;

const CONTRACTS: usize = NOW + 8;

const CELLS: usize = CONTRACTS + 4;

const FIRST: usize = CELLS + 4;

const FIRST_ADDRESS: usize = FIRST + 1;

const FIRST_VALUE: usize = FIRST_ADDRESS + 22;

const FIRST_AMOUNT: usize = FIRST_VALUE + 1;

const SECOND: usize = FIRST_AMOUNT + 8;

const SECOND_ADDRESS: usize = SECOND + 1;

const SECOND_VALUE: usize = SECOND_ADDRESS + 22;

const SECOND_AMOUNT: usize = SECOND_VALUE + 1;

const END: usize = SECOND_AMOUNT + 8;

// The address of an implicit account: 21 bytes 00 and a last byte.
fn address(last: u8) -> [u8; 22] {
    let mut bytes = [0; 22];
    bytes[21] = last;
    bytes
}

fn account(last: u8) -> Result<Address, Fail> {
    let bytes = address(last);
    Ok(Address::from_bytes(&bytes).ok().ok_or("no address")?)
}

// Level 0, now 0, the first account has 100 and the second has 50.
fn file(alloc: Global) -> Result<Vec<u8>, Fail> {
    let fields: [&[u8]; 13] = [
        b"FJS1",
        &0u32.to_be_bytes(),
        &0u64.to_be_bytes(),
        &0u32.to_be_bytes(),
        &2u32.to_be_bytes(),
        &[BALANCE],
        &address(0x0a),
        &[MUTEZ],
        &100u64.to_be_bytes(),
        &[BALANCE],
        &address(0x0c),
        &[MUTEZ],
        &50u64.to_be_bytes(),
    ];
    let mut bytes = Vec::new(alloc);
    for field in fields {
        bytes.extend_from_slice(field)?;
    }
    Ok(bytes)
}

#[test]
fn a_state_of_two_accounts_is_read_and_written(rt: HostRuntime) -> Result<(), Fail> {
    let file = file(rt.alloc())?;
    let state = read_state(rt.alloc(), &file).ok().ok_or("refused")?;
    assert_eq!(rt; state.head(), Head { level: 0, now: 0 });
    let holdings = [
        Holding {
            address: account(0x0a)?,
            amount: 100,
        },
        Holding {
            address: account(0x0c)?,
            amount: 50,
        },
    ];
    assert_eq!(rt; state.holdings(), holdings.as_slice());
    assert_eq!(rt; state.balance(&account(0x0c)?), 50);
    let again = state.copy(rt.alloc())?;
    assert!(rt; again.same(&state));
    let later = state.with_balances(rt.alloc(), Head { level: 1, now: 60 }, &[])?;
    assert_eq!(rt; later.holdings(), holdings.as_slice());
    let bytes = write_state(rt.alloc(), &state)?;
    assert_eq!(rt; bytes.as_slice(), file.as_slice());
    Ok(())
}

// The file with other bytes from a place on.
fn changed(alloc: Global, at: usize, field: &[u8]) -> Result<Vec<u8>, Fail> {
    let whole = file(alloc)?;
    let mut bytes = whole.clone()?;
    bytes.truncate(at);
    bytes.extend_from_slice(field)?;
    let end = bytes.len();
    if end < whole.len() {
        bytes.extend_from_slice(&whole[end..])?;
    }
    Ok(bytes)
}

fn told(alloc: Global, at: usize, field: &[u8]) -> Result<Option<FormatFault>, Fail> {
    let bytes = changed(alloc, at, field)?;
    Ok(read_state(alloc, &bytes).err())
}

#[test]
fn a_fault_is_told_at_the_first_byte_of_its_field(rt: HostRuntime) -> Result<(), Fail> {
    let many = 1025u32.to_be_bytes();
    let (three, one) = (3u32.to_be_bytes(), 1u32.to_be_bytes());
    let (wide, none) = ((1u64 << 63).to_be_bytes(), 0u64.to_be_bytes());
    let all = ((1u64 << 63) - 1).to_be_bytes();
    let (same, below) = (address(0x0a), address(0x09));
    let table: [(usize, &[u8], usize, &str); 14] = [
        (MAGIC, b"G", MAGIC, "another magic"),
        (CONTRACTS, &many, CONTRACTS, "1025 contracts"),
        (CELLS, &three, END, "a cell too few"),
        (CELLS, &one, SECOND, "a cell too many"),
        (FIRST, &[3], FIRST, "a cell of no kind"),
        (FIRST_ADDRESS, &[2], FIRST_ADDRESS, "no address"),
        (
            FIRST_ADDRESS,
            &[1],
            FIRST_VALUE,
            "the balance of a contract",
        ),
        (FIRST_VALUE, &[UNIT], FIRST_VALUE, "a balance that is Unit"),
        (FIRST_VALUE, &[0x13], FIRST_VALUE, "a value of no tag"),
        (FIRST_AMOUNT, &wide, FIRST_AMOUNT, "an amount of 2^63"),
        (FIRST_AMOUNT, &none, FIRST_VALUE, "an amount of 0"),
        (SECOND_ADDRESS, &same, SECOND, "the same cell again"),
        (
            SECOND_ADDRESS,
            &below,
            SECOND,
            "a cell below the one before",
        ),
        (
            SECOND_AMOUNT,
            &all,
            SECOND_VALUE,
            "a supply of 2^63 and more",
        ),
    ];
    for (at, field, place, case) in table {
        let fault = told(rt.alloc(), at, field)?;
        assert_eq!(rt; fault, Some(FormatFault::At(At(place))), "{case}");
    }
    Ok(())
}

#[test]
fn a_file_cut_by_one_byte_is_refused_at_its_last_amount(rt: HostRuntime) -> Result<(), Fail> {
    let mut file = file(rt.alloc())?;
    file.pop();
    assert_eq!(rt; file.len(), END - 1);
    let cut = read_state(rt.alloc(), &file).err();
    assert_eq!(rt; cut, Some(FormatFault::At(At(SECOND_AMOUNT))));
    Ok(())
}

#[test]
fn what_is_not_built_is_told_apart(rt: HostRuntime) -> Result<(), Fail> {
    let (one, many) = (1u32.to_be_bytes(), 1024u32.to_be_bytes());
    let table: [(usize, &[u8]); 4] = [
        (CONTRACTS, &one),
        (CONTRACTS, &many),
        (FIRST, &[STORAGE]),
        (SECOND, &[ENTRY]),
    ];
    for (at, field) in table {
        let fault = told(rt.alloc(), at, field)?;
        assert_eq!(rt; fault, Some(FormatFault::NotYet(at)));
    }
    Ok(())
}

#[test]
fn the_last_level_and_the_greatest_supply_are_read(rt: HostRuntime) -> Result<(), Fail> {
    let file = changed(rt.alloc(), LEVEL, &u32::MAX.to_be_bytes())?;
    let state = read_state(rt.alloc(), &file).ok().ok_or("refused")?;
    assert_eq!(rt; state.head().level, u32::MAX);
    // With the 50 of the second account that is 2^63 - 1.
    let rest = (1u64 << 63) - 51;
    let file = changed(rt.alloc(), FIRST_AMOUNT, &rest.to_be_bytes())?;
    let state = read_state(rt.alloc(), &file).ok().ok_or("refused")?;
    assert_eq!(rt; state.balance(&account(0x0a)?), rest);
    Ok(())
}
