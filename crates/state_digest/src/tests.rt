//! Digests of small states, as Python's hashlib gives them, and updates to the same state.

ghost use Rattle.std.specs.Prelude.{◌≡◌, ◌<◌};

use crate::{Digests, Steps, digest};
use cell_names::Cell;
use ledger_state::{State, read_state};
use std::alloc::Global;
use std::marker::Brand;
use std::sync::ledger::{Blank, Ledger};
use std::test::Fail;
use value_core::Address;

const COUNTER: &[u8] =
    b"parameter int ;\nstorage int ;\ncode { UNPAIR ; ADD ; NIL operation ; PAIR }\n";

const TALLY: &[u8] =
    b"parameter unit ;\nstorage (big_map address nat) ;\ncode { CDR ; NIL operation ; PAIR }\n";

// The address of a number below 2^16, of an implicit account or of a contract.
fn address(kind: u8, number: u16) -> [u8; 22] {
    let mut bytes = [0; 22];
    let low = number.to_be_bytes();
    bytes[0] = kind;
    bytes[20] = low[0];
    bytes[21] = low[1];
    bytes
}

fn joined(alloc: Global, fields: &[&[u8]]) -> Result<Vec<u8>, Fail> {
    let mut bytes = Vec::new(alloc);
    for field in fields {
        bytes.extend_from_slice(field)?;
    }
    Ok(bytes)
}

// The fields of a file in front of its contracts.
fn head(alloc: Global, level: u32, now: u64) -> Result<Vec<u8>, Fail> {
    joined(alloc, &[b"FJS1", &level.to_be_bytes(), &now.to_be_bytes()])
}

fn balance(alloc: Global, kind: u8, number: u16, amount: u64) -> Result<Vec<u8>, Fail> {
    joined(
        alloc,
        &[&[0], &address(kind, number), &[5], &amount.to_be_bytes()],
    )
}

// The state without contracts in which accounts of these numbers have so much.
fn accounts(alloc: Global, level: u32, now: u64, balances: &[(u16, u64)]) -> Result<State, Fail> {
    let count = u32::try_from(balances.len()).ok().ok_or("too many")?;
    let mut file = head(alloc, level, now)?;
    file.extend_from_slice(&0u32.to_be_bytes())?;
    file.extend_from_slice(&count.to_be_bytes())?;
    for (number, amount) in balances {
        file.extend_from_slice(&balance(alloc, 0, *number, *amount)?)?;
    }
    Ok(read_state(alloc, &file)?)
}

// The account 10 has 100 and the counter 50; the counter stands at 5, and the tally of the account
// at 2.
fn contracts(alloc: Global) -> Result<State, Fail> {
    let first = head(alloc, 7, 60)?;
    let book = joined(
        alloc,
        &[
            &2u32.to_be_bytes(),
            &address(1, 1),
            &(COUNTER.len() as u32).to_be_bytes(),
            COUNTER,
            &address(1, 2),
            &(TALLY.len() as u32).to_be_bytes(),
            TALLY,
        ],
    )?;
    let balances = joined(
        alloc,
        &[
            &5u32.to_be_bytes(),
            &balance(alloc, 0, 10, 100)?,
            &balance(alloc, 1, 1, 50)?,
        ],
    )?;
    let others = joined(
        alloc,
        &[
            &[1],
            &address(1, 1),
            &[3],
            &5u128.to_be_bytes(),
            &[1],
            &address(1, 2),
            &[0x12, 0],
            &[2],
            &address(1, 2),
            &[0, 9],
            &address(0, 10),
            &[4],
            &2u128.to_be_bytes(),
        ],
    )?;
    let file = joined(alloc, &[&first, &book, &balances, &others])?;
    Ok(read_state(alloc, &file)?)
}

const OF_NOTHING: [u8; 32] = [
    0xb9, 0xb4, 0xc0, 0x4d, 0x7a, 0xb6, 0x87, 0x9d, 0x5f, 0x53, 0xa3, 0xb8, 0x71, 0xc8, 0x99, 0x21,
    0xc6, 0x73, 0xa2, 0xc9, 0x7c, 0x95, 0xf3, 0xc0, 0x1d, 0x4d, 0x8c, 0x00, 0xbc, 0xae, 0x9c, 0x3e,
];

const OF_TWO: [u8; 32] = [
    0x31, 0xc1, 0xa2, 0x26, 0xf5, 0x2d, 0xbf, 0x40, 0x02, 0x48, 0xd8, 0xc6, 0x1b, 0x98, 0x99, 0x27,
    0x75, 0x33, 0x8e, 0x3d, 0x2c, 0x15, 0x67, 0x33, 0x4e, 0xf5, 0xb3, 0x29, 0xa3, 0x52, 0xb9, 0x3e,
];

const OF_THREE: [u8; 32] = [
    0x11, 0x04, 0xff, 0xdb, 0xa6, 0xab, 0x6a, 0x8e, 0xb8, 0x63, 0xa6, 0xc7, 0x76, 0xe1, 0xe0, 0xbd,
    0x37, 0x61, 0xd7, 0x9b, 0x1b, 0x05, 0xea, 0xe9, 0x53, 0x2f, 0xba, 0xb2, 0xc9, 0x44, 0x41, 0xf0,
];

const OF_CONTRACTS: [u8; 32] = [
    0xe2, 0x8f, 0x34, 0x85, 0x6a, 0x83, 0x3c, 0x99, 0xe0, 0x76, 0x02, 0xc1, 0xeb, 0xff, 0x30, 0xc7,
    0x94, 0x1a, 0xfc, 0xbf, 0xa5, 0xbc, 0x66, 0xa3, 0x17, 0x0d, 0xa4, 0x77, 0x1b, 0x24, 0x74, 0xdc,
];

// Of the accounts 0 to 999, each with one more than its number.
const OF_MANY: [u8; 32] = [
    0x04, 0xff, 0x8f, 0x1d, 0x1f, 0xb4, 0xc8, 0x8d, 0x69, 0x25, 0x58, 0x79, 0x2d, 0x6b, 0x4a, 0xa4,
    0xdf, 0x60, 0x87, 0x0c, 0xa5, 0xde, 0x82, 0xdc, 0xfc, 0x4c, 0x7e, 0x8f, 0x32, 0x69, 0xf9, 0x64,
];

#[test]
fn a_digest_is_that_of_the_cells(rt: HostRuntime) -> Result<(), Fail> {
    let two = [(10, 100), (12, 50)];
    let three = [(10, 90), (11, 10), (12, 50)];
    let rows: [(u32, u64, &[(u16, u64)], [u8; 32]); 4] = [
        (0, 0, &[], OF_NOTHING),
        (0, 0, &two, OF_TWO),
        (7, 60, &two, OF_TWO),
        (0, 0, &three, OF_THREE),
    ];
    for (level, now, balances, want) in rows {
        let state = accounts(rt.alloc(), level, now, balances)?;
        assert_eq!(rt; digest(rt.alloc(), &state)?, want);
    }
    Ok(())
}

#[test]
fn a_digest_has_the_scripts_and_the_cells_of_contracts(rt: HostRuntime) -> Result<(), Fail> {
    let state = contracts(rt.alloc())?;
    assert_eq!(rt; digest(rt.alloc(), &state)?, OF_CONTRACTS);
    Ok(())
}

// The roots of a state's digests: as they are made, after an update of no cell, and after one of a
// cell that is named twice.
fn roots<L: Ledger>(alloc: Global, s: &State, c: &Cell, blank: Blank) -> Result<[[u8; 32]; 3], Fail>
    requires name { blank.name ≡ L.name }
    requires parts { blank.parts ≡ L.parts }
    requires some { 0 < blank.parts }
{
    let mut steps = Steps::<L>::new(blank);
    let mut digests = Digests::of(alloc, s, &mut steps)?;
    let made = digests.root();
    digests.update(alloc, s, &[], &mut steps)?;
    let after_none = digests.root();
    let mut touched = Vec::new(alloc);
    touched.push(c.copy(alloc)?)?;
    touched.push(c.copy(alloc)?)?;
    digests.update(alloc, s, &touched, &mut steps)?;
    let after_two = digests.root();
    Ok([made, after_none, after_two])
}

#[test]
fn an_update_to_the_same_state_keeps_the_root(rt: HostRuntime) -> Result<(), Fail> {
    let state = contracts(rt.alloc())?;
    let cell = Cell::Balance(Address::from_bytes(&address(1, 1))?);
    let roots = roots::<Brand>(rt.alloc(), &state, &cell, Blank::new(1))?;
    assert_eq!(rt; roots, [OF_CONTRACTS; 3]);
    Ok(())
}

#[test]
fn a_thousand_accounts_stand_on_shelves(rt: HostRuntime) -> Result<(), Fail> {
    let alloc = rt.alloc();
    let mut balances = Vec::new(alloc);
    for i in 0..1000u16 {
        balances.push((i, i as u64 + 1))?;
    }
    let state = accounts(alloc, 0, 0, &balances)?;
    let cell = Cell::Balance(Address::from_bytes(&address(0, 500))?);
    let roots = roots::<Brand>(alloc, &state, &cell, Blank::new(1))?;
    assert_eq!(rt; roots, [OF_MANY; 3]);
    Ok(())
}
