//! Digests of small states, as Python's hashlib gives them.

use crate::digest;
use plain_ledger::{State, read_state};
use std::alloc::Global;
use std::test::Fail;

// The kind of a balance's cell and the tag of an amount, as docs/FORMATS.md numbers them.
const BALANCE: u8 = 0x00;

const MUTEZ: u8 = 0x05;

// The state in which accounts of these last bytes have so much.
fn state(alloc: Global, level: u32, now: u64, holdings: &[(u8, u64)]) -> Result<State, Fail> {
    let count = u32::try_from(holdings.len()).ok().ok_or("too many")?;
    let mut file = Vec::new(alloc);
    file.extend_from_slice(b"FJS1")?;
    file.extend_from_slice(&level.to_be_bytes())?;
    file.extend_from_slice(&now.to_be_bytes())?;
    file.extend_from_slice(&0u32.to_be_bytes())?;
    file.extend_from_slice(&count.to_be_bytes())?;
    for (last, amount) in holdings {
        file.push(BALANCE)?;
        file.extend_from_slice(&[0; 21])?;
        file.push(*last)?;
        file.push(MUTEZ)?;
        file.extend_from_slice(&amount.to_be_bytes())?;
    }
    Ok(read_state(alloc, &file)?)
}

const DIGEST_OF_NOTHING: [u8; 32] = [
    0xb9, 0xb4, 0xc0, 0x4d, 0x7a, 0xb6, 0x87, 0x9d, 0x5f, 0x53, 0xa3, 0xb8, 0x71, 0xc8, 0x99, 0x21,
    0xc6, 0x73, 0xa2, 0xc9, 0x7c, 0x95, 0xf3, 0xc0, 0x1d, 0x4d, 0x8c, 0x00, 0xbc, 0xae, 0x9c, 0x3e,
];

const DIGEST_OF_TWO: [u8; 32] = [
    0x31, 0xc1, 0xa2, 0x26, 0xf5, 0x2d, 0xbf, 0x40, 0x02, 0x48, 0xd8, 0xc6, 0x1b, 0x98, 0x99, 0x27,
    0x75, 0x33, 0x8e, 0x3d, 0x2c, 0x15, 0x67, 0x33, 0x4e, 0xf5, 0xb3, 0x29, 0xa3, 0x52, 0xb9, 0x3e,
];

const DIGEST_OF_THREE: [u8; 32] = [
    0x11, 0x04, 0xff, 0xdb, 0xa6, 0xab, 0x6a, 0x8e, 0xb8, 0x63, 0xa6, 0xc7, 0x76, 0xe1, 0xe0, 0xbd,
    0x37, 0x61, 0xd7, 0x9b, 0x1b, 0x05, 0xea, 0xe9, 0x53, 0x2f, 0xba, 0xb2, 0xc9, 0x44, 0x41, 0xf0,
];

#[test]
fn a_digest_is_that_of_the_balances(rt: HostRuntime) -> Result<(), Fail> {
    let two = [(0x0a, 100), (0x0c, 50)];
    let three = [(0x0a, 90), (0x0b, 10), (0x0c, 50)];
    let rows: [(u32, u64, &[(u8, u64)], [u8; 32]); 4] = [
        (0, 0, &[], DIGEST_OF_NOTHING),
        (0, 0, &two, DIGEST_OF_TWO),
        (7, 60, &two, DIGEST_OF_TWO),
        (0, 0, &three, DIGEST_OF_THREE),
    ];
    for (level, now, holdings, want) in rows {
        let state = state(rt.alloc(), level, now, holdings)?;
        assert_eq!(rt; digest(rt.alloc(), &state)?, want);
    }
    Ok(())
}
