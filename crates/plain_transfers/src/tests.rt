//! The ends of a transfer, on a state in which 0a has 100 and 0c has 50.

ghost use Rattle.std.specs.Prelude.{IfOk};
ghost use Rattle.cell_names.specs.Accounts.{IsImplicit};

use crate::{Overlay, supply_is_kept};
use cell_names::{Cell, Footprint, Mode};
use plain_ledger::{Head, State, read_state};
use std::alloc::Global;
use std::test::Fail;
use transfer_blocks::Transfer;
use value_core::Address;

// The kind of a balance's cell and the tag of an amount, as docs/FORMATS.md numbers them.
const BALANCE: u8 = 0x00;

const MUTEZ: u8 = 0x05;

// The address of an implicit account: 21 bytes 00 and a last byte.
fn account(last: u8) -> Result<Address, Fail>
    ensures { IfOk result (λ a. IsImplicit a) }
{
    let bytes = [
        0, 0, 0, 0, 0, 0, 0, 0, 0, 0, 0, 0, 0, 0, 0, 0, 0, 0, 0, 0, 0, last,
    ];
    match Address::from_bytes(&bytes) {
        Ok(address) => Ok(address),
        Err(_) => Err(Fail::from("no address")),
    }
}

// Level 0, now 0, 0a has 100 and 0c has 50.
fn state(alloc: Global) -> Result<State, Fail> {
    let mut file = Vec::new(alloc);
    file.extend_from_slice(b"FJS1")?;
    file.extend_from_slice(&0u32.to_be_bytes())?;
    file.extend_from_slice(&0u64.to_be_bytes())?;
    file.extend_from_slice(&0u32.to_be_bytes())?;
    file.extend_from_slice(&2u32.to_be_bytes())?;
    for (last, amount) in [(0x0a, 100u64), (0x0c, 50)] {
        file.push(BALANCE)?;
        file.extend_from_slice(account(last)?.bytes())?;
        file.push(MUTEZ)?;
        file.extend_from_slice(&amount.to_be_bytes())?;
    }
    Ok(read_state(alloc, &file)?)
}

fn footprint(alloc: Global, touched: &[(u8, Mode)]) -> Result<Footprint, Fail> {
    let mut footprint = Footprint::new(alloc);
    for (last, mode) in touched {
        footprint.touch(alloc, &Cell::Balance(account(*last)?), *mode)?;
    }
    Ok(footprint)
}

struct Row {
    source: u8,
    dest: u8,
    amount: u64,
    applied: bool,
    touched: &'static [(u8, Mode)],
    // What 0a, 0b and 0c have afterwards.
    balances: [u64; 3],
}

const ROWS: [Row; 6] = [
    Row {
        source: 0x0a,
        dest: 0x0b,
        amount: 10,
        applied: true,
        touched: &[(0x0a, Mode::Own), (0x0b, Mode::Credit)],
        balances: [90, 10, 50],
    },
    Row {
        source: 0x0c,
        dest: 0x0a,
        amount: 50,
        applied: true,
        touched: &[(0x0a, Mode::Credit), (0x0c, Mode::Own)],
        balances: [150, 0, 0],
    },
    Row {
        source: 0x0a,
        dest: 0x0a,
        amount: 10,
        applied: true,
        touched: &[(0x0a, Mode::Own)],
        balances: [100, 0, 50],
    },
    Row {
        source: 0x0a,
        dest: 0x0b,
        amount: 0,
        applied: true,
        touched: &[],
        balances: [100, 0, 50],
    },
    Row {
        source: 0x0a,
        dest: 0x0b,
        amount: 101,
        applied: false,
        touched: &[(0x0a, Mode::Own)],
        balances: [100, 0, 50],
    },
    Row {
        source: 0x0b,
        dest: 0x0b,
        amount: 1,
        applied: false,
        touched: &[(0x0b, Mode::Own)],
        balances: [100, 0, 50],
    },
];

#[test]
fn each_transfer_ends_as_by_hand(rt: HostRuntime) -> Result<(), Fail> {
    let state = state(rt.alloc())?;
    for row in ROWS.iter() {
        let mut overlay = Overlay::new(rt.alloc(), &state);
        let transfer = Transfer {
            source: account(row.source)?,
            dest: account(row.dest)?,
            amount: row.amount,
            gas: 0,
            turns: 0,
        };
        let (receipt, touched) = overlay.run(rt.alloc(), &transfer)?;
        assert_eq!(rt; (receipt.applied, receipt.gas), (row.applied, 0));
        assert!(rt; touched.same(&footprint(rt.alloc(), row.touched)?));
        let next = overlay.finish(rt.alloc(), Head { level: 1, now: 60 })?;
        assert_eq!(rt; next.head(), Head { level: 1, now: 60 });
        assert_eq!(rt;
            [
                next.balance(&account(0x0a)?),
                next.balance(&account(0x0b)?),
                next.balance(&account(0x0c)?)
            ],
            row.balances
        );
    }
    supply_is_kept();
    Ok(())
}
