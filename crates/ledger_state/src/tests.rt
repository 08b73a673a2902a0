//! A state with a counter and a tally, read and written; where faults are told; and what is built.

use crate::{At, BuildFault, FieldFault, Head, State, read_state, write_state};
use cell_names::Cell;
use code_book::Book;
use michelson_reader::read_script;
use michelson_typer::check;
use std::alloc::Global;
use std::test::Fail;
use value_core::{Address, Num, Val};

// ---- the file, field by field, as docs/FORMATS.md has them

const COUNTER: &[u8] =
    b"parameter int ;\nstorage int ;\ncode { UNPAIR ; ADD ; NIL operation ; PAIR }\n";

const TALLY: &[u8] =
    b"parameter unit ;\nstorage (big_map address nat) ;\ncode { CDR ; NIL operation ; PAIR }\n";

// The first byte of each field: of the head and the contracts.
const LEVEL: usize = 4;

const NOW: usize = LEVEL + 4;

const CONTRACTS: usize = NOW + 8;

const FIRST_CONTRACT: usize = CONTRACTS + 4;

const FIRST_LENGTH: usize = FIRST_CONTRACT + 22;

const FIRST_TEXT: usize = FIRST_LENGTH + 4;

const SECOND_CONTRACT: usize = FIRST_TEXT + COUNTER.len();

const SECOND_LENGTH: usize = SECOND_CONTRACT + 22;

const SECOND_TEXT: usize = SECOND_LENGTH + 4;

const CELLS: usize = SECOND_TEXT + TALLY.len();

// Of the cells: two balances, two storages and an entry.
const ACCOUNT: usize = CELLS + 4;

const ACCOUNT_VALUE: usize = ACCOUNT + 23;

const BALANCE: usize = ACCOUNT + 32;

const BALANCE_VALUE: usize = BALANCE + 23;

const FIRST_STORAGE: usize = BALANCE + 32;

const FIRST_VALUE: usize = FIRST_STORAGE + 23;

const SECOND_STORAGE: usize = FIRST_VALUE + 17;

const SECOND_VALUE: usize = SECOND_STORAGE + 23;

const ENTRY: usize = SECOND_VALUE + 2;

const PLACE: usize = ENTRY + 23;

const KEY: usize = PLACE + 1;

const ENTRY_VALUE: usize = KEY + 23;

const END: usize = ENTRY_VALUE + 17;

// The address of a number below 256, of an implicit account or of a contract.
fn address(first: u8, last: u8) -> [u8; 22] {
    let mut bytes = [0; 22];
    bytes[0] = first;
    bytes[21] = last;
    bytes
}

fn joined(alloc: Global, fields: &[&[u8]]) -> Result<Vec<u8>, Fail> {
    let mut bytes = Vec::new(alloc);
    for field in fields {
        bytes.extend_from_slice(field)?;
    }
    Ok(bytes)
}

// Level 7, now 60; the account has 100 and the counter 50; the counter stands at 5, and the tally of
// the account at 2.
fn file(alloc: Global) -> Result<Vec<u8>, Fail> {
    let head = joined(alloc, &[b"FJS1", &7u32.to_be_bytes(), &60u64.to_be_bytes()])?;
    let contracts = joined(
        alloc,
        &[
            &2u32.to_be_bytes(),
            &address(1, 1),
            &(COUNTER.len() as u32).to_be_bytes(),
            COUNTER,
            &address(1, 2),
            &(TALLY.len() as u32).to_be_bytes(),
            TALLY,
        ],
    )?;
    let balances = joined(
        alloc,
        &[
            &5u32.to_be_bytes(),
            &[0],
            &address(0, 10),
            &[5],
            &100u64.to_be_bytes(),
            &[0],
            &address(1, 1),
            &[5],
            &50u64.to_be_bytes(),
        ],
    )?;
    let others = joined(
        alloc,
        &[
            &[1],
            &address(1, 1),
            &[3],
            &5u128.to_be_bytes(),
            &[1],
            &address(1, 2),
            &[0x12, 0],
            &[2],
            &address(1, 2),
            &[0, 9],
            &address(0, 10),
            &[4],
            &2u128.to_be_bytes(),
        ],
    )?;
    joined(alloc, &[&head, &contracts, &balances, &others])
}

fn told(alloc: Global, bytes: &[u8]) -> Option<FieldFault> {
    read_state(alloc, bytes).err()
}

#[test]
fn a_state_with_contracts_is_read_and_written(rt: HostRuntime) -> Result<(), Fail> {
    let alloc = rt.alloc();
    let file = file(alloc)?;
    assert_eq!(rt; file.len(), END);
    let state = read_state(alloc, &file).ok().ok_or("refused")?;
    assert_eq!(rt; state.head(), Head { level: 7, now: 60 });
    assert_eq!(rt; state.book().len(), 2);
    assert_eq!(rt; state.cells().len(), 5);
    assert_eq!(rt; state.cells().supply(), 150);
    let again = state.copy(alloc)?;
    assert!(rt; again.same(&state));
    let (head, book, cells) = again.split();
    let united = State::unite(head, book, cells);
    let bytes = write_state(alloc, &united)?;
    assert_eq!(rt; bytes.as_slice(), file.as_slice());
    Ok(())
}

#[test]
fn a_cut_file_is_refused_at_the_field_that_is_cut(rt: HostRuntime) -> Result<(), Fail> {
    let alloc = rt.alloc();
    let file = file(alloc)?;
    let fields: [usize; 34] = [
        LEVEL,
        NOW,
        CONTRACTS,
        FIRST_CONTRACT,
        FIRST_LENGTH,
        FIRST_TEXT,
        SECOND_CONTRACT,
        SECOND_LENGTH,
        SECOND_TEXT,
        CELLS,
        ACCOUNT,
        ACCOUNT + 1,
        ACCOUNT_VALUE,
        ACCOUNT_VALUE + 1,
        BALANCE,
        BALANCE + 1,
        BALANCE_VALUE,
        BALANCE_VALUE + 1,
        FIRST_STORAGE,
        FIRST_STORAGE + 1,
        FIRST_VALUE,
        FIRST_VALUE + 1,
        SECOND_STORAGE,
        SECOND_STORAGE + 1,
        SECOND_VALUE,
        SECOND_VALUE + 1,
        ENTRY,
        ENTRY + 1,
        PLACE,
        KEY,
        KEY + 1,
        ENTRY_VALUE,
        ENTRY_VALUE + 1,
        END,
    ];
    let mut field = 0;
    for next in fields {
        for cut in field..next {
            let mut bytes = file.clone()?;
            bytes.truncate(cut);
            assert_eq!(rt; told(alloc, &bytes), Some(FieldFault::At(At(field))));
        }
        field = next;
    }
    Ok(())
}

// The file with other bytes from a place on.
fn changed(alloc: Global, at: usize, field: &[u8]) -> Result<Vec<u8>, Fail> {
    let whole = file(alloc)?;
    let mut bytes = whole.clone()?;
    bytes.truncate(at);
    bytes.extend_from_slice(field)?;
    let end = bytes.len();
    if end < whole.len() {
        bytes.extend_from_slice(&whole[end..])?;
    }
    Ok(bytes)
}

#[test]
fn a_fault_is_told_at_its_place(rt: HostRuntime) -> Result<(), Fail> {
    let alloc = rt.alloc();
    let (many, four) = (1025u32.to_be_bytes(), 4u32.to_be_bytes());
    let (none, all) = (0u64.to_be_bytes(), ((1u64 << 63) - 100).to_be_bytes());
    let table: [(usize, &[u8], usize, &str); 16] = [
        (0, b"G", 0, "another magic"),
        (CONTRACTS, &many, CONTRACTS, "1025 contracts"),
        (FIRST_CONTRACT, &[2], FIRST_CONTRACT, "no address"),
        (
            FIRST_CONTRACT,
            &[0],
            FIRST_CONTRACT,
            "an implicit account's address",
        ),
        (
            SECOND_CONTRACT + 21,
            &[1],
            SECOND_CONTRACT,
            "an address again",
        ),
        (
            FIRST_TEXT + 13,
            b"\n",
            FIRST_LENGTH,
            "a text that isn't printed so",
        ),
        (
            FIRST_TEXT + 24,
            b"nat",
            FIRST_LENGTH,
            "a script that isn't typed",
        ),
        (SECOND_TEXT, b"q", SECOND_LENGTH, "a text of no script"),
        (ACCOUNT + 1, &[1], ACCOUNT_VALUE, "a balance of no contract"),
        (ACCOUNT_VALUE + 1, &none, ACCOUNT_VALUE, "a balance of 0"),
        (BALANCE_VALUE + 1, &all, BALANCE_VALUE, "a supply of 2^63"),
        (BALANCE + 1, &address(0, 10), BALANCE, "a cell again"),
        (FIRST_VALUE, &[4], FIRST_VALUE, "a storage of another type"),
        (
            SECOND_VALUE + 1,
            &[1],
            SECOND_VALUE,
            "a big map at another place",
        ),
        (KEY, &[15], KEY, "a key with a list"),
        (CELLS, &four, ENTRY, "a cell too many"),
    ];
    for (at, field, place, case) in table {
        let bytes = changed(alloc, at, field)?;
        assert_eq!(rt;
            told(alloc, &bytes),
            Some(FieldFault::At(At(place))),
            "{case}"
        );
    }
    Ok(())
}

#[test]
fn a_missing_storage_is_told_at_the_number_of_cells(rt: HostRuntime) -> Result<(), Fail> {
    let alloc = rt.alloc();
    let mut bytes = changed(alloc, CELLS, &3u32.to_be_bytes())?;
    bytes.truncate(SECOND_STORAGE);
    assert_eq!(rt; told(alloc, &bytes), Some(FieldFault::At(At(CELLS))));
    // And so before bytes after the end.
    bytes.push(0)?;
    assert_eq!(rt; told(alloc, &bytes), Some(FieldFault::At(At(CELLS))));
    Ok(())
}

fn named(first: u8, last: u8) -> Result<Address, Fail> {
    let bytes = address(first, last);
    Ok(Address::from_bytes(&bytes).ok().ok_or("no address")?)
}

// A book of one counter.
fn book(alloc: Global) -> Result<Book, Fail> {
    let mut book = Book::new(alloc);
    let script = read_script(alloc, COUNTER).ok().ok_or("not read")?;
    let typed = check(alloc, script).ok().ok_or("not typed")?;
    book.add(alloc, named(1, 1)?, typed)
        .ok()
        .ok_or("not added")?;
    Ok(book)
}

fn built(alloc: Global, amount: u64, storage: u8) -> Result<Option<BuildFault>, Fail> {
    let mut cells = Vec::new(alloc);
    let number = Num::new(5).ok_or("no number")?;
    cells.push((Cell::Storage(named(1, storage)?), Val::Int(number)))?;
    cells.push((Cell::Balance(named(0, 10)?), Val::Mutez(amount)))?;
    cells.push((Cell::Balance(named(0, 9)?), Val::Mutez(1)))?;
    cells.push((Cell::Balance(named(0, 10)?), Val::Mutez(1)))?;
    let head = Head { level: 0, now: 0 };
    Ok(State::build(alloc, head, book(alloc)?, cells).err())
}

#[test]
fn the_first_reason_against_cells_is_told(rt: HostRuntime) -> Result<(), Fail> {
    let alloc = rt.alloc();
    assert_eq!(rt; built(alloc, 1, 2)?, Some(BuildFault::Misfit(0)));
    assert_eq!(rt; built(alloc, 0, 1)?, Some(BuildFault::Misfit(1)));
    assert_eq!(rt; built(alloc, 1, 1)?, Some(BuildFault::Twice(3)));
    assert_eq!(rt;
        built(alloc, (1 << 63) - 1, 1)?,
        Some(BuildFault::TooMuch(2))
    );
    let head = Head { level: 0, now: 0 };
    let bare = State::build(alloc, head, book(alloc)?, Vec::new(alloc)).err();
    assert_eq!(rt; bare, Some(BuildFault::NoStorage(named(1, 1)?)));
    Ok(())
}
