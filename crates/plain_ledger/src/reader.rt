//! Reading a ledger from its file.

ghost use Rattle.std.specs.Prelude.{◌≡◌, ◌+◌, ◌*◌, ◌<◌, ◌≤◌, ◌^◌, [], length, IfOk};
ghost use Rattle.byte_fields.specs.Laws.{TellsWhole};
ghost use Rattle.byte_fields.specs.Told.{Answers, AnswersUnlessFull};
ghost use Rattle.cell_names.specs.Stops.{field_stop, format_stop, format_fault};
ghost use Rattle.plain_ledger.specs.Holdings.{AreHoldings, ledger_from};
ghost use Rattle.plain_ledger.specs.Reading.{account, amount, amount_of, book, cells, contracts, holding, is_above, ledger, ledger_of, name};
ghost use Rattle.plain_ledger.specs.Spelling.{IsLedger, spelling};

use crate::holding::{CELL, Holding};
use crate::state::State;
use byte_fields::{mark_of, u8_at, u32_at, u64_at};
use cell_names::{FieldStop, FormatFault, FormatStop, Head, fault_at};
use std::alloc::Global;
use value_codec::{ANY_VALUE, address_at, value_at};
use value_core::{Address, Val};

fn stands_above(last: Option<Address>, address: &Address) -> bool
    ensures { result ≡ is_above last address.now }
{
    match last {
        None => true,
        Some(last) => last < *address,
    }
}

/// The account of a balance; other kinds of cells aren't built.
fn account_at(bytes: &[u8]) -> Result<(Address, &[u8]), FieldStop>
    ensures { Answers field_stop (λ x. (x.0, x.1.now)) result (account bytes.now) }
{
    let (kind, rest) = u8_at(bytes)?;
    match kind {
        0 => match address_at(rest) {
            Ok((address, rest)) => Ok((address, rest)),
            Err(stop) => Err(FieldStop::from(stop)),
        },
        1 | 2 => Err(FieldStop::NotYet(bytes.len())),
        _ => Err(FieldStop::Left(bytes.len())),
    }
}

/// The account whose balance is named, which has to stand above the last one.
fn name_at(last: Option<Address>, bytes: &[u8]) -> Result<(Address, &[u8]), FieldStop>
    ensures { Answers field_stop (λ x. (x.0, x.1.now)) result (name last bytes.now) }
{
    match account_at(bytes) {
        Ok((address, rest)) => {
            if !stands_above(last, &address) {
                return Err(FieldStop::Left(bytes.len()));
            }
            Ok((address, rest))
        }
        Err(stop) => Err(stop),
    }
}

/// How much money a value is, and 0 where it is none.
fn amount_of(value: &Val) -> u64
    ensures { result ≡ amount_of value.now }
{
    match value {
        Val::Mutez(amount) => *amount,
        _ => 0,
    }
}

/// What the account has, behind balances of so much.
fn amount_at(
    alloc: Global,
    address: Address,
    total: u64,
    bytes: &[u8],
) -> Result<(u64, &[u8]), FormatStop>
    requires { total < 2 ^ 63 }
    ensures within { IfOk result (λ x. total + x.0 < 2 ^ 63) }
    ensures read { AnswersUnlessFull format_stop (λ x. (x.0, x.1.now)) result
        (amount address total bytes.now) }
{
    let (value, rest) = value_at(alloc, ANY_VALUE, 128, bytes)?;
    let amount = amount_of(&value);
    if address.is_contract() || amount == 0 || amount >= (1 << 63) - total {
        return Err(FormatStop::Left(bytes.len()));
    }
    Ok((amount, rest))
}

fn holding_at(
    alloc: Global,
    last: Option<Address>,
    total: u64,
    bytes: &[u8],
) -> Result<(Holding, &[u8]), FormatStop>
    requires { total < 2 ^ 63 }
    ensures within { IfOk result (λ x. total + x.0.amount < 2 ^ 63) }
    ensures read { AnswersUnlessFull format_stop (λ x. (x.0, x.1.now)) result
        (holding (last, total) bytes.now) }
{
    match name_at(last, bytes) {
        Ok((address, rest)) => {
            let (amount, rest) = amount_at(alloc, address, total, rest)?;
            Ok((Holding { address, amount }, rest))
        }
        Err(stop) => Err(FormatStop::from(stop)),
    }
}

/// Room for the holdings that are told, but for no more than the bytes can spell.
fn capacity(count: u32, bytes: &[u8]) -> usize
    ensures { 32 * result ≤ length bytes.now }
{
    (count as usize).min(bytes.len() / CELL)
}

fn cells_at(alloc: Global, count: u32, bytes: &[u8]) -> Result<(Vec<Holding>, &[u8]), FormatStop>
    ensures { AnswersUnlessFull format_stop (λ x. (x.0.items, x.1.now)) result
        (cells count bytes.now) }
{
    let mut holdings = Vec::with_capacity(alloc, capacity(count, bytes))?;
    let mut last = None;
    let mut total = 0u64;
    let mut rest = bytes;
    for _ in 0..count {
        match holding_at(alloc, last, total, rest) {
            Ok((holding, after)) => {
                last = Some(holding.address);
                total += holding.amount;
                holdings.push(holding)?;
                rest = after;
            }
            Err(stop) => return Err(stop),
        }
    }
    Ok((holdings, rest))
}

/// The bytes after the number of contracts, of which none are built.
fn contracts_at(bytes: &[u8]) -> Result<(u32, &[u8]), FieldStop>
    ensures { Answers field_stop (λ x. (x.0, x.1.now)) result (contracts bytes.now) }
{
    let (count, rest) = u32_at(bytes)?;
    if count > 1024 {
        return Err(FieldStop::Left(bytes.len()));
    }
    if count > 0 {
        return Err(FieldStop::NotYet(bytes.len()));
    }
    Ok((count, rest))
}

fn book_at(alloc: Global, bytes: &[u8]) -> Result<(Vec<Holding>, &[u8]), FormatStop>
    ensures { AnswersUnlessFull format_stop (λ x. (x.0.items, x.1.now)) result (book bytes.now) }
{
    let (_, rest) = contracts_at(bytes)?;
    let (count, rest) = u32_at(rest)?;
    cells_at(alloc, count, rest)
}

fn holdings_at(alloc: Global, bytes: &[u8]) -> Result<(Vec<Holding>, &[u8]), FormatStop>
    ensures lawful { IfOk result (λ x. AreHoldings x.0.items) }
    ensures read { AnswersUnlessFull format_stop (λ x. (x.0.items, x.1.now)) result
        (book bytes.now) }
{
    book_at(alloc, bytes)
}

/// The head and the holdings that all of the bytes spell.
#[tactic(auto, unfolding(crate::specs::Reading::ledger))]
fn parts_at(alloc: Global, bytes: &[u8]) -> Result<(Head, Vec<Holding>), FormatStop>
    ensures lawful { IfOk result (λ x. AreHoldings x.1.items) }
    ensures read { AnswersUnlessFull format_stop
        (λ x. (ledger_from x.0.level x.0.now x.1.items, [])) result (ledger bytes.now) }
{
    let rest = mark_of(b"FJS1", bytes)?;
    let (level, rest) = u32_at(rest)?;
    let (now, rest) = u64_at(rest)?;
    match holdings_at(alloc, rest) {
        Ok((holdings, rest)) => {
            if !rest.is_empty() {
                return Err(FormatStop::Left(rest.len()));
            }
            Ok((Head { level, now }, holdings))
        }
        Err(stop) => Err(stop),
    }
}

fn state_of(alloc: Global, bytes: &[u8]) -> Result<State, FormatFault>
    ensures { AnswersUnlessFull format_fault (λ x. x) result (ledger_of bytes.now) }
{
    match parts_at(alloc, bytes) {
        Ok((head, holdings)) => Ok(State::of(head, holdings)),
        Err(stop) => Err(fault_at(bytes.len(), stop)),
    }
}

/// The state that all of the bytes spell.
pub fn read_state(alloc: Global, bytes: &[u8]) -> Result<State, FormatFault>
    // What is read is spelt so.
    ensures found { IfOk result (λ s. IsLedger s × (bytes.now ≡ spelling s)) }
    // What is spelt so is read, unless memory runs out.
    ensures only { TellsWhole format_fault spelling IsLedger bytes.now result }
    // Which fault it is, or what isn't built.
    ensures place { AnswersUnlessFull format_fault (λ x. x) result (ledger_of bytes.now) }
{
    state_of(alloc, bytes)
}
