//! Reading the contracts of a state's file.

ghost use Rattle.std.specs.Prelude.{◌≡◌, ◌≤◌, IfErr, IfOk, IsTrue, None, OnOk};
ghost use Rattle.std.specs.FinMap.{entries, insert};
ghost use Rattle.byte_fields.specs.Readers.{chained, checked};
ghost use Rattle.byte_fields.specs.declared.fault.ReadStop.TheVariants.{NoMemory as no_memory};
ghost use Rattle.byte_fields.specs.Told.{AnswersUnlessFull, read_stop};
ghost use Rattle.value_codec.specs.Reading.{address};
ghost use Rattle.code_book.specs.declared.book.TheConstants.{MOST_CONTRACTS};
ghost use Rattle.code_book.specs.Adding.{refusal};
ghost use Rattle.code_book.specs.Books.{IsListed};
ghost use Rattle.ledger_state.specs.BookReading.{book, contract, contracts, is_above_address, is_next, next_address};

use crate::script::script_at;
use byte_fields::{ReadStop, u32_at};
use code_book::{Book, MOST_CONTRACTS};
use michelson_code::Typed;
use std::alloc::Global;
use value_codec::address_at;
use value_core::Address;

/// The contracts, by their addresses.
pub(crate) fn book_at(alloc: Global, bytes: &[u8]) -> Result<(Book, &[u8]), ReadStop>
    ensures { AnswersUnlessFull read_stop (λ x. (x.0, x.1.now)) result (book bytes.now) }
{
    listed_at(alloc, bytes)
}

fn listed_at(alloc: Global, bytes: &[u8]) -> Result<(Book, &[u8]), ReadStop>
    ensures { AnswersUnlessFull read_stop (λ x. (entries x.0, x.1.now)) result
        (contracts bytes.now) }
{
    let (count, rest) = u32_at(bytes)?;
    if count as usize > MOST_CONTRACTS {
        return Err(ReadStop::Left(bytes.len()));
    }
    contracts_at(alloc, count, rest)
}

/// So many contracts, ascending.
fn contracts_at(alloc: Global, count: u32, bytes: &[u8]) -> Result<(Book, &[u8]), ReadStop>
    requires { count ≤ MOST_CONTRACTS }
    ensures { AnswersUnlessFull read_stop (λ x. (entries x.0, x.1.now)) result
        (chained contract next_address None count bytes.now) }
{
    let mut book = Book::new(alloc);
    let mut last: Option<Address> = None;
    let mut rest = bytes;
    for _ in 0..count {
        match contract_at(alloc, last, rest) {
            Ok((contract, after)) => {
                last = Some(contract.0);
                list(alloc, &mut book, contract)?;
                rest = after;
            }
            Err(stop) => return Err(stop),
        }
    }
    Ok((book, rest))
}

/// Adds a contract against which there is no reason, so that memory alone may be wanting.
fn list(alloc: Global, book: &mut Book, contract: (Address, Typed)) -> Result<(), ReadStop>
    requires { refusal book.old contract.0 contract.1.script ≡ None }
    ensures added { OnOk result (book.new ≡ insert book.old contract.0 contract.1.script) }
    ensures full { IfErr result (λ stop. stop ≡ no_memory) }
{
    let (address, typed) = contract;
    match book.add(alloc, address, typed) {
        Ok(()) => Ok(()),
        Err(_) => Err(ReadStop::NoMemory),
    }
}

/// A contract that may stand in a book, whose address has to stand above the last one.
fn contract_at(
    alloc: Global,
    last: Option<Address>,
    bytes: &[u8],
) -> Result<((Address, Typed), &[u8]), ReadStop>
    ensures above { IfOk result (λ x. IsTrue (is_above_address last x.0.0)) }
    ensures listed { IfOk result (λ x. IsListed x.0.0 x.0.1.script) }
    ensures read { AnswersUnlessFull read_stop (λ x. ((x.0.0, x.0.1.script), x.1.now)) result
        (contract last bytes.now) }
{
    named_at(alloc, last, bytes)
}

fn named_at(
    alloc: Global,
    last: Option<Address>,
    bytes: &[u8],
) -> Result<((Address, Typed), &[u8]), ReadStop>
    ensures above { IfOk result (λ x. IsTrue (is_above_address last x.0.0)) }
    ensures read { AnswersUnlessFull read_stop (λ x. ((x.0.0, x.0.1.script), x.1.now)) result
        (contract last bytes.now) }
{
    match next_at(last, bytes) {
        Ok((address, rest)) => match script_at(alloc, rest) {
            Ok((typed, rest)) => Ok(((address, typed), rest)),
            Err(stop) => Err(stop),
        },
        Err(stop) => Err(stop),
    }
}

/// The address of a contract, above the last one.
fn next_at(last: Option<Address>, bytes: &[u8]) -> Result<(Address, &[u8]), ReadStop>
    ensures above { IfOk result (λ x. IsTrue (is_above_address last x.0)) }
    ensures read { AnswersUnlessFull read_stop (λ x. (x.0, x.1.now)) result
        (checked (is_next last) address bytes.now) }
{
    match address_at(bytes) {
        Ok((address, rest)) => {
            if !address.is_contract() || !stands_above(last, &address) {
                return Err(ReadStop::Left(bytes.len()));
            }
            Ok((address, rest))
        }
        Err(stop) => Err(ReadStop::from(stop)),
    }
}

fn stands_above(last: Option<Address>, address: &Address) -> bool
    ensures { result ≡ is_above_address last address.now }
{
    match last {
        None => true,
        Some(last) => last < *address,
    }
}
