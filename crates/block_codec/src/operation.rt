//! Reading an operation.

ghost use Rattle.std.specs.Prelude.{◌≡◌, ◌+◌, ◌≤◌, IfOk};
ghost use Rattle.byte_fields.specs.Told.{Answers, AnswersUnlessFull, left_stop, read_stop};
ghost use Rattle.value_codec.specs.Reading.{address, mutez};
ghost use Rattle.cell_names.specs.Accounts.{is_implicit};
ghost use Rattle.block_codec.specs.Operation.{account, call, few_turns, gas_behind, given_value, name, name_length, op, passed};

use crate::limits::MOST_BLOCK_GAS;
use byte_fields::{Left, ReadStop, run_at, u8_at, u32_at, u64_at};
use op_rules::{MOST_DEPTH, MOST_GAS, MOST_SIZE, MOST_TURNS, Op};
use std::alloc::Global;
use value_codec::{PASSED_VALUE, address_at, value_at};
use value_core::{Address, Name, Val, is_within_size};

/// An amount is below so much.
const AMOUNTS: u64 = 1 << 63;

/// An operation, where those before it have so much gas together.
#[tactic(auto, unfolding(crate::specs::Operation::op))]
pub fn op_at(alloc: Global, total: u32, bytes: &[u8]) -> Result<(Op, &[u8]), ReadStop>
    requires { total ≤ MOST_BLOCK_GAS }
    ensures read { AnswersUnlessFull read_stop (λ x. (x.0, x.1.now)) result (op total bytes.now) }
    ensures within { IfOk result (λ x. total + x.0.gas ≤ MOST_BLOCK_GAS) }
{
    match source_at(bytes) {
        Ok((source, rest)) => match dest_at(rest) {
            Ok((dest, rest)) => match name_at(rest) {
                Ok((entry, rest)) => call_at(alloc, total, source, dest, entry, rest),
                Err(stop) => Err(stop),
            },
            Err(stop) => Err(stop),
        },
        Err(stop) => Err(stop),
    }
}

/// The operation from one account to another, of which the param and the numbers are left.
#[tactic(auto, unfolding(crate::specs::Operation::call))]
fn call_at(
    alloc: Global,
    total: u32,
    source: Address,
    dest: Address,
    entry: Name,
    bytes: &[u8],
) -> Result<(Op, &[u8]), ReadStop>
    requires { total ≤ MOST_BLOCK_GAS }
    ensures read { AnswersUnlessFull read_stop (λ x. (x.0, x.1.now)) result
        (call total source dest entry bytes.now) }
    ensures within { IfOk result (λ x. total + x.0.gas ≤ MOST_BLOCK_GAS) }
{
    let (param, rest) = param_at(alloc, bytes)?;
    let (amount, rest) = amount_at(rest)?;
    let (gas, rest) = gas_at(total, rest)?;
    let (turns, rest) = turns_at(rest)?;
    let op = Op {
        source,
        dest,
        entry,
        param,
        amount,
        gas,
        turns,
    };
    Ok((op, rest))
}

/// The account that sends an operation.
fn source_at(bytes: &[u8]) -> Result<(Address, &[u8]), ReadStop>
    ensures { AnswersUnlessFull read_stop (λ x. (x.0, x.1.now)) result (account bytes.now) }
{
    match address_at(bytes) {
        Ok((address, rest)) => {
            if !is_implicit(&address) {
                return Err(ReadStop::Left(bytes.len()));
            }
            Ok((address, rest))
        }
        Err(stop) => Err(ReadStop::from(stop)),
    }
}

/// Whether this is an implicit account's address.
fn is_implicit(address: &Address) -> bool
    ensures { result ≡ is_implicit address.now }
{
    address.bytes()[0] == 0
}

/// The account or contract to which an operation goes.
fn dest_at(bytes: &[u8]) -> Result<(Address, &[u8]), ReadStop>
    ensures { AnswersUnlessFull read_stop (λ x. (x.0, x.1.now)) result (address bytes.now) }
{
    match address_at(bytes) {
        Ok((address, rest)) => Ok((address, rest)),
        Err(stop) => Err(ReadStop::from(stop)),
    }
}

/// The name of an entry, behind its length.
fn name_at(bytes: &[u8]) -> Result<(Name, &[u8]), ReadStop>
    ensures { AnswersUnlessFull read_stop (λ x. (x.0, x.1.now)) result (name bytes.now) }
{
    let (length, rest) = name_length_at(bytes)?;
    let (front, after) = run_at(length as usize, rest)?;
    match Name::new(front) {
        Some(name) => Ok((name, after)),
        None => Err(ReadStop::Left(rest.len())),
    }
}

fn name_length_at(bytes: &[u8]) -> Result<(u8, &[u8]), Left>
    ensures { Answers left_stop (λ x. (x.0, x.1.now)) result (name_length bytes.now) }
{
    let (length, rest) = u8_at(bytes)?;
    if length < 1 || length > 31 {
        return Err(Left(bytes.len()));
    }
    Ok((length, rest))
}

/// What an entry is given: a value that isn't too large.
fn param_at(alloc: Global, bytes: &[u8]) -> Result<(Val, &[u8]), ReadStop>
    ensures { AnswersUnlessFull read_stop (λ x. (x.0, x.1.now)) result (given_value bytes.now) }
{
    let (param, rest) = passed_at(alloc, bytes)?;
    if !is_within_size(&param, MOST_SIZE) {
        return Err(ReadStop::Left(bytes.len()));
    }
    Ok((param, rest))
}

/// A value that an operation may carry or a failure raise.
pub fn passed_at(alloc: Global, bytes: &[u8]) -> Result<(Val, &[u8]), ReadStop>
    ensures { AnswersUnlessFull read_stop (λ x. (x.0, x.1.now)) result (passed bytes.now) }
{
    value_at(alloc, PASSED_VALUE, MOST_DEPTH, bytes)
}

fn amount_at(bytes: &[u8]) -> Result<(u64, &[u8]), Left>
    ensures { Answers left_stop (λ x. (x.0, x.1.now)) result (mutez bytes.now) }
{
    let (number, rest) = u64_at(bytes)?;
    if number >= AMOUNTS {
        return Err(Left(bytes.len()));
    }
    Ok((number, rest))
}

fn gas_at(total: u32, bytes: &[u8]) -> Result<(u32, &[u8]), Left>
    requires { total ≤ MOST_BLOCK_GAS }
    ensures read { Answers left_stop (λ x. (x.0, x.1.now)) result (gas_behind total bytes.now) }
    ensures within { IfOk result (λ x. total + x.0 ≤ MOST_BLOCK_GAS) }
{
    let (number, rest) = u32_at(bytes)?;
    if number > MOST_GAS || total + number > MOST_BLOCK_GAS {
        return Err(Left(bytes.len()));
    }
    Ok((number, rest))
}

fn turns_at(bytes: &[u8]) -> Result<(u32, &[u8]), Left>
    ensures { Answers left_stop (λ x. (x.0, x.1.now)) result (few_turns bytes.now) }
{
    let (number, rest) = u32_at(bytes)?;
    if number > MOST_TURNS {
        return Err(Left(bytes.len()));
    }
    Ok((number, rest))
}
