//! Reading the fields of an operation.

ghost use Rattle.std.specs.Prelude.{◌≡◌, ◌+◌, ◌≤◌, IfOk};
ghost use Rattle.cell_names.specs.Accounts.{is_implicit};
ghost use Rattle.byte_fields.specs.Told.{Answers};
ghost use Rattle.cell_names.specs.Stops.{field_stop};
ghost use Rattle.transfer_blocks.specs.Spelling.{default_name};
ghost use Rattle.transfer_blocks.specs.Operation.{accounts, amount, call, dest, gas, name, name_length, op, param_tag, source, turns};

use crate::transfer::Transfer;
use byte_fields::{run_at, u8_at, u32_at, u64_at};
use cell_names::FieldStop;
use value_codec::address_at;
use value_core::{Address, Name};

/// An amount is below so much.
const AMOUNTS: u64 = 1 << 63;

/// An operation's gas is at most so much.
const MOST_GAS: u32 = 100_000_000;

/// A block's gas is at most so much.
const MOST_BLOCK_GAS: u32 = 1_000_000_000;

/// An operation, where those before it have so much gas together.
#[tactic(auto, unfolding(crate::specs::Operation::op))]
pub fn op_at(total: u32, bytes: &[u8]) -> Result<(Transfer, &[u8]), FieldStop>
    requires { total ≤ 1000000000 }
    ensures read { Answers field_stop (λ x. (x.0, x.1.now)) result (op total bytes.now) }
    ensures within { IfOk result (λ x. total + x.0.gas ≤ 1000000000) }
{
    match accounts_at(bytes) {
        Ok(((source, dest), rest)) => {
            let rest = call_at(rest)?;
            let (amount, rest) = amount_at(rest)?;
            let (gas, rest) = gas_at(total, rest)?;
            let (turns, rest) = turns_at(rest)?;
            let op = Transfer {
                source,
                dest,
                amount,
                gas,
                turns,
            };
            Ok((op, rest))
        }
        Err(stop) => Err(stop),
    }
}

/// The source and the destination.
#[tactic(auto, unfolding(crate::specs::Operation::accounts))]
fn accounts_at(bytes: &[u8]) -> Result<((Address, Address), &[u8]), FieldStop>
    ensures { Answers field_stop (λ x. (x.0, x.1.now)) result (accounts bytes.now) }
{
    match source_at(bytes) {
        Ok((source, rest)) => match dest_at(rest) {
            Ok((dest, rest)) => Ok(((source, dest), rest)),
            Err(stop) => Err(stop),
        },
        Err(stop) => Err(stop),
    }
}

fn source_at(bytes: &[u8]) -> Result<(Address, &[u8]), FieldStop>
    ensures { Answers field_stop (λ x. (x.0, x.1.now)) result (source bytes.now) }
{
    match address_at(bytes) {
        Ok((address, rest)) => {
            if !is_account(&address) {
                return Err(FieldStop::Left(bytes.len()));
            }
            Ok((address, rest))
        }
        Err(stop) => Err(FieldStop::from(stop)),
    }
}

fn dest_at(bytes: &[u8]) -> Result<(Address, &[u8]), FieldStop>
    ensures { Answers field_stop (λ x. (x.0, x.1.now)) result (dest bytes.now) }
{
    match address_at(bytes) {
        Ok((address, rest)) => {
            if !is_account(&address) {
                return Err(FieldStop::NotYet(bytes.len()));
            }
            Ok((address, rest))
        }
        Err(stop) => Err(FieldStop::from(stop)),
    }
}

/// Whether this is an implicit account's address.
fn is_account(address: &Address) -> bool
    ensures { result ≡ is_implicit address.now }
{
    address.bytes()[0] == 0
}

/// What stands behind the entry `default` and the param Unit.
#[tactic(auto, unfolding(crate::specs::Operation::call))]
fn call_at(bytes: &[u8]) -> Result<&[u8], FieldStop>
    ensures { Answers field_stop (λ x. ((7, (default_name, 0)), x.now)) result (call bytes.now) }
{
    let rest = name_length_at(bytes)?;
    let rest = name_at(rest)?;
    param_tag_at(rest)
}

fn name_length_at(bytes: &[u8]) -> Result<&[u8], FieldStop>
    ensures { Answers field_stop (λ x. (7, x.now)) result (name_length bytes.now) }
{
    let (length, rest) = u8_at(bytes)?;
    match length {
        7 => Ok(rest),
        1..=31 => Err(FieldStop::NotYet(bytes.len())),
        _ => Err(FieldStop::Left(bytes.len())),
    }
}

fn name_at(bytes: &[u8]) -> Result<&[u8], FieldStop>
    ensures { Answers field_stop (λ x. (default_name, x.now)) result (name bytes.now) }
{
    let (front, rest) = run_at(7, bytes)?;
    if front == b"default".as_slice() {
        return Ok(rest);
    }
    match Name::new(front) {
        Some(_) => Err(FieldStop::NotYet(bytes.len())),
        None => Err(FieldStop::Left(bytes.len())),
    }
}

fn param_tag_at(bytes: &[u8]) -> Result<&[u8], FieldStop>
    ensures { Answers field_stop (λ x. (0, x.now)) result (param_tag bytes.now) }
{
    let (tag, rest) = u8_at(bytes)?;
    match tag {
        0 => Ok(rest),
        1..=17 => Err(FieldStop::NotYet(bytes.len())),
        _ => Err(FieldStop::Left(bytes.len())),
    }
}

fn amount_at(bytes: &[u8]) -> Result<(u64, &[u8]), FieldStop>
    ensures { Answers field_stop (λ x. (x.0, x.1.now)) result (amount bytes.now) }
{
    let (number, rest) = u64_at(bytes)?;
    if number >= AMOUNTS {
        return Err(FieldStop::Left(bytes.len()));
    }
    Ok((number, rest))
}

fn gas_at(total: u32, bytes: &[u8]) -> Result<(u32, &[u8]), FieldStop>
    requires { total ≤ 1000000000 }
    ensures read { Answers field_stop (λ x. (x.0, x.1.now)) result (gas total bytes.now) }
    ensures within { IfOk result (λ x. total + x.0 ≤ 1000000000) }
{
    let (number, rest) = u32_at(bytes)?;
    if number > MOST_GAS || total + number > MOST_BLOCK_GAS {
        return Err(FieldStop::Left(bytes.len()));
    }
    Ok((number, rest))
}

fn turns_at(bytes: &[u8]) -> Result<(u32, &[u8]), FieldStop>
    ensures { Answers field_stop (λ x. (x.0, x.1.now)) result (turns bytes.now) }
{
    let (number, rest) = u32_at(bytes)?;
    if number > 1_000_000 {
        return Err(FieldStop::Left(bytes.len()));
    }
    Ok((number, rest))
}
