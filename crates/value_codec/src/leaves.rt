//! Reading values without parts.

ghost use Rattle.byte_fields.specs.Readers.{made};
ghost use Rattle.byte_fields.specs.Told.{Answers, AnswersUnlessFull, left_stop, read_stop};
ghost use Rattle.value_core.specs.declared.val.Val.TheVariants as variant;
ghost use Rattle.value_core.specs.Leaves.{is_blob, is_text};
ghost use Rattle.value_codec.specs.Reading.{address, measured, mutez, nat, num, place, text_length};

use byte_fields::{Left, ReadStop, i128_at, run_at, u8_at, u32_at, u64_at};
use std::alloc::Global;
use value_core::{Address, Blob, Num, Text, Val};

fn num_at(bytes: &[u8]) -> Result<(Num, &[u8]), Left>
    ensures { Answers left_stop (λ x. (x.0, x.1.now)) result (num bytes.now) }
{
    let (n, rest) = i128_at(bytes)?;
    match Num::new(n) {
        Some(n) => Ok((n, rest)),
        None => Err(Left(bytes.len())),
    }
}

/// What stands behind the tag of an integer.
pub fn int_at(bytes: &[u8]) -> Result<(Val, &[u8]), Left>
    ensures { Answers left_stop (λ x. (x.0, x.1.now)) result (made variant.Int num bytes.now) }
{
    match num_at(bytes) {
        Ok((n, rest)) => Ok((Val::Int(n), rest)),
        Err(stop) => Err(stop),
    }
}

/// What stands behind the tag of a natural number.
pub fn nat_at(bytes: &[u8]) -> Result<(Val, &[u8]), Left>
    ensures { Answers left_stop (λ x. (x.0, x.1.now)) result (made variant.Nat nat bytes.now) }
{
    match num_at(bytes) {
        Ok((n, rest)) => {
            if n.get() < 0 {
                Err(Left(bytes.len()))
            } else {
                Ok((Val::Nat(n), rest))
            }
        }
        Err(stop) => Err(stop),
    }
}

/// What stands behind the tag of an amount.
pub fn mutez_at(bytes: &[u8]) -> Result<(Val, &[u8]), Left>
    ensures { Answers left_stop (λ x. (x.0, x.1.now)) result (made variant.Mutez mutez bytes.now) }
{
    let (n, rest) = u64_at(bytes)?;
    if n >= 0x8000_0000_0000_0000 {
        return Err(Left(bytes.len()));
    }
    Ok((Val::Mutez(n), rest))
}

/// What stands behind the tag of a time.
pub fn time_at(bytes: &[u8]) -> Result<(Val, &[u8]), Left>
    ensures { Answers left_stop (λ x. (x.0, x.1.now)) result (made variant.Time num bytes.now) }
{
    match num_at(bytes) {
        Ok((n, rest)) => Ok((Val::Time(n), rest)),
        Err(stop) => Err(stop),
    }
}

/// What stands behind the tag of a text.
pub fn text_at(alloc: Global, bytes: &[u8]) -> Result<(Val, &[u8]), ReadStop>
    ensures { AnswersUnlessFull read_stop (λ x. (x.0, x.1.now)) result
        (made variant.Text (measured is_text) bytes.now) }
{
    let (length, rest) = length_at(bytes)?;
    let (front, after) = run_at(length as usize, rest)?;
    match Text::new(Vec::from_slice(alloc, front)?) {
        Some(text) => Ok((Val::Text(text), after)),
        None => Err(ReadStop::Left(rest.len())),
    }
}

/// What stands behind the tag of bytes.
pub fn blob_at(alloc: Global, bytes: &[u8]) -> Result<(Val, &[u8]), ReadStop>
    ensures { AnswersUnlessFull read_stop (λ x. (x.0, x.1.now)) result
        (made variant.Bytes (measured is_blob) bytes.now) }
{
    let (length, rest) = length_at(bytes)?;
    let (front, after) = run_at(length as usize, rest)?;
    match Blob::new(Vec::from_slice(alloc, front)?) {
        Some(blob) => Ok((Val::Bytes(blob), after)),
        None => Err(ReadStop::Left(rest.len())),
    }
}

fn length_at(bytes: &[u8]) -> Result<(u32, &[u8]), Left>
    ensures { Answers left_stop (λ x. (x.0, x.1.now)) result (text_length bytes.now) }
{
    let (length, rest) = u32_at(bytes)?;
    if length > 131_071 {
        return Err(Left(bytes.len()));
    }
    Ok((length, rest))
}

/// The address that stands in front, and the bytes after it.
pub fn address_at(bytes: &[u8]) -> Result<(Address, &[u8]), Left>
    ensures { Answers left_stop (λ x. (x.0, x.1.now)) result (address bytes.now) }
{
    let (front, rest) = run_at(22, bytes)?;
    match Address::from_bytes(front) {
        Ok(address) => Ok((address, rest)),
        Err(_) => Err(Left(bytes.len())),
    }
}

/// What stands behind the tag of an address.
pub fn addr_at(bytes: &[u8]) -> Result<(Val, &[u8]), Left>
    ensures { Answers left_stop (λ x. (x.0, x.1.now)) result (made variant.Addr address bytes.now) }
{
    match address_at(bytes) {
        Ok((address, rest)) => Ok((Val::Addr(address), rest)),
        Err(stop) => Err(stop),
    }
}

/// What stands behind the tag of a big map.
pub fn big_map_at(bytes: &[u8]) -> Result<(Val, &[u8]), Left>
    ensures { Answers left_stop (λ x. (x.0, x.1.now)) result
        (made (λ n. variant.BigMap n 0) place bytes.now) }
{
    let (place, rest) = u8_at(bytes)?;
    if place >= 16 {
        return Err(Left(bytes.len()));
    }
    Ok((Val::BigMap { place, version: 0 }, rest))
}
