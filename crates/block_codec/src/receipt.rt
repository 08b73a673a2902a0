//! Reading how an operation ended.

ghost use Rattle.std.specs.Prelude.{Some};
ghost use Rattle.byte_fields.specs.Readers.{made};
ghost use Rattle.byte_fields.specs.Told.{Answers, AnswersUnlessFull, left_stop, read_stop};
ghost use Rattle.michelson_code.specs.declared.why.Why.TheVariants as why;
ghost use Rattle.block_codec.specs.Operation.{passed};
ghost use Rattle.block_codec.specs.Receipts.{end_behind, receipt, tag};

use crate::operation::passed_at;
use byte_fields::{Left, ReadStop, u8_at, u32_at};
use michelson_code::Why;
use op_rules::Receipt;
use std::alloc::Global;

/// The greatest tag of an end.
const LAST_END: u8 = 14;

/// How an operation ended, and its gas.
#[tactic(auto, unfolding(crate::specs::Receipts::receipt))]
pub fn receipt_at(alloc: Global, bytes: &[u8]) -> Result<(Receipt, &[u8]), ReadStop>
    ensures { AnswersUnlessFull read_stop (λ x. (x.0, x.1.now)) result (receipt bytes.now) }
{
    let (tag, rest) = tag_at(bytes)?;
    let (gas, rest) = u32_at(rest)?;
    let (end, rest) = end_at(alloc, tag, rest)?;
    Ok((Receipt { end, gas }, rest))
}

fn tag_at(bytes: &[u8]) -> Result<(u8, &[u8]), Left>
    ensures { Answers left_stop (λ x. (x.0, x.1.now)) result (tag bytes.now) }
{
    let (number, rest) = u8_at(bytes)?;
    if number > LAST_END {
        return Err(Left(bytes.len()));
    }
    Ok((number, rest))
}

/// The end with this tag: behind that of `Raised` stands a value.
fn end_at(alloc: Global, tag: u8, bytes: &[u8]) -> Result<(Option<Why>, &[u8]), ReadStop>
    ensures { AnswersUnlessFull read_stop (λ x. (x.0, x.1.now)) result (end_behind tag bytes.now) }
{
    match tag {
        0 => Ok((None, bytes)),
        1 => Ok((Some(Why::BalanceTooLow), bytes)),
        2 => Ok((Some(Why::NoSuchContract), bytes)),
        3 => Ok((Some(Why::NoSuchEntry), bytes)),
        4 => Ok((Some(Why::WrongParameter), bytes)),
        5 => raised_at(alloc, bytes),
        6 => Ok((Some(Why::Overflow), bytes)),
        7 => Ok((Some(Why::Shift), bytes)),
        8 => Ok((Some(Why::TooLarge), bytes)),
        9 => Ok((Some(Why::OutOfGas), bytes)),
        10 => Ok((Some(Why::OutOfTurns), bytes)),
        11 => Ok((Some(Why::BigMapMoved), bytes)),
        12 => Ok((Some(Why::TooManyCells), bytes)),
        13 => Ok((Some(Why::TooMuchData), bytes)),
        14 => Ok((Some(Why::TooManyCalls), bytes)),
        _ => Err(ReadStop::Left(bytes.len())),
    }
}

/// A value that was raised.
fn raised_at(alloc: Global, bytes: &[u8]) -> Result<(Option<Why>, &[u8]), ReadStop>
    ensures { AnswersUnlessFull read_stop (λ x. (x.0, x.1.now)) result
        (made (λ v. Some (why.Raised v)) passed bytes.now) }
{
    let (value, rest) = passed_at(alloc, bytes)?;
    Ok((Some(Why::Raised(value)), rest))
}
