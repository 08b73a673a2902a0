//! Cases of bytes of values, of their order, and of the small checked types.

use crate::answer::Answer;
use crate::words::{bytes_of, value_of};
use byte_fields::{At, FieldFault};
use std::alloc::{AllocError, Global};
use std::cmp::Ordering;
use value_codec::read_val;
use value_core::{Address, AddressFault, Blob, Name, Num, Text, compare, size};

/// The answer to a case of this table, and `no case` to any other line.
pub fn answer(alloc: Global, call: &str, words: &str) -> Result<Answer, AllocError> {
    match call {
        "num" => Ok(num(words)),
        "order" => order(alloc, words),
        _ => match bytes_of(alloc, words)? {
            Some(bytes) => of_bytes(alloc, call, bytes),
            None => Ok(Answer::NoCase),
        },
    }
}

fn of_bytes(alloc: Global, call: &str, bytes: Vec<u8>) -> Result<Answer, AllocError> {
    match call {
        "value" => value(alloc, &bytes),
        "address" => Ok(address(&bytes)),
        "name" => Ok(found(Name::new(&bytes).is_some())),
        "text" => Ok(found(Text::new(bytes).is_some())),
        "blob" => Ok(found(Blob::new(bytes).is_some())),
        _ => Ok(Answer::NoCase),
    }
}

fn found(is_one: bool) -> Answer {
    if is_one { Answer::Ok } else { Answer::Nothing }
}

fn num(word: &str) -> Answer {
    match word.parse::<i128>() {
        Ok(n) => found(Num::new(n).is_some()),
        Err(_) => Answer::NoCase,
    }
}

fn value(alloc: Global, bytes: &[u8]) -> Result<Answer, AllocError> {
    match read_val(alloc, bytes, 0) {
        Ok((v, end)) => Ok(Answer::Value(end, size(&v))),
        Err(FieldFault::At(At(place))) => Ok(Answer::At(place)),
        Err(FieldFault::NoMemory) => Err(AllocError),
    }
}

fn address(bytes: &[u8]) -> Answer {
    match Address::from_bytes(bytes) {
        Ok(_) => Answer::Ok,
        Err(AddressFault::BadLength(length)) => Answer::BadLength(length),
        Err(AddressFault::BadFirst(first)) => Answer::BadFirst(first),
    }
}

fn order(alloc: Global, words: &str) -> Result<Answer, AllocError> {
    let Some((first, second)) = words.split_once(' ') else {
        return Ok(Answer::NoCase);
    };
    match (value_of(alloc, first)?, value_of(alloc, second)?) {
        (Some(a), Some(b)) => Ok(match compare(&a, &b) {
            Ordering::Less => Answer::Less,
            Ordering::Equal => Answer::Equal,
            Ordering::Greater => Answer::Greater,
        }),
        _ => Ok(Answer::NoCase),
    }
}
