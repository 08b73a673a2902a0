//! Numerals and byte literals.

ghost use Rattle.std.specs.Prelude.{◌≡◌, ◌≤◌, ◌<◌, ◌^◌, ◌*◌, ◌+◌, min, None, length, IfOk};
ghost use Rattle.micheline_text.specs.Lexing.{bytes_token, number_token, numeral};
ghost use Rattle.micheline_text.specs.Literals.{decimal_value, hex_value, hexadecimal, unhex};

use crate::NoMemory;
use crate::token::Token;
use std::alloc::Global;
use value_core::{Blob, Num};

/// The least number that is too wide.
const WIDE: u128 = 0x8000_0000_0000_0000_0000_0000_0000_0000;

/// What the digits stand for, or the least number that is too wide.
fn decimal_value(digits: &[u8]) -> u128
    ensures { result ≡ min (decimal_value digits.now) (2 ^ 127) }
{
    let mut value: u128 = 0;
    for b in digits {
        let digit = u128::from(b.saturating_sub(b'0'));
        value = value.saturating_mul(10).saturating_add(digit).min(WIDE);
    }
    value
}

fn numeral(below: bool, value: u128) -> Token
    ensures { result ≡ numeral below value }
{
    if value >= WIDE {
        return Token::Wide;
    }
    let number = value as i128;
    match Num::new(if below { -number } else { number }) {
        Some(n) => Token::Number(n),
        None => Token::Wide,
    }
}

/// The numeral of these digits, below zero or not.
pub(crate) fn number_token(below: bool, digits: &[u8]) -> Token
    ensures { result ≡ number_token below digits.now }
{
    numeral(below, decimal_value(digits))
}

fn hex_value(b: u8) -> u8
    ensures value { result ≡ hex_value b }
    ensures small { result < 16 }
{
    match b {
        b'0'..=b'9' => b - b'0',
        b'A'..=b'F' => b - b'A' + 10,
        b'a'..=b'f' => b - b'a' + 10,
        _ => 0,
    }
}

fn unhex(alloc: Global, digits: &[u8]) -> Result<Vec<u8>, NoMemory>
    ensures { IfOk result (λ v. v.items ≡ unhex None digits.now) }
{
    let mut made = Vec::new(alloc);
    let mut high = None;
    for b in digits {
        let low = hex_value(*b);
        high = match high {
            None => Some(low),
            Some(high) => {
                made.push(joined(high, low))?;
                None
            }
        };
    }
    Ok(made)
}

fn joined(high: u8, low: u8) -> u8
    requires { (high < 16) × (low < 16) }
    ensures { result ≡ 16 * high + low }
{
    high * 16 + low
}

/// The bytes of these digits, where they are pairs and not too many.
pub fn hexadecimal(alloc: Global, digits: &[u8]) -> Result<Option<Blob>, NoMemory>
    ensures { IfOk result (λ o. o ≡ hexadecimal digits.now) }
{
    let bytes = unhex(alloc, digits)?;
    if digits.len() % 2 != 0 {
        return Ok(None);
    }
    Ok(Blob::new(bytes))
}

/// The byte literal of these digits, if they spell one.
pub(crate) fn bytes_token(alloc: Global, digits: &[u8]) -> Result<Token, NoMemory>
    ensures { IfOk result (λ t. t ≡ bytes_token digits.now) }
{
    Ok(match hexadecimal(alloc, digits)? {
        Some(blob) => Token::Bytes(blob),
        None => Token::Faulty,
    })
}
