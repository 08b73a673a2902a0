//! Numerals.

ghost use Rattle.std.specs.Prelude.{◌≡◌, ◌^◌, ◌≤◌, min, length};
ghost use Rattle.ligo_tokens.specs.Lexing.{numeral_says, number_says, mutez_says, numeral_value, suffix_at, suffix_kind, suffix_length};

use crate::runs::begins_with;
use crate::token::{Kind, Says};
use value_core::Num;

/// The least number that is too wide, and the least number of mutez.
const WIDE: u128 = 0x8000_0000_0000_0000_0000_0000_0000_0000;

const WIDE_MUTEZ: u128 = 0x8000_0000_0000_0000;

/// What stands behind the digits.
#[derive(Clone, Copy, Debug, PartialEq, Eq)]
pub(crate) enum Suffix {
    Plain,
    Nat,
    Mutez,
    Tez,
}

impl Suffix {
    /// The suffix in front.
    pub(crate) fn at(bytes: &[u8]) -> Suffix
        ensures suffix { result ≡ suffix_at bytes.now }
        ensures within { suffix_length result ≤ length bytes.now }
    {
        if begins_with(bytes, "n") {
            Suffix::Nat
        } else if begins_with(bytes, "mutez") {
            Suffix::Mutez
        } else if begins_with(bytes, "tez") {
            Suffix::Tez
        } else {
            Suffix::Plain
        }
    }

    /// How many bytes it takes.
    pub(crate) fn len(self) -> usize
        ensures { result ≡ suffix_length self }
    {
        match self {
            Suffix::Plain => 0,
            Suffix::Nat => 1,
            Suffix::Mutez => 5,
            Suffix::Tez => 3,
        }
    }

    /// The kind of a numeral with it.
    pub(crate) fn kind(self) -> Kind
        ensures { result ≡ suffix_kind self }
    {
        match self {
            Suffix::Plain => Kind::Int,
            Suffix::Nat => Kind::Nat,
            Suffix::Mutez | Suffix::Tez => Kind::Tez,
        }
    }
}

/// What the digits stand for, or the least number that is too wide.
fn numeral_value(digits: &[u8]) -> u128
    ensures { result ≡ min (numeral_value digits.now) (2 ^ 127) }
{
    let mut value: u128 = 0;
    for b in digits {
        if *b != b'_' {
            let digit = u128::from(b.saturating_sub(b'0'));
            value = value.saturating_mul(10).saturating_add(digit).min(WIDE);
        }
    }
    value
}

fn number_says(value: u128) -> Says
    requires { value ≤ 2 ^ 127 }
    ensures { result ≡ number_says value }
{
    if value >= WIDE {
        return Says::Wide;
    }
    match Num::new(value as i128) {
        Some(n) => Says::Number(n),
        None => Says::Wide,
    }
}

fn mutez_says(value: u128) -> Says
    ensures { result ≡ mutez_says value }
{
    if value < WIDE_MUTEZ {
        Says::Mutez(value as u64)
    } else {
        Says::Wide
    }
}

/// What the numeral says.
pub(crate) fn numeral_says(suffix: Suffix, digits: &[u8]) -> Says
    ensures { result ≡ numeral_says suffix (numeral_value digits.now) }
{
    let value = numeral_value(digits);
    match suffix {
        Suffix::Plain | Suffix::Nat => number_says(value),
        Suffix::Mutez => mutez_says(value),
        Suffix::Tez => mutez_says(value.saturating_mul(1_000_000)),
    }
}
