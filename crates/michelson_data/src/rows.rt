//! Strings, bytes and lists: lengths, hashes, and one after another.

ghost use Rattle.std.specs.Prelude.{◌++◌, ◌≡◌, Err, IfErr, IfOk, IsTrue, reverse, ℕ};
ghost use Rattle.std.specs.Prelude as std;
ghost use Rattle.std.specs.List.{list_all};
ghost use Rattle.value_core.specs.declared.val.Val.TheViews.{out-Val};
ghost use Rattle.value_core.specs.Leaves.{is_printable};
ghost use Rattle.michelson_rules.specs.Answers.{gives, sized};
ghost use Rattle.michelson_rules.specs.Collections as rule;
ghost use Rattle.michelson_rules.specs.Plain as plain;
ghost use Rattle.michelson_data.specs.Replaces.{Replaces};
ghost use Rattle.michelson_data.specs.Tells.{Tells};

use crate::fault::DataEnd;
use crate::ranges::nat;
use crate::stack::settle;
use sha2::{Digest, Sha256};
use std::alloc::{AllocError, Global};
use value_core::{Blob, NoMemory, Text, Val, is_within_size};

/// The value, unless it has more than 4,096 leaves.
pub(crate) fn within(v: Val) -> Result<Val, DataEnd>
    ensures made { Tells result (sized v) }
    ensures refused { IfErr result (λ e. e ≡ DataEnd.TooLarge) }
{
    if is_within_size(&v, 4096) {
        Ok(v)
    } else {
        Err(DataEnd::TooLarge)
    }
}

/// How long a string, bytes, a list, a set or a map is.
pub(crate) fn count(x: &Val) -> Result<Val, DataEnd>
    ensures { Tells result (rule.count (out-Val x.now)) }
{
    match x {
        Val::Text(text) => length(text.bytes().len()),
        Val::Bytes(blob) => length(blob.bytes().len()),
        Val::List(items) => length(items.len()),
        Val::Set(items) => length(items.len()),
        Val::Map(entries) => length(entries.len()),
        _ => Err(DataEnd::NoMemory),
    }
}

fn length(n: usize) -> Result<Val, DataEnd>
    ensures { Tells result (gives (Val.Nat (std.pos n))) }
{
    nat(Some(n as i128))
}

/// The hash of bytes.
pub(crate) fn hashed(alloc: Global, x: &Val) -> Result<Val, DataEnd>
    ensures { Tells result (rule.hashed (out-Val x.now)) }
{
    match x {
        Val::Bytes(blob) => {
            let digest = Sha256::digest(blob.bytes());
            bytes(Vec::from_slice(alloc, &digest)?)
        }
        _ => Err(DataEnd::NoMemory),
    }
}

/// Two strings or two bytes in a row.
pub(crate) fn in_a_row(alloc: Global, x: &Val, y: &Val) -> Result<Val, DataEnd>
    ensures { Tells result (rule.in_a_row (out-Val x.now) (out-Val y.now)) }
{
    match (x, y) {
        (Val::Text(x), Val::Text(y)) => text(joined(alloc, x.bytes(), y.bytes())?),
        (Val::Bytes(x), Val::Bytes(y)) => bytes(joined(alloc, x.bytes(), y.bytes())?),
        _ => Err(DataEnd::NoMemory),
    }
}

fn joined(alloc: Global, x: &[u8], y: &[u8]) -> Result<Vec<u8>, NoMemory>
    ensures { IfOk result (λ row. row.items ≡ x.now ++ y.now) }
{
    let mut row = Vec::from_slice(alloc, x)?;
    row.extend_from_slice(y)?;
    Ok(row)
}

/// The strings of a list in a row.
pub(crate) fn all_in_a_row(alloc: Global, x: &Val) -> Result<Val, DataEnd>
    ensures { Tells result (rule.all_in_a_row (out-Val x.now)) }
{
    match x {
        Val::List(items) => match strings(alloc, items.as_slice()) {
            Ok(row) => text(row),
            Err(_) => Err(DataEnd::NoMemory),
        },
        _ => Err(DataEnd::NoMemory),
    }
}

/// The bytes of the strings.
fn strings(alloc: Global, items: &[Val]) -> Result<Vec<u8>, NoMemory>
    ensures strings { IfOk result (λ row. rule.strings items.now ≡ std.Some row.items) }
    ensures printable { IfOk result (λ row. IsTrue (list_all is_printable row.items)) }
{
    let mut row = Vec::new(alloc);
    for item in items {
        match item {
            Val::Text(text) => row.extend_from_slice(text.bytes())?,
            _ => return Err(AllocError),
        }
    }
    Ok(row)
}

/// Printable bytes as a string, unless they are too many.
fn text(bytes: Vec<u8>) -> Result<Val, DataEnd>
    requires { IsTrue (list_all is_printable bytes.items) }
    ensures { Tells result (sized (Val.Text bytes.items)) }
{
    match Text::new(bytes) {
        Some(text) => Ok(Val::Text(text)),
        None => Err(DataEnd::TooLarge),
    }
}

/// Bytes as a value, unless they are too many.
fn bytes(bytes: Vec<u8>) -> Result<Val, DataEnd>
    ensures { Tells result (sized (Val.Bytes bytes.items)) }
{
    match Blob::new(bytes) {
        Some(blob) => Ok(Val::Bytes(blob)),
        None => Err(DataEnd::TooLarge),
    }
}

/// Strings or bytes on the stack in a row: two, or the strings of a list.
pub(crate) fn concatenated(alloc: Global, stack: &mut Vec<Val>) -> Result<(), DataEnd>
    ensures applies { Replaces (plain.concatenated (reverse stack.old.items)) result
        (reverse stack.new.items) }
    ensures unchanged { result ≡ Err DataEnd.NoMemory → stack.new.items ≡ stack.old.items }
{
    let height = stack.len();
    if height < 1 {
        return Err(DataEnd::NoMemory);
    }
    match &stack[height - 1] {
        Val::List(_) => {
            let made = all_in_a_row(alloc, &stack[height - 1]);
            settle(stack, 1, made)
        }
        Val::Text(_) | Val::Bytes(_) if height > 1 => {
            let made = in_a_row(alloc, &stack[height - 1], &stack[height - 2]);
            settle(stack, 2, made)
        }
        _ => Err(DataEnd::NoMemory),
    }
}
