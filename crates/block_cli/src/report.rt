//! Every line that the program prints.
ghost use Rattle.std.specs.Prelude.{◌≡◌, ◌++◌, IfOk, OnOk, codes};
ghost use Rattle.std.specs.Fmt.{decimal};
ghost use Rattle.hex.specs.Hex.{encode_lower};
ghost use Rattle.plain_digest.specs.Digest.{digest_of};
ghost use Rattle.block_cli.specs.Report.{line, usage_line, cannot_read_line, cannot_write_line, memory_line, bad_input_line, refused_line, accepted_line, state_line, malformed, not_yet, unordered, cell_text, refusal_text};
ghost use Rattle.block_cli.specs.Seen.{Prints};

use crate::print::print_three;
use crate::refusal::Refusal;
use cell_names::Cell;
use edge_io::Sink;
use plain_ledger::State;
use std::alloc::{AllocError, Global};
use value_codec::spelling;
use value_core::{Address, Val};

const USAGE: &[u8] = b"usage: compile SRC OUT | check CODE | genesis TEXT STATE | \
    mine STATE OPS BLOCK NEXT WORKERS | validate STATE BLOCK NEXT WORKERS | show STATE | \
    load NUMBER COUNT WORKERS\n";

/// Prints three texts in a row, under a status that stays whatever the sink does.
fn tell<K: Sink>(out: &mut K, a: &[u8], b: &[u8], c: &[u8])
    ensures { Prints (K.seen out.old) (a.now ++ b.now ++ c.now) (K.seen out.new) }
{
    let _ = print_three(out, a, b, c);
}

/// The words are no command.
pub fn usage<K: Sink>(out: &mut K)
    ensures { Prints (K.seen out.old) usage_line (K.seen out.new) }
{
    tell(out, USAGE, b"", b"");
}

/// A file couldn't be read.
pub fn cannot_read<K: Sink>(out: &mut K, name: &str)
    ensures { Prints (K.seen out.old) (cannot_read_line name.now) (K.seen out.new) }
{
    tell(out, b"cannot read ", name.as_bytes(), b"\n");
}

/// A file couldn't be written.
pub fn cannot_write<K: Sink>(out: &mut K, name: &str)
    ensures { Prints (K.seen out.old) (cannot_write_line name.now) (K.seen out.new) }
{
    tell(out, b"cannot write ", name.as_bytes(), b"\n");
}

/// Memory ran out.
pub fn out_of_memory<K: Sink>(out: &mut K)
    ensures { Prints (K.seen out.old) memory_line (K.seen out.new) }
{
    tell(out, b"out of memory", b"\n", b"");
}

/// A file is longer than a reader takes.
pub fn too_long<K: Sink>(out: &mut K, name: &str)
    ensures { Prints (K.seen out.old) (bad_input_line name.now (codes "TooLong")) (K.seen out.new) }
{
    tell(out, name.as_bytes(), b": TooLong", b"\n");
}

/// A line that stands ready.
pub fn say<K: Sink>(out: &mut K, line: &[u8])
    ensures { Prints (K.seen out.old) line.now (K.seen out.new) }
{
    tell(out, line, b"", b"");
}

/// The bytes of a file break their format, first at a place.
pub fn malformed(alloc: Global, name: &str, place: usize) -> Result<Vec<u8>, AllocError>
    ensures { IfOk result (λ v. v.items ≡ bad_input_line name.now (malformed place)) }
{
    let why = numbered(alloc, b"Malformed at ", place as u64)?;
    line_of(alloc, name.as_bytes(), b": ", &why)
}

/// A file holds something lawful that isn't built yet, first at a place.
pub fn not_yet(alloc: Global, name: &str, place: usize) -> Result<Vec<u8>, AllocError>
    ensures { IfOk result (λ v. v.items ≡ bad_input_line name.now (not_yet place)) }
{
    let why = numbered(alloc, b"NotYet at ", place as u64)?;
    line_of(alloc, name.as_bytes(), b": ", &why)
}

/// A file would be longer than a reader takes.
pub fn too_long_line(alloc: Global, name: &str) -> Result<Vec<u8>, AllocError>
    ensures { IfOk result (λ v. v.items ≡ bad_input_line name.now (codes "TooLong")) }
{
    line_of(alloc, name.as_bytes(), b": ", b"TooLong")
}

/// A state is written, and its digest.
pub fn state(alloc: Global, digest: &[u8; 32]) -> Result<Vec<u8>, AllocError>
    ensures { IfOk result (λ v. v.items ≡ state_line digest.now) }
{
    let digits = hex::encode(alloc, digest)?;
    line_of(alloc, b"state ", digits.as_bytes(), b"")
}

/// A block is refused, and why.
pub fn refused(alloc: Global, why: &Refusal) -> Result<Vec<u8>, AllocError>
    ensures { IfOk result (λ v. v.items ≡ refused_line (refusal_text why.now)) }
{
    let why = refusal_text(alloc, why)?;
    line_of(alloc, b"", b"refused: ", &why)
}

fn refusal_text(alloc: Global, why: &Refusal) -> Result<Vec<u8>, AllocError>
    ensures { IfOk result (λ v. v.items ≡ refusal_text why.now) }
{
    match why {
        Refusal::Malformed(place) => numbered(alloc, b"Malformed at ", *place as u64),
        Refusal::NotYet(place) => numbered(alloc, b"NotYet at ", *place as u64),
        Refusal::WrongParent => Vec::from_slice(alloc, b"WrongParent"),
        Refusal::BadJoin(operation) => numbered(alloc, b"BadJoin ", u64::from(*operation)),
        Refusal::Unordered(earlier, later, cell) => unordered(alloc, *earlier, *later, cell),
        Refusal::FootprintDiffers(operation) => {
            numbered(alloc, b"FootprintDiffers ", u64::from(*operation))
        }
        Refusal::ReceiptDiffers(operation) => {
            numbered(alloc, b"ReceiptDiffers ", u64::from(*operation))
        }
        Refusal::StateDiffers => Vec::from_slice(alloc, b"StateDiffers"),
    }
}

fn unordered(alloc: Global, earlier: u32, later: u32, cell: &Cell) -> Result<Vec<u8>, AllocError>
    ensures { IfOk result (λ v. v.items ≡ unordered earlier later cell.now) }
{
    let mut text = numbered(alloc, b"Unordered ", u64::from(earlier))?;
    text.push(b' ')?;
    put_number(alloc, u64::from(later), &mut text)?;
    text.push(b' ')?;
    put_cell(alloc, cell, &mut text)?;
    Ok(text)
}

fn put_cell(alloc: Global, cell: &Cell, text: &mut Vec<u8>) -> Result<(), AllocError>
    ensures { OnOk result (text.new.items ≡ text.old.items ++ cell_text cell.now) }
{
    match cell {
        Cell::Balance(address) => put_hex(alloc, b"balance 0x", address.bytes(), text),
        Cell::Storage(address) => put_hex(alloc, b"storage 0x", address.bytes(), text),
        Cell::Entry(address, place, key) => put_entry(alloc, address, *place, key, text),
    }
}

fn put_entry(
    alloc: Global,
    address: &Address,
    place: u8,
    key: &Val,
    text: &mut Vec<u8>,
) -> Result<(), AllocError>
    ensures { OnOk result
        (text.new.items ≡ text.old.items ++ cell_text (Cell.Entry address.now place key.now)) }
{
    let spelt = spelling(alloc, key)?;
    put_hex(alloc, b"entry 0x", address.bytes(), text)?;
    text.push(b' ')?;
    put_number(alloc, u64::from(place), text)?;
    put_hex(alloc, b" 0x", &spelt, text)
}

/// Words, and bytes as hexadecimal digits behind them.
fn put_hex(alloc: Global, words: &[u8], bytes: &[u8], text: &mut Vec<u8>) -> Result<(), AllocError>
    ensures { OnOk result
        (text.new.items ≡ text.old.items ++ (words.now ++ encode_lower bytes.now)) }
{
    let digits = hex::encode(alloc, bytes)?;
    text.extend_from_slice(words)?;
    text.extend_from_slice(digits.as_bytes())
}

pub fn numbered(alloc: Global, words: &[u8], number: u64) -> Result<Vec<u8>, AllocError>
    ensures { IfOk result (λ v. v.items ≡ words.now ++ decimal number) }
{
    let mut text = Vec::from_slice(alloc, words)?;
    put_number(alloc, number, &mut text)?;
    Ok(text)
}

pub fn put_number(alloc: Global, number: u64, text: &mut Vec<u8>) -> Result<(), AllocError>
    ensures { OnOk result (text.new.items ≡ text.old.items ++ decimal number) }
{
    let digits = number.to_string(alloc)?;
    text.extend_from_slice(digits.as_bytes())
}

pub fn line_of(alloc: Global, a: &[u8], b: &[u8], c: &[u8]) -> Result<Vec<u8>, AllocError>
    ensures { IfOk result (λ v. v.items ≡ line (a.now ++ b.now ++ c.now)) }
{
    let mut text = Vec::from_slice(alloc, a)?;
    text.extend_from_slice(b)?;
    text.extend_from_slice(c)?;
    text.push(b'\n')?;
    Ok(text)
}

/// A block is accepted: the level of the next state, and its digest.
pub fn accepted(alloc: Global, next: &State, digest: &[u8; 32]) -> Result<Vec<u8>, AllocError>
    requires { digest.now ≡ digest_of next.now }
    ensures { IfOk result (λ v. v.items ≡ accepted_line next.now) }
{
    let level = next.head().level.to_string(alloc)?;
    let digits = hex::encode(alloc, digest)?;
    let mut text = Vec::new(alloc);
    text.extend_from_slice(b"accepted, level ")?;
    text.extend_from_slice(level.as_bytes())?;
    text.extend_from_slice(b", state ")?;
    text.extend_from_slice(digits.as_bytes())?;
    text.push(b'\n')?;
    Ok(text)
}
