//! The text of a script in a file.

ghost use Rattle.std.specs.Prelude.{◌≡◌, ◌↔◌, ◌<◌, ◌^◌, if◌then◌else◌, length, IfOk, IsTrue, None, Some};
ghost use Rattle.std.specs.Option.{option_map};
ghost use Rattle.byte_fields.specs.Told.{Answers, AnswersUnlessFull, left_stop, read_stop};
ghost use Rattle.michelson_reader.specs.declared.fault.ReadFault.TheVariants.{NoMemory as no_memory};
ghost use Rattle.ledger_state.specs.Scripts.{may_run, printed_as, script_of};
ghost use Rattle.ledger_state.specs.Found.{text};
ghost use Rattle.ledger_state.specs.BookReading.{script};

use byte_fields::{Left, ReadStop, run_at, u32_at};
use michelson_code::{Script, Typed};
use michelson_reader::{
    ReadFault, bytes_are_a_script_or_have_one_fault, print_script, read_script,
};
use michelson_typer::{TypeRefusal, check};
use std::alloc::{AllocError, Global};
use value_core::NoMemory;

/// A script that may run, as it is printed, and the bytes after it.
pub(crate) fn script_at(alloc: Global, bytes: &[u8]) -> Result<(Typed, &[u8]), ReadStop>
    ensures { AnswersUnlessFull read_stop (λ x. (x.0.script, x.1.now)) result
        (script bytes.now) }
{
    let (text, rest) = text_at(bytes)?;
    match script_in(alloc, text)? {
        Some(typed) => Ok((typed, rest)),
        None => Err(ReadStop::Left(bytes.len())),
    }
}

/// A text with its length before it, and the bytes after it.
fn text_at(bytes: &[u8]) -> Result<(&[u8], &[u8]), Left>
    ensures read { Answers left_stop (λ x. (x.0.now, x.1.now)) result (text bytes.now) }
    ensures short { IfOk result (λ x. length x.0.now < 2 ^ 32) }
{
    let (length, rest) = u32_at(bytes)?;
    run_at(length as usize, rest)
}

/// The script that the text is, if it is one that may run, as it is printed.
fn script_in(alloc: Global, text: &[u8]) -> Result<Option<Typed>, NoMemory>
    requires { length text.now < 2 ^ 32 }
    ensures { IfOk result (λ found. option_map (λ t. t.script) found ≡ script_of text.now) }
{
    bytes_are_a_script_or_have_one_fault();
    match read_script(alloc, text) {
        Ok(script) => printed_in(alloc, text, script),
        Err(fault) => {
            if is_full(&fault) {
                return Err(AllocError);
            }
            Ok(None)
        }
    }
}

/// Whether memory ran out, and the text may have no fault.
fn is_full(fault: &ReadFault) -> bool
    ensures { IsTrue result ↔ (fault.now ≡ no_memory) }
{
    matches!(fault, ReadFault::NoMemory)
}

/// The script, if it may run and the text is its printed one.
fn printed_in(alloc: Global, text: &[u8], script: Script) -> Result<Option<Typed>, NoMemory>
    ensures { IfOk result (λ found. option_map (λ t. t.script) found
        ≡ printed_as text.now (Some script)) }
{
    let printed = print_script(alloc, &script)?;
    if printed.as_slice() != text {
        return Ok(None);
    }
    typed_of(alloc, script)
}

/// The script, if it may run.
fn typed_of(alloc: Global, script: Script) -> Result<Option<Typed>, NoMemory>
    ensures { IfOk result (λ found. option_map (λ t. t.script) found
        ≡ (if may_run script then Some script else None)) }
{
    match check(alloc, script) {
        Ok(typed) => Ok(Some(typed)),
        Err(TypeRefusal::NoMemory) => Err(AllocError),
        Err(TypeRefusal::Fault(_)) => Ok(None),
    }
}
