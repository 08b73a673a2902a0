//! Cases of typing: what a script weighs and how many instructions it has, or its first fault.

ghost use Rattle.std.specs.Prelude.{◌<◌, ◌^◌, length};

use crate::faults;
use crate::words::bytes_of;
use michelson_code::{count, weight};
use michelson_reader::read_script;
use michelson_typer::{TypeFault, TypeRefusal, check};
use std::alloc::{AllocError, Global};

/// The answer to a case of this table, and `no case` to any other line.
pub fn answer(alloc: Global, words: &str) -> Result<Vec<u8>, AllocError> {
    match bytes_of(alloc, words)? {
        Some(text) if text.len() < 0x1_0000_0000 => checked(alloc, &text),
        _ => Vec::from_slice(alloc, b"no case"),
    }
}

fn checked(alloc: Global, text: &[u8]) -> Result<Vec<u8>, AllocError>
    requires { length text.now < 2 ^ 32 }
{
    let script = match read_script(alloc, text) {
        Ok(script) => script,
        Err(fault) => return faults::of_script(alloc, &fault),
    };
    match check(alloc, script) {
        Ok(typed) => {
            let code = typed.script().code.as_slice();
            let (weight, count) = (weight(code), count(code));
            let text = format!(in alloc; "ok {weight} {count}")?;
            Vec::from_slice(alloc, text.as_bytes())
        }
        Err(TypeRefusal::Fault(fault)) => told(alloc, &fault),
        Err(TypeRefusal::NoMemory) => Err(AllocError),
    }
}

/// The kind, and the path with dots between its numbers, or `code` where it is empty.
fn told(alloc: Global, fault: &TypeFault) -> Result<Vec<u8>, AllocError> {
    let kind = fault.kind;
    let mut text = format!(in alloc; "{kind:?}")?;
    let mut sign = ' ';
    for number in &fault.path {
        let part = format!(in alloc; "{sign}{number}")?;
        text.push_str(part.as_str())?;
        sign = '.';
    }
    if fault.path.is_empty() {
        text.push_str(" code")?;
    }
    Vec::from_slice(alloc, text.as_bytes())
}
