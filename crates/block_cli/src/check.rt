//! What `check` makes of the bytes of a script's text.
ghost use Rattle.std.specs.Prelude.{◌≡◌, ◌↔◌, ◌≤◌, IfOk, IsTrue, length};
ghost use Rattle.edge_io.specs.Outside.{most_bytes};
ghost use Rattle.michelson_reader.specs.declared.fault.ReadFault.TheVariants.{NoMemory};
ghost use Rattle.michelson_reader.specs.Answers.{IsReadFault};
ghost use Rattle.michelson_reader.specs.Script.{IsScriptOf};
ghost use Rattle.block_cli.specs.Checking.{Checks};
ghost use Rattle.block_cli.specs.Inside.{answer_in};

use crate::answer::Answer;
use crate::faulty;
use michelson_code::Script;
use michelson_reader::{ReadFault, read_script};
use michelson_typer::{TypeRefusal, check as check_types};
use std::alloc::{AllocError, Global};

/// The answer to a script that was read of the bytes.
fn judged<'a>(
    alloc: Global,
    code: &str,
    bytes: &[u8],
    script: Script,
) -> Result<Answer<'a>, AllocError>
    requires { IsScriptOf bytes.now script }
    ensures { IfOk result (λ a. Checks code.now bytes.now (answer_in a)) }
{
    let _ = bytes;
    match check_types(alloc, script) {
        Ok(typed) => Ok(Answer::Done(faulty::typed(alloc, &typed)?, Vec::new(alloc))),
        Err(TypeRefusal::Fault(fault)) => {
            Ok(Answer::BadInput(faulty::untyped(alloc, code, &fault)?))
        }
        Err(TypeRefusal::NoMemory) => Err(AllocError),
    }
}

/// Whether it is none of the text's faults: memory ran out.
fn is_want_of_memory(fault: &ReadFault) -> bool
    ensures { IsTrue result ↔ (fault.now ≡ NoMemory) }
{
    match fault {
        ReadFault::NoMemory => true,
        _ => false,
    }
}

/// The answer to bytes that are no script's text.
fn refused<'a>(
    alloc: Global,
    code: &str,
    bytes: &[u8],
    fault: &ReadFault,
) -> Result<Answer<'a>, AllocError>
    requires { IsReadFault bytes.now fault.now }
    ensures { IfOk result (λ a. Checks code.now bytes.now (answer_in a)) }
{
    let _ = bytes;
    if is_want_of_memory(fault) {
        return Err(AllocError);
    }
    Ok(Answer::BadInput(faulty::no_script(alloc, code, fault)?))
}

/// The answer to the bytes of a script's text.
pub fn check<'a>(alloc: Global, code: &str, bytes: &[u8]) -> Result<Answer<'a>, AllocError>
    requires { length bytes.now ≤ most_bytes }
    ensures { IfOk result (λ a. Checks code.now bytes.now (answer_in a)) }
{
    match read_script(alloc, bytes) {
        Ok(script) => judged(alloc, code, bytes, script),
        Err(fault) => refused(alloc, code, bytes, &fault),
    }
}
