//! Words: whether a word is known, and what is told of one that can't stand where it does.

ghost use Rattle.std.specs.Prelude.{◌≡◌, Err};
ghost use Rattle.std.specs.Str.{bytes_eq};
ghost use Rattle.michelson_reader.specs.declared.fault.ReadFault.TheVariants.{LeftOut};
ghost use Rattle.michelson_reader.specs.Names.{is_known, is_left_out};
ghost use Rattle.micheline_text.specs.Told.{IsTold};
ghost use Rattle.michelson_reader.specs.Answers.{read_fault};
ghost use Rattle.michelson_reader.specs.TypeFaults.{no_form};

use crate::code_words::is_code_word;
use crate::fault::ReadFault;
use crate::type_words::is_type_word;
use sqlite_items::Items;
use std::alloc::Global;

pub(crate) fn is_word(name: &[u8], word: &str) -> bool
    ensures { result ≡ bytes_eq name.now word.now }
{
    name == word.as_bytes()
}

/// Whether it is a word of Michelson that this language leaves out.
pub(crate) fn is_left_out(name: &[u8]) -> bool
    ensures { result ≡ is_left_out name.now }
{
    is_word(name, "LAMBDA")
        || is_word(name, "EXEC")
        || is_word(name, "APPLY")
        || is_word(name, "CREATE_CONTRACT")
        || is_word(name, "SET_DELEGATE")
        || is_word(name, "IMPLICIT_ACCOUNT")
        || is_word(name, "PACK")
        || is_word(name, "UNPACK")
        || is_word(name, "BLAKE2B")
        || is_word(name, "KECCAK")
        || is_word(name, "SHA512")
        || is_word(name, "SLICE")
        || is_word(name, "NEVER")
        || is_word(name, "CHAIN_ID")
        || is_word(name, "EMPTY_BIG_MAP")
        || is_word(name, "CMPEQ")
}

/// Whether it is a word of a type or of an instruction.
fn is_known(alloc: Global, name: &[u8]) -> bool
    ensures { result ≡ is_known name.now }
{
    is_type_word(name) || is_code_word(alloc, name)
}

/// What is told of a word that can't stand there, or not with so many arguments.
pub(crate) fn no_form(alloc: Global, at: usize, name: &[u8]) -> ReadFault
    ensures { IsTold {Y = Unit {0}} (read_fault result) (no_form at name.now) }
{
    if is_known(alloc, name) {
        ReadFault::Arity(at)
    } else if is_left_out(name) {
        left_out_fault(alloc, at, name)
    } else {
        ReadFault::UnknownPrim(at)
    }
}

/// The fault of a word that is left out.
pub(crate) fn left_out_fault(alloc: Global, at: usize, name: &[u8]) -> ReadFault
    ensures { IsTold {Y = Unit {0}} (read_fault result) (Err (LeftOut at name.now)) }
{
    match Items::from_slice(alloc, name) {
        Ok(word) => ReadFault::LeftOut(at, word),
        Err(_) => ReadFault::NoMemory,
    }
}
