//! The script that a text spells, and the storage that data says.

ghost use Rattle.std.specs.Prelude.{◌≡◌, ◌↔◌, ◌<◌, ◌≤◌, ◌^◌, IfOk, IsTrue, Some, length};
ghost use Rattle.std.specs.Option.{option_map};
ghost use Rattle.value_core.specs.BigMaps.{big_maps_of};
ghost use Rattle.micheline_text.specs.declared.fault.TextFault.TheVariants.{NoMemory as no_text_memory};
ghost use Rattle.michelson_reader.specs.declared.fault.ReadFault.TheVariants.{NoMemory as no_read_memory};
ghost use Rattle.chain_text.specs.Scripts.{if_it_may_run, kept_of_one, script_of, storage_of};

use data_nodes::{DataRefusal, read_storage, the_first_fault_is_told};
use micheline_text::{Node, TextFault, bytes_are_a_text_or_have_one_fault, read_nodes};
use michelson_code::{Script, Typed};
use michelson_reader::{ReadFault, bytes_are_a_script_or_have_one_fault, read_script};
use michelson_typer::{TypeRefusal, check};
use std::alloc::{AllocError, Global};
use value_core::{NoMemory, Ty, Val};

/// A storage with the entries of its big maps.
pub(crate) type Kept = (Val, Vec<(u8, Val, Val)>);

/// The script that the text spells, if it may run.
pub(crate) fn script_of(alloc: Global, text: &[u8]) -> Result<Option<Typed>, NoMemory>
    requires { length text.now < 2 ^ 32 }
    ensures { IfOk result (λ found. option_map (λ t. t.script) found ≡ script_of text.now) }
{
    bytes_are_a_script_or_have_one_fault();
    match read_script(alloc, text) {
        Ok(script) => typed_of(alloc, script),
        Err(fault) => {
            if is_want_of_memory(&fault) {
                return Err(AllocError);
            }
            Ok(None)
        }
    }
}

/// Whether memory ran out, and the text may have no fault.
fn is_want_of_memory(fault: &ReadFault) -> bool
    ensures { IsTrue result ↔ (fault.now ≡ no_read_memory) }
{
    matches!(fault, ReadFault::NoMemory)
}

/// The script, if it may run.
fn typed_of(alloc: Global, script: Script) -> Result<Option<Typed>, NoMemory>
    ensures { IfOk result (λ found. option_map (λ t. t.script) found
        ≡ if_it_may_run (Some script)) }
{
    match check(alloc, script) {
        Ok(typed) => Ok(Some(typed)),
        Err(TypeRefusal::NoMemory) => Err(AllocError),
        Err(TypeRefusal::Fault(_)) => Ok(None),
    }
}

/// The storage of the type that the text says, if it is one of one node.
pub(crate) fn storage_of(alloc: Global, t: &Ty, text: &[u8]) -> Result<Option<Kept>, NoMemory>
    requires few { length (big_maps_of t.now) ≤ 16 }
    requires short { length text.now < 2 ^ 32 }
    ensures { IfOk result (λ found. option_map (λ kept. (kept.0, kept.1.items)) found
        ≡ storage_of t.now text.now) }
{
    bytes_are_a_text_or_have_one_fault();
    match read_nodes(alloc, text) {
        Ok(nodes) => kept_of_one(alloc, t, nodes.as_slice()),
        Err(fault) => {
            if is_lack_of_memory(&fault) {
                return Err(AllocError);
            }
            Ok(None)
        }
    }
}

/// Whether memory ran out, and the text may have no fault.
fn is_lack_of_memory(fault: &TextFault) -> bool
    ensures { IsTrue result ↔ (fault.now ≡ no_text_memory) }
{
    matches!(fault, TextFault::NoMemory)
}

/// The storage that the one node of the list is, if it is one.
fn kept_of_one(alloc: Global, t: &Ty, nodes: &[Node]) -> Result<Option<Kept>, NoMemory>
    requires { length (big_maps_of t.now) ≤ 16 }
    ensures { IfOk result (λ found. option_map (λ kept. (kept.0, kept.1.items)) found
        ≡ kept_of_one t.now nodes.now) }
{
    let [node] = nodes else {
        return Ok(None);
    };
    the_first_fault_is_told();
    match read_storage(alloc, t, node) {
        Ok(kept) => Ok(Some(kept)),
        Err(DataRefusal::NoMemory) => Err(AllocError),
        Err(DataRefusal::Fault(_)) => Ok(None),
    }
}
