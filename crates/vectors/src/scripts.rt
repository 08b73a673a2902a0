//! Cases of scripts and data: what is printed or spelt of what is read, or the fault.

ghost use Rattle.std.specs.Prelude.{◌≤◌, ◌<◌, ◌^◌, length};
ghost use Rattle.value_core.specs.BigMaps.{big_maps_of};

use crate::faults;
use crate::words::{bytes_of, put_hex, put_value, type_of};
use data_nodes::{DataRefusal, has_few_big_maps, print_data, read_data, read_storage};
use micheline_text::{Node, TextFault, read_nodes};
use michelson_reader::{print_script, read_script};
use std::alloc::{AllocError, Global};
use value_core::{Ty, Val};

/// The answer to a case of this table, and `no case` to any other line.
pub fn answer(alloc: Global, call: &str, words: &str) -> Result<Vec<u8>, AllocError> {
    if call == "script" {
        return match bytes_of(alloc, words)? {
            Some(text) if text.len() < 0x1_0000_0000 => script(alloc, &text),
            _ => no_case(alloc),
        };
    }
    let Some((t, data)) = words.split_once(' ') else {
        return no_case(alloc);
    };
    let Some(t) = type_of(alloc, t)? else {
        return no_case(alloc);
    };
    match bytes_of(alloc, data)? {
        Some(text) if text.len() < 0x1_0000_0000 => of_type(alloc, call, &t, &text),
        _ => no_case(alloc),
    }
}

fn no_case(alloc: Global) -> Result<Vec<u8>, AllocError> {
    Vec::from_slice(alloc, b"no case")
}

fn ok(alloc: Global, text: &[u8]) -> Result<Vec<u8>, AllocError> {
    let mut out = Vec::from_slice(alloc, b"ok ")?;
    put_hex(alloc, text, &mut out)?;
    Ok(out)
}

fn script(alloc: Global, text: &[u8]) -> Result<Vec<u8>, AllocError>
    requires { length text.now < 2 ^ 32 }
{
    match read_script(alloc, text) {
        Ok(script) => ok(alloc, &print_script(alloc, &script)?),
        Err(fault) => faults::of_script(alloc, &fault),
    }
}

fn of_type(alloc: Global, call: &str, t: &Ty, text: &[u8]) -> Result<Vec<u8>, AllocError>
    requires { length text.now < 2 ^ 32 }
{
    match read_nodes(alloc, text) {
        Ok(nodes) => match nodes.as_slice() {
            [node] => of_node(alloc, call, t, node),
            _ => no_case(alloc),
        },
        Err(TextFault::NoMemory) => Err(AllocError),
        Err(_) => no_case(alloc),
    }
}

fn of_node(alloc: Global, call: &str, t: &Ty, node: &Node) -> Result<Vec<u8>, AllocError> {
    match call {
        "data" => data(alloc, t, node),
        "storage" if has_few_big_maps(t) => storage(alloc, t, node),
        _ => no_case(alloc),
    }
}

fn refused(alloc: Global, refusal: DataRefusal) -> Result<Vec<u8>, AllocError> {
    match refusal {
        DataRefusal::Fault(fault) => faults::of_data(alloc, fault),
        DataRefusal::NoMemory => Err(AllocError),
    }
}

fn data(alloc: Global, t: &Ty, node: &Node) -> Result<Vec<u8>, AllocError> {
    match read_data(alloc, t, node) {
        Ok(v) => ok(alloc, &print_data(alloc, &v)?),
        Err(refusal) => refused(alloc, refusal),
    }
}

fn storage(alloc: Global, t: &Ty, node: &Node) -> Result<Vec<u8>, AllocError>
    requires { length (big_maps_of t.now) ≤ 16 }
{
    let (v, entries) = match read_storage(alloc, t, node) {
        Ok(read) => read,
        Err(refusal) => return refused(alloc, refusal),
    };
    let mut out = Vec::from_slice(alloc, b"ok ")?;
    put_value(alloc, &v, &mut out)?;
    put_entries(alloc, entries.as_slice(), &mut out)?;
    Ok(out)
}

/// The entries of big maps, each with the place of its map.
fn put_entries(
    alloc: Global,
    entries: &[(u8, Val, Val)],
    out: &mut Vec<u8>,
) -> Result<(), AllocError> {
    for entry in entries {
        let place = entry.0;
        let text = format!(in alloc; " {place}:")?;
        out.extend_from_slice(text.as_bytes())?;
        put_value(alloc, &entry.1, out)?;
        out.extend_from_slice(b":")?;
        put_value(alloc, &entry.2, out)?;
    }
    Ok(())
}
