//! Cases of Micheline text: the places of its nodes and what is printed of them, or the fault.

ghost use Rattle.std.specs.Prelude.{◌<◌, ◌^◌, length};

use crate::faults;
use crate::words::bytes_of;
use micheline_text::{Body, Node, print_node, read_nodes};
use std::alloc::{AllocError, Global};

/// The answer to a text that is written as a word, and `no case` where it is none.
pub fn answer(alloc: Global, word: &str) -> Result<Vec<u8>, AllocError> {
    match bytes_of(alloc, word)? {
        Some(text) if text.len() < 0x1_0000_0000 => of_text(alloc, &text),
        _ => Vec::from_slice(alloc, b"no case"),
    }
}

fn of_text(alloc: Global, text: &[u8]) -> Result<Vec<u8>, AllocError>
    requires { length text.now < 2 ^ 32 }
{
    match read_nodes(alloc, text) {
        Ok(nodes) => accepted(alloc, nodes.as_slice()),
        Err(fault) => faults::of_text(alloc, &fault),
    }
}

fn accepted(alloc: Global, nodes: &[Node]) -> Result<Vec<u8>, AllocError> {
    let mut out = Vec::from_slice(alloc, b"ok ")?;
    if nodes.is_empty() {
        out.extend_from_slice(b"- ")?;
    }
    for (i, node) in nodes.iter().enumerate() {
        put_places(alloc, i == 0, node, &mut out)?;
    }
    for (i, node) in nodes.iter().enumerate() {
        let before: &[u8] = if i == 0 { b" " } else { b" ; " };
        out.extend_from_slice(before)?;
        out.extend_from_slice(&print_node(alloc, node)?)?;
    }
    Ok(out)
}

/// The place of a node and those inside it, each behind a comma but the first of all.
#[cycle(places)]
fn put_places(
    alloc: Global,
    first: bool,
    node: &Node,
    out: &mut Vec<u8>,
) -> Result<(), AllocError> {
    if !first {
        out.push(b',')?;
    }
    let at = node.at;
    let place = format!(in alloc; "{at}")?;
    out.extend_from_slice(place.as_bytes())?;
    match &node.body {
        Body::Seq(nodes) => put_all_places(alloc, nodes.as_slice(), out),
        Body::Prim { args, .. } => put_all_places(alloc, args.as_slice(), out),
        Body::Int(_) | Body::Text(_) | Body::Bytes(_) => Ok(()),
    }
}

#[cycle(places)]
fn put_all_places(alloc: Global, nodes: &[Node], out: &mut Vec<u8>) -> Result<(), AllocError> {
    for node in nodes {
        put_places(alloc, false, node, out)?;
    }
    Ok(())
}
