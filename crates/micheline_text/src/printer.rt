//! Nodes to bytes.

ghost use Rattle.std.specs.Prelude.{◌≡◌, ◌++◌, codes, IfOk, IfSome, IsTrue, OnOk, List, map, ℕ, ◌<◌, ◌≤◌, ◌&&◌};
ghost use Rattle.std.specs.List.{flat_map, list_all};
ghost use Rattle.std.specs.Option.{option_copied};
ghost use Rattle.std.specs.Fmt.{signed_decimal};
ghost use Rattle.micheline_text.specs.Again.{IsTextOfOne, brackets, is_well_named};
ghost use Rattle.micheline_text.specs.Lawful.{is_lawful};
ghost use Rattle.micheline_text.specs.Printing.{IsUntilLast, closings, opening, parentheses};
ghost use Rattle.micheline_text.specs.declared.node.Body.{size-Body};
ghost use Rattle.micheline_text.specs.Kinds.{is_plain};
ghost use Rattle.micheline_text.specs.Printed.{annotation, argument, braces, escaped, hex_digit, hex_pair, in_quotes, is_empty, item, items, print, print_body, printed};

use crate::NoMemory;
use crate::node::{Body, Node, last_and_before};
use sqlite_items::Items;
use std::alloc::Global;
use value_core::Num;

fn put_number(alloc: Global, n: Num, out: &mut Vec<u8>) -> Result<(), NoMemory>
    ensures { OnOk result (out.new.items ≡ out.old.items ++ signed_decimal n) }
{
    let number = n.get();
    let text = number.to_string(alloc)?;
    out.extend_from_slice(text.as_bytes())
}

fn put_escaped(b: u8, out: &mut Vec<u8>) -> Result<(), NoMemory>
    ensures { OnOk result (out.new.items ≡ out.old.items ++ escaped b) }
{
    match b {
        b'\n' => out.extend_from_slice(&[b'\\', b'n']),
        b'"' | b'\\' => out.extend_from_slice(&[b'\\', b]),
        _ => out.extend_from_slice(&[b]),
    }
}

fn put_text(text: &[u8], out: &mut Vec<u8>) -> Result<(), NoMemory>
    ensures { OnOk result (out.new.items ≡ out.old.items ++ in_quotes text.now) }
{
    out.extend_from_slice(&[b'"'])?;
    put_all_escaped(text, out)?;
    out.extend_from_slice(&[b'"'])
}

fn put_all_escaped(text: &[u8], out: &mut Vec<u8>) -> Result<(), NoMemory>
    ensures { OnOk result (out.new.items ≡ out.old.items ++ flat_map escaped text.now) }
{
    for b in text {
        put_escaped(*b, out)?;
    }
    Ok(())
}

fn hex_digit(n: u8) -> u8
    requires { n < 16 }
    ensures { result ≡ hex_digit n }
{
    if n < 10 { n + 48 } else { n + 87 }
}

fn put_digits(bytes: &[u8], out: &mut Vec<u8>) -> Result<(), NoMemory>
    ensures { OnOk result (out.new.items ≡ out.old.items ++ flat_map hex_pair bytes.now) }
{
    for b in bytes {
        out.extend_from_slice(&[hex_digit(*b / 16), hex_digit(*b % 16)])?;
    }
    Ok(())
}

fn put_bytes(bytes: &[u8], out: &mut Vec<u8>) -> Result<(), NoMemory>
    ensures { OnOk result
        (out.new.items ≡ out.old.items ++ codes "0x" ++ flat_map hex_pair bytes.now) }
{
    out.extend_from_slice(&[b'0', b'x'])?;
    put_digits(bytes, out)
}

fn put_notes(notes: &[Items<u8>], out: &mut Vec<u8>) -> Result<(), NoMemory>
    ensures { OnOk result (out.new.items ≡ out.old.items ++ flat_map annotation notes.now) }
{
    for note in notes {
        out.extend_from_slice(&[b' '])?;
        out.extend_from_slice(note.as_slice())?;
    }
    Ok(())
}

#[tactic(auto, using(crate::proofs::PrintLemmas::is_empty_is))]
fn is_word_alone(notes: &[Items<u8>], args: &[Node]) -> bool
    ensures { result ≡ (is_empty notes.now && is_empty args.now) }
{
    notes.len() == 0 && args.len() == 0
}

/// Whether the node stands in parentheses as an argument.
#[tactic(auto, using(crate::proofs::PrintLemmas::printings))]
pub(crate) fn stands_in_parentheses(body: &Body) -> bool
    ensures { result ≡ (print_body body.now).1 }
{
    match body {
        Body::Prim { notes, args, .. } => !is_word_alone(notes.as_slice(), args.as_slice()),
        Body::Int(_) | Body::Text(_) | Body::Bytes(_) | Body::Seq(_) => false,
    }
}

/// What stands in front of an argument; the answer is the number of parentheses that it opens.
#[tactic(auto, using(crate::proofs::PrintLemmas::printings))]
fn put_opening(arg: &Body, out: &mut Vec<u8>) -> Result<usize, NoMemory>
    ensures text { OnOk result (out.new.items ≡ out.old.items ++ opening (print_body arg.now)) }
    ensures count { IfOk result (λ count. count ≡ parentheses (print_body arg.now)) }
{
    if stands_in_parentheses(arg) {
        out.extend_from_slice(b" (")?;
        Ok(1)
    } else {
        out.push(b' ')?;
        Ok(0)
    }
}

fn put_closings(count: usize, out: &mut Vec<u8>) -> Result<(), NoMemory>
    ensures { OnOk result (out.new.items ≡ out.old.items ++ closings count) }
{
    for i in 0..count {
        out.push(b')')?;
    }
    Ok(())
}

// The last argument is printed in the loop: a printed comb is as deep as it has parts.
#[cycle(printing)]
#[tactic(auto, using(crate::proofs::PrintLemmas::printings))]
fn put_body(alloc: Global, body: &Body, out: &mut Vec<u8>) -> Result<(), NoMemory>
    ensures { OnOk result (out.new.items ≡ out.old.items ++ (print_body body.now).0) }
{
    let mut rest = body;
    let mut opened = 0;
    loop {
        let Some(last) = put_until_last(alloc, rest, out)? else {
            return put_closings(opened, out);
        };
        opened += put_opening(last, out)?;
        rest = last;
    }
}

/// All but the last argument of a word, which is the answer.
#[cycle(printing)]
#[tactic(auto, using(crate::proofs::PrintLemmas::printings))]
fn put_until_last<'a>(
    alloc: Global,
    body: &'a Body,
    out: &mut Vec<u8>,
) -> Result<Option<&'a Body>, NoMemory>
    ensures text { IfOk result (λ o. (text : List ℕ) ×
        (out.new.items ≡ out.old.items ++ text) × IsUntilLast text body.now (option_copied o)) }
    ensures less { IfOk result (λ o. IfSome o (λ last. size-Body last.now < size-Body body.now)) }
{
    match body {
        Body::Int(n) => put_number(alloc, *n, out)?,
        Body::Text(text) => put_text(text.bytes(), out)?,
        Body::Bytes(blob) => put_bytes(blob.bytes(), out)?,
        Body::Seq(nodes) => put_braces(alloc, nodes.as_slice(), out)?,
        Body::Prim { name, notes, args } => {
            out.extend_from_slice(name.as_slice())?;
            put_notes(notes.as_slice(), out)?;
            if let Some((last, before)) = last_and_before(args.as_slice()) {
                put_arguments(alloc, before, out)?;
                return Ok(Some(&last.body));
            }
        }
    }
    Ok(None)
}

#[cycle(printing)]
#[tactic(auto, using(crate::proofs::PrintLemmas::printings))]
fn put_argument(alloc: Global, arg: &Body, out: &mut Vec<u8>) -> Result<(), NoMemory>
    ensures { OnOk result (out.new.items ≡ out.old.items ++ argument (print_body arg.now)) }
{
    let opened = put_opening(arg, out)?;
    put_body(alloc, arg, out)?;
    put_closings(opened, out)
}

#[cycle(printing)]
#[tactic(auto, using(crate::proofs::PrintLemmas::printings))]
fn put_arguments(alloc: Global, args: &[Node], out: &mut Vec<u8>) -> Result<(), NoMemory>
    ensures { OnOk result
        (out.new.items ≡ out.old.items ++ flat_map argument (map print args.now)) }
{
    for arg in args {
        put_argument(alloc, &arg.body, out)?;
    }
    Ok(())
}

#[cycle(printing)]
#[tactic(auto, using(crate::proofs::PrintLemmas::printings))]
fn put_braces(alloc: Global, nodes: &[Node], out: &mut Vec<u8>) -> Result<(), NoMemory>
    ensures { OnOk result (out.new.items ≡ out.old.items ++ braces (map print nodes.now)) }
{
    if nodes.is_empty() {
        return out.extend_from_slice(&[b'{', b'}']);
    }
    out.extend_from_slice(&[b'{'])?;
    put_items(alloc, nodes, out)?;
    out.extend_from_slice(&[b' ', b'}'])
}

#[cycle(printing)]
#[tactic(auto, using(crate::proofs::PrintLemmas::printings))]
fn put_items(alloc: Global, nodes: &[Node], out: &mut Vec<u8>) -> Result<(), NoMemory>
    ensures { OnOk result (out.new.items ≡ out.old.items ++ items (map print nodes.now)) }
{
    for (i, node) in nodes.iter().enumerate() {
        put_item(alloc, i == 0, &node.body, out)?;
    }
    Ok(())
}

#[cycle(printing)]
#[tactic(auto, using(crate::proofs::PrintLemmas::printings))]
fn put_item(alloc: Global, first: bool, body: &Body, out: &mut Vec<u8>) -> Result<(), NoMemory>
    ensures { OnOk result (out.new.items ≡ out.old.items ++ item first (print_body body.now)) }
{
    if !first {
        out.extend_from_slice(&[b' ', b';'])?;
    }
    out.extend_from_slice(&[b' '])?;
    put_body(alloc, body, out)
}

/// The text of a node. Names and annotations that are none of the grammar are printed as they are.
pub fn print_node(alloc: Global, n: &Node) -> Result<Vec<u8>, NoMemory>
    // By the rules of printing.
    ensures text { IfOk result (λ v. v.items ≡ printed n.now) }
    // Its numbers, texts and byte literals are some, since the program holds them.
    ensures lawful { IfOk result (λ v. IsTrue (is_lawful n.now)) }
    // It is bytes from blank to tilde, where the names and annotations are the grammar's.
    ensures plain { IfOk result (λ v.
        IsTrue (is_well_named n.now) → IsTrue (list_all is_plain v.items)) }
    // It is a text of the grammar, of the same node up to places, so it is read again as that.
    ensures again { IfOk result (λ v.
        IsTrue (is_well_named n.now) → brackets n.now ≤ 256 → IsTextOfOne v.items n.now) }
{
    n.leaves_are_lawful();
    let mut out = Vec::new(alloc);
    put_body(alloc, &n.body, &mut out)?;
    Ok(out)
}
