//! Values to nodes, and to bytes.

ghost use Rattle.std.specs.Prelude.{◌≡◌, ◌≤◌, ◌∷◌, [], if◌then◌else◌, IfOk, IsTrue, codes, map, pos};
ghost use Rattle.value_core.specs.Depth.{depth_of};
ghost use Rattle.value_core.specs.Leaves.{is_blob};
ghost use Rattle.micheline_text.specs.Printed.{printed};
ghost use Rattle.micheline_text.specs.declared.node.Body.TheVariants as body;
ghost use Rattle.data_nodes.specs.Nodes.{applied, node, word};
ghost use Rattle.value_core.specs.Combs.{comb};
ghost use Rattle.data_nodes.specs.Printed.{IsReadAgain, is_printed_whole, node_of};
ghost use Rattle.data_nodes.specs.Printing.{entry_of, paired};

use micheline_text::{Body, NoMemory, Node, print_node};
use sqlite_items::Items;
use std::alloc::Global;
use value_core::{Blob, Num, Text, Val, leaves_are_lawful};

/// The text of a value. It is data of each type that the value has.
pub fn print_data(alloc: Global, v: &Val) -> Result<Vec<u8>, NoMemory>
    // By the rules of printing.
    ensures text { IfOk result (λ text. text.items ≡ printed (node_of v.now)) }
    // It is a text of one node, which is data and a storage of each type of the value, so it is
    // read again as that.
    ensures again { IfOk result (λ text.
        IsTrue (is_printed_whole v.now) → depth_of v.now ≤ 128 → IsReadAgain text.items v.now) }
{
    leaves_are_lawful(v);
    print_node(alloc, &data_node(alloc, v)?)
}

/// The node that is printed for a value.
#[cycle(nodes)]
#[tactic(auto, using(crate::proofs::PrintedNodes::nodes))]
pub fn data_node(alloc: Global, v: &Val) -> Result<Node, NoMemory>
    ensures { IfOk result (λ n. n ≡ node_of v.now) }
{
    match v {
        Val::Unit => word(alloc, b"Unit"),
        Val::Bool(b) => truth(alloc, *b),
        Val::Int(n) | Val::Nat(n) | Val::Time(n) => Ok(number(*n)),
        Val::Mutez(n) => Ok(amount(*n)),
        Val::Text(text) => string(alloc, text),
        Val::Bytes(blob) => bytes(alloc, blob.bytes()),
        Val::Addr(address) => bytes(alloc, address.bytes()),
        Val::Nothing => word(alloc, b"None"),
        Val::Some(part) => applied_to_one(alloc, b"Some", data_node(alloc, part.get())?),
        Val::Left(part) => applied_to_one(alloc, b"Left", data_node(alloc, part.get())?),
        Val::Right(part) => applied_to_one(alloc, b"Right", data_node(alloc, part.get())?),
        Val::Pair(first, rest) => comb_node(alloc, first.get(), rest.get()),
        Val::List(items) | Val::Set(items) => Ok(sequence(item_nodes(alloc, items.as_slice())?)),
        Val::Map(entries) => Ok(sequence(entry_nodes(alloc, entries.as_slice())?)),
        Val::BigMap { .. } | Val::Contract(_, _) | Val::Operation(_) => {
            Ok(sequence(Items::new(alloc)))
        }
    }
}

/// The node of a pair, with that of its last part made first: a comb may have millions of parts.
#[cycle(nodes)]
fn comb_node(alloc: Global, first: &Val, rest: &Val) -> Result<Node, NoMemory>
    ensures { IfOk result (λ n. n ≡ paired (node_of first.now) (node_of rest.now)) }
{
    let mut firsts = Items::new(alloc);
    firsts.push(data_node(alloc, first)?)?;
    let mut last = rest;
    while let Val::Pair(next, behind) = last {
        firsts.push(data_node(alloc, next.get())?)?;
        last = behind.get();
    }
    pairs(alloc, firsts, data_node(alloc, last)?)
}

/// Each of the nodes in a pair with all that stands behind it.
#[tactic(auto, using(value_core::proofs::Combs::one_more_part))]
fn pairs(alloc: Global, mut firsts: Items<Node>, last: Node) -> Result<Node, NoMemory>
    ensures { IfOk result (λ n. n ≡ comb paired firsts last) }
{
    let mut made = last;
    while let Some(part) = firsts.pop() {
        made = applied_to_two(alloc, b"Pair", part, made)?;
    }
    Ok(made)
}

#[cycle(nodes)]
fn item_nodes(alloc: Global, items: &[Val]) -> Result<Items<Node>, NoMemory>
    ensures { IfOk result (λ ns. ns ≡ map node_of items.now) }
{
    let mut nodes = Items::new(alloc);
    for item in items {
        nodes.push(data_node(alloc, item)?)?;
    }
    Ok(nodes)
}

#[cycle(nodes)]
fn entry_nodes(alloc: Global, entries: &[(Val, Val)]) -> Result<Items<Node>, NoMemory>
    ensures { IfOk result (λ ns. ns ≡ map entry_of entries.now) }
{
    let mut nodes = Items::new(alloc);
    for entry in entries {
        let key = data_node(alloc, &entry.0)?;
        let value = data_node(alloc, &entry.1)?;
        nodes.push(applied_to_two(alloc, b"Elt", key, value)?)?;
    }
    Ok(nodes)
}

fn node(body: Body) -> Node
    ensures { result ≡ node body }
{
    Node { at: 0, body }
}

fn applied(alloc: Global, name: &[u8], args: Items<Node>) -> Result<Node, NoMemory>
    ensures { IfOk result (λ n. n ≡ applied name.now args) }
{
    Ok(node(Body::Prim {
        name: Items::from_slice(alloc, name)?,
        notes: Items::new(alloc),
        args,
    }))
}

fn word(alloc: Global, name: &[u8]) -> Result<Node, NoMemory>
    ensures { IfOk result (λ n. n ≡ word name.now) }
{
    applied(alloc, name, Items::new(alloc))
}

fn applied_to_one(alloc: Global, name: &[u8], arg: Node) -> Result<Node, NoMemory>
    ensures { IfOk result (λ n. n ≡ applied name.now (arg ∷ [])) }
{
    let mut args = Items::new(alloc);
    args.push(arg)?;
    applied(alloc, name, args)
}

fn applied_to_two(alloc: Global, name: &[u8], a: Node, b: Node) -> Result<Node, NoMemory>
    ensures { IfOk result (λ n. n ≡ applied name.now (a ∷ b ∷ [])) }
{
    let mut args = Items::new(alloc);
    args.push(a)?;
    args.push(b)?;
    applied(alloc, name, args)
}

fn sequence(nodes: Items<Node>) -> Node
    ensures { result ≡ node (body.Seq nodes) }
{
    node(Body::Seq(nodes))
}

fn truth(alloc: Global, b: bool) -> Result<Node, NoMemory>
    ensures { IfOk result (λ n. n ≡ word (if b then codes "True" else codes "False")) }
{
    word(alloc, if b { b"True" } else { b"False" })
}

fn number(n: Num) -> Node
    ensures { result ≡ node (body.Int n) }
{
    node(Body::Int(n))
}

fn amount(n: u64) -> Node
    ensures { result ≡ node (body.Int (pos n)) }
{
    number(Num::new(i128::from(n)).unwrap())
}

fn string(alloc: Global, text: &Text) -> Result<Node, NoMemory>
    ensures { IfOk result (λ n. n ≡ node (body.Text text.now)) }
{
    Ok(node(Body::Text(text.copy(alloc)?)))
}

fn bytes(alloc: Global, bytes: &[u8]) -> Result<Node, NoMemory>
    requires { IsTrue (is_blob bytes.now) }
    ensures { IfOk result (λ n. n ≡ node (body.Bytes bytes.now)) }
{
    Ok(node(Body::Bytes(Blob::new(Vec::from_slice(alloc, bytes)?).unwrap())))
}
