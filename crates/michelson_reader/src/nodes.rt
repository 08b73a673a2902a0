//! Nodes that are printed: words with what stands behind them. They have no place.

ghost use Rattle.std.specs.Prelude.{◌≡◌, ◌∷◌, [], IfOk, pos};
ghost use Rattle.micheline_text.specs.declared.node.Body.TheVariants as body;
ghost use Rattle.data_nodes.specs.Nodes.{node};

use micheline_text::{Body, NoMemory, Node};
use sqlite_items::Items;
use std::alloc::Global;
use value_core::{Name, Num};

/// A node without a place.
pub(crate) fn node(body: Body) -> Node
    ensures { result ≡ node body }
{
    Node { at: 0, body }
}

/// A word with annotations and arguments.
pub(crate) fn word(
    alloc: Global,
    name: &[u8],
    notes: Items<Items<u8>>,
    args: Items<Node>,
) -> Result<Node, NoMemory>
    ensures { IfOk result (λ n. n ≡ node (body.Prim name.now notes args)) }
{
    Ok(node(Body::Prim {
        name: Items::from_slice(alloc, name)?,
        notes,
        args,
    }))
}

/// A number that isn't negative.
pub(crate) fn number(n: u32) -> Node
    ensures { result ≡ node (body.Int (pos n)) }
{
    node(Body::Int(Num::new(i128::from(n)).unwrap()))
}

/// The annotation that gives an entry its name.
pub(crate) fn note(alloc: Global, name: &Name) -> Result<Items<u8>, NoMemory>
    ensures { IfOk result (λ note. note ≡ 37 ∷ name.now) }
{
    let mut note = Vec::new(alloc);
    note.push(b'%')?;
    note.extend_from_slice(name.bytes())?;
    Ok(Items::from_vec(note))
}

/// One node as arguments.
pub(crate) fn one(alloc: Global, n: Node) -> Result<Items<Node>, NoMemory>
    ensures { IfOk result (λ ns. ns ≡ n ∷ []) }
{
    let mut nodes = Items::new(alloc);
    nodes.push(n)?;
    Ok(nodes)
}

/// Two nodes as arguments.
pub(crate) fn two(alloc: Global, a: Node, b: Node) -> Result<Items<Node>, NoMemory>
    ensures { IfOk result (λ ns. ns ≡ a ∷ b ∷ []) }
{
    let mut nodes = Items::new(alloc);
    nodes.push(a)?;
    nodes.push(b)?;
    Ok(nodes)
}
