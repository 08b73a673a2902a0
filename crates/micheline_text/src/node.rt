//! The tree of a text, each node with its place.

ghost use Rattle.std.specs.Prelude.{◌≡◌, ◌↔◌, ◌++◌, ◌∷◌, [], IfOk, IsTrue, MatchOption};

use crate::NoMemory;
use sqlite_items::Items;
use std::alloc::Global;
use value_core::{Blob, Num, Text};

/// A node, with the offset at which it begins: that of an application is its word's.
#[cycle(nodes)]
#[derive(Debug, Drop)]
pub struct Node {
    /// The offset of its first token in the text; of an application in parentheses, of its word.
    pub at: u32,
    /// What stands there.
    pub body: Body,
}

/// What stands at a node.
#[cycle(nodes)]
#[derive(Debug)]
pub enum Body {
    /// A number.
    Int(Num),
    /// A string, as it is said and not as it is escaped.
    Text(Text),
    /// A byte literal.
    Bytes(Blob),
    /// A word, its annotations with their first characters, and its arguments.
    Prim {
        name: Items<u8>,
        notes: Items<Items<u8>>,
        args: Items<Node>,
    },
    /// Nodes in braces.
    Seq(Items<Node>),
}

// The last argument is dropped in the loop: a printed comb is as deep as it has parts.
impl Drop for Body {
    #[cycle(dropping)]
    fn drop(mut self) {
        loop {
            match self {
                Body::Prim {
                    name,
                    notes,
                    mut args,
                } => {
                    drop(name);
                    drop(notes);
                    let last = args.pop();
                    drop(args);
                    match last {
                        Some(Node { at: _, body }) => self = body,
                        None => return,
                    }
                }
                Body::Seq(nodes) => return drop(nodes),
                Body::Text(text) => return drop(text),
                Body::Bytes(blob) => return drop(blob),
                Body::Int(_) => return,
            }
        }
    }
}

/// The last node, and those before it.
pub(crate) fn last_and_before(nodes: &[Node]) -> Option<(&Node, &[Node])>
    ensures { MatchOption result
        (nodes.now ≡ [])
        (λ parts. nodes.now ≡ parts.1.now ++ parts.0.now ∷ []) }
{
    nodes.split_last()
}

impl Node {
    /// An equal node.
    pub fn copy(&self, alloc: Global) -> Result<Node, NoMemory>
        ensures { IfOk result (λ r. r ≡ self.now) }
    {
        copy_node(alloc, self)
    }

    /// Whether the two are equal, with their places.
    pub fn same(&self, other: &Node) -> bool
        ensures { IsTrue result ↔ (self.now ≡ other.now) }
    {
        same_node(self, other)
    }
}

impl Body {
    /// Equal content.
    pub fn copy(&self, alloc: Global) -> Result<Body, NoMemory>
        ensures { IfOk result (λ r. r ≡ self.now) }
    {
        copy_body(alloc, self)
    }

    /// Whether the two are equal, with the places in them.
    pub fn same(&self, other: &Body) -> bool
        ensures { IsTrue result ↔ (self.now ≡ other.now) }
    {
        same_body(self, other)
    }
}

#[cycle(copying)]
fn copy_node(alloc: Global, node: &Node) -> Result<Node, NoMemory>
    ensures { IfOk result (λ r. r ≡ node.now) }
{
    let body = copy_body(alloc, &node.body)?;
    Ok(Node { at: node.at, body })
}

#[cycle(copying)]
fn copy_body(alloc: Global, body: &Body) -> Result<Body, NoMemory>
    ensures { IfOk result (λ r. r ≡ body.now) }
{
    match body {
        Body::Int(n) => Ok(Body::Int(*n)),
        Body::Text(text) => Ok(Body::Text(text.copy(alloc)?)),
        Body::Bytes(blob) => Ok(Body::Bytes(blob.copy(alloc)?)),
        Body::Prim { name, notes, args } => Ok(Body::Prim {
            name: Items::from_slice(alloc, name.as_slice())?,
            notes: copy_notes(alloc, notes.as_slice())?,
            args: copy_nodes(alloc, args.as_slice())?,
        }),
        Body::Seq(nodes) => Ok(Body::Seq(copy_nodes(alloc, nodes.as_slice())?)),
    }
}

fn copy_notes(alloc: Global, notes: &[Items<u8>]) -> Result<Items<Items<u8>>, NoMemory>
    ensures { IfOk result (λ r. r ≡ notes.now) }
{
    let mut made = Items::new(alloc);
    for note in notes {
        made.push(Items::from_slice(alloc, note.as_slice())?)?;
    }
    Ok(made)
}

#[cycle(copying)]
fn copy_nodes(alloc: Global, nodes: &[Node]) -> Result<Items<Node>, NoMemory>
    ensures { IfOk result (λ r. r ≡ nodes.now) }
{
    let mut made = Items::new(alloc);
    for node in nodes {
        made.push(copy_node(alloc, node)?)?;
    }
    Ok(made)
}

#[cycle(comparing)]
fn same_node(a: &Node, b: &Node) -> bool
    ensures { IsTrue result ↔ (a.now ≡ b.now) }
{
    a.at == b.at && same_body(&a.body, &b.body)
}

#[cycle(comparing)]
fn same_body(a: &Body, b: &Body) -> bool
    ensures { IsTrue result ↔ (a.now ≡ b.now) }
{
    match (a, b) {
        (Body::Int(m), Body::Int(n)) => m == n,
        (Body::Text(s), Body::Text(t)) => s.same(t),
        (Body::Bytes(s), Body::Bytes(t)) => s.same(t),
        (
            Body::Prim { name, notes, args },
            Body::Prim {
                name: other_name,
                notes: other_notes,
                args: other_args,
            },
        ) => {
            name.as_slice() == other_name.as_slice()
                && same_notes(notes.as_slice(), other_notes.as_slice())
                && same_nodes(args.as_slice(), other_args.as_slice())
        }
        (Body::Seq(x), Body::Seq(y)) => same_nodes(x.as_slice(), y.as_slice()),
        _ => false,
    }
}

fn same_bytes(a: &[u8], b: &[u8]) -> bool
    ensures { IsTrue result ↔ (a.now ≡ b.now) }
{
    a == b
}

fn same_notes(a: &[Items<u8>], b: &[Items<u8>]) -> bool
    ensures { IsTrue result ↔ (a.now ≡ b.now) }
{
    if a.len() != b.len() {
        return false;
    }
    for i in 0..a.len() {
        if !same_bytes(a[i].as_slice(), b[i].as_slice()) {
            return false;
        }
    }
    true
}

#[cycle(comparing)]
fn same_nodes(a: &[Node], b: &[Node]) -> bool
    ensures { IsTrue result ↔ (a.now ≡ b.now) }
{
    if a.len() != b.len() {
        return false;
    }
    for i in 0..a.len() {
        if !same_node(&a[i], &b[i]) {
            return false;
        }
    }
    true
}
