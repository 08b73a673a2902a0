//! What stands in the innermost list or application that is open.

ghost use Rattle.std.specs.Prelude.{◌≡◌, ◌++◌, ◌∷◌, [], IfOk, true, false};
ghost use Rattle.micheline_text.specs.Told.{AnswersUnlessFull, text_fault};
ghost use Rattle.micheline_text.specs.Reading.{applied, begun, ended, named, node_of, noted, parted, taken, takes_argument, takes_literal, with_arg, with_note};

use crate::NoMemory;
use crate::fault::TextFault;
use crate::node::{Body, Node};
use sqlite_items::Items;
use std::alloc::Global;

/// An application so far.
#[derive(Debug, Drop)]
pub(crate) struct Application {
    pub(crate) at: u32,
    pub(crate) name: Items<u8>,
    pub(crate) notes: Items<Items<u8>>,
    pub(crate) args: Items<Node>,
}

/// What stands in the innermost list or parenthesis so far, and so what may follow.
#[derive(Debug, Drop)]
pub(crate) enum Level {
    /// Nodes, each with its `;`: a node follows, or the end of the list.
    Start(Items<Node>),
    /// Nodes, the last a literal or a sequence: a `;` follows, or the end of the list.
    After(Items<Node>),
    /// Nodes, each with its `;`, and an application, which goes on or ends.
    Args(Items<Node>, Application),
    /// Nothing, in a parenthesis: a word follows.
    Head,
    /// An application in a parenthesis, which goes on or ends.
    Inner(Application),
}

/// An open bracket, and what stood before it.
#[derive(Debug, Drop)]
pub(crate) struct Open {
    pub(crate) at: u32,
    pub(crate) outer: Level,
}

fn node_of(a: Application) -> Node
    ensures { result ≡ node_of a }
{
    let Application {
        at,
        name,
        notes,
        args,
    } = a;
    let body = Body::Prim { name, notes, args };
    Node { at, body }
}

fn begun(alloc: Global, at: u32, name: Items<u8>) -> Application
    ensures { result ≡ begun at name }
{
    Application {
        at,
        name,
        notes: Items::new(alloc),
        args: Items::new(alloc),
    }
}

fn with_arg(a: Application, node: Node) -> Result<Application, NoMemory>
    ensures { IfOk result (λ r. r ≡ with_arg a node) }
{
    let Application {
        at,
        name,
        notes,
        mut args,
    } = a;
    args.push(node)?;
    Ok(Application {
        at,
        name,
        notes,
        args,
    })
}

fn with_note(a: Application, note: Items<u8>) -> Result<Application, NoMemory>
    ensures { IfOk result (λ r. r ≡ with_note a note) }
{
    let Application {
        at,
        name,
        mut notes,
        args,
    } = a;
    notes.push(note)?;
    Ok(Application {
        at,
        name,
        notes,
        args,
    })
}

fn with_node(nodes: Items<Node>, node: Node) -> Result<Items<Node>, NoMemory>
    ensures { IfOk result (λ r. r ≡ nodes ++ node ∷ []) }
{
    let mut nodes = nodes;
    nodes.push(node)?;
    Ok(nodes)
}

/// After a node, a literal, a sequence or a parenthesis, whose last token is at the place.
pub(crate) fn taken(at: usize, level: Level, node: Node) -> Result<Level, TextFault>
    ensures { AnswersUnlessFull text_fault (λ l. l) result (taken at level node) }
{
    match level {
        Level::Start(nodes) => Ok(Level::After(with_node(nodes, node)?)),
        Level::Args(nodes, a) => Ok(Level::Args(nodes, with_arg(a, node)?)),
        Level::Inner(a) => Ok(Level::Inner(with_arg(a, node)?)),
        Level::After(_) | Level::Head => Err(TextFault::BadToken(at)),
    }
}

/// After a word.
pub(crate) fn named(
    alloc: Global,
    at: u32,
    level: Level,
    word: Items<u8>,
) -> Result<Level, TextFault>
    ensures { AnswersUnlessFull text_fault (λ l. l) result (named at level word) }
{
    let a = begun(alloc, at, word);
    match level {
        Level::Start(nodes) => Ok(Level::Args(nodes, a)),
        Level::Head => Ok(Level::Inner(a)),
        Level::Args(nodes, outer) => Ok(Level::Args(nodes, with_arg(outer, node_of(a))?)),
        Level::Inner(outer) => Ok(Level::Inner(with_arg(outer, node_of(a))?)),
        Level::After(_) => Err(TextFault::BadToken(at as usize)),
    }
}

/// After an annotation.
pub(crate) fn noted(at: usize, level: Level, note: Items<u8>) -> Result<Level, TextFault>
    ensures { AnswersUnlessFull text_fault (λ l. l) result (noted at level note) }
{
    match level {
        Level::Args(nodes, a) => Ok(Level::Args(nodes, with_note(a, note)?)),
        Level::Inner(a) => Ok(Level::Inner(with_note(a, note)?)),
        Level::Start(_) | Level::After(_) | Level::Head => Err(TextFault::BadToken(at)),
    }
}

/// After a `;`.
pub(crate) fn parted(at: usize, level: Level) -> Result<Level, TextFault>
    ensures { AnswersUnlessFull text_fault (λ l. l) result (parted at level) }
{
    match level {
        Level::After(nodes) => Ok(Level::Start(nodes)),
        Level::Args(nodes, a) => Ok(Level::Start(with_node(nodes, node_of(a))?)),
        Level::Start(_) | Level::Head | Level::Inner(_) => Err(TextFault::BadToken(at)),
    }
}

/// The nodes of a list that ends at the place.
pub(crate) fn ended(at: usize, level: Level) -> Result<Items<Node>, TextFault>
    ensures { AnswersUnlessFull text_fault (λ ns. ns) result (ended at level) }
{
    match level {
        Level::Start(nodes) | Level::After(nodes) => Ok(nodes),
        Level::Args(nodes, a) => Ok(with_node(nodes, node_of(a))?),
        Level::Head | Level::Inner(_) => Err(TextFault::BadToken(at)),
    }
}

/// The application of a parenthesis that ends at the place.
pub(crate) fn applied(at: usize, level: Level) -> Result<Node, TextFault>
    ensures { AnswersUnlessFull text_fault (λ n. n) result (applied at level) }
{
    match level {
        Level::Inner(a) => Ok(node_of(a)),
        _ => Err(TextFault::BadToken(at)),
    }
}

/// Whether a literal or a sequence may stand here.
pub(crate) fn takes_literal(level: &Level) -> bool
    ensures { result ≡ takes_literal level.now }
{
    match level {
        Level::Start(_) | Level::Args(_, _) | Level::Inner(_) => true,
        Level::After(_) | Level::Head => false,
    }
}

/// Whether an argument may stand here.
pub(crate) fn takes_argument(level: &Level) -> bool
    ensures { result ≡ takes_argument level.now }
{
    match level {
        Level::Args(_, _) | Level::Inner(_) => true,
        Level::Start(_) | Level::After(_) | Level::Head => false,
    }
}
