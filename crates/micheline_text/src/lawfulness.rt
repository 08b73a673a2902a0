//! What stands in a node is what the program can hold.

ghost use Rattle.std.specs.Prelude.{IsTrue};
ghost use Rattle.std.specs.List.{list_all};
ghost use Rattle.value_core.specs.Lawful.{are_bytes, is_lawful_blob, is_number};
ghost use Rattle.value_core.specs.Leaves.{is_text};
ghost use Rattle.micheline_text.specs.Lawful.{is_lawful, is_lawful_body};

use crate::node::{Body, Node, last_and_before};
use value_core::{Blob, Num, Text};

impl Node {
    /// Each number, text and byte literal in a node that the program holds keeps the rule of its
    /// type.
    #[tactic(auto, using(crate::proofs::PrintLemmas::lawful))]
    pub fn leaves_are_lawful(&self)
        ensures { IsTrue (is_lawful self.now) }
    {
        body_is_lawful(&self.body);
    }
}

#[cycle(lawful)]
#[tactic(auto, using(crate::proofs::PrintLemmas::lawful))]
fn body_is_lawful(body: &Body)
    ensures { IsTrue (is_lawful_body body.now) }
{
    let mut rest = body;
    loop {
        match rest {
            Body::Int(n) => return number_is_lawful(*n),
            Body::Text(text) => return text_is_lawful(text),
            Body::Bytes(blob) => return blob_is_lawful(blob),
            Body::Seq(nodes) => return nodes_are_lawful(nodes.as_slice()),
            Body::Prim { args, .. } => {
                let Some((last, before)) = last_and_before(args.as_slice()) else {
                    return;
                };
                nodes_are_lawful(before);
                rest = &last.body;
            }
        }
    }
}

#[cycle(lawful)]
#[tactic(auto, using(crate::proofs::PrintLemmas::lawful))]
fn nodes_are_lawful(nodes: &[Node])
    ensures { IsTrue (list_all is_lawful nodes.now) }
{
    for node in nodes {
        body_is_lawful(&node.body);
    }
}

pub(crate) fn number_is_lawful(n: Num)
    ensures { IsTrue (is_number n) }
{
    // Reading it tells its range.
    let _value = n.get();
}

pub(crate) fn text_is_lawful(text: &Text)
    ensures { IsTrue (is_text text.now) }
{
    let _bytes = text.bytes();
}

pub(crate) fn blob_is_lawful(blob: &Blob)
    ensures { IsTrue (is_lawful_blob blob.now) }
{
    bytes_are_small(blob.bytes());
}

fn bytes_are_small(bytes: &[u8])
    ensures { IsTrue (are_bytes bytes.now) }
{}
