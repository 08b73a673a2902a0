//! Whether a printed node is more than so many brackets deep.

ghost use Rattle.std.specs.Prelude.{◌≡◌, ◌≤◌, ◌↔◌, IsTrue, nat_le};
ghost use Rattle.std.specs.List.{list_all};
ghost use Rattle.micheline_text.specs.Again.{argument_depth, brackets, depth_of_body, depth_of_node};

use crate::node::{Body, Node};
use crate::printer::stands_in_parentheses;

#[cycle(bracketing)]
#[tactic(auto, using(crate::proofs::BracketTests::depths))]
fn body_within(body: &Body, most: usize) -> bool
    ensures { result ≡ nat_le (depth_of_body body.now).0 most }
{
    match body {
        Body::Int(_) | Body::Text(_) | Body::Bytes(_) => true,
        Body::Prim { args, .. } => arguments_within(args.as_slice(), most),
        Body::Seq(nodes) => most > 0 && items_within(nodes.as_slice(), most - 1),
    }
}

#[cycle(bracketing)]
#[tactic(auto, using(crate::proofs::BracketTests::depths))]
fn argument_within(body: &Body, most: usize) -> bool
    ensures { result ≡ nat_le (argument_depth (depth_of_body body.now)) most }
{
    if stands_in_parentheses(body) {
        most > 0 && body_within(body, most - 1)
    } else {
        body_within(body, most)
    }
}

#[cycle(bracketing)]
#[tactic(auto, using(crate::proofs::BracketTests::depths))]
fn arguments_within(args: &[Node], most: usize) -> bool
    ensures { result ≡ list_all (λ n. nat_le (argument_depth (depth_of_node n)) most) args.now }
{
    for arg in args {
        if !argument_within(&arg.body, most) {
            return false;
        }
    }
    true
}

#[cycle(bracketing)]
#[tactic(auto, using(crate::proofs::BracketTests::depths))]
fn items_within(nodes: &[Node], most: usize) -> bool
    ensures { result ≡ list_all (λ n. nat_le (depth_of_node n).0 most) nodes.now }
{
    for node in nodes {
        if !body_within(&node.body, most) {
            return false;
        }
    }
    true
}

/// Whether the brackets of the printed text go at most so deep. It looks no deeper than that.
pub fn brackets_within(n: &Node, most: usize) -> bool
    ensures { IsTrue result ↔ (brackets n.now ≤ most) }
{
    body_within(&n.body, most)
}
