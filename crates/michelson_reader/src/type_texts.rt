//! A type by itself: read from a node, and printed.

ghost use Rattle.std.specs.Prelude.{◌≡◌, ◌≤◌, ◌⊎◌, Ok, IfErr, IfOk, IsTrue};
ghost use Rattle.value_core.specs.declared.ty.Ty as declared;
ghost use Rattle.value_core.specs.Depth.{depth_of_type};
ghost use Rattle.micheline_text.specs.Printed.{printed};
ghost use Rattle.micheline_text.specs.Told.{AnswersUnlessFull};
ghost use Rattle.michelson_reader.specs.Answers.{read_fault};
ghost use Rattle.michelson_reader.specs.FirstFault.{IsFirstFault};
ghost use Rattle.michelson_reader.specs.Printed.{type_node};
ghost use Rattle.michelson_reader.specs.Roles.{AsType};
ghost use Rattle.michelson_reader.specs.Types.{IsTypeText, is_type};
ghost use Rattle.michelson_reader.specs.declared.fault.ReadFault.TheVariants.{NoMemory};

use crate::fault::ReadFault;
use crate::type_nodes::type_node;
use crate::types;
use micheline_text::{Node, print_node};
use std::alloc::Global;
use value_core::{NoMemory, Ty};

/// The type that a node is written for; its annotations say nothing.
pub fn read_type(alloc: Global, n: &Node) -> Result<Ty, ReadFault>
    // What is read is the type that the node is written for.
    ensures found { IfOk result (λ t. IsTrue (is_type t n.now)) }
    // A node that is written for a type is read, unless memory runs out.
    ensures only { (t : declared.Ty) → IsTrue (is_type t n.now) →
        AnswersUnlessFull read_fault (λ t. t) result (Ok t) }
    // A fault is the first one in the node.
    ensures fault { IfErr result (λ f. (f ≡ NoMemory) ⊎ IsFirstFault AsType n.now f) }
{
    types::read_type(alloc, n)
}

/// The text of a type.
pub fn print_type(alloc: Global, t: &Ty) -> Result<Vec<u8>, NoMemory>
    // By the rules of printing.
    ensures text { IfOk result (λ text. text.items ≡ printed (type_node t.now)) }
    // Where it is at most 256 brackets deep, it is read again as the type.
    ensures again { IfOk result (λ text. depth_of_type t.now ≤ 258 → IsTypeText text.items t.now) }
{
    let node = type_node(alloc, t)?;
    print_node(alloc, &node)
}
