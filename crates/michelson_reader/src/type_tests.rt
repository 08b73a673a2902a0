//! Types by themselves, and the texts that are written by hand for them.

use crate::{ReadFault, print_type, read_type};
use micheline_text::read_nodes;
use std::alloc::{AllocError, Global};
use std::test::Fail;
use value_core::NoMemory;

/// The type of a text of one node as it is printed, or the fault.
fn answer(alloc: Global, text: &str) -> Result<String, NoMemory> {
    let bytes = text.as_bytes();
    if bytes.len() > 1000 {
        return Err(AllocError);
    }
    match read_nodes(alloc, bytes) {
        Ok(nodes) if nodes.len() == 1 => match read_type(alloc, &nodes.as_slice()[0]) {
            Ok(t) => String::from_utf8(print_type(alloc, &t)?).map_err(|_| AllocError),
            Err(ReadFault::Arity(at)) => format!(in alloc; "Arity {at}"),
            Err(ReadFault::UnknownPrim(at)) => format!(in alloc; "UnknownPrim {at}"),
            Err(ReadFault::LeftOut(at, _)) => format!(in alloc; "LeftOut {at}"),
            Err(_) => format!(in alloc; "another fault"),
        },
        Ok(_) | Err(_) => format!(in alloc; "no node"),
    }
}

#[test]
fn types_are_printed_again_or_refused_at_their_first_fault(rt: HostRuntime) -> Result<(), Fail> {
    let rows = [
        ("nat", "nat"),
        (
            "pair (nat %a) int (list string) bytes",
            "pair nat (pair int (pair (list string) bytes))",
        ),
        (
            "big_map address (option (or unit bool))",
            "big_map address (option (or unit bool))",
        ),
        ("list 1", "Arity 5"),
        ("pair nat", "Arity 0"),
        ("pair (list nat) (set) (lists nat)", "Arity 17"),
        ("map (EXEC) nat", "LeftOut 5"),
        ("foo", "UnknownPrim 0"),
    ];
    for (text, wanted) in rows {
        assert_eq!(rt; answer(rt.alloc(), text)?.as_str(), wanted);
    }
    Ok(())
}
