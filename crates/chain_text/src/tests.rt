//! A state that is read and printed, and faults that are told at their lines.

use crate::{ChainFault, ChainKind, ChainRefusal, print_genesis, read_genesis};
use std::alloc::Global;
use std::test::Fail;

// Two accounts, a counter and a contract with a big map, as they are printed.
const PRINTED: &str = "level 7
now 60
balance 0x0000000000000000000000000000000000000000000a 100
balance 0x0000000000000000000000000000000000000000000b 1
contract 0x01000000000000000000000000000000000000000021
parameter int ;
storage int ;
code { UNPAIR ; ADD ; NIL operation ; PAIR }
end
balance 0x01000000000000000000000000000000000000000021 50
storage 0x01000000000000000000000000000000000000000021 5
contract 0x01000000000000000000000000000000000000000022
parameter unit ;
storage (big_map nat nat) ;
code { CDR ; NIL operation ; PAIR }
end
storage 0x01000000000000000000000000000000000000000022 { Elt 1 2 ; Elt 3 4 }
";

#[test]
fn a_printed_state_is_read_and_printed_again(rt: HostRuntime) -> Result<(), Fail> {
    let alloc = rt.alloc();
    let state = read_genesis(alloc, PRINTED.as_bytes())
        .ok()
        .ok_or("not read")?;
    let again = print_genesis(alloc, &state)?;
    assert_eq!(rt; again.as_slice(), PRINTED.as_bytes());
    Ok(())
}

fn refusal(alloc: Global, text: &str) -> Option<ChainRefusal> {
    if text.len() > 10_000 {
        return None;
    }
    read_genesis(alloc, text.as_bytes()).err()
}

#[test]
fn a_fault_is_told_at_its_line(rt: HostRuntime) -> Result<(), Fail> {
    let alloc = rt.alloc();
    let table = [
        ("", 1, ChainKind::Missing),
        ("# level 0\n\n", 3, ChainKind::Missing),
        ("level 0\nlevel 0\n", 2, ChainKind::Missing),
        ("level 01\nnow 1\n", 1, ChainKind::BadNumber),
        ("level 0\nnow 1\nlevel 0\n", 3, ChainKind::BadWord),
        ("level 0\nnow 1\nbalance 0x00 1\n", 3, ChainKind::BadAddress),
        ("level 0\nnow\u{e9} 1\n", 2, ChainKind::BadWord),
    ];
    for (text, line, kind) in table {
        let wanted = ChainRefusal::Fault(ChainFault { line, kind });
        assert_eq!(rt; refusal(alloc, text), Some(wanted), "{text}");
    }
    Ok(())
}
