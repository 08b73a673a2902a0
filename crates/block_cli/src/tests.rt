//! Runs on files in memory, where each read, write and print may fail.
use crate::run::run;
use crate::status::Status;
use edge_io::{MemFiles, MemSink, OpenGate};
use std::alloc::Global;
use std::process::Abort;
use std::test::Fail;

/// Words that stand for bytes: accounts, the heads of a block and of the state after it at level 1
/// and time 60, a call of `default` with Unit, no gas and turns, receipts, and digests of states.
const BYTES: [(&str, &str); 17] = [
    ("A", "0000000000000000000000000000000000000000000a"),
    ("B", "0000000000000000000000000000000000000000000b"),
    ("C", "0000000000000000000000000000000000000000000c"),
    ("T", "0000000000000000000000000000000000000000000d"),
    (
        "BLOCK",
        "464a423131c1a226f52dbf400248d8c61b98992775338e3d2c1567334ef5b329a352b93e00000001000000000000003c",
    ),
    ("LATER", "464a533100000001000000000000003c00000000"),
    ("CALL", "0764656661756c7400"),
    ("FREE", "0000000000000000"),
    ("APPLIED", "0000000000"),
    ("TOO_LOW", "0100000000"),
    (
        "SAME",
        "31c1a226f52dbf400248d8c61b98992775338e3d2c1567334ef5b329a352b93e",
    ),
    (
        "PAID",
        "1104ffdba6ab6a8eb863a6c776e1e0bd3761d79b1b05eae9532fbab2c94441f0",
    ),
    (
        "STARVED",
        "b3cd3199c64ddae45c1c97423eb1e9953d8714095a4d712eb84b76e8dd274d3d",
    ),
    (
        "SHARED",
        "427e073592a31c27b9b935c733fd7d4c4e1c32b27343e1dbc9dd5771efcf0ac7",
    ),
    (
        "PASSED_ON",
        "fef99a93dd22de98b5044b2c4c82b47d4eb740a2d12f374d79545cd0a0d66a6a",
    ),
    (
        "RICH",
        "fa576b20954688b301f979acca25750ce9e5691b7723d43e21037425f12ff78d",
    ),
    (
        "HALVED",
        "40bb8d7562d99b597cc404d1a8fc3ec4c69c53b574c59c1a8568a212e7952c2e",
    ),
];

/// States and blocks. In `s` A has 100 and C has 50, at level 0 and time 0.
const FILES: [(&str, &str); 15] = [
    (
        "s",
        "464a5331 00000000 0000000000000000 00000000 00000002 00 A 05 0000000000000064 00 C 05 0000000000000032",
    ),
    (
        "last",
        "464a5331 ffffffff 0000000000000000 00000000 00000002 00 A 05 0000000000000064 00 C 05 0000000000000032",
    ),
    ("empty", "BLOCK 00000000 SAME"),
    (
        "paid",
        "BLOCK 00000001 A B CALL 000000000000000a FREE 00000000 00000002 00 A 02 00 B 01 APPLIED PAID",
    ),
    (
        "owned",
        "BLOCK 00000001 A B CALL 000000000000000a FREE 00000000 00000002 00 A 02 00 B 02 APPLIED PAID",
    ),
    (
        "exchanged",
        "BLOCK 00000001 A B CALL 000000000000000a FREE 00000000 00000002 00 B 01 00 A 02 APPLIED PAID",
    ),
    (
        "to_self",
        "BLOCK 00000001 A A CALL 000000000000000a FREE 00000000 00000001 00 A 02 APPLIED SAME",
    ),
    (
        "nothing",
        "BLOCK 00000001 A B CALL 0000000000000000 FREE 00000000 00000000 APPLIED SAME",
    ),
    (
        "too_low",
        "BLOCK 00000001 A B CALL 0000000000000065 FREE 00000000 00000001 00 A 02 TOO_LOW SAME",
    ),
    (
        "starved",
        "BLOCK 00000002 A B CALL 000000000000003c FREE A C CALL 000000000000003c FREE \
        00000000 00000001 00000000 00000002 00 A 02 00 B 01 00000001 00 A 02 APPLIED TOO_LOW STARVED",
    ),
    (
        "unjoined",
        "BLOCK 00000002 A B CALL 000000000000003c FREE A C CALL 000000000000003c FREE \
        00000000 00000000 00000002 00 A 02 00 B 01 00000001 00 A 02 APPLIED TOO_LOW STARVED",
    ),
    (
        "untouched",
        "BLOCK 00000002 A B CALL 000000000000003c FREE A C CALL 000000000000003c FREE \
        00000000 00000001 00000000 00000002 00 A 02 00 B 01 00000000 APPLIED TOO_LOW STARVED",
    ),
    (
        "shared",
        "BLOCK 00000002 A T CALL 000000000000000a FREE C T CALL 0000000000000005 FREE \
        00000000 00000000 00000002 00 A 02 00 T 01 00000002 00 C 02 00 T 01 APPLIED APPLIED SHARED",
    ),
    (
        "passed_on",
        "BLOCK 00000002 A T CALL 000000000000000a FREE T C CALL 0000000000000001 FREE \
        00000000 00000001 00000000 00000002 00 A 02 00 T 01 00000002 00 C 01 00 T 02 APPLIED APPLIED PASSED_ON",
    ),
    (
        "turned",
        "BLOCK 00000002 T C CALL 0000000000000001 FREE A T CALL 000000000000000a FREE \
        00000000 00000001 00000000 00000001 00 T 02 00000002 00 A 02 00 T 01 TOO_LOW APPLIED 2c5dfaaf408d0f4b514e87240e76f2f091f4e7caf6769af20bbf6c5d6390cf0a",
    ),
];

/// Blocks that are accepted on `s`, the digest that is printed, and the next state.
const ACCEPTED: [(&str, &str, &str); 9] = [
    (
        "empty",
        "31c1a226f52dbf400248d8c61b98992775338e3d2c1567334ef5b329a352b93e",
        "LATER 00000002 00 A 05 0000000000000064 00 C 05 0000000000000032",
    ),
    (
        "to_self",
        "31c1a226f52dbf400248d8c61b98992775338e3d2c1567334ef5b329a352b93e",
        "LATER 00000002 00 A 05 0000000000000064 00 C 05 0000000000000032",
    ),
    (
        "nothing",
        "31c1a226f52dbf400248d8c61b98992775338e3d2c1567334ef5b329a352b93e",
        "LATER 00000002 00 A 05 0000000000000064 00 C 05 0000000000000032",
    ),
    (
        "too_low",
        "31c1a226f52dbf400248d8c61b98992775338e3d2c1567334ef5b329a352b93e",
        "LATER 00000002 00 A 05 0000000000000064 00 C 05 0000000000000032",
    ),
    (
        "paid",
        "1104ffdba6ab6a8eb863a6c776e1e0bd3761d79b1b05eae9532fbab2c94441f0",
        "LATER 00000003 00 A 05 000000000000005a 00 B 05 000000000000000a 00 C 05 0000000000000032",
    ),
    (
        "starved",
        "b3cd3199c64ddae45c1c97423eb1e9953d8714095a4d712eb84b76e8dd274d3d",
        "LATER 00000003 00 A 05 0000000000000028 00 B 05 000000000000003c 00 C 05 0000000000000032",
    ),
    (
        "shared",
        "427e073592a31c27b9b935c733fd7d4c4e1c32b27343e1dbc9dd5771efcf0ac7",
        "LATER 00000003 00 A 05 000000000000005a 00 C 05 000000000000002d 00 T 05 000000000000000f",
    ),
    (
        "passed_on",
        "fef99a93dd22de98b5044b2c4c82b47d4eb740a2d12f374d79545cd0a0d66a6a",
        "LATER 00000003 00 A 05 000000000000005a 00 C 05 0000000000000033 00 T 05 0000000000000009",
    ),
    (
        "turned",
        "2c5dfaaf408d0f4b514e87240e76f2f091f4e7caf6769af20bbf6c5d6390cf0a",
        "LATER 00000003 00 A 05 000000000000005a 00 C 05 0000000000000032 00 T 05 000000000000000a",
    ),
];

/// Blocks that are refused on `s`.
const REFUSED: [(&str, &str); 6] = [
    ("owned", "FootprintDiffers 0"),
    (
        "unjoined",
        "Unordered 0 1 balance 0x0000000000000000000000000000000000000000000a",
    ),
    ("untouched", "FootprintDiffers 1"),
    ("cut", "Malformed at 182"),
    ("exchanged", "Malformed at 153"),
    ("longer", "Malformed at 214"),
];

const SAME_LINE: &str =
    "accepted, level 1, state 31c1a226f52dbf400248d8c61b98992775338e3d2c1567334ef5b329a352b93e\n";

const USAGE_LINE: &str = "usage: compile SRC OUT | check CODE | genesis TEXT STATE | \
    mine STATE OPS BLOCK NEXT WORKERS | validate STATE BLOCK NEXT WORKERS | show STATE | \
    load NUMBER COUNT WORKERS\n";

/// The text of a state with an account and a counter, as it is printed.
const TEXT: &str = "level 7
now 60
balance 0x0000000000000000000000000000000000000000000a 100
contract 0x01000000000000000000000000000000000000000021
parameter int ;
storage int ;
code { UNPAIR ; ADD ; NIL operation ; PAIR }
end
balance 0x01000000000000000000000000000000000000000021 50
storage 0x01000000000000000000000000000000000000000021 5
";

const STATE_LINE: &str = "state c0a739039b76bc642c30be7dfb56815033c56707d49fe164c340045eb6ed9f90\n";

/// A text that begins no state: its level has a leading zero.
const FAULTY_TEXT: &str = "level 07\nnow 60\n";

/// What is shown of `s`.
const SHOWN: &str = "level 0
now 0
balance 0x0000000000000000000000000000000000000000000a 100
balance 0x0000000000000000000000000000000000000000000c 50
";

/// The call that fails, if any: the k-th read, write or print, counted from 0.
#[derive(Clone, Copy)]
enum Fault {
    None,
    Read(u32),
    Write(u32),
    Print(u32),
}

/// Words, the call that fails, the wanted status and text, and whether `n` is written.
type Cause = (&'static str, Fault, Status, &'static str, bool);

const VALIDATE_CAUSES: [Cause; 15] = [
    (
        "validate last empty n 1",
        Fault::None,
        Status::Refused,
        "refused: WrongParent\n",
        false,
    ),
    (
        "validate short empty n 1",
        Fault::None,
        Status::BadInput,
        "short: Malformed at 80\n",
        false,
    ),
    (
        "validate short absent n 1",
        Fault::None,
        Status::ReadFault,
        "cannot read absent\n",
        false,
    ),
    (
        "validate s empty n 65",
        Fault::None,
        Status::Usage,
        USAGE_LINE,
        false,
    ),
    (
        "validate s n n 1",
        Fault::None,
        Status::Usage,
        USAGE_LINE,
        false,
    ),
    ("mine s", Fault::None, Status::Usage, USAGE_LINE, false),
    (
        "validate s empty n 1",
        Fault::Read(0),
        Status::ReadFault,
        "cannot read s\n",
        false,
    ),
    (
        "validate s empty n 1",
        Fault::Read(1),
        Status::ReadFault,
        "cannot read empty\n",
        false,
    ),
    (
        "validate s empty n 1",
        Fault::Read(2),
        Status::Done,
        SAME_LINE,
        true,
    ),
    (
        "validate s empty n 1",
        Fault::Write(0),
        Status::WriteFault,
        "cannot write n\n",
        false,
    ),
    (
        "validate s empty n 1",
        Fault::Print(0),
        Status::WriteFault,
        "",
        true,
    ),
    (
        "validate s owned n 1",
        Fault::Print(0),
        Status::Refused,
        "",
        false,
    ),
    (
        "validate s cut n 1",
        Fault::Write(0),
        Status::Refused,
        "refused: Malformed at 182\n",
        false,
    ),
    (
        "validate short empty n 1",
        Fault::Print(0),
        Status::BadInput,
        "",
        false,
    ),
    (
        "validate s empty n 0",
        Fault::Print(0),
        Status::Usage,
        "",
        false,
    ),
];

const GENESIS_CAUSES: [Cause; 10] = [
    (
        "genesis text n",
        Fault::None,
        Status::Done,
        STATE_LINE,
        true,
    ),
    (
        "genesis faulty n",
        Fault::None,
        Status::BadInput,
        "faulty: BadNumber at line 1\n",
        false,
    ),
    (
        "genesis absent n",
        Fault::None,
        Status::ReadFault,
        "cannot read absent\n",
        false,
    ),
    (
        "genesis text",
        Fault::None,
        Status::Usage,
        USAGE_LINE,
        false,
    ),
    (
        "genesis text n n",
        Fault::None,
        Status::Usage,
        USAGE_LINE,
        false,
    ),
    (
        "genesis text n",
        Fault::Read(0),
        Status::ReadFault,
        "cannot read text\n",
        false,
    ),
    (
        "genesis text n",
        Fault::Write(0),
        Status::WriteFault,
        "cannot write n\n",
        false,
    ),
    (
        "genesis text n",
        Fault::Print(0),
        Status::WriteFault,
        "",
        true,
    ),
    (
        "genesis faulty n",
        Fault::Write(0),
        Status::BadInput,
        "faulty: BadNumber at line 1\n",
        false,
    ),
    (
        "genesis faulty n",
        Fault::Print(0),
        Status::BadInput,
        "",
        false,
    ),
];

const SHOW_CAUSES: [Cause; 8] = [
    ("show s", Fault::None, Status::Done, SHOWN, false),
    (
        "show short",
        Fault::None,
        Status::BadInput,
        "short: Malformed at 80\n",
        false,
    ),
    (
        "show absent",
        Fault::None,
        Status::ReadFault,
        "cannot read absent\n",
        false,
    ),
    ("show s n", Fault::None, Status::Usage, USAGE_LINE, false),
    (
        "show s",
        Fault::Read(0),
        Status::ReadFault,
        "cannot read s\n",
        false,
    ),
    ("show s", Fault::Write(0), Status::Done, SHOWN, false),
    ("show s", Fault::Print(0), Status::WriteFault, "", false),
    ("show short", Fault::Print(0), Status::BadInput, "", false),
];

/// The digits of a word.
fn digits_of(word: &str) -> &str {
    for (name, digits) in &BYTES {
        if *name == word {
            return digits;
        }
    }
    word
}

/// The bytes of words that are parted by blanks.
fn bytes_of(alloc: Global, words: &str) -> Result<Vec<u8>, Fail> {
    let mut bytes = Vec::new(alloc);
    for word in words.split(' ') {
        bytes.extend_from_slice(&hex::decode(alloc, digits_of(word))?)?;
    }
    Ok(bytes)
}

/// The files, with texts, a block and a state that lack their last byte, and a block with one more.
fn files_of(alloc: Global) -> Result<MemFiles, Fail> {
    let mut files = MemFiles::new(alloc);
    for (name, words) in &FILES {
        files.put(alloc, name, &bytes_of(alloc, words)?)?;
    }
    files.put(alloc, "text", TEXT.as_bytes())?;
    files.put(alloc, "faulty", FAULTY_TEXT.as_bytes())?;
    let mut paid = bytes_of(alloc, FILES[3].1)?;
    paid.push(0)?;
    files.put(alloc, "longer", &paid)?;
    paid.truncate(213);
    files.put(alloc, "cut", &paid)?;
    let mut state = bytes_of(alloc, FILES[0].1)?;
    state.truncate(87);
    files.put(alloc, "short", &state)?;
    Ok(files)
}

/// How a run ended, what it printed, and the file `n` after it.
#[derive(Drop)]
struct Ended {
    status: Status,
    text: Vec<u8>,
    next: Option<Vec<u8>>,
}

/// Runs the words on these files where a call fails.
fn ran_on<R: AllocGlobal + Abort>(
    rt: &R,
    words: &str,
    mut files: MemFiles,
    fault: Fault,
) -> Result<Ended, Fail> {
    let alloc = rt.alloc();
    let mut out = MemSink::new(alloc);
    out.room(alloc, 1000)?;
    match fault {
        Fault::None => {}
        Fault::Read(k) => files.fail_read(alloc, k)?,
        Fault::Write(k) => files.fail_write(alloc, k)?,
        Fault::Print(k) => out.fail_at(alloc, k)?,
    }
    let mut list = Vec::new(alloc);
    for word in words.split(' ') {
        list.push(String::from_str(alloc, word)?)?;
    }
    let status = run(rt, &list, &mut files, &mut out, &OpenGate);
    let text = Vec::from_slice(alloc, out.bytes())?;
    let next = match files.get("n") {
        Some(bytes) => Some(Vec::from_slice(alloc, bytes)?),
        None => None,
    };
    Ok(Ended { status, text, next })
}

/// Runs the words where a call fails.
fn ran<R: AllocGlobal + Abort>(rt: &R, words: &str, fault: Fault) -> Result<Ended, Fail> {
    let files = files_of(rt.alloc())?;
    ran_on(rt, words, files, fault)
}

#[test]
fn true_blocks_are_accepted_with_one_worker_and_with_sixty_four(
    rt: HostRuntime,
) -> Result<(), Fail> {
    let alloc = rt.alloc();
    for (block, digest, next) in &ACCEPTED {
        let line = format!(in alloc; "accepted, level 1, state {digest}\n")?;
        let wanted = bytes_of(alloc, next)?;
        for workers in &["1", "64"] {
            let words = format!(in alloc; "validate s {block} n {workers}")?;
            let ended = ran(&rt, words.as_str(), Fault::None)?;
            let written = ended.next.ok_or("nothing is written")?;
            assert_eq!(rt; ended.status, Status::Done, "{words}");
            assert_eq!(rt; ended.text.as_slice(), line.as_bytes(), "{words}");
            assert_eq!(rt; written.as_slice(), wanted.as_slice(), "{words}");
        }
    }
    Ok(())
}

#[test]
fn false_blocks_are_refused_with_one_worker_and_with_sixty_four(
    rt: HostRuntime,
) -> Result<(), Fail> {
    let alloc = rt.alloc();
    for (block, why) in &REFUSED {
        let line = format!(in alloc; "refused: {why}\n")?;
        for workers in &["1", "64"] {
            let words = format!(in alloc; "validate s {block} n {workers}")?;
            let ended = ran(&rt, words.as_str(), Fault::None)?;
            assert_eq!(rt; ended.status, Status::Refused, "{words}");
            assert_eq!(rt; ended.text.as_slice(), line.as_bytes(), "{words}");
            assert!(rt; ended.next.is_none(), "{words}");
        }
    }
    Ok(())
}

/// Whether each run ends by its cause.
fn end_by_their_causes<R: AllocGlobal + Abort>(rt: &R, causes: &[Cause]) -> Result<(), Fail> {
    for (words, fault, status, text, is_written) in causes {
        let ended = ran(rt, words, *fault)?;
        assert_eq!(rt; ended.status, *status, "{words}");
        assert_eq!(rt; ended.text.as_slice(), text.as_bytes(), "{words}");
        assert_eq!(rt; ended.next.is_some(), *is_written, "{words}");
    }
    Ok(())
}

#[test]
fn a_validation_ends_by_its_first_cause(rt: HostRuntime) -> Result<(), Fail> {
    end_by_their_causes(&rt, &VALIDATE_CAUSES)
}

#[test]
fn a_genesis_ends_by_its_first_cause(rt: HostRuntime) -> Result<(), Fail> {
    end_by_their_causes(&rt, &GENESIS_CAUSES)
}

#[test]
fn a_show_ends_by_its_first_cause(rt: HostRuntime) -> Result<(), Fail> {
    end_by_their_causes(&rt, &SHOW_CAUSES)
}

#[test]
fn the_state_of_a_text_is_shown_as_the_text(rt: HostRuntime) -> Result<(), Fail> {
    let alloc = rt.alloc();
    let founded = ran(&rt, "genesis text n", Fault::None)?;
    let mut files = MemFiles::new(alloc);
    let state = founded.next.ok_or("nothing is written")?;
    files.put(alloc, "n", &state)?;
    let shown = ran_on(&rt, "show n", files, Fault::None)?;
    assert_eq!(rt; shown.status, Status::Done);
    assert_eq!(rt; shown.text.as_slice(), TEXT.as_bytes());
    Ok(())
}

/// So many copies of words that stand for bytes.
fn put_copies(alloc: Global, count: u32, words: &str, bytes: &mut Vec<u8>) -> Result<(), Fail> {
    let copy = bytes_of(alloc, words)?;
    for _ in 0..count {
        bytes.extend_from_slice(&copy)?;
    }
    Ok(())
}

/// 512 transfers of 1 from A, which has 1,000, to B, each joined to the one before it; but the last
/// to none where a join is left out.
fn long_block(alloc: Global, is_joined: bool) -> Result<Vec<u8>, Fail> {
    let mut bytes = bytes_of(alloc, "464a4231 RICH 00000001 000000000000003c 00000200")?;
    put_copies(alloc, 512, "A B CALL 0000000000000001 FREE", &mut bytes)?;
    bytes.extend_from_slice(&0u32.to_be_bytes())?;
    for earlier in 0..510u32 {
        bytes.extend_from_slice(&1u32.to_be_bytes())?;
        bytes.extend_from_slice(&earlier.to_be_bytes())?;
    }
    let last = if is_joined {
        "00000001 000001fe"
    } else {
        "00000000"
    };
    put_copies(alloc, 1, last, &mut bytes)?;
    put_copies(alloc, 512, "00000002 00 A 02 00 B 01", &mut bytes)?;
    put_copies(alloc, 512, "APPLIED", &mut bytes)?;
    put_copies(alloc, 1, "HALVED", &mut bytes)?;
    Ok(bytes)
}

/// The state in which A has 1,000, and such a block.
fn long_files(alloc: Global, is_joined: bool) -> Result<MemFiles, Fail> {
    let rich = bytes_of(
        alloc,
        "464a5331 00000000 0000000000000000 00000000 00000001 00 A 05 00000000000003e8",
    )?;
    let mut files = MemFiles::new(alloc);
    files.put(alloc, "rich", &rich)?;
    files.put(alloc, "long", &long_block(alloc, is_joined)?)?;
    Ok(files)
}

#[test]
fn a_block_of_512_operations_is_accepted(rt: HostRuntime) -> Result<(), Fail> {
    let alloc = rt.alloc();
    let files = long_files(alloc, true)?;
    let ended = ran_on(&rt, "validate rich long n 64", files, Fault::None)?;
    let line = format!(in alloc; "accepted, level 1, state {}\n", digits_of("HALVED"))?;
    let wanted = bytes_of(
        alloc,
        "LATER 00000002 00 A 05 00000000000001e8 00 B 05 0000000000000200",
    )?;
    let written = ended.next.ok_or("nothing is written")?;
    assert_eq!(rt; ended.status, Status::Done);
    assert_eq!(rt; ended.text.as_slice(), line.as_bytes());
    assert_eq!(rt; written.as_slice(), wanted.as_slice());
    Ok(())
}

#[test]
fn a_block_whose_last_of_512_operations_has_no_join_is_refused(
    rt: HostRuntime,
) -> Result<(), Fail> {
    let files = long_files(rt.alloc(), false)?;
    let ended = ran_on(&rt, "validate rich long n 64", files, Fault::None)?;
    let line = "refused: Unordered 0 511 balance 0x0000000000000000000000000000000000000000000a\n";
    assert_eq!(rt; ended.status, Status::Refused);
    assert_eq!(rt; ended.text.as_slice(), line.as_bytes());
    assert!(rt; ended.next.is_none());
    Ok(())
}
