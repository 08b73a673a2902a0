//! A state, read from its text.

ghost use Rattle.std.specs.Prelude.{◌≡◌, ◌+◌, ◌<◌, ◌^◌, length, IfErr, IfOk, Ok};
ghost use Rattle.micheline_text.specs.Told.{AnswersUnlessFull, IsTold};
ghost use Rattle.ledger_state.specs.Ledger.{Ledger};
ghost use Rattle.chain_text.specs.Standing.{nothing};
ghost use Rattle.chain_text.specs.Inside.{chain_fault, left_groups};
ghost use Rattle.chain_text.specs.Rows.{IsOfWhole, refusal_of};
ghost use Rattle.chain_text.specs.Reading.{all_lines, genesis_of, line_at, settled};

use crate::fault::{ChainFault, ChainKind, ChainRefusal};
use crate::groups::next_group;
use crate::heads::{all_ascii, head_number};
use crate::lines::Lines;
use crate::standing::Standing;
use ledger_state::{BuildFault, Head, State};
use std::alloc::Global;
use value_core::Address;

/// The greatest level that is read.
const MOST_LEVEL: u64 = 1_000_000_000;

/// The greatest time that is read.
const MOST_NOW: u64 = (1 << 63) - 1;

/// The state that a text says.
pub fn read_genesis(alloc: Global, b: &[u8]) -> Result<State, ChainRefusal>
    // Each line has a number, and so has the one behind the last.
    requires { length b.now + 1 < 2 ^ 32 }
    // What is read is what the text says.
    ensures found { IfOk result (λ s. genesis_of b.now ≡ Ok s) }
    // What a text says is read, unless memory runs out.
    ensures only { (s : Ledger) → genesis_of b.now ≡ Ok s →
        AnswersUnlessFull chain_fault (λ read. read) result (Ok s) }
    // A fault is the text's first one.
    ensures fault { IfErr result (λ e. IsTold (chain_fault e) (genesis_of b.now)) }
{
    read_lines(alloc, b)
}

#[tactic(auto, unfolding(crate::specs::Reading::genesis_of))]
fn read_lines(alloc: Global, b: &[u8]) -> Result<State, ChainRefusal>
    requires { length b.now + 1 < 2 ^ 32 }
    ensures { AnswersUnlessFull chain_fault (λ s. s) result (genesis_of b.now) }
{
    all_ascii(b)?;
    let mut lines = Lines::new(b);
    let level = head_number(b"level", MOST_LEVEL, &mut lines)?;
    let now = head_number(b"now", MOST_NOW, &mut lines)?;
    let head = Head {
        level: level as u32,
        now,
    };
    let standing = all_lines(alloc, &mut lines)?;
    state_of(alloc, head, standing)
}

/// What stands after all lines that are left.
fn all_lines(alloc: Global, lines: &mut Lines<'_>) -> Result<Standing, ChainRefusal>
    ensures { AnswersUnlessFull chain_fault (λ s. s) result
        (all_lines nothing (left_groups lines.old)) }
{
    let mut standing = Standing::new(alloc);
    while let Some(group) = next_group(lines) {
        if let Err(end) = standing.add(alloc, &group) {
            return Err(end.at(group.line));
        }
    }
    Ok(standing)
}

/// The state of what stands, if each contract has its storage.
fn state_of(alloc: Global, head: Head, standing: Standing) -> Result<State, ChainRefusal>
    ensures { AnswersUnlessFull chain_fault (λ s. s) result
        (settled head.level head.now standing) }
{
    let Standing {
        book,
        lines,
        rows,
        ..
    } = standing;
    match State::build(alloc, head, book, rows) {
        Ok(state) => Ok(state),
        Err(fault) => Err(refusal_of(lines.as_slice(), &fault)),
    }
}

/// Why no state can be built, told of the text. The cells were judged line by line.
fn refusal_of(lines: &[(Address, u32)], fault: &BuildFault) -> ChainRefusal
    requires { IsOfWhole fault.now }
    ensures { result ≡ refusal_of lines.now fault.now }
{
    match fault {
        BuildFault::NoMemory => ChainRefusal::NoMemory,
        BuildFault::NoStorage(address) => ChainRefusal::Fault(ChainFault {
            line: line_of(lines, address),
            kind: ChainKind::NoStorage,
        }),
        _ => unreachable!(),
    }
}

/// The line of a contract.
fn line_of(lines: &[(Address, u32)], address: &Address) -> u32
    ensures { result ≡ line_at address.now lines.now }
{
    for contract in lines {
        if contract.0 == *address {
            return contract.1;
        }
    }
    0
}
