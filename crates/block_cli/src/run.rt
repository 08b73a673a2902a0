//! The top call.
ghost use Rattle.std.specs.Prelude.{◌≡◌, ◌↔◌, map, string_bytes, None, IfNone, IfSome, IsSome};
ghost use Rattle.block_cli.specs.Commands.{command_of, EndSurely};
ghost use Rattle.block_cli.specs.Seen.{seen_of};
ghost use Rattle.block_cli.specs.Runs.{Performs, Runs};
ghost use Rattle.block_cli.specs.Completeness.{Completes};
ghost use Rattle.block_cli.specs.Inside.{command_in, ReadsAll};
ghost use Rattle.block_cli.specs.Commands.{reads};
ghost use Rattle.edge_io.specs.Outside.{GoesOn};

use crate::command::Command;
use crate::input::{Unread, read_all};
use crate::output::deliver;
use crate::report;
use crate::status::Status;
use crate::words::command_of;
use edge_io::{Files, Gate, Sink};
use std::alloc::Global;

/// The contents of the files that the command reads.
fn contents_for<'a, F: Files>(
    alloc: Global,
    command: &Command<'a>,
    files: &mut F,
) -> Result<Vec<Vec<u8>>, Unread<'a>>
    ensures goes { GoesOn (F.seen files.old) (F.seen files.new) }
    ensures same { (F.seen files.new).told ≡ (F.seen files.old).told }
    ensures read { ReadsAll (reads (command_in command.now))
        (F.seen files.old) result (F.seen files.new) }
{
    let names = command.reads(alloc)?;
    read_all(alloc, &names, files)
}

/// Does what a command asks, and tells how it ended.
fn perform<F: Files, K: Sink>(
    alloc: Global,
    command: &Command<'_>,
    files: &mut F,
    out: &mut K,
) -> Status
    ensures { Performs (command_in command.now)
        (seen_of (F.seen files.old) (K.seen out.old)) result
        (seen_of (F.seen files.new) (K.seen out.new)) }
{
    match contents_for(alloc, command, files) {
        Err(Unread::NoMemory) => {
            report::out_of_memory(out);
            Status::NoMemory
        }
        Err(Unread::CannotRead(name)) => {
            report::cannot_read(out, name);
            Status::ReadFault
        }
        Err(Unread::TooLong(name)) => {
            report::too_long(out, name);
            Status::BadInput
        }
        Ok(contents) => match command.answer(alloc, contents) {
            Err(_) => {
                report::out_of_memory(out);
                Status::NoMemory
            }
            Ok(answer) => deliver(alloc, &answer, files, out),
        },
    }
}

/// Does what the words ask, where that surely ends, and else nothing.
pub fn run_still<R: AllocGlobal, F: Files, K: Sink, G: Gate + Sync>(
    rt: &R,
    words: &[String],
    files: &mut F,
    out: &mut K,
    _gate: &G,
) -> Option<Status>
    ensures answers { IsSome result ↔ EndSurely (command_of (map string_bytes words.now)) }
    ensures untouched { IfNone result
        (seen_of (F.seen files.new) (K.seen out.new)
        ≡ seen_of (F.seen files.old) (K.seen out.old)) }
    ensures usage { IfSome result (λ status.
        (status ≡ Status.Usage) ↔ (command_of (map string_bytes words.now) ≡ None)) }
    ensures runs { IfSome result (λ status. Runs (map string_bytes words.now)
        (seen_of (F.seen files.old) (K.seen out.old)) status
        (seen_of (F.seen files.new) (K.seen out.new))) }
    ensures complete { IfSome result (λ status. Completes (map string_bytes words.now)
        (seen_of (F.seen files.old) (K.seen out.old)) status
        (seen_of (F.seen files.new) (K.seen out.new))) }
{
    match command_of(words) {
        None => {
            report::usage(out);
            Some(Status::Usage)
        }
        Some(command) if command.surely_ends() => {
            Some(perform(rt.alloc(), &command, files, out))
        }
        Some(_) => None,
    }
}

/// Does what the words ask, and tells how it ended.
pub fn run<R: AllocGlobal, F: Files, K: Sink, G: Gate + Sync>(
    rt: &R,
    words: &[String],
    files: &mut F,
    out: &mut K,
    gate: &G,
) -> Status
    ensures usage { (result ≡ Status.Usage) ↔ (command_of (map string_bytes words.now) ≡ None) }
    ensures runs { Runs (map string_bytes words.now)
        (seen_of (F.seen files.old) (K.seen out.old)) result
        (seen_of (F.seen files.new) (K.seen out.new)) }
    ensures complete { Completes (map string_bytes words.now)
        (seen_of (F.seen files.old) (K.seen out.old)) result
        (seen_of (F.seen files.new) (K.seen out.new)) }
{
    run_still(rt, words, files, out, gate).unwrap()
}
