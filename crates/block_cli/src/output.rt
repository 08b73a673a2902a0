//! Doing what an answer says: writing its files and printing its text.
ghost use Rattle.std.specs.Prelude.{◌≡◌, OnOk};
ghost use Rattle.std.specs.Option.{option_map};
ghost use Rattle.edge_io.specs.Outside.{GoesOn};
ghost use Rattle.block_cli.specs.Answer.{done, limited, first_too_long};
ghost use Rattle.block_cli.specs.Seen.{seen_of};
ghost use Rattle.block_cli.specs.Inside.{answer_in, files_in, Delivers, HaveRoom, WritesAll};

use crate::answer::{Answer, File};
use crate::print::print;
use crate::report;
use crate::status::Status;
use edge_io::{Files, Sink};
use std::alloc::{AllocError, Global};

/// The longest file that is written: 64 MiB.
const MOST_BYTES: usize = 67_108_864;

/// The first file that is too long to be written.
fn first_too_long<'a>(written: &[File<'a>]) -> Option<&'a str>
    ensures { option_map (λ name. name.now) result
        ≡ option_map (λ file. file.0) (first_too_long (files_in written.now)) }
{
    for file in written {
        if file.bytes.len() > MOST_BYTES {
            return Some(file.name);
        }
    }
    None
}

/// Makes room for each file, so that writing them takes no memory.
fn make_room<F: Files>(alloc: Global, written: &[File<'_>], files: &mut F) -> Result<(), AllocError>
    ensures goes { GoesOn (F.seen files.old) (F.seen files.new) }
    ensures same { (F.seen files.new).told ≡ (F.seen files.old).told }
    ensures room { OnOk result (HaveRoom (files_in written.now) (F.seen files.new)) }
{
    for file in written {
        files.ready(alloc, file.name, file.bytes.len())?;
    }
    Ok(())
}

/// Writes files in their order, up to the first that can't be written, which it names.
fn write_all<'a, F: Files>(written: &[File<'a>], files: &mut F) -> Option<&'a str>
    requires { HaveRoom (files_in written.now) (F.seen files.old) }
    ensures goes { GoesOn (F.seen files.old) (F.seen files.new) }
    ensures writes { WritesAll (files_in written.now) (F.seen files.old)
        (option_map (λ name. name.now) result) (F.seen files.new) }
{
    for file in written {
        if files.write(file.name, &file.bytes).is_err() {
            return Some(file.name);
        }
    }
    None
}

/// Makes room, writes, and prints.
fn save<F: Files, K: Sink>(
    alloc: Global,
    text: &[u8],
    written: &[File<'_>],
    files: &mut F,
    out: &mut K,
) -> Status
    ensures { Delivers (done text.now (files_in written.now))
        (seen_of (F.seen files.old) (K.seen out.old)) result
        (seen_of (F.seen files.new) (K.seen out.new)) }
{
    match make_room(alloc, written, files) {
        Err(_) => {
            report::out_of_memory(out);
            Status::NoMemory
        }
        Ok(()) => match write_all(written, files) {
            Some(name) => {
                report::cannot_write(out, name);
                Status::WriteFault
            }
            None => match print(out, text) {
                Err(_) => Status::WriteFault,
                Ok(()) => Status::Done,
            },
        },
    }
}

/// Does what an answer says, unless a file that it writes is too long.
pub fn deliver<F: Files, K: Sink>(
    alloc: Global,
    answer: &Answer<'_>,
    files: &mut F,
    out: &mut K,
) -> Status
    ensures { Delivers (limited (answer_in answer.now))
        (seen_of (F.seen files.old) (K.seen out.old)) result
        (seen_of (F.seen files.new) (K.seen out.new)) }
{
    match answer {
        Answer::Refused(text) => {
            report::say(out, text);
            Status::Refused
        }
        Answer::BadInput(text) => {
            report::say(out, text);
            Status::BadInput
        }
        Answer::Done(text, written) => match first_too_long(written) {
            Some(name) => {
                report::too_long(out, name);
                Status::BadInput
            }
            None => save(alloc, text, written, files, out),
        },
    }
}
