//! A run of the program, from the words of its process on.
ghost use Rattle.block_cli.specs.Seen.{seen_of};
ghost use Rattle.std.specs.Process.{exit_status};
ghost use Rattle.block_cli.specs.Runs.{ExitsWith, Starts};

use crate::report;
use crate::run::run;
use crate::status::Status;
use edge_io::{Files, OpenGate, Sink};
use std::env::{self, Env};
use std::io::{self, ErrorKind};
use std::process::ExitCode;

/// The words behind the program's name.
fn words_of<R: AllocGlobal + Env>(rt: &R) -> io::Result<Vec<String>> {
    let mut words = Vec::new(rt.alloc());
    for word in env::args(rt)?.skip(1) {
        words.push(word)?;
    }
    Ok(words)
}

/// Does what the words of the process ask, unless there are none.
fn run_words<R: AllocGlobal + Env, F: Files, K: Sink>(rt: &R, files: &mut F, out: &mut K) -> Status
    ensures { Starts (seen_of (F.seen files.old) (K.seen out.old)) result
        (seen_of (F.seen files.new) (K.seen out.new)) }
{
    match words_of(rt) {
        Ok(words) => run(rt, &words, files, out, &OpenGate),
        Err(e) if e.kind() == ErrorKind::OutOfMemory => {
            report::out_of_memory(out);
            Status::NoMemory
        }
        Err(_) => {
            report::usage(out);
            Status::Usage
        }
    }
}

/// Does what the words of the process ask, and gives the number of the status to the process.
pub fn start<R: AllocGlobal + Env, F: Files, K: Sink>(
    rt: &R,
    files: &mut F,
    out: &mut K,
) -> ExitCode
    ensures { ExitsWith (seen_of (F.seen files.old) (K.seen out.old)) (exit_status result)
        (seen_of (F.seen files.new) (K.seen out.new)) }
{
    run_words(rt, files, out).exit_code()
}
