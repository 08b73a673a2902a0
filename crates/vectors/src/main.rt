//! Answers tables of cases: one line from standard input, one line to standard output.
//!
//! It calls the public readers, printers and tests of the crates below, and has no rule of its
//! own. A line is a word for the call and words for its arguments, parted by one blank; a line
//! that is no case answers `no case`.
//!
//! - `answer`: what a line may be answered, and how it is printed.
//! - `words`: the words of a line.
//! - `values`: bytes of values, their order, and the small checked types.
//! - `nodes`: Micheline text, read and printed.
//! - `scripts`: scripts and data, read and printed.
//! - `typing`: scripts that may run, and the faults of others.
//! - `apply`: data instructions on a stack.
//! - `run`, `ledger`: metered runs, and what answers their questions.
//! - `parsing`: texts of CameLIGO, and the faults of others.
//! - `faults`: how a fault is answered.
#![tactic(auto)]

mod answer;
mod apply;
mod faults;
mod ledger;
mod nodes;
mod parsing;
mod run;
mod scripts;
#[cfg(test)]
mod tests;
mod typing;
mod values;
mod words;

use answer::Answer;
use std::alloc::{AllocError, Global};
use std::io;
use std::io::{BufRead, BufReader, BufWriter, Write};

fn is_of_scripts(call: &str) -> bool {
    matches!(call, "script" | "data" | "storage")
}

fn answer_to(alloc: Global, line: &str) -> Result<Vec<u8>, AllocError> {
    let answer = match line.split_once(' ') {
        Some((call, word)) if call == "nodes" => return nodes::answer(alloc, word),
        Some((call, words)) if is_of_scripts(call) => return scripts::answer(alloc, call, words),
        Some((call, word)) if call == "check" => return typing::answer(alloc, word),
        Some((call, word)) if call == "parse" => return parsing::answer(alloc, word),
        Some((call, words)) if call == "apply" => return apply::answer(alloc, words),
        Some((call, words)) if call == "run" => return run::answer(alloc, words),
        Some((call, words)) => values::answer(alloc, call, words)?,
        None => Answer::NoCase,
    };
    let text = format!(in alloc; "{answer}")?;
    Vec::from_slice(alloc, text.as_bytes())
}

fn main(rt: HostRuntime) -> io::Result<()> {
    let alloc = rt.alloc();
    let mut out = BufWriter::new(alloc, io::writer(&rt))?;
    for line in BufReader::new(alloc, rt.reader())?.lines(alloc) {
        let line = line?;
        let answer = answer_to(alloc, line.as_str())?;
        out.write_all(&answer)?;
        out.write_all(b"\n")?;
    }
    out.flush()
}
