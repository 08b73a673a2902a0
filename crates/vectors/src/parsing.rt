//! Cases of CameLIGO: whether a text is one, or its fault.

use crate::words::bytes_of;
use ligo_syntax::{SyntaxFault, SyntaxRefusal, parse};
use std::alloc::{AllocError, Global};

/// The answer to a case of this table, and `no case` to any other line.
pub fn answer(alloc: Global, word: &str) -> Result<Vec<u8>, AllocError> {
    match bytes_of(alloc, word)? {
        Some(text) => parsed(alloc, &text),
        None => Vec::from_slice(alloc, b"no case"),
    }
}

fn parsed(alloc: Global, text: &[u8]) -> Result<Vec<u8>, AllocError> {
    match parse(alloc, text) {
        Ok(_) => Vec::from_slice(alloc, b"ok"),
        Err(SyntaxRefusal::Fault(fault)) => told(alloc, fault),
        Err(SyntaxRefusal::NoMemory) => Err(AllocError),
    }
}

/// What could stand there, and where.
fn told(alloc: Global, fault: SyntaxFault) -> Result<Vec<u8>, AllocError> {
    let (expected, at) = (fault.expected, fault.at);
    let text = format!(in alloc; "Expected {expected:?} at {at}")?;
    Vec::from_slice(alloc, text.as_bytes())
}
