//! How faults of texts, scripts and data are answered.

use data_nodes::{DataFault, DataKind};
use micheline_text::TextFault;
use michelson_reader::ReadFault;
use std::alloc::{AllocError, Global};

/// A fault's name and the offset at which it is told.
pub fn told(alloc: Global, fault: &str, at: usize) -> Result<Vec<u8>, AllocError> {
    let text = format!(in alloc; "{fault} {at}")?;
    Vec::from_slice(alloc, text.as_bytes())
}

/// A fault of a text.
pub fn of_text(alloc: Global, fault: &TextFault) -> Result<Vec<u8>, AllocError> {
    match *fault {
        TextFault::BadToken(at) => told(alloc, "BadToken", at),
        TextFault::Unclosed(at) => told(alloc, "Unclosed", at),
        TextFault::WiderNumber(at) => told(alloc, "WiderNumber", at),
        TextFault::TooDeep(at) => told(alloc, "TooDeep", at),
        TextFault::NoMemory => Err(AllocError),
    }
}

/// A fault of data.
pub fn of_data(alloc: Global, fault: DataFault) -> Result<Vec<u8>, AllocError> {
    let name = match fault.kind {
        DataKind::Shape => "Shape",
        DataKind::Range => "Range",
        DataKind::Order => "Order",
        DataKind::TooLarge => "TooLarge",
    };
    told(alloc, name, fault.at)
}

/// A fault of a script; a word that is left out is told with its offset.
pub fn of_script(alloc: Global, fault: &ReadFault) -> Result<Vec<u8>, AllocError> {
    match fault {
        ReadFault::Text(fault) => of_text(alloc, fault),
        ReadFault::Sections(at) => told(alloc, "Sections", *at),
        ReadFault::LeftOut(at, word) => {
            let mut text = told(alloc, "LeftOut", *at)?;
            text.extend_from_slice(b" ")?;
            text.extend_from_slice(word.as_slice())?;
            Ok(text)
        }
        ReadFault::UnknownPrim(at) => told(alloc, "UnknownPrim", *at),
        ReadFault::Arity(at) => told(alloc, "Arity", *at),
        ReadFault::Data(fault) => of_data(alloc, *fault),
        ReadFault::NoMemory => Err(AllocError),
    }
}
