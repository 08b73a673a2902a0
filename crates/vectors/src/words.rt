//! The words of a line.

use byte_fields::FieldFault;
use hex::FromHexError;
use michelson_reader::{ReadFault, read_script};
use std::alloc::{AllocError, Global};
use value_codec::{read_val, write_val};
use value_core::{Address, Ty, Val, is_plain, is_within_depth};

/// The depth to which values are written as bytes.
const DEEPEST: u32 = 128;

/// The bytes that a word writes: two hexadecimal digits in lower case each, and `-` for none.
pub fn bytes_of(alloc: Global, word: &str) -> Result<Option<Vec<u8>>, AllocError> {
    if word == "-" {
        return Ok(Some(Vec::new(alloc)));
    }
    if word.is_empty() || word.bytes().any(|c| c.is_ascii_uppercase()) {
        return Ok(None);
    }
    match hex::decode(alloc, word) {
        Ok(bytes) => Ok(Some(bytes)),
        Err(FromHexError::OutOfMemory) => Err(AllocError),
        Err(_) => Ok(None),
    }
}

/// The value that the bytes of a word spell, all of them.
pub fn value_of(alloc: Global, word: &str) -> Result<Option<Val>, AllocError> {
    let Some(bytes) = bytes_of(alloc, word)? else {
        return Ok(None);
    };
    match read_val(alloc, &bytes, 0) {
        Ok((v, end)) if end == bytes.len() => Ok(Some(v)),
        Ok(_) | Err(FieldFault::At(_)) => Ok(None),
        Err(FieldFault::NoMemory) => Err(AllocError),
    }
}

/// The address that a word writes.
pub fn address_of(alloc: Global, word: &str) -> Result<Option<Address>, AllocError> {
    match bytes_of(alloc, word)? {
        Some(bytes) => Ok(Address::from_bytes(&bytes).ok()),
        None => Ok(None),
    }
}

/// The type that a word writes: it is read as the parameter of a script.
pub fn type_of(alloc: Global, word: &str) -> Result<Option<Ty>, AllocError> {
    let Some(t) = bytes_of(alloc, word)? else {
        return Ok(None);
    };
    let mut text = Vec::from_slice(alloc, b"parameter (")?;
    text.extend_from_slice(&t)?;
    text.extend_from_slice(b") ; storage unit ; code {}")?;
    if text.len() >= 0x1_0000_0000 {
        return Ok(None);
    }
    match read_script(alloc, &text) {
        Ok(script) => Ok(Some(script.param)),
        Err(ReadFault::NoMemory) => Err(AllocError),
        Err(_) => Ok(None),
    }
}

/// Bytes as two digits each.
pub fn put_hex(alloc: Global, bytes: &[u8], out: &mut Vec<u8>) -> Result<(), AllocError> {
    let digits = hex::encode(alloc, bytes)?;
    out.extend_from_slice(digits.as_bytes())
}

/// The spelling of a value, and `-` where it has none.
pub fn put_value(alloc: Global, v: &Val, out: &mut Vec<u8>) -> Result<(), AllocError> {
    if !is_plain(v) || !is_within_depth(v, DEEPEST) {
        return out.extend_from_slice(b"-");
    }
    let mut bytes = Vec::new(alloc);
    write_val(alloc, v, &mut bytes)?;
    put_hex(alloc, &bytes, out)
}
