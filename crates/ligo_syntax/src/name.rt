//! Names with their places.

use sqlite_items::Items;

/// A name, with the offset of its first byte.
#[derive(Debug, Drop)]
pub struct Name {
    /// The offset of its first byte.
    pub at: u32,
    /// Its bytes.
    pub word: Items<u8>,
}
