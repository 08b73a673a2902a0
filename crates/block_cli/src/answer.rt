//! What comes of a command: a status, a text, and files to be written.

/// A file to be written.
#[derive(Drop)]
pub struct File<'a> {
    /// Its name, which isn't empty.
    pub name: &'a str,
    /// All that it is to hold.
    pub bytes: Vec<u8>,
}

/// What comes of the contents of the files that a command reads.
#[derive(Drop)]
pub enum Answer<'a> {
    /// All is done: the files are written in their order, and the text is printed.
    Done(Vec<u8>, Vec<File<'a>>),
    /// The block is refused, as the text says: `refused: WrongParent`. Nothing is written.
    Refused(Vec<u8>),
    /// A file is at fault, as the text says: `state: Malformed at 0`. Nothing is written.
    BadInput(Vec<u8>),
}
