//! Texts and bytes, as they came from outside.

ghost use Rattle.std.specs.Prelude.{◌≡◌, ◌↔◌, IfOk, IsTrue, SomeIff};
ghost use Rattle.std.specs.List.{list_all};
ghost use Rattle.value_core.specs.Lawful.{is_lawful_blob};
ghost use Rattle.value_core.specs.Leaves.{is_blob, is_printable, is_text};

use crate::memory::NoMemory;
use crate::small::bytes_are_small;
use std::alloc::Global;
use std::marker::Model;

const LONGEST: usize = 131_071;

/// At most 131,071 bytes, each a newline or a printable character.
#[derive(Debug, Drop)]
pub struct Text {
    bytes: Vec<u8>,
}

impl Model for Text {
    ghost use Rattle.std.specs.Prelude.{IsTrue, List, ℕ};
    ghost use Rattle.value_core.specs.Leaves.{is_text};

    ghost Value = { List ℕ };

    ghost view = { λ t. t.bytes.items };

    ghost invariant = { λ t. IsTrue (is_text t.bytes.items) };
}

fn is_printable(b: u8) -> bool
    ensures { result ≡ is_printable b }
{
    b == b'\n' || (b' '..=b'~').contains(&b)
}

fn are_printable(bytes: &[u8]) -> bool
    ensures { result ≡ list_all is_printable bytes.now }
{
    bytes.iter().all(|b| is_printable(*b))
}

impl Text {
    /// The text of these bytes, where they are one.
    pub fn new(bytes: Vec<u8>) -> Option<Text>
        ensures { SomeIff result (IsTrue (is_text bytes.items)) bytes.items }
    {
        if bytes.len() <= LONGEST && are_printable(&bytes) {
            Some(Text { bytes })
        } else {
            None
        }
    }

    /// The bytes of the text.
    pub fn bytes(&self) -> &[u8]
        ensures value { result.now ≡ self.now }
        ensures text { IsTrue (is_text self.now) }
    {
        self.bytes.as_slice()
    }

    /// Equal text.
    pub fn copy(&self, alloc: Global) -> Result<Text, NoMemory>
        ensures { IfOk result (λ text. text ≡ self.now) }
    {
        Ok(Text {
            bytes: Vec::from_slice(alloc, self.bytes())?,
        })
    }

    /// Whether the bytes are the same.
    pub fn same(&self, other: &Text) -> bool
        ensures { IsTrue result ↔ (self.now ≡ other.now) }
    {
        self.bytes() == other.bytes()
    }
}

/// At most 131,071 bytes.
#[derive(Debug, Drop)]
pub struct Blob {
    bytes: Vec<u8>,
}

impl Model for Blob {
    ghost use Rattle.std.specs.Prelude.{IsTrue, List, ℕ};
    ghost use Rattle.value_core.specs.Leaves.{is_blob};

    ghost Value = { List ℕ };

    ghost view = { λ t. t.bytes.items };

    ghost invariant = { λ t. IsTrue (is_blob t.bytes.items) };
}

impl Blob {
    /// These bytes, where they aren't too many.
    pub fn new(bytes: Vec<u8>) -> Option<Blob>
        ensures { SomeIff result (IsTrue (is_blob bytes.items)) bytes.items }
    {
        if bytes.len() <= LONGEST {
            Some(Blob { bytes })
        } else {
            None
        }
    }

    /// The bytes themselves.
    pub fn bytes(&self) -> &[u8]
        ensures value { result.now ≡ self.now }
        ensures lawful { IsTrue (is_lawful_blob self.now) }
    {
        let bytes = self.bytes.as_slice();
        bytes_are_small(bytes);
        bytes
    }

    /// Equal bytes.
    pub fn copy(&self, alloc: Global) -> Result<Blob, NoMemory>
        ensures { IfOk result (λ blob. blob ≡ self.now) }
    {
        Ok(Blob {
            bytes: Vec::from_slice(alloc, self.bytes())?,
        })
    }

    /// Whether the bytes are the same.
    pub fn same(&self, other: &Blob) -> bool
        ensures { IsTrue result ↔ (self.now ≡ other.now) }
    {
        self.bytes() == other.bytes()
    }
}
