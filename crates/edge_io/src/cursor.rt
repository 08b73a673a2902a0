//! A cursor, which takes fields from the front of bytes.

ghost use Rattle.std.specs.Prelude.{◌≡◌};
ghost use Rattle.std.specs.Int.{w8, w32, w64, from_be_bytes};
ghost use Rattle.std.specs.Option.{option_map};
ghost use Rattle.edge_io.specs.Cursors.{TakesFront};

use std::marker::Model;

/// Bytes, and how many of them are taken. A take of more than are left moves nothing.
#[derive(Debug, Drop)]
pub struct Cursor<'a> {
    bytes: &'a [u8],
    at: usize,
}

impl<'a> Model for Cursor<'a> {
    ghost use Rattle.std.specs.Prelude.{◌≤◌, length};
    ghost use Rattle.edge_io.specs.Cursors.{Reach};

    ghost Value = { Reach };

    ghost view = { λ c. record { bytes = c.bytes.now; at = c.at } };

    ghost invariant = { λ c. c.at ≤ length c.bytes.now };
}

impl<'a> Cursor<'a> {
    /// A cursor at the first byte.
    pub fn new(bytes: &'a [u8]) -> Cursor<'a>
        ensures bytes { result.bytes ≡ bytes.now }
        ensures at { result.at ≡ 0 }
    {
        Cursor { bytes, at: 0 }
    }

    /// How many bytes are taken.
    pub fn at(&self) -> usize
        ensures { result ≡ self.now.at }
    {
        self.at
    }

    /// The next byte.
    pub fn take_u8(&mut self) -> Option<u8>
        ensures { TakesFront 1 (from_be_bytes w8) self.old result self.new }
    {
        let front = self.take_bytes(1)?;
        Some(front[0])
    }

    /// A number of four bytes, the highest first.
    pub fn take_u32(&mut self) -> Option<u32>
        ensures { TakesFront 4 (from_be_bytes w32) self.old result self.new }
    {
        let front = self.take_bytes(4)?;
        let mut number = [0; 4];
        number.copy_from_slice(front);
        Some(u32::from_be_bytes(number))
    }

    /// A number of eight bytes, the highest first.
    pub fn take_u64(&mut self) -> Option<u64>
        ensures { TakesFront 8 (from_be_bytes w64) self.old result self.new }
    {
        let front = self.take_bytes(8)?;
        let mut number = [0; 8];
        number.copy_from_slice(front);
        Some(u64::from_be_bytes(number))
    }

    /// The next n bytes.
    pub fn take_bytes(&mut self, n: usize) -> Option<&'a [u8]>
        ensures { TakesFront n (λ b. b) self.old (option_map (λ b. b.now) result) self.new }
    {
        let (_, rest) = self.bytes.split_at(self.at);
        if rest.len() < n {
            return None;
        }
        self.at += n;
        Some(rest.split_at(n).0)
    }
}
