//! A text in the making, which a writer that fails in the middle can take back.

ghost use Rattle.std.specs.Prelude.{◌≡◌, [], ◌∷◌, ◌++◌, OnOk, OnErr};
ghost use Rattle.std.specs.Int.{w32, w64, w128, to_be_bytes, cast_unsigned};

use std::alloc::{AllocError, Global};
use std::marker::Model;
use std::mem;

/// Bytes that stood before, and bytes that a writer has added behind them.
#[derive(Drop)]
pub struct Draft {
    bytes: Vec<u8>,
    start: usize,
}

impl Model for Draft {
    ghost use Rattle.std.specs.Prelude.{◌≤◌, take, drop, vec_len};
    ghost use Rattle.byte_fields.specs.Drafts.{Written};

    ghost Value = { Written };

    ghost view = { λ d. record { before = take d.start d.bytes.items; added = drop d.start d.bytes.items } };

    ghost invariant = { λ d. d.start ≤ vec_len d.bytes };
}

impl Draft {
    /// Begins behind the bytes of `out`, which the draft holds until it is closed.
    pub fn on(alloc: Global, out: &mut Vec<u8>) -> Draft
        ensures before { result.before ≡ out.old.items }
        ensures added { result.added ≡ [] }
    {
        let bytes = mem::replace(out, Vec::new(alloc));
        let start = bytes.len();
        Draft { bytes, start }
    }

    /// Gives the bytes back to `out`: all of them after Ok, and those that stood before after an error.
    pub fn close(self, done: Result<(), AllocError>, out: &mut Vec<u8>) -> Result<(), AllocError>
        ensures same { result ≡ done }
        ensures written { OnOk done (out.new.items ≡ self.before ++ self.added) }
        ensures undone { OnErr done (out.new.items ≡ self.before) }
    {
        let Draft { mut bytes, start } = self;
        if done.is_err() {
            bytes.truncate(start);
        }
        *out = bytes;
        done
    }

    /// Adds one byte.
    pub fn put_u8(&mut self, byte: u8) -> Result<(), AllocError>
        ensures added { OnOk result (self.new.added ≡ self.old.added ++ byte ∷ []) }
        ensures before { self.new.before ≡ self.old.before }
    {
        self.bytes.push(byte)?;
        Ok(())
    }

    /// Adds a text.
    pub fn put_run(&mut self, text: &[u8]) -> Result<(), AllocError>
        ensures added { OnOk result (self.new.added ≡ self.old.added ++ text.now) }
        ensures before { self.new.before ≡ self.old.before }
    {
        self.bytes.extend_from_slice(text)
    }

    /// Adds a number of eight bytes, the highest first.
    pub fn put_u64(&mut self, number: u64) -> Result<(), AllocError>
        ensures added { OnOk result (self.new.added ≡ self.old.added ++ to_be_bytes w64 number) }
        ensures before { self.new.before ≡ self.old.before }
    {
        self.put_run(&number.to_be_bytes())
    }

    /// Adds a number of sixteen bytes, the highest first.
    fn put_u128(&mut self, number: u128) -> Result<(), AllocError>
        ensures added { OnOk result (self.new.added ≡ self.old.added ++ to_be_bytes w128 number) }
        ensures before { self.new.before ≡ self.old.before }
    {
        self.put_run(&number.to_be_bytes())
    }

    /// Adds a number of sixteen bytes in two's complement, the highest first.
    pub fn put_i128(&mut self, number: i128) -> Result<(), AllocError>
        ensures added { OnOk result (self.new.added ≡ self.old.added
            ++ to_be_bytes w128 (cast_unsigned w128 number)) }
        ensures before { self.new.before ≡ self.old.before }
    {
        self.put_u128(number.cast_unsigned())
    }

    /// Adds a length or a count in four bytes, of which only the low four are written.
    pub fn put_count(&mut self, count: usize) -> Result<(), AllocError>
        ensures added { OnOk result (self.new.added ≡ self.old.added ++ to_be_bytes w32 count) }
        ensures before { self.new.before ≡ self.old.before }
    {
        let wide = (count as u64).to_be_bytes();
        self.put_run(&[wide[4], wide[5], wide[6], wide[7]])
    }
}
