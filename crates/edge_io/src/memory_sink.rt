//! A sink in memory, which tells what it took and fails where it is told to.
ghost use Rattle.std.specs.Prelude.{◌≡◌, ◌<◌, ◌∷◌, ◌++◌, [], min, max, length, is_err, IfOk, OnOk, OnErr};
ghost use Rattle.edge_io.specs.Outside.{TakesPiece};
ghost use Rattle.edge_io.specs.Buffer.{taken_of, piece_due, after_piece};

use crate::calls::is_due;
use crate::files::{Failed, NoMemory};
use crate::sink::Sink;
use std::alloc::Global;
use std::marker::Model;

/// A sink that keeps what it takes, as much as it was given room for.
#[derive(Drop)]
pub struct MemSink {
    bytes: Vec<u8>,
    room: usize,
    calls: u64,
    failing: Vec<u32>,
    faults: u64,
}

impl Model for MemSink {
    ghost use Rattle.std.specs.Prelude.{◌+◌, ◌≤◌, ◌<◌, ◌^◌};
    ghost use Rattle.std.specs.Vec.{vec_len, vec_capacity};
    ghost use Rattle.edge_io.specs.Buffer.{Buffer};

    ghost Value = { Buffer };

    ghost view = { λ s. record {
      bytes = s.bytes.items;
      room = s.room;
      calls = s.calls;
      failing = s.failing.items;
      faults = s.faults;
    } };

    // the memory of a room was taken when the room was made
    ghost invariant = { λ s. vec_len s.bytes + s.room ≤ vec_capacity s.bytes };
}

impl MemSink {
    /// An empty sink, without room.
    pub fn new(alloc: Global) -> MemSink
        ensures { result ≡ record { bytes = []; room = 0; calls = 0; failing = []; faults = 0 } }
    {
        MemSink {
            bytes: Vec::new(alloc),
            room: 0,
            calls: 0,
            failing: Vec::new(alloc),
            faults: 0,
        }
    }

    /// Makes room for so many further bytes.
    pub fn room(&mut self, alloc: Global, n: usize) -> Result<(), NoMemory>
        ensures made { OnOk result (self.new ≡ record self.old { room = max self.old.room n }) }
        ensures unchanged { OnErr result (self.new ≡ self.old) }
    {
        self.bytes.reserve(n)?;
        self.room = self.room.max(n);
        Ok(())
    }

    /// Lets the k-th write fail, counted from 0.
    pub fn fail_at(&mut self, alloc: Global, k: u32) -> Result<(), NoMemory>
        ensures noted { OnOk result (self.new
            ≡ record self.old { failing = self.old.failing ++ k ∷ [] }) }
        ensures unchanged { OnErr result (self.new ≡ self.old) }
    {
        self.failing.push(k)?;
        Ok(())
    }

    /// What was taken.
    pub fn bytes(&self) -> &[u8]
        ensures { result.now ≡ self.now.bytes }
    {
        &self.bytes
    }
}

impl Sink for MemSink {
    ghost seen = { taken_of };

    fn write(&mut self, piece: &[u8]) -> Result<usize, Failed>
        requires { 0 < length piece.now }
        ensures takes { TakesPiece (taken_of self.old) piece.now result (taken_of self.new) }
        ensures fails { is_err result ≡ piece_due self.old }
        ensures most { IfOk result (λ n. n ≡ min self.old.room (length piece.now)) }
        ensures after { self.new ≡ after_piece self.old piece.now result }
    {
        let fails = is_due(&self.failing, self.calls);
        self.calls = self.calls.saturating_add(1);
        if fails || self.room == 0 {
            self.faults = self.faults.saturating_add(1);
            return Err(Failed);
        }
        let n = self.room.min(piece.len());
        self.bytes.extend_from_slice(&piece[..n]).unwrap();
        self.room -= n;
        Ok(n)
    }
}
