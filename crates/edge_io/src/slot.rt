//! One name in memory: its file, its room and its counts.
ghost use Rattle.std.specs.Prelude.{◌≡◌, ◌<◌, ◌≤◌, ◌||◌, length, is_none, true, None, Some, IfOk, IsErrOf, IsSomeAnd, OnOk, OnErr};
ghost use Rattle.std.specs.Option.{option_copied};
ghost use Rattle.std.specs.Str.{bytes_eq};
ghost use Rattle.edge_io.specs.Outside.{most_bytes};
ghost use Rattle.edge_io.specs.Shelf.{no_marks, marks_read, marks_unwritten, roomy, FailsWhere};
ghost use Rattle.edge_io.specs.declared.files.ReadEnd.TheVariants.{Failed as read_failed, TooLong as too_long};

use crate::files::{Failed, MOST_BYTES, NoMemory, ReadEnd};
use std::alloc::Global;
use std::marker::Model;

/// A name with what stands under it. A slot is made before its file is there.
#[derive(Drop)]
pub struct Slot {
    name: String,
    there: bool,
    bytes: Vec<u8>,
    room: usize,
    read_faults: u64,
    write_faults: u64,
    long_reads: u64,
}

impl Model for Slot {
    ghost use Rattle.std.specs.Prelude.{◌≤◌, if◌then◌else◌, Some, None, string_bytes};
    ghost use Rattle.std.specs.Vec.{vec_capacity};
    ghost use Rattle.edge_io.specs.Slots.{SlotView};

    ghost Value = { SlotView };

    ghost view = { λ s. record {
      name = string_bytes s.name;
      file = (if s.there then Some s.bytes.items else None);
      marks = record {
        room = s.room;
        read_faults = s.read_faults;
        write_faults = s.write_faults;
        long_reads = s.long_reads;
      };
    } };

    // the memory of a room was taken when the room was made
    ghost invariant = { λ s. s.room ≤ vec_capacity s.bytes };
}

impl Slot {
    /// A slot without a file.
    pub fn new(alloc: Global, name: &str) -> Result<Slot, NoMemory>
        ensures { IfOk result (λ s. s ≡ record { name = name.now; file = None; marks = no_marks }) }
    {
        Ok(Slot {
            name: String::from_str(alloc, name)?,
            there: false,
            bytes: Vec::new(alloc),
            room: 0,
            read_faults: 0,
            write_faults: 0,
            long_reads: 0,
        })
    }

    /// Whether this is the slot of a name.
    pub fn is_named(&self, name: &str) -> bool
        ensures { result ≡ bytes_eq name.now self.now.name }
    {
        name == self.name.as_str()
    }

    /// The file, where it is there.
    pub fn file(&self) -> Option<&[u8]>
        ensures { option_copied result ≡ self.now.file }
    {
        if self.there { Some(&self.bytes) } else { None }
    }

    /// Counts a read that failed.
    pub fn note_read_fault(&mut self)
        ensures { self.new
            ≡ record self.old { marks = marks_read self.old.marks (Err read_failed) } }
    {
        self.read_faults = self.read_faults.saturating_add(1);
    }

    /// The bytes of the file, unless this read is to fail.
    pub fn read(&mut self, alloc: Global, fails: bool) -> Result<Vec<u8>, ReadEnd>
        ensures fails { FailsWhere (fails || is_none self.old.file) true result }
        ensures short { IfOk result (λ v. length v.items ≤ most_bytes) }
        ensures bytes { IfOk result (λ v. self.old.file ≡ Some v.items) }
        ensures long { IsErrOf result too_long
            → IsSomeAnd self.old.file (λ b. most_bytes < length b) }
        ensures then { self.new ≡ record self.old { marks = marks_read self.old.marks result } }
    {
        if fails || !self.there {
            self.read_faults = self.read_faults.saturating_add(1);
            return Err(ReadEnd::Failed);
        }
        if self.bytes.len() > MOST_BYTES {
            self.long_reads = self.long_reads.saturating_add(1);
            return Err(ReadEnd::TooLong);
        }
        Ok(Vec::from_slice(alloc, &self.bytes)?)
    }

    /// Makes room for a file of that many bytes.
    pub fn make_room(&mut self, n: usize) -> Result<(), NoMemory>
        ensures made { OnOk result (self.new ≡ record self.old { marks = roomy self.old.marks n }) }
        ensures unchanged { OnErr result (self.new ≡ self.old) }
    {
        self.bytes.reserve(n.saturating_sub(self.bytes.len()))?;
        self.room = self.room.max(n);
        Ok(())
    }

    /// Makes the bytes the file, within the room.
    pub fn put(&mut self, bytes: &[u8])
        requires { length bytes.now ≤ self.old.marks.room }
        ensures { self.new ≡ record self.old { file = Some bytes.now } }
    {
        self.bytes.clear();
        self.bytes.extend_from_slice(bytes).unwrap();
        self.there = true;
    }

    /// Counts a write that failed.
    pub fn note_write_fault(&mut self)
        ensures { self.new ≡ record self.old { marks = marks_unwritten self.old.marks } }
    {
        self.write_faults = self.write_faults.saturating_add(1);
    }
}
