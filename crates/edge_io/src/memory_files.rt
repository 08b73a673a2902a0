//! Files in memory, which tell their contents and fail where they are told to.
ghost use Rattle.std.specs.Prelude.{◌≡◌, ◌∷◌, ◌++◌, [], length, is_err, is_some, OnOk, OnErr};
ghost use Rattle.std.specs.Option.{option_copied};
ghost use Rattle.std.specs.FinMap as map;
ghost use Rattle.edge_io.specs.Outside.{HasRoom, SameOthers, ReadsFile, MakesRoom, WritesFile};
ghost use Rattle.edge_io.specs.Shelf.{bare, outside_of, is_due, read_due, FailsWhere, after_read, after_ready, after_put, after_write};

use crate::calls::{is_due, reads_after};
use crate::files::{Failed, Files, NoMemory, ReadEnd};
use crate::slot::Slot;
use crate::slots;
use std::alloc::Global;
use std::marker::Model;

/// Files in memory, which tell their contents. A read that ends in want of memory isn't counted.
#[derive(Drop)]
pub struct MemFiles {
    slots: Vec<Slot>,
    reads: u64,
    writes: u64,
    failing_reads: Vec<u32>,
    failing_writes: Vec<u32>,
}

impl Model for MemFiles {
    ghost use Rattle.edge_io.specs.Shelf.{Shelf, shelf_code};
    ghost use Rattle.edge_io.specs.Slots.{held_of, marked_of};

    ghost Value = { Shelf };

    ghost coded = { shelf_code };

    ghost view = { λ m. record {
      held = held_of m.slots.items;
      marked = marked_of m.slots.items;
      reads = m.reads;
      writes = m.writes;
      failing_reads = m.failing_reads.items;
      failing_writes = m.failing_writes.items;
    } };
}

impl MemFiles {
    /// No files.
    pub fn new(alloc: Global) -> MemFiles
        ensures { result ≡ bare }
    {
        MemFiles {
            slots: Vec::new(alloc),
            reads: 0,
            writes: 0,
            failing_reads: Vec::new(alloc),
            failing_writes: Vec::new(alloc),
        }
    }

    /// Makes the bytes the whole content of a name. This is no write, and never fails as one.
    pub fn put(&mut self, alloc: Global, name: &str, bytes: &[u8]) -> Result<(), NoMemory>
        ensures put { OnOk result (self.new ≡ after_put self.old name.now bytes.now) }
        ensures room { OnOk result (HasRoom (outside_of self.new) name.now (length bytes.now)) }
        ensures unchanged { OnErr result (self.new ≡ self.old) }
        ensures others { SameOthers (outside_of self.old) (outside_of self.new) name.now }
    {
        slots::put(&mut self.slots, alloc, name, bytes)
    }

    /// What stands under a name.
    pub fn get(&self, name: &str) -> Option<&[u8]>
        ensures { option_copied result ≡ map.get self.now.held name.now }
    {
        slots::file_of(&self.slots, name)
    }

    /// Lets the k-th read fail, counted from 0.
    pub fn fail_read(&mut self, alloc: Global, k: u32) -> Result<(), NoMemory>
        ensures noted { OnOk result (self.new
            ≡ record self.old { failing_reads = self.old.failing_reads ++ k ∷ [] }) }
        ensures unchanged { OnErr result (self.new ≡ self.old) }
    {
        self.failing_reads.push(k)?;
        Ok(())
    }

    /// Lets the k-th write fail, counted from 0.
    pub fn fail_write(&mut self, alloc: Global, k: u32) -> Result<(), NoMemory>
        ensures noted { OnOk result (self.new
            ≡ record self.old { failing_writes = self.old.failing_writes ++ k ∷ [] }) }
        ensures unchanged { OnErr result (self.new ≡ self.old) }
    {
        self.failing_writes.push(k)?;
        Ok(())
    }
}

impl Files for MemFiles {
    ghost seen = { outside_of };

    fn read(&mut self, alloc: Global, name: &str) -> Result<Vec<u8>, ReadEnd>
        ensures reads { ReadsFile (outside_of self.old) name.now result (outside_of self.new) }
        ensures fails { FailsWhere (read_due self.old name.now)
            (is_some (map.get self.old.marked name.now)) result }
        ensures after { self.new ≡ after_read self.old name.now result }
        ensures others { SameOthers (outside_of self.old) (outside_of self.new) name.now }
    {
        let fails = is_due(&self.failing_reads, self.reads);
        let ended = slots::read(&mut self.slots, alloc, name, fails);
        self.reads = reads_after(self.reads, &ended);
        ended
    }

    fn ready(&mut self, alloc: Global, name: &str, n: usize) -> Result<(), NoMemory>
        ensures makes { MakesRoom (outside_of self.old) name.now n result (outside_of self.new) }
        ensures made { OnOk result (self.new ≡ after_ready self.old name.now n) }
        ensures unchanged { OnErr result (self.new ≡ self.old) }
    {
        slots::ready(&mut self.slots, alloc, name, n)
    }

    fn write(&mut self, name: &str, bytes: &[u8]) -> Result<(), Failed>
        requires { HasRoom (outside_of self.old) name.now (length bytes.now) }
        ensures writes { WritesFile (outside_of self.old) name.now bytes.now result
            (outside_of self.new) }
        ensures fails { is_err result ≡ is_due self.old.failing_writes self.old.writes }
        ensures after { self.new ≡ after_write self.old name.now bytes.now result }
        ensures others { SameOthers (outside_of self.old) (outside_of self.new) name.now }
    {
        let fails = is_due(&self.failing_writes, self.writes);
        self.writes = self.writes.saturating_add(1);
        slots::write(&mut self.slots, name, bytes, fails)
    }
}
