//! The files of the disk, which tell no contents.
ghost use Rattle.std.specs.Prelude.{◌≡◌, ◌<◌, ◌≤◌, IfOk, IfSome, IsOk, IsErrOf, length, vec_len};
ghost use Rattle.edge_io.specs.Outside.{most_bytes, Rose, HasRoom, ReadsFile, MakesRoom, WritesFile};
ghost use Rattle.edge_io.specs.Adapters.{outside_of, after_read, after_write};
ghost use Rattle.edge_io.specs.declared.files.ReadEnd.TheVariants.{Failed as failed, TooLong as too_long};

use crate::files::{Failed, Files, MOST_BYTES, NoMemory, ReadEnd};
use crate::pieces::{Pieces, Source};
use std::alloc::Global;
use std::fs;
use std::marker::Model;
use std::rt::Files as SystemFiles;

/// How many bytes a read asks the system for.
const PIECE: usize = 65_536;

/// Files of the disk. One count of each kind stands for every name, and every name has room.
#[derive(Drop)]
pub struct DiskFiles<'a, R: SystemFiles> {
    rt: &'a R,
    read_faults: u64,
    write_faults: u64,
    long_reads: u64,
}

impl<'a, R: SystemFiles> Model for DiskFiles<'a, R> {
    ghost use Rattle.edge_io.specs.Adapters.{DiskCounts};

    ghost Value = { DiskCounts };

    ghost view = { λ s. record {
      read_faults = s.read_faults;
      write_faults = s.write_faults;
      long_reads = s.long_reads;
    } };
}

impl<'a, R: SystemFiles> DiskFiles<'a, R> {
    /// The files that the system has.
    pub fn new(rt: &'a R) -> DiskFiles<'a, R>
        ensures { result ≡ record { read_faults = 0; write_faults = 0; long_reads = 0 } }
    {
        DiskFiles {
            rt,
            read_faults: 0,
            write_faults: 0,
            long_reads: 0,
        }
    }
}

/// Where a piece is read to.
fn buffer(alloc: Global) -> Result<Vec<u8>, NoMemory>
    ensures { IfOk result (λ v. 0 < vec_len v) }
{
    Vec::from_elem(alloc, 0u8, PIECE)
}

/// All that is left, in pieces.
fn read_all<P: Pieces>(alloc: Global, pieces: &mut P) -> Result<Vec<u8>, ReadEnd>
    ensures short { IfOk result (λ v. length v.items ≤ most_bytes) }
    ensures whole { IfOk result (λ v. IfSome (P.left pieces.old) (λ xs. v.items ≡ xs)) }
    // A fault comes only where a read ended in an error, and this end only where more is left.
    ensures failed { IsErrOf result failed → Rose (P.errors pieces.old) (P.errors pieces.new) }
    ensures long { IsErrOf result too_long
        → IfSome (P.left pieces.old) (λ xs. most_bytes < length xs) }
{
    let mut buffer = buffer(alloc)?;
    let room = buffer.as_mut_slice();
    let mut bytes = Vec::new(alloc);
    for _ in 0..u64::MAX {
        let more = pieces.add_piece(room, &mut bytes)?;
        if bytes.len() > MOST_BYTES {
            return Err(ReadEnd::TooLong);
        }
        if !more {
            return Ok(bytes);
        }
    }
    Err(ReadEnd::Failed)
}

/// All the bytes of a file.
fn read_named<R: SystemFiles>(alloc: Global, rt: &R, name: &str) -> Result<Vec<u8>, ReadEnd>
    ensures { IfOk result (λ v. length v.items ≤ most_bytes) }
{
    match fs::open(rt, name) {
        Ok(file) => read_all(alloc, &mut Source::new(file)),
        Err(_) => Err(ReadEnd::Failed),
    }
}

impl<'a, R: SystemFiles> Files for DiskFiles<'a, R> {
    ghost seen = { outside_of };

    fn read(&mut self, alloc: Global, name: &str) -> Result<Vec<u8>, ReadEnd>
        ensures reads { ReadsFile (outside_of self.old) name.now result (outside_of self.new) }
        ensures after { self.new ≡ after_read self.old result }
    {
        match read_named(alloc, self.rt, name) {
            Ok(bytes) => Ok(bytes),
            Err(ReadEnd::Failed) => {
                self.read_faults = self.read_faults.saturating_add(1);
                Err(ReadEnd::Failed)
            }
            Err(ReadEnd::TooLong) => {
                self.long_reads = self.long_reads.saturating_add(1);
                Err(ReadEnd::TooLong)
            }
            Err(ReadEnd::NoMemory) => Err(ReadEnd::NoMemory),
        }
    }

    fn ready(&mut self, _alloc: Global, _name: &str, _n: usize) -> Result<(), NoMemory>
        ensures makes { MakesRoom (outside_of self.old) _name.now _n result (outside_of self.new) }
        ensures always { IsOk result }
        ensures after { self.new ≡ self.old }
    {
        Ok(())
    }

    fn write(&mut self, name: &str, bytes: &[u8]) -> Result<(), Failed>
        requires { HasRoom (outside_of self.old) name.now (length bytes.now) }
        ensures writes { WritesFile (outside_of self.old) name.now bytes.now result
            (outside_of self.new) }
        ensures after { self.new ≡ after_write self.old result }
    {
        if fs::write(self.rt, name, bytes).is_err() {
            self.write_faults = self.write_faults.saturating_add(1);
            return Err(Failed);
        }
        Ok(())
    }
}
