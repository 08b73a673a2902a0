//! Operations that wait for a block.

ghost use Rattle.std.specs.Prelude.{◌≡◌, ◌↔◌, IfOk, IsTrue};

use crate::op::Op;
use sqlite_items::Items;
use std::alloc::Global;
use value_core::NoMemory;

/// Operations, and the time at which they are to run.
#[derive(Debug, Drop)]
pub struct Batch {
    /// Seconds since 1970.
    pub now: u64,
    /// The operations, in the order in which they came.
    pub ops: Items<Op>,
}

impl Batch {
    /// An equal batch.
    pub fn copy(&self, alloc: Global) -> Result<Batch, NoMemory>
        ensures { IfOk result (λ batch. batch ≡ self.entry.now) }
    {
        let ops = copy_ops(alloc, self.ops.as_slice())?;
        Ok(Batch { now: self.now, ops })
    }

    /// Whether the batches are equal.
    pub fn same(&self, other: &Batch) -> bool
        ensures { IsTrue result ↔ (self.entry.now ≡ other.entry.now) }
    {
        self.now == other.now && same_ops(self.ops.as_slice(), other.ops.as_slice())
    }
}

fn copy_ops(alloc: Global, ops: &[Op]) -> Result<Items<Op>, NoMemory>
    ensures { IfOk result (λ made. made ≡ ops.now) }
{
    let mut made = Items::new(alloc);
    for op in ops {
        made.push(op.copy(alloc)?)?;
    }
    Ok(made)
}

fn same_ops(a: &[Op], b: &[Op]) -> bool
    ensures { IsTrue result ↔ (a.now ≡ b.now) }
{
    if a.len() != b.len() {
        return false;
    }
    for i in 0..a.len() {
        if !a[i].same(&b[i]) {
            return false;
        }
    }
    true
}
