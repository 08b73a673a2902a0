//! The texts of the buckets that are hashed.

ghost use Rattle.std.specs.Prelude.{◌≡◌, ◌∷◌, ◌++◌, [], ℕ, ◌+◌, ◌==◌, ◌||◌, if◌then◌else◌, Bool, false, List, IfOk, OnOk, length};
ghost use Rattle.sha2.specs.Sha256.{sha256};
ghost use Rattle.ledger_state.specs.Spelling.{spell_held};
ghost use Rattle.state_digest.specs.Digest.{bucket_of};
ghost use Rattle.state_digest.specs.Digests.{how_many, is_touched};
ghost use Rattle.state_digest.specs.Shelving.{Held};
ghost use Rattle.state_digest.specs.Texts.{AreHashed, HoldTexts, IsWritable, kept};

use crate::naming::bucket;
use crate::steps::{Steps, hash_bucket};
use cell_blocks::Row;
use cell_names::{Cell, NoMemory, write_cell};
use std::alloc::Global;
use std::sync::ledger::Ledger;
use value_codec::write_val;

/// How many buckets there are.
pub(crate) const BUCKETS: usize = 256;

/// A bucket, which has its text where it is marked.
#[derive(Drop)]
pub(crate) struct Bucket {
    marked: bool,
    text: Vec<u8>,
}

impl Bucket {
    /// Adds a cell to the text, where the bucket is marked.
    fn put(&mut self, alloc: Global, row: &Row<'_>) -> Result<(), NoMemory>
        requires { IsWritable row.now }
        ensures marked { self.new.marked ≡ self.old.marked }
        ensures text { OnOk result (self.new.text.items
            ≡ self.old.text.items ++ kept self.old.marked (spell_held row.now)) }
    {
        if !self.marked {
            return Ok(());
        }
        write_cell(alloc, row.cell(), &mut self.text)?;
        write_val(alloc, row.value(), &mut self.text)
    }

    /// Puts the text's digest in the place of the old one, where the bucket is marked.
    fn hash<L: Ledger>(&self, digest: &mut [u8; 32], steps: &mut Steps<L>)
        ensures digest { digest.new
            ≡ (if self.now.marked then sha256 self.now.text.items else digest.old) }
        ensures steps { steps.new ≡ steps.old + (if self.now.marked then 1 else 0) }
    {
        if self.marked {
            *digest = hash_bucket(&self.text, steps);
        }
    }
}

/// All buckets without cells, each marked or none.
pub(crate) fn blank_buckets(alloc: Global, marked: bool) -> Result<Vec<Bucket>, NoMemory>
    ensures { IfOk result (λ v. HoldTexts (λ k. marked) [] v.items) }
{
    let mut buckets = Vec::with_capacity(alloc, BUCKETS)?;
    for _ in 0..BUCKETS {
        buckets.push(Bucket {
            marked,
            text: Vec::new(alloc),
        })?;
    }
    Ok(buckets)
}

/// All buckets without cells, of which those of the touched cells are marked.
pub(crate) fn marked_buckets(alloc: Global, touched: &[Cell]) -> Result<Vec<Bucket>, NoMemory>
    ensures { IfOk result (λ v. HoldTexts (is_touched touched.now) [] v.items) }
{
    let mut buckets = blank_buckets(alloc, false)?;
    mark_touched(alloc, &mut buckets, touched)?;
    Ok(buckets)
}

fn mark_touched(alloc: Global, buckets: &mut [Bucket], touched: &[Cell]) -> Result<(), NoMemory>
    requires { HoldTexts (λ k. false) [] buckets.old }
    ensures { OnOk result (HoldTexts (is_touched touched.now) [] buckets.new) }
{
    for c in touched {
        let number = bucket(alloc, c)?;
        mark(buckets, number);
    }
    Ok(())
}

fn mark(buckets: &mut [Bucket], number: u8)
    requires { length buckets.old ≡ 256 }
    ensures { (marks : ℕ → Bool) → HoldTexts marks [] buckets.old
        → HoldTexts (λ k. number == k || marks k) [] buckets.new }
{
    buckets[number as usize].marked = true;
}

/// Adds a cell to the bucket of this number, which is its own.
pub(crate) fn put_row(
    alloc: Global,
    buckets: &mut [Bucket],
    number: u8,
    row: &Row<'_>,
) -> Result<(), NoMemory>
    requires count { length buckets.old ≡ 256 }
    requires writable { IsWritable row.now }
    ensures { OnOk result ((marks : ℕ → Bool) (passed : List Held)
        → number ≡ bucket_of row.now.0 → HoldTexts marks passed buckets.old
        → HoldTexts marks (passed ++ row.now ∷ []) buckets.new) }
{
    buckets[number as usize].put(alloc, row)
}

/// Hashes the text of each marked bucket, in a step each. The digests of other buckets stay.
pub(crate) fn hash_marked<L: Ledger>(
    buckets: &[Bucket],
    digests: &mut [[u8; 32]],
    steps: &mut Steps<L>,
)
    requires buckets { length buckets.now ≡ 256 }
    requires digests { length digests.old ≡ 256 }
    ensures digests { (marks : ℕ → Bool) (cells : List Held)
        → HoldTexts marks cells buckets.now → AreHashed marks cells digests.old digests.new }
    ensures steps { (marks : ℕ → Bool) (cells : List Held)
        → HoldTexts marks cells buckets.now → steps.new ≡ steps.old + how_many marks 256 }
{
    for k in 0..BUCKETS {
        buckets[k].hash(&mut digests[k], steps);
    }
}
