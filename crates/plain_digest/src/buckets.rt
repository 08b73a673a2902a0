//! The buckets of cells, and their hashers.
ghost use Rattle.std.specs.Prelude.{◌≡◌, ◌++◌, ◌∷◌, [], ℕ, ◌<◌, List, length, IfOk, OnOk, slice_index_or};
ghost use Rattle.sha2.specs.Sha256.{sha256};
ghost use Rattle.sha2.specs.Hashers.{Holds256};
ghost use Rattle.plain_ledger.specs.Ledger.{BalanceEntry, pair};
ghost use Rattle.plain_ledger.specs.Spelling.{cell};
ghost use Rattle.plain_digest.specs.Digest.{cell_name, bucket_of, bucket_digests};
ghost use Rattle.plain_digest.specs.Buckets.{HoldBuckets};

use plain_ledger::{Holding, NoMemory};
use sha2::{Digest, Sha256};
use std::alloc::Global;

/// The tag of a balance's cell.
const BALANCE: u8 = 0;

/// The tag of an amount.
const MUTEZ: u8 = 5;

const BUCKETS: usize = 256;

fn digest_of_name(address: &[u8; 22]) -> [u8; 32]
    ensures { result ≡ sha256 (cell_name address.now) }
{
    let mut hasher = Sha256::new();
    hasher.update(&[BALANCE]);
    hasher.update(address);
    hasher.finalize()
}

#[tactic(auto, unfolding(crate::specs::Digest::bucket_of))]
fn bucket(address: &[u8; 22]) -> u8
    ensures { result ≡ bucket_of address.now }
{
    digest_of_name(address)[0]
}

/// A hasher for each bucket.
pub(crate) fn new_hashers(alloc: Global) -> Result<Vec<Sha256>, NoMemory>
    ensures { IfOk result (λ v. HoldBuckets v.items []) }
{
    let mut hashers = Vec::with_capacity(alloc, BUCKETS)?;
    for _ in 0..BUCKETS {
        hashers.push(Sha256::new())?;
    }
    Ok(hashers)
}

fn feed(hasher: &mut Sha256, holding: &Holding)
    ensures { (m : List ℕ) → Holds256 hasher.old m
        → Holds256 hasher.new (m ++ cell (pair holding.now)) }
{
    hasher.update(&[BALANCE]);
    hasher.update(holding.address.bytes());
    hasher.update(&[MUTEZ]);
    hasher.update(&holding.amount.to_be_bytes());
}

/// Adds a cell to its bucket.
pub(crate) fn put_cell(hashers: &mut Vec<Sha256>, holding: &Holding)
    requires { length hashers.old.items ≡ 256 }
    ensures { (es : List BalanceEntry) → HoldBuckets hashers.old.items es
        → HoldBuckets hashers.new.items (es ++ pair holding.now ∷ []) }
{
    let k = bucket(holding.address.bytes()) as usize;
    feed(&mut hashers[k], holding);
}

#[tactic(auto, unfolding(crate::specs::Digest::bucket_digests))]
/// Adds the digests of all buckets to a hasher.
pub(crate) fn hash_buckets(hasher: &mut Sha256, hashers: &[Sha256]) -> Result<(), NoMemory>
    ensures { OnOk result ((m : List ℕ) (es : List BalanceEntry)
        → Holds256 hasher.old m → HoldBuckets hashers.now es
        → Holds256 hasher.new (m ++ bucket_digests 256 es)) }
{
    for bucket in hashers {
        let digest = bucket.clone()?.finalize();
        hasher.update(&digest);
    }
    Ok(())
}
