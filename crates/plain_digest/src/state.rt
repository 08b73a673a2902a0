//! The digest of a state.
ghost use Rattle.std.specs.Prelude.{◌≡◌, IfOk};
ghost use Rattle.plain_digest.specs.Digest.{book_digest, digest_of};

use crate::buckets::{hash_buckets, new_hashers, put_cell};
use plain_ledger::{NoMemory, State};
use sha2::{Digest, Sha256};
use std::alloc::Global;

#[tactic(auto, unfolding(crate::specs::Digest::book_digest))]
fn digest_of_no_contracts() -> [u8; 32]
    ensures { result ≡ book_digest }
{
    Sha256::digest(&[0u8; 4])
}

#[tactic(auto, unfolding(crate::specs::Digest::digest_of))]
/// The digest of a state, in one pass over its balances.
pub fn digest(alloc: Global, state: &State) -> Result<[u8; 32], NoMemory>
    ensures { IfOk result (λ d. d ≡ digest_of state.now) }
{
    let mut hashers = new_hashers(alloc)?;
    for holding in state.holdings() {
        put_cell(&mut hashers, holding);
    }
    let mut hasher = Sha256::new();
    hasher.update(&digest_of_no_contracts());
    hash_buckets(&mut hasher, &hashers)?;
    Ok(hasher.finalize())
}
