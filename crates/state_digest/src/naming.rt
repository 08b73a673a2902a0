//! The bucket of a cell.

ghost use Rattle.std.specs.Prelude.{◌≡◌, ◌∷◌, ◌++◌, IfOk};
ghost use Rattle.std.specs.Int.{w8, to_be_bytes};
ghost use Rattle.sha2.specs.Sha256.{sha256};
ghost use Rattle.cell_names.specs.Spelling.{spell_cell};
ghost use Rattle.state_digest.specs.Digest.{bucket_of};

use cell_names::{Cell, NoMemory};
use sha2::{Digest, Sha256};
use std::alloc::Global;
use value_codec::spelling;
use value_core::Address;

/// The number of a cell's bucket.
#[tactic(auto, unfolding(crate::specs::Digest::bucket_of))]
pub(crate) fn bucket(alloc: Global, c: &Cell) -> Result<u8, NoMemory>
    ensures { IfOk result (λ k. k ≡ bucket_of c.now) }
{
    let digest = name_digest(alloc, c)?;
    Ok(digest[0])
}

fn name_digest(alloc: Global, c: &Cell) -> Result<[u8; 32], NoMemory>
    ensures { IfOk result (λ d. d ≡ sha256 (spell_cell c.now)) }
{
    match c {
        Cell::Balance(address) => Ok(account_digest(0, address)),
        Cell::Storage(address) => Ok(account_digest(1, address)),
        Cell::Entry(address, place, key) => {
            let key = spelling(alloc, key)?;
            Ok(entry_digest(address, *place, &key))
        }
    }
}

fn account_digest(kind: u8, address: &Address) -> [u8; 32]
    ensures { result ≡ sha256 (kind ∷ address.now) }
{
    let mut hasher = Sha256::new();
    hasher.update(&[kind]);
    hasher.update(address.bytes());
    hasher.finalize()
}

fn entry_digest(address: &Address, place: u8, key: &[u8]) -> [u8; 32]
    ensures { result ≡ sha256 (2 ∷ (address.now ++ (to_be_bytes w8 place ++ key.now))) }
{
    let mut hasher = Sha256::new();
    hasher.update(&[2]);
    hasher.update(address.bytes());
    hasher.update(&[place]);
    hasher.update(key);
    hasher.finalize()
}
