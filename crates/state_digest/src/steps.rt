//! How many buckets were hashed.

ghost use Rattle.std.specs.Prelude.{◌≡◌, ◌+◌, ◌<◌};
ghost use Rattle.sha2.specs.Sha256.{sha256};

use sha2::{Digest, Sha256};
use std::marker::Model;
use std::sync::ledger::{Blank, Book, Ledger, Share};

/// How many buckets were hashed. It takes no bytes, and `hash_bucket` alone adds to it.
#[derive(Drop)]
pub struct Steps<L: Ledger> {
    book: Book<L>,
    share: Share<L>,
}

impl<L: Ledger> Model for Steps<L> {
    ghost use Rattle.std.specs.Prelude.{ℕ, ◌<◌};

    ghost Value = { ℕ };

    ghost view = { λ s. s.book.total };

    ghost invariant = { λ s. 0 < s.share.parts };
}

impl<L: Ledger> Steps<L> {
    /// No steps yet.
    pub fn new(blank: Blank) -> Steps<L>
        requires name { blank.name ≡ L.name }
        requires parts { blank.parts ≡ L.parts }
        requires some { 0 < blank.parts }
        ensures { result ≡ 0 }
    {
        let (book, share) = blank.open::<L>();
        Steps { book, share }
    }
}

/// One step: the SHA-256 of a bucket's bytes, which are its cells in order, each its name and its
/// value.
pub fn hash_bucket<L: Ledger>(bytes: &[u8], steps: &mut Steps<L>) -> [u8; 32]
    ensures digest { result ≡ sha256 bytes.now }
    ensures step { steps.new ≡ steps.old + 1 }
{
    let Steps { book, share } = steps;
    book.add(share, 1);
    Sha256::digest(bytes)
}
