//! The digest of a state, and digests that are kept from one state to the next.

ghost use Rattle.std.specs.Prelude.{◌≡◌, ◌+◌, ◌<◌, ℕ, true, false, IfOk, IsErr, OnOk, OnErr};
ghost use Rattle.ledger_state.specs.Ledger.{Ledger as ledger};
ghost use Rattle.state_digest.specs.Digest.{book_digest, digest_of};
ghost use Rattle.state_digest.specs.Digests.{AreDigestsBefore, AreDigestsOf, how_many, is_touched};

use crate::buckets::{BUCKETS, blank_buckets, hash_marked, marked_buckets};
use crate::rows::Rows;
use crate::shelves::{Shelf, renew, shelve};
use crate::steps::Steps;
use crate::touched::in_order;
use cell_names::{Cell, NoMemory};
use code_book::Book;
use ledger_state::{State, put_book};
use sha2::{Digest, Sha256};
use std::alloc::{AllocError, Global};
use std::collections::VecDeque;
use std::marker::Brand;
use std::mem;
use std::sync::ledger::{Blank, Ledger};

/// The digests of a state's book and of its buckets, and what an update to another state needs.
#[derive(Drop)]
pub struct Digests {
    book: [u8; 32],
    buckets: Vec<[u8; 32]>,
    shelves: VecDeque<Shelf>,
    // An update ran out of memory, so these are no state's any more.
    spent: bool,
}

impl Digests {
    /// The digests of a state, in 256 steps.
    pub fn of<L: Ledger>(
        alloc: Global,
        s: &State,
        steps: &mut Steps<L>,
    ) -> Result<Digests, NoMemory>
        ensures digests { IfOk result (λ d. AreDigestsOf s.now d) }
        ensures steps { OnOk result (steps.new ≡ steps.old + 256) }
    {
        let book = digest_of_book(alloc, s.book())?;
        let mut texts = blank_buckets(alloc, true)?;
        let mut rows = Rows::of(s);
        let mut shelves = VecDeque::new(alloc);
        shelve(alloc, &mut rows, None, &mut texts, &mut shelves)?;
        let mut buckets = vec![in alloc; [0; 32]; BUCKETS]?;
        hash_marked(&texts, &mut buckets, steps);
        Ok(Digests {
            book,
            buckets,
            shelves,
            spent: false,
        })
    }

    /// From the digests of a state before to those of this state, which has the same book and
    /// differs at most in the touched cells: in as many steps as these have different buckets.
    pub fn update<L: Ledger>(
        &mut self,
        alloc: Global,
        s: &State,
        touched: &[Cell],
        steps: &mut Steps<L>,
    ) -> Result<(), NoMemory>
        requires { self.old.spent ≡ false → AreDigestsBefore s.now touched.now self.old }
        ensures digests { OnOk result (AreDigestsOf s.now self.new) }
        ensures steps { OnOk result (steps.new
            ≡ steps.old + how_many (is_touched touched.now) 256) }
        ensures spent { OnErr result (self.new.spent ≡ true) }
        ensures stays { self.old.spent ≡ true → IsErr result }
    {
        if self.spent {
            return Err(AllocError);
        }
        self.spent = true;
        let mut texts = marked_buckets(alloc, touched)?;
        let order = in_order(alloc, touched)?;
        let mut rows = Rows::of(s);
        let old = mem::replace(&mut self.shelves, VecDeque::new(alloc));
        self.shelves = renew(alloc, &mut rows, old, &order, &mut texts)?;
        hash_marked(&texts, &mut self.buckets, steps);
        self.spent = false;
        Ok(())
    }

    /// The digest of the state whose digests these are.
    #[tactic(auto, unfolding(crate::specs::Digest::digest_of))]
    pub fn root(&self) -> [u8; 32]
        requires { self.now.spent ≡ false }
        ensures { (s : ledger) → AreDigestsOf s self.now → result ≡ digest_of s }
    {
        let mut hasher = Sha256::new();
        hasher.update(&self.book);
        for digest in &self.buckets {
            hasher.update(digest);
        }
        hasher.finalize()
    }
}

#[tactic(auto, unfolding(crate::specs::Digest::book_digest))]
fn digest_of_book(alloc: Global, book: &Book) -> Result<[u8; 32], NoMemory>
    ensures { IfOk result (λ d. d ≡ book_digest book.now) }
{
    let mut text = Vec::new(alloc);
    put_book(alloc, book, &mut text)?;
    Ok(Sha256::digest(&text))
}

/// The digest of a state.
pub fn digest(alloc: Global, s: &State) -> Result<[u8; 32], NoMemory>
    ensures { IfOk result (λ d. d ≡ digest_of s.now) }
{
    digest_by::<Brand>(alloc, s, Blank::new(1))
}

// The steps aren't asked for.
fn digest_by<L: Ledger>(alloc: Global, s: &State, blank: Blank) -> Result<[u8; 32], NoMemory>
    requires name { blank.name ≡ L.name }
    requires parts { blank.parts ≡ L.parts }
    requires some { 0 < blank.parts }
    ensures { IfOk result (λ d. d ≡ digest_of s.now) }
{
    let mut steps = Steps::<L>::new(blank);
    let digests = Digests::of(alloc, s, &mut steps)?;
    Ok(digests.root())
}
