//! The contracts of a state, by address.

ghost use Rattle.std.specs.Prelude.{◌≡◌, ◌↔◌, IsTrue, IfOk, IfErr, IfSome, OnOk, OnErr, Ok, Err, None, MatchOption};
ghost use Rattle.std.specs.Option.{option_copied, option_map};
ghost use Rattle.std.specs.FinMap.{empty, get, insert, len};
ghost use Rattle.code_book.specs.Books.{IsBook, IsListed};
ghost use Rattle.code_book.specs.Adding.{refusal, IsTold, is_too_long};
ghost use Rattle.code_book.specs.Successors.{IsNext, NoneAbove};
ghost use Rattle.code_book.specs.Entries.{entry_of, found, implicit_entry};

use crate::account::is_implicit;
use crate::fault::{BookEnd, NoEntry};
use crate::listing::{copy_row, place, place_above, put, same_row};
use michelson_code::{Script, Typed};
use michelson_reader::print_script;
use std::alloc::{AllocError, Global};
use std::marker::Model;
use value_core::{Address, Name, Ty};

/// How many contracts a book may have.
pub const MOST_CONTRACTS: usize = 1024;

/// How many bytes a text has at least that is too long.
const TEXT_END: u64 = 1 << 32;

/// The scripts of contracts, by address.
#[derive(Debug, Drop)]
pub struct Book {
    contracts: Vec<(Address, Typed)>,
    // What the entry of an implicit account takes.
    unit: Ty,
}

impl Model for Book {
    ghost use Rattle.std.specs.Coded.{coded_ℕ, coded_list};
    ghost use Rattle.std.specs.FinMap as finmap;
    ghost use Rattle.michelson_code.specs.contracts.script.Script as script;
    ghost use Rattle.code_book.specs.Books.{Contracts};

    ghost Value = { Contracts };

    ghost coded = { finmap.code (coded_list coded_ℕ) script.the_row.coded };

    ghost use Rattle.code_book.specs.Listing.{book_of, IsRow};

    ghost view = { λ b. book_of b.contracts.items };

    ghost invariant = { λ b. IsRow b.contracts.items b.unit };
}

impl Book {
    /// A book without contracts. It takes no memory.
    pub fn new(alloc: Global) -> Book
        ensures { result ≡ empty }
    {
        Book {
            contracts: Vec::new(alloc),
            unit: Ty::Unit,
        }
    }

    /// Adds a contract, or tells the first reason against it.
    pub fn add(&mut self, alloc: Global, a: Address, t: Typed) -> Result<(), BookEnd>
        ensures added { OnOk result (self.new ≡ insert self.old a t.script) }
        ensures free { OnOk result (refusal self.old a t.script ≡ None) }
        ensures told { IfErr result (λ end. IsTold end (refusal self.old a t.script)) }
        ensures unchanged { OnErr result (self.new ≡ self.old) }
    {
        if is_implicit(&a) {
            return Err(BookEnd::NotContract);
        }
        let row = self.contracts.as_slice();
        match place(row, &a) {
            Ok(_) => Err(BookEnd::Taken),
            Err(i) => {
                if row.len() >= MOST_CONTRACTS {
                    return Err(BookEnd::Full);
                }
                let long = is_too_long(alloc, t.script())?;
                if long {
                    return Err(BookEnd::TooLong);
                }
                put(&mut self.contracts, i, a, t)?;
                Ok(())
            }
        }
    }

    /// How many contracts there are.
    pub fn len(&self) -> usize
        ensures length { result ≡ len self.now }
        ensures book { IsBook self.now }
    {
        self.contracts.as_slice().len()
    }

    /// Whether there is no contract.
    pub fn is_empty(&self) -> bool
        ensures { IsTrue result ↔ (self.now ≡ empty) }
    {
        self.contracts.as_slice().is_empty()
    }

    /// The contract with the least address above `a`, or with the least of all.
    pub fn after(&self, a: Option<&Address>) -> Option<(&Address, &Typed)>
        ensures { MatchOption result (NoneAbove self.now (option_copied a.entry))
            (λ next. IsNext self.now (option_copied a.entry) next.0.now next.1.now.script) }
    {
        let row = self.contracts.as_slice();
        match row.get(place_above(row, a)) {
            Some(contract) => Some((&contract.0, &contract.1)),
            None => None,
        }
    }

    /// The script of a contract, where the book has one.
    pub fn code(&self, a: &Address) -> Option<&Typed>
        ensures script { option_map (λ t. t.now.script) result ≡ get self.now a.now }
        ensures listed { IfSome result (λ t. IsListed a.now t.now.script) }
    {
        match place(self.contracts.as_slice(), a) {
            Ok(i) => Some(&self.contracts[i].1),
            Err(_) => None,
        }
    }

    /// What the entry of that name takes, of a contract or an implicit account.
    pub fn entry(&self, a: &Address, n: &Name) -> Result<&Ty, NoEntry>
        ensures takes { IfOk result (λ t. entry_of self.now a.now n.now ≡ Ok t.now) }
        ensures missing { IfErr result (λ end. entry_of self.now a.now n.now ≡ Err end) }
    {
        if is_implicit(a) {
            return self.implicit_entry(n);
        }
        match self.code(a) {
            None => Err(NoEntry::NoSuchContract),
            Some(t) => match t.entry(n) {
                Some(takes) => Ok(takes),
                None => Err(NoEntry::NoSuchEntry),
            },
        }
    }

    fn implicit_entry(&self, n: &Name) -> Result<&Ty, NoEntry>
        ensures takes { IfOk result (λ t. found (implicit_entry n.now) ≡ Ok t.now) }
        ensures missing { IfErr result (λ end. found (implicit_entry n.now) ≡ Err end) }
    {
        if n.bytes() == b"default".as_slice() {
            Ok(&self.unit)
        } else {
            Err(NoEntry::NoSuchEntry)
        }
    }
}

impl Book {
    /// An equal book.
    pub fn copy(&self, alloc: Global) -> Result<Book, AllocError>
        ensures { IfOk result (λ book. book ≡ self.now) }
    {
        let contracts = copy_row(alloc, self.contracts.as_slice())?;
        Ok(Book {
            contracts,
            unit: Ty::Unit,
        })
    }

    /// Whether both have the same scripts at the same addresses.
    pub fn same(&self, other: &Book) -> bool
        ensures { IsTrue result ↔ (self.now ≡ other.now) }
    {
        same_row(self.contracts.as_slice(), other.contracts.as_slice())
    }
}

/// Whether the text has a length that four bytes don't hold. The text is printed to measure it.
#[tactic(auto, unfolding(crate::specs::Books::text_length))]
fn is_too_long(alloc: Global, s: &Script) -> Result<bool, AllocError>
    ensures { IfOk result (λ long. long ≡ is_too_long s.now) }
{
    let text = print_script(alloc, s)?;
    Ok(text.len() as u64 >= TEXT_END)
}
