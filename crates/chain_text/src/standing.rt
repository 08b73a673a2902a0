//! What stands after the lines so far, and a function for each kind of line.

ghost use Rattle.std.specs.Prelude.{◌≡◌, ◌+◌, ◌<◌, ◌^◌, true, false, length, IfOk, None, OnOk};
ghost use Rattle.std.specs.FinMap.{get, insert, len};
ghost use Rattle.std.specs.FinSet as set;
ghost use Rattle.std.specs.FinSet.{contains};
ghost use Rattle.micheline_text.specs.Told.{AnswersUnlessFull};
ghost use Rattle.cell_names.specs.declared.cell.Cell.TheVariants as named;
ghost use Rattle.cell_names.specs.Accounts.{is_implicit};
ghost use Rattle.cell_names.specs.Supply.{money_of, supply};
ghost use Rattle.code_book.specs.Books.{has_account};
ghost use Rattle.code_book.specs.Fits.{fits};
ghost use Rattle.code_book.specs.declared.book.TheConstants.{MOST_CONTRACTS as most_contracts};
ghost use Rattle.chain_text.specs.Genesis.{balance_line, contract_line, line, new_contract, storage_line, with_contract};
ghost use Rattle.chain_text.specs.Standing.{nothing, with_entries, with_storage};
ghost use Rattle.chain_text.specs.Inside.{line_kind};
ghost use Rattle.chain_text.specs.Rows.{AreFree, IsSeen};

use crate::addresses::is_implicit;
use crate::contents::{Kept, script_of, storage_of};
use crate::fault::{ChainKind, LineEnd};
use crate::groups::Group;
use crate::seen::Seen;
use crate::words::Words;
use cell_names::Cell;
use code_book::{Book, BookEnd, MOST_CONTRACTS};
use michelson_code::Typed;
use std::alloc::Global;
use std::marker::Model;
use value_core::{Address, NoMemory, Val};

/// The greatest amount, and the most that all balances are together.
const MOST_MONEY: u64 = (1 << 63) - 1;

/// The contracts and cells so far.
#[derive(Drop)]
pub(crate) struct Standing {
    pub(crate) book: Book,
    // The line of each contract, in the order of the lines.
    pub(crate) lines: Vec<(Address, u32)>,
    // The addresses that had a line of their balance, and of their storage.
    balanced: Seen,
    stored: Seen,
    // What stands in cells, in the order of the lines, and all balances together.
    pub(crate) rows: Vec<(Cell, Val)>,
    supply: u64,
}

impl Model for Standing {
    ghost use Rattle.std.specs.Prelude.{ℕ, List, refl};
    ghost use Rattle.std.specs.Coded.{code_by, coded×, coded_ℕ, coded_list};
    ghost use Rattle.std.specs.FinMap as finmap;
    ghost use Rattle.std.specs.FinSet as finset;
    ghost use Rattle.michelson_code.specs.contracts.script.Script as script;
    ghost use Rattle.cell_names.specs.contracts.cell.Cell as cell;
    ghost use Rattle.value_core.specs.contracts.val.Val as val;
    ghost use Rattle.cell_names.specs.Contents.{Contents};
    ghost use Rattle.code_book.specs.Books.{Contracts};
    ghost use Rattle.chain_text.specs.Standing as said;
    ghost use Rattle.chain_text.specs.Standing.{Addresses};
    ghost use Rattle.chain_text.specs.Rows.{AreRows, gathered};

    ghost Value = { said.Standing };

    ghost coded = { code_by ((Contracts × List (List ℕ × ℕ)) × ((Addresses × Addresses) × Contents))
        (coded× (coded× (finmap.code (coded_list coded_ℕ) script.the_row.coded)
        (coded_list (coded× (coded_list coded_ℕ) coded_ℕ)))
        (coded× (coded× (finset.code (coded_list coded_ℕ)) (finset.code (coded_list coded_ℕ)))
        (finmap.code cell.the_row.coded val.the_row.coded)))
        (λ s. ((s.book, s.lines), ((s.balanced, s.stored), s.cells)))
        (λ p. record { book = p.0.0; lines = p.0.1; balanced = p.1.0.0; stored = p.1.0.1; cells = p.1.1 })
        (λ _. refl) };

    ghost view = { λ s. record {
      book = s.book;
      lines = s.lines.items;
      balanced = s.balanced;
      stored = s.stored;
      cells = gathered finmap.empty s.rows.items;
    } };

    // So a state can be built of the rows, where each contract has its storage.
    ghost invariant = { λ s. AreRows s.book s.rows.items (gathered finmap.empty s.rows.items)
        s.balanced s.stored s.supply };
}

impl Standing {
    /// Nothing, before the first line.
    pub(crate) fn new(alloc: Global) -> Standing
        ensures { result ≡ nothing }
    {
        Standing {
            book: Book::new(alloc),
            lines: Vec::new(alloc),
            balanced: Seen::new(alloc),
            stored: Seen::new(alloc),
            rows: Vec::new(alloc),
            supply: 0,
        }
    }

    /// One more line with the script behind it.
    pub(crate) fn add(&mut self, alloc: Global, group: &Group<'_>) -> Result<(), LineEnd>
        ensures { AnswersUnlessFull line_kind (λ u. self.new) result (line self.old group.now) }
    {
        let mut words = Words::new(group.bytes);
        let verb = words.word()?;
        if verb == b"balance".as_slice() {
            self.balance(&mut words)
        } else if verb == b"contract".as_slice() {
            self.contract(alloc, group, &mut words)
        } else if verb == b"storage".as_slice() {
            self.storage(alloc, &mut words)
        } else {
            Err(LineEnd::Faulty(ChainKind::BadWord))
        }
    }

    /// `balance ADDR N`, behind its first word.
    fn balance(&mut self, words: &mut Words<'_>) -> Result<(), LineEnd>
        ensures { AnswersUnlessFull line_kind (λ u. self.new) result
            (balance_line self.old words.old) }
    {
        let address = words.address()?;
        if self.balanced.has(&address) {
            return Err(LineEnd::Faulty(ChainKind::Twice));
        }
        if !self.has_account(&address) {
            return Err(LineEnd::Faulty(ChainKind::Unknown));
        }
        let amount = words.number(MOST_MONEY)?;
        if amount > MOST_MONEY - self.supply {
            return Err(LineEnd::Faulty(ChainKind::TooMuch));
        }
        words.end()?;
        self.mark_balanced(address)?;
        if amount > 0 {
            self.put(Cell::Balance(address), Val::Mutez(amount), amount)?;
        }
        Ok(())
    }

    /// Whether the address may have a balance.
    fn has_account(&self, address: &Address) -> bool
        ensures { result ≡ has_account self.now.book address.now }
    {
        is_implicit(address) || self.book.code(address).is_some()
    }

    /// `contract ADDR`, behind its first word, and the script behind the line.
    fn contract(
        &mut self,
        alloc: Global,
        group: &Group<'_>,
        words: &mut Words<'_>,
    ) -> Result<(), LineEnd>
        ensures { AnswersUnlessFull line_kind (λ u. self.new) result
            (contract_line self.old group.now words.old) }
    {
        let address = self.new_contract(words)?;
        let Some(text) = group.script else {
            return Err(LineEnd::Faulty(ChainKind::NotClosed));
        };
        let Some(typed) = script_of(alloc, text)? else {
            return Err(LineEnd::Faulty(ChainKind::BadScript));
        };
        self.list(alloc, address, group.line, typed)
    }

    /// The address of a contract that isn't there, as the last word.
    fn new_contract(&self, words: &mut Words<'_>) -> Result<Address, ChainKind>
        ensures new { result ≡ new_contract self.now words.old }
        ensures contract { IfOk result (λ a. is_implicit a ≡ false) }
        ensures free { IfOk result (λ a. get self.now.book a ≡ None) }
        ensures room { OnOk result (len self.now.book < most_contracts) }
    {
        let address = words.address()?;
        if is_implicit(&address) {
            return Err(ChainKind::BadAddress);
        }
        if self.book.code(&address).is_some() {
            return Err(ChainKind::Twice);
        }
        if self.book.len() >= MOST_CONTRACTS {
            return Err(ChainKind::TooMuch);
        }
        words.end()?;
        Ok(address)
    }

    /// Lists a contract, if its script isn't too long.
    fn list(
        &mut self,
        alloc: Global,
        address: Address,
        line: u32,
        typed: Typed,
    ) -> Result<(), LineEnd>
        requires contract { is_implicit address ≡ false }
        requires free { get self.old.book address ≡ None }
        requires room { len self.old.book < most_contracts }
        ensures { AnswersUnlessFull line_kind (λ u. self.new) result
            (with_contract self.old address line typed.script) }
    {
        match self.book.add(alloc, address, typed) {
            Ok(()) => {
                self.lines.push((address, line))?;
                Ok(())
            }
            Err(BookEnd::NoMemory) => Err(LineEnd::NoMemory),
            Err(_) => Err(LineEnd::Faulty(ChainKind::TooMuch)),
        }
    }

    /// `storage ADDR DATA`, behind its first word.
    fn storage(&mut self, alloc: Global, words: &mut Words<'_>) -> Result<(), LineEnd>
        requires { length words.old < 2 ^ 32 }
        ensures { AnswersUnlessFull line_kind (λ u. self.new) result
            (storage_line self.old words.old) }
    {
        let address = words.address()?;
        let Some(typed) = self.book.code(&address) else {
            return Err(LineEnd::Faulty(ChainKind::Unknown));
        };
        if self.stored.has(&address) {
            return Err(LineEnd::Faulty(ChainKind::Twice));
        }
        if words.is_empty() {
            return Err(LineEnd::Faulty(ChainKind::BadWord));
        }
        let Some(kept) = storage_of(alloc, &typed.script().storage, words.left())? else {
            return Err(LineEnd::Faulty(ChainKind::BadData));
        };
        self.keep(address, kept)?;
        Ok(())
    }

    /// Keeps a contract's storage and the entries of its big maps.
    fn keep(&mut self, address: Address, kept: Kept) -> Result<(), NoMemory>
        requires fits { fits self.old.book (named.Storage address) kept.0 ≡ true }
        requires free { get self.old.cells (named.Storage address) ≡ None }
        requires entries { AreFree self.old.book self.old.cells address kept.1.items }
        ensures { OnOk result (self.new ≡ with_storage self.old address (kept.0, kept.1.items)) }
    {
        let (storage, entries) = kept;
        self.mark_stored(address)?;
        self.put(Cell::Storage(address), storage, 0)?;
        self.keep_entries(address, entries)
    }

    /// Keeps the entries of a contract's big maps.
    fn keep_entries(
        &mut self,
        address: Address,
        entries: Vec<(u8, Val, Val)>,
    ) -> Result<(), NoMemory>
        requires stored { contains self.old.stored address ≡ true }
        requires free { AreFree self.old.book self.old.cells address entries.items }
        ensures { OnOk result (self.new
            ≡ record self.old { cells = with_entries address entries.items self.old.cells }) }
    {
        for (place, key, value) in entries {
            self.put(Cell::Entry(address, place, key), value, 0)?;
        }
        Ok(())
    }

    /// Puts a value into a cell in which none stands.
    fn put(&mut self, cell: Cell, value: Val, amount: u64) -> Result<(), NoMemory>
        requires fits { fits self.old.book cell value ≡ true }
        requires free { get self.old.cells cell ≡ None }
        requires seen { IsSeen self.old.balanced self.old.stored cell }
        requires amount { amount ≡ money_of (cell, value) }
        requires within { 0 < amount → supply self.old.cells + amount < 2 ^ 63 }
        ensures { OnOk result (self.new
            ≡ record self.old { cells = insert self.old.cells cell value }) }
    {
        self.rows.push((cell, value))?;
        self.supply += amount;
        Ok(())
    }

    /// Notes that the balance of an address had a line.
    fn mark_balanced(&mut self, address: Address) -> Result<(), NoMemory>
        ensures { OnOk result (self.new
            ≡ record self.old { balanced = set.insert self.old.balanced address }) }
    {
        self.balanced.add(address)?;
        Ok(())
    }

    /// Notes that the storage of a contract had a line.
    fn mark_stored(&mut self, address: Address) -> Result<(), NoMemory>
        ensures { OnOk result (self.new
            ≡ record self.old { stored = set.insert self.old.stored address }) }
    {
        self.stored.add(address)?;
        Ok(())
    }
}
