//! A state's balances, with what changed kept apart.
ghost use Rattle.std.specs.Prelude.{◌≡◌, IfOk, OnOk, OnErr};
ghost use Rattle.cell_names.specs.Accounts.{IsImplicit};
ghost use Rattle.plain_ledger.specs.Ledger.{AreBalances, balance, supply};
ghost use Rattle.plain_transfers.specs.Serial.{serial};

use crate::changes::{Changes, balance_in, holdings_of, pay};
use cell_names::{Cell, Footprint, Mode};
use plain_ledger::{Head, NoMemory, State};
use std::alloc::Global;
use std::collections::BTreeMap;
use std::marker::Model;
use transfer_blocks::{Receipt, Transfer};
use value_core::Address;

const APPLIED: Receipt = Receipt {
    applied: true,
    gas: 0,
};

const TOO_LOW: Receipt = Receipt {
    applied: false,
    gas: 0,
};

/// A state's balances after some transfers.
#[derive(Drop)]
pub struct Overlay<'a> {
    state: &'a State,
    changes: Changes,
}

impl<'a> Model for Overlay<'a> {
    ghost use Rattle.plain_ledger.specs.Ledger.{Balances};
    ghost use Rattle.std.specs.FinMap as finmap;
    ghost use Rattle.std.specs.Coded.{coded_ℕ, coded_list};

    ghost Value = { Balances };

    ghost coded = { finmap.code (coded_list coded_ℕ) coded_ℕ };

    ghost use Rattle.plain_transfers.specs.Changes.{over, AreChanges};

    ghost view = { λ o. over o.state.now.balances o.changes.entries };

    ghost invariant = { λ o. AreChanges o.state.now.balances o.changes.entries };
}

impl<'a> Overlay<'a> {
    /// The balances of a state.
    pub fn new(alloc: Global, state: &'a State) -> Overlay<'a>
        ensures { result ≡ state.now.balances }
    {
        // What every state keeps is told by its holdings.
        let _lawful = state.holdings();
        Overlay {
            state,
            changes: BTreeMap::new(alloc),
        }
    }

    /// What the account of this address has.
    pub fn balance(&self, address: &Address) -> u64
        ensures { result ≡ balance self.now address.now }
    {
        balance_in(self.state, &self.changes, address)
    }
}

impl Overlay<'_> {
    /// Runs a transfer. It wants memory for the footprint, and for accounts that change for the
    /// first time.
    pub fn run(
        &mut self,
        alloc: Global,
        transfer: &Transfer,
    ) -> Result<(Receipt, Footprint), NoMemory>
        requires source { IsImplicit transfer.now.source }
        requires dest { IsImplicit transfer.now.dest }
        ensures balances { OnOk result (self.new ≡ (serial self.old transfer.now).balances) }
        ensures receipt { IfOk result (λ r. r.0 ≡ (serial self.old transfer.now).receipt) }
        ensures footprint { IfOk result (λ r. r.1 ≡ (serial self.old transfer.now).footprint) }
        ensures unchanged { OnErr result (self.new ≡ self.old) }
        ensures supply { supply self.new ≡ supply self.old }
        ensures lawful { AreBalances self.new }
    {
        let _ = &self.state;
        let mut footprint = Footprint::new(alloc);
        if transfer.amount == 0 {
            return Ok((APPLIED, footprint));
        }
        footprint.touch(alloc, &Cell::Balance(transfer.source), Mode::Own)?;
        if self.balance(&transfer.source) < transfer.amount {
            return Ok((TOO_LOW, footprint));
        }
        // The footprint first: behind the payment nothing can fail.
        footprint.touch(alloc, &Cell::Balance(transfer.dest), Mode::Credit)?;
        pay(
            self.state,
            &mut self.changes,
            transfer.source,
            transfer.dest,
            transfer.amount,
        )?;
        Ok((APPLIED, footprint))
    }

    /// The state with this head and these balances.
    pub fn finish(&self, alloc: Global, head: Head) -> Result<State, NoMemory>
        ensures { IfOk result (λ s.
            s ≡ record { level = head.level; now = head.now; balances = self.now }) }
    {
        let changes = holdings_of(alloc, &self.changes)?;
        self.state.with_balances(alloc, head, &changes)
    }
}
