//! A ledger in memory, and the next one made from it.

ghost use Rattle.std.specs.Prelude.{◌≡◌, ◌<◌, ◌^◌, ◌↔◌, length, All, IfOk, IsTrue, map};
ghost use Rattle.std.specs.FinMap.{entries, len};
ghost use Rattle.cell_names.specs.Accounts.{IsImplicit};
ghost use Rattle.plain_ledger.specs.Ledger.{AreBalances, Ascends, balance, changed, pair, supply};
ghost use Rattle.plain_ledger.specs.Holdings.{AreHoldings, ledger_from};

use crate::holding::Holding;
use crate::merge::{amount_in, merged, place_in, same_holdings};
use cell_names::{Head, NoMemory};
use std::alloc::Global;
use std::marker::Model;
use value_core::Address;

/// A ledger: its holdings ascend by address, and together stay below 2^63.
#[derive(Drop)]
pub struct State {
    head: Head,
    holdings: Vec<Holding>,
}

impl Model for State {
    ghost use Rattle.plain_ledger.specs.Ledger.{Ledger, ledger_code};

    ghost Value = { Ledger };

    ghost coded = { ledger_code };

    ghost use Rattle.plain_ledger.specs.Holdings.{AreHoldings, ledger_from};

    ghost view = { λ s. ledger_from s.head.level s.head.now s.holdings.items };

    ghost invariant = { λ s. AreHoldings s.holdings.items };
}

impl State {
    /// The state of these holdings.
    pub(crate) fn of(head: Head, holdings: Vec<Holding>) -> State
        requires { AreHoldings holdings.items }
        ensures { result ≡ ledger_from head.level head.now holdings.items }
    {
        State { head, holdings }
    }

    /// The level and `now`.
    pub fn head(&self) -> Head
        ensures level { result.level ≡ self.now.level }
        ensures now { result.now ≡ self.now.now }
    {
        self.head
    }

    /// An equal state.
    pub fn copy(&self, alloc: Global) -> Result<State, NoMemory>
        ensures { IfOk result (λ s. s ≡ self.now) }
    {
        let holdings = self.holdings.clone()?;
        let head = self.head;
        Ok(State { head, holdings })
    }

    /// Whether two states are equal.
    pub fn same(&self, other: &State) -> bool
        ensures { IsTrue result ↔ (self.now ≡ other.now) }
    {
        self.head == other.head && same_holdings(&self.holdings, &other.holdings)
    }

    /// What each account has, ascending by address.
    pub fn holdings(&self) -> &[Holding]
        ensures pairs { map pair result.now ≡ entries self.now.balances }
        ensures count { length result.now ≡ len self.now.balances }
        ensures ascend { Ascends result.now }
        ensures lawful { AreBalances self.now.balances }
    {
        &self.holdings
    }

    /// What the account of this address has.
    pub fn balance(&self, address: &Address) -> u64
        ensures { result ≡ balance self.now.balances address.now }
    {
        let holdings = self.holdings.as_slice();
        let (_, back) = holdings.split_at(place_in(holdings, address));
        amount_in(back, address)
    }

    /// The state with this head where each account of `changes` has the amount that stands there.
    pub fn with_balances(
        &self,
        alloc: Global,
        head: Head,
        changes: &[Holding],
    ) -> Result<State, NoMemory>
        requires ascend { Ascends changes.now }
        requires accounts { All (λ c. IsImplicit c.address) changes.now }
        requires within { supply (changed self.now.balances changes.now) < 2 ^ 63 }
        ensures { IfOk result (λ s. s ≡ record {
          level = head.level;
          now = head.now;
          balances = changed self.now.balances changes.now;
        }) }
    {
        let holdings = merged(alloc, &self.holdings, changes)?;
        Ok(State { head, holdings })
    }
}
