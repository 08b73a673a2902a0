//! What transfers keep.
ghost use Rattle.std.specs.Prelude.{◌≡◌, List};
ghost use Rattle.std.specs.List.{AllByRecursion};
ghost use Rattle.plain_ledger.specs.Ledger.{AreBalances, Ledger, supply};
ghost use Rattle.transfer_blocks.specs.declared.transfer.Transfer.{Transfer};
ghost use Rattle.plain_transfers.specs.Run.{IsPlain, run_all};

/// After every transfer there is as much as before, and the balances are lawful.
pub fn supply_is_kept()
    ensures supply { (s : Ledger) (ops : List Transfer) → AreBalances s.balances
        → AllByRecursion IsPlain ops → supply (run_all s ops).balances ≡ supply s.balances }
    ensures lawful { (s : Ledger) (ops : List Transfer) → AreBalances s.balances
        → AllByRecursion IsPlain ops → AreBalances (run_all s ops).balances }
{}
