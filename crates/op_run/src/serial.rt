//! An operation run on a store, where a failure undoes all of it.

ghost use Rattle.std.specs.Prelude.{◌≡◌, ◌≢◌, ◌++◌, ◌∷◌, [], IfOk, OnOk, OnErr, MatchBool, Err, None};
ghost use Rattle.cell_names.specs.declared.cell.Cell.{Cell};
ghost use Rattle.cell_names.specs.declared.store.StoreEnd.TheVariants.{Outside};
ghost use Rattle.cell_names.specs.Conditions.{CanAccess, Lends};
ghost use Rattle.cell_names.specs.Effects.{cell_of};
ghost use Rattle.cell_names.specs.Stores.{IsAsBefore, Stays};
ghost use Rattle.code_book.specs.Ownership.{IsBookOf};
ghost use Rattle.op_rules.specs.Operations.{IsLawful};
ghost use Rattle.op_run.specs.OnStores.{IsFirstUnlent, Ran, serial_on};
ghost use Rattle.op_run.specs.Promise.{awaited_by};
ghost use Rattle.op_run.specs.SerialTurns.{Goes, HasEnded, IsNearer, IsUnderWay, IsUnlentFor, Makes, MayGoBack};

use crate::advance::Next;
use crate::run::OpRun;
use cell_names::{Access, Footprint, Head, Reply, Store, StoreEnd};
use code_book::Book;
use inverse_log::InverseLog;
use op_rules::{Op, Receipt};
use std::alloc::Global;

/// Runs an operation on a store. After an error or a failed receipt the store is as before.
pub fn run_serial<S: Store>(
    alloc: Global,
    book: &Book,
    head: Head,
    store: &mut S,
    op: &Op,
) -> Result<(Receipt, Footprint), StoreEnd>
    requires lawful { IsLawful op.now }
    requires owned { IsBookOf book.now (S.seen store.old) }
    ensures ran { IfOk result (λ (receipt, footprint).
        Ran book.now head op.now (S.seen store.old) receipt footprint (S.seen store.new)) }
    ensures outside { (c : Cell) → result ≡ Err (Outside c)
        → IsFirstUnlent (S.seen store.old) (serial_on book.now head op.now (S.seen store.old)).course.past c }
    ensures failed { OnErr result (IsAsBefore (S.seen store.old) (S.seen store.new)) }
    ensures undone { IfOk result (λ (receipt, _). receipt.end ≢ None
        → IsAsBefore (S.seen store.old) (S.seen store.new)) }
    ensures stays { Stays (S.seen store.old) (S.seen store.new) }
    ensures kept { IsBookOf book.now (S.seen store.new) }
{
    let mut log = InverseLog::new(alloc);
    let mut run = OpRun::start(alloc, book, head, op)?;
    match finish(alloc, &mut run, store, &mut log) {
        Ok(()) => {
            let (receipt, footprint) = run.into_parts();
            if receipt.end.is_none() {
                return Ok((receipt, footprint));
            }
            // Nothing of a failed operation stays.
            log.undo_all(store);
            Ok((receipt, footprint))
        }
        Err(refusal) => {
            log.undo_all(store);
            Err(refusal)
        }
    }
}

/// Runs to the end.
fn finish<S: Store>(
    alloc: Global,
    run: &mut OpRun<'_>,
    store: &mut S,
    log: &mut InverseLog,
) -> Result<(), StoreEnd>
    requires free { awaited_by run.old ≡ None }
    requires along { IsUnderWay run.old log.old.entries (S.seen store.old) }
    ensures goes { OnOk result (Goes run.old log.old.entries (S.seen store.old) run.new log.new.entries (S.seen store.new)) }
    ensures ended { OnOk result (HasEnded run.new) }
    ensures back { OnErr result (MayGoBack run.old log.old.entries (S.seen store.old) log.new.entries (S.seen store.new)) }
    ensures outside { (c : Cell) → result ≡ Err (Outside c)
        → IsUnlentFor run.old log.old.entries (S.seen store.old) c }
{
    'turns: while turn(alloc, run, store, log)? {}
    Ok(())
}

/// Runs to the next access and makes it; false at the end.
fn turn<S: Store>(
    alloc: Global,
    run: &mut OpRun<'_>,
    store: &mut S,
    log: &mut InverseLog,
) -> Result<bool, StoreEnd>
    requires free { awaited_by run.old ≡ None }
    requires along { IsUnderWay run.old log.old.entries (S.seen store.old) }
    ensures goes { OnOk result (Goes run.old log.old.entries (S.seen store.old) run.new log.new.entries (S.seen store.new)) }
    ensures more { IfOk result (λ more. MatchBool more (IsNearer run.old run.new) (HasEnded run.new)) }
    ensures back { OnErr result (MayGoBack run.old log.old.entries (S.seen store.old) log.new.entries (S.seen store.new)) }
    ensures outside { (c : Cell) → result ≡ Err (Outside c)
        → IsUnlentFor run.old log.old.entries (S.seen store.old) c }
{
    match run.advance(alloc) {
        Err(_) => Err(StoreEnd::NoMemory),
        Ok(Next::Done) => Ok(false),
        Ok(Next::Ask(access)) => match make(alloc, store, log, &access) {
            Err(end) => Err(end),
            Ok(reply) => match run.reply(alloc, reply) {
                Err(_) => Err(StoreEnd::NoMemory),
                Ok(()) => Ok(true),
            },
        },
    }
}

/// Makes an access, and notes what takes it back.
fn make<S: Store>(
    alloc: Global,
    store: &mut S,
    log: &mut InverseLog,
    access: &Access,
) -> Result<Reply, StoreEnd>
    requires { CanAccess (S.seen store.old) access.now }
    ensures stays { Stays (S.seen store.old) (S.seen store.new) }
    ensures made { IfOk result (λ reply.
        Makes (S.seen store.old) access.now reply log.old.entries log.new.entries (S.seen store.new)) }
    ensures unmade { OnErr result (IsAsBefore (S.seen store.old) (S.seen store.new)) }
    ensures unnoted { OnErr result (log.new.entries ≡ log.old.entries) }
    ensures outside { (c : Cell) → result ≡ Err (Outside c)
        → (c ≡ cell_of access.now) × (¬ Lends (S.seen store.old) access.now) }
{
    if log.reserve(1).is_err() {
        return Err(StoreEnd::NoMemory);
    }
    match store.access(alloc, access) {
        Err(end) => Err(end),
        Ok((reply, undo)) => {
            log.note(undo);
            Ok(reply)
        }
    }
}
