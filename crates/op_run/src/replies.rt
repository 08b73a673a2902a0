//! What a run does with a reply.

ghost use Rattle.std.specs.Prelude.{◌≡◌, ◌≤◌, ◌<◌, ◌+◌, ◌*◌, true, None, Some, OnOk, OnErr, IfOk, IsTrue};
ghost use Rattle.op_rules.specs.Replies.{can_get, flight_of};
ghost use Rattle.op_run.specs.Phases.{answer_in};
ghost use Rattle.std.specs.List.{AllByRecursion};
ghost use Rattle.cell_names.specs.Contents.{Contents};
ghost use Rattle.cell_names.specs.declared.access.Access.{Access};
ghost use Rattle.op_run.specs.Safe.{IsMoney, Safe};
ghost use Rattle.op_run.specs.Sound.{Calls, Enters, Looks, SoundThen};
ghost use Rattle.op_run.specs.Resumed.{ResumedSafe, ResumedSame, ResumedSound};
ghost use Rattle.op_run.specs.States.{Stays, awaited};
ghost use Rattle.op_run.specs.Steps.{transfer_work, work, work_then};

use crate::phase::{Code, Phase, Then};
use crate::state::State;
use cell_names::{Access, Cell, Reply, amount_in};
use michelson_code::{Typed, Why};
use op_rules::Transfer;
use std::alloc::Global;
use value_core::{NoMemory, Val};

/// What the reply to a look is for the code that looked.
fn answer_in(alloc: Global, access: &Access, r: &Reply) -> Result<Option<Val>, NoMemory>
    ensures { IfOk result (λ answer. answer ≡ answer_in access.now r.now) }
{
    match (access, r) {
        (Access::Read(Cell::Balance(_)), Reply::Value(held)) => {
            Ok(Some(Val::Mutez(amount_in(held))))
        }
        (_, Reply::Value(Some(v))) => Ok(Some(v.copy(alloc)?)),
        _ => Ok(None),
    }
}

impl<'a> State<'a> {
    /// The sender of a transfer was debited, or had too little.
    fn debited(&mut self, t: Transfer, r: &Reply)
        requires entered { Enters self.old.book.now t }
        requires flight { flight_of self.old.log ≡ 0 }
        ensures stays { Stays self.old self.new }
        ensures sound { ResumedSound self.old (Access.Debit t.sender t.amount) r.now self.new }
        ensures free { awaited self.new ≡ None }
        ensures same { (a : Access)
            → ResumedSame self.old a (Then.Debited t) r.now self.new }
        ensures safe { (m : Contents) → IsMoney t → AllByRecursion IsMoney self.old.pending
            → Safe self.new m }
        ensures less { work self.new < transfer_work * self.old.calls + work_then (Then.Debited t) }
    {
        match r {
            Reply::Low => self.end(Some(Why::BalanceTooLow)),
            Reply::Done => self.go_on(Phase::Crediting(t)),
            Reply::Value(_) => self.end(Some(Why::NoSuchContract)),
        }
    }

    /// A storage was read, and the code begins on it.
    fn stored(
        &mut self,
        alloc: Global,
        t: Transfer,
        code: &'a Typed,
        r: &Reply,
    ) -> Result<(), NoMemory>
        requires called { Calls self.old.book.now t code.now.script }
        requires flight { flight_of self.old.log ≡ 0 }
        requires given { IsTrue (can_get self.old.book.now (Access.Read (Cell.Storage t.dest)) r.now) }
        ensures stays { OnOk result (Stays self.old self.new) }
        ensures sound { OnOk result (ResumedSound self.old (Access.Read (Cell.Storage t.dest)) r.now self.new) }
        ensures free { OnOk result (awaited self.new ≡ None) }
        ensures same { OnOk result ((a : Access)
            → ResumedSame self.old a (Then.Stored t code.entry) r.now self.new) }
        ensures safe { OnOk result ((m : Contents) → IsMoney t
            → AllByRecursion IsMoney self.old.pending → Safe self.new m) }
        ensures less { OnOk result (work self.new
            < transfer_work * self.old.calls + work_then (Then.Stored t code.entry)) }
        ensures spent { OnErr result (self.new.phase ≡ self.old.phase) }
    {
        match r {
            Reply::Value(Some(v)) => {
                self.go_on(Phase::Starting(t, code, v.copy(alloc)?));
            }
            Reply::Value(None) | Reply::Done | Reply::Low => self.fail(Why::NoSuchContract),
        }
        Ok(())
    }

    /// A cell was read for a code, which goes on.
    fn looked(
        &mut self,
        alloc: Global,
        access: &Access,
        code: Code<'a>,
        r: &Reply,
    ) -> Result<(), NoMemory>
        requires looks { Looks self.old.book.now code access.now }
        requires flight { flight_of self.old.log ≡ 0 }
        ensures stays { OnOk result (Stays self.old self.new) }
        ensures sound { OnOk result (ResumedSound self.old access.now r.now self.new) }
        ensures free { OnOk result (awaited self.new ≡ None) }
        ensures same { OnOk result (ResumedSame self.old access.now (Then.Looked code.entry) r.now self.new) }
        ensures safe { OnOk result (ResumedSafe self.old access.now (Then.Looked code.entry) r.now self.new) }
        ensures less { OnOk result (work self.new
            < transfer_work * self.old.calls + work_then (Then.Looked code.entry)) }
        ensures spent { OnErr result (self.new.phase ≡ self.old.phase) }
    {
        let mut code = code;
        let answer = answer_in(alloc, access, r)?;
        code.machine.reply(alloc, answer)?;
        self.go_on(Phase::Running(code));
        Ok(())
    }

    /// The run goes on with the reply to an access.
    pub(crate) fn resume(
        &mut self,
        alloc: Global,
        access: &Access,
        then: Then<'a>,
        r: &Reply,
    ) -> Result<(), NoMemory>
        requires sound { SoundThen self.old.book.now (flight_of self.old.log) access.now then }
        requires given { IsTrue (can_get self.old.book.now access.now r.now) }
        ensures stays { OnOk result (Stays self.old self.new) }
        ensures sound { OnOk result (ResumedSound self.old access.now r.now self.new) }
        ensures free { OnOk result (awaited self.new ≡ None) }
        ensures same { OnOk result (ResumedSame self.old access.now then.entry r.now self.new) }
        ensures safe { OnOk result (ResumedSafe self.old access.now then.entry r.now self.new) }
        ensures less { OnOk result
            (work self.new < transfer_work * self.old.calls + work_then then.entry) }
        ensures spent { OnErr result (self.new.phase ≡ self.old.phase) }
    {
        match then {
            Then::Debited(t) => {
                self.debited(t, r);
                Ok(())
            }
            Then::Credited(t) => {
                self.go_on(Phase::Calling(t));
                Ok(())
            }
            Then::Stored(t, code) => self.stored(alloc, t, code, r),
            Then::Looked(code) => self.looked(alloc, access, code, r),
            Then::Written(dest, changes) => {
                self.go_on(Phase::Writing(dest, changes));
                Ok(())
            }
        }
    }
}
