//! How the code of a contract begins, runs and ends.

ghost use Rattle.std.specs.Prelude.{◌≡◌, ◌<◌, ◌≤◌, ◌+◌, ◌*◌, ◌^◌, ◌++◌, [], true, Some, None, OnOk, OnErr, IfOk, IsTrue, map, unwrap_or};
ghost use Rattle.std.specs.FinMap.{get};
ghost use Rattle.value_core.specs.BigMaps.{is_placed};
ghost use Rattle.value_core.specs.Typed.{has_type};
ghost use Rattle.michelson_code.specs.Entries.{path_of, wrapped};
ghost use Rattle.michelson_rules.specs.Metered.{script_outcome};
ghost use Rattle.michelson_rules.specs.World.{World};
ghost use Rattle.michelson_machine.specs.Outcomes as machines;
ghost use Rattle.michelson_machine.specs.Outcomes.{awaits, outcome};
ghost use Rattle.code_book.specs.Fits.{is_kept_as};
ghost use Rattle.op_rules.specs.CodeRule.{param_of};
ghost use Rattle.op_rules.specs.Operations.{sent_by};
ghost use Rattle.op_rules.specs.Replies.{flight_of};
ghost use Rattle.op_rules.specs.SerialRule.{env_of};
ghost use Rattle.op_run.specs.declared.phase.Phase.TheVariants as phase;
ghost use Rattle.op_run.specs.Sound.{Sound, SoundAt};
ghost use Rattle.op_run.specs.States.{Stays};
ghost use Rattle.op_run.specs.Codes.{BeginsSafe, ClosesOn, ClosesSafe, HasTurned, KeepsOn, KeepsSafe, returns};
ghost use Rattle.op_run.specs.Steps.{GoesOn, StaysSafe, begun, transfer_work, work, work_at};

use crate::phase::{Change, Code, Phase};
use crate::pile::Pile;
use crate::room::behind_storage;
use crate::state::State;
use michelson_code::{Script, Side, Typed, Why};
use michelson_machine::{End, Env, Machine, Turn};
use op_rules::Transfer;
use sqlite_items::Items;
use std::alloc::Global;
use value_core::{Address, Emit, Name, NoMemory, Val, compare, is_placed, left, right};

/// All money stays below it.
const MONEY_END: u64 = 1 << 63;

/// The way to the entry of the name, from the parameter's root.
fn path_of<'s>(script: &'s Script, name: &Name) -> &'s [Side]
    ensures { result.now ≡ unwrap_or (path_of name.now script.now.names) [] }
{
    for entry in script.names.as_slice() {
        if *name == entry.1 {
            return entry.0.as_slice();
        }
    }
    &[]
}

/// A param in the Lefts and Rights of a way.
fn wrapped(alloc: Global, path: &[Side], param: Val) -> Result<Val, NoMemory>
    ensures { IfOk result (λ v. v ≡ wrapped path.now param) }
{
    match path {
        [] => Ok(param),
        [Side::Left, rest @ ..] => left(alloc, wrapped(alloc, rest, param)?),
        [Side::Right, rest @ ..] => right(alloc, wrapped(alloc, rest, param)?),
    }
}

/// Changes with the first one on top.
fn piled(alloc: Global, mut changes: Items<Change>) -> Result<Pile<Change>, NoMemory>
    ensures { IfOk result (λ pile. pile ≡ changes) }
{
    let mut pile = Pile::new(alloc);
    while let Some(change) = changes.pop() {
        pile.push(change)?;
    }
    Ok(pile)
}

/// Puts the transfers that a contract emits before the others.
fn send(pending: &mut Pile<Transfer>, sender: Address, mut ops: Items<Emit>) -> Result<(), NoMemory>
    ensures { OnOk result (pending.new ≡ map (sent_by sender) ops ++ pending.old) }
{
    while let Some(emit) = ops.pop() {
        pending.push(Transfer {
            sender,
            dest: emit.dest,
            entry: emit.entry,
            param: emit.param,
            amount: emit.amount,
        })?;
    }
    Ok(())
}

/// A code runs to its next question, or to its end.
fn turned<'a>(alloc: Global, code: Code<'a>) -> Result<(Code<'a>, Turn), NoMemory>
    requires { awaits code.machine ≡ None }
    ensures { IfOk result (λ (after, turn). HasTurned code.entry turn after) }
{
    let mut code = code;
    let turn = code.machine.advance(alloc)?;
    Ok((code, turn))
}

/// What a code has isn't wanted any more.
fn release(code: Code<'_>) {
    let _code = code;
}

impl<'a> State<'a> {
    /// Who called, with what, and when.
    fn env(&self, t: &Transfer) -> Env
        ensures { result ≡ env_of self.now.head self.now.op.now.source t.now }
    {
        Env {
            amount: t.amount,
            sender: t.sender,
            source: self.op.source,
            me: t.dest,
            now: self.head.now,
            level: self.head.level,
        }
    }

    /// The run of a code on a param and a storage.
    fn machine(
        &self,
        alloc: Global,
        t: Transfer,
        code: &'a Typed,
        stored: &Val,
    ) -> Result<Machine<'a>, NoMemory>
        requires typed { IsTrue (has_type (param_of code.now.script t) code.now.script.param) }
        requires kept { is_kept_as code.now.script.storage stored.now ≡ true }
        requires amount { t.amount < 2 ^ 63 }
        ensures same { IfOk result (λ m. (w : World) → outcome w m ≡ script_outcome code.now.script
            (env_of self.now.head self.now.op.now.source t) w self.now.left
            (param_of code.now.script t) stored.now) }
        ensures awaits { IfOk result (λ m. awaits m ≡ None) }
        ensures work { IfOk result (λ m. machines.work m < 2 ^ 70) }
        ensures behaves { IfOk result (λ m. BeginsSafe self.now.book.now t.dest code.now.script m) }
    {
        let env = self.env(&t);
        let param = wrapped(alloc, path_of(code.script(), &t.entry), t.param)?;
        let storage = stored.copy(alloc)?;
        Machine::start(alloc, code, env, param, storage, self.left)
    }

    /// A code begins on the storage that was read, which takes its room.
    pub(crate) fn start(
        &mut self,
        alloc: Global,
        t: Transfer,
        code: &'a Typed,
        stored: Val,
    ) -> Result<(), NoMemory>
        requires { SoundAt self.old (phase.Starting t code stored) }
        ensures stays { OnOk result (Stays self.old self.new) }
        ensures sound { OnOk result (Sound self.new) }
        ensures same { OnOk result (GoesOn self.old (phase.Starting t code.entry stored) self.new) }
        ensures safe { OnOk result (StaysSafe self.old (phase.Starting t code.entry stored) self.new) }
        ensures less { OnOk result
            (work self.new < work_at self.old (phase.Starting t code.entry stored)) }
        ensures spent { OnErr result (self.new.phase ≡ self.old.phase) }
    {
        match behind_storage(self.left.room, &stored) {
            None => {
                self.fail(Why::TooMuchData);
                Ok(())
            }
            Some(room) => {
                // No transfer has as much.
                if t.amount >= MONEY_END {
                    self.fail(Why::NoSuchContract);
                    return Ok(());
                }
                self.left.room = room;
                let dest = t.dest;
                let machine = self.machine(alloc, t, code, &stored)?;
                self.go_on(Phase::Running(Code {
                    dest,
                    code,
                    stored,
                    machine,
                }));
                Ok(())
            }
        }
    }

    /// A code runs to its next question, or to its end.
    pub(crate) fn run(&mut self, alloc: Global, code: Code<'a>) -> Result<(), NoMemory>
        requires { SoundAt self.old (phase.Running code) }
        ensures stays { OnOk result (Stays self.old self.new) }
        ensures sound { OnOk result (Sound self.new) }
        ensures same { OnOk result (GoesOn self.old (phase.Running code.entry) self.new) }
        ensures safe { OnOk result (StaysSafe self.old (phase.Running code.entry) self.new) }
        ensures less { OnOk result (work self.new < work_at self.old (phase.Running code.entry)) }
        ensures spent { OnErr result (self.new.phase ≡ self.old.phase) }
    {
        let (code, turn) = turned(alloc, code)?;
        match turn {
            Turn::Ask(ask) => self.look(alloc, code, ask),
            Turn::Done(end) => {
                let closed = self.close(alloc, &code, end);
                release(code);
                closed
            }
        }
    }

    /// A code is done.
    fn close(&mut self, alloc: Global, code: &Code<'a>, end: End) -> Result<(), NoMemory>
        requires contract { get self.old.book.now code.now.dest ≡ Some code.now.code.now.script }
        requires flight { flight_of self.old.log ≡ 0 }
        ensures stays { OnOk result (Stays self.old self.new) }
        ensures sound { OnOk result (Sound self.new) }
        ensures same { OnOk result (ClosesOn self.old code.now end self.new) }
        ensures safe { OnOk result (ClosesSafe self.old code.now end self.new) }
        ensures less { OnOk result (work self.new < transfer_work * self.old.calls + begun) }
        ensures spent { OnErr result (self.new.phase ≡ self.old.phase) }
    {
        match end {
            End::Fail { why, left } => {
                self.left = left;
                self.fail(why);
                Ok(())
            }
            End::Return {
                ops,
                storage,
                changes,
                left,
            } => {
                self.left = left;
                self.keep(alloc, code, ops, storage, changes)
            }
        }
    }

    /// What a code returns is kept, unless a big map was moved.
    fn keep(
        &mut self,
        alloc: Global,
        code: &Code<'a>,
        ops: Items<Emit>,
        storage: Val,
        changes: Items<Change>,
    ) -> Result<(), NoMemory>
        requires contract { get self.old.book.now code.now.dest ≡ Some code.now.code.now.script }
        requires flight { flight_of self.old.log ≡ 0 }
        ensures stays { OnOk result (Stays self.old self.new) }
        ensures sound { OnOk result (Sound self.new) }
        ensures same { OnOk result
            (KeepsOn self.old code.now (returns ops storage changes) self.new) }
        ensures safe { OnOk result
            (KeepsSafe self.old code.now (returns ops storage changes) self.new) }
        ensures less { OnOk result (work self.new < transfer_work * self.old.calls + begun) }
        ensures spent { OnErr result (self.new.phase ≡ self.old.phase) }
    {
        if is_placed(&storage, &code.code.script().storage) {
            self.settle(alloc, code, ops, storage, changes)
        } else {
            self.fail(Why::BigMapMoved);
            Ok(())
        }
    }

    /// A storage that differs is written, then the changes; what was emitted waits.
    fn settle(
        &mut self,
        alloc: Global,
        code: &Code<'a>,
        ops: Items<Emit>,
        storage: Val,
        changes: Items<Change>,
    ) -> Result<(), NoMemory>
        requires contract { get self.old.book.now code.now.dest ≡ Some code.now.code.now.script }
        requires flight { flight_of self.old.log ≡ 0 }
        requires placed { is_placed storage code.now.code.now.script.storage ≡ true }
        ensures stays { OnOk result (Stays self.old self.new) }
        ensures sound { OnOk result (Sound self.new) }
        ensures same { OnOk result
            (KeepsOn self.old code.now (returns ops storage changes) self.new) }
        ensures safe { OnOk result
            (KeepsSafe self.old code.now (returns ops storage changes) self.new) }
        ensures less { OnOk result (work self.new < transfer_work * self.old.calls + begun) }
        ensures spent { OnErr result (self.new.phase ≡ self.old.phase) }
    {
        let changes = piled(alloc, changes)?;
        send(&mut self.pending, code.dest, ops)?;
        // There are fewer of them than a run has work.
        let _count = changes.len();
        if compare(&code.stored, &storage).is_eq() {
            self.go_on(Phase::Writing(code.dest, changes));
        } else {
            self.go_on(Phase::Storing(code.dest, storage, changes));
        }
        Ok(())
    }
}
