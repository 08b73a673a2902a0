//! What a run does in each of its phases.

ghost use Rattle.std.specs.Prelude.{◌≡◌, ◌<◌};
ghost use Rattle.op_run.specs.declared.phase.Phase.TheVariants as phase;
ghost use Rattle.op_run.specs.Sound.{Sound, SoundAt};
ghost use Rattle.op_run.specs.States.{Stays};
ghost use Rattle.op_run.specs.Steps.{GoesOn, StaysSafe, work, work_at};

use crate::phase::{Change, Phase, Then};
use crate::pile::Pile;
use crate::room::{behind_entry, behind_storage};
use crate::state::State;
use cell_names::{Access, Cell};
use code_book::NoEntry;
use michelson_code::Why;
use op_rules::Transfer;
use value_core::{Address, Val, has_type};

impl<'a> State<'a> {
    /// The next transfer begins, or the operation ends.
    pub(crate) fn ready(&mut self)
        requires { SoundAt self.old phase.Ready }
        ensures stays { Stays self.old self.new }
        ensures sound { Sound self.new }
        ensures same { GoesOn self.old phase.Ready self.new }
        ensures safe { StaysSafe self.old phase.Ready self.new }
        ensures less { work self.new < work_at self.old phase.Ready }
    {
        match self.pending.pop() {
            None => self.end(None),
            Some(t) => {
                if self.calls == 0 {
                    self.fail(Why::TooManyCalls);
                } else {
                    self.calls -= 1;
                    self.go_on(Phase::Entering(t));
                }
            }
        }
    }

    /// The entry that is called takes the param, or the operation fails.
    pub(crate) fn enter(&mut self, t: Transfer)
        requires { SoundAt self.old (phase.Entering t) }
        ensures stays { Stays self.old self.new }
        ensures sound { Sound self.new }
        ensures same { GoesOn self.old (phase.Entering t) self.new }
        ensures safe { StaysSafe self.old (phase.Entering t) self.new }
        ensures less { work self.new < work_at self.old (phase.Entering t) }
    {
        match self.book.entry(&t.dest, &t.entry) {
            Err(NoEntry::NoSuchContract) => self.fail(Why::NoSuchContract),
            Err(NoEntry::NoSuchEntry) => self.fail(Why::NoSuchEntry),
            Ok(takes) => {
                if has_type(&t.param, takes) {
                    self.go_on(Phase::Paying(t));
                } else {
                    self.fail(Why::WrongParameter);
                }
            }
        }
    }

    /// The sender is debited, where there is something to pay.
    pub(crate) fn pay(&mut self, t: Transfer)
        requires { SoundAt self.old (phase.Paying t) }
        ensures stays { Stays self.old self.new }
        ensures sound { Sound self.new }
        ensures same { GoesOn self.old (phase.Paying t) self.new }
        ensures safe { StaysSafe self.old (phase.Paying t) self.new }
        ensures less { work self.new < work_at self.old (phase.Paying t) }
    {
        if t.amount == 0 {
            self.go_on(Phase::Calling(t));
        } else if self.left.room == 0 {
            self.fail(Why::TooMuchData);
        } else {
            self.left.room -= 1;
            self.ask(Access::Debit(t.sender, t.amount), Then::Debited(t));
        }
    }

    /// The destination is credited.
    pub(crate) fn credit(&mut self, t: Transfer)
        requires { SoundAt self.old (phase.Crediting t) }
        ensures stays { Stays self.old self.new }
        ensures sound { Sound self.new }
        ensures same { GoesOn self.old (phase.Crediting t) self.new }
        ensures safe { StaysSafe self.old (phase.Crediting t) self.new }
        ensures less { work self.new < work_at self.old (phase.Crediting t) }
    {
        if self.left.room == 0 {
            self.fail(Why::TooMuchData);
        } else {
            self.left.room -= 1;
            self.ask(Access::Credit(t.dest, t.amount), Then::Credited(t));
        }
    }

    /// A contract's storage is read; an implicit account has no code.
    pub(crate) fn call(&mut self, t: Transfer)
        requires { SoundAt self.old (phase.Calling t) }
        ensures stays { Stays self.old self.new }
        ensures sound { Sound self.new }
        ensures same { GoesOn self.old (phase.Calling t) self.new }
        ensures safe { StaysSafe self.old (phase.Calling t) self.new }
        ensures less { work self.new < work_at self.old (phase.Calling t) }
    {
        let book = self.book;
        match book.code(&t.dest) {
            None => self.go_on(Phase::Ready),
            Some(code) => {
                self.ask(Access::Read(Cell::Storage(t.dest)), Then::Stored(t, code));
            }
        }
    }

    /// A storage is written.
    pub(crate) fn store(&mut self, dest: Address, v: Val, changes: Pile<Change>)
        requires { SoundAt self.old (phase.Storing dest v changes) }
        ensures stays { Stays self.old self.new }
        ensures sound { Sound self.new }
        ensures same { GoesOn self.old (phase.Storing dest v changes) self.new }
        ensures safe { StaysSafe self.old (phase.Storing dest v changes) self.new }
        ensures less { work self.new < work_at self.old (phase.Storing dest v changes) }
    {
        match behind_storage(self.left.room, &v) {
            None => self.fail(Why::TooMuchData),
            Some(room) => {
                self.left.room = room;
                self.ask(
                    Access::Write(Cell::Storage(dest), Some(v)),
                    Then::Written(dest, changes),
                );
            }
        }
    }

    /// The next change is written, if there is one.
    pub(crate) fn write(&mut self, dest: Address, mut changes: Pile<Change>)
        requires { SoundAt self.old (phase.Writing dest changes) }
        ensures stays { Stays self.old self.new }
        ensures sound { Sound self.new }
        ensures same { GoesOn self.old (phase.Writing dest changes) self.new }
        ensures safe { StaysSafe self.old (phase.Writing dest changes) self.new }
        ensures less { work self.new < work_at self.old (phase.Writing dest changes) }
    {
        match changes.pop() {
            None => self.go_on(Phase::Ready),
            Some((place, key, choice)) => {
                match behind_entry(self.left.room, &key, &choice) {
                    None => self.fail(Why::TooMuchData),
                    Some(room) => {
                        self.left.room = room;
                        self.ask(
                            Access::Write(Cell::Entry(dest, place, key), choice),
                            Then::Written(dest, changes),
                        );
                    }
                }
            }
        }
    }
}
