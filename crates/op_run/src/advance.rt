//! A run from one access to the next.

ghost use Rattle.std.specs.Prelude.{◌≡◌, ◌≤◌, ◌<◌, ◌++◌, ◌∷◌, [], None, Some, IfOk, OnOk, OnErr, IsSome, IsTrue};
ghost use Rattle.cell_names.specs.declared.access.Access.{Access};
ghost use Rattle.op_rules.specs.Replies.{can_get};
ghost use Rattle.op_run.specs.Follows.{IsSpent};
ghost use Rattle.op_run.specs.Sound.{Sound};
ghost use Rattle.op_run.specs.Turns.{Replied, Stops};
ghost use Rattle.op_run.specs.States.{Stays, awaited};
ghost use Rattle.op_run.specs.Steps.{GoesOn, StaysSafe, work};

use crate::phase::Phase;
use crate::state::{State, let_go};
use cell_names::{Access, Reply};
use std::alloc::{AllocError, Global};
use std::mem;
use value_core::NoMemory;

/// What a run does next.
#[derive(Debug, Drop)]
pub enum Next {
    /// It asks for an access, and waits for the reply.
    Ask(Access),
    /// It is done.
    Done,
}

impl<'a> State<'a> {
    /// Runs to the next access, or to the end.
    pub(crate) fn advance(&mut self, alloc: Global) -> Result<Next, NoMemory>
        requires { Sound self.old }
        ensures stays { OnOk result (Stays self.old self.new) }
        ensures sound { OnOk result (Sound self.new) }
        ensures same { OnOk result (GoesOn self.old self.old.phase self.new) }
        ensures safe { OnOk result (StaysSafe self.old self.old.phase self.new) }
        ensures nearer { OnOk result (work self.new ≤ work self.old) }
        ensures asks { IfOk result (λ next. Stops next self.new.phase) }
        ensures spent { OnErr result (IsSpent self.new) }
        ensures lives { OnOk result (¬ IsSpent self.old) }
    {
        'steps: loop {
            match &self.phase {
                Phase::Waiting(access, _) => match access.copy(alloc) {
                    Ok(access) => return Ok(Next::Ask(access)),
                    Err(error) => {
                        self.go_on(Phase::Spent);
                        return Err(error);
                    }
                },
                Phase::Over(_) => return Ok(Next::Done),
                _ => {}
            }
            self.step(alloc)?;
        }
    }

    /// One step, by the phase.
    fn step(&mut self, alloc: Global) -> Result<(), NoMemory>
        requires { Sound self.old }
        ensures stays { OnOk result (Stays self.old self.new) }
        ensures sound { OnOk result (Sound self.new) }
        ensures same { OnOk result (GoesOn self.old self.old.phase self.new) }
        ensures safe { OnOk result (StaysSafe self.old self.old.phase self.new) }
        ensures less { OnOk result (work self.new < work self.old) }
        ensures spent { OnErr result (IsSpent self.new) }
        ensures lives { OnOk result (¬ IsSpent self.old) }
    {
        match mem::replace(&mut self.phase, Phase::Spent) {
            Phase::Ready => {
                self.ready();
                Ok(())
            }
            Phase::Entering(t) => {
                self.enter(t);
                Ok(())
            }
            Phase::Paying(t) => {
                self.pay(t);
                Ok(())
            }
            Phase::Crediting(t) => {
                self.credit(t);
                Ok(())
            }
            Phase::Calling(t) => {
                self.call(t);
                Ok(())
            }
            Phase::Starting(t, code, stored) => self.start(alloc, t, code, stored),
            Phase::Running(code) => self.run(alloc, code),
            Phase::Storing(dest, v, changes) => {
                self.store(dest, v, changes);
                Ok(())
            }
            Phase::Writing(dest, changes) => {
                self.write(dest, changes);
                Ok(())
            }
            phase => {
                let_go(phase);
                Err(AllocError)
            }
        }
    }

    /// The reply to the access that is waited for.
    pub(crate) fn reply(&mut self, alloc: Global, r: Reply) -> Result<(), NoMemory>
        requires sound { Sound self.old }
        requires given { (a : Access) → awaited self.old ≡ Some a
            → IsTrue (can_get self.old.book.now a r) }
        ensures replied { OnOk result (Replied self.old r self.new) }
        ensures nearer { OnOk result (work self.new < work self.old) }
        ensures spent { OnErr result (IsSpent self.new) }
        ensures lives { OnOk result (IsSome (awaited self.old)) }
    {
        match mem::replace(&mut self.phase, Phase::Spent) {
            Phase::Waiting(access, then) => {
                self.resume(alloc, &access, then, &r)?;
                match self.log.note(alloc, access, r) {
                    Ok(()) => Ok(()),
                    Err(error) => {
                        self.go_on(Phase::Spent);
                        Err(error)
                    }
                }
            }
            phase => {
                let_go(phase);
                Err(AllocError)
            }
        }
    }
}
