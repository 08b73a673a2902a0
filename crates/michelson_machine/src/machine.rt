//! The public calls.

ghost use Rattle.std.specs.Prelude.{◌≡◌, ◌<◌, ◌≤◌, ◌^◌, ◌+◌, ◌*◌, List, IfOk, IsSome, IsTrue, None, OnErr, OnOk};
ghost use Rattle.value_core.specs.BigMaps.{is_placed};
ghost use Rattle.value_core.specs.declared.val.Val.{Val};
ghost use Rattle.value_core.specs.Typed.{has_type};
ghost use Rattle.michelson_rules.specs.Metered.{NeverMisses, Outcome, script_outcome};
ghost use Rattle.michelson_rules.specs.World.{World};
ghost use Rattle.michelson_machine.specs.Outcomes.{IsSpent, Turns, answered_by, awaits, is_ready, outcome, work, asked_in};
ghost use Rattle.michelson_machine.specs.Resume.{ask_of, work_at};
ghost use Rattle.michelson_machine.specs.Steps.{Foretells, toll};

use crate::end::{End, Turn};
use crate::frame::Frame;
use crate::look::Look;
use crate::pile::Pile;
use crate::state::{State, Step};
use map_versions::Versions;
use michelson_code::Typed;
use michelson_rules::{Ask, Budget, Env};
use std::alloc::{AllocError, Global};
use std::mem;
use value_core::{NoMemory, Val, pair};

/// A run of a script that stops at each question.
#[derive(Drop)]
pub struct Machine<'a> {
    state: State<'a>,
    phase: Phase<'a>,
}

/// Whether a machine goes on.
#[derive(Drop)]
pub enum Phase<'a> {
    /// It goes on.
    Ready,
    /// It goes on with an answer.
    Told(Look<'a>, Option<Val>),
    /// It waits for an answer.
    Awaits(Look<'a>),
    /// It is done, or wanted memory.
    Spent,
}

impl<'a> Machine<'a> {
    /// A run of the script on a parameter and a storage.
    pub fn start(
        alloc: Global,
        code: &'a Typed,
        env: Env,
        param: Val,
        storage: Val,
        left: Budget,
    ) -> Result<Machine<'a>, NoMemory>
        requires param { IsTrue (has_type param code.now.script.param) }
        requires storage { IsTrue (has_type storage code.now.script.storage) }
        requires placed { IsTrue (is_placed storage code.now.script.storage) }
        requires amount { env.amount < 2 ^ 63 }
        ensures same { IfOk result (λ m. (w : World) →
            outcome w m ≡ script_outcome code.now.script env w left param storage) }
        ensures ready { IfOk result (λ m. IsTrue (is_ready m)) }
        ensures awaits { IfOk result (λ m. awaits m ≡ None) }
        ensures work { IfOk result (λ m. work m ≡ 8 * (left.gas + left.turns) + 2) }
    {
        let script = code.script();
        let mut frames = Pile::new(alloc);
        frames.push(Frame::Rest(script.code.as_slice()))?;
        let mut stack = Pile::new(alloc);
        stack.push(pair(alloc, param, storage)?)?;
        Ok(Machine {
            state: State {
                script,
                env,
                frames,
                stack,
                versions: Versions::new(alloc),
                left,
            },
            phase: Phase::Ready,
        })
    }

    /// Runs to the next question, or to the end. A machine that is done, or wanted memory before,
    /// answers want of memory.
    pub fn advance(&mut self, alloc: Global) -> Result<Turn, NoMemory>
        requires { awaits self.old ≡ None }
        ensures same { IfOk result (λ turn. (w : World) → NeverMisses (outcome w self.old)
            → Turns w turn (outcome w self.old) self.new) }
        ensures awaits { IfOk result (λ turn. awaits self.new ≡ asked_in turn) }
        ensures ready { OnOk result (IsTrue (is_ready self.old)) }
        ensures nearer { OnOk result (work self.new ≤ work self.old) }
        ensures spent { OnErr result (IsSpent self.new) }
    {
        match mem::replace(&mut self.phase, Phase::Spent) {
            Phase::Ready => {
                let step = self.state.run(alloc)?;
                self.turn(alloc, step)
            }
            Phase::Told(look, v) => match self.state.answer(alloc, look, v)? {
                Step::On => {
                    let step = self.state.run(alloc)?;
                    self.turn(alloc, step)
                }
                Step::Fail(why) => Ok(Turn::Done(End::Fail {
                    why,
                    left: self.state.left,
                })),
                // An answer asks nothing and ends nothing.
                Step::Ask(_) | Step::Return => Err(AllocError),
            },
            Phase::Awaits(_) | Phase::Spent => Err(AllocError),
        }
    }

    /// The ledger's answer to the question.
    pub fn reply(&mut self, alloc: Global, v: Option<Val>) -> Result<(), NoMemory>
        requires { IsSome (awaits self.old) }
        ensures same { OnOk result ((w : World) → outcome w self.new ≡ answered_by w self.old v) }
        ensures ready { OnOk result (IsTrue (is_ready self.new)) }
        ensures awaits { OnOk result (awaits self.new ≡ None) }
        ensures nearer { OnOk result (work self.new < work self.old) }
        ensures spent { OnErr result (IsSpent self.new) }
    {
        let _ = alloc;
        match mem::replace(&mut self.phase, Phase::Spent) {
            Phase::Awaits(look) => {
                self.phase = Phase::Told(look, v);
                Ok(())
            }
            _ => Err(AllocError),
        }
    }

    /// What is left to spend.
    pub fn left(&self) -> Budget
        ensures { result ≡ self.now.state.left }
    {
        self.state.left
    }

    /// A step that isn't followed by another one, as a turn.
    fn turn(&mut self, alloc: Global, step: Step<'a>) -> Result<Turn, NoMemory>
        requires { IsSpent self.old }
        ensures same { IfOk result (λ turn. (w : World) (before : Outcome (List Val))
            → Foretells w step.entry before self.old.state → Turns w turn before self.new) }
        ensures awaits { IfOk result (λ turn. awaits self.new ≡ asked_in turn) }
        ensures nearer { OnOk result (work self.new
            ≤ 2 * work_at self.old.state + toll step.entry) }
        ensures err { OnErr result (self.new.phase ≡ self.old.phase) }
    {
        match step {
            Step::On => Err(AllocError),
            Step::Ask(look) => {
                let ask = ask_of(alloc, &look)?;
                self.phase = Phase::Awaits(look);
                Ok(Turn::Ask(ask))
            }
            Step::Fail(why) => Ok(Turn::Done(End::Fail {
                why,
                left: self.state.left,
            })),
            Step::Return => Ok(Turn::Done(self.state.finish(alloc)?)),
        }
    }
}

/// The question that is open.
fn ask_of(alloc: Global, look: &Look<'_>) -> Result<Ask, NoMemory>
    ensures { IfOk result (λ ask. ask ≡ ask_of look.now) }
{
    match look {
        Look::Has { place, key } => Ok(Ask::Entry {
            place: *place,
            key: key.copy(alloc)?,
        }),
        Look::Get { place, key } => Ok(Ask::Entry {
            place: *place,
            key: key.copy(alloc)?,
        }),
        Look::Change(change) => Ok(Ask::Entry {
            place: change.place,
            key: change.key.copy(alloc)?,
        }),
        Look::Balance => Ok(Ask::Balance),
        Look::Contract { address, entry, ty } => Ok(Ask::Contract {
            address: *address,
            entry: *entry,
            ty: ty.copy(alloc)?,
        }),
    }
}
