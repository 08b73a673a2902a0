//! What a run of an operation goes on with.

ghost use Rattle.std.specs.Prelude.{◌≡◌, ◌-◌};

use crate::log::Log;
use crate::phase::{Phase, Then};
use crate::pile::Pile;
use cell_names::{Access, Footprint, Head};
use code_book::Book;
use michelson_code::Why;
use michelson_machine::Budget;
use op_rules::{Op, Receipt, Transfer};
use std::alloc::Global;
use value_core::NoMemory;

/// A run of an operation, between two of its steps.
#[derive(Drop)]
pub struct State<'a> {
    /// The contracts.
    pub book: &'a Book,
    /// The block's level and time.
    pub head: Head,
    /// The operation.
    pub op: &'a Op,
    /// How many transfers it may still begin.
    pub calls: u32,
    /// The transfers that wait, the next one on top.
    pub pending: Pile<Transfer>,
    /// What it may still spend; while a code runs, what it could when that began.
    pub left: Budget,
    /// Its accesses so far.
    pub log: Log,
    /// What it does next.
    pub phase: Phase<'a>,
}

impl<'a> State<'a> {
    ghost use Rattle.std.specs.Prelude.{◌≡◌, ◌≤◌, ◌*◌, Some, None, IfOk, IsSome};
    ghost use Rattle.std.specs.List.{AllByRecursion};
    ghost use Rattle.cell_names.specs.Contents.{Contents};
    ghost use Rattle.op_rules.specs.Operations.{IsLawful};
    ghost use Rattle.op_rules.specs.Serial.{serial_within};
    ghost use Rattle.op_run.specs.Follows.{IsBegun, receipt_in};
    ghost use Rattle.op_run.specs.Safe.{IsMoney, Safe, SafeAt};
    ghost use Rattle.op_run.specs.Sound.{Sound, SoundThen};
    ghost use Rattle.op_rules.specs.Course.{footprint_of};
    ghost use Rattle.op_rules.specs.Replies.{flight_of};
    ghost use Rattle.op_run.specs.States.{Stays, asking, failing, outcome_of, over_at};
    ghost use Rattle.op_run.specs.Steps.{transfer_work, work, work_at};

    /// A run of an operation that may make so many calls in so much room.
    #[tactic(auto, unfolding(op_rules::specs::Serial::serial_within))]
    pub(crate) fn within(
        alloc: Global,
        calls: u32,
        room: u64,
        book: &'a Book,
        head: Head,
        op: &'a Op,
    ) -> Result<State<'a>, NoMemory>
        requires { IsLawful op.now }
        ensures begun { IfOk result (λ s. IsBegun book.now head op.now s) }
        ensures sound { IfOk result (λ s. Sound s) }
        ensures safe { IfOk result (λ s. (m : Contents) → Safe s m) }
        ensures same { IfOk result (λ s. (m : Contents) →
            serial_within calls room book.now head op.now m ≡ outcome_of s m) }
    {
        let mut pending = Pile::new(alloc);
        pending.push(Transfer {
            sender: op.source,
            dest: op.dest,
            entry: op.entry,
            param: op.param.copy(alloc)?,
            amount: op.amount,
        })?;
        Ok(State {
            book,
            head,
            op,
            calls,
            pending,
            left: Budget {
                gas: u64::from(op.gas),
                turns: u64::from(op.turns),
                room,
            },
            log: Log::new(alloc),
            phase: Phase::Ready,
        })
    }

    /// The receipt and the footprint of a run that is over.
    pub(crate) fn into_parts(self) -> (Receipt, Footprint)
        requires { IsSome (receipt_in self.phase) }
        ensures receipt { Some result.0 ≡ receipt_in self.entry.phase }
        ensures footprint { result.1 ≡ footprint_of self.entry.log }
    {
        let State { log, phase, .. } = self;
        match phase {
            Phase::Over(receipt) => (receipt, log.into_footprint()),
            _ => unreachable!(),
        }
    }

    /// The phase is another one now. What the old one had is let go here, and in no other place.
    pub(crate) fn go_on(&mut self, phase: Phase<'a>)
        ensures { self.new ≡ record self.old { phase = phase.entry } }
    {
        self.phase = phase;
    }

    /// The operation ends.
    pub(crate) fn end(&mut self, end: Option<Why>)
        ensures { self.new ≡ record self.old { phase = over_at self.old end } }
    {
        let gas = spent(self.op.gas, self.left.gas);
        self.go_on(Phase::Over(Receipt { end, gas }));
    }

    /// The operation fails.
    pub(crate) fn fail(&mut self, why: Why)
        ensures stays { Stays self.old self.new }
        ensures sound { Sound self.new }
        ensures same { (m : Contents) → failing self.old why m ≡ outcome_of self.new m }
        ensures safe { (m : Contents) → AllByRecursion IsMoney self.old.pending → Safe self.new m }
        ensures less { work self.new ≡ transfer_work * self.old.calls }
    {
        self.end(Some(why));
    }

    /// The access is waited for, unless it would touch a cell too many.
    pub(crate) fn ask(&mut self, access: Access, then: Then<'a>)
        requires { SoundThen self.old.book.now (flight_of self.old.log) access then }
        ensures stays { Stays self.old self.new }
        ensures sound { Sound self.new }
        ensures same { (m : Contents) → asking self.old access then.entry m
            ≡ outcome_of self.new m }
        ensures safe { (m : Contents) → SafeAt self.old (Phase.Waiting access then.entry) m
            → Safe self.new m }
        ensures less { work self.new ≤ work_at self.old (Phase.Waiting access then.entry) }
    {
        if self.log.is_full_for(&access) {
            self.fail(Why::TooManyCells);
            let_go(Phase::Waiting(access, then));
        } else {
            self.go_on(Phase::Waiting(access, then));
        }
    }
}

/// What a phase has isn't wanted any more.
pub(crate) fn let_go(phase: Phase<'_>) {
    let _phase = phase;
}

/// The gas that was charged, of what was asked for and what is left.
fn spent(asked: u32, left: u64) -> u32
    ensures { result ≡ asked - left }
{
    let left = left.min(u64::from(asked));
    asked - left as u32
}
