//! The public calls.

ghost use Rattle.std.specs.Prelude.{◌≡◌, ◌≤◌, ◌<◌, ◌++◌, ◌∷◌, [], None, Some, IfOk, IfSome, OnOk, OnErr, IsSome, IsTrue};
ghost use Rattle.std.specs.Option.{option_copied};
ghost use Rattle.cell_names.specs.declared.access.Access.{Access};
ghost use Rattle.op_rules.specs.Course.{footprint_of};
ghost use Rattle.op_rules.specs.Operations.{IsLawful};
ghost use Rattle.op_rules.specs.Replies.{can_get};
ghost use Rattle.op_run.specs.Follows.{Keeps};

use crate::advance::Next;
use crate::phase::Phase;
use crate::state::State;
use cell_names::{Access, Footprint, Head, Reply};
use code_book::Book;
use op_rules::{MOST_CALLS, MOST_ROOM, Op, Receipt};
use std::alloc::Global;
use value_core::NoMemory;

/// A run of an operation that stops at each access.
#[derive(Drop)]
pub struct OpRun<'a> {
    state: State<'a>,
    ghost kept: { ∥ Keeps state ∥₁ },
}

impl<'a> OpRun<'a> {
    ghost use Rattle.op_run.specs.Promise.{Promises, StaysBy, IsDone, IsSpentBy, asked_by, awaited_by, book_of, head_of, op_of, past_of, receipt_by, work_of};

    /// A run of a lawful operation that has accessed nothing yet.
    pub fn start(
        alloc: Global,
        book: &'a Book,
        head: Head,
        op: &'a Op,
    ) -> Result<OpRun<'a>, NoMemory>
        requires { IsLawful op.now }
        ensures past { IfOk result (λ run. past_of run ≡ []) }
        ensures free { IfOk result (λ run. awaited_by run ≡ None) }
        ensures book { IfOk result (λ run. book_of run ≡ book.now) }
        ensures head { IfOk result (λ run. head_of run ≡ head) }
        ensures op { IfOk result (λ run. op_of run ≡ op.now) }
    {
        let state = State::within(alloc, MOST_CALLS, MOST_ROOM, book, head, op)?;
        Ok(OpRun { state })
    }

    /// Runs to the next access, or to the end. A run that wanted memory before answers want of
    /// memory.
    pub fn advance(&mut self, alloc: Global) -> Result<Next, NoMemory>
        requires { awaited_by self.old ≡ None }
        ensures promise { IfOk result (λ next. Promises next self.new) }
        ensures asks { IfOk result (λ next. awaited_by self.new ≡ asked_by next) }
        ensures stays { OnOk result (StaysBy self.old self.new) }
        ensures past { OnOk result (past_of self.new ≡ past_of self.old) }
        ensures nearer { OnOk result (work_of self.new ≤ work_of self.old) }
        ensures spent { OnErr result (IsSpentBy self.new) }
        ensures lives { OnOk result (¬ IsSpentBy self.old) }
    {
        self.state.advance(alloc)
    }

    /// The reply to the access that is waited for.
    pub fn reply(&mut self, alloc: Global, r: Reply) -> Result<(), NoMemory>
        requires awaits { IsSome (awaited_by self.old) }
        requires given { (a : Access) → awaited_by self.old ≡ Some a
            → IsTrue (can_get (book_of self.old) a r) }
        ensures free { OnOk result (awaited_by self.new ≡ None) }
        ensures stays { OnOk result (StaysBy self.old self.new) }
        ensures past { OnOk result ((a : Access) → awaited_by self.old ≡ Some a
            → past_of self.new ≡ past_of self.old ++ (a, r) ∷ []) }
        ensures nearer { OnOk result (work_of self.new < work_of self.old) }
        ensures spent { OnErr result (IsSpentBy self.new) }
    {
        self.state.reply(alloc, r)
    }

    /// How the operation ended, once it is done.
    pub fn receipt(&self) -> Option<&Receipt>
        ensures { option_copied result ≡ receipt_by self.now }
    {
        match &self.state.phase {
            Phase::Over(receipt) => Some(receipt),
            _ => None,
        }
    }

    /// The cells that were accessed, each with the join of its modes.
    pub fn footprint(&self) -> &Footprint
        ensures { result.now ≡ footprint_of (past_of self.now) }
    {
        self.state.log.footprint()
    }

    /// The accesses with their replies.
    pub fn transcript(&self) -> &[(Access, Reply)]
        ensures { result.now ≡ past_of self.now }
    {
        self.state.log.entries()
    }

    /// The operation.
    pub fn op(&self) -> &Op
        ensures { result.now ≡ op_of self.now }
    {
        self.state.op
    }

    /// The receipt and the footprint of a run that is done.
    pub fn into_parts(self) -> (Receipt, Footprint)
        requires { IsDone self }
        ensures receipt { Some result.0 ≡ receipt_by self.entry }
        ensures footprint { result.1 ≡ footprint_of (past_of self.entry) }
    {
        self.state.into_parts()
    }
}
