//! The log of undo entries.

ghost use Rattle.std.specs.Prelude.{◌≡◌, ◌≤◌, ◌<◌, ◌+◌, ◌++◌, ◌∷◌, [], length, OnOk, ℕ};
ghost use Rattle.std.specs.Bool.{OnTrue, OnFalse};
ghost use Rattle.cell_names.specs.Contents.{Contents};
ghost use Rattle.cell_names.specs.Stores.{Stays};
ghost use Rattle.inverse_log.specs.Logs.{CanUndoLast, UndoesLast};
ghost use Rattle.inverse_log.specs.Ends.{IsAt, LeadsTo, LeadsSomewhere};

use cell_names::{NoMemory, Store, Undo};
use std::alloc::Global;
use std::marker::Model;

/// What takes the effects of one operation back, in the order in which they came.
#[derive(Debug, Drop)]
pub struct InverseLog {
    entries: Vec<Undo>,
}

impl Model for InverseLog {
    ghost use Rattle.std.specs.Prelude.{◌-◌, vec_len, vec_capacity};
    ghost use Rattle.std.specs.Coded.{codes};
    ghost use Rattle.value_core.specs.contracts.val.Val as val;
    ghost use Rattle.inverse_log.specs.Logs.{Log};

    ghost Value = { Log };

    ghost coded = { Prim.hlevel (codes, val.the_row.coded) };

    ghost view = { λ log. record {
      entries = log.entries.items;
      spare = vec_capacity log.entries - vec_len log.entries;
    } };
}

impl InverseLog {
    /// A log with no entry. It takes no memory.
    pub fn new(alloc: Global) -> InverseLog
        ensures { result.entries ≡ [] }
    {
        InverseLog {
            entries: Vec::new(alloc),
        }
    }

    /// The number of entries.
    pub fn len(&self) -> usize
        ensures { result ≡ length self.now.entries }
    {
        self.entries.len()
    }

    /// Makes room for as many further entries.
    pub fn reserve(&mut self, n: usize) -> Result<(), NoMemory>
        ensures entries { self.new.entries ≡ self.old.entries }
        ensures room { OnOk result (n ≤ self.new.spare) }
    {
        self.entries.reserve(n)?;
        Ok(())
    }

    /// Notes what takes the latest effect back. It takes no memory.
    pub fn note(&mut self, u: Undo)
        requires { 0 < self.old.spare }
        ensures noted { self.new.entries ≡ self.old.entries ++ u ∷ [] }
        ensures room { self.old.spare ≤ self.new.spare + 1 }
    {
        let Ok(()) = self.entries.push(u) else {
            unreachable!()
        };
    }

    /// Undoes the last entry, which is gone then; false where there is none. It takes no memory.
    pub fn pop_apply<S: Store>(&mut self, s: &mut S) -> bool
        requires { CanUndoLast self.old.entries (S.seen s.old) }
        ensures undone { OnTrue result
            (UndoesLast self.old.entries self.new.entries (S.seen s.old) (S.seen s.new)) }
        ensures empty { OnFalse result (self.old.entries ≡ []) }
        ensures log { OnFalse result (self.new ≡ self.old) }
        ensures store { OnFalse result (S.seen s.new ≡ S.seen s.old) }
    {
        match self.entries.pop() {
            None => false,
            Some(u) => {
                s.undo(u);
                true
            }
        }
    }

    /// Undoes every entry, the last first, and leaves the log empty. It takes no memory.
    pub fn undo_all<S: Store>(&mut self, s: &mut S)
        requires { LeadsSomewhere self.old.entries (S.seen s.old) }
        ensures emptied { self.new.entries ≡ [] }
        ensures reached { (m : Contents) (f : ℕ) → LeadsTo self.old.entries (S.seen s.old) m f
            → IsAt (S.seen s.new) m f }
        ensures stays { Stays (S.seen s.old) (S.seen s.new) }
    {
        for _ in 0..self.len() {
            self.pop_apply(s);
        }
    }
}
