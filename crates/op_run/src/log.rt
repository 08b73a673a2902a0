//! Accesses with their replies, and the cells that they touched.

ghost use Rattle.std.specs.Prelude.{◌≡◌, ◌∷◌, ◌++◌, [], OnOk, OnErr};
ghost use Rattle.cell_names.specs.Effects.{cell_of, mode_needed};
ghost use Rattle.cell_names.specs.Footprints.{mode_of, touched};
ghost use Rattle.op_rules.specs.Course.{footprint_of, is_one_too_many};

use cell_names::{Access, Cell, Footprint, MOST_CELLS, Mode, Reply};
use std::alloc::{AllocError, Global};
use std::marker::Model;

/// Accesses with their replies, the first one first.
#[derive(Debug, Drop)]
pub struct Log {
    entries: Vec<(Access, Reply)>,
    footprint: Footprint,
}

impl Model for Log {
    ghost use Rattle.std.specs.Prelude.{◌≡◌, List};
    ghost use Rattle.std.specs.Coded.{codes};
    ghost use Rattle.value_core.specs.contracts.val.Val as val;
    ghost use Rattle.cell_names.specs.contracts.access.Access as access;
    ghost use Rattle.cell_names.specs.contracts.access.Reply as reply;
    ghost use Rattle.cell_names.specs.declared.access.Access.{Access};
    ghost use Rattle.cell_names.specs.declared.access.Reply.{Reply};
    ghost use Rattle.op_rules.specs.Course.{footprint_of};

    ghost Value = { List (Access × Reply) };

    ghost coded = { Prim.hlevel (codes, val.the_row.coded, access.the_row.coded, reply.the_row.coded) };

    ghost view = { λ a. a.entries.items };

    ghost invariant = { λ a. a.footprint ≡ footprint_of a.entries.items };
}

/// The mode in which the access's cell was touched before.
fn mode_in(footprint: &Footprint, access: &Access) -> Option<Mode>
    ensures { result ≡ mode_of footprint.now (cell_of access.now) }
{
    match access {
        Access::Read(cell) => footprint.get(cell),
        Access::Write(cell, _) => footprint.get(cell),
        Access::Credit(address, _) => footprint.get(&Cell::Balance(*address)),
        Access::Debit(address, _) => footprint.get(&Cell::Balance(*address)),
    }
}

/// Notes the access's touch of its cell.
fn touch(footprint: &mut Footprint, alloc: Global, access: &Access) -> Result<(), AllocError>
    ensures touched { OnOk result (footprint.new
        ≡ touched footprint.old (cell_of access.now) (mode_needed access.now)) }
    ensures unchanged { OnErr result (footprint.new ≡ footprint.old) }
{
    match access {
        Access::Read(cell) => footprint.touch(alloc, cell, Mode::Read),
        Access::Write(cell, _) => footprint.touch(alloc, cell, Mode::Own),
        Access::Credit(address, _) => {
            footprint.touch(alloc, &Cell::Balance(*address), Mode::Credit)
        }
        Access::Debit(address, _) => footprint.touch(alloc, &Cell::Balance(*address), Mode::Own),
    }
}

impl Log {
    /// No access. It takes no memory.
    pub fn new(alloc: Global) -> Log
        ensures { result ≡ [] }
    {
        Log {
            entries: Vec::new(alloc),
            footprint: Footprint::new(alloc),
        }
    }

    /// The accesses with their replies.
    pub fn entries(&self) -> &[(Access, Reply)]
        ensures { result.now ≡ self.now }
    {
        self.entries.as_slice()
    }

    /// The cells that were touched, each with the join of its modes.
    pub fn footprint(&self) -> &Footprint
        ensures { result.now ≡ footprint_of self.now }
    {
        &self.footprint
    }

    /// The same, when nothing else is wanted any more.
    pub fn into_footprint(self) -> Footprint
        ensures { result ≡ footprint_of self }
    {
        self.footprint
    }

    /// Whether the access would touch a cell more than an operation may.
    pub fn is_full_for(&self, access: &Access) -> bool
        ensures { result ≡ is_one_too_many access.now self.now }
    {
        MOST_CELLS <= self.footprint.len() && mode_in(&self.footprint, access).is_none()
    }

    /// Notes an access with its reply.
    pub fn note(&mut self, alloc: Global, access: Access, reply: Reply) -> Result<(), AllocError>
        ensures { OnOk result (self.new ≡ self.old ++ (access, reply) ∷ []) }
    {
        self.entries.reserve(1)?;
        touch(&mut self.footprint, alloc, &access)?;
        self.entries.push((access, reply)).unwrap();
        Ok(())
    }
}
