//! Writing cells and footprints as bytes.

ghost use Rattle.std.specs.Prelude.{◌≡◌, ◌++◌, ◌∷◌, [], ◌<◌, ◌≤◌, length, IsTrue, OnOk, OnErr};
ghost use Rattle.std.specs.Int.{w8, to_be_bytes};
ghost use Rattle.std.specs.List.{flat_map, AllByRecursion};
ghost use Rattle.value_core.specs.Lawful.{is_lawful_address};
ghost use Rattle.value_codec.specs.Spelling.{spell, IsSpelt};
ghost use Rattle.cell_names.specs.Spelling.{spell_cell, spell_touch, spell_mode, spell_footprint, IsCell, IsFootprint, IsNamed, CanBeSpelt};

use crate::cell::{Cell, NoMemory};
use crate::footprint::{Footprint, MOST_CELLS};
use crate::mode::Mode;
use byte_fields::Draft;
use std::alloc::Global;
use value_codec::{KEY_VALUE, put_val};
use value_core::{Address, Val};

/// Appends the one spelling of the cell.
pub fn write_cell(alloc: Global, c: &Cell, out: &mut Vec<u8>) -> Result<(), NoMemory>
    requires { CanBeSpelt c.now }
    ensures written { OnOk result (out.new.items ≡ out.old.items ++ spell_cell c.now) }
    // So `read_cell` reads it again, whatever follows.
    ensures spelt { OnOk result (IsCell c.now) }
    ensures unchanged { OnErr result (out.new.items ≡ out.old.items) }
{
    let mut draft = Draft::on(alloc, out);
    let done = put_cell(c, &mut draft);
    draft.close(done, out)
}

/// Appends the one spelling of a footprint of no more cells than one operation may touch.
pub fn write_footprint(alloc: Global, f: &Footprint, out: &mut Vec<u8>) -> Result<(), NoMemory>
    requires few { length f.now ≤ MOST_CELLS }
    requires cells { AllByRecursion (λ t. CanBeSpelt t.0) f.now }
    ensures written { OnOk result (out.new.items ≡ out.old.items ++ spell_footprint f.now) }
    // So `read_footprint` reads it again, whatever follows.
    ensures spelt { OnOk result (IsFootprint f.now) }
    ensures unchanged { OnErr result (out.new.items ≡ out.old.items) }
{
    let mut draft = Draft::on(alloc, out);
    let done = put_footprint(f, &mut draft);
    draft.close(done, out)
}

fn put_footprint(f: &Footprint, draft: &mut Draft) -> Result<(), NoMemory>
    requires few { length f.now ≤ MOST_CELLS }
    requires cells { AllByRecursion (λ t. CanBeSpelt t.0) f.now }
    ensures added { OnOk result (draft.new.added ≡ draft.old.added ++ spell_footprint f.now) }
    ensures spelt { OnOk result (IsFootprint f.now) }
    ensures before { draft.new.before ≡ draft.old.before }
{
    draft.put_count(f.len())?;
    put_touches(f.touches(), draft)
}

fn put_touches(touches: &[(Cell, Mode)], draft: &mut Draft) -> Result<(), NoMemory>
    requires { AllByRecursion (λ t. CanBeSpelt t.0) touches.now }
    ensures added { OnOk result (draft.new.added
        ≡ draft.old.added ++ flat_map spell_touch touches.now) }
    ensures cells { OnOk result (AllByRecursion (λ t. IsCell t.0) touches.now) }
    ensures before { draft.new.before ≡ draft.old.before }
{
    for touch in touches {
        put_cell(&touch.0, draft)?;
        draft.put_u8(byte_of(touch.1))?;
    }
    Ok(())
}

fn put_cell(c: &Cell, draft: &mut Draft) -> Result<(), NoMemory>
    requires { CanBeSpelt c.now }
    ensures added { OnOk result (draft.new.added ≡ draft.old.added ++ spell_cell c.now) }
    ensures spelt { OnOk result (IsCell c.now) }
    ensures before { draft.new.before ≡ draft.old.before }
{
    match c {
        Cell::Balance(address) => {
            draft.put_u8(0)?;
            put_address(address, draft)
        }
        Cell::Storage(address) => {
            draft.put_u8(1)?;
            put_address(address, draft)
        }
        Cell::Entry(address, place, key) => put_entry(address, *place, key, draft),
    }
}

fn put_address(address: &Address, draft: &mut Draft) -> Result<(), NoMemory>
    ensures lawful { IsTrue (is_lawful_address address.now) }
    ensures added { OnOk result (draft.new.added ≡ draft.old.added ++ address.now) }
    ensures before { draft.new.before ≡ draft.old.before }
{
    draft.put_run(address.bytes().as_slice())
}

fn put_entry(a: &Address, place: u8, key: &Val, draft: &mut Draft) -> Result<(), NoMemory>
    requires { IsNamed place key.now }
    ensures added { OnOk result (draft.new.added ≡ draft.old.added
        ++ 2 ∷ (a.now ++ (to_be_bytes w8 place ++ spell key.now))) }
    ensures lawful { OnOk result (IsTrue (is_lawful_address a.now)) }
    ensures spelt { OnOk result (IsSpelt KEY_VALUE 128 key.now) }
    ensures before { draft.new.before ≡ draft.old.before }
{
    draft.put_u8(2)?;
    put_address(a, draft)?;
    draft.put_u8(place)?;
    put_val(key, draft)
}

fn byte_of(m: Mode) -> u8
    ensures { result ∷ [] ≡ spell_mode m }
{
    match m {
        Mode::Read => 0,
        Mode::Credit => 1,
        Mode::Own => 2,
    }
}
