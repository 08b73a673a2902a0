//! The slots of all names, and what a call does to the one of its name.
ghost use Rattle.std.specs.Prelude.{◌≡◌, ◌<◌, ◌≤◌, ◌||◌, length, is_none, is_some, is_err, None, Some, IfOk, IfSome, IfNone, IsErrOf, IsSomeAnd, OnOk, OnErr};
ghost use Rattle.std.specs.Option.{option_copied};
ghost use Rattle.std.specs.FinMap as map;
ghost use Rattle.edge_io.specs.Outside.{most_bytes};
ghost use Rattle.edge_io.specs.Shelf.{FailsWhere, marked_read, marked_roomy, held_written, marked_written};
ghost use Rattle.edge_io.specs.Slots.{slot_at, held_of, marked_of, IsPlaceOf, Puts};
ghost use Rattle.edge_io.specs.declared.files.ReadEnd.TheVariants.{TooLong as too_long};

use crate::files::{Failed, NoMemory, ReadEnd};
use crate::slot::Slot;
use std::alloc::Global;

/// The place of the first slot of a name.
pub fn place_of(slots: &[Slot], name: &str) -> Option<usize>
    ensures within { IfSome result (λ i. i < length slots.now) }
    ensures found { IfSome result (λ i. IsPlaceOf slots.now name.now i) }
    ensures none { IfNone result (slot_at slots.now name.now ≡ None) }
{
    for (i, slot) in slots.iter().enumerate() {
        if slot.is_named(name) {
            return Some(i);
        }
    }
    None
}

/// The file of a name, where it is there.
pub fn file_of<'a>(slots: &'a [Slot], name: &str) -> Option<&'a [u8]>
    ensures { option_copied result ≡ map.get (held_of slots.now) name.now }
{
    match place_of(slots, name) {
        Some(i) => {
            let slot = &slots[i];
            slot.file()
        }
        None => None,
    }
}

/// Adds the slot of a name that has none.
fn add(slots: &mut Vec<Slot>, slot: Slot) -> Result<(), NoMemory>
    requires { slot_at slots.old.items slot.name ≡ None }
    ensures added { OnOk result (Puts slots.old.items slot.name slot slots.new.items) }
    ensures unchanged { OnErr result (slots.new.items ≡ slots.old.items) }
{
    slots.push(slot)?;
    Ok(())
}

/// Reads the file of a name. It isn't there where the name has no slot.
pub fn read(
    slots: &mut Vec<Slot>,
    alloc: Global,
    name: &str,
    fails: bool,
) -> Result<Vec<u8>, ReadEnd>
    ensures fails { FailsWhere (fails || is_none (map.get (held_of slots.old.items) name.now))
        (is_some (map.get (marked_of slots.old.items) name.now)) result }
    ensures short { IfOk result (λ v. length v.items ≤ most_bytes) }
    ensures bytes { IfOk result (λ v. map.get (held_of slots.old.items) name.now ≡ Some v.items) }
    ensures long { IsErrOf result too_long
        → IsSomeAnd (map.get (held_of slots.old.items) name.now) (λ b. most_bytes < length b) }
    ensures held { held_of slots.new.items ≡ held_of slots.old.items }
    ensures marked { marked_of slots.new.items
        ≡ marked_read (marked_of slots.old.items) name.now result }
{
    match place_of(slots, name) {
        Some(i) => {
            let slot = &mut slots[i];
            slot.read(alloc, fails)
        }
        None => {
            let mut slot = Slot::new(alloc, name)?;
            slot.note_read_fault();
            add(slots, slot)?;
            Err(ReadEnd::Failed)
        }
    }
}

/// Makes room under a name.
pub fn ready(slots: &mut Vec<Slot>, alloc: Global, name: &str, n: usize) -> Result<(), NoMemory>
    ensures held { held_of slots.new.items ≡ held_of slots.old.items }
    ensures made { OnOk result (marked_of slots.new.items
        ≡ marked_roomy (marked_of slots.old.items) name.now n) }
    ensures unchanged { OnErr result (marked_of slots.new.items ≡ marked_of slots.old.items) }
{
    match place_of(slots, name) {
        Some(i) => {
            let slot = &mut slots[i];
            slot.make_room(n)
        }
        None => {
            let mut slot = Slot::new(alloc, name)?;
            slot.make_room(n)?;
            add(slots, slot)?;
            Ok(())
        }
    }
}

/// Makes the bytes the file of a name, and room for as many.
pub fn put(slots: &mut Vec<Slot>, alloc: Global, name: &str, bytes: &[u8]) -> Result<(), NoMemory>
    ensures held { OnOk result (held_of slots.new.items
        ≡ map.insert (held_of slots.old.items) name.now bytes.now) }
    ensures marked { OnOk result (marked_of slots.new.items
        ≡ marked_roomy (marked_of slots.old.items) name.now (length bytes.now)) }
    ensures same_held { OnErr result (held_of slots.new.items ≡ held_of slots.old.items) }
    ensures same_marked { OnErr result (marked_of slots.new.items ≡ marked_of slots.old.items) }
{
    match place_of(slots, name) {
        Some(i) => {
            let slot = &mut slots[i];
            slot.make_room(bytes.len())?;
            slot.put(bytes);
            Ok(())
        }
        None => {
            let mut slot = Slot::new(alloc, name)?;
            slot.make_room(bytes.len())?;
            slot.put(bytes);
            add(slots, slot)?;
            Ok(())
        }
    }
}

/// Makes the bytes the file of a name, within its room.
pub fn write(slots: &mut Vec<Slot>, name: &str, bytes: &[u8], fails: bool) -> Result<(), Failed>
    requires { IsSomeAnd (map.get (marked_of slots.old.items) name.now)
        (λ m. length bytes.now ≤ m.room) }
    ensures fails { is_err result ≡ fails }
    ensures held { held_of slots.new.items
        ≡ held_written (held_of slots.old.items) name.now bytes.now result }
    ensures marked { marked_of slots.new.items
        ≡ marked_written (marked_of slots.old.items) name.now result }
{
    let Some(i) = place_of(slots, name) else {
        unreachable!()
    };
    let slot = &mut slots[i];
    if fails {
        slot.note_write_fault();
        return Err(Failed);
    }
    slot.put(bytes);
    Ok(())
}
