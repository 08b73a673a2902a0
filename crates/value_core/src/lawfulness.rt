//! What stands in a value is what the program can hold.

ghost use Rattle.std.specs.Prelude.{◌&&◌, ◌^◌, IsTrue, nat_lt};
ghost use Rattle.std.specs.List.{list_all};
ghost use Rattle.value_core.specs.Lawful.{is_lawful, is_lawful_address, is_lawful_blob, is_lawful_entry, is_lawful_level, is_number};
ghost use Rattle.value_core.specs.Leaves.{is_name, is_text};
ghost use Rattle.value_core.specs.declared.val.Val.TheViews.{out-Val};

use crate::address::Address;
use crate::name::Name;
use crate::num::Num;
use crate::text::{Blob, Text};
use crate::val::{Emit, Val};

/// Each number, text, address and name in a value that the program holds keeps the rule of its
/// type.
#[cycle(lawful)]
#[tactic(auto, using(crate::proofs::LawfulLemmas::lawful_lists))]
pub fn leaves_are_lawful(v: &Val)
    ensures { IsTrue (is_lawful v.now) }
{
    let mut rest = v;
    loop {
        level_is_lawful(rest);
        match rest {
            Val::Some(part) | Val::Left(part) | Val::Right(part) => rest = part.get(),
            Val::Pair(a, b) => {
                leaves_are_lawful(a.get());
                rest = b.get();
            }
            Val::List(items) | Val::Set(items) => return items_are_lawful(items.as_slice()),
            Val::Map(entries) => return entries_are_lawful(entries.as_slice()),
            Val::Operation(emit) => rest = &emit.get().param,
            Val::Unit
            | Val::Bool(_)
            | Val::Int(_)
            | Val::Nat(_)
            | Val::Mutez(_)
            | Val::Time(_)
            | Val::Text(_)
            | Val::Bytes(_)
            | Val::Addr(_)
            | Val::Nothing
            | Val::BigMap { .. }
            | Val::Contract(_, _) => return,
        }
    }
}

#[cycle(lawful)]
fn items_are_lawful(items: &[Val])
    ensures { IsTrue (list_all is_lawful items.now) }
{
    for item in items {
        leaves_are_lawful(item);
    }
}

#[cycle(lawful)]
fn entries_are_lawful(entries: &[(Val, Val)])
    ensures { IsTrue (list_all is_lawful_entry entries.now) }
{
    for entry in entries {
        leaves_are_lawful(&entry.0);
        leaves_are_lawful(&entry.1);
    }
}

/// What stands in a value beside its parts keeps the rule of its type: a call that walks a value
/// tells so of all its levels on the way.
pub fn level_is_lawful(v: &Val)
    ensures { IsTrue (is_lawful_level (out-Val v.now)) }
{
    match v {
        Val::Int(n) | Val::Nat(n) | Val::Time(n) => number_is_lawful(*n),
        Val::Mutez(n) => amount_fits(*n),
        Val::Text(text) => text_is_lawful(text),
        Val::Bytes(blob) => blob_is_lawful(blob),
        Val::Addr(address) => address_is_lawful(address),
        Val::BigMap { place, version } => version_fits(*place, *version),
        Val::Contract(address, entry) => {
            address_is_lawful(address);
            name_is_lawful(entry);
        }
        Val::Operation(emit) => emit_is_lawful(emit.get()),
        Val::Unit
        | Val::Bool(_)
        | Val::Nothing
        | Val::Some(_)
        | Val::Left(_)
        | Val::Right(_)
        | Val::Pair(_, _)
        | Val::List(_)
        | Val::Set(_)
        | Val::Map(_) => {}
    }
}

fn number_is_lawful(n: Num)
    ensures { IsTrue (is_number n) }
{
    // Reading it tells its range.
    let _value = n.get();
}

fn amount_fits(n: u64)
    ensures { IsTrue (nat_lt n (2 ^ 64)) }
{}

fn version_fits(place: u8, version: u32)
    ensures { IsTrue (nat_lt place 256 && nat_lt version (2 ^ 32)) }
{}

fn address_is_lawful(address: &Address)
    ensures { IsTrue (is_lawful_address address.now) }
{
    let _bytes = address.bytes();
}

fn blob_is_lawful(blob: &Blob)
    ensures { IsTrue (is_lawful_blob blob.now) }
{
    let _bytes = blob.bytes();
}

fn text_is_lawful(text: &Text)
    ensures { IsTrue (is_text text.now) }
{
    let _bytes = text.bytes();
}

fn name_is_lawful(name: &Name)
    ensures { IsTrue (is_name name.now) }
{
    let _bytes = name.bytes();
}

fn emit_is_lawful(emit: &Emit)
    ensures { IsTrue (is_lawful_address emit.now.dest && is_name emit.now.entry
        && nat_lt emit.now.amount (2 ^ 64)) }
{
    address_is_lawful(&emit.dest);
    name_is_lawful(&emit.entry);
    amount_fits(emit.amount);
}
