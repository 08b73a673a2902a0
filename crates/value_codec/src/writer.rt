//! Writing values.

ghost use Rattle.std.specs.Prelude.{◌≡◌, ◌≤◌, ◌++◌, ◌∷◌, [], IfOk, OnOk, OnErr, IsTrue, length};
ghost use Rattle.std.specs.Int.{w8, w64, to_be_bytes};
ghost use Rattle.std.specs.List.{flat_map, list_all};
ghost use Rattle.value_core.specs.Lawful.{is_lawful, is_lawful_entry};
ghost use Rattle.value_core.specs.Sound.{is_plain};
ghost use Rattle.value_core.specs.Depth.{depth_of};
ghost use Rattle.value_codec.specs.Spelling.{word, measured_text, signed_word, spell, spell_entry, IsSpelt};

use crate::tag::ANY_VALUE;
use byte_fields::Draft;
use std::alloc::Global;
use value_core::{Address, NoMemory, Num, Val, leaves_are_lawful, level_is_lawful};

/// Appends the spelling of the value.
pub fn write_val(alloc: Global, v: &Val, out: &mut Vec<u8>) -> Result<(), NoMemory>
    requires plain { IsTrue (is_plain v.now) }
    requires deep { depth_of v.now ≤ 128 }
    ensures written { OnOk result (out.new.items ≡ out.old.items ++ spell v.now) }
    // So `read_val` reads it again, whatever follows.
    ensures spelt { OnOk result (IsSpelt ANY_VALUE 128 v.now) }
    ensures unchanged { OnErr result (out.new.items ≡ out.old.items) }
{
    let mut draft = Draft::on(alloc, out);
    let done = put_val(v, &mut draft);
    draft.close(done, out)
}

/// The spelling of any value, for texts that tell it; contracts and operations have none.
pub fn spelling(alloc: Global, v: &Val) -> Result<Vec<u8>, NoMemory>
    ensures { IfOk result (λ bytes. bytes.items ≡ spell v.now) }
{
    let mut bytes = Vec::new(alloc);
    append(alloc, v, &mut bytes)?;
    Ok(bytes)
}

fn append(alloc: Global, v: &Val, out: &mut Vec<u8>) -> Result<(), NoMemory>
    ensures { OnOk result (out.new.items ≡ out.old.items ++ spell v.now) }
{
    let mut draft = Draft::on(alloc, out);
    let done = put(v, &mut draft);
    draft.close(done, out)
}

/// Adds the spelling of the value to a draft.
pub fn put_val(v: &Val, draft: &mut Draft) -> Result<(), NoMemory>
    requires plain { IsTrue (is_plain v.now) }
    requires deep { depth_of v.now ≤ 128 }
    ensures added { OnOk result (draft.new.added ≡ draft.old.added ++ spell v.now) }
    ensures spelt { OnOk result (IsSpelt ANY_VALUE 128 v.now) }
    ensures before { draft.new.before ≡ draft.old.before }
{
    put(v, draft)
}

/// Adds the spelling of any value; contracts and operations have none.
#[cycle(writing)]
#[tactic(auto, using(crate::proofs::Spelt::spellings, value_core::proofs::LawfulLemmas::lawful_lists))]
fn put(v: &Val, draft: &mut Draft) -> Result<(), NoMemory>
    ensures added { OnOk result (draft.new.added ≡ draft.old.added ++ spell v.now) }
    ensures lawful { OnOk result (IsTrue (is_lawful v.now)) }
    ensures before { draft.new.before ≡ draft.old.before }
{
    level_is_lawful(v);
    match v {
        Val::Unit => draft.put_u8(0),
        Val::Bool(b) => draft.put_u8(if *b { 2 } else { 1 }),
        Val::Int(n) => put_num(3, *n, draft),
        Val::Nat(n) => put_num(4, *n, draft),
        Val::Mutez(n) => put_mutez(*n, draft),
        Val::Time(n) => put_num(6, *n, draft),
        Val::Text(text) => put_run(7, text.bytes(), draft),
        Val::Bytes(blob) => put_run(8, blob.bytes(), draft),
        Val::Addr(address) => put_address(address, draft),
        Val::Nothing => draft.put_u8(10),
        Val::Some(part) => {
            draft.put_u8(11)?;
            put(part.get(), draft)
        }
        Val::Left(part) => {
            draft.put_u8(12)?;
            put(part.get(), draft)
        }
        Val::Right(part) => {
            draft.put_u8(13)?;
            put(part.get(), draft)
        }
        Val::Pair(a, b) => {
            draft.put_u8(14)?;
            put(a.get(), draft)?;
            put(b.get(), draft)
        }
        Val::List(items) => put_items(15, items.as_slice(), draft),
        Val::Set(items) => put_items(16, items.as_slice(), draft),
        Val::Map(entries) => put_entries(entries.as_slice(), draft),
        Val::BigMap { place, .. } => put_place(*place, draft),
        Val::Contract(_, _) | Val::Operation(_) => put_nothing(v),
    }
}

#[cycle(writing)]
fn put_items(tag: u8, items: &[Val], draft: &mut Draft) -> Result<(), NoMemory>
    ensures added { OnOk result (draft.new.added ≡ draft.old.added
        ++ tag ∷ (word (length items.now) ++ flat_map spell items.now)) }
    ensures lawful { OnOk result (IsTrue (list_all is_lawful items.now)) }
    ensures before { draft.new.before ≡ draft.old.before }
{
    put_head(tag, items.len(), draft)?;
    for item in items {
        put(item, draft)?;
    }
    Ok(())
}

#[cycle(writing)]
fn put_entries(entries: &[(Val, Val)], draft: &mut Draft) -> Result<(), NoMemory>
    ensures added { OnOk result (draft.new.added ≡ draft.old.added
        ++ 17 ∷ (word (length entries.now) ++ flat_map spell_entry entries.now)) }
    ensures lawful { OnOk result (IsTrue (list_all is_lawful_entry entries.now)) }
    ensures before { draft.new.before ≡ draft.old.before }
{
    put_head(17, entries.len(), draft)?;
    for entry in entries {
        put(&entry.0, draft)?;
        put(&entry.1, draft)?;
    }
    Ok(())
}

// A plain value has neither in it.
fn put_nothing(v: &Val) -> Result<(), NoMemory>
    ensures { OnOk result (IsTrue (is_lawful v.now)) }
{
    leaves_are_lawful(v);
    Ok(())
}

fn put_num(tag: u8, n: Num, draft: &mut Draft) -> Result<(), NoMemory>
    ensures added { OnOk result (draft.new.added ≡ draft.old.added ++ tag ∷ signed_word n) }
    ensures before { draft.new.before ≡ draft.old.before }
{
    let number = n.get();
    draft.put_u8(tag)?;
    draft.put_i128(number)
}

fn put_mutez(n: u64, draft: &mut Draft) -> Result<(), NoMemory>
    ensures added { OnOk result (draft.new.added ≡ draft.old.added ++ 5 ∷ to_be_bytes w64 n) }
    ensures before { draft.new.before ≡ draft.old.before }
{
    draft.put_u8(5)?;
    draft.put_u64(n)
}

fn put_run(tag: u8, bytes: &[u8], draft: &mut Draft) -> Result<(), NoMemory>
    ensures added { OnOk result (draft.new.added ≡ draft.old.added
        ++ tag ∷ measured_text bytes.now) }
    ensures before { draft.new.before ≡ draft.old.before }
{
    put_head(tag, bytes.len(), draft)?;
    draft.put_run(bytes)
}

fn put_address(address: &Address, draft: &mut Draft) -> Result<(), NoMemory>
    ensures added { OnOk result (draft.new.added ≡ draft.old.added ++ 9 ∷ address.now) }
    ensures before { draft.new.before ≡ draft.old.before }
{
    let bytes = address.bytes();
    draft.put_u8(9)?;
    draft.put_run(bytes)
}

fn put_place(place: u8, draft: &mut Draft) -> Result<(), NoMemory>
    ensures added { OnOk result (draft.new.added ≡ draft.old.added ++ 18 ∷ to_be_bytes w8 place) }
    ensures before { draft.new.before ≡ draft.old.before }
{
    draft.put_u8(18)?;
    draft.put_u8(place)
}

fn put_head(tag: u8, count: usize, draft: &mut Draft) -> Result<(), NoMemory>
    ensures added { OnOk result (draft.new.added ≡ draft.old.added ++ tag ∷ word count) }
    ensures before { draft.new.before ≡ draft.old.before }
{
    draft.put_u8(tag)?;
    draft.put_count(count)
}
