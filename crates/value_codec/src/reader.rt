//! Reading values.

ghost use Rattle.std.specs.Prelude.{◌≡◌, ◌≤◌, None, length, drop, IfOk};
ghost use Rattle.std.specs.Int.{w32};
ghost use Rattle.byte_fields.specs.Readers.{both, made, many, number, with};
ghost use Rattle.byte_fields.specs.Told.{AnswersUnlessFull, placed, read_stop, field_fault};
ghost use Rattle.byte_fields.specs.Laws.{Spelt, TellsSpelt};
ghost use Rattle.value_core.specs.declared.val.Val.TheVariants as variant;
ghost use Rattle.value_core.specs.Lasts.{is_above, last_item, last_key};
ghost use Rattle.value_codec.specs.Spelling.{spell, IsSpelt};
ghost use Rattle.value_codec.specs.Reading.{ascending, behind, entries, is_tag, value};

use crate::leaves::{addr_at, big_map_at, blob_at, int_at, mutez_at, nat_at, text_at, time_at};
use crate::tag::ANY_VALUE;
use byte_fields::{FieldFault, ReadStop, fault_at, u8_at, u32_at};
use sqlite_items::Items;
use std::alloc::Global;
use std::cmp::Ordering;
use value_core::{Val, compare, left, pair, right, some};

/// The value that is spelt at the place, and the place after it.
pub fn read_val(alloc: Global, bytes: &[u8], at: usize) -> Result<(Val, usize), FieldFault>
    requires { at ≤ length bytes.now }
    // What is read is spelt there.
    ensures found { IfOk result (Spelt spell (IsSpelt ANY_VALUE 128) bytes.now at) }
    // What is spelt there is read, unless memory runs out.
    ensures only { TellsSpelt field_fault spell (IsSpelt ANY_VALUE 128) bytes.now at result }
    // Which fault it is.
    ensures exact { AnswersUnlessFull field_fault (λ x. x) result
        (placed (length bytes.now) (value ANY_VALUE 128 (drop at bytes.now))) }
{
    read_placed(alloc, bytes, at)
}

fn read_placed(alloc: Global, bytes: &[u8], at: usize) -> Result<(Val, usize), FieldFault>
    requires { at ≤ length bytes.now }
    ensures { AnswersUnlessFull field_fault (λ x. x) result
        (placed (length bytes.now) (value ANY_VALUE 128 (drop at bytes.now))) }
{
    match value_at(alloc, ANY_VALUE, 128, &bytes[at..]) {
        Ok((v, rest)) => Ok((v, bytes.len().saturating_sub(rest.len()))),
        Err(stop) => Err(fault_at(bytes.len(), stop)),
    }
}

/// A value at most so many levels deep with no tag above `most`, and the bytes after it.
#[cycle(reading)]
#[tactic(auto, unfolding(crate::specs::Reading::value))]
pub fn value_at(alloc: Global, most: u8, depth: u32, bytes: &[u8]) -> Result<(Val, &[u8]), ReadStop>
    ensures { AnswersUnlessFull read_stop (λ x. (x.0, x.1.now)) result
        (value most depth bytes.now) }
{
    if depth == 0 {
        return Err(ReadStop::Left(bytes.len()));
    }
    let (tag, rest) = u8_at(bytes)?;
    if !may_stand(most, tag) {
        return Err(ReadStop::Left(bytes.len()));
    }
    behind(alloc, most, depth - 1, tag, rest)
}

fn may_stand(most: u8, tag: u8) -> bool
    ensures { result ≡ is_tag most tag }
{
    tag <= most && tag <= ANY_VALUE
}

/// What stands behind a tag.
#[cycle(reading)]
fn behind(
    alloc: Global,
    most: u8,
    depth: u32,
    tag: u8,
    bytes: &[u8],
) -> Result<(Val, &[u8]), ReadStop>
    ensures { AnswersUnlessFull read_stop (λ x. (x.0, x.1.now)) result
        (behind (value most depth) tag bytes.now) }
{
    match tag {
        0 => Ok((Val::Unit, bytes)),
        1 => Ok((Val::Bool(false), bytes)),
        2 => Ok((Val::Bool(true), bytes)),
        3 => Ok(int_at(bytes)?),
        4 => Ok(nat_at(bytes)?),
        5 => Ok(mutez_at(bytes)?),
        6 => Ok(time_at(bytes)?),
        7 => text_at(alloc, bytes),
        8 => blob_at(alloc, bytes),
        9 => Ok(addr_at(bytes)?),
        10 => Ok((Val::Nothing, bytes)),
        11 => some_at(alloc, most, depth, bytes),
        12 => left_at(alloc, most, depth, bytes),
        13 => right_at(alloc, most, depth, bytes),
        14 => pair_at(alloc, most, depth, bytes),
        15 => list_at(alloc, most, depth, bytes),
        16 => set_at(alloc, most, depth, bytes),
        17 => map_at(alloc, most, depth, bytes),
        18 => Ok(big_map_at(bytes)?),
        _ => Err(ReadStop::Left(bytes.len())),
    }
}

/// What stands behind the tag of an option with its value.
#[cycle(reading)]
fn some_at(alloc: Global, most: u8, depth: u32, bytes: &[u8]) -> Result<(Val, &[u8]), ReadStop>
    ensures { AnswersUnlessFull read_stop (λ x. (x.0, x.1.now)) result
        (made variant.Some (value most depth) bytes.now) }
{
    let (part, rest) = value_at(alloc, most, depth, bytes)?;
    Ok((some(alloc, part)?, rest))
}

/// What stands behind the tag of the left of an `or`.
#[cycle(reading)]
fn left_at(alloc: Global, most: u8, depth: u32, bytes: &[u8]) -> Result<(Val, &[u8]), ReadStop>
    ensures { AnswersUnlessFull read_stop (λ x. (x.0, x.1.now)) result
        (made variant.Left (value most depth) bytes.now) }
{
    let (part, rest) = value_at(alloc, most, depth, bytes)?;
    Ok((left(alloc, part)?, rest))
}

/// What stands behind the tag of the right of an `or`.
#[cycle(reading)]
fn right_at(alloc: Global, most: u8, depth: u32, bytes: &[u8]) -> Result<(Val, &[u8]), ReadStop>
    ensures { AnswersUnlessFull read_stop (λ x. (x.0, x.1.now)) result
        (made variant.Right (value most depth) bytes.now) }
{
    let (part, rest) = value_at(alloc, most, depth, bytes)?;
    Ok((right(alloc, part)?, rest))
}

/// What stands behind the tag of a pair.
#[cycle(reading)]
fn pair_at(alloc: Global, most: u8, depth: u32, bytes: &[u8]) -> Result<(Val, &[u8]), ReadStop>
    ensures { AnswersUnlessFull read_stop (λ x. (x.0, x.1.now)) result
        (made (λ p. variant.Pair p.0 p.1) (both (value most depth) (value most depth)) bytes.now) }
{
    let (a, rest) = value_at(alloc, most, depth, bytes)?;
    let (b, rest) = value_at(alloc, most, depth, rest)?;
    Ok((pair(alloc, a, b)?, rest))
}

/// What stands behind the tag of a list.
#[cycle(reading)]
fn list_at(alloc: Global, most: u8, depth: u32, bytes: &[u8]) -> Result<(Val, &[u8]), ReadStop>
    ensures { AnswersUnlessFull read_stop (λ x. (x.0, x.1.now)) result
        (made variant.List (with (number w32) (many (value most depth))) bytes.now) }
{
    let (count, rest) = u32_at(bytes)?;
    let (items, rest) = items_at(alloc, most, depth, count, rest)?;
    Ok((Val::List(items), rest))
}

/// What stands behind the tag of a set.
#[cycle(reading)]
fn set_at(alloc: Global, most: u8, depth: u32, bytes: &[u8]) -> Result<(Val, &[u8]), ReadStop>
    ensures { AnswersUnlessFull read_stop (λ x. (x.0, x.1.now)) result
        (made variant.Set (with (number w32) (ascending (value most depth) None)) bytes.now) }
{
    let (count, rest) = u32_at(bytes)?;
    let (items, rest) = ascending_at(alloc, most, depth, count, rest)?;
    Ok((Val::Set(items), rest))
}

/// What stands behind the tag of a map.
#[cycle(reading)]
fn map_at(alloc: Global, most: u8, depth: u32, bytes: &[u8]) -> Result<(Val, &[u8]), ReadStop>
    ensures { AnswersUnlessFull read_stop (λ x. (x.0, x.1.now)) result
        (made variant.Map (with (number w32) (entries (value most depth) None)) bytes.now) }
{
    let (count, rest) = u32_at(bytes)?;
    let (entries, rest) = entries_at(alloc, most, depth, count, rest)?;
    Ok((Val::Map(entries), rest))
}

#[cycle(reading)]
fn items_at(
    alloc: Global,
    most: u8,
    depth: u32,
    count: u32,
    bytes: &[u8],
) -> Result<(Items<Val>, &[u8]), ReadStop>
    ensures { AnswersUnlessFull read_stop (λ x. (x.0, x.1.now)) result
        (many (value most depth) count bytes.now) }
{
    let mut items = Items::new(alloc);
    let mut rest = bytes;
    for _ in 0..count {
        let (item, after) = value_at(alloc, most, depth, rest)?;
        items.push(item)?;
        rest = after;
    }
    Ok((items, rest))
}

#[cycle(reading)]
fn ascending_at(
    alloc: Global,
    most: u8,
    depth: u32,
    count: u32,
    bytes: &[u8],
) -> Result<(Items<Val>, &[u8]), ReadStop>
    ensures { AnswersUnlessFull read_stop (λ x. (x.0, x.1.now)) result
        (ascending (value most depth) None count bytes.now) }
{
    let mut items: Items<Val> = Items::new(alloc);
    let mut rest = bytes;
    for _ in 0..count {
        let (item, after) = value_at(alloc, most, depth, rest)?;
        if !is_above_last(items.as_slice(), &item) {
            return Err(ReadStop::Left(rest.len()));
        }
        items.push(item)?;
        rest = after;
    }
    Ok((items, rest))
}

#[cycle(reading)]
fn entries_at(
    alloc: Global,
    most: u8,
    depth: u32,
    count: u32,
    bytes: &[u8],
) -> Result<(Items<(Val, Val)>, &[u8]), ReadStop>
    ensures { AnswersUnlessFull read_stop (λ x. (x.0, x.1.now)) result
        (entries (value most depth) None count bytes.now) }
{
    let mut entries: Items<(Val, Val)> = Items::new(alloc);
    let mut rest = bytes;
    for _ in 0..count {
        let (key, after) = value_at(alloc, most, depth, rest)?;
        if !is_above_last_key(entries.as_slice(), &key) {
            return Err(ReadStop::Left(rest.len()));
        }
        let (item, after) = value_at(alloc, most, depth, after)?;
        entries.push((key, item))?;
        rest = after;
    }
    Ok((entries, rest))
}

fn is_above_last(items: &[Val], item: &Val) -> bool
    ensures { result ≡ is_above (last_item items.now) item.now }
{
    match items.last() {
        None => true,
        Some(last) => compare(last, item) == Ordering::Less,
    }
}

fn is_above_last_key(entries: &[(Val, Val)], key: &Val) -> bool
    ensures { result ≡ is_above (last_key entries.now) key.now }
{
    match entries.last() {
        None => true,
        Some(last) => compare(&last.0, key) == Ordering::Less,
    }
}
