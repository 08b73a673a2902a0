//! Instructions, read from nodes.

ghost use Rattle.std.specs.Prelude.{◌≡◌, map};
ghost use Rattle.michelson_reader.specs.CodeFaults.{alone, applied, code_read, instruction_read, number, with_one, with_two};
ghost use Rattle.michelson_reader.specs.Operands.{bodies_form, body_form, contract_read, dip_read, empty_map_read, formed, number_form, push_read, type_form};
ghost use Rattle.micheline_text.specs.Told.{AnswersUnlessFull};
ghost use Rattle.michelson_reader.specs.Answers.{read_fault};
ghost use Rattle.michelson_reader.specs.Returned.{each, read_of};

use crate::code_words::{
    takes_body, takes_two_bodies, takes_type, with_body, with_number, with_two_bodies, with_type,
};
use crate::entries::entry;
use crate::fault::ReadFault;
use crate::plain_forms::plain_form;
use crate::pushed::pushed;
use crate::types::read_type;
use crate::words::{is_word, no_form};
use micheline_text::{Body, Node};
use michelson_code::{Code, Instr};
use sqlite_items::Items;
use std::alloc::Global;

/// The code that a node is written for: instructions in braces.
#[cycle(reading_code)]
pub(crate) fn read_code(alloc: Global, n: &Node) -> Result<Code, ReadFault>
    ensures { AnswersUnlessFull read_fault (λ c. c) result (code_read n.now) }
{
    let at = n.at as usize;
    match &n.body {
        Body::Seq(nodes) => in_order(alloc, nodes.as_slice()),
        Body::Prim { name, .. } => Err(no_form(alloc, at, name.as_slice())),
        _ => Err(ReadFault::Arity(at)),
    }
}

#[cycle(reading_code)]
fn in_order(alloc: Global, nodes: &[Node]) -> Result<Code, ReadFault>
    ensures { AnswersUnlessFull read_fault (λ c. c) result (each (map instruction_read nodes.now)) }
{
    let mut code = Items::new(alloc);
    for node in nodes {
        code.push(instruction(alloc, node)?)?;
    }
    Ok(code)
}

#[cycle(reading_code)]
fn instruction(alloc: Global, n: &Node) -> Result<Instr, ReadFault>
    ensures { AnswersUnlessFull read_fault (λ i. i) result (instruction_read n.now) }
{
    let at = n.at as usize;
    match &n.body {
        Body::Prim { name, notes, args } => {
            let notes = notes.as_slice();
            applied(alloc, at, name.as_slice(), notes, args.as_slice())
        }
        _ => Err(ReadFault::Arity(at)),
    }
}

#[cycle(reading_code)]
fn applied(
    alloc: Global,
    at: usize,
    name: &[u8],
    notes: &[Items<u8>],
    args: &[Node],
) -> Result<Instr, ReadFault>
    ensures { AnswersUnlessFull read_fault (λ i. i) result
        (applied at name.now notes.now (map read_of args.now)) }
{
    match args {
        [] => alone(alloc, at, name, notes),
        [operand] => with_one(alloc, at, name, notes, operand),
        [first, second] => with_two(alloc, at, name, first, second),
        _ => Err(no_form(alloc, at, name)),
    }
}

fn alone(alloc: Global, at: usize, name: &[u8], notes: &[Items<u8>]) -> Result<Instr, ReadFault>
    ensures { AnswersUnlessFull read_fault (λ i. i) result (alone at name.now notes.now) }
{
    if is_word(name, "SELF") {
        return Ok(Instr::SelfEntry(entry(at, notes)?));
    }
    match plain_form(name) {
        Some(instr) => Ok(instr),
        None => Err(no_form(alloc, at, name)),
    }
}

#[cycle(reading_code)]
fn with_one(
    alloc: Global,
    at: usize,
    name: &[u8],
    notes: &[Items<u8>],
    operand: &Node,
) -> Result<Instr, ReadFault>
    ensures { AnswersUnlessFull read_fault (λ i. i) result
        (with_one at name.now notes.now (read_of operand.now)) }
{
    if is_word(name, "CONTRACT") {
        return contract(alloc, at, notes, operand);
    }
    if let Some((least, _)) = with_number(name, 0) {
        return number_form(alloc, at, name, least, operand);
    }
    if takes_type(name) {
        return type_form(alloc, at, name, operand);
    }
    if takes_body(alloc, name) {
        return body_form(alloc, at, name, operand);
    }
    Err(no_form(alloc, at, name))
}

fn contract(
    alloc: Global,
    at: usize,
    notes: &[Items<u8>],
    operand: &Node,
) -> Result<Instr, ReadFault>
    ensures { AnswersUnlessFull read_fault (λ i. i) result
        (contract_read at notes.now operand.now) }
{
    let entry = entry(at, notes)?;
    Ok(Instr::Contract(entry, read_type(alloc, operand)?))
}

/// The instruction of a word, or that the word has no such form.
fn formed(alloc: Global, at: usize, name: &[u8], instr: Option<Instr>) -> Result<Instr, ReadFault>
    ensures { AnswersUnlessFull read_fault (λ i. i) result (formed at name.now instr) }
{
    match instr {
        Some(instr) => Ok(instr),
        None => Err(no_form(alloc, at, name)),
    }
}

fn number_form(
    alloc: Global,
    at: usize,
    name: &[u8],
    least: u32,
    operand: &Node,
) -> Result<Instr, ReadFault>
    ensures { AnswersUnlessFull read_fault (λ i. i) result
        (number_form at name.now least operand.now) }
{
    let n = number(alloc, at, least, operand)?;
    match with_number(name, n) {
        Some((_, instr)) => Ok(instr),
        None => Err(no_form(alloc, at, name)),
    }
}

fn type_form(alloc: Global, at: usize, name: &[u8], operand: &Node) -> Result<Instr, ReadFault>
    ensures { AnswersUnlessFull read_fault (λ i. i) result (type_form at name.now operand.now) }
{
    let t = read_type(alloc, operand)?;
    formed(alloc, at, name, with_type(name, t))
}

#[cycle(reading_code)]
fn body_form(alloc: Global, at: usize, name: &[u8], operand: &Node) -> Result<Instr, ReadFault>
    ensures { AnswersUnlessFull read_fault (λ i. i) result (body_form at name.now operand.now) }
{
    let body = read_code(alloc, operand)?;
    formed(alloc, at, name, with_body(name, body))
}

#[cycle(reading_code)]
fn with_two(
    alloc: Global,
    at: usize,
    name: &[u8],
    first: &Node,
    second: &Node,
) -> Result<Instr, ReadFault>
    ensures { AnswersUnlessFull read_fault (λ i. i) result
        (with_two at name.now (read_of first.now) (read_of second.now)) }
{
    if is_word(name, "PUSH") {
        return push(alloc, first, second);
    }
    if is_word(name, "EMPTY_MAP") {
        return empty_map(alloc, first, second);
    }
    if is_word(name, "DIP") {
        return dip(alloc, at, first, second);
    }
    if takes_two_bodies(alloc, name) {
        return bodies_form(alloc, at, name, first, second);
    }
    Err(no_form(alloc, at, name))
}

fn push(alloc: Global, first: &Node, second: &Node) -> Result<Instr, ReadFault>
    ensures { AnswersUnlessFull read_fault (λ i. i) result (push_read first.now second.now) }
{
    let t = read_type(alloc, first)?;
    let v = pushed(alloc, &t, second)?;
    Ok(Instr::Push(t, v))
}

fn empty_map(alloc: Global, first: &Node, second: &Node) -> Result<Instr, ReadFault>
    ensures { AnswersUnlessFull read_fault (λ i. i) result (empty_map_read first.now second.now) }
{
    let k = read_type(alloc, first)?;
    Ok(Instr::EmptyMap(k, read_type(alloc, second)?))
}

#[cycle(reading_code)]
fn dip(alloc: Global, at: usize, first: &Node, second: &Node) -> Result<Instr, ReadFault>
    ensures { AnswersUnlessFull read_fault (λ i. i) result (dip_read at first.now second.now) }
{
    let n = number(alloc, at, 0, first)?;
    Ok(Instr::DipN(n, read_code(alloc, second)?))
}

#[cycle(reading_code)]
fn bodies_form(
    alloc: Global,
    at: usize,
    name: &[u8],
    first: &Node,
    second: &Node,
) -> Result<Instr, ReadFault>
    ensures { AnswersUnlessFull read_fault (λ i. i) result
        (bodies_form at name.now first.now second.now) }
{
    let body = read_code(alloc, first)?;
    let other = read_code(alloc, second)?;
    formed(alloc, at, name, with_two_bodies(name, body, other))
}

/// A number from `least` to 65,535. Out of range it is told at the instruction, and at itself
/// where it is no number.
fn number(alloc: Global, at: usize, least: u32, n: &Node) -> Result<u32, ReadFault>
    ensures { AnswersUnlessFull read_fault (λ n. n) result (number at least n.now) }
{
    let place = n.at as usize;
    match &n.body {
        Body::Int(z) if z.get() >= i128::from(least) && z.get() <= 65_535 => Ok(z.get() as u32),
        Body::Int(_) => Err(ReadFault::Arity(at)),
        Body::Prim { name, .. } => Err(no_form(alloc, place, name.as_slice())),
        _ => Err(ReadFault::Arity(place)),
    }
}
