//! Words of instructions, by what stands behind them.

ghost use Rattle.std.specs.Prelude.{◌≡◌};
ghost use Rattle.std.specs.Option.{option_map};
ghost use Rattle.std.specs.List.{list_any};
ghost use Rattle.std.specs.Str.{bytes_eq};
ghost use Rattle.michelson_reader.specs.Makers.{is_code_word};
ghost use Rattle.michelson_reader.specs.Names.{forms_of_body, forms_of_number, forms_of_two_bodies, forms_of_type, is_in, named, other_forms, plain_forms};

use crate::plain_forms::plain_form;
use crate::words::is_word;
use michelson_code::{Code, Instr};
use sqlite_items::Items;
use std::alloc::Global;
use value_core::Ty;

/// The least number of a word that takes one, and its instruction with this number.
pub(crate) fn with_number(name: &[u8], n: u32) -> Option<(u32, Instr)>
    ensures { result ≡ option_map (λ f. (f.0, f.1 n)) (named name.now forms_of_number) }
{
    match name {
        _ if is_word(name, "DROP") => Some((0, Instr::DropN(n))),
        _ if is_word(name, "DUP") => Some((1, Instr::DupN(n))),
        _ if is_word(name, "DIG") => Some((0, Instr::Dig(n))),
        _ if is_word(name, "DUG") => Some((0, Instr::Dug(n))),
        _ if is_word(name, "PAIR") => Some((2, Instr::PairN(n))),
        _ if is_word(name, "UNPAIR") => Some((2, Instr::UnpairN(n))),
        _ => None,
    }
}

/// The instruction with a type, of a word that takes one.
pub(crate) fn with_type(name: &[u8], t: Ty) -> Option<Instr>
    ensures { result ≡ option_map (λ f. f t) (named name.now forms_of_type) }
{
    match name {
        _ if is_word(name, "NONE") => Some(Instr::None(t)),
        _ if is_word(name, "LEFT") => Some(Instr::Left(t)),
        _ if is_word(name, "RIGHT") => Some(Instr::Right(t)),
        _ if is_word(name, "NIL") => Some(Instr::Nil(t)),
        _ if is_word(name, "CAST") => Some(Instr::Cast(t)),
        _ if is_word(name, "EMPTY_SET") => Some(Instr::EmptySet(t)),
        _ => None,
    }
}

/// The instruction with a body, of a word that takes one.
pub(crate) fn with_body(name: &[u8], body: Code) -> Option<Instr>
    ensures { result ≡ option_map (λ f. f body) (named name.now forms_of_body) }
{
    match name {
        _ if is_word(name, "DIP") => Some(Instr::Dip(body)),
        _ if is_word(name, "LOOP") => Some(Instr::Loop(body)),
        _ if is_word(name, "LOOP_LEFT") => Some(Instr::LoopLeft(body)),
        _ if is_word(name, "ITER") => Some(Instr::Iter(body)),
        _ if is_word(name, "MAP") => Some(Instr::Map(body)),
        _ => None,
    }
}

/// The instruction with two bodies, of a word that takes two.
pub(crate) fn with_two_bodies(name: &[u8], first: Code, second: Code) -> Option<Instr>
    ensures { result ≡ option_map (λ f. f first second) (named name.now forms_of_two_bodies) }
{
    match name {
        _ if is_word(name, "IF") => Some(Instr::If(first, second)),
        _ if is_word(name, "IF_NONE") => Some(Instr::IfNone(first, second)),
        _ if is_word(name, "IF_LEFT") => Some(Instr::IfLeft(first, second)),
        _ if is_word(name, "IF_CONS") => Some(Instr::IfCons(first, second)),
        _ => None,
    }
}

pub(crate) fn is_code_word(alloc: Global, name: &[u8]) -> bool
    ensures { result ≡ is_code_word name.now }
{
    is_plain_form(name)
        || takes_number(name)
        || takes_type(name)
        || takes_body(alloc, name)
        || takes_two_bodies(alloc, name)
        || is_other_form(name)
}

fn is_plain_form(name: &[u8]) -> bool
    ensures { result ≡ is_in name.now plain_forms }
{
    match plain_form(name) {
        Some(_) => true,
        None => false,
    }
}

fn takes_number(name: &[u8]) -> bool
    ensures { result ≡ is_in name.now forms_of_number }
{
    with_number(name, 0).is_some()
}

pub(crate) fn takes_type(name: &[u8]) -> bool
    ensures { result ≡ is_in name.now forms_of_type }
{
    with_type(name, Ty::Unit).is_some()
}

pub(crate) fn takes_body(alloc: Global, name: &[u8]) -> bool
    ensures { result ≡ is_in name.now forms_of_body }
{
    with_body(name, Items::new(alloc)).is_some()
}

pub(crate) fn takes_two_bodies(alloc: Global, name: &[u8]) -> bool
    ensures { result ≡ is_in name.now forms_of_two_bodies }
{
    with_two_bodies(name, Items::new(alloc), Items::new(alloc)).is_some()
}

/// `SELF %e`, `CONTRACT %e t`, `PUSH t v` and `EMPTY_MAP k v` have forms of their own.
fn is_other_form(name: &[u8]) -> bool
    ensures { result ≡ list_any (bytes_eq name.now) other_forms }
{
    is_word(name, "SELF")
        || is_word(name, "CONTRACT")
        || is_word(name, "PUSH")
        || is_word(name, "EMPTY_MAP")
}
