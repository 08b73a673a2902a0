//! The lines about a text: why it is no script, why the script may not run or what it weighs, and why
//! it says no state.
ghost use Rattle.std.specs.Prelude.{◌≡◌, ◌++◌, IfOk, OnOk};
ghost use Rattle.michelson_code.specs.Weight.{code_count, code_weight};
ghost use Rattle.block_cli.specs.Checking.{typed_line};
ghost use Rattle.block_cli.specs.Faulty.{at_offset, chain_fault, chain_kind_name, data_kind_name, dotted, path_text, read_fault, text_fault, type_fault, type_kind_name};
ghost use Rattle.block_cli.specs.Report.{bad_input_line};

use crate::report::{line_of, numbered, put_number};
use chain_text::{ChainFault, ChainKind};
use data_nodes::{DataFault, DataKind};
use micheline_text::TextFault;
use michelson_code::{
    TypeKind, Typed, a_code_weighs_at_most_ten_times_its_count, a_typed_script_is_short, count,
    weight,
};
use michelson_reader::ReadFault;
use michelson_typer::TypeFault;
use std::alloc::{AllocError, Global};

/// The text is no script's, and why.
pub fn no_script(alloc: Global, name: &str, fault: &ReadFault) -> Result<Vec<u8>, AllocError>
    ensures { IfOk result (λ v. v.items ≡ bad_input_line name.now (read_fault fault.now)) }
{
    let why = read_fault(alloc, fault)?;
    line_of(alloc, name.as_bytes(), b": ", &why)
}

/// The script isn't typed, and why.
pub fn untyped(alloc: Global, name: &str, fault: &TypeFault) -> Result<Vec<u8>, AllocError>
    ensures { IfOk result (λ v.
        v.items ≡ bad_input_line name.now (type_fault fault.now.path.items fault.now.kind)) }
{
    let mut why = Vec::from_slice(alloc, type_kind_name(fault.kind))?;
    why.extend_from_slice(b" at ")?;
    put_path(alloc, &fault.path, &mut why)?;
    line_of(alloc, name.as_bytes(), b": ", &why)
}

/// The script may run: what its code weighs, and how many instructions it has.
pub fn typed(alloc: Global, typed: &Typed) -> Result<Vec<u8>, AllocError>
    ensures { IfOk result (λ v. v.items ≡ typed_line typed.now.script) }
{
    let mut text = numbered(alloc, b"ok: weight ", weight_of(typed))?;
    text.extend_from_slice(b", instructions ")?;
    put_number(alloc, count_of(typed), &mut text)?;
    text.push(b'\n')?;
    Ok(text)
}

/// The text says no state, and why.
pub fn no_state(alloc: Global, name: &str, fault: &ChainFault) -> Result<Vec<u8>, AllocError>
    ensures { IfOk result (λ v. v.items ≡ bad_input_line name.now (chain_fault fault.now)) }
{
    let mut why = Vec::from_slice(alloc, chain_kind_name(fault.kind))?;
    why.extend_from_slice(b" at line ")?;
    put_number(alloc, u64::from(fault.line), &mut why)?;
    line_of(alloc, name.as_bytes(), b": ", &why)
}

/// What the code weighs: so short a code weighs less than 2^64.
fn weight_of(typed: &Typed) -> u64
    ensures { result ≡ code_weight typed.now.script.code }
{
    a_typed_script_is_short();
    a_code_weighs_at_most_ten_times_its_count();
    weight(typed.script().code.as_slice())
}

fn count_of(typed: &Typed) -> u64
    ensures { result ≡ code_count typed.now.script.code }
{
    a_typed_script_is_short();
    count(typed.script().code.as_slice())
}

fn read_fault(alloc: Global, fault: &ReadFault) -> Result<Vec<u8>, AllocError>
    ensures { IfOk result (λ v. v.items ≡ read_fault fault.now) }
{
    match fault {
        ReadFault::Text(fault) => text_fault(alloc, fault),
        ReadFault::Sections(place) => at_offset(alloc, b"Sections", *place),
        ReadFault::LeftOut(place, _) => at_offset(alloc, b"LeftOut", *place),
        ReadFault::UnknownPrim(place) => at_offset(alloc, b"UnknownPrim", *place),
        ReadFault::Arity(place) => at_offset(alloc, b"Arity", *place),
        ReadFault::Data(DataFault { at, kind }) => at_offset(alloc, data_kind_name(*kind), *at),
        ReadFault::NoMemory => Ok(Vec::new(alloc)),
    }
}

fn text_fault(alloc: Global, fault: &TextFault) -> Result<Vec<u8>, AllocError>
    ensures { IfOk result (λ v. v.items ≡ text_fault fault.now) }
{
    match fault {
        TextFault::BadToken(place) => at_offset(alloc, b"BadToken", *place),
        TextFault::Unclosed(place) => at_offset(alloc, b"Unclosed", *place),
        TextFault::WiderNumber(place) => at_offset(alloc, b"WiderNumber", *place),
        TextFault::TooDeep(place) => at_offset(alloc, b"TooDeep", *place),
        TextFault::NoMemory => Ok(Vec::new(alloc)),
    }
}

fn at_offset(alloc: Global, name: &[u8], place: usize) -> Result<Vec<u8>, AllocError>
    ensures { IfOk result (λ v. v.items ≡ at_offset name.now place) }
{
    let mut text = Vec::from_slice(alloc, name)?;
    text.extend_from_slice(b" at ")?;
    put_number(alloc, place as u64, &mut text)?;
    Ok(text)
}

fn data_kind_name(kind: DataKind) -> &'static [u8]
    ensures { result.now ≡ data_kind_name kind }
{
    match kind {
        DataKind::Shape => b"Shape",
        DataKind::Range => b"Range",
        DataKind::Order => b"Order",
        DataKind::TooLarge => b"TooLarge",
    }
}

fn type_kind_name(kind: TypeKind) -> &'static [u8]
    ensures { result.now ≡ type_kind_name kind }
{
    match kind {
        TypeKind::StackTooShort => b"StackTooShort",
        TypeKind::WrongType => b"WrongType",
        TypeKind::BranchesDiffer => b"BranchesDiffer",
        TypeKind::NotComparable => b"NotComparable",
        TypeKind::BigMapPlace => b"BigMapPlace",
        TypeKind::EntryTwice => b"EntryTwice",
        TypeKind::FailNotLast => b"FailNotLast",
        TypeKind::StackTooTall => b"StackTooTall",
        TypeKind::TypeTooLarge => b"TypeTooLarge",
        TypeKind::CodeTooLarge => b"CodeTooLarge",
        TypeKind::LastStack => b"LastStack",
    }
}

fn chain_kind_name(kind: ChainKind) -> &'static [u8]
    ensures { result.now ≡ chain_kind_name kind }
{
    match kind {
        ChainKind::Missing => b"Missing",
        ChainKind::BadWord => b"BadWord",
        ChainKind::BadNumber => b"BadNumber",
        ChainKind::BadAddress => b"BadAddress",
        ChainKind::BadName => b"BadName",
        ChainKind::BadData => b"BadData",
        ChainKind::BadScript => b"BadScript",
        ChainKind::NotClosed => b"NotClosed",
        ChainKind::Twice => b"Twice",
        ChainKind::Unknown => b"Unknown",
        ChainKind::TooMuch => b"TooMuch",
        ChainKind::NoStorage => b"NoStorage",
    }
}

fn put_path(alloc: Global, path: &[u32], text: &mut Vec<u8>) -> Result<(), AllocError>
    ensures { OnOk result (text.new.items ≡ text.old.items ++ path_text path.now) }
{
    let Some((first, rest)) = path.split_first() else {
        return text.extend_from_slice(b"code");
    };
    put_number(alloc, u64::from(*first), text)?;
    put_dotted(alloc, rest, text)
}

fn put_dotted(alloc: Global, path: &[u32], text: &mut Vec<u8>) -> Result<(), AllocError>
    ensures { OnOk result (text.new.items ≡ text.old.items ++ dotted path.now) }
{
    for number in path {
        text.push(b'.')?;
        put_number(alloc, u64::from(*number), text)?;
    }
    Ok(())
}
