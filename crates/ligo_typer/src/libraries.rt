//! Names that the language declares: of libraries and of types.

ghost use Rattle.std.specs.Prelude.{◌≡◌};
ghost use Rattle.std.specs.Str.{bytes_eq};
ghost use Rattle.ligo_typer.specs.Libraries.{big_map_names, library_of, map_names, tezos_names};
ghost use Rattle.ligo_typer.specs.Names.{look};
ghost use Rattle.ligo_typer.specs.Scopes.{built_in_types};

use crate::builtin::{Builtin, Library};
use crate::source_type::SrcTy;

fn is_word(name: &[u8], word: &str) -> bool
    ensures { result ≡ bytes_eq name.now word.now }
{
    name == word.as_bytes()
}

/// The type that the language declares by the name.
pub fn built_in_type(name: &[u8]) -> Option<SrcTy>
    ensures { result ≡ look name.now built_in_types }
{
    if is_word(name, "int") {
        Some(SrcTy::Int)
    } else if is_word(name, "nat") {
        Some(SrcTy::Nat)
    } else if is_word(name, "tez") {
        Some(SrcTy::Tez)
    } else if is_word(name, "string") {
        Some(SrcTy::Text)
    } else if is_word(name, "bytes") {
        Some(SrcTy::Bytes)
    } else if is_word(name, "bool") {
        Some(SrcTy::Bool)
    } else if is_word(name, "unit") {
        Some(SrcTy::Unit)
    } else if is_word(name, "address") {
        Some(SrcTy::Addr)
    } else if is_word(name, "timestamp") {
        Some(SrcTy::Time)
    } else if is_word(name, "operation") {
        Some(SrcTy::Operation)
    } else {
        None
    }
}

/// What an upper name, a dot and a lower name stand for.
pub(crate) fn library_of(upper: &[u8], lower: &[u8]) -> Option<Library>
    ensures { result ≡ library_of upper.now lower.now }
{
    if is_word(upper, "Map") {
        map_name(lower)
    } else if is_word(upper, "Big_map") {
        big_map_name(lower)
    } else if is_word(upper, "Tezos") {
        tezos_name(lower)
    } else {
        None
    }
}

fn map_name(lower: &[u8]) -> Option<Library>
    ensures { result ≡ look lower.now map_names }
{
    if is_word(lower, "empty") {
        Some(Library::EmptyMap)
    } else if is_word(lower, "literal") {
        Some(Library::MapLiteral)
    } else if is_word(lower, "find_opt") {
        Some(Library::OnMap(Builtin::FindOpt))
    } else if is_word(lower, "mem") {
        Some(Library::OnMap(Builtin::Mem))
    } else if is_word(lower, "add") {
        Some(Library::OnMap(Builtin::Add))
    } else if is_word(lower, "remove") {
        Some(Library::OnMap(Builtin::Remove))
    } else if is_word(lower, "update") {
        Some(Library::OnMap(Builtin::Update))
    } else {
        None
    }
}

fn big_map_name(lower: &[u8]) -> Option<Library>
    ensures { result ≡ look lower.now big_map_names }
{
    if is_word(lower, "find_opt") {
        Some(Library::OnBigMap(Builtin::FindOpt))
    } else if is_word(lower, "mem") {
        Some(Library::OnBigMap(Builtin::Mem))
    } else if is_word(lower, "add") {
        Some(Library::OnBigMap(Builtin::Add))
    } else if is_word(lower, "remove") {
        Some(Library::OnBigMap(Builtin::Remove))
    } else if is_word(lower, "update") {
        Some(Library::OnBigMap(Builtin::Update))
    } else {
        None
    }
}

fn tezos_name(lower: &[u8]) -> Option<Library>
    ensures { result ≡ look lower.now tezos_names }
{
    if is_word(lower, "get_sender") {
        Some(Library::Call(Builtin::GetSender))
    } else if is_word(lower, "get_source") {
        Some(Library::Call(Builtin::GetSource))
    } else if is_word(lower, "get_amount") {
        Some(Library::Call(Builtin::GetAmount))
    } else if is_word(lower, "get_balance") {
        Some(Library::Call(Builtin::GetBalance))
    } else if is_word(lower, "get_now") {
        Some(Library::Call(Builtin::GetNow))
    } else if is_word(lower, "get_self_address") {
        Some(Library::Call(Builtin::GetSelfAddress))
    } else if is_word(lower, "get_contract_opt") {
        Some(Library::Call(Builtin::GetContractOpt))
    } else if is_word(lower, "transaction") {
        Some(Library::Call(Builtin::Transaction))
    } else {
        None
    }
}
