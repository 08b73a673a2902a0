//! What the language itself declares.

ghost use Rattle.std.specs.Prelude.{◌≡◌, IfOk};
ghost use Rattle.ligo_typer.specs.Libraries.{arity, signature};

use crate::source_type::SrcTy;
use sqlite_items::Boxed;
use std::alloc::Global;
use value_core::NoMemory;

/// A function of the language (docs/LANGUAGE.md, "Library").
#[derive(Clone, Copy, Debug, PartialEq, Eq)]
pub enum Builtin {
    /// `not`
    Not,
    /// `int`
    Int,
    /// `abs`
    Abs,
    /// `is_nat`
    IsNat,
    /// `failwith`
    Failwith,
    /// `find_opt k m`
    FindOpt,
    /// `mem k m`
    Mem,
    /// `add k v m`
    Add,
    /// `remove k m`
    Remove,
    /// `update k o m`
    Update,
    /// `Tezos.get_sender ()`
    GetSender,
    /// `Tezos.get_source ()`
    GetSource,
    /// `Tezos.get_amount ()`
    GetAmount,
    /// `Tezos.get_balance ()`
    GetBalance,
    /// `Tezos.get_now ()`
    GetNow,
    /// `Tezos.get_self_address ()`
    GetSelfAddress,
    /// `Tezos.get_contract_opt a`
    GetContractOpt,
    /// `Tezos.transaction p n c`
    Transaction,
}

/// What an upper name, a dot and a lower name stand for.
#[derive(Clone, Copy, Debug, PartialEq, Eq)]
pub(crate) enum Library {
    /// `Map.empty`
    EmptyMap,
    /// `Map.literal`
    MapLiteral,
    /// A function on maps.
    OnMap(Builtin),
    /// A function on big maps.
    OnBigMap(Builtin),
    /// Another function.
    Call(Builtin),
}

/// How many arguments the function takes.
pub fn arity(b: Builtin) -> usize
    ensures { result ≡ arity b }
{
    match b {
        Builtin::FindOpt | Builtin::Mem | Builtin::Remove => 2,
        Builtin::Add | Builtin::Update | Builtin::Transaction => 3,
        _ => 1,
    }
}

/// The type of the one argument and that of the result, where the function alone tells both.
pub fn signature(alloc: Global, b: Builtin) -> Result<Option<(SrcTy, SrcTy)>, NoMemory>
    ensures { IfOk result (λ types. types ≡ signature b) }
{
    match b {
        Builtin::Not => Ok(Some((SrcTy::Bool, SrcTy::Bool))),
        Builtin::Int => Ok(Some((SrcTy::Nat, SrcTy::Int))),
        Builtin::Abs => Ok(Some((SrcTy::Int, SrcTy::Nat))),
        Builtin::IsNat => {
            let nat = Boxed::new(alloc, SrcTy::Nat)?;
            Ok(Some((SrcTy::Int, SrcTy::Option(nat))))
        }
        Builtin::GetSender | Builtin::GetSource | Builtin::GetSelfAddress => {
            Ok(Some((SrcTy::Unit, SrcTy::Addr)))
        }
        Builtin::GetAmount | Builtin::GetBalance => Ok(Some((SrcTy::Unit, SrcTy::Tez))),
        Builtin::GetNow => Ok(Some((SrcTy::Unit, SrcTy::Time))),
        _ => Ok(None),
    }
}
