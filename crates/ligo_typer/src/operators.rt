//! The types of what operators give, by those of their sides.

ghost use Rattle.std.specs.Prelude.{◌≡◌, IfOk};
ghost use Rattle.ligo_typer.specs.Sorts.{arithmetic_type, difference_type, negated_type, product_type, quotient_type, remainder_type, sort_of, sum_type};

use crate::source_type::SrcTy;
use ligo_syntax::Operator;
use sqlite_items::Boxed;
use std::alloc::Global;
use value_core::NoMemory;

/// The types that operators tell apart.
#[derive(Clone, Copy, Debug, PartialEq, Eq)]
pub enum Sort {
    /// int
    Int,
    /// nat
    Nat,
    /// tez
    Tez,
    /// timestamp
    Time,
    /// Any other type.
    Other,
}

/// What an arithmetic operator gives, where there is such a sum, difference, product, quotient or
/// remainder.
pub fn arithmetic_type(
    alloc: Global,
    operator: Operator,
    left: &SrcTy,
    right: &SrcTy,
) -> Result<Option<SrcTy>, NoMemory>
    ensures { IfOk result (λ t. t ≡ arithmetic_type operator (sort_of left.now) (sort_of right.now)) }
{
    let s = sort_of(left);
    let t = sort_of(right);
    match operator {
        Operator::Add => Ok(sum_type(s, t)),
        Operator::Subtract => difference_type(alloc, s, t),
        Operator::Multiply => Ok(product_type(s, t)),
        Operator::Divide => Ok(quotient_type(s, t)),
        Operator::Modulo => Ok(remainder_type(s, t)),
        _ => Ok(None),
    }
}

/// What a minus before an expression gives.
pub fn negated_type(t: &SrcTy) -> Option<SrcTy>
    ensures { result ≡ negated_type (sort_of t.now) }
{
    match sort_of(t) {
        Sort::Int | Sort::Nat => Some(SrcTy::Int),
        _ => None,
    }
}

fn sort_of(t: &SrcTy) -> Sort
    ensures { result ≡ sort_of t.now }
{
    match t {
        SrcTy::Int => Sort::Int,
        SrcTy::Nat => Sort::Nat,
        SrcTy::Tez => Sort::Tez,
        SrcTy::Time => Sort::Time,
        _ => Sort::Other,
    }
}

fn sum_type(s: Sort, t: Sort) -> Option<SrcTy>
    ensures { result ≡ sum_type s t }
{
    match (s, t) {
        (Sort::Nat, Sort::Nat) => Some(SrcTy::Nat),
        (Sort::Nat | Sort::Int, Sort::Int) | (Sort::Int, Sort::Nat) => Some(SrcTy::Int),
        (Sort::Time, Sort::Int) | (Sort::Int, Sort::Time) => Some(SrcTy::Time),
        (Sort::Tez, Sort::Tez) => Some(SrcTy::Tez),
        _ => None,
    }
}

fn difference_type(alloc: Global, s: Sort, t: Sort) -> Result<Option<SrcTy>, NoMemory>
    ensures { IfOk result (λ d. d ≡ difference_type s t) }
{
    match (s, t) {
        (Sort::Nat | Sort::Int, Sort::Nat | Sort::Int) | (Sort::Time, Sort::Time) => {
            Ok(Some(SrcTy::Int))
        }
        (Sort::Time, Sort::Int) => Ok(Some(SrcTy::Time)),
        (Sort::Tez, Sort::Tez) => Ok(Some(SrcTy::Option(Boxed::new(alloc, SrcTy::Tez)?))),
        _ => Ok(None),
    }
}

fn product_type(s: Sort, t: Sort) -> Option<SrcTy>
    ensures { result ≡ product_type s t }
{
    match (s, t) {
        (Sort::Nat, Sort::Nat) => Some(SrcTy::Nat),
        (Sort::Nat | Sort::Int, Sort::Int) | (Sort::Int, Sort::Nat) => Some(SrcTy::Int),
        (Sort::Tez, Sort::Nat) | (Sort::Nat, Sort::Tez) => Some(SrcTy::Tez),
        _ => None,
    }
}

fn quotient_type(s: Sort, t: Sort) -> Option<SrcTy>
    ensures { result ≡ quotient_type s t }
{
    match (s, t) {
        (Sort::Nat, Sort::Nat) | (Sort::Tez, Sort::Tez) => Some(SrcTy::Nat),
        (Sort::Nat | Sort::Int, Sort::Int) | (Sort::Int, Sort::Nat) => Some(SrcTy::Int),
        (Sort::Tez, Sort::Nat) => Some(SrcTy::Tez),
        _ => None,
    }
}

fn remainder_type(s: Sort, t: Sort) -> Option<SrcTy>
    ensures { result ≡ remainder_type s t }
{
    match (s, t) {
        (Sort::Nat | Sort::Int, Sort::Nat | Sort::Int) => Some(SrcTy::Nat),
        (Sort::Tez, Sort::Nat | Sort::Tez) => Some(SrcTy::Tez),
        _ => None,
    }
}
