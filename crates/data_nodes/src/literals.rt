//! Numbers, strings and byte literals, read at a type.

ghost use Rattle.std.specs.Prelude.{◌≡◌};
ghost use Rattle.value_core.specs.declared.ty.Ty.TheViews.{out-Ty};
ghost use Rattle.micheline_text.specs.Told.{AnswersUnlessFull};
ghost use Rattle.data_nodes.specs.Told.{node_fault};
ghost use Rattle.data_nodes.specs.Readers.{bytes, number, string};

use crate::fault::{DataRefusal, out_of_range, shape};
use std::alloc::Global;
use value_core::{Address, Blob, Num, Text, Ty, Val};

const AMOUNT_LIMIT: i128 = 0x8000_0000_0000_0000;

pub(crate) fn number(t: &Ty, at: usize, n: Num) -> Result<Val, DataRefusal>
    ensures { AnswersUnlessFull node_fault (λ v. v) result (number at n (out-Ty t.now)) }
{
    match t {
        Ty::Int => Ok(Val::Int(n)),
        Ty::Time => Ok(Val::Time(n)),
        Ty::Nat => {
            if n.get() < 0 {
                return Err(out_of_range(at));
            }
            Ok(Val::Nat(n))
        }
        Ty::Mutez => {
            if n.get() < 0 || n.get() >= AMOUNT_LIMIT {
                return Err(out_of_range(at));
            }
            Ok(Val::Mutez(n.get() as u64))
        }
        _ => Err(shape(at)),
    }
}

pub(crate) fn string(alloc: Global, t: &Ty, at: usize, text: &Text) -> Result<Val, DataRefusal>
    ensures { AnswersUnlessFull node_fault (λ v. v) result (string at text.now (out-Ty t.now)) }
{
    match t {
        Ty::Text => Ok(Val::Text(text.copy(alloc)?)),
        _ => Err(shape(at)),
    }
}

pub(crate) fn bytes(alloc: Global, t: &Ty, at: usize, blob: &Blob) -> Result<Val, DataRefusal>
    ensures { AnswersUnlessFull node_fault (λ v. v) result (bytes at blob.now (out-Ty t.now)) }
{
    match t {
        Ty::Bytes => Ok(Val::Bytes(blob.copy(alloc)?)),
        Ty::Addr => match Address::from_bytes(blob.bytes()) {
            Ok(address) => Ok(Val::Addr(address)),
            Err(_) => Err(shape(at)),
        },
        _ => Err(shape(at)),
    }
}
