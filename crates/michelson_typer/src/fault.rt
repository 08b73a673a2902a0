//! Why a script isn't typed, and where that is told.

ghost use Rattle.std.specs.Prelude.{◌≡◌, ℕ, List, [], Some};
ghost use Rattle.michelson_code.specs.declared.type_fault.TypeKind.{TypeKind};
ghost use Rattle.michelson_typer.specs.declared.fault.TypeRefusal.TheVariants.{NoMemory};
ghost use Rattle.michelson_typer.specs.Told.{IsBehind, IsTold, told};

use michelson_code::TypeKind;
use std::alloc::{AllocError, AllocFailed, Global};

/// The first fault of a script: the way to the instruction at which it is told, by its number in
/// the code, the number of its body, and so on; empty where it belongs to no instruction.
#[derive(Debug, Drop)]
pub struct TypeFault {
    /// The way to the instruction.
    pub path: Vec<u32>,
    /// What is wrong with it.
    pub kind: TypeKind,
}

/// Why no script was typed.
#[derive(Debug, Drop)]
pub enum TypeRefusal {
    /// The script isn't typed.
    Fault(TypeFault),
    /// Memory ran out.
    NoMemory,
}

/// A fault of what is looked at itself.
pub(crate) fn here(alloc: Global, kind: TypeKind) -> TypeRefusal
    ensures { told result ≡ Some ([], kind) }
{
    TypeRefusal::Fault(TypeFault {
        path: Vec::new(alloc),
        kind,
    })
}

/// A refusal inside the part of that number.
pub(crate) fn inside(number: u32, refusal: TypeRefusal) -> TypeRefusal
    ensures { IsTold (IsBehind number (λ rest k. told refusal ≡ Some (rest, k))) result }
{
    match refusal {
        TypeRefusal::Fault(fault) => {
            let TypeFault { mut path, kind } = fault;
            match path.insert(0, number) {
                Ok(()) => TypeRefusal::Fault(TypeFault { path, kind }),
                Err(_) => TypeRefusal::NoMemory,
            }
        }
        TypeRefusal::NoMemory => TypeRefusal::NoMemory,
    }
}

impl From<AllocError> for TypeRefusal {
    ghost from_gives = { λ _ e. e ≡ NoMemory };

    fn from(_error: AllocError) -> TypeRefusal {
        TypeRefusal::NoMemory
    }
}

impl<T: Drop> From<AllocFailed<T>> for TypeRefusal {
    ghost from_gives = { λ _ e. e ≡ NoMemory };

    fn from(_error: AllocFailed<T>) -> TypeRefusal {
        TypeRefusal::NoMemory
    }
}
