//! The check of a script.

ghost use Rattle.std.specs.Prelude.{◌≡◌, ◌<◌, ◌∷◌, ◌↔◌, [], IfErr, IfOk, IsTrue, length};
ghost use Rattle.value_core.specs.declared.ty.Ty.TheVariants as type;
ghost use Rattle.michelson_code.specs.FirstFault.{ScriptFault};
ghost use Rattle.michelson_typer.specs.Closed.{EndsAs, end_of};
ghost use Rattle.michelson_typer.specs.Tables.{Grows, IsTypeOf, type_at};
ghost use Rattle.michelson_typer.specs.Told.{IsTold};

use crate::fault::{TypeRefusal, here};
use crate::stack::Ends;
use crate::types::{TypeId, Types};
use crate::walk::code_ends;
use crate::whole::{first_item, is_small, kind_of_parts};
use crate::written::intern_type;
use michelson_code::{Level, Script, TypeKind, Typed};
use std::alloc::Global;
use value_core::NoMemory;

/// The script, where it is typed; else its first fault, or that memory ran out.
pub fn check(alloc: Global, script: Script) -> Result<Typed, TypeRefusal>
    ensures typed { IfOk result (λ t. t.script ≡ script) }
    ensures fault { IfErr result (IsTold (ScriptFault script)) }
{
    if let Some(kind) = kind_of_parts(alloc, &script)? {
        return Err(here(alloc, kind));
    }
    let mut types = Types::new(alloc);
    let Some(first) = first_item(alloc, &mut types, &script)? else {
        return Err(here(alloc, TypeKind::TypeTooLarge));
    };
    if !is_small(&script) {
        return Err(here(alloc, TypeKind::CodeTooLarge));
    }
    let ends = code_ends(
        alloc,
        &script,
        &mut types,
        0,
        script.code.as_slice(),
        &[first],
    )?;
    let storage = intern_type(alloc, &mut types, &script.storage)?;
    let last = last_item(&mut types, storage)?;
    types.are_distinct();
    if !is_last(ends, last) {
        return Err(here(alloc, TypeKind::LastStack));
    }
    Ok(Typed::new(script))
}

/// One pair of operations and storage.
fn last_item(types: &mut Types, storage: TypeId) -> Result<TypeId, NoMemory>
    requires { storage < length types.old }
    ensures grows { Grows types.old types.new }
    ensures last { IfOk result (λ id. IsTypeOf types.new id
        (type.Pair (type.List type.Operation) (type_at types.old storage))) }
{
    let operation = types.intern(Level::Operation)?;
    let operations = types.intern(Level::List(operation))?;
    types.intern(Level::Pair(operations, storage))
}

/// Whether the code ends with that alone, or fails.
fn is_last(ends: Ends, last: TypeId) -> bool
    ensures { IsTrue result ↔ EndsAs (last ∷ []) (end_of ends) }
{
    match ends {
        Ends::Fails => true,
        Ends::To(stack) => match stack.as_slice() {
            [item] => *item == last,
            _ => false,
        },
    }
}
