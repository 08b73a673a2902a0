//! Instructions without bodies.

ghost use Rattle.std.specs.Prelude.{◌≡◌, ◌<◌, ◌↔◌, ◌∷◌, [], Bool, IfOk, IsTrue, List, MatchOption, None, get_or, length, true};
ghost use Rattle.std.specs.List.{AllByRecursion, list_all};
ghost use Rattle.std.specs.Option.{option_copied};
ghost use Rattle.std.specs.Str.{bytes_eq};
ghost use Rattle.value_core.specs.declared.ty.Ty.{Ty};
ghost use Rattle.value_core.specs.declared.ty.Ty.TheVariants as type;
ghost use Rattle.michelson_code.specs.declared.instr.Instr.TheViews.{out-Instr};
ghost use Rattle.michelson_code.specs.Entries.{entry_type};
ghost use Rattle.michelson_code.specs.FirstFault.{IsLone, IsShort, items_taken, types_of};
ghost use Rattle.michelson_code.specs.Forms.{form_of};
ghost use Rattle.michelson_code.specs.Levels.{operand_map};
ghost use Rattle.michelson_code.specs.Printable.{is_fit_operand};
ghost use Rattle.michelson_code.specs.Shown.{operand_shown, operands_shown};
ghost use Rattle.michelson_code.specs.Typing.{Applies, called, given_types, is_fit_alone, slot_list, types_written};
ghost use Rattle.michelson_code.specs.WrittenTypes.{has_comparable_keys, has_passable_values};
ghost use Rattle.michelson_typer.specs.Lines.{AreWritten, FindsMade, FindsNone, IsWritten};
ghost use Rattle.michelson_typer.specs.Tables.{Grows, IsTypeOf, are_in, types_at};
ghost use Rattle.michelson_typer.specs.TypeTests.{Tells};

use crate::keys::{has_comparable_keys, has_passable_values};
use crate::lines::Written;
use crate::numbered::{dig, drop_n, dug, dup_n, pair_n, unpair_n};
use crate::standing::{by_line, slot_count};
use crate::types::{TypeId, Types};
use crate::written::intern_type;
use michelson_code::{
    Instr, Level, Line, Operand, Operands, Script, form_of, is_count, is_pushed, lines_of, type_at,
};
use std::alloc::Global;
use value_core::{Name, NoMemory, Ty, is_comparable};

/// Whether the stack has fewer items than the instruction takes, whatever their types.
pub(crate) fn is_short(types: &Types, instr: &Instr, stack: &[TypeId]) -> bool
    requires { IsTrue (are_in types.now stack.now) }
    ensures { IsTrue result ↔ IsShort (out-Instr instr.now) (types_at types.now stack.now) }
{
    let lines = lines_of(instr);
    if lines.is_empty() {
        return stack.len() < items_taken(instr);
    }
    is_lone(types, instr, stack) || are_longer(lines, stack.len())
}

/// Whether each line takes more items than that.
fn are_longer(lines: &[Line], count: usize) -> bool
    ensures { IsTrue result ↔ AllByRecursion (λ l. count < length (slot_list l.0)) lines.now }
{
    for line in lines {
        if slot_count(line.0) <= count {
            return false;
        }
    }
    true
}

/// Whether one string or bytes stands alone, where two may.
fn is_lone(types: &Types, instr: &Instr, stack: &[TypeId]) -> bool
    requires { IsTrue (are_in types.now stack.now) }
    ensures { IsTrue result ↔ IsLone (out-Instr instr.now) (types_at types.now stack.now) }
{
    match (instr, stack) {
        (Instr::Concat, [id]) => matches!(types.level(*id), Level::Text | Level::Bytes),
        _ => false,
    }
}

/// How many items an instruction takes that has no line of operands.
fn items_taken(instr: &Instr) -> usize
    ensures { result ≡ items_taken (out-Instr instr.now) }
{
    match instr {
        Instr::DropN(n) | Instr::DupN(n) | Instr::PairN(n) | Instr::DipN(n, _) => *n as usize,
        Instr::Dig(n) | Instr::Dug(n) => *n as usize + 1,
        _ => 1,
    }
}

/// Whether each number of the instruction may be read, and each value may be pushed; nothing is
/// asked of its bodies.
pub(crate) fn is_fit_alone(instr: &Instr) -> bool
    ensures { result ≡ is_fit_alone instr.now }
{
    match form_of(instr).operands {
        Operands::None => true,
        Operands::One(x) => operand_is_fit(x),
        Operands::Two(x, y) => operand_is_fit(x) && operand_is_fit(y),
    }
}

#[tactic(auto, using(crate::proofs::OperandLaws::any_body_fits))]
fn operand_is_fit(operand: Operand<'_>) -> bool
    ensures { result ≡ is_fit_operand (operand_map (λ i. true) (operand_shown operand.entry)) }
{
    match operand {
        Operand::Number { least, number } => is_count(least, number),
        Operand::Type(_) => true,
        Operand::Code(_) => true,
        Operand::Data(t, v) => is_pushed(t, v),
    }
}

/// What an instruction without bodies makes of a stack; none where its operands don't stand there.
pub(crate) fn applied(
    alloc: Global,
    script: &Script,
    types: &mut Types,
    instr: &Instr,
    stack: &[TypeId],
) -> Result<Option<Vec<TypeId>>, NoMemory>
    requires { IsTrue (are_in types.old stack.now) }
    ensures grows { Grows types.old types.new }
    ensures made { IfOk result (λ r. MatchOption r
        ((after : List Ty) →
        Applies script.now (out-Instr instr.now) (types_at types.old stack.now) after → ⊥)
        (λ ids. IsTrue (are_in types.new ids.items)
        × Applies script.now (out-Instr instr.now) (types_at types.old stack.now)
        (types_at types.new ids.items))) }
{
    match instr {
        Instr::DropN(n) => drop_n(alloc, stack, *n as usize),
        Instr::DupN(n) => dup_n(alloc, stack, *n as usize),
        Instr::Dig(n) => dig(alloc, stack, *n as usize),
        Instr::Dug(n) => dug(alloc, stack, *n as usize),
        Instr::PairN(n) => pair_n(alloc, types, stack, *n as usize),
        Instr::UnpairN(n) => unpair_n(alloc, types, stack, *n as usize),
        _ => by_its_line(alloc, script, types, instr, stack),
    }
}

/// The same by the table of operands.
fn by_its_line(
    alloc: Global,
    script: &Script,
    types: &mut Types,
    instr: &Instr,
    stack: &[TypeId],
) -> Result<Option<Vec<TypeId>>, NoMemory>
    requires { IsTrue (are_in types.old stack.now) }
    ensures grows { Grows types.old types.new }
    ensures made { IfOk result (λ r. MatchOption r
        (FindsNone script.now (out-Instr instr.now) (types_at types.old stack.now))
        (λ made. FindsMade script.now (out-Instr instr.now) (types_at types.old stack.now)
        types.new made.items)) }
{
    let unit = types.intern(Level::Unit)?;
    match written_by(alloc, script, types, instr, unit)? {
        None => Ok(None),
        Some(written) => by_line(alloc, script, types, instr, stack, written, unit),
    }
}

/// The types that an instruction writes; of `SELF` the type of the entry, or none where there is
/// none.
fn written_by(
    alloc: Global,
    script: &Script,
    types: &mut Types,
    instr: &Instr,
    unit: TypeId,
) -> Result<Option<Written>, NoMemory>
    requires { IsTypeOf types.old unit type.Unit }
    ensures grows { Grows types.old types.new }
    ensures written { IfOk result (λ r. MatchOption r
        (given_types script.now (out-Instr instr.now) ≡ None)
        (IsWritten script.now (out-Instr instr.now) types.new)) }
{
    match instr {
        Instr::SelfEntry(name) => match called_entry(script, name) {
            None => Ok(None),
            Some(t) => {
                let t = intern_type(alloc, types, t)?;
                Ok(Some(Written { t, u: unit }))
            }
        },
        _ => {
            let written = all_written(alloc, types, form_of(instr).operands, unit)?;
            Ok(Some(written))
        }
    }
}

/// The types among operands, from the left.
fn all_written(
    alloc: Global,
    types: &mut Types,
    operands: Operands<'_>,
    unit: TypeId,
) -> Result<Written, NoMemory>
    requires { IsTypeOf types.old unit type.Unit }
    ensures grows { Grows types.old types.new }
    ensures written { IfOk result
        (AreWritten types.new (types_written (operands_shown operands.entry))) }
{
    match operands {
        Operands::None => Ok(Written { t: unit, u: unit }),
        Operands::One(x) => {
            let t = one_written(alloc, types, x, unit)?;
            Ok(Written { t, u: unit })
        }
        Operands::Two(x, y) => match x {
            Operand::Type(t) => {
                let t = intern_type(alloc, types, t)?;
                let u = one_written(alloc, types, y, unit)?;
                Ok(Written { t, u })
            }
            _ => {
                let t = one_written(alloc, types, y, unit)?;
                Ok(Written { t, u: unit })
            }
        },
    }
}

/// The type that an operand is, or else unit.
fn one_written(
    alloc: Global,
    types: &mut Types,
    operand: Operand<'_>,
    unit: TypeId,
) -> Result<TypeId, NoMemory>
    requires { IsTypeOf types.old unit type.Unit }
    ensures grows { Grows types.old types.new }
    ensures number { IfOk result (λ id. IsTypeOf types.new id
        (get_or (types_written (operand_shown operand.entry ∷ [])) 0 type.Unit)) }
{
    match operand {
        Operand::Type(t) => intern_type(alloc, types, t),
        _ => Ok(unit),
    }
}

/// The type of the entry of that name, or of `default`.
fn called_entry<'a>(script: &'a Script, name: &Option<Name>) -> Option<&'a Ty>
    ensures { option_copied result ≡ entry_type script.now (called name.now) }
{
    for entry in script.names.as_slice() {
        if is_called(name, &entry.1) {
            return type_at(entry.0.as_slice(), &script.param);
        }
    }
    match name {
        None => Some(&script.param),
        Some(name) if name.bytes() == b"default".as_slice() => Some(&script.param),
        Some(_) => None,
    }
}

fn is_called(name: &Option<Name>, entry: &Name) -> bool
    ensures { result ≡ bytes_eq (called name.now) entry.now }
{
    match name {
        None => entry.bytes() == b"default".as_slice(),
        Some(name) => *name == *entry,
    }
}

/// Whether the keys and elements of the types that an instruction asks for are comparable.
pub(crate) fn writes_comparable_keys(instr: &Instr) -> bool
    ensures { result ≡ list_all has_comparable_keys (types_of instr.now) }
{
    match instr {
        Instr::EmptySet(t) => set_has_comparable_keys(t),
        Instr::EmptyMap(k, v) => map_has_comparable_keys(k, v),
        _ => each_written(instr, has_comparable_keys),
    }
}

/// Whether elements of a set of that type are comparable, and keys inside them.
#[tactic(auto, using(crate::proofs::WrittenLaws::written_parts))]
fn set_has_comparable_keys(t: &Ty) -> bool
    ensures { result ≡ has_comparable_keys (type.Set t.now) }
{
    is_comparable(t) && has_comparable_keys(t)
}

/// Whether keys of a map of those types are comparable, and keys inside them.
#[tactic(auto, using(crate::proofs::WrittenLaws::written_parts))]
fn map_has_comparable_keys(k: &Ty, v: &Ty) -> bool
    ensures { result ≡ has_comparable_keys (type.Map k.now v.now) }
{
    is_comparable(k) && (has_comparable_keys(k) && has_comparable_keys(v))
}

/// Whether the values of the big maps in the types that an instruction asks for are passable.
pub(crate) fn writes_passable_values(instr: &Instr) -> bool
    ensures { result ≡ list_all has_passable_values (types_of instr.now) }
{
    match instr {
        Instr::EmptySet(t) => has_passable_values(t),
        Instr::EmptyMap(k, v) => has_passable_values(k) && has_passable_values(v),
        _ => each_written(instr, has_passable_values),
    }
}

fn each_written<F: Fn(&Ty) -> bool + Drop>(instr: &Instr, test: F) -> bool
    requires { F.IsAlwaysCallable test }
    ensures { (p : Ty → Bool) → Tells F.Fn test p →
        result ≡ list_all p (types_written (form_of instr.now).operands) }
{
    match form_of(instr).operands {
        Operands::None => true,
        Operands::One(x) => is_written(x, &test),
        Operands::Two(x, y) => is_written(x, &test) && is_written(y, &test),
    }
}

fn is_written<F: Fn(&Ty) -> bool>(operand: Operand<'_>, test: &F) -> bool
    requires { F.IsAlwaysCallable test.now }
    ensures { (p : Ty → Bool) → Tells F.Fn test.now p →
        result ≡ list_all p (types_written (operand_shown operand.entry ∷ [])) }
{
    match operand {
        Operand::Type(t) => test(t),
        _ => true,
    }
}
