//! Scripts: the types of parameter and storage, the names of the entries, and the code.

ghost use Rattle.std.specs.Prelude.{◌≡◌, ◌↔◌, IfOk, IsTrue};

use crate::copying::copy_code;
use crate::instr::Code;
use crate::sameness::same_code;
use sqlite_items::Items;
use std::alloc::Global;
use value_core::{Name, NoMemory, Ty};

/// A step from an `or` of the parameter's type to one of its two parts.
#[derive(Clone, Copy, Debug, PartialEq, Eq)]
pub enum Side {
    /// To the left of an `or`.
    Left,
    /// To its right.
    Right,
}

/// A contract's script. `names` are the entries: the path from the parameter's root to the node,
/// and the name that stands there.
#[derive(Debug, Drop)]
pub struct Script {
    /// What a call gives.
    pub param: Ty,
    /// The names of entries, in the order of the text, each with its way from the parameter's root.
    pub names: Items<(Items<Side>, Name)>,
    /// What the contract keeps.
    pub storage: Ty,
    /// From a pair of parameter and storage to operations and the new storage.
    pub code: Code,
}

impl Script {
    /// An equal script.
    pub fn copy(&self, alloc: Global) -> Result<Script, NoMemory>
        ensures { IfOk result (λ s. s ≡ self.now) }
    {
        Ok(Script {
            param: self.param.copy(alloc)?,
            names: copy_names(alloc, self.names.as_slice())?,
            storage: self.storage.copy(alloc)?,
            code: copy_code(alloc, self.code.as_slice())?,
        })
    }

    /// Whether the scripts are equal.
    pub fn same(&self, other: &Script) -> bool
        ensures { IsTrue result ↔ (self.now ≡ other.now) }
    {
        self.param.same(&other.param)
            && same_names(self.names.as_slice(), other.names.as_slice())
            && self.storage.same(&other.storage)
            && same_code(self.code.as_slice(), other.code.as_slice())
    }
}

fn copy_names(
    alloc: Global,
    names: &[(Items<Side>, Name)],
) -> Result<Items<(Items<Side>, Name)>, NoMemory>
    ensures { IfOk result (λ made. made ≡ names.now) }
{
    let mut made = Items::new(alloc);
    for name in names {
        made.push((Items::from_slice(alloc, name.0.as_slice())?, name.1))?;
    }
    Ok(made)
}

fn same_names(a: &[(Items<Side>, Name)], b: &[(Items<Side>, Name)]) -> bool
    ensures { IsTrue result ↔ (a.now ≡ b.now) }
{
    if a.len() != b.len() {
        return false;
    }
    for i in 0..a.len() {
        if !same_name(&a[i], &b[i]) {
            return false;
        }
    }
    true
}

fn same_name(a: &(Items<Side>, Name), b: &(Items<Side>, Name)) -> bool
    ensures { IsTrue result ↔ (a.now ≡ b.now) }
{
    same_path(a.0.as_slice(), b.0.as_slice()) && a.1 == b.1
}

fn same_path(a: &[Side], b: &[Side]) -> bool
    ensures { IsTrue result ↔ (a.now ≡ b.now) }
{
    if a.len() != b.len() {
        return false;
    }
    for i in 0..a.len() {
        if a[i] != b[i] {
            return false;
        }
    }
    true
}
