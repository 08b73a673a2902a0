//! Scripts that are typed.

ghost use Rattle.std.specs.Prelude.{◌≡◌, ◌↔◌, IfOk, IsTrue};
ghost use Rattle.std.specs.Option.{option_copied};
ghost use Rattle.michelson_code.specs.Entries.{entry_type};
ghost use Rattle.michelson_code.specs.TypedScript.{IsTypedScript};

use crate::entries::type_at;
use crate::script::Script;
use std::alloc::Global;
use value_core::{Name, NoMemory, Ty};

/// A script that may run: its code is typed, and so are parameter and storage.
#[derive(Debug, Drop)]
pub struct Typed {
    script: Script,
    ghost typed: { ∥ IsTypedScript script ∥₁ },
}

impl Typed {
    /// Keeps that the script is typed.
    pub fn new(script: Script) -> Typed
        requires { IsTypedScript script }
        ensures { result.script ≡ script }
    {
        Typed { script }
    }

    /// The script that is typed.
    pub fn script(&self) -> &Script
        ensures script { result.now ≡ self.now.script }
        ensures typed { ∥ IsTypedScript result.now ∥₁ }
    {
        &self.script
    }

    /// The type of the entry of that name, where there is one.
    pub fn entry(&self, name: &Name) -> Option<&Ty>
        ensures { option_copied result ≡ entry_type self.now.script name.now }
    {
        for entry in self.script.names.as_slice() {
            if *name == entry.1 {
                return type_at(entry.0.as_slice(), &self.script.param);
            }
        }
        if name.bytes() == b"default".as_slice() {
            return Some(&self.script.param);
        }
        None
    }

    /// An equal script, typed too.
    pub fn copy(&self, alloc: Global) -> Result<Typed, NoMemory>
        ensures { IfOk result (λ t. t.script ≡ self.now.script) }
    {
        let script = self.script.copy(alloc)?;
        Ok(Typed { script })
    }

    /// Whether the scripts are equal.
    pub fn same(&self, other: &Typed) -> bool
        ensures { IsTrue result ↔ (self.now.script ≡ other.now.script) }
    {
        self.script.same(&other.script)
    }
}
