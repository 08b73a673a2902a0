//! What is true of typing and of the first fault of a script.

ghost use Rattle.std.specs.Prelude.{◌≡◌, ◌≤◌, ◌++◌, ◌∷◌, ◌⊎◌, List, ℕ};
ghost use Rattle.value_core.specs.declared.ty.Ty.{Ty};
ghost use Rattle.michelson_code.specs.declared.instr.Instr.{Instr};
ghost use Rattle.michelson_code.specs.declared.instr.Instr.TheViews.{out-Instr};
ghost use Rattle.michelson_code.specs.declared.script.Script.{Script};
ghost use Rattle.michelson_code.specs.declared.type_fault.TypeKind.{TypeKind};
ghost use Rattle.michelson_code.specs.FirstFault.{ScriptFault};
ghost use Rattle.michelson_code.specs.Inversion.{Finds};
ghost use Rattle.michelson_code.specs.Printable.{IsPrintableScript};
ghost use Rattle.michelson_code.specs.TypedScript.{IsTypedScript, counter};
ghost use Rattle.michelson_code.specs.Typing.{Applies, CodeTyped, InstrTyped, MayBegin, Outcome, To};
ghost use Rattle.michelson_code.specs.Weight.{code_count};

/// On a stack, an instruction without bodies leaves one stack at most.
pub fn an_instruction_leaves_one_stack()
    ensures { (s : Script) (i : Instr) (b t u : List Ty) →
        Applies s (out-Instr i) b t → Applies s (out-Instr i) b u → t ≡ u }
{}

/// A code goes from a stack to one stack at most, or fails.
pub fn a_code_has_one_outcome()
    ensures { (s : Script) (n : ℕ) (c : List Instr) (b : List Ty) (o p : Outcome) →
        CodeTyped s n c b o → CodeTyped s n c b p → o ≡ p }
{}

/// Two codes one after another are typed exactly where the second is typed on what the first
/// leaves.
pub fn what_follows_a_code_begins_where_it_ends()
    ensures whole { (s : Script) (n : ℕ) (c d : List Instr) (b t : List Ty) (o : Outcome) →
        CodeTyped s n c b (To t) → CodeTyped s n d t o → CodeTyped s n (c ++ d) b o }
    ensures parts { (s : Script) (n : ℕ) (c : List Instr) (i : Instr) (d : List Instr) (b : List Ty)
        (o : Outcome) →
        CodeTyped s n (c ++ i ∷ d) b o →
        (t : List Ty) × (CodeTyped s n c b (To t) × CodeTyped s n (i ∷ d) t o) }
{}

/// A typed script is one whose text is read again as it.
pub fn a_typed_script_is_read_again()
    ensures { (s : Script) → IsTypedScript s → IsPrintableScript s }
{}

/// A typed script has at most 65,536 instructions.
pub fn a_typed_script_is_short()
    ensures { (s : Script) → IsTypedScript s → code_count s.code ≤ 65536 }
{}

/// A script that is typed has no fault.
pub fn a_typed_script_has_no_fault()
    ensures { (s : Script) (path : List ℕ) (k : TypeKind) →
        IsTypedScript s → ¬ ScriptFault s path k }
{}

/// Two faults of a script are one: of one place and one kind.
pub fn a_script_has_one_fault()
    ensures { (s : Script) (path path' : List ℕ) (k k' : TypeKind) →
        ScriptFault s path k → ScriptFault s path' k' → (path ≡ path') × (k ≡ k') }
{}

/// A typed instruction finds its operands on the stack, and bodies that are typed, by its form.
pub fn a_typed_instruction_finds_its_operands()
    ensures { (s : Script) (n : ℕ) (i : Instr) (b : List Ty) (o : Outcome) →
        InstrTyped s n i b o → Finds s n (out-Instr i) b o }
{}

/// An instruction without bodies finds its operands on a stack, or it doesn't; and one with bodies
/// may begin there, or it may not.
pub fn operands_are_found_or_not()
    ensures lines { (s : Script) (i : Instr) (b : List Ty) →
        ((t : List Ty) × Applies s (out-Instr i) b t)
        ⊎ (((t : List Ty) × Applies s (out-Instr i) b t) → ⊥) }
    ensures bodies { (i : Instr) (b : List Ty) → MayBegin i b ⊎ ¬ MayBegin i b }
{}

/// Every script is typed or has a fault.
pub fn a_script_is_typed_or_has_a_fault()
    ensures { (s : Script) → IsTypedScript s ⊎
        ((path : List ℕ) × ((k : TypeKind) × ScriptFault s path k)) }
{}

/// The counter is typed.
pub fn the_counter_is_typed()
    ensures { IsTypedScript counter }
{}
