//! What operands of the right types are answered, and how large results are.

ghost use Rattle.std.specs.Prelude.{◌≡◌, ◌^◌, IsTrue, List, false, nat_lt};
ghost use Rattle.value_core.specs.declared.ty.Ty.{Ty};
ghost use Rattle.value_core.specs.declared.val.Val.{Val};
ghost use Rattle.value_core.specs.Layer.{Layer};
ghost use Rattle.michelson_code.specs.declared.instr.Instr.{Instr};
ghost use Rattle.michelson_code.specs.declared.instr.Instr.TheOpen as one;
ghost use Rattle.michelson_code.specs.declared.instr.Instr.TheOpen.{Instr-F};
ghost use Rattle.michelson_code.specs.declared.script.Script.{Script};
ghost use Rattle.michelson_code.specs.Typing.{Applies};
ghost use Rattle.michelson_rules.specs.declared.ask.Env.{Env};
ghost use Rattle.michelson_rules.specs.DataOperands.{HasOperands, HasType, IsAnsweredAbove, is_data};
ghost use Rattle.michelson_rules.specs.TestedSizes.{GivesSmall, GivesSmallBelow, ReturnsSmall, tests_size};
ghost use Rattle.michelson_rules.specs.Plain.{data_at, plain_at};
ghost use Rattle.michelson_rules.specs.Rules.{gathered};
ghost use Rattle.michelson_rules.specs.Runs.{Beside};
ghost use Rattle.michelson_rules.specs.TypedStacks.{IsAnswered, StackHas, asks_on, pushes_well};

/// An instruction that asks the ledger nothing answers operands of its types with results of its
/// types, or fails; it never misses one.
pub fn operands_of_a_line_are_answered()
    ensures data { (x : Instr-F Instr) (after : List Ty) (below stack : List Val) →
        IsTrue (is_data x) → HasOperands x after below stack →
        IsAnsweredAbove below after (data_at x stack) }
    ensures plain { (s : Script) (env : Env) (x : Instr-F Instr) (before after : List Ty)
        (stack : List Val) → IsTrue (nat_lt env.amount (2 ^ 63)) → IsTrue (pushes_well x) →
        Applies s x before after → asks_on x before ≡ false → StackHas HasType stack before →
        IsAnswered HasType after (plain_at s env x stack) }
{}

/// Results that are tested for their size have at most 4,096 leaves: those of pairs, lists, texts,
/// sets, maps and operations, and what `MAP` makes.
pub fn tested_results_are_small()
    ensures results { (s : Script) (env : Env) (x : Instr-F Instr) (stack : List Val) →
        IsTrue (tests_size x) → GivesSmall (plain_at s env x stack).0 }
    ensures old { (stack : List Val) →
        GivesSmallBelow (data_at {A = Instr} one.GetAndUpdate stack).0 }
    ensures mapped { (x : Layer Val) (results stack : List Val) (beside : Beside) →
        ReturnsSmall (gathered x (results, stack) beside).ending }
{}
