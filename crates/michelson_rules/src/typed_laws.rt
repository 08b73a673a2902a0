//! What is true of typed codes and scripts: they miss no operand, and leave what their types say.

ghost use Rattle.std.specs.Prelude.{◌<◌, ◌^◌, List, ℕ, ℤ};
ghost use Rattle.michelson_code.specs.declared.instr.Instr.{Instr};
ghost use Rattle.michelson_code.specs.declared.script.Script.{Script};
ghost use Rattle.michelson_code.specs.TypedScript.{counter};
ghost use Rattle.michelson_code.specs.Typing.{CodeTyped, Outcome};
ghost use Rattle.michelson_rules.specs.declared.ask.Budget.{Budget};
ghost use Rattle.michelson_rules.specs.declared.ask.Env.{Env};
ghost use Rattle.michelson_rules.specs.Metered.{NeverMisses, script_outcome};
ghost use Rattle.michelson_rules.specs.Rules.{rules};
ghost use Rattle.michelson_rules.specs.Runs.{Mark};
ghost use Rattle.michelson_rules.specs.TypedRuns.{Goes, IsCodeCause};
ghost use Rattle.michelson_rules.specs.TypedScripts.{IsTypedCall, ReturnsTyped, WhereFailed, WhereReturned};
ghost use Rattle.michelson_rules.specs.TypedValues.{FitsMaps, HasPassableItems, IsInRange};
ghost use Rattle.michelson_rules.specs.World.{World};
ghost use Rattle.value_core.specs.declared.ty.Ty.{Ty};
ghost use Rattle.value_core.specs.declared.val.Val.TheVariants as value;
ghost use Rattle.value_core.specs.declared.val.Val.{Val};

/// A typed code on a stack of its types misses no operand, and leaves a stack of the types of its
/// outcome, or none where it fails on each way; whatever a charge leaves among the marks.
pub fn typed_codes_go_to_their_outcome()
    ensures { (maps : List (Ty × Ty)) (price : ℕ → List Mark) (s : Script) (env : Env)
        (w : World) → FitsMaps maps w → IsInRange env → HasPassableItems maps →
        (n : ℕ) (c : List Instr) (b : List Ty) (o : Outcome) → CodeTyped s n c b o →
        Goes maps b o (rules price s env w c) }
{}

/// A call of a typed script misses no operand, whatever is left and whatever the world answers;
/// and where it returns, it returns operations, and a storage and changes of the script's types.
/// It fails for no other cause than a code has, and what it raises may stand in a receipt.
pub fn typed_scripts_never_miss()
    ensures never { (s : Script) (env : Env) (w : World) (param storage : Val) →
        IsTypedCall s env w param storage → (left : Budget) →
        NeverMisses (script_outcome s env w left param storage) }
    ensures returned { (s : Script) (env : Env) (w : World) (param storage : Val) →
        IsTypedCall s env w param storage → (left : Budget) →
        WhereReturned (ReturnsTyped s) (script_outcome s env w left param storage) }
    ensures failed { (s : Script) (env : Env) (w : World) (param storage : Val) →
        IsTypedCall s env w param storage → (left : Budget) →
        WhereFailed IsCodeCause (script_outcome s env w left param storage) }
{}

/// A call of the counter is one of a typed script, whatever the two numbers.
pub fn the_counter_may_be_called()
    ensures { (env : Env) (w : World) (m n : ℤ) → IsInRange env → w.balance < 2 ^ 63 →
        IsTypedCall counter env w (value.Int m) (value.Int n) }
{}
