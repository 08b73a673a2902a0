//! What is true of the table of forms, of weights and counts, and of entries.

ghost use Rattle.std.specs.Prelude.{◌≡◌, ◌≤◌, ◌+◌, ◌*◌, ◌++◌, IsTrue, List, Some, sum_by};
ghost use Rattle.value_core.specs.declared.ty.Ty.{Ty};
ghost use Rattle.value_core.specs.declared.val.Val.{Val};
ghost use Rattle.value_core.specs.Typed.{has_type};
ghost use Rattle.michelson_code.specs.declared.instr.Instr.{Instr};
ghost use Rattle.michelson_code.specs.Entries.{Path, type_at, wrapped};
ghost use Rattle.michelson_code.specs.Forms.{AreWrittenAlike, bodies_of, cost_of};
ghost use Rattle.michelson_code.specs.Weight.{code_count, code_weight, count_of, weight_of};

/// An instruction is determined by its word, the name of its entry and its operands.
pub fn instructions_that_are_written_alike_are_equal()
    ensures { (a b : Instr) → AreWrittenAlike a b → a ≡ b }
{}

/// An instruction weighs its cost and its bodies, and counts one more than its bodies.
pub fn an_instruction_weighs_and_counts_its_bodies()
    ensures weight { (i : Instr) → weight_of i ≡ cost_of i + sum_by code_weight (bodies_of i) }
    ensures count { (i : Instr) → count_of i ≡ 1 + sum_by code_count (bodies_of i) }
{}

/// Two codes one after another weigh and count as much as both.
pub fn codes_one_after_another_add_up()
    ensures weight { (c d : List Instr) → code_weight (c ++ d) ≡ code_weight c + code_weight d }
    ensures count { (c d : List Instr) → code_count (c ++ d) ≡ code_count c + code_count d }
{}

/// No instruction costs more than 10, so that a code weighs at most ten times its count.
pub fn a_code_weighs_at_most_ten_times_its_count()
    ensures { (c : List Instr) → code_weight c ≤ 10 * code_count c }
{}

/// A param in the Lefts and Rights of a way has the type that the way begins at.
pub fn a_wrapped_param_has_the_type_of_the_whole()
    ensures { (path : Path) (t s : Ty) (v : Val) → type_at path t ≡ Some s →
        IsTrue (has_type v s) → IsTrue (has_type (wrapped path v) t) }
{}
