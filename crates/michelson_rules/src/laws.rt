//! What is true of runs, of what they cost, and of what they come to within a budget.

ghost use Rattle.std.specs.Prelude.{◌≡◌, ◌≢◌, ◌≤◌, ◌<◌, ◌+◌, ◌*◌, ℕ, List, Option, length};
ghost use Rattle.value_core.specs.declared.val.Val.{Val};
ghost use Rattle.value_core.specs.declared.val.Val.TheVariants as value;
ghost use Rattle.value_core.specs.Order.{order};
ghost use Rattle.value_core.specs.Sorted.{put};
ghost use Rattle.michelson_code.specs.declared.script.Script.{Script};
ghost use Rattle.michelson_code.specs.declared.why.Why.TheVariants as why;
ghost use Rattle.michelson_code.specs.Weight.{code_weight};
ghost use Rattle.michelson_rules.specs.declared.ask.Budget.{Budget};
ghost use Rattle.michelson_rules.specs.declared.ask.Env.{Env};
ghost use Rattle.michelson_rules.specs.BigMaps.{Keyed, looked_up, with_change};
ghost use Rattle.michelson_rules.specs.Bodies.{while_left, while_true};
ghost use Rattle.michelson_rules.specs.Causes.{EndsByItself};
ghost use Rattle.michelson_rules.specs.EachRun.{AreAlike, EachCode, EachOutcome, EachRun};
ghost use Rattle.michelson_rules.specs.EachRun.{EachScript, LoopsOn, RunsInTurn};
ghost use Rattle.michelson_rules.specs.Lasting.{Lasts, after_marks, and_then, end_of, left_of};
ghost use Rattle.michelson_rules.specs.Lasting.{more_gas, more_room, with_left};
ghost use Rattle.michelson_rules.specs.Metered.{metered, outcome_of, script_outcome};
ghost use Rattle.michelson_rules.specs.Rules.{charges, still};
ghost use Rattle.michelson_rules.specs.Runs.{Beside, Changes, Failed, Mark, Return, Run};
ghost use Rattle.michelson_rules.specs.Runs.{ends, then_do};
ghost use Rattle.michelson_rules.specs.Spent.{CostsAtMost, IsFair, KeepsTurns, gas_in, room_in};
ghost use Rattle.michelson_rules.specs.Versions.{AllAscend, AreAscending, ReturnsAscending};
ghost use Rattle.michelson_rules.specs.Versions.{beside_after, key_in, next_version};
ghost use Rattle.michelson_rules.specs.World.{World};

// ---- runs

/// Of two codes one after another the second runs on what the first returns.
pub fn codes_run_one_after_another()
    ensures { (price : ℕ → List Mark) → EachCode RunsInTurn price }
{}

/// Whether each cost is a mark or nobody counts gas, no more is charged than the cost.
pub fn both_ways_to_charge_are_fair()
    ensures charges { IsFair charges }
    ensures still { IsFair still }
{}

/// The turns that a run takes and those that it leaves are those that it had.
pub fn no_run_returns_more_turns()
    ensures { (price : ℕ → List Mark) → IsFair price
        → EachRun price (λ c beside run. KeepsTurns beside.turns run) }
{}

/// A loop is its body for a turn and then the loop again: no bound on the times ends it.
pub fn a_loop_is_its_body_and_itself()
    ensures while_true { (price : ℕ → List Mark) → IsFair price
        → EachCode (LoopsOn while_true) price }
    ensures while_left { (price : ℕ → List Mark) → IsFair price
        → EachCode (LoopsOn while_left) price }
{}

/// A code charges at most its weight, and its weight once more for each turn that it takes.
pub fn a_code_costs_at_most_its_weight_a_turn()
    ensures taken { EachRun charges (λ c beside run. CostsAtMost (code_weight c) run) }
    ensures given { EachRun charges (λ c beside run.
        gas_in run.marks ≤ code_weight c * (beside.turns + 1)) }
{}

/// A code fails by a value that it raises, a range, a shift, a size or for want of turns, and by
/// no other cause.
pub fn a_code_fails_by_its_own_causes()
    ensures { (price : ℕ → List Mark) → IsFair price
        → EachRun price (λ c beside run. EndsByItself run.ending) }
{}

/// A run that is charged for is the run that isn't, but for the charges.
pub fn charges_are_marks_alone()
    ensures { AreAlike charges still }
{}

// ---- budgets

/// What two runs one after another come to is what the first comes to, and then the second on
/// what the first leaves.
pub fn metering_goes_on()
    ensures { (left : Budget) (run : Run (List Val)) (next : List Val → Beside → Run (List Val))
        → outcome_of left (then_do run next)
        ≡ and_then (outcome_of left run) (λ a beside rest. outcome_of rest (next a beside)) }
{}

/// With as much gas and room as a run spends it comes to its own end, and leaves the rest.
pub fn enough_gas_and_room_change_nothing()
    ensures end { EachOutcome (λ left marks e outcome. Lasts left marks → end_of outcome ≡ e) }
    ensures rest { EachOutcome (λ left marks e outcome. Lasts left marks
        → left_of outcome ≡ after_marks left marks) }
{}

/// Where gas, or room, lasted, more of it comes to the same questions and the same end, with that
/// much more left at each.
pub fn what_is_more_is_left()
    ensures gas { (n : ℕ) → EachOutcome (λ left marks e outcome.
        end_of outcome ≢ Failed why.OutOfGas
        → metered (more_gas n left) marks e ≡ with_left (more_gas n) outcome) }
    ensures room { (n : ℕ) → EachOutcome (λ left marks e outcome.
        end_of outcome ≢ Failed why.TooMuchData
        → metered (more_room n left) marks e ≡ with_left (more_room n) outcome) }
{}

/// A run is cut only where it charges more gas, or takes more room, than there is; and then it is.
pub fn a_run_is_cut_where_it_spends_too_much()
    ensures only_gas { EachOutcome (λ left marks e outcome. e ≢ Failed why.OutOfGas
        → end_of outcome ≡ Failed why.OutOfGas → left.gas < gas_in marks) }
    ensures only_room { EachOutcome (λ left marks e outcome. e ≢ Failed why.TooMuchData
        → end_of outcome ≡ Failed why.TooMuchData → left.room < room_in marks) }
    ensures gas { EachOutcome (λ left marks e outcome. room_in marks ≤ left.room
        → left.gas < gas_in marks → end_of outcome ≡ Failed why.OutOfGas) }
    ensures room { EachOutcome (λ left marks e outcome. gas_in marks ≤ left.gas
        → left.room < room_in marks → end_of outcome ≡ Failed why.TooMuchData) }
{}

/// A script is cut only where its run spends too much, and with gas for its weight at each turn it
/// isn't cut for want of gas.
pub fn a_script_is_cut_where_it_spends_too_much()
    ensures gas { EachScript (λ s left run outcome. end_of outcome ≡ Failed why.OutOfGas
        → left.gas < gas_in run.marks) }
    ensures room { EachScript (λ s left run outcome. end_of outcome ≡ Failed why.TooMuchData
        → left.room < room_in run.marks) }
    ensures weight { EachScript (λ s left run outcome.
        code_weight s.code * (left.turns + 1) ≤ left.gas
        → end_of outcome ≢ Failed why.OutOfGas) }
{}

/// The turns left in the budget where a script returns are those beside what it returns.
pub fn a_script_returns_the_turns_that_are_left()
    ensures { EachScript (λ s left run outcome. (stack : List Val) (beside : Beside)
        → end_of outcome ≡ Return stack beside → (left_of outcome).turns ≡ beside.turns) }
{}

// ---- versions of big maps

/// A change makes the next version, and stands beside what is returned.
pub fn a_change_makes_the_next_version()
    ensures next { (k : Keyed) (choice : Option Val) (beside : Beside)
        → (with_change k choice beside).ending
        ≡ Return (value.BigMap k.place (next_version beside)) (beside_after k choice beside) }
    ensures ascending { (key : Val) (choice : Option Val) (changes : Changes)
        → AreAscending changes → AreAscending (put order key choice changes) }
{}

/// A version has what its change put there, and asks nobody for it.
pub fn a_version_has_its_change()
    ensures { (w : World) (k : Keyed) (choice : Option Val) (beside : Beside)
        → looked_up w (key_in k.key k.place (next_version beside)) (beside_after k choice beside)
        ≡ ends (Return choice (beside_after k choice beside)) }
{}

/// At any other key a version has what the version that it was made of had, and asks as that did.
pub fn a_version_keeps_the_rest()
    ensures { (w : World) (k : Keyed) (choice : Option Val) (beside : Beside) (key : Val)
        → key ≢ k.key
        → looked_up w (key_in key k.place (next_version beside)) (beside_after k choice beside)
        ≡ then_do (looked_up w (key_in key k.place k.version) beside)
        (λ v b. ends (Return v (beside_after k choice beside))) }
{}

/// A change leaves each version that there was, the one that it was made of too, as it is.
pub fn a_change_leaves_other_versions()
    ensures { (w : World) (k : Keyed) (choice : Option Val) (beside : Beside) (key : Val)
        (place version : ℕ) → version ≤ length beside.versions
        → looked_up w (key_in key place version) (beside_after k choice beside)
        ≡ then_do (looked_up w (key_in key place version) beside)
        (λ v b. ends (Return v (beside_after k choice beside))) }
{}

/// Where the changes of each version ascend by key, so they do beside what a run returns.
pub fn changes_go_on_ascending()
    ensures runs { (price : ℕ → List Mark) → IsFair price
        → EachRun price (λ c beside run. AllAscend beside.versions → ReturnsAscending run.ending) }
    ensures scripts { EachScript (λ s left run outcome. ReturnsAscending run.ending) }
{}
