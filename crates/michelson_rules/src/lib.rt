//! The rules of running: what a code makes of a stack, what it asks, and what it costs.
//!
//! A run is a list of marks and an end. Each instruction charges its cost, each start of a body
//! takes a turn, each question to the ledger is a mark, and so is each take of room. `Metered` cuts
//! such a list where gas or room doesn't last. The machine runs by these rules, and so does the
//! compiler's meaning, which returns other things than stacks.
//!
//! - `laws`: what is true of runs, of their cost, of budgets and of big maps.
//! - `operand_laws`: what operands of the right types are answered.
//! - `typed_laws`: typed codes miss no operand, and leave what their types say.
//! - `ask`: what a run may ask the ledger, who called, and what a run may spend. Begin here.
//!
//! The definitions stand in `specs/`, from the instructions on numbers to whole runs. Nothing here
//! runs a code.
#![tactic(auto)]

mod ask;
mod laws;
mod operand_laws;
mod typed_laws;

pub use ask::{Ask, Budget, Env};
pub use laws::{
    a_change_leaves_other_versions, a_change_makes_the_next_version,
    a_code_costs_at_most_its_weight_a_turn, a_code_fails_by_its_own_causes,
    a_loop_is_its_body_and_itself, a_run_is_cut_where_it_spends_too_much,
    a_script_is_cut_where_it_spends_too_much, a_script_returns_the_turns_that_are_left,
    a_version_has_its_change, a_version_keeps_the_rest, both_ways_to_charge_are_fair,
    changes_go_on_ascending, charges_are_marks_alone, codes_run_one_after_another,
    enough_gas_and_room_change_nothing, metering_goes_on, no_run_returns_more_turns,
    what_is_more_is_left,
};
pub use operand_laws::{operands_of_a_line_are_answered, tested_results_are_small};
pub use typed_laws::{
    the_counter_may_be_called, typed_codes_go_to_their_outcome, typed_scripts_never_miss,
};
