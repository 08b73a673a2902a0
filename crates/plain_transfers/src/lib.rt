//! Plain transfers, run one by one on a state: what each operation of a block means.
//!
//! A transfer of 0 touches nothing. Any other debits its source, which fails where the source has
//! too little, and then credits its destination. It leaves a receipt, and a footprint: each balance
//! that it touched with the join of its modes, Own for the source and Credit for the destination,
//! so Own alone where both are one account.
//!
//! - `overlay`: the balances of a state with what changed kept apart. Begin here.
//! - `changes`: what changed, in a map ordered by addresses, so that a transfer costs a logarithm.
//! - `supply`: transfers keep what there is.
//!
//! `Overlay::run` equals `serial` (`specs/Serial.antt`), a definition over whole maps of balances,
//! and a block's operations mean `run_all` of the state that it stands on (`specs/Run.antt`), the
//! fold of it.
#![tactic(auto)]

mod changes;
mod overlay;
mod supply;
#[cfg(test)]
mod tests;

pub use overlay::Overlay;
pub use supply::supply_is_kept;
