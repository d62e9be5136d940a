//! What stands between an engine and a run: the inputs' words in the table of values, and a pass between two commits.
#![tactic(auto)]

pub mod laws;
pub mod reclaim;
pub mod settle;
pub mod stage;
pub mod store;
