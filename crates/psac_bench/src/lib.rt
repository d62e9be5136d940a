//! A bench: a program over cells that are made, and batches of edits that are made, each committed.
#![tactic(auto)]

mod made;
mod report;
mod run;
mod top;
mod totals;

pub use top::bench;
