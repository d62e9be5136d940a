//! The repair of a record, and its steps: what a block that is marked read against what is there now, running a block again, taking a
//! subtree off, the division at a par, and clearing marks on the way up.
#![tactic(auto)]

pub mod blocks;
pub mod counts;
pub mod divide;
pub mod entry;
pub mod fits;
pub mod founded;
pub mod laws;
pub mod links;
pub mod mend;
pub mod olds;
pub mod outcome;
pub mod present;
pub mod redo;
pub mod sums;
pub mod take;
pub mod tally;
pub mod visit;
pub mod walk;
pub mod watched;
pub mod world;

pub use tally::Tally;
