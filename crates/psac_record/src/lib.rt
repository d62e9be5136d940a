//! The record of a run as an owned tree, and lists of subtrees that were taken off.
#![tactic(auto)]

mod chain;
mod dropped;
mod look;
mod part;
mod parts;
mod record;
mod size;

pub use dropped::Dropped;
pub use look::Look;
pub use part::Part;
pub use parts::{Binding, Env, Reading, Seen};
pub use record::{Block, Both, Made, Record, Step, Wrote};

#[cfg(test)]
mod tests;
