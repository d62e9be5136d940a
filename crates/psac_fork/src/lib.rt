//! The shared tables with their passes, and two jobs that run at once where a permit is free.
#![tactic(auto)]

pub mod crew;
pub mod pass;
pub mod sides;
pub mod tables;

pub use crew::{Crew, Gate, NoGate, Side, both};
pub use sides::{Part, fork_sides};
pub use tables::{Pass, PassSplit, Tables};

#[cfg(test)]
mod tests;
