//! What the tests of whole runs share: their programs, and the words, files, script and outside of a run, in memory.
#![tactic(auto)]

pub mod programs;
mod whole;

pub use whole::{Case, Outside, Parts, SMALL, SOUND, run_of};
