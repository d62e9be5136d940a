//! The grammar of programs.
#![tactic(auto)]

mod laws;

pub use laws::one_verdict;
