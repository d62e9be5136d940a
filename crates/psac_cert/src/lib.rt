//! A kept record as text: a line for each of its parts, with the names that the definitions give its modifiables. And a text that is
//! checked against the run of a program.
#![tactic(auto)]

mod dictionary;
mod judge;
mod lines;
mod name;
mod names;
mod verdict;
mod write;

pub use judge::{CertifyFault, certify};
pub use verdict::{Verdict, compare};
pub use write::{DumpFault, dump};

#[cfg(test)]
mod tests;
