//! The canonical text of a program, and the law that it is read back.
#![tactic(auto)]

mod laws;

pub use laws::canonical_reads_back;
