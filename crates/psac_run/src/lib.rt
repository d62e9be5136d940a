//! A run of a program over an input, from the words of a command line to the bytes that are written.
#![tactic(auto)]

mod serve;
mod top;

pub use psac_open::Status;
pub use top::psac;
