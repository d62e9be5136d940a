//! One run of a program over an input, whose record is written as text, or compared with a text that is read.
#![tactic(auto)]

mod certify;
mod dump;
mod reply;
mod text;
mod top;

pub use psac_open::Status;
pub use top::{certified, dumped};
