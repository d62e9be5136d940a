//! What a run of a program gives, and what a session answers.
#![tactic(auto)]

mod ends;
mod main_func;

pub use ends::{CapKind, Caps, End, FaultKind, Mode, Shown, Size, Work};
pub use main_func::main_of;
