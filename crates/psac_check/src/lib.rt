//! The check that each destination of a program is written once, and before it is read.
#![tactic(auto)]

mod accepted;
mod body;
mod call;
mod expression;
mod fault;
mod names;
mod read;
mod rounds;
mod sides;
mod simple;

pub use accepted::Checked;
pub use fault::CheckFault;
pub use rounds::check;
