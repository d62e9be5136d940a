//! Printing of programs.
#![tactic(auto)]

mod expression;
mod program;
mod statement;
mod words;

pub use program::print;
