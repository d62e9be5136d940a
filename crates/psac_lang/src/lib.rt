//! Parsing of programs.
#![tactic(auto)]

mod cursor;
mod expression;
mod fault;
mod function;
mod lists;
mod marks;
mod operand;
mod program;
mod reading;
mod start;
mod statement;

pub use fault::ParseFault;
pub use program::parse;
