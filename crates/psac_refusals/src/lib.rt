//! The lines that say why words, a program or an input aren't accepted.
#![tactic(auto)]

mod refused;

pub use refused::{check_line, input_line, limit_line, syntax_line, usage_line};
