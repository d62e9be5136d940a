//! Tokens of a program's text, each with its place.
#![tactic(auto)]

mod distinct;
mod front;
mod numbering;
mod place;
mod text;
mod token;
mod tokens;

pub use token::{Kind, NOTHING, Token};
pub use tokens::{Lexed, lex};
