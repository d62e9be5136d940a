//! The values of the language, the operators on them, and the words that hold a value.
#![tactic(auto)]

mod lookup;
mod op;
mod plain;
mod rows;
mod words;

pub use lookup::find;
pub use op::{Op, OpFault, apply};
pub use plain::{Handle, Plain, TextId};
pub use rows::{OpRow, operators, row};
pub use words::{from_words, to_words};
