//! The engine over the shared tables: a commit repairs the record that is kept, or runs the program from the start, and keeps the record.
#![tactic(auto)]

mod anew;
mod answer;
mod commit;
mod engine;
mod held;
mod repaired;
mod rest;
mod show;
mod trace;

pub use answer::Answer;
pub use engine::Engine;
pub use held::Held;
