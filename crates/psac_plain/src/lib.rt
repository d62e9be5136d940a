//! The plain evaluator: the whole program one after another, with no record kept.
#![tactic(auto)]

pub mod ask;
mod begin;
pub mod binding;
pub mod halt;
pub mod opening;
mod outputs;
mod places;
mod plain;
mod run;
mod size;
pub mod value;

pub use plain::{PlainEnd, plain_run};
