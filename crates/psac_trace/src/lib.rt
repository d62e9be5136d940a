//! The tracing run: it runs a body and records what it does, both sides of a par at once.
#![tactic(auto)]

pub mod ask;
pub mod divide;
pub mod ground;
pub mod halt;
pub mod laws;
pub mod nodes;
pub mod put;
pub mod run;
pub mod warn;
pub mod world;
