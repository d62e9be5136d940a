//! Tests of the public calls of the crates below, but for those of the language. They stand in a crate of their own, since a crate
//! with tests is proved twice.
#![tactic(auto)]

#[cfg(test)]
mod base;
#[cfg(test)]
mod base_shelf;
#[cfg(test)]
mod base_sink;
#[cfg(test)]
mod base_source;
#[cfg(test)]
mod command;
#[cfg(test)]
mod inputs;
#[cfg(test)]
mod ops;
#[cfg(test)]
mod plain;
#[cfg(test)]
mod refusals;
#[cfg(test)]
mod script_commands;
