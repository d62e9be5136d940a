//! Tests of sessions and of whole runs, in a crate of their own, since a crate with tests is proved twice.
#![tactic(auto)]

#[cfg(test)]
mod opening;
#[cfg(test)]
mod outside;
#[cfg(test)]
mod plain_runs;
#[cfg(test)]
mod run_once;
#[cfg(test)]
mod session_at_once;
#[cfg(test)]
mod session_full;
#[cfg(test)]
mod session_held;
#[cfg(test)]
mod session_outside;
#[cfg(test)]
mod session_replies;
#[cfg(test)]
mod whole;
