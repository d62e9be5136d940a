//! Tests of sessions that are watched, in a crate of their own, since a crate with tests is proved twice.
#![tactic(auto)]

#[cfg(test)]
mod live;
#[cfg(test)]
mod notes;
#[cfg(test)]
mod outside;
#[cfg(test)]
mod replies;
