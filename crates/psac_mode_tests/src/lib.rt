//! Tests of the modes `bench`, `dump` and `certify`, in a crate of their own, since a crate with tests is proved twice.
#![tactic(auto)]

#[cfg(test)]
mod benches;
#[cfg(test)]
mod dumps;
#[cfg(test)]
mod verdicts;
#[cfg(test)]
mod whole;
