//! Laws of the fresh run of a program that meets the series rule.
#![tactic(auto)]

mod laws;

pub use laws::series_rule_holds;
