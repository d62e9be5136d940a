//! Wherever a run of a parsed program comes, at most 24 names are in scope.
#![tactic(auto)]
