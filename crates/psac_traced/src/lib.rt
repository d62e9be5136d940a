//! The record of a run, over any names of modifiables: what it may be, and that it stands for the run by paths.
#![tactic(auto)]
