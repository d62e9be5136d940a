//! Of a parsed program, a number is that of one read block.
#![tactic(auto)]
