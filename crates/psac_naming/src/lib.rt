//! A run over any names of modifiables is the run over names by paths.
#![tactic(auto)]
