//! What a session answers and what is printed.
#![tactic(auto)]
