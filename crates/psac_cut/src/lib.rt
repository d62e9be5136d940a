//! What a run that was cut short drew is at most what the whole run has.
#![tactic(auto)]
