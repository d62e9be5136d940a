//! Laws of a repair that ended or was cut short: what it drew beside what the model's commit creates, and which mode that gives.
#![tactic(auto)]

mod laws;

pub use laws::{
    a_cut_repair_draws_less, a_done_repair_fits, a_full_repair_runs_anew,
    an_ended_repair_is_within_the_caps, records_read_what_is_there,
};
