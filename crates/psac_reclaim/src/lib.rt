//! Giving back what a run threw away, or all that it made.
#![tactic(auto)]

mod give;
pub mod laws;
mod part;
mod parts;

pub use give::{reclaim, reset};
pub use psac_fork::{Pass, Tables};
pub use psac_record::{Dropped, Record};

#[cfg(test)]
mod tests;
