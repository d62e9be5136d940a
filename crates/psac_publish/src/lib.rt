//! Outputs of a session, which observers in other threads see while it runs.
#![tactic(auto)]

mod front;
mod ledger;
mod named;
mod observer;
mod outputs;
mod publisher;
mod seen;
#[cfg(test)]
mod tests;

pub use ledger::{Opened, SeenName};
pub use observer::Observer;
pub use outputs::Outputs;
pub use publisher::{Published, Told};
pub use seen::Seen;
