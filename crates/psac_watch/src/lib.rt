//! A session whose outputs are seen while it runs.
#![tactic(auto)]

mod eye;
mod publisher;
mod run;
mod showing;
mod sides;
mod top;
mod watching;

pub use eye::{Eye, NoEye};
pub use psac_open::Status;
pub use top::watch;
