//! What is written over an engine: of one commit, or of a script, line by line.
#![tactic(auto)]

mod desk;
mod end;
mod first;
mod hold;
mod line;
mod listener;
mod places;
mod show;
mod turns;

pub use end::SessionEnd;
pub use first::once;
pub use listener::{Listener, Nobody};
pub use show::shown_reply;
pub use turns::{session, session_with};
