//! Commands of a script, read from its lines, and the texts of replies.
#![tactic(auto)]

mod command;
mod counts;
mod number;
mod parts;
mod quoted;
mod reply;
mod text;

pub use command::{Command, FormRefused, read_command};
pub use number::read_number;
pub use reply::{Reply, name_of, push_value, reply_text};
pub use text::{push_count, push_number};
