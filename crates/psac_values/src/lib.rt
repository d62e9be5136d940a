//! Modifiables in shared words. A pass reads the words that it knows, and alone writes those of the slots that are
//! its own; a fork divides what a pass has, and a join unites it.
#![tactic(auto)]

pub mod law;
pub mod values;
pub mod view;

pub use psac_base::NoMemory;
pub use psac_ops::Handle;
pub use psac_slots::Full;
pub use values::{ValuePass, Values};
pub use view::ValuesSplit;
