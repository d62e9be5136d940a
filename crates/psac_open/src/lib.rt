//! What every mode begins and ends with: a program that is accepted, an input that is taken, the engine over both, what is
//! written of others, and the status.
#![tactic(auto)]

mod ending;
mod input;
mod load;
mod named;
mod opening;
mod program;
mod refusal;
mod status;
mod texts;

pub use ending::finish;
pub use load::{MOST, load_named};
pub use named::{Unopened, open_named};
pub use opening::{Opened, open};
pub use program::accept;
pub use refusal::Refusal;
pub use status::{NO_MEMORY, Status};
pub use texts::enter_texts;
