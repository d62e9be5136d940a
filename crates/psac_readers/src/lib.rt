//! Sets of readers in shared words. A pass enters a set by one exchange, and walks those that it alone has; a fork
//! divides sets and links, and a join unites them.
#![tactic(auto)]

pub mod law;
pub mod readers;
pub mod view;

pub use psac_base::NoMemory;
pub use psac_ops::Handle;
pub use psac_slots::Full;
pub use readers::{Link, Readers, ReadersPass};
pub use view::ReadersSplit;
