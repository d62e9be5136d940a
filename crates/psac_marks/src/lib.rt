//! Marks on the nodes of trees, in shared words. A raise marks a node and its ancestors, one exchange each, up to one
//! that was marked; a fork divides nodes with their children, and a join unites them.
#![tactic(auto)]

pub mod law;
pub mod marks;
pub mod view;

pub use marks::{Marks, MarksPass};
pub use psac_base::NoMemory;
pub use psac_ops::Handle;
pub use psac_slots::Full;
pub use view::MarksSplit;
