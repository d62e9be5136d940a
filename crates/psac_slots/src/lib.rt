//! What all tables have that claim slots with generations: a counter from which a pass draws by one `fetch_add`, and a
//! stored free list in a ring. A table embeds the view of its claims, and its rule has theirs.
#![tactic(auto)]

pub mod claims;
pub mod full;
pub mod law;
pub mod view;

pub use full::Full;
pub use psac_ops::Handle;
