//! What a pass knows of the claims of a table.
use psac_ops::Handle;
use std::collections::LinkedList;

/// What a pass knows. Contracts alone see it.
pub struct ClaimView {
    /// False once it was joined into another.
    pub live: bool,
    /// The turns of the forks above it, false for left.
    pub branch: LinkedList<bool>,
    /// How many slots the table has.
    pub count: u64,
    /// Where the free list begins in the ring.
    pub head: u64,
    /// The stored free list.
    pub list: LinkedList<Handle>,
    /// The indexes that it drew since the last rewind.
    pub drawn: LinkedList<u64>,
    /// The handles that it claimed.
    pub held: LinkedList<Handle>,
    /// How many of the drawn indexes are not below the list's length.
    pub over: u64,
    /// The counter, where the pass is sole and knows it.
    pub counter: Option<u64>,
}
