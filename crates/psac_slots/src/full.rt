ghost use Rattle.std.specs.Prelude.{◌≤◌};

/// A claim drew an index that is not below the room. The pass keeps the index.
#[derive(Clone, Copy, Debug, Drop, PartialEq, Eq)]
pub struct Full {
    /// The drawn index.
    pub index: u64,
    /// The length of the free list since it last began anew.
    pub room: u64,
    ghost past: { room ≤ index },
}
