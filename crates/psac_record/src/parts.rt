ghost use Rattle.std.specs.Prelude.{◌≡◌, IfOk};

use arrayvec::ArrayVec;
use psac_ops::{Handle, Plain};
use psac_readers::Link;
use sqlite_items::Items;
use std::alloc::{AllocError, Global};

/// A name with its value.
#[derive(Clone, Copy, Debug, PartialEq, Eq)]
pub struct Binding {
    pub name: u16,
    /// Of a destination: whether the present commit made its modifiable.
    pub made: bool,
    pub value: Plain,
}

impl Default for Binding {
    fn default() -> Binding {
        Binding {
            name: 0,
            made: false,
            value: Plain::Nil,
        }
    }
}

/// The names in scope with their values, in the order of first binding.
pub type Env = ArrayVec<Binding, 24>;

/// One read: the modifiable, the link in its set of readers, and the value.
#[derive(Clone, Copy)]
pub struct Seen {
    pub from: Handle,
    pub link: Link,
    pub value: Plain,
}

/// What a read block began with.
#[derive(Drop)]
pub struct Reading {
    pub node: Handle,
    pub block: u32,
    /// The level of the block's first statement.
    pub level: u32,
    /// The environment of the read statement.
    pub env: Items<Binding>,
    pub reads: Items<Seen>,
}

impl Reading {
    pub fn new(
        alloc: Global,
        node: Handle,
        block: u32,
        level: u32,
        env: &[Binding],
        reads: &[Seen],
    ) -> Result<Reading, AllocError>
        ensures { IfOk result (λ r. r ≡ record { node = node; block = block; level = level; env = env.now; reads = reads.now }) }
    {
        let env = Items::from_slice(alloc, env)?;
        let reads = Items::from_slice(alloc, reads)?;
        Ok(Reading {
            node,
            block,
            level,
            env,
            reads,
        })
    }
}
