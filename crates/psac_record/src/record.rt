ghost use Rattle.std.specs.Prelude.{◌≡◌, IfOk};
ghost use Rattle.psac_record.specs.Kept.{E, A, W, S, P, R, is_end};
ghost use Rattle.psac_record.specs.Shown.{kept_of};

use crate::parts::{Binding, Reading, Seen};
use psac_ops::{Handle, Plain};
use std::alloc::{AllocError, Global};

/// The record of a run.
#[derive(Drop)]
pub enum Record {
    End,
    Made(Box<Made<Record>>),
    Wrote(Box<Wrote<Record>>),
    Step(Box<Step<Record>>),
    Both(Box<Both<Record>>),
    Block(Box<Block<Record>>),
}

/// A modifiable was made.
#[derive(Drop)]
pub struct Made<T> {
    pub modifiable: Handle,
    pub rest: T,
    /// The subtrees behind this one, where it stands in a chain.
    pub(crate) next: T,
}

/// A modifiable was written.
#[derive(Drop)]
pub struct Wrote<T> {
    pub modifiable: Handle,
    pub value: Plain,
    pub rest: T,
    /// The subtrees behind this one, where it stands in a chain.
    pub(crate) next: T,
}

/// What a statement did, and the rest of its body.
#[derive(Drop)]
pub struct Step<T> {
    pub node: Handle,
    pub inner: T,
    pub rest: T,
    /// The subtrees behind this one, where it stands in a chain.
    pub(crate) next: T,
}

/// Both sides of a `par`.
#[derive(Drop)]
pub struct Both<T> {
    pub node: Handle,
    pub left: T,
    pub right: T,
    /// The subtrees behind this one, where it stands in a chain.
    pub(crate) next: T,
}

/// A read block.
#[derive(Drop)]
pub struct Block<T> {
    pub reading: Reading,
    pub inner: T,
    /// The subtrees behind this one, where it stands in a chain.
    pub(crate) next: T,
}

#[tactic(auto, unfolding(crate::specs::Shown::shown))]
impl Record {
    pub fn empty() -> Record
        ensures { kept_of result ≡ E }
    {
        Record::End
    }

    /// Whether nothing was recorded.
    pub fn is_empty(&self) -> bool
        ensures { result ≡ is_end (kept_of self.now) }
    {
        match self {
            Record::End => true,
            _ => false,
        }
    }

    pub fn made(alloc: Global, modifiable: Handle, rest: Record) -> Result<Record, AllocError>
        ensures { IfOk result (λ r. kept_of r ≡ A modifiable (kept_of rest)) }
    {
        let next = Record::End;
        Ok(Record::Made(Box::new(
            alloc,
            Made {
                modifiable,
                rest,
                next,
            },
        )?))
    }

    pub fn wrote(
        alloc: Global,
        modifiable: Handle,
        value: Plain,
        rest: Record,
    ) -> Result<Record, AllocError>
        ensures { IfOk result (λ r. kept_of r ≡ W modifiable value (kept_of rest)) }
    {
        let next = Record::End;
        Ok(Record::Wrote(Box::new(
            alloc,
            Wrote {
                modifiable,
                value,
                rest,
                next,
            },
        )?))
    }

    pub fn step(
        alloc: Global,
        node: Handle,
        inner: Record,
        rest: Record,
    ) -> Result<Record, AllocError>
        ensures { IfOk result (λ r. kept_of r ≡ S node (kept_of inner) (kept_of rest)) }
    {
        let next = Record::End;
        Ok(Record::Step(Box::new(
            alloc,
            Step {
                node,
                inner,
                rest,
                next,
            },
        )?))
    }

    pub fn both(
        alloc: Global,
        node: Handle,
        left: Record,
        right: Record,
    ) -> Result<Record, AllocError>
        ensures { IfOk result (λ r. kept_of r ≡ P node (kept_of left) (kept_of right)) }
    {
        let next = Record::End;
        Ok(Record::Both(Box::new(
            alloc,
            Both {
                node,
                left,
                right,
                next,
            },
        )?))
    }

    pub fn block(alloc: Global, reading: Reading, inner: Record) -> Result<Record, AllocError>
        ensures { IfOk result (λ r. kept_of r ≡ R reading (kept_of inner)) }
    {
        let next = Record::End;
        Ok(Record::Block(Box::new(
            alloc,
            Block {
                reading,
                inner,
                next,
            },
        )?))
    }
}

// What each part takes, in bytes.
const _: () = prove!(size_of::<Record>() == 16);

const _: () = prove!(size_of::<Made<Record>>() == 40);

const _: () = prove!(size_of::<Wrote<Record>>() == 64);

const _: () = prove!(size_of::<Step<Record>>() == 56);

const _: () = prove!(size_of::<Both<Record>>() == 56);

const _: () = prove!(size_of::<Block<Record>>() == 96);

const _: () = prove!(size_of::<Binding>() == 32);

const _: () = prove!(size_of::<Seen>() == 40);
