//! The shared tables, and what a pass of all of them has.
ghost use Rattle.std.specs.Prelude.{◌≡◌, length};

use psac_marks::{Marks, MarksPass, MarksSplit};
use psac_readers::{Readers, ReadersPass, ReadersSplit};
use psac_values::{ValuePass, Values, ValuesSplit};
use std::marker::Brand;

/// How a fork divides a pass of all tables. It has no functions.
pub trait PassSplit: ValuesSplit + ReadersSplit + MarksSplit {}

impl PassSplit for Brand {}

/// The shared tables: the words of modifiables, the sets of their readers, and the marks of nodes.
#[derive(Drop)]
pub struct Tables {
    pub values: Values,
    pub readers: Readers,
    pub marks: Marks,
}

/// A pass of each table. All have one branch, and `depth` is its length.
#[derive(Drop)]
pub struct Pass {
    pub values: ValuePass,
    pub readers: ReadersPass,
    pub marks: MarksPass,
    pub depth: u32,
    ghost deep: { depth ≡ length values.knows.claims.branch },
    ghost beside: { readers.knows.claims.branch ≡ values.knows.claims.branch },
    ghost beside_marks: { marks.knows.claims.branch ≡ values.knows.claims.branch },
}
