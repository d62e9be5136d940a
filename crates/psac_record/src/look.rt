ghost use Rattle.std.specs.Prelude.{◌≡◌};
ghost use Rattle.psac_record.specs.Opened.{look_of};
ghost use Rattle.psac_record.specs.Shown.{kept_of};

use crate::parts::Reading;
use crate::record::Record;
use psac_ops::{Handle, Plain};

/// A record that is only looked at: its first part, and the records that stand in it.
#[derive(Clone, Copy)]
pub enum Look<'a> {
    End,
    Made(Handle, &'a Record),
    Wrote(Handle, Plain, &'a Record),
    /// The node, what the statement did, and the rest of its body.
    Step(Handle, &'a Record, &'a Record),
    /// The node, the left side and the right one.
    Both(Handle, &'a Record, &'a Record),
    Block(&'a Reading, &'a Record),
}

impl Record {
    pub fn look(&self) -> Look<'_>
        ensures { look_of result ≡ kept_of self.now }
    {
        match self {
            Record::End => Look::End,
            Record::Made(place) => Look::Made(place.modifiable, &place.rest),
            Record::Wrote(place) => Look::Wrote(place.modifiable, place.value, &place.rest),
            Record::Step(place) => Look::Step(place.node, &place.inner, &place.rest),
            Record::Both(place) => Look::Both(place.node, &place.left, &place.right),
            Record::Block(place) => Look::Block(&place.reading, &place.inner),
        }
    }
}
