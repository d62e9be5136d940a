ghost use Rattle.std.specs.Prelude.{◌≡◌};
ghost use Rattle.psac_record.specs.Shown.{kept_of};
ghost use Rattle.psac_record.specs.Opened.{part_of};

use crate::record::{Block, Both, Made, Record, Step, Wrote};
use std::mem::replace;

/// A record taken apart: its place, emptied, and the records that stood in it.
#[derive(Drop)]
pub enum Part {
    End,
    Made(Box<Made<Record>>, Record),
    Wrote(Box<Wrote<Record>>, Record),
    /// What the statement did, and the rest of its body.
    Step(Box<Step<Record>>, Record, Record),
    /// The left side and the right one.
    Both(Box<Both<Record>>, Record, Record),
    Block(Box<Block<Record>>, Record),
}

#[tactic(auto, unfolding(crate::specs::Shown::shown))]
impl Record {
    /// Takes the record apart. It takes and frees no memory.
    pub fn apart(self) -> Part
        ensures { part_of result ≡ kept_of self }
    {
        match self {
            Record::End => Part::End,
            Record::Made(mut place) => {
                let rest = replace(&mut place.rest, Record::End);
                Part::Made(place, rest)
            }
            Record::Wrote(mut place) => {
                let rest = replace(&mut place.rest, Record::End);
                Part::Wrote(place, rest)
            }
            Record::Step(mut place) => {
                let inner = replace(&mut place.inner, Record::End);
                let rest = replace(&mut place.rest, Record::End);
                Part::Step(place, inner, rest)
            }
            Record::Both(mut place) => {
                let left = replace(&mut place.left, Record::End);
                let right = replace(&mut place.right, Record::End);
                Part::Both(place, left, right)
            }
            Record::Block(mut place) => {
                let inner = replace(&mut place.inner, Record::End);
                Part::Block(place, inner)
            }
        }
    }
}

#[tactic(auto, unfolding(crate::specs::Shown::shown))]
impl Part {
    /// Puts the records into the place. It takes no memory.
    pub fn together(self) -> Record
        ensures { kept_of result ≡ part_of self }
    {
        match self {
            Part::End => Record::End,
            Part::Made(mut place, rest) => {
                place.rest = rest;
                Record::Made(place)
            }
            Part::Wrote(mut place, rest) => {
                place.rest = rest;
                Record::Wrote(place)
            }
            Part::Step(mut place, inner, rest) => {
                place.inner = inner;
                place.rest = rest;
                Record::Step(place)
            }
            Part::Both(mut place, left, right) => {
                place.left = left;
                place.right = right;
                Record::Both(place)
            }
            Part::Block(mut place, inner) => {
                place.inner = inner;
                Record::Block(place)
            }
        }
    }
}
