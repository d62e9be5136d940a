ghost use Rattle.std.specs.Prelude.{◌≡◌, [], ◌∷◌, ◌++◌, MatchOption, IfSome, Some, false};
ghost use Rattle.psac_record.specs.Dropped.{dropped_of};
ghost use Rattle.psac_record.specs.Kept.{added, is_end, is_none, parted};
ghost use Rattle.psac_record.specs.Opened.{part_of};
ghost use Rattle.psac_record.specs.Shown.{kept_of};

use crate::chain::{is_done, let_go, linked, turned, unlinked};
use crate::part::Part;
use crate::record::Record;
use std::mem::replace;

/// Subtrees that were taken off a record, in order. It takes no memory of its own: each subtree leads to the next.
pub struct Dropped {
    front: Record,
    /// Behind those at the front, the last first.
    back: Record,
    /// How many there are, by which `join` moves the shorter list.
    many: u64,
}

#[tactic(auto, unfolding(crate::specs::Shown::shown))]
impl Dropped {
    pub fn new() -> Dropped
        ensures { dropped_of result ≡ [] }
    {
        Dropped {
            front: Record::End,
            back: Record::End,
            many: 0,
        }
    }

    pub fn is_empty(&self) -> bool
        ensures { result ≡ is_none (dropped_of self.now) }
    {
        is_done(&self.front) && is_done(&self.back)
    }

    /// Puts a subtree first. One that is `E` alone has nothing to give back, and is left out.
    pub fn add(&mut self, tree: Record)
        ensures { dropped_of self.new ≡ added (kept_of tree) (dropped_of self.old) }
    {
        if tree.is_empty() {
            return;
        }
        let front = replace(&mut self.front, Record::End);
        self.front = linked(tree, front);
        self.many = self.many.saturating_add(1);
    }

    /// The subtrees of `self`, and then those of `other`. The fewer of them move behind or before the others.
    pub fn join(self, other: Dropped) -> Dropped
        ensures { dropped_of result ≡ dropped_of self ++ dropped_of other }
    {
        let Dropped { front, back, many } = self;
        let Dropped {
            front: first,
            back: last,
            many: more,
        } = other;
        let sum = many.saturating_add(more);
        if more < many {
            let back = turned(first, back);
            let back = turned(turned(last, Record::End), back);
            Dropped {
                front,
                back,
                many: sum,
            }
        } else {
            let front = turned(turned(front, Record::End), turned(back, first));
            Dropped {
                front,
                back: last,
                many: sum,
            }
        }
    }

    /// Takes the first subtree.
    pub fn take(&mut self) -> Option<Record>
        ensures first { MatchOption result ((dropped_of self.old ≡ []) × (dropped_of self.new ≡ [])) (λ tree. dropped_of self.old ≡ kept_of tree ∷ dropped_of self.new) }
        ensures whole { IfSome result (λ tree. is_end (kept_of tree) ≡ false) }
    {
        let front = replace(&mut self.front, Record::End);
        let front = if is_done(&front) {
            turned(replace(&mut self.back, Record::End), front)
        } else {
            front
        };
        if is_done(&front) {
            return None;
        }
        let (tree, rest) = unlinked(front);
        self.front = rest;
        self.many = self.many.saturating_sub(1);
        Some(tree)
    }
}

#[tactic(auto, unfolding(crate::specs::Shown::shown))]
impl Dropped {
    /// Takes the first part of the first subtree. What stands in it comes first in the list that is left.
    pub fn take_part(&mut self) -> Option<Part>
        ensures first { MatchOption result ((dropped_of self.old ≡ []) × (dropped_of self.new ≡ [])) (λ part. parted (dropped_of self.old) ≡ Some (part_of part, dropped_of self.new)) }
        ensures whole { IfSome result (λ part. is_end (part_of part) ≡ false) }
    {
        let tree = self.take()?;
        match tree.apart() {
            Part::End => Some(Part::End),
            Part::Made(place, rest) => {
                self.add(rest);
                Some(Part::Made(place, Record::End))
            }
            Part::Wrote(place, rest) => {
                self.add(rest);
                Some(Part::Wrote(place, Record::End))
            }
            Part::Step(place, inner, rest) => {
                self.add(rest);
                self.add(inner);
                Some(Part::Step(place, Record::End, Record::End))
            }
            Part::Both(place, left, right) => {
                self.add(right);
                self.add(left);
                Some(Part::Both(place, Record::End, Record::End))
            }
            Part::Block(place, inner) => {
                self.add(inner);
                Some(Part::Block(place, Record::End))
            }
        }
    }
}

impl Drop for Dropped {
    /// One by one, since a chain may be long.
    fn drop(self) {
        let Dropped {
            front,
            back,
            many: _,
        } = self;
        let_go(front);
        let_go(back);
    }
}
