//! What a repair did, in numbers.
ghost use Rattle.std.specs.Prelude.{◌≡◌, ◌+◌};
ghost use Rattle.psac_ops.specs.declared.plain.Handle.{Handle};
ghost use Rattle.psac_model.specs.Tree.{add_size, size_of};
ghost use Rattle.psac_model.specs.Plain.{capped, capped_count};
ghost use Rattle.psac_traced.specs.Rec.{Rec, tree_of};
ghost use Rattle.psac_traced.specs.Mending.{Mending, untouched as nothing, beside as both, below as on_the_way, anew as run_again, work_of};
ghost use Rattle.psac_repair.specs.Tallied.{tally_of, capped_work};

use psac_model::{Mode, Size, Work};

/// What a repair did. A count that would pass the greatest number stays there.
#[derive(Clone, Copy, Debug, PartialEq, Eq)]
pub struct Tally {
    /// The nodes on the way to blocks that ran again, themselves included.
    pub visited: u64,
    pub rerun: u64,
    /// What was taken off, and what was run in its place.
    pub removed: Size,
    pub added: Size,
}

const NONE: Size = Size {
    s: 0,
    p: 0,
    r: 0,
    mods: 0,
    links: 0,
};

fn sum_of(a: Size, b: Size) -> Size
    ensures { result ≡ capped (add_size a b) }
{
    Size {
        s: a.s.saturating_add(b.s),
        p: a.p.saturating_add(b.p),
        r: a.r.saturating_add(b.r),
        mods: a.mods.saturating_add(b.mods),
        links: a.links.saturating_add(b.links),
    }
}

fn count_of(a: u64, b: u64) -> u64
    ensures { result ≡ capped_count (a + b) }
{
    a.saturating_add(b)
}

impl Tally {
    pub fn untouched() -> Tally
        ensures { result ≡ tally_of nothing }
    {
        Tally {
            visited: 0,
            rerun: 0,
            removed: NONE,
            added: NONE,
        }
    }

    /// What was done here and there.
    pub fn beside(self, other: Tally) -> Tally
        ensures { (a b : Mending Handle) → self ≡ tally_of a → other ≡ tally_of b → result ≡ tally_of (both a b) }
    {
        Tally {
            visited: count_of(self.visited, other.visited),
            rerun: count_of(self.rerun, other.rerun),
            removed: sum_of(self.removed, other.removed),
            added: sum_of(self.added, other.added),
        }
    }

    /// A node more, where something below it ran again.
    pub fn below(self) -> Tally
        ensures { (d : Mending Handle) → self ≡ tally_of d → result ≡ tally_of (on_the_way d) }
    {
        if self.rerun == 0 {
            return self;
        }
        Tally {
            visited: count_of(self.visited, 1),
            ..self
        }
    }

    /// A block that ran again.
    pub fn anew(removed: Size, added: Size) -> Tally
        ensures { (t u : Rec Handle) → removed ≡ capped (size_of (tree_of t)) → added ≡ capped (size_of (tree_of u)) → result ≡ tally_of (run_again t u) }
    {
        Tally {
            visited: 1,
            rerun: 1,
            removed,
            added,
        }
    }

    /// The numbers of a repair's work.
    pub fn work(self) -> Work
        ensures { (d : Mending Handle) → self ≡ tally_of d → result ≡ capped_work (work_of d) }
    {
        let steps = count_of(self.added.s, self.added.p);
        Work {
            mode: Mode::Repair,
            visited: self.visited,
            rerun: self.rerun,
            inside: self.added.r,
            dropped: self.removed.r,
            nodes: count_of(steps, self.added.r),
            mods: self.added.mods,
            links: self.added.links,
        }
    }
}
