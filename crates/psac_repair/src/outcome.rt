//! What a repair gives back beside the pass.
ghost use Rattle.std.specs.Prelude.{◌≡◌, false, IfOk, Ok, None};
ghost use Rattle.psac_ops.specs.declared.plain.Handle.{Handle};
ghost use Rattle.psac_ops.specs.Named.{value_of as plain_value};
ghost use Rattle.psac_traced.specs.Rec as rec;
ghost use Rattle.psac_traced.specs.Rec.{Rec};
ghost use Rattle.psac_traced.specs.Mending.{Mending, beside as both, below as on_the_way};
ghost use Rattle.psac_record.specs.Kept as kept;
ghost use Rattle.psac_record.specs.Kept.{Kept};
ghost use Rattle.psac_record.specs.Shown.{kept_of, rec_of};
ghost use Rattle.psac_repair.specs.declared.tally.Tally.{Tally as Numbers};
ghost use Rattle.psac_repair.specs.Ended.{Good, Other, then_ended, untried_ended};
ghost use Rattle.psac_repair.specs.Tallied.{tally_of};
ghost use Rattle.psac_repair.specs.Outcomes.{stopped, ended_by, end_of, is_good, pair_ended, block_round, Counts};

use crate::tally::Tally;
use psac_record::{Block, Both, Dropped, Made, Part, Record, Step, Wrote};
use psac_trace::halt::Halt;

/// Why a repair gives no record.
#[derive(Clone, Copy, Debug, Drop)]
pub enum Stop {
    Halt(Halt),
    /// The left side of a par that couldn't be forked any more stopped at a fault. Whether the right side fills a table only a
    /// run anew tells.
    Unsettled,
}

/// The record, what was taken off it, and the numbers, or why there are none. After a halt the record is only good for
/// giving everything back.
#[derive(Drop)]
pub struct Outcome {
    pub tree: Record,
    pub dropped: Dropped,
    pub told: Result<Tally, Stop>,
}

impl Outcome {
    /// A record that is kept as it is.
    pub fn kept(tree: Record) -> Outcome
        ensures end { end_of result ≡ Good (rec_of tree) }
        ensures kept { kept_of result.tree ≡ kept_of tree }
        ensures counts { Counts (kept_of tree) result }
    {
        Outcome {
            tree,
            dropped: Dropped::new(),
            told: Ok(Tally::untouched()),
        }
    }

    /// Want of memory, before anything was done.
    pub fn no_memory(tree: Record) -> Outcome
        ensures end { end_of result ≡ Other None }
        ensures counts { (k : Kept) → Counts k result }
    {
        Outcome {
            tree,
            dropped: Dropped::new(),
            told: Err(Stop::Halt(Halt::NoMemory)),
        }
    }

    /// Whether there is a record.
    pub fn is_done(&self) -> bool
        ensures { result ≡ is_good (end_of self.now) }
    {
        match self.told {
            Ok(_) => true,
            Err(_) => false,
        }
    }
}

/// A par whose left side isn't done, and whose right side wasn't tried.
pub fn untried(place: Box<Both<Record>>, one: Outcome, right: Record) -> Outcome
    requires { is_good (end_of one) ≡ false }
    ensures end { end_of result ≡ untried_ended (end_of one) }
    ensures counts { (k : Kept) → Counts k result }
{
    let Outcome {
        tree: left,
        dropped,
        told,
    } = one;
    let told = match told {
        Ok(_) => unreachable!(),
        Err(Stop::Halt(Halt::Fault(..))) => Err(Stop::Unsettled),
        Err(stop) => Err(stop),
    };
    Outcome {
        tree: Part::Both(place, left, right).together(),
        dropped,
        told,
    }
}

/// What was made, before the rest.
pub fn behind_made(place: Box<Made<Record>>, rest: Outcome) -> Outcome
    ensures end { end_of result ≡ then_ended (rec.A place.value.modifiable) (end_of rest) }
    ensures kept { kept_of result.tree ≡ kept.A place.value.modifiable (kept_of rest.tree) }
    ensures counts { (k : Kept) → Counts k rest → Counts (kept.A place.value.modifiable k) result }
{
    let Outcome {
        tree,
        dropped,
        told,
    } = rest;
    Outcome {
        tree: Part::Made(place, tree).together(),
        dropped,
        told,
    }
}

/// A write, before the rest.
pub fn behind_wrote(place: Box<Wrote<Record>>, rest: Outcome) -> Outcome
    ensures end { end_of result ≡ then_ended (rec.W place.value.modifiable (plain_value place.value.value)) (end_of rest) }
    ensures kept { kept_of result.tree ≡ kept.W place.value.modifiable place.value.value (kept_of rest.tree) }
    ensures counts { (k : Kept) → Counts k rest → Counts (kept.W place.value.modifiable place.value.value k) result }
{
    let Outcome {
        tree,
        dropped,
        told,
    } = rest;
    Outcome {
        tree: Part::Wrote(place, tree).together(),
        dropped,
        told,
    }
}

// Which of two stops goes first: the one that leaves no answer, then want of memory, then a full table.
fn first_stop(one: Stop, two: Stop) -> Stop
    ensures { (f : Rec Handle → Rec Handle → Rec Handle) → stopped result ≡ pair_ended f (stopped one) (stopped two) }
{
    match one {
        Stop::Unsettled => Stop::Unsettled,
        Stop::Halt(Halt::NoMemory) => match two {
            Stop::Unsettled => Stop::Unsettled,
            Stop::Halt(_) => one,
        },
        Stop::Halt(Halt::Full(..)) => match two {
            Stop::Unsettled => Stop::Unsettled,
            Stop::Halt(Halt::NoMemory) => two,
            Stop::Halt(Halt::Full(..)) => one,
            Stop::Halt(Halt::Fault(..)) => one,
        },
        Stop::Halt(Halt::Fault(..)) => match two {
            Stop::Halt(Halt::Fault(..)) => one,
            Stop::Halt(Halt::Full(..)) => two,
            Stop::Halt(Halt::NoMemory) => two,
            Stop::Unsettled => two,
        },
    }
}

fn both_told(one: Result<Tally, Stop>, two: Result<Tally, Stop>) -> Result<Tally, Stop>
    ensures end { (f : Rec Handle → Rec Handle → Rec Handle) (a b : Rec Handle) → ended_by result (f a b) ≡ pair_ended f (ended_by one a) (ended_by two b) }
    ensures sums { IfOk result (λ t. (x : Numbers) × (y : Numbers) × (one ≡ Ok x) × (two ≡ Ok y) × ((a b : Mending Handle) → x ≡ tally_of a → y ≡ tally_of b → t ≡ tally_of (on_the_way (both a b)))) }
{
    match one {
        Ok(a) => match two {
            Ok(b) => Ok(a.beside(b).below()),
            Err(stop) => Err(stop),
        },
        Err(first) => match two {
            Ok(_) => Err(first),
            Err(second) => Err(first_stop(first, second)),
        },
    }
}

/// A part, and the rest behind it; where the part halted, the rest as it was.
pub fn in_step(place: Box<Step<Record>>, one: Outcome, two: Outcome) -> Outcome
    ensures end { end_of result ≡ pair_ended rec.S (end_of one) (end_of two) }
    ensures kept { kept_of result.tree ≡ kept.S place.value.node (kept_of one.tree) (kept_of two.tree) }
    ensures counts { (a b : Kept) → Counts a one → Counts b two → Counts (kept.S place.value.node a b) result }
{
    let Outcome {
        tree: inner,
        dropped: first,
        told: one,
    } = one;
    let Outcome {
        tree: rest,
        dropped: second,
        told: two,
    } = two;
    Outcome {
        tree: Part::Step(place, inner, rest).together(),
        dropped: first.join(second),
        told: both_told(one, two),
    }
}

/// Both sides.
pub fn in_sides(place: Box<Both<Record>>, one: Outcome, two: Outcome) -> Outcome
    ensures end { end_of result ≡ pair_ended rec.P (end_of one) (end_of two) }
    ensures kept { kept_of result.tree ≡ kept.P place.value.node (kept_of one.tree) (kept_of two.tree) }
    ensures counts { (a b : Kept) → Counts a one → Counts b two → Counts (kept.P place.value.node a b) result }
{
    let Outcome {
        tree: left,
        dropped: first,
        told: one,
    } = one;
    let Outcome {
        tree: right,
        dropped: second,
        told: two,
    } = two;
    Outcome {
        tree: Part::Both(place, left, right).together(),
        dropped: first.join(second),
        told: both_told(one, two),
    }
}

fn told_below(told: Result<Tally, Stop>) -> Result<Tally, Stop>
    ensures end { (f : Rec Handle → Rec Handle) (a : Rec Handle) → ended_by result (f a) ≡ then_ended f (ended_by told a) }
    ensures sums { IfOk result (λ t. (x : Numbers) × (told ≡ Ok x) × ((a : Mending Handle) → x ≡ tally_of a → t ≡ tally_of (on_the_way a))) }
{
    match told {
        Ok(tally) => Ok(tally.below()),
        Err(stop) => Err(stop),
    }
}

/// A read block round its body.
pub fn in_block(place: Box<Block<Record>>, inner: Outcome) -> Outcome
    ensures end { end_of result ≡ then_ended (block_round place.value.reading) (end_of inner) }
    ensures kept { kept_of result.tree ≡ kept.R place.value.reading (kept_of inner.tree) }
    ensures counts { (k : Kept) → Counts k inner → Counts (kept.R place.value.reading k) result }
{
    let Outcome {
        tree,
        dropped,
        told,
    } = inner;
    Outcome {
        tree: Part::Block(place, tree).together(),
        dropped,
        told: told_below(told),
    }
}
