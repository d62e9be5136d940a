// Subtrees one behind the other, each kept in the place of the one before it.
ghost use Rattle.std.specs.Prelude.{◌≡◌, ◌++◌, reverse};
ghost use Rattle.psac_record.specs.Kept.{added, is_end, is_none};
ghost use Rattle.psac_record.specs.Shown.{kept_of, chain_of};

use crate::record::Record;

/// The tree in front of the chain; a tree without a place is left out.
#[tactic(auto, unfolding(crate::specs::Shown::shown))]
pub(crate) fn linked(tree: Record, chain: Record) -> Record
    ensures { chain_of result ≡ added (kept_of tree) (chain_of chain) }
{
    match tree {
        Record::End => chain,
        Record::Made(mut place) => {
            place.next = chain;
            Record::Made(place)
        }
        Record::Wrote(mut place) => {
            place.next = chain;
            Record::Wrote(place)
        }
        Record::Step(mut place) => {
            place.next = chain;
            Record::Step(place)
        }
        Record::Both(mut place) => {
            place.next = chain;
            Record::Both(place)
        }
        Record::Block(mut place) => {
            place.next = chain;
            Record::Block(place)
        }
    }
}

/// The first tree of a chain and the others; an empty tree where there is none.
#[tactic(auto, unfolding(crate::specs::Shown::shown))]
pub(crate) fn unlinked(chain: Record) -> (Record, Record)
    ensures first { kept_of result.0 ≡ kept_of chain }
    ensures all { chain_of chain ≡ added (kept_of result.0) (chain_of result.1) }
{
    match chain {
        Record::End => (Record::End, Record::End),
        Record::Made(mut place) => {
            let rest = std::mem::replace(&mut place.next, Record::End);
            (Record::Made(place), rest)
        }
        Record::Wrote(mut place) => {
            let rest = std::mem::replace(&mut place.next, Record::End);
            (Record::Wrote(place), rest)
        }
        Record::Step(mut place) => {
            let rest = std::mem::replace(&mut place.next, Record::End);
            (Record::Step(place), rest)
        }
        Record::Both(mut place) => {
            let rest = std::mem::replace(&mut place.next, Record::End);
            (Record::Both(place), rest)
        }
        Record::Block(mut place) => {
            let rest = std::mem::replace(&mut place.next, Record::End);
            (Record::Block(place), rest)
        }
    }
}

/// Whether a chain has no tree.
#[tactic(auto, unfolding(crate::specs::Shown::shown))]
pub(crate) fn is_done(chain: &Record) -> bool
    ensures tree { result ≡ is_end (kept_of chain.now) }
    ensures chain { result ≡ is_none (chain_of chain.now) }
{
    match chain {
        Record::End => true,
        _ => false,
    }
}

/// The trees of `from`, the last first, in front of those of `onto`.
#[tactic(auto, using(crate::proofs::Chains::added_longer))]
pub(crate) fn turned(from: Record, onto: Record) -> Record
    ensures { chain_of result ≡ reverse (chain_of from) ++ chain_of onto }
{
    let mut from = from;
    let mut onto = onto;
    while !is_done(&from) {
        let (first, rest) = unlinked(from);
        onto = linked(first, onto);
        from = rest;
    }
    onto
}

/// Drops the trees one by one.
#[tactic(auto, using(crate::proofs::Chains::added_longer))]
pub(crate) fn let_go(chain: Record) {
    let mut chain = chain;
    while !is_done(&chain) {
        let (_tree, rest) = unlinked(chain);
        chain = rest;
    }
}
