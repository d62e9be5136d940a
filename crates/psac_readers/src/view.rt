//! What a pass knows of the sets of a table, and what its steps tell.
use atomic_table::{Join, Play, Split, TableRule};
use psac_slots::view::ClaimView;
use std::collections::LinkedList;
use std::marker::{Brand, PhantomData};

/// How far a link is.
pub enum Stage {
    /// It stands in no set.
    Claimed,
    /// The head was swapped, and it found this word.
    UnderWay(u64),
    /// It is live.
    In,
    /// It was left.
    Dead,
}

/// A link that a pass alone may leave.
pub struct LinkView {
    pub link: u64,
    /// The modifiable in whose set it stands.
    pub of: u64,
    /// The word of its node, once it is stored.
    pub node: Option<u64>,
    pub stage: Stage,
}

/// A modifiable that no other pass touches.
pub struct WalkView {
    pub of: u64,
    /// Its links, from the head on, where the pass knows them.
    pub chain: Option<LinkedList<u64>>,
}

/// A modifiable whose set others may enter too.
pub struct SharedView {
    pub of: u64,
    /// The branch at whose join it is exclusive again.
    pub label: LinkedList<bool>,
}

/// What a pass knows. Contracts alone see it.
pub struct ReadersView {
    pub claims: ClaimView,
    /// How many modifiables the table has.
    pub mods: u64,
    pub walk: LinkedList<WalkView>,
    pub shared: LinkedList<SharedView>,
    pub links: LinkedList<LinkView>,
}

/// How large a table is.
#[derive(Clone, Copy)]
pub struct Sizes {
    pub mods: u32,
    pub links: u32,
}

/// How a fork divides what a pass has. It has no functions.
pub trait ReadersSplit {
    ghost use Rattle.std.specs.Prelude.{ℕ, Bool};

    /// The sets that both sides may enter from then on.
    ghost set_shared: { ℕ → Bool };

    /// The other sets that go to the right, with their links.
    ghost set_right: { ℕ → Bool };

    /// The links of shared sets that go to the right.
    ghost link_right: { ℕ → Bool };
}

impl ReadersSplit for Brand {
    ghost use Rattle.std.specs.Prelude.{false};

    ghost set_shared = { λ m. false };

    ghost set_right = { λ m. false };

    ghost link_right = { λ l. false };
}

/// The rule of the table, which holds between any two steps.
pub struct Law;

impl TableRule<(), ReadersView, Sizes> for Law {
    ghost use Rattle.psac_readers.specs.Chained.{Readable};
    ghost use Rattle.psac_readers.specs.Steps.{first_view};

    ghost holds = { λ z s. Readable z.links z.mods s.words s.views };

    ghost first = { λ z. first_view z.links z.mods };
}

/// A `fetch_add` draws an index.
pub struct Draws;

impl Play<(), ReadersView> for Draws {
    ghost use Rattle.psac_readers.specs.Steps.{Drew};

    ghost then = { Drew };
}

/// A store of a link's node.
pub struct Nodes;

impl Play<(), ReadersView> for Nodes {
    ghost use Rattle.psac_readers.specs.Steps.{Noded};

    ghost then = { Noded };
}

/// A swap of a set's head for a link.
pub struct Swaps;

impl Play<(), ReadersView> for Swaps {
    ghost use Rattle.psac_readers.specs.Steps.{Swapped};

    ghost then = { Swapped };
}

/// A store of what the swap found, as the link's next.
pub struct Comes;

impl Play<(), ReadersView> for Comes {
    ghost use Rattle.psac_readers.specs.Steps.{Came};

    ghost then = { Came };
}

/// A store of 1 to a dead word.
pub struct Leaves;

impl Play<(), ReadersView> for Leaves {
    ghost use Rattle.psac_readers.specs.Steps.{Left};

    ghost then = { Left };
}

/// A load of a set's head, from which the pass learns the chain.
pub struct Begins;

impl Play<(), ReadersView> for Begins {
    ghost use Rattle.psac_readers.specs.Steps.{Began};

    ghost then = { Began };
}

/// A load that changes no view.
pub struct Loads;

impl Play<(), ReadersView> for Loads {
    ghost use Rattle.psac_readers.specs.Steps.{Loaded};

    ghost then = { Loaded };
}

/// A load of the counter by a pass beside which there is no other.
pub struct Regains;

impl Play<(), ReadersView> for Regains {
    ghost use Rattle.psac_readers.specs.Steps.{Regained};

    ghost then = { Regained };
}

/// A store of 0 to the counter.
pub struct Rewinds;

impl Play<(), ReadersView> for Rewinds {
    ghost use Rattle.psac_readers.specs.Steps.{Rewound};

    ghost then = { Rewound };
}

/// A store of 0 to a dead word.
pub struct Revives;

impl Play<(), ReadersView> for Revives {
    ghost use Rattle.psac_readers.specs.Steps.{Revived};

    ghost then = { Revived };
}

/// A swap that takes a link off its set, by one beside whom there is no other.
pub struct Unlinks;

impl Play<(), ReadersView> for Unlinks {
    ghost use Rattle.psac_readers.specs.Steps.{Unlinked};

    ghost then = { Unlinked };
}

/// A store of a free link behind the list.
pub struct Frees;

impl Play<(), ReadersView> for Frees {
    ghost use Rattle.psac_readers.specs.Steps.{Freed};

    ghost then = { Freed };
}

/// The division that D names.
pub struct Cut<D> {
    of: PhantomData<D>,
}

impl<D: ReadersSplit> Split<ReadersView> for Cut<D> {
    ghost use Rattle.psac_readers.specs.Steps.{left_of, right_of};

    ghost left = { left_of D.set_shared D.set_right D.link_right };

    ghost right = { right_of D.set_shared D.set_right D.link_right };
}

/// How two passes are joined.
pub struct Unites;

impl Join<ReadersView> for Unites {
    ghost use Rattle.psac_readers.specs.Steps.{joined, spent};

    ghost both = { joined };

    ghost spent = { spent };
}
