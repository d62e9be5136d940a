//! What a pass knows of the values of a table, and what its steps tell.
use atomic_table::{Join, Play, Split, TableRule};
use psac_ops::Handle;
use psac_slots::view::ClaimView;
use std::collections::LinkedList;
use std::marker::{Brand, PhantomData};

/// A modifiable that a pass alone may write, with those of its words that the pass knows.
pub struct OwnedView {
    pub of: Handle,
    pub words: LinkedList<Option<u64>>,
}

/// A modifiable that other passes know too. At the join of the branch that is its label it is owned again.
pub struct KnownView {
    pub of: Handle,
    pub words: LinkedList<Option<u64>>,
    pub label: LinkedList<bool>,
}

/// A claimed slot, and the word that says whether it is out.
pub struct StateView {
    pub of: Handle,
    pub word: u64,
}

/// What two passes had when they were joined.
pub struct MetView {
    pub left: LinkedList<OwnedView>,
    pub right: LinkedList<OwnedView>,
    pub known_left: LinkedList<KnownView>,
    pub known_right: LinkedList<KnownView>,
}

/// What a pass knows. Contracts alone see it.
pub struct ValueView {
    pub claims: ClaimView,
    /// How many slots stand below the made ones.
    pub fixed: u64,
    pub mine: LinkedList<OwnedView>,
    pub known: LinkedList<KnownView>,
    pub states: LinkedList<StateView>,
    /// How many reads it has made, and the passes that were joined into it.
    pub looks: u64,
    /// The sides of a join, until a step later tells of them.
    pub met: Option<MetView>,
}

/// How large a table is.
#[derive(Clone, Copy)]
pub struct Sizes {
    pub fixed: u32,
    pub mods: u32,
}

/// How a fork divides what a pass has. It has no functions.
pub trait ValuesSplit {
    ghost use Rattle.std.specs.Prelude.{ℕ, Bool};

    /// The slots that both sides know from then on, and neither may write.
    ghost shared: { ℕ → Bool };

    /// The others that go to the right.
    ghost to_right: { ℕ → Bool };
}

impl ValuesSplit for Brand {
    ghost use Rattle.std.specs.Prelude.{false};

    ghost shared = { λ s. false };

    ghost to_right = { λ s. false };
}

/// The rule of the table, which holds between any two steps.
pub struct Law;

impl TableRule<(), ValueView, Sizes> for Law {
    ghost use Rattle.psac_values.specs.Valued.{Rule};
    ghost use Rattle.psac_values.specs.Steps.{first_view};

    ghost holds = { λ z s. Rule z.fixed z.mods s.words s.views };

    ghost first = { λ z. first_view z.fixed z.mods };
}

/// A `fetch_add` draws an index.
pub struct Draws;

impl Play<(), ValueView> for Draws {
    ghost use Rattle.psac_values.specs.Steps.{Drew};

    ghost then = { Drew };
}

/// A load that changes no view.
pub struct Loads;

impl Play<(), ValueView> for Loads {
    ghost use Rattle.psac_values.specs.Steps.{Loaded};

    ghost then = { Loaded };
}

/// The first load of a read.
pub struct Looks;

impl Play<(), ValueView> for Looks {
    ghost use Rattle.psac_values.specs.Steps.{Looked};

    ghost then = { Looked };
}

/// A store to a word that the pass alone may write.
pub struct Writes;

impl Play<(), ValueView> for Writes {
    ghost use Rattle.psac_values.specs.Steps.{Wrote};

    ghost then = { Wrote };
}

/// A store to the state of a claimed slot.
pub struct Marks;

impl Play<(), ValueView> for Marks {
    ghost use Rattle.psac_values.specs.Steps.{Marked};

    ghost then = { Marked };
}

/// The load after a join.
pub struct Settles;

impl Play<(), ValueView> for Settles {
    ghost use Rattle.psac_values.specs.Steps.{Settled};

    ghost then = { Settled };
}

/// A load of the counter by a pass beside which there is no other.
pub struct Learns;

impl Play<(), ValueView> for Learns {
    ghost use Rattle.psac_values.specs.Steps.{Learned};

    ghost then = { Learned };
}

/// A store of 0 to the counter.
pub struct Rewinds;

impl Play<(), ValueView> for Rewinds {
    ghost use Rattle.psac_values.specs.Steps.{Rewound};

    ghost then = { Rewound };
}

/// A store of a free slot behind the list.
pub struct Gives;

impl Play<(), ValueView> for Gives {
    ghost use Rattle.psac_values.specs.Steps.{Gave};

    ghost then = { Gave };
}

/// The division that D names.
pub struct Cut<D> {
    of: PhantomData<D>,
}

impl<D: ValuesSplit> Split<ValueView> for Cut<D> {
    ghost use Rattle.psac_values.specs.Steps.{left_of, right_of};

    ghost left = { left_of D.shared D.to_right };

    ghost right = { right_of D.shared D.to_right };
}

/// How two passes are joined.
pub struct Unites;

impl Join<ValueView> for Unites {
    ghost use Rattle.psac_values.specs.Steps.{met, spent};

    ghost both = { met };

    ghost spent = { spent };
}
