//! What a pass knows of the nodes of a table, and what its steps tell.
use atomic_table::{Join, Play, Split, TableRule};
use psac_ops::Handle;
use psac_slots::view::ClaimView;
use std::collections::LinkedList;
use std::marker::{Brand, PhantomData};

/// A node that a pass alone may raise and clear.
pub struct OwnView {
    pub node: Handle,
    /// The parent's slot, or None for a root.
    pub parent: Option<u64>,
}

/// A node that other passes may raise too. At the join of the branch that is its label it is owned again.
pub struct SharedView {
    pub node: Handle,
    pub parent: Option<u64>,
    pub label: LinkedList<bool>,
}

/// A claimed slot, and the word that says whether it is out.
pub struct StateView {
    pub of: Handle,
    pub word: u64,
}

/// What two passes had when they were joined.
pub struct MetView {
    pub left: LinkedList<OwnView>,
    pub right: LinkedList<OwnView>,
    pub shared_left: LinkedList<SharedView>,
    pub shared_right: LinkedList<SharedView>,
}

/// What a pass knows. Contracts alone see it. Nodes are named by their slots where no handle stands.
pub struct MarksView {
    pub claims: ClaimView,
    pub own: LinkedList<OwnView>,
    pub shared: LinkedList<SharedView>,
    /// The nodes whose mark this pass has.
    pub marked: LinkedList<u64>,
    /// Nodes that are known to be marked, by whichever pass.
    pub busy: LinkedList<u64>,
    /// The marked node from which the pass is about to go on to the parent.
    pub climb: Option<u64>,
    /// Own nodes that were detached.
    pub dropped: LinkedList<u64>,
    pub states: LinkedList<StateView>,
    /// How many times it has asked for a mark, and the passes that were joined into it.
    pub asks: u64,
    /// The sides of a join, until a step later tells of them.
    pub met: Option<MetView>,
}

/// How a fork divides the nodes that a pass has. It has no functions.
pub trait MarksSplit {
    ghost use Rattle.std.specs.Prelude.{ℕ, Bool};

    /// The nodes that both sides may raise from then on.
    ghost node_shared: { ℕ → Bool };

    /// The others that go to the right.
    ghost node_right: { ℕ → Bool };
}

impl MarksSplit for Brand {
    ghost use Rattle.std.specs.Prelude.{false};

    ghost node_shared = { λ x. false };

    ghost node_right = { λ x. false };
}

/// The rule of the table, which holds between any two steps.
pub struct Law;

impl TableRule<(), MarksView, u32> for Law {
    ghost use Rattle.psac_marks.specs.Marked.{Marked};
    ghost use Rattle.psac_marks.specs.Steps.{first_view};

    ghost holds = { λ nodes s. Marked nodes s.words s.views };

    ghost first = { first_view };
}

/// A `fetch_add` draws an index.
pub struct Draws;

impl Play<(), MarksView> for Draws {
    ghost use Rattle.psac_marks.specs.Steps.{Drew};

    ghost then = { Drew };
}

/// A load that changes no view.
pub struct Loads;

impl Play<(), MarksView> for Loads {
    ghost use Rattle.psac_marks.specs.Steps.{Loaded};

    ghost then = { Loaded };
}

/// A load after a join, which tells of both sides.
pub struct Settles;

impl Play<(), MarksView> for Settles {
    ghost use Rattle.psac_marks.specs.Steps.{Settled};

    ghost then = { Settled };
}

/// A store of an own node's parent.
pub struct Hangs;

impl Play<(), MarksView> for Hangs {
    ghost use Rattle.psac_marks.specs.Steps.{Hung};

    ghost then = { Hung };
}

/// A store to the state of a claimed slot.
pub struct States;

impl Play<(), MarksView> for States {
    ghost use Rattle.psac_marks.specs.Steps.{Stated};

    ghost then = { Stated };
}

/// A swap of 1 into a mark.
pub struct Raises;

impl Play<(), MarksView> for Raises {
    ghost use Rattle.psac_marks.specs.Steps.{Raised};

    ghost then = { Raised };
}

/// A store of 0 to a mark.
pub struct Clears;

impl Play<(), MarksView> for Clears {
    ghost use Rattle.psac_marks.specs.Steps.{Cleared};

    ghost then = { Cleared };
}

/// A load of an own node's mark, which counts.
pub struct Asks;

impl Play<(), MarksView> for Asks {
    ghost use Rattle.psac_marks.specs.Steps.{Asked};

    ghost then = { Asked };
}

/// A load of an own node's mark, from which on the node is dropped.
pub struct Detaches;

impl Play<(), MarksView> for Detaches {
    ghost use Rattle.psac_marks.specs.Steps.{Detached};

    ghost then = { Detached };
}

/// A load of the counter by a pass beside which there is no other.
pub struct Regains;

impl Play<(), MarksView> for Regains {
    ghost use Rattle.psac_marks.specs.Steps.{Regained};

    ghost then = { Regained };
}

/// A store of 0 to the counter.
pub struct Rewinds;

impl Play<(), MarksView> for Rewinds {
    ghost use Rattle.psac_marks.specs.Steps.{Rewound};

    ghost then = { Rewound };
}

/// A store of a free node behind the list.
pub struct Gives;

impl Play<(), MarksView> for Gives {
    ghost use Rattle.psac_marks.specs.Steps.{Gave};

    ghost then = { Gave };
}

/// The division that D names.
pub struct Cut<D> {
    of: PhantomData<D>,
}

impl<D: MarksSplit> Split<MarksView> for Cut<D> {
    ghost use Rattle.psac_marks.specs.Steps.{left_of, right_of};

    ghost left = { left_of D.node_shared D.node_right };

    ghost right = { right_of D.node_shared D.node_right };
}

/// How two passes are joined.
pub struct Unites;

impl Join<MarksView> for Unites {
    ghost use Rattle.psac_marks.specs.Steps.{met, spent};

    ghost both = { met };

    ghost spent = { spent };
}
