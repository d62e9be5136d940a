//! The table of marks.
ghost use Rattle.std.specs.Prelude.{◌≡◌, ◌⊎◌, ◌↔◌, ℕ, suc, ◌+◌, ◌*◌, ◌<◌, ◌≤◌, List, [], ◌∷◌, ◌++◌, map, length, true, false, Bool, Option, Some, None, IsTrue, IfOk, IfErr, IfSome};
ghost use Rattle.atomic_table.specs.Seated.{TableId};
ghost use Rattle.psac_slots.specs.Handles.{Member, slot_times};
ghost use Rattle.psac_slots.specs.Passes.{Pass};
ghost use Rattle.psac_slots.specs.Claiming as claiming;
ghost use Rattle.psac_slots.specs.Claiming.{IsSole, times};
ghost use Rattle.psac_marks.specs.Marked.{Place, places, parent_word, HasOwn};
ghost use Rattle.psac_marks.specs.declared.view.SharedView.{SharedView};
ghost use Rattle.psac_marks.specs.Steps.{first_view, drew, left_of, right_of, joined, asked, cleared, detached, dropping, regained, rewound, released, gave_all, Lacks, Holds, IsClosed};
ghost use Rattle.psac_marks.specs.Passes.{Owns, Keeps, IsKept, IsDropped, IsBusy, Leads, Rises, MayRaise, RaisedOne, climbed, Bare, Childless, Parted, slot_of, Claims, United};

use crate::view::{
    Asks, Clears, Cut, Detaches, Draws, Gives, Hangs, Law, Loads, MarksSplit, MarksView, Raises,
    Regains, Rewinds, Settles, States, Unites,
};
use atomic_table::{Seat, Table};
use psac_base::NoMemory;
use psac_ops::Handle;
use psac_slots::Full;
use psac_slots::claims::{taken, turned_back};
use std::alloc::Global;
use std::marker::Model;

/// The marks, parents and states of all nodes, and their claims.
#[derive(Drop)]
pub struct Marks {
    table: Table<(), MarksView, u32, Law, Global>,
}

impl Model for Marks {
    ghost use Rattle.atomic_table.specs.Seated.{TableId};

    ghost Value = { TableId };

    ghost view = { λ t. t.table.shared.table_id };
}

/// A pass of the table.
#[derive(Drop)]
pub struct MarksPass {
    seat: Seat<(), MarksView>,
    nodes: u32,
    head: u32,
    room: u32,
}

impl Model for MarksPass {
    ghost use Rattle.std.specs.Prelude.{◌≡◌, []};
    ghost use Rattle.psac_slots.specs.Passes.{Pass};
    ghost use Rattle.psac_marks.specs.Passes.{Carries};
    ghost use Rattle.psac_marks.specs.declared.view.MarksView.{MarksView};

    ghost Value = { Pass MarksView };

    ghost view = { λ p. record { table = p.seat.table_id; knows = p.seat.me.0 } };

    ghost invariant = { λ p. (p.seat.me.1 ≡ []) × Carries p.nodes p.head p.room p.seat.table_id.words p.seat.me.0 };
}

// The word of a parent: 0 for none, and else one more than its slot.
fn word_above(parent: Option<Handle>) -> u64
    ensures { result ≡ parent_word (slot_of parent) }
{
    match parent {
        Some(above) => u64::from(above.slot) + 1,
        None => 0,
    }
}

// Marks one node. Where it wasn't marked the climb goes on to its parent, if it has one.
fn raise_one(
    table: &Table<(), MarksView, u32, Law, Global>,
    seat: &mut Seat<(), MarksView>,
    nodes: u32,
    slot: u32,
) -> Option<u32>
    requires table { seat.old.table_id ≡ table.now.shared.table_id }
    requires nodes { nodes ≡ seat.old.me.0.claims.count }
    requires room { suc (nodes + 3 * nodes) ≡ seat.old.table_id.words }
    requires live { seat.old.me.0.claims.live ≡ true }
    requires low { slot < nodes }
    requires has { (e : Place) × Member e (places seat.old.me.0) × (e.node.slot ≡ slot) }
    requires kept { IsKept seat.old.me.0 slot }
    requires may { MayRaise seat.old.me.0 slot }
    ensures seat { (seat.new.table_id ≡ seat.old.table_id) × (seat.new.me.1 ≡ seat.old.me.1) }
    ensures raised { (e : Place) → Member e (places seat.old.me.0) → e.node.slot ≡ slot → RaisedOne seat.old.me.0 e result seat.new.me.0 }
{
    let own = nodes as usize + 3 * slot as usize + 1;
    let found = table.shared.swap::<Raises>(seat, own, 1);
    if found != 0 {
        return None;
    }
    let word = table.shared.load::<Loads>(seat, own + 1);
    if word == 0 {
        return None;
    }
    Some((word - 1) as u32)
}

// Marks a node and its ancestors, up to one that was marked.
fn climb(
    table: &Table<(), MarksView, u32, Law, Global>,
    seat: &mut Seat<(), MarksView>,
    nodes: u32,
    node: u32,
)
    requires table { seat.old.table_id ≡ table.now.shared.table_id }
    requires nodes { nodes ≡ seat.old.me.0.claims.count }
    requires room { suc (nodes + 3 * nodes) ≡ seat.old.table_id.words }
    requires live { seat.old.me.0.claims.live ≡ true }
    requires low { (e : Place) → Member e (places seat.old.me.0) → e.node.slot < nodes }
    requires idle { seat.old.me.0.climb ≡ None }
    requires path { (path : List Place) × Leads seat.old.me.0 node path }
    ensures seat { (seat.new.table_id ≡ seat.old.table_id) × (seat.new.me.1 ≡ seat.old.me.1) }
    ensures raised { (xs : List ℕ) × (end : Option ℕ) × Rises seat.old.me.0 node xs end × (seat.new.me.0 ≡ climbed xs end seat.old.me.0) }
{
    let mut slot = node;
    while let Some(above) = raise_one(table, seat, nodes, slot) {
        slot = above;
    }
}

impl Marks {
    /// All nodes are free, and none is marked. The pass is sole.
    pub fn new(alloc: Global, nodes: u32) -> Result<(Marks, MarksPass), NoMemory>
        ensures { IfOk result (λ r. (r.1.table ≡ r.0) × (r.1.knows ≡ first_view nodes)) }
    {
        let mut words = Vec::new(alloc);
        words.push(0)?;
        for slot in 0..nodes {
            words.push(4294967296 + u64::from(slot))?;
        }
        'blank: for _ in 0..nodes {
            // no mark, no parent, and free with generation 1
            words.push(0)?;
            words.push(0)?;
            words.push(2)?;
        }
        let (table, seat) = Table::of_words(alloc, &words, &nodes)?;
        Ok((
            Marks { table },
            MarksPass {
                seat,
                nodes,
                head: 0,
                room: nodes,
            },
        ))
    }

    /// A new node, which isn't marked and which the pass alone has, below a parent that isn't dropped, or a root.
    /// Full where the drawn index is not below the room; the pass keeps the index.
    pub fn claim(&self, pass: &mut MarksPass, parent: Option<Handle>) -> Result<Handle, Full>
        requires table { pass.old.table ≡ self.now }
        requires room { pass.old.knows.claims.over ≡ 0 }
        requires parent { IfSome parent (λ h. Keeps pass.old.knows h) }
        ensures table { pass.new.table ≡ pass.old.table }
        ensures ok { IfOk result (λ h. Claims pass.old.knows h (slot_of parent) pass.new.knows) }
        ensures new { IfOk result (λ h. Lacks pass.old.knows h.slot) }
        ensures unmarked { IfOk result (λ h. times h.slot pass.new.knows.marked ≡ 0) }
        ensures kept { IfOk result (λ h. IsKept pass.new.knows h.slot) }
        ensures room { IfOk result (λ _. pass.new.knows.claims.over ≡ 0) }
        ensures branch { pass.new.knows.claims.branch ≡ pass.old.knows.claims.branch }
        ensures full { IfErr result (λ f. (f.room ≡ length pass.old.knows.claims.list) × (f.room ≤ f.index) × (pass.new.knows ≡ drew pass.old.knows f.index)) }
    {
        let index = self.table.shared.fetch_add::<Draws>(&mut pass.seat, 0, 1);
        let room = u64::from(pass.room);
        if index >= room {
            return Err(Full { index, room });
        }
        let place = (u64::from(pass.head) + index) % u64::from(pass.nodes);
        let word = self
            .table
            .shared
            .load::<Loads>(&mut pass.seat, place as usize + 1);
        let slot = word % 4294967296;
        let generation = word / 4294967296;
        let own = pass.nodes as usize + 3 * slot as usize + 1;
        self.table
            .shared
            .store::<Hangs>(&mut pass.seat, own + 1, word_above(parent));
        self.table
            .shared
            .store::<States>(&mut pass.seat, own + 2, 2 * generation + 1);
        Ok(Handle {
            slot: slot as u32,
            generation: generation as u32,
        })
    }

    /// Marks the node and then its ancestors, up to a root or to one that was marked. That one may lie below the climb
    /// of another branch: the chain is marked up to the root once the branches have joined.
    pub fn raise(&self, pass: &mut MarksPass, node: Handle)
        requires table { pass.old.table ≡ self.now }
        requires path { (path : List Place) × Leads pass.old.knows node.slot path }
        ensures table { pass.new.table ≡ pass.old.table }
        ensures marked { IsBusy pass.new.knows node.slot }
        ensures raised { (xs : List ℕ) × (end : Option ℕ) × Rises pass.old.knows node.slot xs end × (pass.new.knows ≡ climbed xs end pass.old.knows) }
    {
        let nodes = pass.nodes;
        climb(&self.table, &mut pass.seat, nodes, node.slot);
    }

    /// Whether an own node is marked. It counts as an ask.
    pub fn is_marked(&self, pass: &mut MarksPass, node: Handle) -> bool
        requires table { pass.old.table ≡ self.now }
        requires own { Owns pass.old.knows node }
        ensures table { pass.new.table ≡ pass.old.table }
        ensures marked { IsTrue result ↔ (0 < times node.slot pass.old.knows.marked) }
        ensures closed { IsClosed pass.old.knows }
        ensures asks { pass.new.knows ≡ asked pass.old.knows }
    {
        let own = pass.nodes as usize + 3 * node.slot as usize + 1;
        let mark = self.table.shared.load::<Asks>(&mut pass.seat, own);
        mark != 0
    }

    /// An own node, of whose children none is marked but for dropped ones, isn't marked from here on.
    pub fn clear(&self, pass: &mut MarksPass, node: Handle)
        requires table { pass.old.table ≡ self.now }
        requires own { Owns pass.old.knows node }
        requires bare { Bare pass.old.knows node.slot }
        ensures table { pass.new.table ≡ pass.old.table }
        ensures cleared { pass.new.knows ≡ cleared node.slot pass.old.knows }
    {
        let own = pass.nodes as usize + 3 * node.slot as usize + 1;
        self.table.shared.store::<Clears>(&mut pass.seat, own, 0);
    }

    /// An own node is dropped, and never raised again.
    pub fn detach(&self, pass: &mut MarksPass, node: Handle)
        requires table { pass.old.table ≡ self.now }
        requires own { Owns pass.old.knows node }
        ensures table { pass.new.table ≡ pass.old.table }
        ensures detached { pass.new.knows ≡ detached node.slot pass.old.knows }
    {
        let own = pass.nodes as usize + 3 * node.slot as usize + 1;
        self.table.shared.load::<Detaches>(&mut pass.seat, own);
    }

    /// The pass's nodes are divided as D says. What is dropped on a side is that side's own, and nothing shared is.
    pub fn fork<D: MarksSplit>(&self, pass: MarksPass) -> (MarksPass, MarksPass)
        requires table { pass.table ≡ self.now }
        requires short { length pass.knows.claims.branch < 62 }
        requires room { pass.knows.claims.over ≡ 0 }
        requires parted { Parted D.node_shared D.node_right pass.knows }
        ensures table { (result.0.table ≡ pass.table) × (result.1.table ≡ pass.table) }
        ensures left { result.0.knows ≡ left_of D.node_shared D.node_right pass.knows }
        ensures right { result.1.knows ≡ right_of D.node_shared D.node_right pass.knows }
        ensures left_dropped { (x : ℕ) → IsDropped result.0.knows x → HasOwn result.0.knows.own x }
        ensures right_dropped { (x : ℕ) → IsDropped result.1.knows x → HasOwn result.1.knows.own x }
        ensures left_kept { (e : SharedView) → Member e result.0.knows.shared → IsKept result.0.knows e.node.slot }
        ensures right_kept { (e : SharedView) → Member e result.1.knows.shared → IsKept result.1.knows e.node.slot }
    {
        let MarksPass {
            mut seat,
            nodes,
            head,
            room,
        } = pass;
        // it tells what is dropped
        self.table.shared.load::<Loads>(&mut seat, 0);
        let other = self.table.shared.split_seat::<Cut<D>>(&mut seat);
        (
            MarksPass {
                seat,
                nodes,
                head,
                room,
            },
            MarksPass {
                seat: other,
                nodes,
                head,
                room,
            },
        )
    }

    /// What both sides had; what one of them owned the other didn't have. A node that they shared from their branch on is
    /// the pass's alone again, and of own nodes the marks are closed upwards. What is dropped is own, and nothing shared is.
    pub fn join(&self, left: MarksPass, right: MarksPass) -> MarksPass
        requires table { (left.table ≡ self.now) × (right.table ≡ self.now) }
        requires sides { (b : List Bool) × (left.knows.claims.branch ≡ b ++ false ∷ []) × (right.knows.claims.branch ≡ b ++ true ∷ []) }
        ensures table { result.table ≡ left.table }
        ensures joined { result.knows ≡ joined left.knows right.knows }
        ensures united { United left.knows right.knows result.knows }
        ensures closed { IsClosed result.knows }
        ensures dropped { (x : ℕ) → IsDropped result.knows x → HasOwn result.knows.own x }
        ensures kept { (e : SharedView) → Member e result.knows.shared → IsKept result.knows e.node.slot }
    {
        let MarksPass {
            mut seat,
            nodes,
            head,
            room,
        } = left;
        let MarksPass { seat: other, .. } = right;
        self.table.shared.join_seat::<Unites>(&mut seat, other);
        self.table.shared.load::<Settles>(&mut seat, 0);
        MarksPass {
            seat,
            nodes,
            head,
            room,
        }
    }

    /// The pass, whose forks were all joined again, is sole: it knows the counter, drew each index below it once, and
    /// shares nothing.
    pub fn regain(&self, pass: MarksPass) -> MarksPass
        requires table { pass.table ≡ self.now }
        requires joined { pass.knows.claims.branch ≡ [] }
        ensures table { result.table ≡ pass.table }
        ensures counter { (n : ℕ) × (result.knows ≡ regained n pass.knows) × claiming.DrewBelow n pass.knows.claims }
        ensures alone { result.knows.shared ≡ [] }
    {
        let MarksPass {
            mut seat,
            nodes,
            head,
            room,
        } = pass;
        self.table.shared.load::<Regains>(&mut seat, 0);
        MarksPass {
            seat,
            nodes,
            head,
            room,
        }
    }

    /// The counter is 0 again, and the free list is what was left of it, in its order. Each slot is in the list or
    /// held, and in one of them. Of own nodes the marks are closed upwards.
    pub fn rewind(&self, pass: &mut MarksPass)
        requires table { pass.old.table ≡ self.now }
        requires sole { IsSole pass.old.knows.claims }
        ensures table { pass.new.table ≡ pass.old.table }
        ensures rewound { pass.new.knows ≡ rewound pass.old.knows }
        ensures holds { Holds pass.new.knows }
        ensures whole { claiming.Accounted pass.new.knows.claims }
        ensures closed { IsClosed pass.new.knows }
    {
        let counter = self.table.shared.load::<Loads>(&mut pass.seat, 0);
        self.table.shared.store::<Rewinds>(&mut pass.seat, 0, 0);
        let gone = taken(counter, pass.room);
        pass.head = turned_back(pass.nodes, u64::from(pass.head) + u64::from(gone));
        pass.room -= gone;
    }

    /// A dropped node, whose children that are out are dropped too, is free again with the next generation, behind all
    /// others, and isn't marked. The list begins anew.
    pub fn release(&self, pass: &mut MarksPass, node: Handle)
        requires table { pass.old.table ≡ self.now }
        requires sole { IsSole pass.old.knows.claims }
        requires own { Owns pass.old.knows node }
        requires dropped { IsDropped pass.old.knows node.slot }
        requires children { Childless pass.old.knows node.slot }
        requires next { node.generation < 4294967295 }
        ensures table { pass.new.table ≡ pass.old.table }
        ensures released { pass.new.knows ≡ released node (rewound pass.old.knows) }
        ensures whole { claiming.Accounted pass.new.knows.claims }
    {
        self.rewind(pass);
        self.put_back(pass, node);
    }

    /// Every node that is out is free again with the next generation, lower slots first, behind all others, and none is
    /// marked. The list begins anew.
    pub fn give_all(&self, pass: &mut MarksPass)
        requires table { pass.old.table ≡ self.now }
        requires sole { IsSole pass.old.knows.claims }
        requires next { (h : Handle) → Member h pass.old.knows.claims.held → h.generation < 4294967295 }
        ensures table { pass.new.table ≡ pass.old.table }
        ensures gave { pass.new.knows ≡ gave_all (rewound pass.old.knows) }
        ensures whole { claiming.Accounted pass.new.knows.claims }
    {
        self.rewind(pass);
        self.drop_all(pass);
        let nodes = pass.nodes;
        for slot in 0..nodes {
            self.give_slot(pass, slot);
        }
    }

    // The list has begun anew. Every node that is out is dropped from here on.
    fn drop_all(&self, pass: &mut MarksPass)
        requires table { pass.old.table ≡ self.now }
        requires begun { pass.old.knows.claims.counter ≡ Some 0 }
        requires next { (h : Handle) → Member h pass.old.knows.claims.held → h.generation < 4294967295 }
        ensures table { pass.new.table ≡ pass.old.table }
        ensures dropped { (xs : List ℕ) × (pass.new.knows ≡ dropping xs pass.old.knows) × ((x : ℕ) → 0 < times x xs → 0 < slot_times x pass.old.knows.claims.held) }
        ensures all { (x : ℕ) → 0 < slot_times x pass.old.knows.claims.held → IsDropped pass.new.knows x }
    {
        let nodes = pass.nodes;
        for slot in 0..nodes {
            self.drop_slot(pass, slot);
        }
    }

    // The generation with which a slot is out, if it is.
    fn generation_out(&self, pass: &mut MarksPass, slot: u32) -> Option<u32>
        requires table { pass.old.table ≡ self.now }
        requires begun { pass.old.knows.claims.counter ≡ Some 0 }
        requires below { slot < pass.old.knows.claims.count }
        requires next { (h : Handle) → Member h pass.old.knows.claims.held → h.generation < 4294967295 }
        ensures same { pass.new ≡ pass.old }
        ensures out { IfSome result (λ g. Member (record { slot = slot; generation = g }) pass.old.knows.claims.held × Owns pass.old.knows (record { slot = slot; generation = g })) }
        ensures free { result ≡ None → slot_times slot pass.old.knows.claims.held ≡ 0 }
    {
        let state = pass.nodes as usize + 3 * slot as usize + 3;
        let word = self.table.shared.load::<Loads>(&mut pass.seat, state);
        if word % 2 == 0 {
            return None;
        }
        Some((word / 2) as u32)
    }

    // The list has begun anew. A node is dropped from here on, if it is out.
    fn drop_slot(&self, pass: &mut MarksPass, slot: u32)
        requires table { pass.old.table ≡ self.now }
        requires begun { pass.old.knows.claims.counter ≡ Some 0 }
        requires below { slot < pass.old.knows.claims.count }
        requires next { (h : Handle) → Member h pass.old.knows.claims.held → h.generation < 4294967295 }
        ensures table { pass.new.table ≡ pass.old.table }
        ensures dropped { ((slot_times slot pass.old.knows.claims.held ≡ 0) × (pass.new.knows ≡ pass.old.knows)) ⊎ ((0 < slot_times slot pass.old.knows.claims.held) × (pass.new.knows ≡ detached slot pass.old.knows)) }
    {
        if self.generation_out(pass, slot).is_some() {
            let mark = pass.nodes as usize + 3 * slot as usize + 1;
            self.table.shared.load::<Detaches>(&mut pass.seat, mark);
        }
    }

    // The list has begun anew. A node is free from here on, if it was out.
    fn give_slot(&self, pass: &mut MarksPass, slot: u32)
        requires table { pass.old.table ≡ self.now }
        requires begun { pass.old.knows.claims.counter ≡ Some 0 }
        requires below { slot < pass.old.knows.claims.count }
        requires children { Childless pass.old.knows slot }
        requires next { (h : Handle) → Member h pass.old.knows.claims.held → h.generation < 4294967295 }
        requires whole { claiming.Accounted pass.old.knows.claims }
        ensures table { pass.new.table ≡ pass.old.table }
        ensures gave { ((slot_times slot pass.old.knows.claims.held ≡ 0) × (pass.new.knows ≡ pass.old.knows)) ⊎ ((h : Handle) × Member h pass.old.knows.claims.held × (h.slot ≡ slot) × (pass.new.knows ≡ released h pass.old.knows)) }
        ensures whole { claiming.Accounted pass.new.knows.claims }
    {
        if let Some(generation) = self.generation_out(pass, slot) {
            self.put_back(pass, Handle { slot, generation });
        }
    }

    // The list has begun anew. The node is free again with the next generation, behind all others.
    fn put_back(&self, pass: &mut MarksPass, node: Handle)
        requires table { pass.old.table ≡ self.now }
        requires begun { pass.old.knows.claims.counter ≡ Some 0 }
        requires out { Member node pass.old.knows.claims.held }
        requires own { Owns pass.old.knows node }
        requires children { Childless pass.old.knows node.slot }
        requires next { node.generation < 4294967295 }
        requires whole { claiming.Accounted pass.old.knows.claims }
        ensures table { pass.new.table ≡ pass.old.table }
        ensures gave { pass.new.knows ≡ released node pass.old.knows }
        ensures whole { claiming.Accounted pass.new.knows.claims }
    {
        let mark = pass.nodes as usize + 3 * node.slot as usize + 1;
        self.table.shared.store::<Clears>(&mut pass.seat, mark, 0);
        self.table
            .shared
            .store::<Hangs>(&mut pass.seat, mark + 1, 0);
        let generation = u64::from(node.generation) + 1;
        self.table
            .shared
            .store::<States>(&mut pass.seat, mark + 2, 2 * generation);
        let place = (u64::from(pass.head) + u64::from(pass.room)) % u64::from(pass.nodes);
        self.table.shared.store::<Gives>(
            &mut pass.seat,
            place as usize + 1,
            generation * 4294967296 + u64::from(node.slot),
        );
        pass.room += 1;
    }
}
