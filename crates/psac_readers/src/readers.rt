//! The table of readers.
ghost use Rattle.std.specs.Prelude.{◌≡◌, ◌⊎◌, ℕ, suc, ◌+◌, ◌*◌, ◌<◌, ◌≤◌, List, [], ◌∷◌, ◌++◌, length, true, false, Bool, Some, None, IfOk, IfErr, IfSome, sum_by};
ghost use Rattle.atomic_table.specs.Seated.{TableId};
ghost use Rattle.psac_slots.specs.Handles.{word_of};
ghost use Rattle.psac_readers.specs.Steps.{first_view, drew, Has, Entered, left_of, right_of, joined, left, Fine, next_live, set_of, chain_of, behind, node_in, regained, rewound, learned, front, IsSet, swept_one, Holds};
ghost use Rattle.psac_slots.specs.Claiming.{IsSole, Accounted, DrewBelow};
ghost use Rattle.psac_readers.specs.Chained.{next_at, alive, deads, named, times, mods_of, Each};
ghost use Rattle.psac_slots.specs.Handles.{Member};
ghost use Rattle.psac_slots.specs.Passes.{Pass};
ghost use Rattle.psac_readers.specs.Passes.{Walks, First, has_word, from_word, found, OnWalk, Placing};
ghost use Rattle.psac_readers.specs.Swept.{TakenOff, Going, remaining, AllGiven};
ghost use Rattle.psac_readers.specs.declared.view.ReadersView.{ReadersView};

use crate::view::{
    Begins, Comes, Cut, Draws, Frees, Law, Leaves, Loads, Nodes, ReadersSplit, ReadersView,
    Regains, Revives, Rewinds, Sizes, Swaps, Unites, Unlinks,
};
use atomic_table::{Seat, Table};
use psac_base::NoMemory;
use psac_ops::Handle;
use psac_slots::Full;
use psac_slots::claims::{taken, turned_back};
use std::alloc::Global;
use std::marker::Model;

/// A place in a set of readers. Links have no generations.
#[derive(Clone, Copy)]
pub struct Link {
    /// Below the number of links of the table.
    pub index: u32,
}

/// For each modifiable the set of the nodes that read it.
#[derive(Drop)]
pub struct Readers {
    table: Table<(), ReadersView, Sizes, Law, Global>,
}

impl Model for Readers {
    ghost use Rattle.atomic_table.specs.Seated.{TableId};

    ghost Value = { TableId };

    ghost view = { λ c. c.table.shared.table_id };
}

/// A pass of the table.
#[derive(Drop)]
pub struct ReadersPass {
    seat: Seat<(), ReadersView>,
    links: u32,
    mods: u32,
    head: u32,
    room: u32,
}

impl Model for ReadersPass {
    ghost use Rattle.std.specs.Prelude.{◌≡◌, []};
    ghost use Rattle.psac_slots.specs.Passes.{Pass};
    ghost use Rattle.psac_readers.specs.Passes.{Carries};
    ghost use Rattle.psac_readers.specs.declared.view.ReadersView.{ReadersView};

    ghost Value = { Pass ReadersView };

    ghost view = { λ p. record { table = p.seat.table_id; knows = p.seat.me.0 } };

    ghost invariant = { λ p. (p.seat.me.1 ≡ []) × Carries p.links p.mods p.head p.room p.seat.table_id.words p.seat.me.0 };
}

fn node_word(node: Handle) -> u64
    ensures { result ≡ word_of node }
{
    u64::from(node.generation) * 4294967296 + u64::from(node.slot)
}

// The place of the word that leads on from a link.
fn next_place(links: u32, mods: u32, link: u32) -> usize
    ensures { result ≡ next_at links mods link }
{
    links as usize + (mods as usize + 3 * link as usize) + 1
}

/// The first live link from a word on. `about` is read by proofs alone.
fn live_from(
    table: &Table<(), ReadersView, Sizes, Law, Global>,
    seat: &mut Seat<(), ReadersView>,
    links: u32,
    mods: u32,
    mut word: u64,
    _about: u64,
) -> Option<Link>
    ghost chain: { List ℕ }
    requires table { seat.old.table_id ≡ table.now.shared.table_id }
    requires links { links ≡ seat.old.me.0.claims.count }
    requires mods { mods ≡ seat.old.me.0.mods }
    requires room { suc (links + (mods + 3 * links)) ≡ seat.old.table_id.words }
    requires live { seat.old.me.0.claims.live ≡ true }
    requires fine { Each (Fine links) seat.old.me.0.links }
    requires walks { (m : ℕ) × Walks seat.old.me.0 m chain }
    requires word { has_word word chain }
    ensures seat { (seat.new.table_id ≡ seat.old.table_id) × (seat.new.me ≡ seat.old.me) }
    ensures found { found result ≡ next_live seat.old.me.0.links (from_word word chain) }
{
    while word != 0 {
        let link = word - 1;
        let own = links as usize + (mods as usize + 3 * link as usize) + 1;
        let dead = table.shared.load::<Loads>(seat, own + 1);
        if dead == 0 {
            return Some(Link { index: link as u32 });
        }
        word = table.shared.load::<Loads>(seat, own);
    }
    None
}

impl Readers {
    /// All sets are empty, and all links are free.
    pub fn new(alloc: Global, mods: u32, links: u32) -> Result<(Readers, ReadersPass), NoMemory>
        ensures { IfOk result (λ r. (r.1.table ≡ r.0) × (r.1.knows ≡ first_view links mods)) }
    {
        let mut words = Vec::new(alloc);
        words.push(0)?;
        for slot in 0..links {
            words.push(4294967296 + u64::from(slot))?;
        }
        for _ in 0..u64::from(mods) + 3 * u64::from(links) {
            words.push(0)?;
        }
        let (table, seat) = Table::of_words(alloc, &words, &Sizes { mods, links })?;
        Ok((
            Readers { table },
            ReadersPass {
                seat,
                links,
                mods,
                head: 0,
                room: links,
            },
        ))
    }

    /// Claims a link, none of the pass's own, and puts it into the set of `m`, by one swap of the set's head and one
    /// store. Full where the drawn index is not below the room; the pass keeps the index, and the set is as it was.
    pub fn enter(&self, pass: &mut ReadersPass, m: Handle, node: Handle) -> Result<Link, Full>
        requires table { pass.old.table ≡ self.now }
        requires room { pass.old.knows.claims.over ≡ 0 }
        requires inside { m.slot < pass.old.knows.mods }
        requires set { Has m.slot pass.old.knows }
        ensures table { pass.new.table ≡ pass.old.table }
        ensures ok { IfOk result (λ l. Entered pass.old.knows m.slot (word_of node) l.index pass.new.knows) }
        ensures new { IfOk result (λ l. sum_by (named l.index) pass.old.knows.links ≡ 0) }
        ensures room { IfOk result (λ _. pass.new.knows.claims.over ≡ 0) }
        ensures has { IfOk result (λ _. (x : ℕ) → Has x pass.old.knows → Has x pass.new.knows) }
        ensures full { IfErr result (λ f. (f.room ≡ length pass.old.knows.claims.list) × (f.room ≤ f.index) × (pass.new.knows ≡ drew pass.old.knows f.index)) }
    {
        let index = self.table.shared.fetch_add::<Draws>(&mut pass.seat, 0, 1);
        let room = u64::from(pass.room);
        if index >= room {
            return Err(Full { index, room });
        }
        let place = (u64::from(pass.head) + index) % u64::from(pass.links);
        let word = self
            .table
            .shared
            .load::<Loads>(&mut pass.seat, place as usize + 1);
        let link = word % 4294967296;
        let own = pass.links as usize + (pass.mods as usize + 3 * link as usize) + 1;
        self.table
            .shared
            .store::<Nodes>(&mut pass.seat, own + 2, node_word(node));
        let set = pass.links as usize + m.slot as usize + 1;
        let old = self
            .table
            .shared
            .swap::<Swaps>(&mut pass.seat, set, link + 1);
        self.table.shared.store::<Comes>(&mut pass.seat, own, old);
        Ok(Link { index: link as u32 })
    }

    /// The sets that the pass alone has, and its links, are divided as D says.
    pub fn fork<D: ReadersSplit>(&self, pass: ReadersPass) -> (ReadersPass, ReadersPass)
        requires table { pass.table ≡ self.now }
        requires short { length pass.knows.claims.branch < 62 }
        requires room { pass.knows.claims.over ≡ 0 }
        ensures table { (result.0.table ≡ pass.table) × (result.1.table ≡ pass.table) }
        ensures left { result.0.knows ≡ left_of D.set_shared D.set_right D.link_right pass.knows }
        ensures right { result.1.knows ≡ right_of D.set_shared D.set_right D.link_right pass.knows }
    {
        let ReadersPass {
            mut seat,
            links,
            mods,
            head,
            room,
        } = pass;
        let other = self.table.shared.split_seat::<Cut<D>>(&mut seat);
        (
            ReadersPass {
                seat,
                links,
                mods,
                head,
                room,
            },
            ReadersPass {
                seat: other,
                links,
                mods,
                head,
                room,
            },
        )
    }

    /// What both sides had, in which no link stands twice. A set that they shared from their branch on is the pass's
    /// alone again.
    pub fn join(&self, left: ReadersPass, right: ReadersPass) -> ReadersPass
        requires table { (left.table ≡ self.now) × (right.table ≡ self.now) }
        requires sides { (b : List Bool) × (left.knows.claims.branch ≡ b ++ false ∷ []) × (right.knows.claims.branch ≡ b ++ true ∷ []) }
        ensures table { result.table ≡ left.table }
        ensures joined { result.knows ≡ joined left.knows right.knows }
        ensures once { (l : ℕ) → sum_by (named l) result.knows.links ≤ 1 }
    {
        let ReadersPass {
            mut seat,
            links,
            mods,
            head,
            room,
        } = left;
        let ReadersPass { seat: other, .. } = right;
        self.table.shared.join_seat::<Unites>(&mut seat, other);
        self.table.shared.load::<Loads>(&mut seat, 0);
        ReadersPass {
            seat,
            links,
            mods,
            head,
            room,
        }
    }

    /// The link, which is live, is dead from here on. It stays in its chain until the set is swept.
    pub fn leave(&self, pass: &mut ReadersPass, link: Link)
        requires table { pass.old.table ≡ self.now }
        requires live { 0 < sum_by (alive link.index) pass.old.knows.links }
        ensures table { pass.new.table ≡ pass.old.table }
        ensures left { pass.new.knows ≡ left link.index pass.old.knows }
    {
        let own = pass.links as usize + (pass.mods as usize + 3 * link.index as usize) + 1;
        self.table
            .shared
            .store::<Leaves>(&mut pass.seat, own + 1, 1);
    }

    /// The first live link of a set, or None where none is live. The pass alone has the set, so no enter is under
    /// way. It learns the set's chain, along which `next` goes on.
    pub fn first(&self, pass: &mut ReadersPass, m: Handle) -> Option<Link>
        requires table { pass.old.table ≡ self.now }
        requires inside { m.slot < pass.old.knows.mods }
        requires walk { Member m.slot (mods_of pass.old.knows.walk) }
        ensures table { pass.new.table ≡ pass.old.table }
        ensures first { First pass.old.knows m.slot result pass.new.knows }
        ensures once { (l : ℕ) → sum_by (named l) pass.new.knows.links ≤ 1 }
        ensures found { IfSome result (λ l. OnWalk pass.new.knows m.slot l.index) }
    {
        let (links, mods) = (pass.links, pass.mods);
        let set = pass.links as usize + m.slot as usize + 1;
        let word = self.table.shared.load::<Begins>(&mut pass.seat, set);
        live_from(
            &self.table,
            &mut pass.seat,
            links,
            mods,
            word,
            u64::from(m.slot),
        )
    }

    /// The live link that follows in the chain, or None behind the last one.
    pub fn next(&self, pass: &mut ReadersPass, link: Link) -> Option<Link>
        requires table { pass.old.table ≡ self.now }
        requires walk { (ls : List ℕ) × Walks pass.old.knows (set_of link.index pass.old.knows.links) ls × (0 < times link.index ls) }
        ensures same { pass.new ≡ pass.old }
        ensures next { (ls : List ℕ) → chain_of (set_of link.index pass.old.knows.links) pass.old.knows.walk ≡ Some ls → found result ≡ next_live pass.old.knows.links (behind link.index ls) }
        ensures found { IfSome result (λ l. OnWalk pass.old.knows (set_of link.index pass.old.knows.links) l.index) }
    {
        let (links, mods) = (pass.links, pass.mods);
        let own = links as usize + (mods as usize + 3 * link.index as usize) + 1;
        let word = self.table.shared.load::<Loads>(&mut pass.seat, own);
        live_from(
            &self.table,
            &mut pass.seat,
            links,
            mods,
            word,
            u64::from(link.index),
        )
    }

    /// The node that entered with the link, one of the pass's own.
    pub fn node(&self, pass: &mut ReadersPass, link: Link) -> Handle
        requires table { pass.old.table ≡ self.now }
        requires own { 0 < sum_by (named link.index) pass.old.knows.links }
        ensures same { pass.new ≡ pass.old }
        ensures node { node_in link.index pass.old.knows.links ≡ Some (word_of result) }
    {
        let own = pass.links as usize + (pass.mods as usize + 3 * link.index as usize) + 3;
        let word = self.table.shared.load::<Loads>(&mut pass.seat, own);
        Handle {
            slot: (word % 4294967296) as u32,
            generation: (word / 4294967296) as u32,
        }
    }

    /// The pass, whose forks were all joined again, is sole: it knows the counter, drew each index below it once, and
    /// shares nothing.
    pub fn regain(&self, pass: ReadersPass) -> ReadersPass
        requires table { pass.table ≡ self.now }
        requires joined { pass.knows.claims.branch ≡ [] }
        ensures table { result.table ≡ pass.table }
        ensures counter { (n : ℕ) × (result.knows ≡ regained n pass.knows) × DrewBelow n pass.knows.claims }
        ensures alone { result.knows.shared ≡ [] }
        ensures once { (l : ℕ) → sum_by (named l) result.knows.links ≤ 1 }
    {
        let ReadersPass {
            mut seat,
            links,
            mods,
            head,
            room,
        } = pass;
        self.table.shared.load::<Regains>(&mut seat, 0);
        ReadersPass {
            seat,
            links,
            mods,
            head,
            room,
        }
    }

    /// The counter is 0 again, and the free list is what was left of it, in its order. Each link is in the list or one
    /// of the pass's own, and in one of them.
    pub fn rewind(&self, pass: &mut ReadersPass)
        requires table { pass.old.table ≡ self.now }
        requires sole { IsSole pass.old.knows.claims }
        ensures table { pass.new.table ≡ pass.old.table }
        ensures rewound { pass.new.knows ≡ rewound pass.old.knows }
        ensures whole { Accounted pass.new.knows.claims }
        ensures once { (l : ℕ) → sum_by (named l) pass.new.knows.links ≤ 1 }
        ensures holds { Holds pass.new.knows }
    {
        let counter = self.table.shared.load::<Loads>(&mut pass.seat, 0);
        self.table.shared.store::<Rewinds>(&mut pass.seat, 0, 0);
        let gone = taken(counter, pass.room);
        pass.head = turned_back(pass.links, u64::from(pass.head) + u64::from(gone));
        pass.room -= gone;
    }

    // The word of a set's head, from which the pass learns the set's chain.
    fn head_of(&self, pass: &mut ReadersPass, m: u32) -> u64
        requires table { pass.old.table ≡ self.now }
        requires inside { m < pass.old.knows.mods }
        requires walk { Member m (mods_of pass.old.knows.walk) }
        ensures table { pass.new.table ≡ pass.old.table }
        ensures head { (ls : List ℕ) × (pass.new.knows ≡ learned m ls pass.old.knows) × IsSet pass.old.knows m ls × (result ≡ front ls) }
    {
        let set = pass.links as usize + m as usize + 1;
        self.table.shared.load::<Begins>(&mut pass.seat, set)
    }

    // The word that leads on from a link.
    fn after(&self, pass: &mut ReadersPass, link: u32) -> u64
        requires table { pass.old.table ≡ self.now }
        requires walk { (m : ℕ) × (ls : List ℕ) × Walks pass.old.knows m ls × (0 < times link ls) }
        ensures same { pass.new ≡ pass.old }
        ensures next { (m : ℕ) (ls : List ℕ) → Walks pass.old.knows m ls → 0 < times link ls → result ≡ front (behind link ls) }
    {
        let own = pass.links as usize + (pass.mods as usize + 3 * link as usize) + 1;
        self.table.shared.load::<Loads>(&mut pass.seat, own)
    }

    // Whether a link goes: where all do, or where it was left.
    fn goes(&self, pass: &mut ReadersPass, link: u32, all: bool) -> bool
        requires table { pass.old.table ≡ self.now }
        requires own { 0 < sum_by (named link) pass.old.knows.links }
        ensures same { pass.new ≡ pass.old }
        ensures goes { result ≡ true → (all ≡ true) ⊎ (0 < sum_by (deads link) pass.old.knows.links) }
        ensures stays { result ≡ false → (all ≡ false) × (0 < sum_by (alive link) pass.old.knows.links) }
    {
        if all {
            return true;
        }
        let own = pass.links as usize + (pass.mods as usize + 3 * link as usize) + 2;
        let dead = self.table.shared.load::<Loads>(&mut pass.seat, own);
        dead != 0
    }

    // The link, to which the word at `before` leads and from which `next` leads on, is taken off and is free again.
    fn free_link(&self, pass: &mut ReadersPass, before: usize, link: u32, next: u64)
        requires table { pass.old.table ≡ self.now }
        requires begun { pass.old.knows.claims.counter ≡ Some 0 }
        requires place { Placing pass.old.knows before link next }
        requires own { 0 < sum_by (named link) pass.old.knows.links }
        requires whole { Accounted pass.old.knows.claims }
        ensures table { pass.new.table ≡ pass.old.table }
        ensures freed { pass.new.knows ≡ swept_one link pass.old.knows }
        ensures whole { Accounted pass.new.knows.claims }
    {
        let own = pass.links as usize + (pass.mods as usize + 3 * link as usize) + 2;
        self.table.shared.store::<Revives>(&mut pass.seat, own, 0);
        self.table
            .shared
            .swap::<Unlinks>(&mut pass.seat, before, next);
        let place = (u64::from(pass.head) + u64::from(pass.room)) % u64::from(pass.links);
        self.table.shared.store::<Frees>(
            &mut pass.seat,
            place as usize + 1,
            4294967296 + u64::from(link),
        );
        pass.room += 1;
    }

    // One turn of a walk that takes links off: the place that leads on from there, and the word in it.
    fn turn(&self, pass: &mut ReadersPass, before: usize, word: u64, all: bool) -> (usize, u64)
        requires table { pass.old.table ≡ self.now }
        requires begun { pass.old.knows.claims.counter ≡ Some 0 }
        requires more { 0 < word }
        requires going { (v : ReadersView) × (m : ℕ) × Going all v m pass.old.knows before word }
        requires whole { Accounted pass.old.knows.claims }
        ensures table { pass.new.table ≡ pass.old.table }
        ensures begun { pass.new.knows.claims.counter ≡ Some 0 }
        ensures going { (v : ReadersView) (m : ℕ) → Going all v m pass.old.knows before word → Going all v m pass.new.knows result.0 result.1 }
        ensures less { (v : ReadersView) (m : ℕ) → Going all v m pass.old.knows before word → remaining m pass.new.knows result.1 < remaining m pass.old.knows word }
        ensures whole { Accounted pass.new.knows.claims }
    {
        let (links, mods) = (pass.links, pass.mods);
        let link = (word - 1) as u32;
        let next = self.after(pass, link);
        if self.goes(pass, link, all) {
            self.free_link(pass, before, link, next);
            (before, next)
        } else {
            (next_place(links, mods, link), next)
        }
    }

    // The list has begun anew. The dead links of a set, or all, are taken off and are free again.
    fn take_off(&self, pass: &mut ReadersPass, m: u32, all: bool)
        requires table { pass.old.table ≡ self.now }
        requires begun { pass.old.knows.claims.counter ≡ Some 0 }
        requires inside { m < pass.old.knows.mods }
        requires walk { Member m (mods_of pass.old.knows.walk) }
        requires whole { Accounted pass.old.knows.claims }
        ensures table { pass.new.table ≡ pass.old.table }
        ensures begun { pass.new.knows.claims.counter ≡ Some 0 }
        ensures taken { TakenOff all pass.old.knows m pass.new.knows }
        ensures whole { Accounted pass.new.knows.claims }
    {
        let mut before = pass.links as usize + m as usize + 1;
        let mut word = self.head_of(pass, m);
        while word != 0 {
            let (place, next) = self.turn(pass, before, word, all);
            before = place;
            word = next;
        }
    }

    /// Whether the link was left and not swept since.
    pub fn is_dead(&self, pass: &mut ReadersPass, link: Link) -> bool
        requires table { pass.old.table ≡ self.now }
        requires sole { IsSole pass.old.knows.claims }
        requires inside { link.index < pass.old.knows.claims.count }
        ensures same { pass.new ≡ pass.old }
        ensures dead { result ≡ true → 0 < sum_by (deads link.index) pass.old.knows.links }
        ensures other { result ≡ false → sum_by (deads link.index) pass.old.knows.links ≡ 0 }
    {
        let own = pass.links as usize + (pass.mods as usize + 3 * link.index as usize) + 2;
        let found = self.table.shared.load::<Loads>(&mut pass.seat, own);
        found != 0
    }

    /// The dead links of a set are taken off, and are free again behind all others. The list begins anew.
    pub fn sweep(&self, pass: &mut ReadersPass, m: Handle)
        requires table { pass.old.table ≡ self.now }
        requires sole { IsSole pass.old.knows.claims }
        requires inside { m.slot < pass.old.knows.mods }
        requires walk { Member m.slot (mods_of pass.old.knows.walk) }
        ensures table { pass.new.table ≡ pass.old.table }
        ensures swept { TakenOff false (rewound pass.old.knows) m.slot pass.new.knows }
        ensures whole { Accounted pass.new.knows.claims }
    {
        self.rewind(pass);
        self.take_off(pass, m.slot, false);
    }

    /// All links of all sets are free again, and all sets are empty. The list begins anew.
    pub fn give_all(&self, pass: &mut ReadersPass)
        requires table { pass.old.table ≡ self.now }
        requires sole { IsSole pass.old.knows.claims }
        requires sets { (m : ℕ) → m < pass.old.knows.mods → Member m (mods_of pass.old.knows.walk) }
        ensures table { pass.new.table ≡ pass.old.table }
        ensures given { AllGiven pass.old.knows.mods (rewound pass.old.knows) pass.new.knows }
        ensures empty { (pass.new.knows.claims.held ≡ []) × (pass.new.knows.links ≡ []) }
        ensures whole { Accounted pass.new.knows.claims }
    {
        self.rewind(pass);
        let mods = pass.mods;
        for m in 0..mods {
            self.take_off(pass, m, true);
        }
    }
}
