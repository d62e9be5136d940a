//! The table of values.
ghost use Rattle.std.specs.Prelude.{◌≡◌, ℕ, suc, ◌+◌, ◌*◌, ◌<◌, ◌≤◌, List, [], ◌∷◌, ◌++◌, length, true, false, Bool, Some, None, IfOk, IfErr};
ghost use Rattle.atomic_table.specs.Seated.{TableId};
ghost use Rattle.psac_slots.specs.Handles.{Member, IsDistinct};
ghost use Rattle.psac_slots.specs.Passes.{Pass};
ghost use Rattle.psac_slots.specs.Claiming as claiming;
ghost use Rattle.psac_values.specs.Steps.{first_view, drew, looked, left_of, right_of, joined, learned, rewound, gave, gave_slot, gave_all, Lacks};
ghost use Rattle.psac_values.specs.Knowing.{Has, Knows, three_of, wrote, Claims, United, IsOut, IsLive, claimed_as};

use crate::view::{
    Cut, Draws, Gives, Law, Learns, Loads, Looks, Marks, Rewinds, Settles, Sizes, Unites,
    ValueView, ValuesSplit, Writes,
};
use atomic_table::{Seat, Table};
use psac_base::NoMemory;
use psac_ops::Handle;
use psac_slots::Full;
use psac_slots::claims::{taken, turned_back};
use std::alloc::Global;
use std::marker::Model;

/// The words of all modifiables, and the claims of those that are made.
#[derive(Drop)]
pub struct Values {
    table: Table<(), ValueView, Sizes, Law, Global>,
}

impl Model for Values {
    ghost use Rattle.atomic_table.specs.Seated.{TableId};

    ghost Value = { TableId };

    ghost view = { λ t. t.table.shared.table_id };
}

/// A pass of the table.
#[derive(Drop)]
pub struct ValuePass {
    seat: Seat<(), ValueView>,
    fixed: u32,
    count: u32,
    head: u32,
    room: u32,
}

impl Model for ValuePass {
    ghost use Rattle.std.specs.Prelude.{◌≡◌, []};
    ghost use Rattle.psac_slots.specs.Passes.{Pass};
    ghost use Rattle.psac_values.specs.Carried.{Carries};
    ghost use Rattle.psac_values.specs.declared.view.ValueView.{ValueView};

    ghost Value = { Pass ValueView };

    ghost view = { λ p. record { table = p.seat.table_id; knows = p.seat.me.0 } };

    ghost invariant = { λ p. (p.seat.me.1 ≡ []) × Carries p.fixed p.count p.head p.room p.seat.table_id.words p.seat.me.0 };
}

impl Values {
    /// Slots below `fixed` are inputs and outputs with generation 0 and words of zeros, and the pass has them all.
    /// The `mods` slots behind them are free. The pass is sole.
    pub fn new(alloc: Global, fixed: u32, mods: u32) -> Result<(Values, ValuePass), NoMemory>
        requires { fixed + mods < 4294967296 }
        ensures { IfOk result (λ r. (r.1.table ≡ r.0) × (r.1.knows ≡ first_view fixed mods)) }
    {
        let mut words = Vec::new(alloc);
        words.push(0)?;
        for slot in 0..mods {
            words.push(4294967296 + u64::from(slot))?;
        }
        'states: for _ in 0..mods {
            // free, with generation 1
            words.push(2)?;
        }
        'values: for _ in 0..3 * (u64::from(fixed) + u64::from(mods)) {
            words.push(0)?;
        }
        let (table, seat) = Table::of_words(alloc, &words, &Sizes { fixed, mods })?;
        Ok((
            Values { table },
            ValuePass {
                seat,
                fixed,
                count: mods,
                head: 0,
                room: mods,
            },
        ))
    }

    /// The words of the modifiable, which the pass knows.
    pub fn read(&self, pass: &mut ValuePass, m: Handle) -> [u64; 3]
        requires table { pass.old.table ≡ self.now }
        requires known { (ws : List ℕ) × Knows pass.old.knows m ws }
        ensures table { pass.new.table ≡ pass.old.table }
        ensures words { (ws : List ℕ) → Knows pass.old.knows m ws → result ≡ ws }
        ensures looks { pass.new.knows ≡ looked pass.old.knows }
    {
        let at = 1 + 2 * pass.count as usize + 3 * m.slot as usize;
        let first = self.table.shared.load::<Looks>(&mut pass.seat, at);
        let second = self.table.shared.load::<Loads>(&mut pass.seat, at + 1);
        let third = self.table.shared.load::<Loads>(&mut pass.seat, at + 2);
        [first, second, third]
    }

    /// The modifiable, which the pass alone may write, has these words from here on.
    pub fn write(&self, pass: &mut ValuePass, m: Handle, words: [u64; 3])
        requires table { pass.old.table ≡ self.now }
        requires mine { Has pass.old.knows m }
        ensures table { pass.new.table ≡ pass.old.table }
        ensures wrote { pass.new.knows ≡ wrote m.slot (three_of words) pass.old.knows }
    {
        let [first, second, third] = words;
        let at = 1 + 2 * pass.count as usize + 3 * m.slot as usize;
        self.table.shared.store::<Writes>(&mut pass.seat, at, first);
        self.table
            .shared
            .store::<Writes>(&mut pass.seat, at + 1, second);
        self.table
            .shared
            .store::<Writes>(&mut pass.seat, at + 2, third);
    }

    /// A slot that nobody else has, with the right to write it. Its words are those of nobody: the pass doesn't know
    /// them. Full where the drawn index is not below the room.
    pub fn claim(&self, pass: &mut ValuePass) -> Result<Handle, Full>
        requires table { pass.old.table ≡ self.now }
        requires room { pass.old.knows.claims.over ≡ 0 }
        ensures table { pass.new.table ≡ pass.old.table }
        ensures ok { IfOk result (λ m. Claims pass.old.knows m pass.new.knows) }
        ensures new { IfOk result (λ m. Lacks pass.old.knows m.slot) }
        ensures room { IfOk result (λ _. pass.new.knows.claims.over ≡ 0) }
        ensures branch { pass.new.knows.claims.branch ≡ pass.old.knows.claims.branch }
        ensures full { IfErr result (λ f. (f.room ≡ length pass.old.knows.claims.list) × (f.room ≤ f.index) × (pass.new.knows ≡ drew pass.old.knows f.index)) }
    {
        let index = self.table.shared.fetch_add::<Draws>(&mut pass.seat, 0, 1);
        let room = u64::from(pass.room);
        if index >= room {
            return Err(Full { index, room });
        }
        let place = (u64::from(pass.head) + index) % u64::from(pass.count);
        let word = self
            .table
            .shared
            .load::<Loads>(&mut pass.seat, place as usize + 1);
        let slot = word % 4294967296;
        let generation = word / 4294967296;
        let state = pass.count as usize + slot as usize + 1;
        self.table
            .shared
            .store::<Marks>(&mut pass.seat, state, 2 * generation + 1);
        Ok(Handle {
            slot: pass.fixed + slot as u32,
            generation: generation as u32,
        })
    }

    /// The pass's rights are divided as D says.
    pub fn fork<D: ValuesSplit>(&self, pass: ValuePass) -> (ValuePass, ValuePass)
        requires table { pass.table ≡ self.now }
        requires short { length pass.knows.claims.branch < 62 }
        requires room { pass.knows.claims.over ≡ 0 }
        ensures table { (result.0.table ≡ pass.table) × (result.1.table ≡ pass.table) }
        ensures left { result.0.knows ≡ left_of D.shared D.to_right pass.knows }
        ensures right { result.1.knows ≡ right_of D.shared D.to_right pass.knows }
    {
        let ValuePass {
            mut seat,
            fixed,
            count,
            head,
            room,
        } = pass;
        let other = self.table.shared.split_seat::<Cut<D>>(&mut seat);
        (
            ValuePass {
                seat,
                fixed,
                count,
                head,
                room,
            },
            ValuePass {
                seat: other,
                fixed,
                count,
                head,
                room,
            },
        )
    }

    /// What both sides had. What they shared from their branch on is the pass's alone again.
    pub fn join(&self, left: ValuePass, right: ValuePass) -> ValuePass
        requires table { (left.table ≡ self.now) × (right.table ≡ self.now) }
        requires sides { (b : List Bool) × (left.knows.claims.branch ≡ b ++ false ∷ []) × (right.knows.claims.branch ≡ b ++ true ∷ []) }
        ensures table { result.table ≡ left.table }
        ensures joined { result.knows ≡ joined left.knows right.knows }
        ensures united { United left.knows right.knows result.knows }
    {
        let ValuePass {
            mut seat,
            fixed,
            count,
            head,
            room,
        } = left;
        let ValuePass { seat: other, .. } = right;
        self.table.shared.join_seat::<Unites>(&mut seat, other);
        self.table.shared.load::<Settles>(&mut seat, 0);
        ValuePass {
            seat,
            fixed,
            count,
            head,
            room,
        }
    }

    /// The pass, whose forks were all joined again, is sole: it knows the counter, drew each index below it once, and
    /// shares nothing.
    pub fn regain(&self, pass: ValuePass) -> ValuePass
        requires table { pass.table ≡ self.now }
        requires joined { pass.knows.claims.branch ≡ [] }
        ensures table { result.table ≡ pass.table }
        ensures counter { (n : ℕ) × (result.knows ≡ learned n pass.knows) × claiming.DrewBelow n pass.knows.claims }
        ensures alone { result.knows.known ≡ [] }
    {
        let ValuePass {
            mut seat,
            fixed,
            count,
            head,
            room,
        } = pass;
        self.table.shared.load::<Learns>(&mut seat, 0);
        ValuePass {
            seat,
            fixed,
            count,
            head,
            room,
        }
    }

    /// Whether a modifiable has this slot and generation.
    pub fn is_live(&self, pass: &mut ValuePass, m: Handle) -> bool
        requires table { pass.old.table ≡ self.now }
        requires sole { claiming.IsSole pass.old.knows.claims }
        ensures same { pass.new ≡ pass.old }
        ensures live { result ≡ true → IsLive m pass.old.knows }
        ensures dead { result ≡ false → ¬ IsLive m pass.old.knows }
    {
        if m.slot < pass.fixed {
            return m.generation == 0;
        }
        let slot = m.slot - pass.fixed;
        if slot >= pass.count {
            return false;
        }
        let state = pass.count as usize + slot as usize + 1;
        let word = self.table.shared.load::<Loads>(&mut pass.seat, state);
        word == 2 * u64::from(m.generation) + 1
    }

    /// The counter is 0 again, and the free list is what was left of it, in its order. Each made slot is in the list or
    /// held, and in one of them.
    pub fn rewind(&self, pass: &mut ValuePass)
        requires table { pass.old.table ≡ self.now }
        requires sole { claiming.IsSole pass.old.knows.claims }
        ensures table { pass.new.table ≡ pass.old.table }
        ensures rewound { pass.new.knows ≡ rewound pass.old.knows }
        ensures whole { claiming.Accounted pass.new.knows.claims }
    {
        let counter = self.table.shared.load::<Loads>(&mut pass.seat, 0);
        self.table.shared.store::<Rewinds>(&mut pass.seat, 0, 0);
        let gone = taken(counter, pass.room);
        pass.head = turned_back(pass.count, u64::from(pass.head) + u64::from(gone));
        pass.room -= gone;
    }

    /// The slot is free again with the next generation, behind all others. The list begins anew.
    pub fn give(&self, pass: &mut ValuePass, m: Handle)
        requires table { pass.old.table ≡ self.now }
        requires sole { claiming.IsSole pass.old.knows.claims }
        requires out { IsOut m pass.old.knows }
        requires next { m.generation < 4294967295 }
        ensures table { pass.new.table ≡ pass.old.table }
        ensures gave { pass.new.knows ≡ gave (claimed_as m pass.old.knows) (rewound pass.old.knows) }
        ensures whole { claiming.Accounted pass.new.knows.claims }
    {
        self.rewind(pass);
        self.put_back(pass, m);
    }

    /// Every made modifiable that is out is free again with the next generation, lower slots first, behind all others.
    /// The list begins anew, and the pass has the fixed slots alone, with the words that it knew of them.
    pub fn give_all(&self, pass: &mut ValuePass)
        requires table { pass.old.table ≡ self.now }
        requires sole { claiming.IsSole pass.old.knows.claims }
        requires next { (h : Handle) → Member h pass.old.knows.claims.held → h.generation < 4294967295 }
        ensures table { pass.new.table ≡ pass.old.table }
        ensures gave { pass.new.knows ≡ gave_all (rewound pass.old.knows) }
        ensures whole { claiming.Accounted pass.new.knows.claims }
    {
        self.rewind(pass);
        let count = pass.count;
        for slot in 0..count {
            self.give_slot(pass, slot);
        }
    }

    // The list has begun anew. A made slot is free from here on, if it was out.
    fn give_slot(&self, pass: &mut ValuePass, slot: u32)
        requires table { pass.old.table ≡ self.now }
        requires begun { pass.old.knows.claims.counter ≡ Some 0 }
        requires below { slot < pass.old.knows.claims.count }
        requires next { (h : Handle) → Member h pass.old.knows.claims.held → h.generation < 4294967295 }
        requires whole { claiming.Accounted pass.old.knows.claims }
        ensures table { pass.new.table ≡ pass.old.table }
        ensures gave { pass.new.knows ≡ gave_slot slot pass.old.knows }
        ensures whole { claiming.Accounted pass.new.knows.claims }
    {
        let state = pass.count as usize + slot as usize + 1;
        let word = self.table.shared.load::<Loads>(&mut pass.seat, state);
        if word % 2 == 1 {
            let m = Handle {
                slot: pass.fixed + slot,
                generation: (word / 2) as u32,
            };
            self.put_back(pass, m);
        }
    }

    // The list has begun anew. The slot is free again with the next generation, behind all others.
    fn put_back(&self, pass: &mut ValuePass, m: Handle)
        requires table { pass.old.table ≡ self.now }
        requires begun { pass.old.knows.claims.counter ≡ Some 0 }
        requires out { IsOut m pass.old.knows }
        requires next { m.generation < 4294967295 }
        requires whole { claiming.Accounted pass.old.knows.claims }
        ensures table { pass.new.table ≡ pass.old.table }
        ensures gave { pass.new.knows ≡ gave (claimed_as m pass.old.knows) pass.old.knows }
        ensures whole { claiming.Accounted pass.new.knows.claims }
    {
        let slot = m.slot - pass.fixed;
        let generation = u64::from(m.generation) + 1;
        let state = pass.count as usize + slot as usize + 1;
        self.table
            .shared
            .store::<Marks>(&mut pass.seat, state, 2 * generation);
        let place = (u64::from(pass.head) + u64::from(pass.room)) % u64::from(pass.count);
        self.table.shared.store::<Gives>(
            &mut pass.seat,
            place as usize + 1,
            generation * 4294967296 + u64::from(slot),
        );
        pass.room += 1;
    }
}
