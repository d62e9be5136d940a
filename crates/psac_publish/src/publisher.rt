// The publisher.
ghost use Rattle.std.specs.Prelude.{◌≡◌, ◌≤◌, All, vec_capacity, vec_len};
ghost use Rattle.psac_publish.specs.History.{IsOf};

use crate::front::Front;
use crate::ledger::{Law, Opened};
use crate::named::{Named, Sees};
use crate::observer::Observer;
use crate::{Seen, SeenName};
use core::mem::replace_with;
use left_right::reader::Factory;
use left_right::writer::Writer;
use logbook::Word;
use psac_base::NoMemory;
use std::alloc::Global;
use std::marker::{Model, PhantomData};
use std::sync::Wait;

/// What publishes values, each with more commits than the one before. Contracts see the history: the values that were
/// published, commit 0 first.
///
/// It is not `Drop`: end it by `close`.
pub struct Published<N: SeenName> {
    word: Word<Seen, u64, Law>,
    writer: Writer<Front, Front, (), Named<N>>,
}

impl<N: SeenName> Model for Published<N> {
    ghost use Rattle.std.specs.Prelude.{◌≡◌, List, [], drop};
    ghost use Rattle.psac_publish.specs.declared.seen.Seen.{Seen};
    ghost use Rattle.psac_publish.specs.History.{IsOf};
    ghost use Rattle.psac_publish.specs.Kept.{word_of};

    ghost Value = { List Seen };

    ghost view = { λ p. p.writer.desk.shown.value.log };

    ghost invariant = { λ p. (p.word ≡ word_of N.book) × (drop p.writer.behind p.writer.log.items ≡ [])
        × IsOf N.book N.course p.writer.desk.shown.value };
}

/// What was published when it was told. Contracts see the history up to then.
#[derive(Drop)]
pub struct Told<N: SeenName> {
    pub(crate) front: Front,
    pub(crate) of: PhantomData<N>,
}

impl<N: SeenName> Model for Told<N> {
    ghost use Rattle.std.specs.Prelude.{List};
    ghost use Rattle.psac_publish.specs.declared.seen.Seen.{Seen};
    ghost use Rattle.psac_publish.specs.History.{IsOf};

    ghost Value = { List Seen };

    ghost view = { λ t. t.front.log };

    ghost invariant = { λ t. IsOf N.book N.course t.front };
}

// Puts so many observers of a first beginning into a list that has room for them.
fn seat_all<N: SeenName>(
    observers: &mut Vec<Observer<N>>,
    factory: &Factory<Front, (), Named<N>>,
    front: &Front,
    count: usize,
)
    requires of { IsOf N.book N.course front.now }
    requires room { (vec_len observers.old ≡ 0) × (count ≤ vec_capacity observers.old) }
    ensures count { vec_len observers.new ≡ count }
    ensures each { All (λ o. o ≡ front.now.log) observers.new.items }
{
    for _ in 0..count {
        let reader = factory.reader().ok();
        observers.push_reserved(Observer::new(front.again(), reader));
    }
}

impl<N: SeenName> Published<N> {
    ghost use Rattle.std.specs.Prelude.{◌<◌, [], ◌∷◌, ◌++◌, IfOk, MatchResult, length};
    ghost use Rattle.psac_publish.specs.History.{Fits, IsOf, last_commit, nothing};
    ghost use Rattle.psac_publish.specs.Kept.{word_of};

    /// A publisher with so many observers, all of which see commit 0.
    pub fn new(
        alloc: Global,
        opened: Opened,
        observers: u32,
    ) -> Result<(Published<N>, Vec<Observer<N>>), NoMemory>
        requires named { opened.token.book ≡ N.book }
        requires fits { Fits N.course nothing }
        requires count { (1 ≤ observers) × (observers ≤ 16) }
        ensures published { IfOk result (λ both. both.0 ≡ nothing ∷ []) }
        ensures count { IfOk result (λ both. length both.1.items ≡ observers) }
        ensures observers { IfOk result (λ both. All (λ o. o ≡ nothing ∷ []) both.1.items) }
    {
        let count = observers as usize;
        let mut observers = Vec::new(alloc);
        observers.reserve(count)?;
        let Opened { word, token } = opened;
        let front = Front::first(token);
        let writer = Writer::new(alloc, front.again(), front.again(), count)?;
        seat_all(&mut observers, writer.factory(), &front, count);
        Ok((Published { word, writer }, observers))
    }

    /// How many commits the last value has.
    pub fn last(&self) -> u64
        ensures { result ≡ last_commit self.now }
    {
        self.writer.published().last().commit
    }

    // The beginning that is published.
    pub(crate) fn front(&self) -> &Front
        ensures of { IsOf N.book N.course result.now }
        ensures log { result.now.log ≡ self.now }
    {
        self.writer.published()
    }

    // The word of the history.
    pub(crate) fn word(&self) -> &Word<Seen, u64, Law>
        ensures { result.now ≡ word_of N.book }
    {
        &self.word
    }

    /// Publishes a value: observers see it from now on. It waits for those that still look at what it takes back.
    /// With `NoMemory` they see what they saw, and it publishes no more.
    pub fn publish<R: Wait>(self, rt: &R, seen: Seen) -> (Published<N>, Result<(), NoMemory>)
        requires later { last_commit self < seen.commit }
        requires fits { Fits N.course seen }
        ensures { MatchResult result.1 (λ _. result.0 ≡ self ++ seen ∷ []) (λ _. result.0 ≡ self) }
    {
        let Published { word, mut writer } = self;
        let Some(front) = writer.published().grown(&word, seen) else {
            return (Published { word, writer }, Err(NoMemory));
        };
        let Ok(()) = writer.append(front) else {
            return (Published { word, writer }, Err(NoMemory));
        };
        let (writer, shown) = writer.publish_as::<Sees<N>, R>(rt);
        shown.unwrap();
        (Published { word, writer }, Ok(()))
    }

    /// Publishes a value in place.
    pub fn publish_here<R: Wait>(&mut self, rt: &R, seen: Seen) -> Result<(), NoMemory>
        requires later { last_commit self.old < seen.commit }
        requires fits { Fits N.course seen }
        ensures { MatchResult result (λ _. self.new ≡ self.old ++ seen ∷ []) (λ _. self.new ≡ self.old) }
    {
        replace_with(self, (rt, seen), |published, both| {
            published.publish(both.0, both.1)
        })
    }

    /// What was published so far, for observers to learn.
    pub fn tell(&self) -> Told<N>
        ensures { result ≡ self.now }
    {
        Told {
            front: self.writer.published().again(),
            of: PhantomData,
        }
    }

    /// Ends the publisher. It waits for the observers that are looking. From now on they see what they saw.
    pub fn close<R: Wait>(self, rt: &R) {
        let Published { word: _, writer } = self;
        writer.take(rt);
    }
}
