// The observers.
ghost use Rattle.std.specs.Prelude.{◌≤◌};
ghost use mathlib.Core.List.{IsPrefix};
ghost use Rattle.psac_publish.specs.History.{IsOf, last_commit};

use crate::front::Front;
use crate::named::{Named, Sees};
use crate::publisher::{Published, Told};
use crate::{Seen, SeenName};
use left_right::reader::Reader;
use std::marker::Model;

type Eyepiece<N> = Reader<Front, (), Named<N>>;

/// What sees values that are published. Contracts see the beginning of the history that it saw or was told of.
#[derive(Drop)]
pub struct Observer<N: SeenName> {
    front: Front,
    // There may be none.
    reader: Option<Eyepiece<N>>,
}

impl<N: SeenName> Model for Observer<N> {
    ghost use Rattle.std.specs.Prelude.{List};
    ghost use Rattle.psac_publish.specs.declared.seen.Seen.{Seen};
    ghost use Rattle.psac_publish.specs.History.{IsOf};

    ghost Value = { List Seen };

    ghost view = { λ o. o.front.log };

    ghost invariant = { λ o. IsOf N.book N.course o.front };
}

// What a reader sees, if it is more. The reader may be refused its entry.
fn look_through<N: SeenName>(reader: Eyepiece<N>, front: &Front) -> (Eyepiece<N>, Front)
    requires { IsOf N.book N.course front.now }
    ensures later { IsPrefix front.now.log result.1.log }
    ensures rises { last_commit front.now.log ≤ last_commit result.1.log }
    ensures of { IsOf N.book N.course result.1 }
{
    match reader.enter_as::<Sees<N>>() {
        Ok(reading) => {
            let longer = front.longer(reading.get());
            (reading.leave(), longer)
        }
        Err(reader) => (reader, front.again()),
    }
}

impl<N: SeenName> Observer<N> {
    ghost use Rattle.std.specs.Prelude.{◌≡◌, ◌≤◌, ◌⊎◌, true};
    ghost use mathlib.Core.List.{IsPrefix};
    ghost use Rattle.psac_publish.specs.History.{Fits, IsHistory, IsLast, IsOf, last_commit};

    pub(crate) fn new(front: Front, reader: Option<Eyepiece<N>>) -> Observer<N>
        requires { IsOf N.book N.course front }
        ensures { result ≡ front.log }
    {
        Observer { front, reader }
    }

    /// Takes in what was told, so that it sees no less from now on.
    pub fn learn(&mut self, told: Told<N>)
        ensures seen { IsPrefix self.old self.new }
        ensures told { IsPrefix told self.new }
        ensures one { (self.new ≡ self.old) ⊎ (self.new ≡ told) }
    {
        self.front = self.front.longer(&told.front);
    }

    /// Takes in all that was published, so that it sees no less from now on, and says whether it knows of nothing else
    /// then. It would know of more if the history went on without the publisher.
    pub fn catch_up(&mut self, published: &Published<N>) -> bool
        ensures seen { IsPrefix self.old self.new }
        ensures rises { last_commit self.old ≤ last_commit self.new }
        ensures all { result ≡ true → self.new ≡ published.now }
    {
        let whole = published.front();
        if !whole.is_all(published.word(), &self.front) {
            return false;
        }
        self.front = whole.again();
        true
    }

    /// The last value that it saw or was told of, without a look.
    pub fn seen(&self) -> Seen
        ensures last { IsLast result self.now }
        ensures commit { result.commit ≡ last_commit self.now }
        ensures history { IsHistory self.now }
        ensures fits { Fits N.course result }
    {
        self.front.last().again()
    }

    /// The last value of a beginning of the history, which has all that this observer saw or was told of. It takes no
    /// memory and waits for nobody.
    pub fn look(&mut self) -> Seen
        ensures later { IsPrefix self.old self.new }
        ensures rises { last_commit self.old ≤ last_commit self.new }
        ensures commit { result.commit ≡ last_commit self.new }
        ensures last { IsLast result self.new }
        ensures history { IsHistory self.new }
        ensures fits { Fits N.course result }
    {
        if let Some(reader) = self.reader.take() {
            let (reader, front) = look_through(reader, &self.front);
            self.front = front;
            self.reader = Some(reader);
        }
        self.seen()
    }
}
