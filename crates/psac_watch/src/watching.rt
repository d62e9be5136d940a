// A session over an engine, and what is shown of it.
ghost use Rattle.std.specs.Prelude.{◌≡◌, ◌<◌, ◌⊎◌, [], ◌∷◌, true, None, Some, Option, ℕ, IfSome};
ghost use Rattle.psac_engine.specs.Engine.{commits_in};
ghost use Rattle.psac_publish.specs.History.{Fits, nothing};
ghost use Rattle.psac_session.specs.Answered.{answer_of, most_opened};
ghost use Rattle.psac_session.specs.Attended.{Foretold, hearing_of};
ghost use Rattle.psac_watch.specs.Held.{IsFollowed, source_of};
ghost use Rattle.psac_watch.specs.Published.{heard_in};
ghost use Rattle.psac_watch.specs.Showed.{Showed};

use crate::eye::Eye;
use crate::publisher::Publisher;
use crate::showing::show;
use crate::sides::both;
use psac_base::{Sink, Source};
use psac_engine::Engine;
use psac_fork::{Crew, Gate};
use psac_inputs::Interner;
use psac_publish::{Observer, Opened as History, Published, SeenName};
use psac_session::SessionEnd;
use std::alloc::Global;
use std::sync::Wait;
use std::sync::atomic::AtomicBool;
use std::thread::Threads;

/// How a session that was followed ended, how many commits were published, and how many the last value has that was shown.
#[derive(Drop)]
pub struct Followed {
    pub end: SessionEnd,
    pub commits: u64,
    pub last: Option<u64>,
}

// No session ends well of which the observer knows more than was published. No clause of a word says that only its owner
// writes it, so that this is asked.
fn end_where(known: bool, end: SessionEnd) -> SessionEnd
    ensures known { result ≡ SessionEnd.Done → known ≡ true }
    ensures end { (result ≡ end) ⊎ ((end ≡ SessionEnd.Done) × (result ≡ SessionEnd.NoMemory)) }
{
    match end {
        SessionEnd::Done if !known => SessionEnd::NoMemory,
        end => end,
    }
}

/// The session is held, and its outputs are shown. What was published last is shown too.
pub fn follow<
    Rt: Threads + Wait + Sync,
    S: Source,
    K: Sink,
    G: Gate + Sync,
    E: Eye,
    N: SeenName + Send + Sync,
>(
    rt: &Rt,
    alloc: Global,
    engine: &mut Engine,
    texts: &mut Interner,
    crew: &Crew,
    script: &mut S,
    out: &mut K,
    gate: &G,
    published: Published<N>,
    mut observer: Observer<N>,
    eye: &mut E,
) -> Followed
    requires few { commits_in engine.old < most_opened }
    requires begun { published ≡ nothing ∷ [] }
    requires course { IfSome N.course (Foretold (hearing_of engine.old texts.old) (S.left script.old) (heard_in (nothing ∷ []))) }
    ensures held { IsFollowed (answer_of engine.old texts.old) (hearing_of engine.old texts.old)
        (source_of (S.left script.old) (S.taken script.old) (S.faults script.old)) (source_of (S.left script.new) (S.taken script.new) (S.faults script.new))
        (K.held out.old) (K.held out.new) (K.faults out.old) (K.faults out.new) result.end result.commits }
    ensures shown { Showed N.course None result.last (E.shown eye.old) (E.shown eye.new) }
    // Where all was done the last value was shown.
    ensures last { result.end ≡ SessionEnd.Done → result.last ≡ Some result.commits }
{
    let mut publisher = Publisher { published };
    let ended = AtomicBool::new(false);
    let (last, end) = both(
        rt,
        alloc,
        engine,
        texts,
        crew,
        script,
        out,
        gate,
        &mut publisher,
        &mut observer,
        eye,
        &ended,
    );
    let Publisher { published } = publisher;
    let known = observer.catch_up(&published);
    let last = show::<E, N>(eye, &observer.seen(), last);
    let commits = published.last();
    published.close(rt);
    Followed {
        end: end_where(known, end),
        commits,
        last,
    }
}
