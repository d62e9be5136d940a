// Two sides at once: a session, and what shows its outputs.
ghost use Rattle.std.specs.Prelude.{◌<◌, None, IfSome, length};
ghost use Rattle.psac_engine.specs.Engine.{commits_in};
ghost use Rattle.psac_publish.specs.History.{last_commit};
ghost use Rattle.psac_session.specs.Answered.{answer_of, most_opened};
ghost use Rattle.psac_session.specs.Attended.{Foretold, hearing_of};
ghost use Rattle.psac_watch.specs.Held.{IsHeld, source_of};
ghost use Rattle.psac_watch.specs.Published.{heard_in};
ghost use Rattle.psac_watch.specs.Showed.{IsAt, Showed};

use crate::eye::Eye;
use crate::publisher::Publisher;
use crate::showing::show_all;
use psac_base::{Sink, Source};
use psac_engine::Engine;
use psac_fork::{Crew, Gate};
use psac_inputs::Interner;
use psac_publish::{Observer, SeenName};
use psac_session::{SessionEnd, session_with};
use std::alloc::Global;
use std::sync::Wait;
use std::sync::atomic::AtomicBool;
use std::sync::atomic::Ordering::SeqCst;
use std::thread::{Threads, join_mut};

// Holds a session whose commits are published, and then tells that it ended.
fn hold<Rt: Threads + Wait + Sync, S: Source, K: Sink, G: Gate + Sync, N: SeenName>(
    rt: &Rt,
    alloc: Global,
    engine: &mut Engine,
    texts: &mut Interner,
    crew: &Crew,
    script: &mut S,
    out: &mut K,
    gate: &G,
    publisher: &mut Publisher<N>,
    ended: &AtomicBool,
) -> SessionEnd
    requires few { commits_in engine.old < most_opened }
    requires room { length publisher.old.published < most_opened }
    requires course { IfSome N.course (Foretold (hearing_of engine.old texts.old) (S.left script.old) (heard_in publisher.old.published)) }
    ensures { IsHeld (answer_of engine.old texts.old) (hearing_of engine.old texts.old)
        (source_of (S.left script.old) (S.taken script.old) (S.faults script.old)) (source_of (S.left script.new) (S.taken script.new) (S.faults script.new))
        (K.held out.old, heard_in publisher.old.published) (K.held out.new, heard_in publisher.new.published)
        (K.faults out.old) (K.faults out.new) result }
{
    let end = session_with(rt, alloc, engine, texts, crew, script, out, gate, publisher);
    ended.store(true, SeqCst);
    end
}

/// The session runs in this thread, and what shows its outputs in another one, where one can be made. Else they are shown
/// after the session.
pub fn both<
    Rt: Threads + Wait + Sync,
    S: Source,
    K: Sink,
    G: Gate + Sync,
    E: Eye,
    N: SeenName + Send + Sync,
>(
    rt: &Rt,
    alloc: Global,
    engine: &mut Engine,
    texts: &mut Interner,
    crew: &Crew,
    script: &mut S,
    out: &mut K,
    gate: &G,
    publisher: &mut Publisher<N>,
    observer: &mut Observer<N>,
    eye: &mut E,
    ended: &AtomicBool,
) -> (Option<u64>, SessionEnd)
    requires few { commits_in engine.old < most_opened }
    requires room { length publisher.old.published < most_opened }
    requires course { IfSome N.course (Foretold (hearing_of engine.old texts.old) (S.left script.old) (heard_in publisher.old.published)) }
    ensures held { IsHeld (answer_of engine.old texts.old) (hearing_of engine.old texts.old)
        (source_of (S.left script.old) (S.taken script.old) (S.faults script.old)) (source_of (S.left script.new) (S.taken script.new) (S.faults script.new))
        (K.held out.old, heard_in publisher.old.published) (K.held out.new, heard_in publisher.new.published)
        (K.faults out.old) (K.faults out.new) result.1 }
    ensures shown { Showed N.course None result.0 (E.shown eye.old) (E.shown eye.new) }
    ensures latest { IsAt result.0 (last_commit observer.new) }
{
    join_mut(
        rt,
        &mut || show_all(rt, observer, eye, ended),
        &mut || -> SessionEnd
            requires few { commits_in engine.now < most_opened }
            requires room { length publisher.now.published < most_opened }
            requires course { IfSome N.course (Foretold (hearing_of engine.now texts.now) (S.left script.now) (heard_in publisher.now.published)) }
        {
            hold(
                rt, alloc, engine, texts, crew, script, out, gate, publisher, ended,
            )
        },
    )
}
