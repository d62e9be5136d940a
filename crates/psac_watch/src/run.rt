// A session over what was opened, which is watched, and the line behind its replies.
ghost use Rattle.std.specs.Prelude.{◌≡◌, ◌⊎◌, ◌≤◌, ℕ, [], Option, IfOk};
ghost use Rattle.psac_base.specs.Causes.{Rose};
ghost use Rattle.psac_base.specs.Outside.{Appended, AppendedPart};
ghost use Rattle.psac_engine.specs.Engine.{commits_in};
ghost use Rattle.psac_session.specs.Answered.{answer_of};
ghost use Rattle.psac_session.specs.Attended.{hearing_of};
ghost use Rattle.psac_watch.specs.Held.{source_of};
ghost use Rattle.psac_watch.specs.Ended.{IsEnded, IsWatched};
ghost use Rattle.psac_watch.specs.Watched.{count_line, course_of};

use crate::eye::Eye;
use crate::watching::{Followed, follow};
use psac_base::{NoMemory, Sink, Source, write_whole};
use psac_fork::{Crew, Gate};
use psac_open::{NO_MEMORY, Opened, Status};
use psac_publish::{Opened as History, Published, SeenName};
use psac_script::push_number;
use psac_session::SessionEnd;
use std::alloc::Global;
use std::marker::Brand;
use std::sync::Wait;
use std::thread::Threads;

// The line that says how many commits there were.
fn count_line(alloc: Global, commits: u64) -> Result<Vec<u8>, NoMemory>
    ensures { IfOk result (λ text. text.items ≡ count_line commits) }
{
    let mut text = Vec::new(alloc);
    text.extend_from_slice(b"watched ")?;
    push_number(&mut text, commits)?;
    text.push(b'\n')?;
    Ok(text)
}

// Writes that line.
fn write_count<K: Sink>(alloc: Global, commits: u64, out: &mut K) -> Status
    ensures status { (result.code ≡ 0) ⊎ (result.code ≡ 7) ⊎ (result.code ≡ 9) }
    ensures whole { result.code ≡ 0 → Appended (K.held out.old) (K.held out.new) (count_line commits) }
    ensures part { AppendedPart (K.held out.old) (K.held out.new) (count_line commits) }
    ensures sink { result.code ≡ 7 → Rose (K.faults out.old) (K.faults out.new) }
    ensures later { K.faults out.old ≤ K.faults out.new }
{
    let Ok(line) = count_line(alloc, commits) else {
        return NO_MEMORY;
    };
    match write_whole(out, &line) {
        Ok(()) => Status { code: 0 },
        Err(_) => Status { code: 7 },
    }
}

// What is written behind a session that was followed, and the status.
fn end_with<K: Sink>(alloc: Global, followed: &Followed, out: &mut K) -> Status
    ensures { IsEnded followed.now.end followed.now.commits (K.held out.old) (K.held out.new)
        (K.faults out.old) (K.faults out.new) result.code }
{
    match followed.end {
        SessionEnd::Done => write_count(alloc, followed.commits, out),
        SessionEnd::SourceFailed => Status { code: 6 },
        SessionEnd::SinkFailed => Status { code: 7 },
        SessionEnd::TooLong => Status { code: 8 },
        SessionEnd::NoMemory => NO_MEMORY,
    }
}

// Holds the session, whose outputs are published in this history.
fn run_in<
    Rt: Threads + Wait + Sync,
    S: Source,
    K: Sink,
    G: Gate + Sync,
    E: Eye,
    N: SeenName + Send + Sync,
>(
    rt: &Rt,
    alloc: Global,
    opened: &mut Opened,
    crew: &Crew,
    script: &mut S,
    out: &mut K,
    gate: &G,
    history: History,
    eye: &mut E,
) -> Status
    requires begun { commits_in opened.old.engine ≡ 0 }
    requires named { history.token.book ≡ N.book }
    requires course { N.course ≡ course_of (hearing_of opened.old.engine opened.old.texts) (S.left script.old) }
    ensures { IsWatched (answer_of opened.old.engine opened.old.texts) (hearing_of opened.old.engine opened.old.texts)
        (source_of (S.left script.old) (S.taken script.old) (S.faults script.old))
        (source_of (S.left script.new) (S.taken script.new) (S.faults script.new))
        (K.held out.old) (K.held out.new) (K.faults out.old) (K.faults out.new)
        (E.shown eye.old) (E.shown eye.new) result.code }
{
    let Ok((published, mut observers)) = Published::<N>::new(alloc, history, 1) else {
        return NO_MEMORY;
    };
    let observer = observers.pop().unwrap();
    let followed = follow(
        rt,
        alloc,
        &mut opened.engine,
        &mut opened.texts,
        crew,
        script,
        out,
        gate,
        published,
        observer,
        eye,
    );
    end_with(alloc, &followed, out)
}

/// Holds a session, shows its outputs to the eye while it runs, and writes how many commits there were behind its replies.
pub fn run_watch<Rt: Threads + Wait + Sync, S: Source, K: Sink, G: Gate + Sync, E: Eye>(
    rt: &Rt,
    alloc: Global,
    opened: &mut Opened,
    crew: &Crew,
    script: &mut S,
    out: &mut K,
    gate: &G,
    eye: &mut E,
) -> Status
    requires { commits_in opened.old.engine ≡ 0 }
    ensures { IsWatched (answer_of opened.old.engine opened.old.texts) (hearing_of opened.old.engine opened.old.texts)
        (source_of (S.left script.old) (S.taken script.old) (S.faults script.old))
        (source_of (S.left script.new) (S.taken script.new) (S.faults script.new))
        (K.held out.old) (K.held out.new) (K.faults out.old) (K.faults out.new)
        (E.shown eye.old) (E.shown eye.new) result.code }
{
    run_in::<Rt, S, K, G, E, Brand>(
        rt,
        alloc,
        opened,
        crew,
        script,
        out,
        gate,
        History::new(),
        eye,
    )
}
