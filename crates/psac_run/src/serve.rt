// What is done with an engine.
ghost use Rattle.std.specs.Prelude.{◌≡◌, ◌⊎◌, ◌+◌, ◌↔◌, ℕ, List, [], Option};
ghost use Rattle.psac_base.specs.Causes.{Rose};
ghost use Rattle.psac_base.specs.Outside.{Appended};
ghost use Rattle.psac_command.specs.declared.request.Mode.TheVariants.{Once as Single, Session as Whole};
ghost use Rattle.psac_engine.specs.Engine.{commits_in};
ghost use Rattle.psac_session.specs.Answered.{AnsweredLong, AnsweredWhole, ReadOut, answer_of};
ghost use Rattle.psac_run.specs.Served.{IsServed, Served, ServedPart};

use psac_base::{Sink, Source};
use psac_command::Mode;
use psac_fork::{Crew, Gate};
use psac_open::{NO_MEMORY, Opened, Status, finish};
use psac_session::{SessionEnd, once, session};
use std::alloc::Global;
use std::thread::Threads;

// Runs once.
fn run_once<Rt: Threads + Sync, K: Sink, G: Gate + Sync>(
    rt: &Rt,
    alloc: Global,
    opened: &mut Opened,
    crew: &Crew,
    out: &mut K,
    gate: &G,
) -> Status
    requires { commits_in opened.old.engine ≡ 0 }
    ensures status { (result.code ≡ 0) ⊎ (result.code ≡ 7) ⊎ (result.code ≡ 9) }
    ensures whole { result.code ≡ 0 → (told : Option (List ℕ))
        → Served Single opened.old.engine opened.old.texts told (K.held out.old) (K.held out.new) }
    ensures part { (told : Option (List ℕ))
        → ServedPart Single opened.old.engine opened.old.texts told (K.held out.old) (K.held out.new) }
    ensures sink { result.code ≡ 7 → Rose (K.faults out.old) (K.faults out.new) }
    ensures memory { result.code ≡ 9 → Appended (K.held out.old) (K.held out.new) [] }
{
    match once(rt, alloc, &mut opened.engine, &opened.texts, crew, gate) {
        Ok(text) => finish(out, &text, 0),
        Err(_) => NO_MEMORY,
    }
}

fn status_of(end: SessionEnd) -> Status
    ensures status { IsServed result.code }
    ensures done { result.code ≡ 0 → end ≡ SessionEnd.Done }
    ensures source { result.code ≡ 6 → end ≡ SessionEnd.SourceFailed }
    ensures sink { result.code ≡ 7 → end ≡ SessionEnd.SinkFailed }
    ensures long { (result.code ≡ 8) ↔ (end ≡ SessionEnd.TooLong) }
{
    match end {
        SessionEnd::Done => Status { code: 0 },
        SessionEnd::SourceFailed => Status { code: 6 },
        SessionEnd::SinkFailed => Status { code: 7 },
        SessionEnd::TooLong => Status { code: 8 },
        SessionEnd::NoMemory => NO_MEMORY,
    }
}

// Holds a session.
fn run_session<Rt: Threads + Sync, S: Source, K: Sink, G: Gate + Sync>(
    rt: &Rt,
    alloc: Global,
    opened: &mut Opened,
    crew: &Crew,
    script: &mut S,
    out: &mut K,
    gate: &G,
) -> Status
    requires { commits_in opened.old.engine ≡ 0 }
    ensures status { IsServed result.code }
    ensures whole { result.code ≡ 0
        → Served Whole opened.old.engine opened.old.texts (S.left script.old) (K.held out.old) (K.held out.new) }
    ensures read { result.code ≡ 0
        → ReadOut (S.left script.old) (S.left script.new) (S.taken script.old) (S.taken script.new) }
    ensures part { ServedPart Whole opened.old.engine opened.old.texts (S.left script.old) (K.held out.old) (K.held out.new) }
    ensures source { result.code ≡ 6 → Rose (S.faults script.old) (S.faults script.new) }
    ensures broken { result.code ≡ 6 → AnsweredWhole (answer_of opened.old.engine opened.old.texts)
        (S.left script.old) (S.left script.new) (K.held out.old) (K.held out.new) }
    ensures sink { result.code ≡ 7 → Rose (K.faults out.old) (K.faults out.new) }
    ensures long { (result.code ≡ 8) ↔ (S.taken script.new ≡ S.taken script.old + 16777217) }
    ensures much { result.code ≡ 8 → AnsweredLong (answer_of opened.old.engine opened.old.texts)
        (S.left script.old) (S.left script.new) (K.held out.old) (K.held out.new) }
{
    let end = session(
        rt,
        alloc,
        &mut opened.engine,
        &mut opened.texts,
        crew,
        script,
        out,
        gate,
    );
    status_of(end)
}

/// Runs once, or holds a session over the script.
pub fn serve<Rt: Threads + Sync, S: Source, K: Sink, G: Gate + Sync>(
    rt: &Rt,
    alloc: Global,
    mode: Mode,
    opened: &mut Opened,
    crew: &Crew,
    script: &mut S,
    out: &mut K,
    gate: &G,
) -> Status
    requires { commits_in opened.old.engine ≡ 0 }
    ensures status { IsServed result.code }
    // The report was written.
    ensures whole { result.code ≡ 0
        → Served mode opened.old.engine opened.old.texts (S.left script.old) (K.held out.old) (K.held out.new) }
    // Or a first part of it.
    ensures part { ServedPart mode opened.old.engine opened.old.texts (S.left script.old) (K.held out.old) (K.held out.new) }
    ensures sink { result.code ≡ 7 → Rose (K.faults out.old) (K.faults out.new) }
    ensures source { result.code ≡ 6 → Rose (S.faults script.old) (S.faults script.new) }
    ensures long { (result.code ≡ 8) ↔ (S.taken script.new ≡ S.taken script.old + 16777217) }
    // One run reads no script, and writes nothing where memory is wanting.
    ensures script { mode ≡ Mode.Once → script.new ≡ script.old }
    ensures memory { mode ≡ Mode.Once → result.code ≡ 9 → Appended (K.held out.old) (K.held out.new) [] }
    ensures single { mode ≡ Mode.Once → ((result.code ≡ 6) ⊎ (result.code ≡ 8)) → ⊥ }
    // A session reads as it says.
    ensures read { mode ≡ Mode.Session → result.code ≡ 0
        → ReadOut (S.left script.old) (S.left script.new) (S.taken script.old) (S.taken script.new) }
    ensures broken { result.code ≡ 6 → AnsweredWhole (answer_of opened.old.engine opened.old.texts)
        (S.left script.old) (S.left script.new) (K.held out.old) (K.held out.new) }
    ensures much { result.code ≡ 8 → AnsweredLong (answer_of opened.old.engine opened.old.texts)
        (S.left script.old) (S.left script.new) (K.held out.old) (K.held out.new) }
{
    match mode {
        Mode::Once => run_once(rt, alloc, opened, crew, out, gate),
        Mode::Session => run_session(rt, alloc, opened, crew, script, out, gate),
    }
}
