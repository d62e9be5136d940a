// The loop over the lines of a script.
ghost use Rattle.std.specs.Prelude.{◌≡◌, ◌+◌, ◌≤◌, ◌<◌, ◌↔◌, IfSome, length};
ghost use Rattle.psac_base.specs.Causes.{Rose};
ghost use Rattle.psac_engine.specs.Engine.{commits_in};
ghost use Rattle.psac_session.specs.Answered.{Answered, AnsweredPart, AnsweredWhole, AnsweredLong, ReadOut, answer_of, most_opened};
ghost use Rattle.psac_session.specs.Attended.{Attended, AttendedPart, Foretold, hearing_of};

use crate::SessionEnd;
use crate::desk::Desk;
use crate::line::{Turn, take_line};
use crate::listener::{Listener, Nobody};
use psac_base::{LineFault, Lines, Sink, Source};
use psac_engine::Engine;
use psac_fork::{Crew, Gate};
use psac_inputs::Interner;
use std::alloc::Global;
use std::thread::Threads;

/// Carries out a script, line by line, up to `quit` or its end. The listener hears of each commit, and then the reply is
/// written. A reply that isn't empty is written as one piece, before the next line is read.
pub fn session_with<Rt: Threads + Sync, S: Source, K: Sink, G: Gate + Sync, L: Listener<Rt>>(
    rt: &Rt,
    alloc: Global,
    engine: &mut Engine,
    texts: &mut Interner,
    crew: &Crew,
    script: &mut S,
    out: &mut K,
    gate: &G,
    listener: &mut L,
) -> SessionEnd
    requires few { commits_in engine.old < most_opened }
    requires room { IfSome (L.heard listener.old) (λ seen. length seen < most_opened) }
    // Where it is told what the listener is to hear, that is what it hears of the script, which is told too.
    requires course { IfSome (L.course listener.old) (Foretold (hearing_of engine.old texts.old) (S.left script.old) (L.heard listener.old)) }
    // The whole report was written, all commits of that script were heard, and it was read to its end or to `quit`.
    ensures done { result ≡ SessionEnd.Done → Attended (answer_of engine.old texts.old) (hearing_of engine.old texts.old) (S.left script.old)
        (K.held out.old, L.heard listener.old) (K.held out.new, L.heard listener.new) }
    ensures read { result ≡ SessionEnd.Done
        → ReadOut (S.left script.old) (S.left script.new) (S.taken script.old) (S.taken script.new) }
    // However it ends, a first part of the report was written, and the first commits were heard.
    ensures part { AttendedPart (answer_of engine.old texts.old) (hearing_of engine.old texts.old) (S.left script.old)
        (K.held out.old, L.heard listener.old) (K.held out.new, L.heard listener.new) }
    // A read failed. The whole lines of what was read were answered, and none of them is `quit`.
    ensures source { result ≡ SessionEnd.SourceFailed → Rose (S.faults script.old) (S.faults script.new) }
    ensures broken { result ≡ SessionEnd.SourceFailed
        → AnsweredWhole (answer_of engine.old texts.old) (S.left script.old) (S.left script.new) (K.held out.old) (K.held out.new) }
    // A write failed. The count of such faults never falls.
    ensures sink { result ≡ SessionEnd.SinkFailed → Rose (K.faults out.old) (K.faults out.new) }
    ensures later { K.faults out.old ≤ K.faults out.new }
    // Too much was read, exactly there. At least the lines that end before the last piece were answered, and none of
    // those that were is `quit`.
    ensures long { (result ≡ SessionEnd.TooLong) ↔ (S.taken script.new ≡ S.taken script.old + 16777217) }
    ensures much { result ≡ SessionEnd.TooLong
        → AnsweredLong (answer_of engine.old texts.old) (S.left script.old) (S.left script.new) (K.held out.old) (K.held out.new) }
{
    let Ok(mut lines) = Lines::new(alloc) else {
        return SessionEnd::NoMemory;
    };
    let Ok(mut desk) = Desk::new(alloc, engine) else {
        return SessionEnd::NoMemory;
    };
    let mut line = Vec::new(alloc);
    'turns: loop {
        match lines.next_line(script, &mut line) {
            Ok(true) => match take_line(
                rt, alloc, engine, texts, crew, &mut desk, &line, listener, out, gate,
            ) {
                Turn::On => {}
                Turn::Quit => return SessionEnd::Done,
                Turn::SinkFailed => return SessionEnd::SinkFailed,
                Turn::NoMemory => return SessionEnd::NoMemory,
            },
            Ok(false) => return SessionEnd::Done,
            Err(LineFault::Failed) => return SessionEnd::SourceFailed,
            Err(LineFault::TooLong) => return SessionEnd::TooLong,
            Err(LineFault::NoMemory) => return SessionEnd::NoMemory,
        }
    }
}

/// Carries out a script, line by line, up to `quit` or its end. A reply that isn't empty is written as one piece,
/// before the next line is read. Nobody hears of it.
pub fn session<Rt: Threads + Sync, S: Source, K: Sink, G: Gate + Sync>(
    rt: &Rt,
    alloc: Global,
    engine: &mut Engine,
    texts: &mut Interner,
    crew: &Crew,
    script: &mut S,
    out: &mut K,
    gate: &G,
) -> SessionEnd
    requires { commits_in engine.old < most_opened }
    // The whole report was written, and the script was read to its end or to `quit`.
    ensures done { result ≡ SessionEnd.Done
        → Answered (answer_of engine.old texts.old) (S.left script.old) (K.held out.old) (K.held out.new) }
    ensures read { result ≡ SessionEnd.Done
        → ReadOut (S.left script.old) (S.left script.new) (S.taken script.old) (S.taken script.new) }
    // However it ends, a first part of the report was written.
    ensures part { AnsweredPart (answer_of engine.old texts.old) (S.left script.old) (K.held out.old) (K.held out.new) }
    // A read failed. The whole lines of what was read were answered, and none of them is `quit`.
    ensures source { result ≡ SessionEnd.SourceFailed → Rose (S.faults script.old) (S.faults script.new) }
    ensures broken { result ≡ SessionEnd.SourceFailed
        → AnsweredWhole (answer_of engine.old texts.old) (S.left script.old) (S.left script.new) (K.held out.old) (K.held out.new) }
    // A write failed.
    ensures sink { result ≡ SessionEnd.SinkFailed → Rose (K.faults out.old) (K.faults out.new) }
    // Too much was read, exactly there. At least the lines that end before the last piece were answered, and none of
    // those that were is `quit`.
    ensures long { (result ≡ SessionEnd.TooLong) ↔ (S.taken script.new ≡ S.taken script.old + 16777217) }
    ensures much { result ≡ SessionEnd.TooLong
        → AnsweredLong (answer_of engine.old texts.old) (S.left script.old) (S.left script.new) (K.held out.old) (K.held out.new) }
{
    session_with(
        rt,
        alloc,
        engine,
        texts,
        crew,
        script,
        out,
        gate,
        &mut Nobody,
    )
}
