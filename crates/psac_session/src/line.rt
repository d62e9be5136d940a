// One line of a script: what it does, who hears of it, and its reply.
ghost use Rattle.std.specs.Prelude.{◌≡◌, ◌≤◌, ◌+◌, ◌<◌, true, IfSome, OnOk, OnErr};
ghost use Rattle.psac_base.specs.Causes.{Rose};
ghost use Rattle.psac_inputs.specs.Batch.{GoesInto};
ghost use Rattle.psac_report.specs.Steps.{is_quit};
ghost use Rattle.psac_report.specs.Session.{step_of};
ghost use Rattle.psac_engine.specs.Commit.{most_commits};
ghost use Rattle.psac_engine.specs.Engine.{caps_in, commits_in, grid_in, kept_in, world_in};
ghost use Rattle.psac_engine.specs.Held.{HandlesGo, nothing_dropped};
ghost use Rattle.psac_session.specs.Heard.{HasRoom, Heard, IsNext, heard_where, shown_in};
ghost use Rattle.psac_session.specs.Handles.{AreHeld, state_in};
ghost use Rattle.psac_session.specs.Turned.{BrokeOff, IsExpected, TookLine};

use crate::desk::{Carried, Desk};
use crate::listener::Listener;
use psac_base::{NoMemory, Sink, write_whole};
use psac_engine::Engine;
use psac_fork::{Crew, Gate};
use psac_inputs::Interner;
use std::alloc::Global;
use std::thread::Threads;

/// What a line came to, and its reply.
#[derive(Drop)]
pub enum Turn {
    /// The reply was written.
    On,
    /// The line ends the script.
    Quit,
    SinkFailed,
    NoMemory,
}

// Lets the listener hear of a commit.
fn hear_where<Rt, L: Listener<Rt>>(
    rt: &Rt,
    engine: &mut Engine,
    listener: &mut L,
    commits: bool,
) -> Result<(), NoMemory>
    requires room { HasRoom (L.heard listener.old) }
    requires expected { commits ≡ true → IfSome (L.course listener.old) (λ told. IsNext told (L.heard listener.old) (shown_in engine.old)) }
    ensures heard { OnOk result (Heard (L.heard listener.old) (L.heard listener.new) (heard_where commits (shown_in engine.old))) }
    ensures refused { OnErr result (L.heard listener.new ≡ L.heard listener.old) }
    ensures course { L.course listener.new ≡ L.course listener.old }
    ensures handles { HandlesGo engine.old engine.new nothing_dropped }
    ensures kept { kept_in engine.new ≡ kept_in engine.old }
    ensures grid { grid_in engine.new ≡ grid_in engine.old }
    ensures commits { commits_in engine.new ≡ commits_in engine.old }
    ensures world { world_in engine.new ≡ world_in engine.old }
    ensures caps { caps_in engine.new ≡ caps_in engine.old }
{
    if !commits {
        return Ok(());
    }
    listener.hear(rt, engine)
}

/// Carries out a line. Where it is a commit the listener hears of it, and then the reply is written.
pub fn take_line<Rt: Threads + Sync, K: Sink, G: Gate + Sync, L: Listener<Rt>>(
    rt: &Rt,
    alloc: Global,
    engine: &mut Engine,
    texts: &mut Interner,
    crew: &Crew,
    desk: &mut Desk,
    line: &[u8],
    listener: &mut L,
    out: &mut K,
    gate: &G,
) -> Turn
    requires goes { GoesInto desk.old.batch (grid_in engine.old) }
    requires few { commits_in engine.old < most_commits }
    requires held { AreHeld engine.old desk.old.places.held }
    requires room { HasRoom (L.heard listener.old) }
    requires expected { IsExpected (world_in engine.old) (step_of (world_in engine.old) (caps_in engine.old)) (state_in engine.old desk.old texts.old)
        line.now (L.course listener.old) (L.heard listener.old) }
    ensures on { result ≡ Turn.On → TookLine (world_in engine.old) (step_of (world_in engine.old) (caps_in engine.old))
        (state_in engine.old desk.old texts.old) (state_in engine.new desk.new texts.new) line.now
        (K.held out.old, L.heard listener.old) (K.held out.new, L.heard listener.new) }
    ensures quit { result ≡ Turn.Quit → (is_quit line.now ≡ true) × (K.held out.new ≡ K.held out.old) × (L.heard listener.new ≡ L.heard listener.old) }
    ensures part { result ≡ Turn.SinkFailed → BrokeOff (world_in engine.old) (step_of (world_in engine.old) (caps_in engine.old))
        (state_in engine.old desk.old texts.old) line.now
        (K.held out.old, L.heard listener.old) (K.held out.new, L.heard listener.new) }
    ensures memory { result ≡ Turn.NoMemory → (K.held out.new ≡ K.held out.old) × (L.heard listener.new ≡ L.heard listener.old) }
    ensures sink { result ≡ Turn.SinkFailed → Rose (K.faults out.old) (K.faults out.new) }
    ensures later { K.faults out.old ≤ K.faults out.new }
    ensures goes { result ≡ Turn.On → GoesInto desk.new.batch (grid_in engine.new) }
    ensures held { result ≡ Turn.On → AreHeld engine.new desk.new.places.held }
    ensures commits { commits_in engine.new ≤ commits_in engine.old + 1 }
    ensures course { L.course listener.new ≡ L.course listener.old }
    ensures world { world_in engine.new ≡ world_in engine.old }
    ensures caps { caps_in engine.new ≡ caps_in engine.old }
{
    let (text, commits) = match desk.one_line(rt, alloc, engine, texts, crew, line, gate) {
        Ok(Carried::Reply { text, commits }) => (text, commits),
        Ok(Carried::Quit) => return Turn::Quit,
        Err(_) => return Turn::NoMemory,
    };
    if hear_where(rt, engine, listener, commits).is_err() {
        return Turn::NoMemory;
    }
    engine.handles();
    match write_whole(out, &text) {
        Ok(()) => Turn::On,
        Err(_) => Turn::SinkFailed,
    }
}
