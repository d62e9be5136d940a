// One run, whose record is written.
ghost use Rattle.std.specs.Prelude.{◌≡◌, ◌⊎◌, is_some, true};
ghost use Rattle.psac_base.specs.Causes.{Rose};
ghost use Rattle.psac_base.specs.Outside.{Appended, AppendedPart};
ghost use Rattle.psac_report.specs.Dump.{dump_report};
ghost use Rattle.psac_engine.specs.Engine.{caps_in, commits_in, grid_in, kept_in, world_in};

use crate::reply::write_reply;
use psac_base::Sink;
use psac_cert::{DumpFault, dump};
use psac_engine::{Answer, Engine};
use psac_fork::{Crew, Gate};
use psac_inputs::{Batch, Interner};
use psac_open::{NO_MEMORY, Opened, Status};
use psac_script::Reply;
use std::alloc::Global;
use std::thread::Threads;

// Writes the record that an engine keeps.
fn write_record<K: Sink>(alloc: Global, engine: &Engine, texts: &Interner, out: &mut K) -> Status
    requires { is_some (kept_in engine.now) ≡ true }
    ensures status { (result.code ≡ 0) ⊎ (result.code ≡ 7) ⊎ (result.code ≡ 9) }
    ensures whole { result.code ≡ 0 → Appended (K.held out.old) (K.held out.new)
        (dump_report (world_in engine.now) (caps_in engine.now) (grid_in engine.now) texts.now) }
    ensures part { (result.code ≡ 7) ⊎ (result.code ≡ 9) → AppendedPart (K.held out.old) (K.held out.new)
        (dump_report (world_in engine.now) (caps_in engine.now) (grid_in engine.now) texts.now) }
    ensures sink { result.code ≡ 7 → Rose (K.faults out.old) (K.faults out.new) }
{
    let Some(tree) = engine.record() else {
        unreachable!()
    };
    let grid = engine.grid();
    let program = engine.program();
    match dump(alloc, tree, program, grid, texts, out) {
        Ok(()) => Status { code: 0 },
        Err(DumpFault::SinkFailed) => Status { code: 7 },
        Err(DumpFault::NoMemory) => NO_MEMORY,
    }
}

/// Commits once, and writes the record; or the line of the fault, or that the record would be too large.
pub fn run_dump<Rt: Threads + Sync, K: Sink, G: Gate + Sync>(
    rt: &Rt,
    alloc: Global,
    opened: &mut Opened,
    crew: &Crew,
    out: &mut K,
    gate: &G,
) -> Status
    requires { commits_in opened.old.engine ≡ 0 }
    ensures status { (result.code ≡ 0) ⊎ (result.code ≡ 7) ⊎ (result.code ≡ 9) }
    ensures whole { result.code ≡ 0 → Appended (K.held out.old) (K.held out.new)
        (dump_report (world_in opened.old.engine) (caps_in opened.old.engine) (grid_in opened.old.engine)
        opened.old.texts) }
    ensures part { (result.code ≡ 7) ⊎ (result.code ≡ 9) → AppendedPart (K.held out.old) (K.held out.new)
        (dump_report (world_in opened.old.engine) (caps_in opened.old.engine) (grid_in opened.old.engine)
        opened.old.texts) }
    ensures sink { result.code ≡ 7 → Rose (K.faults out.old) (K.faults out.new) }
{
    let Ok(mut batch) = Batch::new(alloc, opened.engine.grid()) else {
        return NO_MEMORY;
    };
    match opened.engine.commit(rt, &mut batch, crew, gate) {
        Ok(_) => write_record(alloc, &opened.engine, &opened.texts, out),
        Err(Answer::Fault { kind, line }) => {
            let reply = Reply::Faulted(kind, line);
            write_reply(alloc, &opened.engine, &opened.texts, &reply, out)
        }
        Err(Answer::Full { .. }) => {
            write_reply(alloc, &opened.engine, &opened.texts, &Reply::Full, out)
        }
        Err(Answer::NoMemory) => NO_MEMORY,
    }
}
