// One commit over what was loaded.
ghost use Rattle.std.specs.Prelude.{◌≡◌, ◌<◌, IfOk};
ghost use Rattle.psac_inputs.specs.Texts.{Texts};
ghost use Rattle.psac_model.specs.Fresh.{outcome};
ghost use Rattle.psac_report.specs.Report.{once_report, outcome_text};
ghost use Rattle.psac_report.specs.Session.{reply_text};
ghost use Rattle.psac_script.specs.Replies.{reply_view};
ghost use Rattle.psac_engine.specs.Commit.{most_commits};
ghost use Rattle.psac_engine.specs.Engine.{caps_in, commits_in, grid_in, world_in};

use crate::show::shown_reply;
use psac_base::NoMemory;
use psac_engine::{Answer, Engine};
use psac_fork::{Crew, Gate};
use psac_inputs::{Batch, Interner};
use psac_script::{Reply, reply_text};
use std::alloc::Global;
use std::thread::Threads;

// The outputs after a commit of nothing, or why there are none.
fn first_reply<Rt: Threads + Sync, G: Gate + Sync>(
    rt: &Rt,
    alloc: Global,
    engine: &mut Engine,
    crew: &Crew,
    gate: &G,
) -> Result<Reply, NoMemory>
    requires { commits_in engine.old < most_commits }
    ensures world { world_in engine.new ≡ world_in engine.old }
    ensures told { IfOk result (λ reply. (texts : Texts) → reply_text (world_in engine.old) texts (reply_view reply)
        ≡ outcome_text (world_in engine.old) texts (outcome (world_in engine.old) (caps_in engine.old) (grid_in engine.old))) }
{
    let mut batch = Batch::new(alloc, engine.grid())?;
    match engine.commit(rt, &mut batch, crew, gate) {
        Ok(_) => shown_reply(engine),
        Err(Answer::Fault { kind, line }) => Ok(Reply::Faulted(kind, line)),
        Err(Answer::Full { .. }) => Ok(Reply::Full),
        Err(Answer::NoMemory) => Err(NoMemory),
    }
}

/// Commits once, and gives what is written of it: the outputs, or the line of the fault, or that the record would be too
/// large.
pub fn once<Rt: Threads + Sync, G: Gate + Sync>(
    rt: &Rt,
    alloc: Global,
    engine: &mut Engine,
    texts: &Interner,
    crew: &Crew,
    gate: &G,
) -> Result<Vec<u8>, NoMemory>
    requires { commits_in engine.old < most_commits }
    ensures { IfOk result (λ text. text.items ≡ once_report (world_in engine.old) (caps_in engine.old) (grid_in engine.old) texts.now) }
{
    let reply = first_reply(rt, alloc, engine, crew, gate)?;
    reply_text(alloc, &reply, engine.program(), texts)
}
