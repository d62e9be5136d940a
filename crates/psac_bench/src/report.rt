// The commits of a bench, and what is written of them.
ghost use Rattle.std.specs.Prelude.{◌≡◌, ◌+◌, ◌<◌, ◌≤◌, IfOk, OnOk, None, fold};
ghost use Rattle.std.specs.List.{range_with_len};
ghost use Rattle.psac_inputs.specs.Batch.{GoesInto};
ghost use Rattle.psac_inputs.specs.Texts.{Texts};
ghost use Rattle.psac_command.specs.Bench.{AreCounts};
ghost use Rattle.psac_report.specs.Report.{bench_commit, counted_commit};
ghost use Rattle.psac_report.specs.Session.{committed};
ghost use Rattle.psac_engine.specs.Commit.{most_commits};
ghost use Rattle.psac_engine.specs.Engine.{caps_in, commits_in, grid_in, kept_in, world_in};
ghost use Rattle.psac_session.specs.State.{state_with};
ghost use Rattle.psac_bench.specs.Served.{report_in};
ghost use Rattle.psac_bench.specs.Totals.{commits_of, sums_of};

use crate::made::stage;
use crate::totals::Totals;
use psac_base::NoMemory;
use psac_command::Counts;
use psac_engine::{Answer, Engine};
use psac_fork::{Crew, Gate};
use psac_inputs::{Batch, Interner};
use psac_script::reply_text;
use psac_session::shown_reply;
use std::alloc::Global;
use std::thread::Threads;

// Commits what is staged, and counts the commit.
fn commit<Rt: Threads + Sync, G: Gate + Sync>(
    rt: &Rt,
    engine: &mut Engine,
    batch: &mut Batch,
    crew: &Crew,
    gate: &G,
    totals: &mut Totals,
) -> Result<(), NoMemory>
    requires goes { GoesInto batch.old (grid_in engine.old) }
    requires few { commits_in engine.old < most_commits }
    requires counted { commits_of totals.old < 4294967295 }
    ensures step { OnOk result ((texts : Texts)
        → counted_commit (sums_of totals.old) (committed (world_in engine.old) (caps_in engine.old) (state_with engine.old batch.old texts))
        ≡ (state_with engine.new batch.new texts, sums_of totals.new)) }
    ensures goes { OnOk result (GoesInto batch.new (grid_in engine.new)) }
    ensures rows { OnOk result (batch.new.rows ≡ batch.old.rows) }
    ensures cols { OnOk result (batch.new.cols ≡ batch.old.cols) }
    ensures counted { OnOk result (commits_of totals.new ≡ commits_of totals.old + 1) }
    ensures commits { commits_in engine.new ≡ commits_in engine.old + 1 }
    ensures world { world_in engine.new ≡ world_in engine.old }
    ensures caps { caps_in engine.new ≡ caps_in engine.old }
{
    match engine.commit(rt, batch, crew, gate) {
        Ok(work) => totals.count(&work),
        Err(Answer::Fault { .. }) => totals.count_failed(),
        Err(Answer::Full { .. }) => totals.count_failed(),
        Err(Answer::NoMemory) => return Err(NoMemory),
    }
    Ok(())
}

// Commits so many batches.
fn commit_batches<Rt: Threads + Sync, G: Gate + Sync>(
    rt: &Rt,
    engine: &mut Engine,
    batch: &mut Batch,
    crew: &Crew,
    gate: &G,
    counts: Counts,
    totals: &mut Totals,
) -> Result<(), NoMemory>
    requires counts { AreCounts counts }
    requires goes { GoesInto batch.old (grid_in engine.old) }
    requires rows { batch.old.rows ≡ counts.cells }
    requires cols { batch.old.cols ≡ 1 }
    requires few { commits_in engine.old ≤ 1 }
    requires counted { commits_of totals.old ≤ 1 }
    ensures steps { OnOk result ((texts : Texts)
        → fold (bench_commit (world_in engine.old) (caps_in engine.old) counts.cells)
        (state_with engine.old batch.old texts, sums_of totals.old) (range_with_len 1 counts.batches)
        ≡ (state_with engine.new batch.new texts, sums_of totals.new)) }
    ensures world { world_in engine.new ≡ world_in engine.old }
    ensures caps { caps_in engine.new ≡ caps_in engine.old }
{
    for i in 0..counts.batches {
        stage(batch, counts.cells, i + 1)?;
        commit(rt, engine, batch, crew, gate, totals)?;
    }
    Ok(())
}

/// Commits the grid as it is and then each batch, and gives what is written of that: the line of the sums, and the outputs.
pub fn report<Rt: Threads + Sync, G: Gate + Sync>(
    rt: &Rt,
    alloc: Global,
    engine: &mut Engine,
    texts: &Interner,
    crew: &Crew,
    gate: &G,
    counts: Counts,
) -> Result<Vec<u8>, NoMemory>
    requires counts { AreCounts counts }
    requires new { commits_in engine.old ≡ 0 }
    requires none { kept_in engine.old ≡ None }
    requires rows { (grid_in engine.old).rows ≡ counts.cells }
    requires cols { (grid_in engine.old).cols ≡ 1 }
    ensures { IfOk result (λ text. text.items ≡ report_in engine.old texts.now counts) }
{
    let mut batch = Batch::new(alloc, engine.grid())?;
    let mut totals = Totals::new();
    commit(rt, engine, &mut batch, crew, gate, &mut totals)?;
    commit_batches(rt, engine, &mut batch, crew, gate, counts, &mut totals)?;
    let mut text = totals.line(alloc, counts)?;
    let reply = shown_reply(engine)?;
    let outputs = reply_text(alloc, &reply, engine.program(), texts)?;
    text.extend_from_slice(&outputs)?;
    Ok(text)
}
