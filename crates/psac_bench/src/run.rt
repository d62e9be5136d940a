// The run of a program that is accepted.
ghost use Rattle.std.specs.Prelude.{◌≡◌, ◌⊎◌, IfOk, []};
ghost use Rattle.psac_base.specs.Causes.{Rose};
ghost use Rattle.psac_base.specs.Outside.{Appended};
ghost use Rattle.psac_command.specs.Asked.{AreCaps, IsIn, workers};
ghost use Rattle.psac_command.specs.Bench.{AreCounts};
ghost use Rattle.psac_command.specs.Views.{bench_view};
ghost use Rattle.psac_bench.specs.Answer.{IsReport};
ghost use Rattle.psac_bench.specs.Made.{HoldsMade, WroteReport, WroteReportPart};

use crate::made::make_grid;
use crate::report::report;
use psac_base::{NoMemory, Sink};
use psac_check::Checked;
use psac_command::BenchRequest;
use psac_engine::Engine;
use psac_fork::{Crew, Gate};
use psac_inputs::Interner;
use psac_open::{NO_MEMORY, Opened, Status, enter_texts, finish};
use std::alloc::Global;
use std::thread::Threads;

// Opens an engine on a program and cells that are made.
fn open_made(
    alloc: Global,
    program: Checked,
    request: &BenchRequest<'_>,
) -> Result<Opened, NoMemory>
    requires counts { AreCounts request.now.counts }
    requires caps { AreCaps request.now.settings.caps }
    ensures { IfOk result (HoldsMade program request.now.counts.cells request.now.settings.rows request.now.settings.caps) }
{
    let mut texts = Interner::new(alloc)?;
    let consts = enter_texts(alloc, program.program().texts.as_slice(), &mut texts)?;
    let grid = make_grid(alloc, request.counts.cells, request.settings.rows)?;
    let engine = Engine::open(alloc, program, consts, grid, request.settings.caps)?;
    Ok(Opened { engine, texts })
}

// What is written of a program.
fn report_text<Rt: Threads + Sync, G: Gate + Sync>(
    rt: &Rt,
    alloc: Global,
    program: Checked,
    request: &BenchRequest<'_>,
    gate: &G,
) -> Result<Vec<u8>, NoMemory>
    requires counts { AreCounts request.now.counts }
    requires caps { AreCaps request.now.settings.caps }
    requires workers { IsIn workers request.now.settings.workers }
    ensures { IfOk result (λ text. IsReport program (bench_view request.now) text.items) }
{
    let mut opened = open_made(alloc, program, request)?;
    let crew = Crew::new(request.settings.workers);
    report(
        rt,
        alloc,
        &mut opened.engine,
        &opened.texts,
        &crew,
        gate,
        request.counts,
    )
}

/// Runs a program that is accepted, and writes the report as one piece.
pub fn run_program<Rt: Threads + Sync, K: Sink, G: Gate + Sync>(
    rt: &Rt,
    alloc: Global,
    program: Checked,
    request: &BenchRequest<'_>,
    out: &mut K,
    gate: &G,
) -> Status
    requires counts { AreCounts request.now.counts }
    requires caps { AreCaps request.now.settings.caps }
    requires workers { IsIn workers request.now.settings.workers }
    ensures status { (result.code ≡ 0) ⊎ (result.code ≡ 7) ⊎ (result.code ≡ 9) }
    ensures whole { result.code ≡ 0 → WroteReport program (bench_view request.now) (K.held out.old) (K.held out.new) }
    ensures part { result.code ≡ 7 → WroteReportPart program (bench_view request.now) (K.held out.old) (K.held out.new) }
    ensures sink { result.code ≡ 7 → Rose (K.faults out.old) (K.faults out.new) }
    ensures memory { result.code ≡ 9 → Appended (K.held out.old) (K.held out.new) [] }
{
    match report_text(rt, alloc, program, request, gate) {
        Ok(text) => finish(out, &text, 0),
        Err(_) => NO_MEMORY,
    }
}
