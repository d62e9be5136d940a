//! A run of a program anew, and what is kept of it.
ghost use Rattle.std.specs.Prelude.{◌≡◌, ℕ, [], ◌+◌, ◌<◌, ◌≤◌, ◌^◌, length, Err, Ok, IsSome};
ghost use Rattle.psac_model.specs.declared.ends.Caps.{Caps};
ghost use Rattle.psac_model.specs.Fresh.{World, nodes_of};
ghost use Rattle.psac_model.specs.Work.{anew_work};
ghost use Rattle.psac_laws.proofs.Opening.{IsChecked};
ghost use Rattle.psac_plain.specs.Opened.{first_output};
ghost use Rattle.psac_record.specs.Kept.{Kept};
ghost use Rattle.psac_engine.specs.Commit.{IsCaps};
ghost use Rattle.psac_engine.specs.Answering.{answer_to};
ghost use Rattle.psac_fork.specs.Whole.{IsOf};
ghost use Rattle.psac_stage.specs.Resting.{IsRested};
ghost use Rattle.psac_engine.specs.Running.{HasRun};
ghost use Rattle.psac_stage.specs.Resting.{MayRun};
ghost use Rattle.psac_engine.specs.Held.{Rises};
ghost use Rattle.psac_engine.specs.Sound.{world_with};

use crate::Answer;
use crate::trace::run_main;
use psac_check::Checked;
use psac_fork::{Crew, Gate, Pass, Tables};
use psac_inputs::Grid;
use psac_model::{Mode, Size, Work, main_of};
use psac_ops::TextId;
use psac_record::Record;
use psac_stage::settle::{cleared, settled};
use psac_syntax::{Func, Program};
use psac_trace::halt::Halt;
use std::alloc::Global;
use std::thread::Threads;

/// The work of a run anew with a record of this size.
fn worked(size: &Size) -> Work
    requires { nodes_of size.now < 2 ^ 32 }
    ensures { result ≡ anew_work size.now }
{
    Work {
        mode: Mode::Anew,
        visited: 0,
        rerun: 0,
        inside: size.r,
        dropped: 0,
        nodes: size.s + size.p + size.r,
        mods: size.mods,
        links: size.links,
    }
}

/// What is answered to a halt.
fn answer_of(halt: Halt) -> Answer
    ensures { result ≡ answer_to halt }
{
    match halt {
        Halt::Fault(kind, line) => Answer::Fault { kind, line },
        Halt::Full(which, _) => Answer::Full { which },
        Halt::NoMemory => Answer::NoMemory,
    }
}

/// Runs the program anew over the grid, on a pass at rest. What it made is given back where it gives no record.
pub fn run_anew<Rt: Threads + Sync, G: Gate + Sync>(
    rt: &Rt,
    alloc: Global,
    crew: &Crew,
    gate: &G,
    tables: &Tables,
    program: &Program,
    main: &Func,
    texts: &[TextId],
    grid: &Grid,
    pass: Pass,
) -> (Result<(Work, Record), Answer>, Pass)
    requires checked { IsChecked (record { program = program.now; texts = texts.now; main = main.now }) }
    requires may { (caps : Caps) × (age : ℕ) × IsCaps caps × (age < 4294967295) × MayRun (length main.now.dests) grid.now caps age tables.now pass }
    requires few { first_output grid.now + length main.now.dests < 4294967295 }
    ensures of { IsOf result.1 tables.now }
    ensures rested { IsRested result.1 }
    ensures run { (caps : Caps) (age : ℕ) → MayRun (length main.now.dests) grid.now caps age tables.now pass
        → HasRun (record { program = program.now; texts = texts.now; main = main.now }) grid.now caps age result.1 result.0 }
    ensures rises { Rises pass.values.knows.claims result.1.values.knows.claims }
{
    // From it the check learns what holds of each grid.
    grid.rows();
    let funcs = program.funcs.as_slice();
    let (told, pass) = run_main(
        rt, alloc, crew, gate, tables, funcs, main, texts, grid, pass,
    );
    let pass = settled(tables, pass);
    match told {
        Ok(record) => {
            let work = worked(&record.size());
            (Ok((work, record)), pass)
        }
        Err(halt) => {
            let pass = cleared(Record::empty(), tables, pass);
            (Err(answer_of(halt)), pass)
        }
    }
}

/// How many outputs a program has.
pub fn outputs_of(program: &Checked) -> u32
    ensures many { result ≡ length (world_with program.now []).main.dests }
    ensures few { result ≤ 24 }
{
    let Some(main) = main_of(program.program()) else {
        unreachable!()
    };
    main.dests.as_slice().len() as u32
}

/// Runs a checked program anew over the grid.
pub fn run_program<Rt: Threads + Sync, G: Gate + Sync>(
    rt: &Rt,
    alloc: Global,
    crew: &Crew,
    gate: &G,
    tables: &Tables,
    program: &Checked,
    texts: &[TextId],
    grid: &Grid,
    pass: Pass,
) -> (Result<(Work, Record), Answer>, Pass)
    requires may { (caps : Caps) × (age : ℕ) × IsCaps caps × (age < 4294967295) × MayRun (length (world_with program.now texts.now).main.dests) grid.now caps age tables.now pass }
    ensures of { IsOf result.1 tables.now }
    ensures rested { IsRested result.1 }
    ensures run { (caps : Caps) (age : ℕ) → MayRun (length (world_with program.now texts.now).main.dests) grid.now caps age tables.now pass
        → HasRun (world_with program.now texts.now) grid.now caps age result.1 result.0 }
    ensures rises { Rises pass.values.knows.claims result.1.values.knows.claims }
{
    // From it the check learns that there are few outputs.
    outputs_of(program);
    grid.rows();
    let program = program.program();
    let Some(main) = main_of(program) else {
        unreachable!()
    };
    run_anew(
        rt, alloc, crew, gate, tables, program, main, texts, grid, pass,
    )
}
