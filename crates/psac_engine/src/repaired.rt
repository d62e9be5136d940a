//! A commit that finds a record kept: it is repaired, and what it dropped goes back.
ghost use Rattle.std.specs.Prelude.{◌≡◌, ℕ, ◌+◌, ◌<◌, None, Some, Err, IfOk};
ghost use Rattle.psac_fork.specs.Whole.{IsOf};
ghost use Rattle.psac_inputs.specs.Grid.{Grid, IsGrid};
ghost use Rattle.psac_model.specs.declared.ends.Caps.{Caps};
ghost use Rattle.psac_model.specs.declared.ends.Mode.TheVariants as mode;
ghost use Rattle.psac_model.specs.Fresh.{World as Whole};
ghost use Rattle.psac_record.specs.Kept.{Kept};
ghost use Rattle.psac_record.specs.Shown.{kept_of};
ghost use Rattle.psac_repair.specs.Going.{views};
ghost use Rattle.psac_stage.specs.Resting.{IsRested, MayRun};
ghost use Rattle.psac_engine.specs.Commit.{IsCaps};
ghost use Rattle.psac_engine.specs.Held.{Ages, Rises};
ghost use Rattle.psac_engine.specs.Mending.{Staged, Came, Finished, HasRunFrom};
ghost use Rattle.psac_engine.specs.Repaired.{RepairsTo};
ghost use Rattle.psac_engine.specs.Sound.{world_with};

use crate::Answer;
use crate::anew::run_program;
use crate::trace::ground;
use psac_check::Checked;
use psac_fork::{Crew, Gate, Pass, Tables};
use psac_inputs::Grid;
use psac_model::{Work, main_of};
use psac_ops::TextId;
use psac_reclaim::{reclaim, reset};
use psac_record::Record;
use psac_repair::blocks::blocks_of;
use psac_repair::mend::repair;
use psac_repair::outcome::{Outcome, Stop};
use psac_repair::world::World;
use psac_stage::settle::{cleared, settled};
use psac_trace::halt::Halt;
use std::alloc::Global;
use std::thread::Threads;

/// Repairs the record over the grid.
fn repaired<Rt: Threads + Sync, G: Gate + Sync>(
    rt: &Rt,
    alloc: Global,
    crew: &Crew,
    gate: &G,
    tables: &Tables,
    program: &Checked,
    texts: &[TextId],
    grid: &Grid,
    tree: Record,
    pass: Pass,
) -> (Outcome, Pass)
    requires { (g : Grid) × (caps : Caps) × (age : ℕ) × Staged (world_with program.now texts.now) g grid.now caps age tables.now (kept_of tree) pass }
    ensures { (g : Grid) (caps : Caps) (age : ℕ) → Staged (world_with program.now texts.now) g grid.now caps age tables.now (kept_of tree) pass
        → Came (world_with program.now texts.now) grid.now tables.now (kept_of tree) pass result.1 result.0 }
{
    let program = program.program();
    let Some(main) = main_of(program) else {
        unreachable!()
    };
    let funcs = program.funcs.as_slice();
    let Ok(blocks) = blocks_of(alloc, funcs) else {
        return (Outcome::no_memory(tree), pass);
    };
    let world = World {
        crew,
        tables,
        ground: ground(grid, main.dests.as_slice().len() as u32),
        texts,
        funcs,
        main: main.body.as_slice(),
        blocks: blocks.as_slice(),
    };
    repair(rt, alloc, &world, gate, tree, pass)
}

/// Settles the tables after a repair. Where it is done what it dropped goes back, and else all that was made.
fn finished(tables: &Tables, outcome: Outcome, pass: Pass) -> (Result<(Work, Record), Stop>, Pass)
    requires { (w : Whole) × (g : Grid) × (h : Grid) × (caps : Caps) × (age : ℕ) × (k : Kept) × (p : Pass) × (age < 4294967295) × Staged w g h caps age tables.now k p × Came w h tables.now k p pass outcome }
    ensures ends { (w : Whole) (g h : Grid) (caps : Caps) (age : ℕ) (k : Kept) (p : Pass) → Staged w g h caps age tables.now k p → Came w h tables.now k p pass outcome
        → Finished w g h caps (age + 1) tables.now result.1 result.0 }
    ensures repairs { (w : Whole) (g h : Grid) (caps : Caps) (age : ℕ) (k : Kept) (p : Pass)
        → Staged w g h caps age tables.now k p → Came w h tables.now k p pass outcome
        → RepairsTo w h k (views p) (views result.1) result.0 }
    ensures ages { (w : Whole) (g h : Grid) (caps : Caps) (age : ℕ) (k : Kept) (p : Pass)
        → Staged w g h caps age tables.now k p → Came w h tables.now k p pass outcome
        → Ages p.values.knows.claims result.1.values.knows.claims result.0 }
{
    let pass = settled(tables, pass);
    let Outcome {
        tree,
        dropped,
        told,
    } = outcome;
    match told {
        Ok(tally) => {
            let pass = reclaim(&tree, dropped, tables, pass);
            (Ok((tally.work(), tree)), pass)
        }
        Err(stop) => (Err(stop), reset(tree, dropped, tables, pass)),
    }
}

/// Runs anew only to tell whether a table fills up, after a repair that met a fault and couldn't go on. There is no record.
fn told_anew(
    told: Result<(Work, Record), Answer>,
    tables: &Tables,
    pass: Pass,
) -> (Result<(Work, Record), Answer>, Pass)
    requires run { (w : Whole) × (h : Grid) × (caps : Caps) × (age : ℕ) × IsOf pass tables.now × IsRested pass × (age + 1 < 4294967295) × HasRunFrom w None h caps age pass told }
    ensures of { IsOf result.1 tables.now }
    ensures rested { IsRested result.1 }
    ensures run { (w : Whole) (g h : Grid) (caps : Caps) (age : ℕ) → IsGrid h → HasRunFrom w None h caps age pass told → HasRunFrom w (Some g) h caps age result.1 result.0 }
    ensures anew { IfOk result.0 (λ kept. kept.0.mode ≡ mode.Anew) }
    ensures rises { Rises pass.values.knows.claims result.1.values.knows.claims }
{
    match told {
        // A run that meets a fault keeps no record, so this isn't come to.
        Ok((_, record)) => (Err(Answer::NoMemory), cleared(record, tables, pass)),
        Err(answer) => (Err(answer), pass),
    }
}

/// What is answered where a repair stopped. Where a table filled up the program runs anew.
fn after_stop<Rt: Threads + Sync, G: Gate + Sync>(
    rt: &Rt,
    alloc: Global,
    crew: &Crew,
    gate: &G,
    tables: &Tables,
    program: &Checked,
    texts: &[TextId],
    grid: &Grid,
    stop: Stop,
    pass: Pass,
) -> (Result<(Work, Record), Answer>, Pass)
    requires { (g : Grid) × (caps : Caps) × (age : ℕ) × IsCaps caps × (age + 1 < 4294967295) × Finished (world_with program.now texts.now) g grid.now caps age tables.now pass (Err stop) }
    ensures of { IsOf result.1 tables.now }
    ensures rested { IsRested result.1 }
    ensures run { (g : Grid) (caps : Caps) (age : ℕ) → Finished (world_with program.now texts.now) g grid.now caps age tables.now pass (Err stop)
        → HasRunFrom (world_with program.now texts.now) (Some g) grid.now caps age result.1 result.0 }
    ensures anew { IfOk result.0 (λ kept. kept.0.mode ≡ mode.Anew) }
    ensures rises { Rises pass.values.knows.claims result.1.values.knows.claims }
{
    // From it the check learns what holds of the grid.
    grid.rows();
    let halt = match stop {
        Stop::Halt(halt) => halt,
        Stop::Unsettled => {
            let (told, pass) = run_program(
                rt, alloc, crew, gate, tables, program, texts, grid, pass,
            );
            return told_anew(told, tables, pass);
        }
    };
    match halt {
        Halt::Fault(kind, line) => (Err(Answer::Fault { kind, line }), pass),
        Halt::Full(..) => run_program(rt, alloc, crew, gate, tables, program, texts, grid, pass),
        Halt::NoMemory => (Err(Answer::NoMemory), pass),
    }
}

/// Repairs a record over the grid. Where a table fills up meanwhile, the program runs anew.
pub fn commit_kept<Rt: Threads + Sync, G: Gate + Sync>(
    rt: &Rt,
    alloc: Global,
    crew: &Crew,
    gate: &G,
    tables: &Tables,
    program: &Checked,
    texts: &[TextId],
    grid: &Grid,
    tree: Record,
    pass: Pass,
) -> (Result<(Work, Record), Answer>, Pass)
    requires { (g : Grid) × (caps : Caps) × (age : ℕ) × (age + 2 < 4294967295) × Staged (world_with program.now texts.now) g grid.now caps age tables.now (kept_of tree) pass }
    ensures of { IsOf result.1 tables.now }
    ensures rested { IsRested result.1 }
    ensures run { (g : Grid) (caps : Caps) (age : ℕ) → Staged (world_with program.now texts.now) g grid.now caps age tables.now (kept_of tree) pass
        → HasRunFrom (world_with program.now texts.now) (Some g) grid.now caps (age + 1) result.1 result.0 }
    ensures repairs { (g : Grid) (caps : Caps) (age : ℕ)
        → Staged (world_with program.now texts.now) g grid.now caps age tables.now (kept_of tree) pass
        → RepairsTo (world_with program.now texts.now) grid.now (kept_of tree) (views pass) (views result.1) result.0 }
    ensures ages { Ages pass.values.knows.claims result.1.values.knows.claims result.0 }
{
    let (outcome, pass) = repaired(
        rt, alloc, crew, gate, tables, program, texts, grid, tree, pass,
    );
    let (told, pass) = finished(tables, outcome, pass);
    match told {
        Ok(kept) => (Ok(kept), pass),
        Err(stop) => after_stop(
            rt, alloc, crew, gate, tables, program, texts, grid, stop, pass,
        ),
    }
}
