//! A commit, by what is kept.
ghost use Rattle.std.specs.Option.{ForSome};
ghost use Rattle.std.specs.Prelude.{◌≡◌, ℕ, ◌+◌, ◌<◌, option_map, is_some, true, Ok};
ghost use Rattle.psac_fork.specs.Whole.{IsOf};
ghost use Rattle.psac_inputs.specs.Batch.{empty_batch, put_all, GoesInto};
ghost use Rattle.psac_model.specs.declared.ends.Caps.{Caps};
ghost use Rattle.psac_record.specs.declared.record.Record.{Record as Kept};
ghost use Rattle.psac_record.specs.Shown.{kept_of};
ghost use Rattle.psac_repair.specs.Going.{views};
ghost use Rattle.psac_stage.specs.Resting.{IsRested};
ghost use Rattle.psac_engine.specs.Commit.{IsCaps, IsIdle, no_work};
ghost use Rattle.psac_engine.specs.Held.{Ages};
ghost use Rattle.psac_engine.specs.Mending.{Keeps, HasRunFrom};
ghost use Rattle.psac_engine.specs.Repaired.{RepairsTo};
ghost use Rattle.psac_engine.specs.Sound.{world_with};

use crate::Answer;
use crate::anew::{outputs_of, run_program};
use crate::repaired::commit_kept;
use crate::rest::{is_at_rest, work_at_rest};
use psac_check::Checked;
use psac_fork::{Crew, Gate, Pass, Tables};
use psac_inputs::{Batch, Grid};
use psac_model::Work;
use psac_ops::TextId;
use psac_record::Record;
use psac_stage::stage::stage_batch;
use psac_stage::store::staged;
use std::alloc::Global;
use std::thread::Threads;

/// Puts the batch into the grid, and empties it. Then a record that is kept is repaired, if anything is left of the batch, and where
/// there is none the program runs.
pub fn commit_on<Rt: Threads + Sync, G: Gate + Sync>(
    rt: &Rt,
    alloc: Global,
    crew: &Crew,
    gate: &G,
    tables: &Tables,
    program: &Checked,
    texts: &[TextId],
    grid: &mut Grid,
    batch: &mut Batch,
    kept: Option<Record>,
    pass: Pass,
) -> (Result<(Work, Record), Answer>, Pass)
    requires keeps { (caps : Caps) × (age : ℕ) × IsCaps caps × (age + 2 < 4294967295) × Keeps (world_with program.now texts.now) grid.old caps age tables.now kept pass }
    requires goes { GoesInto batch.old grid.old }
    ensures of { IsOf result.1 tables.now }
    ensures rested { IsRested result.1 }
    ensures run { (caps : Caps) (age : ℕ) → IsCaps caps → age + 2 < 4294967295 → Keeps (world_with program.now texts.now) grid.old caps age tables.now kept pass
        → HasRunFrom (world_with program.now texts.now) (option_map (λ (r : Kept). grid.old) kept) grid.new caps (age + 1) result.1 result.0 }
    ensures repairs { (caps : Caps) (age : ℕ) → IsCaps caps → age + 2 < 4294967295
        → Keeps (world_with program.now texts.now) grid.old caps age tables.now kept pass
        → ForSome kept (λ r. RepairsTo (world_with program.now texts.now) grid.new (kept_of r) (views pass) (views result.1)
        result.0) }
    // No generation falls, and where the record that was kept isn't repaired, those of what was out rise.
    ensures ages { Ages pass.values.knows.claims result.1.values.knows.claims result.0 }
    ensures idle { is_some kept ≡ true → IsIdle grid.old batch.old → (r : Kept) × (result.0 ≡ Ok (no_work, r)) }
    ensures grid { grid.new ≡ put_all batch.old grid.old }
    ensures batch { batch.new ≡ empty_batch grid.new }
    ensures goes { GoesInto batch.new grid.new }
{
    // From these the check learns what holds of the program, the grid and the batch.
    program.program();
    grid.rows();
    batch.staged_rows();
    let outs = outputs_of(program);
    match kept {
        Some(record) => {
            if is_at_rest(grid, batch) {
                batch.clear(grid);
                return (Ok((work_at_rest(), record)), pass);
            }
            let pass = stage_batch(tables, pass, grid, batch, outs);
            grid.rows();
            commit_kept(
                rt, alloc, crew, gate, tables, program, texts, grid, record, pass,
            )
        }
        None => {
            let pass = staged(tables, pass, grid, batch, outs);
            run_program(rt, alloc, crew, gate, tables, program, texts, grid, pass)
        }
    }
}
