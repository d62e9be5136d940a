// An engine, and its commits.
ghost use Rattle.std.specs.Prelude.{◌≡◌, ◌+◌, ◌*◌, [], true, false, is_some, length, option_map, IsSome};
ghost use Rattle.std.specs.Option.{ForSome};
ghost use Rattle.psac_inputs.specs.Batch.{empty_batch, put_all, GoesInto};
ghost use Rattle.psac_model.specs.declared.ends.End.TheVariants.{Done};
ghost use Rattle.psac_model.specs.Fresh.{fresh, main_of};
ghost use Rattle.psac_fork.specs.Whole.{IsOf};
ghost use Rattle.psac_record.specs.Shown.{kept_of, rec_of};
ghost use Rattle.psac_engine.specs.Commit.{IsCaps};
ghost use Rattle.psac_stage.specs.Places.{fixed_slots};
ghost use Rattle.psac_stage.specs.Recorded.{Recorded};
ghost use Rattle.psac_stage.specs.Resting.{HasAll, IsRested, IsCleared};
ghost use Rattle.psac_engine.specs.Running.{Shows};
ghost use Rattle.psac_engine.specs.Outputs.{HasOutputs};
ghost use Rattle.psac_engine.specs.Sound.{fresh_over, world_with};

use crate::Answer;
use crate::anew::outputs_of;
use crate::commit::commit_on;
use crate::held::{Held, look_at};
use crate::show::show_slots;
use psac_base::NoMemory;
use psac_check::Checked;
use psac_fork::{Crew, Gate, Pass, Tables};
use psac_inputs::{Batch, Grid};
use psac_model::{Caps, Shown, Size, Work};
use psac_ops::{Handle, TextId};
use psac_record::Record;
use psac_stage::store::put_grid;
use psac_syntax::Program;
use std::alloc::Global;
use std::thread::Threads;

/// A program over a grid, the shared tables that its runs use, and the record of the run of the present grid.
#[derive(Drop)]
pub struct Engine {
    alloc: Global,
    program: Checked,
    consts: Vec<TextId>,
    caps: Caps,
    grid: Grid,
    tables: Tables,
    // The pass of all that the tables have, but while a commit runs.
    pass: Option<Pass>,
    // The record of the run of the present grid, where the last commit kept it.
    kept: Option<Record>,
    commits: u64,
    ghost main: { IsSome (main_of program) },
    ghost texts: { length consts.items ≡ length program.texts },
    ghost within: { IsCaps caps },
    ghost here: { is_some pass ≡ true },
    ghost held: { ForSome pass (λ p. IsOf p tables) },
    ghost all: { ForSome pass (λ p. HasAll grid (length (world_with program consts.items).main.dests) caps (1 + 2 * commits) p) },
    ghost rested: { ForSome pass IsRested },
    ghost cleared: { ForSome pass (λ p. is_some kept ≡ false → IsCleared (fixed_slots grid (length (world_with program consts.items).main.dests)) p) },
    ghost outputs: { ForSome pass (λ p. is_some kept ≡ true → HasOutputs (world_with program consts.items) grid p.values.knows) },
    ghost small: { is_some kept ≡ true → fresh_over (world_with program consts.items) grid caps ≡ [] },
    ghost done: { is_some kept ≡ true → (fresh (world_with program consts.items) grid).end ≡ Done },
    ghost stands: { ForSome pass (λ p. ForSome kept (λ r. ∥ Recorded (world_with program consts.items) grid (kept_of r) p.values.knows p.readers.knows p.marks.knows ∥₁)) },
    ghost shows: { ForSome kept (λ r. ∥ Shows (world_with program consts.items) grid caps (rec_of r) ∥₁) },
}

impl Engine {
    ghost use Rattle.std.specs.Prelude.{◌+◌, ◌<◌, IfOk, IfSome, Some, Ok};
    ghost use Rattle.psac_model.specs.Names.{Name, Out};
    ghost use Rattle.psac_model.specs.declared.ends.Mode.TheVariants as mode;
    ghost use Rattle.psac_model.specs.Tree.{size_of};
    ghost use Rattle.psac_model.specs.Fresh.{outcome, world_of};
    ghost use Rattle.psac_model.specs.Outputs.{outputs_from};
    ghost use Rattle.psac_engine.specs.Commit.{Answers, IsIdle, kept_after, most_commits, no_work};
    ghost use Rattle.psac_engine.specs.Engine.{IsOpened, IsSettled, caps_in, commits_in, grid_in, kept_in, world_in};
    ghost use Rattle.psac_engine.specs.Repairing.{IsRepaired};
    ghost use Rattle.psac_engine.specs.declared.held.Held.TheVariants as told;
    ghost use Rattle.psac_engine.specs.Held.{AreNamed, Names, Tells, IsOutlived, HandlesGo, drops, nothing_dropped};

    /// An engine in which nothing has run. The texts are those of the program, in its order.
    pub fn open(
        alloc: Global,
        program: Checked,
        consts: Vec<TextId>,
        grid: Grid,
        caps: Caps,
    ) -> Result<Engine, NoMemory>
        requires texts { length consts.items ≡ length program.texts }
        requires caps { IsCaps caps }
        ensures world { IfOk result (λ e. world_of program consts.items ≡ Some (world_in e)) }
        ensures opened { IfOk result (IsOpened caps grid) }
    {
        program.program();
        let outs = outputs_of(&program);
        let fixed = grid.room() * grid.cols() + outs + 1;
        let (tables, mut pass) = Tables::new(alloc, fixed, caps)?;
        put_grid(&tables.values, &mut pass.values, &grid, outs);
        Ok(Engine {
            alloc,
            program,
            consts,
            caps,
            grid,
            tables,
            pass: Some(pass),
            kept: None,
            commits: 0,
        })
    }

    /// Puts the batch into the grid, and empties it; the grid has the batch whatever is answered. Where a run is kept its record is
    /// repaired: the outermost read blocks that read other values than are there now run again, and all else of the record is kept.
    /// Where none is kept, or a table fills up meanwhile, the program runs anew over the grid. With an error no run is kept.
    pub fn commit<Rt: Threads + Sync, G: Gate + Sync>(
        &mut self,
        rt: &Rt,
        batch: &mut Batch,
        crew: &Crew,
        gate: &G,
    ) -> Result<Work, Answer>
        requires goes { GoesInto batch.old (grid_in self.old) }
        requires few { commits_in self.old < most_commits }
        ensures grid { grid_in self.new ≡ put_all batch.old (grid_in self.old) }
        ensures answer { Answers (caps_in self.old) (kept_in self.old) (outcome (world_in self.old) (caps_in self.old) (grid_in self.new)) result }
        ensures kept { kept_in self.new ≡ kept_after (world_in self.old) (grid_in self.new) result }
        // A commit that says that it repaired the record did so: all of it is kept that isn't inside a block that ran
        // again. Beside what the runs looked at it looked at what these blocks and those round them read alone, and it
        // asked for marks at the nodes alone that it says that it visited, and right below them.
        ensures repaired { IfOk result (λ work. work.mode ≡ mode.Repair → IsRepaired self.old self.new work) }
        // A handle of what was made is of the same name afterwards. Where that was dropped, it is of no modifiable ever again.
        ensures handles { HandlesGo self.old self.new (drops (kept_in self.old) (kept_in self.new) result) }
        // Where a run is kept and the batch leaves the grid as it is, no memory is wanting.
        ensures idle { is_some (kept_in self.old) ≡ true → IsIdle (grid_in self.old) batch.old → result ≡ Ok no_work }
        ensures commits { commits_in self.new ≡ commits_in self.old + 1 }
        ensures world { world_in self.new ≡ world_in self.old }
        ensures caps { caps_in self.new ≡ caps_in self.old }
        ensures batch { batch.new ≡ empty_batch (grid_in self.new) }
        ensures goes { GoesInto batch.new (grid_in self.new) }
    {
        // From these the check learns what holds of the grid before and after.
        self.grid.rows();
        let Some(pass) = self.pass.take() else {
            unreachable!()
        };
        let (told, pass) = commit_on(
            rt,
            self.alloc,
            crew,
            gate,
            &self.tables,
            &self.program,
            &self.consts,
            &mut self.grid,
            batch,
            self.kept.take(),
            pass,
        );
        self.grid.rows();
        self.commits += 1;
        self.pass = Some(pass);
        match told {
            Ok((work, record)) => {
                self.kept = Some(record);
                Ok(work)
            }
            Err(answer) => Err(answer),
        }
    }

    /// How many commits there were, whatever they answered.
    pub fn commits(&self) -> u64
        ensures { result ≡ commits_in self.now }
    {
        self.commits
    }

    /// The present grid.
    pub fn grid(&self) -> &Grid
        ensures value { result.now ≡ grid_in self.now }
        ensures sound { IsSettled self.now }
    {
        &self.grid
    }

    /// The program that the engine was opened with.
    pub fn program(&self) -> &Program
        ensures value { result.now ≡ (world_in self.now).program }
        ensures world { world_of result.now (world_in self.now).texts ≡ Some (world_in self.now) }
    {
        self.program.program()
    }

    /// What is shown of main's outputs, in its order; `None` exactly where no run is kept. The engine holds what it held.
    pub fn shown(&mut self) -> Result<Option<Vec<Shown>>, NoMemory>
        ensures shown { IfOk result (λ told. option_map (λ values. values.items) told
            ≡ option_map (λ r. outputs_from r.heap 0 (world_in self.old).main.dests) (kept_in self.old)) }
        ensures kept { kept_in self.new ≡ kept_in self.old }
        ensures grid { grid_in self.new ≡ grid_in self.old }
        ensures commits { commits_in self.new ≡ commits_in self.old }
        ensures world { world_in self.new ≡ world_in self.old }
        ensures caps { caps_in self.new ≡ caps_in self.old }
        ensures handles { HandlesGo self.old self.new nothing_dropped }
    {
        if self.kept.is_none() {
            return Ok(None);
        }
        let outs = outputs_of(&self.program);
        let first = self.grid.room() * self.grid.cols();
        let Some(mut pass) = self.pass.take() else {
            unreachable!()
        };
        let told = show_slots(
            self.alloc,
            &self.tables.values,
            &mut pass.values,
            first,
            outs,
        );
        self.pass = Some(pass);
        match told {
            Ok(values) => Ok(Some(values)),
            Err(NoMemory) => Err(NoMemory),
        }
    }

    /// A law, and nothing is done: a handle is of one modifiable at most, and one that is outlived is of none.
    pub fn handles(&self)
        ensures { AreNamed self.now }
    {
        // From these the check learns what holds of the program and of the grid.
        self.program.program();
        self.grid.room();
    }

    /// The handle of an output, which each commit leaves.
    pub fn out_handle(&self, i: u32) -> Handle
        requires { i < length (world_in self.now).main.dests }
        ensures { Names self.now result (Out i) }
    {
        // From it the check learns that there are few outputs.
        outputs_of(&self.program);
        Handle {
            slot: self.grid.room() * self.grid.cols() + i,
            generation: 0,
        }
    }

    /// What is told of a handle, by the modifiable that has its slot and generation: its value, or that it is an output and
    /// no run is kept. It is stale where no modifiable has both. The engine holds what it held.
    pub fn held(&mut self, handle: Handle) -> Held
        ensures named { (n : Name) → Names self.old handle n → Tells self.old n result }
        ensures stale { ((n : Name) → Names self.old handle n → ⊥) → result ≡ told.Stale }
        ensures outlived { IsOutlived self.old handle → result ≡ told.Stale }
        ensures handles { HandlesGo self.old self.new nothing_dropped }
        ensures kept { kept_in self.new ≡ kept_in self.old }
        ensures grid { grid_in self.new ≡ grid_in self.old }
        ensures commits { commits_in self.new ≡ commits_in self.old }
        ensures world { world_in self.new ≡ world_in self.old }
        ensures caps { caps_in self.new ≡ caps_in self.old }
    {
        // From it the check learns what holds of the program.
        self.program.program();
        let outs = outputs_of(&self.program);
        let first = self.grid.room() * self.grid.cols();
        let kept = self.kept.is_some();
        let Some(mut pass) = self.pass.take() else {
            unreachable!()
        };
        let told = look_at(
            &self.tables.values,
            &mut pass.values,
            first,
            outs,
            kept,
            handle,
        );
        self.pass = Some(pass);
        told
    }

    /// The record that is kept, which shows the fresh run of the present grid; `None` exactly where none is.
    pub fn record(&self) -> Option<&Record>
        ensures some { is_some result ≡ is_some (kept_in self.now) }
        ensures shows { IfSome result (λ r. ∥ Shows (world_in self.now) (grid_in self.now) (caps_in self.now) (rec_of r.now) ∥₁) }
    {
        match &self.kept {
            Some(record) => Some(record),
            None => None,
        }
    }

    /// The size of the record that is kept; `None` exactly where none is.
    pub fn size(&self) -> Option<Size>
        ensures { result ≡ option_map (λ r. size_of r.tree) (kept_in self.now) }
    {
        match &self.kept {
            Some(record) => Some(record.size()),
            None => None,
        }
    }
}
