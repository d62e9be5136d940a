//! A batch that is put in where a record is kept: the readers of what changes are marked, and nothing else is touched.
ghost use Rattle.std.specs.Prelude.{◌≡◌, ◌==◌, ℕ, pos, ◌+◌, ◌<◌, ◌≤◌, ◌∷◌, [], not, length, map, Some};
ghost use Rattle.psac_fork.specs.Whole.{IsOf};
ghost use Rattle.psac_inputs.specs.Grid.{Grid};
ghost use Rattle.psac_inputs.specs.Batch.{empty_batch, put_all, with_edits, GoesInto};
ghost use Rattle.psac_model.specs.declared.ends.Caps.{Caps};
ghost use Rattle.psac_model.specs.Fresh.{World, when};
ghost use Rattle.psac_ops.specs.declared.plain.Plain.TheVariants.{Int};
ghost use Rattle.psac_plain.specs.Opened.{first_output};
ghost use Rattle.psac_record.specs.Kept.{Kept};
ghost use Rattle.psac_repair.specs.Going.{views};
ghost use Rattle.psac_stage.specs.Holding.{HasFixed, HasGrid, value_in};
ghost use Rattle.psac_stage.specs.Recorded.{Recorded};
ghost use Rattle.psac_stage.specs.Resting.{HasAll, IsRested};
ghost use Rattle.psac_stage.specs.Staging.{cell_slot, changed, three, Changes, MayChange};
ghost use Rattle.psac_stage.specs.Storing.{HasCells};

use crate::store::{put_value, row_count};
use psac_fork::{Pass, Tables};
use psac_inputs::{Batch, Grid};
use psac_marks::MarksPass;
use psac_ops::{Handle, Plain};
use psac_raise::raise_readers;
use psac_readers::ReadersPass;
use psac_values::ValuePass;

/// Gives a fixed slot a value, and marks all who read it.
fn change(
    tables: &Tables,
    values: &mut ValuePass,
    readers: &mut ReadersPass,
    marks: &mut MarksPass,
    slot: u32,
    value: Plain,
)
    requires tables { (values.old.table ≡ tables.now.values) × (readers.old.table ≡ tables.now.readers)
        × (marks.old.table ≡ tables.now.marks) }
    requires fixed { (n : ℕ) × HasFixed n values.old.knows × (slot < n) }
    requires may { MayChange slot (three values.old.knows readers.old.knows marks.old.knows) }
    ensures tables { (values.new.table ≡ values.old.table) × (readers.new.table ≡ readers.old.table) × (marks.new.table ≡ marks.old.table) }
    ensures changes { Changes (slot ∷ []) (three values.old.knows readers.old.knows marks.old.knows)
        (three values.new.knows readers.new.knows marks.new.knows) }
    ensures has { value_in slot values.new.knows.mine ≡ Some value }
{
    let of = Handle {
        slot,
        generation: 0,
    };
    raise_readers(&tables.readers, &tables.marks, readers, marks, of);
    put_value(&tables.values, values, slot, value);
}

/// Puts the edits of a batch into the table, and marks all who read one of their cells.
fn change_cells(
    tables: &Tables,
    values: &mut ValuePass,
    readers: &mut ReadersPass,
    marks: &mut MarksPass,
    grid: &Grid,
    batch: &Batch,
)
    requires tables { (values.old.table ≡ tables.now.values) × (readers.old.table ≡ tables.now.readers)
        × (marks.old.table ≡ tables.now.marks) }
    requires fixed { (n : ℕ) × HasFixed n values.old.knows × (first_output grid.now ≤ n) }
    requires may { (s : ℕ) → s < first_output grid.now
        → MayChange s (three values.old.knows readers.old.knows marks.old.knows) }
    requires goes { GoesInto batch.now grid.now }
    requires cells { HasCells grid.now values.old.knows }
    ensures tables { (values.new.table ≡ values.old.table) × (readers.new.table ≡ readers.old.table) × (marks.new.table ≡ marks.old.table) }
    ensures changes { Changes (map (cell_slot grid.now) batch.now.edits) (three values.old.knows readers.old.knows marks.old.knows)
        (three values.new.knows readers.new.knows marks.new.knows) }
    ensures cells { HasCells (with_edits batch.now.edits grid.now) values.new.knows }
{
    let cols = grid.cols();
    // From it the check learns that each edit is within the grid.
    batch.staged_rows();
    for i in 0..batch.len() {
        let edit = batch.edit(i);
        let slot = edit.row * cols + edit.col;
        change(tables, values, readers, marks, slot, edit.value);
    }
}

/// Puts the number of rows into the table where it was another one, and marks all who read it.
fn change_rows(
    tables: &Tables,
    values: &mut ValuePass,
    readers: &mut ReadersPass,
    marks: &mut MarksPass,
    grid: &Grid,
    rows: u32,
    outs: u32,
)
    requires tables { (values.old.table ≡ tables.now.values) × (readers.old.table ≡ tables.now.readers)
        × (marks.old.table ≡ tables.now.marks) }
    requires fixed { (n : ℕ) × HasFixed n values.old.knows × (first_output grid.now + outs < n) }
    requires small { first_output grid.now + outs < 4294967296 }
    requires may { MayChange (first_output grid.now + outs) (three values.old.knows readers.old.knows marks.old.knows) }
    requires cells { HasCells grid.now values.old.knows }
    requires has { value_in (first_output grid.now + outs) values.old.knows.mine ≡ Some (Int (pos rows)) }
    ensures tables { (values.new.table ≡ values.old.table) × (readers.new.table ≡ readers.old.table) × (marks.new.table ≡ marks.old.table) }
    ensures changes { Changes (when (not (grid.now.rows == rows)) (first_output grid.now + outs))
        (three values.old.knows readers.old.knows marks.old.knows)
        (three values.new.knows readers.new.knows marks.new.knows) }
    ensures has { HasGrid grid.now outs values.new.knows }
{
    if grid.rows() == rows {
        return;
    }
    let slot = grid.room() * grid.cols() + outs;
    let value = row_count(grid);
    change(tables, values, readers, marks, slot, value);
}

/// Puts a batch into the grid and into the table of a pass at rest that keeps a record, and empties the batch. Who reads a cell
/// that gets another value is marked, and so is who reads the number of rows where that is another one. Nothing else is touched.
pub fn stage_batch(
    tables: &Tables,
    pass: Pass,
    grid: &mut Grid,
    batch: &mut Batch,
    outs: u32,
) -> Pass
    requires of { IsOf pass tables.now }
    requires all { (caps : Caps) × (age : ℕ) × HasAll grid.old outs caps age pass }
    requires rested { IsRested pass }
    requires recorded { (w : World) × (k : Kept) × (length w.main.dests ≡ outs)
        × Recorded w grid.old k pass.values.knows pass.readers.knows pass.marks.knows }
    requires goes { GoesInto batch.old grid.old }
    requires few { outs ≤ 24 }
    ensures of { IsOf result tables.now }
    ensures all { (caps : Caps) (age : ℕ) → HasAll grid.old outs caps age pass → HasAll grid.new outs caps age result }
    ensures rested { IsRested result }
    ensures changes { Changes (changed grid.old outs batch.old) (views pass) (views result) }
    ensures grid { grid.new ≡ put_all batch.old grid.old }
    ensures batch { batch.new ≡ empty_batch grid.new }
    ensures goes { GoesInto batch.new grid.new }
{
    batch.net(grid);
    // From it the check learns that each edit is within the grid.
    batch.staged_rows();
    let Pass {
        mut values,
        mut readers,
        mut marks,
        depth,
    } = pass;
    change_cells(tables, &mut values, &mut readers, &mut marks, grid, batch);
    let rows = grid.rows();
    grid.put_all(batch);
    change_rows(
        tables,
        &mut values,
        &mut readers,
        &mut marks,
        grid,
        rows,
        outs,
    );
    batch.clear(grid);
    Pass {
        values,
        readers,
        marks,
        depth,
    }
}
