//! The inputs' words in the table of values.
ghost use Rattle.std.specs.Prelude.{◌≡◌, ℕ, pos, ◌+◌, ◌*◌, ◌<◌, ◌≤◌};
ghost use Rattle.psac_ops.specs.declared.plain.Plain.TheVariants.{Int};
ghost use Rattle.psac_model.specs.declared.ends.Caps.{Caps};
ghost use Rattle.psac_inputs.specs.Batch.{empty_batch, put_all, with_edits, GoesInto};
ghost use Rattle.psac_plain.specs.Opened.{first_output};
ghost use Rattle.psac_stage.specs.Holding.{HasFixed, HasGrid};
ghost use Rattle.psac_stage.specs.Resting.{MayRun};
ghost use Rattle.psac_stage.specs.Storing.{HasCells, SameSlots, Stored};

use psac_fork::{Pass, Tables};
use psac_inputs::{Batch, Grid};
use psac_ops::{Handle, Plain, to_words};
use psac_values::{ValuePass, Values};

/// Gives a fixed slot a value.
pub fn put_value(values: &Values, pass: &mut ValuePass, slot: u32, value: Plain)
    requires table { pass.old.table ≡ values.now }
    requires fixed { (n : ℕ) × HasFixed n pass.old.knows × (slot < n) }
    ensures table { pass.new.table ≡ pass.old.table }
    ensures stored { Stored slot value pass.old.knows pass.new.knows }
{
    values.write(
        pass,
        Handle {
            slot,
            generation: 0,
        },
        to_words(value),
    );
}

/// The present number of rows, as a value.
pub fn row_count(grid: &Grid) -> Plain
    ensures { result ≡ Int (pos grid.now.rows) }
{
    Plain::Int(i64::from(grid.rows()))
}

/// Stores every cell of a grid.
fn put_cells(values: &Values, pass: &mut ValuePass, grid: &Grid)
    requires table { pass.old.table ≡ values.now }
    requires fixed { (n : ℕ) × HasFixed n pass.old.knows × (first_output grid.now ≤ n) }
    ensures table { pass.new.table ≡ pass.old.table }
    ensures same { SameSlots pass.old.knows pass.new.knows }
    ensures cells { HasCells grid.now pass.new.knows }
{
    let cols = grid.cols();
    for slot in 0..grid.room() * cols {
        let value = grid.get(slot / cols, slot % cols);
        put_value(values, pass, slot, value);
    }
}

/// Stores a grid: its cells and its number of rows.
pub fn put_grid(values: &Values, pass: &mut ValuePass, grid: &Grid, outs: u32)
    requires table { pass.old.table ≡ values.now }
    requires fixed { (n : ℕ) × HasFixed n pass.old.knows × (first_output grid.now + outs < n) }
    requires small { first_output grid.now + outs < 4294967296 }
    ensures table { pass.new.table ≡ pass.old.table }
    ensures same { SameSlots pass.old.knows pass.new.knows }
    ensures grid { HasGrid grid.now outs pass.new.knows }
{
    put_cells(values, pass, grid);
    let slot = grid.room() * grid.cols() + outs;
    put_value(values, pass, slot, row_count(grid));
}

/// Stores the edits of a batch, and nothing else.
fn put_edits(values: &Values, pass: &mut ValuePass, grid: &Grid, batch: &Batch)
    requires table { pass.old.table ≡ values.now }
    requires fixed { (n : ℕ) × HasFixed n pass.old.knows × (first_output grid.now ≤ n) }
    requires goes { GoesInto batch.now grid.now }
    requires cells { HasCells grid.now pass.old.knows }
    ensures table { pass.new.table ≡ pass.old.table }
    ensures same { SameSlots pass.old.knows pass.new.knows }
    ensures cells { HasCells (with_edits batch.now.edits grid.now) pass.new.knows }
{
    let cols = grid.cols();
    // From it the check learns that each edit is within the grid.
    batch.staged_rows();
    for i in 0..batch.len() {
        let edit = batch.edit(i);
        put_value(values, pass, edit.row * cols + edit.col, edit.value);
    }
}

/// Puts what differs of a batch into the grid and into the table, cell by cell, and empties the batch.
pub fn place(values: &Values, pass: &mut ValuePass, grid: &mut Grid, batch: &mut Batch, outs: u32)
    requires table { pass.old.table ≡ values.now }
    requires fixed { (n : ℕ) × HasFixed n pass.old.knows × (first_output grid.old + outs < n) }
    requires small { first_output grid.old + outs < 4294967296 }
    requires goes { GoesInto batch.old grid.old }
    requires has { HasGrid grid.old outs pass.old.knows }
    ensures table { pass.new.table ≡ pass.old.table }
    ensures same { SameSlots pass.old.knows pass.new.knows }
    ensures has { HasGrid grid.new outs pass.new.knows }
    ensures grid { grid.new ≡ put_all batch.old grid.old }
    ensures batch { batch.new ≡ empty_batch grid.new }
    ensures goes { GoesInto batch.new grid.new }
{
    batch.net(grid);
    put_edits(values, pass, grid, batch);
    grid.put_all(batch);
    let slot = grid.room() * grid.cols() + outs;
    put_value(values, pass, slot, row_count(grid));
    batch.clear(grid);
}

/// Puts a batch into the grid and into the table of a pass with which a run may begin.
pub fn staged(
    tables: &Tables,
    mut pass: Pass,
    grid: &mut Grid,
    batch: &mut Batch,
    outs: u32,
) -> Pass
    requires may { (caps : Caps) × (age : ℕ) × MayRun outs grid.old caps age tables.now pass }
    requires goes { GoesInto batch.old grid.old }
    requires few { outs ≤ 24 }
    ensures may { (caps : Caps) (age : ℕ) → MayRun outs grid.old caps age tables.now pass → MayRun outs grid.new caps age tables.now result }
    ensures same { SameSlots pass.values.knows result.values.knows }
    ensures grid { grid.new ≡ put_all batch.old grid.old }
    ensures batch { batch.new ≡ empty_batch grid.new }
    ensures goes { GoesInto batch.new grid.new }
{
    // From it the check learns how large a grid is.
    grid.rows();
    place(&tables.values, &mut pass.values, grid, batch, outs);
    pass
}
