// The cells and the edits of a bench.
ghost use Rattle.std.specs.Prelude.{◌≡◌, ◌≤◌, IfOk, OnOk, pos};
ghost use Rattle.psac_ops.specs.declared.plain.Plain.TheVariants as plain;
ghost use Rattle.psac_inputs.specs.Batch.{GoesInto, put_all};
ghost use Rattle.psac_inputs.specs.Grid.{Grid as Cells, room_for, widened};
ghost use Rattle.psac_report.specs.Report.{bench_batch, bench_grid};

use psac_base::NoMemory;
use psac_inputs::{Batch, Grid};
use psac_ops::Plain;
use std::alloc::Global;

const MOST_ROWS: u32 = 65_536;

const EDITS: u32 = 16;

fn int(value: u32) -> Plain
    ensures { result ≡ plain.Int (pos value) }
{
    Plain::Int(i64::from(value))
}

// So many cells in one column.
fn make_cells(alloc: Global, cells: u32) -> Result<Grid, NoMemory>
    requires { cells ≤ 65536 }
    ensures { IfOk result (λ g. g ≡ bench_grid cells) }
{
    let mut grid = Grid::new(alloc, cells, 1)?;
    for i in 0..cells {
        grid.put(i, 0, int((i * 37 + 11) % 1000));
    }
    Ok(grid)
}

/// So many cells in one column, with room for so many rows.
pub fn make_grid(alloc: Global, cells: u32, rows: u32) -> Result<Grid, NoMemory>
    requires { cells ≤ 65536 }
    ensures { IfOk result (λ g. g ≡ widened (room_for rows cells 1) (bench_grid cells)) }
{
    let grid = make_cells(alloc, cells)?;
    grid.widen(cells.max(rows.min(MOST_ROWS)))
}

/// Stages the edits of the batch with this number, the first being 1.
pub fn stage(batch: &mut Batch, cells: u32, number: u32) -> Result<(), NoMemory>
    requires least { 1 ≤ cells }
    requires number { number ≤ 1000 }
    requires rows { batch.old.rows ≡ cells }
    requires cols { batch.old.cols ≡ 1 }
    ensures staged { OnOk result ((g : Cells) → put_all batch.new g ≡ bench_batch cells number (put_all batch.old g)) }
    ensures goes { OnOk result ((g : Cells) → GoesInto batch.old g → GoesInto batch.new g) }
    ensures rows { OnOk result (batch.new.rows ≡ cells) }
    ensures cols { OnOk result (batch.new.cols ≡ 1) }
{
    for j in 0..EDITS {
        let row = (number * 977 + j * 131) % cells;
        let value = int((number * 31 + j * 17) % 1000);
        match batch.set(row, 0, value) {
            Ok(()) => {}
            Err(_) => return Err(NoMemory),
        }
    }
    Ok(())
}
