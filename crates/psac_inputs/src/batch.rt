// Staged edits.
ghost use Rattle.std.specs.Prelude.{◌≡◌, ◌+◌, ◌-◌, ◌*◌, ◌≤◌, ◌<◌, ◌↔◌, false, not, fold, flat_map, length, slice_get, IfOk, OnOk, OnErr, IsErrOf, Some};
ghost use Rattle.std.specs.List.{range_with_len};
ghost use Rattle.indexmap.specs.IndexMap.{spare};
ghost use Rattle.psac_inputs.specs.Grid.{Grid, cell as cell_at, IsCellValue, IsGrid, with_cell, with_rows};
ghost use Rattle.psac_inputs.specs.Batch.{batch_net, batch_rows, batch_set, empty_batch, is_value, may_stage, nil_edits, put_all, with_edit, GoesInto, IsBatch, IsWhole};
ghost use Rattle.psac_inputs.specs.Staged.{edits_of};

use crate::fault::BatchFault;
use crate::grid::Grid;
use indexmap::IndexMap;
use psac_base::NoMemory;
use psac_ops::Plain;
use std::alloc::Global;
use std::marker::Model;

/// A cell and its new value.
#[derive(Clone, Copy, Debug, PartialEq, Eq)]
pub struct Edit {
    pub row: u32,
    pub col: u32,
    pub value: Plain,
}

#[derive(Clone, Copy, Debug, PartialEq, Eq, Hash)]
struct Cell {
    row: u32,
    col: u32,
}

/// The edits of a grid that wait for a commit, at most one for each cell, and the number of rows that the grid is to
/// have. No staged value is a Ref or a Pair, and what is staged in a row from that number on is Nil.
#[derive(Drop)]
pub struct Batch {
    room: u32,
    cols: u32,
    base_rows: u32,
    rows: u32,
    edits: IndexMap<Cell, Plain>,
}

impl Model for Batch {
    ghost use Rattle.psac_inputs.specs.Batch as batch;

    ghost Value = { batch.Batch };

    ghost use Rattle.psac_inputs.specs.Staged.{shown, IsKept};

    ghost view = { shown };

    ghost invariant = { IsKept };
}

// Stages Nil for each cell of a row, for which there is room.
fn stage_row(edits: &mut IndexMap<Cell, Plain>, row: u32, cols: u32)
    requires { cols ≤ spare edits.old }
    ensures edits { edits_of edits.new.entries ≡ fold with_edit (edits_of edits.old.entries) (nil_edits cols row) }
    ensures room { spare edits.old ≤ spare edits.new + cols }
{
    for col in 0..cols {
        edits.insert(Cell { row, col }, Plain::Nil).unwrap();
    }
}

// Stages Nil for each cell of some rows, for which there is room.
fn stage_rows(edits: &mut IndexMap<Cell, Plain>, from: u32, to: u32, cols: u32)
    requires order { from ≤ to }
    requires room { (to - from) * cols ≤ spare edits.old }
    ensures { edits_of edits.new.entries ≡ fold with_edit (edits_of edits.old.entries) (flat_map (nil_edits cols) (range_with_len from (to - from))) }
{
    for row in from..to {
        stage_row(edits, row, cols);
    }
}

impl Batch {
    /// No edit, and the grid's present number of rows.
    pub fn new(alloc: Global, grid: &Grid) -> Result<Batch, NoMemory>
        ensures empty { IfOk result (λ b. b ≡ empty_batch grid.now) }
        ensures goes { IfOk result (λ b. GoesInto b grid.now) }
        ensures whole { IfOk result IsWhole }
    {
        Ok(Batch {
            room: grid.room(),
            cols: grid.cols(),
            base_rows: grid.rows(),
            rows: grid.rows(),
            edits: IndexMap::new(alloc),
        })
    }

    /// The number of rows that the grid is to have.
    pub fn staged_rows(&self) -> u32
        ensures value { result ≡ self.now.rows }
        ensures sound { IsBatch self.now }
    {
        self.rows
    }

    /// The number of rows that the grid had when the batch was made or last cleared.
    pub fn base_rows(&self) -> u32
        ensures value { result ≡ self.now.base_rows }
        ensures sound { IsBatch self.now }
    {
        self.base_rows
    }

    /// How many cells are staged.
    pub fn len(&self) -> u64
        ensures { result ≡ length self.now.edits }
    {
        self.edits.len() as u64
    }

    /// One of the edits, in the order in which their cells were first staged.
    pub fn edit(&self, index: u64) -> Edit
        requires { index < length self.now.edits }
        ensures { slice_get self.now.edits index ≡ Some result }
    {
        let (cell, value) = self.edits.get_index(index as usize).unwrap();
        Edit {
            row: cell.row,
            col: cell.col,
            value: *value,
        }
    }

    /// Stages a value for a cell, in place of what is staged there. `Range` comes exactly where the row isn't below the
    /// staged number or the column isn't the grid's. The batch stands as it was after either error.
    pub fn set(&mut self, row: u32, col: u32, value: Plain) -> Result<(), BatchFault>
        requires { IsCellValue value }
        ensures ok { OnOk result (self.new ≡ batch_set row col value self.old) }
        ensures range { IsErrOf result BatchFault.Range ↔ (may_stage row col self.old ≡ false) }
        ensures err { OnErr result (self.new ≡ self.old) }
        // The staged grid has the value in its cell.
        ensures staged { OnOk result ((g : Grid) → put_all self.new g ≡ with_cell row col value (put_all self.old g)) }
        ensures goes { OnOk result ((g : Grid) → GoesInto self.old g → GoesInto self.new g) }
        ensures whole { OnOk result (IsWhole self.old → IsWhole self.new) }
    {
        if row >= self.rows || col >= self.cols {
            return Err(BatchFault::Range);
        }
        if self.edits.insert(Cell { row, col }, value).is_err() {
            return Err(BatchFault::NoMemory);
        }
        Ok(())
    }

    /// Stages the number of rows, and Nil for each cell of the rows from it up to the number that was staged before.
    /// `Range` comes exactly where the number is above the room. The batch stands as it was after either error.
    pub fn rows(&mut self, rows: u32) -> Result<(), BatchFault>
        ensures ok { OnOk result (self.new ≡ batch_rows rows self.old) }
        ensures range { IsErrOf result BatchFault.Range ↔ (self.old.room < rows) }
        ensures err { OnErr result (self.new ≡ self.old) }
        // The staged grid has that many rows, and Nil in the others.
        ensures staged { OnOk result ((g : Grid) → IsGrid g → GoesInto self.old g → put_all self.new g ≡ with_rows rows (put_all self.old g)) }
        ensures goes { OnOk result ((g : Grid) → IsGrid g → GoesInto self.old g → GoesInto self.new g) }
        // Until `net` each cell of the rows that go is staged.
        ensures whole { OnOk result (IsWhole self.old → IsWhole self.new) }
    {
        if rows > self.room {
            return Err(BatchFault::Range);
        }
        let end = self.rows.max(rows);
        let count = (end - rows) * self.cols;
        if self.edits.reserve(count as usize).is_err() {
            return Err(BatchFault::NoMemory);
        }
        stage_rows(&mut self.edits, rows, end, self.cols);
        self.rows = rows;
        Ok(())
    }

    /// Takes out each edit whose value the grid has. Takes no memory.
    pub fn net(&mut self, grid: &Grid)
        requires room { self.old.room ≡ grid.now.room }
        requires cols { self.old.cols ≡ grid.now.cols }
        ensures left { self.new ≡ batch_net grid.now self.old }
        // What is left gives the same grid.
        ensures staged { put_all self.new grid.now ≡ put_all self.old grid.now }
        ensures goes { GoesInto self.old grid.now → GoesInto self.new grid.now }
    {
        self.edits.retain(
            |cell: &Cell, value: &mut Plain| -> bool
                ensures { (result ≡ not (is_value value.old (cell_at cell.now.row cell.now.col grid.entry.now)))
                    × (value.new ≡ value.old) }
            { !grid.holds(cell.row, cell.col, *value) },
        );
    }

    /// Takes out every edit, and stages the grid's present number of rows. Takes no memory.
    pub fn clear(&mut self, grid: &Grid)
        requires room { self.old.room ≡ grid.now.room }
        requires cols { self.old.cols ≡ grid.now.cols }
        ensures empty { self.new ≡ empty_batch grid.now }
        ensures goes { GoesInto self.new grid.now }
        ensures whole { IsWhole self.new }
    {
        self.edits.clear();
        self.base_rows = grid.rows();
        self.rows = grid.rows();
    }
}
