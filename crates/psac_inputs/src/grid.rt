// The grid of input cells.
ghost use Rattle.std.specs.Prelude.{◌≡◌, ◌-◌, ◌*◌, ◌≤◌, ◌<◌, All, drop, length, IfOk, Some};
ghost use Rattle.psac_inputs.specs.Batch.{is_value, put_all, GoesInto};
ghost use Rattle.psac_inputs.specs.Grid.{cell, column_of, grid_of, nil_rows, rows_of, widened, with_cell, IsCellValue, IsGrid};

use crate::batch::Batch;
use psac_base::NoMemory;
use psac_ops::Plain;
use std::alloc::Global;
use std::marker::Model;

/// Rows of cells. Of the rows below the room the first are present; the others wait, and hold Nil.
/// No cell holds a Ref or a Pair, and there are at most 65,536 cells.
#[derive(Drop)]
pub struct Grid {
    opened: u32,
    room: u32,
    rows: u32,
    cols: u32,
    cells: Vec<Plain>,
}

impl Model for Grid {
    ghost use Rattle.psac_inputs.specs.Grid as grid;

    ghost Value = { grid.Grid };

    ghost use Rattle.psac_inputs.specs.Flat.{shown, IsFlat};

    ghost view = { shown };

    ghost invariant = { IsFlat };
}

impl Grid {
    /// A grid of that many rows, all of them present, with Nil in every cell.
    pub fn new(alloc: Global, rows: u32, cols: u32) -> Result<Grid, NoMemory>
        requires { rows * cols ≤ 65536 }
        ensures { IfOk result (λ g. g ≡ grid_of cols (nil_rows rows cols)) }
    {
        let count = rows * cols;
        let mut cells = Vec::with_capacity(alloc, count as usize)?;
        for _i in 0..count {
            cells.push(Plain::Nil)?;
        }
        Ok(Grid::from_cells(rows, cols, cells))
    }

    // The grid of these cells, row after row.
    pub(crate) fn from_cells(rows: u32, cols: u32, cells: Vec<Plain>) -> Grid
        requires count { length cells.items ≡ rows * cols }
        requires fits { rows * cols ≤ 65536 }
        requires plain { All IsCellValue cells.items }
        ensures { result ≡ grid_of cols (rows_of cols rows cells.items) }
    {
        Grid {
            opened: rows,
            room: rows,
            rows,
            cols,
            cells,
        }
    }

    // The grid of one column of these cells; no cell gives no column.
    pub(crate) fn column(cells: Vec<Plain>) -> Grid
        requires fits { length cells.items ≤ 65536 }
        requires plain { All IsCellValue cells.items }
        ensures { result ≡ column_of cells.items }
    {
        let rows = cells.len() as u32;
        Grid::from_cells(rows, rows.min(1), cells)
    }

    /// The number of rows that the grid was opened with.
    pub fn opened(&self) -> u32
        ensures value { result ≡ self.now.opened }
        ensures sound { IsGrid self.now }
    {
        self.opened
    }

    /// The number of rows that there can be.
    pub fn room(&self) -> u32
        ensures value { result ≡ self.now.room }
        ensures sound { IsGrid self.now }
    {
        self.room
    }

    /// The number of rows that are present.
    pub fn rows(&self) -> u32
        ensures value { result ≡ self.now.rows }
        ensures sound { IsGrid self.now }
    {
        self.rows
    }

    /// The number of columns.
    pub fn cols(&self) -> u32
        ensures value { result ≡ self.now.cols }
        ensures sound { IsGrid self.now }
    {
        self.cols
    }

    /// What a cell below the room holds.
    pub fn get(&self, row: u32, col: u32) -> Plain
        requires row { row < self.now.room }
        requires col { col < self.now.cols }
        ensures value { cell row col self.now ≡ Some result }
        ensures plain { IsCellValue result }
    {
        self.cells[(row * self.cols + col) as usize]
    }

    // Whether a cell below the room holds the value.
    pub(crate) fn holds(&self, row: u32, col: u32, value: Plain) -> bool
        ensures { result ≡ is_value value (cell row col self.now) }
    {
        if row >= self.room || col >= self.cols {
            return false;
        }
        value == self.get(row, col)
    }

    /// Gives a cell of a present row another value.
    pub fn put(&mut self, row: u32, col: u32, value: Plain)
        requires row { row < self.old.rows }
        requires col { col < self.old.cols }
        requires plain { IsCellValue value }
        ensures { self.new ≡ with_cell row col value self.old }
    {
        let at = (row * self.cols + col) as usize;
        self.cells[at] = value;
    }

    /// Sets the present number of rows, where the others hold Nil.
    pub fn set_rows(&mut self, rows: u32)
        requires within { rows ≤ self.old.room }
        requires beyond { drop rows self.old.cells ≡ nil_rows (self.old.room - rows) self.old.cols }
        ensures { self.new ≡ record self.old { rows = rows } }
    {
        self.rows = rows;
    }

    /// Gives the grid room for so many rows, no fewer than are present. The new cells hold Nil.
    pub fn widen(self, room: u32) -> Result<Grid, NoMemory>
        requires rows { self.rows ≤ room }
        requires fits { room * self.cols ≤ 65536 }
        ensures { IfOk result (λ g. g ≡ widened room self) }
    {
        let mut cells = self.cells;
        cells.resize((room * self.cols) as usize, Plain::Nil)?;
        Ok(Grid {
            opened: self.opened,
            room,
            rows: self.rows,
            cols: self.cols,
            cells,
        })
    }

    /// Gives each staged cell its value, and makes the staged number of rows the present one. Takes no memory.
    pub fn put_all(&mut self, batch: &Batch)
        requires { GoesInto batch.now self.old }
        ensures { self.new ≡ put_all batch.now self.old }
    {
        let rows = batch.staged_rows();
        for i in 0..batch.len() {
            let edit = batch.edit(i);
            let at = (edit.row * self.cols + edit.col) as usize;
            self.cells[at] = edit.value;
        }
        self.rows = rows;
    }
}
