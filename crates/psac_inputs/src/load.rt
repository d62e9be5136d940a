// Inputs, read into a grid.
ghost use Rattle.std.specs.Prelude.{◌≡◌, ◌+◌, ◌*◌, ◌≤◌, ◌∷◌, [], length, All, OnOk, Some, true};
ghost use Rattle.csv.specs.Records.{fields_of as fields_in};
ghost use Rattle.psac_inputs.specs.Grid.{IsCellValue};
ghost use Rattle.psac_inputs.specs.Load.{fault_of, fields_of, loaded_csv, loaded_lines, record_of, Begins, Loads};
ghost use Rattle.psac_inputs.specs.Reads.{Reads};

use crate::fault::{InputFault, TextFault};
use crate::grid::Grid;
use crate::interner::Interner;
use crate::lines::split_line;
use crate::wide::wide_record;
use csv::{ByteRecord, ReaderBuilder};
use psac_ops::Plain;
use std::alloc::Global;

const MOST_CELLS: usize = 65_536;

// Whether the record behind so many others is the one that was found.
fn is_next(found: Option<usize>, at: u32) -> bool
    ensures { result ≡ true → found ≡ Some at }
{
    match found {
        Some(n) => n == at as usize,
        None => false,
    }
}

// The fault of a field, with the number of its record.
fn fault_at(at: u32, fault: TextFault) -> InputFault
    ensures { result ≡ fault_of at fault }
{
    match fault {
        TextFault::Utf8 => InputFault::Utf8 { at },
        TextFault::Limit => InputFault::Texts { at },
        TextFault::NoMemory => InputFault::NoMemory,
    }
}

// Reads a field of a record.
fn read_field(
    at: u32,
    bytes: &[u8],
    cells: &mut Vec<Plain>,
    texts: &mut Interner,
) -> Result<(), InputFault>
    ensures reads { Reads (fields_of at (bytes.now ∷ []) texts.old) result cells.old.items cells.new.items texts.new }
    ensures begins { Begins texts.old texts.new }
    ensures plain { All IsCellValue cells.old.items → All IsCellValue cells.new.items }
    ensures one { OnOk result (length cells.new.items ≡ length cells.old.items + 1) }
{
    let value = match texts.field(bytes) {
        Ok(value) => value,
        Err(fault) => return Err(fault_at(at, fault)),
    };
    if cells.push(value).is_err() {
        return Err(InputFault::NoMemory);
    }
    Ok(())
}

// Reads the fields of a record.
fn read_fields(
    at: u32,
    row: &ByteRecord,
    cells: &mut Vec<Plain>,
    texts: &mut Interner,
) -> Result<(), InputFault>
    ensures reads { Reads (fields_of at (fields_in row.now) texts.old) result cells.old.items cells.new.items texts.new }
    ensures begins { Begins texts.old texts.new }
    ensures plain { All IsCellValue cells.old.items → All IsCellValue cells.new.items }
    ensures row { OnOk result (length cells.new.items ≡ length cells.old.items + length (fields_in row.now)) }
{
    for i in 0..row.len() {
        let field = row.get(i).unwrap();
        if let Err(fault) = read_field(at, field, cells, texts) {
            return Err(fault);
        }
    }
    Ok(())
}

// Reads a record, behind the cells of those before it.
fn read_record(
    cols: usize,
    at: u32,
    row: &ByteRecord,
    cells: &mut Vec<Plain>,
    texts: &mut Interner,
) -> Result<(), InputFault>
    requires whole { length cells.old.items + cols ≡ at * cols }
    requires fits { length cells.old.items ≤ 65536 }
    ensures reads { Reads (record_of cols at (fields_in row.now) texts.old) result cells.old.items cells.new.items texts.new }
    ensures begins { Begins texts.old texts.new }
    ensures plain { All IsCellValue cells.old.items → All IsCellValue cells.new.items }
    ensures row { OnOk result (length cells.new.items ≡ length cells.old.items + cols) }
    ensures fits { OnOk result (length cells.new.items ≤ 65536) }
{
    if row.len() != cols {
        return Err(InputFault::Ragged { at });
    }
    if cols > MOST_CELLS - cells.len() {
        return Err(InputFault::Cells { at });
    }
    read_fields(at, row, cells, texts)
}

/// Reads records of fields with commas between them, as csv's reader gives them by its default settings and without a
/// header row: each field is a cell, an Int where it is a decimal number of 64 bits and else a Text. No record gives
/// no row and no column.
///
/// The first faulty record decides. Within it another number of fields than the first record has goes first, then a
/// cell above 65,536, then each field in its order. After an error the texts begin with those that the list had.
pub fn load_csv(alloc: Global, bytes: &[u8], texts: &mut Interner) -> Result<Grid, InputFault>
    ensures loads { Loads (loaded_csv bytes.now texts.old) result texts.new }
    ensures begins { Begins texts.old texts.new }
{
    // csv's reader keeps a record whole, so one that is too wide is found before, and isn't read.
    let wide = wide_record(bytes, MOST_CELLS);
    if is_next(wide, 0) {
        return Err(InputFault::Cells { at: 1 });
    }
    let rdr = ReaderBuilder::new()
        .has_headers(false)
        .flexible(true)
        .from_reader(alloc, bytes);
    let mut cells = Vec::new(alloc);
    let mut cols = None;
    let mut at: u32 = 0;
    for row in rdr.into_byte_records() {
        // Bytes that are all there don't fail to be read, so memory is wanting.
        let Ok(row) = row else {
            return Err(InputFault::NoMemory);
        };
        let wanted = cols.unwrap_or(row.len());
        at += 1;
        if let Err(fault) = read_record(wanted, at, &row, &mut cells, texts) {
            return Err(fault);
        }
        cols = Some(wanted);
        if is_next(wide, at) {
            return Err(InputFault::Ragged { at: at + 1 });
        }
    }
    Ok(Grid::from_cells(at, cols.unwrap_or(0) as u32, cells))
}

/// Reads one column: each line is a cell, an Int where it is a decimal number of 64 bits and else a Text. Lines end at
/// a line feed, a carriage return before it is dropped, and an unfinished last line counts if it has a byte. No byte
/// at all gives no row and no column.
///
/// The first faulty line decides. After an error the texts begin with those that the list had.
pub fn load_lines(alloc: Global, bytes: &[u8], texts: &mut Interner) -> Result<Grid, InputFault>
    ensures loads { Loads (loaded_lines bytes.now texts.old) result texts.new }
    ensures begins { Begins texts.old texts.new }
{
    let mut cells = Vec::new(alloc);
    let mut rest = bytes;
    while let Some((line, after)) = split_line(rest) {
        let at = cells.len() as u32 + 1;
        if cells.len() == MOST_CELLS {
            return Err(InputFault::Cells { at });
        }
        read_field(at, line, &mut cells, texts)?;
        rest = after;
    }
    Ok(Grid::column(cells))
}
