ghost use Rattle.psac_inputs.specs.Batch.{GoesInto};

use psac_base::{NoMemory, push_int};
use psac_inputs::{
    Batch, BatchFault, Grid, InputFault, Interner, TextFault, load_csv, load_lines, split_line,
};
use psac_ops::Plain;
use std::alloc::Global;

// Whether a cell has the value.
fn holds(grid: &Grid, row: u32, col: u32, value: Plain) -> bool {
    row < grid.room() && col < grid.cols() && grid.get(row, col) == value
}

// Whether a cell is the text.
fn is_text(grid: &Grid, texts: &Interner, row: u32, col: u32, text: &[u8]) -> bool {
    if row >= grid.room() || col >= grid.cols() {
        return false;
    }
    match grid.get(row, col) {
        Plain::Text(id) => (id.id as usize) < texts.len() && texts.text(id) == text,
        _ => false,
    }
}

// Whether csv's records give so many rows and columns, with the text in the last cell.
fn csv_gives(alloc: Global, input: &[u8], rows: u32, cols: u32, last: &[u8]) -> bool {
    let Ok(mut texts) = Interner::new(alloc) else {
        return false;
    };
    let Ok(grid) = load_csv(alloc, input, &mut texts) else {
        return false;
    };
    let (Some(row), Some(col)) = (rows.checked_sub(1), cols.checked_sub(1)) else {
        return grid.rows() == rows && grid.cols() == cols;
    };
    grid.rows() == rows && grid.cols() == cols && is_text(&grid, &texts, row, col, last)
}

// Whether the lines give so many rows, with the text in the last one.
fn lines_give(alloc: Global, input: &[u8], rows: u32, last: &[u8]) -> bool {
    let Ok(mut texts) = Interner::new(alloc) else {
        return false;
    };
    let Ok(grid) = load_lines(alloc, input, &mut texts) else {
        return false;
    };
    let Some(row) = rows.checked_sub(1) else {
        return grid.rows() == 0 && grid.cols() == 0;
    };
    grid.rows() == rows && grid.cols() == 1 && is_text(&grid, &texts, row, 0, last)
}

fn csv_fault(alloc: Global, input: &[u8], texts: &mut Interner) -> Option<InputFault> {
    load_csv(alloc, input, texts).err()
}

fn lines_fault(alloc: Global, input: &[u8], texts: &mut Interner) -> Option<InputFault> {
    load_lines(alloc, input, texts).err()
}

// Whether a grid of two rows and three columns keeps what is put into its last cell.
fn keeps(alloc: Global) -> bool {
    let Ok(mut grid) = Grid::new(alloc, 2, 3) else {
        return false;
    };
    grid.put(1, 2, Plain::Int(5));
    holds(&grid, 1, 2, Plain::Int(5))
        && holds(&grid, 0, 0, Plain::Nil)
        && grid.opened() == 2
        && grid.room() == 2
        && grid.rows() == 2
        && grid.cols() == 3
}

#[test]
fn cells(rt: HostRuntime) {
    assert!(rt; keeps(rt.alloc()));
}

#[test]
fn records(rt: HostRuntime) {
    let alloc = rt.alloc();
    assert!(rt; csv_gives(alloc, b"2,c\n1,\"a,b\"", 2, 2, b"a,b"));
    assert!(rt; csv_gives(alloc, b"", 0, 0, b""));
    assert!(rt; csv_gives(alloc, b"\n\r\n\na", 1, 1, b"a"));
    assert!(rt; csv_gives(alloc, b"\"\"\n", 1, 1, b""));
    assert!(rt; csv_gives(alloc, b"a\"b\n", 1, 1, b"a\"b"));
    assert!(rt; csv_gives(alloc, b"a\rb\r", 2, 1, b"b"));
    assert!(rt; csv_gives(alloc, b"\"a\"\"b\"c", 1, 1, b"a\"bc"));
}

#[test]
fn marks(rt: HostRuntime) {
    let alloc = rt.alloc();
    // A byte order mark at the start of records is taken off; lines keep it, as part of the first one.
    assert!(rt; csv_gives(alloc, b"\xEF\xBB\xBFa", 1, 1, b"a"));
    assert!(rt; lines_give(alloc, b"\xEF\xBB\xBFa", 1, b"\xEF\xBB\xBFa"));
}

#[test]
fn lines(rt: HostRuntime) {
    let alloc = rt.alloc();
    assert!(rt; lines_give(alloc, b"", 0, b""));
    assert!(rt; lines_give(alloc, b"1\n\n", 2, b""));
    assert!(rt; lines_give(alloc, b"a\r\nb\r", 2, b"b\r"));
    assert!(rt; lines_give(alloc, b"a,b", 1, b"a,b"));
    assert!(rt; lines_give(alloc, b"9223372036854775808", 1, b"9223372036854775808"));
    assert!(rt; split_line(b"").is_none());
}

// Whether the faults of records and lines name their place, and what was read before them stays in the list.
fn are_placed(alloc: Global) -> bool {
    let Ok(mut texts) = Interner::new(alloc) else {
        return false;
    };
    csv_fault(alloc, b"1,2\n3,4\n5\n", &mut texts) == Some(InputFault::Ragged { at: 3 })
        && csv_fault(alloc, b"1\n\xFF,2\n", &mut texts) == Some(InputFault::Ragged { at: 2 })
        && csv_fault(alloc, b"a\n\xFF\n", &mut texts) == Some(InputFault::Utf8 { at: 2 })
        && lines_fault(alloc, b"b\n\xFF", &mut texts) == Some(InputFault::Utf8 { at: 2 })
        && texts.len() == 2
}

#[test]
fn faults(rt: HostRuntime) {
    assert!(rt; are_placed(rt.alloc()));
}

// The fields `a1`, `a2` and so on, one on each line.
fn numbered(alloc: Global, count: i64) -> Result<Vec<u8>, NoMemory> {
    let mut text = Vec::new(alloc);
    for i in 0..count {
        text.push(b'a')?;
        push_int(&mut text, i)?;
        text.push(b'\n')?;
    }
    Ok(text)
}

// Whether records of so many different texts are refused so.
fn csv_limit(alloc: Global, count: i64, fault: InputFault) -> bool {
    let Ok(mut texts) = Interner::new(alloc) else {
        return false;
    };
    match numbered(alloc, count) {
        Ok(input) => csv_fault(alloc, &input, &mut texts) == Some(fault),
        Err(_) => false,
    }
}

// Whether lines of one text are refused where they are one too many.
fn lines_limit(alloc: Global) -> bool {
    let Ok(mut texts) = Interner::new(alloc) else {
        return false;
    };
    match vec![in alloc; b'\n'; 65_537] {
        Ok(input) => {
            lines_fault(alloc, &input, &mut texts) == Some(InputFault::Cells { at: 65_537 })
        }
        Err(_) => false,
    }
}

#[test]
fn limits(rt: HostRuntime) {
    let alloc = rt.alloc();
    assert!(rt; lines_limit(alloc));
    // Both limits are passed at this record.
    assert!(rt; csv_limit(alloc, 65_537, InputFault::Cells { at: 65_537 }));
}

// Whether the text behind the most that there can be is refused.
fn is_one_text_too_many(alloc: Global) -> bool {
    let Ok(mut texts) = Interner::new(alloc) else {
        return false;
    };
    match numbered(alloc, 65_536) {
        Ok(input) => {
            texts.add(b"").is_ok()
                && csv_fault(alloc, &input, &mut texts) == Some(InputFault::Texts { at: 65_536 })
        }
        Err(_) => false,
    }
}

#[test]
fn limit_of_texts(rt: HostRuntime) {
    assert!(rt; is_one_text_too_many(rt.alloc()));
}

fn are_listed(alloc: Global) -> bool {
    let Ok(mut texts) = Interner::new(alloc) else {
        return false;
    };
    let empty = texts.is_empty();
    let first = texts.add(b"x");
    empty
        && texts.add(b"y").is_ok()
        && texts.add(b"x") == first
        && texts.add(b"\xFF") == Err(TextFault::Utf8)
        && texts.field(b"-1") == Ok(Plain::Int(-1))
        && texts.field(b"007").is_ok()
        && texts.len() == 3
}

#[test]
fn texts(rt: HostRuntime) {
    assert!(rt; are_listed(rt.alloc()));
}

// Stages two numbers of rows in turn, and puts what is staged into the grid.
fn put_rows(grid: &mut Grid, batch: &mut Batch, first: u32, then: u32) -> Result<(), BatchFault>
    requires { GoesInto batch.old grid.old }
{
    let _rows = grid.rows();
    batch.rows(first)?;
    batch.rows(then)?;
    grid.put_all(batch);
    Ok(())
}

// A grid of two rows with room for four.
fn wide(alloc: Global) -> Option<Grid> {
    let grid = Grid::new(alloc, 2, 1).ok()?;
    grid.widen(4).ok()
}

// Whether a row that goes and comes back is empty.
fn is_emptied(alloc: Global) -> bool {
    let Some(mut grid) = wide(alloc) else {
        return false;
    };
    if grid.rows() < 2 || grid.cols() < 1 {
        return false;
    }
    grid.put(1, 0, Plain::Int(2));
    let Ok(mut batch) = Batch::new(alloc, &grid) else {
        return false;
    };
    put_rows(&mut grid, &mut batch, 1, 3).is_ok()
        && grid.rows() == 3
        && holds(&grid, 1, 0, Plain::Nil)
}

// Whether what may be staged in a grid is, and what may not be isn't.
fn is_staged(alloc: Global) -> bool {
    let Some(grid) = wide(alloc) else {
        return false;
    };
    let Ok(mut batch) = Batch::new(alloc, &grid) else {
        return false;
    };
    batch.set(2, 0, Plain::Int(7)) == Err(BatchFault::Range)
        && batch.rows(5) == Err(BatchFault::Range)
        && batch.rows(3).is_ok()
        && batch.set(2, 0, Plain::Int(7)).is_ok()
        && batch.set(0, 0, Plain::Nil).is_ok()
        && batch.staged_rows() == 3
        && batch.base_rows() == 2
        && batch.len() == 2
}

#[test]
fn staged(rt: HostRuntime) {
    let alloc = rt.alloc();
    assert!(rt; is_emptied(alloc));
    assert!(rt; is_staged(alloc));
}

// Whether a batch drops what changes nothing, and then all.
fn is_netted(alloc: Global) -> bool {
    let Ok(grid) = Grid::new(alloc, 2, 1) else {
        return false;
    };
    let Ok(mut batch) = Batch::new(alloc, &grid) else {
        return false;
    };
    if batch.set(0, 0, Plain::Int(1)).is_err() || batch.set(1, 0, Plain::Nil).is_err() {
        return false;
    }
    batch.net(&grid);
    let left = batch.len();
    batch.clear(&grid);
    left == 1 && batch.len() == 0
}

// Whether a grid gives up its rows.
fn is_cut(alloc: Global) -> bool {
    let Ok(mut grid) = Grid::new(alloc, 2, 1) else {
        return false;
    };
    grid.set_rows(0);
    grid.rows() == 0
}

#[test]
fn netting(rt: HostRuntime) {
    let alloc = rt.alloc();
    assert!(rt; is_netted(alloc));
    assert!(rt; is_cut(alloc));
}
