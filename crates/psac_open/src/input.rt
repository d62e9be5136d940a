// The grid of an input.
ghost use Rattle.std.specs.Prelude.{◌≡◌, ◌≤◌, ◌*◌, IfOk, IfErr, Ok, Err, ◌⊎◌};
ghost use Rattle.psac_inputs.specs.Grid.{most_cells, room_for};
ghost use Rattle.psac_open.specs.Accept.{MeansLine};
ghost use Rattle.psac_open.specs.Loads.{Loads, RefusesInput, is_text_name, load_of};

use crate::refusal::{Refusal, refused};
use psac_inputs::{Grid, InputFault, Interner, load_csv, load_lines};
use psac_refusals::input_line;
use std::alloc::Global;

const MOST_CELLS: u32 = 65_536;

fn is_text(name: &str) -> bool
    ensures { result ≡ is_text_name name.now }
{
    name.as_bytes().ends_with(b".txt")
}

// For how many rows there is room where so many are asked for.
fn room(asked: u32, rows: u32, cols: u32) -> u32
    requires { rows * cols ≤ most_cells }
    ensures value { result ≡ room_for asked rows cols }
    ensures most { result * cols ≤ most_cells }
    ensures least { rows ≤ result }
{
    if cols == 0 {
        return rows;
    }
    rows.max(asked.min(MOST_CELLS / cols))
}

// The grid of an input as it is read.
fn load(alloc: Global, name: &str, bytes: &[u8], texts: &mut Interner) -> Result<Grid, InputFault>
    ensures ok { IfOk result (λ g. load_of name.now bytes.now texts.old ≡ Ok (g, texts.new)) }
    ensures err { IfErr result (λ e. (e ≡ InputFault.NoMemory) ⊎ (load_of name.now bytes.now texts.old ≡ Err e)) }
{
    if is_text(name) {
        load_lines(alloc, bytes, texts)
    } else {
        load_csv(alloc, bytes, texts)
    }
}

/// The grid of an input with this name and these bytes, with room for so many rows, where it is taken. Its texts are
/// added to the list. Else the line of its first faulty record.
pub fn take_input(
    alloc: Global,
    name: &str,
    bytes: &[u8],
    rows: u32,
    texts: &mut Interner,
) -> Result<Grid, Refusal>
    ensures taken { IfOk result (λ g. Loads name.now bytes.now rows texts.old g texts.new) }
    ensures refused { IfErr result (MeansLine (RefusesInput name.now bytes.now texts.old)) }
{
    let read = match load(alloc, name, bytes, texts) {
        Ok(read) => read,
        Err(InputFault::NoMemory) => return Err(Refusal::NoMemory),
        Err(fault) => return Err(refused(input_line(alloc, fault))),
    };
    let room = room(rows, read.rows(), read.cols());
    match read.widen(room) {
        Ok(grid) => Ok(grid),
        Err(_) => Err(Refusal::NoMemory),
    }
}
