// The places and the environment as a run begins.
ghost use Rattle.std.specs.Prelude.{◌≡◌, ◌<◌, ◌++◌, ◌∷◌, [], length, pos, Some, IfOk, OnOk};
ghost use Rattle.psac_plain.specs.Slots.{env_of};
ghost use Rattle.psac_plain.specs.Running.{places_of};
ghost use Rattle.psac_plain.specs.Opened.{row_at, row_places, cell_places, output_places, output_env, at_slot};
ghost use Rattle.psac_ops.specs.Value.{int};
ghost use Rattle.psac_plain.specs.Begins.{Begins};

use crate::binding::{Binding, bind_to};
use crate::opening::Opening;
use crate::places::make;
use psac_base::NoMemory;
use psac_inputs::Grid;
use psac_ops::{Handle, Plain, TextId};
use std::alloc::Global;

/// What a run begins with.
#[derive(Drop)]
pub struct Begun<'a> {
    pub opening: Opening<'a>,
    pub env: Vec<Binding>,
    pub heap: Vec<Option<Plain>>,
}

fn push_row(heap: &mut Vec<Option<Plain>>, grid: &Grid, row: u32) -> Result<(), NoMemory>
    requires { row < grid.now.room }
    ensures { OnOk result (places_of heap.new.items ≡ places_of heap.old.items ++ row_places (row_at grid.now row)) }
{
    for col in 0..grid.cols() {
        heap.push(Some(grid.get(row, col)))?;
    }
    Ok(())
}

/// Adds a place for each cell, row after row.
fn push_cells(heap: &mut Vec<Option<Plain>>, grid: &Grid) -> Result<(), NoMemory>
    ensures { OnOk result (places_of heap.new.items ≡ places_of heap.old.items ++ cell_places grid.now.cells) }
{
    for row in 0..grid.room() {
        push_row(heap, grid, row)?;
    }
    Ok(())
}

/// Adds an empty place for each output, and gives the environment in which the destinations refer to them.
fn push_outputs(
    alloc: Global,
    heap: &mut Vec<Option<Plain>>,
    dests: &[u16],
) -> Result<Vec<Binding>, NoMemory>
    ensures env { IfOk result (λ env. env_of env.items ≡ output_env (length heap.old.items) dests.now []) }
    ensures heap { OnOk result (places_of heap.new.items ≡ places_of heap.old.items ++ output_places dests.now) }
{
    let mut env = Vec::new(alloc);
    for d in dests {
        let made = make(heap, None)?;
        bind_to(&mut env, *d, Plain::Ref(made))?;
    }
    Ok(env)
}

/// Adds a place for the present number of rows.
fn push_row_count(heap: &mut Vec<Option<Plain>>, grid: &Grid) -> Result<Handle, NoMemory>
    ensures made { IfOk result (λ h. h ≡ at_slot (length heap.old.items)) }
    ensures heap { OnOk result (places_of heap.new.items ≡ places_of heap.old.items ++ Some (int (pos grid.now.rows)) ∷ []) }
{
    make(heap, Some(Plain::Int(i64::from(grid.rows()))))
}

/// The places of the cells, of main's outputs and of the number of rows, in this order.
pub fn begin<'a>(
    alloc: Global,
    grid: &Grid,
    dests: &[u16],
    texts: &'a [TextId],
) -> Result<Begun<'a>, NoMemory>
    ensures { IfOk result (Begins grid.now dests.now texts.now) }
{
    let mut heap = Vec::new(alloc);
    push_cells(&mut heap, grid)?;
    let env = push_outputs(alloc, &mut heap, dests)?;
    let row_count = push_row_count(&mut heap, grid)?;
    let opening = Opening {
        opened: grid.opened(),
        room: grid.room(),
        cols: grid.cols(),
        row_count,
        texts,
    };
    Ok(Begun { opening, env, heap })
}
