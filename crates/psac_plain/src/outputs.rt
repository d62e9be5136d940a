// What is shown of a run's outputs.
ghost use Rattle.std.specs.Prelude.{◌≡◌, ◌+◌, ◌≤◌, ◌^◌, length, IfOk, slice_get, option_map, unwrap_or};
ghost use Rattle.psac_ops.specs.Named.{value_of as plain_value};
ghost use Rattle.psac_model.specs.Outputs.{shown_of};
ghost use Rattle.psac_model.specs.Plain.{outputs_at};
ghost use Rattle.psac_plain.specs.Running.{places_of};
ghost use Rattle.psac_plain.specs.Opened.{place_shown, places_shown};

use psac_base::NoMemory;
use psac_model::{End, Shown};
use psac_ops::Plain;
use std::alloc::Global;

fn show(value: Plain) -> Shown
    ensures { result ≡ shown_of (plain_value value) }
{
    match value {
        Plain::Nil => Shown::Nil,
        Plain::Bool(b) => Shown::Bool(b),
        Plain::Int(i) => Shown::Int(i),
        Plain::Text(t) => Shown::Text(t),
        Plain::Ref(_) => Shown::Ref,
        Plain::Pair(_, _) => Shown::Pair,
    }
}

fn show_place(heap: &[Option<Plain>], slot: usize) -> Shown
    ensures { result ≡ place_shown (places_of heap.now) slot }
{
    if slot < heap.len() {
        match heap[slot] {
            Some(value) => show(value),
            None => Shown::Nil,
        }
    } else {
        Shown::Nil
    }
}

fn show_places(
    alloc: Global,
    heap: &[Option<Plain>],
    first: u32,
    dests: &[u16],
) -> Result<Vec<Shown>, NoMemory>
    ensures { IfOk result (λ told. told.items ≡ places_shown (places_of heap.now) first dests.now) }
{
    let mut all = Vec::with_capacity(alloc, dests.len())?;
    for i in 0..dests.len() {
        all.push(show_place(heap, first as usize + i))?;
    }
    Ok(all)
}

/// What is shown of the outputs, whose places begin at the first; nothing of a run that stopped.
pub fn outputs_of(
    alloc: Global,
    end: End,
    heap: &[Option<Plain>],
    first: u32,
    dests: &[u16],
) -> Result<Vec<Shown>, NoMemory>
    ensures { IfOk result (λ told. told.items ≡ outputs_at end (places_shown (places_of heap.now) first dests.now)) }
{
    match end {
        End::Done => show_places(alloc, heap, first, dests),
        End::Stop(_, _) => Ok(Vec::new(alloc)),
    }
}
