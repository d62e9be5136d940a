// The names of a record's modifiables.
ghost use Rattle.std.specs.Prelude.{◌≡◌, ◌++◌, ◌∷◌, [], List, ℕ, IfOk, OnOk, if◌then◌else◌, length, option_map, Some, None};
ghost use Rattle.psac_ops.specs.declared.plain.Handle.{Handle};
ghost use Rattle.psac_ops.specs.Named.{same_handle};
ghost use Rattle.psac_traced.specs.Places.{names};
ghost use Rattle.psac_record.specs.Shown.{rec_of};
ghost use Rattle.psac_stage.specs.Places.{name_of};
ghost use Rattle.psac_cert.specs.Named.{first_of, fixed_name, found_in, made_name, name_at, name_view, path_at};

use crate::name::Name;
use indexmap::IndexMap;
use psac_base::NoMemory;
use psac_inputs::Grid;
use psac_ops::Handle;
use psac_record::{Look, Record};
use sqlite_items::Items;
use std::alloc::Global;

#[derive(Clone, Copy, Debug, PartialEq, Eq, Hash)]
struct Place {
    slot: u32,
    generation: u32,
}

/// The names of the inputs and outputs, by their slots, and those of the modifiables that a record made.
#[derive(Drop)]
pub struct Names {
    cols: u32,
    // How many cells there are; they have the first slots.
    cells: u32,
    // How many outputs there are; they have the next slots.
    outs: usize,
    // The turns from the root to each modifiable that was made.
    made: IndexMap<Place, Items<u8>>,
}

// Notes the turns to a modifiable, where none are noted yet.
fn note(
    alloc: Global,
    made: &mut IndexMap<Place, Items<u8>>,
    handle: Handle,
    path: &[u8],
) -> Result<(), NoMemory>
    ensures { OnOk result ((h : Handle)
        → path_at made.new.entries h ≡ first_of (path_at made.old.entries h) (if same_handle handle h then Some path.now else None)) }
{
    let place = Place {
        slot: handle.slot,
        generation: handle.generation,
    };
    if made.get(&place).is_some() {
        return Ok(());
    }
    made.insert(place, Items::from_slice(alloc, path)?)?;
    Ok(())
}

// Notes what was made behind one more turn.
#[cycle(note)]
fn note_below(
    alloc: Global,
    made: &mut IndexMap<Place, Items<u8>>,
    path: &mut Vec<u8>,
    turn: u8,
    tree: &Record,
) -> Result<(), NoMemory>
    ensures path { OnOk result (path.new.items ≡ path.old.items) }
    ensures made { OnOk result ((h : Handle)
        → made_name made.new.entries h ≡ first_of (made_name made.old.entries h) (found_in (names (path.old.items ++ turn ∷ []) (rec_of tree.now)) h)) }
{
    path.push(turn)?;
    note_all(alloc, made, path, tree)?;
    path.pop();
    Ok(())
}

// Notes what a record made, to whose root a path leads.
#[cycle(note)]
fn note_all(
    alloc: Global,
    made: &mut IndexMap<Place, Items<u8>>,
    path: &mut Vec<u8>,
    tree: &Record,
) -> Result<(), NoMemory>
    ensures path { OnOk result (path.new.items ≡ path.old.items) }
    ensures made { OnOk result ((h : Handle)
        → made_name made.new.entries h ≡ first_of (made_name made.old.entries h) (found_in (names path.old.items (rec_of tree.now)) h)) }
{
    match tree.look() {
        Look::End => Ok(()),
        Look::Made(handle, rest) => {
            note(alloc, made, handle, path.as_slice())?;
            note_below(alloc, made, path, 3, rest)
        }
        Look::Wrote(_, _, rest) => note_below(alloc, made, path, 3, rest),
        Look::Step(_, inner, rest) => {
            note_below(alloc, made, path, 0, inner)?;
            note_below(alloc, made, path, 1, rest)
        }
        Look::Both(_, left, right) => {
            note_below(alloc, made, path, 0, left)?;
            note_below(alloc, made, path, 1, right)
        }
        Look::Block(_, inner) => note_below(alloc, made, path, 2, inner),
    }
}

impl Names {
    /// The names of a record's modifiables over a grid, where main has so many outputs.
    pub fn new(alloc: Global, tree: &Record, grid: &Grid, outs: usize) -> Result<Names, NoMemory>
        ensures { IfOk result (λ ns. (ds : List ℕ) → length ds ≡ outs → (h : Handle) → name_at ns h ≡ name_of grid.now ds (rec_of tree.now) h) }
    {
        let cols = grid.cols();
        let cells = grid.room() * cols;
        let mut made = IndexMap::new(alloc);
        let mut path = Vec::new(alloc);
        note_all(alloc, &mut made, &mut path, tree)?;
        Ok(Names {
            cols,
            cells,
            outs,
            made,
        })
    }

    // The name of an input or output.
    fn fixed(&self, handle: Handle) -> Option<Name<'_>>
        ensures { option_map name_view result ≡ fixed_name self.now.cols self.now.cells self.now.outs handle }
    {
        if handle.generation != 0 {
            return None;
        }
        let slot = handle.slot;
        if self.cols > 0 && slot < self.cells {
            return Some(Name::Input {
                row: slot / self.cols,
                col: slot % self.cols,
            });
        }
        let place = slot.saturating_sub(self.cells);
        if (place as usize) < self.outs {
            Some(Name::Out(place))
        } else if place as usize == self.outs {
            Some(Name::Rows)
        } else {
            None
        }
    }

    // The name of a modifiable that was made.
    fn made(&self, handle: Handle) -> Option<Name<'_>>
        ensures { option_map name_view result ≡ made_name self.now.made.entries handle }
    {
        let place = Place {
            slot: handle.slot,
            generation: handle.generation,
        };
        match self.made.get(&place) {
            Some(path) => Some(Name::Made(path.as_slice())),
            None => None,
        }
    }

    /// The name of a modifiable; one that the record and the grid don't have is taken for the number of rows.
    pub fn name(&self, handle: Handle) -> Name<'_>
        ensures { name_view result ≡ name_at self.now handle }
    {
        if let Some(name) = self.fixed(handle) {
            return name;
        }
        match self.made(handle) {
            Some(name) => name,
            None => Name::Rows,
        }
    }
}
