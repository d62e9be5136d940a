//! Marks all who read a modifiable.
#![tactic(auto)]

ghost use Rattle.std.specs.Prelude.{◌≡◌, ℕ, ◌<◌, List};
ghost use Rattle.psac_slots.specs.Handles.{Member};
ghost use Rattle.psac_readers.specs.Chained.{mods_of};
ghost use Rattle.psac_readers.specs.Steps.{learned};
ghost use Rattle.psac_raise.specs.Raise.{LeadUp, Raised};

use psac_marks::{Marks, MarksPass};
use psac_ops::Handle;
use psac_readers::{Readers, ReadersPass};

/// Marks the node of each live reader of a modifiable, and its ancestors, each up to one that was marked.
pub fn raise_readers(
    readers: &Readers,
    marks: &Marks,
    sets: &mut ReadersPass,
    nodes: &mut MarksPass,
    m: Handle,
)
    requires of { (sets.old.table ≡ readers.now) × (nodes.old.table ≡ marks.now) }
    requires inside { m.slot < sets.old.knows.mods }
    requires walk { Member m.slot (mods_of sets.old.knows.walk) }
    requires paths { LeadUp sets.old.knows nodes.old.knows m.slot }
    ensures of { (sets.new.table ≡ sets.old.table) × (nodes.new.table ≡ nodes.old.table) }
    ensures sets { (chain : List ℕ) × (sets.new.knows ≡ learned m.slot chain sets.old.knows) }
    ensures raised { Raised sets.old.knows m.slot nodes.old.knows nodes.new.knows }
{
    let mut at = readers.first(sets, m);
    while let Some(link) = at {
        let node = readers.node(sets, link);
        marks.raise(nodes, node);
        at = readers.next(sets, link);
    }
}

#[cfg(test)]
mod tests;
