ghost use Rattle.std.specs.Prelude.{◌≡◌, ◌<◌, ℕ};
ghost use Rattle.psac_fork.specs.Whole.{IsOf};
ghost use Rattle.psac_record.specs.Dropped.{dropped_of};
ghost use Rattle.psac_record.specs.Kept.{Stands, made_of, links_of};
ghost use Rattle.psac_record.specs.Shown.{kept_of};
ghost use Rattle.psac_reclaim.specs.Parts.{nodes_of, in_all};
ghost use Rattle.psac_reclaim.specs.Owed.{AreSole, IsNamed, Stand, ValuesOwed, ReadersOwed, MarksOwed, ValuesLeft, ReadersLeft, MarksLeft, ValuesNone, ReadersNone, MarksNone};
ghost use Rattle.psac_ops.specs.declared.plain.Handle.{Handle};
ghost use Rattle.psac_slots.specs.Handles.{Member};
ghost use Rattle.psac_readers.specs.Chained.{mods_of};

use crate::parts::give_parts;
use psac_fork::{Pass, Tables};
use psac_record::{Dropped, Record};

/// Gives back what the dropped subtrees have: their modifiables, their nodes and the links of their reads. What is out
/// afterwards is the record's, and nothing else; no set of another slot has a link, and no node is marked. What went back
/// has the next generation, and nothing else has. The pass has and knows what it had and knew of what is left, and nothing
/// of what went back. It takes no memory.
pub fn reclaim(_tree: &Record, dropped: Dropped, tables: &Tables, pass: Pass) -> Pass
    requires of { IsOf pass tables.now }
    requires sole { AreSole pass }
    requires values { ValuesOwed (made_of (kept_of _tree.now)) (in_all made_of (dropped_of dropped)) pass.values.knows }
    requires readers { ReadersOwed (links_of (kept_of _tree.now)) (in_all links_of (dropped_of dropped)) pass.readers.knows }
    requires marks { MarksOwed (nodes_of (kept_of _tree.now)) (in_all nodes_of (dropped_of dropped)) pass.marks.knows }
    requires names { (s : Stands) → Member s (links_of (kept_of _tree.now)) → IsNamed pass.values.knows.fixed (made_of (kept_of _tree.now)) s.of }
    ensures of { IsOf result tables.now }
    ensures unnamed { Stand result.values.knows result.readers.knows }
    ensures values { ValuesLeft (made_of (kept_of _tree.now)) (in_all made_of (dropped_of dropped)) pass.values.knows result.values.knows }
    ensures readers { ReadersLeft (links_of (kept_of _tree.now)) pass.readers.knows result.readers.knows }
    ensures marks { MarksLeft (nodes_of (kept_of _tree.now)) (in_all nodes_of (dropped_of dropped)) pass.marks.knows result.marks.knows }
{
    let Pass {
        mut values,
        mut readers,
        mut marks,
        depth,
    } = pass;
    tables.values.rewind(&mut values);
    tables.readers.rewind(&mut readers);
    tables.marks.rewind(&mut marks);
    give_parts(
        _tree,
        dropped,
        tables,
        &mut values,
        &mut readers,
        &mut marks,
    );
    tables.values.rewind(&mut values);
    tables.readers.rewind(&mut readers);
    tables.marks.rewind(&mut marks);
    Pass {
        values,
        readers,
        marks,
        depth,
    }
}

fn let_go(_tree: Record, _dropped: Dropped) {}

/// Gives back all that was made: no made modifiable, node or link is out afterwards, each set is empty, and none is
/// marked. A record that a run left behind is of no more use. It takes no memory.
pub fn reset(tree: Record, dropped: Dropped, tables: &Tables, pass: Pass) -> Pass
    requires of { IsOf pass tables.now }
    requires sole { AreSole pass }
    requires next_values { (h : Handle) → Member h pass.values.knows.claims.held → h.generation < 4294967295 }
    requires next_marks { (h : Handle) → Member h pass.marks.knows.claims.held → h.generation < 4294967295 }
    requires sets { (m : ℕ) → m < pass.readers.knows.mods → Member m (mods_of pass.readers.knows.walk) }
    ensures of { IsOf result tables.now }
    ensures values { ValuesNone pass.values.knows result.values.knows }
    ensures readers { ReadersNone pass.readers.knows result.readers.knows }
    ensures marks { MarksNone pass.marks.knows result.marks.knows }
{
    let_go(tree, dropped);
    let Pass {
        mut values,
        mut readers,
        mut marks,
        depth,
    } = pass;
    tables.values.give_all(&mut values);
    tables.readers.give_all(&mut readers);
    tables.marks.give_all(&mut marks);
    tables.values.rewind(&mut values);
    tables.readers.rewind(&mut readers);
    tables.marks.rewind(&mut marks);
    Pass {
        values,
        readers,
        marks,
        depth,
    }
}
