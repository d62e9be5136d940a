// One part of a dropped subtree goes back.
ghost use Rattle.std.specs.Prelude.{◌≡◌, ◌<◌, ◌≤◌, ℕ, List, [], ◌∷◌, map, Some, IfSome, sum_by};
ghost use Rattle.psac_ops.specs.declared.plain.Handle.{Handle};
ghost use Rattle.psac_slots.specs.Handles.{Member, IsDistinct};
ghost use Rattle.psac_values.specs.Knowing.{IsOut};
ghost use Rattle.psac_marks.specs.Passes.{Owns, IsDropped, Childless};
ghost use Rattle.psac_readers.specs.Chained.{named, mods_of};
ghost use Rattle.psac_record.specs.declared.parts.Seen.{Seen};
ghost use Rattle.psac_record.specs.Opened.{part_of};
ghost use Rattle.psac_reclaim.specs.Parts.{made_here, node_here, links_here};
ghost use Rattle.psac_reclaim.specs.Gave.{ValuesGave, MarksGave, Cleaned, MayRelease, MaySweep, MayGo, slots_of, sets_of};
ghost use Rattle.psac_record.specs.Kept.{Stands};

use psac_fork::Tables;
use psac_marks::{Marks, MarksPass};
use psac_ops::Handle;
use psac_readers::{Readers, ReadersPass};
use psac_record::{Part, Seen};
use psac_values::{ValuePass, Values};

// The modifiable is free again.
fn give_made(values: &Values, pass: &mut ValuePass, m: Handle)
    requires table { pass.old.table ≡ values.now }
    requires begun { pass.old.knows.claims.counter ≡ Some 0 }
    requires once { IsDistinct pass.old.knows.claims.held }
    requires out { IsOut m pass.old.knows }
    requires next { m.generation < 4294967295 }
    ensures table { pass.new.table ≡ pass.old.table }
    ensures gave { ValuesGave (m ∷ []) pass.old.knows pass.new.knows }
{
    values.give(pass, m);
}

// The node is free again, and isn't marked.
fn give_node(marks: &Marks, pass: &mut MarksPass, node: Handle)
    requires table { pass.old.table ≡ marks.now }
    requires begun { pass.old.knows.claims.counter ≡ Some 0 }
    requires once { IsDistinct pass.old.knows.claims.held }
    requires may { MayRelease node pass.old.knows }
    ensures table { pass.new.table ≡ pass.old.table }
    ensures gave { MarksGave (node ∷ []) pass.old.knows pass.new.knows }
{
    marks.release(pass, node);
}

// Sweeps the set of a read, unless it was swept since the read's link was left.
fn sweep_one(readers: &Readers, pass: &mut ReadersPass, seen: Seen)
    requires table { pass.old.table ≡ readers.now }
    requires begun { pass.old.knows.claims.counter ≡ Some 0 }
    requires once { (l : ℕ) → sum_by (named l) pass.old.knows.links ≤ 1 }
    requires sets { (m : ℕ) → m < pass.old.knows.mods → Member m (mods_of pass.old.knows.walk) }
    requires read { MaySweep seen pass.old.knows }
    ensures table { pass.new.table ≡ pass.old.table }
    ensures cleaned { Cleaned (seen.from.slot ∷ []) pass.old.knows pass.new.knows }
{
    if readers.is_dead(pass, seen.link) {
        readers.sweep(pass, seen.from);
    }
}

// The dead links of the sets that these reads name are free again.
fn sweep_all(readers: &Readers, pass: &mut ReadersPass, reads: &[Seen])
    requires table { pass.old.table ≡ readers.now }
    requires begun { pass.old.knows.claims.counter ≡ Some 0 }
    requires once { (l : ℕ) → sum_by (named l) pass.old.knows.links ≤ 1 }
    requires sets { (m : ℕ) → m < pass.old.knows.mods → Member m (mods_of pass.old.knows.walk) }
    requires reads { (s : Seen) → Member s reads.now → MaySweep s pass.old.knows }
    ensures table { pass.new.table ≡ pass.old.table }
    ensures cleaned { Cleaned (slots_of reads.now) pass.old.knows pass.new.knows }
{
    for seen in reads {
        sweep_one(readers, pass, *seen);
    }
}

// What the first part of a dropped subtree has goes back.
pub(crate) fn give_part(
    part: &Part,
    tables: &Tables,
    values: &mut ValuePass,
    readers: &mut ReadersPass,
    marks: &mut MarksPass,
)
    requires of { (values.old.table ≡ tables.now.values) × (readers.old.table ≡ tables.now.readers) × (marks.old.table ≡ tables.now.marks) }
    requires begun { (values.old.knows.claims.counter ≡ Some 0) × (readers.old.knows.claims.counter ≡ Some 0) × (marks.old.knows.claims.counter ≡ Some 0) }
    requires once { IsDistinct values.old.knows.claims.held × IsDistinct marks.old.knows.claims.held }
    requires links { (l : ℕ) → sum_by (named l) readers.old.knows.links ≤ 1 }
    requires sets { (m : ℕ) → m < readers.old.knows.mods → Member m (mods_of readers.old.knows.walk) }
    requires made { (m : Handle) → Member m (made_here (part_of part.now)) → IsOut m values.old.knows × (m.generation < 4294967295) }
    requires node { (n : Handle) → Member n (node_here (part_of part.now)) → MayRelease n marks.old.knows }
    requires reads { (s : Stands) → Member s (links_here (part_of part.now)) → MayGo s readers.old.knows }
    ensures of { (values.new.table ≡ values.old.table) × (readers.new.table ≡ readers.old.table) × (marks.new.table ≡ marks.old.table) }
    ensures values { ValuesGave (made_here (part_of part.now)) values.old.knows values.new.knows }
    ensures readers { Cleaned (sets_of (links_here (part_of part.now))) readers.old.knows readers.new.knows }
    ensures marks { MarksGave (node_here (part_of part.now)) marks.old.knows marks.new.knows }
{
    match part {
        Part::End => {}
        Part::Made(place, _) => give_made(&tables.values, values, place.modifiable),
        Part::Wrote(_, _) => {}
        Part::Step(place, _, _) => give_node(&tables.marks, marks, place.node),
        Part::Both(place, _, _) => give_node(&tables.marks, marks, place.node),
        Part::Block(place, _) => {
            give_node(&tables.marks, marks, place.reading.node);
            sweep_all(&tables.readers, readers, place.reading.reads.as_slice());
        }
    }
}
