// All parts of the dropped subtrees go back, one after another.
ghost use Rattle.std.specs.Prelude.{◌≡◌, []};
ghost use Rattle.psac_record.specs.Dropped.{dropped_of};
ghost use Rattle.psac_record.specs.Kept.{made_of, links_of};
ghost use Rattle.psac_record.specs.Shown.{kept_of};
ghost use Rattle.psac_reclaim.specs.Parts.{nodes_of, in_all};
ghost use Rattle.psac_reclaim.specs.Gave.{ValuesGave, MarksGave, SameSets};
ghost use Rattle.psac_reclaim.specs.Going.{ValuesGoing, ReadersGoing, MarksGoing};

use crate::part::give_part;
use psac_fork::Tables;
use psac_marks::MarksPass;
use psac_readers::ReadersPass;
use psac_record::{Dropped, Part, Record};
use psac_values::ValuePass;

// A place of its own for the end of a part, so that the loop's proof has one way through.
fn let_go(_part: Part) {}

// The record, of which proofs alone speak, keeps what is left.
pub(crate) fn give_parts(
    _tree: &Record,
    dropped: Dropped,
    tables: &Tables,
    values: &mut ValuePass,
    readers: &mut ReadersPass,
    marks: &mut MarksPass,
)
    requires of { (values.old.table ≡ tables.now.values) × (readers.old.table ≡ tables.now.readers) × (marks.old.table ≡ tables.now.marks) }
    requires values { ValuesGoing (made_of (kept_of _tree.now)) (in_all made_of (dropped_of dropped)) values.old.knows }
    requires readers { ReadersGoing (links_of (kept_of _tree.now)) (in_all links_of (dropped_of dropped)) readers.old.knows }
    requires marks { MarksGoing (nodes_of (kept_of _tree.now)) (in_all nodes_of (dropped_of dropped)) marks.old.knows }
    ensures of { (values.new.table ≡ values.old.table) × (readers.new.table ≡ readers.old.table) × (marks.new.table ≡ marks.old.table) }
    ensures values { ValuesGave (in_all made_of (dropped_of dropped)) values.old.knows values.new.knows }
    ensures values_left { ValuesGoing (made_of (kept_of _tree.now)) [] values.new.knows }
    ensures readers { SameSets readers.old.knows readers.new.knows }
    ensures readers_left { ReadersGoing (links_of (kept_of _tree.now)) [] readers.new.knows }
    ensures marks { MarksGave (in_all nodes_of (dropped_of dropped)) marks.old.knows marks.new.knows }
    ensures marks_left { MarksGoing (nodes_of (kept_of _tree.now)) [] marks.new.knows }
{
    let mut dropped = dropped;
    while let Some(part) = dropped.take_part() {
        give_part(&part, tables, values, readers, marks);
        let_go(part);
    }
}
