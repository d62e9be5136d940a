//! A node on the way down, and on the way up.
ghost use Rattle.std.specs.Prelude.{◌≡◌, ◌+◌, ◌≤◌, true, false, ◌∷◌, [], Option, IfOk, IfNone, IfSome, length};
ghost use Rattle.psac_ops.specs.declared.plain.Handle.{Handle};
ghost use Rattle.psac_fork.specs.Whole.{IsOf};
ghost use Rattle.psac_marks.specs.Passes.{Owns, Bare};
ghost use Rattle.psac_marks.specs.Steps.{IsClosed};
ghost use Rattle.psac_record.specs.Kept.{Kept, reads_of};
ghost use Rattle.psac_record.specs.Shown.{kept_of};
ghost use Rattle.psac_traced.specs.Holds.{EachOf};
ghost use Rattle.psac_repair.specs.Marks.{Nodes, Present, IsMarked};
ghost use Rattle.psac_repair.specs.Planted.{slots, tops, NoneMarked};
ghost use Rattle.psac_repair.specs.Going.{views, Asks, Clears, Looks};
ghost use Rattle.psac_repair.specs.Outcomes.{is_body};
ghost use Rattle.psac_repair.specs.Seen.{Known};
ghost use Rattle.psac_repair.specs.Changing.{Changed};

use crate::present::changed_reads;
use psac_fork::{Pass, Tables};
use psac_ops::Handle as Node;
use psac_record::{Look, Record, Seen};
use sqlite_items::Items;
use std::alloc::{AllocError, Global};

/// Whether a node is marked. Where it isn't, nothing of the record is whose first node it is.
pub fn asked(tables: &Tables, node: Node, mut pass: Pass) -> (bool, Pass)
    requires of { IsOf pass tables.now }
    requires own { Owns pass.marks.knows node }
    ensures of { IsOf result.1 tables.now }
    ensures asks { Asks (views pass) (views result.1) }
    ensures once { result.1.marks.knows.asks ≤ pass.marks.knows.asks + 1 }
    ensures marked { result.0 ≡ true → IsMarked pass.marks.knows node }
    ensures closed { IsClosed pass.marks.knows }
    ensures quiet { (above : Option Handle) (k : Kept) → tops k ≡ node.slot ∷ [] → Nodes pass.marks.knows above k → result.0 ≡ false → NoneMarked pass.marks.knows (slots k) }
{
    let marked = tables.marks.is_marked(&mut pass.marks, node);
    (marked, pass)
}

/// Clears a node of whose children none is marked.
pub fn cleared(tables: &Tables, node: Node, mut pass: Pass) -> Pass
    requires of { IsOf pass tables.now }
    requires own { Owns pass.marks.knows node }
    requires bare { Bare pass.marks.knows node.slot }
    ensures of { IsOf result tables.now }
    ensures clears { Clears node (views pass) (views result) }
{
    tables.marks.clear(&mut pass.marks, node);
    pass
}

/// What a block reads now, where that isn't what it read.
pub fn seen_again(
    alloc: Global,
    tables: &Tables,
    reads: &[Seen],
    mut pass: Pass,
) -> (Result<Option<Items<Seen>>, AllocError>, Pass)
    requires of { IsOf pass tables.now }
    requires known { Known pass.values.knows reads.now }
    ensures of { IsOf result.1 tables.now }
    ensures looks { Looks (views pass) (views result.1) }
    ensures each { result.1.values.knows.looks ≤ pass.values.knows.looks + length reads.now }
    ensures same { IfOk result.0 (λ found. IfNone found (EachOf (Present pass.values.knows) (reads_of reads.now))) }
    ensures changed { IfOk result.0 (λ found. IfSome found (λ again. Changed pass.values.knows reads.now again)) }
{
    let found = changed_reads(alloc, &tables.values, &mut pass.values, reads);
    (found, pass)
}

/// Whether a record is that of a body, and not of both sides of a par or of a read block.
pub fn is_body(tree: &Record) -> bool
    ensures { result ≡ is_body (kept_of tree.now) }
{
    match tree.look() {
        Look::End => true,
        Look::Made(..) => true,
        Look::Wrote(..) => true,
        Look::Step(..) => true,
        Look::Both(..) => false,
        Look::Block(..) => false,
    }
}
