//! Taking a subtree off: its links are left, and its nodes are detached, children first.
ghost use Rattle.std.specs.Prelude.{◌≡◌, ◌++◌, [], map, Option, ℕ, List};
ghost use Rattle.psac_ops.specs.declared.plain.Handle.{Handle};
ghost use Rattle.psac_marks.specs.Steps.{dropping};
ghost use Rattle.psac_record.specs.Kept.{links_of};
ghost use Rattle.psac_record.specs.Shown.{kept_of};
ghost use Rattle.psac_repair.specs.Marks.{Nodes};
ghost use Rattle.psac_repair.specs.Planted.{slots, Passed};
ghost use Rattle.psac_repair.specs.Linked.{LinksOnce, Linked, Relinked};
ghost use Rattle.psac_repair.specs.Taken.{MayLeave, all_left, OwnsAll, nodes_up, indexes};

use psac_marks::{Marks, MarksPass};
use psac_readers::{Readers, ReadersPass};
use psac_record::{Look, Record, Seen};

// Leaves the links of reads.
fn leave_all(readers: &Readers, pass: &mut ReadersPass, reads: &[Seen])
    requires table { pass.old.table ≡ readers.now }
    requires live { MayLeave (map (λ s. s.link.index) reads.now) pass.old.knows }
    ensures table { pass.new.table ≡ pass.old.table }
    ensures left { pass.new.knows ≡ all_left (map (λ s. s.link.index) reads.now) pass.old.knows }
{
    let [first, rest @ ..] = reads else {
        return;
    };
    readers.leave(pass, first.link);
    leave_all(readers, pass, rest);
}

// Leaves all links of a subtree.
#[tactic(auto, using(crate::proofs::Leaving::may_front, crate::proofs::Leaving::may_back, crate::proofs::Leaving::left_append, crate::proofs::Leaving::indexes_append, crate::proofs::Leaving::indexes_reads))]
fn leave_each(readers: &Readers, pass: &mut ReadersPass, tree: &Record)
    requires table { pass.old.table ≡ readers.now }
    requires live { MayLeave (indexes (links_of (kept_of tree.now))) pass.old.knows }
    ensures table { pass.new.table ≡ pass.old.table }
    ensures left { pass.new.knows ≡ all_left (indexes (links_of (kept_of tree.now))) pass.old.knows }
{
    match tree.look() {
        Look::End => {}
        Look::Made(_, rest) => leave_each(readers, pass, rest),
        Look::Wrote(_, _, rest) => leave_each(readers, pass, rest),
        Look::Step(_, inner, rest) => {
            leave_each(readers, pass, inner);
            leave_each(readers, pass, rest);
        }
        Look::Both(_, left, right) => {
            leave_each(readers, pass, left);
            leave_each(readers, pass, right);
        }
        Look::Block(reading, inner) => {
            leave_all(readers, pass, reading.reads.as_slice());
            leave_each(readers, pass, inner);
        }
    }
}

// Detaches all nodes of a subtree, children first.
#[tactic(auto, using(crate::proofs::Leaving::owns_dropping))]
fn detach_each(marks: &Marks, pass: &mut MarksPass, tree: &Record)
    requires table { pass.old.table ≡ marks.now }
    requires own { OwnsAll pass.old.knows (kept_of tree.now) }
    ensures table { pass.new.table ≡ pass.old.table }
    ensures detached { pass.new.knows ≡ dropping (nodes_up (kept_of tree.now)) pass.old.knows }
{
    match tree.look() {
        Look::End => {}
        Look::Made(_, rest) => detach_each(marks, pass, rest),
        Look::Wrote(_, _, rest) => detach_each(marks, pass, rest),
        Look::Step(node, inner, rest) => {
            detach_each(marks, pass, inner);
            detach_each(marks, pass, rest);
            marks.detach(pass, node);
        }
        Look::Both(node, left, right) => {
            detach_each(marks, pass, left);
            detach_each(marks, pass, right);
            marks.detach(pass, node);
        }
        Look::Block(reading, inner) => {
            detach_each(marks, pass, inner);
            marks.detach(pass, reading.node);
        }
    }
}

/// Leaves all links of a subtree, which are live.
#[tactic(auto, using(crate::proofs::Linking::may_leave_tree, crate::proofs::Linking::relinked_tree))]
pub fn leave_links(readers: &Readers, pass: &mut ReadersPass, tree: &Record)
    requires table { pass.old.table ≡ readers.now }
    requires linked { Linked pass.old.knows (kept_of tree.now) }
    requires once { LinksOnce pass.old.knows }
    ensures table { pass.new.table ≡ pass.old.table }
    ensures left { pass.new.knows ≡ all_left (indexes (links_of (kept_of tree.now))) pass.old.knows }
    ensures relinked { Relinked pass.old.knows pass.new.knows (links_of (kept_of tree.now)) [] }
{
    leave_each(readers, pass, tree);
}

/// Detaches all nodes of a subtree that stands in the pass.
#[tactic(auto, using(crate::proofs::Leaving::owns_tree))]
pub fn detach_nodes(marks: &Marks, pass: &mut MarksPass, tree: &Record)
    requires table { pass.old.table ≡ marks.now }
    requires nodes { (above : Option Handle) × Nodes pass.old.knows above (kept_of tree.now) }
    ensures table { pass.new.table ≡ pass.old.table }
    ensures detached { pass.new.knows ≡ dropping (nodes_up (kept_of tree.now)) pass.old.knows }
    ensures passed { (us : List ℕ) → Passed pass.old.knows pass.new.knows us (slots (kept_of tree.now)) }
{
    detach_each(marks, pass, tree);
}
