//! The division of a pass between the sides of a par.
ghost use Rattle.std.specs.Prelude.{◌≡◌, ◌<◌, ◌∷◌, ℕ, List, Option, Some};
ghost use Rattle.psac_ops.specs.declared.plain.Handle.{Handle};
ghost use Rattle.psac_values.specs.Steps as values;
ghost use Rattle.psac_readers.specs.Steps as readers;
ghost use Rattle.psac_marks.specs.Steps as marks;
ghost use Rattle.psac_marks.specs.Passes.{Parted};
ghost use Rattle.psac_fork.specs.Whole.{IsOf, HasRoom};
ghost use Rattle.psac_record.specs.Kept.{P};
ghost use Rattle.psac_record.specs.Shown.{kept_of, rec_of};
ghost use Rattle.psac_trace.specs.Fit.{Rooted};
ghost use Rattle.psac_repair.specs.Divided.{neither, writes_slot, has_node, has_link, outside};
ghost use Rattle.psac_repair.specs.Planted.{Planted};

use psac_fork::{Pass, PassSplit, Tables};
use psac_record::Record;
use std::marker::Brand;

// Here D is still to be picked, from what is passed.
fn divided<D: PassSplit>(tables: &Tables, pass: Pass, left: &Record, right: &Record) -> (Pass, Pass)
    requires of { IsOf pass tables.now }
    requires short { pass.depth < 62 }
    requires room { HasRoom pass }
    requires parted { Parted D.node_shared D.node_right pass.marks.knows }
    ensures of { IsOf result.0 tables.now × IsOf result.1 tables.now }
    ensures left_values { result.0.values.knows ≡ values.left_of D.shared D.to_right pass.values.knows }
    ensures right_values { result.1.values.knows ≡ values.right_of D.shared D.to_right pass.values.knows }
    ensures left_readers { result.0.readers.knows ≡ readers.left_of D.set_shared D.set_right D.link_right pass.readers.knows }
    ensures right_readers { result.1.readers.knows ≡ readers.right_of D.set_shared D.set_right D.link_right pass.readers.knows }
    ensures left_marks { result.0.marks.knows ≡ marks.left_of D.node_shared D.node_right pass.marks.knows }
    ensures right_marks { result.1.marks.knows ≡ marks.right_of D.node_shared D.node_right pass.marks.knows }
    ensures left_room { HasRoom result.0 }
    ensures right_room { HasRoom result.1 }
{
    let _ = left;
    let _ = right;
    pass.fork::<D>(tables)
}

/// What the right side wrote goes to the right, with its nodes and links, and what the left side wrote to the left; all else
/// both sides know, and may enter and raise. The nodes of each side's record stand in its pass as they stood.
pub fn fork_sides(tables: &Tables, pass: Pass, left: &Record, right: &Record) -> (Pass, Pass)
    requires of { IsOf pass tables.now }
    requires short { pass.depth < 62 }
    requires room { HasRoom pass }
    requires rooted { Rooted pass.marks.knows }
    requires planted { (us : List ℕ) × (above : Option Handle) × (n : Handle) × Planted pass.marks.knows us above (P n (kept_of left.now) (kept_of right.now)) }
    ensures of { IsOf result.0 tables.now × IsOf result.1 tables.now }
    ensures left_values { result.0.values.knows ≡ values.left_of (neither (rec_of left.now) (rec_of right.now)) (writes_slot (rec_of right.now)) pass.values.knows }
    ensures right_values { result.1.values.knows ≡ values.right_of (neither (rec_of left.now) (rec_of right.now)) (writes_slot (rec_of right.now)) pass.values.knows }
    ensures left_readers { result.0.readers.knows ≡ readers.left_of (neither (rec_of left.now) (rec_of right.now)) (writes_slot (rec_of right.now)) (has_link (kept_of right.now)) pass.readers.knows }
    ensures right_readers { result.1.readers.knows ≡ readers.right_of (neither (rec_of left.now) (rec_of right.now)) (writes_slot (rec_of right.now)) (has_link (kept_of right.now)) pass.readers.knows }
    ensures left_marks { result.0.marks.knows ≡ marks.left_of (outside pass.marks.knows (kept_of left.now) (kept_of right.now)) (has_node (kept_of right.now)) pass.marks.knows }
    ensures right_marks { result.1.marks.knows ≡ marks.right_of (outside pass.marks.knows (kept_of left.now) (kept_of right.now)) (has_node (kept_of right.now)) pass.marks.knows }
    ensures left_planted { (us : List ℕ) (above : Option Handle) (n : Handle) → Planted pass.marks.knows us above (P n (kept_of left.now) (kept_of right.now)) → Planted result.0.marks.knows (n.slot ∷ us) (Some n) (kept_of left.now) }
    ensures right_planted { (us : List ℕ) (above : Option Handle) (n : Handle) → Planted pass.marks.knows us above (P n (kept_of left.now) (kept_of right.now)) → Planted result.1.marks.knows (n.slot ∷ us) (Some n) (kept_of right.now) }
    ensures left_room { HasRoom result.0 }
    ensures right_room { HasRoom result.1 }
{
    divided::<Brand>(tables, pass, left, right)
}
