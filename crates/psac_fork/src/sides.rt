//! The division of a pass between the two sides of a tree.
ghost use Rattle.std.specs.Prelude.{◌≡◌, ℕ, ◌<◌, true, false};
ghost use Rattle.psac_ops.specs.declared.plain.Handle.{Handle};
ghost use Rattle.psac_slots.specs.Handles.{Member};
ghost use Rattle.psac_values.specs.Steps as values;
ghost use Rattle.psac_values.specs.Knowing.{Has};
ghost use Rattle.psac_readers.specs.Steps as readers;
ghost use Rattle.psac_readers.specs.Chained.{mods_of};
ghost use Rattle.psac_marks.specs.Steps as marks;
ghost use Rattle.psac_marks.specs.Passes as passes;
ghost use Rattle.psac_fork.specs.Whole.{IsOf, HasRoom};
ghost use Rattle.psac_fork.specs.Parts.{lists, lists_link, neither, AreParts};

use crate::tables::{Pass, PassSplit, Tables};
use psac_ops::Handle;
use psac_readers::Link;
use std::marker::Brand;

/// What one side of a tree has in the tables. A modifiable goes with the set of its readers.
#[derive(Drop)]
pub struct Part {
    pub nodes: Vec<Handle>,
    pub links: Vec<Link>,
    pub mods: Vec<Handle>,
}

// Here D is still to be picked, from what is passed.
fn divided<D: PassSplit>(tables: &Tables, pass: Pass, left: &Part, right: &Part) -> (Pass, Pass)
    requires of { IsOf pass tables.now }
    requires short { pass.depth < 62 }
    requires room { HasRoom pass }
    requires parted { passes.Parted D.node_shared D.node_right pass.marks.knows }
    ensures of { IsOf result.0 tables.now × IsOf result.1 tables.now }
    ensures left_values { result.0.values.knows ≡ values.left_of D.shared D.to_right pass.values.knows }
    ensures right_values { result.1.values.knows ≡ values.right_of D.shared D.to_right pass.values.knows }
    ensures left_readers { result.0.readers.knows ≡ readers.left_of D.set_shared D.set_right D.link_right pass.readers.knows }
    ensures right_readers { result.1.readers.knows ≡ readers.right_of D.set_shared D.set_right D.link_right pass.readers.knows }
    ensures left_marks { result.0.marks.knows ≡ marks.left_of D.node_shared D.node_right pass.marks.knows }
    ensures right_marks { result.1.marks.knows ≡ marks.right_of D.node_shared D.node_right pass.marks.knows }
{
    let _ = left;
    let _ = right;
    pass.fork::<D>(tables)
}

/// What the right side has goes to the right, what the left one has stays, and what neither has both may see.
pub fn fork_sides(tables: &Tables, pass: Pass, left: &Part, right: &Part) -> (Pass, Pass)
    requires of { IsOf pass tables.now }
    requires short { pass.depth < 62 }
    requires room { HasRoom pass }
    requires parts { AreParts left.now.nodes.items right.now.nodes.items pass.marks.knows }
    ensures of { IsOf result.0 tables.now × IsOf result.1 tables.now }
    ensures left_values { result.0.values.knows ≡ values.left_of (neither left.now.mods.items right.now.mods.items) (lists right.now.mods.items) pass.values.knows }
    ensures right_values { result.1.values.knows ≡ values.right_of (neither left.now.mods.items right.now.mods.items) (lists right.now.mods.items) pass.values.knows }
    ensures left_readers { result.0.readers.knows ≡ readers.left_of (neither left.now.mods.items right.now.mods.items) (lists right.now.mods.items) (lists_link right.now.links.items) pass.readers.knows }
    ensures right_readers { result.1.readers.knows ≡ readers.right_of (neither left.now.mods.items right.now.mods.items) (lists right.now.mods.items) (lists_link right.now.links.items) pass.readers.knows }
    ensures left_marks { result.0.marks.knows ≡ marks.left_of (neither left.now.nodes.items right.now.nodes.items) (lists right.now.nodes.items) pass.marks.knows }
    ensures right_marks { result.1.marks.knows ≡ marks.right_of (neither left.now.nodes.items right.now.nodes.items) (lists right.now.nodes.items) pass.marks.knows }
    ensures left_has { (m : Handle) → Has pass.values.knows m → lists left.now.mods.items m.slot ≡ true → lists right.now.mods.items m.slot ≡ false → Has result.0.values.knows m }
    ensures right_has { (m : Handle) → Has pass.values.knows m → lists right.now.mods.items m.slot ≡ true → Has result.1.values.knows m }
    ensures left_owns { (h : Handle) → passes.Owns pass.marks.knows h → lists left.now.nodes.items h.slot ≡ true → passes.Owns result.0.marks.knows h }
    ensures right_owns { (h : Handle) → passes.Owns pass.marks.knows h → lists right.now.nodes.items h.slot ≡ true → passes.Owns result.1.marks.knows h }
{
    divided::<Brand>(tables, pass, left, right)
}
