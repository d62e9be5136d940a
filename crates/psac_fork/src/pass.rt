//! What a pass of all tables does.
ghost use Rattle.std.specs.Prelude.{◌≡◌, ℕ, ◌+◌, ◌<◌, ◌≤◌, List, [], ◌∷◌, ◌++◌, length, true, false, Bool, IfOk, sum_by};
ghost use Rattle.psac_values.specs.Steps as values;
ghost use Rattle.psac_values.specs.Knowing.{United};
ghost use Rattle.psac_readers.specs.Steps as readers;
ghost use Rattle.psac_marks.specs.declared.view.SharedView.{SharedView};
ghost use Rattle.psac_marks.specs.Marked.{HasOwn};
ghost use Rattle.psac_marks.specs.Steps as marks;
ghost use Rattle.psac_slots.specs.Handles.{Member};
ghost use Rattle.psac_slots.specs.Claiming.{DrewBelow};
ghost use Rattle.psac_readers.specs.Chained.{named};
ghost use Rattle.psac_marks.specs.Passes as passes;
ghost use Rattle.psac_fork.specs.Whole.{IsOf, HasRoom, AreSides};

use crate::tables::{Pass, PassSplit, Tables};
use psac_base::NoMemory;
use psac_marks::Marks;
use psac_model::Caps;
use psac_readers::Readers;
use psac_values::Values;
use std::alloc::Global;

impl Tables {
    /// Slots below `fixed` are inputs and outputs, and as many can be made as the cap of mods says. There is a set of
    /// readers for each of both, room for as many reads as the cap of links says, and for as many nodes as that of nodes.
    /// The pass is sole.
    pub fn new(alloc: Global, fixed: u32, caps: Caps) -> Result<(Tables, Pass), NoMemory>
        requires { fixed + caps.mods < 4294967296 }
        ensures of { IfOk result (λ r. IsOf r.1 r.0) }
        ensures values { IfOk result (λ r. r.1.values.knows ≡ values.first_view fixed caps.mods) }
        ensures readers { IfOk result (λ r. r.1.readers.knows ≡ readers.first_view caps.links (fixed + caps.mods)) }
        ensures marks { IfOk result (λ r. r.1.marks.knows ≡ marks.first_view caps.nodes) }
    {
        let (values, value_pass) = Values::new(alloc, fixed, caps.mods)?;
        let (readers, readers_pass) = Readers::new(alloc, fixed + caps.mods, caps.links)?;
        let (marks, marks_pass) = Marks::new(alloc, caps.nodes)?;
        Ok((
            Tables {
                values,
                readers,
                marks,
            },
            Pass {
                values: value_pass,
                readers: readers_pass,
                marks: marks_pass,
                depth: 0,
            },
        ))
    }
}

impl Pass {
    /// The pass's rights in each table are divided as D says. Of nodes what is dropped on a side is that side's own, and
    /// nothing shared is.
    pub fn fork<D: PassSplit>(self, tables: &Tables) -> (Pass, Pass)
        requires of { IsOf self tables.now }
        requires short { self.depth < 62 }
        requires room { HasRoom self }
        requires parted { passes.Parted D.node_shared D.node_right self.marks.knows }
        ensures of { IsOf result.0 tables.now × IsOf result.1 tables.now }
        ensures left_values { result.0.values.knows ≡ values.left_of D.shared D.to_right self.values.knows }
        ensures right_values { result.1.values.knows ≡ values.right_of D.shared D.to_right self.values.knows }
        ensures left_readers { result.0.readers.knows ≡ readers.left_of D.set_shared D.set_right D.link_right self.readers.knows }
        ensures right_readers { result.1.readers.knows ≡ readers.right_of D.set_shared D.set_right D.link_right self.readers.knows }
        ensures left_marks { result.0.marks.knows ≡ marks.left_of D.node_shared D.node_right self.marks.knows }
        ensures right_marks { result.1.marks.knows ≡ marks.right_of D.node_shared D.node_right self.marks.knows }
        ensures left_dropped { (x : ℕ) → passes.IsDropped result.0.marks.knows x → HasOwn result.0.marks.knows.own x }
        ensures right_dropped { (x : ℕ) → passes.IsDropped result.1.marks.knows x → HasOwn result.1.marks.knows.own x }
        ensures left_kept { (e : SharedView) → Member e result.0.marks.knows.shared → passes.IsKept result.0.marks.knows e.node.slot }
        ensures right_kept { (e : SharedView) → Member e result.1.marks.knows.shared → passes.IsKept result.1.marks.knows e.node.slot }
    {
        let Pass {
            values,
            readers,
            marks,
            depth,
        } = self;
        let (left_values, right_values) = tables.values.fork::<D>(values);
        let (left_readers, right_readers) = tables.readers.fork::<D>(readers);
        let (left_marks, right_marks) = tables.marks.fork::<D>(marks);
        (
            Pass {
                values: left_values,
                readers: left_readers,
                marks: left_marks,
                depth: depth + 1,
            },
            Pass {
                values: right_values,
                readers: right_readers,
                marks: right_marks,
                depth: depth + 1,
            },
        )
    }

    /// What both sides had; what one of them had alone the other didn't know. What they shared from their branch on is the
    /// pass's alone again. Of nodes what is dropped is own, and nothing shared is.
    pub fn join(left: Pass, right: Pass, tables: &Tables) -> Pass
        requires of { IsOf left tables.now × IsOf right tables.now }
        requires sides { (b : List Bool) × AreSides b left right }
        ensures of { IsOf result tables.now }
        ensures values { result.values.knows ≡ values.joined left.values.knows right.values.knows }
        ensures united { United left.values.knows right.values.knows result.values.knows }
        ensures readers { result.readers.knows ≡ readers.joined left.readers.knows right.readers.knows }
        ensures once { (l : ℕ) → sum_by (named l) result.readers.knows.links ≤ 1 }
        ensures marks { result.marks.knows ≡ marks.joined left.marks.knows right.marks.knows }
        ensures united_marks { passes.United left.marks.knows right.marks.knows result.marks.knows }
        ensures closed { marks.IsClosed result.marks.knows }
        ensures dropped { (x : ℕ) → passes.IsDropped result.marks.knows x → HasOwn result.marks.knows.own x }
        ensures kept { (e : SharedView) → Member e result.marks.knows.shared → passes.IsKept result.marks.knows e.node.slot }
    {
        let Pass {
            values,
            readers,
            marks,
            depth,
        } = left;
        let Pass {
            values: right_values,
            readers: right_readers,
            marks: right_marks,
            ..
        } = right;
        Pass {
            values: tables.values.join(values, right_values),
            readers: tables.readers.join(readers, right_readers),
            marks: tables.marks.join(marks, right_marks),
            depth: depth - 1,
        }
    }

    /// The pass, whose forks were all joined again, is sole: it knows the counters, drew each index below them once, and
    /// shares nothing.
    pub fn regain(self, tables: &Tables) -> Pass
        requires of { IsOf self tables.now }
        requires joined { self.depth ≡ 0 }
        ensures of { IsOf result tables.now }
        ensures values { (n : ℕ) × (result.values.knows ≡ values.learned n self.values.knows) × DrewBelow n self.values.knows.claims }
        ensures readers { (n : ℕ) × (result.readers.knows ≡ readers.regained n self.readers.knows) × DrewBelow n self.readers.knows.claims }
        ensures marks { (n : ℕ) × (result.marks.knows ≡ marks.regained n self.marks.knows) × DrewBelow n self.marks.knows.claims }
        ensures alone { (result.values.knows.known ≡ []) × (result.readers.knows.shared ≡ []) × (result.marks.knows.shared ≡ []) }
    {
        let Pass {
            values,
            readers,
            marks,
            depth,
        } = self;
        Pass {
            values: tables.values.regain(values),
            readers: tables.readers.regain(readers),
            marks: tables.marks.regain(marks),
            depth,
        }
    }
}
