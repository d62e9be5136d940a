//! The division of a pass at a par.
ghost use Rattle.std.specs.Prelude.{◌≡◌, ◌<◌, ℕ, false};
ghost use Rattle.psac_values.specs.Steps as values;
ghost use Rattle.psac_readers.specs.Steps as readers;
ghost use Rattle.psac_marks.specs.Steps as marks;
ghost use Rattle.psac_marks.specs.Passes.{Parted};
ghost use Rattle.psac_fork.specs.Whole.{IsOf, HasRoom};
ghost use Rattle.psac_plain.specs.Slots.{env_of};
ghost use Rattle.psac_trace.specs.Divided.{neither, writes_slot, sets_shared};
ghost use Rattle.psac_trace.specs.Fit.{Rooted, both_have};

use psac_fork::{Pass, PassSplit, Tables};
use psac_plain::binding::Binding;
use psac_syntax::Stmt;
use std::marker::Brand;

// Here D is still to be picked, from what is passed.
fn divided<D: PassSplit>(
    tables: &Tables,
    pass: Pass,
    left: &[Stmt],
    right: &[Stmt],
    env: &[Binding],
) -> (Pass, Pass)
    requires of { IsOf pass tables.now }
    requires short { pass.depth < 62 }
    requires room { HasRoom pass }
    requires parted { Parted D.node_shared D.node_right pass.marks.knows }
    ensures of { IsOf result.0 tables.now × IsOf result.1 tables.now }
    ensures left_values { result.0.values.knows ≡ values.left_of D.shared D.to_right pass.values.knows }
    ensures right_values { result.1.values.knows ≡ values.right_of D.shared D.to_right pass.values.knows }
    ensures left_readers { result.0.readers.knows ≡ readers.left_of D.set_shared D.set_right D.link_right pass.readers.knows }
    ensures right_readers { result.1.readers.knows ≡ readers.right_of D.set_shared D.set_right D.link_right pass.readers.knows }
    ensures left_marks { result.0.marks.knows ≡ marks.left_of D.node_shared D.node_right pass.marks.knows }
    ensures right_marks { result.1.marks.knows ≡ marks.right_of D.node_shared D.node_right pass.marks.knows }
{
    let _ = left;
    let _ = right;
    let _ = env;
    pass.fork::<D>(tables)
}

/// What the right side's statements write goes to the right, with the sets of these modifiables, and what neither side writes
/// both know. Each set that both may enter and each node that isn't dropped both have.
#[tactic(auto, using(crate::proofs::Growing::parted))]
pub fn fork_for(
    tables: &Tables,
    pass: Pass,
    left: &[Stmt],
    right: &[Stmt],
    env: &[Binding],
) -> (Pass, Pass)
    requires of { IsOf pass tables.now }
    requires short { pass.depth < 62 }
    requires room { HasRoom pass }
    requires rooted { Rooted pass.marks.knows }
    ensures of { IsOf result.0 tables.now × IsOf result.1 tables.now }
    ensures left_values { result.0.values.knows ≡ values.left_of (neither left.now right.now (env_of env.now)) (writes_slot right.now (env_of env.now)) pass.values.knows }
    ensures right_values { result.1.values.knows ≡ values.right_of (neither left.now right.now (env_of env.now)) (writes_slot right.now (env_of env.now)) pass.values.knows }
    ensures left_readers { result.0.readers.knows ≡ readers.left_of (sets_shared left.now right.now (env_of env.now) pass.values.knows) (writes_slot right.now (env_of env.now)) (λ l. false) pass.readers.knows }
    ensures right_readers { result.1.readers.knows ≡ readers.right_of (sets_shared left.now right.now (env_of env.now) pass.values.knows) (writes_slot right.now (env_of env.now)) (λ l. false) pass.readers.knows }
    ensures left_marks { result.0.marks.knows ≡ marks.left_of (both_have pass.marks.knows) (λ x. false) pass.marks.knows }
    ensures right_marks { result.1.marks.knows ≡ marks.right_of (both_have pass.marks.knows) (λ x. false) pass.marks.knows }
{
    divided::<Brand>(tables, pass, left, right, env)
}
