//! What holds of a pass between two calls, on both sides of a par and after the join. These functions have nothing to run.
ghost use Rattle.psac_repair.specs.FitLaws.{SetsFit, NodesFit};

/// The set of each modifiable that a side may write, or knows, is at hand on its part of the pass, and so it is after the join.
pub fn sets_stay_ready()
    ensures { SetsFit }
{}

/// A side has the parent of each node that it has and that isn't dropped, and so it is after the join. What each side left of nodes
/// both leave together.
pub fn nodes_stay_rooted()
    ensures { NodesFit }
{}
