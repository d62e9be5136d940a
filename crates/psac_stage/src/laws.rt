//! What holds of a record that is kept. These functions have nothing to run.
ghost use Rattle.psac_stage.specs.Leaving.{FirstStands};
ghost use Rattle.psac_stage.specs.Staging.{MendsBegin, StagedFounds, StagedMends};

/// A run anew that is done leaves its record so that it may be kept.
pub fn first_runs_stand()
    ensures { FirstStands }
{}

/// Once a batch is put in, the record that is kept may be repaired over the new grid, and the repair begins with all of it.
/// Each mark stands over a block that read other words than are present.
pub fn staged_records_are_mendable()
    ensures mends { StagedMends }
    ensures begins { MendsBegin }
    ensures founds { StagedFounds }
{}
