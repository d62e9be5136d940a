//! What the end of a repair tells of the model's commit. These functions have nothing to run.
ghost use Rattle.psac_ops.specs.declared.plain.Handle.{Handle};
ghost use Rattle.psac_cut_repair.specs.Modes.{CutDrawsLess, FullRunsAnew, DoneRepairFits, EndedRepairFits};
ghost use Rattle.psac_cut_repair.specs.Reaching.{RunReadsIn, RepairReadsIn};

/// Of nodes, modifiables and links each, a repair that was cut short drew at most as many as the model's repair creates.
pub fn a_cut_repair_draws_less()
    ensures { CutDrawsLess Handle }
{}

/// Where the old record and what a repair that was cut short drew pass a cap, the model's commit runs anew, and its work is that
/// of the fresh run.
pub fn a_full_repair_runs_anew()
    ensures { FullRunsAnew Handle }
{}

/// Where a repair is done, and the old record and what was made are within the caps, the model's commit repairs, and its work is
/// that of this repair.
pub fn a_done_repair_fits()
    ensures { DoneRepairFits Handle }
{}

/// Where a repair ended, well or at a fault, and the old record and what was made are within the caps, the outcome isn't full: the
/// fresh run is within the caps, and ends as the repair did.
pub fn an_ended_repair_is_within_the_caps()
    ensures { EndedRepairFits Handle }
{}

/// A record reads only modifiables that the heap had where it began, and those that it wrote: one that a run left, and one that a
/// repair left.
pub fn records_read_what_is_there()
    ensures run { RunReadsIn Handle }
    ensures repair { RepairReadsIn Handle }
{}
