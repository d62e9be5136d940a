//! What adds up along the walk of a repair of what blocks read and what is there now. These functions have nothing to run.
ghost use Rattle.psac_repair.specs.WatchLaws.{QuietReads, NothingWoke, LooksWake, OutsideWoke, StepsWatch, TurnsWatch, SidesWatchUp, RunsWake, SteadyParts, SteadyWatch, SteadyRun};

/// A watched record no node of which is marked read what is present.
pub fn quiet_records_read_what_is_present()
    ensures { QuietReads }
{}

/// Where nothing was written nobody is woken; and who is awake stays so where other nodes are cleared.
pub fn nothing_else_wakes()
    ensures none { NothingWoke }
    ensures looks { LooksWake }
    ensures outside { OutsideWoke }
{}

/// Of two parts, one after the other, the second is watched behind the first, and what both woke the whole woke.
pub fn parts_watch_on()
    ensures steps { StepsWatch }
    ensures turns { TurnsWatch }
{}

/// So it is with both sides of a par at once, each on its part of the pass.
pub fn sides_watch_on()
    ensures { SidesWatchUp }
{}

/// A block that ran again and raised the readers of what it wrote with other words has woken them.
pub fn runs_wake_readers()
    ensures { RunsWake }
{}

/// Where a part ended at a fault too: what its old record neither made nor wrote keeps its words, and a record that read none of that
/// is watched on.
pub fn what_is_not_touched_is_steady()
    ensures parts { SteadyParts }
    ensures watched { SteadyWatch }
    ensures run { SteadyRun }
{}
